//! Reads types, members and structures.

ghost use Rattle.tsdl_parser.specs.Rules.{shown, Gives, int_at, enum_at, kind_at, count_at, bracket_at, member_at, align_at, struct_at};

use crate::enumeration::{entries_at, expected_behind};
use crate::expected::Expected;
use crate::halt::{
    CLOSE_BRACE, CLOSE_BRACKET, CLOSE_PARENTHESIS, Missing, NAME, OPEN_BRACE, SEMICOLON, expecting,
    going_on,
};
use crate::parsing::{
    Read, begins, closed_by, keyword_at, mark_at, names, next_atom, number_at, word_at,
};
use crate::repetition::{Repeated, Start, all_at, braced_at};
use ctf_types::ListOf;
use std::alloc::Global;
use tsdl_grammar::{Atom, Atoms, Attribute, Bracket, Kind, Mark, MemberTree, Number, Structure};

#[tactic(auto, unfolding(crate::specs::Rules::int_at), using(crate::proofs::Repeated::shortens, crate::proofs::Attributes::attr_spells))]
fn int_at(alloc: Global, atoms: Atoms<'_>) -> Read<'_, ListOf<Attribute>>
    ensures { Gives (λ x. (x.0, shown x.1)) result (int_at (shown atoms.entry)) }
{
    let rest = keyword_at("integer", atoms, Expected::EnumInteger);
    let rest = going_on(rest, &[Missing::Word("integer"), OPEN_BRACE, CLOSE_BRACE])?;
    going_on(braced_at(alloc, rest), &[CLOSE_BRACE])
}

#[tactic(auto, unfolding(crate::specs::Rules::enum_at))]
fn enum_at(alloc: Global, atoms: Atoms<'_>) -> Read<'_, Kind>
    ensures { Gives (λ x. (x.0, shown x.1)) result (enum_at (shown atoms.entry)) }
{
    let rest = keyword_at("enum", atoms, Expected::Member)?;
    let rest = expecting(mark_at(Mark::Colon, rest), Expected::EnumColon);
    let rest = going_on(rest, &[Missing::Word("integer"), OPEN_BRACE, CLOSE_BRACE]);
    let rest = going_on(rest, &[OPEN_BRACE, CLOSE_BRACE])?;
    let (attrs, rest) = going_on(int_at(alloc, rest), &[OPEN_BRACE, CLOSE_BRACE])?;
    let inside = going_on(mark_at(Mark::OpenBrace, rest), &[CLOSE_BRACE])?;
    let (entries, rest) = going_on(entries_at(alloc, inside), &[CLOSE_BRACE])?;
    let rest = expecting(mark_at(Mark::CloseBrace, rest), expected_behind(&entries))?;
    Ok((Kind::Enumeration(attrs, entries), rest))
}

#[tactic(auto, unfolding(crate::specs::Rules::kind_at, crate::specs::Rules::string_at), using(crate::proofs::Repeated::shortens, crate::proofs::Attributes::attr_spells))]
fn kind_at(alloc: Global, atoms: Atoms<'_>) -> Read<'_, Kind>
    ensures { Gives (λ x. (x.0, shown x.1)) result (kind_at (shown atoms.entry)) }
{
    if names("integer", atoms) {
        let (attrs, rest) = going_on(int_at(alloc, atoms), &[NAME, SEMICOLON])?;
        return Ok((Kind::Integer(attrs), rest));
    }
    if names("enum", atoms) {
        return going_on(enum_at(alloc, atoms), &[NAME, SEMICOLON]);
    }
    let rest = keyword_at("string", atoms, Expected::Member)?;
    if !begins(Mark::OpenBrace, rest) {
        return Ok((Kind::Text(None), rest));
    }
    let (attrs, rest) = going_on(braced_at(alloc, rest), &[CLOSE_BRACE, NAME, SEMICOLON])?;
    Ok((Kind::Text(Some(attrs)), rest))
}

/// What stands between an array's brackets.
#[tactic(auto, unfolding(crate::specs::Rules::count_at))]
fn count_at(alloc: Global, atoms: Atoms<'_>) -> Read<'_, Bracket>
    ensures { Gives (λ x. (x.0, shown x.1)) result (count_at (shown atoms.entry)) }
{
    let (first, rest) = next_atom(alloc, atoms)?;
    let Some(Atom::Word(name)) = first else {
        let (count, rest) = number_at(alloc, atoms, Expected::Length)?;
        return Ok((Bracket::Count(count), rest));
    };
    Ok((Bracket::Member(name), rest))
}

impl Repeated for Bracket {
    ghost item = { bracket_at };

    #[tactic(auto, unfolding(crate::specs::Rules::bracket_at))]
    fn item_at(alloc: Global, atoms: Atoms<'_>) -> Read<'_, Bracket> {
        let inside = mark_at(Mark::OpenBracket, atoms)?;
        let count = going_on(count_at(alloc, inside), &[CLOSE_BRACKET])?;
        closed_by(Mark::CloseBracket, count)
    }
}

impl Repeated for MemberTree {
    ghost item = { member_at };

    #[tactic(auto, unfolding(crate::specs::Rules::member_at), using(crate::proofs::Repeated::shortens, crate::proofs::Members::bracket_spells))]
    fn item_at(alloc: Global, atoms: Atoms<'_>) -> Read<'_, MemberTree> {
        let (kind, rest) = kind_at(alloc, atoms)?;
        let name = word_at(alloc, rest, Expected::MemberName);
        let (name, rest) = going_on(name, &[NAME, SEMICOLON])?;
        let brackets = all_at(alloc, rest, Start::Mark(Mark::OpenBracket));
        let (brackets, rest) = going_on(brackets, &[SEMICOLON])?;
        let member = MemberTree {
            kind,
            name,
            brackets,
        };
        closed_by(Mark::Semicolon, (member, rest))
    }
}

/// A structure's alignment, if it is given.
#[tactic(auto, unfolding(crate::specs::Parsing::names, crate::specs::Parsing::keyword_at, crate::specs::Rules::align_at))]
fn align_at(alloc: Global, atoms: Atoms<'_>) -> Read<'_, Option<Number>>
    ensures { Gives (λ x. (x.0, shown x.1)) result (align_at (shown atoms.entry)) }
{
    if !names("align", atoms) {
        return Ok((None, atoms));
    }
    let inside = mark_at(Mark::OpenParenthesis, atoms.behind());
    let inside = going_on(inside, &[Missing::Zero, CLOSE_PARENTHESIS])?;
    let align = number_at(alloc, inside, Expected::Number);
    let (align, rest) = going_on(align, &[CLOSE_PARENTHESIS])?;
    closed_by(Mark::CloseParenthesis, (Some(align), rest))
}

#[tactic(auto, unfolding(crate::specs::Parsing::braced_at, crate::specs::Rules::struct_at), using(crate::proofs::Repeated::shortens, crate::proofs::Members::member_spells))]
pub(crate) fn struct_at(alloc: Global, atoms: Atoms<'_>) -> Read<'_, Structure>
    ensures { Gives (λ x. (x.0, shown x.1)) result (struct_at (shown atoms.entry)) }
{
    let rest = keyword_at("struct", atoms, Expected::Structure);
    let rest = going_on(rest, &[Missing::Word("struct"), OPEN_BRACE, CLOSE_BRACE])?;
    let inside = expecting(mark_at(Mark::OpenBrace, rest), Expected::StructureBrace);
    going_on(inside, &[CLOSE_BRACE])?;
    let (members, rest) = going_on(braced_at(alloc, rest), &[CLOSE_BRACE])?;
    let (align, rest) = align_at(alloc, rest)?;
    Ok((Structure { members, align }, rest))
}
