//! Reads blocks, and what stands in them.

ghost use Rattle.std.specs.Prelude.{◌≡◌, List, IfOk, IfErr};
ghost use Rattle.tsdl_grammar.specs.Spelling.{text_toks};
ghost use Rattle.tsdl_parser.specs.Rules.{Block, IfHalted, HaltsAmong, shown, Gives, item_at, items_at, fact_at, named_fact_at, block_at, ended_block_at};

use crate::attribute::{attr_behind, name_at};
use crate::expected::Expected;
use crate::halt::{CLOSE_BRACE, Missing, SEMICOLON, Unread, back_to, expecting, going_on};
use crate::member::struct_at;
use crate::parsing::{
    Read, begins, closed_by, keyword_at, mark_at, names, next_atom, number_at, word_at,
};
use crate::repetition::{Repeated, Start, all_at, braced_at};
use ctf_types::ListOf;
use std::alloc::Global;
use tsdl_grammar::{Atom, Atoms, Block, Fact, Item, Mark, NamedFact, Scope};

impl Repeated for Item {
    ghost item = { item_at };

    #[tactic(auto, unfolding(crate::specs::Rules::item_at, crate::specs::Rules::scope_behind))]
    fn item_at(alloc: Global, atoms: Atoms<'_>) -> Read<'_, Item> {
        let (name, rest) = name_at(alloc, atoms, Expected::Item)?;
        if begins(Mark::Equals, rest) {
            let (attribute, rest) = attr_behind(alloc, name, rest)?;
            return Ok((Item::Attribute(attribute), rest));
        }
        let rest = expecting(mark_at(Mark::Assign, rest), Expected::ItemMark);
        let rest = back_to(rest, atoms)?;
        let (structure, rest) = going_on(struct_at(alloc, rest), &[SEMICOLON])?;
        let scope = Scope { name, structure };
        closed_by(Mark::Semicolon, (Item::Scope(scope), rest))
    }
}

/// The items of a block of this word.
#[tactic(auto, unfolding(crate::specs::Rules::items_at), using(crate::proofs::Repeated::shortens, crate::proofs::Blocks::item_spells))]
fn items_at<'a>(alloc: Global, keyword: &str, atoms: Atoms<'a>) -> Read<'a, ListOf<Item>>
    ensures { Gives (λ x. (x.0, shown x.1)) result (items_at keyword.now (shown atoms.entry)) }
{
    let rest = keyword_at(keyword, atoms, Expected::Block)?;
    going_on(braced_at(alloc, rest), &[CLOSE_BRACE, SEMICOLON])
}

#[tactic(auto, unfolding(crate::specs::Rules::fact_at))]
fn fact_at(alloc: Global, atoms: Atoms<'_>) -> Read<'_, Fact>
    ensures { Gives (λ x. (x.0, shown x.1)) result (fact_at (shown atoms.entry)) }
{
    let (first, rest) = next_atom(alloc, atoms)?;
    let Some(Atom::Text(text)) = first else {
        let (number, rest) = number_at(alloc, atoms, Expected::Fact)?;
        return Ok((Fact::Number(number), rest));
    };
    Ok((Fact::Text(text), rest))
}

impl Repeated for NamedFact {
    ghost item = { named_fact_at };

    #[tactic(auto, unfolding(crate::specs::Rules::named_fact_at))]
    fn item_at(alloc: Global, atoms: Atoms<'_>) -> Read<'_, NamedFact> {
        let (name, rest) = word_at(alloc, atoms, Expected::FactName)?;
        let rest = going_on(mark_at(Mark::Equals, rest), &[Missing::Zero, SEMICOLON])?;
        let (fact, rest) = going_on(fact_at(alloc, rest), &[SEMICOLON])?;
        closed_by(Mark::Semicolon, (NamedFact { name, fact }, rest))
    }
}

#[tactic(auto, unfolding(crate::specs::Rules::block_at), using(crate::proofs::Repeated::shortens, crate::proofs::Blocks::fact_spells))]
fn block_at(alloc: Global, atoms: Atoms<'_>) -> Read<'_, Block>
    ensures { Gives (λ x. (x.0, shown x.1)) result (block_at (shown atoms.entry)) }
{
    if names("trace", atoms) {
        let (items, rest) = items_at(alloc, "trace", atoms)?;
        Ok((Block::Trace(items), rest))
    } else if names("stream", atoms) {
        let (items, rest) = items_at(alloc, "stream", atoms)?;
        Ok((Block::Stream(items), rest))
    } else if names("event", atoms) {
        let (items, rest) = items_at(alloc, "event", atoms)?;
        Ok((Block::Event(items), rest))
    } else if names("clock", atoms) {
        let (items, rest) = items_at(alloc, "clock", atoms)?;
        Ok((Block::Clock(items), rest))
    } else {
        let rest = keyword_at("env", atoms, Expected::Block)?;
        let (facts, rest) = going_on(braced_at(alloc, rest), &[CLOSE_BRACE, SEMICOLON])?;
        Ok((Block::Environment(facts), rest))
    }
}

impl Repeated for Block {
    ghost item = { ended_block_at };

    #[tactic(auto, unfolding(crate::specs::Rules::ended_block_at))]
    fn item_at(alloc: Global, atoms: Atoms<'_>) -> Read<'_, Block> {
        closed_by(Mark::Semicolon, block_at(alloc, atoms)?)
    }
}

/// The blocks that the atoms of a text spell, or how far the atoms spell any.
#[tactic(auto, using(crate::proofs::Repeated::shortens, crate::proofs::Blocks::block_spells))]
pub fn parse(alloc: Global, atoms: Atoms<'_>) -> Result<Vec<Block>, Unread>
    ensures found { IfOk result (λ bs. (shown atoms.entry) ≡ text_toks bs.items) }
    ensures none { IfErr result (λ e. IfHalted e ((bs : List Block) → (shown atoms.entry) ≡ text_toks bs → ⊥)) }
    ensures halts { IfErr result (HaltsAmong (shown atoms.entry)) }
{
    let (found, _) = all_at(alloc, atoms, Start::InText)?;
    Ok(found.into_vec())
}
