//! Members of structures, each on a line of its own.

ghost use Rattle.std.specs.Prelude.{map, Some, OnOk, flat_map};
ghost use Rattle.ctf_types.specs.{FieldTypes.chain_of, MetadataOf.{number_member, uuid_member}};
ghost use Rattle.tsdl_grammar.specs.Spelling.{bracket_toks};
ghost use Rattle.tsdl_writer.specs.{Trees.{count_bracket, member_toks_of}, Prints.Prints};

use crate::printer::Token::{LengthOf, Mark, Number, Word};
use crate::printer::{Printed, Printer};
use crate::types::{integer, kind};
use ctf_types::{Base, FieldType, IntType, Length, MemberType, Members};
use tsdl_grammar::Mark::{CloseBracket, OpenBracket, Semicolon};

/// The members of a structure. A dynamic array has its length in a member before it.
#[tactic(auto, using(crate::proofs::Printing::begun))]
pub(crate) fn members(out: &mut Printer, members: &Members) -> Printed
    ensures { OnOk result (Prints out.old out.new (flat_map member_toks_of members.now)) }
{
    for index in 0..members.len() {
        member(out, members.name_at(index), members.member_at(index))?;
    }
    Ok(())
}

/// The members for one of a configuration. A dynamic array has its length's name in the first brackets; none has a length in a listed member.
fn member(out: &mut Printer, name: &str, member: &MemberType) -> Printed
    ensures { OnOk result (Prints out.old out.new (member_toks_of (name.now, member.now))) }
{
    match member {
        MemberType::Plain(field) => {
            kind(out, field)?;
            out.token(Word(name))?;
            lengths(out, field)?;
            out.token(Mark(Semicolon))
        }
        MemberType::Dyn(element, Length::Auto) => {
            let Some(length) = IntType::new(32, 8, false, Base::Dec) else {
                unreachable!()
            };
            integer(out, &length)?;
            out.print(&[LengthOf(name), Mark(Semicolon)])?;
            kind(out, element)?;
            out.print(&[Word(name), Mark(OpenBracket), LengthOf(name)])?;
            out.token(Mark(CloseBracket))?;
            lengths(out, element)?;
            out.token(Mark(Semicolon))
        }
        MemberType::Dyn(_, Length::At(_)) => Ok(()),
    }
}

/// The lengths of the static arrays, the outermost first.
fn lengths(out: &mut Printer, field: &FieldType) -> Printed
    ensures { OnOk result (Prints out.old out.new (flat_map bracket_toks (map count_bracket (chain_of field.now).lengths))) }
{
    match field {
        FieldType::Int(_) | FieldType::Enum(_) | FieldType::Str => Ok(()),
        FieldType::Static(element, length) => {
            let length = Number(u64::from(*length));
            out.print(&[Mark(OpenBracket), length, Mark(CloseBracket)])?;
            lengths(out, element.field_type())
        }
    }
}

/// The member of a feature, where that is on.
pub(crate) fn feature(out: &mut Printer, name: &str, feature: &Option<IntType>) -> Printed
    ensures { OnOk result (Prints out.old out.new (flat_map member_toks_of (number_member name.now feature.now))) }
{
    let Some(int) = feature else { return Ok(()) };
    number(out, name, int)
}

/// An integer member.
pub(crate) fn number(out: &mut Printer, name: &str, int: &IntType) -> Printed
    ensures { OnOk result (Prints out.old out.new (flat_map member_toks_of (number_member name.now (Some int.now)))) }
{
    integer(out, int)?;
    out.print(&[Word(name), Mark(Semicolon)])
}

/// The member of the trace's identifier, where the feature is on: an array of 16 such integers.
pub(crate) fn identifier(out: &mut Printer, feature: &Option<IntType>) -> Printed
    ensures { OnOk result (Prints out.old out.new (flat_map member_toks_of (uuid_member feature.now))) }
{
    let Some(int) = feature else { return Ok(()) };
    integer(out, int)?;
    out.print(&[Word("uuid"), Mark(OpenBracket), Number(16)])?;
    out.print(&[Mark(CloseBracket), Mark(Semicolon)])
}
