//! The types of members.

ghost use Rattle.std.specs.Prelude.{◌≡◌, OnOk, option_map, flat_map};
ghost use Rattle.ctf_types.specs.FieldTypes.{chain_of};
ghost use Rattle.tsdl_grammar.specs.Spelling.{attr_toks, int_toks, entry_toks, entries_toks, kind_toks};
ghost use Rattle.tsdl_writer.specs.{Trees.{base_number, mapping_attributes, integer_attributes, entry_tree, entry_trees, kind_tree}, Prints.Prints};

use crate::attributes::{attribute, flag_word};
use crate::printer::Token::{Mark, Number, Quoted, Whole, Word};
use crate::printer::{Printed, Printer};
use ctf_types::{Base, FieldType, IntType, Mapping, Text};
use tsdl_grammar::Mark::{CloseBrace, Colon, Comma, Dot, Ellipsis, Equals, OpenBrace, Semicolon};

/// What stands before a member's name: the type inside all static arrays.
pub(crate) fn kind(out: &mut Printer, field: &FieldType) -> Printed
    ensures { OnOk result (Prints out.old out.new (kind_toks (kind_tree (chain_of field.now).leaf))) }
{
    match field {
        FieldType::Int(int) => integer(out, int),
        FieldType::Enum(labels) => {
            out.print(&[Word("enum"), Mark(Colon)])?;
            integer(out, &labels.int)?;
            out.token(Mark(OpenBrace))?;
            entries(out, labels.mappings.as_slice())?;
            out.token(Mark(CloseBrace))
        }
        FieldType::Str => {
            out.print(&[Word("string"), Mark(OpenBrace)])?;
            attribute(out, "encoding", Word("UTF8"))?;
            out.token(Mark(CloseBrace))
        }
        FieldType::Static(element, _) => kind(out, element.field_type()),
    }
}

/// `integer { size = 8; align = 8; signed = false; base = 10; }`, with the clock that it is mapped to.
pub(crate) fn integer(out: &mut Printer, int: &IntType) -> Printed
    ensures { OnOk result (Prints out.old out.new (int_toks (integer_attributes int.now))) }
{
    out.print(&[Word("integer"), Mark(OpenBrace)])?;
    attribute(out, "size", Number(u64::from(int.size())))?;
    attribute(out, "align", Number(u64::from(int.align())))?;
    attribute(out, "signed", Word(flag_word(int.is_signed())))?;
    attribute(out, "base", Number(base_number(int.base())))?;
    mapping(out, int.clock())?;
    out.token(Mark(CloseBrace))
}

/// `map = clock.NAME.value;`, where there is a clock.
fn mapping(out: &mut Printer, clock: Option<&Text>) -> Printed
    ensures { OnOk result (Prints out.old out.new (flat_map attr_toks (mapping_attributes (option_map (λ t. t.now) clock.entry)))) }
{
    let Some(clock) = clock else { return Ok(()) };
    out.print(&[Word("map"), Mark(Equals), Word("clock"), Mark(Dot)])?;
    out.print(&[Word(clock.as_str()), Mark(Dot), Word("value")])?;
    out.token(Mark(Semicolon))
}

/// The number for a display base.
fn base_number(base: Base) -> u64
    ensures { result ≡ base_number base }
{
    match base {
        Base::Bin => 2,
        Base::Oct => 8,
        Base::Dec => 10,
        Base::Hex => 16,
    }
}

/// The entries of an enumeration, `"LABEL" = 0, "LABEL" = 1 ... 3`.
#[tactic(auto, using(crate::proofs::Printing::begun))]
fn entries(out: &mut Printer, mappings: &[Mapping]) -> Printed
    ensures { OnOk result (Prints out.old out.new (entries_toks (entry_trees mappings.now))) }
{
    let [first, others @ ..] = mappings else {
        return Ok(())
    };
    entry(out, first)?;
    for mapping in others {
        out.token(Mark(Comma))?;
        entry(out, mapping)?;
    }
    Ok(())
}

/// `"LABEL" = 1 ... 3`, or `"LABEL" = 1` where the range is of one number.
fn entry(out: &mut Printer, mapping: &Mapping) -> Printed
    ensures { OnOk result (Prints out.old out.new (entry_toks (entry_tree mapping.now))) }
{
    let label = mapping.label.as_str();
    out.print(&[Quoted(label), Mark(Equals), Whole(mapping.low)])?;
    if mapping.high <= mapping.low {
        return Ok(());
    }
    out.token(Mark(Ellipsis))?;
    out.token(Whole(mapping.high))
}
