//! Attributes: of blocks, of integers, and entries of the environment.

ghost use Rattle.std.specs.Prelude.{◌≡◌, ◌<◌, ◌^◌, [], ◌∷◌, ◌++◌, IfSome, OnOk, codes, flat_map};
ghost use Rattle.tsdl_grammar.specs.declared.atom.Atom.TheVariants as atoms;
ghost use Rattle.tsdl_grammar.specs.declared.token.Mark.TheVariants as marks;
ghost use Rattle.tsdl_grammar.specs.Spelling.{attr_toks, item_toks};
ghost use Rattle.tsdl_writer.specs.{Trees.{flag_word, natural_attribute, natural_item, text_item, optional_items, uuid_item}, Held.IsHeldUuid};
ghost use Rattle.tsdl_writer.specs.Prints.{Prints, token_toks};

use crate::printer::Token::{Mark, Number, Quoted, Word};
use crate::printer::{Printed, Printer, Token};
use ctf_types::Text;
use tsdl_grammar::Mark::{Equals, Semicolon};
use uuid::Uuid;

/// `name = value;`.
pub(crate) fn attribute<'a>(out: &mut Printer, name: &'a str, value: Token<'a>) -> Printed
    ensures { OnOk result (Prints out.old out.new (atoms.Word name.now ∷ atoms.Mark marks.Equals ∷ (token_toks value.entry ++ atoms.Mark marks.Semicolon ∷ []))) }
{
    out.print(&[Word(name), Mark(Equals), value, Mark(Semicolon)])
}

/// `name = n;`, a number of 64 bits.
pub(crate) fn natural(out: &mut Printer, name: &str, n: u64) -> Printed
    ensures prints { OnOk result (Prints out.old out.new (attr_toks (natural_attribute name.now n))) }
    ensures fits { n < 2 ^ 64 }
{
    attribute(out, name, Number(n))
}

/// `uuid = "..";`, where there is one.
pub(crate) fn uuid(out: &mut Printer, uuid: &Option<Uuid>) -> Printed
    ensures prints { OnOk result (Prints out.old out.new (flat_map item_toks (optional_items uuid_item uuid.now))) }
    ensures held { IfSome uuid.now IsHeldUuid }
{
    let Some(uuid) = uuid else { return Ok(()) };
    let mut buffer = Uuid::encode_buffer();
    let text = uuid.hyphenated().encode_lower(&mut buffer);
    attribute(out, "uuid", Quoted(text))
}

/// `description = "..";`, where there is one.
pub(crate) fn description(out: &mut Printer, words: &Option<Text>) -> Printed
    ensures { OnOk result (Prints out.old out.new (flat_map item_toks (optional_items (text_item (codes "description")) words.now))) }
{
    let Some(words) = words else { return Ok(()) };
    attribute(out, "description", Quoted(words.as_str()))
}

/// `loglevel = n;`, where there is one.
pub(crate) fn log_level(out: &mut Printer, level: Option<u64>) -> Printed
    ensures { OnOk result (Prints out.old out.new (flat_map item_toks (optional_items (natural_item (codes "loglevel")) level))) }
{
    let Some(level) = level else { return Ok(()) };
    attribute(out, "loglevel", Number(level))
}

/// The word for a flag.
pub(crate) fn flag_word(flag: bool) -> &'static str
    ensures { result.now ≡ flag_word flag }
{
    if flag { "true" } else { "false" }
}
