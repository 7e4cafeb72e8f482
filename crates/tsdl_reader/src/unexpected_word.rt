//! What is wrong with a word where something else is expected.

ghost use Rattle.std.specs.Prelude.{◌≡◌, IfOk, Some};
ghost use Rattle.tsdl_grammar.specs.declared.atom.Atom.TheVariants as atoms;
ghost use Rattle.tsdl_reader.specs.Reading.{IsFlawOf};

use crate::place::{has_mark, has_word, is_word};
use ctf_types::is_unused_keyword;
use std::alloc::{AllocError, Global};
use tsdl_flaw::{Flaw, Remedy};
use tsdl_grammar::Mark;
use tsdl_parser::Expected;

/// The words that begin a type which is read.
const TYPE_WORDS: &[&str] = &["enum", "integer", "string", "struct"];

/// The words that a definition of a type can begin with, where blocks stand.
const DEFINITIONS_AMONG_BLOCKS: &[&str] = &["enum", "struct", "typealias", "typedef"];

/// The words that a definition of a type can begin with, in a block or a structure.
const DEFINITIONS_INSIDE: &[&str] = &["typealias", "typedef"];

/// The flaw of the word of this index where something else is expected.
pub(crate) fn flaw_of_word(
    alloc: Global,
    text: &[u8],
    at: usize,
    word: &str,
    expected: Expected,
) -> Result<Flaw, AllocError>
    ensures { IfOk result (IsFlawOf (Some (atoms.Word word.now))) }
{
    if is_unsupported(word, expected) {
        let name = String::from_str(alloc, word)?;
        return Ok(Flaw::Unsupported(name, remedy_of(word, expected)));
    }
    if TYPE_WORDS.contains(&word) {
        return Ok(Flaw::Syntax(expected.words()));
    }
    if names_a_definition(alloc, text, at, expected)? {
        return Ok(Flaw::TypeDefinition);
    }
    if is_type_name(alloc, text, at, expected)? {
        return Ok(Flaw::NamedType(expected.words()));
    }
    Ok(Flaw::Syntax(expected.words()))
}

/// Whether a word is told to be not supported: any one where a block begins, and the keywords of constructs that are not
/// read.
fn is_unsupported(word: &str, expected: Expected) -> bool {
    match expected {
        Expected::Block => true,
        Expected::Member if word == "struct" => true,
        _ => is_unused_keyword(word),
    }
}

/// What can be done about a word that is not supported. A conversion writes a definition of a type in other words, where
/// one can stand; for a type that nothing defines there is no conversion, and types of reals and variants stay.
fn remedy_of(word: &str, expected: Expected) -> Remedy {
    let converted = match expected {
        Expected::Block => DEFINITIONS_AMONG_BLOCKS.contains(&word),
        Expected::Item | Expected::Member => DEFINITIONS_INSIDE.contains(&word),
        _ => false,
    };
    if converted {
        Remedy::Conversion
    } else {
        Remedy::Instead(expected.words())
    }
}

/// Whether the word of this index names a type that is defined right there, as in `enum e : integer` and `struct s {`.
fn names_a_definition(
    alloc: Global,
    text: &[u8],
    at: usize,
    expected: Expected,
) -> Result<bool, AllocError> {
    let behind = at.saturating_add(1);
    match expected {
        Expected::EnumColon => Ok(
            has_mark(alloc, text, behind, Mark::Colon)?
                && has_word(alloc, text, behind.saturating_add(1), &["integer"])?,
        ),
        Expected::StructureBrace => has_mark(alloc, text, behind, Mark::OpenBrace),
        _ => Ok(false),
    }
}

/// Whether the word of this index stands in the place of a type, which nothing before can have defined. At a member it does
/// where the member's name stands behind it.
fn is_type_name(
    alloc: Global,
    text: &[u8],
    at: usize,
    expected: Expected,
) -> Result<bool, AllocError> {
    match expected {
        Expected::Member => is_word(alloc, text, at.saturating_add(1)),
        Expected::EnumColon
        | Expected::EnumInteger
        | Expected::Structure
        | Expected::StructureBrace => Ok(true),
        _ => Ok(false),
    }
}
