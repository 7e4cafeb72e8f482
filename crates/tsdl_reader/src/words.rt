//! Faults of a metadata text as people read them.

ghost use Rattle.std.specs.Prelude.{◌≡◌, true, IfOk, IfSome, string_bytes};
ghost use Rattle.tsdl_reader.specs.Explained.{says_all, IsExplained, IsSaid, TellsNumbers};

use crate::cut::with_short_name;
use crate::meaning::meaning;
use crate::token_words::token_words;
use std::alloc::{AllocError, Global};
use tsdl_flaw::{CONVERTED, Flaw, Stop};
use tsdl_grammar::{MAGIC_LINE, MetaFault, MetaFaultKind, check_tokens, found_at};

/// What packets of metadata begin with, as numbers in both byte orders.
const PACKET_MAGIC: [[u8; 4]; 2] = [[0x57, 0x1d, 0xd1, 0x75], [0x75, 0xd1, 0x1d, 0x57]];

/// The fault that `read_metadata` answers for a text, in words: its byte, line and column, what stands there, what is
/// wrong, and what was expected or what can be done where that is not said by then.
pub fn explain_fault(alloc: Global, text: &[u8], fault: &MetaFault) -> Result<String, AllocError>
    ensures { IfOk result (λ said. IsExplained text.now fault.now (string_bytes said)) }
{
    let found = found_at(alloc, text, fault.place)?;
    let words = words_of(alloc, text, fault)?;
    format!(in alloc; "{found}: {words}")
}

/// What is wrong with a text at its fault, in words.
fn words_of(alloc: Global, text: &[u8], fault: &MetaFault) -> Result<String, AllocError>
    ensures { says_all fault.now.kind ≡ true → IfOk result (λ words. IsSaid fault.now.kind (string_bytes words)) }
{
    match told_by(alloc, text, fault)? {
        Some(words) => Ok(words),
        None => fault.kind.to_string(alloc),
    }
}

/// What a text tells of its fault, where the kind of the fault does not say all of it.
fn told_by(alloc: Global, text: &[u8], fault: &MetaFault) -> Result<Option<String>, AllocError>
    ensures { says_all fault.now.kind ≡ true → IfOk result (λ said. IfSome said (λ words. TellsNumbers fault.now.kind (string_bytes words))) }
{
    match fault.kind {
        MetaFaultKind::NoMagicLine => beginning_words(alloc, text),
        MetaFaultKind::Token => token_words(alloc, text, fault.place),
        MetaFaultKind::Syntax | MetaFaultKind::Unsupported(_) | MetaFaultKind::Limit => {
            atoms_words(alloc, text)
        }
        MetaFaultKind::Duplicate | MetaFaultKind::NoPacketSize => numbers_words(alloc, text, fault),
        MetaFaultKind::BadLength | MetaFaultKind::OutOfMemory => Ok(None),
    }
}

/// What a text begins with that is known in place of its magic line: a packet of metadata, as tracers write them that
/// stream it, the first record of metadata of CTF 2, or a byte order mark.
fn beginning_words(alloc: Global, text: &[u8]) -> Result<Option<String>, AllocError> {
    if PACKET_MAGIC.iter().any(|magic| text.starts_with(magic)) {
        return Ok(Some(format!(in alloc; "metadata in packets is not read here{CONVERTED}")?));
    }
    let words = match text {
        [0x1e, b'{', ..] => "this is metadata of CTF 2, which is not read here",
        [0xef, 0xbb, 0xbf, behind @ ..] if behind.starts_with(MAGIC_LINE) => {
            "a byte order mark stands before the line `/* CTF 1.8 */`"
        }
        _ => return Ok(None),
    };
    Ok(Some(String::from_str(alloc, words)?))
}

/// Which numbers stand twice, or which stream lacks a size.
fn numbers_words(
    alloc: Global,
    text: &[u8],
    fault: &MetaFault,
) -> Result<Option<String>, AllocError>
    ensures { IfOk result (λ said. IfSome said (λ words. TellsNumbers fault.now.kind (string_bytes words))) }
{
    match (&fault.kind, flaw_of_atoms(alloc, text)?) {
        (MetaFaultKind::Duplicate, Some(Flaw::NumberTwice(numbered))) => {
            Ok(Some(numbered.words(alloc)?))
        }
        (MetaFaultKind::NoPacketSize, Some(Flaw::NoSize(sizeless))) => {
            Ok(Some(sizeless.words(alloc)?))
        }
        _ => Ok(None),
    }
}

/// What is wrong with the atoms of a text, in words.
fn atoms_words(alloc: Global, text: &[u8]) -> Result<Option<String>, AllocError> {
    match flaw_of_atoms(alloc, text)? {
        Some(flaw) => with_short_name(alloc, flaw)?.words(alloc),
        None => Ok(None),
    }
}

/// What is wrong with the atoms of a text.
fn flaw_of_atoms(alloc: Global, text: &[u8]) -> Result<Option<Flaw>, AllocError> {
    if check_tokens(text).is_err() {
        return Ok(None);
    }
    match meaning(alloc, text) {
        Err(Stop::Fault(fault)) => Ok(Some(fault.flaw)),
        Err(Stop::NoMemory) => Err(AllocError),
        Ok(_) => Ok(None),
    }
}
