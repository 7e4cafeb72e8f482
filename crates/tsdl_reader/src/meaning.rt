//! What the atoms of a text mean, or their first fault.

ghost use Rattle.std.specs.Prelude.{◌<◌, ◌≤◌, length, IfOk, IfErr, IfSome};
ghost use Rattle.ctf_types.specs.declared.Metadata.{Metadata};
ghost use Rattle.tsdl_grammar.specs.Fronts.{atoms_in};
ghost use Rattle.tsdl_grammar.specs.Halts.{IsHalt};
ghost use Rattle.tsdl_flaw.specs.Stopping.{kind_of};
ghost use Rattle.tsdl_flaw.specs.Flaws.{FaultStands};
ghost use Rattle.tsdl_flaw.specs.TextStops.{IfFault};
ghost use Rattle.tsdl_meaning.specs.PacketSizes.{IfSizesMissed};
ghost use Rattle.tsdl_reader.specs.Reading.{Means, IsFaultOf, MeansNothing, LackSizes};

use crate::unexpected::unexpected;
use ctf_types::Metadata;
use std::alloc::{AllocError, Global};
use tsdl_flaw::{Fault, Stop};
use tsdl_grammar::{Atoms, atom_count};
use tsdl_meaning::{Survey, first_flaw, metadata_of};
use tsdl_parser::{Expected, Missing, Unread, blocks_are_unique, first_unread, parse};

/// The metadata that the atoms of a text mean, or the first fault of their grammar or their meaning.
pub(crate) fn meaning(alloc: Global, text: &[u8]) -> Result<Metadata, Stop>
    ensures found { IfOk result (Means (atoms_in text.now)) }
    ensures none { IfErr result (λ stop. IfFault stop (MeansNothing (atoms_in text.now))) }
    ensures fault { IfErr result (IsFaultOf (atoms_in text.now)) }
    ensures sizes { IfErr result (λ stop. IfSizesMissed stop (LackSizes (atoms_in text.now))) }
{
    blocks_are_unique();
    let all = atom_count(text);
    let end = first_unread(text).unwrap_or(all);
    match parse(alloc, Atoms::up_to(text, end)) {
        Ok(blocks) if end == all => metadata_of(alloc, &blocks),
        Ok(_) => Err(first_fault(alloc, text, end, end, Expected::Block, &[])),
        Err(Unread::Halted(halt)) => Err(first_fault(
            alloc,
            text,
            halt.at(end),
            halt.kept(end),
            halt.expected,
            &halt.rest,
        )),
        Err(Unread::Memory) => Err(Stop::NoMemory),
    }
}

/// The first fault of a text that stops spelling blocks at an atom, where the first atoms can be kept and go on
/// with what is missing: a flaw of the meaning of what is kept, or what stands at the place.
fn first_fault(
    alloc: Global,
    text: &[u8],
    at: usize,
    kept: usize,
    expected: Expected,
    rest: &[Missing],
) -> Stop
    requires kept { kept ≤ length (atoms_in text.now) }
    requires halt { IsHalt (atoms_in text.now) at }
    ensures fault { IsFaultOf (atoms_in text.now) result }
    ensures sizes { IfSizesMissed result ⊥ }
{
    let unfit = unexpected(alloc, text, at, expected);
    match flaw_before(alloc, text, kept, rest) {
        Ok(Some(fault)) => Stop::Fault(fault),
        Ok(None) => unfit,
        Err(_) => Stop::NoMemory,
    }
}

/// The first flaw of the meaning of atoms that are kept, if there is one before the place where they go on.
fn flaw_before(
    alloc: Global,
    text: &[u8],
    kept: usize,
    rest: &[Missing],
) -> Result<Option<Fault>, AllocError>
    requires { kept ≤ length (atoms_in text.now) }
    ensures { IfOk result (λ found. IfSome found (λ fault. (fault.at < length (atoms_in text.now)) × FaultStands (atoms_in text.now) fault.at (kind_of fault.flaw))) }
{
    let survey = Survey::of(alloc, text)?;
    let more = spelling(alloc, rest)?;
    let blocks = match parse(alloc, Atoms::with_more(text, kept, &more)) {
        Ok(blocks) => blocks,
        Err(Unread::Halted(_)) => return Ok(None),
        Err(Unread::Memory) => return Err(AllocError),
    };
    match first_flaw(alloc, &survey, &blocks) {
        Stop::Fault(fault) if fault.at < kept && fault.end <= kept => Ok(Some(fault)),
        Stop::Fault(_) => Ok(None),
        Stop::NoMemory => Err(AllocError),
    }
}

/// What is missing as it is written, with blanks between.
fn spelling(alloc: Global, rest: &[Missing]) -> Result<Vec<u8>, AllocError> {
    let mut written = Vec::new(alloc);
    for missing in rest {
        written.extend_from_slice(missing.spelling().as_bytes())?;
        written.push(b' ')?;
    }
    Ok(written)
}
