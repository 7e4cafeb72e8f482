//! Reads a metadata text.

ghost use Rattle.std.specs.Prelude.{◌≡◌, ℕ, IfOk, IfErr};
ghost use Rattle.ctf_types.specs.declared.Metadata.{Metadata};
ghost use Rattle.ctf_types.specs.Allowed.{IsMetadata};
ghost use Rattle.tsdl_grammar.specs.Tokens.{HasMagicLine, StopsAt};
ghost use Rattle.tsdl_grammar.specs.Denotes.{Denotes};
ghost use Rattle.tsdl_reader.specs.Reading.{GivesMetadata, GivesKind, FaultHolds};

use crate::meaning::meaning;
use ctf_types::Metadata;
use std::alloc::{AllocError, Global};
use tsdl_flaw::Stop;
use tsdl_grammar::{
    MetaFault, MetaFaultKind, check_tokens, token_start, tokens_are_unique, tokens_or_a_stop,
};
use tsdl_meaning::denoted_is_allowed;

/// The metadata that a text denotes (CTF 1.8.3, section 7 and appendix C, narrowed to what this project reads).
///
/// Where the text denotes none, the fault is the first one, at its byte: `NoMagicLine` at 0 where the text doesn't
/// begin with its magic line, `Token` at the first byte at which no token starts, and else the first fault of its
/// grammar or its meaning, at the token where it stands or at the end of the text, `NoPacketSize` only there, where a
/// stream block lacks a size. `Syntax` is where the tokens stop spelling blocks: those before can go on as blocks, and
/// with the one that stands there they cannot; or at a value that is not what its place asks for, at the name of a clock
/// that is not there, at a brace that closes what still needs an attribute, or at the end of a text without a trace
/// block or with an event of no stream. `Unsupported` names what is spelled at its place, or the version's part whose number is
/// there; `BadLength` is at a word behind a bracket.
pub fn read_metadata(alloc: Global, text: &[u8]) -> Result<Metadata, MetaFault>
    ensures found { IfOk result (λ m. Denotes text.now m × IsMetadata m) }
    ensures only { (m : Metadata) → Denotes text.now m → GivesMetadata result m }
    ensures magic { (HasMagicLine text.now → ⊥) → GivesKind result MetaFaultKind.NoMagicLine }
    ensures token { (at : ℕ) → HasMagicLine text.now → StopsAt text.now at → GivesKind result MetaFaultKind.Token }
    ensures fault { IfErr result (λ f. FaultHolds text.now f.kind f.place) }
{
    tokens_or_a_stop();
    tokens_are_unique();
    denoted_is_allowed();
    check_tokens(text)?;
    match meaning(alloc, text) {
        Ok(metadata) => Ok(metadata),
        Err(Stop::Fault(fault)) => Err(MetaFault {
            place: token_start(text, fault.at),
            kind: fault.flaw.into_kind(),
        }),
        Err(Stop::NoMemory) => Err(MetaFault::from(AllocError)),
    }
}
