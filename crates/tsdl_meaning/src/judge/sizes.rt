//! Which stream lacks a size of its packets (CTF 1.8.3, section 5.2).

ghost use Rattle.std.specs.Prelude.{◌≡◌};
ghost use Rattle.tsdl_meaning.specs.Words.{kind_of};
ghost use Rattle.tsdl_grammar.specs.declared.fault.MetaFaultKind.TheVariants as faults;

use crate::lookup::{number_or_zero, scope_in};
use crate::stream::{CONTENT_SIZE, PACKET_CONTEXT, PACKET_SIZE};
use tsdl_flaw::{Flaw, Sizeless};
use tsdl_grammar::{Block, Item};

/// The flaw of blocks of which a stream lacks a size: the first such stream, and the first size that it lacks.
pub(crate) fn flaw_of_sizes(blocks: &[Block]) -> Flaw
    ensures { kind_of result ≡ faults.NoPacketSize }
{
    for block in blocks {
        if let Block::Stream(items) = block {
            if let Some(sizeless) = sizeless_in(items.as_slice()) {
                return Flaw::NoSize(sizeless);
            }
        }
    }
    Flaw::NoPacketSize
}

/// The first size that a stream of these items lacks.
fn sizeless_in(items: &[Item]) -> Option<Sizeless> {
    let names = [PACKET_SIZE, CONTENT_SIZE];
    let mut sizes = names.iter();
    let size = *sizes.find(|size| !has_in_context(size, items))?;
    let stream = number_or_zero("id", items)?;
    Some(Sizeless { stream, size })
}

/// Whether the packet context of a stream of these items has a member of this name.
fn has_in_context(name: &str, items: &[Item]) -> bool {
    scope_in(PACKET_CONTEXT.0, items).is_some_and(|context| {
        let members = context.members.as_slice();
        members.iter().any(|member| member.name.as_str() == name)
    })
}
