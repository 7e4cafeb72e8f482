//! The names of a script's streams.

ghost use Rattle.std.specs.Prelude.{◌≡◌, [], map};
ghost use Rattle.trace_stack.specs.StreamNames.{is_stream_name as is_stream_name_of, is_taken as is_taken_of, name_fault as name_fault_of};
ghost use Rattle.trace_text.specs.Names.{first_refused};

use crate::script::{Script, ScriptStream};
use ctf_types::{MAX_NAME_BYTES, is_identifier};
use trace_stack::NameFault;

/// The most streams of a session.
const MOST_STREAMS: usize = 64;

/// The index of the first stream that a session refuses by its name behind those before it, and why. None where it refuses none.
pub fn names_fault(script: &Script) -> Option<(usize, NameFault)>
    ensures { result ≡ first_refused [] 0 (map (λ s. s.name) script.now.streams) }
{
    let streams = script.streams.as_slice();
    for (index, stream) in streams.iter().enumerate() {
        if let Some(fault) = name_fault(&streams[..index], stream.name.as_str()) {
            return Some((index, fault));
        }
    }
    None
}

/// Why a session refuses a stream by its name behind these.
fn name_fault(before: &[ScriptStream], name: &str) -> Option<NameFault>
    ensures { result ≡ name_fault_of (map (λ s. s.name) before.now) name.now }
{
    if !is_stream_name(name) {
        Some(NameFault::BadName)
    } else if is_taken(before, name) {
        Some(NameFault::SameName)
    } else if before.len() < MOST_STREAMS {
        None
    } else {
        Some(NameFault::TooMany)
    }
}

fn is_stream_name(name: &str) -> bool
    ensures { result ≡ is_stream_name_of name.now }
{
    is_identifier(name) && name.len() <= MAX_NAME_BYTES && name != "metadata"
}

fn is_taken(streams: &[ScriptStream], name: &str) -> bool
    ensures { result ≡ is_taken_of (map (λ s. s.name) streams.now) name.now }
{
    for stream in streams {
        if stream.name.as_str() == name {
            return true;
        }
    }
    false
}
