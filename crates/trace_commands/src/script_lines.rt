//! The lines of a script's faults.

ghost use Rattle.std.specs.Prelude.{◌≡◌, ◌<◌, IfOk, length, string_bytes};
ghost use Rattle.trace_text.specs.ScriptFaults.{IsFirstFault};
ghost use Rattle.trace_stack.specs.FaultWords.{name_words};
ghost use Rattle.trace_commands.specs.ScriptLines.{IsScriptLine, IsStreamLine, SaysPosition, SaysWhere, begin_words, size_hint as size_hint_of};

use crate::fault_lines::fault_line;
use crate::script_entry::{placed, said_of_fault};
use conf_fault::{json_place, push_cut};
use ctf_types::Config;
use serde_json::Value;
use std::alloc::{AllocError, Global};
use thread_stream::StreamFault;
use trace_stack::{AddFault, NameFault};
use trace_text::{FaultyList, Script, ScriptFault, ScriptFaultKind};

/// The line of a text that is no script of the configuration, and has this first fault. Where it is no JSON, the place is a line and a column, else an entry.
pub fn script_line(
    alloc: Global,
    file: &str,
    config: &Config,
    text: &[u8],
    fault: &ScriptFault,
) -> Result<Vec<u8>, AllocError>
    requires { IsFirstFault config.now text.now fault.now }
    ensures { IfOk result (λ line. IsScriptLine file.now config.now text.now fault.now line.items) }
{
    let said = said_of_text(alloc, config, text, fault)?;
    fault_line(alloc, file, said.as_str())
}

/// What is said of a text that is no script, and has this first fault.
fn said_of_text(
    alloc: Global,
    config: &Config,
    text: &[u8],
    fault: &ScriptFault,
) -> Result<String, AllocError>
    requires { IsFirstFault config.now text.now fault.now }
    ensures { IfOk result (λ said. SaysWhere config.now text.now fault.now (string_bytes said)) }
{
    match Value::from_slice(alloc, text) {
        Ok(script) => said_of_fault(alloc, config, &script, fault),
        Err(error) => {
            if error.is_memory() {
                return Err(AllocError);
            }
            said_of_no_json(alloc, text, fault.kind)
        }
    }
}

/// What is said of a text that is no JSON.
fn said_of_no_json(alloc: Global, text: &[u8], kind: ScriptFaultKind) -> Result<String, AllocError>
    ensures { IfOk result (λ said. SaysPosition text.now kind (string_bytes said)) }
{
    let place = json_place(alloc, text)?;
    let mut said = format!(in alloc; "line {}, column {}: ", place.line, place.column)?;
    let words = format!(in alloc; "{kind}")?;
    said.push_str(words.as_str())?;
    Ok(said)
}

/// The line of a stream of the script that a session refuses by its name.
pub fn name_line(
    alloc: Global,
    file: &str,
    script: &Script,
    number: usize,
    fault: NameFault,
) -> Result<Vec<u8>, AllocError>
    requires { number < length script.now.streams }
    ensures { IfOk result (λ line. IsStreamLine file.now script.now number (name_words fault) line.items) }
{
    let why = format!(in alloc; "{fault}")?;
    stream_line(alloc, file, script, number, why.as_str())
}

/// The line of a stream of the script that is not begun. Where its packets are too small, it names the option that makes them larger.
pub fn begin_line(
    alloc: Global,
    file: &str,
    script: &Script,
    number: usize,
    fault: AddFault,
) -> Result<Vec<u8>, AllocError>
    requires { number < length script.now.streams }
    ensures { IfOk result (λ line. IsStreamLine file.now script.now number (begin_words fault) line.items) }
{
    let mut why = format!(in alloc; "{fault}")?;
    why.push_str(size_hint(fault))?;
    stream_line(alloc, file, script, number, why.as_str())
}

/// The option by which packets have room for what has none, and nothing for another fault.
fn size_hint(fault: AddFault) -> &'static str
    ensures { result.now ≡ size_hint_of fault }
{
    match fault {
        AddFault::Stream(StreamFault::BufferTooSmall) => " (--packet makes packets larger)",
        AddFault::Name(_) | AddFault::WrongStream => "",
        AddFault::Stream(
            StreamFault::NoSuchStream
            | StreamFault::BadExtras(_)
            | StreamFault::SizeField
            | StreamFault::OutOfMemory,
        ) => "",
    }
}

/// The line of what is said of a stream of the script: its place, its name, or the first characters of it, and then why.
fn stream_line(
    alloc: Global,
    file: &str,
    script: &Script,
    number: usize,
    why: &str,
) -> Result<Vec<u8>, AllocError>
    requires { number < length script.now.streams }
    ensures { IfOk result (λ line. IsStreamLine file.now script.now number why.now line.items) }
{
    let mut said = String::new(alloc);
    push_cut(&mut said, script.streams.as_slice()[number].name.as_str())?;
    said.push_str(": ")?;
    said.push_str(why)?;
    let placed = placed(alloc, FaultyList::Streams, number, said.as_str())?;
    fault_line(alloc, file, placed.as_str())
}
