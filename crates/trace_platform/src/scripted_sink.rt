//! A sink that faults by a script.

ghost use Rattle.std.specs.Prelude.{◌≡◌, Some, length, min, take};
ghost use Rattle.trace_platform.specs.Scripted.{Appended, SinkAppends};
ghost use Rattle.trace_platform.specs.ScriptedLaws.{adds_all, adds_part};

use crate::{MemorySink, Script, Sink, SinkFault, Turn};

/// A sink in memory that also faults where its script says so. Of the bytes of such a call the first `part` are appended, as far as there are so many.
#[derive(Drop)]
pub struct ScriptedSink {
    pub sink: MemorySink,
    pub script: Script,
    part: usize,
    faults: u64,
}

impl ScriptedSink {
    pub fn new(sink: MemorySink, script: Script, part: usize) -> ScriptedSink
        ensures { result ≡ record { sink = sink; script = script; part = part; faults = 0 } }
    {
        ScriptedSink {
            sink,
            script,
            part,
            faults: 0,
        }
    }
}

/// Appends the first bytes, unless memory is wanting.
fn append_part(sink: &mut MemorySink, part: usize, bytes: &[u8])
    ensures { Appended sink.old (take (min part (length bytes.now)) bytes.now) sink.new }
{
    let end = part.min(bytes.len());
    let _part = sink.append(&bytes[..end]);
}

impl Sink for ScriptedSink {
    ghost held = { λ s. Some s.sink.bytes };

    ghost faults = { λ s. s.faults };

    ghost appends = { SinkAppends };

    ghost adds_all = { adds_all };

    ghost adds_part = { adds_part };

    fn append(&mut self, bytes: &[u8]) -> Result<(), SinkFault> {
        match self.script.take_turn() {
            Turn::Works => {
                let answer = self.sink.append(bytes);
                if answer.is_err() {
                    self.faults = self.faults.wrapping_add(1);
                }
                answer
            }
            Turn::Fails => {
                append_part(&mut self.sink, self.part, bytes);
                self.faults = self.faults.wrapping_add(1);
                Err(SinkFault)
            }
        }
    }

    fn fault_count(&self) -> u64 {
        self.faults
    }
}
