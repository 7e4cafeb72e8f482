//! The metadata text of a configuration.
#![tactic(auto, using(crate::proofs::Printing::begun))]

ghost use Rattle.std.specs.Prelude.{◌≡◌, map, All, IfOk, OnOk, string_bytes};
ghost use Rattle.ctf_types.specs.{AllowedConfig.IsConfig, MetadataOf.metadata_of};
ghost use Rattle.tsdl_grammar.specs.{Denotes.Denotes, Spelling.text_toks};
ghost use Rattle.tsdl_writer.specs.{Trees.{clock_block, stream_blocks, event_blocks, all_event_blocks}, Held.IsHeldClock, Prints.Prints, Written.written};

use crate::blocks::{clock, environment, event, stream, trace};
use crate::printer::{Printed, Printer};
use ctf_types::{ClockType, Config, EventType, StreamType};
use std::alloc::{AllocError, Global};

/// The metadata text of a configuration (CTF 1.8.3, section 7): its trace block, the environment, clocks, streams and events, in the
/// configuration's order, which is by name. The last line ends with a newline. The only refusal is want of memory.
pub fn write_metadata(alloc: Global, config: &Config) -> Result<String, AllocError>
    ensures text { IfOk result (λ t. string_bytes t ≡ written config.now) }
    ensures denotes { IsConfig config.now → IfOk result (λ t. Denotes (string_bytes t) (metadata_of config.now)) }
{
    let mut out = Printer::new(alloc)?;
    trace(&mut out, config)?;
    environment(&mut out, config.environment.as_slice())?;
    clocks(&mut out, config.clocks.as_slice())?;
    streams(&mut out, config.streams.as_slice())?;
    all_events(&mut out, config.streams.as_slice())?;
    let text = out.finish()?;
    Ok(text)
}

fn clocks(out: &mut Printer, clocks: &[ClockType]) -> Printed
    ensures prints { OnOk result (Prints out.old out.new (text_toks (map clock_block clocks.now))) }
    ensures held { OnOk result (All IsHeldClock clocks.now) }
{
    for one in clocks {
        clock(out, one)?;
    }
    Ok(())
}

fn streams(out: &mut Printer, streams: &[StreamType]) -> Printed
    ensures { OnOk result (Prints out.old out.new (text_toks (stream_blocks 0 streams.now))) }
{
    for (id, one) in streams.iter().enumerate() {
        stream(out, id as u64, one)?;
    }
    Ok(())
}

fn all_events(out: &mut Printer, streams: &[StreamType]) -> Printed
    ensures { OnOk result (Prints out.old out.new (text_toks (all_event_blocks 0 streams.now))) }
{
    for (id, stream) in streams.iter().enumerate() {
        events(out, id as u64, stream.events.as_slice())?;
    }
    Ok(())
}

fn events(out: &mut Printer, stream_id: u64, events: &[EventType]) -> Printed
    ensures { OnOk result (Prints out.old out.new (text_toks (event_blocks stream_id 0 events.now))) }
{
    for (id, one) in events.iter().enumerate() {
        event(out, stream_id, id as u64, one)?;
    }
    Ok(())
}
