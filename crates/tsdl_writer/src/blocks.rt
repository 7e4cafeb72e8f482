//! The blocks of a configuration.

ghost use Rattle.std.specs.Prelude.{◌≡◌, All, IfSome, OnOk, flat_map};
ghost use Rattle.tsdl_grammar.specs.Spelling.{named_fact_toks, block_and_semicolon};
ghost use Rattle.tsdl_writer.specs.Trees.{order_word, trace_block, named_fact_tree, environment_blocks, clock_block, stream_block, event_block};
ghost use Rattle.tsdl_writer.specs.{Held.{IsHeldUuid, IsHeldClock, IsHeldValue}, Prints.Prints};

use crate::attributes::{attribute, description, flag_word, log_level, natural, uuid};
use crate::printer::Token::{Mark, Number, Quoted, Whole, Word};
use crate::printer::{Printed, Printer, Token};
use crate::scopes::{context, event_header, header, structure};
use ctf_types::{
    ByteOrder, ClockType, Config, EnvironmentEntry, EnvironmentValue, EventType, StreamType,
};
use tsdl_grammar::Mark::{CloseBrace, Dot, OpenBrace, Semicolon};

/// What a block ends with.
const END: [Token<'static>; 2] = [Mark(CloseBrace), Mark(Semicolon)];

/// The trace block.
pub(crate) fn trace(out: &mut Printer, config: &Config) -> Printed
    ensures prints { OnOk result (Prints out.old out.new (block_and_semicolon (trace_block config.now))) }
    ensures held { OnOk result (IfSome config.now.uuid IsHeldUuid) }
{
    out.print(&[Word("trace"), Mark(OpenBrace)])?;
    attribute(out, "major", Number(1))?;
    attribute(out, "minor", Number(8))?;
    uuid(out, &config.uuid)?;
    attribute(out, "byte_order", Word(order_word(config.order)))?;
    header(out, &config.header)?;
    out.print(&END)
}

/// The word for a byte order.
fn order_word(order: ByteOrder) -> &'static str
    ensures { result.now ≡ order_word order }
{
    match order {
        ByteOrder::Little => "le",
        ByteOrder::Big => "be",
    }
}

/// The environment block, where there are entries.
#[tactic(auto, using(crate::proofs::Printing::begun))]
pub(crate) fn environment(out: &mut Printer, entries: &[EnvironmentEntry]) -> Printed
    ensures prints { OnOk result (Prints out.old out.new (flat_map block_and_semicolon (environment_blocks entries.now))) }
    ensures held { OnOk result (All (λ e. IsHeldValue e.value) entries.now) }
{
    if entries.is_empty() {
        return Ok(());
    }
    out.print(&[Word("env"), Mark(OpenBrace)])?;
    for entry in entries {
        fact(out, entry)?;
    }
    out.print(&END)
}

/// `name = value;`.
fn fact(out: &mut Printer, entry: &EnvironmentEntry) -> Printed
    ensures prints { OnOk result (Prints out.old out.new (named_fact_toks (named_fact_tree entry.now))) }
    ensures held { IsHeldValue entry.now.value }
{
    let name = entry.name.as_str();
    match &entry.value {
        EnvironmentValue::Whole(n) => attribute(out, name, Whole(i128::from(*n))),
        EnvironmentValue::Text(words) => attribute(out, name, Quoted(words.as_str())),
    }
}

/// A clock block.
pub(crate) fn clock(out: &mut Printer, clock: &ClockType) -> Printed
    ensures prints { OnOk result (Prints out.old out.new (block_and_semicolon (clock_block clock.now))) }
    ensures held { OnOk result (IsHeldClock clock.now) }
{
    out.print(&[Word("clock"), Mark(OpenBrace)])?;
    attribute(out, "name", Word(clock.name.as_str()))?;
    uuid(out, &clock.uuid)?;
    description(out, &clock.description)?;
    natural(out, "freq", clock.frequency)?;
    natural(out, "precision", clock.precision)?;
    attribute(out, "offset_s", Whole(i128::from(clock.offset_seconds)))?;
    natural(out, "offset", clock.offset_cycles)?;
    attribute(out, "absolute", Word(flag_word(clock.absolute)))?;
    out.print(&END)
}

/// The stream block of a stream type of this number.
pub(crate) fn stream(out: &mut Printer, id: u64, stream: &StreamType) -> Printed
    ensures { OnOk result (Prints out.old out.new (block_and_semicolon (stream_block id stream.now))) }
{
    out.print(&[Word("stream"), Mark(OpenBrace)])?;
    attribute(out, "id", Number(id))?;
    context(out, stream)?;
    event_header(out, &stream.event_header)?;
    let name = [Word("event"), Mark(Dot), Word("context")];
    structure(out, &name, &stream.common)?;
    out.print(&END)
}

/// The event block of an event record type of this number, of the stream type of that number.
pub(crate) fn event(out: &mut Printer, stream_id: u64, id: u64, event: &EventType) -> Printed
    ensures { OnOk result (Prints out.old out.new (block_and_semicolon (event_block stream_id id event.now))) }
{
    out.print(&[Word("event"), Mark(OpenBrace)])?;
    attribute(out, "name", Quoted(event.name.as_str()))?;
    attribute(out, "id", Number(id))?;
    attribute(out, "stream_id", Number(stream_id))?;
    log_level(out, event.log_level)?;
    structure(out, &[Word("context")], &event.specific)?;
    structure(out, &[Word("fields")], &event.payload)?;
    out.print(&END)
}
