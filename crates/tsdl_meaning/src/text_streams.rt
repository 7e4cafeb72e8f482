//! The streams of a metadata text, each with its events (CTF 1.8.3, section 7).

ghost use Rattle.std.specs.Prelude.{◌≡◌, ℕ, IfOk, OnOk};
ghost use Rattle.tsdl_meaning.specs.Words.{flat_map, each, stream_meaning, event_meaning, stream_in, event_in, events_of, have_streams, streams_meaning, NumbersRise, AddsEvent, OthersStay, group_of, with_group};
ghost use Rattle.tsdl_meaning.specs.Groups.{HasNumbers};

use crate::known::Known;
use crate::numbered::by_number;
use crate::room::with_room;
use crate::stream::{event_meaning, stream_meaning};
use crate::value::Meant;
use ctf_types::{Event, ListOf, Stream};
use std::alloc::{AllocError, Global};
use std::collections::{BTreeMap, BTreeSet};
use tsdl_grammar::Block;

/// Events by the number of their stream, each group as it stands in the text.
type Groups = BTreeMap<u64, Vec<Event>>;

/// The streams by number, each with its events by number.
#[tactic(auto, unfolding(tsdl_grammar::specs::Denotes::streams_meaning))]
pub(crate) fn streams_meaning(
    alloc: Global,
    known: &Known,
    blocks: &[Block],
) -> Meant<ListOf<Stream>>
    ensures { IfOk result (λ ss. ss ≡ streams_meaning known.now blocks.now) }
{
    let found = meant!(streams_found(alloc, known, blocks)?);
    let streams = meant!(by_number(found));
    let events = meant!(events_found(alloc, known, blocks)?);
    holds!(have_streams(alloc, streams.as_slice(), events.as_slice())?);
    let groups = groups_of(alloc, events)?;
    streams_with(alloc, groups, streams)
}

/// The streams of the stream blocks, as they stand.
fn streams_found(alloc: Global, known: &Known, blocks: &[Block]) -> Meant<ListOf<Stream>>
    ensures { IfOk result (λ ss. ss ≡ each (stream_meaning known.now) (flat_map stream_in blocks.now)) }
{
    let mut streams = with_room(alloc, count_streams(blocks))?;
    let mut rest = blocks;
    while let [block, others @ ..] = rest {
        if let Block::Stream(items) = block {
            streams.push(meant!(stream_meaning(alloc, known, items.as_slice())?))?;
        }
        rest = others;
    }
    Ok(Some(streams))
}

/// How many stream blocks there are.
fn count_streams(blocks: &[Block]) -> usize {
    blocks
        .iter()
        .filter(|block| matches!(block, Block::Stream(_)))
        .count()
}

/// The events of the event blocks, as they stand, each with the number of its stream.
fn events_found(alloc: Global, known: &Known, blocks: &[Block]) -> Meant<ListOf<(u64, Event)>>
    ensures { IfOk result (λ es. es ≡ each (event_meaning known.now) (flat_map event_in blocks.now)) }
{
    let mut events = with_room(alloc, count_events(blocks))?;
    let mut rest = blocks;
    while let [block, others @ ..] = rest {
        if let Block::Event(items) = block {
            events.push(meant!(event_meaning(alloc, known, items.as_slice())?))?;
        }
        rest = others;
    }
    Ok(Some(events))
}

/// How many event blocks there are.
fn count_events(blocks: &[Block]) -> usize {
    blocks
        .iter()
        .filter(|block| matches!(block, Block::Event(_)))
        .count()
}

/// Whether each event is of a stream that is there.
fn have_streams(
    alloc: Global,
    streams: &[Stream],
    events: &[(u64, Event)],
) -> Result<bool, AllocError>
    ensures { IfOk result (λ have. have ≡ have_streams streams.now events.now) }
{
    let numbers = numbers_of(alloc, streams)?;
    for event in events {
        if !numbers.contains(&event.0) {
            return Ok(false);
        }
    }
    Ok(true)
}

/// The numbers of the streams.
fn numbers_of(alloc: Global, streams: &[Stream]) -> Result<BTreeSet<u64>, AllocError>
    ensures { IfOk result (HasNumbers streams.now) }
{
    let mut numbers = BTreeSet::new(alloc);
    for stream in streams {
        let _is_new = numbers.insert(stream.id)?;
    }
    Ok(numbers)
}

/// The events by the number of their stream.
fn groups_of(alloc: Global, events: ListOf<(u64, Event)>) -> Result<Groups, AllocError>
    ensures { IfOk result (λ groups. (id : ℕ) → group_of groups id ≡ events_of id events) }
{
    let mut groups = BTreeMap::new(alloc);
    let mut left = events.into_vec();
    left.reverse();
    while let Some(event) = left.pop() {
        add_event(alloc, &mut groups, event)?;
        left.shrink_to_fit();
    }
    Ok(groups)
}

/// Adds an event behind the others of its stream.
fn add_event(alloc: Global, groups: &mut Groups, event: (u64, Event)) -> Result<(), AllocError>
    ensures { OnOk result (AddsEvent groups.old event groups.new) }
{
    let (id, event) = event;
    let mut group = groups.remove(&id).unwrap_or(Vec::new(alloc));
    group.push(event)?;
    drop(groups.insert(id, group)?);
    Ok(())
}

/// Each stream with the events of its group. The streams that are left give up the room of each that is made.
fn streams_with(alloc: Global, groups: Groups, streams: ListOf<Stream>) -> Meant<ListOf<Stream>>
    requires { NumbersRise (λ s. s.id) streams }
    ensures { IfOk result (λ ss. ss ≡ each (with_group groups) streams) }
{
    let mut made = with_room(alloc, streams.len())?;
    let mut left_groups = groups;
    let mut left = streams.into_vec();
    left.reverse();
    while let Some(stream) = left.pop() {
        made.push(meant!(with_group(alloc, &mut left_groups, stream)))?;
        left.shrink_to_fit();
    }
    Ok(Some(made))
}

/// A stream with the events of its group, by number, which are taken out of the groups.
fn with_group(alloc: Global, groups: &mut Groups, mut stream: Stream) -> Option<Stream>
    ensures made { result ≡ with_group groups.old stream }
    ensures others { OthersStay stream.id groups.old groups.new }
{
    let own = take_group(alloc, groups, stream.id);
    stream.events = by_number(own)?;
    Some(stream)
}

/// The events of the stream of this number, which are taken out of the groups.
fn take_group(alloc: Global, groups: &mut Groups, id: u64) -> ListOf<Event>
    ensures own { result ≡ group_of groups.old id }
    ensures others { OthersStay id groups.old groups.new }
{
    ListOf::from_vec(groups.remove(&id).unwrap_or(Vec::new(alloc)))
}
