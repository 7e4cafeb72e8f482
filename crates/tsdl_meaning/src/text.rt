//! What the blocks of a metadata text mean (CTF 1.8.3, section 7), or where they mean nothing their first fault.

ghost use Rattle.std.specs.Prelude.{◌≡◌, option_map, IfOk, Some, None, IfErr};
ghost use Rattle.tsdl_meaning.specs.Words.{flat_map, bytes_eq, no_two, each, only, at_most_one, is_trace, clock_meaning, trace_in, clock_in, environment_in, text_meta, text_toks, StopsText, IfFault, MissesSizes};

use crate::clock::clock_meaning;
use crate::environment::environment_meaning;
use crate::judge::{first_flaw, survey_of_blocks};
use crate::known::Known;
use crate::lookup::{are_distinct, attr_in};
use crate::room::with_room;
use crate::structure::scope_meaning;
use crate::text_streams::streams_meaning;
use crate::trace::{PACKET_HEADER, is_trace, trace_order};
use crate::value::{Meant, uuid_if_there};
use ctf_types::{ClockType, ListOf, Metadata, Text};
use std::alloc::{AllocError, Global};
use tsdl_flaw::Stop;
use tsdl_grammar::{Block, Item, NamedFact};

/// The metadata that the blocks of a text mean. `NoPacketSize` is a stream's that lacks a size.
pub fn metadata_of(alloc: Global, blocks: &[Block]) -> Result<Metadata, Stop>
    ensures found { IfOk result (λ m. text_meta blocks.now ≡ Some m) }
    ensures none { IfErr result (λ stop. IfFault stop (text_meta blocks.now ≡ None)) }
    ensures fault { IfErr result (StopsText (text_toks blocks.now)) }
    ensures sizes { IfErr result (MissesSizes blocks.now) }
{
    match text_meaning(alloc, blocks)? {
        Some(metadata) => Ok(metadata),
        None => Err(first_flaw(alloc, &survey_of_blocks(alloc, blocks)?, blocks)),
    }
}

/// The metadata that the blocks of a text mean, if they mean any.
#[tactic(auto, unfolding(tsdl_grammar::specs::Denotes::text_meta, tsdl_grammar::specs::BlockMeaning::trace_uuid, tsdl_grammar::specs::BlockMeaning::header_meaning))]
pub(crate) fn text_meaning(alloc: Global, blocks: &[Block]) -> Meant<Metadata>
    ensures { IfOk result (λ m. m ≡ text_meta blocks.now) }
{
    let trace = meant!(only_trace(blocks));
    holds!(is_trace(alloc, trace)?);
    let order = meant!(trace_order(trace));
    let uuid = meant!(uuid_if_there(attr_in("uuid", trace)));
    let facts = meant!(facts_of(blocks));
    let environment = meant!(environment_meaning(alloc, facts)?);
    let clocks = meant!(clocks_of(alloc, blocks)?);
    let known = Known::of(alloc, order, clocks.as_slice())?;
    holds!(are_apart(alloc, known.clocks())?);
    let header = meant!(scope_meaning(alloc, &known, PACKET_HEADER, trace)?);
    let streams = meant!(streams_meaning(alloc, &known, blocks)?);
    Ok(Some(Metadata {
        order,
        uuid,
        environment,
        clocks,
        header,
        streams,
    }))
}

/// The items of the trace block, where there is no other.
fn only_trace(blocks: &[Block]) -> Option<&[Item]>
    ensures { option_map (λ is. is.now) result ≡ only (flat_map trace_in blocks.now) }
{
    let mut trace = None;
    for block in blocks {
        if let Block::Trace(items) = block {
            if trace.is_some() {
                return None;
            }
            trace = Some(items.as_slice());
        }
    }
    trace
}

/// The facts of the environment block, where there is no other, and none where there is no such block.
fn facts_of(blocks: &[Block]) -> Option<&[NamedFact]>
    ensures { option_map (λ fs. fs.now) result ≡ at_most_one (flat_map environment_in blocks.now) }
{
    let mut environment = None;
    for block in blocks {
        if let Block::Environment(facts) = block {
            if environment.is_some() {
                return None;
            }
            environment = Some(facts.as_slice());
        }
    }
    Some(environment.unwrap_or(&[]))
}

/// Whether no text stands twice.
fn are_apart(alloc: Global, texts: &[Text]) -> Result<bool, AllocError>
    ensures { IfOk result (λ apart. apart ≡ no_two bytes_eq texts.now) }
{
    let mut words = Vec::with_capacity(alloc, texts.len())?;
    for text in texts {
        words.push(text.as_str())?;
    }
    are_distinct(alloc, words)
}

/// How many clock blocks there are.
fn count_clocks(blocks: &[Block]) -> usize {
    blocks
        .iter()
        .filter(|block| matches!(block, Block::Clock(_)))
        .count()
}

/// The clock types of the clock blocks.
fn clocks_of(alloc: Global, blocks: &[Block]) -> Meant<ListOf<ClockType>>
    ensures { IfOk result (λ cs. cs ≡ each clock_meaning (flat_map clock_in blocks.now)) }
{
    let mut clocks = with_room(alloc, count_clocks(blocks))?;
    for block in blocks {
        if let Block::Clock(items) = block {
            clocks.push(meant!(clock_meaning(alloc, items.as_slice())?))?;
        }
    }
    Ok(Some(clocks))
}
