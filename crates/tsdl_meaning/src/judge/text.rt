//! The first flaw of a text that means nothing, by one pass over its blocks.

ghost use Rattle.std.specs.Prelude.{◌≡◌, [], None, IfOk, IfErr};
ghost use Rattle.tsdl_meaning.specs.Words.{block_toks, text_toks, text_meta, StopsIn, StopsText, StopsWhere, AreNoted, IsFlawlessBehind, Surveys, MissesSizes};

use crate::judge::block::{BlockKind, Judging, judge_environment, judge_items};
use crate::judge::ledger::Ledger;
use crate::judge::survey::Survey;
use std::alloc::Global;
use tsdl_flaw::{Fault, Flaw, Spelled, Stop};
use tsdl_grammar::Block;

/// Where judging the blocks of a text stops that means nothing.
///
/// Faults come in the order of the text. The end of the text lacks a trace block, the stream of an event or the sizes
/// of a stream's packets, in this order.
pub fn first_flaw(alloc: Global, survey: &Survey, blocks: &[Block]) -> Stop
    ensures sizes { Surveys survey.now.known blocks.now → text_meta blocks.now ≡ None → MissesSizes blocks.now result }
    ensures stops { StopsText (text_toks blocks.now) result }
{
    match judge_blocks(alloc, survey, blocks) {
        Ok(stop) => stop,
        Err(stop) => stop,
    }
}

/// Judges the blocks in their order. Answers where judging stops that finds nothing wrong with any of them.
fn judge_blocks(alloc: Global, survey: &Survey, blocks: &[Block]) -> Result<Stop, Stop>
    ensures sizes { Surveys survey.now.known blocks.now → text_meta blocks.now ≡ None → IfOk result (MissesSizes blocks.now) }
    ensures end { IfOk result (StopsText (text_toks blocks.now)) }
    ensures fault { IfErr result (StopsIn [] 0 (text_toks blocks.now)) }
{
    let mut ledger = Ledger::new(alloc);
    let mut at = 0usize;
    for block in blocks {
        judge_block(alloc, survey, &ledger, block, at)?;
        ledger.add(alloc, block)?;
        at = at.saturating_add(block.length()).saturating_add(1);
    }
    let flaw = ledger.flaw_at_end(alloc, blocks)?;
    Ok(Stop::Fault(Fault { at, end: at, flaw }))
}

/// Judges a block, whose word stands at an atom.
fn judge_block(
    alloc: Global,
    survey: &Survey,
    ledger: &Ledger,
    block: &Block,
    at: usize,
) -> Result<(), Stop>
    ensures flawless { IfOk result (λ _. IsFlawlessBehind survey.now.known ledger.now block.now) }
    ensures fault { IfErr result (StopsWhere (λ front. AreNoted front ledger.now) at (block_toks block.now)) }
{
    let (kind, items) = match block {
        Block::Trace(_) if ledger.has_trace => return Err(Stop::at_atom(at, Flaw::Duplicate)),
        Block::Environment(_) if ledger.has_environment => {
            return Err(Stop::at_atom(at, Flaw::Duplicate));
        }
        Block::Environment(facts) => return judge_environment(facts.as_slice(), at),
        Block::Trace(items) => (BlockKind::Trace, items),
        Block::Stream(items) => (BlockKind::Stream, items),
        Block::Event(items) => (BlockKind::Event, items),
        Block::Clock(items) => (BlockKind::Clock, items),
    };
    let judging = Judging {
        alloc,
        survey,
        ledger,
        kind,
    };
    judge_items(&judging, items.as_slice(), at)
}
