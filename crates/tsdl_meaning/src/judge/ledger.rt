//! What the blocks of a text so far say: what may stand once only, and what the end of the text is judged by.

ghost use Rattle.std.specs.Prelude.{◌≡◌, ◌↔◌, ◌⊎◌, ℕ, true, false, None, List, [], ◌∷◌, OnOk, IfOk, IfErr, IsTrue, IfSome, MatchOption, codes};
ghost use Rattle.tsdl_meaning.specs.Words.{nat_cmp, ContainsKey, contains, contains_text, Atom, block_toks, Holds, kind_of, HasNumbers, AddsBlock, HaveStreams, LacksStream, LacksBlocks, IsEmpty, AreNoted, HasClock, HasStream, HasEvent, pair_cmp};
ghost use Rattle.tsdl_grammar.specs.declared.fault.MetaFaultKind.TheVariants as faults;

use crate::judge::sizes::flaw_of_sizes;
use crate::lookup::{name_in, number_or_zero};
use ctf_types::Text;
use std::alloc::{AllocError, Global};
use std::collections::{BTreeMap, BTreeSet};
use tsdl_flaw::{Flaw, Orphan};
use tsdl_grammar::{Block, Item};

/// The blocks so far.
#[derive(Drop)]
pub(crate) struct Ledger {
    pub has_trace: bool,
    pub has_environment: bool,
    clocks: BTreeSet<String>,
    streams: BTreeSet<u64>,
    /// The name of each event, by its stream and its number.
    events: BTreeMap<(u64, u64), String>,
}

impl Ledger {
    pub(crate) fn new(alloc: Global) -> Ledger
        ensures empty { IsEmpty result }
        ensures noted { (front : List Atom) → AreNoted front result }
    {
        Ledger {
            has_trace: false,
            has_environment: false,
            clocks: BTreeSet::new(alloc),
            streams: BTreeSet::new(alloc),
            events: BTreeMap::new(alloc),
        }
    }

    /// Whether a clock has this name.
    pub(crate) fn has_clock(&self, name: &Text) -> bool
        ensures is { result ≡ contains_text self.now.clocks name.now }
        ensures noted { (front : List Atom) → AreNoted front self.now → IsTrue result → HasClock front name.now }
    {
        self.clocks.contains(name.as_str())
    }

    /// Whether a stream has this number.
    pub(crate) fn has_stream(&self, id: u64) -> bool
        ensures is { result ≡ contains nat_cmp self.now.streams id }
        ensures noted { (front : List Atom) → AreNoted front self.now → IsTrue result → HasStream front id }
    {
        self.streams.contains(&id)
    }

    /// Whether an event has these numbers, of its stream and its own.
    pub(crate) fn has_event(&self, numbers: (u64, u64)) -> bool
        ensures is { IsTrue result ↔ ContainsKey pair_cmp self.now.events numbers }
        ensures noted { (front : List Atom) → AreNoted front self.now → IsTrue result → HasEvent front numbers }
    {
        self.events.contains_key(&numbers)
    }

    /// Adds a block that has been judged.
    pub(crate) fn add(&mut self, alloc: Global, block: &Block) -> Result<(), AllocError>
        ensures adds { OnOk result (AddsBlock self.old block.now self.new) }
        ensures noted { (front : List Atom) → AreNoted front self.old → Holds front (block_toks block.now) → OnOk result (AreNoted front self.new) }
    {
        match block {
            Block::Trace(_) => self.has_trace = true,
            Block::Environment(_) => self.has_environment = true,
            Block::Clock(items) => {
                if let Some(name) = name_in(items.as_slice()) {
                    let _is_new = self.clocks.insert(String::from_str(alloc, name.as_str())?)?;
                }
            }
            Block::Stream(items) => {
                if let Some(id) = number_or_zero("id", items.as_slice()) {
                    let _is_new = self.streams.insert(id)?;
                }
            }
            Block::Event(items) => {
                let items = items.as_slice();
                let (Some(name), Some(numbers)) = (name_in(items), event_numbers(items)) else {
                    return Ok(());
                };
                let name = String::from_str(alloc, name.as_str())?;
                drop(self.events.insert(numbers, name)?);
            }
        }
        Ok(())
    }

    /// The flaw of a text of these blocks that has none before its end.
    pub(crate) fn flaw_at_end(&self, alloc: Global, blocks: &[Block]) -> Result<Flaw, AllocError>
        ensures complete { IfOk result (λ flaw. kind_of flaw ≡ faults.NoPacketSize → (self.now.has_trace ≡ true) × HaveStreams self.now) }
        ensures kind { IfOk result (λ flaw. (kind_of flaw ≡ faults.NoPacketSize) ⊎ ((kind_of flaw ≡ faults.Syntax) × LacksBlocks self.now)) }
    {
        if !self.has_trace {
            return Ok(Flaw::Syntax("a trace block"));
        }
        match self.first_orphan(alloc)? {
            Some(orphan) => Ok(Flaw::NoStream(orphan)),
            None => Ok(flaw_of_sizes(blocks)),
        }
    }

    /// The first event by number whose stream is not there.
    fn first_orphan(&self, alloc: Global) -> Result<Option<Orphan>, AllocError>
        ensures { IfOk result (λ orphan. MatchOption orphan (HaveStreams self.now) (λ _. LacksStream self.now)) }
    {
        for ((stream, _), name) in &self.events {
            if !self.streams.contains(stream) {
                return Ok(Some(Orphan {
                    stream: *stream,
                    event: String::from_str(alloc, name.as_str())?,
                }));
            }
        }
        Ok(None)
    }
}

/// The numbers of an event, of its stream and its own.
pub(crate) fn event_numbers(items: &[Item]) -> Option<(u64, u64)>
    ensures found { IfSome result (λ numbers. HasNumbers items.now numbers.0 numbers.1) }
    ensures none { result ≡ None → (stream id : ℕ) → HasNumbers items.now stream id → ⊥ }
{
    let stream = number_or_zero("stream_id", items)?;
    let id = number_or_zero("id", items)?;
    Some((stream, id))
}
