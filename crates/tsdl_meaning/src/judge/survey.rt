//! What integers have to know of a whole text: by its atoms, before any of it is read, or by its blocks.

ghost use Rattle.std.specs.Prelude.{◌≡◌, ◌++◌, IfOk, OnOk};
ghost use Rattle.tsdl_meaning.specs.Words.{flat_map, trace_in, clock_in, Surveys, first_of, order_of, orders_in};
ghost use Rattle.tsdl_meaning.specs.NotedBlocks.{names_in};

use crate::known::Known;
use crate::lookup::is_word;
use crate::trace::order_word;
use crate::value::{name_value, word_value};
use ctf_types::{ByteOrder, ListOf, Text};
use std::alloc::{AllocError, Global};
use tsdl_grammar::{Atom, Attribute, Block, Item, Mark, first_token};

/// What integers have to know of a text, and whether its trace gives a byte order. Blocks stand in any order.
#[derive(Drop)]
pub struct Survey {
    pub(crate) has_order: bool,
    pub(crate) known: Known,
}

impl Survey {
    /// What is found among the atoms of a text.
    pub fn of(alloc: Global, text: &[u8]) -> Result<Survey, AllocError> {
        let mut seen = Seen {
            order: None,
            clocks: ListOf::new(alloc),
            around: Around::Nothing,
            depth: 0,
            window: Vec::with_capacity(alloc, WINDOW)?,
        };
        let mut rest = text;
        while let Some((front, behind)) = first_token(rest) {
            seen.pass(alloc, front.atom(alloc)?)?;
            rest = behind;
        }
        let has_order = seen.order.is_some();
        let order = seen.order.unwrap_or(ByteOrder::Little);
        let known = Known::with_names(alloc, order, seen.clocks)?;
        Ok(Survey { has_order, known })
    }
}

/// How many atoms are looked at together: an attribute and the mark before it.
const WINDOW: usize = 5;

/// What was seen of a text so far: the trace's byte order and the clocks' names, as far as they are found.
#[derive(Drop)]
struct Seen {
    order: Option<ByteOrder>,
    clocks: ListOf<Text>,
    around: Around,
    depth: usize,
    /// The last atoms.
    window: Vec<Atom>,
}

impl Seen {
    /// Passes over the next atom, and looks at the last ones.
    fn pass(&mut self, alloc: Global, atom: Atom) -> Result<(), AllocError> {
        if self.window.len() == WINDOW {
            self.window.remove(0);
        }
        self.window.push(atom)?;
        if self.window.len() < WINDOW {
            return Ok(());
        }
        self.step();
        self.note(alloc)
    }

    /// Steps behind the first of the last atoms: into a block, or into or out of braces.
    fn step(&mut self) {
        match self.window.as_slice() {
            [Atom::Word(word), Atom::Mark(Mark::OpenBrace), ..] if self.depth == 0 => {
                self.around = match word.as_str() {
                    "trace" => Around::Trace,
                    "clock" => Around::Clock,
                    _ => Around::Nothing,
                };
            }
            [Atom::Mark(Mark::OpenBrace), ..] => self.depth = self.depth.saturating_add(1),
            [Atom::Mark(Mark::CloseBrace), ..] => self.depth = self.depth.saturating_sub(1),
            _ => {}
        }
    }

    /// Notes the attribute that stands behind the first atom, if it is one that integers have to know.
    fn note(&mut self, alloc: Global) -> Result<(), AllocError> {
        let [
            Atom::Mark(Mark::OpenBrace | Mark::Semicolon),
            Atom::Word(name),
            Atom::Mark(Mark::Equals),
            value,
            Atom::Mark(Mark::Semicolon),
        ] = self.window.as_slice()
        else {
            return Ok(());
        };
        match (self.depth, self.around, name.as_str(), value) {
            (1, Around::Trace, "byte_order", Atom::Word(order)) if self.order.is_none() => {
                self.order = order_word(order.as_str());
            }
            (1, Around::Clock, "name", Atom::Word(clock) | Atom::Text(clock)) => {
                self.clocks.push(clock.copy(alloc)?)?;
            }
            _ => {}
        }
        Ok(())
    }
}

/// The block that an attribute stands in.
#[derive(Clone, Copy)]
enum Around {
    Trace,
    Clock,
    Nothing,
}

/// What is found among the blocks of a whole text.
pub(crate) fn survey_of_blocks(alloc: Global, blocks: &[Block]) -> Result<Survey, AllocError>
    ensures { IfOk result (λ survey. Surveys survey.known blocks.now) }
{
    let order = order_among(blocks);
    let clocks = names_among(alloc, blocks)?;
    let has_order = order.is_some();
    let known = Known::with_names(alloc, order.unwrap_or(ByteOrder::Little), clocks)?;
    Ok(Survey { has_order, known })
}

/// The first byte order that a trace block gives.
fn order_among(blocks: &[Block]) -> Option<ByteOrder>
    ensures { result ≡ first_of orders_in (flat_map trace_in blocks.now) }
{
    for block in blocks {
        if let Block::Trace(items) = block {
            if let Some(order) = order_in(items.as_slice()) {
                return Some(order);
            }
        }
    }
    None
}

/// The first byte order among the attributes of a trace block.
fn order_in(items: &[Item]) -> Option<ByteOrder>
    ensures { result ≡ orders_in items.now }
{
    for item in items {
        if let Item::Attribute(attribute) = item {
            if let Some(order) = order_of(attribute) {
                return Some(order);
            }
        }
    }
    None
}

/// The byte order that an attribute gives.
fn order_of(attribute: &Attribute) -> Option<ByteOrder>
    ensures { result ≡ order_of attribute.now }
{
    if is_word("byte_order", &attribute.name) {
        order_word(word_value(&attribute.value)?.as_str())
    } else {
        None
    }
}

/// The names of the clocks.
fn names_among(alloc: Global, blocks: &[Block]) -> Result<ListOf<Text>, AllocError>
    ensures { IfOk result (λ names. names ≡ flat_map names_in (flat_map clock_in blocks.now)) }
{
    let mut names = ListOf::new(alloc);
    for block in blocks {
        if let Block::Clock(items) = block {
            add_names(alloc, &mut names, items.as_slice())?;
        }
    }
    Ok(names)
}

/// Adds the names that the attributes of a clock block give.
fn add_names(alloc: Global, names: &mut ListOf<Text>, items: &[Item]) -> Result<(), AllocError>
    ensures { OnOk result (names.new ≡ names.old ++ names_in items.now) }
{
    for item in items {
        if let Item::Attribute(attribute) = item {
            if is_word("name", &attribute.name) {
                if let Some(name) = name_value(&attribute.value) {
                    names.push(name.copy(alloc)?)?;
                }
            }
        }
    }
    Ok(())
}
