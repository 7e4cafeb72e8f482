//! How many atoms spell a tree. Its rules stand in the same order in the grammar.

ghost use Rattle.std.specs.Prelude.{◌≡◌, ◌++◌, List};
ghost use Rattle.tsdl_grammar.specs.declared.atom.Atom.{Atom};
ghost use Rattle.std.specs.List.{flat_map};
ghost use Rattle.tsdl_grammar.specs.Spelling.{number_toks, name_toks, value_toks, attr_toks, label_toks, entry_toks, next_entry_toks, entries_toks, bracket_toks, kind_toks, member_toks, struct_toks, scope_toks, item_toks, named_fact_toks, block_toks};
ghost use Rattle.tsdl_flaw.specs.Lengths.{HasLength};

use ctf_types::ListOf;
use tsdl_grammar::{
    Attribute, Block, Bracket, Closing, Entries, Entry, Fact, Item, Kind, Label, MemberTree, Name,
    NamedFact, Number, Scope, Structure, Value,
};

/// What atoms spell.
pub trait Spelled {
    ghost toks: { Self → List Atom };

    /// How many atoms spell it, at most 2^64 - 1.
    fn length(&self) -> usize
        ensures { HasLength (toks self.now) result };
}

impl Spelled for Number {
    ghost toks = { number_toks };

    fn length(&self) -> usize {
        self.sign.map_or(1, |_| 2)
    }
}

impl Spelled for Name {
    ghost toks = { name_toks };

    #[tactic(auto, using(crate::proofs::Lengths::dotted_length))]
    fn length(&self) -> usize {
        self.rest.len().saturating_mul(2).saturating_add(1)
    }
}

impl Spelled for Value {
    ghost toks = { value_toks };

    fn length(&self) -> usize {
        match self {
            Value::Number(number) => number.length(),
            Value::Text(_) => 1,
            Value::Name(name) => name.length(),
        }
    }
}

impl Spelled for Attribute {
    ghost toks = { attr_toks };

    fn length(&self) -> usize {
        let parts = self.name.length().saturating_add(self.value.length());
        parts.saturating_add(2)
    }
}

impl<T: Spelled + Drop> Spelled for ListOf<T> {
    ghost toks = { flat_map T.toks };

    fn length(&self) -> usize {
        let mut count = 0usize;
        for item in self.as_slice() {
            count = count.saturating_add(item.length());
        }
        count
    }
}

impl Spelled for Label {
    ghost toks = { label_toks };

    fn length(&self) -> usize {
        1
    }
}

impl Spelled for Entry {
    ghost toks = { entry_toks };

    fn length(&self) -> usize {
        let high = match self.high {
            None => 0,
            Some(number) => number.length().saturating_add(1),
        };
        self.low.length().saturating_add(high).saturating_add(2)
    }
}

impl Spelled for Entries {
    ghost toks = { entries_toks };

    fn length(&self) -> usize {
        match self {
            Entries::Empty => 0,
            Entries::Listed(first, rest, Closing::Plain) => listed(first, rest),
            Entries::Listed(first, rest, Closing::Comma) => listed(first, rest).saturating_add(1),
        }
    }
}

/// How many atoms spell the first entry and those behind it, each with its comma.
#[tactic(auto, using(crate::proofs::Lengths::next_entries_length))]
fn listed(first: &Entry, rest: &ListOf<Entry>) -> usize
    ensures { HasLength (entry_toks first.now ++ flat_map next_entry_toks rest.now) result }
{
    let behind = rest.length().saturating_add(rest.len());
    first.length().saturating_add(behind)
}

impl Spelled for Bracket {
    ghost toks = { bracket_toks };

    fn length(&self) -> usize {
        match self {
            Bracket::Count(number) => number.length().saturating_add(2),
            Bracket::Member(_) => 3,
        }
    }
}

impl Spelled for Kind {
    ghost toks = { kind_toks };

    fn length(&self) -> usize {
        match self {
            Kind::Integer(attributes) => attributes.length().saturating_add(3),
            Kind::Enumeration(attributes, entries) => attributes
                .length()
                .saturating_add(entries.length())
                .saturating_add(7),
            Kind::Text(None) => 1,
            Kind::Text(Some(attributes)) => attributes.length().saturating_add(3),
        }
    }
}

impl Spelled for MemberTree {
    ghost toks = { member_toks };

    fn length(&self) -> usize {
        let parts = self.kind.length().saturating_add(self.brackets.length());
        parts.saturating_add(2)
    }
}

impl Spelled for Structure {
    ghost toks = { struct_toks };

    fn length(&self) -> usize {
        let align = match self.align {
            None => 3,
            Some(number) => number.length().saturating_add(6),
        };
        self.members.length().saturating_add(align)
    }
}

impl Spelled for Scope {
    ghost toks = { scope_toks };

    fn length(&self) -> usize {
        let parts = self.name.length().saturating_add(self.structure.length());
        parts.saturating_add(2)
    }
}

impl Spelled for Item {
    ghost toks = { item_toks };

    fn length(&self) -> usize {
        match self {
            Item::Attribute(attribute) => attribute.length(),
            Item::Scope(scope) => scope.length(),
        }
    }
}

impl Spelled for NamedFact {
    ghost toks = { named_fact_toks };

    fn length(&self) -> usize {
        match &self.fact {
            Fact::Number(number) => number.length().saturating_add(3),
            Fact::Text(_) => 4,
        }
    }
}

impl Spelled for Block {
    ghost toks = { block_toks };

    fn length(&self) -> usize {
        let inside = match self {
            Block::Trace(items)
            | Block::Stream(items)
            | Block::Event(items)
            | Block::Clock(items) => items.length(),
            Block::Environment(facts) => facts.length(),
        };
        inside.saturating_add(3)
    }
}
