//! What the integers of a text have to know of all of it.

ghost use Rattle.std.specs.Prelude.{◌≡◌, IfOk};
ghost use Rattle.tsdl_meaning.specs.Words.{list_any, bytes_eq, known_of};

use crate::room::with_room;
use ctf_types::{ByteOrder, ClockType, ListOf, Text};
use std::alloc::{AllocError, Global};
use std::collections::BTreeSet;
use std::marker::Model;

/// The byte order of the trace, and the names of the clocks: as they stand, and as a set.
#[derive(Drop)]
pub(crate) struct Known {
    order: ByteOrder,
    clocks: ListOf<Text>,
    names: BTreeSet<String>,
}

impl Model for Known {
    ghost use Rattle.tsdl_grammar.specs.IntegerMeaning as meaning;
    ghost use Rattle.tsdl_meaning.specs.NamesBefore.{HasNames};

    ghost Value = { meaning.Known };

    ghost view = { λ k. record { order = k.order; clocks = k.clocks } };

    ghost invariant = { λ k. HasNames k.names k.clocks };
}

impl Known {
    /// What integers have to know of a text of these clocks.
    pub(crate) fn of(
        alloc: Global,
        order: ByteOrder,
        clocks: &[ClockType],
    ) -> Result<Known, AllocError>
        ensures { IfOk result (λ k. k ≡ known_of order clocks.now) }
    {
        let mut names = with_room(alloc, clocks.len())?;
        for clock in clocks {
            names.push(clock.name.copy(alloc)?)?;
        }
        Known::with_names(alloc, order, names)
    }

    /// What integers have to know of a text whose clocks have these names.
    pub(crate) fn with_names(
        alloc: Global,
        order: ByteOrder,
        clocks: ListOf<Text>,
    ) -> Result<Known, AllocError>
        ensures { IfOk result (λ k. k ≡ record { order = order; clocks = clocks }) }
    {
        let mut names = BTreeSet::new(alloc);
        let listed = clocks.as_slice();
        for clock in listed {
            let _is_new = names.insert(String::from_str(alloc, clock.as_str())?)?;
        }
        Ok(Known {
            order,
            clocks,
            names,
        })
    }

    pub(crate) fn order(&self) -> ByteOrder
        ensures { result ≡ self.now.order }
    {
        self.order
    }

    pub(crate) fn clocks(&self) -> &[Text]
        ensures { result.now ≡ self.now.clocks }
    {
        self.clocks.as_slice()
    }

    /// Whether a clock has this name.
    pub(crate) fn has_clock(&self, name: &str) -> bool
        ensures { result ≡ list_any (bytes_eq name.now) self.now.clocks }
    {
        self.names.contains(name)
    }
}
