//! Where a value that is looked at stands in the value around it.
use crate::{ConfFault, FaultKind};
use std::alloc::Global;

/// The place that a look-up's fault names, seen from the value that its caller reads.
#[derive(Clone, Copy, Debug)]
pub enum At<'a> {
    /// The caller's value itself.
    Here,
    /// Its property of this name.
    Property(&'a str),
    /// Its item at this index.
    Item(usize),
}

impl At<'_> {
    ghost use Rattle.std.specs.Prelude.{◌≡◌, ◌⊎◌};
    ghost use Rattle.conf_tree.specs.Flaw.{flaw_of, here, IsMemory};
    ghost use Rattle.conf_tree.specs.Reading.{flaw_at};

    /// A fault of the value that stands here, or want of memory for the step.
    pub fn fault(self, alloc: Global, kind: FaultKind) -> ConfFault
        ensures { IsMemory result ⊎ (flaw_of result ≡ flaw_at self.entry (here kind)) }
    {
        let fault = ConfFault::here(alloc, kind);
        match self {
            At::Here => fault,
            At::Property(name) => fault.in_property(alloc, name),
            At::Item(index) => fault.inside(alloc, index),
        }
    }
}
