//! The way to a value of a configuration.
ghost use Rattle.std.specs.Prelude.{◌≡◌, ◌∷◌, ◌↔◌, [], IsTrue, IfOk};

use crate::Step;
use std::alloc::{AllocError, Global};
use std::marker::Model;

/// The steps from the outermost value to a place, outermost first, seen as their list.
#[derive(Debug, Drop)]
pub struct Path {
    steps: Vec<Step>,
}

impl Model for Path {
    ghost use Rattle.std.specs.Prelude.{List};
    ghost use Rattle.conf_tree.specs.declared.step.Step.{Step};

    ghost Value = { List Step };

    ghost view = { λ p. p.steps.items };
}

impl Path {
    /// The way from a value to itself. It takes no memory.
    pub fn new(alloc: Global) -> Path
        ensures { result ≡ [] }
    {
        Path {
            steps: Vec::new(alloc),
        }
    }

    /// The steps, outermost first.
    pub fn as_slice(&self) -> &[Step]
        ensures { result.now ≡ self.now }
    {
        self.steps.as_slice()
    }

    /// Whether there is no step.
    pub fn is_empty(&self) -> bool
        ensures { IsTrue result ↔ (self.now ≡ []) }
    {
        self.steps.is_empty()
    }

    /// The same way, seen from the value from which this step leads to the one where it began.
    pub(crate) fn behind(self, step: Step) -> Result<Path, AllocError>
        ensures { IfOk result (λ path. path ≡ step ∷ self) }
    {
        let Self { mut steps } = self;
        steps.insert(0, step)?;
        Ok(Path { steps })
    }
}
