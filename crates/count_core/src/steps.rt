ghost use Rattle.std.specs.Prelude.{◌≡◌, IfOk};

use crate::step::Step;
use std::alloc::{AllocError, Global};
use std::marker::Model;

/// A list of steps, numbered from 0. Contracts see it as a list. Nothing is promised of the steps.
#[derive(Drop)]
pub struct Steps {
    entries: Vec<Step>,
}

impl Model for Steps {
    ghost use Rattle.std.specs.Prelude.{List};
    ghost use Rattle.count_core.specs.declared.step.Step.{Step};

    ghost Value = { List Step };

    ghost view = { λ s. s.entries.items };
}

impl Steps {
    /// The list of these.
    pub fn new(entries: Vec<Step>) -> Steps
        ensures { result ≡ entries.items }
    {
        Steps { entries }
    }

    /// A copy of these.
    pub fn from_slice(alloc: Global, entries: &[Step]) -> Result<Steps, AllocError>
        ensures { IfOk result (λ s. s ≡ entries.now) }
    {
        let mut copies = Vec::new(alloc);
        for step in entries {
            copies.push(step.clone_in(alloc)?)?;
        }
        Ok(Steps { entries: copies })
    }

    /// An equal list.
    pub fn clone_in(&self, alloc: Global) -> Result<Steps, AllocError>
        ensures { IfOk result (λ s. s ≡ self.now) }
    {
        Steps::from_slice(alloc, self.entries.as_slice())
    }

    /// The steps, in order.
    pub fn as_slice(&self) -> &[Step]
        ensures { result.now ≡ self.now }
    {
        self.entries.as_slice()
    }

    /// The steps, in order, by value.
    pub fn into_vec(self) -> Vec<Step>
        ensures { result.items ≡ self }
    {
        let Steps { entries } = self;
        entries
    }
}
