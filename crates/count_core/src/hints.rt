ghost use Rattle.std.specs.Prelude.{◌≡◌, IfOk};

use crate::hint::Hint;
use std::alloc::{AllocError, Global};
use std::marker::Model;

/// A list of hints, in the order in which they are applied. Contracts see it as a list.
#[derive(Drop)]
pub struct Hints {
    entries: Vec<Hint>,
}

impl Model for Hints {
    ghost use Rattle.std.specs.Prelude.{List, Bool};
    ghost use Rattle.count_core.specs.declared.hint.Hint.{Hint};

    ghost Value = { List Hint };

    ghost view = { λ s. s.entries.items };
}

impl Hints {
    /// The list of these.
    pub fn new(entries: Vec<Hint>) -> Hints
        ensures { result ≡ entries.items }
    {
        Hints { entries }
    }

    /// A copy of these.
    pub fn from_slice(alloc: Global, entries: &[Hint]) -> Result<Hints, AllocError>
        ensures { IfOk result (λ s. s ≡ entries.now) }
    {
        Ok(Hints {
            entries: entries.to_vec(alloc)?,
        })
    }

    /// An equal list.
    pub fn clone_in(&self, alloc: Global) -> Result<Hints, AllocError>
        ensures { IfOk result (λ s. s ≡ self.now) }
    {
        Hints::from_slice(alloc, self.entries.as_slice())
    }

    /// The entries, in order.
    pub fn as_slice(&self) -> &[Hint]
        ensures { result.now ≡ self.now }
    {
        self.entries.as_slice()
    }

    /// The entries, in order, by value.
    pub fn into_vec(self) -> Vec<Hint>
        ensures { result.items ≡ self }
    {
        let Hints { entries } = self;
        entries
    }
}
