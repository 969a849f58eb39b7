ghost use Rattle.std.specs.Prelude.{◌≡◌, IfOk};

use std::alloc::{AllocError, Global};
use std::marker::Model;

/// Truth values by atom, from atom 0; an atom past the end is false. Contracts see a list.
#[derive(Drop)]
pub struct Values {
    entries: Vec<bool>,
}

impl Model for Values {
    ghost use Rattle.std.specs.Prelude.{List, Bool};

    ghost Value = { List Bool };

    ghost view = { λ s. s.entries.items };
}

impl Values {
    /// The list of these.
    pub fn new(entries: Vec<bool>) -> Values
        ensures { result ≡ entries.items }
    {
        Values { entries }
    }

    /// A copy of these.
    pub fn from_slice(alloc: Global, entries: &[bool]) -> Result<Values, AllocError>
        ensures { IfOk result (λ s. s ≡ entries.now) }
    {
        Ok(Values {
            entries: entries.to_vec(alloc)?,
        })
    }

    /// An equal list.
    pub fn clone_in(&self, alloc: Global) -> Result<Values, AllocError>
        ensures { IfOk result (λ s. s ≡ self.now) }
    {
        Values::from_slice(alloc, self.entries.as_slice())
    }

    /// The entries, in order.
    pub fn as_slice(&self) -> &[bool]
        ensures { result.now ≡ self.now }
    {
        self.entries.as_slice()
    }

    /// The entries, in order, by value.
    pub fn into_vec(self) -> Vec<bool>
        ensures { result.items ≡ self }
    {
        let Values { entries } = self;
        entries
    }
}
