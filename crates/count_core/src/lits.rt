ghost use Rattle.std.specs.Prelude.{◌≡◌, IfOk};

use crate::lit::Lit;
use std::alloc::{AllocError, Global};
use std::marker::Model;

/// A list of literals, as of a rule or of a clause. Contracts see it as a list.
#[derive(Drop)]
pub struct Lits {
    entries: Vec<Lit>,
}

impl Model for Lits {
    ghost use Rattle.std.specs.Prelude.{List, Bool};
    ghost use Rattle.count_core.specs.declared.lit.Lit.{Lit};

    ghost Value = { List Lit };

    ghost view = { λ s. s.entries.items };
}

impl Lits {
    /// The list of these.
    pub fn new(entries: Vec<Lit>) -> Lits
        ensures { result ≡ entries.items }
    {
        Lits { entries }
    }

    /// A copy of these.
    pub fn from_slice(alloc: Global, entries: &[Lit]) -> Result<Lits, AllocError>
        ensures { IfOk result (λ s. s ≡ entries.now) }
    {
        Ok(Lits {
            entries: entries.to_vec(alloc)?,
        })
    }

    /// An equal list.
    pub fn clone_in(&self, alloc: Global) -> Result<Lits, AllocError>
        ensures { IfOk result (λ s. s ≡ self.now) }
    {
        Lits::from_slice(alloc, self.entries.as_slice())
    }

    /// The entries, in order.
    pub fn as_slice(&self) -> &[Lit]
        ensures { result.now ≡ self.now }
    {
        self.entries.as_slice()
    }

    /// The entries, in order, by value.
    pub fn into_vec(self) -> Vec<Lit>
        ensures { result.items ≡ self }
    {
        let Lits { entries } = self;
        entries
    }
}
