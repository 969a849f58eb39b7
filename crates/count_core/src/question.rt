ghost use Rattle.std.specs.Prelude.{◌≡◌, ◌↔◌, false, IfOk, IsTrue};
ghost use Rattle.count_core.specs.Problems.{mentions, repeats};

use crate::lit::Lit;
use crate::lits::Lits;
use crate::same::same_lits;
use std::alloc::{AllocError, Global};
use std::marker::Model;

/// A question: does an assignment satisfy the rules and make each of these literals true? By its
/// type its literals are over different atoms. Contracts see it as the list of its literals.
#[derive(Drop)]
pub struct Question {
    lits: Lits,
}

impl Model for Question {
    ghost use Rattle.std.specs.Prelude.{◌≡◌, List, false};
    ghost use Rattle.count_core.specs.declared.lit.Lit.{Lit};
    ghost use Rattle.count_core.specs.Problems.{repeats};

    ghost Value = { List Lit };

    ghost view = { λ q. q.lits };

    ghost invariant = { λ q. repeats q.lits ≡ false };
}

impl Question {
    /// The question of these literals, which are over different atoms, as `are_distinct` tells.
    pub fn new(lits: Lits) -> Question
        requires { repeats lits ≡ false }
        ensures { result ≡ lits }
    {
        Question { lits }
    }

    /// The literals, in order.
    pub fn lits(&self) -> &[Lit]
        ensures lits { result.now ≡ self.now }
        ensures distinct { repeats self.now ≡ false }
    {
        self.lits.as_slice()
    }

    /// Whether both have the same literals in the same order.
    pub fn equals(&self, other: &Question) -> bool
        ensures { IsTrue result ↔ (self.now ≡ other.now) }
    {
        same_lits(self.lits.as_slice(), other.lits.as_slice())
    }

    /// An equal question.
    pub fn clone_in(&self, alloc: Global) -> Result<Question, AllocError>
        ensures { IfOk result (λ q. q ≡ self.now) }
    {
        let lits = self.lits.clone_in(alloc)?;
        Ok(Question { lits })
    }
}

/// Whether no two of the literals are over one atom, in time by the square of their number.
pub fn are_distinct(lits: &[Lit]) -> bool
    ensures { IsTrue result ↔ (repeats lits.now ≡ false) }
{
    for (i, lit) in lits.iter().enumerate() {
        if mentions(lit.atom.0, &lits[i + 1..]) {
            return false;
        }
    }
    true
}

/// Whether some literal is over the atom.
fn mentions(atom: u32, lits: &[Lit]) -> bool
    ensures { result ≡ mentions atom lits.now }
{
    lits.iter().any(|lit| lit.atom.0 == atom)
}
