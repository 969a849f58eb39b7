ghost use Rattle.std.specs.Prelude.{◌≡◌, IfOk};

use crate::hints::Hints;
use crate::lits::Lits;
use std::alloc::{AllocError, Global};

/// A step: a clause, which says that at least one of its literals is true, and the hints by which
/// it is accepted.
#[derive(Drop)]
pub struct Step {
    pub clause: Lits,
    pub hints: Hints,
}

impl Step {
    /// An equal step.
    pub fn clone_in(&self, alloc: Global) -> Result<Step, AllocError>
        ensures { IfOk result (λ s. s ≡ self.now) }
    {
        let clause = self.clause.clone_in(alloc)?;
        let hints = self.hints.clone_in(alloc)?;
        Ok(Step { clause, hints })
    }
}
