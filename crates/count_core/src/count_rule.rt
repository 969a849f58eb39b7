ghost use Rattle.std.specs.Prelude.{◌≡◌, IfOk};

use crate::lits::Lits;
use std::alloc::{AllocError, Global};

/// A count rule: at least `lo` and at most `hi` of the literals are true. In a problem its literals
/// are over different atoms, and `lo` is not above `hi`.
#[derive(Drop)]
pub struct CountRule {
    pub lits: Lits,
    pub lo: u32,
    pub hi: u32,
}

impl CountRule {
    /// An equal rule.
    pub fn clone_in(&self, alloc: Global) -> Result<CountRule, AllocError>
        ensures { IfOk result (λ r. r ≡ self.now) }
    {
        Ok(CountRule {
            lits: self.lits.clone_in(alloc)?,
            lo: self.lo,
            hi: self.hi,
        })
    }
}
