/// What a session has done so far, over all its questions.
#[derive(Clone, Copy, Debug, PartialEq, Eq)]
pub struct Counts {
    /// Literals that were assumed to split on.
    pub decisions: u64,
    /// Rules or clauses that conflicted.
    pub conflicts: u64,
    /// Literals that propagation set.
    pub literals: u64,
    /// Conflicts whose analysis gave no accepted step.
    pub fallbacks: u64,
}
