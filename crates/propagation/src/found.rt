use count_core::Hint;

/// How propagation ended.
#[derive(Clone, Copy, Debug, PartialEq, Eq)]
pub enum Found {
    /// No rule and no added clause conflicts, and none forces an unset literal.
    Quiet,
    /// The rule with this number conflicts, or the clause that was added with this step's number.
    Conflict { cause: Hint },
}
