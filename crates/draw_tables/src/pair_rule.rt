/// A rule that one pair of a runner-up and its winner can break.
#[derive(Clone, Copy, Debug, PartialEq, Eq)]
pub enum PairRule {
    /// Rule 2: they do not come from one first-round group.
    Letters,
    /// Rule 3: they have no tag in common.
    Tags,
    /// Rule 4: they are not a forbidden pair.
    Forbidden,
}
