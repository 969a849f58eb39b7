/// What the rules say of a table.
#[derive(Clone, Copy, Debug, PartialEq, Eq)]
pub enum Verdict {
    /// No rule is broken.
    Legal,
    /// The first rule that is broken, counted from 1, and two numbers that tell its first case. In
    /// a pairing they are for rule 1 the place in the file of a winner that is not given exactly
    /// once, and how often it is given; for rules 2 to 4 the place of a runner-up and the place of
    /// its winner. Places count from 0. The numbers are this project's own.
    Broken { rule: u32, first: u32, second: u32 },
}
