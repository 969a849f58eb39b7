/// A rule that one group can break in one of several ways, each told by a number.
#[derive(Clone, Copy, Debug, PartialEq, Eq)]
pub enum GroupRule {
    /// Rule 2: it has exactly one team of each pot; the number is the pot.
    Pots,
    /// Rule 3: it keeps each limit; the number is the limit's.
    Limits,
    /// Rule 5: each position is taken by exactly one team, and position 1 by the team of pot 1; the
    /// number is the position.
    Positions,
}
