use team_files::TeamId;

/// A forbidden pair: two different teams of the file.
#[derive(Clone, Copy, Debug, PartialEq, Eq)]
pub struct Pair {
    pub first: TeamId,
    pub second: TeamId,
}
