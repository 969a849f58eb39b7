use team_files::TeamId;

/// A fixed place: the team stands in the group, counted from 0 (A), at the position, counted from
/// 1.
#[derive(Clone, Copy, Debug, PartialEq, Eq)]
pub struct Place {
    pub team: TeamId,
    pub group: u32,
    pub position: u32,
}
