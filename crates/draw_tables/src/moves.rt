use team_files::TeamId;

/// What a ball adds to a draw. Groups count from 0 (A), positions from 1.
#[derive(Clone, Copy, Debug, PartialEq, Eq)]
pub enum Move {
    /// A team was drawn: in a pairing a runner-up.
    Drawn(TeamId),
    /// A drawn team took a group.
    Placed(TeamId, u32),
    /// A placed team got its position in its group.
    Positioned(TeamId, u32),
    /// A runner-up got its opponent, a winner.
    Paired(TeamId, TeamId),
}

/// What a ball may name, or a drawn team may take. Groups count from 0 (A), positions from 1.
#[derive(Clone, Copy, Debug, PartialEq, Eq)]
pub enum Choice {
    Team(TeamId),
    Group(u32),
    Position(u32),
}

/// What comes next in a draw.
#[derive(Clone, Copy, Debug, PartialEq, Eq)]
pub enum Phase {
    /// A runner-up is drawn.
    Runner,
    /// The runner-up that was drawn last gets its opponent.
    Opponent { runner: TeamId },
    /// A team of the pot is drawn; pots count from 1.
    Team { pot: u32 },
    /// The team that was drawn last takes a group. No ball does this.
    Group { team: TeamId },
    /// The team that was placed last, of pot 2 or higher, gets its position.
    Position { team: TeamId },
    /// Nothing comes.
    Complete,
}
