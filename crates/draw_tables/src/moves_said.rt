ghost use Rattle.std.specs.Prelude.{◌≡◌};
ghost use Rattle.draw_tables.specs.Moves.{group_in, is_drawn, last_drawn, last_placed, position_in};

use crate::moves::Move;
use team_files::TeamId;

/// Whether the team was drawn.
pub(crate) fn is_drawn(moves: &[Move], team: TeamId) -> bool
    ensures { result ≡ is_drawn team moves.now }
{
    moves.iter().any(|step| matches!(*step, Move::Drawn(other) if other == team))
}

/// The team that was drawn last.
pub(crate) fn last_drawn(moves: &[Move]) -> Option<TeamId>
    ensures { result ≡ last_drawn moves.now }
{
    let mut last = None;
    for step in moves {
        if let Move::Drawn(team) = *step {
            last = Some(team);
        }
    }
    last
}

/// The team that was placed in a group last.
pub(crate) fn last_placed(moves: &[Move]) -> Option<TeamId>
    ensures { result ≡ last_placed moves.now }
{
    let mut last = None;
    for step in moves {
        if let Move::Placed(team, _) = *step {
            last = Some(team);
        }
    }
    last
}

/// The group that the moves give the team, counted from 0, or none.
pub fn group_in(moves: &[Move], team: TeamId) -> Option<u32>
    ensures { result ≡ group_in moves.now team }
{
    let mut last = None;
    for step in moves {
        if let Move::Placed(other, group) = *step
            && other == team
        {
            last = Some(group);
        }
    }
    last
}

/// The position that the moves give the team, counted from 1, or none: a team of pot 1 gets its
/// position by no move.
pub fn position_in(moves: &[Move], team: TeamId) -> Option<u32>
    ensures { result ≡ position_in moves.now team }
{
    let mut last = None;
    for step in moves {
        if let Move::Positioned(other, position) = *step
            && other == team
        {
            last = Some(position);
        }
    }
    last
}
