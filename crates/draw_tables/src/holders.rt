ghost use Rattle.std.specs.Prelude.{◌≡◌, ◌↔◌, IsTrue, MatchOption};
ghost use Rattle.team_files.specs.declared.team_id.TeamId.{TeamId};
ghost use Rattle.draw_tables.specs.Positions.{HasOtherPlace, IsHeld, IsHolder, IsTakenByMove, IsTakenByPlace, Takes};

use crate::moves::Move;
use crate::moves_said::group_in;
use rule_sets::DrawFile;
use team_files::TeamId;

/// Who holds a position of the group for the team: another team that has it by a ball or by a fixed
/// place; where none has it, the team itself, if its own fixed place has another position. `None`
/// exactly where the position is not held. Groups count from 0, positions from 1.
pub fn holder_of(
    file: &DrawFile,
    moves: &[Move],
    team: TeamId,
    group: u32,
    position: u32,
) -> Option<TeamId>
    ensures { MatchOption result
        (¬ IsHeld file.now moves.now team group position)
        (λ holder. IsHolder file.now moves.now team group position holder) }
{
    if let Some(other) = taker_by_move(moves, team, group, position) {
        return Some(other);
    }
    if let Some(other) = taker_by_place(file, team, group, position) {
        return Some(other);
    }
    if has_other_place(file, team, position) {
        return Some(team);
    }
    None
}

/// Another team of the group that has the position by a ball.
fn taker_by_move(moves: &[Move], team: TeamId, group: u32, position: u32) -> Option<TeamId>
    ensures { MatchOption result
        ((other : TeamId) → ¬ IsTakenByMove moves.now team group position other)
        (λ other. IsTakenByMove moves.now team group position other) }
{
    for step in moves {
        if let Some(other) = taker_of(moves, team, group, position, *step) {
            return Some(other);
        }
    }
    None
}

/// The other team of the group that the move gives the position.
fn taker_of(moves: &[Move], team: TeamId, group: u32, position: u32, step: Move) -> Option<TeamId>
    ensures { MatchOption result
        ((other : TeamId) → ¬ Takes moves.now team group position step other)
        (λ other. Takes moves.now team group position step other) }
{
    let Move::Positioned(other, taken) = step else {
        return None;
    };
    if taken != position || other == team || group_in(moves, other) != Some(group) {
        return None;
    }
    Some(other)
}

/// Another team that has the position of the group by a fixed place.
fn taker_by_place(file: &DrawFile, team: TeamId, group: u32, position: u32) -> Option<TeamId>
    ensures { MatchOption result
        ((other : TeamId) → ¬ IsTakenByPlace file.now team group position other)
        (λ other. IsTakenByPlace file.now team group position other) }
{
    for place in file.places() {
        if place.group == group && place.position == position && place.team != team {
            return Some(place.team);
        }
    }
    None
}

/// Whether the team's own fixed place has another position.
fn has_other_place(file: &DrawFile, team: TeamId, position: u32) -> bool
    ensures { IsTrue result ↔ HasOtherPlace file.now team position }
{
    file.places()
        .iter()
        .any(|place| place.team == team && place.position != position)
}
