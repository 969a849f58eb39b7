ghost use Rattle.std.specs.Prelude.{◌≡◌};
ghost use Rattle.draw_tables.specs.GroupPhases.{group_phase, has_placed, has_position_ball, has_undrawn, open_pot, places_in, without_group, without_position};

use crate::moves::{Move, Phase};
use crate::moves_said::{group_in, is_drawn, last_drawn, last_placed, position_in};
use crate::pots::is_of_pot;
use rule_sets::DrawFile;
use team_files::TeamId;

/// What comes after the moves of a group draw: Group where the team that was drawn last has no
/// group, else Position where the team that was placed last is of pot 2 or higher and has no
/// position, else Team where some team is undrawn, else Complete.
pub(crate) fn group_phase(file: &DrawFile, moves: &[Move]) -> Phase
    ensures { result ≡ group_phase file.now moves.now }
{
    if let Some(team) = without_group(moves) {
        return Phase::Group { team };
    }
    if let Some(team) = without_position(file, moves) {
        return Phase::Position { team };
    }
    match open_pot(file, moves) {
        Some(pot) => Phase::Team { pot },
        None => Phase::Complete,
    }
}

/// The team that was drawn last, where it has no group.
fn without_group(moves: &[Move]) -> Option<TeamId>
    ensures { result ≡ without_group moves.now }
{
    let team = last_drawn(moves)?;
    if group_in(moves, team).is_some() {
        return None;
    }
    Some(team)
}

/// The team that was placed last, where it is of pot 2 or higher and has no position.
fn without_position(file: &DrawFile, moves: &[Move]) -> Option<TeamId>
    ensures { result ≡ without_position file.now moves.now }
{
    let team = last_placed(moves)?;
    if !has_position_ball(file, team) || position_in(moves, team).is_some() {
        return None;
    }
    Some(team)
}

/// Whether a ball gives the team its position: each team but those of pot 1.
fn has_position_ball(file: &DrawFile, team: TeamId) -> bool
    ensures { result ≡ has_position_ball file.now team }
{
    !is_of_pot(file, team, 1)
}

/// The lowest pot that has undrawn teams.
fn open_pot(file: &DrawFile, moves: &[Move]) -> Option<u32>
    ensures { result ≡ open_pot file.now moves.now }
{
    for place in 0..file.pots() {
        let pot = place + 1;
        if has_undrawn(file, moves, pot) {
            return Some(pot);
        }
    }
    None
}

/// Whether some team of the pot is undrawn.
pub(crate) fn has_undrawn(file: &DrawFile, moves: &[Move], pot: u32) -> bool
    ensures { result ≡ has_undrawn file.now moves.now pot }
{
    let teams = file.teams();
    for place in 0..teams.number() {
        let id = TeamId(place);
        if teams.get(id).pot != pot {
            continue;
        }
        if !is_drawn(moves, id) {
            return true;
        }
    }
    false
}

/// Whether a team of the pot was placed in the group.
pub(crate) fn has_placed(file: &DrawFile, moves: &[Move], pot: u32, group: u32) -> bool
    ensures { result ≡ has_placed file.now moves.now pot group }
{
    moves.iter().any(|step| places_in(file, pot, group, *step))
}

/// Whether the move places a team of the pot in the group.
fn places_in(file: &DrawFile, pot: u32, group: u32, step: Move) -> bool
    ensures { result ≡ places_in file.now pot group step }
{
    match step {
        Move::Placed(team, other) => other == group && is_of_pot(file, team, pot),
        _ => false,
    }
}
