ghost use Rattle.std.specs.Prelude.{◌≡◌, ◌↔◌, IsTrue, MatchOption, Some};
ghost use Rattle.draw_tables.specs.Lists.{IsAmong};
ghost use Rattle.draw_tables.specs.Pots.{later_positions, teams_of_pot};
ghost use Rattle.draw_tables.specs.GroupPhases.{groups_for, open_groups, undrawn_of_pot};
ghost use Rattle.draw_tables.specs.PairingPhases.{unpaired_winners};
ghost use Rattle.draw_tables.specs.States.{IsMoveOf, candidates, candidates_in, move_in};

use crate::group_phases::has_placed;
use crate::moves::{Choice, Move, Phase};
use crate::moves_said::is_drawn;
use crate::phases::{is_paired, phase_of};
use crate::pots::pot_of;
use rule_sets::DrawFile;
use team_files::TeamId;

/// Whether the choice is a candidate of the phase after the moves.
pub fn is_candidate(file: &DrawFile, moves: &[Move], choice: Choice) -> bool
    ensures { IsTrue result ↔ (IsAmong (candidates file.now moves.now) choice) }
{
    is_candidate_in(file, moves, phase_of(file, moves), choice)
}

/// The move that the choice adds after the moves, or none where it is not a candidate.
pub fn move_of(file: &DrawFile, moves: &[Move], choice: Choice) -> Option<Move>
    ensures { MatchOption result
        (¬ IsAmong (candidates file.now moves.now) choice)
        (λ m. IsMoveOf file.now moves.now choice m) }
{
    let phase = phase_of(file, moves);
    if !is_candidate_in(file, moves, phase, choice) {
        return None;
    }
    move_in(phase, choice)
}

/// The move that a choice is in a phase, or none where the phase takes no such choice.
pub fn move_in(phase: Phase, choice: Choice) -> Option<Move>
    ensures { result ≡ move_in phase choice }
{
    match (phase, choice) {
        (Phase::Runner, Choice::Team(team)) => Some(Move::Drawn(team)),
        (Phase::Opponent { runner }, Choice::Team(team)) => Some(Move::Paired(runner, team)),
        (Phase::Team { pot: _ }, Choice::Team(team)) => Some(Move::Drawn(team)),
        (Phase::Group { team }, Choice::Group(group)) => Some(Move::Placed(team, group)),
        (Phase::Position { team }, Choice::Position(position)) => {
            Some(Move::Positioned(team, position))
        }
        _ => None,
    }
}

/// Whether the choice is a candidate of a phase.
fn is_candidate_in(file: &DrawFile, moves: &[Move], phase: Phase, choice: Choice) -> bool
    ensures { IsTrue result ↔ (IsAmong (candidates_in file.now moves.now phase) choice) }
{
    match (phase, choice) {
        (Phase::Runner, Choice::Team(team)) => is_undrawn(file, moves, team, 2),
        (Phase::Opponent { runner: _ }, Choice::Team(team)) => is_unpaired(file, moves, team),
        (Phase::Team { pot }, Choice::Team(team)) => is_undrawn(file, moves, team, pot),
        (Phase::Group { team }, Choice::Group(group)) => is_free(file, moves, team, group),
        (Phase::Position { team: _ }, Choice::Position(position)) => is_later(file, position),
        _ => false,
    }
}

/// Whether the team is of the pot and was not drawn.
fn is_undrawn(file: &DrawFile, moves: &[Move], team: TeamId, pot: u32) -> bool
    ensures { IsTrue result ↔ (IsAmong (undrawn_of_pot file.now moves.now pot) team) }
{
    is_in_pot(file, team, pot) && !is_drawn(moves, team)
}

/// Whether the group is one of the file's and has no placed team of the team's pot.
fn is_free(file: &DrawFile, moves: &[Move], team: TeamId, group: u32) -> bool
    ensures { IsTrue result ↔ (IsAmong (groups_for file.now moves.now team) group) }
{
    match pot_of(file, team) {
        Some(pot) => is_open(file, moves, pot, group),
        None => false,
    }
}

/// Whether the group is one of the file's and has no placed team of the pot.
fn is_open(file: &DrawFile, moves: &[Move], pot: u32, group: u32) -> bool
    ensures { IsTrue result ↔ (IsAmong (open_groups file.now moves.now (Some pot)) group) }
{
    group < file.groups() && !has_placed(file, moves, pot, group)
}

/// Whether the position is drawn by a ball: it is one from 2 to the number of pots.
fn is_later(file: &DrawFile, position: u32) -> bool
    ensures { IsTrue result ↔ (IsAmong (later_positions file.now) position) }
{
    2 <= position && position <= file.pots()
}

/// Whether the team is a winner that is not paired.
fn is_unpaired(file: &DrawFile, moves: &[Move], team: TeamId) -> bool
    ensures { IsTrue result ↔ (IsAmong (unpaired_winners file.now moves.now) team) }
{
    is_in_pot(file, team, 1) && !is_paired(moves, team)
}

/// Whether the team is one of the file's, and of the pot.
fn is_in_pot(file: &DrawFile, team: TeamId, pot: u32) -> bool
    ensures { IsTrue result ↔ (IsAmong (teams_of_pot pot file.now) team) }
{
    let teams = file.teams();
    team.0 < teams.number() && teams.get(team).pot == pot
}
