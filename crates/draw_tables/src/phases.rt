ghost use Rattle.std.specs.Prelude.{◌≡◌, ◌↔◌, [], IsTrue};
ghost use Rattle.draw_tables.specs.PairingPhases.{has_opponent, is_paired, waiting_runner_up, undrawn_runners_up, pairing_phase};
ghost use Rattle.draw_tables.specs.States.{phase_of};

use crate::group_phases::{group_phase, has_undrawn};
use crate::moves::{Move, Phase};
use crate::moves_said::last_drawn;
use rule_sets::DrawFile;
use team_files::{Kind, TeamId};

/// What comes after the moves, by the kind of the draw.
pub fn phase_of(file: &DrawFile, moves: &[Move]) -> Phase
    ensures { result ≡ phase_of file.now moves.now }
{
    match file.kind() {
        Kind::Group => group_phase(file, moves),
        Kind::Pairing => pairing_phase(file, moves),
    }
}

/// What comes after the moves of a pairing: Opponent where the runner-up that was drawn last has no
/// opponent, else Runner where some runner-up is undrawn, else Complete.
fn pairing_phase(file: &DrawFile, moves: &[Move]) -> Phase
    ensures { result ≡ pairing_phase file.now moves.now }
{
    match waiting_runner_up(moves) {
        Some(runner) => Phase::Opponent { runner },
        None if are_all_drawn(file, moves) => Phase::Complete,
        None => Phase::Runner,
    }
}

/// The last drawn runner-up, where it has no opponent.
fn waiting_runner_up(moves: &[Move]) -> Option<TeamId>
    ensures { result ≡ waiting_runner_up moves.now }
{
    let runner = last_drawn(moves)?;
    if has_opponent(moves, runner) {
        return None;
    }
    Some(runner)
}

/// Whether the runner-up has an opponent.
fn has_opponent(moves: &[Move], runner: TeamId) -> bool
    ensures { result ≡ has_opponent runner moves.now }
{
    moves.iter().any(|step| matches!(*step, Move::Paired(other, _) if other == runner))
}

/// Whether the winner is paired.
pub(crate) fn is_paired(moves: &[Move], winner: TeamId) -> bool
    ensures { result ≡ is_paired winner moves.now }
{
    moves.iter().any(|step| matches!(*step, Move::Paired(_, other) if other == winner))
}

/// Whether each runner-up was drawn.
fn are_all_drawn(file: &DrawFile, moves: &[Move]) -> bool
    ensures { IsTrue result ↔ (undrawn_runners_up file.now moves.now ≡ []) }
{
    !has_undrawn(file, moves, 2)
}
