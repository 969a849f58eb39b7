ghost use Rattle.std.specs.Prelude.{◌≡◌, IfOk};
ghost use Rattle.draw_tables.specs.Names.{AreFileChoices};
ghost use Rattle.draw_tables.specs.GroupPhases.{groups_for, undrawn_of_pot};
ghost use Rattle.draw_tables.specs.PairingPhases.{unpaired_winners};
ghost use Rattle.draw_tables.specs.Pots.{later_positions};
ghost use Rattle.draw_tables.specs.States.{candidates, candidates_in, group_choices, position_choices, team_choices};

use crate::NoMemory;
use crate::group_phases::has_placed;
use crate::moves::{Choice, Move, Phase};
use crate::moves_said::is_drawn;
use crate::phases::{is_paired, phase_of};
use crate::pots::{pot_of, teams_of_pot};
use rule_sets::DrawFile;
use std::alloc::Global;
use team_files::TeamId;

/// The candidates of the phase after the moves, in order.
pub fn candidates(alloc: Global, file: &DrawFile, moves: &[Move]) -> Result<Vec<Choice>, NoMemory>
    ensures candidates { IfOk result (λ choices. choices.items ≡ candidates file.now moves.now) }
    ensures of_file { IfOk result (λ choices. AreFileChoices file.now choices.items) }
{
    let choices = candidates_in(alloc, file, moves, phase_of(file, moves))?;
    Ok(choices)
}

/// The candidates of a phase, in order.
fn candidates_in(
    alloc: Global,
    file: &DrawFile,
    moves: &[Move],
    phase: Phase,
) -> Result<Vec<Choice>, NoMemory>
    ensures { IfOk result (λ choices. choices.items ≡ candidates_in file.now moves.now phase) }
{
    match phase {
        Phase::Runner => undrawn_of_pot(alloc, file, moves, 2),
        Phase::Opponent { runner: _ } => unpaired_winners(alloc, file, moves),
        Phase::Team { pot } => undrawn_of_pot(alloc, file, moves, pot),
        Phase::Group { team } => groups_for(alloc, file, moves, team),
        Phase::Position { team: _ } => later_positions(alloc, file),
        Phase::Complete => Ok(Vec::new(alloc)),
    }
}

/// The teams of a pot that were not drawn, in file order: in a pairing pot 2 has the runners-up.
fn undrawn_of_pot(
    alloc: Global,
    file: &DrawFile,
    moves: &[Move],
    pot: u32,
) -> Result<Vec<Choice>, NoMemory>
    ensures { IfOk result (λ choices.
        choices.items ≡ team_choices (undrawn_of_pot file.now moves.now pot)) }
{
    let teams = teams_of_pot(alloc, file, pot)?;
    teams
        .iter()
        .copied()
        .filter(|team| !is_drawn(moves, *team))
        .map(|team| Choice::Team(team))
        .collect(alloc)
}

/// The winners that are not paired, in file order.
fn unpaired_winners(alloc: Global, file: &DrawFile, moves: &[Move]) -> Result<Vec<Choice>, NoMemory>
    ensures { IfOk result (λ choices.
        choices.items ≡ team_choices (unpaired_winners file.now moves.now)) }
{
    let winners = teams_of_pot(alloc, file, 1)?;
    winners
        .iter()
        .copied()
        .filter(|team| !is_paired(moves, *team))
        .map(|team| Choice::Team(team))
        .collect(alloc)
}

/// The groups without a placed team of the team's pot, by letter.
fn groups_for(
    alloc: Global,
    file: &DrawFile,
    moves: &[Move],
    team: TeamId,
) -> Result<Vec<Choice>, NoMemory>
    ensures { IfOk result (λ choices.
        choices.items ≡ group_choices (groups_for file.now moves.now team)) }
{
    let Some(pot) = pot_of(file, team) else {
        return Ok(Vec::new(alloc));
    };
    let mut choices = Vec::new(alloc);
    for group in 0..file.groups() {
        if has_placed(file, moves, pot, group) {
            continue;
        }
        choices.push(Choice::Group(group))?;
    }
    Ok(choices)
}

/// The positions that are drawn by a ball: each from 2 to the number of pots.
fn later_positions(alloc: Global, file: &DrawFile) -> Result<Vec<Choice>, NoMemory>
    ensures { IfOk result (λ choices.
        choices.items ≡ position_choices (later_positions file.now)) }
{
    let mut choices = Vec::new(alloc);
    for place in 0..file.pots().saturating_sub(1) {
        choices.push(Choice::Position(place + 2))?;
    }
    Ok(choices)
}
