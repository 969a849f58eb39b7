ghost use Rattle.std.specs.Prelude.{◌≡◌, ◌≤◌, ◌<◌, length, true, false, IfOk};
ghost use Rattle.count_core.specs.Problems.{are_within, repeats};
ghost use Rattle.draw_tables.specs.States.{IsState};
ghost use Rattle.pairing_draw.specs.Encoding.{lits_of_moves, place_of, rules_of};

use crate::NoMemory;
use crate::atoms::pair_lit;
use crate::pots::pot_of;
use count_core::Lit;
use draw_tables::Move;
use rule_sets::DrawFile;
use std::alloc::Global;
use team_files::{Kind, TeamId};

/// The literals of the moves of a pairing's state: for each pair of a runner-up and a winner, in
/// order, that its atom is true.
pub fn lits_of(alloc: Global, file: &DrawFile, moves: &[Move]) -> Result<Vec<Lit>, NoMemory>
    requires kind { file.now.kind ≡ Kind.Pairing }
    requires state { IsState file.now moves.now }
    ensures literals { IfOk result (λ lits. lits.items ≡ lits_of_moves file.now moves.now) }
    ensures within { IfOk result (λ lits. are_within (rules_of file.now).atoms lits.items ≡ true) }
    ensures distinct { IfOk result (λ lits. repeats lits.items ≡ false) }
{
    let lits = literals_of(alloc, file, moves)?;
    Ok(lits)
}

/// The literals of moves, in order.
fn literals_of(alloc: Global, file: &DrawFile, moves: &[Move]) -> Result<Vec<Lit>, NoMemory>
    ensures { IfOk result (λ lits. lits.items ≡ lits_of_moves file.now moves.now) }
{
    let winners = pot_of(alloc, file, 1)?;
    let runners = pot_of(alloc, file, 2)?;
    let mut literals = Vec::new(alloc);
    for step in moves {
        let Move::Paired(runner, winner) = *step else {
            continue;
        };
        let place = place_of(runner, &runners);
        let other = place_of(winner, &winners);
        literals.push(pair_lit(winners.len(), place, other))?;
    }
    Ok(literals)
}

/// The place of the team in the list, counted from 0; their number where it is none of them.
fn place_of(team: TeamId, teams: &[TeamId]) -> usize
    ensures place { result ≡ place_of team teams.now }
    ensures within { result ≤ length teams.now }
{
    for (place, other) in teams.iter().enumerate() {
        if *other == team {
            return place;
        }
    }
    teams.len()
}
