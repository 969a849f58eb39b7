ghost use Rattle.std.specs.Prelude.{◌≡◌, ℕ, ◌≤◌, ◌<◌, length, IfOk, MatchOption};
ghost use Rattle.team_files.specs.Heads.{most_teams};
ghost use Rattle.count_core.specs.Assignments.{Satisfies, SatisfiesQuestion};
ghost use Rattle.draw_tables.specs.Offers.{Extends};
ghost use Rattle.draw_tables.specs.States.{IsState};
ghost use Rattle.draw_tables.specs.Tables.{IsLegal, IsTableOf};
ghost use Rattle.pairing_draw.specs.Encoding.{HasTrueAtom, IsRead, IsReadTable, IsTrueWinner, lits_of_moves, rules_of};

use crate::NoMemory;
use crate::pots::pot_of;
use draw_tables::{Move, PairTable, Table};
use rule_sets::DrawFile;
use std::alloc::Global;
use team_files::{Kind, TeamId};

/// The table of values that satisfy the rules of a pairing's file and make the literals of a state's
/// moves true: it gives each runner-up the winner whose atom is true. It is a table of the file, is
/// legal and extends the moves. Values are by atom from 0.
pub fn decode(
    alloc: Global,
    file: &DrawFile,
    moves: &[Move],
    values: &[bool],
) -> Result<Table, NoMemory>
    requires kind { file.now.kind ≡ Kind.Pairing }
    requires state { IsState file.now moves.now }
    requires rules { Satisfies values.now (rules_of file.now) }
    requires moves { SatisfiesQuestion values.now (lits_of_moves file.now moves.now) }
    ensures legal { IfOk result (λ table. IsLegal file.now table) }
    ensures of_file { IfOk result (λ table. IsTableOf file.now table) }
    ensures extends { IfOk result (λ table. Extends file.now table moves.now) }
    ensures atoms { IfOk result (λ table. IsReadTable file.now values.now table) }
{
    let winners = pot_of(alloc, file, 1)?;
    let runners = pot_of(alloc, file, 2)?;
    let given = read_rows(alloc, values, runners.len(), &winners)?;
    Ok(Table::Pairs(PairTable::new(given)))
}

/// The winners whose atoms are true, runner-up by runner-up.
fn read_rows(
    alloc: Global,
    values: &[bool],
    runners: usize,
    winners: &[TeamId],
) -> Result<Vec<TeamId>, NoMemory>
    requires runners { runners ≤ most_teams }
    requires winners { length winners.now ≤ most_teams }
    requires each { (r : ℕ) → r < runners → HasTrueAtom values.now (length winners.now) r }
    ensures { IfOk result (λ given. IsRead values.now runners winners.now given.items) }
{
    let mut given = Vec::new(alloc);
    for runner in 0..runners {
        given.push(winner_of(values, runner, winners).unwrap())?;
    }
    Ok(given)
}

/// The first winner whose atom with the runner-up at a place is true.
fn winner_of(values: &[bool], runner: usize, winners: &[TeamId]) -> Option<TeamId>
    requires runner { runner ≤ most_teams }
    requires winners { length winners.now ≤ most_teams }
    ensures { MatchOption result
        (¬ HasTrueAtom values.now (length winners.now) runner)
        (λ winner. IsTrueWinner values.now winners.now runner winner) }
{
    for (place, winner) in winners.iter().enumerate() {
        let atom = runner * winners.len() + place;
        if atom < values.len() && values[atom] {
            return Some(*winner);
        }
    }
    None
}
