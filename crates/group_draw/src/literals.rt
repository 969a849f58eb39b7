ghost use Rattle.std.specs.Prelude.{◌≡◌, true, false, IfOk};
ghost use Rattle.std.specs.List.{AllByRecursion};
ghost use Rattle.team_files.specs.declared.kind.Kind.{Kind};
ghost use Rattle.count_core.specs.Problems.{are_within, repeats};
ghost use Rattle.draw_tables.specs.States.{IsState};
ghost use Rattle.group_draw.specs.Encoding.{HasAtoms, NamesAtom, lits_of_moves, rules_of};

use crate::NoMemory;
use crate::atoms::{form_of, group_lit};
use count_core::Lit;
use draw_tables::Move;
use rule_sets::DrawFile;
use std::alloc::Global;

/// The literals of the moves of a group draw's state: for each team that took a group, in order,
/// that it stands there.
pub fn lits_of(alloc: Global, file: &DrawFile, moves: &[Move]) -> Result<Vec<Lit>, NoMemory>
    requires kind { file.now.kind ≡ Kind.Group }
    requires state { IsState file.now moves.now }
    ensures literals { IfOk result (λ lits. lits.items ≡ lits_of_moves file.now moves.now) }
    ensures within { IfOk result (λ lits. are_within (rules_of file.now).atoms lits.items ≡ true) }
    ensures distinct { IfOk result (λ lits. repeats lits.items ≡ false) }
{
    form_of(file);
    let lits = literals_of(alloc, file, moves)?;
    Ok(lits)
}

/// The literals of moves, in order.
fn literals_of(alloc: Global, file: &DrawFile, moves: &[Move]) -> Result<Vec<Lit>, NoMemory>
    requires atoms { HasAtoms file.now }
    requires moves { AllByRecursion (NamesAtom file.now) moves.now }
    ensures { IfOk result (λ lits. lits.items ≡ lits_of_moves file.now moves.now) }
{
    let mut literals = Vec::new(alloc);
    for step in moves {
        if let Move::Placed(team, group) = *step {
            literals.push(group_lit(file, group, team))?;
        }
    }
    Ok(literals)
}
