ghost use Rattle.std.specs.Prelude.{◌≡◌, ◌<◌, length, IfOk, MatchOption};
ghost use Rattle.team_files.specs.declared.kind.Kind.{Kind};
ghost use Rattle.count_core.specs.Assignments.{Satisfies, SatisfiesQuestion};
ghost use Rattle.draw_tables.specs.Offers.{Extends};
ghost use Rattle.draw_tables.specs.Positions.{HasCleanPositions};
ghost use Rattle.draw_tables.specs.Pots.{IsTeamOf};
ghost use Rattle.draw_tables.specs.States.{IsState};
ghost use Rattle.draw_tables.specs.Tables.{IsLegal, IsTableOf};
ghost use Rattle.group_draw.specs.Decoding.{AreTrueGroups, HasTrueGroup, HaveTrueGroups, IsFilledTable, IsReadTable, IsTrueGroup};
ghost use Rattle.group_draw.specs.Encoding.{HasAtoms, lits_of_moves, rules_of};

use crate::NoMemory;
use crate::atoms::form_of;
use crate::positions::filled_places;
use draw_tables::{GroupTable, Move, Table};
use rule_sets::DrawFile;
use std::alloc::Global;
use team_files::TeamId;

/// The table of values that satisfy the rules of a group draw's file and make the literals of a
/// state's moves true, where the state's positions are clean. Each team has the group whose atom is
/// true. A team of pot 1 has position 1, another the position of its ball, or else of its fixed
/// place; the others get, in pot order, the least position of their group that is still free. The
/// table is one of the file, is legal and extends the moves. Values are by atom from 0.
pub fn decode(
    alloc: Global,
    file: &DrawFile,
    moves: &[Move],
    values: &[bool],
) -> Result<Table, NoMemory>
    requires kind { file.now.kind ≡ Kind.Group }
    requires state { IsState file.now moves.now }
    requires clean { HasCleanPositions file.now moves.now }
    requires rules { Satisfies values.now (rules_of file.now) }
    requires moves { SatisfiesQuestion values.now (lits_of_moves file.now moves.now) }
    ensures legal { IfOk result (λ table. IsLegal file.now table) }
    ensures of_file { IfOk result (λ table. IsTableOf file.now table) }
    ensures extends { IfOk result (λ table. Extends file.now table moves.now) }
    ensures groups { IfOk result (λ table. IsReadTable file.now values.now table) }
    ensures positions { IfOk result (λ table. IsFilledTable file.now moves.now table) }
{
    form_of(file);
    let groups = true_groups(alloc, file, values)?;
    let places = filled_places(alloc, file, moves, &groups)?;
    Ok(Table::Group(GroupTable::new(places)))
}

/// The groups whose atoms are true, team by team.
fn true_groups(alloc: Global, file: &DrawFile, values: &[bool]) -> Result<Vec<u32>, NoMemory>
    requires atoms { HasAtoms file.now }
    requires each { HaveTrueGroups file.now values.now }
    ensures { IfOk result (λ groups. AreTrueGroups file.now values.now groups.items) }
{
    let mut groups = Vec::new(alloc);
    for place in 0..file.teams().number() {
        groups.push(true_group(file, values, TeamId(place)).unwrap())?;
    }
    Ok(groups)
}

/// The first group whose atom with the team is true.
fn true_group(file: &DrawFile, values: &[bool], team: TeamId) -> Option<u32>
    requires atoms { HasAtoms file.now }
    requires team { IsTeamOf file.now team }
    ensures { MatchOption result
        (¬ HasTrueGroup file.now values.now team)
        (λ group. IsTrueGroup file.now values.now team group) }
{
    for group in 0..file.groups() {
        let atom = (team.0 * file.groups() + group) as usize;
        if atom < values.len() && values[atom] {
            return Some(group);
        }
    }
    None
}
