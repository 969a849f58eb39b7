ghost use Rattle.std.specs.Prelude.{◌≡◌, ◌<◌, ◌^◌, length, IfOk};
ghost use Rattle.draw_tables.specs.Pots.{AreTeamsOf, is_of_pot, pot_from, pot_of, teams_of_pot};

use crate::NoMemory;
use rule_sets::DrawFile;
use std::alloc::Global;
use team_files::{TeamId, Teams};

/// The teams of a pot in file order. `pot` counts from 1.
pub fn teams_of_pot(alloc: Global, file: &DrawFile, pot: u32) -> Result<Vec<TeamId>, NoMemory>
    ensures teams { IfOk result (λ teams. teams.items ≡ teams_of_pot pot file.now) }
    ensures within { IfOk result (λ teams. AreTeamsOf file.now teams.items) }
{
    let found = members_of(alloc, file.teams(), pot)?;
    Ok(found)
}

/// The teams of a pot, in order.
fn members_of(alloc: Global, teams: &Teams, pot: u32) -> Result<Vec<TeamId>, NoMemory>
    ensures { IfOk result (λ found. found.items ≡ pot_from pot 0 teams.now) }
{
    let mut found = Vec::new(alloc);
    for place in 0..teams.number() {
        let id = TeamId(place);
        if teams.get(id).pot != pot {
            continue;
        }
        found.push(id)?;
    }
    Ok(found)
}

/// The pot of a team, or none where the number is no team's.
pub(crate) fn pot_of(file: &DrawFile, team: TeamId) -> Option<u32>
    ensures { result ≡ pot_of file.now team }
{
    let teams = file.teams();
    if team.0 >= teams.number() {
        return None;
    }
    Some(teams.get(team).pot)
}

/// Whether the team is of the pot.
pub(crate) fn is_of_pot(file: &DrawFile, team: TeamId, pot: u32) -> bool
    ensures { result ≡ is_of_pot file.now pot team }
{
    pot_of(file, team) == Some(pot)
}
