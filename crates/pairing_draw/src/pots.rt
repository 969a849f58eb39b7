ghost use Rattle.std.specs.Prelude.{◌≡◌, ◌≤◌, length, IfOk};
ghost use Rattle.team_files.specs.Heads.{most_teams};
ghost use Rattle.rule_sets.specs.Files.{IsWellFormed};
ghost use Rattle.draw_tables.specs.Pots.{AreTeamsOf, teams_of_pot};

use crate::NoMemory;
use draw_tables::teams_of_pot;
use rule_sets::{DrawFile, law_files_have_form};
use std::alloc::Global;
use team_files::TeamId;

/// The teams of a pot in file order, no more than a file may have. `pot` counts from 1.
pub(crate) fn pot_of(alloc: Global, file: &DrawFile, pot: u32) -> Result<Vec<TeamId>, NoMemory>
    ensures teams { IfOk result (λ teams. teams.items ≡ teams_of_pot pot file.now) }
    ensures within { IfOk result (λ teams. AreTeamsOf file.now teams.items) }
    ensures few { IfOk result (λ teams. length teams.items ≤ most_teams) }
    ensures formed { IsWellFormed file.now }
{
    file.kind();
    law_files_have_form();
    let teams = teams_of_pot(alloc, file, pot)?;
    Ok(teams)
}
