ghost use Rattle.std.specs.Prelude.{◌≡◌, ◌≢◌, ◌↔◌, ◌<◌, ◌^◌, length, map, slice_get, Some, None, Ok, IfOk, IfErr, IsTrue};
ghost use Rattle.team_files.specs.Answers.{Gives, unless};
ghost use Rattle.team_files.specs.Heads.{same_code_fault};
ghost use Rattle.team_files.specs.Teams.{AreTeams, find};

use crate::code::Code;
use crate::fault::FileFault;
use crate::team::Team;
use crate::team_id::TeamId;
use indexmap::IndexSet;
use std::alloc::{AllocError, Global};
use std::marker::Model;

/// Teams in file order, with distinct codes. Contracts see the list of the teams.
#[derive(Drop)]
pub struct Teams {
    teams: Vec<Team>,
    /// The teams' codes in file order, by which a code finds its team.
    codes: IndexSet<Code>,
}

impl Model for Teams {
    ghost use Rattle.std.specs.Prelude.{◌≡◌, List, map};
    ghost use Rattle.team_files.specs.declared.team.Team.{Team};

    ghost Value = { List Team };

    ghost use Rattle.team_files.specs.Teams.{AreTeams};

    ghost view = { λ t. t.teams.items };

    ghost invariant = { λ t.
        AreTeams t.teams.items × (t.codes.keys ≡ map (λ team. team.code) t.teams.items) };
}

impl Teams {
    /// The teams of a vector of fewer than 2^32, or `SameCode` with the code of the first team that
    /// has an earlier one's code.
    pub fn new(alloc: Global, teams: Vec<Team>) -> Result<Teams, FileFault>
        requires { length teams.items < 2 ^ 32 }
        ensures { Gives result (unless (same_code_fault teams.items) (Ok teams.items)) }
    {
        let codes = codes_of(alloc, &teams)?;
        Ok(Teams { teams, codes })
    }

    /// Equal teams.
    pub fn clone_in(&self, alloc: Global) -> Result<Teams, AllocError>
        ensures { IfOk result (λ teams. teams ≡ self.now) }
    {
        let all = self.as_slice();
        let mut teams = Vec::new(alloc);
        for team in all {
            teams.push(team.clone_in(alloc)?)?;
        }
        match Teams::new(alloc, teams) {
            Ok(teams) => Ok(teams),
            // The codes are different here too, so that only memory can fail.
            Err(_) => Err(AllocError),
        }
    }

    /// Whether both are the same teams in the same order.
    pub fn equals(&self, other: &Teams) -> bool
        ensures { IsTrue result ↔ (self.now ≡ other.now) }
    {
        same_teams(self.as_slice(), other.as_slice())
    }

    /// The team that has the code, by its place in file order, from 0. `None` exactly where no team
    /// has it. It does not look through the teams.
    pub fn find(&self, code: Code) -> Option<TeamId>
        ensures { result ≡ find code self.now }
    {
        let place = self.codes.get_index_of(&code)?;
        Some(TeamId(place as u32))
    }

    /// A team by its place in file order, from 0 to one less than `number`.
    pub fn get(&self, id: TeamId) -> &Team
        requires { id.0 < length self.now }
        ensures { slice_get self.now id.0 ≡ Some result.now }
    {
        &self.teams[id.0 as usize]
    }

    /// The teams in order.
    pub(crate) fn as_slice(&self) -> &[Team]
        ensures teams { result.now ≡ self.now }
        ensures distinct { AreTeams self.now }
    {
        self.teams.as_slice()
    }

    /// How many teams there are.
    pub fn number(&self) -> u32
        ensures number { result ≡ length self.now }
        ensures distinct { AreTeams self.now }
    {
        self.teams.len() as u32
    }
}

/// Whether the teams are the same, in the same order.
fn same_teams(one: &[Team], other: &[Team]) -> bool
    ensures { IsTrue result ↔ (one.now ≡ other.now) }
{
    one.len() == other.len() && one.iter().zip(other).all(|(x, y)| x.equals(y))
}

/// The codes of the teams in order, or the first one that an earlier team has.
fn codes_of(alloc: Global, teams: &[Team]) -> Result<IndexSet<Code>, FileFault>
    ensures codes { IfOk result (λ codes. codes.keys ≡ map (λ team. team.code) teams.now) }
    ensures ok { IfOk result (λ codes. same_code_fault teams.now ≡ None) }
    ensures fault { IfErr result (λ fault.
        fault ≢ FileFault.NoMemory → same_code_fault teams.now ≡ Some fault) }
{
    let mut codes = IndexSet::new(alloc);
    for team in teams {
        let is_new = codes.insert(team.code)?;
        if !is_new {
            return Err(FileFault::SameCode { code: team.code });
        }
    }
    Ok(codes)
}
