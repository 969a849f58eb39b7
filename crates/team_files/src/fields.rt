ghost use Rattle.std.specs.Prelude.{◌≡◌, length};

use crate::head_limit::HeadLimits;
use crate::head_pair::HeadPairs;
use crate::head_place::HeadPlaces;
use crate::tag::Tags;
use crate::text::Text;
use std::marker::Model;

/// The members of a team whose forms are right; its code may still be none. `pot` is from 1 to the
/// pots of its head.
#[derive(Drop)]
pub struct TeamFields {
    pub code: Text,
    pub name: Option<Text>,
    pub pot: u64,
    pub tags: Tags,
    pub group_letter: Option<u8>,
}

/// The teams' members, in file order. Contracts see their list.
#[derive(Drop)]
pub struct AllTeamFields {
    teams: Vec<TeamFields>,
}

impl Model for AllTeamFields {
    ghost use Rattle.std.specs.Prelude.{List};
    ghost use Rattle.team_files.specs.declared.fields.TeamFields.{TeamFields};

    ghost Value = { List TeamFields };

    ghost view = { λ t. t.teams.items };
}

impl AllTeamFields {
    /// The members of a vector of teams.
    pub(crate) fn new(teams: Vec<TeamFields>) -> AllTeamFields
        ensures { result ≡ teams.items }
    {
        AllTeamFields { teams }
    }

    /// The vector.
    pub(crate) fn into_vec(self) -> Vec<TeamFields>
        ensures { result.items ≡ self }
    {
        self.teams
    }

    /// How many teams there are.
    pub(crate) fn number(&self) -> usize
        ensures { result ≡ length self.now }
    {
        self.teams.len()
    }
}

/// The members of a head whose forms are right; numbers and lengths may still be past their limits.
#[derive(Drop)]
pub struct HeadFields {
    pub groups: u64,
    pub pots: u64,
    pub teams: AllTeamFields,
    pub limits: HeadLimits,
    pub pairs: HeadPairs,
    pub places: HeadPlaces,
}
