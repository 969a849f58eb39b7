ghost use Rattle.std.specs.Prelude.{◌≡◌, IfOk};

use std::alloc::{AllocError, Global};
use std::marker::Model;
use team_files::TeamId;

/// Teams in order, each by its place in the file. Contracts see their list.
#[derive(Drop)]
pub struct TeamIds {
    ids: Vec<TeamId>,
}

impl Model for TeamIds {
    ghost use Rattle.std.specs.Prelude.{List};
    ghost use Rattle.team_files.specs.declared.team_id.TeamId.{TeamId};

    ghost Value = { List TeamId };

    ghost view = { λ t. t.ids.items };
}

impl TeamIds {
    /// The teams of a vector.
    pub fn new(ids: Vec<TeamId>) -> TeamIds
        ensures { result ≡ ids.items }
    {
        TeamIds { ids }
    }

    /// The teams in order.
    pub fn as_slice(&self) -> &[TeamId]
        ensures { result.now ≡ self.now }
    {
        self.ids.as_slice()
    }

    /// The same teams once more.
    pub fn clone_in(&self, alloc: Global) -> Result<TeamIds, AllocError>
        ensures { IfOk result (λ ids. ids ≡ self.now) }
    {
        Ok(TeamIds::new(Vec::from_slice(alloc, self.as_slice())?))
    }
}
