ghost use Rattle.std.specs.Prelude.{◌≡◌, IfOk};

use crate::NoMemory;
use draw_tables::Table;
use refutations::Closed;
use std::alloc::Global;
use team_files::TeamId;

/// How a candidate stands.
#[derive(Drop)]
pub enum Standing {
    /// It is offered: this is a legal table that extends the moves with its own.
    Offered(Table),
    /// It is not possible: no assignment satisfies the rules and the literals of the moves with its
    /// own.
    Excluded(Closed),
    /// It is a position that this team holds, so that it is not possible. No search was made for
    /// it.
    Held(TeamId),
}

impl Standing {
    /// An equal standing.
    pub fn clone_in(&self, alloc: Global) -> Result<Standing, NoMemory>
        ensures { IfOk result (λ s. s ≡ self.now) }
    {
        match self {
            Standing::Offered(table) => Ok(Standing::Offered(table.clone_in(alloc)?)),
            Standing::Excluded(closed) => Ok(Standing::Excluded(closed.clone_in(alloc)?)),
            Standing::Held(holder) => Ok(Standing::Held(*holder)),
        }
    }
}
