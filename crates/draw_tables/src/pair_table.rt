ghost use Rattle.std.specs.Prelude.{◌≡◌};

use crate::team_ids::TeamIds;
use team_files::TeamId;

/// A table of a pairing: the winner that each runner-up is given, one for each runner-up, in file
/// order.
#[derive(Drop)]
pub struct PairTable {
    pub winners: TeamIds,
}

impl PairTable {
    /// The table that gives these winners.
    pub fn new(winners: Vec<TeamId>) -> PairTable
        ensures { result.winners ≡ winners.items }
    {
        PairTable {
            winners: TeamIds::new(winners),
        }
    }

    /// The winners in the order of their runners-up.
    pub fn winners(&self) -> &[TeamId]
        ensures { result.now ≡ self.now.winners }
    {
        self.winners.as_slice()
    }
}
