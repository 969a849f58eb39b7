use crate::group_table::GroupTable;
use crate::pair_table::PairTable;
use std::alloc::{AllocError, Global};

/// What a completed draw gives.
#[derive(Drop)]
pub enum Table {
    /// The table of a group draw.
    Group(GroupTable),
    /// The table of a pairing.
    Pairs(PairTable),
}

impl Table {
    ghost use Rattle.std.specs.Prelude.{◌≡◌, IfOk};

    /// An equal table.
    pub fn clone_in(&self, alloc: Global) -> Result<Table, AllocError>
        ensures { IfOk result (λ table. table ≡ self.now) }
    {
        match self {
            Table::Group(groups) => {
                let places = groups.places.clone_in(alloc)?;
                Ok(Table::Group(GroupTable { places }))
            }
            Table::Pairs(pairs) => {
                let winners = pairs.winners.clone_in(alloc)?;
                Ok(Table::Pairs(PairTable { winners }))
            }
        }
    }
}
