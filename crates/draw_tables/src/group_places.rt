ghost use Rattle.std.specs.Prelude.{◌≡◌, IfOk};

use crate::group_place::GroupPlace;
use std::alloc::{AllocError, Global};
use std::marker::Model;

/// Places in order, one for each team. Contracts see their list.
#[derive(Drop)]
pub struct GroupPlaces {
    places: Vec<GroupPlace>,
}

impl Model for GroupPlaces {
    ghost use Rattle.std.specs.Prelude.{List};
    ghost use Rattle.draw_tables.specs.declared.group_place.GroupPlace.{GroupPlace};

    ghost Value = { List GroupPlace };

    ghost view = { λ p. p.places.items };
}

impl GroupPlaces {
    /// The places of a vector.
    pub fn new(places: Vec<GroupPlace>) -> GroupPlaces
        ensures { result ≡ places.items }
    {
        GroupPlaces { places }
    }

    /// The places in order.
    pub fn as_slice(&self) -> &[GroupPlace]
        ensures { result.now ≡ self.now }
    {
        self.places.as_slice()
    }

    /// The same places once more.
    pub fn clone_in(&self, alloc: Global) -> Result<GroupPlaces, AllocError>
        ensures { IfOk result (λ places. places ≡ self.now) }
    {
        Ok(GroupPlaces::new(Vec::from_slice(alloc, self.as_slice())?))
    }
}
