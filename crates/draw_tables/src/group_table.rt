ghost use Rattle.std.specs.Prelude.{◌≡◌};

use crate::group_place::GroupPlace;
use crate::group_places::GroupPlaces;

/// A table of a group draw: the place of each team, in file order.
#[derive(Drop)]
pub struct GroupTable {
    pub places: GroupPlaces,
}

impl GroupTable {
    /// The table with these places.
    pub fn new(places: Vec<GroupPlace>) -> GroupTable
        ensures { result.places ≡ places.items }
    {
        GroupTable {
            places: GroupPlaces::new(places),
        }
    }

    /// The places in the order of their teams.
    pub fn places(&self) -> &[GroupPlace]
        ensures { result.now ≡ self.now.places }
    {
        self.places.as_slice()
    }
}
