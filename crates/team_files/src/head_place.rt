ghost use Rattle.std.specs.Prelude.{◌≡◌};

use crate::text::Text;
use std::marker::Model;

/// A fixed place as a head names it: the text of a code, the byte of a group's letter, A to Z, and
/// a position, at least 1.
#[derive(Drop)]
pub struct HeadPlace {
    pub code: Text,
    pub group: u8,
    pub position: u64,
}

/// The fixed places of a head, in the order of the file. Contracts see their list.
#[derive(Drop)]
pub struct HeadPlaces {
    places: Vec<HeadPlace>,
}

impl Model for HeadPlaces {
    ghost use Rattle.std.specs.Prelude.{List};
    ghost use Rattle.team_files.specs.declared.head_place.HeadPlace.{HeadPlace};

    ghost Value = { List HeadPlace };

    ghost view = { λ p. p.places.items };
}

impl HeadPlaces {
    /// The places of a vector.
    pub fn new(places: Vec<HeadPlace>) -> HeadPlaces
        ensures { result ≡ places.items }
    {
        HeadPlaces { places }
    }

    /// The places in order.
    pub fn as_slice(&self) -> &[HeadPlace]
        ensures { result.now ≡ self.now }
    {
        self.places.as_slice()
    }
}
