ghost use Rattle.std.specs.Prelude.{◌≡◌};

use crate::text::Text;
use std::marker::Model;

/// A forbidden pair as a head names it, by two texts.
#[derive(Drop)]
pub struct HeadPair {
    pub first: Text,
    pub second: Text,
}

/// The forbidden pairs of a head, in the order of the file. Contracts see their list.
#[derive(Drop)]
pub struct HeadPairs {
    pairs: Vec<HeadPair>,
}

impl Model for HeadPairs {
    ghost use Rattle.std.specs.Prelude.{List};
    ghost use Rattle.team_files.specs.declared.head_pair.HeadPair.{HeadPair};

    ghost Value = { List HeadPair };

    ghost view = { λ p. p.pairs.items };
}

impl HeadPairs {
    /// The pairs of a vector.
    pub fn new(pairs: Vec<HeadPair>) -> HeadPairs
        ensures { result ≡ pairs.items }
    {
        HeadPairs { pairs }
    }

    /// The pairs in order.
    pub fn as_slice(&self) -> &[HeadPair]
        ensures { result.now ≡ self.now }
    {
        self.pairs.as_slice()
    }
}
