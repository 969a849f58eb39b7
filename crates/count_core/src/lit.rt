ghost use Rattle.std.specs.Prelude.{◌≡◌};

use crate::atom::Atom;

/// A literal: an atom that is to be true where `positive`, else false.
#[derive(Clone, Copy, Debug, PartialEq, Eq)]
pub struct Lit {
    pub atom: Atom,
    pub positive: bool,
}

impl Lit {
    ghost use Rattle.count_core.specs.Assignments.{negation};

    /// The literal that is true exactly where this one is false.
    pub fn negation(self) -> Lit
        ensures { result ≡ negation self }
    {
        Lit {
            atom: self.atom,
            positive: !self.positive,
        }
    }
}
