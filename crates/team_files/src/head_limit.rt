ghost use Rattle.std.specs.Prelude.{◌≡◌};

use crate::tag::Tag;
use std::marker::Model;

/// A limit as a head names it: each group takes from `lo` to `hi` teams with the tag. `lo` is at most
/// `hi`, and `hi` at most 64.
#[derive(Drop)]
pub struct HeadLimit {
    pub tag: Tag,
    pub lo: u32,
    pub hi: u32,
}

/// The limits of a head, in the order of the file. Contracts see their list.
#[derive(Drop)]
pub struct HeadLimits {
    limits: Vec<HeadLimit>,
}

impl Model for HeadLimits {
    ghost use Rattle.std.specs.Prelude.{List};
    ghost use Rattle.team_files.specs.declared.head_limit.HeadLimit.{HeadLimit};

    ghost Value = { List HeadLimit };

    ghost view = { λ l. l.limits.items };
}

impl HeadLimits {
    /// The limits of a vector.
    pub fn new(limits: Vec<HeadLimit>) -> HeadLimits
        ensures { result ≡ limits.items }
    {
        HeadLimits { limits }
    }

    /// The limits in order.
    pub fn as_slice(&self) -> &[HeadLimit]
        ensures { result.now ≡ self.now }
    {
        self.limits.as_slice()
    }
}
