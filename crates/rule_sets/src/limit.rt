ghost use Rattle.std.specs.Prelude.{◌≡◌, ◌↔◌, IfOk, IsTrue};

use std::alloc::Global;
use team_files::{NoMemory, Tag};

/// A limit: each group takes from `lo` to `hi` teams with the tag. `lo` is at most `hi`.
#[derive(Drop)]
pub struct Limit {
    pub tag: Tag,
    pub lo: u32,
    pub hi: u32,
}

impl Limit {
    /// Whether both have the same members.
    pub fn equals(&self, other: &Limit) -> bool
        ensures { IsTrue result ↔ (self.now ≡ other.now) }
    {
        self.tag.equals(&other.tag) && self.lo == other.lo && self.hi == other.hi
    }

    /// An equal limit.
    pub fn clone_in(&self, alloc: Global) -> Result<Limit, NoMemory>
        ensures { IfOk result (λ limit. limit ≡ self.now) }
    {
        Ok(Limit {
            tag: self.tag.clone_in(alloc)?,
            lo: self.lo,
            hi: self.hi,
        })
    }
}
