ghost use Rattle.std.specs.Prelude.{◌≡◌, ◌↔◌, IfOk, IsTrue};

use crate::code::Code;
use crate::tag::Tags;
use crate::text::Text;
use std::alloc::{AllocError, Global};

/// A team as its file has it. `pot` counts from 1; in a pairing pot 1 are the winners and pot 2 the
/// runners-up. There are one or two different tags. `group_letter` is the byte of the letter, A to
/// Z, of its first-round group, in a pairing alone. Where the file gives no name, the code stands
/// for it.
#[derive(Drop)]
pub struct Team {
    pub code: Code,
    pub name: Text,
    pub pot: u32,
    pub tags: Tags,
    pub group_letter: Option<u8>,
}

impl Team {
    /// Whether both have the same members.
    pub fn equals(&self, other: &Team) -> bool
        ensures { IsTrue result ↔ (self.now ≡ other.now) }
    {
        self.code == other.code
            && self.name.equals(&other.name)
            && self.pot == other.pot
            && self.tags.equals(&other.tags)
            && self.group_letter == other.group_letter
    }

    /// An equal team.
    pub fn clone_in(&self, alloc: Global) -> Result<Team, AllocError>
        ensures { IfOk result (λ team. team ≡ self.now) }
    {
        Ok(Team {
            code: self.code,
            name: self.name.clone_in(alloc)?,
            pot: self.pot,
            tags: self.tags.clone_in(alloc)?,
            group_letter: self.group_letter,
        })
    }
}
