ghost use Rattle.std.specs.Prelude.{◌≡◌, ◌↔◌, true, string_bytes, IfOk, IsTrue};
ghost use Rattle.team_files.specs.Characters.{is_tag};

use crate::code::are_code_characters;
use std::alloc::{AllocError, Global};
use std::marker::Model;

/// How many characters a tag may have.
const LONGEST_TAG: usize = 16;

/// A tag: a text of at least one and at most `LONGEST_TAG` characters A to Z or 0 to 9. Contracts see
/// its bytes.
#[derive(Drop)]
pub struct Tag {
    text: String,
}

impl Model for Tag {
    ghost use Rattle.std.specs.Prelude.{◌≡◌, List, ℕ, true, string_bytes};
    ghost use Rattle.team_files.specs.Characters.{is_tag};

    ghost Value = { List ℕ };

    ghost view = { λ t. string_bytes t.text };

    ghost invariant = { λ t. is_tag (string_bytes t.text) ≡ true };
}

impl Tag {
    /// The tag of a string.
    pub fn new(text: String) -> Tag
        requires { is_tag (string_bytes text) ≡ true }
        ensures { result ≡ string_bytes text }
    {
        Tag { text }
    }

    /// A tag of its own.
    pub(crate) fn copy(alloc: Global, text: &str) -> Result<Tag, AllocError>
        requires { is_tag text.now ≡ true }
        ensures { IfOk result (λ tag. tag ≡ text.now) }
    {
        Ok(Tag::new(String::from_str(alloc, text)?))
    }

    /// An equal tag.
    pub fn clone_in(&self, alloc: Global) -> Result<Tag, AllocError>
        ensures { IfOk result (λ tag. tag ≡ self.now) }
    {
        Tag::copy(alloc, self.text.as_str())
    }

    /// Whether both are one tag.
    pub fn equals(&self, other: &Tag) -> bool
        ensures { IsTrue result ↔ (self.now ≡ other.now) }
    {
        self.bytes() == other.bytes()
    }

    /// Its bytes.
    pub fn bytes(&self) -> &[u8]
        ensures bytes { result.now ≡ self.now }
        ensures form { is_tag result.now ≡ true }
    {
        self.text.as_bytes()
    }
}

/// Tags in the order of the file.
#[derive(Drop)]
pub struct Tags {
    tags: Vec<Tag>,
}

impl Model for Tags {
    ghost use Rattle.std.specs.Prelude.{List, ℕ};

    ghost Value = { List (List ℕ) };

    ghost view = { λ t. t.tags.items };
}

impl Tags {
    /// The tags of a vector.
    pub fn new(tags: Vec<Tag>) -> Tags
        ensures { result ≡ tags.items }
    {
        Tags { tags }
    }

    /// Equal tags.
    pub fn clone_in(&self, alloc: Global) -> Result<Tags, AllocError>
        ensures { IfOk result (λ tags. tags ≡ self.now) }
    {
        let all = self.as_slice();
        let mut tags = Vec::new(alloc);
        for tag in all {
            tags.push(tag.clone_in(alloc)?)?;
        }
        Ok(Tags::new(tags))
    }

    /// Whether both are the same tags in the same order.
    pub fn equals(&self, other: &Tags) -> bool
        ensures { IsTrue result ↔ (self.now ≡ other.now) }
    {
        same_tags(self.as_slice(), other.as_slice())
    }

    /// The tags in order.
    pub fn as_slice(&self) -> &[Tag]
        ensures { result.now ≡ self.now }
    {
        self.tags.as_slice()
    }
}

/// Whether the tags are the same, in the same order.
fn same_tags(one: &[Tag], other: &[Tag]) -> bool
    ensures { IsTrue result ↔ (one.now ≡ other.now) }
{
    one.len() == other.len() && one.iter().zip(other).all(|(x, y)| x.equals(y))
}

/// Whether the bytes are a tag.
pub(crate) fn is_tag(bytes: &[u8]) -> bool
    ensures { result ≡ is_tag bytes.now }
{
    1 <= bytes.len() && bytes.len() <= LONGEST_TAG && are_code_characters(bytes)
}
