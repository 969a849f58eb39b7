ghost use Rattle.std.specs.Prelude.{◌≡◌, ◌↔◌, string_bytes, IfOk, IsTrue};

use std::alloc::{AllocError, Global};
use std::marker::Model;

/// A text. Contracts see its bytes.
#[derive(Drop, Debug)]
pub struct Text {
    text: String,
}

impl Model for Text {
    ghost use Rattle.std.specs.Prelude.{List, ℕ, string_bytes};

    ghost Value = { List ℕ };

    ghost view = { λ t. string_bytes t.text };
}

impl Text {
    /// The text of a string.
    pub fn new(text: String) -> Text
        ensures { result ≡ string_bytes text }
    {
        Text { text }
    }

    /// A text of its own.
    pub(crate) fn copy(alloc: Global, text: &str) -> Result<Text, AllocError>
        ensures { IfOk result (λ copied. copied ≡ text.now) }
    {
        Ok(Text::new(String::from_str(alloc, text)?))
    }

    /// An equal text.
    pub fn clone_in(&self, alloc: Global) -> Result<Text, AllocError>
        ensures { IfOk result (λ text. text ≡ self.now) }
    {
        Text::copy(alloc, self.text.as_str())
    }

    /// Whether both are one text.
    pub fn equals(&self, other: &Text) -> bool
        ensures { IsTrue result ↔ (self.now ≡ other.now) }
    {
        self.bytes() == other.bytes()
    }

    /// Its bytes.
    pub fn bytes(&self) -> &[u8]
        ensures { result.now ≡ self.now }
    {
        self.text.as_bytes()
    }
}
