ghost use Rattle.std.specs.Prelude.{◌≡◌, true, false, MatchOption};
ghost use Rattle.std.specs.List.{list_all};
ghost use Rattle.team_files.specs.Characters.{is_code, is_code_character};

use std::marker::Model;

/// A team's code: three characters A to Z or 0 to 9. Contracts see its bytes.
#[derive(Clone, Copy, Debug, PartialEq, Eq, Hash)]
pub struct Code {
    characters: [u8; 3],
}

impl Model for Code {
    ghost use Rattle.std.specs.Prelude.{◌≡◌, List, ℕ, true};
    ghost use Rattle.team_files.specs.Characters.{is_code, is_code_character};

    ghost Value = { List ℕ };

    ghost view = { λ c. c.characters };

    ghost invariant = { λ c. is_code c.characters ≡ true };

    ghost inverse = { λ bytes. record { characters = bytes } };
}

impl Code {
    /// The code that the bytes are. `None` exactly where they are not three characters A to Z or 0
    /// to 9.
    pub fn read(bytes: &[u8]) -> Option<Code>
        ensures { MatchOption result
            (is_code bytes.now ≡ false)
            (λ code. (code ≡ bytes.now) × (is_code bytes.now ≡ true)) }
    {
        let [first, second, third] = bytes else {
            return None;
        };
        let characters = [*first, *second, *third];
        if is_code(&characters) {
            Some(Code { characters })
        } else {
            None
        }
    }

    /// Its three characters.
    pub fn text(&self) -> &str
        ensures text { result.now ≡ self.now }
        ensures form { is_code result.now ≡ true }
    {
        match std::str::from_utf8(&self.characters) {
            Ok(text) => text,
            Err(_) => unreachable!(),
        }
    }
}

/// Whether the bytes are a code.
fn is_code(bytes: &[u8]) -> bool
    ensures { result ≡ is_code bytes.now }
{
    bytes.len() == 3 && are_code_characters(bytes)
}

/// Whether each byte is a character A to Z or 0 to 9.
pub(crate) fn are_code_characters(bytes: &[u8]) -> bool
    ensures { result ≡ list_all is_code_character bytes.now }
{
    bytes.iter().all(|byte| is_code_character(*byte))
}

fn is_code_character(byte: u8) -> bool
    ensures { result ≡ is_code_character byte }
{
    byte.is_ascii_uppercase() || byte.is_ascii_digit()
}
