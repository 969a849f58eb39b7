ghost use Rattle.std.specs.Prelude.{◌≡◌};
ghost use Rattle.draw_lines.specs.Words.{command_of, is_first_digit, word_of};

use draw_state::{Command, Word};
use team_files::Code;

/// The command that a line stands for; `Bad` where it is none.
pub fn read_line(line: &[u8]) -> Command
    ensures { result ≡ command_of line.now }
{
    let [b'b', b'a', b'l', b'l', b' ', word @ ..] = line else {
        return Command::Bad;
    };
    match read_word(word) {
        Some(word) => Command::Ball(word),
        None => Command::Bad,
    }
}

/// The code or the number that a ball's word stands for.
fn read_word(bytes: &[u8]) -> Option<Word>
    ensures { result ≡ word_of bytes.now }
{
    match bytes {
        [digit] if is_first_digit(*digit) => Some(Word::Number((*digit - b'0') as u32)),
        [tens, units] if is_first_digit(*tens) && units.is_ascii_digit() => Some(Word::Number(
            (*tens - b'0') as u32 * 10 + (*units - b'0') as u32,
        )),
        [_, _, _] => Code::read(bytes).map(Word::Team),
        _ => None,
    }
}

/// Whether the byte is a digit that is not 0.
fn is_first_digit(byte: u8) -> bool
    ensures { result ≡ is_first_digit byte }
{
    byte.is_ascii_digit() && byte != b'0'
}
