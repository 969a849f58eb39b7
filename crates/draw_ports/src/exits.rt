// How all programs end: their exit code, and what standard error says of it.
ghost use Rattle.std.specs.Prelude.{◌≡◌};
ghost use Rattle.std.specs.Process.{exit_status};
ghost use Rattle.draw_ports.specs.Exits.{IsTold, line_with, line_of_status, text_of_status};

use crate::{Sink, put_all};
use std::process::ExitCode;

/// What an exit status means, where standard output does not tell it; nothing for any other. All
/// programs give these statuses the same meaning.
fn text_of_status(status: u8) -> &'static [u8]
    ensures { result.now ≡ text_of_status status }
{
    match status {
        3 => b": the input failed (status 3)\n",
        4 => b": the output failed (status 4)\n",
        5 => b": no memory was left (status 5)\n",
        6 => b": the input is longer than is taken (status 6)\n",
        _ => b"",
    }
}

/// Writes a line: the text behind the name, or nothing where there is no text. It takes no memory.
/// Where the sink fails, the rest is left out.
fn tell<E: Sink>(errors: &mut E, name: &[u8], text: &[u8])
    ensures { IsTold (line_with name.now text.now)
        (E.wrote errors.old) (E.wrote errors.new) (E.faults errors.old) (E.faults errors.new) }
{
    if text.is_empty() {
        return;
    }
    let Ok(()) = put_all(errors, name) else {
        return;
    };
    let _ = put_all(errors, text);
}

/// The exit code of a program with this name that ends with this status. Where its standard output
/// does not tell what the status means, one line on `errors` does; where that fails the code is the
/// same. It takes no memory.
pub fn exit_code<E: Sink>(errors: &mut E, name: &[u8], status: u8) -> ExitCode
    ensures code { exit_status result ≡ status }
    ensures told { IsTold (line_of_status name.now status)
        (E.wrote errors.old) (E.wrote errors.new) (E.faults errors.old) (E.faults errors.new) }
{
    tell(errors, name, text_of_status(status));
    ExitCode::from(status)
}

#[cfg(test)]
mod tests {
    use super::*;
    use crate::{MemorySink, NoMemory};
    use std::alloc::Global;
    use std::test::Fail;

    fn line_of(alloc: Global, status: u8) -> Result<Vec<u8>, NoMemory> {
        let mut errors = MemorySink::new(alloc, 80, Vec::new(alloc))?;
        let _code = exit_code(&mut errors, b"draw", status);
        Vec::from_slice(alloc, errors.bytes())
    }

    #[test]
    fn a_line_tells_what_the_output_does_not(rt: HostRuntime) -> Result<(), Fail> {
        let cases: [(u8, &[u8]); 6] = [
            (0, b""),
            (2, b""),
            (3, b"draw: the input failed (status 3)\n"),
            (5, b"draw: no memory was left (status 5)\n"),
            (7, b""),
            (255, b""),
        ];
        for (status, line) in cases {
            assert_eq!(rt; line_of(rt.alloc(), status)?.as_slice(), line);
        }
        Ok(())
    }
}
