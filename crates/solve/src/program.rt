//! What `main` does between its streams: from the words to the exit code.

ghost use Rattle.std.specs.Prelude.{◌≡◌, IfOk, OnErr, codes};
ghost use Rattle.std.specs.Process.{exit_status};
ghost use Rattle.draw_ports.specs.Exits.{ExitsWith, IsTold, line_of_status};
ghost use Rattle.draw_ports.specs.Outside.{outside};
ghost use Rattle.list_texts.specs.Limits.{words_of};
ghost use Rattle.solve.specs.Statuses.{status_number};
ghost use Rattle.solve.specs.Endings.{Ends, IsComplete};

use crate::running::run;
use crate::status::Status;
use draw_ports::{NoMemory, Sink, Source, exit_code};
use std::alloc::Global;
use std::process::ExitCode;

/// The whole program over its streams: it does what [`run`] does with the words and ends with the
/// number of that status; where there was no memory for the words it ends with 5. Where what is
/// written does not tell what the status means, `errors` does.
pub(crate) fn run_program<S: Source, K: Sink, E: Sink>(
    alloc: Global,
    words: Result<Vec<String>, NoMemory>,
    src: &mut S,
    out: &mut K,
    errors: &mut E,
) -> ExitCode
    // The table of exit codes: each is the number of a status, which has its cause; where nothing
    // failed, it is by the bytes alone, or more than is numbered, or no memory.
    ensures ends { IfOk words (λ words. ExitsWith status_number (λ status.
        Ends status (words_of words.items)
        (outside (S.left src.old) (K.wrote out.old) (S.faults src.old) (K.faults out.old))
        (outside (S.left src.new) (K.wrote out.new) (S.faults src.new) (K.faults out.new)))
        result) }
    ensures complete { IfOk words (λ words. ExitsWith status_number (λ status.
        IsComplete status (words_of words.items)
        (outside (S.left src.old) (K.wrote out.old) (S.faults src.old) (K.faults out.old))
        (outside (S.left src.new) (K.wrote out.new) (S.faults src.new) (K.faults out.new)))
        result) }
    // No memory for the words: nothing is read and nothing written.
    ensures no_words { OnErr words (exit_status result ≡ status_number Status.NoMemory) }
    ensures untouched { OnErr words (
        outside (S.left src.new) (K.wrote out.new) (S.faults src.new) (K.faults out.new)
        ≡ outside (S.left src.old) (K.wrote out.old) (S.faults src.old) (K.faults out.old)) }
    // What standard error tells of the exit code.
    ensures told { IsTold (line_of_status (codes "solve") (exit_status result))
        (E.wrote errors.old) (E.wrote errors.new) (E.faults errors.old) (E.faults errors.new) }
{
    let Ok(words) = words else {
        return exit_code(errors, b"solve", Status::NoMemory.number());
    };
    let status = run(alloc, &words, src, out);
    exit_code(errors, b"solve", status.number())
}
