//! What `main` does between its streams: from the words to the exit code.

ghost use Rattle.std.specs.Prelude.{◌≡◌, IfOk, OnErr, codes};
ghost use Rattle.std.specs.Process.{exit_status};
ghost use Rattle.draw_ports.specs.Exits.{ExitsWith, IsTold, line_of_status};
ghost use Rattle.draw_top.specs.Statuses.{status_number};
ghost use Rattle.draw_top.specs.Outside.{outside};
ghost use Rattle.draw_top.specs.Follow.{words_of};
ghost use Rattle.draw_top.specs.Check.{GainsApproval, GainsObjection};
ghost use Rattle.draw_top.specs.Modes.{AsksFor, Drawcheck, Judge};
ghost use Rattle.draw_top.specs.Endings.{Ends, IsComplete};

use draw_ports::{NoMemory, Sink, Source, exit_code};
use draw_top::{Status, run_check};
use std::alloc::Global;
use std::process::ExitCode;

/// The whole program over its streams: it does what [`run_check`] does with the words and ends with
/// the number of that status; where there was no memory for the words it ends with 5. Where what is
/// written does not tell what the status means, `errors` does.
pub(crate) fn run_program<S: Source, K: Sink, E: Sink>(
    alloc: Global,
    words: Result<Vec<String>, NoMemory>,
    src: &mut S,
    out: &mut K,
    errors: &mut E,
) -> ExitCode
    // The promises: what the sink gained tells whether the source's bytes hold a legal table.
    ensures approval { IfOk words (λ words. AsksFor Drawcheck (words_of words.items) Judge
        → exit_status result ≡ status_number Status.Ok
        → GainsApproval (S.left src.old) (K.wrote out.old) (K.wrote out.new)) }
    ensures objection { IfOk words (λ words. AsksFor Drawcheck (words_of words.items) Judge
        → exit_status result ≡ status_number Status.NotValid
        → GainsObjection (S.left src.old) (K.wrote out.old) (K.wrote out.new)) }
    // The table of exit codes: each is the number of a status, which has its cause.
    ensures ends { IfOk words (λ words. ExitsWith status_number (λ status.
        Ends Drawcheck status (words_of words.items)
        (outside (S.left src.old) (K.wrote out.old) (S.faults src.old) (K.faults out.old))
        (outside (S.left src.new) (K.wrote out.new) (S.faults src.new) (K.faults out.new)))
        result) }
    // The right words and no fault: by the bytes alone, or no memory.
    ensures complete { IfOk words (λ words. ExitsWith status_number (λ status.
        IsComplete Drawcheck status (words_of words.items)
        (outside (S.left src.old) (K.wrote out.old) (S.faults src.old) (K.faults out.old))
        (outside (S.left src.new) (K.wrote out.new) (S.faults src.new) (K.faults out.new)))
        result) }
    // No memory for the words: nothing is read and nothing written.
    ensures no_words { OnErr words (exit_status result ≡ status_number Status.NoMemory) }
    ensures untouched { OnErr words (
        outside (S.left src.new) (K.wrote out.new) (S.faults src.new) (K.faults out.new)
        ≡ outside (S.left src.old) (K.wrote out.old) (S.faults src.old) (K.faults out.old)) }
    // What standard error tells of the exit code.
    ensures told { IsTold (line_of_status (codes "drawcheck") (exit_status result))
        (E.wrote errors.old) (E.wrote errors.new) (E.faults errors.old) (E.faults errors.new) }
{
    let Ok(words) = words else {
        return exit_code(errors, b"drawcheck", Status::NoMemory.number());
    };
    let status = run_check(alloc, &words, src, out);
    exit_code(errors, b"drawcheck", status.number())
}
