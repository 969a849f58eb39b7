//! What `main` does between its streams: from the words to the exit code.

ghost use Rattle.std.specs.Prelude.{◌≡◌, IfOk, OnErr, codes};
ghost use Rattle.std.specs.Process.{exit_status};
ghost use Rattle.draw_ports.specs.Exits.{ExitsWith, IsTold, line_of_status};
ghost use Rattle.draw_top.specs.Statuses.{status_number};
ghost use Rattle.draw_top.specs.Outside.{outside};
ghost use Rattle.draw_top.specs.Follow.{words_of, GainsAnswer};
ghost use Rattle.draw_top.specs.Modes.{AsksFor, Draw, Follow};
ghost use Rattle.draw_top.specs.Endings.{Ends, IsComplete};

use draw_ports::{NoMemory, OpenGate, Sink, Source, exit_code};
use draw_top::{Status, run_draw};
use std::alloc::Global;
use std::process::ExitCode;
use std::sync::Wait;
use std::thread::Threads;

/// The whole program over its streams: it does what [`run_draw`] does with the words and ends with
/// the number of that status; where there was no memory for the words it ends with 5. Where the
/// answer does not tell what the status means, `errors` does.
pub(crate) fn run_program<R: Threads + Wait + Sync, S: Source, K: Sink, E: Sink>(
    rt: &R,
    alloc: Global,
    words: Result<Vec<String>, NoMemory>,
    src: &mut S,
    out: &mut K,
    errors: &mut E,
) -> ExitCode
    // The promise: the sink gained exactly the answer text of the source's bytes.
    ensures headline { IfOk words (λ words. AsksFor Draw (words_of words.items) Follow
        → exit_status result ≡ status_number Status.Ok
        → GainsAnswer (S.left src.old) (K.wrote out.old) (K.wrote out.new)) }
    // The table of exit codes: each is the number of a status, which has its cause.
    ensures ends { IfOk words (λ words. ExitsWith status_number (λ status.
        Ends Draw status (words_of words.items)
        (outside (S.left src.old) (K.wrote out.old) (S.faults src.old) (K.faults out.old))
        (outside (S.left src.new) (K.wrote out.new) (S.faults src.new) (K.faults out.new)))
        result) }
    // The right words and no fault: by the bytes alone, or no memory.
    ensures complete { IfOk words (λ words. ExitsWith status_number (λ status.
        IsComplete Draw status (words_of words.items)
        (outside (S.left src.old) (K.wrote out.old) (S.faults src.old) (K.faults out.old))
        (outside (S.left src.new) (K.wrote out.new) (S.faults src.new) (K.faults out.new)))
        result) }
    // No memory for the words: nothing is read and nothing written.
    ensures no_words { OnErr words (exit_status result ≡ status_number Status.NoMemory) }
    ensures untouched { OnErr words (
        outside (S.left src.new) (K.wrote out.new) (S.faults src.new) (K.faults out.new)
        ≡ outside (S.left src.old) (K.wrote out.old) (S.faults src.old) (K.faults out.old)) }
    // What standard error tells of the exit code.
    ensures told { IsTold (line_of_status (codes "draw") (exit_status result))
        (E.wrote errors.old) (E.wrote errors.new) (E.faults errors.old) (E.faults errors.new) }
{
    let Ok(words) = words else {
        return exit_code(errors, b"draw", Status::NoMemory.number());
    };
    let status = run_draw(rt, alloc, &words, src, out, &OpenGate);
    exit_code(errors, b"draw", status.number())
}
