//! What the program `draw` does: it follows a draw.

ghost use Rattle.std.specs.Prelude.{◌≡◌, ◌↔◌, IfOk, IsTrue};
ghost use Rattle.draw_top.specs.Outputs.{IsOutputOf};
ghost use Rattle.draw_top.specs.Outside.{outside};
ghost use Rattle.draw_top.specs.Follow.{words_of, IsFollow, GainsAnswer};
ghost use Rattle.draw_top.specs.Modes.{AsksFor, Draw, Follow};
ghost use Rattle.draw_top.specs.Endings.{EndsAs, Ends, EndsAsDecided, IsComplete};

use crate::answering::answer_text;
use crate::endings::{INPUT_LIMIT, finish, read_input};
use crate::faults::refusal_line;
use crate::status::Status;
use draw_lines::split_input;
use draw_ports::{Sink, Source};
use rule_sets::read_file;
use std::alloc::{AllocError, Global};

const USAGE: &[u8] = b"usage: draw follow|prove|room|trial N [--workers 1..16]\n";

/// Whether the words are the one form, `follow` alone.
fn is_follow(words: &[String]) -> bool
    ensures { IsTrue result ↔ IsFollow (words_of words.now) }
{
    match words {
        [word] => word.as_str() == "follow",
        _ => false,
    }
}

/// What is written for an input.
#[derive(Drop)]
enum Output {
    Answer(Vec<u8>),
    Refusal(Vec<u8>),
}

/// What is written for an input: its answer text, or the line of its head's first fault.
fn output_of(alloc: Global, input: &[u8]) -> Result<Output, AllocError>
    ensures { IfOk result (λ output. IsOutputOf input.now output) }
{
    let (head, commands) = split_input(input);
    match read_file(alloc, head) {
        Ok(file) => {
            let text = answer_text(alloc, &file, commands)?;
            Ok(Output::Answer(text))
        }
        Err(fault) => {
            let line = refusal_line(alloc, &fault)?;
            Ok(Output::Refusal(line))
        }
    }
}

/// Reads an input to its end and writes its answer text, or the line of its head's first fault.
/// The order of the causes is ReadFault, TooLong, FileRefused.
fn follow_input<S: Source, K: Sink>(alloc: Global, src: &mut S, out: &mut K) -> Status
    ensures ends { EndsAs Follow result
        (outside (S.left src.old) (K.wrote out.old) (S.faults src.old) (K.faults out.old))
        (outside (S.left src.new) (K.wrote out.new) (S.faults src.new) (K.faults out.new)) }
    ensures complete { EndsAsDecided Follow result
        (outside (S.left src.old) (K.wrote out.old) (S.faults src.old) (K.faults out.old))
        (outside (S.left src.new) (K.wrote out.new) (S.faults src.new) (K.faults out.new)) }
{
    let input = match read_input(alloc, src, INPUT_LIMIT) {
        Ok(input) => input,
        Err(status) => return status,
    };
    match output_of(alloc, &input) {
        Ok(Output::Answer(text)) => finish(out, &text, Status::Ok),
        Ok(Output::Refusal(line)) => finish(out, &line, Status::FileRefused),
        Err(_) => Status::NoMemory,
    }
}

/// Reads an input to its end and writes its answer text, or the line of its head's first fault;
/// where the words are not `follow` alone it writes the usage line and reads nothing. It ends with
///
/// - `Ok` where the whole answer text was written;
/// - `Usage` where the words are not `follow` alone, and the usage line was written;
/// - `FileRefused` where the head has no draw file, and the line of its first fault was written;
/// - `ReadFault` where the source failed, and nothing was written;
/// - `WriteFault` where the sink failed, after some first bytes of what was to be written;
/// - `NoMemory` where no memory was left, and nothing was written;
/// - `TooLong` where the source held more than 4,194,304 bytes, and nothing was written.
///
/// The order of the causes is Usage, ReadFault, TooLong, FileRefused.
pub fn follow<S: Source, K: Sink>(
    alloc: Global,
    words: &[String],
    src: &mut S,
    out: &mut K,
) -> Status
    // The promise: the sink gained exactly the answer text of the source's bytes.
    ensures headline { AsksFor Draw (words_of words.now) Follow → result ≡ Status.Ok
        → GainsAnswer (S.left src.old) (K.wrote out.old) (K.wrote out.new) }
    // Each status and its cause.
    ensures ends { Ends Draw result (words_of words.now)
        (outside (S.left src.old) (K.wrote out.old) (S.faults src.old) (K.faults out.old))
        (outside (S.left src.new) (K.wrote out.new) (S.faults src.new) (K.faults out.new)) }
    // The right words and no fault: by the bytes alone, or no memory.
    ensures complete { IsComplete Draw result (words_of words.now)
        (outside (S.left src.old) (K.wrote out.old) (S.faults src.old) (K.faults out.old))
        (outside (S.left src.new) (K.wrote out.new) (S.faults src.new) (K.faults out.new)) }
{
    if !is_follow(words) {
        return finish(out, USAGE, Status::Usage);
    }
    follow_input(alloc, src, out)
}
