ghost use Rattle.std.specs.Prelude.{◌≡◌};
ghost use Rattle.draw_top.specs.Outside.{outside};
ghost use Rattle.draw_top.specs.Follow.{words_of, GainsAnswer};
ghost use Rattle.draw_top.specs.Modes.{AsksFor, Draw, Follow};
ghost use Rattle.draw_top.specs.Endings.{Ends, IsComplete};

use crate::following::follow;
use crate::status::Status;
use draw_ports::{Gate, Sink, Source};
use std::alloc::Global;
use std::sync::Wait;
use std::thread::Threads;

/// The top call of the program `draw`. `words` are the words after the program's name. It does
/// what [`follow`] does, which starts no thread and waits for nobody; the runtime and the gate are
/// for the searches of many workers.
pub fn run_draw<R: Threads + Wait + Sync, S: Source, K: Sink, G: Gate + Sync>(
    rt: &R,
    alloc: Global,
    words: &[String],
    src: &mut S,
    out: &mut K,
    gate: &G,
) -> Status
    // The promise: the sink gained exactly the answer text of the source's bytes.
    ensures headline { AsksFor Draw (words_of words.now) Follow → result ≡ Status.Ok
        → GainsAnswer (S.left src.old) (K.wrote out.old) (K.wrote out.new) }
    // Each status and its cause.
    ensures ends { Ends Draw result (words_of words.now)
        (outside (S.left src.old) (K.wrote out.old) (S.faults src.old) (K.faults out.old))
        (outside (S.left src.new) (K.wrote out.new) (S.faults src.new) (K.faults out.new)) }
    // The right words and no fault: by the bytes alone, or no memory.
    ensures complete { IsComplete Draw result (words_of words.now)
        (outside (S.left src.old) (K.wrote out.old) (S.faults src.old) (K.faults out.old))
        (outside (S.left src.new) (K.wrote out.new) (S.faults src.new) (K.faults out.new)) }
{
    let _ = rt;
    let _ = gate;
    follow(alloc, words, src, out)
}
