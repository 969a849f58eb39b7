//! A run between its source and its sink: from the words to the status.

ghost use Rattle.std.specs.Prelude.{IfOk, IfErr};
ghost use Rattle.draw_ports.specs.Outside.{outside};
ghost use Rattle.list_texts.specs.Limits.{words_of};
ghost use Rattle.solve.specs.Transfers.{IsRead, IsUnread, IsPut};
ghost use Rattle.solve.specs.Endings.{EndsWithin, Ends, EndsAsDecided, IsComplete};

use crate::reporting::report_of;
use crate::status::Status;
use draw_ports::{PortFault, Sink, Source, put_all, read_all};
use list_texts::limit_of;
use std::alloc::Global;

const USAGE: &[u8] = b"usage: solve BYTES\n";

/// Reads the source to its end, at most `limit` bytes, or gives the status with which the run ends.
fn read_bytes<S: Source>(alloc: Global, src: &mut S, limit: u64) -> Result<Vec<u8>, Status>
    ensures read { IfOk result (λ bytes. IsRead limit bytes.items
        (S.left src.old) (S.left src.new) (S.faults src.old) (S.faults src.new)) }
    ensures unread { IfErr result (λ status. IsUnread limit status
        (S.left src.old) (S.faults src.old) (S.faults src.new)) }
{
    match read_all(alloc, src, limit) {
        Ok(bytes) => Ok(bytes),
        Err(PortFault::Read) => Err(Status::ReadFault),
        Err(PortFault::TooLong { limit: _ }) => Err(Status::TooLong),
        Err(_) => Err(Status::NoMemory),
    }
}

/// Writes a text whole and gives the status, or `WriteFault` where the sink failed.
fn finish<K: Sink>(out: &mut K, text: &[u8], status: Status) -> Status
    ensures { IsPut text.now status result
        (K.wrote out.old) (K.wrote out.new) (K.faults out.old) (K.faults out.new) }
{
    match put_all(out, text) {
        Ok(()) => status,
        Err(_) => Status::WriteFault,
    }
}

/// Reads an inquiry of at most `limit` bytes, and writes what is said of it.
fn answer_source<S: Source, K: Sink>(alloc: Global, limit: u64, src: &mut S, out: &mut K) -> Status
    ensures ends { EndsWithin limit result
        (outside (S.left src.old) (K.wrote out.old) (S.faults src.old) (K.faults out.old))
        (outside (S.left src.new) (K.wrote out.new) (S.faults src.new) (K.faults out.new)) }
    ensures complete { EndsAsDecided limit result
        (outside (S.left src.old) (K.wrote out.old) (S.faults src.old) (K.faults out.old))
        (outside (S.left src.new) (K.wrote out.new) (S.faults src.new) (K.faults out.new)) }
{
    let bytes = match read_bytes(alloc, src, limit) {
        Ok(bytes) => bytes,
        Err(status) => return status,
    };
    match report_of(alloc, &bytes) {
        Ok(report) => finish(out, &report.text, report.status),
        Err(status) => status,
    }
}

/// Reads an inquiry, a problem and questions, of at most so many bytes as the one word says, and
/// writes an answer to each question; where the bytes are no inquiry, or it may not be asked, it
/// writes why. Where the words are not one number it writes the usage line and reads nothing. The
/// order of the causes is Usage, ReadFault, TooLong, Refused. It always returns.
pub(crate) fn run<S: Source, K: Sink>(
    alloc: Global,
    words: &[String],
    src: &mut S,
    out: &mut K,
) -> Status
    // Each status and its cause.
    ensures ends { Ends result (words_of words.now)
        (outside (S.left src.old) (K.wrote out.old) (S.faults src.old) (K.faults out.old))
        (outside (S.left src.new) (K.wrote out.new) (S.faults src.new) (K.faults out.new)) }
    // The right words and no fault: by the bytes alone, or more than is numbered, or no memory.
    ensures complete { IsComplete result (words_of words.now)
        (outside (S.left src.old) (K.wrote out.old) (S.faults src.old) (K.faults out.old))
        (outside (S.left src.new) (K.wrote out.new) (S.faults src.new) (K.faults out.new)) }
{
    let Some(limit) = limit_of(words) else {
        return finish(out, USAGE, Status::Usage);
    };
    answer_source(alloc, limit, src, out)
}
