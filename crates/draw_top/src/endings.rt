//! The first step and the last of a call: an input is read, and a text is written.

ghost use Rattle.std.specs.Prelude.{IfOk, IfErr};
ghost use Rattle.draw_top.specs.Transfers.{IsRead, IsUnread, IsPut};

use crate::status::Status;
use draw_ports::{PortFault, Sink, Source, put_all, read_all};
use std::alloc::Global;

/// At most so many bytes are taken as an input.
pub const INPUT_LIMIT: u64 = 4_194_304;

/// Reads the source to its end, at most `limit` bytes, or gives the status with which the call
/// ends: `ReadFault` where the source failed, `TooLong` where it held more bytes, and `NoMemory`
/// where memory ran out.
pub fn read_input<S: Source>(alloc: Global, src: &mut S, limit: u64) -> Result<Vec<u8>, Status>
    ensures read { IfOk result (λ input. IsRead limit input.items
        (S.left src.old) (S.left src.new) (S.faults src.old) (S.faults src.new)) }
    ensures unread { IfErr result (λ status. IsUnread limit status
        (S.left src.old) (S.faults src.old) (S.faults src.new)) }
{
    match read_all(alloc, src, limit) {
        Ok(input) => Ok(input),
        Err(PortFault::Read) => Err(Status::ReadFault),
        Err(PortFault::TooLong { limit: _ }) => Err(Status::TooLong),
        Err(_) => Err(Status::NoMemory),
    }
}

/// Writes a text whole and gives the status, or `WriteFault` where the sink failed.
pub fn finish<K: Sink>(out: &mut K, text: &[u8], status: Status) -> Status
    ensures { IsPut text.now status result
        (K.wrote out.old) (K.wrote out.new) (K.faults out.old) (K.faults out.new) }
{
    match put_all(out, text) {
        Ok(()) => status,
        Err(_) => Status::WriteFault,
    }
}
