// The loops that read a source to its end and write bytes whole.
ghost use Rattle.std.specs.Prelude.{◌≡◌, ℕ, ◌<◌, ◌≤◌, length, vec_len, IfOk, OnOk, OnErr, IfSome, IsErrOf};
ghost use Rattle.std.specs.Io.KnownBytes.{Consumes, Appends, IsAtEnd};
ghost use Rattle.draw_ports.specs.Causes.{Rose, AppendsSome, TakesSome};

use crate::{PortFault, Sink, Source};
use std::alloc::Global;

/// Reads the source to its end, at most `limit` bytes.
///
/// `Read` comes only where the source's count of faults rose in this call, `TooLong` exactly where
/// the source held more than `limit` bytes and no call failed first, and `NoMemory` where memory
/// ran out. After each of them some first bytes are gone from the source.
pub fn read_all<S: Source>(alloc: Global, src: &mut S, limit: u64) -> Result<Vec<u8>, PortFault>
    ensures all { IfOk result (λ v. Consumes (S.left src.old) (S.left src.new) v.items) }
    ensures end { OnOk result (IsAtEnd (S.left src.new)) }
    ensures fits { IfOk result (λ v. vec_len v ≤ limit) }
    ensures later { S.faults src.old ≤ S.faults src.new }
    ensures quiet { OnOk result (S.faults src.new ≡ S.faults src.old) }
    ensures read { IsErrOf result PortFault.Read → Rose (S.faults src.old) (S.faults src.new) }
    ensures too_long { (n : ℕ) → IsErrOf result (PortFault.TooLong n) → (n ≡ limit)
        × IfSome (S.left src.old) (λ xs. limit < length xs)
        × (S.faults src.new ≡ S.faults src.old) }
    ensures no_memory { IsErrOf result PortFault.NoMemory → S.faults src.new ≡ S.faults src.old }
    ensures write { ¬ IsErrOf result PortFault.Write }
    ensures taken { OnErr result (TakesSome (S.left src.old) (S.left src.new)) }
{
    let mut all = Vec::new(alloc);
    let mut piece = [0u8; 4096];
    loop {
        let Ok(count) = src.take(&mut piece) else {
            return Err(PortFault::Read);
        };
        if count == 0 {
            return Ok(all);
        }
        if count as u64 > limit - all.len() as u64 {
            return Err(PortFault::TooLong { limit });
        }
        if all.extend_from_slice(&piece[..count]).is_err() {
            return Err(PortFault::NoMemory);
        }
    }
}

/// Writes all of the bytes, or stops at the first fault. It takes no memory.
///
/// Its one error is `Write`. It comes only where the sink's count of faults rose in this call, and
/// some first bytes went out.
pub fn put_all<K: Sink>(sink: &mut K, bytes: &[u8]) -> Result<(), PortFault>
    ensures all { OnOk result (Appends (K.wrote sink.old) (K.wrote sink.new) bytes.now) }
    ensures quiet { OnOk result (K.faults sink.new ≡ K.faults sink.old) }
    ensures later { K.faults sink.old ≤ K.faults sink.new }
    ensures some { OnErr result (AppendsSome (K.wrote sink.old) (K.wrote sink.new) bytes.now) }
    ensures write { OnErr result (IsErrOf result PortFault.Write
        × Rose (K.faults sink.old) (K.faults sink.new)) }
{
    let mut done = 0;
    while done < bytes.len() {
        let Ok(count) = sink.put(&bytes[done..]) else {
            return Err(PortFault::Write);
        };
        done += count;
    }
    Ok(())
}

#[cfg(test)]
mod tests {
    use super::*;
    use crate::{StdSink, StdSource, exit_code};

    // It passes with its first allocation failing too, which `checks/memory` tries.
    #[test]
    fn bytes_and_ends_take_no_memory(rt: HostRuntime) {
        let mut piece = [0u8; 8];
        let mut source = StdSource::new(b"draw".as_slice());
        assert!(rt; matches!(source.take(&mut piece), Ok(4)));
        let mut room = [0u8; 40];
        let mut sink = StdSink::new(room.as_mut_slice());
        assert!(rt; put_all(&mut sink, &piece[..4]).is_ok());
        let _code = exit_code(&mut sink, b"draw", 5);
        assert_eq!(rt;
            room.as_slice(),
            b"drawdraw: no memory was left (status 5)\n".as_slice()
        );
    }
}
