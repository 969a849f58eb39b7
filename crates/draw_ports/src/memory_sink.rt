// A sink that keeps its bytes in memory.
ghost use Rattle.std.specs.Prelude.{◌≡◌, ℕ, ◌+◌, ◌-◌, ◌^◌, ◌<◌, ◌≤◌, ◌↔◌, ◌⊎◌, [], min, length, Some, Contains, IsErr, IfOk, OnOk, OnErr};
ghost use Rattle.std.specs.Io.{WritesAtMost};
ghost use Rattle.std.specs.Io.KnownBytes.{WriteAppends};
ghost use Rattle.draw_ports.specs.Causes.{HasCause};

use crate::{Failed, NoMemory, Sink};
use std::alloc::Global;
use std::marker::Model;

/// A sink that keeps its bytes in memory, whose calls with the given numbers fail.
///
/// A clause sees it as the bytes that it was given, the most that it holds, the numbers of the
/// calls that fail, how many calls there were and how many faults.
#[derive(Drop)]
pub struct MemorySink {
    bytes: Vec<u8>,
    room: usize,
    fails: Vec<u64>,
    calls: u64,
    faults: u64,
}

impl Model for MemorySink {
    ghost use Rattle.std.specs.Prelude.{◌≤◌, vec_len, vec_capacity};
    ghost use Rattle.draw_ports.specs.Store.{Store};

    ghost Value = { Store };

    ghost view = { λ s. record {
      wrote = s.bytes.items;
      room = s.room;
      fails = s.fails.items;
      calls = s.calls;
      faults = s.faults;
    } };

    ghost invariant = { λ s. (vec_len s.bytes ≤ s.room) × (s.room ≤ vec_capacity s.bytes) };
}

impl MemorySink {
    /// A sink with memory for `room` bytes, or `NoMemory` where it can't be had.
    ///
    /// The calls of `put` whose numbers, counted from 0, stand in `fails` fail.
    pub fn new(alloc: Global, room: usize, fails: Vec<u64>) -> Result<MemorySink, NoMemory>
        ensures wrote { IfOk result (λ s. s.wrote ≡ []) }
        ensures room { IfOk result (λ s. s.room ≡ room) }
        ensures fails { IfOk result (λ s. s.fails ≡ fails.items) }
        ensures calls { IfOk result (λ s. s.calls ≡ 0) }
        ensures faults { IfOk result (λ s. s.faults ≡ 0) }
    {
        let bytes = Vec::with_capacity(alloc, room)?;
        Ok(MemorySink {
            bytes,
            room,
            fails,
            calls: 0,
            faults: 0,
        })
    }

    /// What was written, in its order.
    pub fn bytes(&self) -> &[u8]
        ensures value { result.now ≡ self.now.wrote }
        ensures within { length result.now ≤ self.now.room }
    {
        self.bytes.as_slice()
    }
}

impl Sink for MemorySink {
    ghost wrote = { λ s. Some s.wrote };

    ghost faults = { λ s. s.faults };

    /// Fails exactly where the number of this call stands in the list that `new` was given, or
    /// where there is a byte and no room is left; else it takes as many bytes as the room that is
    /// left allows. It takes no memory.
    fn put(&mut self, bytes: &[u8]) -> Result<usize, Failed>
        ensures bound { WritesAtMost result bytes.now }
        ensures some { IfOk result (λ n. 0 < length bytes.now → 0 < n) }
        ensures bytes { WriteAppends (Some self.old.wrote) (Some self.new.wrote) result bytes.now }
        ensures cause { HasCause self.old.faults self.new.faults result }

        // When it fails, and how much it takes.
        ensures failing { IsErr result ↔ (Contains self.old.fails self.old.calls
            ⊎ ((self.old.room ≤ length self.old.wrote) × (0 < length bytes.now))) }
        ensures count { IfOk result (λ n.
            n ≡ min (length bytes.now) (self.old.room - length self.old.wrote)) }

        // The two counts stop at the end of a `u64`.
        ensures calls { self.new.calls ≡ min (self.old.calls + 1) (2 ^ 64 - 1) }
        ensures risen { OnErr result (self.new.faults ≡ min (self.old.faults + 1) (2 ^ 64 - 1)) }
        ensures quiet { OnOk result (self.new.faults ≡ self.old.faults) }
        ensures room { self.new.room ≡ self.old.room }
        ensures fails { self.new.fails ≡ self.old.fails }
    {
        let call = self.calls;
        self.calls = call.saturating_add(1);
        let left = self.room - self.bytes.len();
        if self.fails.contains(&call) || (left == 0 && !bytes.is_empty()) {
            self.faults = self.faults.saturating_add(1);
            return Err(Failed);
        }
        let count = bytes.len().min(left);
        self.bytes.extend_from_slice(&bytes[..count]).unwrap();
        Ok(count)
    }
}

#[cfg(test)]
mod tests {
    use super::*;
    use crate::{PortFault, put_all};
    use std::test::Fail;

    #[test]
    fn writes_whole_or_a_first_part(rt: HostRuntime) -> Result<(), Fail> {
        let alloc = rt.alloc();
        let cases: [(usize, &[u64], &[u8], u64); 5] = [
            (9, &[], b"draw", 0),
            (4, &[1], b"draw", 0),
            (3, &[], b"dra", 1),
            (0, &[], b"", 1),
            (9, &[0], b"", 1),
        ];
        for (room, fails, wrote, faults) in cases {
            let mut sink = MemorySink::new(alloc, room, fails.to_vec(alloc)?)?;
            match put_all(&mut sink, b"draw") {
                Ok(()) => assert_eq!(rt; faults, 0),
                Err(fault) => assert_eq!(rt; fault, PortFault::Write),
            }
            assert_eq!(rt; sink.bytes(), wrote);
            assert_eq!(rt; sink.faults, faults);
        }
        Ok(())
    }
}
