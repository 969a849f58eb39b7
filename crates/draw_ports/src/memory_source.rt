// A source over bytes in memory.
ghost use Rattle.std.specs.Prelude.{◌≡◌, ℕ, ◌+◌, ◌-◌, ◌^◌, ◌≤◌, ◌↔◌, ◌++◌, min, length, take, drop, Some, Contains, IsErr, IfOk, OnOk, OnErr};
ghost use Rattle.std.specs.Io.{ReadsAtMost};
ghost use Rattle.std.specs.Io.KnownBytes.{ReadConsumes};
ghost use Rattle.draw_ports.specs.Causes.{HasCause};

use crate::{Failed, Source};
use std::marker::Model;

/// A source over bytes in memory, whose calls with the given numbers fail.
///
/// A clause sees it as the bytes that are left, the most that a call gives, the numbers of the
/// calls that fail, how many calls there were and how many faults.
#[derive(Drop)]
pub struct MemorySource {
    bytes: Vec<u8>,
    at: usize,
    most: usize,
    fails: Vec<u64>,
    calls: u64,
    faults: u64,
}

impl Model for MemorySource {
    ghost use Rattle.std.specs.Prelude.{◌≤◌, ◌<◌, drop, vec_len};
    ghost use Rattle.draw_ports.specs.Supply.{Supply};

    ghost Value = { Supply };

    ghost view = { λ s. record {
      left = drop s.at s.bytes.items;
      most = s.most;
      fails = s.fails.items;
      calls = s.calls;
      faults = s.faults;
    } };

    ghost invariant = { λ s. (s.at ≤ vec_len s.bytes) × (1 ≤ s.most) };
}

impl MemorySource {
    /// A source of `bytes` that gives at most `most` of them in each call.
    ///
    /// The calls of `take` whose numbers, counted from 0, stand in `fails` fail.
    pub fn new(bytes: Vec<u8>, most: usize, fails: Vec<u64>) -> MemorySource
        requires { 1 ≤ most }
        ensures left { result.left ≡ bytes.items }
        ensures most { result.most ≡ most }
        ensures fails { result.fails ≡ fails.items }
        ensures calls { result.calls ≡ 0 }
        ensures faults { result.faults ≡ 0 }
    {
        MemorySource {
            bytes,
            at: 0,
            most,
            fails,
            calls: 0,
            faults: 0,
        }
    }
}

impl Source for MemorySource {
    ghost left = { λ s. Some s.left };

    ghost faults = { λ s. s.faults };

    /// Fails exactly where the number of this call stands in the list that `new` was given; else
    /// it gives as many bytes as the most, the slice and what is left allow.
    fn take(&mut self, into: &mut [u8]) -> Result<usize, Failed>
        ensures bound { ReadsAtMost result into.new }
        ensures bytes { ReadConsumes (Some self.old.left) (Some self.new.left) result into.new }
        ensures cause { HasCause self.old.faults self.new.faults result }

        // When it fails, how much it gives, and what the slice then holds.
        ensures failing { IsErr result ↔ Contains self.old.fails self.old.calls }
        ensures count { IfOk result (λ n.
            n ≡ min (min self.old.most (length into.old)) (length self.old.left)) }
        ensures filled { IfOk result (λ n. into.new ≡ take n self.old.left ++ drop n into.old) }
        ensures unfilled { OnErr result (into.new ≡ into.old) }

        // The two counts stop at the end of a `u64`.
        ensures calls { self.new.calls ≡ min (self.old.calls + 1) (2 ^ 64 - 1) }
        ensures risen { OnErr result (self.new.faults ≡ min (self.old.faults + 1) (2 ^ 64 - 1)) }
        ensures quiet { OnOk result (self.new.faults ≡ self.old.faults) }
        ensures most { self.new.most ≡ self.old.most }
        ensures fails { self.new.fails ≡ self.old.fails }
    {
        let call = self.calls;
        self.calls = call.saturating_add(1);
        if self.fails.contains(&call) {
            self.faults = self.faults.saturating_add(1);
            return Err(Failed);
        }
        let left = self.bytes.len() - self.at;
        let count = self.most.min(into.len()).min(left);
        let end = self.at + count;
        into[..count].copy_from_slice(&self.bytes[self.at..end]);
        self.at = end;
        Ok(count)
    }
}

#[cfg(test)]
mod tests {
    use super::*;
    use crate::{PortFault, read_all};
    use std::test::Fail;

    // At one byte a call, calls 0 to 3 give the four bytes and call 4 finds the end.
    #[test]
    fn reads_to_the_end_or_stops(rt: HostRuntime) -> Result<(), Fail> {
        let alloc = rt.alloc();
        let cases: [(&[u64], u64, Option<PortFault>, u64); 6] = [
            (&[], 9, None, 0),
            (&[], 4, None, 0),
            (&[], 3, Some(PortFault::TooLong { limit: 3 }), 0),
            (&[2], 4, Some(PortFault::Read), 1),
            (&[7, 4], 4, Some(PortFault::Read), 1),
            (&[5], 4, None, 0),
        ];
        for (fails, limit, refusal, faults) in cases {
            let bytes = b"draw".to_vec(alloc)?;
            let mut source = MemorySource::new(bytes, 1, fails.to_vec(alloc)?);
            match read_all(alloc, &mut source, limit) {
                Ok(all) => {
                    assert!(rt; refusal.is_none());
                    assert_eq!(rt; all.as_slice(), b"draw".as_slice());
                }
                Err(fault) => assert_eq!(rt; Some(fault), refusal),
            }
            assert_eq!(rt; source.faults, faults);
        }
        Ok(())
    }
}
