//! Sources and sinks of bytes that count their faults.
//!
//! A program reads its input from a [`Source`] and writes its answer to a [`Sink`]. Each of them
//! keeps a count of its faults that generic code can read in a contract and never raise. So a
//! caller that promises "it gave up only where the count rose" can't give up on its own.
//!
//! A count that stands at 2^64 - 1, where it stays, counts as risen.
//!
//! The edges that all programs have stand here too: their words, and how they end.
#![tactic(auto)]

ghost use Rattle.std.specs.Prelude.{◌≡◌, ℕ, ◌<◌, ◌≤◌, List, Option, length, IfOk};
ghost use Rattle.std.specs.Io.{ReadsAtMost, WritesAtMost};
ghost use Rattle.std.specs.Io.KnownBytes.{ReadConsumes, WriteAppends};
ghost use Rattle.draw_ports.specs.Causes.{HasCause};

mod arguments;
mod exits;
mod gate;
mod memory_sink;
mod memory_source;
mod outcomes;
mod std_sink;
mod std_source;
mod transfer;

pub use arguments::read_arguments;
pub use exits::exit_code;
pub use gate::{Gate, GatePoint, OpenGate};
pub use memory_sink::MemorySink;
pub use memory_source::MemorySource;
pub use std::alloc::AllocError as NoMemory;
pub use std_sink::StdSink;
pub use std_source::StdSource;
pub use transfer::{put_all, read_all};

/// A source or a sink failed in this call, and its count of faults rose.
#[derive(Debug, Drop)]
pub struct Failed;

/// Where bytes come from.
pub trait Source {
    /// The bytes that are still to come, where the source tells them.
    ghost left: { Self → Option (List ℕ) };

    /// How often it has failed, up to 2^64 - 1.
    ghost faults: { Self → ℕ };

    /// Moves some of the bytes to come into the front of `into` and gives their number.
    ///
    /// `Ok(0)` on a slice that isn't empty is the end of the input. `Failed` comes only where the
    /// count of faults rose in this call, and then nothing was taken.
    fn take(&mut self, into: &mut [u8]) -> Result<usize, Failed>
        ensures bound { ReadsAtMost result into.new }
        ensures bytes { ReadConsumes (left self.old) (left self.new) result into.new }
        ensures cause { HasCause (faults self.old) (faults self.new) result };
}

/// Where bytes go.
pub trait Sink {
    /// The bytes that it was given, where the sink tells them.
    ghost wrote: { Self → Option (List ℕ) };

    /// How often it has failed, up to 2^64 - 1.
    ghost faults: { Self → ℕ };

    /// Takes some of the bytes from their front, at least one if there is one, and gives their
    /// number.
    ///
    /// `Failed` comes only where the count of faults rose in this call, and then nothing was
    /// written.
    fn put(&mut self, bytes: &[u8]) -> Result<usize, Failed>
        ensures bound { WritesAtMost result bytes.now }
        ensures some { IfOk result (λ n. 0 < length bytes.now → 0 < n) }
        ensures bytes { WriteAppends (wrote self.old) (wrote self.new) result bytes.now }
        ensures cause { HasCause (faults self.old) (faults self.new) result };
}

/// Why bytes could not be read or written.
#[derive(Debug, Drop, PartialEq, Eq)]
pub enum PortFault {
    /// 1: the source failed.
    Read,
    /// 2: the source held more than `limit` bytes.
    TooLong { limit: u64 },
    /// 3: no memory was left for the bytes.
    NoMemory,
    /// 4: the sink failed.
    Write,
}
