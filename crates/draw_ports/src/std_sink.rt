// A sink over a writer of std.
ghost use Rattle.std.specs.Prelude.{◌≡◌, ℕ, ◌+◌, ◌-◌, ◌^◌, ◌<◌, min, length, None, IfOk, OnOk, OnErr};
ghost use Rattle.std.specs.Io.{WritesAtMost};
ghost use Rattle.std.specs.Io.KnownBytes.{WriteAppends};
ghost use Rattle.draw_ports.specs.Causes.{HasCause};

use crate::outcomes::write_outcome;
use crate::{Failed, Sink};
use std::io::Write;
use std::marker::Model;

/// A sink over a writer of std. It tells no content.
///
/// A clause sees it as its writer and its count of faults.
#[derive(Drop)]
pub struct StdSink<T: Write + Drop> {
    writer: T,
    faults: u64,
}

impl<T: Write + Drop> Model for StdSink<T> {
    ghost use Rattle.draw_ports.specs.Adapted.{Adapted};

    ghost Value = { Adapted T };

    ghost view = { λ s. record { inner = s.writer; faults = s.faults } };
}

impl<T: Write + Drop> StdSink<T> {
    /// A sink over `writer` with no faults so far.
    pub fn new(writer: T) -> StdSink<T>
        ensures inner { result.inner ≡ writer }
        ensures faults { result.faults ≡ 0 }
    {
        StdSink { writer, faults: 0 }
    }
}

impl<T: Write + Drop> Sink for StdSink<T> {
    ghost wrote = { λ _. None };

    ghost faults = { λ s. s.faults };

    /// Writes once. Each error of the writer is a fault, and so is a write that took none of the
    /// bytes though there were some.
    fn put(&mut self, bytes: &[u8]) -> Result<usize, Failed>
        ensures bound { WritesAtMost result bytes.now }
        ensures some { IfOk result (λ n. 0 < length bytes.now → 0 < n) }
        ensures bytes { WriteAppends None None result bytes.now }
        ensures cause { HasCause self.old.faults self.new.faults result }
        ensures writes { WriteAppends
            (T.contents self.old.inner) (T.contents self.new.inner) result bytes.now }
        ensures risen { OnErr result (self.new.faults ≡ min (self.old.faults + 1) (2 ^ 64 - 1)) }
        ensures quiet { OnOk result (self.new.faults ≡ self.old.faults) }
    {
        let answer = self.writer.write(bytes);
        write_outcome(answer, bytes.len(), &mut self.faults)
    }
}

#[cfg(test)]
mod tests {
    use super::*;
    use crate::{PortFault, put_all};
    use std::io;
    use std::io::ErrorKind;
    use std::test::Fail;

    #[derive(Drop)]
    struct Broken;

    impl Write for Broken {
        fn write(&mut self, _buf: &[u8]) -> io::Result<usize> {
            Err(ErrorKind::Other.into())
        }

        fn flush(&mut self) -> io::Result<()> {
            Ok(())
        }
    }

    #[test]
    fn writes_to_a_writer(rt: HostRuntime) -> Result<(), Fail> {
        let mut sink = StdSink::new(Vec::new(rt.alloc()));
        assert!(rt; put_all(&mut sink, b"draw").is_ok());
        assert_eq!(rt; sink.writer.as_slice(), b"draw".as_slice());
        assert_eq!(rt; sink.faults, 0);
        Ok(())
    }

    // However much is given, each put is one write.
    #[test]
    fn puts_much_and_none(rt: HostRuntime) -> Result<(), Fail> {
        let alloc = rt.alloc();
        let long = vec![in alloc; b'x'; 100_000]?;
        let mut sink = StdSink::new(Vec::new(alloc));
        assert!(rt; matches!(sink.put(&[]), Ok(0)));
        assert!(rt; matches!(sink.put(&long), Ok(100_000)));
        assert!(rt; matches!(sink.put(&[]), Ok(0)));
        assert_eq!(rt; sink.writer.as_slice(), long.as_slice());
        assert_eq!(rt; sink.faults, 0);
        Ok(())
    }

    #[test]
    fn counts_errors_and_empty_writes(rt: HostRuntime) {
        let mut broken = StdSink::new(Broken);
        assert_eq!(rt; put_all(&mut broken, b"draw"), Err(PortFault::Write));
        assert_eq!(rt; broken.faults, 1);

        // A writer over a slice takes nothing once the slice is full.
        let mut short = [0; 3];
        let mut full = StdSink::new(short.as_mut_slice());
        assert_eq!(rt; put_all(&mut full, b"draw"), Err(PortFault::Write));
        assert_eq!(rt; full.faults, 1);
    }
}
