// A source over a reader of std.
ghost use Rattle.std.specs.Prelude.{◌≡◌, ℕ, ◌+◌, ◌-◌, ◌^◌, min, None, OnOk, OnErr};
ghost use Rattle.std.specs.Io.{ReadsAtMost};
ghost use Rattle.std.specs.Io.KnownBytes.{ReadConsumes};
ghost use Rattle.draw_ports.specs.Causes.{HasCause};

use crate::outcomes::read_outcome;
use crate::{Failed, Source};
use std::io::Read;
use std::marker::Model;

/// A source over a reader of std. It tells no content.
///
/// A clause sees it as its reader and its count of faults.
#[derive(Drop)]
pub struct StdSource<T: Read + Drop> {
    reader: T,
    faults: u64,
}

impl<T: Read + Drop> Model for StdSource<T> {
    ghost use Rattle.draw_ports.specs.Adapted.{Adapted};

    ghost Value = { Adapted T };

    ghost view = { λ s. record { inner = s.reader; faults = s.faults } };
}

impl<T: Read + Drop> StdSource<T> {
    /// A source over `reader` with no faults so far.
    pub fn new(reader: T) -> StdSource<T>
        ensures inner { result.inner ≡ reader }
        ensures faults { result.faults ≡ 0 }
    {
        StdSource { reader, faults: 0 }
    }
}

impl<T: Read + Drop> Source for StdSource<T> {
    ghost left = { λ _. None };

    ghost faults = { λ s. s.faults };

    /// Reads once. Each error of the reader is a fault.
    fn take(&mut self, into: &mut [u8]) -> Result<usize, Failed>
        ensures bound { ReadsAtMost result into.new }
        ensures bytes { ReadConsumes None None result into.new }
        ensures cause { HasCause self.old.faults self.new.faults result }
        ensures reads { ReadConsumes
            (T.remaining self.old.inner) (T.remaining self.new.inner) result into.new }
        ensures risen { OnErr result (self.new.faults ≡ min (self.old.faults + 1) (2 ^ 64 - 1)) }
        ensures quiet { OnOk result (self.new.faults ≡ self.old.faults) }
    {
        let answer = self.reader.read(into);
        read_outcome(answer, &mut self.faults)
    }
}

#[cfg(test)]
mod tests {
    use super::*;
    use crate::{PortFault, read_all};
    use std::io;
    use std::io::ErrorKind;
    use std::test::Fail;

    #[derive(Drop)]
    struct Broken;

    impl Read for Broken {
        fn read(&mut self, _buf: &mut [u8]) -> io::Result<usize> {
            Err(ErrorKind::Other.into())
        }
    }

    #[test]
    fn reads_a_reader_and_counts_its_errors(rt: HostRuntime) -> Result<(), Fail> {
        let alloc = rt.alloc();
        let mut source = StdSource::new(b"draw".as_slice());
        let Ok(all) = read_all(alloc, &mut source, 4) else {
            panic!(rt; "it gave up");
        };
        assert_eq!(rt; all.as_slice(), b"draw".as_slice());
        assert_eq!(rt; source.faults, 0);

        let mut broken = StdSource::new(Broken);
        let Err(fault) = read_all(alloc, &mut broken, 4) else {
            panic!(rt; "it read something");
        };
        assert_eq!(rt; fault, PortFault::Read);
        assert_eq!(rt; broken.faults, 1);
        Ok(())
    }

    // However much is asked for, each take is one read.
    #[test]
    fn takes_much_and_none(rt: HostRuntime) -> Result<(), Fail> {
        let alloc = rt.alloc();
        let long = vec![in alloc; b'x'; 100_000]?;
        let mut into = vec![in alloc; 0u8; 100_000]?;
        let mut source = StdSource::new(long.as_slice());
        assert!(rt; matches!(source.take(&mut []), Ok(0)));
        assert!(rt; matches!(source.take(&mut into), Ok(100_000)));
        assert_eq!(rt; into.as_slice(), long.as_slice());
        assert!(rt; matches!(source.take(&mut into), Ok(0)));
        assert_eq!(rt; source.faults, 0);
        Ok(())
    }
}
