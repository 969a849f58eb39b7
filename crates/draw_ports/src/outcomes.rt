// What a source or a sink over std makes of std's answer to one call.
ghost use Rattle.std.specs.Prelude.{◌≡◌, ◌+◌, ◌-◌, ◌^◌, ◌<◌, ◌↔◌, ◌⊎◌, min, IsErr, IfOk, OnOk, OnErr};
ghost use Rattle.draw_ports.specs.Causes.{HasCause};

use crate::Failed;
use std::io;

/// What a read came to: a fault exactly where std's answer is an error, else its number of bytes.
/// `faults` counts the faults, up to 2^64 - 1.
pub(crate) fn read_outcome(answer: io::Result<usize>, faults: &mut u64) -> Result<usize, Failed>
    ensures fault { IsErr result ↔ IsErr answer }
    ensures count { IfOk result (λ n. answer ≡ Ok n) }
    ensures cause { HasCause faults.old faults.new result }
    ensures risen { OnErr result (faults.new ≡ min (faults.old + 1) (2 ^ 64 - 1)) }
    ensures quiet { OnOk result (faults.new ≡ faults.old) }
{
    match answer {
        Ok(count) => Ok(count),
        Err(_) => {
            *faults = faults.saturating_add(1);
            Err(Failed)
        }
    }
}

/// What a write of so many bytes came to: a fault exactly where std's answer is an error, or where
/// it took none of the bytes though there were some; else the number of bytes that it took.
/// `faults` counts the faults, up to 2^64 - 1.
pub(crate) fn write_outcome(
    answer: io::Result<usize>,
    given: usize,
    faults: &mut u64,
) -> Result<usize, Failed>
    ensures fault { IsErr result ↔ (IsErr answer ⊎ ((answer ≡ Ok 0) × (0 < given))) }
    ensures count { IfOk result (λ n. answer ≡ Ok n) }
    ensures cause { HasCause faults.old faults.new result }
    ensures risen { OnErr result (faults.new ≡ min (faults.old + 1) (2 ^ 64 - 1)) }
    ensures quiet { OnOk result (faults.new ≡ faults.old) }
{
    match answer {
        Ok(count) if count > 0 || given == 0 => Ok(count),
        _ => {
            *faults = faults.saturating_add(1);
            Err(Failed)
        }
    }
}
