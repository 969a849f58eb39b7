ghost use Rattle.std.specs.Prelude.{◌≡◌, IfOk};
ghost use Rattle.list_texts.specs.Refusals.{no_list_line, fault_line};

use count_core::CoreFault;
use std::alloc::{AllocError, Global};

/// The line of a text that is no list, or no inquiry: which line of it, counted from 1, is the first
/// that can't be taken.
pub fn no_list_line(alloc: Global, line: u64) -> Result<Vec<u8>, AllocError>
    ensures { IfOk result (λ text. text.items ≡ no_list_line line) }
{
    let text = format!(in alloc; "not a list {line}\n")?;
    Ok(text.into_bytes())
}

/// The line of the rules' first fault. Out of memory has none, and is reported again.
pub fn fault_line(alloc: Global, fault: CoreFault) -> Result<Vec<u8>, AllocError>
    ensures { IfOk result (λ text. text.items ≡ fault_line fault) }
{
    let text = match fault {
        CoreFault::AtomRange { rule } => format!(in alloc; "problem refused {rule} AtomRange\n")?,
        CoreFault::RepeatedAtom { rule } => {
            format!(in alloc; "problem refused {rule} RepeatedAtom\n")?
        }
        CoreFault::BadBounds { rule } => format!(in alloc; "problem refused {rule} BadBounds\n")?,
        CoreFault::NoMemory => return Err(AllocError),
    };
    Ok(text.into_bytes())
}
