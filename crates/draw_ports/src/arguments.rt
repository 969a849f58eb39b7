// The words of a program, for all mains.
ghost use Rattle.std.specs.Prelude.{◌≡◌, ◌≢◌, [], drop, IsErr, IfOk, IfErr, IsOkAnd};
ghost use Rattle.std.specs.Vec.Iter.{into_iter_items};
ghost use Rattle.std.specs.IoError.{error_kind};

use crate::NoMemory;
use std::alloc::Global;
use std::io::ErrorKind;
use std::{env, io};

/// The words after the program's name, from std's answer to the question for the arguments. Where
/// one of them is no text there are no words. `NoMemory` comes only where no memory was left, for
/// std or for the list of words.
pub fn read_arguments(alloc: Global, answer: io::Result<env::Args>) -> Result<Vec<String>, NoMemory>
    ensures words { IfOk answer (λ arguments. IfOk result (λ words.
        words.items ≡ drop 1 (into_iter_items arguments))) }
    ensures no_text { IfErr answer (λ error. error_kind error ≢ ErrorKind.OutOfMemory
        → IsOkAnd result (λ words. words.items ≡ [])) }
    ensures no_memory { IfErr answer (λ error. error_kind error ≡ ErrorKind.OutOfMemory
        → IsErr result) }
{
    match answer {
        Ok(arguments) => arguments.skip(1).collect(alloc),
        Err(error) if error.kind() == ErrorKind::OutOfMemory => Err(NoMemory),
        Err(_) => Ok(Vec::new(alloc)),
    }
}

#[cfg(test)]
mod tests {
    use super::*;
    use std::test::Fail;

    /// The words of a text.
    fn split(alloc: Global, text: &str) -> Result<Vec<String>, NoMemory> {
        let mut words = Vec::new(alloc);
        for word in text.split_ascii_whitespace() {
            words.push(String::from_str(alloc, word)?)?;
        }
        Ok(words)
    }

    #[test]
    fn words_stand_behind_the_name(rt: HostRuntime) -> Result<(), Fail> {
        let alloc = rt.alloc();
        for (given, wanted) in [
            ("draw follow", "follow"),
            ("draw room --workers 4", "room --workers 4"),
            ("draw", ""),
            ("", ""),
        ] {
            let given = split(alloc, given)?;
            let words = read_arguments(alloc, Ok(given.into_iter()))?;
            assert!(rt; words == split(alloc, wanted)?);
        }
        Ok(())
    }
}
