//! Reads a draw file from the bytes of its head.

ghost use Rattle.std.specs.Prelude.{◌≢◌, IfOk, IfErr};
ghost use Rattle.rule_sets.specs.Files.{IsFileOf, IsFileFault};

use crate::draw_file::DrawFile;
use crate::rules::rules_from;
use std::alloc::Global;
use team_files::{FileFault, read_head};

/// Reads the draw file of a head: the head of the bytes, with its tags, forbidden pairs and fixed
/// places looked up.
///
/// # Errors
/// The first fault of the bytes, in the order of the faults' numbers: a fault of the head, as
/// `read_head` tells it, or else one of what is looked up, as `rules_from` tells it: `UnknownTag`,
/// `BadPair` or `BadPlace`.
pub fn read_file(alloc: Global, bytes: &[u8]) -> Result<DrawFile, FileFault>
    ensures ok { IfOk result (λ file. IsFileOf bytes.now file) }
    ensures fault { IfErr result (λ f. f ≢ FileFault.NoMemory → IsFileFault bytes.now f) }
{
    match read_head(alloc, bytes) {
        Ok(head) => rules_from(alloc, head),
        Err(fault) => Err(fault),
    }
}
