//! Lines of an input, commands as they are written, and the texts of replies.
//!
//! A call that answers `NoMemory` does so only where memory ran out; every other call takes no
//! memory. A law does nothing: its clause is what it is for.
#![tactic(auto)]

mod inputs;
#[cfg(test)]
mod tests;
mod texts;
mod words;

pub use inputs::{
    first_line, law_head_before_separator, law_lines_lose_their_ends, law_pieces_are_lines,
    split_input,
};
pub use std::alloc::AllocError as NoMemory;
pub use texts::{opening_text, reply_text};
pub use words::read_line;
