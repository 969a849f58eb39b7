//! How often numbers stand in lists, and how the positions of a group are filled.
//!
//! A call that is given an allocator may run out of memory, and that is its only error. A law is a
//! call that does nothing: its contract is a fact about the definitions.
#![tactic(auto)]

mod filling;
mod laws;
#[cfg(test)]
mod tests;

pub use filling::filled;
pub use laws::{law_all_within, law_clean_wishes_fill, law_same_numbers};
pub use std::alloc::AllocError as NoMemory;
