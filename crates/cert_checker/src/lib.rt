//! A checker of refutations: whether each step of a list is accepted after those before it.
//!
//! It stands on the definitions of `count_core` alone and shares no code with anything that makes
//! steps. Values by atom and a trail of what was set are made once; a step costs what its clause
//! and the rules and clauses that its hints name have of literals.
//!
//! Only `check` takes memory, and reports where it runs out.
#![tactic(auto)]

mod assignment;
mod checked;
mod checking;
mod countable;
mod effect;
mod hint_check;
mod named_rule;
#[cfg(test)]
mod tests;

pub use checked::Checked;
pub use checking::check;
pub use countable::are_countable;
pub use std::alloc::AllocError as NoMemory;
