//! Propagation over the rules of a count problem and the clauses that were added to them.
//!
//! An `Engine` keeps a trail: the literals that are set, in order, each with the rule or clause
//! that forced it. For each rule and clause it counts the true and the false literals, so that to
//! set a literal costs the occurrences of its atom, and `propagate` examines only what a new
//! literal may have changed. What a rule is, and when it conflicts or forces, stands in
//! `count_core`.
//!
//! A call that is given an allocator may run out of memory, and reports it; every other call takes
//! no memory. `assume` and `propagate` are for an engine in which `reserve` has made room.
#![tactic(auto)]

mod clause;
mod constraint;
mod counters;
mod engine;
mod forcing;
mod found;
mod listing;
mod mark;
mod occurrence;
mod occurrence_list;
mod progress;
mod queue;
mod status;
mod store;
#[cfg(test)]
mod tests;
mod trail;

pub use clause::Clause;
pub use count_core::NoMemory;
pub use engine::Engine;
pub use found::Found;
pub use mark::Mark;
