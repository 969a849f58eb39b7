//! Count problems, the steps of a refutation, and why every accepted step follows.
//!
//! A problem is a number of atoms and rules, each of which bounds how many of its literals are
//! true. A step is a clause with hints, as in LRAT: with the clause's literals set false, each hint
//! names a rule or an earlier clause that forces literals by its bounds, and the last one
//! conflicts. This crate has the types and the definitions; it does not propagate.
//!
//! A call that is given an allocator may run out of memory, and reports it; every other call takes
//! none. A law is a call that does nothing: its contract is a fact about the definitions.
#![tactic(auto)]

mod assignments;
mod atom;
mod count_rule;
mod faults;
mod hint;
mod hints;
mod laws;
mod lit;
mod lits;
mod number_limit;
mod problem;
mod question;
mod same;
mod step;
mod steps;
#[cfg(test)]
mod tests;
mod values;

pub use assignments::satisfied;
pub use atom::Atom;
pub use count_rule::CountRule;
pub use faults::CoreFault;
pub use hint::Hint;
pub use hints::Hints;
pub use laws::{
    law_accepted_by_conflict, law_accepted_clauses_follow, law_clash_table, law_failing_hint,
    law_first_fault, law_refuted_questions_fail, law_satisfiability_decides,
};
pub use lit::Lit;
pub use lits::Lits;
pub use number_limit::NUMBER_LIMIT;
pub use problem::{Problem, SharedProblem};
pub use question::{Question, are_distinct};
pub use std::alloc::AllocError as NoMemory;
pub use step::Step;
pub use steps::Steps;
pub use values::Values;
