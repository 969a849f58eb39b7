//! Logs of accepted steps, and what is taken out of them: lemmas, refutations of questions, and the
//! steps on which one step rests.
//!
//! What an accepted step is, `count_core` says. A `ProofLog` takes a step only where it is
//! accepted, by this crate's own check of its hints: the negation of the clause is assumed, and
//! each hint's rule or clause is counted under what is set by then. A step costs what its hints
//! touch: what was set is noted on a trail, and unset by it. Of candidate hints it can keep those that
//! lead on, so that whoever proposes a step need not know which of them are idle; and it joins the
//! steps of the two sides of a split.
//!
//! A call that is given an allocator may run out of memory, and reports it, but `ProofLog::new`,
//! which takes none; every other call takes none either.
#![tactic(auto)]

mod assignment;
mod closed;
mod cone;
mod effect;
mod hint_check;
mod join;
mod leading;
mod lemma;
mod log_fault;
mod proof_log;
mod shift;
#[cfg(test)]
mod tests;

pub use closed::Closed;
pub use count_core::NoMemory;
pub use lemma::Lemma;
pub use log_fault::LogFault;
pub use proof_log::ProofLog;
