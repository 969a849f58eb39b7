//! The search for an assignment that satisfies a count problem and a question, or for a refutation.
//!
//! A `Session` keeps one engine and one log over a problem. `solve` assumes the literals of a
//! question and splits on unset literals. A conflict is analysed: the clause that it teaches becomes
//! a step of the log and a clause of the engine, and another step closes what is assumed. The steps
//! of the two sides of a split are joined; where the first does not rest on the split, the second
//! side is not opened. What a step is and when it is accepted, `count_core` says.
//!
//! The analysis and the choice of splits are trusted with nothing: what they propose is a step only
//! where the log accepts it.
#![tactic(auto)]

mod analysis;
mod answer;
mod closing;
mod counts;
mod deciding;
mod importing;
mod learning;
mod merging;
mod outcome;
mod picking;
mod reason;
mod refuting;
mod rounds;
mod session;
mod side;
mod slacks;
mod solving;
#[cfg(test)]
mod tests;
mod turns;
mod work;

pub use answer::Answer;
pub use count_core::NoMemory;
pub use counts::Counts;
pub use outcome::Outcome;
pub use session::{Session, solve};
