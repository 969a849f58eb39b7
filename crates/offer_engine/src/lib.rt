//! Offers and turns: the questions of a state, the offer that their answers make, and one command
//! on a state.
//!
//! An `Offer` is exact by its type: each candidate stands in it with a legal table that extends the
//! moves with its own, with a refutation of the literals of those moves, or with the team that
//! holds the position. A `Turn` is one command; it wants the offer of the state that the command
//! leads to, and then has the reply.
//!
//! A call that answers `NoMemory` does so only where memory ran out; every other call takes no
//! memory. A law does nothing: its clause is what it is for.
#![tactic(auto)]

mod answering;
mod asking;
mod course;
mod encoded;
mod faults;
mod laws;
mod offer;
mod standing;
#[cfg(test)]
mod tests;
mod turn;

pub use answering::offer_from;
pub use asking::questions;
pub use encoded::Encoded;
pub use faults::{OfferFault, TurnFault};
pub use laws::{
    law_clean_where_completable, law_offer_exists, law_one_wanted, law_ready_or_waiting,
    law_tables_drawn,
};
pub use offer::Offer;
pub use standing::Standing;
pub use std::alloc::AllocError as NoMemory;
pub use turn::Turn;
