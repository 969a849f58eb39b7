//! A pairing as a count problem: its assignments are the legal tables, so that each state has an
//! offer.
//!
//! Said once for all functions: one takes memory only where it is passed an allocator, and its only
//! error is `NoMemory`. The laws do nothing.
#![tactic(auto)]

mod atoms;
mod correspondence;
mod decoding;
mod encoding;
mod laws;
mod literals;
mod pots;

pub use correspondence::{
    law_completable_where_satisfied, law_rules_and_questions_are_formed, law_tables_satisfy,
    law_values_complete, law_values_of_tables,
};
pub use decoding::decode;
pub use encoding::encode;
pub use laws::law_offer_exists;
pub use literals::lits_of;
pub use std::alloc::AllocError as NoMemory;
