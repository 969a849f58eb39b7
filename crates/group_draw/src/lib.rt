//! A group draw as a count problem: its assignments are the legal tables, but for the positions,
//! which are filled in.
//!
//! Said once for all functions: one takes memory only where it is passed an allocator, and its only
//! error is `NoMemory`. The laws do nothing.
#![tactic(auto)]

mod atoms;
mod correspondence;
mod decoding;
mod encoding;
mod laws;
mod literals;
mod positions;

pub use correspondence::{
    law_agreeing_satisfy, law_completable_where_satisfied, law_rules_and_questions_are_formed,
    law_tables_satisfy, law_values_agree, law_values_complete,
};
pub use decoding::decode;
pub use encoding::encode;
pub use laws::{
    law_completable_is_clean, law_offer_exists, law_possible_where_not_held, law_worked_files,
};
pub use literals::lits_of;
pub use std::alloc::AllocError as NoMemory;
