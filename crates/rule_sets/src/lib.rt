//! Draw files that are well formed by their type, or the first fault that a head has.
//!
//! Said once for all functions: one takes memory only where it is passed an allocator, and where
//! memory runs out it answers `NoMemory` in place of anything else. The laws do nothing.
#![tactic(auto)]

mod draw_file;
#[cfg(test)]
mod group_tests;
mod limit;
mod pair;
mod place;
mod places;
mod reading;
mod rules;
mod tags;
#[cfg(test)]
mod tests;

pub use draw_file::DrawFile;
pub use limit::Limit;
pub use pair::Pair;
pub use place::Place;
pub use reading::read_file;
pub use rules::{
    law_files_have_form, law_files_have_pairs, law_first_bad_pair, law_first_bad_place,
    law_first_fault_of_bytes, law_first_unknown_tag, rules_from,
};
