//! Heads of draw files: teams, codes and tags, or the first fault that a head has.
//!
//! Said once for all functions: one takes memory only where it is passed an allocator, and where
//! memory runs out it answers `NoMemory` in place of anything else. The laws do nothing.
#![tactic(auto)]

mod checks;
mod code;
mod fault;
mod fields;
mod forms;
#[cfg(test)]
mod group_tests;
mod head;
mod head_limit;
mod head_pair;
mod head_place;
mod kind;
mod laws;
mod limit_forms;
mod members;
mod missing;
mod pair_forms;
mod place_forms;
mod reading;
mod tag;
mod team;
mod team_forms;
mod team_id;
mod teams;
#[cfg(test)]
mod tests;
mod text;

pub use checks::{MOST_GROUPS, MOST_LIMITS, MOST_PAIRS, MOST_PLACES, MOST_POTS, MOST_TEAMS};
pub use code::Code;
pub use fault::{Field, FileFault};
pub use head::Head;
pub use head_limit::{HeadLimit, HeadLimits};
pub use head_pair::{HeadPair, HeadPairs};
pub use head_place::{HeadPlace, HeadPlaces};
pub use kind::Kind;
pub use laws::{law_find_by_code, law_first_fault, law_same_code};
pub use reading::read_head;
pub use std::alloc::AllocError as NoMemory;
pub use tag::{Tag, Tags};
pub use team::Team;
pub use team_id::TeamId;
pub use teams::Teams;
pub use text::Text;
