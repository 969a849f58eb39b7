//! Tables, moves, phases and candidates of a draw, and what is possible, as the written rules have
//! it.
//!
//! Said once for all functions: one takes memory only where it is passed an allocator, and its only
//! error is then `NoMemory`, unless its text names another. The laws do nothing.
#![tactic(auto)]

mod candidacy;
mod choices;
mod group_judging;
mod group_phases;
mod group_place;
mod group_places;
mod group_rule;
mod group_rules;
mod group_table;
mod holders;
mod judging;
mod laws;
mod moves;
mod moves_said;
mod pair_rule;
mod pair_table;
mod phases;
mod pots;
mod rules;
mod table;
mod table_fault;
mod table_reading;
mod table_texts;
mod team_ids;
#[cfg(test)]
mod tests;
mod verdict;

pub use candidacy::{is_candidate, move_in, move_of};
pub use choices::candidates;
pub use group_place::GroupPlace;
pub use group_places::GroupPlaces;
pub use group_table::GroupTable;
pub use holders::holder_of;
pub use judging::judge;
pub use laws::{
    law_held_positions, law_legal_where_nothing_broken, law_offer_where_decided,
    law_offered_where_possible, law_one_first_broken, law_one_offer, law_one_table_of_text,
    law_states_name_teams,
};
pub use moves::{Choice, Move, Phase};
pub use moves_said::{group_in, position_in};
pub use pair_table::PairTable;
pub use phases::phase_of;
pub use pots::teams_of_pot;
pub use rules::may_meet;
pub use std::alloc::AllocError as NoMemory;
pub use table::Table;
pub use table_fault::TableFault;
pub use table_reading::read_table;
pub use table_texts::table_text;
pub use team_ids::TeamIds;
pub use verdict::Verdict;
