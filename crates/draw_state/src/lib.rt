//! States of a draw, and its commands and replies: a state takes only candidates' moves; the
//! accepted choice or the first refusal of a command, and runs of commands.
//!
//! A call that answers `NoMemory` does so only where memory ran out; every other call takes no
//! memory. A law does nothing: its clause is what it is for.
#![tactic(auto)]

mod commands;
mod judging;
mod laws;
mod lists;
mod replies;
mod state;

pub use commands::{Action, Command, Word};
pub use judging::{MOST_COMMANDS, judge_command, next_line};
pub use laws::{
    law_offered_is_accepted, law_one_outcome, law_one_run, law_replies_name_teams, law_states_stay,
    law_steps_below_limit, law_tables_are_drawn,
};
pub use lists::{Choices, Moves};
pub use replies::{NextLine, Refusal, Reply};
pub use state::{State, StateFault};
pub use std::alloc::AllocError as NoMemory;
