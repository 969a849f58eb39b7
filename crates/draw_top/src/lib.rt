//! The top calls of the programs `draw` and `drawcheck`.
#![tactic(auto)]

mod answering;
mod checking;
mod endings;
mod faults;
mod following;
mod laws;
mod offers;
mod run;
mod status;
mod turn;

pub use checking::run_check;
pub use following::follow;
pub use laws::{law_answer_exists, law_answer_or_refusal, law_one_answer};
pub use run::run_draw;
pub use status::Status;
