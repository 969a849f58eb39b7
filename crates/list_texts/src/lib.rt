//! Count problems with steps or questions as a text, one line each, read and written.
//!
//! A text has a line `p ATOMS`, then a line `r LO HI LITS` for each rule, then one for each step,
//! `s LITS / HINTS`, or one for each question, `q LITS`. A literal is `+ATOM` or `-ATOM`, a hint
//! `rRULE` or `sSTEP`. Each line ends with a line feed, between words stands one space, and numbers
//! are decimal without a leading zero.
//!
//! What was read is the only thing that has the text; of any other text the first wrong line is
//! told. Nothing is promised of what a text lists: whether its rules make a problem, and its steps
//! are accepted, others decide.
//!
//! What programs that read such a text share stands here too: the one word that they are called
//! with, and the lines that they write of a text that they refuse.
#![tactic(auto)]

mod fault;
mod inquiry;
mod limit;
mod lines;
mod listing;
mod refusals;
mod words;
mod writing;

pub use fault::ListFault;
pub use inquiry::Inquiry;
pub use limit::limit_of;
pub use listing::Listing;
pub use refusals::{fault_line, no_list_line};
pub use writing::add_step;
