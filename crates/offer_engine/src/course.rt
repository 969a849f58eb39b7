use crate::offer::Offer;
use draw_state::{Moves, Reply, State};

/// How far a turn is.
#[derive(Drop)]
pub(crate) enum Course {
    /// The command is refused, and the reply says so.
    Refused { reply: Reply },
    /// A ball is accepted. The offer of a state that it leads through is waited for, with the moves
    /// that lead to it.
    Waiting { next: State, added: Moves },
    /// All offers that it needs were given; this is the last.
    Taken { reply: Reply, after: Offer },
}
