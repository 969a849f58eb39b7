ghost use Rattle.std.specs.Prelude.{◌≡◌, IfOk};

use crate::NoMemory;
use crate::lists::{Choices, Moves};
use draw_tables::Phase;
use std::alloc::Global;

/// Why a command is refused. The first cause that holds is told, in this order.
#[derive(Clone, Copy, Debug, PartialEq, Eq)]
pub enum Refusal {
    /// 4,096 commands were answered before it.
    Limit,
    /// The line is no command.
    Form,
    /// The ball names no choice of the file: no team has its code, or its number is no position.
    Unknown,
    /// Nothing comes any more.
    Complete,
    /// The ball is no candidate of the phase.
    Phase,
    /// The ball is a candidate, but no legal table has it with what was drawn.
    Excluded,
}

/// What a reply says of what comes next.
#[derive(Drop)]
pub enum NextLine {
    /// The phase, and the choices that are possible.
    Choices { phase: Phase, choices: Choices },
    /// Nothing comes any more.
    Complete,
    /// No candidate of the phase is possible.
    Impossible,
}

impl NextLine {
    /// An equal line.
    pub fn clone_in(&self, alloc: Global) -> Result<NextLine, NoMemory>
        ensures { IfOk result (λ n. n ≡ self.now) }
    {
        match self {
            NextLine::Choices { phase, choices } => Ok(NextLine::Choices {
                phase: *phase,
                choices: choices.clone_in(alloc)?,
            }),
            NextLine::Complete => Ok(NextLine::Complete),
            NextLine::Impossible => Ok(NextLine::Impossible),
        }
    }
}

/// The reply to a command.
#[derive(Drop)]
pub enum Reply {
    /// The command changed nothing.
    Refused(Refusal),
    /// The ball was accepted and added these moves. `group` is the group, counted from 0, of the
    /// team whose position the ball gave; `None` after every other ball.
    Taken {
        moves: Moves,
        group: Option<u32>,
        next: NextLine,
    },
}

impl Reply {
    /// An equal reply.
    pub fn clone_in(&self, alloc: Global) -> Result<Reply, NoMemory>
        ensures { IfOk result (λ r. r ≡ self.now) }
    {
        match self {
            Reply::Refused(refusal) => Ok(Reply::Refused(*refusal)),
            Reply::Taken { moves, group, next } => Ok(Reply::Taken {
                moves: moves.clone_in(alloc)?,
                group: *group,
                next: next.clone_in(alloc)?,
            }),
        }
    }
}
