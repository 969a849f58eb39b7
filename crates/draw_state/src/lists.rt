ghost use Rattle.std.specs.Prelude.{◌≡◌, IfOk};

use crate::NoMemory;
use draw_tables::{Choice, Move};
use std::alloc::Global;
use std::marker::Model;

/// Moves in order. Contracts see their list.
#[derive(Drop)]
pub struct Moves {
    moves: Vec<Move>,
}

impl Model for Moves {
    ghost use Rattle.std.specs.Prelude.{List};
    ghost use Rattle.draw_tables.specs.declared.moves.Move.{Move};

    ghost Value = { List Move };

    ghost view = { λ m. m.moves.items };
}

impl Moves {
    /// The moves of a vector.
    pub fn new(moves: Vec<Move>) -> Moves
        ensures { result ≡ moves.items }
    {
        Moves { moves }
    }

    /// The moves in order.
    pub fn as_slice(&self) -> &[Move]
        ensures { result.now ≡ self.now }
    {
        self.moves.as_slice()
    }

    /// An equal list.
    pub fn clone_in(&self, alloc: Global) -> Result<Moves, NoMemory>
        ensures { IfOk result (λ m. m ≡ self.now) }
    {
        Ok(Moves {
            moves: Vec::from_slice(alloc, self.moves.as_slice())?,
        })
    }
}

/// Choices in order. Contracts see their list.
#[derive(Drop)]
pub struct Choices {
    choices: Vec<Choice>,
}

impl Model for Choices {
    ghost use Rattle.std.specs.Prelude.{List};
    ghost use Rattle.draw_tables.specs.declared.moves.Choice.{Choice};

    ghost Value = { List Choice };

    ghost view = { λ c. c.choices.items };
}

impl Choices {
    /// The choices of a vector.
    pub fn new(choices: Vec<Choice>) -> Choices
        ensures { result ≡ choices.items }
    {
        Choices { choices }
    }

    /// The choices in order.
    pub fn as_slice(&self) -> &[Choice]
        ensures { result.now ≡ self.now }
    {
        self.choices.as_slice()
    }

    /// An equal list.
    pub fn clone_in(&self, alloc: Global) -> Result<Choices, NoMemory>
        ensures { IfOk result (λ c. c ≡ self.now) }
    {
        Ok(Choices {
            choices: Vec::from_slice(alloc, self.choices.as_slice())?,
        })
    }
}
