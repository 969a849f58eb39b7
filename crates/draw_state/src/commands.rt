use draw_tables::Choice;
use team_files::Code;

/// What a ball says: a team's code or a number.
#[derive(Clone, Copy, Debug, PartialEq, Eq)]
pub enum Word {
    Team(Code),
    Number(u32),
}

/// What a line asks for. A line that is no command is `Bad`.
#[derive(Clone, Copy, Debug, PartialEq, Eq)]
pub enum Command {
    Ball(Word),
    Bad,
}

/// What an accepted command does.
#[derive(Clone, Copy, Debug, PartialEq, Eq)]
pub enum Action {
    /// A ball that names this choice adds its moves.
    Ball(Choice),
}
