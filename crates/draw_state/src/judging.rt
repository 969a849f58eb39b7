ghost use Rattle.std.specs.Prelude.{◌≡◌, ◌↔◌, IfOk, IfErr, IsTrue};
ghost use Rattle.draw_tables.specs.Offers.{IsOffer};
ghost use Rattle.draw_tables.specs.Lists.{IsAmong};
ghost use Rattle.draw_state.specs.Commands.{choice_of, choice_of_number};
ghost use Rattle.draw_state.specs.Runs.{IsNextLine};
ghost use Rattle.draw_state.specs.State.{Accepts, RefusesFor};

use crate::commands::{Action, Command, Word};
use crate::lists::Choices;
use crate::replies::{NextLine, Refusal};
use crate::state::State;
use draw_tables::{Choice, Phase, is_candidate};
use rule_sets::DrawFile;
use team_files::Kind;

/// How many commands are answered; each later one is refused.
pub const MOST_COMMANDS: u64 = 4096;

/// What is said of a command in a state whose offer is `offered`, where so many commands were
/// `answered` before: what it does, exactly where nothing refuses it, or the first cause that does.
pub fn judge_command(
    state: &State,
    offered: &[Choice],
    answered: u64,
    command: Command,
) -> Result<Action, Refusal>
    requires { IsOffer state.now.file state.now.moves offered.now }
    ensures accepted { IfOk result (λ action. Accepts state.now answered command action) }
    ensures refused { IfErr result (λ refusal. RefusesFor state.now answered command refusal) }
{
    if answered >= MOST_COMMANDS {
        return Err(Refusal::Limit);
    }
    let Command::Ball(word) = command else {
        return Err(Refusal::Form);
    };
    let Some(choice) = choice_of(state.file(), word) else {
        return Err(Refusal::Unknown);
    };
    if state.phase() == Phase::Complete {
        return Err(Refusal::Complete);
    }
    if !is_candidate(state.file(), state.moves(), choice) {
        return Err(Refusal::Phase);
    }
    if !has_choice(offered, choice) {
        return Err(Refusal::Excluded);
    }
    Ok(Action::Ball(choice))
}

/// The choice that a ball's word names, where it names one.
fn choice_of(file: &DrawFile, word: Word) -> Option<Choice>
    ensures { result ≡ choice_of file.now word }
{
    match word {
        Word::Team(code) => file.teams().find(code).map(Choice::Team),
        Word::Number(number) => choice_of_number(file, number),
    }
}

/// The choice that a number names: a position in a group draw, none in a pairing.
fn choice_of_number(file: &DrawFile, number: u32) -> Option<Choice>
    ensures { result ≡ choice_of_number file.now.kind file.now number }
{
    match file.kind() {
        Kind::Group => position_of_number(file, number),
        Kind::Pairing => None,
    }
}

/// The position that a number names, where the file has it: they count from 1.
fn position_of_number(file: &DrawFile, number: u32) -> Option<Choice>
    ensures { result ≡ choice_of_number Kind.Group file.now number }
{
    if 1 <= number && number <= file.pots() {
        Some(Choice::Position(number))
    } else {
        None
    }
}

/// Whether the choice stands in the list.
fn has_choice(choices: &[Choice], choice: Choice) -> bool
    ensures { IsTrue result ↔ IsAmong choices.now choice }
{
    choices.iter().any(|other| *other == choice)
}

/// What comes next in a state whose offer this is.
pub fn next_line(state: &State, offered: Choices) -> NextLine
    requires { IsOffer state.now.file state.now.moves offered }
    ensures { IsNextLine state.now.file state.now.moves result }
{
    let phase = state.phase();
    if phase == Phase::Complete {
        NextLine::Complete
    } else if offered.as_slice().is_empty() {
        NextLine::Impossible
    } else {
        NextLine::Choices {
            phase,
            choices: offered,
        }
    }
}
