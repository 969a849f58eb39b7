ghost use Rattle.std.specs.Prelude.{◌≡◌, ◌<◌, true, false, length, [], ◌∷◌, map, IfOk};
ghost use Rattle.count_core.specs.Limits.{number_limit};
ghost use Rattle.count_core.specs.Problems.{are_within, repeats};
ghost use Rattle.draw_tables.specs.Lists.{IsAmong};
ghost use Rattle.draw_tables.specs.States.{candidates};
ghost use Rattle.offer_engine.specs.Encodings.{lits_of, rules_of};
ghost use Rattle.offer_engine.specs.Questions.{AddsMoveOf, AreWithin, question_of, questions};

use crate::NoMemory;
use crate::encoded::Encoded;
use count_core::{Lit, Lits, Question};
use draw_state::{State, StateFault};
use draw_tables::{Choice, Phase};
use rule_sets::law_files_have_form;
use std::alloc::Global;
use team_files::Kind;

/// The questions of a state, in order: one of each candidate, the literals of the moves with its
/// own; in the phases Runner, Team and Position one for all, that of the moves alone, since a drawn
/// ball and a position have no literal; none in the phase Complete.
pub fn questions(alloc: Global, enc: &Encoded, state: &State) -> Result<Vec<Question>, NoMemory>
    requires { state.now.file ≡ enc.now.file }
    ensures questions { IfOk result (λ v. v.items ≡ questions state.now.file state.now.moves) }
    ensures within { IfOk result (λ v. AreWithin enc.now.problem.atoms v.items) }
{
    enc.problem();
    let asked = questions_of(alloc, state)?;
    Ok(asked)
}

/// The questions of a state, few enough for a `u32` to number them.
pub(crate) fn questions_of(alloc: Global, state: &State) -> Result<Vec<Question>, NoMemory>
    ensures questions { IfOk result (λ v. v.items ≡ questions state.now.file state.now.moves) }
    ensures within { IfOk result (λ v. AreWithin (rules_of state.now.file).atoms v.items) }
    ensures few { IfOk result (λ v. length v.items < number_limit) }
{
    match state.phase() {
        Phase::Runner | Phase::Team { pot: _ } | Phase::Position { team: _ } => {
            question_alone(alloc, state)
        }
        Phase::Opponent { runner: _ } | Phase::Group { team: _ } => {
            questions_of_candidates(alloc, state)
        }
        Phase::Complete => Ok(Vec::new(alloc)),
    }
}

/// The question of the moves, alone.
fn question_alone(alloc: Global, state: &State) -> Result<Vec<Question>, NoMemory>
    ensures questions { IfOk result (λ v. v.items ≡ lits_of state.now.file state.now.moves ∷ []) }
    ensures within { IfOk result (λ v. AreWithin (rules_of state.now.file).atoms v.items) }
{
    let mut asked = Vec::new(alloc);
    asked.push(question_of(alloc, state)?)?;
    Ok(asked)
}

/// The questions of the candidates, in order.
fn questions_of_candidates(alloc: Global, state: &State) -> Result<Vec<Question>, NoMemory>
    ensures questions { IfOk result (λ v. v.items
        ≡ map (question_of state.now.file state.now.moves)
        (candidates state.now.file state.now.moves)) }
    ensures within { IfOk result (λ v. AreWithin (rules_of state.now.file).atoms v.items) }
    ensures few { IfOk result (λ v. length v.items < number_limit) }
{
    state.file().kind();
    law_files_have_form();
    let choices = state.candidates(alloc)?;
    let asked = questions_of_choices(alloc, state, &choices)?;
    Ok(asked)
}

/// The questions of choices, each of which is a candidate, in order.
fn questions_of_choices(
    alloc: Global,
    state: &State,
    choices: &[Choice],
) -> Result<Vec<Question>, NoMemory>
    requires { choices.now ≡ candidates state.now.file state.now.moves }
    ensures questions { IfOk result (λ v.
        v.items ≡ map (question_of state.now.file state.now.moves) choices.now) }
    ensures within { IfOk result (λ v. AreWithin (rules_of state.now.file).atoms v.items) }
{
    let mut asked = Vec::new(alloc);
    for choice in choices {
        let later = state_with(alloc, state, *choice)?;
        asked.push(question_of(alloc, &later)?)?;
    }
    Ok(asked)
}

/// The state with a candidate's move added.
pub(crate) fn state_with(alloc: Global, state: &State, choice: Choice) -> Result<State, NoMemory>
    requires { IsAmong (candidates state.now.file state.now.moves) choice }
    ensures { IfOk result (λ s. AddsMoveOf state.now choice s) }
{
    let Some(added) = state.move_of(choice) else {
        unreachable!()
    };
    let mut later = state.clone_in(alloc)?;
    match later.apply(alloc, added) {
        Ok(()) => Ok(later),
        Err(StateFault::NoMemory) => Err(NoMemory),
        Err(StateFault::WrongPhase) => unreachable!(),
    }
}

/// The question that the moves of a state are: their literals.
pub(crate) fn question_of(alloc: Global, state: &State) -> Result<Question, NoMemory>
    ensures question { IfOk result (λ q. q ≡ lits_of state.now.file state.now.moves) }
    ensures within { IfOk result (λ q. are_within (rules_of state.now.file).atoms q ≡ true) }
{
    let lits = lits_of(alloc, state)?;
    Ok(Question::new(Lits::new(lits)))
}

/// The literals of the moves of a state, by the kind of the draw.
fn lits_of(alloc: Global, state: &State) -> Result<Vec<Lit>, NoMemory>
    ensures literals { IfOk result (λ v. v.items ≡ lits_of state.now.file state.now.moves) }
    ensures within { IfOk result (λ v.
        are_within (rules_of state.now.file).atoms v.items ≡ true) }
    ensures distinct { IfOk result (λ v. repeats v.items ≡ false) }
{
    let file = state.file();
    match file.kind() {
        Kind::Group => group_draw::lits_of(alloc, file, state.moves()),
        Kind::Pairing => pairing_draw::lits_of(alloc, file, state.moves()),
    }
}
