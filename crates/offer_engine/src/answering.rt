ghost use Rattle.std.specs.Prelude.{◌≡◌, ◌↔◌, ◌<◌, [], ◌∷◌, length, map, slice_get, Some, IfErr};
ghost use Rattle.std.specs.Prelude.{IfOk, OnOk, IsTrue, MatchOption};
ghost use Rattle.std.specs.List.{AllByRecursion as Each};
ghost use Rattle.count_core.specs.Assignments.{Satisfies, SatisfiesQuestion};
ghost use Rattle.count_core.specs.Limits.{number_limit};
ghost use Rattle.draw_tables.specs.declared.moves.Phase.{Phase as PhaseValue};
ghost use Rattle.draw_tables.specs.Lists.{IsAmong};
ghost use Rattle.draw_tables.specs.Offers.{IsCompletable};
ghost use Rattle.draw_tables.specs.Positions.{HasCleanPositions};
ghost use Rattle.draw_tables.specs.States.{candidates, phase_of};
ghost use Rattle.serial_search.specs.declared.outcome.Outcome.{Outcome as OutcomeValue};
ghost use Rattle.offer_engine.specs.Encodings.{lits_of, rules_of};
ghost use Rattle.offer_engine.specs.Faults.{IsOfferFault};
ghost use Rattle.offer_engine.specs.Offers.{ComesOf, IsCompletion, KeepsAnswers, Shows};
ghost use Rattle.offer_engine.specs.Offers.{StandAsAnswered, StandsRight};
ghost use Rattle.offer_engine.specs.Questions.{AreOfProblem, DrawsTeam, IsFirstWrong};
ghost use Rattle.offer_engine.specs.Questions.{MovesStayClean, asked, question_of, questions};

use crate::NoMemory;
use crate::asking::{questions_of, state_with};
use crate::encoded::Encoded;
use crate::faults::OfferFault;
use crate::offer::Offer;
use crate::standing::Standing;
use count_core::Question;
use draw_state::State;
use draw_tables::{Choice, Phase, Table, group_in, holder_of, law_held_positions};
use group_draw::law_values_complete;
use serial_search::{Answer, Outcome};
use std::alloc::Global;
use team_files::{Kind, TeamId};

/// The offer that the answers to a state's questions make, where the state's positions are clean.
/// `WrongQuestion` comes exactly where they are not the answers to these, one for each in order, and
/// names the first place where they are not.
pub fn offer_from(
    alloc: Global,
    enc: &Encoded,
    state: &State,
    answers: &[Answer],
) -> Result<Offer, OfferFault>
    requires file { state.now.file ≡ enc.now.file }
    requires clean { HasCleanPositions state.now.file state.now.moves }
    requires problem { AreOfProblem enc.now.file answers.now }
    ensures state { IfOk result (λ o. o.state ≡ state.now) }
    ensures kept { IfOk result (λ o. KeepsAnswers answers.now o) }
    ensures asked { OnOk result (asked answers.now ≡ questions state.now.file state.now.moves) }
    ensures fault { IfErr result (λ f. IsOfferFault state.now answers.now f) }
{
    let Ok(wanted) = questions_of(alloc, state) else {
        return Err(OfferFault::NoMemory);
    };
    if let Some(place) = first_wrong(&wanted, answers) {
        return Err(OfferFault::WrongQuestion { place });
    }
    match offer_of(alloc, state, answers) {
        Ok(offer) => Ok(offer),
        Err(_) => Err(OfferFault::NoMemory),
    }
}

/// The first place at which the answers are not those of the questions.
fn first_wrong(wanted: &[Question], answers: &[Answer]) -> Option<u32>
    requires { length wanted.now < number_limit }
    ensures { MatchOption result
        (asked answers.now ≡ wanted.now)
        (λ place. IsFirstWrong wanted.now answers.now place) }
{
    for (place, question) in wanted.iter().enumerate() {
        if !is_answered(answers, place, question) {
            return Some(place as u32);
        }
    }
    if answers.len() > wanted.len() {
        return Some(wanted.len() as u32);
    }
    None
}

/// Whether the answer at the place is there, and is of the question.
fn is_answered(answers: &[Answer], place: usize, question: &Question) -> bool
    ensures { IsTrue result ↔ (slice_get (asked answers.now) place ≡ Some question.now) }
{
    match answers.get(place) {
        Some(answer) => answer.question().equals(question),
        None => false,
    }
}

/// The offer that the answers make, which are those of the state's questions.
fn offer_of(alloc: Global, state: &State, answers: &[Answer]) -> Result<Offer, NoMemory>
    requires clean { HasCleanPositions state.now.file state.now.moves }
    requires problem { AreOfProblem state.now.file answers.now }
    requires asked { asked answers.now ≡ questions state.now.file state.now.moves }
    ensures state { IfOk result (λ o. o.state ≡ state.now) }
    ensures kept { IfOk result (λ o. KeepsAnswers answers.now o) }
{
    let standings = standings_of(alloc, state, answers)?;
    let own = state.clone_in(alloc)?;
    Ok(Offer::of(own, standings))
}

/// How the candidates stand, by the phase.
fn standings_of(
    alloc: Global,
    state: &State,
    answers: &[Answer],
) -> Result<Vec<(Choice, Standing)>, NoMemory>
    requires clean { HasCleanPositions state.now.file state.now.moves }
    requires problem { AreOfProblem state.now.file answers.now }
    requires asked { asked answers.now ≡ questions state.now.file state.now.moves }
    ensures { IfOk result (λ v. StandAsAnswered state.now answers.now v.items) }
{
    state.file();
    let choices = state.candidates(alloc)?;
    match state.phase() {
        Phase::Runner | Phase::Team { pot: _ } => standings_alike(alloc, state, &choices, answers),
        Phase::Opponent { runner: _ } | Phase::Group { team: _ } => {
            standings_apart(alloc, state, &choices, answers)
        }
        Phase::Position { team } => standings_of_positions(alloc, state, team, &choices, answers),
        Phase::Complete => Ok(Vec::new(alloc)),
    }
}

/// How the candidates stand, where one answer stands for all.
fn standings_alike(
    alloc: Global,
    state: &State,
    choices: &[Choice],
    answers: &[Answer],
) -> Result<Vec<(Choice, Standing)>, NoMemory>
    requires phase { DrawsTeam (phase_of state.now.file state.now.moves) }
    requires clean { HasCleanPositions state.now.file state.now.moves }
    requires choices { choices.now ≡ candidates state.now.file state.now.moves }
    requires problem { AreOfProblem state.now.file answers.now }
    requires asked { asked answers.now ≡ lits_of state.now.file state.now.moves ∷ [] }
    ensures { IfOk result (λ v. StandAsAnswered state.now answers.now v.items) }
{
    let common = standing_of(alloc, state, &answers[0])?;
    let standings = stand_all(alloc, choices, &common)?;
    Ok(standings)
}

/// How positions stand, where one answer stands for all: if the moves cannot be completed, each is
/// excluded; else each by who holds it.
fn standings_of_positions(
    alloc: Global,
    state: &State,
    team: TeamId,
    choices: &[Choice],
    answers: &[Answer],
) -> Result<Vec<(Choice, Standing)>, NoMemory>
    requires phase { phase_of state.now.file state.now.moves ≡ PhaseValue.Position team }
    requires clean { HasCleanPositions state.now.file state.now.moves }
    requires choices { choices.now ≡ candidates state.now.file state.now.moves }
    requires problem { AreOfProblem state.now.file answers.now }
    requires asked { asked answers.now ≡ lits_of state.now.file state.now.moves ∷ [] }
    ensures { IfOk result (λ v. StandAsAnswered state.now answers.now v.items) }
{
    state.file().kind();
    law_values_complete();
    match answers[0].outcome() {
        Outcome::Possible { values } => {
            let standings = stand_positions(alloc, state, team, choices, values.as_slice())?;
            Ok(standings)
        }
        Outcome::Impossible { closed } => {
            let common = Standing::Excluded(closed.clone_in(alloc)?);
            let standings = stand_all(alloc, choices, &common)?;
            Ok(standings)
        }
    }
}

/// How each position stands, where the values complete the moves.
fn stand_positions(
    alloc: Global,
    state: &State,
    team: TeamId,
    choices: &[Choice],
    values: &[bool],
) -> Result<Vec<(Choice, Standing)>, NoMemory>
    requires phase { phase_of state.now.file state.now.moves ≡ PhaseValue.Position team }
    requires clean { HasCleanPositions state.now.file state.now.moves }
    requires choices { choices.now ≡ candidates state.now.file state.now.moves }
    requires completable { IsCompletable state.now.file state.now.moves }
    requires rules { Satisfies values.now (rules_of state.now.file) }
    requires moves { SatisfiesQuestion values.now (lits_of state.now.file state.now.moves) }
    ensures choices { IfOk result (λ v. map (λ s. s.0) v.items ≡ choices.now) }
    ensures right { IfOk result (λ v. Each (StandsRight state.now.file state.now.moves) v.items) }
    ensures comes { IfOk result (λ v.
        Each (λ s. ComesOf s.1 (OutcomeValue.Possible values.now)) v.items) }
{
    let mut standings = Vec::new(alloc);
    for choice in choices {
        let standing = standing_of_position(alloc, state, team, *choice, values)?;
        standings.push((*choice, standing))?;
    }
    Ok(standings)
}

/// How a position stands, where the values complete the moves: it is held, or offered with the
/// table in which the team has it.
fn standing_of_position(
    alloc: Global,
    state: &State,
    team: TeamId,
    choice: Choice,
    values: &[bool],
) -> Result<Standing, NoMemory>
    requires phase { phase_of state.now.file state.now.moves ≡ PhaseValue.Position team }
    requires candidate { IsAmong (candidates state.now.file state.now.moves) choice }
    requires clean { HasCleanPositions state.now.file state.now.moves }
    requires completable { IsCompletable state.now.file state.now.moves }
    requires rules { Satisfies values.now (rules_of state.now.file) }
    requires moves { SatisfiesQuestion values.now (lits_of state.now.file state.now.moves) }
    ensures right { IfOk result (λ s. StandsRight state.now.file state.now.moves (choice, s)) }
    ensures comes { IfOk result (λ s. ComesOf s (OutcomeValue.Possible values.now)) }
{
    let Choice::Position(position) = choice else {
        unreachable!()
    };
    let Some(group) = group_in(state.moves(), team) else {
        unreachable!()
    };
    law_held_positions();
    if let Some(holder) = holder_of(state.file(), state.moves(), team, group, position) {
        return Ok(Standing::Held(holder));
    }
    let later = state_with(alloc, state, choice)?;
    let table = table_of(alloc, &later, values)?;
    Ok(Standing::Offered(table))
}

/// All choices, each with this standing.
fn stand_all(
    alloc: Global,
    choices: &[Choice],
    common: &Standing,
) -> Result<Vec<(Choice, Standing)>, NoMemory>
    ensures { IfOk result (λ v. v.items ≡ map (λ c. (c, common.now)) choices.now) }
{
    let mut standings = Vec::new(alloc);
    for choice in choices {
        standings.push((*choice, common.clone_in(alloc)?))?;
    }
    Ok(standings)
}

/// How the candidates stand, where each has its own answer.
fn standings_apart(
    alloc: Global,
    state: &State,
    choices: &[Choice],
    answers: &[Answer],
) -> Result<Vec<(Choice, Standing)>, NoMemory>
    requires clean { HasCleanPositions state.now.file state.now.moves }
    requires stays { MovesStayClean state.now.file state.now.moves }
    requires choices { choices.now ≡ candidates state.now.file state.now.moves }
    requires problem { AreOfProblem state.now.file answers.now }
    requires asked { asked answers.now
        ≡ map (question_of state.now.file state.now.moves) choices.now }
    ensures { IfOk result (λ v. StandAsAnswered state.now answers.now v.items) }
{
    let mut standings = Vec::new(alloc);
    for (place, choice) in choices.iter().enumerate() {
        let standing = standing_with(alloc, state, *choice, &answers[place])?;
        standings.push((*choice, standing))?;
    }
    Ok(standings)
}

/// How a candidate stands by the answer to its question.
fn standing_with(
    alloc: Global,
    state: &State,
    choice: Choice,
    answer: &Answer,
) -> Result<Standing, NoMemory>
    requires stays { MovesStayClean state.now.file state.now.moves }
    requires candidate { IsAmong (candidates state.now.file state.now.moves) choice }
    requires problem { answer.now.problem ≡ rules_of state.now.file }
    requires question { answer.now.question
        ≡ question_of state.now.file state.now.moves choice }
    ensures right { IfOk result (λ s. StandsRight state.now.file state.now.moves (choice, s)) }
    ensures comes { IfOk result (λ s. ComesOf s answer.now.outcome) }
{
    let later = state_with(alloc, state, choice)?;
    let standing = standing_of(alloc, &later, answer)?;
    Ok(standing)
}

/// What the answer to the literals of a state's moves shows of them.
fn standing_of(alloc: Global, state: &State, answer: &Answer) -> Result<Standing, NoMemory>
    requires clean { HasCleanPositions state.now.file state.now.moves }
    requires problem { answer.now.problem ≡ rules_of state.now.file }
    requires question { answer.now.question ≡ lits_of state.now.file state.now.moves }
    ensures shows { IfOk result (λ s. Shows state.now.file state.now.moves s) }
    ensures comes { IfOk result (λ s. ComesOf s answer.now.outcome) }
{
    match answer.outcome() {
        Outcome::Possible { values } => {
            Ok(Standing::Offered(table_of(alloc, state, values.as_slice())?))
        }
        Outcome::Impossible { closed } => Ok(Standing::Excluded(closed.clone_in(alloc)?)),
    }
}

/// The table of values that satisfy the rules and the literals of a state's moves, by the kind of
/// the draw.
fn table_of(alloc: Global, state: &State, values: &[bool]) -> Result<Table, NoMemory>
    requires clean { HasCleanPositions state.now.file state.now.moves }
    requires rules { Satisfies values.now (rules_of state.now.file) }
    requires moves { SatisfiesQuestion values.now (lits_of state.now.file state.now.moves) }
    ensures { IfOk result (λ table. IsCompletion state.now.file state.now.moves table) }
{
    let file = state.file();
    match file.kind() {
        Kind::Group => group_draw::decode(alloc, file, state.moves(), values),
        Kind::Pairing => pairing_draw::decode(alloc, file, state.moves(), values),
    }
}
