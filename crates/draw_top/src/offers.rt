//! The offer of a state and the reply to a command, from the answers of a session.

ghost use Rattle.std.specs.Prelude.{◌≡◌, IfOk, OnOk};
ghost use Rattle.draw_state.specs.Runs.{IsStepBelowLimit};
ghost use Rattle.draw_tables.specs.Positions.{HasCleanPositions};
ghost use Rattle.offer_engine.specs.Questions.{AreAnswersOf, AreWithin, asked};
ghost use Rattle.offer_engine.specs.Turns.{IsReady};

use count_core::Question;
use draw_state::{Command, Reply, State};
use offer_engine::{Encoded, Offer, OfferFault, TurnFault, offer_from, questions};
use serial_search::{Answer, Session, solve};
use std::alloc::{AllocError, Global};

/// The offer of a state of the file, whose positions are clean.
pub(crate) fn offer_at(
    alloc: Global,
    enc: &Encoded,
    session: &mut Session,
    state: &State,
) -> Result<Offer, AllocError>
    requires problem { session.old.problem ≡ enc.now.problem }
    requires file { state.now.file ≡ enc.now.file }
    requires clean { HasCleanPositions state.now.file state.now.moves }
    ensures state { IfOk result (λ o. o.state ≡ state.now) }
    ensures kept { session.new.problem ≡ session.old.problem }
{
    enc.problem();
    let wanted = questions(alloc, enc, state)?;
    let answers = solve_each(alloc, session, &wanted)?;
    match offer_from(alloc, enc, state, &answers) {
        Ok(offer) => Ok(offer),
        Err(OfferFault::NoMemory) => Err(AllocError),
        Err(OfferFault::WrongQuestion { place: _ }) => unreachable!(),
    }
}

/// The answers to the questions, in order.
fn solve_each(
    alloc: Global,
    session: &mut Session,
    wanted: &[Question],
) -> Result<Vec<Answer>, AllocError>
    requires { AreWithin session.old.problem.atoms wanted.now }
    ensures problem { IfOk result (λ v. AreAnswersOf session.old.problem v.items) }
    ensures asked { IfOk result (λ v. asked v.items ≡ wanted.now) }
    ensures kept { session.new.problem ≡ session.old.problem }
{
    let mut answers = Vec::new(alloc);
    for question in wanted {
        answers.push(solve(alloc, question, session)?)?;
    }
    Ok(answers)
}

/// The reply to a command in the state of an offer, where fewer commands were answered than are
/// answered at most, and the offer of the state after it.
pub(crate) fn reply_below_limit(
    alloc: Global,
    enc: &Encoded,
    session: &mut Session,
    before: Offer,
    command: Command,
) -> Result<(Reply, Offer), AllocError>
    requires problem { session.old.problem ≡ enc.now.problem }
    requires file { before.state.file ≡ enc.now.file }
    ensures step { IfOk result (λ r. IsStepBelowLimit before.state.file before.state.moves command
        r.1.state.moves r.0) }
    ensures same_file { IfOk result (λ r. r.1.state.file ≡ before.state.file) }
    ensures kept { session.new.problem ≡ session.old.problem }
{
    let mut turn = offer_engine::Turn::begin(alloc, before, command)?;
    give_wanted(alloc, enc, session, &mut turn)?;
    Ok(turn.finish())
}

/// Gives a turn the offers that it wants, one after another.
fn give_wanted(
    alloc: Global,
    enc: &Encoded,
    session: &mut Session,
    turn: &mut offer_engine::Turn,
) -> Result<(), AllocError>
    requires problem { session.old.problem ≡ enc.now.problem }
    requires file { turn.old.before.state.file ≡ enc.now.file }
    ensures ready { OnOk result (IsReady turn.new) }
    ensures before { turn.new.before ≡ turn.old.before }
    ensures command { turn.new.command ≡ turn.old.command }
    ensures kept { session.new.problem ≡ session.old.problem }
{
    while let Some(next) = turn.wants() {
        let offer = offer_at(alloc, enc, session, next)?;
        match turn.give(alloc, offer) {
            Ok(()) => {}
            Err(TurnFault::NoMemory) => return Err(AllocError),
            Err(TurnFault::WrongState { moves: _ }) => unreachable!(),
        }
    }
    Ok(())
}
