ghost use Rattle.std.specs.Prelude.{◌≡◌, ◌<◌, ◌↔◌, List, length, IfErr, IfOk, IfSome, IsNone};
ghost use Rattle.std.specs.Prelude.{IsSome, MatchOption, OnErr, OnOk};
ghost use Rattle.draw_tables.specs.declared.moves.Move.{Move as MoveValue};
ghost use Rattle.draw_tables.specs.Lists.{IsAmong};
ghost use Rattle.draw_tables.specs.Positions.{HasCleanPositions};
ghost use Rattle.draw_tables.specs.States.{candidates};
ghost use Rattle.draw_state.specs.declared.commands.Action.{Action as ActionValue};
ghost use Rattle.draw_state.specs.Runs.{group_told};
ghost use Rattle.draw_state.specs.State.{State as StateValue};
ghost use Rattle.offer_engine.specs.Courses.{IsUngiven, PlacesTeam, TakesBall, TakesGroup};
ghost use Rattle.offer_engine.specs.Courses.{TellsTaken, WaitsFor};
ghost use Rattle.offer_engine.specs.Faults.{IsTurnFault};
ghost use Rattle.offer_engine.specs.Offers.{Offer as OfferValue};
ghost use Rattle.offer_engine.specs.Turns.{IsBegun, IsGroupOffer, IsReady, Replies, Wants};
ghost use Rattle.offer_engine.specs.Turns.{after_of, state_with as with_moves, with_offer};

use crate::NoMemory;
use crate::asking::state_with;
use crate::course::Course;
use crate::faults::TurnFault;
use crate::laws::{
    law_clean_where_completable, law_offer_exists, law_one_wanted, law_ready_or_waiting,
};
use crate::offer::Offer;
use draw_state::{
    Action, Command, Moves, Reply, State, judge_command, law_offered_is_accepted,
    law_steps_below_limit,
};
use draw_tables::{Choice, Move, Phase, group_in, law_offered_where_possible};
use rule_sets::law_files_have_form;
use std::alloc::Global;
use std::marker::Model;

/// One command on a state, right by its type. It wants the offer of each state that the command
/// leads through, one after another: after a team's ball of a group draw that of the state in phase
/// Group, and then that of the state in which the team has its group; after another ball one; where
/// the command is refused none. Then it has the reply. Contracts see a record of `before`, `command`
/// and `given`, the offers that were given.
#[derive(Drop)]
pub struct Turn {
    before: Offer,
    command: Command,
    group: Option<Offer>,
    course: Course,
}

impl Model for Turn {
    ghost use Rattle.offer_engine.specs.Courses as courses;
    ghost use Rattle.offer_engine.specs.Turns as spec;

    ghost Value = { spec.Turn };

    ghost view = { λ t. record {
      before = t.before;
      command = t.command;
      given = courses.given_with t.group t.course;
    } };

    ghost invariant = { λ t. courses.IsCourse t.before.state t.command t.group t.course };
}

impl Turn {
    /// The turn of a command on a state.
    pub fn begin(alloc: Global, before: Offer, command: Command) -> Result<Turn, NoMemory>
        ensures { IfOk result (λ t. IsBegun before command t) }
    {
        let course = course_of(alloc, &before, &command)?;
        Ok(Turn {
            before,
            command,
            group: None,
            course,
        })
    }

    /// The offer of the state before.
    pub fn before(&self) -> &Offer
        ensures { result.now ≡ self.now.before }
    {
        &self.before
    }

    /// The command.
    pub fn command(&self) -> Command
        ensures { result ≡ self.now.command }
    {
        self.command
    }

    /// The state of the first needed offer that was not given. `None` exactly where all were.
    pub fn wants(&self) -> Option<&State>
        ensures wanted { IfSome result (λ next. Wants self.now next.now) }
        ensures file { IfSome result (λ next. next.now.file ≡ self.now.before.state.file) }
        ensures clean { IfSome result (λ next. HasCleanPositions next.now.file next.now.moves) }
        ensures few { IfSome result (λ _. length self.now.given < 2) }
        ensures ready { IsNone result ↔ IsReady self.now }
    {
        law_ready_or_waiting();
        match &self.course {
            Course::Refused { reply: _ } => None,
            Course::Waiting { next, added: _ } => Some(next),
            Course::Taken { reply: _, after: _ } => None,
        }
    }

    /// Gives the wanted offer. `WrongState` comes exactly where it is of another state, with the
    /// number of its moves; after an error the turn is as before.
    pub fn give(&mut self, alloc: Global, offer: Offer) -> Result<(), TurnFault>
        requires wants { (next : StateValue) × Wants self.old next }
        ensures given { OnOk result (self.new ≡ with_offer self.old offer) }
        ensures wanted { OnOk result (Wants self.old offer.state) }
        ensures fault { IfErr result (λ f. IsTurnFault self.old offer f) }
        ensures kept { OnErr result (self.new ≡ self.old) }
    {
        law_clean_where_completable();
        law_one_wanted();
        law_ready_or_waiting();
        let Course::Waiting { next, added } = &self.course else {
            unreachable!()
        };
        if !next.equals(offer.state()) {
            let moves = number_of_moves(offer.state());
            return Err(TurnFault::WrongState { moves });
        }
        if let Phase::Group { team: _ } = next.phase() {
            let Ok(course) = placing(alloc, self.before.state(), &offer) else {
                return Err(TurnFault::NoMemory);
            };
            self.group = Some(offer);
            self.course = course;
            return Ok(());
        }
        let Ok(reply) = reply_of(alloc, added, &offer) else {
            return Err(TurnFault::NoMemory);
        };
        self.course = Course::Taken {
            reply,
            after: offer,
        };
        Ok(())
    }

    /// The offer of the state in phase Group. `Some` exactly where the command is an accepted team's
    /// ball of a group draw and that offer was given.
    pub fn group(&self) -> Option<&Offer>
        ensures { MatchOption result
            ((offer : OfferValue) → ¬ IsGroupOffer self.now offer)
            (λ offer. IsGroupOffer self.now offer.now) }
    {
        match &self.group {
            Some(offer) => Some(offer),
            None => None,
        }
    }

    /// The reply, that of one command, which leads to the state of `after`. `Some` exactly where
    /// all needed offers were given.
    pub fn reply(&self) -> Option<&Reply>
        ensures reply { IfSome result (λ r. Replies self.now r.now) }
        ensures ready { IsSome result ↔ IsReady self.now }
    {
        law_ready_or_waiting();
        match &self.course {
            Course::Refused { reply } => Some(reply),
            Course::Waiting { next: _, added: _ } => None,
            Course::Taken { reply, after: _ } => Some(reply),
        }
    }

    /// The offer after the command: that of before where nothing changed. `Some` exactly where all
    /// needed offers were given.
    pub fn after(&self) -> Option<&Offer>
        ensures after { IfSome result (λ offer. offer.now ≡ after_of self.now) }
        ensures ready { IsSome result ↔ IsReady self.now }
    {
        law_ready_or_waiting();
        match &self.course {
            Course::Refused { reply: _ } => Some(&self.before),
            Course::Waiting { next: _, added: _ } => None,
            Course::Taken { reply: _, after } => Some(after),
        }
    }

    /// The reply, and the offer after the command.
    pub fn finish(self) -> (Reply, Offer)
        requires { IsReady self }
        ensures reply { Replies self result.0 }
        ensures after { result.1 ≡ after_of self }
        ensures file { result.1.state.file ≡ self.before.state.file }
    {
        law_ready_or_waiting();
        let Turn {
            before,
            command: _,
            group: _,
            course,
        } = self;
        match course {
            Course::Refused { reply } => (reply, before),
            Course::Waiting { next: _, added: _ } => unreachable!(),
            Course::Taken { reply, after } => (reply, after),
        }
    }
}

/// What a command comes to: the refusal, or that the offer of the state with its ball is waited for.
fn course_of(alloc: Global, before: &Offer, command: &Command) -> Result<Course, NoMemory>
    ensures { IfOk result (λ course. IsUngiven before.now.state command.now course) }
{
    law_offered_is_accepted();
    law_steps_below_limit();
    law_offered_where_possible();
    law_clean_where_completable();
    law_offer_exists();
    before.state().file().kind();
    let offered = before.offered(alloc)?;
    match judge_command(before.state(), &offered, 0, *command) {
        Ok(action) => {
            let course = taking(alloc, before.state(), ball_of(action))?;
            Ok(course)
        }
        Err(refusal) => Ok(Course::Refused {
            reply: Reply::Refused(refusal),
        }),
    }
}

/// The choice of the ball that an action is.
fn ball_of(action: Action) -> Choice
    ensures { action ≡ ActionValue.Ball result }
{
    match action {
        Action::Ball(choice) => choice,
    }
}

/// The course of an accepted ball, which waits for the offer of the state with its move.
fn taking(alloc: Global, state: &State, choice: Choice) -> Result<Course, NoMemory>
    requires { IsAmong (candidates state.now.file state.now.moves) choice }
    ensures { IfOk result (λ course. TakesBall state.now choice course) }
{
    let next = state_with(alloc, state, choice)?;
    let course = waiting_for(alloc, state, next)?;
    Ok(course)
}

/// The course after the offer in phase Group, which waits for that of the state in which the team has
/// the first possible group.
fn placing(alloc: Global, before: &State, offer: &Offer) -> Result<Course, NoMemory>
    requires some { (next : StateValue) × TakesGroup offer.now.state next }
    requires after { (added : List MoveValue) × (offer.now.state ≡ with_moves before.now added) }
    ensures { IfOk result (λ course. PlacesTeam before.now offer.now.state course) }
{
    law_offered_where_possible();
    let offered = offer.offered(alloc)?;
    let next = state_with(alloc, offer.state(), offered[0])?;
    let course = waiting_for(alloc, before, next)?;
    Ok(course)
}

/// The course that waits for the offer of a state, with the moves that lead to it from another.
fn waiting_for(alloc: Global, before: &State, next: State) -> Result<Course, NoMemory>
    requires { (added : List MoveValue) × (next ≡ with_moves before.now added) }
    ensures { IfOk result (λ course. WaitsFor before.now next course) }
{
    let added = Vec::from_slice(alloc, &next.moves()[before.moves().len()..])?;
    Ok(Course::Waiting {
        next,
        added: Moves::new(added),
    })
}

/// How many moves the state has.
fn number_of_moves(state: &State) -> u32
    ensures { result ≡ length state.now.moves }
{
    state.file().kind();
    law_files_have_form();
    state.moves().len() as u32
}

/// The reply to an accepted ball that added the moves, with the offer of the state after it.
fn reply_of(alloc: Global, added: &Moves, offer: &Offer) -> Result<Reply, NoMemory>
    ensures { IfOk result (λ r. TellsTaken added.now offer.now r) }
{
    let moves = added.clone_in(alloc)?;
    let next = offer.next(alloc)?;
    let group = group_told(offer.state().moves(), added.as_slice());
    Ok(Reply::Taken { moves, group, next })
}

/// The group that a reply tells: that of the team whose position the first of the added moves gives.
fn group_told(moves: &[Move], added: &[Move]) -> Option<u32>
    ensures { result ≡ group_told moves.now added.now }
{
    match added.first() {
        Some(Move::Positioned(team, _)) => group_in(moves, *team),
        _ => None,
    }
}
