ghost use Rattle.std.specs.Prelude.{◌≡◌, IfOk, OnOk};
ghost use Rattle.draw_tables.specs.Positions.{HasCleanPositions};
ghost use Rattle.offer_engine.specs.Questions.{AreAnswersOf, AreOfProblem, AreWithin};

use crate::{
    Encoded, NoMemory, Offer, OfferFault, Standing, Turn, TurnFault, law_clean_where_completable,
    law_offer_exists, law_one_wanted, law_ready_or_waiting, law_tables_drawn, offer_from,
    questions,
};
use count_core::Question;
use draw_state::{Command, NextLine, Refusal, Reply, State, Word};
use draw_tables::{Choice, Move, Phase};
use rule_sets::read_file;
use samples::{ROUND_OF_16, TWO_TEAMS};
use serial_search::{Answer, Session, solve};
use std::alloc::Global;
use std::sync::Arc;
use std::test::Fail;
use team_files::{Code, TeamId};

/// The file of a head, with its problem.
fn encoded(alloc: Global, head: &str) -> Result<Encoded, NoMemory> {
    match read_file(alloc, head.as_bytes()) {
        Ok(file) => Encoded::new(alloc, file),
        Err(_) => Err(NoMemory),
    }
}

/// The state after these moves, each a candidate's.
fn state_after(alloc: Global, enc: &Encoded, moves: &[Move]) -> Result<State, NoMemory>
    ensures { IfOk result (λ s. s.file ≡ enc.now.file) }
{
    let mut state = State::start(alloc, enc.file())?;
    for next in moves {
        match state.apply(alloc, *next) {
            Ok(()) => {}
            Err(_) => return Err(NoMemory),
        }
    }
    Ok(state)
}

/// The answers to at most so many of the questions, in order.
fn solve_each(
    alloc: Global,
    session: &mut Session,
    asked: &[Question],
    most: usize,
) -> Result<Vec<Answer>, NoMemory>
    requires { AreWithin session.old.problem.atoms asked.now }
    ensures { IfOk result (λ v. AreAnswersOf session.old.problem v.items) }
{
    let mut answers = Vec::new(alloc);
    for question in asked {
        if answers.len() == most {
            break;
        }
        answers.push(solve(alloc, question, session)?)?;
    }
    Ok(answers)
}

/// A session of the file's problem.
fn session_of(alloc: Global, enc: &Encoded) -> Result<Session, NoMemory>
    ensures { IfOk result (λ s. s.problem ≡ enc.now.problem) }
{
    Session::new(alloc, Arc::try_clone(enc.problem())?)
}

/// The answers to at most so many of the questions of a state.
fn answers_to(
    alloc: Global,
    enc: &Encoded,
    state: &State,
    most: usize,
) -> Result<Vec<Answer>, NoMemory>
    requires { state.now.file ≡ enc.now.file }
    ensures { IfOk result (λ v. AreOfProblem enc.now.file v.items) }
{
    enc.problem();
    let asked = questions(alloc, enc, state)?;
    let mut session = session_of(alloc, enc)?;
    let answers = solve_each(alloc, &mut session, &asked, most)?;
    Ok(answers)
}

/// Lets a state pass in which no ball gave a position, so that its positions are clean.
fn pass_unpositioned(state: &State) -> Result<(), NoMemory>
    ensures { OnOk result (HasCleanPositions state.now.file state.now.moves) }
{
    for step in state.moves() {
        if let Move::Positioned(_, _) = step {
            return Err(NoMemory);
        }
    }
    Ok(())
}

/// What comes of a state and answers to questions of another.
fn fault_of(
    alloc: Global,
    enc: &Encoded,
    state: &State,
    other: &State,
    most: usize,
) -> Result<Option<OfferFault>, NoMemory>
    requires state { state.now.file ≡ enc.now.file }
    requires other { other.now.file ≡ enc.now.file }
{
    pass_unpositioned(state)?;
    let answers = answers_to(alloc, enc, other, most)?;
    Ok(offer_from(alloc, enc, state, &answers).err())
}

/// The offer of a state.
fn offer_at(alloc: Global, enc: &Encoded, state: &State) -> Result<Offer, NoMemory>
    requires file { state.now.file ≡ enc.now.file }
    requires clean { HasCleanPositions state.now.file state.now.moves }
    ensures { IfOk result (λ o. o.state ≡ state.now) }
{
    let answers = answers_to(alloc, enc, state, usize::MAX)?;
    match offer_from(alloc, enc, state, &answers) {
        Ok(offer) => Ok(offer),
        Err(_) => Err(NoMemory),
    }
}

fn ball(code: &[u8]) -> Command {
    match Code::read(code) {
        Some(code) => Command::Ball(Word::Team(code)),
        None => Command::Bad,
    }
}

/// The ball of a position.
fn position_ball(position: u32) -> Command {
    Command::Ball(Word::Number(position))
}

/// Gives a turn the offer that it wants, and tells the phase of its state. None where it wants none.
fn give_wanted(alloc: Global, enc: &Encoded, turn: &mut Turn) -> Option<Phase>
    requires { turn.old.before.state.file ≡ enc.now.file }
    ensures { turn.new.before.state.file ≡ enc.now.file }
{
    let next = turn.wants()?;
    let phase = next.phase();
    let offer = offer_at(alloc, enc, next).ok()?;
    turn.give(alloc, offer).ok()?;
    Some(phase)
}

/// The turn of a ball on the state after these moves, in which no ball gave a position.
fn begun(alloc: Global, enc: &Encoded, moves: &[Move], command: Command) -> Result<Turn, NoMemory>
    ensures { IfOk result (λ t. t.before.state.file ≡ enc.now.file) }
{
    let state = state_after(alloc, enc, moves)?;
    pass_unpositioned(&state)?;
    let before = offer_at(alloc, enc, &state)?;
    let turn = Turn::begin(alloc, before, command)?;
    Ok(turn)
}

/// What came of a turn: the phases of the states whose offers it wanted, in order, the reply, and
/// how many moves the state after it has.
#[derive(Drop)]
struct Ended {
    wanted: [Option<Phase>; 2],
    reply: Reply,
    number: usize,
}

/// What comes of a ball after these moves. None where the turn wants a third offer.
fn played(
    alloc: Global,
    enc: &Encoded,
    moves: &[Move],
    command: Command,
) -> Result<Option<Ended>, NoMemory> {
    let mut turn = begun(alloc, enc, moves, command)?;
    let first = give_wanted(alloc, enc, &mut turn);
    let second = give_wanted(alloc, enc, &mut turn);
    Ok(finished(turn, [first, second]))
}

/// What came of a turn that wanted these offers and wants no other.
fn finished(turn: Turn, wanted: [Option<Phase>; 2]) -> Option<Ended> {
    if turn.wants().is_some() {
        return None;
    }
    let (reply, after) = turn.finish();
    let number = after.state().moves().len();
    Some(Ended {
        wanted,
        reply,
        number,
    })
}

/// Whether a ball after these moves is refused for this cause, needs no offer, and leaves them.
fn refuses(
    alloc: Global,
    enc: &Encoded,
    moves: &[Move],
    command: Command,
    cause: Refusal,
) -> Result<bool, NoMemory> {
    let Some(ended) = played(alloc, enc, moves, command)? else {
        return Ok(false);
    };
    let refused = matches!(&ended.reply, Reply::Refused(refusal) if *refusal == cause);
    Ok(refused && ended.wanted == [None, None] && ended.number == moves.len())
}

/// What an accepted ball comes to: the phases of the states whose offers the turn wants, the moves
/// that it adds, the group that is told, and what comes next.
#[derive(Clone, Copy)]
struct Taken<'a> {
    wanted: [Option<Phase>; 2],
    added: &'a [Move],
    group: Option<u32>,
    phase: Phase,
    choices: &'a [Choice],
}

/// Whether a ball after these moves comes to this.
fn takes(
    alloc: Global,
    enc: &Encoded,
    moves: &[Move],
    command: Command,
    expected: Taken,
) -> Result<bool, NoMemory> {
    let Some(ended) = played(alloc, enc, moves, command)? else {
        return Ok(false);
    };
    let number = moves.len().saturating_add(expected.added.len());
    Ok(
        is_taken(&ended.reply, expected)
            && ended.wanted == expected.wanted
            && ended.number == number,
    )
}

/// Whether the reply to a ball is this.
fn is_taken(reply: &Reply, expected: Taken) -> bool {
    let Reply::Taken { moves, group, next } = reply else {
        return false;
    };
    moves.as_slice() == expected.added && *group == expected.group && comes_next(next, expected)
}

/// Whether this comes next.
fn comes_next(next: &NextLine, expected: Taken) -> bool {
    match next {
        NextLine::Choices { phase, choices } => {
            *phase == expected.phase && choices.as_slice() == expected.choices
        }
        NextLine::Complete => expected.phase == Phase::Complete,
        NextLine::Impossible => false,
    }
}

const RUNNER: TeamId = TeamId(1);

const WINNER: TeamId = TeamId(0);

/// A runner-up of the round of 16.
const VIL: TeamId = TeamId(13);

/// How many candidates of a state are offered and how many are not.
fn counted(alloc: Global, enc: &Encoded, state: &State) -> Result<(usize, usize), NoMemory>
    requires { state.now.file ≡ enc.now.file }
{
    pass_unpositioned(state)?;
    let offer = offer_at(alloc, enc, state)?;
    let mut offered = 0usize;
    for (_choice, standing) in offer.standings() {
        if let Standing::Offered(_) = standing {
            offered = offered.saturating_add(1);
        }
    }
    Ok((offered, offer.standings().len().saturating_sub(offered)))
}

/// In the round of 16, what the answers after a ball are for the opening, what they are with one
/// missing, and what they are after the ball.
fn faults(alloc: Global, enc: &Encoded) -> Result<[Option<OfferFault>; 3], NoMemory> {
    let opening = state_after(alloc, enc, &[])?;
    let drawn = state_after(alloc, enc, &[Move::Drawn(VIL)])?;
    let of_another = fault_of(alloc, enc, &opening, &drawn, usize::MAX);
    let one_missing = fault_of(alloc, enc, &drawn, &drawn, 7);
    let right = fault_of(alloc, enc, &drawn, &drawn, usize::MAX);
    drop(opening);
    drop(drawn);
    Ok([of_another?, one_missing?, right?])
}

/// How many candidates after these moves are offered and how many are not.
fn numbers(alloc: Global, enc: &Encoded, moves: &[Move]) -> Result<(usize, usize), NoMemory> {
    let state = state_after(alloc, enc, moves)?;
    counted(alloc, enc, &state)
}

/// In the round of 16 the questions of the opening are not those after a ball, and each answer is
/// wanted. VIL, the first ball, may meet six of the eight winners.
#[test]
fn answers_are_those_of_the_questions(rt: HostRuntime) -> Result<(), Fail> {
    let alloc = rt.alloc();
    let enc = encoded(alloc, ROUND_OF_16)?;
    let faults = faults(alloc, &enc);
    let all = numbers(alloc, &enc, &[]);
    let some = numbers(alloc, &enc, &[Move::Drawn(VIL)]);
    drop(enc);
    let [of_another, one_missing, right] = faults?;
    assert!(rt; of_another == Some(OfferFault::WrongQuestion { place: 0 }));
    assert!(rt; one_missing == Some(OfferFault::WrongQuestion { place: 7 }));
    assert!(rt; right.is_none());
    assert!(rt; all? == (8, 0));
    assert!(rt; some? == (6, 2));
    Ok(())
}

/// In the draw of two teams, what so many answers of the opening are where the draw is complete.
fn fault_at_end(alloc: Global, enc: &Encoded, most: usize) -> Result<Option<OfferFault>, NoMemory> {
    let opening = state_after(alloc, enc, &[])?;
    let end = state_after(
        alloc,
        enc,
        &[Move::Drawn(RUNNER), Move::Paired(RUNNER, WINNER)],
    )?;
    fault_of(alloc, enc, &end, &opening, most)
}

/// Where the draw of two teams is complete, no answer is wanted, and one is one too many.
#[test]
fn one_answer_is_one_too_many(rt: HostRuntime) -> Result<(), Fail> {
    let alloc = rt.alloc();
    let enc = encoded(alloc, TWO_TEAMS)?;
    let none = fault_at_end(alloc, &enc, 0);
    let one = fault_at_end(alloc, &enc, 1);
    drop(enc);
    assert!(rt; none?.is_none());
    assert!(rt; one? == Some(OfferFault::WrongQuestion { place: 0 }));
    Ok(())
}

/// What a turn that has no reply yet says of the offer of the state before it.
fn fault_of_old_offer(alloc: Global, turn: &mut Turn) -> Option<TurnFault> {
    let Ok(other) = turn.before().clone_in(alloc) else {
        return None;
    };
    if turn.wants().is_none() || turn.reply().is_some() || turn.after().is_some() {
        return None;
    }
    turn.give(alloc, other).err()
}

/// The same of the turn of the second ball of the draw of two teams.
fn old_offer(alloc: Global, enc: &Encoded) -> Result<Option<TurnFault>, NoMemory> {
    let mut turn = begun(alloc, enc, &[Move::Drawn(RUNNER)], ball(b"AAA"))?;
    let fault = fault_of_old_offer(alloc, &mut turn);
    Ok(fault)
}

/// A turn of the draw of two teams: a refused ball needs no offer and adds no move; an accepted one
/// wants the offer of the state that it leads to, and no other.
#[test]
fn a_turn_wants_the_offer_after_its_ball(rt: HostRuntime) -> Result<(), Fail> {
    law_ready_or_waiting();
    law_one_wanted();
    law_clean_where_completable();
    law_offer_exists();
    law_tables_drawn();
    let alloc = rt.alloc();
    let enc = encoded(alloc, TWO_TEAMS)?;
    let drawn = [Move::Drawn(RUNNER)];
    let opponent = Taken {
        wanted: [Some(Phase::Opponent { runner: RUNNER }), None],
        added: &drawn,
        group: None,
        phase: Phase::Opponent { runner: RUNNER },
        choices: &[Choice::Team(WINNER)],
    };
    let end = Taken {
        wanted: [Some(Phase::Complete), None],
        added: &[Move::Paired(RUNNER, WINNER)],
        group: None,
        phase: Phase::Complete,
        choices: &[],
    };
    let refused = refuses(alloc, &enc, &drawn, ball(b"BBB"), Refusal::Phase);
    let first = takes(alloc, &enc, &[], ball(b"BBB"), opponent);
    let last = takes(alloc, &enc, &drawn, ball(b"AAA"), end);
    let old = old_offer(alloc, &enc);
    drop(enc);
    assert!(rt; refused?);
    assert!(rt; first?);
    assert!(rt; last?);
    assert!(rt; old? == Some(TurnFault::WrongState { moves: 1 }));
    Ok(())
}

/// Two groups and two pots, and at most one team of a tag in a group.
const TWO_GROUPS: &str =
    r#"{"kind":"group","groups":2,"pots":2,"teams":[{"code":"AAA","pot":1,"tags":["X"]},{"code":"BBB","pot":1,"tags":["Y"]},{"code":"CCC","pot":2,"tags":["X"]},{"code":"DDD","pot":2,"tags":["Y"]}],"limits":[{"tag":"X","lo":0,"hi":1},{"tag":"Y","lo":0,"hi":1}]}"#;

/// The same where all teams have one tag, so that no table is legal.
const ONE_TAG: &str =
    r#"{"kind":"group","groups":2,"pots":2,"teams":[{"code":"AAA","pot":1,"tags":["X"]},{"code":"BBB","pot":1,"tags":["X"]},{"code":"CCC","pot":2,"tags":["X"]},{"code":"DDD","pot":2,"tags":["X"]}],"limits":[{"tag":"X","lo":0,"hi":1}]}"#;

/// The first ball where no table is legal.
fn refuses_first(alloc: Global) -> Result<bool, NoMemory> {
    let enc = encoded(alloc, ONE_TAG)?;
    let refused = refuses(alloc, &enc, &[], ball(b"AAA"), Refusal::Excluded);
    drop(enc);
    refused
}

/// In a group draw the ball of a team wants two offers: that of the state in which the team waits
/// for its group, and that of the state in which it has the first possible one. CCC may not stand
/// with AAA in group A, and takes B. The ball of its position wants one offer, and its reply tells
/// the group. Where no table is legal a team's ball is refused and adds nothing.
#[test]
fn a_teams_ball_wants_two_offers(rt: HostRuntime) -> Result<(), Fail> {
    let alloc = rt.alloc();
    let enc = encoded(alloc, TWO_GROUPS)?;
    let [aaa, bbb, ccc, ddd] = [TeamId(0), TeamId(1), TeamId(2), TeamId(3)];
    let moves = [
        Move::Drawn(aaa),
        Move::Placed(aaa, 0),
        Move::Drawn(bbb),
        Move::Placed(bbb, 1),
        Move::Drawn(ccc),
        Move::Placed(ccc, 1),
    ];
    let group = Taken {
        wanted: [
            Some(Phase::Group { team: ccc }),
            Some(Phase::Position { team: ccc }),
        ],
        added: &moves[4..],
        group: None,
        phase: Phase::Position { team: ccc },
        choices: &[Choice::Position(2)],
    };
    let position = Taken {
        wanted: [Some(Phase::Team { pot: 2 }), None],
        added: &[Move::Positioned(ccc, 2)],
        group: Some(1),
        phase: Phase::Team { pot: 2 },
        choices: &[Choice::Team(ddd)],
    };
    let placed = takes(alloc, &enc, &moves[..4], ball(b"CCC"), group);
    let positioned = takes(alloc, &enc, &moves, position_ball(2), position);
    drop(enc);
    let refused = refuses_first(alloc);
    assert!(rt; placed?);
    assert!(rt; positioned?);
    assert!(rt; refused?);
    Ok(())
}
