//! States forward and back, and copies of states and of replies.

use crate::files::file_of;
use draw_state::{Choices, Moves, NextLine, Refusal, Reply, State, StateFault};
use draw_tables::{Choice, Move, Phase};
use samples::TWO_TEAMS;
use std::alloc::{AllocError, Global};
use std::test::Fail;
use team_files::TeamId;

const WINNER: TeamId = TeamId(0);

const RUNNER: TeamId = TeamId(1);

/// What is seen of a state, or done to it.
#[derive(Clone, Copy)]
enum Act {
    IsIn(Phase),
    /// The phase has just this candidate, which adds the move.
    HasCandidate(Choice, Move),
    /// The choice is no candidate.
    LacksCandidate(Choice),
    Adds(Move),
    Refuses(Move),
    TakesOff(Option<Move>),
    HasMoves(&'static [Move]),
}

/// Whether the state has just this candidate, whose move is `next`.
fn has_candidate(
    alloc: Global,
    state: &State,
    choice: Choice,
    next: Move,
) -> Result<bool, AllocError> {
    let candidates = state.candidates(alloc)?;
    Ok(candidates.as_slice() == [choice].as_slice() && state.move_of(choice) == Some(next))
}

/// Whether the act goes so in the state.
fn goes(alloc: Global, state: &mut State, act: Act) -> Result<bool, AllocError> {
    match act {
        Act::IsIn(phase) => Ok(state.phase() == phase),
        Act::HasCandidate(choice, next) => has_candidate(alloc, state, choice, next),
        Act::LacksCandidate(choice) => Ok(state.move_of(choice).is_none()),
        Act::Adds(next) => Ok(state.apply(alloc, next).is_ok()),
        Act::Refuses(next) => Ok(state.apply(alloc, next) == Err(StateFault::WrongPhase)),
        Act::TakesOff(last) => Ok(state.undo() == last),
        Act::HasMoves(moves) => Ok(state.moves() == moves),
    }
}

/// The place of the first act that does not go so, each after the other.
fn first_wrong(
    alloc: Global,
    state: &mut State,
    acts: &[Act],
) -> Result<Option<usize>, AllocError> {
    for (place, act) in acts.iter().enumerate() {
        if !goes(alloc, state, *act)? {
            return Ok(Some(place));
        }
    }
    Ok(None)
}

/// The first state of the draw of a head.
pub(crate) fn start(alloc: Global, head: &str) -> Result<State, Fail> {
    let file = file_of(alloc, head)?;
    let state = State::start(alloc, &file);
    drop(file);
    Ok(state?)
}

/// The draw of two teams, forward and back.
const TWO_TEAMS_ACTS: [Act; 20] = [
    Act::IsIn(Phase::Runner),
    Act::HasCandidate(Choice::Team(RUNNER), Move::Drawn(RUNNER)),
    Act::LacksCandidate(Choice::Team(WINNER)),
    Act::Refuses(Move::Drawn(WINNER)),
    Act::Refuses(Move::Paired(RUNNER, WINNER)),
    Act::TakesOff(None),
    Act::Adds(Move::Drawn(RUNNER)),
    Act::IsIn(Phase::Opponent { runner: RUNNER }),
    Act::HasCandidate(Choice::Team(WINNER), Move::Paired(RUNNER, WINNER)),
    Act::LacksCandidate(Choice::Team(RUNNER)),
    Act::Refuses(Move::Drawn(RUNNER)),
    Act::Adds(Move::Paired(RUNNER, WINNER)),
    Act::IsIn(Phase::Complete),
    Act::Refuses(Move::Drawn(RUNNER)),
    Act::HasMoves(&[Move::Drawn(RUNNER), Move::Paired(RUNNER, WINNER)]),
    Act::TakesOff(Some(Move::Paired(RUNNER, WINNER))),
    Act::HasMoves(&[Move::Drawn(RUNNER)]),
    Act::TakesOff(Some(Move::Drawn(RUNNER))),
    Act::HasMoves(&[]),
    Act::TakesOff(None),
];

/// One group of two pots, and of each pot one team.
const ONE_GROUP: &str =
    r#"{"kind":"group","groups":1,"pots":2,"teams":[{"code":"AAA","pot":1,"tags":["X"]},{"code":"BBB","pot":2,"tags":["X"]}],"limits":[{"tag":"X","lo":0,"hi":2}]}"#;

const FIRST: TeamId = TeamId(0);

const SECOND: TeamId = TeamId(1);

/// The draw of one group. A team's ball is taken off with its group, and has no move of its own.
const ONE_GROUP_ACTS: [Act; 19] = [
    Act::IsIn(Phase::Team { pot: 1 }),
    Act::HasCandidate(Choice::Team(FIRST), Move::Drawn(FIRST)),
    Act::Refuses(Move::Placed(FIRST, 0)),
    Act::Adds(Move::Drawn(FIRST)),
    Act::IsIn(Phase::Group { team: FIRST }),
    Act::HasCandidate(Choice::Group(0), Move::Placed(FIRST, 0)),
    Act::Adds(Move::Placed(FIRST, 0)),
    Act::IsIn(Phase::Team { pot: 2 }),
    Act::Adds(Move::Drawn(SECOND)),
    Act::Adds(Move::Placed(SECOND, 0)),
    Act::IsIn(Phase::Position { team: SECOND }),
    Act::HasCandidate(Choice::Position(2), Move::Positioned(SECOND, 2)),
    Act::LacksCandidate(Choice::Position(1)),
    Act::Adds(Move::Positioned(SECOND, 2)),
    Act::IsIn(Phase::Complete),
    Act::TakesOff(Some(Move::Positioned(SECOND, 2))),
    Act::TakesOff(Some(Move::Drawn(SECOND))),
    Act::HasMoves(&[Move::Drawn(FIRST), Move::Placed(FIRST, 0)]),
    Act::TakesOff(Some(Move::Drawn(FIRST))),
];

/// The first act on the first state of the head's draw that does not go so.
fn first_wrong_of(alloc: Global, head: &str, acts: &[Act]) -> Result<Option<usize>, Fail> {
    let mut state = start(alloc, head)?;
    let wrong = first_wrong(alloc, &mut state, acts);
    drop(state);
    Ok(wrong?)
}

/// States go forward and back.
#[test]
fn states_go_forward_and_back(rt: HostRuntime) -> Result<(), Fail> {
    let alloc = rt.alloc();
    assert_eq!(rt; first_wrong_of(alloc, TWO_TEAMS, &TWO_TEAMS_ACTS)?, None);
    assert_eq!(rt; first_wrong_of(alloc, ONE_GROUP, &ONE_GROUP_ACTS)?, None);
    Ok(())
}

/// Whether a copy of the state has its moves and goes its own way.
fn is_copied(alloc: Global, state: &mut State) -> Result<bool, AllocError> {
    let added = state.apply(alloc, Move::Drawn(RUNNER)).is_ok();
    let mut copy = state.clone_in(alloc)?;
    Ok(
        added
            && copy.undo() == Some(Move::Drawn(RUNNER))
            && copy.moves().is_empty()
            && state.moves() == [Move::Drawn(RUNNER)].as_slice(),
    )
}

/// A copy has the moves of its state, and goes its own way.
#[test]
fn a_copy_of_a_state_is_its_own(rt: HostRuntime) -> Result<(), Fail> {
    let alloc = rt.alloc();
    let mut state = start(alloc, TWO_TEAMS)?;
    let copied = is_copied(alloc, &mut state);
    drop(state);
    assert!(rt; copied?);
    Ok(())
}

/// The reply that the runner-up was drawn, and in which its opponent comes next; with a group, as
/// after a position, though no reply has both.
fn drawn(alloc: Global) -> Result<Reply, AllocError> {
    let moves = Moves::new(Vec::from_slice(alloc, &[Move::Drawn(RUNNER)])?);
    let choices = Choices::new(Vec::from_slice(alloc, &[Choice::Team(WINNER)])?);
    let phase = Phase::Opponent { runner: RUNNER };
    Ok(Reply::Taken {
        moves,
        group: Some(3),
        next: NextLine::Choices { phase, choices },
    })
}

fn is_drawn(reply: &Reply) -> bool {
    match reply {
        Reply::Taken { moves, group, next } => {
            moves.as_slice() == [Move::Drawn(RUNNER)].as_slice()
                && *group == Some(3)
                && awaits_the_winner(next)
        }
        Reply::Refused(_) => false,
    }
}

fn awaits_the_winner(next: &NextLine) -> bool {
    match next {
        NextLine::Choices { phase, choices } => {
            *phase == Phase::Opponent { runner: RUNNER }
                && choices.as_slice() == [Choice::Team(WINNER)].as_slice()
        }
        NextLine::Complete | NextLine::Impossible => false,
    }
}

fn is_copied_drawn(alloc: Global) -> Result<bool, AllocError> {
    let reply = drawn(alloc)?;
    let copy = reply.clone_in(alloc)?;
    Ok(is_drawn(&copy))
}

fn is_copied_refusal(alloc: Global) -> Result<bool, AllocError> {
    let copy = Reply::Refused(Refusal::Limit).clone_in(alloc)?;
    match copy {
        Reply::Refused(refusal) => Ok(refusal == Refusal::Limit),
        Reply::Taken { .. } => Ok(false),
    }
}

/// A copy of a reply is that reply.
#[test]
fn replies_are_copied(rt: HostRuntime) -> Result<(), Fail> {
    assert!(rt; is_copied_drawn(rt.alloc())?);
    assert!(rt; is_copied_refusal(rt.alloc())?);
    Ok(())
}
