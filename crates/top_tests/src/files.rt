//! What a draw file tells of itself, and what is asked of it beside moves.

use draw_tables::{
    Choice, Move, Phase, is_candidate, may_meet, move_in, move_of, phase_of, teams_of_pot,
};
use rule_sets::{DrawFile, read_file};
use samples::{ROUND_OF_16, TWO_TEAMS};
use std::alloc::{AllocError, Global};
use std::test::Fail;
use team_files::{FileFault, Kind, TeamId};

/// The draw file of a head.
pub(crate) fn file_of(alloc: Global, head: &str) -> Result<DrawFile, FileFault> {
    read_file(alloc, head.as_bytes())
}

/// What is seen of a file.
#[derive(Clone, Copy)]
enum Fact {
    /// It is a pairing of two pots, without groups, limits and fixed places.
    IsPlainPairing,
    /// The pot has just these teams.
    HasPot(u32, &'static [TeamId]),
    /// The runner-up may meet the winner, or not.
    MayMeet(TeamId, TeamId, bool),
    /// After the moves the phase is this.
    HasPhase(&'static [Move], Phase),
    /// After the moves the choice is a candidate, with its move, or is none.
    HasMove(&'static [Move], Choice, Option<Move>),
}

/// Whether the fact holds of the file.
fn holds(alloc: Global, file: &DrawFile, fact: Fact) -> Result<bool, AllocError> {
    match fact {
        Fact::IsPlainPairing => Ok(is_plain_pairing(file)),
        Fact::HasPot(pot, wanted) => has_pot(alloc, file, pot, wanted),
        Fact::MayMeet(runner, winner, may) => Ok(meet(file, runner, winner) == may),
        Fact::HasPhase(moves, phase) => Ok(phase_of(file, moves) == phase),
        Fact::HasMove(moves, choice, next) => Ok(has_move(file, moves, choice, next)),
    }
}

fn is_plain_pairing(file: &DrawFile) -> bool {
    file.kind() == Kind::Pairing
        && file.groups() == 0
        && file.pots() == 2
        && file.limits().is_empty()
        && file.places().is_empty()
}

fn has_pot(
    alloc: Global,
    file: &DrawFile,
    pot: u32,
    wanted: &[TeamId],
) -> Result<bool, AllocError> {
    let teams = teams_of_pot(alloc, file, pot)?;
    Ok(teams.as_slice() == wanted)
}

/// Whether both are teams of the file and may meet.
fn meet(file: &DrawFile, runner: TeamId, winner: TeamId) -> bool {
    let number = file.teams().number();
    runner.0 < number && winner.0 < number && may_meet(file, runner, winner)
}

fn has_move(file: &DrawFile, moves: &[Move], choice: Choice, next: Option<Move>) -> bool {
    is_candidate(file, moves, choice) == next.is_some() && move_of(file, moves, choice) == next
}

/// The place of the first fact that does not hold of the file.
fn first_wrong(
    alloc: Global,
    file: &DrawFile,
    facts: &[Fact],
) -> Result<Option<usize>, AllocError> {
    for (place, fact) in facts.iter().enumerate() {
        if !holds(alloc, file, *fact)? {
            return Ok(Some(place));
        }
    }
    Ok(None)
}

/// The place of the first fact that does not hold of the file of the head.
fn first_wrong_of(alloc: Global, head: &str, facts: &[Fact]) -> Result<Option<usize>, Fail> {
    let file = file_of(alloc, head)?;
    let wrong = first_wrong(alloc, &file, facts);
    drop(file);
    Ok(wrong?)
}

const REAL_MADRID: TeamId = TeamId(3);

const MANCHESTER_UNITED: TeamId = TeamId(5);

const JUVENTUS: TeamId = TeamId(7);

const VILLARREAL: TeamId = TeamId(13);

/// In the file of the round of 16 of 2021/22 the winners stand at the places 0 to 7 and the
/// runners-up at 8 to 15. Villarreal may meet Juventus, but not Manchester United (one group) nor
/// Real Madrid (one association). After its ball its opponent comes: any winner is a candidate, and
/// no runner-up.
const ROUND_OF_16_FACTS: [Fact; 8] = [
    Fact::HasPot(
        1,
        &[
            TeamId(0),
            TeamId(1),
            TeamId(2),
            TeamId(3),
            TeamId(4),
            TeamId(5),
            TeamId(6),
            TeamId(7),
        ],
    ),
    Fact::HasPot(
        2,
        &[
            TeamId(8),
            TeamId(9),
            TeamId(10),
            TeamId(11),
            TeamId(12),
            TeamId(13),
            TeamId(14),
            TeamId(15),
        ],
    ),
    Fact::MayMeet(VILLARREAL, JUVENTUS, true),
    Fact::MayMeet(VILLARREAL, MANCHESTER_UNITED, false),
    Fact::MayMeet(VILLARREAL, REAL_MADRID, false),
    Fact::HasPhase(
        &[Move::Drawn(VILLARREAL)],
        Phase::Opponent { runner: VILLARREAL },
    ),
    Fact::HasMove(
        &[Move::Drawn(VILLARREAL)],
        Choice::Team(MANCHESTER_UNITED),
        Some(Move::Paired(VILLARREAL, MANCHESTER_UNITED)),
    ),
    Fact::HasMove(&[Move::Drawn(VILLARREAL)], Choice::Team(TeamId(8)), None),
];

#[test]
fn files_are_seen(rt: HostRuntime) -> Result<(), Fail> {
    let alloc = rt.alloc();
    assert_eq!(rt;
        first_wrong_of(alloc, TWO_TEAMS, &[Fact::IsPlainPairing])?,
        None
    );
    assert_eq!(rt;
        first_wrong_of(alloc, ROUND_OF_16, &ROUND_OF_16_FACTS)?,
        None
    );
    Ok(())
}

/// What a choice adds in a phase: in a complete draw it adds nothing.
#[test]
fn choices_have_moves(rt: HostRuntime) {
    let winner = Choice::Team(JUVENTUS);
    let phase = Phase::Opponent { runner: VILLARREAL };
    assert_eq!(rt;
        move_in(phase, winner),
        Some(Move::Paired(VILLARREAL, JUVENTUS))
    );
    assert_eq!(rt; move_in(Phase::Complete, winner), None);
}
