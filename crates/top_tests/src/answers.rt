//! Inputs of `draw follow`, each with the whole text that is written and with the status.

use crate::memory_runs::{
    Call, Outside, Pieces, Row, SEPARATOR, ends, first_wrong_draw_row, first_wrong_row,
};
use crate::world_cups::{
    ANSWER_2018, ANSWER_2022, BALLS_2018, BALLS_2022, WORLD_CUP_2018, WORLD_CUP_2022,
};
use draw_top::Status;
use samples::{ROUND_OF_16, TWO_TEAMS};
use std::alloc::{AllocError, Global};
use std::test::Fail;

const OPENING: &str = "draw pairing 16 teams\nnext runner-up: PSG ATM SCP INT BEN VIL RBS CHE\n";

const USAGE: &str = "usage: draw follow|prove|room|trial N [--workers 1..16]\n";

/// The words of the one call that is answered.
const FOLLOW: &[&str] = &["follow"];

/// A head, command lines and their answer, which is the opening and what follows it.
type Draw = (&'static str, &'static str, &'static str, &'static str);

/// Whether a run of `follow` over an input ends with the status, and the sink then holds the text.
fn gives(alloc: Global, input: Pieces, status: Status, text: Pieces) -> Result<bool, AllocError> {
    ends(
        alloc,
        (Call::Follow, FOLLOW),
        input,
        Outside::FINE,
        (status, text),
    )
}

/// The place of the first draw that `follow` does not answer so.
fn first_wrong_draw(alloc: Global, draws: &[Draw]) -> Result<Option<usize>, AllocError> {
    for (place, (head, lines, opening, replies)) in draws.iter().enumerate() {
        let input = [(1, *head), (1, SEPARATOR), (1, *lines)];
        let answer = [(1, *opening), (1, *replies)];
        if !gives(alloc, &input, Status::Ok, &answer)? {
            return Ok(Some(place));
        }
    }
    Ok(None)
}

/// The round of 16. Near the end of the draw a choice is excluded that no rule forbids directly.
const ROUNDS_OF_16: [Draw; 7] = [
    (ROUND_OF_16, "", OPENING, ""),
    (
        ROUND_OF_16,
        "ball VIL\n",
        OPENING,
        "drawn VIL\nnext opponent VIL: MCI LIV AJX BAY LIL JUV\n",
    ),
    (
        ROUND_OF_16,
        "ball VIL\r\nball MUN\n",
        OPENING,
        "drawn VIL\nnext opponent VIL: MCI LIV AJX BAY LIL JUV\nrefused excluded\n",
    ),
    (
        ROUND_OF_16,
        "ball\nBall VIL\nball vil\n\nball VVVVVVVVVVVVVVVVVVVVVVVVVVVVVVVVVVVVVVVVVVVVVVVVVVVVVVVVVVVVVVVVVVVVVVVVVVVVVVVVVVVVVVVVVVVVVVVVVVVVVVVVVVVVVVVVVVVVVVVVVVVVVVVVVVVVVVVVVVVVVVVVVVVVVVVVVVVVVVVVVVVVVVVVVVVVVVVVVVVVVVVVVVVVVVVVVVVVVVVVVVVVVVVVVVVVVVVVVVVVVVVVVVVVVVVVVVVVVVVVVVVVVVVVVVVVVVVVVVVVVVVVVVVVVVVVVVVVVVVVVVVVVVVVVVVVVVV\nball XYZ\nball 2\nball MCI",
        OPENING,
        "refused form\nrefused form\nrefused form\nrefused form\nrefused form\nrefused unknown\nrefused unknown\nrefused phase\n",
    ),
    (
        ROUND_OF_16,
        "undo\noffers\ntable\n--\n",
        OPENING,
        "refused form\nrefused form\nrefused form\nrefused form\n",
    ),
    (
        ROUND_OF_16,
        "ball VIL\nball juv\nball XYZ\nball PSG\nball MUN\nball JUV\n",
        OPENING,
        "drawn VIL\nnext opponent VIL: MCI LIV AJX BAY LIL JUV\nrefused form\nrefused unknown\nrefused phase\nrefused excluded\npaired VIL JUV\nnext runner-up: PSG ATM SCP INT BEN RBS CHE\n",
    ),
    (
        ROUND_OF_16,
        "ball RBS\nball BAY\nball SCP\nball MCI\nball BEN\nball AJX\nball CHE\nball LIL\nball PSG\nball LIV\nball RMA\nball ATM\nball MUN\nball INT\nball LIV\nball VIL\nball JUV\nball PSG\n",
        OPENING,
        "drawn RBS\nnext opponent RBS: MCI LIV AJX RMA BAY MUN JUV\npaired RBS BAY\nnext runner-up: PSG ATM SCP INT BEN VIL CHE\ndrawn SCP\nnext opponent SCP: MCI LIV RMA MUN LIL JUV\npaired SCP MCI\nnext runner-up: PSG ATM INT BEN VIL CHE\ndrawn BEN\nnext opponent BEN: LIV AJX RMA MUN LIL JUV\npaired BEN AJX\nnext runner-up: PSG ATM INT VIL CHE\ndrawn CHE\nnext opponent CHE: RMA LIL\npaired CHE LIL\nnext runner-up: PSG ATM INT VIL\ndrawn PSG\nnext opponent PSG: RMA\nrefused excluded\npaired PSG RMA\nnext runner-up: ATM INT VIL\ndrawn ATM\nnext opponent ATM: MUN JUV\npaired ATM MUN\nnext runner-up: INT VIL\ndrawn INT\nnext opponent INT: LIV\npaired INT LIV\nnext runner-up: VIL\ndrawn VIL\nnext opponent VIL: JUV\npaired VIL JUV\ncomplete\nrefused complete\n",
    ),
];

/// Pots that stand interleaved in file order; a forbidden pair; a draw that is complete.
const SMALL_DRAWS: [Draw; 3] = [
    (
        TWO_TEAMS,
        "ball BBB\nball AAA\nball BBB\nball XYZ\n",
        "draw pairing 2 teams\nnext runner-up: BBB\n",
        "drawn BBB\nnext opponent BBB: AAA\npaired BBB AAA\ncomplete\nrefused complete\nrefused unknown\n",
    ),
    (
        r#"{"pairs":[["WW1","RR2"]],"kind":"pairing","teams":[{"code":"RR1","pot":2,"tags":["A"],"group":"A"},{"code":"WW1","pot":1,"tags":["B"],"group":"B"},{"code":"RR2","pot":2,"tags":["C"],"group":"C"},{"code":"WW2","pot":1,"tags":["D"],"group":"D"}]}"#,
        "ball WW1\nball RR1\nball WW1\nball RR2\nball WW1\nball WW2\n",
        "draw pairing 4 teams\nnext runner-up: RR1 RR2\n",
        "refused phase\ndrawn RR1\nnext opponent RR1: WW1\npaired RR1 WW1\nnext runner-up: RR2\ndrawn RR2\nnext opponent RR2: WW2\nrefused phase\npaired RR2 WW2\ncomplete\n",
    ),
    (
        r#"{"kind":"pairing","teams":[{"code":"AAA","pot":1,"tags":["X"],"group":"A"},{"code":"BBB","pot":2,"tags":["X"],"group":"B"}]}"#,
        "ball BBB\nball AAA\n",
        "draw pairing 2 teams\nimpossible\n",
        "refused excluded\nrefused phase\n",
    ),
];

/// Group draws. Two groups, in which AAA's place is fixed, so that BBB takes the other group, and
/// CCC that of BBB, since a group has one team of its tag; a position that another team has by a
/// fixed place, which is drawn later; four teams of one tag, of which a group may have one, so that
/// each team's ball is refused and none is drawn.
const GROUP_DRAWS: [Draw; 7] = [
    (
        r#"{"kind":"group","groups":2,"pots":2,"teams":[{"code":"AAA","pot":1,"tags":["X"]},{"code":"BBB","pot":1,"tags":["Y"]},{"code":"CCC","pot":2,"tags":["X"]},{"code":"DDD","pot":2,"tags":["Y"]}],"limits":[{"tag":"X","lo":0,"hi":1},{"tag":"Y","lo":0,"hi":1}],"places":[{"code":"AAA","group":"A","position":1}]}"#,
        "ball CCC\nball 2\nball BBB\nball AAA\nball 3\nball CCC\nball 1\nball DDD\nball 2\nball DDD\nball 2\nball 2\n",
        "draw group 4 teams\nnext team pot 1: AAA BBB\n",
        "refused phase\nrefused phase\nplaced BBB B\nnext team pot 1: AAA\nplaced AAA A\nnext team pot 2: CCC DDD\nrefused unknown\nplaced CCC B\nnext position CCC: 2\nrefused phase\nrefused phase\nstands CCC B2\nnext team pot 2: DDD\nplaced DDD A\nnext position DDD: 2\nstands DDD A2\ncomplete\nrefused complete\n",
    ),
    (
        r#"{"kind":"group","groups":1,"pots":3,"teams":[{"code":"CCC","pot":3,"tags":["X"]},{"code":"BBB","pot":2,"tags":["X"]},{"code":"AAA","pot":1,"tags":["X"]}],"limits":[{"tag":"X","lo":3,"hi":3}],"places":[{"code":"CCC","group":"A","position":2}]}"#,
        "ball AAA\nball BBB\nball 2\nball BBB\nball 3\nball CCC\nball 3\nball 2\n",
        "draw group 3 teams\nnext team pot 1: AAA\n",
        "placed AAA A\nnext team pot 2: BBB\nplaced BBB A\nnext position BBB: 3\nrefused excluded\nrefused phase\nstands BBB A3\nnext team pot 3: CCC\nplaced CCC A\nnext position CCC: 2\nrefused excluded\nstands CCC A2\ncomplete\n",
    ),
    (
        r#"{"kind":"group","groups":2,"pots":2,"teams":[{"code":"AAA","pot":1,"tags":["X"]},{"code":"BBB","pot":1,"tags":["X"]},{"code":"CCC","pot":2,"tags":["X"]},{"code":"DDD","pot":2,"tags":["X"]}],"limits":[{"tag":"X","lo":0,"hi":1}]}"#,
        "ball AAA\nball 2\nball CCC\nball BBB\nball XYZ\nball 3\n",
        "draw group 4 teams\nimpossible\n",
        "refused excluded\nrefused phase\nrefused phase\nrefused excluded\nrefused unknown\nrefused unknown\n",
    ),
    // Nobody but the host may stand in group A. One pot has no positions.
    (
        r#"{"kind":"group","groups":3,"pots":1,"teams":[{"code":"AAA","pot":1,"tags":["X"]},{"code":"BBB","pot":1,"tags":["X"]},{"code":"HST","pot":1,"tags":["X"]}],"limits":[{"tag":"X","lo":0,"hi":1}],"places":[{"code":"HST","group":"A","position":1}]}"#,
        "ball BBB\nball AAA\nball HST\nball AAA\n",
        "draw group 3 teams\nnext team pot 1: AAA BBB HST\n",
        "placed BBB B\nnext team pot 1: AAA HST\nplaced AAA C\nnext team pot 1: HST\nplaced HST A\ncomplete\nrefused complete\n",
    ),
    // With CCC beside AAA, the group of BBB and DDD would have nobody with X.
    (
        r#"{"kind":"group","groups":2,"pots":2,"teams":[{"code":"AAA","pot":1,"tags":["X"]},{"code":"BBB","pot":1,"tags":["Y"]},{"code":"CCC","pot":2,"tags":["X"]},{"code":"DDD","pot":2,"tags":["Y"]}],"limits":[{"tag":"X","lo":1,"hi":2},{"tag":"Y","lo":0,"hi":2}]}"#,
        "ball AAA\nball BBB\nball CCC\n",
        "draw group 4 teams\nnext team pot 1: AAA BBB\n",
        "placed AAA A\nnext team pot 1: BBB\nplaced BBB B\nnext team pot 2: CCC DDD\nplaced CCC B\nnext position CCC: 2\n",
    ),
    // AAA holds Y too, so CCC may not join it.
    (
        r#"{"kind":"group","groups":2,"pots":2,"teams":[{"code":"AAA","pot":1,"tags":["X","Y"]},{"code":"BBB","pot":1,"tags":["Z"]},{"code":"CCC","pot":2,"tags":["Y"]},{"code":"DDD","pot":2,"tags":["Z"]}],"limits":[{"tag":"X","lo":0,"hi":1},{"tag":"Y","lo":0,"hi":1},{"tag":"Z","lo":0,"hi":1}]}"#,
        "ball AAA\nball BBB\nball CCC\n",
        "draw group 4 teams\nnext team pot 1: AAA BBB\n",
        "placed AAA A\nnext team pot 1: BBB\nplaced BBB B\nnext team pot 2: CCC DDD\nplaced CCC B\nnext position CCC: 2\n",
    ),
    // AAA has to leave group A to BBB, since CCC has a place there and may not meet AAA.
    (
        r#"{"kind":"group","groups":2,"pots":2,"teams":[{"code":"AAA","pot":1,"tags":["X"]},{"code":"BBB","pot":1,"tags":["X"]},{"code":"CCC","pot":2,"tags":["X"]},{"code":"DDD","pot":2,"tags":["X"]}],"limits":[{"tag":"X","lo":0,"hi":2}],"pairs":[["CCC","AAA"]],"places":[{"code":"CCC","group":"A","position":2}]}"#,
        "ball AAA\n",
        "draw group 4 teams\nnext team pot 1: AAA BBB\n",
        "placed AAA B\nnext team pot 1: BBB\n",
    ),
];

/// The draws of the World Cups, as they were held: each team comes to its group. In 2022 the second
/// intercontinental place may not join group F, though it is free.
const WORLD_CUPS: [Draw; 2] = [
    (WORLD_CUP_2018, BALLS_2018, "", ANSWER_2018),
    (WORLD_CUP_2022, BALLS_2022, "", ANSWER_2022),
];

#[test]
fn draws_are_answered(rt: HostRuntime) -> Result<(), Fail> {
    let alloc = rt.alloc();
    assert_eq!(rt; first_wrong_draw(alloc, &ROUNDS_OF_16)?, None);
    assert_eq!(rt; first_wrong_draw(alloc, &SMALL_DRAWS)?, None);
    assert_eq!(rt; first_wrong_draw(alloc, &GROUP_DRAWS)?, None);
    assert_eq!(rt; first_wrong_draw(alloc, &WORLD_CUPS)?, None);
    Ok(())
}

/// An input with the status and the text.
type Run = (Pieces<'static>, Status, Pieces<'static>);

/// The place of the first input that `follow` does not end with so.
fn first_wrong_run(alloc: Global, runs: &[Run]) -> Result<Option<usize>, AllocError> {
    for (place, (input, status, text)) in runs.iter().enumerate() {
        if !gives(alloc, input, *status, text)? {
            return Ok(Some(place));
        }
    }
    Ok(None)
}

/// A head of one team and one pair, of which further ones stand between its parts.
const FIRST_TEAM: &str =
    r#"{"kind":"pairing","teams":[{"code":"AAA","pot":1,"tags":["X"],"group":"A"}"#;

const FURTHER_TEAM: &str = r#",{"code":"AAA","pot":1,"tags":["X"],"group":"A"}"#;

const FIRST_PAIR: &str = r#"],"pairs":[["AAA","AAA"]"#;

const FURTHER_PAIR: &str = r#",["AAA","AAA"]"#;

/// 4,096 commands are answered, the last of them with what it does, and each later line is refused.
/// At most 4,194,304 bytes are taken; the head of two teams has 124. At most 40 teams and 64 pairs
/// are taken; more are told with their number.
const LIMITS: [Run; 6] = [
    (
        &[
            (1, TWO_TEAMS),
            (1, SEPARATOR),
            (4095, "ball XYZ\n"),
            (1, "ball BBB\nball AAA\nball XYZ\nball\n"),
        ],
        Status::Ok,
        &[
            (1, "draw pairing 2 teams\nnext runner-up: BBB\n"),
            (4095, "refused unknown\n"),
            (1, "drawn BBB\nnext opponent BBB: AAA\n"),
            (3, "refused limit\n"),
        ],
    ),
    (
        &[(1, TWO_TEAMS), (4_194_304 - 124, " ")],
        Status::Ok,
        &[(1, "draw pairing 2 teams\nnext runner-up: BBB\n")],
    ),
    (
        &[(1, TWO_TEAMS), (4_194_305 - 124, " ")],
        Status::TooLong,
        &[],
    ),
    (
        &[
            (1, FIRST_TEAM),
            (40, FURTHER_TEAM),
            (1, FIRST_PAIR),
            (64, FURTHER_PAIR),
            (1, "]}"),
        ],
        Status::FileRefused,
        &[(1, "file refused 6 TooMany teams 41\n")],
    ),
    (
        &[
            (1, FIRST_TEAM),
            (39, FURTHER_TEAM),
            (1, FIRST_PAIR),
            (64, FURTHER_PAIR),
            (1, "]}"),
        ],
        Status::FileRefused,
        &[(1, "file refused 6 TooMany pairs 65\n")],
    ),
    (
        &[
            (1, FIRST_TEAM),
            (39, FURTHER_TEAM),
            (1, FIRST_PAIR),
            (63, FURTHER_PAIR),
            (1, "]}"),
        ],
        Status::FileRefused,
        &[(1, "file refused 8 SameCode AAA\n")],
    ),
];

#[test]
fn limits_are_kept(rt: HostRuntime) -> Result<(), Fail> {
    assert_eq!(rt; first_wrong_run(rt.alloc(), &LIMITS)?, None);
    Ok(())
}

/// The place of the first head that is not refused with the line.
fn first_wrong_refusal(
    alloc: Global,
    refusals: &[(&str, &str)],
) -> Result<Option<usize>, AllocError> {
    for (place, (head, line)) in refusals.iter().enumerate() {
        let text = [(1, "file refused "), (1, *line)];
        let input = [(1, *head)];
        if !gives(alloc, &input, Status::FileRefused, &text)? {
            return Ok(Some(place));
        }
    }
    Ok(None)
}

/// Heads that have no draw file, each with its line.
const REFUSALS: [(&str, &str); 16] = [
    ("", "1 NotJson\n"),
    ("[]", "2 NotObject\n"),
    ("7\n--\nball VIL\nball MCI\n", "2 NotObject\n"),
    (r#"{"kind":"cup"}"#, "3 KindUnknown\n"),
    (r#"{"kind":"league"}"#, "14 KindNotBuilt\n"),
    (r#"{"kind":"group"}"#, "4 FieldMissing groups\n"),
    (r#"{"kind":"pairing"}"#, "4 FieldMissing teams\n"),
    (r#"{"kind":"pairing","teams":7}"#, "5 FieldWrong teams\n"),
    (r#"{"kind":"pairing","teams":[]}"#, "9 PotSize 1 0\n"),
    (
        r#"{"kind":"pairing","teams":[{"code":"AAA","pot":1,"tags":["X"],"group":"A"},{"code":"bbb","pot":2,"tags":["Y"],"group":"B"}]}"#,
        "7 BadCode 1\n",
    ),
    (
        r#"{"kind":"pairing","teams":[{"code":"AAA","pot":1,"tags":["X"],"group":"A"},{"code":"AAA","pot":2,"tags":["Y"],"group":"B"}]}"#,
        "8 SameCode AAA\n",
    ),
    (
        r#"{"kind":"pairing","teams":[{"code":"AAA","pot":1,"tags":["X"],"group":"A"},{"code":"BBB","pot":1,"tags":["Y"],"group":"B"}]}"#,
        "9 PotSize 2 0\n",
    ),
    (
        r#"{"kind":"pairing","teams":[{"code":"AAA","pot":1,"tags":["X"],"group":"A"},{"code":"BBB","pot":2,"tags":["Y"],"group":"B"}],"pairs":[["AAA","CCC"]]}"#,
        "11 BadPair 0\n",
    ),
    (
        r#"{"kind":"pairing","teams":[{"code":"AAA","pot":1,"tags":["X"],"group":"A"},{"code":"BBB","pot":2,"tags":["Y"],"group":"B"}],"pairs":[["AAA","BBB"],["AAA","CCC"]]}"#,
        "11 BadPair 1\n",
    ),
    // A pair that is none beside a code that stands twice, and beside a pot of the wrong size.
    (
        r#"{"pairs":[["AAA","CCC"]],"kind":"pairing","teams":[{"code":"AAA","pot":1,"tags":["X"],"group":"A"},{"code":"AAA","pot":2,"tags":["Y"],"group":"B"}]}"#,
        "8 SameCode AAA\n",
    ),
    (
        r#"{"pairs":[["AAA","AAA"]],"kind":"pairing","teams":[{"code":"AAA","pot":1,"tags":["X"],"group":"A"}]}"#,
        "9 PotSize 2 0\n",
    ),
];

#[test]
fn heads_are_refused(rt: HostRuntime) -> Result<(), Fail> {
    assert_eq!(rt; first_wrong_refusal(rt.alloc(), &REFUSALS)?, None);
    Ok(())
}

/// Words that are not `follow` alone, sources and sinks that fail, one byte a call.
const ROWS: [Row; 8] = [
    (&["follow"], (1, None), (4096, None), Status::Ok, DRAWN),
    (
        &["follow"],
        (16, Some(2)),
        (4096, None),
        Status::ReadFault,
        "",
    ),
    (
        &["follow"],
        (4096, None),
        (4096, Some(0)),
        Status::WriteFault,
        "",
    ),
    (
        &["follow"],
        (4096, None),
        (22, None),
        Status::WriteFault,
        "draw pairing 16 teams\n",
    ),
    (
        &["follow", "--workers", "0"],
        (4096, None),
        (4096, None),
        Status::Usage,
        USAGE,
    ),
    (&["prove"], (4096, None), (4096, None), Status::Usage, USAGE),
    (&[], (4096, None), (4096, None), Status::Usage, USAGE),
    (&[], (4096, None), (0, None), Status::WriteFault, ""),
];

/// The answer where the ball VIL is drawn first.
const DRAWN: &str =
    "draw pairing 16 teams\nnext runner-up: PSG ATM SCP INT BEN VIL RBS CHE\ndrawn VIL\nnext opponent VIL: MCI LIV AJX BAY LIL JUV\n";

#[test]
fn statuses_have_their_causes(rt: HostRuntime) -> Result<(), Fail> {
    let input = [(1, ROUND_OF_16), (1, SEPARATOR), (1, "ball VIL\n")];
    let wrong = first_wrong_row(rt.alloc(), Call::Follow, &input, &ROWS)?;
    assert_eq!(rt; wrong, None);
    Ok(())
}

/// `run_draw` does what `follow` does.
#[test]
fn run_draw_has_these_statuses(rt: HostRuntime) -> Result<(), Fail> {
    let input = [(1, ROUND_OF_16), (1, SEPARATOR), (1, "ball VIL\n")];
    let wrong = first_wrong_draw_row(&rt, rt.alloc(), &input, &ROWS)?;
    assert_eq!(rt; wrong, None);
    Ok(())
}

/// Each status has its number.
#[test]
fn statuses_have_their_numbers(rt: HostRuntime) {
    assert_eq!(rt; Status::TooLong.number(), 6);
    assert_eq!(rt; Status::NotValid.number(), 7);
}
