//! Inputs of `drawcheck judge`, each with the text that is written and with the status.

use crate::memory_runs::{Call, Outside, Row, SEPARATOR, ends, first_wrong_row};
use crate::world_cups::WORLD_CUP_2018;
use draw_top::Status;
use samples::{ROUND_OF_16, TWO_TEAMS};
use std::alloc::{AllocError, Global};
use std::test::Fail;

const USAGE: &str = "usage: drawcheck judge|audit|replay\n";

/// The words of the one call that judges.
const JUDGE: &[&str] = &["judge"];

/// A head, the lines behind it, the status and the text.
type Verdict = (&'static str, &'static str, Status, &'static str);

/// The place of the first input that `judge` does not end with so.
fn first_wrong(alloc: Global, verdicts: &[Verdict]) -> Result<Option<usize>, AllocError> {
    for (place, (head, lines, status, text)) in verdicts.iter().enumerate() {
        let input = [(1, *head), (1, SEPARATOR), (1, *lines)];
        let text = [(1, *text)];
        let wanted = (*status, text.as_slice());
        if !ends(alloc, (Call::Check, JUDGE), &input, Outside::FINE, wanted)? {
            return Ok(Some(place));
        }
    }
    Ok(None)
}

/// Tables of the round of 16: the one that was drawn, and others.
const PAIRINGS: [Verdict; 12] = [
    (
        ROUND_OF_16,
        "RMA MUN MCI LIV AJX JUV BAY LIL\n",
        Status::Ok,
        "legal\n",
    ),
    (
        ROUND_OF_16,
        "RMA MUN MCI LIV AJX JUV BAY LIL",
        Status::Ok,
        "legal\n",
    ),
    (
        ROUND_OF_16,
        "RMA MUN MCI LIV AJX JUV BAY LIL\r\n",
        Status::Ok,
        "legal\n",
    ),
    // Villarreal and Manchester United come from group F.
    (
        ROUND_OF_16,
        "RMA JUV MCI LIV AJX MUN BAY LIL\n",
        Status::NotValid,
        "broken 2 13 5\n",
    ),
    // Chelsea and Liverpool are of one association.
    (
        ROUND_OF_16,
        "RMA MUN MCI LIL AJX JUV BAY LIV\n",
        Status::NotValid,
        "broken 3 15 1\n",
    ),
    // Real twice and Manchester City never: the first winner in the file is told.
    (
        ROUND_OF_16,
        "RMA MUN RMA LIV AJX JUV BAY LIL\n",
        Status::NotValid,
        "broken 1 0 0\n",
    ),
    // A runner-up stands where a winner is due.
    (
        ROUND_OF_16,
        "RMA MUN MCI LIV AJX JUV PSG LIL\n",
        Status::NotValid,
        "broken 1 4 0\n",
    ),
    (ROUND_OF_16, "RMA\n", Status::NotValid, "not a table\n"),
    (
        ROUND_OF_16,
        "RMA MUN MCI LIV AJX JUV BAY LIL \n",
        Status::NotValid,
        "not a table\n",
    ),
    (
        ROUND_OF_16,
        "RMA MUN MCI LIV AJX JUV BAY XYZ\n",
        Status::NotValid,
        "not a table\n",
    ),
    (
        ROUND_OF_16,
        "RMA MUN MCI LIV AJX JUV BAY LIL\n\n",
        Status::NotValid,
        "not a table\n",
    ),
    (ROUND_OF_16, "", Status::NotValid, "not a table\n"),
];

/// Tables of the World Cup of 2018: the one that was drawn, and others.
const GROUPS: [Verdict; 5] = [
    (
        WORLD_CUP_2018,
        "A1 F1 E1 B1 D1 G1 H1 C1 B2 C2 E2 G2 H2 F2 A2 D2 C3 D3 E3 F3 G3 A3 H3 B3 E4 D4 C4 H4 B4 G4 F4 A4\n",
        Status::Ok,
        "legal\n",
    ),
    // The host and Germany have changed places.
    (
        WORLD_CUP_2018,
        "F1 A1 E1 B1 D1 G1 H1 C1 B2 C2 E2 G2 H2 F2 A2 D2 C3 D3 E3 F3 G3 A3 H3 B3 E4 D4 C4 H4 B4 G4 F4 A4\n",
        Status::NotValid,
        "broken 1 0 0\n",
    ),
    // Iceland stands in group B with Portugal and Spain, Iran in group D.
    (
        WORLD_CUP_2018,
        "A1 F1 E1 B1 D1 G1 H1 C1 B2 C2 E2 G2 H2 F2 A2 D2 C3 B3 E3 F3 G3 A3 H3 D3 E4 D4 C4 H4 B4 G4 F4 A4\n",
        Status::NotValid,
        "broken 3 1 0\n",
    ),
    // Uruguay has the position of Egypt.
    (
        WORLD_CUP_2018,
        "A1 F1 E1 B1 D1 G1 H1 C1 B2 C2 E2 G2 H2 F2 A3 D2 C3 D3 E3 F3 G3 A3 H3 B3 E4 D4 C4 H4 B4 G4 F4 A4\n",
        Status::NotValid,
        "broken 5 0 2\n",
    ),
    (WORLD_CUP_2018, "A1 F1\n", Status::NotValid, "not a table\n"),
];

/// Heads without a draw file, and a forbidden pair.
const INPUTS: [Verdict; 4] = [
    (TWO_TEAMS, "AAA\n", Status::Ok, "legal\n"),
    (
        r#"{"kind":"pairing","teams":[{"code":"AAA","pot":1,"tags":["X"],"group":"A"},{"code":"BBB","pot":2,"tags":["Y"],"group":"B"}],"pairs":[["AAA","BBB"]]}"#,
        "AAA\n",
        Status::NotValid,
        "broken 4 1 0\n",
    ),
    (
        "[]",
        "AAA\n",
        Status::FileRefused,
        "file refused 2 NotObject\n",
    ),
    ("", "", Status::FileRefused, "file refused 1 NotJson\n"),
];

#[test]
fn tables_are_judged(rt: HostRuntime) -> Result<(), Fail> {
    let alloc = rt.alloc();
    assert_eq!(rt; first_wrong(alloc, &PAIRINGS)?, None);
    assert_eq!(rt; first_wrong(alloc, &GROUPS)?, None);
    assert_eq!(rt; first_wrong(alloc, &INPUTS)?, None);
    Ok(())
}

/// Words that are not `judge` alone, sources and sinks that fail, one byte a call.
const ROWS: [Row; 9] = [
    (&["judge"], (1, None), (4096, None), Status::Ok, "legal\n"),
    (
        &["judge"],
        (16, Some(2)),
        (4096, None),
        Status::ReadFault,
        "",
    ),
    (
        &["judge"],
        (4096, None),
        (4096, Some(0)),
        Status::WriteFault,
        "",
    ),
    (
        &["judge"],
        (4096, None),
        (3, None),
        Status::WriteFault,
        "leg",
    ),
    (&["audit"], (4096, None), (4096, None), Status::Usage, USAGE),
    (
        &["replay"],
        (4096, None),
        (4096, None),
        Status::Usage,
        USAGE,
    ),
    (
        &["judge", "judge"],
        (4096, None),
        (4096, None),
        Status::Usage,
        USAGE,
    ),
    (&[], (4096, None), (4096, None), Status::Usage, USAGE),
    (&[], (4096, None), (0, None), Status::WriteFault, ""),
];

#[test]
fn statuses_of_a_check_have_their_causes(rt: HostRuntime) -> Result<(), Fail> {
    let input = [(1, TWO_TEAMS), (1, SEPARATOR), (1, "AAA\n")];
    let wrong = first_wrong_row(rt.alloc(), Call::Check, &input, &ROWS)?;
    assert_eq!(rt; wrong, None);
    Ok(())
}

/// At most 4,194,304 bytes are taken, of which 132 are not the spaces before the head.
const LIMITS: [Row; 1] = [(
    &["judge"],
    (4096, None),
    (4096, None),
    Status::Ok,
    "legal\n",
)];

const PAST_LIMITS: [Row; 1] = [(&["judge"], (4096, None), (4096, None), Status::TooLong, "")];

#[test]
fn a_check_keeps_the_limit_of_bytes(rt: HostRuntime) -> Result<(), Fail> {
    let alloc = rt.alloc();
    let input = [
        (4_194_304 - 132, " "),
        (1, TWO_TEAMS),
        (1, SEPARATOR),
        (1, "AAA\n"),
    ];
    assert_eq!(rt; first_wrong_row(alloc, Call::Check, &input, &LIMITS)?, None);
    let input = [
        (4_194_305 - 132, " "),
        (1, TWO_TEAMS),
        (1, SEPARATOR),
        (1, "AAA\n"),
    ];
    assert_eq!(rt;
        first_wrong_row(alloc, Call::Check, &input, &PAST_LIMITS)?,
        None
    );
    Ok(())
}
