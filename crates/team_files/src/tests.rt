use crate::{Code, FileFault, Head, Kind, Team, TeamId, Teams, read_head};
use std::alloc::{AllocError, Global};
use std::process::Abort;
use std::test::Fail;

// Of each line of a table the head's first fault stands before the bar, and behind it a part of the
// head, which stands between the two texts that the table comes with.

/// Whole heads. Of the last two the list is deep, and the object is one level more.
const HEADS: &str = r#"
NotJson | 
NotJson | {"kind":"pairing"
NotJson | {"kind":"pairing"}{}
NotJson | ﻿{"kind":"pairing"}
NotJson | {"kind":"pairing","other":1e400}
NotObject | []
NotObject | null
NotObject | "kind"
KindUnknown { text: Text { text: "cup" } } | {"kind":"cup"}
KindUnknown { text: Text { text: "cup" } } | {"kind":"cup","teams":7}
KindUnknown { text: Text { text: "Pairing" } } | {"kind":"Pairing"}
KindUnknown { text: Text { text: "cup" } } | {"kind":"pairing","kind":"cup"}
FieldMissing { name: Kind } | {}
FieldMissing { name: Kind } | {"teams":7}
FieldWrong { name: Kind } | {"kind":7}
FieldWrong { name: Kind } | {"kind":null,"teams":7}
FieldMissing { name: Groups } | {"kind":"group"}
KindUnknown { text: Text { text: "Group" } } | {"kind":"Group"}
KindNotBuilt | {"kind":"league"}
FieldMissing { name: Teams } | {"kind":"pairing"}
FieldMissing { name: Teams } | {"kind":"cup","kind":"pairing"}
FieldMissing { name: Teams } | {"kind":"pairing","pairs":7}
FieldMissing { name: Teams } | {"\u006bind":"\u0070airing"}
FieldWrong { name: Teams } | {"kind":"pairing","teams":7}
FieldWrong { name: Teams } | {"kind":"pairing","teams":null}
FieldWrong { name: Teams } | {"kind":"pairing","teams":[7]}
FieldWrong { name: Teams } | {"kind":"pairing","pairs":7,"teams":{}}
FieldWrong { name: Pairs } | {"kind":"pairing","pairs":7,"teams":[]}
FieldMissing { name: Code } | {"kind":"pairing","teams":[{"code":7,"pot":2,"tags":["Y"],"group":"B"},{"pot":2}]}
FieldMissing { name: Code } | {"kind":"pairing","teams":[{"pot":2},{"code":7,"pot":2,"tags":["Y"],"group":"B"}]}
FieldMissing { name: Code } | {"kind":"pairing","teams":[7,{}]}
FieldMissing { name: Code } | {"kind":"pairing","teams":[{},7]}
PotSize { pot: 1, number: 0 } | {"kind":"pairing","teams":[]}
PotSize { pot: 1, number: 0 } | {"kind":"pairing","groups":-1,"pots":"2","teams":[],"limits":7,"places":[7]}
FieldMissing { name: Teams } | {"kind":"pairing","deep":[[[[[[[[[[[[[[[[[[[[[[[[[[[[[[[[[[[[[[[[[[[[[[[[[[[[[[[[[[[[[[[[[[[[[[[[[[[[[[[[[[[[[[[[[[[[[[[[[[[[[[[[[[[[[[[[[[[[[[[[[[[[[[]]]]]]]]]]]]]]]]]]]]]]]]]]]]]]]]]]]]]]]]]]]]]]]]]]]]]]]]]]]]]]]]]]]]]]]]]]]]]]]]]]]]]]]]]]]]]]]]]]]]]]]]]]]]]]]]]]]]]]]]]]]]]]}
NotJson | {"kind":"pairing","deep":[[[[[[[[[[[[[[[[[[[[[[[[[[[[[[[[[[[[[[[[[[[[[[[[[[[[[[[[[[[[[[[[[[[[[[[[[[[[[[[[[[[[[[[[[[[[[[[[[[[[[[[[[[[[[[[[[[[[[[[[[[[[[[[]]]]]]]]]]]]]]]]]]]]]]]]]]]]]]]]]]]]]]]]]]]]]]]]]]]]]]]]]]]]]]]]]]]]]]]]]]]]]]]]]]]]]]]]]]]]]]]]]]]]]]]]]]]]]]]]]]]]]]]]]]]]]]]}
"#;

/// Second teams of a head of two.
const TEAMS: &str = r#"
FieldWrong { name: Teams } | 7
FieldWrong { name: Teams } | null
FieldMissing { name: Code } | {}
FieldMissing { name: Code } | {"pot":9}
FieldMissing { name: Pot } | {"code":7,"tags":[],"group":"B"}
FieldMissing { name: Tags } | {"code":"BBB","pot":9,"group":"B"}
FieldMissing { name: Group } | {"code":7,"pot":2,"tags":["Y"]}
FieldWrong { name: Code } | {"code":7,"name":7,"pot":9,"tags":["Y"],"group":"B"}
FieldWrong { name: Name } | {"code":"BBB","name":7,"pot":9,"tags":["Y"],"group":"B"}
FieldWrong { name: Pot } | {"code":"BBB","pot":3,"tags":[],"group":"B"}
FieldWrong { name: Pot } | {"code":"BBB","pot":0,"tags":["Y"],"group":"B"}
FieldWrong { name: Pot } | {"code":"BBB","pot":"1","tags":["Y"],"group":"B"}
FieldWrong { name: Pot } | {"code":"BBB","pot":2.0,"tags":["Y"],"group":"B"}
FieldWrong { name: Pot } | {"code":"BBB","pot":-1,"tags":["Y"],"group":"B"}
FieldWrong { name: Pot } | {"code":"BBB","pot":-0,"tags":["Y"],"group":"B"}
FieldWrong { name: Pot } | {"code":"BBB","pot":1e3,"tags":["Y"],"group":"B"}
FieldWrong { name: Pot } | {"code":"BBB","pot":18446744073709551615,"tags":["Y"],"group":"B"}
FieldWrong { name: Pot } | {"code":"BBB","pot":18446744073709551616,"tags":["Y"],"group":"B"}
FieldWrong { name: Pot } | {"code":"BBB","pot":2,"pot":9,"tags":["Y"],"group":"B"}
none | {"code":"BBB","pot":9,"pot":2,"tags":["Y"],"group":"B"}
none | {"code":"AAA","code":"BBB","pot":2,"tags":["Y"],"group":"B"}
none | {"code":"BBB","name":"","pot":2,"tags":["Y"],"group":"B"}
FieldWrong { name: Name } | {"code":"BBB","name":null,"pot":2,"tags":["Y"],"group":"B"}
FieldWrong { name: Code } | {"code":null,"pot":2,"tags":["Y"],"group":"B"}
FieldWrong { name: Tags } | {"code":"BBB","pot":2,"tags":[],"group":7}
FieldWrong { name: Tags } | {"code":"BBB","pot":2,"tags":["X","Y","Z"],"group":"B"}
FieldWrong { name: Tags } | {"code":"BBB","pot":2,"tags":["Y","Y"],"group":"B"}
FieldWrong { name: Tags } | {"code":"BBB","pot":2,"tags":["y"],"group":"B"}
FieldWrong { name: Tags } | {"code":"BBB","pot":2,"tags":["ABCDEFGHIJKLMNOPQ"],"group":"B"}
none | {"code":"BBB","pot":2,"tags":["ABCDEFGHIJKLMNOP"],"group":"B"}
FieldWrong { name: Group } | {"code":"BBB","pot":2,"tags":["Y"],"group":"AB"}
FieldWrong { name: Group } | {"code":"BBB","pot":2,"tags":["Y"],"group":"a"}
FieldWrong { name: Group } | {"code":"BBB","pot":2,"tags":["Y"],"group":null}
BadCode { place: 1 } | {"code":"bbb","pot":2,"tags":["Y"],"group":"B"}
none | {"code":"\u0042BB","pot":2,"tags":["\u0059"],"group":"\u0042"}
SameCode AAA | {"code":"\u0041AA","pot":1,"tags":["Y"],"group":"B"}
SameCode AAA | {"code":"AAA","pot":1,"tags":["Y"],"group":"B"}
PotSize { pot: 2, number: 0 } | {"code":"BBB","pot":1,"tags":["Y"],"group":"B"}
"#;

/// Codes of a second team.
const CODES: &str = r#"
none | AZ0
none | 09Z
BadCode { place: 1 } | @BB
BadCode { place: 1 } | B[B
BadCode { place: 1 } | BB/
BadCode { place: 1 } | :BB
BadCode { place: 1 } | B`B
BadCode { place: 1 } | BBa
BadCode { place: 1 } | BB
BadCode { place: 1 } | BBBB
BadCode { place: 1 } | 
BadCode { place: 1 } | BÄ
"#;

/// Tags of a second team, as the list has them.
const TAGS: &str = r#"
none | "0"
none | "AZ","09"
none | "ABCDEFGHIJKLMNOP"
FieldWrong { name: Tags } | 
FieldWrong { name: Tags } | ""
FieldWrong { name: Tags } | "@"
FieldWrong { name: Tags } | "A["
FieldWrong { name: Tags } | "/"
FieldWrong { name: Tags } | "0:"
FieldWrong { name: Tags } | "`"
FieldWrong { name: Tags } | "a"
FieldWrong { name: Tags } | "Y",7
FieldWrong { name: Tags } | null
FieldWrong { name: Tags } | "Y","Z","Y"
FieldWrong { name: Tags } | "ABCDEFGHIJKLMNOPQ"
"#;

/// Group letters of a second team.
const LETTERS: &str = r#"
none | A
none | Z
FieldWrong { name: Group } | @
FieldWrong { name: Group } | [
FieldWrong { name: Group } | 1
FieldWrong { name: Group } | 
FieldWrong { name: Group } | Ä
"#;

/// Lists of teams. Where two faults hold, the list stands in both orders.
const LISTS: &str = r#"
none | {"code":"AAA","pot":1,"tags":["X"],"group":"A"},{"code":"BBB","pot":2,"tags":["X"],"group":"A"}
none | {"code":"BBB","pot":2,"tags":["X"],"group":"A"},{"code":"AAA","pot":1,"tags":["X"],"group":"A"}
none | {"code":"AAA","pot":1,"tags":["X"],"group":"A"},{"code":"BBB","pot":2,"tags":["X"],"group":"A"},{"code":"CCC","pot":1,"tags":["X"],"group":"A"},{"code":"DDD","pot":2,"tags":["X"],"group":"A"}
none | {"code":"DDD","pot":2,"tags":["X"],"group":"A"},{"code":"CCC","pot":1,"tags":["X"],"group":"A"},{"code":"BBB","pot":2,"tags":["X"],"group":"A"},{"code":"AAA","pot":1,"tags":["X"],"group":"A"}
BadCode { place: 2 } | {"code":"AAA","pot":1,"tags":["X"],"group":"A"},{"code":"AAA","pot":1,"tags":["X"],"group":"A"},{"code":"bbb","pot":2,"tags":["X"],"group":"A"}
BadCode { place: 0 } | {"code":"bbb","pot":2,"tags":["X"],"group":"A"},{"code":"AAA","pot":1,"tags":["X"],"group":"A"},{"code":"AAA","pot":1,"tags":["X"],"group":"A"}
BadCode { place: 0 } | {"code":"bbb","pot":2,"tags":["X"],"group":"A"},{"code":"bbb","pot":2,"tags":["X"],"group":"A"}
SameCode AAA | {"code":"AAA","pot":1,"tags":["X"],"group":"A"},{"code":"AAA","pot":1,"tags":["X"],"group":"A"}
SameCode BBB | {"code":"AAA","pot":1,"tags":["X"],"group":"A"},{"code":"BBB","pot":1,"tags":["X"],"group":"A"},{"code":"BBB","pot":1,"tags":["X"],"group":"A"},{"code":"AAA","pot":1,"tags":["X"],"group":"A"}
SameCode AAA | {"code":"AAA","pot":1,"tags":["X"],"group":"A"},{"code":"BBB","pot":1,"tags":["X"],"group":"A"},{"code":"AAA","pot":1,"tags":["X"],"group":"A"},{"code":"BBB","pot":1,"tags":["X"],"group":"A"}
PotSize { pot: 1, number: 0 } | {"code":"AAA","pot":2,"tags":["X"],"group":"A"},{"code":"BBB","pot":2,"tags":["X"],"group":"A"}
PotSize { pot: 2, number: 0 } | {"code":"AAA","pot":1,"tags":["X"],"group":"A"},{"code":"BBB","pot":1,"tags":["X"],"group":"A"}
PotSize { pot: 2, number: 1 } | {"code":"AAA","pot":1,"tags":["X"],"group":"A"},{"code":"CCC","pot":1,"tags":["X"],"group":"A"},{"code":"BBB","pot":2,"tags":["X"],"group":"A"}
PotSize { pot: 2, number: 2 } | {"code":"BBB","pot":2,"tags":["X"],"group":"A"},{"code":"AAA","pot":1,"tags":["X"],"group":"A"},{"code":"DDD","pot":2,"tags":["X"],"group":"A"}
FieldWrong { name: Pot } | {"code":"AAA","pot":3,"tags":["X"],"group":"A"},{"code":"bbb","pot":1,"tags":["X"],"group":"A"}
FieldWrong { name: Pot } | {"code":"bbb","pot":1,"tags":["X"],"group":"A"},{"code":"AAA","pot":3,"tags":["X"],"group":"A"}
FieldWrong { name: Pot } | {"code":"AAA","pot":0,"tags":["X"],"group":"A"},{"code":"AAA","pot":1,"tags":["X"],"group":"A"}
"#;

/// Forbidden pairs of a head of two teams.
const PAIRS: &str = r#"
FieldWrong { name: Pairs } | 7
FieldWrong { name: Pairs } | [7]
FieldWrong { name: Pairs } | [["AAA"]]
FieldWrong { name: Pairs } | [["AAA",7]]
FieldWrong { name: Pairs } | [["AAA","BBB","CCC"]]
none | []
"#;

/// The tables, each with the texts before and behind its parts.
const TABLES: [(&str, &str, &str); 7] = [
    (HEADS, "", ""),
    (
        TEAMS,
        r#"{"kind":"pairing","teams":[{"code":"AAA","pot":1,"tags":["X"],"group":"A"},"#,
        "]}",
    ),
    (
        CODES,
        r#"{"kind":"pairing","teams":[{"code":"AAA","pot":1,"tags":["X"],"group":"A"},{"pot":2,"tags":["Y"],"group":"B","code":""#,
        r#""}]}"#,
    ),
    (
        TAGS,
        r#"{"kind":"pairing","teams":[{"code":"AAA","pot":1,"tags":["X"],"group":"A"},{"pot":2,"code":"BBB","group":"B","tags":["#,
        "]}]}",
    ),
    (
        LETTERS,
        r#"{"kind":"pairing","teams":[{"code":"AAA","pot":1,"tags":["X"],"group":"A"},{"pot":2,"code":"BBB","tags":["Y"],"group":""#,
        r#""}]}"#,
    ),
    (LISTS, r#"{"kind":"pairing","teams":["#, "]}"),
    (
        PAIRS,
        r#"{"kind":"pairing","teams":[{"code":"AAA","pot":1,"tags":["X"],"group":"A"},{"code":"BBB","pot":2,"tags":["Y"],"group":"B"}],"pairs":"#,
        "}",
    ),
];

/// A head's first fault, as `Debug` writes it but for a code, or `none`.
pub(crate) fn fault_text(alloc: Global, head: &[u8]) -> Result<String, AllocError> {
    let Err(fault) = read_head(alloc, head) else {
        return String::from_str(alloc, "none");
    };
    text_of(alloc, &fault)
}

fn text_of(alloc: Global, fault: &FileFault) -> Result<String, AllocError> {
    match fault {
        FileFault::SameCode { code } => format!(in alloc; "SameCode {}", code.text()),
        _ => format!(in alloc; "{fault:?}"),
    }
}

/// Each line of the table tells the first fault of the head that has its part between the two texts.
fn expect_table(
    rt: &impl Abort,
    alloc: Global,
    table: &str,
    start: &str,
    end: &str,
) -> Result<(), Fail> {
    for line in table.lines() {
        if let Some((fault, part)) = line.split_once(" | ") {
            let head = format!(in alloc; "{start}{part}{end}")?;
            let said = fault_text(alloc, head.as_bytes())?;
            assert!(rt; said.as_str() == fault, "{head}: {said}");
        }
    }
    Ok(())
}

/// Tables, each with the texts before and behind its parts.
pub(crate) fn expect_tables(
    rt: &impl Abort,
    alloc: Global,
    tables: &[(&str, &str, &str)],
) -> Result<(), Fail> {
    for (table, start, end) in tables {
        expect_table(rt, alloc, table, start, end)?;
    }
    Ok(())
}

#[test]
fn heads_are_refused(rt: HostRuntime) -> Result<(), Fail> {
    expect_tables(&rt, rt.alloc(), &TABLES)
}

/// A head of as many teams as there may be.
const FORTY: &str = r#"{"kind":"pairing","teams":[
{"code":"A00","pot":1,"tags":["X"],"group":"A"},{"code":"A01","pot":1,"tags":["X"],"group":"A"},
{"code":"A02","pot":1,"tags":["X"],"group":"A"},{"code":"A03","pot":1,"tags":["X"],"group":"A"},
{"code":"A04","pot":1,"tags":["X"],"group":"A"},{"code":"A05","pot":1,"tags":["X"],"group":"A"},
{"code":"A06","pot":1,"tags":["X"],"group":"A"},{"code":"A07","pot":1,"tags":["X"],"group":"A"},
{"code":"A08","pot":1,"tags":["X"],"group":"A"},{"code":"A09","pot":1,"tags":["X"],"group":"A"},
{"code":"A10","pot":1,"tags":["X"],"group":"A"},{"code":"A11","pot":1,"tags":["X"],"group":"A"},
{"code":"A12","pot":1,"tags":["X"],"group":"A"},{"code":"A13","pot":1,"tags":["X"],"group":"A"},
{"code":"A14","pot":1,"tags":["X"],"group":"A"},{"code":"A15","pot":1,"tags":["X"],"group":"A"},
{"code":"A16","pot":1,"tags":["X"],"group":"A"},{"code":"A17","pot":1,"tags":["X"],"group":"A"},
{"code":"A18","pot":1,"tags":["X"],"group":"A"},{"code":"A19","pot":1,"tags":["X"],"group":"A"},
{"code":"B00","pot":2,"tags":["X"],"group":"A"},{"code":"B01","pot":2,"tags":["X"],"group":"A"},
{"code":"B02","pot":2,"tags":["X"],"group":"A"},{"code":"B03","pot":2,"tags":["X"],"group":"A"},
{"code":"B04","pot":2,"tags":["X"],"group":"A"},{"code":"B05","pot":2,"tags":["X"],"group":"A"},
{"code":"B06","pot":2,"tags":["X"],"group":"A"},{"code":"B07","pot":2,"tags":["X"],"group":"A"},
{"code":"B08","pot":2,"tags":["X"],"group":"A"},{"code":"B09","pot":2,"tags":["X"],"group":"A"},
{"code":"B10","pot":2,"tags":["X"],"group":"A"},{"code":"B11","pot":2,"tags":["X"],"group":"A"},
{"code":"B12","pot":2,"tags":["X"],"group":"A"},{"code":"B13","pot":2,"tags":["X"],"group":"A"},
{"code":"B14","pot":2,"tags":["X"],"group":"A"},{"code":"B15","pot":2,"tags":["X"],"group":"A"},
{"code":"B16","pot":2,"tags":["X"],"group":"A"},{"code":"B17","pot":2,"tags":["X"],"group":"A"},
{"code":"B18","pot":2,"tags":["X"],"group":"A"},{"code":"B19","pot":2,"tags":["X"],"group":"A"}
]}"#;

#[test]
fn forty_teams_pass(rt: HostRuntime) -> Result<(), Fail> {
    let said = fault_text(rt.alloc(), FORTY.as_bytes())?;
    assert!(rt; said.as_str() == "none");
    Ok(())
}

#[test]
fn bytes_that_are_no_text_are_refused(rt: HostRuntime) -> Result<(), Fail> {
    let bytes = [b'{', b'"', 0xff, b'"', b':', b'7', b'}'];
    let said = fault_text(rt.alloc(), &bytes)?;
    assert!(rt; said.as_str() == "NotJson");
    Ok(())
}

/// A head of long lists in short: its kind, a team and a forbidden pair, each with how often it
/// stands before a last one, what stands behind sixteen limits, and how many fixed places stand
/// before a last one.
pub(crate) type LongHead = (
    &'static str,
    (&'static str, usize),
    (&'static str, usize),
    &'static str,
    usize,
);

/// The part so many times.
fn repeated(alloc: Global, part: &str, number: usize) -> Result<String, AllocError> {
    let mut list = String::new(alloc);
    for _ in 0..number {
        list.push_str(part)?;
    }
    Ok(list)
}

/// The first fault of a head of long lists.
fn fault_of_long_head(alloc: Global, head: &LongHead) -> Result<String, AllocError> {
    let (kind, (team, team_number), (pair, pair_number), limits, place_number) = head;
    let teams = repeated(alloc, team, *team_number)?;
    let pairs = repeated(alloc, pair, *pair_number)?;
    let places = repeated(alloc, PLACE, *place_number)?;
    let head = format!(in alloc;
        r#"{{"kind":"{kind}","groups":8,"pots":4,"limits":[{SIXTEEN_LIMITS}{limits}],
"teams":[{teams}{{"code":"BBB","pot":2,"tags":["Y"],"group":"B"}}],
"pairs":[{pairs}["",""]],"places":[{places}{{"code":"","group":"A","position":1}}]}}"#
    )?;
    fault_text(alloc, head.as_bytes())
}

/// Heads of long lists, each behind its first fault.
pub(crate) fn expect_long_heads(
    rt: &impl Abort,
    alloc: Global,
    heads: &[(&str, LongHead)],
) -> Result<(), Fail> {
    for (fault, head) in heads {
        let said = fault_of_long_head(alloc, head)?;
        assert!(rt; said.as_str() == *fault, "{said}");
    }
    Ok(())
}

/// A fixed place.
const PLACE: &str = r#"{"code":"","group":"A","position":1},"#;

/// Limits of different tags.
const SIXTEEN_LIMITS: &str = r#"
{"tag":"T0","lo":0,"hi":1},{"tag":"T1","lo":0,"hi":1},{"tag":"T2","lo":0,"hi":1},
{"tag":"T3","lo":0,"hi":1},{"tag":"T4","lo":0,"hi":1},{"tag":"T5","lo":0,"hi":1},
{"tag":"T6","lo":0,"hi":1},{"tag":"T7","lo":0,"hi":1},{"tag":"T8","lo":0,"hi":1},
{"tag":"T9","lo":0,"hi":1},{"tag":"T10","lo":0,"hi":1},{"tag":"T11","lo":0,"hi":1},
{"tag":"T12","lo":0,"hi":1},{"tag":"T13","lo":0,"hi":1},{"tag":"T14","lo":0,"hi":1},
{"tag":"T15","lo":0,"hi":1}"#;

/// A team with a code, and one without.
const CODED: &str = r#"{"code":"AAA","pot":1,"tags":["X"],"group":"A"},"#;

pub(crate) const UNCODED: &str = r#"{"code":"bbb","pot":1,"tags":["X"],"group":"A"},"#;

/// A pair of two texts.
pub(crate) const TEXTS: &str = r#"["",""],"#;

/// Long heads, each behind its first fault. A pairing has no limits and no fixed places.
const LONG_HEADS: [(&str, LongHead); 5] = [
    (
        "none",
        ("pairing", (CODED, 1), (TEXTS, 63), SEVENTEENTH, 40),
    ),
    (
        "FieldWrong { name: Pairs }",
        ("pairing", (UNCODED, 40), ("[],", 64), SEVENTEENTH, 40),
    ),
    (
        "TooMany { what: Teams, number: 41 }",
        ("pairing", (UNCODED, 40), (TEXTS, 64), SEVENTEENTH, 40),
    ),
    (
        "TooMany { what: Pairs, number: 65 }",
        ("pairing", (UNCODED, 39), (TEXTS, 64), SEVENTEENTH, 40),
    ),
    (
        "BadCode { place: 0 }",
        ("pairing", (UNCODED, 39), (TEXTS, 63), SEVENTEENTH, 40),
    ),
];

/// What makes sixteen limits seventeen.
pub(crate) const SEVENTEENTH: &str = r#",{"tag":"T16","lo":0,"hi":1}"#;

#[test]
fn lists_have_limits(rt: HostRuntime) -> Result<(), Fail> {
    expect_long_heads(&rt, rt.alloc(), &LONG_HEADS)
}

/// Whether the team has the code, which is its name too, the pot, the tag alone and the letter.
fn is_team(team: &Team, code: &str, pot: u32, tag: &str, letter: u8) -> bool {
    team.code.text() == code
        && team.name.bytes() == code.as_bytes()
        && team.pot == pot
        && has_one_tag(team, tag)
        && team.group_letter == Some(letter)
}

fn has_one_tag(team: &Team, tag: &str) -> bool {
    let tags = team.tags.as_slice();
    tags.len() == 1 && tags[0].bytes() == tag.as_bytes()
}

fn has_two_tags(team: &Team, first: &str, second: &str) -> bool {
    let tags = team.tags.as_slice();
    tags.len() == 2 && tags[0].bytes() == first.as_bytes() && tags[1].bytes() == second.as_bytes()
}

/// A head of two teams and nothing more.
const TWO_TEAMS: &str = r#"{"kind":"pairing","teams":[
{"code":"AAA","pot":1,"tags":["X"],"group":"A"},
{"code":"BBB","pot":2,"tags":["Y"],"group":"B"}]}"#;

/// The head of the two teams.
fn expect_two_teams(rt: &impl Abort, head: &Head) {
    assert!(rt; head.kind() == Kind::Pairing && head.groups() == 0 && head.pots() == 2);
    assert!(rt; head.limits().is_empty() && head.pairs().is_empty() && head.places().is_empty());
    assert_eq!(rt; head.teams().number(), 2);
    assert!(rt; is_team(head.teams().get(TeamId(0)), "AAA", 1, "X", b'A'));
    assert!(rt; is_team(head.teams().get(TeamId(1)), "BBB", 2, "Y", b'B'));
}

fn expect_found(rt: &impl Abort, teams: &Teams, code: &str, wanted: Option<TeamId>) {
    let found = Code::read(code.as_bytes()).map(|code| teams.find(code));
    assert!(rt; found == Some(wanted), "{code}");
}

#[test]
fn a_head_is_read(rt: HostRuntime) -> Result<(), Fail> {
    let head = read_head(rt.alloc(), TWO_TEAMS.as_bytes())?;
    expect_two_teams(&rt, &head);
    let teams = head.into_teams();
    expect_found(&rt, &teams, "AAA", Some(TeamId(0)));
    expect_found(&rt, &teams, "BBB", Some(TeamId(1)));
    expect_found(&rt, &teams, "CCC", None);
    Ok(())
}

/// Members that no pairing has, a name, pairs, and members that are repeated.
const RICH: &str =
    r#"{"kind":"cup","groups":7,"limits":7,"kind":"pairing","pairs":[["AAA","CCC"]],"teams":[
{"code":"AAA","name":"Ajax","pot":1,"tags":["X","Y"],"group":"C","coach":7},
{"code":"BBB","pot":1,"pot":2,"tags":["Y"],"group":"B"}]}"#;

fn expect_rich(rt: &impl Abort, head: &Head) {
    assert_eq!(rt; head.teams().number(), 2);
    let first = head.teams().get(TeamId(0));
    assert!(rt; first.name.bytes() == "Ajax".as_bytes() && has_two_tags(first, "X", "Y"));
    assert_eq!(rt; head.teams().get(TeamId(1)).pot, 2);
    assert_eq!(rt; head.pairs().len(), 1);
    let pair = &head.pairs()[0];
    assert!(rt; pair.first.bytes() == "AAA".as_bytes() && pair.second.bytes() == "CCC".as_bytes());
}

#[test]
fn a_rich_head_is_read(rt: HostRuntime) -> Result<(), Fail> {
    let head = read_head(rt.alloc(), RICH.as_bytes())?;
    expect_rich(&rt, &head);
    Ok(())
}
