//! Heads of group draws.

use crate::tests::{LongHead, SEVENTEENTH, TEXTS, UNCODED, expect_long_heads, expect_tables};
use crate::{Head, Kind, TeamId, read_head};
use std::process::Abort;
use std::test::Fail;

/// Members of a head of two teams, one a pot.
const MEMBERS: &str = r#"
none | "groups":1,"pots":2,
none | "groups":1,"pots":2,"pairs":[],"limits":[],"places":[],
FieldMissing { name: Groups } | 
FieldMissing { name: Groups } | "pots":2,
FieldMissing { name: Groups } | "pots":7.5,"limits":[{}],
FieldMissing { name: Pots } | "groups":1,
FieldMissing { name: Pots } | "groups":"1","limits":[{}],
FieldMissing { name: Tag } | "groups":0,"pots":0,"limits":[{}],"places":[{}],
FieldMissing { name: Code } | "groups":0,"pots":0,"limits":[7],"places":[{}],
FieldWrong { name: Groups } | "groups":0,"pots":0,
FieldWrong { name: Groups } | "groups":null,"pots":2,
FieldWrong { name: Groups } | "groups":"1","pots":2,
FieldWrong { name: Groups } | "groups":1.0,"pots":2,
FieldWrong { name: Groups } | "groups":-1,"pots":2,
FieldWrong { name: Groups } | "groups":18446744073709551616,"pots":2,
FieldWrong { name: Pots } | "groups":1,"pots":0,
FieldWrong { name: Pots } | "groups":1,"pots":[2],
FieldWrong { name: Pots } | "groups":9,"pots":-1,
FieldWrong { name: Pot } | "groups":9,"pots":1,
FieldWrong { name: Limits } | "groups":9,"pots":5,"limits":7,"pairs":7,"places":7,
FieldWrong { name: Pairs } | "groups":9,"pots":5,"pairs":7,"places":7,
FieldWrong { name: Places } | "groups":9,"pots":5,"places":7,
FieldWrong { name: Hi } | "groups":9,"pots":5,"limits":[{"tag":"X","lo":2,"hi":1}],"pairs":7,"places":7,
TooMany { what: Groups, number: 9 } | "groups":9,"pots":5,
TooMany { what: Groups, number: 4294967297 } | "groups":4294967297,"pots":2,
TooMany { what: Groups, number: 18446744073709551615 } | "groups":18446744073709551615,"pots":18446744073709551615,
TooMany { what: Pots, number: 5 } | "groups":8,"pots":5,
TooMany { what: Pots, number: 4294967298 } | "groups":1,"pots":4294967298,
PotSize { pot: 1, number: 1 } | "groups":8,"pots":4,
PotSize { pot: 1, number: 1 } | "groups":2,"pots":2,
PotSize { pot: 3, number: 0 } | "groups":1,"pots":3,
PotSize { pot: 3, number: 0 } | "groups":1,"pots":4,
"#;

/// Limits of a head of the two teams.
const LIMITS: &str = r#"
none | []
none | [{"tag":"X","lo":0,"hi":0}]
none | [{"tag":"ABCDEFGHIJKLMNOP","lo":64,"hi":64},{"tag":"0","lo":0,"hi":64,"name":7}]
FieldWrong { name: Limits } | null
FieldWrong { name: Limits } | {}
FieldWrong { name: Limits } | [7]
FieldWrong { name: Limits } | [{"tag":7,"lo":65,"hi":1},7]
FieldMissing { name: Tag } | [{}]
FieldMissing { name: Tag } | [7,{"lo":0}]
FieldMissing { name: Lo } | [{"tag":7,"hi":1}]
FieldMissing { name: Hi } | [{"tag":"x","lo":65}]
FieldMissing { name: Hi } | [{"tag":"X","lo":0},{}]
FieldWrong { name: Tag } | [{"tag":"x","lo":65,"hi":65}]
FieldWrong { name: Tag } | [{"tag":"","lo":0,"hi":1}]
FieldWrong { name: Tag } | [{"tag":"ABCDEFGHIJKLMNOPQ","lo":0,"hi":1}]
FieldWrong { name: Tag } | [{"tag":["X"],"lo":0,"hi":1}]
FieldWrong { name: Tag } | [{"tag":"X","lo":0,"hi":1},{"tag":"Y","lo":0,"hi":1},{"tag":"X","lo":65,"hi":1}]
FieldWrong { name: Lo } | [{"tag":"X","lo":65,"hi":65}]
FieldWrong { name: Lo } | [{"tag":"X","lo":0.0,"hi":65}]
FieldWrong { name: Lo } | [{"tag":"X","lo":-1,"hi":1}]
FieldWrong { name: Lo } | [{"tag":"X","lo":18446744073709551615,"hi":1}]
FieldWrong { name: Hi } | [{"tag":"X","lo":0,"hi":65}]
FieldWrong { name: Hi } | [{"tag":"X","lo":64,"hi":63}]
FieldWrong { name: Hi } | [{"tag":"X","lo":0,"hi":null}]
FieldWrong { name: Hi } | [{"tag":"X","lo":2,"hi":1},{"tag":"X","lo":0,"hi":1}]
"#;

/// Fixed places of a head of the two teams.
const PLACES: &str = r#"
none | []
none | [{"code":"AAA","group":"A","position":1}]
none | [{"code":"","group":"Z","position":18446744073709551615},{"code":"","group":"Z","position":1}]
FieldWrong { name: Places } | null
FieldWrong { name: Places } | {}
FieldWrong { name: Places } | [7]
FieldWrong { name: Places } | [{"code":7,"group":"a","position":0},[]]
FieldMissing { name: Code } | [{}]
FieldMissing { name: Code } | [7,{"position":1}]
FieldMissing { name: Group } | [{"code":7,"position":0}]
FieldMissing { name: Position } | [{"code":7,"group":"a"},{}]
FieldWrong { name: Code } | [{"code":7,"group":"a","position":0}]
FieldWrong { name: Group } | [{"code":"AAA","group":"a","position":0}]
FieldWrong { name: Group } | [{"code":"AAA","group":"AB","position":1}]
FieldWrong { name: Group } | [{"code":"AAA","group":"","position":1}]
FieldWrong { name: Group } | [{"code":"AAA","group":1,"position":1}]
FieldWrong { name: Position } | [{"code":"AAA","group":"A","position":0}]
FieldWrong { name: Position } | [{"code":"AAA","group":"A","position":1.0}]
FieldWrong { name: Position } | [{"code":"AAA","group":"A","position":"1"}]
FieldWrong { name: Position } | [{"code":"AAA","group":"A","position":18446744073709551616}]
"#;

/// Teams of a head with one group and two pots. Their first-round groups are ignored.
const TEAM_LISTS: &str = r#"
none | {"code":"BBB","pot":2,"tags":["X"],"group":7},{"code":"AAA","pot":1,"tags":["X"]}
FieldMissing { name: Code } | {"pot":3}
FieldMissing { name: Tags } | {"code":"AAA","pot":3}
FieldWrong { name: Pot } | {"code":"AAA","pot":3,"tags":["X"]}
FieldWrong { name: Tags } | {"code":"AAA","pot":1,"tags":["X","X"]}
BadCode { place: 0 } | {"code":"aaa","pot":1,"tags":["X"]},{"code":"aaa","pot":1,"tags":["X"]}
SameCode AAA | {"code":"AAA","pot":1,"tags":["X"]},{"code":"AAA","pot":1,"tags":["X"]}
PotSize { pot: 1, number: 0 } | 
PotSize { pot: 1, number: 0 } | {"code":"AAA","pot":2,"tags":["X"]},{"code":"BBB","pot":2,"tags":["X"]}
PotSize { pot: 1, number: 2 } | {"code":"AAA","pot":1,"tags":["X"]},{"code":"BBB","pot":1,"tags":["X"]}
PotSize { pot: 2, number: 0 } | {"code":"AAA","pot":1,"tags":["X"]}
PotSize { pot: 2, number: 2 } | {"code":"AAA","pot":2,"tags":["X"]},{"code":"BBB","pot":1,"tags":["X"]},{"code":"CCC","pot":2,"tags":["X"]}
"#;

/// The tables, each with the texts before and behind its parts.
const TABLES: [(&str, &str, &str); 4] = [
    (
        MEMBERS,
        r#"{"kind":"group","#,
        r#""teams":[{"code":"AAA","pot":1,"tags":["X"]},{"code":"BBB","pot":2,"tags":["X","Y"]}]}"#,
    ),
    (
        LIMITS,
        r#"{"kind":"group","groups":1,"pots":2,"teams":[{"code":"AAA","pot":1,"tags":["X"]},{"code":"BBB","pot":2,"tags":["X","Y"]}],"limits":"#,
        "}",
    ),
    (
        PLACES,
        r#"{"kind":"group","groups":1,"pots":2,"teams":[{"code":"AAA","pot":1,"tags":["X"]},{"code":"BBB","pot":2,"tags":["X","Y"]}],"places":"#,
        "}",
    ),
    (
        TEAM_LISTS,
        r#"{"kind":"group","groups":1,"pots":2,"teams":["#,
        "]}",
    ),
];

#[test]
fn group_heads_are_refused(rt: HostRuntime) -> Result<(), Fail> {
    expect_tables(&rt, rt.alloc(), &TABLES)
}

/// Long heads, each behind its first fault.
const LONG_HEADS: [(&str, LongHead); 5] = [
    (
        "BadCode { place: 0 }",
        ("group", (UNCODED, 39), (TEXTS, 63), "", 39),
    ),
    (
        "TooMany { what: Teams, number: 41 }",
        ("group", (UNCODED, 40), (TEXTS, 64), SEVENTEENTH, 40),
    ),
    (
        "TooMany { what: Limits, number: 17 }",
        ("group", (UNCODED, 39), (TEXTS, 64), SEVENTEENTH, 40),
    ),
    (
        "TooMany { what: Pairs, number: 65 }",
        ("group", (UNCODED, 39), (TEXTS, 64), "", 40),
    ),
    (
        "TooMany { what: Places, number: 41 }",
        ("group", (UNCODED, 39), (TEXTS, 63), "", 40),
    ),
];

#[test]
fn lists_of_a_group_head_have_limits(rt: HostRuntime) -> Result<(), Fail> {
    expect_long_heads(&rt, rt.alloc(), &LONG_HEADS)
}

/// A head of two groups and one pot.
const RICH: &str = r#"{"kind":"group","groups":2,"pots":1,"pairs":[["AAA","BBB"]],
"limits":[{"tag":"X","lo":0,"hi":2},{"tag":"Y","lo":1,"hi":1}],
"places":[{"code":"BBB","group":"B","position":1}],
"teams":[{"code":"BBB","pot":1,"tags":["Y"]},{"code":"AAA","pot":1,"tags":["X"],"group":"A"}]}"#;

fn expect_rich(rt: &impl Abort, head: &Head) {
    assert!(rt; head.kind() == Kind::Group && head.groups() == 2 && head.pots() == 1);
    assert_eq!(rt; head.teams().number(), 2);
    let second = head.teams().get(TeamId(1));
    assert!(rt; second.code.text() == "AAA" && second.group_letter.is_none());
    assert_eq!(rt; head.limits().len(), 2);
    let limit = &head.limits()[1];
    assert!(rt; limit.tag.bytes() == "Y".as_bytes() && limit.lo == 1 && limit.hi == 1);
    assert_eq!(rt; head.places().len(), 1);
    let place = &head.places()[0];
    assert!(rt; place.code.bytes() == "BBB".as_bytes());
    assert!(rt; place.group == b'B' && place.position == 1 && head.pairs().len() == 1);
}

#[test]
fn a_group_head_is_read(rt: HostRuntime) -> Result<(), Fail> {
    let head = read_head(rt.alloc(), RICH.as_bytes())?;
    expect_rich(&rt, &head);
    Ok(())
}
