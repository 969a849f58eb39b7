//! Files of group draws.

use crate::tests::expect_table;
use crate::{DrawFile, Limit, Place, read_file};
use std::alloc::{AllocError, Global};
use std::process::Abort;
use std::test::Fail;
use team_files::{Kind, TeamId};

/// Limits, pairs and places of a head of four teams, each behind the head's first fault.
const LOOKED_UP: &str = r#"
none | "limits":[{"tag":"X","lo":0,"hi":2},{"tag":"Y","lo":0,"hi":1}]
none | "limits":[{"tag":"Z","lo":0,"hi":2},{"tag":"Y","lo":64,"hi":64},{"tag":"X","lo":0,"hi":0}]
UnknownTag { place: 0 } | "limits":[]
UnknownTag { place: 0 } | "pairs":[]
UnknownTag { place: 0 } | "limits":[{"tag":"Y","lo":0,"hi":2}]
UnknownTag { place: 0 } | "limits":[{"tag":"Z","lo":0,"hi":2}],"pairs":[["AAA","AAA"]],"places":[{"code":"","group":"A","position":1}]
UnknownTag { place: 1 } | "limits":[{"tag":"X","lo":0,"hi":2}]
UnknownTag { place: 1 } | "limits":[{"tag":"X","lo":0,"hi":2},{"tag":"YY","lo":0,"hi":2}],"pairs":[["AAA","AAA"]]
UnknownTag { place: 1 } | "limits":[{"tag":"X","lo":0,"hi":2}],"places":[{"code":"","group":"A","position":1}]
"#;

/// Fixed places and forbidden pairs of a head of four teams, each behind the head's first fault.
const PLACES: &str = r#"
none | []
none | [{"code":"AAA","group":"A","position":1}]
none | [{"code":"CCC","group":"A","position":2},{"code":"BBB","group":"A","position":1},{"code":"DDD","group":"B","position":2},{"code":"AAA","group":"B","position":1}]
none | [{"code":"\u0041AA","group":"\u0042","position":1}]
BadPlace { place: 0 } | [{"code":"EEE","group":"A","position":1}]
BadPlace { place: 0 } | [{"code":"aaa","group":"A","position":1}]
BadPlace { place: 0 } | [{"code":"","group":"A","position":1}]
BadPlace { place: 0 } | [{"code":"AAA","group":"C","position":1}]
BadPlace { place: 0 } | [{"code":"AAA","group":"Z","position":1}]
BadPlace { place: 0 } | [{"code":"CCC","group":"A","position":3}]
BadPlace { place: 0 } | [{"code":"CCC","group":"A","position":4294967298}]
BadPlace { place: 0 } | [{"code":"CCC","group":"A","position":18446744073709551615}]
BadPlace { place: 0 } | [{"code":"CCC","group":"A","position":1}]
BadPlace { place: 0 } | [{"code":"AAA","group":"A","position":2}]
BadPlace { place: 1 } | [{"code":"AAA","group":"A","position":1},{"code":"AAA","group":"B","position":1}]
BadPlace { place: 1 } | [{"code":"AAA","group":"A","position":1},{"code":"BBB","group":"A","position":1}]
BadPlace { place: 1 } | [{"code":"CCC","group":"B","position":2},{"code":"DDD","group":"B","position":2}]
BadPlace { place: 1 } | [{"code":"CCC","group":"B","position":2},{"code":"AAA","group":"C","position":1},{"code":"CCC","group":"B","position":2}]
BadPlace { place: 2 } | [{"code":"CCC","group":"A","position":2},{"code":"BBB","group":"A","position":1},{"code":"CCC","group":"B","position":2}]
BadPair { place: 0 } | [{"code":"","group":"A","position":1}],"pairs":[["AAA","AAA"]]
BadPair { place: 1 } | [{"code":"","group":"A","position":1}],"pairs":[["AAA","BBB"],["AAA","EEE"]]
BadPlace { place: 0 } | [{"code":"","group":"A","position":1}],"pairs":[["AAA","DDD"]]
"#;

/// Two groups and two pots of two teams; the pots stand between one another.
const TEAMS: &str =
    r#"{"kind":"group","groups":2,"pots":2,"teams":[{"code":"AAA","pot":1,"tags":["X"]},{"code":"CCC","pot":2,"tags":["X","Y"]},{"code":"BBB","pot":1,"tags":["Y"]},{"code":"DDD","pot":2,"tags":["X"]}],"#;

/// The same with two limits.
const LIMITED: &str =
    r#"{"kind":"group","groups":2,"pots":2,"teams":[{"code":"AAA","pot":1,"tags":["X"]},{"code":"CCC","pot":2,"tags":["X","Y"]},{"code":"BBB","pot":1,"tags":["Y"]},{"code":"DDD","pot":2,"tags":["X"]}],"limits":[{"tag":"X","lo":0,"hi":2},{"tag":"Y","lo":0,"hi":1}],"places":"#;

#[test]
fn tags_and_limits_are_looked_up(rt: HostRuntime) -> Result<(), Fail> {
    expect_table(&rt, rt.alloc(), LOOKED_UP, TEAMS, "}")
}

#[test]
fn pairs_and_places_are_looked_up(rt: HostRuntime) -> Result<(), Fail> {
    expect_table(&rt, rt.alloc(), PLACES, LIMITED, "}")
}

/// A head of 8 groups and 4 pots, whose 32 teams have their places fixed.
const ALL_FIXED: &str =
    r#"{"kind":"group","groups":8,"pots":4,"limits":[{"tag":"X","lo":0,"hi":4}],"teams":[
{"code":"T10","pot":1,"tags":["X"]},{"code":"T11","pot":1,"tags":["X"]},
{"code":"T12","pot":1,"tags":["X"]},{"code":"T13","pot":1,"tags":["X"]},
{"code":"T14","pot":1,"tags":["X"]},{"code":"T15","pot":1,"tags":["X"]},
{"code":"T16","pot":1,"tags":["X"]},{"code":"T17","pot":1,"tags":["X"]},
{"code":"T20","pot":2,"tags":["X"]},{"code":"T21","pot":2,"tags":["X"]},
{"code":"T22","pot":2,"tags":["X"]},{"code":"T23","pot":2,"tags":["X"]},
{"code":"T24","pot":2,"tags":["X"]},{"code":"T25","pot":2,"tags":["X"]},
{"code":"T26","pot":2,"tags":["X"]},{"code":"T27","pot":2,"tags":["X"]},
{"code":"T30","pot":3,"tags":["X"]},{"code":"T31","pot":3,"tags":["X"]},
{"code":"T32","pot":3,"tags":["X"]},{"code":"T33","pot":3,"tags":["X"]},
{"code":"T34","pot":3,"tags":["X"]},{"code":"T35","pot":3,"tags":["X"]},
{"code":"T36","pot":3,"tags":["X"]},{"code":"T37","pot":3,"tags":["X"]},
{"code":"T40","pot":4,"tags":["X"]},{"code":"T41","pot":4,"tags":["X"]},
{"code":"T42","pot":4,"tags":["X"]},{"code":"T43","pot":4,"tags":["X"]},
{"code":"T44","pot":4,"tags":["X"]},{"code":"T45","pot":4,"tags":["X"]},
{"code":"T46","pot":4,"tags":["X"]},{"code":"T47","pot":4,"tags":["X"]}],
"places":[
{"code":"T10","group":"A","position":1},{"code":"T11","group":"B","position":1},
{"code":"T12","group":"C","position":1},{"code":"T13","group":"D","position":1},
{"code":"T14","group":"E","position":1},{"code":"T15","group":"F","position":1},
{"code":"T16","group":"G","position":1},{"code":"T17","group":"H","position":1},
{"code":"T20","group":"A","position":2},{"code":"T21","group":"B","position":2},
{"code":"T22","group":"C","position":2},{"code":"T23","group":"D","position":2},
{"code":"T24","group":"E","position":2},{"code":"T25","group":"F","position":2},
{"code":"T26","group":"G","position":2},{"code":"T27","group":"H","position":2},
{"code":"T30","group":"A","position":3},{"code":"T31","group":"B","position":3},
{"code":"T32","group":"C","position":3},{"code":"T33","group":"D","position":3},
{"code":"T34","group":"E","position":3},{"code":"T35","group":"F","position":3},
{"code":"T36","group":"G","position":3},{"code":"T37","group":"H","position":3},
{"code":"T40","group":"A","position":4},{"code":"T41","group":"B","position":4},
{"code":"T42","group":"C","position":4},{"code":"T43","group":"D","position":4},
{"code":"T44","group":"E","position":4},{"code":"T45","group":"F","position":4},
{"code":"T46","group":"G","position":4},{"code":"T47","group":"H","position":4}"#;

/// Fixed places behind these, each behind the head's first fault.
const MORE: &str = r#"
none | 
BadPlace { place: 32 } | ,{"code":"T10","group":"A","position":1}
BadPlace { place: 32 } | ,{"code":"T10","group":"A","position":1},{"code":"T11","group":"B","position":1},{"code":"T12","group":"C","position":1},{"code":"T13","group":"D","position":1},{"code":"T14","group":"E","position":1},{"code":"T15","group":"F","position":1},{"code":"T16","group":"G","position":1},{"code":"T17","group":"H","position":1}
TooMany { what: Places, number: 41 } | ,{"code":"T10","group":"A","position":1},{"code":"T11","group":"B","position":1},{"code":"T12","group":"C","position":1},{"code":"T13","group":"D","position":1},{"code":"T14","group":"E","position":1},{"code":"T15","group":"F","position":1},{"code":"T16","group":"G","position":1},{"code":"T17","group":"H","position":1},{"code":"T20","group":"A","position":2}
"#;

#[test]
fn all_places_can_be_fixed(rt: HostRuntime) -> Result<(), Fail> {
    expect_table(&rt, rt.alloc(), MORE, ALL_FIXED, "]}")
}

/// A head of the four teams with two limits, a pair and two places.
const RICH: &str =
    r#"{"kind":"group","groups":2,"pots":2,"teams":[{"code":"AAA","pot":1,"tags":["X"]},{"code":"CCC","pot":2,"tags":["X","Y"]},{"code":"BBB","pot":1,"tags":["Y"]},{"code":"DDD","pot":2,"tags":["X"]}],
"limits":[{"tag":"X","lo":0,"hi":2},{"tag":"Y","lo":1,"hi":2}],"pairs":[["DDD","AAA"]],
"places":[{"code":"CCC","group":"B","position":2},{"code":"AAA","group":"A","position":1}]}"#;

/// The file of that head.
fn expect_file(rt: &impl Abort, file: &DrawFile) {
    assert!(rt; file.kind() == Kind::Group && file.groups() == 2 && file.pots() == 2);
    assert_eq!(rt; file.teams().number(), 4);
    assert_eq!(rt; file.limits().len(), 2);
    let limit = &file.limits()[1];
    assert!(rt; limit.tag.bytes() == "Y".as_bytes() && limit.lo == 1 && limit.hi == 2);
    assert_eq!(rt; file.pairs().len(), 1);
    let pair = file.pairs()[0];
    assert!(rt; pair.first == TeamId(3) && pair.second == TeamId(0));
    let places = [
        Place {
            team: TeamId(1),
            group: 1,
            position: 2,
        },
        Place {
            team: TeamId(0),
            group: 0,
            position: 1,
        },
    ];
    assert!(rt; file.places() == places.as_slice());
}

/// A copy of the file is that file too.
fn expect_copy(rt: &impl Abort, alloc: Global, file: &DrawFile) -> Result<(), Fail> {
    let copy = file.clone_in(alloc)?;
    expect_file(rt, &copy);
    assert!(rt; copy.equals(file));
    Ok(())
}

/// Whether a copy of the limit has its members.
fn is_copied(alloc: Global, limit: &Limit) -> Result<bool, AllocError> {
    let copy = limit.clone_in(alloc)?;
    Ok(copy.tag.bytes() == limit.tag.bytes() && copy.lo == limit.lo && copy.hi == limit.hi)
}

/// Copies of the file's limits have their members.
fn expect_limits_copied(rt: &impl Abort, alloc: Global, file: &DrawFile) -> Result<(), Fail> {
    for limit in file.limits() {
        let copied = is_copied(alloc, limit)?;
        assert!(rt; copied);
    }
    Ok(())
}

#[test]
fn a_group_file_is_read(rt: HostRuntime) -> Result<(), Fail> {
    let file = read_file(rt.alloc(), RICH.as_bytes())?;
    expect_file(&rt, &file);
    expect_copy(&rt, rt.alloc(), &file)?;
    expect_limits_copied(&rt, rt.alloc(), &file)
}
