use crate::{DrawFile, read_file};
use std::alloc::{AllocError, Global};
use std::process::Abort;
use std::test::Fail;
use team_files::{Kind, Team, TeamId};

/// Lists of forbidden pairs of a head of two teams, each behind the head's first fault.
const PAIRS: &str = r#"
none | ["AAA","BBB"]
none | ["BBB","AAA"],["AAA","BBB"],["AAA","BBB"]
none | ["\u0041AA","BBB"]
BadPair { place: 0 } | ["AAA","CCC"]
BadPair { place: 0 } | ["CCC","AAA"]
BadPair { place: 0 } | ["AAA","AAA"]
BadPair { place: 0 } | ["aaa","BBB"]
BadPair { place: 0 } | ["","BBB"]
BadPair { place: 0 } | ["AAA","BBB "]
BadPair { place: 1 } | ["AAA","BBB"],["BBB","BBB"],["AAA","CCC"]
BadPair { place: 2 } | ["AAA","BBB"],["BBB","AAA"],["CCC","DDD"]
"#;

/// A head's first fault, as `Debug` writes it, or `none`.
fn fault_text(alloc: Global, head: &str) -> Result<String, AllocError> {
    match read_file(alloc, head.as_bytes()) {
        Ok(_) => String::from_str(alloc, "none"),
        Err(fault) => format!(in alloc; "{fault:?}"),
    }
}

/// Each line of the table has a fault, and behind a bar a part of a head, which stands between the
/// two texts: the fault is the head's first one.
pub(crate) fn expect_table(
    rt: &impl Abort,
    alloc: Global,
    table: &str,
    start: &str,
    end: &str,
) -> Result<(), Fail> {
    for line in table.lines() {
        if let Some((fault, part)) = line.split_once(" | ") {
            let head = format!(in alloc; "{start}{part}{end}")?;
            let said = fault_text(alloc, head.as_str())?;
            assert!(rt; said.as_str() == fault, "{head}: {said}");
        }
    }
    Ok(())
}

#[test]
fn pairs_are_looked_up(rt: HostRuntime) -> Result<(), Fail> {
    let start =
        r#"{"kind":"pairing","teams":[{"code":"AAA","pot":1,"tags":["X","Y"],"group":"A"},{"code":"BBB","name":"Bilbao","pot":2,"tags":["Z"],"group":"B"}],"pairs":["#;
    expect_table(&rt, rt.alloc(), PAIRS, start, "]}")
}

/// A head of two teams with one pair, the second team first.
const TWO_TEAMS: &str = r#"{"kind":"pairing","pairs":[["BBB","AAA"]],"teams":[
{"code":"AAA","pot":1,"tags":["X","Y"],"group":"A"},
{"code":"BBB","name":"Bilbao","pot":2,"tags":["Z"],"group":"B"}]}"#;

/// Whether the team has the name, the pot and the letter.
fn is_team(team: &Team, name: &str, pot: u32, letter: u8) -> bool {
    team.name.bytes() == name.as_bytes() && team.pot == pot && team.group_letter == Some(letter)
}

fn has_one_tag(team: &Team, tag: &str) -> bool {
    match team.tags.as_slice() {
        [only] => only.bytes() == tag.as_bytes(),
        _ => false,
    }
}

fn has_two_tags(team: &Team, first: &str, second: &str) -> bool {
    match team.tags.as_slice() {
        [one, other] => one.bytes() == first.as_bytes() && other.bytes() == second.as_bytes(),
        _ => false,
    }
}

/// The file of the two teams.
fn expect_file(rt: &impl Abort, file: &DrawFile) {
    assert!(rt; file.kind() == Kind::Pairing && file.groups() == 0 && file.pots() == 2);
    assert!(rt; file.limits().is_empty() && file.places().is_empty());
    assert_eq!(rt; file.pairs().len(), 1);
    let pair = file.pairs()[0];
    assert!(rt; pair.first == TeamId(1) && pair.second == TeamId(0));
    assert_eq!(rt; file.teams().number(), 2);
    let first = file.teams().get(TeamId(0));
    assert!(rt; is_team(first, "AAA", 1, b'A') && has_two_tags(first, "X", "Y"));
    let second = file.teams().get(TeamId(1));
    assert!(rt; is_team(second, "Bilbao", 2, b'B') && has_one_tag(second, "Z"));
    assert!(rt; file.teams().find(second.code) == Some(TeamId(1)));
}

/// A copy of the file of the two teams is that file too.
fn expect_copy(rt: &impl Abort, alloc: Global, file: &DrawFile) -> Result<(), Fail> {
    let copy = file.clone_in(alloc)?;
    expect_file(rt, &copy);
    Ok(())
}

#[test]
fn a_file_is_copied(rt: HostRuntime) -> Result<(), Fail> {
    let file = read_file(rt.alloc(), TWO_TEAMS.as_bytes())?;
    expect_file(&rt, &file);
    expect_copy(&rt, rt.alloc(), &file)
}
