//! The count problem of a group draw, the literals of its moves, and a table of values.

ghost use Rattle.std.specs.Prelude.{◌≡◌, true, IfOk};
ghost use Rattle.count_core.specs.Assignments.{Satisfies};
ghost use Rattle.group_draw.specs.Encoding.{rules_of};

use crate::files::file_of;
use crate::pairing_counts::{Rule, are_positive, has_rules, takes};
use crate::states::start;
use count_core::{Lit, Problem, satisfied};
use draw_state::State;
use draw_tables::{GroupPlace, Move, Table};
use group_draw::{decode, encode, lits_of};
use rule_sets::DrawFile;
use std::alloc::{AllocError, Global};
use std::test::Fail;
use team_files::{Kind, TeamId};

/// Two groups from the first two pots of the draw of 2018, with the host in group A, and one pair.
const PART_OF_2018: &str =
    r#"{"kind":"group","groups":2,"pots":2,"teams":[{"code":"RUS","pot":1,"tags":["UEFA"]},{"code":"GER","pot":1,"tags":["UEFA"]},{"code":"ESP","pot":2,"tags":["UEFA"]},{"code":"PER","pot":2,"tags":["CONMEBOL"]}],"limits":[{"tag":"UEFA","lo":0,"hi":2},{"tag":"CONMEBOL","lo":0,"hi":1}],"pairs":[["GER","ESP"]],"places":[{"code":"RUS","group":"A","position":1}]}"#;

/// Its rules by hand: each team's, those of each group's pots and of each group's limits, those of
/// the pair, and the place's. The atom of team i in group k is 2 * i + k.
const RULES: [Rule; 15] = [
    (0, &[0, 1], (1, 1)),
    (1, &[2, 3], (1, 1)),
    (2, &[4, 5], (1, 1)),
    (3, &[6, 7], (1, 1)),
    (4, &[0, 2], (1, 1)),
    (5, &[4, 6], (1, 1)),
    (6, &[1, 3], (1, 1)),
    (7, &[5, 7], (1, 1)),
    (8, &[0, 2, 4], (0, 2)),
    (9, &[6], (0, 1)),
    (10, &[1, 3, 5], (0, 2)),
    (11, &[7], (0, 1)),
    (12, &[2, 4], (0, 1)),
    (13, &[3, 5], (0, 1)),
    (14, &[0], (1, 1)),
];

/// RUS and ESP in group A, GER and PER in group B.
const VALUES: [bool; 8] = [true, false, false, true, true, false, false, true];

/// GER and ESP, which may not stand in one group, in group B.
const FORBIDDEN: [bool; 8] = [true, false, false, true, false, true, true, false];

/// The places of the first of these groups, by team.
const PLACES: [GroupPlace; 4] = [
    GroupPlace {
        group: 0,
        position: 1,
    },
    GroupPlace {
        group: 1,
        position: 1,
    },
    GroupPlace {
        group: 0,
        position: 2,
    },
    GroupPlace {
        group: 1,
        position: 2,
    },
];

/// The count problem of a group draw's file; no test here has another file.
fn problem_of(alloc: Global, file: &DrawFile) -> Result<Problem, AllocError>
    ensures { IfOk result (λ problem. problem ≡ rules_of file.now) }
{
    match file.kind() {
        Kind::Group => encode(alloc, file),
        Kind::Pairing => Err(AllocError),
    }
}

fn is_encoded(alloc: Global, file: &DrawFile) -> Result<bool, AllocError> {
    let problem = problem_of(alloc, file)?;
    Ok(has_rules(&problem, 8, 15, &RULES))
}

/// Whether the values keep the rules of the file.
fn keep_rules(alloc: Global, file: &DrawFile, values: &[bool]) -> Result<bool, AllocError>
    ensures { IfOk result (λ keep. keep ≡ true → Satisfies values.now (rules_of file.now)) }
{
    let problem = problem_of(alloc, file)?;
    Ok(satisfied(&problem, values))
}

/// The table of values that keep the rules of a group draw's file.
fn table_of(alloc: Global, file: &DrawFile, values: &[bool]) -> Result<Option<Table>, AllocError>
    requires rules { Satisfies values.now (rules_of file.now) }
{
    match file.kind() {
        Kind::Group => {
            let table = decode(alloc, file, &[], values)?;
            Ok(Some(table))
        }
        Kind::Pairing => Ok(None),
    }
}

/// The table that values make, where they keep the rules of the file.
fn decoded(alloc: Global, file: &DrawFile, values: &[bool]) -> Result<Option<Table>, AllocError> {
    if !keep_rules(alloc, file, values)? {
        return Ok(None);
    }
    table_of(alloc, file, values)
}

/// Whether the values make a table with these places.
fn make(
    alloc: Global,
    file: &DrawFile,
    values: &[bool],
    places: &[GroupPlace],
) -> Result<bool, AllocError> {
    match decoded(alloc, file, values)? {
        Some(Table::Group(table)) => Ok(table.places() == places),
        Some(Table::Pairs(_)) => Ok(false),
        None => Ok(false),
    }
}

/// Whether the file has the rules, and the table; values that break a rule have none.
fn is_counted(alloc: Global, file: &DrawFile) -> Result<bool, AllocError> {
    if !is_encoded(alloc, file)? {
        return Ok(false);
    }
    if make(alloc, file, &FORBIDDEN, &[])? {
        return Ok(false);
    }
    make(alloc, file, &VALUES, &PLACES)
}

#[test]
fn a_part_of_2018_is_counted(rt: HostRuntime) -> Result<(), Fail> {
    let file = file_of(rt.alloc(), PART_OF_2018)?;
    let counted = is_counted(rt.alloc(), &file);
    drop(file);
    assert!(rt; counted?);
    Ok(())
}

/// The literals of the moves of a group draw's state.
fn lits_in(alloc: Global, state: &State) -> Result<Vec<Lit>, AllocError> {
    let file = state.file();
    match file.kind() {
        Kind::Group => lits_of(alloc, file, state.moves()),
        Kind::Pairing => Err(AllocError),
    }
}

fn have_literals(
    alloc: Global,
    state: &mut State,
    moves: &[Move],
    atoms: &[u32],
) -> Result<bool, AllocError> {
    if !takes(alloc, state, moves) {
        return Ok(false);
    }
    let lits = lits_in(alloc, state)?;
    Ok(are_positive(lits.as_slice(), atoms))
}

fn have_literals_in(alloc: Global, moves: &[Move], atoms: &[u32]) -> Result<bool, Fail> {
    let mut state = start(alloc, PART_OF_2018)?;
    let have = have_literals(alloc, &mut state, moves, atoms);
    drop(state);
    Ok(have?)
}

const RUSSIA: TeamId = TeamId(0);

const GERMANY: TeamId = TeamId(1);

/// Moves, each with the atoms of its literals: a drawn ball has none, a team in its group has one.
const LITERALS: [(&[Move], &[u32]); 4] = [
    (&[], &[]),
    (&[Move::Drawn(GERMANY)], &[]),
    (&[Move::Drawn(GERMANY), Move::Placed(GERMANY, 1)], &[3]),
    (
        &[
            Move::Drawn(GERMANY),
            Move::Placed(GERMANY, 1),
            Move::Drawn(RUSSIA),
            Move::Placed(RUSSIA, 0),
        ],
        &[3, 0],
    ),
];

/// The place of the first moves that have other literals.
fn first_wrong(alloc: Global, cases: &[(&[Move], &[u32])]) -> Result<Option<usize>, Fail> {
    for (place, (moves, atoms)) in cases.iter().enumerate() {
        if !have_literals_in(alloc, moves, atoms)? {
            return Ok(Some(place));
        }
    }
    Ok(None)
}

#[test]
fn moves_have_literals(rt: HostRuntime) -> Result<(), Fail> {
    assert_eq!(rt; first_wrong(rt.alloc(), &LITERALS)?, None);
    Ok(())
}
