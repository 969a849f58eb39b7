//! The count problem of a pairing, the literals of its moves, and tables of values.

ghost use Rattle.std.specs.Prelude.{◌≡◌, true, IfOk, IsTrue};
ghost use Rattle.count_core.specs.Assignments.{makes_true, Satisfies, SatisfiesQuestion};
ghost use Rattle.pairing_draw.specs.Encoding.{lits_of_moves, rules_of};

use crate::states::start;
use count_core::{Lit, Problem, satisfied};
use draw_state::State;
use draw_tables::{Move, Table};
use pairing_draw::{decode, encode, lits_of};
use rule_sets::DrawFile;
use samples::{ROUND_OF_16, TWO_TEAMS};
use std::alloc::{AllocError, Global};
use std::test::Fail;
use team_files::{Kind, TeamId};

/// A rule of positive literals: its number, its atoms, its least and its greatest number of true
/// ones.
pub(crate) type Rule = (usize, &'static [u32], (u32, u32));

/// Whether the literals are positive ones of these atoms.
pub(crate) fn are_positive(lits: &[Lit], atoms: &[u32]) -> bool {
    for (lit, atom) in lits.iter().zip(atoms) {
        if !lit.positive || lit.atom.0 != *atom {
            return false;
        }
    }
    lits.len() == atoms.len()
}

/// Whether the problem has so many atoms and rules, and these rules.
pub(crate) fn has_rules(problem: &Problem, atoms: u32, number: usize, rules: &[Rule]) -> bool {
    for rule in rules {
        if !has_rule(problem, rule) {
            return false;
        }
    }
    problem.atoms() == atoms && problem.rules().len() == number
}

fn has_rule(problem: &Problem, wanted: &Rule) -> bool {
    match problem.rules().get(wanted.0) {
        Some(rule) => {
            (rule.lo, rule.hi) == wanted.2 && are_positive(rule.lits.as_slice(), wanted.1)
        }
        None => false,
    }
}

/// The count problem of a pairing's file; no test here has another file.
fn problem_of(alloc: Global, file: &DrawFile) -> Result<Problem, AllocError>
    ensures { IfOk result (λ problem. problem ≡ rules_of file.now) }
{
    match file.kind() {
        Kind::Group => Err(AllocError),
        Kind::Pairing => encode(alloc, file),
    }
}

/// The literals of the moves of a pairing's state.
fn lits_in(alloc: Global, state: &State) -> Result<Vec<Lit>, AllocError>
    ensures { IfOk result (λ lits. lits.items ≡ lits_of_moves state.now.file state.now.moves) }
{
    let file = state.file();
    match file.kind() {
        Kind::Group => Err(AllocError),
        Kind::Pairing => lits_of(alloc, file, state.moves()),
    }
}

/// Whether the values keep the rules of the state's file.
fn keep_rules(alloc: Global, state: &State, values: &[bool]) -> Result<bool, AllocError>
    ensures { IfOk result (λ keep. keep ≡ true → Satisfies values.now (rules_of state.now.file)) }
{
    let problem = problem_of(alloc, state.file())?;
    Ok(satisfied(&problem, values))
}

/// Whether the values make the literals of the state's moves true.
fn keep_moves(alloc: Global, state: &State, values: &[bool]) -> Result<bool, AllocError>
    ensures { IfOk result (λ keep. keep ≡ true
        → SatisfiesQuestion values.now (lits_of_moves state.now.file state.now.moves)) }
{
    let lits = lits_in(alloc, state)?;
    Ok(make_true(values, &lits))
}

/// Whether the values make each of the literals true.
fn make_true(values: &[bool], lits: &[Lit]) -> bool
    ensures { result ≡ true → SatisfiesQuestion values.now lits.now }
{
    for lit in lits {
        if !makes_true(values, *lit) {
            return false;
        }
    }
    true
}

/// Whether the values make the literal true.
fn makes_true(values: &[bool], lit: Lit) -> bool
    ensures { result ≡ makes_true values.now lit }
{
    let place = lit.atom.0 as usize;
    let value = place < values.len() && values[place];
    if lit.positive { value } else { !value }
}

/// The table of values that satisfy the rules and the moves of a state.
fn table_of(alloc: Global, state: &State, values: &[bool]) -> Result<Option<Table>, AllocError>
    requires rules { Satisfies values.now (rules_of state.now.file) }
    requires moves { SatisfiesQuestion values.now (lits_of_moves state.now.file state.now.moves) }
{
    let file = state.file();
    match file.kind() {
        Kind::Group => Ok(None),
        Kind::Pairing => {
            let table = decode(alloc, file, state.moves(), values)?;
            Ok(Some(table))
        }
    }
}

/// The table that values make in a state, where they keep its rules and its moves.
fn decoded(alloc: Global, state: &State, values: &[bool]) -> Result<Option<Table>, AllocError> {
    if !keep_rules(alloc, state, values)? {
        return Ok(None);
    }
    if !keep_moves(alloc, state, values)? {
        return Ok(None);
    }
    table_of(alloc, state, values)
}

/// The values of runners-up and of eight winners that make just these pairs true.
fn values_of(alloc: Global, given: &[usize]) -> Result<Vec<bool>, AllocError> {
    let mut values = Vec::new(alloc);
    for place in given {
        for winner in 0..8usize {
            values.push(winner == *place)?;
        }
    }
    Ok(values)
}

/// Whether the values that give these winners make the table of the same winners again, in this
/// state.
fn make_their_table(alloc: Global, state: &State, given: &[usize]) -> Result<bool, AllocError> {
    let values = values_of(alloc, given)?;
    match decoded(alloc, state, &values)? {
        Some(Table::Pairs(pairs)) => Ok(are_places(pairs.winners(), given)),
        Some(Table::Group(_)) => Ok(false),
        None => Ok(false),
    }
}

/// Whether the teams stand at these places of the file.
fn are_places(teams: &[TeamId], places: &[usize]) -> bool {
    for (team, place) in teams.iter().zip(places) {
        if team.0 as usize != *place {
            return false;
        }
    }
    teams.len() == places.len()
}

/// What is seen of a state.
#[derive(Clone, Copy)]
enum Fact {
    /// Its file has so many atoms and rules, and these rules.
    Encodes(u32, usize, &'static [Rule]),
    /// Its moves have the positive literals of these atoms.
    HasLiterals(&'static [u32]),
    /// The values of these winners, runner-up by runner-up, make their table, or none.
    Makes(&'static [usize], bool),
}

fn holds(alloc: Global, state: &State, fact: Fact) -> Result<bool, AllocError> {
    match fact {
        Fact::Encodes(atoms, number, rules) => is_encoded(alloc, state, atoms, number, rules),
        Fact::HasLiterals(atoms) => has_literals(alloc, state, atoms),
        Fact::Makes(given, made) => Ok(make_their_table(alloc, state, given)? == made),
    }
}

fn is_encoded(
    alloc: Global,
    state: &State,
    atoms: u32,
    number: usize,
    rules: &[Rule],
) -> Result<bool, AllocError> {
    let problem = problem_of(alloc, state.file())?;
    Ok(has_rules(&problem, atoms, number, rules))
}

fn has_literals(alloc: Global, state: &State, atoms: &[u32]) -> Result<bool, AllocError> {
    let lits = lits_in(alloc, state)?;
    Ok(are_positive(lits.as_slice(), atoms))
}

/// Whether the state takes the moves, one after the other.
pub(crate) fn takes(alloc: Global, state: &mut State, moves: &[Move]) -> bool {
    for next in moves {
        if state.apply(alloc, *next).is_err() {
            return false;
        }
    }
    true
}

fn holds_after(
    alloc: Global,
    state: &mut State,
    moves: &[Move],
    fact: Fact,
) -> Result<bool, AllocError> {
    if !takes(alloc, state, moves) {
        return Ok(false);
    }
    holds(alloc, state, fact)
}

/// Whether the fact holds after the moves of the draw of the head.
fn holds_in(alloc: Global, head: &str, moves: &[Move], fact: Fact) -> Result<bool, Fail> {
    let mut state = start(alloc, head)?;
    let held = holds_after(alloc, &mut state, moves, fact);
    drop(state);
    Ok(held?)
}

/// Rules of the round of 16 by their numbers: the first runner-up's, the first and the last
/// winner's, and of pairs that may not meet Paris with Manchester City (one group) and with Lille
/// (one association), and the last one, Chelsea with Juventus (one group). In all there are 8 rules
/// of runners-up, 8 of winners, and 15 of pairs that may not meet: 8 of one group and 7 of one
/// association.
const RULES: [Rule; 6] = [
    (0, &[0, 1, 2, 3, 4, 5, 6, 7], (1, 1)),
    (8, &[0, 8, 16, 24, 32, 40, 48, 56], (1, 1)),
    (15, &[7, 15, 23, 31, 39, 47, 55, 63], (1, 1)),
    (16, &[0], (0, 0)),
    (17, &[6], (0, 0)),
    (30, &[63], (0, 0)),
];

/// The places of the winners in their pot, runner-up by runner-up, as they were drawn in 2021/22.
const DRAWN: [usize; 8] = [3, 5, 0, 1, 2, 7, 4, 6];

/// The sixth runner-up.
const VILLARREAL: TeamId = TeamId(13);

/// The eighth winner, with which Villarreal was drawn.
const JUVENTUS: TeamId = TeamId(7);

const LILLE: TeamId = TeamId(6);

/// A drawn ball has no literal, a pair has one. The values of the drawn table make it again, at
/// first and after a pair that it has, but not after one that it does not have; those of two
/// runners-up with one winner make none.
const FACTS: [(&[Move], Fact); 8] = [
    (&[], Fact::Encodes(64, 31, &RULES)),
    (&[], Fact::HasLiterals(&[])),
    (&[Move::Drawn(VILLARREAL)], Fact::HasLiterals(&[])),
    (
        &[Move::Drawn(VILLARREAL), Move::Paired(VILLARREAL, JUVENTUS)],
        Fact::HasLiterals(&[47]),
    ),
    (&[], Fact::Makes(&DRAWN, true)),
    (&[], Fact::Makes(&[3, 5, 3, 1, 2, 7, 4, 6], false)),
    (
        &[Move::Drawn(VILLARREAL), Move::Paired(VILLARREAL, JUVENTUS)],
        Fact::Makes(&DRAWN, true),
    ),
    (
        &[Move::Drawn(VILLARREAL), Move::Paired(VILLARREAL, LILLE)],
        Fact::Makes(&DRAWN, false),
    ),
];

/// The two teams have one atom, which both rules name.
const TWO_TEAMS_FACTS: [(&[Move], Fact); 1] = [(
    &[],
    Fact::Encodes(1, 2, &[(0, &[0], (1, 1)), (1, &[0], (1, 1))]),
)];

/// The place of the first fact that does not hold after its moves of the draw of the head.
fn first_wrong(
    alloc: Global,
    head: &str,
    facts: &[(&[Move], Fact)],
) -> Result<Option<usize>, Fail> {
    for (place, (moves, fact)) in facts.iter().enumerate() {
        if !holds_in(alloc, head, moves, *fact)? {
            return Ok(Some(place));
        }
    }
    Ok(None)
}

#[test]
fn pairings_are_counted(rt: HostRuntime) -> Result<(), Fail> {
    let alloc = rt.alloc();
    assert_eq!(rt; first_wrong(alloc, ROUND_OF_16, &FACTS)?, None);
    assert_eq!(rt; first_wrong(alloc, TWO_TEAMS, &TWO_TEAMS_FACTS)?, None);
    Ok(())
}
