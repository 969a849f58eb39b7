ghost use Rattle.std.specs.Prelude.{◌≡◌, ◌<◌, true, length, IfSome, IfNone, Contains};
ghost use Rattle.count_core.specs.Assignments.{negation};
ghost use Rattle.refutations.specs.Derivations.{clause_at};
ghost use Rattle.refutations.specs.Joins.{AreSides};

use crate::{Closed, Lemma, LogFault, NoMemory, ProofLog};
use count_core::{
    Atom, CountRule, Hint, Lit, Lits, Problem, Question, SharedProblem, Step, are_distinct,
};
use samples::CLASH;
use std::alloc::Global;

const YES_0: Lit = Lit {
    atom: Atom(0),
    positive: true,
};

const NO_0: Lit = Lit {
    atom: Atom(0),
    positive: false,
};

const NO_2: Lit = Lit {
    atom: Atom(2),
    positive: false,
};

const NO_4: Lit = Lit {
    atom: Atom(4),
    positive: false,
};

const NO_8: Lit = Lit {
    atom: Atom(8),
    positive: false,
};

/// A clause and its hints.
type Line<'a> = (&'a [Lit], &'a [Hint]);

const NOT_0: Line<'static> = (&[NO_0], &[Hint::Rule(8), Hint::Rule(5)]);

const NOT_4: Line<'static> = (&[NO_4], &[Hint::Rule(8), Hint::Rule(4)]);

const NOT_2: Line<'static> = (&[NO_2], &[Hint::Rule(8), Hint::Rule(5)]);

const NOTHING: Line<'static> = (&[], &[Hint::Step(0), Hint::Step(2), Hint::Rule(4)]);

/// The first pot has no team in the first group, so the empty clause. The second pot's first team
/// is not there either, on which nothing rests.
const STEPS: [Line<'static>; 4] = [NOT_0, NOT_4, NOT_2, NOTHING];

/// The last of them without the spare step.
const RENUMBERED: Line<'static> = (&[], &[Hint::Step(0), Hint::Step(1), Hint::Rule(4)]);

/// What it rests on.
const CONE: [Line<'static>; 3] = [NOT_0, NOT_2, RENUMBERED];

/// The positive literals of these atoms.
fn lits_of(alloc: Global, atoms: &[u32]) -> Result<Vec<Lit>, NoMemory> {
    let mut lits = Vec::new(alloc);
    for atom in atoms {
        lits.push(Lit {
            atom: Atom(*atom),
            positive: true,
        })?;
    }
    Ok(lits)
}

fn rules_of(alloc: Global) -> Result<Vec<CountRule>, NoMemory> {
    let mut rules = Vec::new(alloc);
    for (atoms, lo, hi) in CLASH {
        let lits = Lits::new(lits_of(alloc, atoms)?);
        rules.push(CountRule { lits, lo, hi })?;
    }
    Ok(rules)
}

fn clash(alloc: Global) -> Option<SharedProblem> {
    match rules_of(alloc) {
        Ok(rules) if rules.len() < 100 => {
            let problem = Problem::build(alloc, 8, rules).ok()?;
            SharedProblem::new(alloc, problem).ok()
        }
        _ => None,
    }
}

/// What the log answers to the line, where there are few hints.
fn add_line(alloc: Global, log: &mut ProofLog, line: Line<'_>) -> Result<u32, LogFault>
    ensures { log.new.problem ≡ log.old.problem }
{
    let (clause, hints) = line;
    if hints.len() > 9 {
        return Err(LogFault::NoMemory);
    }
    log.add(alloc, clause, hints)
}

/// A log of these lines, or none where one is not accepted.
fn log_of(alloc: Global, lines: &[Line<'_>]) -> Option<ProofLog> {
    let mut log = ProofLog::new(alloc, clash(alloc)?);
    for line in lines {
        let _number = add_line(alloc, &mut log, *line).ok()?;
    }
    Some(log)
}

/// After so many of `STEPS`, a line, and its failing hint, or none where it is accepted.
const CASES: [(u32, Line<'static>, Option<u32>); 17] = [
    (0, NOT_0, None),
    (3, NOTHING, None),
    (0, (&[NO_0], &[Hint::Rule(8), Hint::Rule(4)]), Some(1)),
    (
        0,
        (&[NO_0], &[Hint::Rule(9), Hint::Rule(8), Hint::Rule(5)]),
        Some(0),
    ),
    (0, (&[NO_0], &[Hint::Rule(8)]), Some(1)),
    (0, (&[NO_0, NO_0], &[Hint::Rule(8), Hint::Rule(5)]), Some(0)),
    (0, (&[NO_0], &[]), Some(0)),
    (
        0,
        (&[NO_0], &[Hint::Rule(8), Hint::Rule(5), Hint::Rule(4)]),
        Some(1),
    ),
    // An atom out of range, and an atom with its negation.
    (0, (&[NO_8], &[Hint::Rule(8), Hint::Rule(5)]), Some(0)),
    (
        0,
        (&[NO_0, YES_0], &[Hint::Rule(8), Hint::Rule(5)]),
        Some(0),
    ),
    // A rule that is not there, a later step, the step itself.
    (
        0,
        (&[NO_0], &[Hint::Rule(8), Hint::Rule(4294967295)]),
        Some(1),
    ),
    (1, (&[NO_2], &[Hint::Step(2), Hint::Rule(5)]), Some(0)),
    (1, (&[NO_2], &[Hint::Rule(8), Hint::Step(1)]), Some(1)),
    // The empty clause too early: the last hint forces; a step forces once and then no more.
    (1, (&[], &[Hint::Step(0), Hint::Rule(4)]), Some(2)),
    (1, (&[], &[Hint::Step(0), Hint::Step(0)]), Some(1)),
    (1, (&[], &[]), Some(0)),
    // An accepted step may stand again.
    (4, NOT_0, None),
];

/// Whether a log of so many steps answers so to the line: with the number of the step, or with the
/// failing hint, and then it stays as it is.
fn answers(alloc: Global, before: u32, line: Line<'_>, fails: Option<u32>) -> Option<bool> {
    let mut log = log_of(alloc, STEPS.get(..before as usize)?)?;
    let answer = add_line(alloc, &mut log, line);
    let added = log.steps().len() > before as usize;
    match fails {
        None => Some(answer == Ok(before) && added),
        Some(hint) => Some(answer == Err(LogFault::NotAccepted { hint }) && !added),
    }
}

#[test]
fn adds_accepted_steps(rt: HostRuntime) {
    for (before, line, fails) in CASES {
        let answer = answers(rt.alloc(), before, line, fails);
        assert_eq!(rt; answer, Some(true), "{before} steps, then {line:?}");
    }
}

/// Whether the steps are these lines.
fn are(steps: &[Step], lines: &[Line<'_>]) -> bool {
    steps.len() == lines.len()
        && steps.iter().zip(lines).all(|(step, (clause, hints))| step.clause.as_slice() == *clause
            && step.hints.as_slice() == *hints)
}

/// Compiles only for values that threads may share.
fn share<T: Send + Sync>(value: T) -> T {
    value
}

/// A copy of the log's lemma at this step.
fn lemma_of(alloc: Global, log: &ProofLog, step: u32) -> Option<Lemma> {
    if step as usize >= log.steps().len() {
        return None;
    }
    let lemma = log.lemma(alloc, step).ok()?;
    lemma.clone_in(alloc).ok()
}

/// Whether the copied lemma at this step has this clause and these steps, over the log's problem.
fn lemma_is(alloc: Global, step: u32, clause: &[Lit], lines: &[Line<'_>]) -> Option<bool> {
    let log = share(log_of(alloc, &STEPS)?);
    let lemma = share(lemma_of(alloc, &log, step)?);
    let same = lemma.problem().equals(log.problem());
    Some(same && lemma.clause() == clause && are(lemma.steps(), lines))
}

#[test]
fn lemmas(rt: HostRuntime) {
    let cases: [(u32, &[Lit], &[Line<'_>]); 3] = [
        (0, &[NO_0], &STEPS[..1]),
        (2, &[NO_2], &STEPS[..3]),
        (3, &[], &STEPS),
    ];
    for (step, clause, lines) in cases {
        let answer = lemma_is(rt.alloc(), step, clause, lines);
        assert_eq!(rt; answer, Some(true), "step {step}");
    }
}

fn question_of(alloc: Global, lits: &[Lit]) -> Option<Question> {
    let lits = Lits::from_slice(alloc, lits).ok()?;
    if !are_distinct(lits.as_slice()) {
        return None;
    }
    Some(Question::new(lits))
}

/// The question closed by the empty clause.
fn closed_of(alloc: Global, lits: &[Lit]) -> Option<Closed> {
    let mut log = log_of(alloc, &STEPS[..3])?;
    let number = log.add(alloc, &[], NOTHING.1).ok()?;
    let question = question_of(alloc, lits)?;
    let closed = log.closed(alloc, number, &question).ok()?;
    closed.clone_in(alloc).ok()
}

fn closed_is(alloc: Global, lits: &[Lit]) -> Option<bool> {
    let closed = share(closed_of(alloc, lits)?);
    let atoms = closed.problem().atoms();
    Some(atoms == 8 && closed.question().lits() == lits && are(closed.steps(), &STEPS))
}

#[test]
fn closed_questions(rt: HostRuntime) {
    let cases: [&[Lit]; 3] = [&[], &[YES_0], &[NO_4, NO_2]];
    for lits in cases {
        assert_eq!(rt; closed_is(rt.alloc(), lits), Some(true), "{lits:?}");
    }
}

/// The question closed by the cone of the empty clause.
fn closed_by_cone_of(alloc: Global, lits: &[Lit]) -> Option<Closed> {
    let mut log = log_of(alloc, &STEPS[..3])?;
    let number = log.add(alloc, &[], NOTHING.1).ok()?;
    let question = question_of(alloc, lits)?;
    log.closed_by_cone(alloc, number, &question).ok()
}

fn closed_by_cone_is(alloc: Global, lits: &[Lit]) -> Option<bool> {
    let closed = closed_by_cone_of(alloc, lits)?;
    let atoms = closed.problem().atoms();
    Some(atoms == 8 && closed.question().lits() == lits && are(closed.steps(), &CONE))
}

#[test]
fn closed_by_a_cone(rt: HostRuntime) {
    assert_eq!(rt; closed_by_cone_is(rt.alloc(), &[YES_0]), Some(true));
}

fn cone_is(alloc: Global, step: u32, lines: &[Line<'_>]) -> Option<bool> {
    let log = log_of(alloc, &STEPS)?;
    if step as usize >= log.steps().len() {
        return None;
    }
    let cone = log.cone(alloc, step).ok()?;
    Some(are(&cone, lines))
}

#[test]
fn cones(rt: HostRuntime) {
    let cases: [(u32, &[Line<'_>]); 3] = [(3, &CONE), (2, &CONE[1..2]), (1, &STEPS[1..2])];
    for (step, lines) in cases {
        assert_eq!(rt; cone_is(rt.alloc(), step, lines), Some(true), "step {step}");
    }
}

/// The shift with which the other log's steps are put behind, where both are of one problem.
fn shift_of(alloc: Global, log: &mut ProofLog, other: &ProofLog) -> Option<u32> {
    if !log.problem().equals(other.problem()) {
        return None;
    }
    log.append_all(alloc, other).ok()
}

fn join_logs(alloc: Global) -> Option<(u32, bool)> {
    let mut log = log_of(alloc, &[NOT_4])?;
    let other = log_of(alloc, &CONE)?;
    let shift = shift_of(alloc, &mut log, &other)?;
    let want = [
        NOT_4,
        NOT_0,
        NOT_2,
        (&[], &[Hint::Step(1), Hint::Step(2), Hint::Rule(4)]),
    ];
    Some((shift, are(log.steps(), &want)))
}

#[test]
fn one_log_behind_another(rt: HostRuntime) {
    assert_eq!(rt; join_logs(rt.alloc()), Some((1, true)));
}

/// After so many of `STEPS`, a clause with candidate hints, and the step that is added, if one is.
const CANDIDATES: [(u32, Line<'static>, Option<Line<'static>>); 7] = [
    // Rule 9 is idle, and rule 8 when it has forced; what comes after the conflict is left out.
    (
        0,
        (
            &[NO_0],
            &[
                Hint::Rule(9),
                Hint::Rule(8),
                Hint::Rule(8),
                Hint::Rule(5),
                Hint::Rule(4),
            ],
        ),
        Some(NOT_0),
    ),
    // A rule and a step that are not there.
    (
        0,
        (
            &[NO_0],
            &[Hint::Rule(10), Hint::Rule(8), Hint::Step(0), Hint::Rule(5)],
        ),
        Some(NOT_0),
    ),
    (
        3,
        (
            &[],
            &[
                Hint::Step(0),
                Hint::Rule(9),
                Hint::Step(2),
                Hint::Rule(4),
                Hint::Step(1),
            ],
        ),
        Some(NOTHING),
    ),
    // None conflicts.
    (0, (&[NO_0], &[Hint::Rule(9), Hint::Rule(8)]), None),
    (0, (&[NO_0], &[]), None),
    // An atom twice, and an atom out of range.
    (0, (&[NO_0, NO_0], &[Hint::Rule(8), Hint::Rule(5)]), None),
    (0, (&[NO_8], &[Hint::Rule(8), Hint::Rule(5)]), None),
];

/// Whether a log of so many steps adds this step of the line's clause, or stays as it is.
fn keeps(alloc: Global, before: u32, line: Line<'_>, want: Option<Line<'_>>) -> Option<bool> {
    let mut log = log_of(alloc, STEPS.get(..before as usize)?)?;
    let answer = log.add_leading(alloc, line.0, line.1).ok()?;
    let step = log.steps().get(before as usize);
    match (want, step) {
        (Some((clause, hints)), Some(step)) => {
            let same = step.clause.as_slice() == clause && step.hints.as_slice() == hints;
            Some(answer == Some(before) && same)
        }
        (None, None) => Some(answer.is_none()),
        _ => Some(false),
    }
}

#[test]
fn keeps_leading_hints(rt: HostRuntime) {
    for (before, line, want) in CANDIDATES {
        let answer = keeps(rt.alloc(), before, line, want);
        assert_eq!(rt; answer, Some(true), "{before} steps, then {line:?}");
    }
}

/// Whether these are the sides of the split, as a log wants them.
fn are_sides(split: Lit, first: &[Lit], second: &[Lit]) -> bool
    ensures { result ≡ true → AreSides split first.now second.now }
{
    first.contains(&split.negation())
        && second.contains(&split)
        && first.iter().all(|lit| lit.atom == split.atom || !second.contains(&lit.negation()))
}

/// Whether a log of these steps may join them.
fn may_join(steps: &[Step], split: Lit, first: u32, second: Option<u32>) -> bool
    ensures first { result ≡ true → first < length steps.now }
    ensures second { result ≡ true → IfSome second (λ n. n < length steps.now) }
    ensures alone { result ≡ true
        → IfNone second (¬ (Contains (clause_at steps.now first) (negation split))) }
    ensures sides { result ≡ true → IfSome second (λ n.
        AreSides split (clause_at steps.now first) (clause_at steps.now n)) }
{
    let Some(one) = steps.get(first as usize) else {
        return false;
    };
    let one = one.clause.as_slice();
    match second {
        None => !one.contains(&split.negation()),
        Some(second) => match steps.get(second as usize) {
            None => false,
            Some(other) => are_sides(split, one, other.clause.as_slice()),
        },
    }
}

/// The number that the log answers for the joined sides, where it may join them.
fn join(
    alloc: Global,
    log: &mut ProofLog,
    split: Lit,
    first: u32,
    second: Option<u32>,
) -> Option<u32> {
    if !may_join(log.steps(), split, first, second) {
        return None;
    }
    log.join_sides(alloc, split, first, second).ok()
}

/// Two sides of a split over atom 0, and a step that needs no second side.
const SIDES: [Line<'static>; 3] = [
    (&[NO_0, NO_2], &[Hint::Rule(8)]),
    (&[NO_4, YES_0, NO_2], &[Hint::Rule(8)]),
    NOT_2,
];

/// A split, its two steps, the number that is answered, and the steps that are added.
const JOINS: [(Lit, u32, Option<u32>, u32, &[Line<'static>]); 3] = [
    (
        YES_0,
        0,
        Some(1),
        3,
        &[(&[NO_2, NO_4], &[Hint::Step(0), Hint::Step(1)])],
    ),
    (
        NO_0,
        1,
        Some(0),
        3,
        &[(&[NO_4, NO_2], &[Hint::Step(1), Hint::Step(0)])],
    ),
    (YES_0, 2, None, 2, &[]),
];

/// What the log of `SIDES` answers for the join, and whether it then has these steps more.
fn join_is(
    alloc: Global,
    split: Lit,
    first: u32,
    second: Option<u32>,
    more: &[Line<'_>],
) -> Option<(u32, bool)> {
    let mut log = log_of(alloc, &SIDES)?;
    let number = join(alloc, &mut log, split, first, second)?;
    Some((number, are(log.steps().get(3..)?, more)))
}

#[test]
fn joined_sides(rt: HostRuntime) {
    for (split, first, second, number, more) in JOINS {
        let answer = join_is(rt.alloc(), split, first, second, more);
        assert_eq!(rt;
            answer,
            Some((number, true)),
            "steps {first} and {second:?}"
        );
    }
}
