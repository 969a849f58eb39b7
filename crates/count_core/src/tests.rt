use crate::{
    Atom, CoreFault, CountRule, Hint, Hints, Lit, Lits, NoMemory, Problem, Question, SharedProblem,
    Step, Steps, Values, are_distinct, law_accepted_by_conflict, law_accepted_clauses_follow,
    law_clash_table, law_failing_hint, law_first_fault, law_refuted_questions_fail,
    law_satisfiability_decides, satisfied,
};
use samples::CLASH;
use std::alloc::Global;
use std::test::Fail;

/// A rule of a table: its atoms, all positive, its `lo` and its `hi`.
type Row<'a> = (&'a [u32], u32, u32);

/// So many atoms, rules over them, and the fault that building a problem of them reports, or none.
const FAULTS: [(u32, &[Row<'static>], Option<CoreFault>); 9] = [
    (0, &[], None),
    (8, &CLASH, None),
    (7, &CLASH, Some(CoreFault::AtomRange { rule: 3 })),
    (
        1,
        &[(&[0], 0, 9), (&[1], 0, 1)],
        Some(CoreFault::AtomRange { rule: 1 }),
    ),
    (
        3,
        &[(&[0, 1], 0, 1), (&[1, 2, 1], 0, 1)],
        Some(CoreFault::RepeatedAtom { rule: 1 }),
    ),
    (
        3,
        &[(&[0, 1], 2, 2), (&[2], 2, 1)],
        Some(CoreFault::BadBounds { rule: 1 }),
    ),
    (
        3,
        &[(&[1, 1, 3], 2, 1)],
        Some(CoreFault::AtomRange { rule: 0 }),
    ),
    (
        3,
        &[(&[1, 1], 2, 1)],
        Some(CoreFault::RepeatedAtom { rule: 0 }),
    ),
    (
        3,
        &[(&[1], 2, 1), (&[3], 0, 1)],
        Some(CoreFault::BadBounds { rule: 0 }),
    ),
];

fn lit(atom: u32, positive: bool) -> Lit {
    Lit {
        atom: Atom(atom),
        positive,
    }
}

fn lits_of(alloc: Global, atoms: &[u32]) -> Result<Lits, NoMemory> {
    let mut lits = Vec::new(alloc);
    for atom in atoms {
        lits.push(lit(*atom, true))?;
    }
    Ok(Lits::new(lits))
}

fn rules_of(alloc: Global, rows: &[Row<'_>]) -> Result<Vec<CountRule>, NoMemory> {
    let mut rules = Vec::new(alloc);
    for (atoms, lo, hi) in rows {
        let lits = lits_of(alloc, atoms)?;
        rules.push(CountRule {
            lits,
            lo: *lo,
            hi: *hi,
        })?;
    }
    Ok(rules)
}

fn build(alloc: Global, atoms: u32, rows: &[Row<'_>]) -> Result<Problem, CoreFault> {
    match rules_of(alloc, rows) {
        Ok(rules) if rules.len() < 100 => Problem::build(alloc, atoms, rules),
        _ => Err(CoreFault::NoMemory),
    }
}

#[test]
fn first_faults(rt: HostRuntime) {
    for (atoms, rows, fault) in FAULTS {
        assert_eq!(rt;
            build(rt.alloc(), atoms, rows).err(),
            fault,
            "{atoms} atoms, {rows:?}"
        );
    }
}

#[test]
fn satisfies_the_rules(rt: HostRuntime) {
    // The second team of each pot in the second group.
    let met = [true, false, false, true, true, false, false, true, true];
    let cases: [(&[Row<'_>], &[bool], bool); 6] = [
        (&CLASH[..8], &met[..8], true),
        (&CLASH[..8], &met, true),
        (&CLASH[..8], &met[..7], false),
        (&CLASH[..8], &[true; 8], false),
        (&CLASH, &met[..8], false),
        (&CLASH[8..], &[], true),
    ];
    for (rows, values, want) in cases {
        let answer = build(rt.alloc(), 8, rows)
            .ok()
            .map(|p| satisfied(&p, values));
        assert_eq!(rt; answer, Some(want), "{rows:?} under {values:?}");
    }
}

#[test]
fn equal_problems(rt: HostRuntime) {
    let cases: [(u32, &[Row<'_>], bool); 6] = [
        (8, &CLASH[..2], true),
        (9, &CLASH[..2], false),
        (8, &CLASH[..1], false),
        (8, &[(&[0, 1], 1, 1), (&[2, 3], 1, 2)], false),
        (8, &[(&[0, 1], 1, 1), (&[2, 3], 0, 1)], false),
        (8, &[(&[0, 1], 1, 1), (&[2, 4], 1, 1)], false),
    ];
    for (atoms, rows, want) in cases {
        let same = same_as_two_rules(rt.alloc(), atoms, rows);
        assert_eq!(rt; same.ok(), Some(want), "{atoms} atoms, {rows:?}");
    }
}

fn same_as_two_rules(alloc: Global, atoms: u32, rows: &[Row<'_>]) -> Result<bool, CoreFault> {
    let one = build(alloc, 8, &CLASH[..2])?;
    let other = build(alloc, atoms, rows)?;
    Ok(one.equals(&other) && one.atoms() == 8 && one.rules().len() == 2)
}

/// Compiles only for values that threads may share.
fn share<T: Send + Sync>(value: T) -> T {
    value
}

#[test]
fn questions_and_literals(rt: HostRuntime) -> Result<(), Fail> {
    let alloc = rt.alloc();
    let lits = [lit(4, true), lit(2, false)];
    assert!(rt; are_distinct(&lits));
    assert!(rt; !are_distinct(&[lit(4, true), lit(2, true), lit(4, false)]));
    assert_eq!(rt; lit(4, true).negation(), lit(4, false));
    let question = Question::new(Lits::from_slice(alloc, &lits)?);
    let copy = question.clone_in(alloc)?;
    assert!(rt; copy.equals(&question));
    assert_eq!(rt; copy.lits(), lits.as_slice());
    Ok(())
}

/// Values by way of each of their functions: made of a slice, moved out and in, and copied.
fn copy_of_values(alloc: Global, entries: &[bool]) -> Result<Values, NoMemory> {
    let entries = Values::from_slice(alloc, entries)?.into_vec();
    Values::new(entries).clone_in(alloc)
}

/// Literals by way of each of their functions.
fn copy_of_lits(alloc: Global, entries: &[Lit]) -> Result<Lits, NoMemory> {
    let entries = Lits::from_slice(alloc, entries)?.into_vec();
    Lits::new(entries).clone_in(alloc)
}

#[test]
fn copies_of_values(rt: HostRuntime) -> Result<(), Fail> {
    let values = copy_of_values(rt.alloc(), &[true, false, false])?;
    assert_eq!(rt; values.as_slice(), [true, false, false].as_slice());
    let entries = values.into_vec();
    assert_eq!(rt; entries.as_slice(), [true, false, false].as_slice());
    Ok(())
}

#[test]
fn copies_of_literals(rt: HostRuntime) -> Result<(), Fail> {
    let lits = copy_of_lits(rt.alloc(), &[lit(4, true), lit(2, false)])?;
    let entries = lits.into_vec();
    assert_eq!(rt;
        entries.as_slice(),
        [lit(4, true), lit(2, false)].as_slice()
    );
    Ok(())
}

/// A copy of a step, by way of the lists of its clause and of its hints.
fn copy_of_step(alloc: Global, clause: &[Lit], hints: &[Hint]) -> Result<Step, NoMemory> {
    let hints = Hints::from_slice(alloc, hints)?.into_vec();
    let clause = Lits::from_slice(alloc, clause)?;
    let step = Step {
        clause,
        hints: Hints::new(hints),
    };
    step.clone_in(alloc)
}

fn list_of_step(alloc: Global, clause: &[Lit], hints: &[Hint]) -> Result<Steps, NoMemory> {
    let mut steps = Vec::new(alloc);
    let step = copy_of_step(alloc, clause, hints)?;
    steps.push(step)?;
    Steps::new(steps).clone_in(alloc)
}

#[test]
fn copies_of_steps(rt: HostRuntime) {
    let clause = [lit(0, false)];
    let hints = [Hint::Rule(8), Hint::Rule(5)];
    let Ok(steps) = list_of_step(rt.alloc(), &clause, &hints) else {
        assert!(rt; false, "out of memory");
        return;
    };
    assert_eq!(rt; steps.as_slice().len(), 1);
    for step in share(steps).into_vec().iter() {
        assert_eq!(rt; step.clause.as_slice(), clause.as_slice());
        assert_eq!(rt; step.hints.as_slice(), hints.as_slice());
    }
}

fn shared_rule(alloc: Global) -> Result<usize, CoreFault> {
    let problem = build(alloc, 8, &CLASH)?;
    let Ok(problem) = SharedProblem::new(alloc, problem) else {
        return Err(CoreFault::NoMemory);
    };
    let problem = share(problem);
    match problem.rules() {
        [.., last] => match last.clone_in(alloc) {
            Ok(rule) => Ok(rule.lits.as_slice().len()),
            Err(_) => Err(CoreFault::NoMemory),
        },
        [] => Ok(0),
    }
}

#[test]
fn shared_problems_and_laws(rt: HostRuntime) {
    assert_eq!(rt; shared_rule(rt.alloc()).ok(), Some(4));
    law_accepted_by_conflict();
    law_accepted_clauses_follow();
    law_refuted_questions_fail();
    law_satisfiability_decides();
    law_clash_table();
    law_failing_hint();
    law_first_fault();
}
