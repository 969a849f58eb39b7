use crate::{Checked, NoMemory, are_countable, check};
use count_core::{Atom, CoreFault, CountRule, Hint, Hints, Lit, Lits, Problem, Step};
use samples::CLASH;
use std::alloc::Global;

/// A rule of a table: its atoms, all positive, its `lo` and its `hi`.
type Row<'a> = (&'a [u32], u32, u32);

/// A step of a table: the atoms of its clause with their signs, and its hints.
type Line<'a> = (&'a [(u32, bool)], &'a [Hint]);

const RULE_4: Hint = Hint::Rule(4);

const RULE_5: Hint = Hint::Rule(5);

const RULE_8: Hint = Hint::Rule(8);

const RULE_9: Hint = Hint::Rule(9);

const NOT_0: &[(u32, bool)] = &[(0, false)];

const NOT_2: &[(u32, bool)] = &[(2, false)];

/// What became of a list: an answer, or why there is none.
#[derive(Clone, Copy, Debug, PartialEq, Eq)]
enum Outcome {
    Answer(Checked),
    Refused,
}

fn bad(step: u32, hint: u32) -> Outcome {
    Outcome::Answer(Checked::Bad { step, hint })
}

fn lits_of(alloc: Global, atoms: &[(u32, bool)]) -> Result<Lits, NoMemory> {
    let mut lits = Vec::new(alloc);
    for (atom, positive) in atoms {
        lits.push(Lit {
            atom: Atom(*atom),
            positive: *positive,
        })?;
    }
    Ok(Lits::new(lits))
}

fn rule_of(alloc: Global, atoms: &[u32], lo: u32, hi: u32) -> Result<CountRule, NoMemory> {
    let mut lits = Vec::new(alloc);
    for atom in atoms {
        lits.push(Lit {
            atom: Atom(*atom),
            positive: true,
        })?;
    }
    Ok(CountRule {
        lits: Lits::new(lits),
        lo,
        hi,
    })
}

fn rules_of(alloc: Global, rows: &[Row<'_>]) -> Result<Vec<CountRule>, NoMemory> {
    let mut rules = Vec::new(alloc);
    for (atoms, lo, hi) in rows {
        rules.push(rule_of(alloc, atoms, *lo, *hi)?)?;
    }
    Ok(rules)
}

fn problem_of(alloc: Global, atoms: u32, rows: &[Row<'_>]) -> Result<Problem, CoreFault> {
    match rules_of(alloc, rows) {
        Ok(rules) if rules.len() < 100 => Problem::build(alloc, atoms, rules),
        _ => Err(CoreFault::NoMemory),
    }
}

fn steps_of(alloc: Global, lines: &[Line<'_>]) -> Result<Vec<Step>, NoMemory> {
    let mut steps = Vec::new(alloc);
    for (clause, hints) in lines {
        let clause = lits_of(alloc, clause)?;
        let hints = Hints::from_slice(alloc, hints)?;
        steps.push(Step { clause, hints })?;
    }
    Ok(steps)
}

fn outcome_of(alloc: Global, problem: &Problem, steps: &[Step]) -> Outcome {
    if !are_countable(steps) {
        return Outcome::Refused;
    }
    match check(alloc, problem, steps) {
        Ok(checked) => Outcome::Answer(checked),
        Err(_) => Outcome::Refused,
    }
}

fn answer_to(alloc: Global, atoms: u32, rows: &[Row<'_>], lines: &[Line<'_>]) -> Outcome {
    let Ok(problem) = problem_of(alloc, atoms, rows) else {
        return Outcome::Refused;
    };
    let Ok(steps) = steps_of(alloc, lines) else {
        return Outcome::Refused;
    };
    outcome_of(alloc, &problem, steps.as_slice())
}

#[test]
fn lists_over_the_clash(rt: HostRuntime) {
    let accepted = Outcome::Answer(Checked::Accepted);
    let last: Line<'_> = (&[], &[Hint::Step(0), Hint::Step(1), RULE_4]);
    let cases: [(&[Line<'_>], Outcome); 17] = [
        (
            &[(NOT_0, &[RULE_8, RULE_5]), (NOT_2, &[RULE_8, RULE_5]), last],
            accepted,
        ),
        (
            &[(NOT_0, &[RULE_8, RULE_4]), (NOT_2, &[RULE_8, RULE_5]), last],
            bad(0, 1),
        ),
        (&[(NOT_0, &[RULE_9, RULE_8, RULE_5])], bad(0, 0)),
        (&[(NOT_0, &[RULE_8])], bad(0, 1)),
        (&[(&[(0, false), (0, false)], &[RULE_8, RULE_5])], bad(0, 0)),
        (&[(NOT_0, &[])], bad(0, 0)),
        (&[(NOT_0, &[RULE_8, RULE_5, RULE_4])], bad(0, 1)),
        (&[], accepted),
        // A later step, the step itself, rules past the last.
        (
            &[
                (NOT_0, &[RULE_8, Hint::Step(1)]),
                (NOT_2, &[RULE_8, RULE_5]),
            ],
            bad(0, 1),
        ),
        (
            &[
                (NOT_0, &[RULE_8, RULE_5]),
                (NOT_2, &[RULE_8, Hint::Step(1)]),
            ],
            bad(1, 1),
        ),
        (&[(NOT_0, &[Hint::Rule(4_294_967_295), RULE_5])], bad(0, 0)),
        (&[(NOT_0, &[RULE_8, Hint::Rule(10)])], bad(0, 1)),
        // An atom out of range, an atom with its negation, an empty clause that nothing forces.
        (
            &[
                (NOT_0, &[RULE_8, RULE_5]),
                (&[(8, false)], &[RULE_8, RULE_5]),
            ],
            bad(1, 0),
        ),
        (&[(&[(0, false), (0, true)], &[RULE_8, RULE_5])], bad(0, 0)),
        (&[(&[], &[RULE_8, RULE_5])], bad(0, 0)),
        // Rule 8 forces three literals at once, among them the two of rule 5.
        (
            &[(&[(0, false), (5, true), (1, true)], &[RULE_8, RULE_5])],
            accepted,
        ),
        // What the first step sets is unset for the second.
        (
            &[
                (NOT_0, &[RULE_8, RULE_5]),
                (&[(3, true)], &[RULE_5, RULE_8]),
            ],
            bad(1, 0),
        ),
    ];
    for (lines, want) in cases {
        assert_eq!(rt; answer_to(rt.alloc(), 8, &CLASH, lines), want, "{lines:?}");
    }
}

/// At least three of atoms 0 to 3; at most two of 1 to 3; both of 4 and 5; neither of 4 and 6.
const BOUNDS: [Row<'static>; 4] = [
    (&[0, 1, 2, 3], 3, 4),
    (&[1, 2, 3], 0, 2),
    (&[4, 5], 2, 2),
    (&[4, 6], 0, 0),
];

const FIRST_TWO: &[Hint] = &[Hint::Rule(0), Hint::Rule(1)];

#[test]
fn bounds_of_rules(rt: HostRuntime) {
    let accepted = Outcome::Answer(Checked::Accepted);
    let cases: [(&[Line<'_>], Outcome); 5] = [
        // Without 0 all of 1 to 3 are true, which is one too many.
        (&[(&[(0, true)], FIRST_TWO)], accepted),
        // Without 1 the first rule forces 0, 2 and 3, which the second allows.
        (&[(&[(1, true)], FIRST_TWO)], bad(0, 1)),
        // Nothing is unset that the second rule could force.
        (
            &[(&[(1, false), (2, false), (3, true)], &[Hint::Rule(1)])],
            bad(0, 0),
        ),
        // Rules that force from the start, and conflict with one another.
        (&[(&[], &[Hint::Rule(2), Hint::Rule(3)])], accepted),
        (&[(&[], &[Hint::Rule(3), Hint::Rule(2)])], accepted),
    ];
    for (lines, want) in cases {
        assert_eq!(rt; answer_to(rt.alloc(), 7, &BOUNDS, lines), want, "{lines:?}");
    }
}

/// So many steps that each repeat that the first team is not in the first group: the first by the
/// rules, each other by the one before it, which conflicts at once.
fn chain(alloc: Global, length: u32) -> Result<Vec<Step>, NoMemory> {
    let mut steps = Vec::new(alloc);
    for number in 0..length {
        let hints = if number == 0 {
            Hints::from_slice(alloc, &[RULE_8, RULE_5])?
        } else {
            Hints::from_slice(alloc, &[Hint::Step(number - 1)])?
        };
        let clause = lits_of(alloc, NOT_0)?;
        steps.push(Step { clause, hints })?;
    }
    Ok(steps)
}

#[test]
fn many_steps(rt: HostRuntime) {
    let alloc = rt.alloc();
    let Ok(problem) = problem_of(alloc, 8, &CLASH) else {
        panic!(rt; "no problem");
    };
    let Ok(steps) = chain(alloc, 10_000) else {
        panic!(rt; "no memory");
    };
    assert_eq!(rt; steps.len(), 10_000);
    assert_eq!(rt;
        outcome_of(alloc, &problem, steps.as_slice()),
        Outcome::Answer(Checked::Accepted)
    );
}
