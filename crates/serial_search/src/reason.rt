use count_core::{Hint, Lit, Problem, Step};
use propagation::Engine;

/// A rule or a clause, by its literals and its upper bound.
#[derive(Clone, Copy)]
pub(crate) struct Constraint<'a> {
    lits: &'a [Lit],
    hi: usize,
}

/// What a rule or a clause forces by, or conflicts by: those of its literals that are true, or those
/// that are false.
#[derive(Clone, Copy)]
pub(crate) struct Reason<'a> {
    pub(crate) hint: Hint,
    pub(crate) lits: &'a [Lit],
    truth: bool,
}

impl<'a> Constraint<'a> {
    /// Why it conflicts: more of its literals are true than may be, or too many are false.
    pub(crate) fn reason_of_conflict(self, values: &[Option<bool>], hint: Hint) -> Reason<'a> {
        let mut trues: usize = 0;
        for lit in self.lits {
            if value_of(values, *lit) == Some(true) {
                trues = trues.saturating_add(1);
            }
        }
        Reason {
            hint,
            lits: self.lits,
            truth: trues > self.hi,
        }
    }
}

impl<'a> Reason<'a> {
    /// Whether the literal, which is one of the rule's or clause's, is a part of the reason.
    pub(crate) fn has(self, values: &[Option<bool>], lit: Lit) -> bool {
        value_of(values, lit) == Some(self.truth)
    }
}

/// Why the literal of the trail is set, where it was not assumed. A literal that was made true is
/// forced by the false ones beside it, and one that was made false by the true ones.
pub(crate) fn reason_of<'a>(engine: &'a Engine, steps: &'a [Step], lit: Lit) -> Option<Reason<'a>> {
    let hint = engine.cause_of(lit)?;
    let Constraint { lits, .. } = constraint_of(engine.problem(), steps, hint)?;
    let truth = !lits.iter().any(|other| *other == lit);
    Some(Reason { hint, lits, truth })
}

/// The rule or the clause that the hint names.
pub(crate) fn constraint_of<'a>(
    problem: &'a Problem,
    steps: &'a [Step],
    hint: Hint,
) -> Option<Constraint<'a>> {
    match hint {
        Hint::Rule(number) => {
            let rule = problem.rules().get(number as usize)?;
            Some(Constraint {
                lits: rule.lits.as_slice(),
                hi: rule.hi as usize,
            })
        }
        Hint::Step(number) => {
            let step = steps.get(number as usize)?;
            let lits = step.clause.as_slice();
            Some(Constraint {
                lits,
                hi: lits.len(),
            })
        }
    }
}

/// The literal's value, where its atom is set.
fn value_of(values: &[Option<bool>], lit: Lit) -> Option<bool> {
    let place = lit.atom.0 as usize;
    if place >= values.len() {
        return None;
    }
    let value = values[place]?;
    Some(value == lit.positive)
}
