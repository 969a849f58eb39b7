ghost use Rattle.std.specs.Prelude.{◌≡◌, ◌≤◌, length, replicate, option_map, IfSome, true, false, not, None};
ghost use Rattle.count_core.specs.Problems.{repeats, are_within};
ghost use Rattle.count_core.specs.PartialAssignments.{is_unset, assign_all};
ghost use Rattle.count_core.specs.Steps as spec;
ghost use Rattle.refutations.specs.NamedRules.{rule_of};

use crate::assignment::Assignment;
use crate::effect::{Effect, effect_of};
use count_core::{Hint, Lit, Problem, Step};

/// A rule or a clause, as its literals and bounds.
#[derive(Clone, Copy)]
pub(crate) struct NamedRule<'a> {
    pub(crate) lits: &'a [Lit],
    pub(crate) lo: usize,
    pub(crate) hi: usize,
}

/// The failing hint of a step after the earlier ones, from 0, or none where it is accepted. Begins
/// with nothing set.
pub(crate) fn failing_hint(
    assignment: &mut Assignment,
    problem: &Problem,
    earlier: &[Step],
    clause: &[Lit],
    hints: &[Hint],
) -> Option<usize>
    requires { assignment.old ≡ replicate problem.now.atoms None }
    ensures answer { result
        ≡ spec.failing_hint problem.now earlier.now (spec.step_of clause.now hints.now) }
    ensures within { IfSome result (λ n. n ≤ length hints.now) }
    ensures atoms { length assignment.new ≡ length assignment.old }
{
    if !are_within(problem.atoms(), clause) || !assume_negation(assignment, clause) {
        return Some(0);
    }
    failing_from(assignment, problem, earlier, hints)
}

/// Whether each literal is over an atom below the number.
pub(crate) fn are_within(atoms: u32, lits: &[Lit]) -> bool
    ensures { result ≡ are_within atoms lits.now }
{
    lits.iter().all(|lit| lit.atom.0 < atoms)
}

/// Assumes the negation of the clause: makes each literal false. Answers whether no two of them are
/// over one atom; if two are, some stay as they are.
pub(crate) fn assume_negation(assignment: &mut Assignment, clause: &[Lit]) -> bool
    requires unset { assignment.old ≡ replicate (length assignment.old) None }
    requires within { are_within (length assignment.old) clause.now ≡ true }
    ensures distinct { result ≡ not (repeats clause.now) }
    ensures assumed { result ≡ true → assignment.new ≡ assign_all false clause.now assignment.old }
    ensures atoms { length assignment.new ≡ length assignment.old }
{
    for lit in clause {
        if is_set(assignment.values(), *lit) {
            return false;
        }
        assignment.assign(*lit, false);
    }
    true
}

/// Whether the literal's atom has a value.
fn is_set(values: &[Option<bool>], lit: Lit) -> bool
    ensures { result ≡ not (is_unset values.now lit) }
{
    let place = lit.atom.0 as usize;
    place < values.len() && values[place].is_some()
}

/// The rule or the clause that a hint names, if there is one.
pub(crate) fn find_rule<'a>(
    problem: &'a Problem,
    earlier: &'a [Step],
    hint: Hint,
) -> Option<NamedRule<'a>>
    ensures { option_map rule_of result ≡ spec.rule_at problem.now earlier.now hint }
{
    match hint {
        Hint::Rule(number) => {
            let rule = problem.rules().get(number as usize)?;
            Some(NamedRule {
                lits: rule.lits.as_slice(),
                lo: rule.lo as usize,
                hi: rule.hi as usize,
            })
        }
        Hint::Step(number) => {
            let step = earlier.get(number as usize)?;
            let lits = step.clause.as_slice();
            Some(NamedRule {
                lits,
                lo: 1,
                hi: lits.len(),
            })
        }
    }
}

/// Checks the hints in turn on what is set, and says which one fails, if one does.
fn failing_from(
    assignment: &mut Assignment,
    problem: &Problem,
    earlier: &[Step],
    hints: &[Hint],
) -> Option<usize>
    ensures answer { result
        ≡ spec.failing_from (spec.rule_at problem.now earlier.now) assignment.old hints.now 0 }
    ensures within { IfSome result (λ n. n ≤ length hints.now) }
    ensures atoms { length assignment.new ≡ length assignment.old }
{
    for (i, hint) in hints.iter().enumerate() {
        let Some(rule) = find_rule(problem, earlier, *hint) else {
            return Some(i);
        };
        match effect_of(assignment.values(), rule.lits, rule.lo, rule.hi) {
            Effect::Conflict => return if i + 1 == hints.len() { None } else { Some(i) },
            Effect::Quiet => return Some(i),
            Effect::Forces(truth) => assign_all(assignment, rule.lits, truth),
        }
    }
    Some(hints.len())
}

/// Makes each literal whose atom has no value true or false.
pub(crate) fn assign_all(assignment: &mut Assignment, lits: &[Lit], truth: bool)
    ensures { assignment.new ≡ assign_all truth lits.now assignment.old }
{
    for lit in lits {
        assignment.assign(*lit, truth);
    }
}
