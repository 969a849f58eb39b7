ghost use Rattle.std.specs.Prelude.{◌≡◌, ◌≤◌, length, replicate, None, IfSome};
ghost use Rattle.count_core.specs.Steps.{rule_at, failing_from, failing_hint};

use crate::assignment::Assignment;
use crate::effect::{Effect, effect_of};
use crate::named_rule::rule_at;
use count_core::{Hint, Problem, Step};

/// The failing hint of the step after the earlier ones, or none where it is accepted. Begins and
/// ends with nothing set.
pub(crate) fn failing_hint(
    assignment: &mut Assignment,
    problem: &Problem,
    earlier: &[Step],
    step: &Step,
) -> Option<usize>
    requires { assignment.old ≡ replicate problem.now.atoms None }
    ensures hint { result ≡ failing_hint problem.now earlier.now step.now }
    ensures within { IfSome result (λ i. i ≤ length step.now.hints) }
    ensures clean { assignment.new ≡ replicate problem.now.atoms None }
{
    let failing = failing_hint_under_negation(assignment, problem, earlier, step);
    assignment.clear();
    failing
}

/// The same: assumes the negation of the step's clause, and checks the hints.
fn failing_hint_under_negation(
    assignment: &mut Assignment,
    problem: &Problem,
    earlier: &[Step],
    step: &Step,
) -> Option<usize>
    requires { assignment.old ≡ replicate problem.now.atoms None }
    ensures hint { result ≡ failing_hint problem.now earlier.now step.now }
    ensures within { IfSome result (λ i. i ≤ length step.now.hints) }
    ensures len { length assignment.new ≡ length assignment.old }
{
    if !assignment.assume_negation(step.clause.as_slice()) {
        return Some(0);
    }
    failing_from(assignment, problem, earlier, step.hints.as_slice())
}

/// Checks the hints in order on what is set, and answers the one that fails, if one does.
fn failing_from(
    assignment: &mut Assignment,
    problem: &Problem,
    earlier: &[Step],
    hints: &[Hint],
) -> Option<usize>
    ensures hint { result
        ≡ failing_from (rule_at problem.now earlier.now) assignment.old hints.now 0 }
    ensures within { IfSome result (λ i. i ≤ length hints.now) }
    ensures len { length assignment.new ≡ length assignment.old }
{
    for (i, hint) in hints.iter().enumerate() {
        let Some(rule) = rule_at(problem, earlier, *hint) else {
            return Some(i);
        };
        match effect_of(assignment.values(), rule.lits, rule.lo, rule.hi) {
            Effect::Conflict => return if i + 1 == hints.len() { None } else { Some(i) },
            Effect::Quiet => return Some(i),
            Effect::Forces { truth } => assignment.assign_all(rule.lits, truth),
        }
    }
    Some(hints.len())
}
