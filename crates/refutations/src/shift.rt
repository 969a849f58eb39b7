ghost use Rattle.std.specs.Prelude.{◌≡◌, ◌+◌, ◌-◌, ◌<◌, length, map, IfOk};
ghost use Rattle.std.specs.List.{AllByRecursion};
ghost use Rattle.count_core.specs.Limits.{number_limit};
ghost use Rattle.refutations.specs.EarlierSteps.{IsBelow, AreEarlier};
ghost use Rattle.refutations.specs.Shifts as spec;

use count_core::{Hint, Hints, Step};
use std::alloc::{AllocError, Global};

/// Copies of the steps, whose hints to steps have the shifted numbers.
pub(crate) fn shifted_steps(
    alloc: Global,
    steps: &[Step],
    shift: u32,
) -> Result<Vec<Step>, AllocError>
    requires few { length steps.now + shift < number_limit }
    requires earlier { AreEarlier steps.now }
    ensures { IfOk result (λ v. v.items ≡ map (spec.shifted_step shift) steps.now) }
{
    let mut copies = Vec::with_capacity(alloc, steps.len())?;
    for step in steps {
        copies.push(shifted_step(alloc, step, shift)?)?;
    }
    Ok(copies)
}

/// A copy of the step, whose hints to steps are to numbers that can be shifted.
fn shifted_step(alloc: Global, step: &Step, shift: u32) -> Result<Step, AllocError>
    requires { AllByRecursion (IsBelow (number_limit - shift)) step.now.hints }
    ensures { IfOk result (λ s. s ≡ spec.shifted_step shift step.now) }
{
    let clause = step.clause.clone_in(alloc)?;
    let hints = shifted_hints(alloc, step.hints.as_slice(), shift)?;
    Ok(Step {
        clause,
        hints: Hints::new(hints),
    })
}

/// The shifted hints, in order.
fn shifted_hints(alloc: Global, hints: &[Hint], shift: u32) -> Result<Vec<Hint>, AllocError>
    requires { AllByRecursion (IsBelow (number_limit - shift)) hints.now }
    ensures { IfOk result (λ v. v.items ≡ map (spec.shifted_hint shift) hints.now) }
{
    let mut copies = Vec::with_capacity(alloc, hints.len())?;
    for hint in hints {
        copies.push(shifted_hint(*hint, shift))?;
    }
    Ok(copies)
}

/// A hint to a step gets the shifted number.
fn shifted_hint(hint: Hint, shift: u32) -> Hint
    requires { IsBelow (number_limit - shift) hint }
    ensures { result ≡ spec.shifted_hint shift hint }
{
    match hint {
        Hint::Rule(rule) => Hint::Rule(rule),
        Hint::Step(step) => Hint::Step(step + shift),
    }
}
