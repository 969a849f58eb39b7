ghost use Rattle.std.specs.Prelude.{◌≡◌, ◌↔◌, ◌+◌, ◌-◌, ◌<◌, ◌≤◌, ◌||◌, ℕ, true, length, map, IfOk};
ghost use Rattle.std.specs.List.{AllByRecursion};
ghost use Rattle.count_core.specs.Limits.{number_limit};
ghost use Rattle.refutations.specs.EarlierSteps.{IsBelow, AreEarlier, ArePlaces, by_place, by_places};
ghost use Rattle.refutations.specs.Cones as spec;

use count_core::{Hint, Hints, Step};
use std::alloc::{AllocError, Global};

/// The cone of a step: the steps that it reaches by hints, in their order, renumbered.
pub(crate) fn cone_of(alloc: Global, steps: &[Step], from: usize) -> Result<Vec<Step>, AllocError>
    requires within { from < length steps.now }
    requires few { length steps.now < number_limit }
    requires earlier { AreEarlier steps.now }
    ensures { IfOk result (λ v. spec.IsCone steps.now from v.items) }
{
    let mut marks: Vec<bool> = vec![in alloc; false; from + 1]?;
    mark_reached(&mut marks, steps, from);
    let places = places_of(alloc, &marks)?;
    sublist(alloc, &marks, &places, steps)
}

/// Marks the steps that the named one reaches. None is marked before.
fn mark_reached(marks: &mut [bool], steps: &[Step], from: usize)
    requires within { from < length steps.now }
    requires marks { length marks.old ≡ from + 1 }
    requires none { (n : ℕ) → ¬ (spec.is_in marks.old n ≡ true) }
    requires earlier { AreEarlier steps.now }
    ensures { (n : ℕ) → (spec.is_in marks.new n ≡ true) ↔ spec.Reaches steps.now from n }
{
    marks[from] = true;
    let mut left = from + 1;
    while left > 0 {
        left -= 1;
        if marks[left] {
            mark_named(marks, steps[left].hints.as_slice());
        }
    }
}

/// Marks the steps that hints name, too.
fn mark_named(marks: &mut [bool], hints: &[Hint])
    requires { AllByRecursion (IsBelow (length marks.old)) hints.now }
    ensures { spec.AddsNamed marks.old marks.new hints.now }
{
    for hint in hints {
        mark(marks, *hint);
    }
}

/// Marks the step that a hint names, if it names one.
fn mark(marks: &mut [bool], hint: Hint)
    requires { IsBelow (length marks.old) hint }
    ensures { (n : ℕ) → spec.is_in marks.new n ≡ (spec.is_in marks.old n || spec.is_to n hint) }
{
    if let Hint::Step(step) = hint {
        marks[step as usize] = true;
    }
}

/// For each step its place among those marked: how many before it are.
fn places_of(alloc: Global, marks: &[bool]) -> Result<Vec<u32>, AllocError>
    requires { length marks.now < number_limit }
    ensures { IfOk result (λ v. ArePlaces marks.now v.items) }
{
    let mut places = Vec::with_capacity(alloc, marks.len())?;
    let mut count: u32 = 0;
    for mark in marks {
        places.push(count)?;
        if *mark {
            count += 1;
        }
    }
    Ok(places)
}

/// The marked steps, with hints to places.
fn sublist(
    alloc: Global,
    marks: &[bool],
    places: &[u32],
    steps: &[Step],
) -> Result<Vec<Step>, AllocError>
    requires within { length marks.now ≤ length steps.now }
    requires places { ArePlaces marks.now places.now }
    requires earlier { AreEarlier steps.now }
    ensures { IfOk result (λ v. v.items ≡ spec.sublist marks.now marks.now steps.now) }
{
    let mut kept = Vec::new(alloc);
    for i in 0..marks.len() {
        if marks[i] {
            kept.push(placed_step(alloc, places, &steps[i])?)?;
        }
    }
    Ok(kept)
}

/// The step with hints to places.
fn placed_step(alloc: Global, places: &[u32], step: &Step) -> Result<Step, AllocError>
    requires { AllByRecursion (IsBelow (length places.now)) step.now.hints }
    ensures { IfOk result (λ s. s ≡ by_places places.now step.now) }
{
    let clause = step.clause.clone_in(alloc)?;
    let hints = placed_hints(alloc, places, step.hints.as_slice())?;
    Ok(Step {
        clause,
        hints: Hints::new(hints),
    })
}

/// The hints to places, in order.
fn placed_hints(alloc: Global, places: &[u32], hints: &[Hint]) -> Result<Vec<Hint>, AllocError>
    requires { AllByRecursion (IsBelow (length places.now)) hints.now }
    ensures { IfOk result (λ v. v.items ≡ map (by_place places.now) hints.now) }
{
    let mut copies = Vec::with_capacity(alloc, hints.len())?;
    for hint in hints {
        copies.push(placed_hint(places, *hint))?;
    }
    Ok(copies)
}

/// A hint to a step becomes one to its place.
fn placed_hint(places: &[u32], hint: Hint) -> Hint
    requires { IsBelow (length places.now) hint }
    ensures { result ≡ by_place places.now hint }
{
    match hint {
        Hint::Rule(rule) => Hint::Rule(rule),
        Hint::Step(step) => Hint::Step(places[step as usize]),
    }
}
