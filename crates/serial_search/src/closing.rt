ghost use Rattle.std.specs.Prelude.{◌≡◌, ◌++◌, [], map, true, IfOk, IfSome, IfNone, OnOk, Contains};
ghost use Rattle.count_core.specs.Assignments.{negation};
ghost use Rattle.count_core.specs.PartialAssignments.{is_true as is_set_true};
ghost use Rattle.count_core.specs.Steps.{NegatesOnly};
ghost use Rattle.propagation.specs.Engines.{IsConflict};
ghost use Rattle.serial_search.specs.Assumptions as spec;
ghost use Rattle.serial_search.specs.Sides.{AreLinked, IsContinued, IsClosedBy};

use crate::analysis::Proposal;
use crate::work::Work;
use count_core::{Hint, Lit, NoMemory};
use propagation::Engine;
use refutations::ProofLog;
use std::alloc::Global;

/// Adds a step whose clause holds only negations of assumed literals, for a conflict, and answers
/// its number. The analysis begins at `from`, the conflict or a step that was learnt of it.
pub(crate) fn close(
    alloc: Global,
    log: &mut ProofLog,
    engine: &Engine,
    work: &mut Work,
    conflict: Hint,
    from: Hint,
) -> Result<u32, NoMemory>
    requires linked { AreLinked log.old engine.now }
    requires conflict { IsConflict engine.now conflict }
    ensures closed { IfOk result (λ n. IsClosedBy log.new (spec.assumed_of engine.now.entries) n) }
    ensures continued { IsContinued log.old log.new }
{
    if let Hint::Step(step) = from {
        if closes(log, engine, step) {
            return Ok(step);
        }
    }
    if let Some(number) = close_by_analysis(alloc, log, engine, work, from)? {
        return Ok(number);
    }
    work.count_fallback();
    close_by_all(alloc, log, engine, conflict)
}

/// Whether there is such a step, and its clause holds only negations of assumed literals.
fn closes(log: &ProofLog, engine: &Engine, step: u32) -> bool
    ensures { result ≡ true → IsClosedBy log.now (spec.assumed_of engine.now.entries) step }
{
    let steps = log.steps();
    let place = step as usize;
    place < steps.len() && negates_assumed(engine, steps[place].clause.as_slice())
}

/// Tries the clause on which the analysis finds that the conflict rests. Nothing rests on its being
/// accepted.
fn close_by_analysis(
    alloc: Global,
    log: &mut ProofLog,
    engine: &Engine,
    work: &mut Work,
    from: Hint,
) -> Result<Option<u32>, NoMemory>
    ensures closed { IfOk result (λ o. IfSome o
        (λ n. IsClosedBy log.new (spec.assumed_of engine.now.entries) n)) }
    ensures none { IfOk result (λ o. IfNone o (log.new ≡ log.old)) }
    ensures continued { IsContinued log.old log.new }
{
    let Proposal { clause, hints, .. } = work.analysis.assumed(alloc, engine, log.steps(), from)?;
    if !negates_assumed(engine, clause.as_slice()) {
        return Ok(None);
    }
    let Some(number) = log.add_leading(alloc, clause.as_slice(), hints.as_slice())? else {
        return Ok(None);
    };
    Ok(Some(number))
}

/// Whether each literal of the clause is the negation of one that was assumed.
fn negates_assumed(engine: &Engine, clause: &[Lit]) -> bool
    ensures { result ≡ true → NegatesOnly (spec.assumed_of engine.now.entries) clause.now }
{
    for lit in clause {
        if !was_assumed(engine, lit.negation()) {
            return false;
        }
    }
    true
}

/// Whether the literal is true and was assumed.
fn was_assumed(engine: &Engine, lit: Lit) -> bool
    ensures { result ≡ true → Contains (spec.assumed_of engine.now.entries) lit }
{
    match engine.cause_of(lit) {
        None => is_true(engine.values(), lit),
        Some(_) => false,
    }
}

/// Whether the literal is set true.
fn is_true(values: &[Option<bool>], lit: Lit) -> bool
    ensures { result ≡ is_set_true values.now lit }
{
    let place = lit.atom.0 as usize;
    place < values.len() && values[place] == Some(lit.positive)
}

/// Adds the step of the negations of all assumed literals, by all causes. It is accepted.
fn close_by_all(
    alloc: Global,
    log: &mut ProofLog,
    engine: &Engine,
    conflict: Hint,
) -> Result<u32, NoMemory>
    requires linked { AreLinked log.old engine.now }
    requires conflict { IsConflict engine.now conflict }
    ensures closed { IfOk result (λ n. IsClosedBy log.new (spec.assumed_of engine.now.entries) n) }
    ensures continued { IsContinued log.old log.new }
{
    let _rules = engine.problem().rules();
    let _trail = engine.trail();
    let clause = negations(alloc, engine)?;
    let hints = causes(alloc, engine, conflict)?;
    match log.add_leading(alloc, clause.as_slice(), hints.as_slice())? {
        Some(number) => Ok(number),
        None => unreachable!(),
    }
}

/// The negations of the assumed literals, in the order of the trail.
fn negations(alloc: Global, engine: &Engine) -> Result<Vec<Lit>, NoMemory>
    ensures { IfOk result (λ v. v.items ≡ spec.negations_of engine.now.entries) }
{
    let trail = engine.trail();
    let mut clause = Vec::new(alloc);
    for lit in trail {
        push_negation(&mut clause, *lit, engine.cause_of(*lit))?;
    }
    Ok(clause)
}

/// Puts the literal's negation behind the clause, where it has no cause.
fn push_negation(clause: &mut Vec<Lit>, lit: Lit, cause: Option<Hint>) -> Result<(), NoMemory>
    ensures { OnOk result (clause.new.items
        ≡ clause.old.items ++ map negation (spec.or_assumed cause lit [])) }
{
    if cause.is_none() {
        clause.push(lit.negation())?;
    }
    Ok(())
}

/// The causes of the trail, in its order, and then the conflict.
fn causes(alloc: Global, engine: &Engine, conflict: Hint) -> Result<Vec<Hint>, NoMemory>
    ensures { IfOk result (λ v. v.items ≡ spec.hints_of engine.now.entries conflict) }
{
    let trail = engine.trail();
    let mut hints = Vec::new(alloc);
    for lit in trail {
        push_cause(&mut hints, engine.cause_of(*lit))?;
    }
    hints.push(conflict)?;
    Ok(hints)
}

/// Puts the cause behind the hints, where there is one.
fn push_cause(hints: &mut Vec<Hint>, cause: Option<Hint>) -> Result<(), NoMemory>
    ensures { OnOk result (hints.new.items ≡ hints.old.items ++ spec.or_caused cause []) }
{
    if let Some(hint) = cause {
        hints.push(hint)?;
    }
    Ok(())
}
