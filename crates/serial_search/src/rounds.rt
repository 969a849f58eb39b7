ghost use Rattle.std.specs.Prelude.{◌≡◌, ◌≤◌, length, take, IfOk, IfSome};
ghost use Rattle.propagation.specs.Engines.{IsConflict};
ghost use Rattle.serial_search.specs.Assumptions.{assumed_of};
ghost use Rattle.serial_search.specs.Sides as spec;

use crate::closing::close;
use crate::deciding::{decide, go_back, set_what_follows};
use crate::learning::learn;
use crate::picking::{Heuristic, pick};
use crate::side::Side;
use crate::work::Work;
use count_core::{Hint, NoMemory};
use propagation::{Engine, Found, Mark};
use refutations::ProofLog;
use std::alloc::Global;

/// Searches on from what is assumed until the conflicts are used up. Each conflict teaches a clause,
/// and the search goes back to where that clause forces a literal.
pub(crate) fn search_by_learning(
    alloc: Global,
    log: &mut ProofLog,
    engine: &mut Engine,
    work: &mut Work,
    heuristic: Heuristic,
) -> Result<Side, NoMemory>
    requires { spec.AreLinked log.old engine.old }
    ensures side { IfOk result
        (λ s. spec.IsSide log.new engine.new (assumed_of engine.old.entries) s) }
    ensures linked { spec.AreLinked log.new engine.new }
    ensures continued { spec.IsContinued log.old log.new }
    ensures longer { spec.IsLonger engine.old.entries engine.new.entries }
{
    let base = engine.mark();
    work.begin_run();
    for _turn in 0..u64::MAX {
        if let Some(side) = take_turn(alloc, log, engine, work, heuristic, base)? {
            return Ok(side);
        }
    }
    Ok(Side::Stopped)
}

/// Propagates, and then makes a decision or learns of a conflict; or answers how the search ended.
/// What was assumed stands before the base.
fn take_turn(
    alloc: Global,
    log: &mut ProofLog,
    engine: &mut Engine,
    work: &mut Work,
    heuristic: Heuristic,
    base: Mark,
) -> Result<Option<Side>, NoMemory>
    requires linked { spec.AreLinked log.old engine.old }
    requires within { base.0 ≤ length engine.old.entries }
    ensures side { IfOk result (λ o. IfSome o (λ s.
        spec.IsSide log.new engine.new (assumed_of (take base.0 engine.old.entries)) s)) }
    ensures linked { spec.AreLinked log.new engine.new }
    ensures continued { spec.IsContinued log.old log.new }
    ensures keeps { spec.KeepsFront base.0 engine.old.entries engine.new.entries }
{
    if let Found::Conflict { cause } = set_what_follows(engine, work) {
        let ended = resolve(alloc, log, engine, work, cause, base)?;
        return Ok(ended);
    }
    work.measure_slacks(engine, heuristic);
    let Some(split) = pick(engine, work.slacks(), heuristic) else {
        return Ok(Some(Side::Found));
    };
    work.count_decision();
    let mark = decide(engine, split);
    work.note_level(mark)?;
    Ok(None)
}

/// Learns of a conflict and goes back; or answers how the search ended.
fn resolve(
    alloc: Global,
    log: &mut ProofLog,
    engine: &mut Engine,
    work: &mut Work,
    conflict: Hint,
    base: Mark,
) -> Result<Option<Side>, NoMemory>
    requires linked { spec.AreLinked log.old engine.old }
    requires conflict { IsConflict engine.old conflict }
    requires within { base.0 ≤ length engine.old.entries }
    ensures side { IfOk result (λ o. IfSome o (λ s.
        spec.IsSide log.new engine.new (assumed_of (take base.0 engine.old.entries)) s)) }
    ensures linked { spec.AreLinked log.new engine.new }
    ensures continued { spec.IsContinued log.old log.new }
    ensures keeps { spec.KeepsFront base.0 engine.old.entries engine.new.entries }
{
    if work.is_used_up() {
        return Ok(Some(Side::Stopped));
    }
    work.count_conflict();
    let Some(level) = work.last_level() else {
        let side = close_at(alloc, log, engine, work, base)?;
        return Ok(Some(side));
    };
    let Some(learnt) = learn(alloc, log, engine, work, conflict, level)? else {
        work.count_fallback();
        return Ok(Some(Side::Stopped));
    };
    work.count_opened();
    let mark = work.leave_levels(learnt.back);
    go_back(engine, base, mark);
    Ok(None)
}

/// Closes what was assumed before the base, where that conflicts by propagation alone.
fn close_at(
    alloc: Global,
    log: &mut ProofLog,
    engine: &mut Engine,
    work: &mut Work,
    base: Mark,
) -> Result<Side, NoMemory>
    requires linked { spec.AreLinked log.old engine.old }
    requires within { base.0 ≤ length engine.old.entries }
    ensures side { IfOk result (λ s.
        spec.IsSide log.new engine.new (assumed_of (take base.0 engine.old.entries)) s) }
    ensures linked { spec.AreLinked log.new engine.new }
    ensures continued { spec.IsContinued log.old log.new }
    ensures keeps { spec.KeepsFront base.0 engine.old.entries engine.new.entries }
{
    engine.back_to(base);
    let Found::Conflict { cause } = set_what_follows(engine, work) else {
        return Ok(Side::Stopped);
    };
    let number = close(alloc, log, engine, work, cause, cause)?;
    Ok(Side::Closed(number))
}
