ghost use Rattle.std.specs.Prelude.{◌≡◌, ◌≢◌, IfOk};
ghost use Rattle.serial_search.specs.Assumptions.{assumed_of};
ghost use Rattle.serial_search.specs.Sides as spec;

use crate::deciding::{decide, set_what_follows, turn_to};
use crate::merging::{holds, merge};
use crate::picking::{Heuristic, pick};
use crate::refuting::refute;
use crate::work::Work;
use count_core::NoMemory;
use propagation::{Engine, Found};
use refutations::ProofLog;
use std::alloc::Global;

/// How a side of the search ended.
#[derive(Clone, Copy)]
pub(crate) enum Side {
    /// Each atom is set, and no rule conflicts.
    Found,
    /// The clause of this step holds only negations of what was assumed.
    Closed(u32),
    /// The conflicts of a run were used up.
    Stopped,
}

/// Searches on from what is assumed, both sides of each split, until it is done. The last decision,
/// if there is one, stands at place `level` of the trail.
pub(crate) fn search(
    alloc: Global,
    log: &mut ProofLog,
    engine: &mut Engine,
    work: &mut Work,
    heuristic: Heuristic,
    level: Option<usize>,
) -> Result<Side, NoMemory>
    requires { spec.AreLinked log.old engine.old }
    ensures side { IfOk result
        (λ s. spec.IsSide log.new engine.new (assumed_of engine.old.entries) s) }
    ensures ended { IfOk result (λ s. s ≢ Side.Stopped) }
    ensures linked { spec.AreLinked log.new engine.new }
    ensures continued { spec.IsContinued log.old log.new }
    ensures longer { spec.IsLonger engine.old.entries engine.new.entries }
{
    if let Found::Conflict { cause } = set_what_follows(engine, work) {
        return Ok(Side::Closed(refute(alloc, log, engine, work, cause, level)?));
    }
    let Some(split) = pick(engine, work.slacks(), heuristic) else {
        return Ok(Side::Found);
    };
    work.count_decision();
    let mark = decide(engine, split);
    let place = Some(mark.0 as usize);
    let first = match search(alloc, log, engine, work, heuristic, place)? {
        Side::Found => return Ok(Side::Found),
        Side::Stopped => return Ok(Side::Stopped),
        Side::Closed(step) => step,
    };
    if !holds(log, first, split.negation()) {
        return Ok(Side::Closed(first));
    }
    work.count_opened();
    turn_to(engine, mark, split.negation());
    let second = match search(alloc, log, engine, work, heuristic, place)? {
        Side::Found => return Ok(Side::Found),
        Side::Stopped => return Ok(Side::Stopped),
        Side::Closed(step) => step,
    };
    Ok(Side::Closed(merge(alloc, log, split, first, second)?))
}
