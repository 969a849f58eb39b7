ghost use Rattle.std.specs.Prelude.{◌≡◌, IfOk};
ghost use Rattle.propagation.specs.Engines.{IsConflict};
ghost use Rattle.serial_search.specs.Assumptions.{assumed_of};
ghost use Rattle.serial_search.specs.Sides.{AreLinked, IsContinued, IsClosedBy};

use crate::closing::close;
use crate::learning::{Learnt, learn};
use crate::work::Work;
use count_core::{Hint, NoMemory};
use propagation::Engine;
use refutations::ProofLog;
use std::alloc::Global;

/// Adds a step that closes what is assumed, for a conflict, and answers its number. Where there is a
/// last decision, at place `level` of the trail, learns of the conflict before.
pub(crate) fn refute(
    alloc: Global,
    log: &mut ProofLog,
    engine: &mut Engine,
    work: &mut Work,
    conflict: Hint,
    level: Option<usize>,
) -> Result<u32, NoMemory>
    requires linked { AreLinked log.old engine.old }
    requires conflict { IsConflict engine.old conflict }
    ensures closed { IfOk result (λ n. IsClosedBy log.new (assumed_of engine.old.entries) n) }
    ensures linked { AreLinked log.new engine.new }
    ensures continued { IsContinued log.old log.new }
    ensures entries { engine.new.entries ≡ engine.old.entries }
{
    work.count_conflict();
    let Some(level) = level else {
        return close(alloc, log, engine, work, conflict, conflict);
    };
    let learnt = learn(alloc, log, engine, work, conflict, level)?;
    close(
        alloc,
        log,
        engine,
        work,
        conflict,
        first_hint(learnt, conflict),
    )
}

/// The step that was learnt, or else the conflict.
fn first_hint(learnt: Option<Learnt>, conflict: Hint) -> Hint {
    match learnt {
        Some(learnt) => Hint::Step(learnt.step),
        None => conflict,
    }
}
