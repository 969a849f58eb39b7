ghost use Rattle.std.specs.Prelude.{◌≡◌};
ghost use Rattle.propagation.specs.Engines.{IsConflict};
ghost use Rattle.serial_search.specs.Sides.{AreLinked, IsContinued};

use crate::analysis::Proposal;
use crate::work::Work;
use count_core::{Hint, NoMemory};
use propagation::Engine;
use refutations::ProofLog;
use std::alloc::Global;

/// What was learnt of a conflict.
#[derive(Clone, Copy)]
pub(crate) struct Learnt {
    /// The step of the clause.
    pub(crate) step: u32,
    /// Behind this place of the trail the clause forces a literal.
    pub(crate) back: usize,
}

/// Adds the clause that a conflict teaches, as a step and to the engine. Nothing rests on its being
/// accepted; where it is not, nothing is learnt. The last decision stands at place `level` of the
/// trail.
pub(crate) fn learn(
    alloc: Global,
    log: &mut ProofLog,
    engine: &mut Engine,
    work: &mut Work,
    conflict: Hint,
    level: usize,
) -> Result<Option<Learnt>, NoMemory>
    requires linked { AreLinked log.old engine.old }
    requires conflict { IsConflict engine.old conflict }
    ensures linked { AreLinked log.new engine.new }
    ensures continued { IsContinued log.old log.new }
    ensures entries { engine.new.entries ≡ engine.old.entries }
    ensures conflict { IsConflict engine.new conflict }
{
    let Proposal {
        clause,
        hints,
        back,
    } = work
        .analysis
        .unique_point(alloc, engine, log.steps(), conflict, level)?;
    let lits = clause.as_slice();
    let Some(number) = log.add_leading(alloc, lits, hints.as_slice())? else {
        return Ok(None);
    };
    let _steps = log.steps();
    engine.add_clause(alloc, lits, number)?;
    Ok(Some(Learnt { step: number, back }))
}
