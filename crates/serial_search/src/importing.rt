ghost use Rattle.std.specs.Prelude.{◌≡◌, IfOk};
ghost use Rattle.std.specs.Arc.{arc_value};
ghost use Rattle.count_core.specs.Steps.{AreAccepted};
ghost use Rattle.serial_search.specs.Sides.{AreLinked, IsContinued};

use count_core::{NoMemory, SharedProblem, Step};
use propagation::Engine;
use refutations::{Lemma, LogFault, ProofLog};
use std::alloc::{AllocError, Global};
use std::sync::Arc;

/// Adds the lemma's steps to the log and its clause to the engine. It is of the same problem.
pub(crate) fn import_lemma(
    alloc: Global,
    log: &mut ProofLog,
    engine: &mut Engine,
    lemma: &Lemma,
) -> Result<(), NoMemory>
    requires linked { AreLinked log.old engine.old }
    requires same { lemma.now.problem ≡ log.old.problem }
    ensures linked { AreLinked log.new engine.new }
    ensures continued { IsContinued log.old log.new }
{
    let problem = Arc::try_clone(lemma.problem())?;
    let own = log_of(alloc, problem, lemma.steps())?;
    let shift = log.append_all(alloc, &own)?;
    let last = shift as usize + own.steps().len() - 1;
    let _steps = log.steps();
    engine.add_clause(alloc, lemma.clause(), last as u32)?;
    Ok(())
}

/// A log of these steps, which are accepted.
fn log_of(alloc: Global, problem: SharedProblem, steps: &[Step]) -> Result<ProofLog, NoMemory>
    requires { AreAccepted (arc_value problem) steps.now }
    ensures { IfOk result (λ l. l ≡ record { problem = arc_value problem; steps = steps.now }) }
{
    let mut log = ProofLog::new(alloc, problem);
    for step in steps {
        let hints = step.hints.as_slice();
        if hints.len() > u32::MAX as usize {
            return Err(AllocError);
        }
        match log.add(alloc, step.clause.as_slice(), hints) {
            Ok(_) => {}
            Err(LogFault::NoMemory) => return Err(AllocError),
            Err(LogFault::NotAccepted { .. }) => unreachable!(),
        }
    }
    Ok(log)
}
