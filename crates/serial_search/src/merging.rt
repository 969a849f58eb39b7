ghost use Rattle.std.specs.Prelude.{◌≡◌, ◌<◌, ◌++◌, ◌∷◌, [], List, length, true, IfOk, IsTrue, ◌↔◌, Contains};
ghost use Rattle.count_core.specs.declared.lit.Lit.{Lit as Literal};
ghost use Rattle.refutations.specs.Derivations.{clause_at};
ghost use Rattle.refutations.specs.Joins.{AreSideSteps};
ghost use Rattle.serial_search.specs.Sides as spec;

use count_core::{Lit, NoMemory};
use refutations::ProofLog;
use std::alloc::Global;

/// The step that closes a split, of which the first side's step and the second's are given: the
/// second where its clause lacks the split, and else one that joins them.
pub(crate) fn merge(
    alloc: Global,
    log: &mut ProofLog,
    split: Lit,
    first: u32,
    second: u32,
) -> Result<u32, NoMemory>
    requires first { first < length log.old.steps }
    requires second { second < length log.old.steps }
    requires sides { Contains (clause_at log.old.steps second) split
        → AreSideSteps log.old split first second }
    ensures closed { (ls : List Literal) → spec.AreClosedSides log.old ls split first second
        → IfOk result (λ n. spec.IsClosedBy log.new ls n) }
    ensures continued { spec.IsContinued log.old log.new }
{
    if !holds(log, second, split) {
        return Ok(second);
    }
    let number = log.join_sides(alloc, split, first, Some(second))?;
    Ok(number)
}

/// Whether the step's clause holds the literal.
pub(crate) fn holds(log: &ProofLog, step: u32, lit: Lit) -> bool
    requires { step < length log.now.steps }
    ensures { IsTrue result ↔ Contains (clause_at log.now.steps step) lit }
{
    has(log.steps()[step as usize].clause.as_slice(), lit)
}

/// Whether the literal is one of these.
fn has(lits: &[Lit], lit: Lit) -> bool
    ensures { IsTrue result ↔ Contains lits.now lit }
{
    lits.contains(&lit)
}
