ghost use Rattle.std.specs.Prelude.{◌≡◌, ◌≤◌, ◌+◌, Bool, true, length};
ghost use Rattle.count_core.specs.PartialAssignments.{is_true, is_false, trues, falses, conflicts, ForcesAll, IsQuiet};

use count_core::Lit;

/// What a rule says under a partial assignment.
#[derive(Clone, Copy, Debug, PartialEq, Eq)]
pub(crate) enum Effect {
    /// It conflicts.
    Conflict,
    /// It does not conflict, and forces its unset literals to be this; there is at least one.
    Forces { truth: bool },
    /// Neither.
    Quiet,
}

/// What a rule says under the values: that from `lo` to `hi` of the literals are true. Looks at
/// each literal once.
pub(crate) fn effect_of(values: &[Option<bool>], lits: &[Lit], lo: usize, hi: usize) -> Effect
    ensures conflict { result ≡ Effect.Conflict → conflicts values.now lits.now lo hi ≡ true }
    ensures forces { (b : Bool) → result ≡ Effect.Forces b → ForcesAll values.now lits.now lo hi b }
    ensures quiet { result ≡ Effect.Quiet → IsQuiet values.now lits.now lo hi }
{
    let tally = tally_of(values, lits);
    let able = lits.len() - tally.falses;
    if tally.trues > hi {
        return Effect::Conflict;
    }
    if able < lo {
        return Effect::Conflict;
    }
    if tally.trues == able {
        return Effect::Quiet;
    }
    if tally.trues == hi {
        return Effect::Forces { truth: false };
    }
    if able == lo {
        return Effect::Forces { truth: true };
    }
    Effect::Quiet
}

/// How many of some literals are true, and how many false.
#[derive(Clone, Copy)]
struct Tally {
    trues: usize,
    falses: usize,
}

/// Counts the literals that are true and those that are false, in one pass.
fn tally_of(values: &[Option<bool>], lits: &[Lit]) -> Tally
    ensures trues { result.trues ≡ trues values.now lits.now }
    ensures falses { result.falses ≡ falses values.now lits.now }
    ensures within { result.trues + result.falses ≤ length lits.now }
{
    let mut tally = Tally {
        trues: 0,
        falses: 0,
    };
    for lit in lits {
        tally.trues += is_true(values, *lit) as usize;
        tally.falses += is_false(values, *lit) as usize;
    }
    tally
}

/// Whether the literal is set true.
fn is_true(values: &[Option<bool>], lit: Lit) -> bool
    ensures { result ≡ is_true values.now lit }
{
    let place = lit.atom.0 as usize;
    place < values.len() && values[place] == Some(lit.positive)
}

/// Whether the literal is set false.
fn is_false(values: &[Option<bool>], lit: Lit) -> bool
    ensures { result ≡ is_false values.now lit }
{
    let place = lit.atom.0 as usize;
    place < values.len() && values[place] == Some(!lit.positive)
}
