ghost use Rattle.std.specs.Prelude.{◌≡◌, Bool, true};
ghost use Rattle.count_core.specs.PartialAssignments.{is_true, is_false, trues, falses, conflicts, ForcesAll, IsQuiet};

use count_core::Lit;

/// How many of a list's literals are true, and how many are false.
#[derive(Clone, Copy)]
struct Tally {
    trues: usize,
    falses: usize,
}

/// What a rule says under a partial assignment.
#[derive(Clone, Copy)]
pub(crate) enum Effect {
    /// More literals are true than may be, or fewer can be than must.
    Conflict,
    /// It does not conflict, stands at a bound and has unset literals: they are all to be true, or
    /// all false.
    Forces(bool),
    /// Neither.
    Quiet,
}

/// Whether the literal is set true.
fn is_true(values: &[Option<bool>], lit: Lit) -> bool
    ensures { result ≡ is_true values.now lit }
{
    let place = lit.atom.0 as usize;
    place < values.len() && values[place] == Some(lit.positive)
}

/// Whether the literal is set false.
fn is_false(values: &[Option<bool>], lit: Lit) -> bool
    ensures { result ≡ is_false values.now lit }
{
    let place = lit.atom.0 as usize;
    place < values.len() && values[place] == Some(!lit.positive)
}

/// Counts the literals in one pass.
fn tally_of(values: &[Option<bool>], lits: &[Lit]) -> Tally
    ensures trues { result.trues ≡ trues values.now lits.now }
    ensures falses { result.falses ≡ falses values.now lits.now }
{
    let mut trues = 0;
    let mut falses = 0;
    for lit in lits {
        if is_true(values, *lit) {
            trues += 1;
        }
        if is_false(values, *lit) {
            falses += 1;
        }
    }
    Tally { trues, falses }
}

/// What a rule with these literals and bounds says under the values.
pub(crate) fn effect_of(values: &[Option<bool>], lits: &[Lit], lo: usize, hi: usize) -> Effect
    ensures conflict { result ≡ Effect.Conflict → conflicts values.now lits.now lo hi ≡ true }
    ensures forces { (b : Bool) → result ≡ Effect.Forces b → ForcesAll values.now lits.now lo hi b }
    ensures quiet { result ≡ Effect.Quiet → IsQuiet values.now lits.now lo hi }
{
    let Tally { trues, falses } = tally_of(values, lits);
    let possible = lits.len() - falses;
    if trues > hi || possible < lo {
        return Effect::Conflict;
    }
    if possible == trues {
        return Effect::Quiet;
    }
    if trues == hi {
        return Effect::Forces(false);
    }
    if possible == lo {
        return Effect::Forces(true);
    }
    Effect::Quiet
}
