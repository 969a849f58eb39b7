ghost use Rattle.std.specs.Prelude.{◌≡◌, ◌+◌, ◌<◌, length, IfNone, IfSome};
ghost use Rattle.propagation.specs.Firings.{directed};
ghost use Rattle.propagation.specs.Stores.{Grows, HasRoom, IsAtBoundIn, IsConflict, IsNumbered, IsQuietIn, IsShaped, OnlyTrailDiffers, completed, constraint_in, constraints_in};

use crate::status::Status;
use crate::store::Store;
use count_core::{Hint, Lit};

/// The literal where `truth`, else its negation.
fn directed(lit: Lit, truth: bool) -> Lit
    ensures { result ≡ directed truth lit }
{
    if truth { lit } else { lit.negation() }
}

/// Sets the literal at this place of the constraint true, or false, if it is unset.
fn force_lit(store: &mut Store, number: usize, place: usize, truth: bool)
    requires number { number < length (constraints_in store.old) }
    requires place { place < length (constraint_in store.old number).lits }
    requires bound { IsAtBoundIn store.old number truth }
    requires room { HasRoom store.old }
    ensures entries { completed store.new number truth (place + 1)
        ≡ completed store.old number truth place }
    ensures bound { IsAtBoundIn store.new number truth }
    ensures kept { OnlyTrailDiffers store.old store.new }
{
    let constraint = store.constraint(number);
    let lit = constraint.lits[place];
    let hint = constraint.hint;
    if store.value(lit.atom).is_none() {
        store.set(directed(lit, truth), Some(hint));
    }
}

/// Sets each unset literal of the constraint true, or each false.
fn force(store: &mut Store, number: usize, truth: bool)
    requires number { number < length (constraints_in store.old) }
    requires bound { IsAtBoundIn store.old number truth }
    requires room { HasRoom store.old }
    ensures entries { store.new.entries ≡ completed store.old number truth 0 }
    ensures bound { IsAtBoundIn store.new number truth }
    ensures named { IsNumbered store.old number }
    ensures shaped { IsShaped store.old.problem.atoms (constraint_in store.old number) }
    ensures kept { OnlyTrailDiffers store.old store.new }
{
    let count = store.constraint(number).lits.len();
    for place in 0..count {
        force_lit(store, number, place, truth);
    }
}

/// Sets what the constraint forces; where it conflicts, answers the hint that names it.
pub(crate) fn examine(store: &mut Store, number: usize) -> Option<Hint>
    requires number { number < length (constraints_in store.old) }
    requires room { HasRoom store.old }
    ensures conflict { IfSome result (λ h. IsConflict store.new h) }
    ensures quiet { IfNone result (IsQuietIn store.new number) }
    ensures grows { Grows store.old store.new }
    ensures kept { OnlyTrailDiffers store.old store.new }
{
    match store.status(number) {
        Status::Conflicting => Some(store.constraint(number).hint),
        Status::Forcing(truth) => {
            force(store, number, truth);
            None
        }
        Status::Quiet => None,
    }
}
