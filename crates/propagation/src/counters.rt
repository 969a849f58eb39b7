ghost use Rattle.std.specs.Prelude.{◌≡◌, length, not};
ghost use Rattle.count_core.specs.Assignments.{under_sign};
ghost use Rattle.count_core.specs.PartialAssignments.{is_true, is_false, trues, falses};
ghost use Rattle.propagation.specs.Occurrences.{AreBelow, CanFall, CanRise, IsRaised};

use crate::occurrence::Occurrence;
use count_core::Lit;

/// How many of a list's literals are true, and how many are false.
#[derive(Clone, Copy)]
pub(crate) struct Counts {
    pub(crate) trues: usize,
    pub(crate) falses: usize,
}

/// Whether a literal of this sign is true where its atom has the value.
pub(crate) fn under_sign(positive: bool, value: bool) -> bool
    ensures { result ≡ under_sign positive value }
{
    if positive { value } else { !value }
}

/// Counts the literals of the occurrences, whose atom gets the value.
pub(crate) fn count_in(
    trues: &mut [usize],
    falses: &mut [usize],
    occurrences: &[Occurrence],
    value: bool,
)
    requires within_trues { AreBelow (length trues.old) occurrences.now }
    requires within_falses { AreBelow (length falses.old) occurrences.now }
    requires room_trues { CanRise trues.old value occurrences.now }
    requires room_falses { CanRise falses.old (not value) occurrences.now }
    ensures trues { IsRaised trues.old trues.new value occurrences.now }
    ensures falses { IsRaised falses.old falses.new (not value) occurrences.now }
{
    for occurrence in occurrences {
        let place = occurrence.constraint as usize;
        if under_sign(occurrence.positive, value) {
            trues[place] += 1;
        } else {
            falses[place] += 1;
        }
    }
}

/// Takes the literals of the occurrences off the counts, whose atom had the value and loses it.
pub(crate) fn count_out(
    trues: &mut [usize],
    falses: &mut [usize],
    occurrences: &[Occurrence],
    value: bool,
)
    requires within_trues { AreBelow (length trues.old) occurrences.now }
    requires within_falses { AreBelow (length falses.old) occurrences.now }
    requires some_trues { CanFall trues.old value occurrences.now }
    requires some_falses { CanFall falses.old (not value) occurrences.now }
    ensures trues { IsRaised trues.new trues.old value occurrences.now }
    ensures falses { IsRaised falses.new falses.old (not value) occurrences.now }
{
    for occurrence in occurrences {
        let place = occurrence.constraint as usize;
        if under_sign(occurrence.positive, value) {
            trues[place] -= 1;
        } else {
            falses[place] -= 1;
        }
    }
}

/// Counts the literals one by one.
pub(crate) fn counts_of(values: &[Option<bool>], lits: &[Lit]) -> Counts
    ensures trues { result.trues ≡ trues values.now lits.now }
    ensures falses { result.falses ≡ falses values.now lits.now }
{
    let mut trues = 0;
    let mut falses = 0;
    for lit in lits {
        if is_true(values, *lit) {
            trues += 1;
        }
        if is_false(values, *lit) {
            falses += 1;
        }
    }
    Counts { trues, falses }
}

/// Whether the literal is set true.
pub(crate) fn is_true(values: &[Option<bool>], lit: Lit) -> bool
    ensures { result ≡ is_true values.now lit }
{
    let place = lit.atom.0 as usize;
    place < values.len() && values[place] == Some(lit.positive)
}

/// Whether the literal is set false.
fn is_false(values: &[Option<bool>], lit: Lit) -> bool
    ensures { result ≡ is_false values.now lit }
{
    let place = lit.atom.0 as usize;
    place < values.len() && values[place] == Some(!lit.positive)
}
