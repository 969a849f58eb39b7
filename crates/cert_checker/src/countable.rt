ghost use Rattle.std.specs.Prelude.{◌↔◌, IsTrue};
ghost use Rattle.std.specs.List.{AllByRecursion};
ghost use Rattle.cert_checker.specs.Countable.{AreCountable, HasCountableHints};

use count_core::{NUMBER_LIMIT, Step};

/// Whether a `u32` numbers the steps, and the hints of each, in time by the number of steps.
pub fn are_countable(steps: &[Step]) -> bool
    ensures { IsTrue result ↔ AreCountable steps.now }
{
    steps.len() < NUMBER_LIMIT && have_countable_hints(steps)
}

/// Whether a `u32` numbers the hints of each step.
fn have_countable_hints(steps: &[Step]) -> bool
    ensures { IsTrue result ↔ AllByRecursion HasCountableHints steps.now }
{
    steps
        .iter()
        .all(|step| step.hints.as_slice().len() < NUMBER_LIMIT)
}
