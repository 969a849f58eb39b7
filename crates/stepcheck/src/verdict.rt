ghost use Rattle.std.specs.Prelude.{IfOk, IsErrOf};
ghost use Rattle.stepcheck.specs.Runs.{IsCountableList};
ghost use Rattle.stepcheck.specs.Verdicts.{IsVerdictOf};

use cert_checker::{Checked, are_countable, check};
use count_core::{CoreFault, Problem};
use list_texts::Listing;
use std::alloc::Global;

/// What is said of a list.
#[derive(Clone, Copy, Debug, PartialEq, Eq)]
pub(crate) enum Verdict {
    /// Its rules make no problem, by this fault.
    Refused(CoreFault),
    /// What `check` answers.
    Checked(Checked),
}

/// Why nothing is said of a list.
#[derive(Clone, Copy, Debug, PartialEq, Eq)]
pub(crate) enum Unsaid {
    /// A `u32` does not number its rules, its steps, or the hints of a step.
    TooLong,
    NoMemory,
}

/// One more than the largest number that a `u32` has.
const NUMBERS: usize = 4_294_967_296;

/// The first fault of the rules, or else what `check` answers of the steps.
pub(crate) fn verdict_of(alloc: Global, listing: Listing) -> Result<Verdict, Unsaid>
    ensures told { IfOk result (λ v. IsVerdictOf listing.atoms listing.rules.items listing.steps.items v) }
    ensures too_long { IsErrOf result Unsaid.TooLong → IsCountableList listing.rules.items listing.steps.items → ⊥ }
{
    let Listing {
        atoms,
        rules,
        steps,
    } = listing;
    if rules.len() >= NUMBERS || !are_countable(steps.as_slice()) {
        return Err(Unsaid::TooLong);
    }
    let problem = match Problem::build(alloc, atoms, rules) {
        Ok(problem) => problem,
        Err(CoreFault::NoMemory) => return Err(Unsaid::NoMemory),
        Err(fault) => return Ok(Verdict::Refused(fault)),
    };
    match check(alloc, &problem, steps.as_slice()) {
        Ok(checked) => Ok(Verdict::Checked(checked)),
        Err(_) => Err(Unsaid::NoMemory),
    }
}
