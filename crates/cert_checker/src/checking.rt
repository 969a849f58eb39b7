ghost use Rattle.std.specs.Prelude.{◌≡◌, ◌↔◌, ℕ, [], IfOk, replicate, None};
ghost use Rattle.count_core.specs.Laws.{AllFollow};
ghost use Rattle.count_core.specs.Steps.{AreAccepted};
ghost use Rattle.cert_checker.specs.Countable.{AreCountable};
ghost use Rattle.cert_checker.specs.Checks.{first_bad, IsFirstBad};

use crate::assignment::Assignment;
use crate::checked::Checked;
use crate::hint_check::failing_hint;
use count_core::{Problem, Step};
use std::alloc::{AllocError, Global};

/// Checks each step of the list after those before it: `Accepted` exactly where the list is an
/// accepted one, else the first step that is not accepted, with its failing hint.
///
/// It takes memory for a value and a number per atom, once, and copies nothing. A step costs the
/// literals of its clause and of what its hints name.
pub fn check(alloc: Global, problem: &Problem, steps: &[Step]) -> Result<Checked, AllocError>
    requires { AreCountable steps.now }
    ensures answer { IfOk result (λ c. c ≡ first_bad problem.now [] steps.now 0) }
    ensures accepted { IfOk result (λ c.
        (c ≡ Checked.Accepted) ↔ AreAccepted problem.now steps.now) }
    ensures bad { IfOk result (λ c.
        (n h : ℕ) → (c ≡ Checked.Bad n h) ↔ IsFirstBad problem.now steps.now n h) }
    ensures follows { IfOk result (λ c. c ≡ Checked.Accepted → AllFollow problem.now steps.now) }
{
    let mut assignment = Assignment::new(alloc, problem.atoms())?;
    Ok(first_bad(&mut assignment, problem, steps))
}

/// The same, with an assignment in which nothing is set.
fn first_bad(assignment: &mut Assignment, problem: &Problem, steps: &[Step]) -> Checked
    requires countable { AreCountable steps.now }
    requires clean { assignment.old ≡ replicate problem.now.atoms None }
    ensures { result ≡ first_bad problem.now [] steps.now 0 }
{
    for (place, step) in steps.iter().enumerate() {
        if let Some(hint) = failing_hint(assignment, problem, &steps[..place], step) {
            return Checked::Bad {
                step: place as u32,
                hint: hint as u32,
            };
        }
    }
    Checked::Accepted
}
