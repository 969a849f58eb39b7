ghost use Rattle.std.specs.Prelude.{◌≡◌, ◌<◌, length, IfOk};
ghost use Rattle.std.specs.Arc.{arc_value};
ghost use Rattle.count_core.specs.Assignments.{Follows};
ghost use Rattle.refutations.specs.Derivations as spec;

use count_core::{Lit, NoMemory, SharedProblem, Step, Steps};
use std::alloc::Global;
use std::marker::Model;
use std::sync::Arc;

/// A clause that follows from a problem, with the steps that show it: by its type an accepted list
/// of at least one step, from the problem's rules alone. Contracts see a record of `problem`, its
/// value, and `steps`.
#[derive(Drop)]
pub struct Lemma {
    problem: SharedProblem,
    steps: Steps,
}

impl Model for Lemma {
    ghost use Rattle.std.specs.Arc.{arc_value};
    ghost use Rattle.refutations.specs.Derivations as spec;

    ghost Value = { spec.Derivation };

    ghost view = { λ l. record { problem = arc_value l.problem; steps = l.steps } };

    ghost invariant = { λ l. spec.IsLemma (arc_value l.problem) l.steps };
}

impl Lemma {
    /// The lemma of these steps, which are one of the problem.
    pub(crate) fn of(problem: SharedProblem, steps: Steps) -> Lemma
        requires { spec.IsLemma (arc_value problem) steps }
        ensures { result ≡ record { problem = arc_value problem; steps = steps } }
    {
        Lemma { problem, steps }
    }

    /// The problem.
    pub fn problem(&self) -> &SharedProblem
        ensures { arc_value result.now ≡ self.now.problem }
    {
        &self.problem
    }

    /// The steps, from 0.
    pub fn steps(&self) -> &[Step]
        ensures steps { result.now ≡ self.now.steps }
        ensures lemma { spec.IsLemma self.now.problem self.now.steps }
    {
        self.steps.as_slice()
    }

    /// The clause of the last step: each assignment that satisfies the problem makes one of its
    /// literals true.
    pub fn clause(&self) -> &[Lit]
        ensures clause { result.now ≡ spec.last_clause self.now.steps }
        ensures follows { Follows self.now.problem result.now }
    {
        last_clause(self.steps.as_slice())
    }

    /// An equal lemma.
    pub fn clone_in(&self, alloc: Global) -> Result<Lemma, NoMemory>
        ensures { IfOk result (λ l. l ≡ self.now) }
    {
        let steps = self.steps.clone_in(alloc)?;
        let problem = Arc::try_clone(&self.problem)?;
        Ok(Lemma { problem, steps })
    }
}

/// The clause of the last of the steps, of which there is one.
fn last_clause(steps: &[Step]) -> &[Lit]
    requires { 0 < length steps.now }
    ensures { result.now ≡ spec.last_clause steps.now }
{
    steps[steps.len() - 1].clause.as_slice()
}
