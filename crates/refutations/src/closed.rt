ghost use Rattle.std.specs.Prelude.{◌≡◌, IfOk};
ghost use Rattle.std.specs.Arc.{arc_value};
ghost use Rattle.count_core.specs.Decisions.{IsSatisfiable};
ghost use Rattle.count_core.specs.Steps.{IsRefutation};
ghost use Rattle.refutations.specs.Derivations as spec;

use count_core::{NoMemory, Question, SharedProblem, Step, Steps};
use std::alloc::Global;
use std::marker::Model;
use std::sync::Arc;

/// A question that is closed: by its type its steps are a refutation of it from its problem.
/// Contracts see a record of `problem`, its value, `question` and `steps`.
#[derive(Drop)]
pub struct Closed {
    problem: SharedProblem,
    question: Question,
    steps: Steps,
}

impl Model for Closed {
    ghost use Rattle.std.specs.Arc.{arc_value};
    ghost use Rattle.count_core.specs.Steps.{IsRefutation};
    ghost use Rattle.refutations.specs.Derivations as spec;

    ghost Value = { spec.Closing };

    ghost view = { λ c. spec.closing_of (arc_value c.problem) c.question c.steps };

    ghost invariant = { λ c. IsRefutation (arc_value c.problem) c.question c.steps };
}

impl Closed {
    /// The question with its refutation.
    pub(crate) fn of(problem: SharedProblem, question: Question, steps: Steps) -> Closed
        requires { IsRefutation (arc_value problem) question steps }
        ensures { result ≡ spec.closing_of (arc_value problem) question steps }
    {
        Closed {
            problem,
            question,
            steps,
        }
    }

    /// The problem.
    pub fn problem(&self) -> &SharedProblem
        ensures { arc_value result.now ≡ self.now.problem }
    {
        &self.problem
    }

    /// The question: no assignment satisfies it and the problem.
    pub fn question(&self) -> &Question
        ensures question { result.now ≡ self.now.question }
        ensures fails { ¬ (IsSatisfiable self.now.problem self.now.question) }
    {
        &self.question
    }

    /// The steps of the refutation, from 0.
    pub fn steps(&self) -> &[Step]
        ensures steps { result.now ≡ self.now.steps }
        ensures refutes { IsRefutation self.now.problem self.now.question self.now.steps }
    {
        self.steps.as_slice()
    }

    /// An equal value.
    pub fn clone_in(&self, alloc: Global) -> Result<Closed, NoMemory>
        ensures { IfOk result (λ c. c ≡ self.now) }
    {
        let steps = self.steps.clone_in(alloc)?;
        let question = self.question.clone_in(alloc)?;
        let problem = Arc::try_clone(&self.problem)?;
        Ok(Closed {
            problem,
            question,
            steps,
        })
    }
}
