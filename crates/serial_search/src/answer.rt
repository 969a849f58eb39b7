ghost use Rattle.std.specs.Prelude.{◌≡◌};
ghost use Rattle.std.specs.Arc.{arc_value};
ghost use Rattle.serial_search.specs.Answers as spec;

use crate::outcome::Outcome;
use count_core::{Question, SharedProblem};
use std::marker::Model;

/// An answer to a question, right by its type: its values satisfy its problem and its question, or
/// it holds a refutation of them. Contracts see a record of `problem`, its value, `question` and
/// `outcome`.
#[derive(Drop)]
pub struct Answer {
    problem: SharedProblem,
    question: Question,
    outcome: Outcome,
}

impl Model for Answer {
    ghost use Rattle.std.specs.Arc.{arc_value};
    ghost use Rattle.serial_search.specs.Answers as spec;

    ghost Value = { spec.Answering };

    ghost view = { λ a. spec.answering_of (arc_value a.problem) a.question a.outcome };

    ghost invariant = { λ a. spec.IsRight (arc_value a.problem) a.question a.outcome };
}

impl Answer {
    /// The answer of these parts, which is right.
    pub(crate) fn of(problem: SharedProblem, question: Question, outcome: Outcome) -> Answer
        requires { spec.IsRight (arc_value problem) question outcome }
        ensures { result ≡ spec.answering_of (arc_value problem) question outcome }
    {
        Answer {
            problem,
            question,
            outcome,
        }
    }

    /// The problem.
    pub fn problem(&self) -> &SharedProblem
        ensures { arc_value result.now ≡ self.now.problem }
    {
        &self.problem
    }

    /// The question.
    pub fn question(&self) -> &Question
        ensures { result.now ≡ self.now.question }
    {
        &self.question
    }

    /// What was found.
    pub fn outcome(&self) -> &Outcome
        ensures outcome { result.now ≡ self.now.outcome }
        ensures right { spec.IsRight self.now.problem self.now.question self.now.outcome }
    {
        &self.outcome
    }
}
