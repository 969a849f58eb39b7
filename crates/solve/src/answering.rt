//! Questions of one problem, asked of one session.

ghost use Rattle.std.specs.Prelude.{◌≡◌, IfOk, OnOk};
ghost use Rattle.std.specs.Arc.{arc_value};
ghost use Rattle.solve.specs.Questions.{IsAskable, AreAskable};
ghost use Rattle.solve.specs.Answers.{Grows, IsAnswerTo, AreAnswersTo};

use crate::telling::add_answer;
use count_core::{Lits, NoMemory, Question, SharedProblem};
use serial_search::{Session, solve};
use std::alloc::Global;

/// The answers to the questions, one after another. All are asked of one session.
pub(crate) fn answers_to(
    alloc: Global,
    problem: SharedProblem,
    questions: &[Lits],
) -> Result<Vec<u8>, NoMemory>
    requires { AreAskable (arc_value problem).atoms questions.now }
    ensures { IfOk result (λ text. AreAnswersTo (arc_value problem) questions.now text.items) }
{
    let mut session = Session::new(alloc, problem)?;
    let mut text = Vec::new(alloc);
    for lits in questions {
        ask(alloc, lits, &mut session, &mut text)?;
    }
    Ok(text)
}

/// Asks the question of the session, and writes the answer behind the text.
fn ask(
    alloc: Global,
    lits: &Lits,
    session: &mut Session,
    text: &mut Vec<u8>,
) -> Result<(), NoMemory>
    requires { IsAskable session.old.problem.atoms lits.now }
    ensures answer { OnOk result (Grows (IsAnswerTo session.old.problem lits.now)
        text.old.items text.new.items) }
    ensures kept { session.new.problem ≡ session.old.problem }
{
    let question = Question::new(lits.clone_in(alloc)?);
    let answer = solve(alloc, &question, session)?;
    add_answer(text, &answer)
}
