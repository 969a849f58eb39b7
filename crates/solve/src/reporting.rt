//! What is written of the bytes that were read.

ghost use Rattle.std.specs.Prelude.{◌≡◌, IfOk, IfErr};
ghost use Rattle.solve.specs.Reports.{IsReportOf, IsReportOn, IsReportFor};
ghost use Rattle.solve.specs.Reports.{IsUnsaid, IsUnsaidOn, question_line};

use crate::answering::answers_to;
use crate::questions::{QuestionFault, first_faulty};
use crate::status::Status;
use count_core::{CoreFault, Lits, NUMBER_LIMIT, NoMemory, Problem};
use list_texts::{Inquiry, ListFault, fault_line, no_list_line};
use std::alloc::Global;
use std::sync::Arc;

/// What is written of bytes, and the status with which the program then ends.
#[derive(Drop)]
pub(crate) struct Report {
    pub(crate) status: Status,
    pub(crate) text: Vec<u8>,
}

/// The report of the bytes, or the status that tells why nothing is said of them.
pub(crate) fn report_of(alloc: Global, bytes: &[u8]) -> Result<Report, Status>
    ensures told { IfOk result (λ report.
        IsReportOf bytes.now report.status report.text.items) }
    ensures unsaid { IfErr result (λ status. IsUnsaid bytes.now status) }
{
    match Inquiry::read(alloc, bytes) {
        Ok(inquiry) => inquiry_report(alloc, inquiry),
        Err(ListFault::Line(line)) => {
            let text = no_list_line(alloc, line)?;
            Ok(Report {
                status: Status::Refused,
                text,
            })
        }
        Err(ListFault::NoMemory) => Err(Status::NoMemory),
    }
}

/// The report of an inquiry: the answers to its questions, or the first fault of its rules, or the
/// first question that may not be asked.
fn inquiry_report(alloc: Global, inquiry: Inquiry) -> Result<Report, Status>
    ensures told { IfOk result (λ report. IsReportOn inquiry.atoms inquiry.rules.items
        inquiry.questions.items report.status report.text.items) }
    ensures unsaid { IfErr result (λ status. IsUnsaidOn inquiry.rules.items status) }
{
    let Inquiry {
        atoms,
        rules,
        questions,
    } = inquiry;
    if rules.len() >= NUMBER_LIMIT {
        return Err(Status::TooLong);
    }
    match Problem::build(alloc, atoms, rules) {
        Ok(problem) => problem_report(alloc, problem, questions.as_slice()),
        Err(CoreFault::NoMemory) => Err(Status::NoMemory),
        Err(fault) => {
            let text = fault_line(alloc, fault)?;
            Ok(Report {
                status: Status::Refused,
                text,
            })
        }
    }
}

/// The report of questions of a problem.
fn problem_report(alloc: Global, problem: Problem, questions: &[Lits]) -> Result<Report, Status>
    ensures told { IfOk result (λ report. IsReportFor problem questions.now
        report.status report.text.items) }
    ensures unsaid { IfErr result (λ status. status ≡ Status.NoMemory) }
{
    if let Some((place, fault)) = first_faulty(problem.atoms(), questions) {
        let text = question_line(alloc, place, fault)?;
        return Ok(Report {
            status: Status::Refused,
            text,
        });
    }
    let Ok(problem) = Arc::new(alloc, problem) else {
        return Err(Status::NoMemory);
    };
    let text = answers_to(alloc, problem, questions)?;
    Ok(Report {
        status: Status::Answered,
        text,
    })
}

/// The line of the first question that may not be asked.
fn question_line(alloc: Global, place: usize, fault: QuestionFault) -> Result<Vec<u8>, NoMemory>
    ensures { IfOk result (λ text. text.items ≡ question_line place fault) }
{
    let text = match fault {
        QuestionFault::AtomRange => format!(in alloc; "question refused {place} AtomRange\n")?,
        QuestionFault::RepeatedAtom => {
            format!(in alloc; "question refused {place} RepeatedAtom\n")?
        }
    };
    Ok(text.into_bytes())
}
