ghost use Rattle.std.specs.Prelude.{◌≡◌, ◌+◌, ◌<◌, ◌≤◌, ℕ, length, IfOk, IsErrOf};
ghost use Rattle.list_texts.specs.ListTexts.{IsInquiryText, IsOnlyInquiryOf};
ghost use Rattle.list_texts.specs.ListTexts.{IsNoInquiryText, IsFirstWrongInquiryLine};
ghost use Rattle.list_texts.specs.Fronts.{AreQuestionsAt};

use crate::fault::ListFault;
use crate::lines::{atoms_at, question_at};
use crate::listing::rules_at;
use count_core::{CountRule, Lits};
use std::alloc::{AllocError, Global};

/// A problem's atoms and rules, and the literals of questions, as a text has them. Nothing is
/// promised of them.
#[derive(Drop)]
pub struct Inquiry {
    pub atoms: u32,
    pub rules: Vec<CountRule>,
    pub questions: Vec<Lits>,
}

impl Inquiry {
    /// What the text asks: a line of the number of atoms, then one for each rule, then one for each
    /// question, each ended by a line feed. No other inquiry has that text. Another text is refused
    /// by its first wrong line.
    pub fn read(alloc: Global, text: &[u8]) -> Result<Inquiry, ListFault>
        ensures ok { IfOk result (λ asked.
            IsInquiryText asked.atoms asked.rules.items asked.questions.items text.now) }
        ensures only { IfOk result (λ asked.
            IsOnlyInquiryOf text.now asked.atoms asked.rules.items asked.questions.items) }
        ensures none { (line : ℕ) → IsErrOf result (ListFault.Line line)
            → IsNoInquiryText text.now }
        ensures first { (line : ℕ) → IsErrOf result (ListFault.Line line)
            → IsFirstWrongInquiryLine text.now line }
    {
        let Some((atoms, left)) = atoms_at(text) else {
            return Err(ListFault::Line(1));
        };
        let Ok((rules, left)) = rules_at(alloc, left) else {
            return Err(ListFault::NoMemory);
        };
        let Ok((questions, left)) = questions_at(alloc, left) else {
            return Err(ListFault::NoMemory);
        };
        if !left.is_empty() {
            let line = rules.len() + questions.len() + 2;
            return Err(ListFault::Line(line as u64));
        }
        Ok(Inquiry {
            atoms,
            rules,
            questions,
        })
    }
}

/// The questions whose lines the text begins with, and what follows those.
fn questions_at(alloc: Global, text: &[u8]) -> Result<(Vec<Lits>, &[u8]), AllocError>
    ensures text { IfOk result (λ cut. AreQuestionsAt text.now cut.0.items cut.1.now) }
    ensures many { IfOk result (λ cut. length cut.0.items + length cut.1.now ≤ length text.now) }
{
    let mut questions = Vec::new(alloc);
    let mut left = text;
    while let Some((question, rest)) = question_at(alloc, left)? {
        questions.push(question)?;
        left = rest;
    }
    Ok((questions, left))
}
