//! Which questions may be asked of a problem.

ghost use Rattle.std.specs.Prelude.{◌≡◌, MatchOption};
ghost use Rattle.count_core.specs.Problems.{are_within};
ghost use Rattle.solve.specs.Questions.{IsAskable, AreAskable, HasFault, IsFirstFaulty};

use count_core::{Lit, Lits, are_distinct};

/// Why a question may not be asked.
#[derive(Clone, Copy, Debug, PartialEq, Eq)]
pub(crate) enum QuestionFault {
    /// A literal is over no atom of the problem.
    AtomRange,
    /// Two literals are over one atom.
    RepeatedAtom,
}

/// The first question, by its place from 0, that may not be asked of a problem with so many atoms,
/// and its first fault.
pub(crate) fn first_faulty(atoms: u32, questions: &[Lits]) -> Option<(usize, QuestionFault)>
    ensures { MatchOption result (AreAskable atoms questions.now)
        (λ found. IsFirstFaulty atoms questions.now found.0 found.1) }
{
    for (place, question) in questions.iter().enumerate() {
        if let Some(fault) = fault_of(atoms, question.as_slice()) {
            return Some((place, fault));
        }
    }
    None
}

/// The first fault of a question about so many atoms.
fn fault_of(atoms: u32, lits: &[Lit]) -> Option<QuestionFault>
    ensures { MatchOption result (IsAskable atoms lits.now) (λ fault. HasFault atoms lits.now fault) }
{
    if !are_within(atoms, lits) {
        return Some(QuestionFault::AtomRange);
    }
    if !are_distinct(lits) {
        return Some(QuestionFault::RepeatedAtom);
    }
    None
}

/// Whether each literal is over one of so many atoms.
fn are_within(atoms: u32, lits: &[Lit]) -> bool
    ensures { result ≡ are_within atoms lits.now }
{
    lits.iter().all(|lit| lit.atom.0 < atoms)
}
