ghost use Rattle.std.specs.Prelude.{◌≡◌, ◌<◌, ◌≤◌, length, MatchOption, IfSome, IfOk};
ghost use Rattle.list_texts.specs.Fronts.{AreLitsAt, AreHintsAt, IsSlashAt, NoSlashAt, AreAtomsAt, NoAtomsAt, AreBoundsAt, NoBoundsAt, IsRuleAt, NoRuleAt, IsStepAt, NoStepAt, IsQuestionAt, NoQuestionAt};

use crate::words::{after, hint_at, lit_at, spaced_number_at};
use count_core::{CountRule, Hint, Hints, Lit, Lits, Step};
use std::alloc::{AllocError, Global};

/// The number of atoms in the line `p ATOMS`, and what follows the line.
pub(crate) fn atoms_at(text: &[u8]) -> Option<(u32, &[u8])>
    ensures text { MatchOption result (NoAtomsAt text.now) (λ cut. AreAtomsAt text.now cut.0 cut.1.now) }
{
    let left = after(b'p', text)?;
    let (atoms, left) = spaced_number_at(left)?;
    let rest = after(b'\n', left)?;
    Some((atoms, rest))
}

/// The literals that the text begins with, each behind one space, and what follows them.
fn lits_at(alloc: Global, text: &[u8]) -> Result<(Vec<Lit>, &[u8]), AllocError>
    ensures text { IfOk result (λ cut. AreLitsAt text.now cut.0.items cut.1.now) }
    ensures no_longer { IfOk result (λ cut. length cut.1.now ≤ length text.now) }
{
    let mut lits = Vec::new(alloc);
    let mut left = text;
    while let Some((lit, rest)) = lit_at(left) {
        lits.push(lit)?;
        left = rest;
    }
    Ok((lits, left))
}

/// The hints that the text begins with, each behind one space, and what follows them.
fn hints_at(alloc: Global, text: &[u8]) -> Result<(Vec<Hint>, &[u8]), AllocError>
    ensures text { IfOk result (λ cut. AreHintsAt text.now cut.0.items cut.1.now) }
    ensures no_longer { IfOk result (λ cut. length cut.1.now ≤ length text.now) }
{
    let mut hints = Vec::new(alloc);
    let mut left = text;
    while let Some((hint, rest)) = hint_at(left) {
        hints.push(hint)?;
        left = rest;
    }
    Ok((hints, left))
}

/// `lo` and `hi`, with which a rule's line begins, and what follows them.
fn bounds_at(text: &[u8]) -> Option<(u32, u32, &[u8])>
    ensures text { MatchOption result (NoBoundsAt text.now) (λ cut. AreBoundsAt text.now (cut.0, cut.1) cut.2.now) }
    ensures shorter { IfSome result (λ cut. length cut.2.now < length text.now) }
{
    let left = after(b'r', text)?;
    let (lo, left) = spaced_number_at(left)?;
    let (hi, rest) = spaced_number_at(left)?;
    Some((lo, hi, rest))
}

/// The rule in the line `r LO HI LITS`, and what follows the line.
pub(crate) fn rule_at(alloc: Global, text: &[u8]) -> Result<Option<(CountRule, &[u8])>, AllocError>
    ensures text { IfOk result (λ found. MatchOption found (NoRuleAt text.now) (λ cut. IsRuleAt text.now cut.0 cut.1.now)) }
    ensures shorter { IfOk result (λ found. IfSome found (λ cut. length cut.1.now < length text.now)) }
{
    let Some((lo, hi, left)) = bounds_at(text) else {
        return Ok(None);
    };
    let (lits, left) = lits_at(alloc, left)?;
    let Some(rest) = after(b'\n', left) else {
        return Ok(None);
    };
    let lits = Lits::new(lits);
    Ok(Some((CountRule { lits, lo, hi }, rest)))
}

/// What follows the slash behind one space.
fn slash_at(text: &[u8]) -> Option<&[u8]>
    ensures text { MatchOption result (NoSlashAt text.now) (λ rest. IsSlashAt text.now rest.now) }
    ensures shorter { IfSome result (λ rest. length rest.now < length text.now) }
{
    let left = after(b' ', text)?;
    after(b'/', left)
}

/// The step in the line `s LITS / HINTS`, and what follows the line.
pub(crate) fn step_at(alloc: Global, text: &[u8]) -> Result<Option<(Step, &[u8])>, AllocError>
    ensures text { IfOk result (λ found. MatchOption found (NoStepAt text.now) (λ cut. IsStepAt text.now cut.0 cut.1.now)) }
    ensures shorter { IfOk result (λ found. IfSome found (λ cut. length cut.1.now < length text.now)) }
{
    let Some(left) = after(b's', text) else {
        return Ok(None);
    };
    let (clause, left) = lits_at(alloc, left)?;
    let Some(left) = slash_at(left) else {
        return Ok(None);
    };
    let (hints, left) = hints_at(alloc, left)?;
    let Some(rest) = after(b'\n', left) else {
        return Ok(None);
    };
    let clause = Lits::new(clause);
    let hints = Hints::new(hints);
    Ok(Some((Step { clause, hints }, rest)))
}

/// The question in the line `q LITS`, and what follows the line.
pub(crate) fn question_at(alloc: Global, text: &[u8]) -> Result<Option<(Lits, &[u8])>, AllocError>
    ensures text { IfOk result (λ found. MatchOption found (NoQuestionAt text.now)
        (λ cut. IsQuestionAt text.now cut.0 cut.1.now)) }
    ensures shorter { IfOk result (λ found. IfSome found
        (λ cut. length cut.1.now < length text.now)) }
{
    let Some(left) = after(b'q', text) else {
        return Ok(None);
    };
    let (lits, left) = lits_at(alloc, left)?;
    let Some(rest) = after(b'\n', left) else {
        return Ok(None);
    };
    Ok(Some((Lits::new(lits), rest)))
}
