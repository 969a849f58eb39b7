ghost use Rattle.std.specs.Prelude.{◌≡◌, ◌+◌, ◌<◌, ◌≤◌, ℕ, length, IfOk, IsErrOf};
ghost use Rattle.list_texts.specs.ListTexts.{IsListText, IsOnlyListOf, IsNoListText, IsFirstWrongLine};
ghost use Rattle.list_texts.specs.Fronts.{AreRulesAt, AreStepsAt};

use crate::fault::ListFault;
use crate::lines::{atoms_at, rule_at, step_at};
use count_core::{CountRule, Step};
use std::alloc::{AllocError, Global};

/// A problem's atoms and rules, and steps, as a text lists them. Nothing is promised of them.
#[derive(Drop)]
pub struct Listing {
    pub atoms: u32,
    pub rules: Vec<CountRule>,
    pub steps: Vec<Step>,
}

impl Listing {
    /// What the text lists: a line of the number of atoms, then one for each rule, then one for
    /// each step, each ended by a line feed. No other list has that text. Another text is refused
    /// by its first wrong line.
    pub fn read(alloc: Global, text: &[u8]) -> Result<Listing, ListFault>
        ensures ok { IfOk result (λ list. IsListText list.atoms list.rules.items list.steps.items text.now) }
        ensures only { IfOk result (λ list. IsOnlyListOf text.now list.atoms list.rules.items list.steps.items) }
        ensures none { (line : ℕ) → IsErrOf result (ListFault.Line line) → IsNoListText text.now }
        ensures first { (line : ℕ) → IsErrOf result (ListFault.Line line) → IsFirstWrongLine text.now line }
    {
        let Some((atoms, left)) = atoms_at(text) else {
            return Err(ListFault::Line(1));
        };
        let Ok((rules, left)) = rules_at(alloc, left) else {
            return Err(ListFault::NoMemory);
        };
        let Ok((steps, left)) = steps_at(alloc, left) else {
            return Err(ListFault::NoMemory);
        };
        if !left.is_empty() {
            let line = rules.len() + steps.len() + 2;
            return Err(ListFault::Line(line as u64));
        }
        Ok(Listing {
            atoms,
            rules,
            steps,
        })
    }
}

/// The rules whose lines the text begins with, and what follows those.
pub(crate) fn rules_at(alloc: Global, text: &[u8]) -> Result<(Vec<CountRule>, &[u8]), AllocError>
    ensures text { IfOk result (λ cut. AreRulesAt text.now cut.0.items cut.1.now) }
    ensures many { IfOk result (λ cut. length cut.0.items + length cut.1.now ≤ length text.now) }
{
    let mut rules = Vec::new(alloc);
    let mut left = text;
    while let Some((rule, rest)) = rule_at(alloc, left)? {
        rules.push(rule)?;
        left = rest;
    }
    Ok((rules, left))
}

/// The steps whose lines the text begins with, and what follows those.
fn steps_at(alloc: Global, text: &[u8]) -> Result<(Vec<Step>, &[u8]), AllocError>
    ensures text { IfOk result (λ cut. AreStepsAt text.now cut.0.items cut.1.now) }
    ensures many { IfOk result (λ cut. length cut.0.items + length cut.1.now ≤ length text.now) }
{
    let mut steps = Vec::new(alloc);
    let mut left = text;
    while let Some((step, rest)) = step_at(alloc, left)? {
        steps.push(step)?;
        left = rest;
    }
    Ok((steps, left))
}
