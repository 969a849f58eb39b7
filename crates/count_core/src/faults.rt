ghost use Rattle.std.specs.Prelude.{◌≡◌, ◌+◌, ◌<◌, ◌≤◌, ℕ, length, true, slice_index, IfOk};
ghost use Rattle.count_core.specs.Limits.{number_limit};
ghost use Rattle.count_core.specs.Problems.{repeats, are_within, fault_of, first_fault};

use crate::count_rule::CountRule;
use crate::lit::Lit;
use std::alloc::{AllocError, Global};

/// Why rules make no problem; `rule` counts from 0. The numbers are this project's own.
#[derive(Clone, Copy, Debug, PartialEq, Eq)]
pub enum CoreFault {
    /// 1: a literal of the rule is over an atom that the problem does not have.
    AtomRange { rule: u32 },
    /// 2: two literals of the rule are over one atom.
    RepeatedAtom { rule: u32 },
    /// 3: the rule's `lo` is above its `hi`.
    BadBounds { rule: u32 },
    /// 4: out of memory.
    NoMemory,
}

/// The first fault of the first rule that has one. It takes memory for one mark per atom, so that
/// the time is in proportion to the atoms and literals.
pub(crate) fn first_fault(
    alloc: Global,
    atoms: u32,
    rules: &[CountRule],
) -> Result<Option<CoreFault>, AllocError>
    requires few { length rules.now < number_limit }
    ensures { IfOk result (λ f. f ≡ first_fault atoms 0 rules.now) }
{
    let mut marks: Vec<u32> = vec![in alloc; 0; atoms as usize]?;
    Ok(fault_among(&mut marks, rules))
}

/// The first fault of the rules. A mark is one more than the number of the last rule that has its
/// atom, or 0.
fn fault_among(marks: &mut [u32], rules: &[CountRule]) -> Option<CoreFault>
    requires few { length rules.now < number_limit }
    requires clear { (k : ℕ) → slice_index marks.old k ≤ 0 }
    ensures { result ≡ first_fault (length marks.old) 0 rules.now }
{
    for (place, rule) in rules.iter().enumerate() {
        let fault = fault_of(marks, place as u32, rule);
        if fault.is_some() {
            return fault;
        }
    }
    None
}

/// The first fault of the rule at a place, where no mark is past the place.
fn fault_of(marks: &mut [u32], place: u32, rule: &CountRule) -> Option<CoreFault>
    requires few { place + 1 < number_limit }
    requires older { (k : ℕ) → slice_index marks.old k ≤ place }
    ensures fault { result ≡ fault_of (length marks.old) place rule.now }
    ensures marks { (k : ℕ) → slice_index marks.new k ≤ place + 1 }
{
    let lits = rule.lits.as_slice();
    if !are_within(marks.len(), lits) {
        return Some(CoreFault::AtomRange { rule: place });
    }
    if repeats(marks, place + 1, lits) {
        return Some(CoreFault::RepeatedAtom { rule: place });
    }
    if rule.hi < rule.lo {
        return Some(CoreFault::BadBounds { rule: place });
    }
    None
}

/// Whether each literal is over an atom below the number.
fn are_within(atoms: usize, lits: &[Lit]) -> bool
    ensures { result ≡ are_within atoms lits.now }
{
    lits.iter().all(|lit| (lit.atom.0 as usize) < atoms)
}

/// Whether two literals are over one atom. Leaves the mark at each atom that it met.
fn repeats(marks: &mut [u32], mark: u32, lits: &[Lit]) -> bool
    requires within { are_within (length marks.old) lits.now ≡ true }
    requires older { (k : ℕ) → slice_index marks.old k < mark }
    ensures answer { result ≡ repeats lits.now }
    ensures marks { (k : ℕ) → slice_index marks.new k ≤ mark }
{
    for lit in lits {
        let place = lit.atom.0 as usize;
        if marks[place] == mark {
            return true;
        }
        marks[place] = mark;
    }
    false
}
