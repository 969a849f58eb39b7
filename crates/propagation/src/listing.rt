ghost use Rattle.std.specs.Prelude.{◌≡◌, ◌<◌, ℕ, [], length, true, false, IfOk, OnOk};
ghost use Rattle.std.specs.List.{AllByRecursion};
ghost use Rattle.count_core.specs.Limits.{number_limit};
ghost use Rattle.count_core.specs.Problems.{IsWellFormedRule, are_within, repeats};
ghost use Rattle.propagation.specs.Occurrences.{AreEntered, AreLengths, AreListed, HaveRoomFor, HaveSameItems, IsEmptyAt, AreShort};

use crate::occurrence::Occurrence;
use crate::occurrence_list::OccurrenceList;
use count_core::{CountRule, Lit, NoMemory};
use std::alloc::Global;

/// A list without occurrences for each of so many atoms.
pub(crate) fn empty_lists(alloc: Global, atoms: usize) -> Result<Vec<OccurrenceList>, NoMemory>
    ensures atoms { IfOk result (λ v. length v.items ≡ atoms) }
    ensures empty { IfOk result (λ v. (a : ℕ) → IsEmptyAt v.items a) }
{
    let mut lists = Vec::with_capacity(alloc, atoms)?;
    for atom in 0..atoms {
        lists.push(OccurrenceList::empty(alloc))?;
    }
    Ok(lists)
}

/// The number of occurrences of each atom.
pub(crate) fn lengths_of(alloc: Global, lists: &[OccurrenceList]) -> Result<Vec<usize>, NoMemory>
    ensures { IfOk result (λ v. AreLengths v.items lists.now) }
{
    let mut lengths = Vec::with_capacity(alloc, lists.len())?;
    for atom in 0..lists.len() {
        lengths.push(lists[atom].as_slice().len())?;
    }
    Ok(lengths)
}

/// Makes room for one occurrence more at the atom of each literal.
pub(crate) fn reserve_for(lists: &mut [OccurrenceList], lits: &[Lit]) -> Result<(), NoMemory>
    requires { are_within (length lists.old) lits.now ≡ true }
    ensures items { HaveSameItems lists.old lists.new }
    ensures room { OnOk result (HaveRoomFor lists.new lits.now) }
{
    for lit in lits {
        lists[lit.atom.0 as usize].reserve_one()?;
    }
    Ok(())
}

/// Enters the literals of the constraint with this number, each at its atom.
pub(crate) fn enter(lists: &mut [OccurrenceList], lits: &[Lit], number: u32)
    requires within { are_within (length lists.old) lits.now ≡ true }
    requires distinct { repeats lits.now ≡ false }
    requires room { HaveRoomFor lists.old lits.now }
    ensures { AreEntered lists.old lists.new number lits.now }
{
    for lit in lits {
        lists[lit.atom.0 as usize].push(Occurrence {
            constraint: number,
            positive: lit.positive,
        });
    }
}

/// Enters the literals of all rules, numbered from 0.
pub(crate) fn enter_rules(lists: &mut [OccurrenceList], rules: &[CountRule]) -> Result<(), NoMemory>
    requires formed { AllByRecursion (IsWellFormedRule (length lists.old)) rules.now }
    requires few { length rules.now < number_limit }
    requires empty { (a : ℕ) → IsEmptyAt lists.old a }
    ensures listed { OnOk result (AreListed (length lists.old) rules.now lists.new) }
    ensures short { OnOk result (AreShort rules.now) }
{
    for (number, rule) in rules.iter().enumerate() {
        let lits = rule.lits.as_slice();
        reserve_for(lists, lits)?;
        enter(lists, lits, number as u32);
    }
    Ok(())
}
