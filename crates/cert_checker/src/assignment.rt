ghost use Rattle.std.specs.Prelude.{◌≡◌, true, false, length, replicate, slice_set, None, IfOk};
ghost use Rattle.count_core.specs.PartialAssignments.{is_free, assign, assign_all};
ghost use Rattle.count_core.specs.Assignments.{under_sign};
ghost use Rattle.count_core.specs.Trails.{unassign_all};
ghost use Rattle.count_core.specs.Problems.{are_distinct_within};

use count_core::Lit;
use std::alloc::{AllocError, Global};
use std::marker::Model;

/// The partial assignment of one step: truth values by atom, none where it is unset. Contracts see
/// just these.
///
/// It keeps a trail of the atoms that were set, which has room for all from the start, so that
/// assigning takes no memory and `clear` costs what was set.
#[derive(Drop)]
pub(crate) struct Assignment {
    values: Vec<Option<bool>>,
    trail: Vec<u32>,
}

impl Model for Assignment {
    ghost use Rattle.std.specs.Prelude.{vec_capacity};
    ghost use Rattle.count_core.specs.PartialAssignments.{PartialAssignment};
    ghost use Rattle.count_core.specs.Trails.{IsTrail};

    ghost Value = { PartialAssignment };

    ghost view = { λ a. a.values.items };

    ghost invariant = { λ a. IsTrail a.values.items a.trail.items (vec_capacity a.trail) };
}

impl Assignment {
    /// So many atoms, all unset.
    pub(crate) fn new(alloc: Global, atoms: u32) -> Result<Assignment, AllocError>
        ensures { IfOk result (λ a. a ≡ replicate atoms None) }
    {
        let values = vec![in alloc; None; atoms as usize]?;
        let trail = Vec::with_capacity(alloc, atoms as usize)?;
        Ok(Assignment { values, trail })
    }

    /// The values by atom.
    pub(crate) fn values(&self) -> &[Option<bool>]
        ensures { result.now ≡ self.now }
    {
        self.values.as_slice()
    }

    /// Makes the literal true or false, if its atom is in range and unset, and answers whether it
    /// was.
    pub(crate) fn assign(&mut self, lit: Lit, truth: bool) -> bool
        ensures values { self.new ≡ assign truth lit self.old }
        ensures free { result ≡ is_free self.old lit }
    {
        if !is_free(self.values.as_slice(), lit) {
            return false;
        }
        self.values[lit.atom.0 as usize] = Some(atom_value(lit.positive, truth));
        self.trail.push_reserved(lit.atom.0);
        true
    }

    /// Makes each of the literals true or false, where it is unset.
    pub(crate) fn assign_all(&mut self, lits: &[Lit], truth: bool)
        ensures { self.new ≡ assign_all truth lits.now self.old }
    {
        for lit in lits {
            self.assign(*lit, truth);
        }
    }

    /// Assumes the negation of the clause: makes each of its literals false. Answers whether they
    /// are over different atoms in range; where they are not, it stops at the first that shows it.
    pub(crate) fn assume_negation(&mut self, clause: &[Lit]) -> bool
        requires { self.old ≡ replicate (length self.old) None }
        ensures distinct { result ≡ are_distinct_within (length self.old) clause.now }
        ensures assumed { result ≡ true → self.new ≡ assign_all false clause.now self.old }
        ensures len { length self.new ≡ length self.old }
    {
        for lit in clause {
            if !self.assign(*lit, false) {
                return false;
            }
        }
        true
    }

    /// Unsets all atoms again, in the time of those that are set.
    pub(crate) fn clear(&mut self)
        ensures { self.new ≡ replicate (length self.old) None }
    {
        unassign_all(&mut self.values, self.trail.as_slice());
        self.trail.clear();
    }
}

/// Whether the literal's atom is in range and unset.
fn is_free(values: &[Option<bool>], lit: Lit) -> bool
    ensures { result ≡ is_free values.now lit }
{
    let place = lit.atom.0 as usize;
    place < values.len() && values[place].is_none()
}

/// The value of the atom where a literal of this sign has this truth.
fn atom_value(positive: bool, truth: bool) -> bool
    ensures { result ≡ under_sign positive truth }
{
    if positive { truth } else { !truth }
}

/// Unsets the atoms of the list.
fn unassign_all(values: &mut [Option<bool>], atoms: &[u32])
    ensures { values.new ≡ unassign_all atoms.now values.old }
{
    for atom in atoms {
        unassign(values, *atom as usize);
    }
}

/// Unsets the atom, if it is in range.
fn unassign(values: &mut [Option<bool>], atom: usize)
    ensures { values.new ≡ slice_set values.old atom None }
{
    if atom < values.len() {
        values[atom] = None;
    }
}
