ghost use Rattle.std.specs.Prelude.{◌≡◌, ◌<◌, [], length, replicate, IfOk, None};
ghost use Rattle.std.specs.List.{AllByRecursion};
ghost use Rattle.count_core.specs.Assignments.{under_sign};
ghost use Rattle.count_core.specs.PartialAssignments.{is_free, assign};
ghost use Rattle.count_core.specs.Trails.{unassign_all};

use count_core::Lit;
use std::alloc::{AllocError, Global};
use std::marker::Model;

/// Truth values by atom, none where it is unset, and the trail of the atoms that were set, by which
/// they are unset again. Contracts see the values.
#[derive(Drop)]
pub(crate) struct Assignment {
    values: Vec<Option<bool>>,
    trail: Vec<u32>,
}

impl Model for Assignment {
    ghost use Rattle.std.specs.Prelude.{vec_capacity};
    ghost use Rattle.count_core.specs.PartialAssignments.{PartialAssignment};
    ghost use Rattle.count_core.specs.Trails.{IsTrail};

    ghost Value = { PartialAssignment };

    ghost view = { λ a. a.values.items };

    ghost invariant = { λ a. IsTrail a.values.items a.trail.items (vec_capacity a.trail) };
}

impl Assignment {
    /// The assignment of no atom; it takes no memory.
    pub(crate) fn empty(alloc: Global) -> Assignment
        ensures { result ≡ [] }
    {
        Assignment {
            values: Vec::new(alloc),
            trail: Vec::new(alloc),
        }
    }

    /// So many atoms, all unset, and room to note each on the trail.
    pub(crate) fn of_atoms(alloc: Global, atoms: usize) -> Result<Assignment, AllocError>
        ensures { IfOk result (λ a. a ≡ replicate atoms None) }
    {
        let values: Vec<Option<bool>> = vec![in alloc; None; atoms]?;
        let trail = Vec::with_capacity(alloc, atoms)?;
        Ok(Assignment { values, trail })
    }

    /// The values, by atom from 0.
    pub(crate) fn values(&self) -> &[Option<bool>]
        ensures { result.now ≡ self.now }
    {
        self.values.as_slice()
    }

    /// Makes the literal true or false, if it is free.
    pub(crate) fn assign(&mut self, lit: Lit, truth: bool)
        ensures { self.new ≡ assign truth lit self.old }
    {
        if is_free(&self.values, lit) {
            self.trail.push(lit.atom.0).unwrap();
            self.values[lit.atom.0 as usize] = Some(value_under(lit.positive, truth));
        }
    }

    /// Unsets all atoms again, in time by the number of those that are set.
    pub(crate) fn clear(&mut self)
        ensures { self.new ≡ replicate (length self.old) None }
    {
        unassign_all(&mut self.values, &self.trail);
        self.trail.clear();
    }
}

/// Whether the literal's atom is one of these and unset.
fn is_free(values: &[Option<bool>], lit: Lit) -> bool
    ensures { result ≡ is_free values.now lit }
{
    let place = lit.atom.0 as usize;
    place < values.len() && values[place].is_none()
}

/// The atom's value where a literal of this sign is to be true, or false.
fn value_under(positive: bool, truth: bool) -> bool
    ensures { result ≡ under_sign positive truth }
{
    if positive { truth } else { !truth }
}

/// Unsets the atoms of the trail, which are all in range.
fn unassign_all(values: &mut [Option<bool>], trail: &[u32])
    requires { AllByRecursion (λ a. a < length values.old) trail.now }
    ensures { values.new ≡ unassign_all trail.now values.old }
{
    for atom in trail {
        values[*atom as usize] = None;
    }
}
