ghost use Rattle.std.specs.Prelude.{◌≡◌, ◌≤◌, ◌<◌, ◌^◌, ◌++◌, ◌∷◌, [], false, length, IfOk, OnOk, None};
ghost use Rattle.count_core.specs.PartialAssignments.{is_true, value_at};
ghost use Rattle.propagation.specs.Trails.{Entry, IsCauseOf, IsFree, SetsAsMany, lits_of, values_in, with_entry};

use crate::counters::is_true;
use count_core::{Atom, Hint, Lit, NoMemory};
use std::alloc::Global;
use std::marker::Model;

/// The literals that are set, in order, each with its cause, and the values by atom. Contracts see
/// a record of the number of atoms, the entries, and for how many entries there is room.
#[derive(Drop)]
pub(crate) struct Trail {
    values: Vec<Option<bool>>,
    causes: Vec<Option<Hint>>,
    lits: Vec<Lit>,
    atoms: u32,
}

impl Model for Trail {
    ghost use Rattle.std.specs.Prelude.{map, vec_capacity};
    ghost use Rattle.propagation.specs.Trails as spec;

    ghost Value = { spec.Trail };

    ghost view = { λ t. record {
      atoms = t.atoms;
      entries = map (spec.entry_with t.causes.items) t.lits.items;
      room = vec_capacity t.lits;
    } };

    ghost invariant = { λ t. spec.IsTrail t.values.items t.causes.items t.lits.items t.atoms };
}

impl Trail {
    /// A trail over so many atoms, without entries.
    pub(crate) fn new(alloc: Global, atoms: u32) -> Result<Trail, NoMemory>
        ensures atoms { IfOk result (λ t. t.atoms ≡ atoms) }
        ensures entries { IfOk result (λ t. t.entries ≡ []) }
    {
        Ok(Trail {
            values: vec![in alloc; None; atoms as usize]?,
            causes: vec![in alloc; None; atoms as usize]?,
            lits: Vec::new(alloc),
            atoms,
        })
    }

    /// Makes room for one entry per atom.
    pub(crate) fn reserve(&mut self) -> Result<(), NoMemory>
        ensures ok { OnOk result (self.old.atoms ≤ self.new.room) }
        ensures atoms { self.new.atoms ≡ self.old.atoms }
        ensures entries { self.new.entries ≡ self.old.entries }
        ensures room { self.old.room ≤ self.new.room }
    {
        let more = (self.atoms as usize).saturating_sub(self.lits.len());
        self.lits.reserve(more)
    }

    /// The literals that are set, in order.
    pub(crate) fn lits(&self) -> &[Lit]
        ensures lits { result.now ≡ lits_of self.now.entries }
        ensures few { length self.now.entries ≤ self.now.atoms }
    {
        self.lits.as_slice()
    }

    /// The number of literals that are set.
    pub(crate) fn len(&self) -> usize
        ensures len { result ≡ length self.now.entries }
        ensures few { length self.now.entries ≤ self.now.atoms }
        ensures small { length self.now.entries < 2 ^ 32 }
    {
        self.lits.len()
    }

    /// The values, by atom.
    pub(crate) fn values(&self) -> &[Option<bool>]
        ensures values { result.now ≡ values_in self.now }
        ensures number { SetsAsMany (values_in self.now) self.now.entries }
    {
        self.values.as_slice()
    }

    /// The atom's value, if it has one.
    pub(crate) fn value(&self, atom: Atom) -> Option<bool>
        requires { atom.0 < self.now.atoms }
        ensures { result ≡ value_at (values_in self.now) atom.0 }
    {
        self.values[atom.0 as usize]
    }

    /// The cause of a literal that is set, if it has one; none for any other literal.
    pub(crate) fn cause_of(&self, lit: Lit) -> Option<Hint>
        ensures on_trail { IsCauseOf self.now.entries lit result }
        ensures off_trail { is_true (values_in self.now) lit ≡ false → result ≡ None }
    {
        if !is_true(&self.values, lit) {
            return None;
        }
        self.causes[lit.atom.0 as usize]
    }

    /// Sets a literal whose atom is unset, where there is room for each atom.
    pub(crate) fn set(&mut self, lit: Lit, cause: Option<Hint>)
        requires free { IsFree (values_in self.old) lit }
        requires room { self.old.atoms ≤ self.old.room }
        ensures entries { self.new.entries ≡ with_entry self.old.entries lit cause }
        ensures atoms { self.new.atoms ≡ self.old.atoms }
        ensures room { self.old.room ≤ self.new.room }
    {
        let place = lit.atom.0 as usize;
        self.values[place] = Some(lit.positive);
        self.causes[place] = cause;
        self.lits.push(lit).unwrap();
    }

    /// Takes the last entry away and answers its literal.
    pub(crate) fn pop(&mut self) -> Lit
        requires { 0 < length self.old.entries }
        ensures last { (e : Entry) × (self.old.entries ≡ self.new.entries ++ e ∷ [])
            × (e.lit ≡ result) }
        ensures atoms { self.new.atoms ≡ self.old.atoms }
        ensures room { self.old.room ≤ self.new.room }
    {
        let lit = self.lits.pop().unwrap();
        self.values[lit.atom.0 as usize] = None;
        lit
    }
}
