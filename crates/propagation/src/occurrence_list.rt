ghost use Rattle.std.specs.Prelude.{◌≡◌, ◌≤◌, ◌<◌, ◌++◌, ◌∷◌, [], length, OnOk};

use crate::occurrence::Occurrence;
use count_core::NoMemory;
use std::alloc::Global;
use std::marker::Model;

/// The occurrences of one atom. Contracts see a record of the list and of how many it has room for.
#[derive(Drop)]
pub(crate) struct OccurrenceList {
    entries: Vec<Occurrence>,
}

impl Model for OccurrenceList {
    ghost use Rattle.std.specs.Prelude.{vec_capacity};
    ghost use Rattle.propagation.specs.Occurrences as spec;

    ghost Value = { spec.OccurrenceList };

    ghost view = { λ o. record { items = o.entries.items; room = vec_capacity o.entries } };
}

impl OccurrenceList {
    /// A list without occurrences.
    pub(crate) fn empty(alloc: Global) -> OccurrenceList
        ensures { result.items ≡ [] }
    {
        OccurrenceList {
            entries: Vec::new(alloc),
        }
    }

    /// The occurrences, in the order of their constraints' numbers.
    pub(crate) fn as_slice(&self) -> &[Occurrence]
        ensures { result.now ≡ self.now.items }
    {
        self.entries.as_slice()
    }

    /// Makes room for one occurrence more.
    pub(crate) fn reserve_one(&mut self) -> Result<(), NoMemory>
        ensures ok { OnOk result (length self.new.items < self.new.room) }
        ensures items { self.new.items ≡ self.old.items }
        ensures room { self.old.room ≤ self.new.room }
    {
        self.entries.reserve(1)
    }

    /// Adds an occurrence at the end, where there is room for it.
    pub(crate) fn push(&mut self, occurrence: Occurrence)
        requires { length self.old.items < self.old.room }
        ensures items { self.new.items ≡ self.old.items ++ occurrence ∷ [] }
        ensures room { self.old.room ≤ self.new.room }
    {
        self.entries.push(occurrence).unwrap();
    }
}
