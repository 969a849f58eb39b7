ghost use Rattle.std.specs.Prelude.{◌≡◌, ◌≤◌, ◌<◌, [], length, take, true, false, IfOk, OnOk, OnErr, None};
ghost use Rattle.std.specs.Arc.{arc_value};
ghost use Rattle.count_core.specs.Assignments.{Follows};
ghost use Rattle.count_core.specs.PartialAssignments.{is_true, is_unset};
ghost use Rattle.count_core.specs.Steps.{is_clause};
ghost use Rattle.count_core.specs.declared.hint.Hint.{Hint as Cause};
ghost use Rattle.propagation.specs.Constraints.{with_clause};
ghost use Rattle.propagation.specs.Engines.{AddsForced, AllQuiet, HasRoom, IsConflict, IsPropagated, IsSound, OnlyTrailDiffers, values_in};
ghost use Rattle.propagation.specs.Trails.{IsCauseOf, SetsAsMany, lits_of, with_entry};

use crate::found::Found;
use crate::mark::Mark;
use crate::progress::Progress;
use crate::queue::{last_quiet, run, unwind};
use crate::store::Store;
use count_core::{Hint, Lit, NoMemory, SharedProblem};
use std::alloc::Global;
use std::marker::Model;

/// An engine over a problem: it sets what follows from the literals that were assumed. Contracts
/// see a record of the problem, the clauses that were added, the entries of the trail, and for how
/// many entries there is room.
///
/// `quiet_at` has, for each length of the trail, how many of the first constraints are known to be
/// quiet there, or 0.
#[derive(Drop)]
pub struct Engine {
    store: Store,
    progress: Progress,
    quiet_at: Vec<usize>,
}

impl Model for Engine {
    ghost use Rattle.propagation.specs.Engines as spec;
    ghost use Rattle.propagation.specs.Queues.{IsEngine};

    ghost Value = { spec.Engine };

    ghost view = { λ e. record {
      problem = e.store.problem;
      clauses = e.store.clauses;
      entries = e.store.entries;
      room = e.store.room;
    } };

    ghost invariant = { λ e. IsEngine e.store e.progress e.quiet_at.items };
}

impl Engine {
    /// An engine of the problem, with no clause added and nothing set.
    pub fn new(alloc: Global, problem: SharedProblem) -> Result<Engine, NoMemory>
        ensures problem { IfOk result (λ e. e.problem ≡ arc_value problem) }
        ensures clauses { IfOk result (λ e. e.clauses ≡ []) }
        ensures entries { IfOk result (λ e. e.entries ≡ []) }
    {
        let atoms = problem.atoms() as usize;
        let store = Store::new(alloc, problem)?;
        let quiet_at: Vec<usize> = vec![in alloc; 0; atoms + 1]?;
        Ok(Engine {
            store,
            progress: Progress {
                rules: 0,
                clauses: 0,
                examined: 0,
            },
            quiet_at,
        })
    }

    /// Makes room for one entry per atom. The engine keeps the allocator that it was made with.
    pub fn reserve(&mut self, _alloc: Global) -> Result<(), NoMemory>
        ensures room { OnOk result (HasRoom self.new) }
        ensures entries { self.new.entries ≡ self.old.entries }
        ensures kept { OnlyTrailDiffers self.old self.new }
    {
        self.store.reserve()
    }

    /// Sets the literal, at the end of the trail, and answers true; where its atom is set already,
    /// changes nothing and answers false. The atom is one of the problem.
    pub fn assume(&mut self, lit: Lit) -> bool
        requires room { HasRoom self.old }
        requires within { lit.atom.0 < self.old.problem.atoms }
        ensures answer { result ≡ is_unset (values_in self.old) lit }
        ensures taken { result ≡ true → self.new.entries ≡ with_entry self.old.entries lit None }
        ensures refused { result ≡ false → self.new.entries ≡ self.old.entries }
        ensures kept { OnlyTrailDiffers self.old self.new }
    {
        if self.store.value(lit.atom).is_some() {
            return false;
        }
        self.store.set(lit, None);
        let _length = self.store.len();
        true
    }

    /// Sets what follows, until no rule and no clause conflicts or forces, or one conflicts. What
    /// forces sets all its unset literals, one after the other, before anything else is looked at.
    pub fn propagate(&mut self) -> Found
        requires { HasRoom self.old }
        ensures quiet { result ≡ Found.Quiet → AllQuiet self.new }
        ensures conflict { (h : Cause) → result ≡ Found.Conflict h → IsConflict self.new h }
        ensures propagated { IsPropagated self.old self.new }
        ensures forced { AddsForced self.old.entries self.new.entries }
        ensures sound { IsSound self.new }
        ensures kept { OnlyTrailDiffers self.old self.new }
    {
        let found = run(&mut self.store, &mut self.progress);
        let length = self.store.len();
        match found {
            Some(cause) => Found::Conflict { cause },
            None => {
                self.quiet_at[length] = self.progress.examined;
                Found::Quiet
            }
        }
    }

    /// The problem.
    pub fn problem(&self) -> &SharedProblem
        ensures { arc_value result.now ≡ self.now.problem }
    {
        self.store.problem()
    }

    /// The literals that are set, in the order in which they were set.
    pub fn trail(&self) -> &[Lit]
        ensures lits { result.now ≡ lits_of self.now.entries }
        ensures few { length self.now.entries ≤ self.now.problem.atoms }
        ensures sound { IsSound self.now }
    {
        self.store.lits()
    }

    /// The values by atom, from 0, with none where an atom is unset. As many are set as the trail
    /// has literals.
    pub fn values(&self) -> &[Option<bool>]
        ensures values { result.now ≡ values_in self.now }
        ensures number { SetsAsMany (values_in self.now) self.now.entries }
    {
        self.store.values()
    }

    /// The present length of the trail.
    pub fn mark(&self) -> Mark
        ensures { result.0 ≡ length self.now.entries }
    {
        Mark(self.store.len() as u32)
    }

    /// Keeps the trail's first entries up to the mark, which is not past its end.
    pub fn back_to(&mut self, mark: Mark)
        requires { mark.0 ≤ length self.old.entries }
        ensures entries { self.new.entries ≡ take mark.0 self.old.entries }
        ensures kept { OnlyTrailDiffers self.old self.new }
    {
        let left = mark.0 as usize;
        unwind(&mut self.store, &mut self.quiet_at, left);
        let place = last_quiet(&self.quiet_at, left);
        self.progress = Progress {
            rules: place,
            clauses: place,
            examined: self.quiet_at[place],
        };
    }

    /// The cause of a literal that is set true and was not assumed; none for any other literal.
    pub fn cause_of(&self, lit: Lit) -> Option<Hint>
        ensures on_trail { IsCauseOf self.now.entries lit result }
        ensures off_trail { is_true (values_in self.now) lit ≡ false → result ≡ None }
    {
        self.store.cause_of(lit)
    }

    /// Adds a clause with the number of its step, by which causes name it. It follows from the
    /// problem, and its literals are over different atoms of it. Where memory is out, or a `u32` does
    /// not number one constraint more, nothing is added.
    pub fn add_clause(&mut self, alloc: Global, clause: &[Lit], step: u32) -> Result<(), NoMemory>
        requires clause { is_clause self.old.problem clause.now ≡ true }
        requires follows { Follows self.old.problem clause.now }
        ensures ok { OnOk result (self.new.clauses ≡ with_clause self.old.clauses clause.now step) }
        ensures err { OnErr result (self.new.clauses ≡ self.old.clauses) }
        ensures problem { self.new.problem ≡ self.old.problem }
        ensures entries { self.new.entries ≡ self.old.entries }
        ensures room { self.new.room ≡ self.old.room }
    {
        self.store.add_clause(alloc, clause, step)?;
        Ok(())
    }
}
