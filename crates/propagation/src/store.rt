ghost use Rattle.std.specs.Prelude.{◌≡◌, ◌≤◌, ◌<◌, ◌^◌, ◌++◌, ◌∷◌, [], ℕ, length, true, false, IfOk, OnOk, OnErr, IfSome, IfNone, None};
ghost use Rattle.std.specs.Arc.{arc_value};
ghost use Rattle.count_core.specs.PartialAssignments.{is_true, value_at};
ghost use Rattle.count_core.specs.Problems.{IsWellFormed, are_within, repeats};
ghost use Rattle.propagation.specs.Constraints.{IsNamed, with_clause};
ghost use Rattle.propagation.specs.Occurrences.{AreListed, AreShort, counter, items_at};
ghost use Rattle.propagation.specs.Queues.{HaveNoClauses, HaveNoRules, affects};
ghost use Rattle.propagation.specs.Statuses.{HasStatus};
ghost use Rattle.propagation.specs.Stores.{HasRoom, HasCausedTrail, IsCausedIn, IsShaped, OnlyTrailDiffers, constraint_in, constraint_listed, constraints_in, entry_in, hint_in, listed_at, rules_number, values_in};
ghost use Rattle.propagation.specs.Trails.{Entry, IsCauseOf, IsFree, SetsAsMany, lits_of, with_entry};
ghost use Rattle.propagation.specs.Views.{rule_in};

use crate::clause::Clause;
use crate::constraint::{Constraint, find};
use crate::counters::{Counts, count_in, count_out, counts_of, under_sign};
use crate::listing::{empty_lists, enter, enter_rules, lengths_of, reserve_for};
use crate::occurrence_list::OccurrenceList;
use crate::status::{Status, status_of};
use crate::trail::Trail;
use count_core::{Atom, Hint, Lit, Lits, NoMemory, Problem, SharedProblem};
use std::alloc::{AllocError, Global};
use std::marker::Model;

/// The constraints, which are the problem's rules and the added clauses, and a trail. The true and
/// the false literals of each constraint are counted, and each atom's occurrences are listed, those
/// in rules before those in clauses. Contracts see a record.
#[derive(Drop)]
pub(crate) struct Store {
    problem: SharedProblem,
    clauses: Vec<Clause>,
    trail: Trail,
    trues: Vec<usize>,
    falses: Vec<usize>,
    lists: Vec<OccurrenceList>,
    splits: Vec<usize>,
}

impl Model for Store {
    ghost use Rattle.std.specs.Arc.{arc_value};
    ghost use Rattle.propagation.specs.Stores as spec;

    ghost Value = { spec.Store };

    ghost view = { λ s. record {
      problem = arc_value s.problem;
      clauses = s.clauses.items;
      entries = s.trail.entries;
      room = s.trail.room;
      lists = s.lists.items;
      splits = s.splits.items;
    } };

    ghost invariant = { λ s. spec.IsStore (arc_value s.problem) s.clauses.items s.trail.atoms
        s.trail.entries s.trues.items s.falses.items s.lists.items s.splits.items };
}

impl Store {
    /// The problem's rules, without clauses and with an empty trail.
    pub(crate) fn new(alloc: Global, problem: SharedProblem) -> Result<Store, NoMemory>
        ensures problem { IfOk result (λ s. s.problem ≡ arc_value problem) }
        ensures clauses { IfOk result (λ s. s.clauses ≡ []) }
        ensures entries { IfOk result (λ s. s.entries ≡ []) }
    {
        let number = problem.rules().len();
        let lists = lists_of(alloc, &problem)?;
        let splits = lengths_of(alloc, &lists)?;
        let trail = Trail::new(alloc, problem.atoms())?;
        let trues: Vec<usize> = vec![in alloc; 0; number]?;
        let falses: Vec<usize> = vec![in alloc; 0; number]?;
        Ok(Store {
            problem,
            clauses: Vec::new(alloc),
            trail,
            trues,
            falses,
            lists,
            splits,
        })
    }

    /// Makes room for one entry per atom.
    pub(crate) fn reserve(&mut self) -> Result<(), NoMemory>
        ensures ok { OnOk result (HasRoom self.new) }
        ensures entries { self.new.entries ≡ self.old.entries }
        ensures kept { OnlyTrailDiffers self.old self.new }
    {
        self.trail.reserve()
    }

    /// Adds a clause with the number of its step. Where memory is out, or a `u32` does not number one
    /// constraint more, nothing is added.
    pub(crate) fn add_clause(
        &mut self,
        alloc: Global,
        clause: &[Lit],
        step: u32,
    ) -> Result<(), NoMemory>
        requires within { are_within self.old.problem.atoms clause.now ≡ true }
        requires distinct { repeats clause.now ≡ false }
        ensures ok { OnOk result (self.new.clauses ≡ with_clause self.old.clauses clause.now step) }
        ensures err { OnErr result (self.new.clauses ≡ self.old.clauses) }
        ensures problem { self.new.problem ≡ self.old.problem }
        ensures entries { self.new.entries ≡ self.old.entries }
        ensures room { self.new.room ≡ self.old.room }
    {
        let Ok(number) = u32::try_from(self.trues.len()) else {
            return Err(AllocError);
        };
        let Counts { trues, falses } = counts_of(self.trail.values(), clause);
        let lits = Lits::from_slice(alloc, clause)?;
        self.clauses.reserve(1)?;
        self.trues.reserve(1)?;
        self.falses.reserve(1)?;
        reserve_for(&mut self.lists, clause)?;
        enter(&mut self.lists, clause, number);
        self.clauses.push(Clause { lits, step }).unwrap();
        self.trues.push(trues).unwrap();
        self.falses.push(falses).unwrap();
        Ok(())
    }

    /// The problem.
    pub(crate) fn problem(&self) -> &SharedProblem
        ensures { arc_value result.now ≡ self.now.problem }
    {
        &self.problem
    }

    /// The literals that are set, in order.
    pub(crate) fn lits(&self) -> &[Lit]
        ensures lits { result.now ≡ lits_of self.now.entries }
        ensures few { length self.now.entries ≤ self.now.problem.atoms }
        ensures caused { HasCausedTrail self.now }
    {
        self.trail.lits()
    }

    /// The number of literals that are set.
    pub(crate) fn len(&self) -> usize
        ensures len { result ≡ length self.now.entries }
        ensures few { length self.now.entries ≤ self.now.problem.atoms }
        ensures small { length self.now.entries < 2 ^ 32 }
        ensures caused { HasCausedTrail self.now }
    {
        self.trail.len()
    }

    /// The number of rules of the problem.
    pub(crate) fn rule_count(&self) -> usize
        ensures { result ≡ rules_number self.now }
    {
        self.problem.rules().len()
    }

    /// The number of constraints.
    pub(crate) fn constraint_count(&self) -> usize
        ensures { result ≡ length (constraints_in self.now) }
    {
        self.trues.len()
    }

    /// The values, by atom.
    pub(crate) fn values(&self) -> &[Option<bool>]
        ensures values { result.now ≡ values_in self.now }
        ensures number { SetsAsMany (values_in self.now) self.now.entries }
    {
        self.trail.values()
    }

    /// The atom's value, if it has one.
    pub(crate) fn value(&self, atom: Atom) -> Option<bool>
        requires { atom.0 < self.now.problem.atoms }
        ensures { result ≡ value_at (values_in self.now) atom.0 }
    {
        self.trail.value(atom)
    }

    /// The cause of a literal that is set, if it has one; none for any other literal.
    pub(crate) fn cause_of(&self, lit: Lit) -> Option<Hint>
        ensures on_trail { IsCauseOf self.now.entries lit result }
        ensures off_trail { is_true (values_in self.now) lit ≡ false → result ≡ None }
    {
        self.trail.cause_of(lit)
    }

    /// The literal of the entry at this place, from 0.
    pub(crate) fn lit_at(&self, place: usize) -> Lit
        requires { place < length self.now.entries }
        ensures lit { result ≡ (entry_in self.now place).lit }
        ensures within { result.atom.0 < self.now.problem.atoms }
    {
        self.trail.lits()[place]
    }

    /// The number of the atom's occurrences in rules of the problem, which come first.
    pub(crate) fn rule_occurrence_count(&self, atom: Atom) -> usize
        requires { atom.0 < self.now.problem.atoms }
        ensures number { result ≡ counter self.now.splits atom.0 }
        ensures within { result ≤ length (items_at self.now.lists atom.0) }
        ensures others { HaveNoRules self.now atom.0 }
    {
        self.splits[atom.0 as usize]
    }

    /// The number of all occurrences of the atom.
    pub(crate) fn occurrence_count(&self, atom: Atom) -> usize
        requires { atom.0 < self.now.problem.atoms }
        ensures number { result ≡ length (items_at self.now.lists atom.0) }
        ensures others { HaveNoClauses self.now atom.0 }
    {
        self.lists[atom.0 as usize].as_slice().len()
    }

    /// The number of the constraint at this place of the atom's occurrences.
    pub(crate) fn constraint_of_occurrence(&self, atom: Atom, place: usize) -> usize
        requires atom { atom.0 < self.now.problem.atoms }
        requires place { place < length (items_at self.now.lists atom.0) }
        ensures number { result ≡ listed_at self.now atom.0 place }
        ensures within { result < length (constraints_in self.now) }
    {
        self.lists[atom.0 as usize].as_slice()[place].constraint as usize
    }

    /// The number of the clause at this place of the occurrences of a set literal's atom, past those
    /// in rules. None where the literal is true in it, so that it need not be examined.
    pub(crate) fn affected_clause(&self, lit: Lit, place: usize) -> Option<usize>
        requires atom { lit.atom.0 < self.now.problem.atoms }
        requires clause { counter self.now.splits lit.atom.0 ≤ place }
        requires place { place < length (items_at self.now.lists lit.atom.0) }
        ensures number { IfSome result (λ n. n ≡ listed_at self.now lit.atom.0 place) }
        ensures within { IfSome result (λ n. n < length (constraints_in self.now)) }
        ensures clause { rules_number self.now ≤ listed_at self.now lit.atom.0 place }
        ensures none { IfNone result (affects lit (constraint_listed self.now lit place) ≡ false) }
    {
        let occurrence = self.lists[lit.atom.0 as usize].as_slice()[place];
        if under_sign(occurrence.positive, lit.positive) {
            return None;
        }
        Some(occurrence.constraint as usize)
    }

    /// Sets a literal whose atom is unset.
    pub(crate) fn set(&mut self, lit: Lit, cause: Option<Hint>)
        requires free { IsFree (values_in self.old) lit }
        requires caused { IsCausedIn self.old lit cause }
        requires room { HasRoom self.old }
        ensures entries { self.new.entries ≡ with_entry self.old.entries lit cause }
        ensures kept { OnlyTrailDiffers self.old self.new }
    {
        self.trail.set(lit, cause);
        count_in(
            &mut self.trues,
            &mut self.falses,
            self.lists[lit.atom.0 as usize].as_slice(),
            lit.positive,
        );
    }

    /// Takes the last entry away.
    pub(crate) fn pop(&mut self)
        requires { 0 < length self.old.entries }
        ensures last { (e : Entry) × (self.old.entries ≡ self.new.entries ++ e ∷ []) }
        ensures kept { OnlyTrailDiffers self.old self.new }
    {
        let lit = self.trail.pop();
        count_out(
            &mut self.trues,
            &mut self.falses,
            self.lists[lit.atom.0 as usize].as_slice(),
            lit.positive,
        );
    }

    /// The constraint with this number.
    pub(crate) fn constraint(&self, number: usize) -> Constraint<'_>
        requires { number < length (constraints_in self.now) }
        ensures rule { rule_in result ≡ constraint_in self.now number }
        ensures hint { result.hint ≡ hint_in self.now number }
        ensures named { IsNamed self.now.problem self.now.clauses result.hint (rule_in result) }
        ensures shaped { IsShaped self.now.problem.atoms (rule_in result) }
    {
        find(&self.problem, &self.clauses, number)
    }

    /// The status of the constraint with this number.
    pub(crate) fn status(&self, number: usize) -> Status
        requires { number < length (constraints_in self.now) }
        ensures { HasStatus (values_in self.now) (constraint_in self.now number) result }
    {
        let constraint = find(&self.problem, &self.clauses, number);
        status_of(
            constraint.lits.len(),
            constraint.lo,
            constraint.hi,
            self.trues[number],
            self.falses[number],
        )
    }
}

/// The lists of occurrences in the problem's rules, by atom.
fn lists_of(alloc: Global, problem: &Problem) -> Result<Vec<OccurrenceList>, NoMemory>
    ensures listed { IfOk result (λ v. AreListed problem.now.atoms problem.now.rules v.items) }
    ensures short { IfOk result (λ v. AreShort problem.now.rules) }
    ensures formed { IsWellFormed problem.now }
{
    let rules = problem.rules();
    let mut lists = empty_lists(alloc, problem.atoms() as usize)?;
    enter_rules(&mut lists, rules)?;
    Ok(lists)
}
