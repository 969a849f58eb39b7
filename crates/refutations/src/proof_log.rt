ghost use Rattle.std.specs.Prelude.{◌≡◌, ◌+◌, ◌<◌, ◌⊎◌, [], ℕ, true, length, take, replicate, option_map, None, IsSome, IfSome, IfNone, IfOk, IfErr, OnOk, OnErr, IsErrOf};
ghost use Rattle.std.specs.Arc.{arc_value};
ghost use Rattle.count_core.specs.Limits.{number_limit};
ghost use Rattle.count_core.specs.Problems.{IsWellFormed};
ghost use Rattle.count_core.specs.Steps.{step_of, is_clause, AreAccepted, NegatesOnly, failing_hint as hint_that_fails};
ghost use Rattle.refutations.specs.Derivations as spec;
ghost use Rattle.refutations.specs.JoinedClauses.{joined_clause as clause_joined};
ghost use Rattle.refutations.specs.Joins as joins;
ghost use Rattle.refutations.specs.Leading as leads;
ghost use Rattle.refutations.specs.Shifts.{ArePutBehind};
ghost use Rattle.refutations.specs.Cones.{IsCone};

use crate::assignment::Assignment;
use crate::closed::Closed;
use crate::cone::cone_of;
use crate::hint_check::failing_hint;
use crate::join::joined_clause;
use crate::leading::leading_hints;
use crate::lemma::Lemma;
use crate::log_fault::LogFault;
use crate::shift::shifted_steps;
use count_core::{
    Hint, Hints, Lit, Lits, NUMBER_LIMIT, NoMemory, Problem, Question, SharedProblem, Step, Steps,
};
use std::alloc::{AllocError, Global};
use std::marker::Model;
use std::sync::Arc;

/// A list of steps over a problem, numbered from 0, which is accepted by its type: each step is
/// accepted after those before it. It has fewer than `NUMBER_LIMIT` steps. Contracts see a record
/// of `problem`, its value, and `steps`.
#[derive(Drop)]
pub struct ProofLog {
    problem: SharedProblem,
    steps: Vec<Step>,
    assignment: Assignment,
}

impl Model for ProofLog {
    ghost use Rattle.std.specs.Arc.{arc_value};
    ghost use Rattle.refutations.specs.Derivations as spec;
    ghost use Rattle.refutations.specs.Logs.{IsLog};

    ghost Value = { spec.Derivation };

    ghost view = { λ l. record { problem = arc_value l.problem; steps = l.steps.items } };

    ghost invariant = { λ l. IsLog (arc_value l.problem) l.steps.items l.assignment };
}

impl ProofLog {
    /// A log without steps.
    pub fn new(alloc: Global, problem: SharedProblem) -> ProofLog
        ensures { result ≡ record { problem = arc_value problem; steps = [] } }
    {
        ProofLog {
            problem,
            steps: Vec::new(alloc),
            assignment: Assignment::empty(alloc),
        }
    }

    /// The problem.
    pub fn problem(&self) -> &SharedProblem
        ensures { arc_value result.now ≡ self.now.problem }
    {
        &self.problem
    }

    /// The steps, by their numbers from 0.
    pub fn steps(&self) -> &[Step]
        ensures steps { result.now ≡ self.now.steps }
        ensures accepted { AreAccepted self.now.problem self.now.steps }
        ensures few { length self.now.steps < number_limit }
    {
        self.steps.as_slice()
    }

    /// Adds a step at the end and answers its number, where it is accepted after the steps so far;
    /// otherwise the log stays as it is. There are fewer than `NUMBER_LIMIT` hints.
    pub fn add(&mut self, alloc: Global, clause: &[Lit], hints: &[Hint]) -> Result<u32, LogFault>
        requires few { length hints.now < number_limit }
        ensures number { IfOk result (λ n. n ≡ length self.old.steps) }
        ensures added { OnOk result
            (spec.IsPushed self.old.steps self.new.steps clause.now hints.now) }
        ensures clause { IfOk result (λ n. spec.clause_at self.new.steps n ≡ clause.now) }
        ensures problem { self.new.problem ≡ self.old.problem }
        ensures accepted { OnOk result (spec.Accepts self.old clause.now hints.now) }
        ensures refused { (n : ℕ) → IsErrOf result (LogFault.NotAccepted n)
            → spec.FailsAt self.old clause.now hints.now n }
        ensures told { (n : ℕ) → spec.FailsAt self.old clause.now hints.now n
            → IfErr result (λ e. (e ≡ LogFault.NotAccepted n) ⊎ (e ≡ LogFault.NoMemory)) }
        ensures taken { spec.Accepts self.old clause.now hints.now
            → IfErr result (λ e. e ≡ LogFault.NoMemory) }
        ensures room { OnOk result (length self.new.steps < number_limit) }
        ensures kept { OnErr result (self.new ≡ self.old) }
    {
        let Ok(fault) = check_step(
            alloc,
            &mut self.assignment,
            &self.problem,
            self.steps.as_slice(),
            clause,
            hints,
        ) else {
            return Err(LogFault::NoMemory);
        };
        if let Some(hint) = fault {
            return Err(LogFault::NotAccepted { hint });
        }
        let Ok(number) = push_step(alloc, &mut self.steps, clause, hints) else {
            return Err(LogFault::NoMemory);
        };
        Ok(number)
    }

    /// Adds the step of the clause by those of the candidate hints that lead on, and answers its
    /// number: with the clause's negation assumed, a candidate that forces in its turn is kept, one
    /// that does not is ignored, and the first that conflicts is the last. Answers none, and the log
    /// stays as it is, where no candidate conflicts in its turn, or the clause has an atom out of
    /// range or one atom twice.
    pub fn add_leading(
        &mut self,
        alloc: Global,
        clause: &[Lit],
        hints: &[Hint],
    ) -> Result<Option<u32>, NoMemory>
        ensures number { IfOk result (λ o. IfSome o (λ n. n ≡ length self.old.steps)) }
        ensures added { IfOk result (λ o. IfSome o (λ n.
            leads.GainsLeading self.old self.new clause.now hints.now)) }
        ensures clause { IfOk result (λ o. IfSome o (λ n.
            spec.clause_at self.new.steps n ≡ clause.now)) }
        ensures accepted { IfOk result (λ o. IfSome o (λ n.
            is_clause self.old.problem clause.now ≡ true)) }
        ensures none { IfOk result (λ o. IfNone o (self.new ≡ self.old)) }
        ensures leads { leads.LeadOn self.old clause.now hints.now
            → IfOk result (λ o. IsSome o) }
        ensures complete { leads.CanBeAccepted self.old clause.now hints.now
            → IfOk result (λ o. IsSome o) }
        ensures problem { self.new.problem ≡ self.old.problem }
        ensures unchanged { OnErr result (self.new ≡ self.old) }
    {
        let Some(kept) = filter_hints(
            alloc,
            &mut self.assignment,
            &self.problem,
            self.steps.as_slice(),
            clause,
            hints,
        )?
        else {
            return Ok(None);
        };
        let number = push_step(alloc, &mut self.steps, clause, kept.as_slice())?;
        Ok(Some(number))
    }

    /// Joins the steps of the two sides of a split. Where the first step's clause holds the split's
    /// negation, there is a second step, whose clause holds the split, and no other atom stands in
    /// both clauses with opposite signs: adds an accepted step whose clause has the literals of both
    /// without the split and its negation, each once, and answers its number. Else there is no
    /// second step, and the first is answered and nothing changes.
    pub fn join_sides(
        &mut self,
        alloc: Global,
        split: Lit,
        first: u32,
        second: Option<u32>,
    ) -> Result<u32, NoMemory>
        requires first { first < length self.old.steps }
        requires second { IfSome second (λ n. n < length self.old.steps) }
        requires alone { IfNone second (¬ (joins.Denies self.old first split)) }
        requires sides { IfSome second (λ n. joins.AreSideSteps self.old split first n) }
        ensures number { IfOk result (λ n. n < length self.new.steps) }
        ensures kept { IfNone second (self.new ≡ self.old) }
        ensures same { IfNone second (IfOk result (λ n. n ≡ first)) }
        ensures joined { IfSome second (λ m. IfOk result (λ n.
            joins.JoinsSteps self.old split first m (spec.clause_at self.new.steps n))) }
        ensures one { IfSome second (λ m. IfOk result (λ n.
            joins.GainsStep self.old.steps self.new.steps n)) }
        ensures added { OnOk result (joins.AreContinued self.old.steps self.new.steps) }
        ensures problem { self.new.problem ≡ self.old.problem }
        ensures unchanged { OnErr result (self.new ≡ self.old) }
    {
        match second {
            Some(second) => self.add_joined(alloc, split, first, second),
            None => Ok(first),
        }
    }

    /// Adds the step that joins two.
    fn add_joined(
        &mut self,
        alloc: Global,
        split: Lit,
        first: u32,
        second: u32,
    ) -> Result<u32, NoMemory>
        requires first { first < length self.old.steps }
        requires second { second < length self.old.steps }
        requires sides { joins.AreSideSteps self.old split first second }
        ensures number { IfOk result (λ n. n ≡ length self.old.steps) }
        ensures joined { IfOk result (λ n.
            joins.JoinsSteps self.old split first second (spec.clause_at self.new.steps n)) }
        ensures one { IfOk result (λ n. joins.GainsStep self.old.steps self.new.steps n) }
        ensures problem { self.new.problem ≡ self.old.problem }
        ensures unchanged { OnErr result (self.new ≡ self.old) }
    {
        let clause = join_steps(alloc, self.steps(), split, first, second)?;
        let hints = [Hint::Step(first), Hint::Step(second)];
        match self.add(alloc, clause.as_slice(), &hints) {
            Ok(number) => Ok(number),
            Err(LogFault::NoMemory) => Err(AllocError),
            Err(LogFault::NotAccepted { .. }) => unreachable!(),
        }
    }

    /// The lemma whose clause is the step's: the steps up to and with it. The step is one of the
    /// log.
    pub fn lemma(&self, alloc: Global, step: u32) -> Result<Lemma, NoMemory>
        requires { step < length self.now.steps }
        ensures problem { IfOk result (λ l. l.problem ≡ self.now.problem) }
        ensures steps { IfOk result (λ l. l.steps ≡ take (step + 1) self.now.steps) }
        ensures clause { IfOk result (λ l. spec.EndsWithClause l.steps self.now.steps step) }
    {
        let steps = first_steps(alloc, self.steps.as_slice(), step as usize)?;
        let problem = Arc::try_clone(&self.problem)?;
        Ok(Lemma::of(problem, steps))
    }

    /// The question with its refutation: the steps up to and with this one. The step is one of the
    /// log, and its clause holds only negations of the question's literals.
    pub fn closed(&self, alloc: Global, step: u32, question: &Question) -> Result<Closed, NoMemory>
        requires within { step < length self.now.steps }
        requires negates { NegatesOnly question.now (spec.clause_at self.now.steps step) }
        ensures problem { IfOk result (λ c. c.problem ≡ self.now.problem) }
        ensures question { IfOk result (λ c. c.question ≡ question.now) }
        ensures steps { IfOk result (λ c. c.steps ≡ take (step + 1) self.now.steps) }
    {
        let steps = first_steps(alloc, self.steps.as_slice(), step as usize)?;
        let question = question.clone_in(alloc)?;
        let problem = Arc::try_clone(&self.problem)?;
        Ok(Closed::of(problem, question, steps))
    }

    /// The question with the steps on which the step rests, as `cone` has them. The step is one of
    /// the log, and its clause holds only negations of the question's literals.
    pub fn closed_by_cone(
        &self,
        alloc: Global,
        step: u32,
        question: &Question,
    ) -> Result<Closed, NoMemory>
        requires within { step < length self.now.steps }
        requires negates { NegatesOnly question.now (spec.clause_at self.now.steps step) }
        ensures problem { IfOk result (λ c. c.problem ≡ self.now.problem) }
        ensures question { IfOk result (λ c. c.question ≡ question.now) }
        ensures steps { IfOk result (λ c. IsCone self.now.steps step c.steps) }
    {
        let steps = Steps::new(self.cone(alloc, step)?);
        let question = question.clone_in(alloc)?;
        let problem = Arc::try_clone(&self.problem)?;
        Ok(Closed::of(problem, question, steps))
    }

    /// Adds the other log's steps at the end, of the same problem, and answers the shift: by so
    /// much their numbers are greater here. Where memory runs out the log is as before.
    pub fn append_all(&mut self, alloc: Global, other: &ProofLog) -> Result<u32, NoMemory>
        requires { self.old.problem ≡ other.now.problem }
        ensures shift { IfOk result (λ n. n ≡ length self.old.steps) }
        ensures steps { OnOk result (ArePutBehind self.old.steps self.new.steps other.now.steps) }
        ensures problem { self.new.problem ≡ self.old.problem }
        ensures room { OnOk result (length self.new.steps < number_limit) }
        ensures kept { OnErr result (self.new ≡ self.old) }
    {
        let shift = self.steps.len();
        if other.steps.len() >= NUMBER_LIMIT - shift {
            return Err(AllocError);
        }
        let mut steps = shifted_steps(alloc, other.steps.as_slice(), shift as u32)?;
        self.steps.append(&mut steps)?;
        Ok(shift as u32)
    }

    /// The steps on which the step rests: exactly those that it reaches by hints, in their order,
    /// renumbered, itself last. The step is one of the log.
    pub fn cone(&self, alloc: Global, step: u32) -> Result<Vec<Step>, NoMemory>
        requires { step < length self.now.steps }
        ensures cone { IfOk result (λ v. IsCone self.now.steps step v.items) }
        ensures lemma { IfOk result (λ v. spec.IsLemma self.now.problem v.items) }
        ensures clause { IfOk result (λ v. spec.EndsWithClause v.items self.now.steps step) }
    {
        cone_of(alloc, self.steps.as_slice(), step as usize)
    }
}

/// The failing hint of a step after the earlier ones, or none where it is accepted. Makes the
/// assignment where it was not made yet; no atom is set before and afterwards.
fn check_step(
    alloc: Global,
    assignment: &mut Assignment,
    problem: &Problem,
    earlier: &[Step],
    clause: &[Lit],
    hints: &[Hint],
) -> Result<Option<u32>, AllocError>
    requires few { length hints.now < number_limit }
    requires clear { assignment.old ≡ replicate (length assignment.old) None }
    ensures answer { IfOk result (λ o.
        o ≡ hint_that_fails problem.now earlier.now (step_of clause.now hints.now)) }
    ensures clear { assignment.new ≡ replicate (length assignment.new) None }
{
    make_assignment(alloc, assignment, problem.atoms() as usize)?;
    let fault = failing_hint(assignment, problem, earlier, clause, hints);
    assignment.clear();
    match fault {
        Some(hint) => Ok(Some(hint as u32)),
        None => Ok(None),
    }
}

/// Of the candidates those that lead on, if one conflicts in its turn. Makes the assignment where it
/// was not made yet; no atom is set before and afterwards.
fn filter_hints(
    alloc: Global,
    assignment: &mut Assignment,
    problem: &Problem,
    earlier: &[Step],
    clause: &[Lit],
    candidates: &[Hint],
) -> Result<Option<Vec<Hint>>, AllocError>
    requires clear { assignment.old ≡ replicate (length assignment.old) None }
    ensures kept { IfOk result (λ o. option_map (λ v. v.items) o
        ≡ leads.leading_hints problem.now earlier.now clause.now candidates.now) }
    ensures formed { IsWellFormed problem.now }
    ensures clear { assignment.new ≡ replicate (length assignment.new) None }
{
    make_assignment(alloc, assignment, problem.atoms() as usize)?;
    let kept = leading_hints(alloc, assignment, problem, earlier, clause, candidates);
    assignment.clear();
    kept
}

/// The clause that joins those of two steps.
fn join_steps(
    alloc: Global,
    steps: &[Step],
    split: Lit,
    first: u32,
    second: u32,
) -> Result<Vec<Lit>, AllocError>
    requires first { first < length steps.now }
    requires second { second < length steps.now }
    ensures { IfOk result (λ v. v.items ≡ clause_joined split
        (spec.clause_at steps.now first) (spec.clause_at steps.now second)) }
{
    joined_clause(
        alloc,
        split,
        clause_at(steps, first),
        clause_at(steps, second),
    )
}

/// The clause of the step.
fn clause_at(steps: &[Step], number: u32) -> &[Lit]
    requires { number < length steps.now }
    ensures { result.now ≡ spec.clause_at steps.now number }
{
    steps[number as usize].clause.as_slice()
}

/// Makes the assignment one of so many atoms, if it is not one already.
fn make_assignment(
    alloc: Global,
    assignment: &mut Assignment,
    atoms: usize,
) -> Result<(), AllocError>
    requires { assignment.old ≡ replicate (length assignment.old) None }
    ensures made { OnOk result (assignment.new ≡ replicate atoms None) }
    ensures kept { OnErr result (assignment.new ≡ assignment.old) }
{
    if assignment.values().len() == atoms {
        return Ok(());
    }
    *assignment = Assignment::of_atoms(alloc, atoms)?;
    Ok(())
}

/// Puts the step behind the others, and answers its number.
fn push_step(
    alloc: Global,
    steps: &mut Vec<Step>,
    clause: &[Lit],
    hints: &[Hint],
) -> Result<u32, AllocError>
    requires { length steps.old.items < number_limit }
    ensures number { IfOk result (λ n. n ≡ length steps.old.items) }
    ensures pushed { OnOk result
        (spec.IsPushed steps.old.items steps.new.items clause.now hints.now) }
    ensures few { length steps.new.items < number_limit }
    ensures kept { OnErr result (steps.new.items ≡ steps.old.items) }
{
    let number = steps.len();
    if number + 1 >= NUMBER_LIMIT {
        return Err(AllocError);
    }
    steps.push(copy_step(alloc, clause, hints)?)?;
    Ok(number as u32)
}

/// The step with this clause and these hints.
fn copy_step(alloc: Global, clause: &[Lit], hints: &[Hint]) -> Result<Step, AllocError>
    ensures { IfOk result (λ s. s ≡ step_of clause.now hints.now) }
{
    Ok(Step {
        clause: Lits::from_slice(alloc, clause)?,
        hints: Hints::from_slice(alloc, hints)?,
    })
}

/// The steps up to and with this one.
fn first_steps(alloc: Global, steps: &[Step], last: usize) -> Result<Steps, AllocError>
    requires { last < length steps.now }
    ensures { IfOk result (λ s. s ≡ take (last + 1) steps.now) }
{
    Steps::from_slice(alloc, &steps[..last + 1])
}
