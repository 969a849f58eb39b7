ghost use Rattle.std.specs.Prelude.{◌≡◌, ◌≢◌, ◌↔◌, [], true, false, IfOk};
ghost use Rattle.count_core.specs.Decisions.{IsSatisfiable};
ghost use Rattle.count_core.specs.Problems.{are_within, repeats};
ghost use Rattle.propagation.specs.Engines.{HasRoom, OnlyTrailDiffers};
ghost use Rattle.serial_search.specs.Answers as answers;
ghost use Rattle.serial_search.specs.Assumptions.{assumed_of};
ghost use Rattle.serial_search.specs.Sides as spec;

use crate::answer::Answer;
use crate::outcome::Outcome;
use crate::picking::Heuristic;
use crate::rounds::search_by_learning;
use crate::side::{Side, search};
use crate::work::Work;
use count_core::{Lit, NoMemory, Question, Values};
use propagation::{Engine, Mark};
use refutations::ProofLog;
use std::alloc::Global;
use std::sync::Arc;

/// How many rounds of bounded runs come before the search that is not bounded. In each round each
/// heuristic has a run.
const ROUNDS: u32 = 30;

/// How many conflicts a run of the first round may have. Each round has twice as many as the one
/// before.
const FIRST_BUDGET: u64 = 50;

/// Searches from the question again and again, by the heuristics in turn, each round for twice as
/// many conflicts, and at last to the end. What is learnt stays.
pub(crate) fn search_to_end(
    alloc: Global,
    question: &Question,
    log: &mut ProofLog,
    engine: &mut Engine,
    work: &mut Work,
) -> Result<Side, NoMemory>
    requires linked { spec.AreLinked log.old engine.old }
    requires within { are_within engine.old.problem.atoms question.now ≡ true }
    ensures side { IfOk result (λ s. spec.IsSide log.new engine.new question.now s) }
    ensures ended { IfOk result (λ s. s ≢ Side.Stopped) }
    ensures asked { spec.AreAsked question.now engine.new.entries }
    ensures linked { spec.AreLinked log.new engine.new }
    ensures continued { spec.IsContinued log.old log.new }
{
    let mut budget = FIRST_BUDGET;
    for _round in 0..ROUNDS {
        let side = search_round(alloc, question, log, engine, work, budget)?;
        if !is_stopped(side) {
            return Ok(side);
        }
        budget = budget.saturating_mul(2);
    }
    ask(engine, question);
    search(alloc, log, engine, work, Heuristic::FewestUnset, None)
}

/// Searches by each heuristic for so many conflicts.
fn search_round(
    alloc: Global,
    question: &Question,
    log: &mut ProofLog,
    engine: &mut Engine,
    work: &mut Work,
    budget: u64,
) -> Result<Side, NoMemory>
    requires linked { spec.AreLinked log.old engine.old }
    requires within { are_within engine.old.problem.atoms question.now ≡ true }
    ensures side { IfOk result (λ s. spec.IsSide log.new engine.new question.now s) }
    ensures asked { spec.AreAsked question.now engine.new.entries }
    ensures linked { spec.AreLinked log.new engine.new }
    ensures continued { spec.IsContinued log.old log.new }
{
    let turns = work.turns;
    work.left = budget;
    let side = search_once(alloc, question, log, engine, work, turns.first)?;
    if !is_stopped(side) {
        return Ok(side);
    }
    work.left = budget;
    let side = search_once(alloc, question, log, engine, work, turns.second)?;
    if !is_stopped(side) {
        return Ok(side);
    }
    work.left = budget;
    search_once(alloc, question, log, engine, work, turns.third)
}

fn is_stopped(side: Side) -> bool
    ensures { result ≡ false → side ≢ Side.Stopped }
{
    match side {
        Side::Found => false,
        Side::Closed(_) => false,
        Side::Stopped => true,
    }
}

/// Searches from the question alone, until the conflicts are used up.
fn search_once(
    alloc: Global,
    question: &Question,
    log: &mut ProofLog,
    engine: &mut Engine,
    work: &mut Work,
    heuristic: Heuristic,
) -> Result<Side, NoMemory>
    requires linked { spec.AreLinked log.old engine.old }
    requires within { are_within engine.old.problem.atoms question.now ≡ true }
    ensures side { IfOk result (λ s. spec.IsSide log.new engine.new question.now s) }
    ensures asked { spec.AreAsked question.now engine.new.entries }
    ensures linked { spec.AreLinked log.new engine.new }
    ensures continued { spec.IsContinued log.old log.new }
{
    ask(engine, question);
    search_by_learning(alloc, log, engine, work, heuristic)
}

/// Assumes the question alone, whose atoms are atoms of the problem.
fn ask(engine: &mut Engine, question: &Question)
    requires room { HasRoom engine.old }
    requires within { are_within engine.old.problem.atoms question.now ≡ true }
    ensures assumed { assumed_of engine.new.entries ≡ question.now }
    ensures kept { OnlyTrailDiffers engine.old engine.new }
{
    engine.back_to(Mark(0));
    assume_all(engine, question.lits());
}

/// Assumes the literals, which are over different atoms of the problem. Nothing is set before.
fn assume_all(engine: &mut Engine, lits: &[Lit])
    requires nothing { engine.old.entries ≡ [] }
    requires room { HasRoom engine.old }
    requires within { are_within engine.old.problem.atoms lits.now ≡ true }
    requires distinct { repeats lits.now ≡ false }
    ensures assumed { assumed_of engine.new.entries ≡ lits.now }
    ensures kept { OnlyTrailDiffers engine.old engine.new }
{
    for lit in lits {
        engine.assume(*lit);
    }
}

/// The answer by how the search ended.
pub(crate) fn answer(
    alloc: Global,
    log: &ProofLog,
    engine: &Engine,
    question: &Question,
    side: Side,
) -> Result<Answer, NoMemory>
    requires linked { spec.AreLinked log.now engine.now }
    requires side { spec.IsSide log.now engine.now question.now side }
    requires ended { side ≢ Side.Stopped }
    requires asked { spec.AreAsked question.now engine.now.entries }
    ensures problem { IfOk result (λ a. a.problem ≡ log.now.problem) }
    ensures question { IfOk result (λ a. a.question ≡ question.now) }
    ensures right { IfOk result (λ a. answers.IsRight log.now.problem question.now a.outcome) }
{
    match side {
        Side::Found => {
            let _trail = engine.trail();
            let values = total(alloc, engine.values())?;
            let problem = Arc::try_clone(engine.problem())?;
            let _rules = problem.rules();
            let own = question.clone_in(alloc)?;
            Ok(Answer::of(problem, own, Outcome::Possible { values }))
        }
        Side::Closed(step) => {
            let closed = log.closed_by_cone(alloc, step, question)?;
            let _steps = closed.steps();
            let problem = Arc::try_clone(log.problem())?;
            let own = question.clone_in(alloc)?;
            Ok(Answer::of(problem, own, Outcome::Impossible { closed }))
        }
        Side::Stopped => unreachable!(),
    }
}

/// The values, with false for an unset atom.
fn total(alloc: Global, values: &[Option<bool>]) -> Result<Values, NoMemory>
    ensures { IfOk result (λ v. v ≡ spec.totals values.now) }
{
    let mut entries = Vec::with_capacity(alloc, values.len())?;
    for value in values {
        entries.push(value.unwrap_or(false))?;
    }
    Ok(Values::new(entries))
}
