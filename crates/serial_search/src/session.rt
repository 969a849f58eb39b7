ghost use Rattle.std.specs.Prelude.{◌≡◌, ◌↔◌, true, IfOk};
ghost use Rattle.std.specs.Arc.{arc_value};
ghost use Rattle.count_core.specs.Decisions.{IsSatisfiable};
ghost use Rattle.count_core.specs.Problems.{are_within};
ghost use Rattle.serial_search.specs.Answers as spec;

use crate::answer::Answer;
use crate::counts::Counts;
use crate::importing::import_lemma;
use crate::solving::{answer, search_to_end};
use crate::work::Work;
use count_core::{NoMemory, Question, SharedProblem};
use propagation::Engine;
use refutations::{Lemma, ProofLog};
use std::alloc::Global;
use std::marker::Model;
use std::sync::Arc;

/// A problem with an engine, and what was learnt of it. Contracts see a record of `problem`.
#[derive(Drop)]
pub struct Session {
    log: ProofLog,
    engine: Engine,
    work: Work,
}

impl Model for Session {
    ghost use Rattle.serial_search.specs.Answers as spec;
    ghost use Rattle.serial_search.specs.Sides.{AreLinked};

    ghost Value = { spec.Searching };

    ghost view = { λ s. record { problem = s.log.problem } };

    ghost invariant = { λ s. AreLinked s.log s.engine };
}

impl Session {
    /// A session of the problem, in which nothing is learnt.
    pub fn new(alloc: Global, problem: SharedProblem) -> Result<Session, NoMemory>
        ensures { IfOk result (λ s. s.problem ≡ arc_value problem) }
    {
        let work = Work::new(alloc, &problem)?;
        let own = Arc::try_clone(&problem)?;
        let mut engine = Engine::new(alloc, own)?;
        engine.reserve(alloc)?;
        Ok(Session {
            log: ProofLog::new(alloc, problem),
            engine,
            work,
        })
    }

    /// Learns the clause of a lemma of the same problem. Where memory runs out, the session may have
    /// learnt nothing and stays usable.
    pub fn import(&mut self, alloc: Global, lemma: &Lemma) -> Result<(), NoMemory>
        requires { lemma.now.problem ≡ self.old.problem }
        ensures { self.new.problem ≡ self.old.problem }
    {
        import_lemma(alloc, &mut self.log, &mut self.engine, lemma)
    }

    /// How many splits of the last question that was solved had their second side opened.
    pub fn opened(&self) -> u64 {
        self.work.opened
    }

    /// What was done so far, over all questions.
    pub fn counts(&self) -> Counts {
        self.work.counts
    }
}

/// Answers the question, whose atoms are atoms of the session's problem: values that satisfy it and
/// the problem, or a refutation. Where memory runs out, the session may have learnt more and stays
/// usable.
pub fn solve(alloc: Global, question: &Question, session: &mut Session) -> Result<Answer, NoMemory>
    requires { are_within session.old.problem.atoms question.now ≡ true }
    ensures problem { IfOk result (λ a. a.problem ≡ session.old.problem) }
    ensures question { IfOk result (λ a. a.question ≡ question.now) }
    ensures possible { IfOk result (λ a. spec.IsPossible a.outcome
        ↔ IsSatisfiable session.old.problem question.now) }
    ensures impossible { IfOk result (λ a. spec.IsImpossible a.outcome
        ↔ (¬ (IsSatisfiable session.old.problem question.now))) }
    ensures kept { session.new.problem ≡ session.old.problem }
{
    session.work.opened = 0;
    let side = search_to_end(
        alloc,
        question,
        &mut session.log,
        &mut session.engine,
        &mut session.work,
    )?;
    let found = answer(alloc, &session.log, &session.engine, question, side)?;
    Ok(found)
}
