use crate::analysis::Analysis;
use crate::counts::Counts;
use crate::picking::Heuristic;
use crate::slacks::Slacks;
use crate::turns::Turns;
use count_core::{NoMemory, Problem};
use propagation::{Engine, Mark};
use std::alloc::Global;

/// What a search needs beside engine and log. Nothing that it holds changes an answer.
#[derive(Drop)]
pub(crate) struct Work {
    pub(crate) analysis: Analysis,
    pub(crate) counts: Counts,
    /// How many splits of the present question had their second side opened.
    pub(crate) opened: u64,
    /// How many conflicts the present run may still have.
    pub(crate) left: u64,
    /// The marks before the decisions of the present run, in their order.
    levels: Vec<Mark>,
    slacks: Slacks,
    /// The heuristics in the order of their turns.
    pub(crate) turns: Turns,
}

impl Work {
    /// Nothing is counted.
    pub(crate) fn new(alloc: Global, problem: &Problem) -> Result<Work, NoMemory> {
        let analysis = Analysis::new(alloc, problem.atoms())?;
        let slacks = Slacks::new(alloc, problem.rules().len())?;
        Ok(Work {
            analysis,
            counts: Counts {
                decisions: 0,
                conflicts: 0,
                literals: 0,
                fallbacks: 0,
            },
            opened: 0,
            left: 0,
            levels: Vec::new(alloc),
            slacks,
            turns: Turns::of(alloc, problem)?,
        })
    }

    pub(crate) fn count_decision(&mut self) {
        self.counts.decisions = self.counts.decisions.saturating_add(1);
    }

    pub(crate) fn count_conflict(&mut self) {
        self.counts.conflicts = self.counts.conflicts.saturating_add(1);
    }

    pub(crate) fn count_fallback(&mut self) {
        self.counts.fallbacks = self.counts.fallbacks.saturating_add(1);
    }

    pub(crate) fn count_opened(&mut self) {
        self.opened = self.opened.saturating_add(1);
    }

    /// Counts the literals by which the trail has grown.
    pub(crate) fn count_literals(&mut self, before: u32, after: u32) {
        let more = after.saturating_sub(before);
        self.counts.literals = self.counts.literals.saturating_add(more as u64);
    }

    /// Whether no conflict is left; else takes one.
    pub(crate) fn is_used_up(&mut self) -> bool {
        if self.left == 0 {
            return true;
        }
        self.left -= 1;
        false
    }

    /// A run begins: no decision is made yet, and no slack is measured.
    pub(crate) fn begin_run(&mut self) {
        self.levels.clear();
        self.slacks.forget();
    }

    /// Measures the slacks of the rules, where the heuristic goes by them and that was not done in
    /// this run.
    pub(crate) fn measure_slacks(&mut self, engine: &Engine, heuristic: Heuristic) {
        if heuristic != Heuristic::FewestUnset {
            self.slacks
                .measure(engine.values(), engine.problem().rules());
        }
    }

    /// The slacks, by rule, that were measured last.
    pub(crate) fn slacks(&self) -> &[usize] {
        self.slacks.as_slice()
    }

    /// Notes the mark before a decision.
    pub(crate) fn note_level(&mut self, mark: Mark) -> Result<(), NoMemory> {
        self.levels.push(mark)?;
        Ok(())
    }

    /// The place of the last decision on the trail.
    pub(crate) fn last_level(&self) -> Option<usize> {
        let mark = self.levels.last()?;
        Some(mark.0 as usize)
    }

    /// The mark of the first decision behind place `back` of the trail. It and the later ones are
    /// forgotten.
    pub(crate) fn leave_levels(&mut self, back: usize) -> Mark {
        let mut mark = Mark(0);
        for _level in 0..self.levels.len() {
            match self.levels.last().copied() {
                Some(last) if last.0 as usize >= back => mark = last,
                _ => return mark,
            }
            self.levels.pop();
        }
        mark
    }
}
