use crate::reason::{Reason, constraint_of, reason_of};
use count_core::{Hint, Lit, NoMemory, Step};
use propagation::Engine;
use std::alloc::Global;

/// A clause, and hints that may make a step of it. Nothing is promised of them: a log takes them
/// only where they lead to a conflict.
#[derive(Drop)]
pub(crate) struct Proposal {
    pub(crate) clause: Vec<Lit>,
    pub(crate) hints: Vec<Hint>,
    /// Behind this place of the trail the clause forces the negation of its unique point.
    pub(crate) back: usize,
}

/// The analysis of conflicts: marks by atom, all of them false between two conflicts.
#[derive(Drop)]
pub(crate) struct Analysis {
    /// The atoms on which the conflict rests and to which the walk has not come.
    needed: Vec<bool>,
    /// The atoms that were set from the last decision on.
    recent: Vec<bool>,
    /// How many atoms are needed and recent.
    open: usize,
}

/// Which needed literals are kept in the clause. The causes of the others are expanded.
#[derive(Clone, Copy)]
enum Kept {
    /// Those that were assumed.
    Assumed,
    /// Of those from place `level` of the trail on the last one that is open; of those before it
    /// and from `base` on those that are not redundant.
    UniquePoint { level: usize, base: usize },
}

impl Analysis {
    /// No mark, for so many atoms.
    pub(crate) fn new(alloc: Global, atoms: u32) -> Result<Analysis, NoMemory> {
        let needed: Vec<bool> = vec![in alloc; false; atoms as usize]?;
        let recent: Vec<bool> = vec![in alloc; false; atoms as usize]?;
        Ok(Analysis {
            needed,
            recent,
            open: 0,
        })
    }

    /// The negations of those assumed literals on which the conflict rests.
    pub(crate) fn assumed(
        &mut self,
        alloc: Global,
        engine: &Engine,
        steps: &[Step],
        conflict: Hint,
    ) -> Result<Proposal, NoMemory> {
        self.walk(alloc, engine, steps, conflict, Kept::Assumed)
    }

    /// The clause with the negation of the first unique implication point. The last decision stands
    /// at place `level` of the trail.
    pub(crate) fn unique_point(
        &mut self,
        alloc: Global,
        engine: &Engine,
        steps: &[Step],
        conflict: Hint,
        level: usize,
    ) -> Result<Proposal, NoMemory> {
        let base = first_assumed(engine);
        write_from(&mut self.recent, engine.trail(), level, true);
        let kept = Kept::UniquePoint { level, base };
        let proposal = self.walk(alloc, engine, steps, conflict, kept);
        write_from(&mut self.recent, engine.trail(), level, false);
        proposal
    }

    /// Walks down the trail from the conflict. The marks are false again afterwards.
    fn walk(
        &mut self,
        alloc: Global,
        engine: &Engine,
        steps: &[Step],
        conflict: Hint,
        kept: Kept,
    ) -> Result<Proposal, NoMemory> {
        let proposal = self.descend(alloc, engine, steps, conflict, kept);
        if proposal.is_err() {
            clear(&mut self.needed);
            self.open = 0;
        }
        proposal
    }

    fn descend(
        &mut self,
        alloc: Global,
        engine: &Engine,
        steps: &[Step],
        conflict: Hint,
        kept: Kept,
    ) -> Result<Proposal, NoMemory> {
        let trail = engine.trail();
        let mut clause = Vec::new(alloc);
        let mut hints = Vec::new(alloc);
        let mut back = 0;
        if let Some(rule) = constraint_of(engine.problem(), steps, conflict) {
            self.need(engine, rule.reason_of_conflict(engine.values(), conflict));
        }
        for place in (0..trail.len()).rev() {
            let Some(lit) = trail.get(place).copied() else {
                continue;
            };
            if !self.take(lit) {
                continue;
            }
            match reason_of(engine, steps, lit) {
                Some(reason) if !self.keeps(engine, reason, place, kept) => {
                    if !is_last(hints.as_slice(), reason.hint) {
                        hints.push(reason.hint)?;
                    }
                    self.need(engine, reason);
                }
                _ => {
                    clause.push(lit.negation())?;
                    if back == 0 && is_earlier(place, kept) {
                        back = place.saturating_add(1);
                    }
                }
            }
        }
        hints.reverse();
        hints.push(conflict)?;
        Ok(Proposal {
            clause,
            hints,
            back,
        })
    }

    /// Whether the needed literal at the place, which has a reason, is kept.
    fn keeps(&self, engine: &Engine, reason: Reason<'_>, place: usize, kept: Kept) -> bool {
        match kept {
            Kept::Assumed => false,
            Kept::UniquePoint { level, .. } if place >= level => self.open == 0,
            Kept::UniquePoint { base, .. } => place >= base && !self.is_redundant(engine, reason),
        }
    }

    /// Whether each literal of the reason is needed anyway.
    fn is_redundant(&self, engine: &Engine, reason: Reason<'_>) -> bool {
        for lit in reason.lits {
            if reason.has(engine.values(), *lit) && !is_marked(&self.needed, *lit) {
                return false;
            }
        }
        true
    }

    /// Marks the atoms of the reason as needed.
    fn need(&mut self, engine: &Engine, reason: Reason<'_>) {
        for lit in reason.lits {
            if reason.has(engine.values(), *lit) && !is_marked(&self.needed, *lit) {
                write(&mut self.needed, *lit, true);
                if is_marked(&self.recent, *lit) {
                    self.open = self.open.saturating_add(1);
                }
            }
        }
    }

    /// Whether the literal's atom is needed; from now on it is not.
    fn take(&mut self, lit: Lit) -> bool {
        if !is_marked(&self.needed, lit) {
            return false;
        }
        write(&mut self.needed, lit, false);
        if is_marked(&self.recent, lit) {
            self.open = self.open.saturating_sub(1);
        }
        true
    }
}

/// Whether the place is before the last decision.
fn is_earlier(place: usize, kept: Kept) -> bool {
    match kept {
        Kept::Assumed => false,
        Kept::UniquePoint { level, .. } => place < level,
    }
}

/// The place of the first literal of the trail that was assumed, or 0.
fn first_assumed(engine: &Engine) -> usize {
    for (place, lit) in engine.trail().iter().enumerate() {
        if engine.cause_of(*lit).is_none() {
            return place;
        }
    }
    0
}

fn is_last(hints: &[Hint], hint: Hint) -> bool {
    match hints.last() {
        Some(last) => *last == hint,
        None => false,
    }
}

fn is_marked(marks: &[bool], lit: Lit) -> bool {
    let place = lit.atom.0 as usize;
    place < marks.len() && marks[place]
}

fn write(marks: &mut [bool], lit: Lit, mark: bool) {
    let place = lit.atom.0 as usize;
    if place < marks.len() {
        marks[place] = mark;
    }
}

/// Writes the mark for the literals of the trail from the place on.
fn write_from(marks: &mut [bool], trail: &[Lit], from: usize, mark: bool) {
    for place in from..trail.len() {
        write(marks, trail[place], mark);
    }
}

fn clear(marks: &mut [bool]) {
    for mark in marks {
        *mark = false;
    }
}
