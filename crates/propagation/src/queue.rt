ghost use Rattle.std.specs.Prelude.{◌≡◌, ◌+◌, ◌≤◌, ◌<◌, length, take, IfNone, IfSome};
ghost use Rattle.propagation.specs.Queues.{AreQuiet, AreQuietAt, IsDone, IsNoGreater, IsWithin, past_clauses, past_rules};
ghost use Rattle.propagation.specs.Stores.{Grows, HasCausedTrail, HasRoom, IsConflict, OnlyTrailDiffers};

use crate::forcing::examine;
use crate::progress::Progress;
use crate::store::Store;
use count_core::Hint;

/// Examines each rule of the problem that the first entry not visited for rules may affect, until
/// one conflicts, and answers the hint of that one.
fn visit_rules(store: &mut Store, progress: Progress) -> Option<Hint>
    requires entry { progress.rules < length store.old.entries }
    requires within { IsWithin store.old progress }
    requires quiet { AreQuiet store.old progress }
    requires room { HasRoom store.old }
    ensures conflict { IfSome result (λ h. IsConflict store.new h) }
    ensures next { IfNone result (AreQuiet store.new (past_rules progress)) }
    ensures quiet { AreQuiet store.new progress }
    ensures grows { Grows store.old store.new }
    ensures kept { OnlyTrailDiffers store.old store.new }
{
    let lit = store.lit_at(progress.rules);
    let count = store.rule_occurrence_count(lit.atom);
    for place in 0..count {
        let number = store.constraint_of_occurrence(lit.atom, place);
        let found = examine(store, number);
        let _length = store.len();
        if let Some(hint) = found {
            return Some(hint);
        }
    }
    None
}

/// Examines each clause that the first entry not visited for clauses may affect, until one
/// conflicts, and answers the hint of that one.
fn visit_clauses(store: &mut Store, progress: Progress) -> Option<Hint>
    requires entry { progress.clauses < length store.old.entries }
    requires within { IsWithin store.old progress }
    requires quiet { AreQuiet store.old progress }
    requires room { HasRoom store.old }
    ensures conflict { IfSome result (λ h. IsConflict store.new h) }
    ensures next { IfNone result (AreQuiet store.new (past_clauses progress)) }
    ensures quiet { AreQuiet store.new progress }
    ensures grows { Grows store.old store.new }
    ensures kept { OnlyTrailDiffers store.old store.new }
{
    let lit = store.lit_at(progress.clauses);
    let first = store.rule_occurrence_count(lit.atom);
    let count = store.occurrence_count(lit.atom);
    for place in first..count {
        let Some(number) = store.affected_clause(lit, place) else {
            continue;
        };
        let found = examine(store, number);
        let _length = store.len();
        if let Some(hint) = found {
            return Some(hint);
        }
    }
    None
}

/// Examines all that may not be quiet, clauses only where no rule is pending, until nothing is left
/// or a constraint conflicts, whose hint it answers.
pub(crate) fn run(store: &mut Store, progress: &mut Progress) -> Option<Hint>
    requires within { IsWithin store.old progress.old }
    requires quiet { AreQuiet store.old progress.old }
    requires room { HasRoom store.old }
    ensures conflict { IfSome result (λ h. IsConflict store.new h) }
    ensures done { IfNone result (IsDone store.new progress.new) }
    ensures within { IsWithin store.new progress.new }
    ensures quiet { AreQuiet store.new progress.new }
    ensures grows { Grows store.old store.new }
    ensures kept { OnlyTrailDiffers store.old store.new }
{
    let rules = store.rule_count();
    loop {
        if progress.rules < store.len() {
            if let Some(hint) = visit_rules(store, *progress) {
                return Some(hint);
            }
            progress.rules += 1;
        } else if progress.clauses < store.len() && progress.examined >= rules {
            if let Some(hint) = visit_clauses(store, *progress) {
                return Some(hint);
            }
            progress.clauses += 1;
        } else if progress.examined < store.constraint_count() {
            let found = examine(store, progress.examined);
            let _length = store.len();
            if let Some(hint) = found {
                return Some(hint);
            }
            progress.examined += 1;
        } else {
            return None;
        }
    }
}

/// Takes entries away until so many are left. What was known at the greater lengths is forgotten.
pub(crate) fn unwind(store: &mut Store, quiet_at: &mut [usize], left: usize)
    requires left { left ≤ length store.old.entries }
    requires lengths { length quiet_at.old ≡ store.old.problem.atoms + 1 }
    requires quiet_at { AreQuietAt store.old quiet_at.old }
    ensures entries { store.new.entries ≡ take left store.old.entries }
    ensures kept { OnlyTrailDiffers store.old store.new }
    ensures quiet_at { AreQuietAt store.new quiet_at.new }
    ensures caused { HasCausedTrail store.new }
    ensures few { left ≤ store.new.problem.atoms }
    ensures less { IsNoGreater quiet_at.new quiet_at.old }
{
    while store.len() > left {
        quiet_at[store.len()] = 0;
        store.pop();
    }
}

/// The last length of the trail, up to this one, at which constraints are known to be quiet, or 0.
pub(crate) fn last_quiet(quiet_at: &[usize], from: usize) -> usize
    requires { from < length quiet_at.now }
    ensures { result ≤ from }
{
    let mut place = from;
    while place > 0 && quiet_at[place] == 0 {
        place -= 1;
    }
    place
}
