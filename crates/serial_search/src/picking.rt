ghost use Rattle.std.specs.Prelude.{◌≡◌, ◌<◌, length, true, false, IfSome, IfNone};
ghost use Rattle.propagation.specs.Engines.{values_in};
ghost use Rattle.propagation.specs.Trails.{IsFree};
ghost use Rattle.serial_search.specs.Sides.{AreAllSet};

use count_core::{Atom, CountRule, Lit};
use propagation::Engine;

/// How the search picks the literal that it splits on: the first unset one of an open rule. A rule is
/// open where fewer of its literals are true than must be. Where no rule is open, the first unset atom
/// is made false.
#[derive(Clone, Copy, Debug, PartialEq, Eq)]
pub(crate) enum Heuristic {
    /// Of the open rule that has the fewest unset literals.
    FewestUnset,
    /// Of the open rule that had the least slack where the run began; of rules with the same slack
    /// the first from this place on, or else the first.
    LeastSlackFrom { place: usize },
}

/// A literal whose atom is unset, or none where each atom is set.
pub(crate) fn pick(engine: &Engine, slacks: &[usize], heuristic: Heuristic) -> Option<Lit>
    ensures free { IfSome result (λ l. IsFree (values_in engine.now) l) }
    ensures below { IfSome result (λ l. length engine.now.entries < engine.now.problem.atoms) }
    ensures none { IfNone result (AreAllSet (values_in engine.now)) }
{
    let values = engine.values();
    let advice = advised(values, engine.problem().rules(), slacks, heuristic);
    free_literal(values, engine.problem().atoms(), advice)
}

/// The advised literal where its atom is unset, or else the first unset atom, made false.
fn free_literal(values: &[Option<bool>], atoms: u32, advice: Option<Lit>) -> Option<Lit>
    requires { length values.now ≡ atoms }
    ensures free { IfSome result (λ l. IsFree values.now l) }
    ensures none { IfNone result (AreAllSet values.now) }
{
    if let Some(lit) = advice {
        if is_free(values, lit) {
            return Some(lit);
        }
    }
    for atom in 0..atoms {
        let lit = Lit {
            atom: Atom(atom),
            positive: false,
        };
        if is_free(values, lit) {
            return Some(lit);
        }
    }
    None
}

/// Whether the literal's atom is one of these and unset.
fn is_free(values: &[Option<bool>], lit: Lit) -> bool
    ensures free { result ≡ true → IsFree values.now lit }
    ensures set { result ≡ false → ¬ (IsFree values.now lit) }
{
    let place = lit.atom.0 as usize;
    place < values.len() && values[place].is_none()
}

/// The literal that the heuristic advises, or none where no rule is open. Nothing rests on it.
fn advised(
    values: &[Option<bool>],
    rules: &[CountRule],
    slacks: &[usize],
    heuristic: Heuristic,
) -> Option<Lit> {
    match heuristic {
        Heuristic::FewestUnset => fewest_unset(values, rules),
        Heuristic::LeastSlackFrom { place } => least_slack(values, rules, slacks, place),
    }
}

/// The first unset literal of the open rule that has the fewest.
fn fewest_unset(values: &[Option<bool>], rules: &[CountRule]) -> Option<Lit> {
    let mut fewest = usize::MAX;
    let mut choice = None;
    for rule in rules {
        if is_open(values, rule) {
            let lits = rule.lits.as_slice();
            let unset = lits.iter().filter(|lit| is_free(values, **lit)).count();
            if unset < fewest {
                fewest = unset;
                choice = first_free(values, lits);
            }
        }
    }
    choice
}

/// The first unset literal of the open rule that has the least of these slacks; of rules with the
/// same slack the first from this place on, or else the first.
fn least_slack(
    values: &[Option<bool>],
    rules: &[CountRule],
    slacks: &[usize],
    from: usize,
) -> Option<Lit> {
    let mut least = usize::MAX;
    let mut choice = None;
    for place in (from..rules.len()).chain(0..from) {
        let (Some(rule), Some(slack)) = (rules.get(place), slacks.get(place)) else {
            continue;
        };
        if *slack < least && is_open(values, rule) {
            least = *slack;
            choice = first_free(values, rule.lits.as_slice());
        }
    }
    choice
}

/// The first of the literals whose atom is unset.
fn first_free(values: &[Option<bool>], lits: &[Lit]) -> Option<Lit> {
    lits.iter().copied().find(|lit| is_free(values, *lit))
}

/// The place where the rules of another side begin: that of the next rule that asks for true literals
/// and shares an atom with the first that does. Where there is none, the number of rules.
pub(crate) fn other_side_of(rules: &[CountRule]) -> usize {
    let Some(first) = rules.iter().position(|rule| rule.lo > 0) else {
        return rules.len();
    };
    for place in first + 1..rules.len() {
        if rules[place].lo > 0 && share_an_atom(&rules[first], &rules[place]) {
            return place;
        }
    }
    rules.len()
}

/// Whether an atom is in both rules.
fn share_an_atom(one: &CountRule, other: &CountRule) -> bool {
    let lits = other.lits.as_slice();
    let is_shared = |lit: &Lit| lits.iter().any(|twin| twin.atom == lit.atom);
    one.lits.as_slice().iter().any(is_shared)
}

/// Whether fewer of the rule's literals are true than must be.
fn is_open(values: &[Option<bool>], rule: &CountRule) -> bool {
    rule.lo > 0 && true_number(values, rule.lits.as_slice()) < rule.lo as usize
}

fn true_number(values: &[Option<bool>], lits: &[Lit]) -> usize {
    lits.iter().filter(|lit| is_true(values, **lit)).count()
}

fn is_true(values: &[Option<bool>], lit: Lit) -> bool {
    let place = lit.atom.0 as usize;
    place < values.len() && values[place] == Some(lit.positive)
}
