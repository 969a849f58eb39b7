ghost use Rattle.std.specs.Prelude.{◌≡◌, ◌<◌, ◌++◌, ◌∷◌, [], length, map, OnOk, IfOk, IfSome};
ghost use Rattle.count_core.specs.Limits.{number_limit};
ghost use Rattle.count_core.specs.Clash.{clash, yes_of};
ghost use Rattle.count_core.specs.Problems.{problem_of};
ghost use Rattle.propagation.specs.Engines.{HasRoom, OnlyTrailDiffers};

use crate::{Engine, Found, NoMemory};
use count_core::{
    Atom, CountRule, Hint, Lit, Lits, Problem, SharedProblem, law_accepted_clauses_follow,
    law_clash_table,
};
use std::alloc::Global;

/// A literal: its atom, and whether it is positive.
type Sign = (u32, bool);

/// What is assumed, what propagation then finds, and the trail with its causes.
type Case = (&'static [Sign], Found, &'static [(Sign, Option<Hint>)]);

const CONFLICT: Found = Found::Conflict {
    cause: Hint::Rule(2),
};

/// Two pots of two teams in two groups, where the atom of team i in group k is 2 * i + k: each team
/// in one group, in each group one team of each pot. Rules 8 and 9, at most one team in each group,
/// are left out.
const POSSIBLE: [Case; 3] = [
    (&[], Found::Quiet, &[]),
    (
        &[(0, true)],
        Found::Quiet,
        &[
            ((0, true), None),
            ((1, false), Some(Hint::Rule(0))),
            ((2, false), Some(Hint::Rule(4))),
            ((3, true), Some(Hint::Rule(6))),
        ],
    ),
    (
        &[(7, false), (5, true)],
        Found::Quiet,
        &[
            ((7, false), None),
            ((5, true), None),
            ((6, true), Some(Hint::Rule(3))),
            ((4, false), Some(Hint::Rule(2))),
        ],
    ),
];

/// With rules 8 and 9.
const CLASH: [Case; 2] = [
    (&[], Found::Quiet, &[]),
    (
        &[(0, true)],
        CONFLICT,
        &[
            ((0, true), None),
            ((1, false), Some(Hint::Rule(0))),
            ((2, false), Some(Hint::Rule(4))),
            ((4, false), Some(Hint::Rule(8))),
            ((6, false), Some(Hint::Rule(8))),
            ((3, true), Some(Hint::Rule(6))),
            ((5, false), Some(Hint::Rule(9))),
            ((7, false), Some(Hint::Rule(9))),
        ],
    ),
];

/// And with the clause of step 7, that the first team is not in the first group.
const NOT_0: [Case; 1] = [(
    &[],
    CONFLICT,
    &[
        ((0, false), Some(Hint::Step(7))),
        ((1, true), Some(Hint::Rule(0))),
        ((2, true), Some(Hint::Rule(4))),
        ((4, false), Some(Hint::Rule(8))),
        ((6, false), Some(Hint::Rule(8))),
        ((3, false), Some(Hint::Rule(6))),
        ((5, false), Some(Hint::Rule(9))),
        ((7, false), Some(Hint::Rule(9))),
    ],
)];

fn lit_of(sign: Sign) -> Lit
    ensures atom { result.atom.0 ≡ sign.0 }
    ensures positive { result.positive ≡ sign.1 }
{
    Lit {
        atom: Atom(sign.0),
        positive: sign.1,
    }
}

/// Adds the rule that from `lo` to `hi` of the atoms are true.
fn push_rule(
    alloc: Global,
    rules: &mut Vec<CountRule>,
    atoms: &[u32],
    lo: u32,
    hi: u32,
) -> Result<(), NoMemory>
    ensures { OnOk result (rules.new.items
        ≡ rules.old.items ++ record { lits = map yes_of atoms.now; lo = lo; hi = hi } ∷ []) }
{
    let mut lits = Vec::new(alloc);
    for atom in atoms {
        lits.push(lit_of((*atom, true)))?;
    }
    let lits = Lits::new(lits);
    rules.push(CountRule { lits, lo, hi })?;
    Ok(())
}

fn clash_rules(alloc: Global) -> Result<Vec<CountRule>, NoMemory>
    ensures { IfOk result (λ v. v.items ≡ clash.rules) }
{
    let mut rules = Vec::new(alloc);
    push_rule(alloc, &mut rules, &[0, 1], 1, 1)?;
    push_rule(alloc, &mut rules, &[2, 3], 1, 1)?;
    push_rule(alloc, &mut rules, &[4, 5], 1, 1)?;
    push_rule(alloc, &mut rules, &[6, 7], 1, 1)?;
    push_rule(alloc, &mut rules, &[0, 2], 1, 1)?;
    push_rule(alloc, &mut rules, &[4, 6], 1, 1)?;
    push_rule(alloc, &mut rules, &[1, 3], 1, 1)?;
    push_rule(alloc, &mut rules, &[5, 7], 1, 1)?;
    push_rule(alloc, &mut rules, &[0, 2, 4, 6], 0, 1)?;
    push_rule(alloc, &mut rules, &[1, 3, 5, 7], 0, 1)?;
    Ok(rules)
}

/// An engine of eight atoms and these rules, with room.
fn engine_of(alloc: Global, rules: Vec<CountRule>) -> Option<Engine>
    requires few { length rules.items < number_limit }
    ensures problem { IfSome result (λ e. e.problem ≡ problem_of 8 rules.items) }
    ensures room { IfSome result (λ e. HasRoom e) }
{
    let problem = Problem::build(alloc, 8, rules).ok()?;
    let shared = SharedProblem::new(alloc, problem).ok()?;
    let mut engine = Engine::new(alloc, shared).ok()?;
    engine.reserve(alloc).ok()?;
    Some(engine)
}

/// Whether the trail is this one, with these causes.
fn has_trail(engine: &Engine, trail: &[(Sign, Option<Hint>)]) -> bool {
    let lits = engine.trail();
    if lits.len() != trail.len() {
        return false;
    }
    for k in 0..lits.len() {
        let (sign, cause) = trail[k];
        if lits[k] != lit_of(sign) || engine.cause_of(lits[k]) != cause {
            return false;
        }
    }
    true
}

/// Whether each literal could be assumed.
fn assume_all(engine: &mut Engine, signs: &[Sign]) -> bool
    requires atoms { engine.old.problem.atoms ≡ 8 }
    requires room { HasRoom engine.old }
    ensures kept { OnlyTrailDiffers engine.old engine.new }
{
    for sign in signs {
        if sign.0 >= 8 || !engine.assume(lit_of(*sign)) {
            return false;
        }
    }
    true
}

/// Whether the case comes out, twice, after which the engine goes back.
fn comes_out(engine: &mut Engine, case: Case) -> bool
    requires atoms { engine.old.problem.atoms ≡ 8 }
    requires room { HasRoom engine.old }
    ensures kept { OnlyTrailDiffers engine.old engine.new }
{
    let (assumed, found, trail) = case;
    let begin = engine.mark();
    let right = assume_all(engine, assumed)
        && engine.propagate() == found
        && engine.propagate() == found
        && has_trail(engine, trail);
    if begin.0 as usize <= engine.trail().len() {
        engine.back_to(begin);
    }
    right
}

fn come_out(engine: &mut Engine, cases: &[Case]) -> bool
    requires atoms { engine.old.problem.atoms ≡ 8 }
    requires room { HasRoom engine.old }
    ensures kept { OnlyTrailDiffers engine.old engine.new }
{
    for case in cases {
        if !comes_out(engine, *case) {
            return false;
        }
    }
    true
}

/// Whether the clause of step 7 could be added.
fn add_not_0(alloc: Global, engine: &mut Engine) -> bool
    requires problem { engine.old.problem ≡ clash }
    requires room { HasRoom engine.old }
    ensures problem { engine.new.problem ≡ clash }
    ensures room { HasRoom engine.new }
{
    law_clash_table();
    law_accepted_clauses_follow();
    engine.add_clause(alloc, &[lit_of((0, false))], 7).is_ok()
}

fn possible(alloc: Global) -> Option<bool> {
    let mut rules = clash_rules(alloc).ok()?;
    rules.truncate(8);
    let mut engine = engine_of(alloc, rules)?;
    Some(come_out(&mut engine, &POSSIBLE))
}

fn clashes(alloc: Global) -> Option<bool> {
    let rules = clash_rules(alloc).ok()?;
    let mut engine = engine_of(alloc, rules)?;
    let before = come_out(&mut engine, &CLASH);
    let added = add_not_0(alloc, &mut engine);
    Some(before && added && come_out(&mut engine, &NOT_0))
}

#[test]
fn forces_in_order(rt: HostRuntime) {
    assert!(rt; possible(rt.alloc()) == Some(true));
}

#[test]
fn conflicts_and_goes_on_with_a_clause(rt: HostRuntime) {
    assert!(rt; clashes(rt.alloc()) == Some(true));
}
