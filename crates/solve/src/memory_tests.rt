ghost use Rattle.std.specs.Prelude.{◌≡◌, true, IfOk};
ghost use Rattle.std.specs.Arc.{arc_value};
ghost use Rattle.count_core.specs.Problems.{are_within};

use count_core::{
    Atom, CountRule, Lit, Lits, NoMemory, Problem, Question, SharedProblem, are_distinct,
};
use samples::CLASH;
use serial_search::{Answer, Outcome, Session, solve};
use std::alloc::Global;
use std::sync::Arc;
use std::test::Fail;

/// A literal: its atom, and whether it is positive.
type Sign = (u32, bool);

/// The first team is in the first group, and the second is not in the second.
const APART: [Sign; 2] = [(0, true), (3, false)];

fn lits_of(alloc: Global, signs: &[Sign]) -> Result<Vec<Lit>, NoMemory> {
    let mut lits = Vec::new(alloc);
    for (atom, positive) in signs {
        let atom = Atom(*atom);
        let positive = *positive;
        lits.push(Lit { atom, positive })?;
    }
    Ok(lits)
}

/// The rule that from `lo` to `hi` of the atoms are true.
fn rule_of(alloc: Global, atoms: &[u32], lo: u32, hi: u32) -> Result<CountRule, NoMemory> {
    let mut signs = Vec::new(alloc);
    for atom in atoms {
        signs.push((*atom, true))?;
    }
    let lits = Lits::new(lits_of(alloc, signs.as_slice())?);
    Ok(CountRule { lits, lo, hi })
}

/// The problem of CLASH without its last two rules.
fn first_rules(alloc: Global) -> Result<SharedProblem, NoMemory>
    ensures { IfOk result (λ p. (arc_value p).atoms ≡ 8) }
{
    let mut rules = Vec::new(alloc);
    for (row, lo, hi) in &CLASH[..8] {
        rules.push(rule_of(alloc, row, *lo, *hi)?)?;
    }
    if rules.len() > 8 {
        return Err(NoMemory);
    }
    let Ok(problem) = Problem::build(alloc, 8, rules) else {
        return Err(NoMemory);
    };
    Ok(Arc::new(alloc, problem)?)
}

/// Whether each literal is over one of 8 atoms.
fn are_within_8(lits: &[Lit]) -> bool
    ensures { result ≡ are_within 8 lits.now }
{
    lits.iter().all(|lit| lit.atom.0 < 8)
}

/// The question of these literals, which are over different ones of 8 atoms.
fn question_of(alloc: Global, signs: &[Sign]) -> Result<Question, NoMemory>
    ensures { IfOk result (λ q. are_within 8 q ≡ true) }
{
    let lits = lits_of(alloc, signs)?;
    if !are_distinct(lits.as_slice()) || !are_within_8(lits.as_slice()) {
        return Err(NoMemory);
    }
    Ok(Question::new(Lits::new(lits)))
}

/// A session, and two questions of it.
fn session_and_questions(alloc: Global) -> Result<(Session, Question, Question), NoMemory>
    ensures { IfOk result (λ made. (made.0.problem.atoms ≡ 8)
        × (are_within 8 made.1 ≡ true) × (are_within 8 made.2 ≡ true)) }
{
    let apart = question_of(alloc, &APART)?;
    let empty = question_of(alloc, &[])?;
    let session = Session::new(alloc, first_rules(alloc)?)?;
    Ok((session, apart, empty))
}

fn is_possible(answer: &Answer) -> bool {
    matches!(answer.outcome(), Outcome::Possible { .. })
}

/// Asks the question, and where memory runs out asks it again. Whether the answer is Possible, and
/// how often memory ran out.
fn ask(alloc: Global, session: &mut Session, question: &Question) -> Result<(bool, u32), NoMemory>
    requires { are_within session.old.problem.atoms question.now ≡ true }
    ensures { session.new.problem ≡ session.old.problem }
{
    match solve(alloc, question, session) {
        Ok(answer) => Ok((is_possible(&answer), 0)),
        Err(_) => {
            let answer = solve(alloc, question, session)?;
            Ok((is_possible(&answer), 1))
        }
    }
}

/// Asks two questions in turn, one of them twice.
fn ask_in_turn(
    alloc: Global,
    session: &mut Session,
    one: &Question,
    other: &Question,
) -> Result<[(bool, u32); 3], NoMemory>
    requires one { are_within session.old.problem.atoms one.now ≡ true }
    requires other { are_within session.old.problem.atoms other.now ≡ true }
{
    let first = ask(alloc, session, one)?;
    let second = ask(alloc, session, other)?;
    let third = ask(alloc, session, one)?;
    Ok([first, second, third])
}

/// One allocation may fail: `checks/memory` has each fail in its turn.
#[test]
fn answers_go_on_after_want_of_memory(rt: HostRuntime) -> Result<(), Fail> {
    let alloc = rt.alloc();
    let (mut session, apart, empty) = match session_and_questions(alloc) {
        Ok(made) => made,
        Err(_) => session_and_questions(alloc)?,
    };
    let asked = ask_in_turn(alloc, &mut session, &apart, &empty);
    drop(session);
    drop(apart);
    drop(empty);
    let [first, second, third] = asked?;
    assert_eq!(rt; (first.0, second.0, third.0), (false, true, false));
    println!(rt; "memory ran out {} {} {}", first.1, second.1, third.1)?;
    Ok(())
}
