ghost use Rattle.std.specs.Prelude.{◌≡◌, [], true, IfOk};
ghost use Rattle.std.specs.Arc.{arc_value};
ghost use Rattle.count_core.specs.Problems.{are_within};

use crate::{Counts, Outcome, Session, solve};
use count_core::{
    Atom, CountRule, Hint, Lit, Lits, Problem, Question, SharedProblem, are_distinct,
};
use refutations::ProofLog;
use samples::CLASH;
use std::alloc::Global;
use std::sync::Arc;
use std::test::Fail;

/// Atoms of which from so many to so many are true.
type Row<'a> = (&'a [u32], u32, u32);

/// A literal: its atom, and whether it is positive.
type Sign = (u32, bool);

/// Whether an answer is Possible, how many steps it holds, how many second sides were opened, and
/// what the session has done so far.
type Report = (bool, usize, u64, Counts);

/// The first team is not in the first group.
const NOT_0: [Lit; 1] = [Lit {
    atom: Atom(0),
    positive: false,
}];

const NOT_0_HINTS: [Hint; 2] = [Hint::Rule(8), Hint::Rule(5)];

/// The first team is in the first group, and the second is not in the second.
const APART: [Sign; 2] = [(0, true), (3, false)];

fn lit_of(sign: Sign) -> Lit {
    Lit {
        atom: Atom(sign.0),
        positive: sign.1,
    }
}

/// The rule that from `lo` to `hi` of the atoms are true.
fn rule_of(alloc: Global, atoms: &[u32], lo: u32, hi: u32) -> Result<CountRule, Fail> {
    let mut lits = Vec::new(alloc);
    for atom in atoms {
        lits.push(lit_of((*atom, true)))?;
    }
    let lits = Lits::new(lits);
    Ok(CountRule { lits, lo, hi })
}

fn shared(alloc: Global, atoms: u32, rules: Vec<CountRule>) -> Result<SharedProblem, Fail>
    ensures { IfOk result (λ p. (arc_value p).atoms ≡ atoms) }
{
    if rules.len() > 1000 {
        return Err("too many rules".into());
    }
    let Ok(problem) = Problem::build(alloc, atoms, rules) else {
        return Err("no problem".into());
    };
    Ok(Arc::new(alloc, problem)?)
}

/// The problem of the rows over so many atoms, with each atom of a row raised by so much.
fn raised(alloc: Global, rows: &[Row<'_>], by: u32, atoms: u32) -> Result<SharedProblem, Fail>
    ensures { IfOk result (λ p. (arc_value p).atoms ≡ atoms) }
{
    let mut rules = Vec::new(alloc);
    for (row, lo, hi) in rows {
        let mut raised = Vec::new(alloc);
        for atom in *row {
            raised.push(atom.wrapping_add(by))?;
        }
        rules.push(rule_of(alloc, raised.as_slice(), *lo, *hi)?)?;
    }
    shared(alloc, atoms, rules)
}

/// The rule that from `lo` to 1 of so many atoms are true: of the first, and each `step` further on.
fn line_of(alloc: Global, first: u32, step: u32, number: u32, lo: u32) -> Result<CountRule, Fail> {
    let mut line = Vec::new(alloc);
    for place in 0..number {
        line.push(first.wrapping_add(place.wrapping_mul(step)))?;
    }
    rule_of(alloc, line.as_slice(), lo, 1)
}

/// Each pigeon is in one hole, and in a hole is at most one pigeon. There is one hole fewer.
fn pigeonholes(alloc: Global, pigeons: u32) -> Result<SharedProblem, Fail> {
    let holes = pigeons.saturating_sub(1);
    let mut rules = Vec::new(alloc);
    for pigeon in 0..pigeons {
        rules.push(line_of(alloc, pigeon.wrapping_mul(holes), 1, holes, 1)?)?;
    }
    for hole in 0..holes {
        rules.push(line_of(alloc, hole, holes, pigeons, 0)?)?;
    }
    shared(alloc, pigeons.wrapping_mul(holes), rules)
}

/// A pairing of 20 runners-up and 20 winners. So many of the runners-up may meet only the last
/// winners, one fewer, and none meets the winner of its own number. Place p of each pot has the team
/// with the number p * `stride` modulo 20: with stride 1 the file has them in their order.
fn hall_set(alloc: Global, few: u32, stride: u32) -> Result<SharedProblem, Fail> {
    let mut rules = Vec::new(alloc);
    for runner_up in 0..20u32 {
        rules.push(line_of(alloc, runner_up.wrapping_mul(20), 1, 20, 1)?)?;
    }
    for winner in 0..20u32 {
        rules.push(line_of(alloc, winner, 20, 20, 1)?)?;
    }
    for atom in 0..400u32 {
        let runner_up = (atom / 20).wrapping_mul(stride) % 20;
        let winner = (atom % 20).wrapping_mul(stride) % 20;
        if runner_up == winner || (runner_up < few && winner.wrapping_add(few) <= 20) {
            rules.push(rule_of(alloc, &[atom], 0, 0)?)?;
        }
    }
    shared(alloc, 400, rules)
}

/// Whether each literal is over one of so many atoms.
fn within(atoms: u32, lits: &[Lit]) -> bool
    ensures { result ≡ are_within atoms lits.now }
{
    lits.iter().all(|lit| lit.atom.0 < atoms)
}

/// The question of these literals, which are over different ones of so many atoms.
fn question_of(alloc: Global, atoms: u32, signs: &[Sign]) -> Result<Question, Fail>
    ensures { IfOk result (λ q. are_within atoms q ≡ true) }
{
    let mut lits = Vec::new(alloc);
    for sign in signs {
        lits.push(lit_of(*sign))?;
    }
    if !are_distinct(lits.as_slice()) || !within(atoms, lits.as_slice()) {
        return Err("no question".into());
    }
    Ok(Question::new(Lits::new(lits)))
}

/// The question without literals.
fn nothing(alloc: Global) -> Question
    ensures { result ≡ [] }
{
    Question::new(Lits::new(Vec::new(alloc)))
}

/// Asks the question, and reports the answer.
fn ask(alloc: Global, session: &mut Session, question: &Question) -> Result<Report, Fail>
    requires { are_within session.old.problem.atoms question.now ≡ true }
    ensures { session.new.problem ≡ session.old.problem }
{
    let answer = solve(alloc, question, session)?;
    let (possible, steps) = match answer.outcome() {
        Outcome::Possible { .. } => (true, 0),
        Outcome::Impossible { closed } => (false, closed.steps().len()),
    };
    Ok((possible, steps, session.opened(), session.counts()))
}

/// Asks one question of a new session.
fn first_report(
    alloc: Global,
    problem: SharedProblem,
    atoms: u32,
    signs: &[Sign],
) -> Result<Report, Fail>
    requires { (arc_value problem).atoms ≡ atoms }
{
    let question = question_of(alloc, atoms, signs)?;
    let mut session = Session::new(alloc, problem)?;
    ask(alloc, &mut session, &question)
}

/// Learns that the first team is not in the first group.
fn learn_not_0(alloc: Global, session: &mut Session, problem: SharedProblem) -> Result<(), Fail>
    requires { arc_value problem ≡ session.old.problem }
    ensures { session.new.problem ≡ session.old.problem }
{
    let mut log = ProofLog::new(alloc, problem);
    let Ok(step) = log.add(alloc, &NOT_0, &NOT_0_HINTS) else {
        return Err("not accepted".into());
    };
    let lemma = log.lemma(alloc, step)?;
    session.import(alloc, &lemma)?;
    Ok(())
}

/// Learns that the first team is not in the first group before it asks the empty question.
fn report_with_lemma(alloc: Global) -> Result<Report, Fail> {
    let problem = raised(alloc, &CLASH, 0, 8)?;
    let mut session = Session::new(alloc, Arc::try_clone(&problem)?)?;
    learn_not_0(alloc, &mut session, problem)?;
    ask(alloc, &mut session, &nothing(alloc))
}

/// Asks two questions in turn, one of them twice.
fn ask_in_turn(
    alloc: Global,
    session: &mut Session,
    one: &Question,
    other: &Question,
) -> Result<(Report, Report, Report), Fail>
    requires one { are_within session.old.problem.atoms one.now ≡ true }
    requires other { are_within session.old.problem.atoms other.now ≡ true }
{
    let first = ask(alloc, session, one)?;
    let second = ask(alloc, session, other)?;
    let third = ask(alloc, session, one)?;
    Ok((first, second, third))
}

/// Asks two questions in turn, one of them twice, of one session.
fn reports_in_turn(alloc: Global) -> Result<(Report, Report, Report), Fail> {
    let apart = question_of(alloc, 8, &APART)?;
    let mut session = Session::new(alloc, raised(alloc, &CLASH[..8], 0, 8)?)?;
    ask_in_turn(alloc, &mut session, &apart, &nothing(alloc))
}

/// Asks the empty question of a new session.
fn empty_report(alloc: Global, problem: SharedProblem) -> Result<Report, Fail> {
    let mut session = Session::new(alloc, problem)?;
    ask(alloc, &mut session, &nothing(alloc))
}

#[test]
fn clash_is_impossible_by_its_last_rules(rt: HostRuntime) -> Result<(), Fail> {
    let alloc = rt.alloc();
    let all = first_report(alloc, raised(alloc, &CLASH, 0, 8)?, 8, &[])?;
    let but_two = first_report(alloc, raised(alloc, &CLASH[..8], 0, 8)?, 8, &[])?;
    assert_eq!(rt; (all.0, all.1), (false, 2));
    assert_eq!(rt; (but_two.0, but_two.1), (true, 0));
    Ok(())
}

/// The first 20 atoms are in no rule. Each value of a later one leads to a conflict by propagation.
#[test]
fn sibling_not_opened(rt: HostRuntime) -> Result<(), Fail> {
    let alloc = rt.alloc();
    let (possible, _steps, opened, _counts) = first_report(
        alloc,
        raised(alloc, &CLASH, 20, 28)?,
        28,
        &[],
    )?;
    assert!(rt; !possible && opened <= 1);
    Ok(())
}

#[test]
fn questions_in_turn(rt: HostRuntime) -> Result<(), Fail> {
    let alloc = rt.alloc();
    let (first, second, third) = reports_in_turn(alloc)?;
    assert_eq!(rt; (first.0, second.0, third.0), (false, true, false));
    assert_eq!(rt; (first.1, third.1), (1, 1));
    Ok(())
}

#[test]
fn a_lemma_is_learnt(rt: HostRuntime) -> Result<(), Fail> {
    let alloc = rt.alloc();
    let (possible, _steps, _opened, counts) = report_with_lemma(alloc)?;
    assert!(rt; !possible && counts.decisions == 0 && counts.conflicts == 1);
    Ok(())
}

/// For k pigeons a refutation has (k - 3) * 2^(k - 2) + 2 steps, one a conflict. The analysis is
/// accepted each time.
#[test]
fn pigeons(rt: HostRuntime) -> Result<(), Fail> {
    let alloc = rt.alloc();
    for (pigeons, steps) in [(6, 50), (10, 1794)] {
        let (possible, number, _opened, counts) = empty_report(
            alloc,
            pigeonholes(alloc, pigeons)?,
        )?;
        assert_eq!(rt; (possible, number), (false, steps));
        assert_eq!(rt; (counts.conflicts, counts.fallbacks), (steps as u64, 0));
    }
    Ok(())
}

/// A Hall set of k runners-up has the same refutation as k pigeons. It leaves 21 - k winners to one
/// runner-up fewer, and so one of 21 - k has it too. It takes at most twice as many conflicts, in
/// whatever order the teams stand in the file.
#[test]
fn hall_sets(rt: HostRuntime) -> Result<(), Fail> {
    let alloc = rt.alloc();
    for (few, stride, steps) in [
        (3, 1, 2),
        (6, 1, 50),
        (10, 1, 1794),
        (11, 1, 1794),
        (15, 1, 50),
        (18, 1, 2),
        (10, 7, 1794),
        (11, 13, 1794),
    ] {
        let problem = hall_set(alloc, few, stride)?;
        let (possible, number, _opened, counts) = empty_report(alloc, problem)?;
        assert_eq!(rt; (possible, number), (false, steps));
        assert!(rt; counts.conflicts <= 2 * steps as u64 && counts.fallbacks == 0);
    }
    Ok(())
}
