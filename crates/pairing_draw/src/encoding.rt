ghost use Rattle.std.specs.Prelude.{◌≡◌, ◌≤◌, ◌<◌, ◌++◌, length, IfOk, OnOk};
ghost use Rattle.team_files.specs.Heads.{most_teams};
ghost use Rattle.count_core.specs.Problems.{IsWellFormed};
ghost use Rattle.draw_tables.specs.Pots.{AreTeamsOf};
ghost use Rattle.pairing_draw.specs.Encoding.{ban_rules, bans_of, column_rule, column_rules, exactly_one, never, pair_lit, problem_between, row_rule, row_rules, rules_of};

use crate::NoMemory;
use crate::atoms::pair_lit;
use crate::correspondence::law_rules_and_questions_are_formed;
use crate::pots::pot_of;
use count_core::{CountRule, Lit, Lits, Problem};
use draw_tables::may_meet;
use rule_sets::DrawFile;
use std::alloc::Global;
use team_files::{Kind, TeamId};

/// The count problem of a pairing file (this project's own numbering). Runners-up and winners are
/// counted from 0, each in the file order of their pot; with n winners, the atom of runner-up r and
/// winner w is `r * n + w`. The rules, in this order: for each runner-up, one of its atoms is true;
/// for each winner, one of its atoms is true; for each runner-up and each winner that it may not
/// meet, their atom is not true.
pub fn encode(alloc: Global, file: &DrawFile) -> Result<Problem, NoMemory>
    requires kind { file.now.kind ≡ Kind.Pairing }
    ensures { IfOk result (λ p. p ≡ rules_of file.now) }
{
    let winners = pot_of(alloc, file, 1)?;
    let runners = pot_of(alloc, file, 2)?;
    law_rules_and_questions_are_formed();
    problem_between(alloc, file, &runners, &winners)
}

/// The problem of runners-up and winners.
fn problem_between(
    alloc: Global,
    file: &DrawFile,
    runners: &[TeamId],
    winners: &[TeamId],
) -> Result<Problem, NoMemory>
    requires few_runners { length runners.now ≤ most_teams }
    requires few_winners { length winners.now ≤ most_teams }
    requires runners { AreTeamsOf file.now runners.now }
    requires winners { AreTeamsOf file.now winners.now }
    requires formed { IsWellFormed (problem_between file.now runners.now winners.now) }
    ensures { IfOk result (λ problem. problem ≡ problem_between file.now runners.now winners.now) }
{
    let mut rules = Vec::new(alloc);
    add_rows(alloc, &mut rules, runners.len(), winners.len())?;
    add_columns(alloc, &mut rules, runners.len(), winners.len())?;
    add_bans(alloc, &mut rules, file, runners, winners)?;
    problem_of(alloc, (runners.len() * winners.len()) as u32, rules)
}

/// The problem of rules that are well formed.
fn problem_of(alloc: Global, atoms: u32, rules: Vec<CountRule>) -> Result<Problem, NoMemory>
    requires formed { IsWellFormed (record { atoms = atoms; rules = rules.items }) }
    ensures { IfOk result (λ p. p ≡ record { atoms = atoms; rules = rules.items }) }
{
    match Problem::build(alloc, atoms, rules) {
        Ok(problem) => Ok(problem),
        Err(_) => Err(NoMemory),
    }
}

/// The rule that exactly one of the literals is true.
fn exactly_one(lits: Vec<Lit>) -> CountRule
    ensures { result ≡ exactly_one lits.items }
{
    CountRule {
        lits: Lits::new(lits),
        lo: 1,
        hi: 1,
    }
}

/// Adds for each runner-up the rule that it gets one winner.
fn add_rows(
    alloc: Global,
    rules: &mut Vec<CountRule>,
    runners: usize,
    winners: usize,
) -> Result<(), NoMemory>
    requires runners { runners ≤ most_teams }
    requires winners { winners ≤ most_teams }
    ensures { OnOk result (rules.new.items ≡ rules.old.items ++ row_rules runners winners) }
{
    for runner in 0..runners {
        rules.push(row_rule(alloc, winners, runner)?)?;
    }
    Ok(())
}

/// The rule that a runner-up gets one winner.
#[tactic(auto, using(crate::proofs::AtomNumbers::numbers_more))]
fn row_rule(alloc: Global, winners: usize, runner: usize) -> Result<CountRule, NoMemory>
    requires winners { winners ≤ most_teams }
    requires runner { runner ≤ most_teams }
    ensures { IfOk result (λ rule. rule ≡ row_rule winners runner) }
{
    let mut lits = Vec::new(alloc);
    for winner in 0..winners {
        lits.push(pair_lit(winners, runner, winner))?;
    }
    Ok(exactly_one(lits))
}

/// Adds for each winner the rule that it is given to one runner-up.
fn add_columns(
    alloc: Global,
    rules: &mut Vec<CountRule>,
    runners: usize,
    winners: usize,
) -> Result<(), NoMemory>
    requires runners { runners ≤ most_teams }
    requires winners { winners ≤ most_teams }
    ensures { OnOk result (rules.new.items ≡ rules.old.items ++ column_rules runners winners) }
{
    for winner in 0..winners {
        rules.push(column_rule(alloc, runners, winners, winner)?)?;
    }
    Ok(())
}

/// The rule that a winner is given to one runner-up.
#[tactic(auto, using(crate::proofs::AtomNumbers::numbers_more))]
fn column_rule(
    alloc: Global,
    runners: usize,
    winners: usize,
    winner: usize,
) -> Result<CountRule, NoMemory>
    requires runners { runners ≤ most_teams }
    requires winners { winners ≤ most_teams }
    requires winner { winner ≤ most_teams }
    ensures { IfOk result (λ rule. rule ≡ column_rule runners winners winner) }
{
    let mut lits = Vec::new(alloc);
    for runner in 0..runners {
        lits.push(pair_lit(winners, runner, winner))?;
    }
    Ok(exactly_one(lits))
}

/// Adds for each runner-up, and each winner that it may not meet, the rule that it does not get it.
fn add_bans(
    alloc: Global,
    rules: &mut Vec<CountRule>,
    file: &DrawFile,
    runners: &[TeamId],
    winners: &[TeamId],
) -> Result<(), NoMemory>
    requires few_runners { length runners.now ≤ most_teams }
    requires few_winners { length winners.now ≤ most_teams }
    requires runners { AreTeamsOf file.now runners.now }
    requires winners { AreTeamsOf file.now winners.now }
    ensures { OnOk result
        (rules.new.items ≡ rules.old.items ++ ban_rules file.now runners.now winners.now) }
{
    for (place, runner) in runners.iter().enumerate() {
        add_bans_of(alloc, rules, file, place, *runner, winners)?;
    }
    Ok(())
}

/// Adds for each winner that the runner-up may not meet the rule that it does not get it.
fn add_bans_of(
    alloc: Global,
    rules: &mut Vec<CountRule>,
    file: &DrawFile,
    place: usize,
    runner: TeamId,
    winners: &[TeamId],
) -> Result<(), NoMemory>
    requires few { length winners.now ≤ most_teams }
    requires place { place ≤ most_teams }
    requires runner { runner.0 < length file.now.teams }
    requires winners { AreTeamsOf file.now winners.now }
    ensures { OnOk result
        (rules.new.items ≡ rules.old.items ++ bans_of file.now winners.now (place, runner)) }
{
    for (other, winner) in winners.iter().enumerate() {
        if may_meet(file, runner, *winner) {
            continue;
        }
        rules.push(never(alloc, winners.len(), place, other)?)?;
    }
    Ok(())
}

/// The rule that a runner-up does not get a winner.
fn never(alloc: Global, winners: usize, runner: usize, winner: usize) -> Result<CountRule, NoMemory>
    requires winners { winners ≤ most_teams }
    requires runner { runner ≤ most_teams }
    requires winner { winner ≤ most_teams }
    ensures { IfOk result (λ rule. rule ≡ never (pair_lit winners runner winner)) }
{
    let mut lits = Vec::new(alloc);
    lits.push(pair_lit(winners, runner, winner))?;
    Ok(CountRule {
        lits: Lits::new(lits),
        lo: 0,
        hi: 0,
    })
}
