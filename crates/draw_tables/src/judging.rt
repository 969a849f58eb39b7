ghost use Rattle.std.specs.Prelude.{◌≡◌, ◌↔◌, ◌<◌, ◌^◌, length};
ghost use Rattle.rule_sets.specs.Files.{IsWellFormed};
ghost use Rattle.rule_sets.specs.Forms.{HasForm};
ghost use Rattle.draw_tables.specs.Pots.{AreTeamsOf, runners_up, winners};
ghost use Rattle.draw_tables.specs.Pairings.{breaks};
ghost use Rattle.draw_tables.specs.Passes.{IsJudgement, first_not_once, first_pair};
ghost use Rattle.draw_tables.specs.Tables.{IsLegal, IsPairTableOf, IsTableOf};
ghost use Rattle.draw_tables.specs.Verdicts.{NamesFirstBroken, times_given};

use crate::group_judging::judge_groups;
use crate::pair_rule::PairRule;
use crate::rules::breaks;
use crate::table::Table;
use crate::verdict::Verdict;
use rule_sets::{DrawFile, law_files_have_form};
use team_files::TeamId;

/// What the rules of the draw say of a table: that it is legal, or the first case of the first rule
/// that it breaks.
pub fn judge(file: &DrawFile, table: &Table) -> Verdict
    requires { IsTableOf file.now table.now }
    ensures legal { (result ≡ Verdict.Legal) ↔ IsLegal file.now table.now }
    ensures broken { NamesFirstBroken file.now table.now result }
{
    match table {
        Table::Group(groups) => judge_groups(file, groups.places()),
        Table::Pairs(pairs) => judge_pairing(file, pairs.winners()),
    }
}

/// What the rules of a pairing say of the table that gives these winners.
fn judge_pairing(file: &DrawFile, winners: &[TeamId]) -> Verdict
    requires { IsPairTableOf file.now winners.now }
    ensures { IsJudgement file.now (Table.Pairs (record { winners = winners.now })) result }
{
    expect_form(file);
    if let Some(found) = first_not_once(file, winners) {
        return Verdict::Broken {
            rule: 1,
            first: found.0.0,
            second: found.1,
        };
    }
    if let Some(pair) = first_pair(file, winners, PairRule::Letters) {
        return broken_pair(2, pair);
    }
    if let Some(pair) = first_pair(file, winners, PairRule::Tags) {
        return broken_pair(3, pair);
    }
    if let Some(pair) = first_pair(file, winners, PairRule::Forbidden) {
        return broken_pair(4, pair);
    }
    Verdict::Legal
}

/// What the type of a file says of its form, for the bounds in what follows. It does nothing.
pub(crate) fn expect_form(file: &DrawFile)
    ensures formed { IsWellFormed file.now }
    ensures form { HasForm file.now }
{
    file.kind();
    law_files_have_form();
}

/// That a runner-up and its winner break a rule.
fn broken_pair(rule: u32, pair: (TeamId, TeamId)) -> Verdict
    ensures { result ≡ Verdict.Broken rule (pair.0).0 (pair.1).0 }
{
    Verdict::Broken {
        rule,
        first: pair.0.0,
        second: pair.1.0,
    }
}

/// The first winner that is not given exactly once, with how often it is given.
fn first_not_once(file: &DrawFile, given: &[TeamId]) -> Option<(TeamId, u32)>
    requires { length given.now < 2 ^ 32 }
    ensures { result ≡ first_not_once given.now (winners file.now) }
{
    let teams = file.teams();
    for place in 0..teams.number() {
        let winner = TeamId(place);
        if teams.get(winner).pot != 1 {
            continue;
        }
        let times = times_given(given, winner);
        if times != 1 {
            return Some((winner, times));
        }
    }
    None
}

/// How often a team is given.
fn times_given(given: &[TeamId], team: TeamId) -> u32
    requires { length given.now < 2 ^ 32 }
    ensures { result ≡ times_given team given.now }
{
    given.iter().filter(|other| **other == team).count() as u32
}

/// The first runner-up that breaks a rule with its winner, and the winner.
fn first_pair(file: &DrawFile, given: &[TeamId], rule: PairRule) -> Option<(TeamId, TeamId)>
    requires { AreTeamsOf file.now given.now }
    ensures { result ≡ first_pair (breaks file.now rule) (runners_up file.now) given.now }
{
    let teams = file.teams();
    let mut rest = given;
    for place in 0..teams.number() {
        let runner = TeamId(place);
        if teams.get(runner).pot != 2 {
            continue;
        }
        let Some((winner, others)) = rest.split_first() else {
            return None;
        };
        if breaks(file, rule, runner, *winner) {
            return Some((runner, *winner));
        }
        rest = others;
    }
    None
}
