ghost use Rattle.std.specs.Prelude.{◌≡◌, ◌<◌, ◌++◌, length, map, IfOk, OnOk};
ghost use Rattle.team_files.specs.declared.kind.Kind.{Kind};
ghost use Rattle.count_core.specs.Problems.{IsWellFormed};
ghost use Rattle.draw_tables.specs.Pots.{AreTeamsOf, groups_of, holds, pots_of, teams_with};
ghost use Rattle.group_draw.specs.Encoding.{HasAtoms, IsPairOf, all_rules, between, limit_rule, limit_rules, pair_rule, pair_rules, place_rules, pot_rule, pot_rules, rules_of, team_rule, team_rules};

use crate::NoMemory;
use crate::atoms::{form_of, group_lit};
use crate::correspondence::law_rules_and_questions_are_formed;
use count_core::{CountRule, Lits, Problem};
use draw_tables::teams_of_pot;
use rule_sets::{DrawFile, Pair};
use std::alloc::Global;
use team_files::{Tag, Team, TeamId};

/// The count problem of a group draw's file (this project's own numbering). Teams are counted from 0
/// in file order, groups from 0; with g groups, the atom of team i and group k is `i * g + k`. The
/// rules, in this order: for each team, one of its atoms is true; for each group and each pot, one
/// of the pot's teams stands there; for each group and each limit, from its `lo` to its `hi` teams
/// with the tag; for each forbidden pair and each group, at most one of the two; for each fixed
/// place, its team stands in its group.
pub fn encode(alloc: Global, file: &DrawFile) -> Result<Problem, NoMemory>
    requires kind { file.now.kind ≡ Kind.Group }
    ensures { IfOk result (λ p. p ≡ rules_of file.now) }
{
    form_of(file);
    law_rules_and_questions_are_formed();
    let rules = all_rules(alloc, file)?;
    problem_of(alloc, file.teams().number() * file.groups(), rules)
}

/// The problem of rules that are well formed.
fn problem_of(alloc: Global, atoms: u32, rules: Vec<CountRule>) -> Result<Problem, NoMemory>
    requires formed { IsWellFormed (record { atoms = atoms; rules = rules.items }) }
    ensures { IfOk result (λ p. p ≡ record { atoms = atoms; rules = rules.items }) }
{
    match Problem::build(alloc, atoms, rules) {
        Ok(problem) => Ok(problem),
        Err(_) => Err(NoMemory),
    }
}

/// All rules, in the order of their kinds.
fn all_rules(alloc: Global, file: &DrawFile) -> Result<Vec<CountRule>, NoMemory>
    requires atoms { HasAtoms file.now }
    ensures { IfOk result (λ rules. rules.items ≡ all_rules file.now) }
{
    let mut rules = Vec::new(alloc);
    add_team_rules(alloc, &mut rules, file)?;
    add_pot_rules(alloc, &mut rules, file)?;
    add_limit_rules(alloc, &mut rules, file)?;
    add_pair_rules(alloc, &mut rules, file)?;
    add_place_rules(alloc, &mut rules, file)?;
    Ok(rules)
}

/// The rule that from `lo` to `hi` of the teams stand in the group.
fn between(
    alloc: Global,
    lo: u32,
    hi: u32,
    file: &DrawFile,
    group: u32,
    teams: &[TeamId],
) -> Result<CountRule, NoMemory>
    requires atoms { HasAtoms file.now }
    requires group { group < file.now.groups }
    requires teams { AreTeamsOf file.now teams.now }
    ensures { IfOk result (λ rule. rule ≡ between lo hi file.now group teams.now) }
{
    let mut lits = Vec::new(alloc);
    for team in teams {
        lits.push(group_lit(file, group, *team))?;
    }
    Ok(CountRule {
        lits: Lits::new(lits),
        lo,
        hi,
    })
}

/// Adds for each team the rule that it stands in one group.
fn add_team_rules(
    alloc: Global,
    rules: &mut Vec<CountRule>,
    file: &DrawFile,
) -> Result<(), NoMemory>
    requires atoms { HasAtoms file.now }
    ensures { OnOk result (rules.new.items ≡ rules.old.items ++ team_rules file.now) }
{
    for place in 0..file.teams().number() {
        rules.push(team_rule(alloc, file, place)?)?;
    }
    Ok(())
}

/// The rule that the team at a place stands in one group.
fn team_rule(alloc: Global, file: &DrawFile, place: u32) -> Result<CountRule, NoMemory>
    requires atoms { HasAtoms file.now }
    requires place { place < length file.now.teams }
    ensures { IfOk result (λ rule. rule ≡ team_rule file.now place) }
{
    let mut lits = Vec::new(alloc);
    for group in 0..file.groups() {
        lits.push(group_lit(file, group, TeamId(place)))?;
    }
    Ok(CountRule {
        lits: Lits::new(lits),
        lo: 1,
        hi: 1,
    })
}

/// Adds for each group and each pot the rule that one of the pot's teams stands there.
fn add_pot_rules(alloc: Global, rules: &mut Vec<CountRule>, file: &DrawFile) -> Result<(), NoMemory>
    requires atoms { HasAtoms file.now }
    ensures { OnOk result (rules.new.items ≡ rules.old.items ++ pot_rules file.now) }
{
    for group in 0..file.groups() {
        add_pots_of_group(alloc, rules, file, group)?;
    }
    Ok(())
}

/// Adds for each pot the rule that one of its teams stands in the group.
fn add_pots_of_group(
    alloc: Global,
    rules: &mut Vec<CountRule>,
    file: &DrawFile,
    group: u32,
) -> Result<(), NoMemory>
    requires atoms { HasAtoms file.now }
    requires group { group < file.now.groups }
    ensures { OnOk result
        (rules.new.items ≡ rules.old.items ++ map (pot_rule file.now group) (pots_of file.now)) }
{
    for place in 0..file.pots() {
        let teams = teams_of_pot(alloc, file, place + 1)?;
        rules.push(between(alloc, 1, 1, file, group, &teams)?)?;
    }
    Ok(())
}

/// Adds for each group and each limit the rule that the group keeps the limit.
fn add_limit_rules(
    alloc: Global,
    rules: &mut Vec<CountRule>,
    file: &DrawFile,
) -> Result<(), NoMemory>
    requires atoms { HasAtoms file.now }
    ensures { OnOk result (rules.new.items ≡ rules.old.items ++ limit_rules file.now) }
{
    for group in 0..file.groups() {
        add_limits_of_group(alloc, rules, file, group)?;
    }
    Ok(())
}

/// Adds for each limit the rule that the group keeps it.
fn add_limits_of_group(
    alloc: Global,
    rules: &mut Vec<CountRule>,
    file: &DrawFile,
    group: u32,
) -> Result<(), NoMemory>
    requires atoms { HasAtoms file.now }
    requires group { group < file.now.groups }
    ensures { OnOk result
        (rules.new.items ≡ rules.old.items ++ map (limit_rule file.now group) file.now.limits) }
{
    for limit in file.limits() {
        let teams = teams_with(alloc, file, &limit.tag)?;
        rules.push(between(alloc, limit.lo, limit.hi, file, group, &teams)?)?;
    }
    Ok(())
}

/// The teams that hold a tag, in file order. A team may hold two tags.
fn teams_with(alloc: Global, file: &DrawFile, tag: &Tag) -> Result<Vec<TeamId>, NoMemory>
    ensures teams { IfOk result (λ teams. teams.items ≡ teams_with tag.now file.now) }
    ensures within { IfOk result (λ teams. AreTeamsOf file.now teams.items) }
{
    let teams = file.teams();
    let mut found = Vec::new(alloc);
    for place in 0..teams.number() {
        if !holds(teams.get(TeamId(place)), tag) {
            continue;
        }
        found.push(TeamId(place))?;
    }
    Ok(found)
}

/// Whether the team holds the tag.
fn holds(team: &Team, tag: &Tag) -> bool
    ensures { result ≡ holds tag.now team.now }
{
    team.tags
        .as_slice()
        .iter()
        .any(|other| tag.bytes() == other.bytes())
}

/// Adds for each forbidden pair and each group the rule that the group has at most one of the two.
fn add_pair_rules(
    alloc: Global,
    rules: &mut Vec<CountRule>,
    file: &DrawFile,
) -> Result<(), NoMemory>
    requires atoms { HasAtoms file.now }
    ensures { OnOk result (rules.new.items ≡ rules.old.items ++ pair_rules file.now) }
{
    for pair in file.pairs() {
        add_groups_of_pair(alloc, rules, file, *pair)?;
    }
    Ok(())
}

/// Adds for each group the rule that it has at most one of the pair's teams.
fn add_groups_of_pair(
    alloc: Global,
    rules: &mut Vec<CountRule>,
    file: &DrawFile,
    pair: Pair,
) -> Result<(), NoMemory>
    requires atoms { HasAtoms file.now }
    requires pair { IsPairOf file.now pair }
    ensures { OnOk result
        (rules.new.items ≡ rules.old.items ++ map (pair_rule file.now pair) (groups_of file.now)) }
{
    for group in 0..file.groups() {
        rules.push(between(alloc, 0, 1, file, group, &[pair.first, pair.second])?)?;
    }
    Ok(())
}

/// Adds for each fixed place the rule that its team stands in its group.
fn add_place_rules(
    alloc: Global,
    rules: &mut Vec<CountRule>,
    file: &DrawFile,
) -> Result<(), NoMemory>
    requires atoms { HasAtoms file.now }
    ensures { OnOk result (rules.new.items ≡ rules.old.items ++ place_rules file.now) }
{
    for place in file.places() {
        rules.push(between(alloc, 1, 1, file, place.group, &[place.team])?)?;
    }
    Ok(())
}
