ghost use Rattle.std.specs.Prelude.{◌≡◌, ◌<◌, ◌^◌, length, MatchOption};
ghost use Rattle.draw_tables.specs.declared.table.Table.{Table};
ghost use Rattle.draw_tables.specs.GroupPasses.{GroupKeeps, GroupsKeep, IsFirstBreach, IsFirstNotKept, IsFirstNumber, IsFirstTogether, KeepsApart, KeepsPlaces, first_of, how_many};
ghost use Rattle.draw_tables.specs.Passes.{IsJudgement};
ghost use Rattle.draw_tables.specs.Tables.{IsGroupTableOf};

use crate::group_place::GroupPlace;
use crate::group_rule::GroupRule;
use crate::group_rules::{are_together, breaks_in, group_of, keeps_place};
use crate::judging::expect_form;
use crate::verdict::Verdict;
use rule_sets::DrawFile;

/// What the rules of a group draw say of the table with these places.
pub(crate) fn judge_groups(file: &DrawFile, places: &[GroupPlace]) -> Verdict
    requires { IsGroupTableOf file.now places.now }
    ensures { IsJudgement file.now (Table.Group (record { places = places.now })) result }
{
    expect_form(file);
    if let Some(number) = first_not_kept(file, places) {
        return broken_by(1, (number, 0));
    }
    if let Some(found) = first_breach(file, places, GroupRule::Pots) {
        return broken_by(2, found);
    }
    if let Some(found) = first_breach(file, places, GroupRule::Limits) {
        return broken_by(3, found);
    }
    if let Some(found) = first_together(file, places) {
        return broken_by(4, found);
    }
    if let Some(found) = first_breach(file, places, GroupRule::Positions) {
        return broken_by(5, found);
    }
    Verdict::Legal
}

/// That the rule is broken, with the two numbers of the case.
fn broken_by(rule: u32, found: (u32, u32)) -> Verdict
    ensures { result ≡ Verdict.Broken rule found.0 found.1 }
{
    Verdict::Broken {
        rule,
        first: found.0,
        second: found.1,
    }
}

/// The number of the first fixed place that is not kept.
fn first_not_kept(file: &DrawFile, places: &[GroupPlace]) -> Option<u32>
    requires { length file.now.places < 2 ^ 32 }
    ensures { MatchOption result
        (KeepsPlaces file.now places.now)
        (λ number. IsFirstNotKept file.now places.now number) }
{
    let number = file
        .places()
        .iter()
        .position(|place| !keeps_place(places, *place))?;
    Some(number as u32)
}

/// The first group that breaks rule 2, 3 or 5, and the first number by which it does.
fn first_breach(file: &DrawFile, places: &[GroupPlace], rule: GroupRule) -> Option<(u32, u32)>
    requires places { length places.now < 2 ^ 32 }
    requires limits { length file.now.limits < 2 ^ 32 }
    ensures { MatchOption result
        (GroupsKeep file.now places.now rule)
        (λ found. IsFirstBreach file.now places.now rule found.0 found.1) }
{
    for group in 0..file.groups() {
        if let Some(number) = first_number(file, places, rule, group) {
            return Some((group, number));
        }
    }
    None
}

/// The first number by which the group breaks rule 2, 3 or 5.
fn first_number(file: &DrawFile, places: &[GroupPlace], rule: GroupRule, group: u32) -> Option<u32>
    requires places { length places.now < 2 ^ 32 }
    requires limits { length file.now.limits < 2 ^ 32 }
    ensures { MatchOption result
        (GroupKeeps file.now places.now rule group)
        (λ number. IsFirstNumber file.now places.now rule group number) }
{
    let first = first_of(rule);
    for place in 0..how_many(file, rule) {
        let number = first + place;
        if breaks_in(file, places, rule, group, number) {
            return Some(number);
        }
    }
    None
}

/// The first of the numbers that tell how a rule is broken.
fn first_of(rule: GroupRule) -> u32
    ensures { result ≡ first_of rule }
{
    match rule {
        GroupRule::Pots | GroupRule::Positions => 1,
        GroupRule::Limits => 0,
    }
}

/// How many numbers tell how a rule is broken.
fn how_many(file: &DrawFile, rule: GroupRule) -> u32
    requires { length file.now.limits < 2 ^ 32 }
    ensures { result ≡ how_many file.now rule }
{
    match rule {
        GroupRule::Pots | GroupRule::Positions => file.pots(),
        GroupRule::Limits => file.limits().len() as u32,
    }
}

/// The number of the first pair whose teams stand in one group, and the group.
fn first_together(file: &DrawFile, places: &[GroupPlace]) -> Option<(u32, u32)>
    requires { length file.now.pairs < 2 ^ 32 }
    ensures { MatchOption result
        (KeepsApart file.now places.now)
        (λ found. IsFirstTogether file.now places.now found.0 found.1) }
{
    let number = file
        .pairs()
        .iter()
        .position(|pair| are_together(places, *pair))?;
    let group = group_of(places, file.pairs()[number].first)?;
    Some((number as u32, group))
}
