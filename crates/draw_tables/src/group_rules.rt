ghost use Rattle.std.specs.Prelude.{◌≡◌, ◌<◌, ◌^◌, length};
ghost use Rattle.draw_tables.specs.GroupTables.{group_of, number_at, number_in, stands_in};
ghost use Rattle.draw_tables.specs.GroupPasses.{are_together, breaks_in, breaks_limit, has_head, has_place, is_outside, keeps_place};
ghost use Rattle.draw_tables.specs.Pots.{teams_of_pot, teams_with};

use crate::group_place::GroupPlace;
use crate::group_rule::GroupRule;
use crate::rules::has_tag;
use rule_sets::{DrawFile, Limit, Pair, Place};
use team_files::{Tag, TeamId};

/// The group of a team in the table with these places, or none where the table has no such team.
pub(crate) fn group_of(places: &[GroupPlace], team: TeamId) -> Option<u32>
    ensures { result ≡ group_of places.now team }
{
    places.get(team.0 as usize).map(|place| place.group)
}

/// Whether the team stands in the group.
fn stands_in(places: &[GroupPlace], group: u32, team: TeamId) -> bool
    ensures { result ≡ stands_in places.now group team }
{
    group_of(places, team) == Some(group)
}

/// Whether the team has the position of the group.
fn has_place(places: &[GroupPlace], group: u32, position: u32, team: TeamId) -> bool
    ensures { result ≡ has_place places.now group position team }
{
    match places.get(team.0 as usize) {
        Some(place) => place.group == group && place.position == position,
        None => false,
    }
}

/// Rule 1: whether the table keeps the fixed place, its group and its position.
pub(crate) fn keeps_place(places: &[GroupPlace], place: Place) -> bool
    ensures { result ≡ keeps_place places.now place }
{
    has_place(places, place.group, place.position, place.team)
}

/// Whether a group breaks rule 2, 3 or 5 by the pot, the limit or the position with the number.
pub(crate) fn breaks_in(
    file: &DrawFile,
    places: &[GroupPlace],
    rule: GroupRule,
    group: u32,
    number: u32,
) -> bool
    requires { length places.now < 2 ^ 32 }
    ensures { result ≡ breaks_in file.now places.now rule group number }
{
    match rule {
        GroupRule::Pots => number_of_pot(file, places, group, number) != 1,
        GroupRule::Limits => match file.limits().get(number as usize) {
            Some(limit) => breaks_limit(file, places, group, limit),
            None => false,
        },
        GroupRule::Positions => {
            number_at(places, group, number) != 1 || (number == 1 && !has_head(file, places, group))
        }
    }
}

/// Whether the number of the group's teams with the limit's tag is less than its `lo` or more than
/// its `hi`.
fn breaks_limit(file: &DrawFile, places: &[GroupPlace], group: u32, limit: &Limit) -> bool
    ensures { result ≡ breaks_limit file.now places.now group (Some limit.now) }
{
    let number = number_with(file, places, group, &limit.tag);
    number < limit.lo || limit.hi < number
}

/// How many teams of the pot stand in the group.
fn number_of_pot(file: &DrawFile, places: &[GroupPlace], group: u32, pot: u32) -> u32
    ensures { result ≡ number_in places.now group (teams_of_pot pot file.now) }
{
    let teams = file.teams();
    let mut number = 0;
    for place in 0..teams.number() {
        let id = TeamId(place);
        if teams.get(id).pot != pot {
            continue;
        }
        if stands_in(places, group, id) {
            number += 1;
        }
    }
    number
}

/// How many teams with the tag, be it their first or their second, stand in the group.
fn number_with(file: &DrawFile, places: &[GroupPlace], group: u32, tag: &Tag) -> u32
    ensures { result ≡ number_in places.now group (teams_with tag.now file.now) }
{
    let teams = file.teams();
    let mut number = 0;
    for place in 0..teams.number() {
        let id = TeamId(place);
        if !has_tag(teams.get(id).tags.as_slice(), tag) {
            continue;
        }
        if stands_in(places, group, id) {
            number += 1;
        }
    }
    number
}

/// How many teams have the position of the group.
fn number_at(places: &[GroupPlace], group: u32, position: u32) -> u32
    requires { length places.now < 2 ^ 32 }
    ensures { result ≡ number_at places.now group position }
{
    places
        .iter()
        .filter(|place| place.group == group && place.position == position)
        .count() as u32
}

/// Whether a team of pot 1 has position 1 of the group.
fn has_head(file: &DrawFile, places: &[GroupPlace], group: u32) -> bool
    ensures { result ≡ has_head file.now places.now group }
{
    let teams = file.teams();
    for place in 0..teams.number() {
        let id = TeamId(place);
        if teams.get(id).pot != 1 {
            continue;
        }
        if has_place(places, group, 1, id) {
            return true;
        }
    }
    false
}

/// Rule 4: whether the two teams of the pair stand in one group.
pub(crate) fn are_together(places: &[GroupPlace], pair: Pair) -> bool
    ensures { result ≡ are_together places.now pair }
{
    match group_of(places, pair.first) {
        Some(group) => group_of(places, pair.second) == Some(group),
        None => false,
    }
}
