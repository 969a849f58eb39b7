//! The fixed places of a group draw's head, looked up in its teams, groups and pots.

ghost use Rattle.std.specs.Prelude.{◌≡◌, ◌<◌, ◌≤◌, [], length, Ok, IfOk, IfErr};
ghost use Rattle.team_files.specs.Answers.{Tells};
ghost use Rattle.team_files.specs.Heads.{most_places};
ghost use Rattle.rule_sets.specs.Files.{group_of_letter, pot_of, is_position_for, is_taken, can_take, place_of, places_behind};

use crate::place::Place;
use crate::rules::team_named;
use std::alloc::Global;
use team_files::{FileFault, Head, HeadPlace};

/// The places that are named, or the first that its team can't take or that is taken.
pub(crate) fn places_of(
    alloc: Global,
    head: &Head,
    named: &[HeadPlace],
) -> Result<Vec<Place>, FileFault>
    requires few { length named.now ≤ most_places }
    ensures ok { IfOk result (λ v. places_behind head.now [] named.now ≡ Ok v.items) }
    ensures fault { IfErr result (λ fault. Tells fault (places_behind head.now [] named.now)) }
{
    let mut places = Vec::new(alloc);
    for one in named {
        let Some(place) = place_of(head, &places, one) else {
            return Err(FileFault::BadPlace {
                place: places.len() as u32,
            });
        };
        places.push(place)?;
    }
    Ok(places)
}

/// The place that is named, where its team can take it behind the earlier ones.
fn place_of(head: &Head, earlier: &[Place], named: &HeadPlace) -> Option<Place>
    ensures { result ≡ place_of head.now earlier.now named.now }
{
    let team = team_named(head.teams(), named.code.bytes())?;
    if named.position > head.pots() as u64 {
        return None;
    }
    let place = Place {
        team,
        group: group_of_letter(named.group),
        position: named.position as u32,
    };
    if can_take(head, earlier, place) {
        Some(place)
    } else {
        None
    }
}

/// The group with the letter, counted from 0 (A).
fn group_of_letter(letter: u8) -> u32
    ensures { result ≡ group_of_letter letter }
{
    letter.saturating_sub(b'A') as u32
}

/// Whether the team of the place can take it: a group and a position that there are, position 1
/// exactly where it is of pot 1, and neither its team nor the place is an earlier one's.
fn can_take(head: &Head, earlier: &[Place], place: Place) -> bool
    requires { place.team.0 < length head.now.teams }
    ensures { result ≡ can_take head.now earlier.now place }
{
    let pot = head.teams().get(place.team).pot;
    place.group < head.groups()
        && place.position <= head.pots()
        && is_position_for(pot, place.position)
        && !is_taken(earlier, place)
}

/// Whether a team of the pot can stand at the position: position 1 is for pot 1.
fn is_position_for(pot: u32, position: u32) -> bool
    ensures { result ≡ is_position_for pot position }
{
    if pot == 1 {
        position == 1
    } else {
        position != 1
    }
}

/// Whether one of the places has the team, or the group and position.
fn is_taken(places: &[Place], place: Place) -> bool
    ensures { result ≡ is_taken places.now place }
{
    places.iter().any(|other| {
        other.team.0 == place.team.0
            || (other.group == place.group && other.position == place.position)
    })
}
