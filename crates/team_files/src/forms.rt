//! The members of a head in their forms, or the first member of another form or range.

ghost use Rattle.std.specs.Prelude.{◌≡◌, map, option_map, codes};
ghost use Rattle.std.specs.List.{list_all};
ghost use Rattle.serde_json.specs.View.{view};
ghost use Rattle.team_files.specs.Answers.{Gives};
ghost use Rattle.team_files.specs.Heads.{or_wrong, objects_in, all_team_fields, head_fields};
ghost use Rattle.team_files.specs.Members.{is_object, positive_in};

use crate::fault::{Field, FileFault};
use crate::fields::{AllTeamFields, HeadFields};
use crate::head_limit::HeadLimits;
use crate::head_place::HeadPlaces;
use crate::kind::Kind;
use crate::limit_forms::limits_in;
use crate::members::{list_in, positive_in};
use crate::pair_forms::pairs_in;
use crate::place_forms::places_in;
use crate::team_forms::team_fields;
use serde_json::Value;
use std::alloc::Global;

/// The members of a head, or its first member of another form or range: of a group draw the numbers
/// of groups and of pots, then the list of teams and each team, of a group draw the list of limits
/// and each limit, the forbidden pairs, and of a group draw the list of fixed places and each place.
pub(crate) fn head_fields(alloc: Global, kind: Kind, head: &Value) -> Result<HeadFields, FileFault>
    ensures { Gives result (head_fields kind (view head.now)) }
{
    match kind {
        Kind::Group => group_fields(alloc, head),
        Kind::Pairing => pairing_fields(alloc, head),
    }
}

/// The members of the head of a group draw.
fn group_fields(alloc: Global, head: &Value) -> Result<HeadFields, FileFault>
    ensures { Gives result (head_fields Kind.Group (view head.now)) }
{
    let groups = number_of(head, "groups", Field::Groups)?;
    let pots = number_of(head, "pots", Field::Pots)?;
    let Some(objects) = objects_in(head, "teams") else {
        return Err(FileFault::FieldWrong { name: Field::Teams });
    };
    let teams = all_team_fields(alloc, Kind::Group, pots, objects)?;
    let limits = limits_in(alloc, head)?;
    let pairs = pairs_in(alloc, head)?;
    let places = places_in(alloc, head)?;
    Ok(HeadFields {
        groups,
        pots,
        teams,
        limits,
        pairs,
        places,
    })
}

/// The number of groups or pots, at least 1.
fn number_of(head: &Value, name: &str, field: Field) -> Result<u64, FileFault>
    ensures { result ≡ or_wrong (positive_in name.now (view head.now)) field }
{
    match positive_in(head, name) {
        Some(number) => Ok(number),
        None => Err(FileFault::FieldWrong { name: field }),
    }
}

/// The members of a pairing's head. It has no groups, two pots, no limits and no fixed places, and
/// none of these stand in it.
fn pairing_fields(alloc: Global, head: &Value) -> Result<HeadFields, FileFault>
    ensures { Gives result (head_fields Kind.Pairing (view head.now)) }
{
    let pots = 2;
    let Some(objects) = objects_in(head, "teams") else {
        return Err(FileFault::FieldWrong { name: Field::Teams });
    };
    let teams = all_team_fields(alloc, Kind::Pairing, pots, objects)?;
    let pairs = pairs_in(alloc, head)?;
    Ok(HeadFields {
        groups: 0,
        pots,
        teams,
        limits: HeadLimits::new(Vec::new(alloc)),
        pairs,
        places: HeadPlaces::new(Vec::new(alloc)),
    })
}

/// The list of objects in a member.
pub(crate) fn objects_in<'a>(value: &'a Value, name: &str) -> Option<&'a [Value]>
    ensures { option_map (λ list. map view list.now) result ≡ objects_in name.now (view value.now) }
{
    match list_in(value, name) {
        Some(list) if are_objects(list) => Some(list),
        _ => None,
    }
}

fn are_objects(list: &[Value]) -> bool
    ensures { result ≡ list_all is_object (map view list.now) }
{
    for value in list {
        if !value.is_object() {
            return false;
        }
    }
    true
}

fn all_team_fields(
    alloc: Global,
    kind: Kind,
    pots: u64,
    list: &[Value],
) -> Result<AllTeamFields, FileFault>
    ensures { Gives result (all_team_fields kind pots (map view list.now)) }
{
    let mut teams = Vec::new(alloc);
    for team in list {
        teams.push(team_fields(alloc, kind, pots, team)?)?;
    }
    Ok(AllTeamFields::new(teams))
}
