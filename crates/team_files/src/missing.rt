//! The first needed member that is absent.

ghost use Rattle.std.specs.Prelude.{◌≡◌, map, codes};
ghost use Rattle.std.specs.Result.{result_err};
ghost use Rattle.serde_json.specs.View.{view};
ghost use Rattle.team_files.specs.Members.{lacks, list_in};
ghost use Rattle.team_files.specs.Heads.{missing_if, missing_in_head, missing_letter, missing_in_team, missing_in_limit, missing_in_place, missing_in_each, missing_in_list, missing_in_more, missing_fault};

use crate::fault::{Field, FileFault};
use crate::kind::Kind;
use crate::members::{lacks, list_in};
use serde_json::Value;

/// Refuses a head that lacks a needed member, and names the first one, in the head and then in each
/// object in `teams`, and of a group draw in each object in `limits` and in `places`.
pub(crate) fn check_members(kind: Kind, head: &Value) -> Result<(), FileFault>
    ensures { result_err result ≡ missing_fault kind (view head.now) }
{
    check_head(kind, head)?;
    check_teams(kind, head)?;
    check_more(kind, head)
}

fn check_head(kind: Kind, head: &Value) -> Result<(), FileFault>
    ensures { result_err result ≡ missing_in_head kind (view head.now) }
{
    match kind {
        Kind::Group => {
            check_member(head, "groups", Field::Groups)?;
            check_member(head, "pots", Field::Pots)?;
            check_member(head, "teams", Field::Teams)
        }
        Kind::Pairing => check_member(head, "teams", Field::Teams),
    }
}

fn check_teams(kind: Kind, head: &Value) -> Result<(), FileFault>
    ensures { result_err result
        ≡ missing_in_list (missing_in_team kind) (list_in (codes "teams") (view head.now)) }
{
    match list_in(head, "teams") {
        Some(teams) => check_each_team(kind, teams),
        None => Ok(()),
    }
}

fn check_each_team(kind: Kind, teams: &[Value]) -> Result<(), FileFault>
    ensures { result_err result ≡ missing_in_each (missing_in_team kind) (map view teams.now) }
{
    for team in teams {
        check_team(kind, team)?;
    }
    Ok(())
}

/// A value that is not an object lacks nothing.
fn check_team(kind: Kind, team: &Value) -> Result<(), FileFault>
    ensures { result_err result ≡ missing_in_team kind (view team.now) }
{
    if !team.is_object() {
        return Ok(());
    }
    check_member(team, "code", Field::Code)?;
    check_member(team, "pot", Field::Pot)?;
    check_member(team, "tags", Field::Tags)?;
    check_letter(kind, team)
}

/// A team of a pairing has the letter of its first-round group.
fn check_letter(kind: Kind, team: &Value) -> Result<(), FileFault>
    ensures { result_err result ≡ missing_letter kind (view team.now) }
{
    match kind {
        Kind::Group => Ok(()),
        Kind::Pairing => check_member(team, "group", Field::Group),
    }
}

/// The lists that a group draw has besides its teams.
fn check_more(kind: Kind, head: &Value) -> Result<(), FileFault>
    ensures { result_err result ≡ missing_in_more kind (view head.now) }
{
    match kind {
        Kind::Group => {
            check_limits(head)?;
            check_places(head)
        }
        Kind::Pairing => Ok(()),
    }
}

fn check_limits(head: &Value) -> Result<(), FileFault>
    ensures { result_err result
        ≡ missing_in_list missing_in_limit (list_in (codes "limits") (view head.now)) }
{
    match list_in(head, "limits") {
        Some(limits) => check_each_limit(limits),
        None => Ok(()),
    }
}

fn check_each_limit(limits: &[Value]) -> Result<(), FileFault>
    ensures { result_err result ≡ missing_in_each missing_in_limit (map view limits.now) }
{
    for limit in limits {
        check_limit(limit)?;
    }
    Ok(())
}

fn check_limit(limit: &Value) -> Result<(), FileFault>
    ensures { result_err result ≡ missing_in_limit (view limit.now) }
{
    if !limit.is_object() {
        return Ok(());
    }
    check_member(limit, "tag", Field::Tag)?;
    check_member(limit, "lo", Field::Lo)?;
    check_member(limit, "hi", Field::Hi)
}

fn check_places(head: &Value) -> Result<(), FileFault>
    ensures { result_err result
        ≡ missing_in_list missing_in_place (list_in (codes "places") (view head.now)) }
{
    match list_in(head, "places") {
        Some(places) => check_each_place(places),
        None => Ok(()),
    }
}

fn check_each_place(places: &[Value]) -> Result<(), FileFault>
    ensures { result_err result ≡ missing_in_each missing_in_place (map view places.now) }
{
    for place in places {
        check_place(place)?;
    }
    Ok(())
}

fn check_place(place: &Value) -> Result<(), FileFault>
    ensures { result_err result ≡ missing_in_place (view place.now) }
{
    if !place.is_object() {
        return Ok(());
    }
    check_member(place, "code", Field::Code)?;
    check_member(place, "group", Field::Group)?;
    check_member(place, "position", Field::Position)
}

fn check_member(object: &Value, name: &str, field: Field) -> Result<(), FileFault>
    ensures { result_err result ≡ missing_if (lacks name.now (view object.now)) field }
{
    if lacks(object, name) {
        return Err(FileFault::FieldMissing { name: field });
    }
    Ok(())
}
