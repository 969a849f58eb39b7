ghost use Rattle.std.specs.Prelude.{◌≡◌, ◌<◌, ◌≤◌, ◌*◌, length, IfOk, IfSome};
ghost use Rattle.draw_tables.specs.Pots.{AreTeamsOf, IsTeamOf};
ghost use Rattle.group_draw.specs.Decoding.{AreGroupsOf, HasPots, filled_places, fillings, first_in, fixed_position, place_from, places_from, wish_in, wish_of, wishes_in};

use crate::NoMemory;
use draw_tables::{GroupPlace, Move, position_in, teams_of_pot};
use list_counts::filled;
use rule_sets::DrawFile;
use std::alloc::Global;
use team_files::TeamId;

/// The places of all teams, which have these groups: the positions of each group are filled.
pub(crate) fn filled_places(
    alloc: Global,
    file: &DrawFile,
    moves: &[Move],
    groups: &[u32],
) -> Result<Vec<GroupPlace>, NoMemory>
    requires pots { HasPots file.now }
    requires groups { AreGroupsOf file.now groups.now }
    ensures { IfOk result (λ places. places.items ≡ filled_places file.now moves.now groups.now) }
{
    let positions = fillings(alloc, file, moves, groups)?;
    let places = places_from(alloc, file, groups, &positions)?;
    Ok(places)
}

/// The places of all teams, where the positions of all groups are at hand.
fn places_from(
    alloc: Global,
    file: &DrawFile,
    groups: &[u32],
    positions: &[u32],
) -> Result<Vec<GroupPlace>, NoMemory>
    requires pots { HasPots file.now }
    requires groups { AreGroupsOf file.now groups.now }
    requires positions { length positions.now ≡ file.now.groups * file.now.pots }
    ensures { IfOk result (λ places. places.items
        ≡ places_from file.now groups.now positions.now) }
{
    let mut places = Vec::new(alloc);
    for place in 0..file.teams().number() {
        places.push(place_from(file, groups, positions, place))?;
    }
    Ok(places)
}

/// Where the team at a place stands.
fn place_from(file: &DrawFile, groups: &[u32], positions: &[u32], place: u32) -> GroupPlace
    requires pots { HasPots file.now }
    requires groups { AreGroupsOf file.now groups.now }
    requires positions { length positions.now ≡ file.now.groups * file.now.pots }
    requires place { place < length file.now.teams }
    ensures { result ≡ place_from file.now groups.now positions.now place }
{
    let group = groups[place as usize];
    let pot = file.teams().get(TeamId(place)).pot;
    let position = positions[(group * file.pots() + (pot - 1)) as usize];
    GroupPlace { group, position }
}

/// The positions of the teams of each group in pot order, one group after the other.
fn fillings(
    alloc: Global,
    file: &DrawFile,
    moves: &[Move],
    groups: &[u32],
) -> Result<Vec<u32>, NoMemory>
    requires pots { HasPots file.now }
    requires groups { AreGroupsOf file.now groups.now }
    ensures { IfOk result (λ positions. positions.items ≡ fillings file.now moves.now groups.now) }
{
    let mut positions = Vec::new(alloc);
    for group in 0..file.groups() {
        let wishes = wishes_in(alloc, file, moves, groups, group)?;
        let filling = filled(alloc, &wishes)?;
        positions.extend_from_slice(&filling)?;
    }
    Ok(positions)
}

/// What is known of the positions of a group's teams, in pot order.
fn wishes_in(
    alloc: Global,
    file: &DrawFile,
    moves: &[Move],
    groups: &[u32],
    group: u32,
) -> Result<Vec<Option<u32>>, NoMemory>
    requires groups { AreGroupsOf file.now groups.now }
    ensures { IfOk result (λ wishes. wishes.items ≡ wishes_in file.now moves.now groups.now group) }
{
    let mut wishes = Vec::new(alloc);
    for place in 0..file.pots() {
        wishes.push(wish_in(alloc, file, moves, groups, group, place + 1)?)?;
    }
    Ok(wishes)
}

/// What is known of the position of the pot's team in the group.
fn wish_in(
    alloc: Global,
    file: &DrawFile,
    moves: &[Move],
    groups: &[u32],
    group: u32,
    pot: u32,
) -> Result<Option<u32>, NoMemory>
    requires groups { AreGroupsOf file.now groups.now }
    ensures { IfOk result (λ wish. wish ≡ wish_in file.now moves.now groups.now group pot) }
{
    let teams = teams_of_pot(alloc, file, pot)?;
    match team_in(file, groups, group, &teams) {
        Some(team) => Ok(wish_of(file, moves, team)),
        None => Ok(None),
    }
}

/// The first of the teams that has the group.
fn team_in(file: &DrawFile, groups: &[u32], group: u32, teams: &[TeamId]) -> Option<TeamId>
    requires groups { AreGroupsOf file.now groups.now }
    requires teams { AreTeamsOf file.now teams.now }
    ensures team { result ≡ first_in groups.now group teams.now }
    ensures of_file { IfSome result (IsTeamOf file.now) }
{
    for team in teams {
        if groups[team.0 as usize] == group {
            return Some(*team);
        }
    }
    None
}

/// The position that is known of a team: 1 for the teams of pot 1, else that of its ball, else that
/// of its fixed place.
fn wish_of(file: &DrawFile, moves: &[Move], team: TeamId) -> Option<u32>
    requires { IsTeamOf file.now team }
    ensures { result ≡ wish_of file.now moves.now team }
{
    if file.teams().get(team).pot == 1 {
        return Some(1);
    }
    match position_in(moves, team) {
        Some(position) => Some(position),
        None => fixed_position(file, team),
    }
}

/// The position of the team's fixed place, or none.
fn fixed_position(file: &DrawFile, team: TeamId) -> Option<u32>
    ensures { result ≡ fixed_position file.now team }
{
    for place in file.places() {
        if place.team == team {
            return Some(place.position);
        }
    }
    None
}
