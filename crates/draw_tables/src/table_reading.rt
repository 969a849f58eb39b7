ghost use Rattle.std.specs.Prelude.{◌≡◌, ◌+◌, ◌≤◌, length, IfOk, OnOk, Err, IsSome};
ghost use Rattle.draw_tables.specs.Pots.{runners_up};
ghost use Rattle.draw_tables.specs.Reading.{AddsItems, front_place, front_team, places_in, spaced_place, spaced_places, spaced_team, spaced_teams, teams_in};
ghost use Rattle.draw_tables.specs.TableTexts.{IsTextOf, IsTextOfNone};

use crate::group_place::GroupPlace;
use crate::group_table::GroupTable;
use crate::judging::expect_form;
use crate::pair_table::PairTable;
use crate::table::Table;
use crate::table_fault::TableFault;
use rule_sets::DrawFile;
use std::alloc::Global;
use team_files::{Code, Kind, TeamId, Teams};

/// The table of the file that has these bytes as its text. In a group draw each place is one of the
/// file; in a pairing any team's code may stand where a winner is given. `NotTable` exactly where the bytes are the text of no table of the file;
/// else the only fault is `NoMemory`.
pub fn read_table(alloc: Global, file: &DrawFile, bytes: &[u8]) -> Result<Table, TableFault>
    ensures ok { IfOk result (λ table. IsTextOf file.now table bytes.now) }
    ensures not_table { result ≡ Err TableFault.NotTable → IsTextOfNone file.now bytes.now }
{
    match file.kind() {
        Kind::Group => read_groups(alloc, file, bytes),
        Kind::Pairing => read_pairs(alloc, file, bytes),
    }
}

/// The table of a pairing that has these bytes as its text.
fn read_pairs(alloc: Global, file: &DrawFile, bytes: &[u8]) -> Result<Table, TableFault>
    requires { file.now.kind ≡ Kind.Pairing }
    ensures ok { IfOk result (λ table. IsTextOf file.now table bytes.now) }
    ensures not_table { result ≡ Err TableFault.NotTable → IsTextOfNone file.now bytes.now }
{
    expect_form(file);
    let more = runners_after_first(file);
    let mut winners = Vec::new(alloc);
    read_teams(&mut winners, file.teams(), more, bytes)?;
    Ok(Table::Pairs(PairTable::new(winners)))
}

/// The table of a group draw that has these bytes as its text.
fn read_groups(alloc: Global, file: &DrawFile, bytes: &[u8]) -> Result<Table, TableFault>
    requires { file.now.kind ≡ Kind.Group }
    ensures ok { IfOk result (λ table. IsTextOf file.now table bytes.now) }
    ensures not_table { result ≡ Err TableFault.NotTable → IsTextOfNone file.now bytes.now }
{
    let more = teams_after_first(file);
    let mut places = Vec::new(alloc);
    read_places(&mut places, file.groups(), file.pots(), more, bytes)?;
    Ok(Table::Group(GroupTable::new(places)))
}

/// How many teams the file of a group draw has after the first.
fn teams_after_first(file: &DrawFile) -> u32
    requires { file.now.kind ≡ Kind.Group }
    ensures { result + 1 ≡ length file.now.teams }
{
    expect_form(file);
    file.teams().number() - 1
}

/// How many runners-up the file of a pairing has after the first: half of its teams are runners-up.
fn runners_after_first(file: &DrawFile) -> u32
    requires { file.now.kind ≡ Kind.Pairing }
    ensures { result + 1 ≡ length (runners_up file.now) }
{
    expect_form(file);
    file.teams().number() / 2 - 1
}

/// Reads a team's code and so many more, with one space between two.
fn read_teams(
    found: &mut Vec<TeamId>,
    teams: &Teams,
    more: u32,
    bytes: &[u8],
) -> Result<(), TableFault>
    ensures ok { OnOk result
        (AddsItems found.old.items (teams_in teams.now more bytes.now) found.new.items) }
    ensures not_table { result ≡ Err TableFault.NotTable
        → teams_in teams.now more bytes.now ≡ None }
{
    let Some(team) = front_team(teams, bytes) else {
        return Err(TableFault::NotTable);
    };
    if found.push(team).is_err() {
        return Err(TableFault::NoMemory);
    }
    let (_, rest) = bytes.split_at(3);
    read_spaced(found, teams, more, rest)
}

/// Reads so many teams' codes, each behind one space, up to the end.
fn read_spaced(
    found: &mut Vec<TeamId>,
    teams: &Teams,
    number: u32,
    bytes: &[u8],
) -> Result<(), TableFault>
    ensures ok { OnOk result
        (AddsItems found.old.items (spaced_teams teams.now number bytes.now) found.new.items) }
    ensures not_table { result ≡ Err TableFault.NotTable
        → spaced_teams teams.now number bytes.now ≡ None }
{
    let mut rest = bytes;
    for _place in 0..number {
        let Some(team) = spaced_team(teams, rest) else {
            return Err(TableFault::NotTable);
        };
        if found.push(team).is_err() {
            return Err(TableFault::NoMemory);
        }
        let (_, others) = rest.split_at(4);
        rest = others;
    }
    if !rest.is_empty() {
        return Err(TableFault::NotTable);
    }
    Ok(())
}

/// The team whose code stands in front behind one space.
fn spaced_team(teams: &Teams, bytes: &[u8]) -> Option<TeamId>
    ensures value { result ≡ spaced_team teams.now bytes.now }
    ensures room { IsSome result → 4 ≤ length bytes.now }
{
    if bytes.is_empty() || bytes[0] != b' ' {
        return None;
    }
    front_team(teams, &bytes[1..])
}

/// The team whose code stands in front.
fn front_team(teams: &Teams, bytes: &[u8]) -> Option<TeamId>
    ensures value { result ≡ front_team teams.now bytes.now }
    ensures room { IsSome result → 3 ≤ length bytes.now }
{
    if bytes.len() < 3 {
        return None;
    }
    let code = Code::read(&bytes[..3])?;
    teams.find(code)
}

/// Reads a place and so many more, with one space between two.
fn read_places(
    found: &mut Vec<GroupPlace>,
    groups: u32,
    positions: u32,
    more: u32,
    bytes: &[u8],
) -> Result<(), TableFault>
    ensures ok { OnOk result
        (AddsItems found.old.items (places_in groups positions more bytes.now) found.new.items) }
    ensures not_table { result ≡ Err TableFault.NotTable
        → places_in groups positions more bytes.now ≡ None }
{
    let Some(place) = front_place(groups, positions, bytes) else {
        return Err(TableFault::NotTable);
    };
    if found.push(place).is_err() {
        return Err(TableFault::NoMemory);
    }
    let (_, rest) = bytes.split_at(2);
    read_spaced_places(found, groups, positions, more, rest)
}

/// Reads so many places, each behind one space, up to the end.
fn read_spaced_places(
    found: &mut Vec<GroupPlace>,
    groups: u32,
    positions: u32,
    number: u32,
    bytes: &[u8],
) -> Result<(), TableFault>
    ensures ok { OnOk result
        (AddsItems found.old.items (spaced_places groups positions number bytes.now) found.new.items) }
    ensures not_table { result ≡ Err TableFault.NotTable
        → spaced_places groups positions number bytes.now ≡ None }
{
    let mut left = bytes;
    for _place in 0..number {
        let Some(place) = spaced_place(groups, positions, left) else {
            return Err(TableFault::NotTable);
        };
        if found.push(place).is_err() {
            return Err(TableFault::NoMemory);
        }
        let (_, others) = left.split_at(3);
        left = others;
    }
    if !left.is_empty() {
        return Err(TableFault::NotTable);
    }
    Ok(())
}

/// The place that stands in front behind one space.
fn spaced_place(groups: u32, positions: u32, bytes: &[u8]) -> Option<GroupPlace>
    ensures value { result ≡ spaced_place groups positions bytes.now }
    ensures room { IsSome result → 3 ≤ length bytes.now }
{
    if bytes.is_empty() || bytes[0] != b' ' {
        return None;
    }
    front_place(groups, positions, &bytes[1..])
}

/// The place that stands in front: a letter of the groups and a digit of the positions.
fn front_place(groups: u32, positions: u32, bytes: &[u8]) -> Option<GroupPlace>
    ensures value { result ≡ front_place groups positions bytes.now }
    ensures room { IsSome result → 2 ≤ length bytes.now }
{
    if bytes.len() < 2 {
        return None;
    }
    let group = bytes[0].checked_sub(b'A')? as u32;
    let position = bytes[1].checked_sub(b'0')? as u32;
    if group >= groups || position == 0 || position > positions {
        return None;
    }
    Some(GroupPlace { group, position })
}
