ghost use Rattle.std.specs.Prelude.{◌≡◌, ◌<◌, ◌++◌, length, IfOk, OnOk};
ghost use Rattle.draw_tables.specs.Pots.{AreTeamsOf};
ghost use Rattle.draw_tables.specs.Tables.{IsTableOf, NamesFilePlaces};
ghost use Rattle.draw_tables.specs.TableTexts.{AreWritable, IsTextOf, IsWritable, code_of, codes_text, place_text, places_text};

use crate::NoMemory;
use crate::group_place::GroupPlace;
use crate::judging::expect_form;
use crate::table::Table;
use rule_sets::DrawFile;
use std::alloc::Global;
use team_files::TeamId;

/// The text of a table, items with one space between two and none at the ends. In a group draw, for
/// each team in file order, the letter of its group and its position, as `B3`; in a pairing, for each
/// runner-up in file order, the code of its winner.
pub fn table_text(alloc: Global, file: &DrawFile, table: &Table) -> Result<Vec<u8>, NoMemory>
    requires of_file { IsTableOf file.now table.now }
    requires within { NamesFilePlaces file.now table.now }
    ensures { IfOk result (λ text. IsTextOf file.now table.now text.items) }
{
    expect_form(file);
    match table {
        Table::Group(groups) => places_text(alloc, groups.places()),
        Table::Pairs(pairs) => codes_text(alloc, file, pairs.winners()),
    }
}

/// The codes of the teams, with one space between two and none at the ends.
fn codes_text(alloc: Global, file: &DrawFile, teams: &[TeamId]) -> Result<Vec<u8>, NoMemory>
    requires { AreTeamsOf file.now teams.now }
    ensures { IfOk result (λ text. text.items ≡ codes_text file.now.teams teams.now) }
{
    let mut text = Vec::new(alloc);
    add_codes(&mut text, file, teams)?;
    Ok(text)
}

/// Writes the codes of the teams, with one space between two.
fn add_codes(text: &mut Vec<u8>, file: &DrawFile, teams: &[TeamId]) -> Result<(), NoMemory>
    requires { AreTeamsOf file.now teams.now }
    ensures { OnOk result (text.new.items ≡ text.old.items ++ codes_text file.now.teams teams.now) }
{
    let Some((first, others)) = teams.split_first() else {
        return Ok(());
    };
    text.extend_from_slice(code_of(file, *first).as_bytes())?;
    for team in others {
        text.push(b' ')?;
        text.extend_from_slice(code_of(file, *team).as_bytes())?;
    }
    Ok(())
}

/// The code of a team.
fn code_of(file: &DrawFile, team: TeamId) -> &str
    requires { team.0 < length file.now.teams }
    ensures { result.now ≡ code_of file.now.teams team }
{
    file.teams().get(team).code.text()
}

/// The places, with one space between two and none at the ends.
fn places_text(alloc: Global, places: &[GroupPlace]) -> Result<Vec<u8>, NoMemory>
    requires { AreWritable places.now }
    ensures { IfOk result (λ text. text.items ≡ places_text places.now) }
{
    let mut text = Vec::new(alloc);
    add_places(&mut text, places)?;
    Ok(text)
}

/// Writes the places, with one space between two.
fn add_places(text: &mut Vec<u8>, places: &[GroupPlace]) -> Result<(), NoMemory>
    requires { AreWritable places.now }
    ensures { OnOk result (text.new.items ≡ text.old.items ++ places_text places.now) }
{
    let Some((first, others)) = places.split_first() else {
        return Ok(());
    };
    add_place(text, *first)?;
    for place in others {
        text.push(b' ')?;
        add_place(text, *place)?;
    }
    Ok(())
}

/// Writes a place: the letter of its group and the digit of its position.
fn add_place(text: &mut Vec<u8>, place: GroupPlace) -> Result<(), NoMemory>
    requires { IsWritable place }
    ensures { OnOk result (text.new.items ≡ text.old.items ++ place_text place) }
{
    text.push(b'A' + place.group as u8)?;
    text.push(b'0' + place.position as u8)?;
    Ok(())
}
