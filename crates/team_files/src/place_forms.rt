//! The fixed places of a group draw's head.

ghost use Rattle.std.specs.Prelude.{◌≡◌, [], map, option_and_then, codes};
ghost use Rattle.serde_json.specs.View.{view};
ghost use Rattle.team_files.specs.Answers.{Gives};
ghost use Rattle.team_files.specs.Heads.{or_wrong, place_fields, read_behind, places_in};
ghost use Rattle.team_files.specs.Members.{text_in, letter_of};

use crate::fault::{Field, FileFault};
use crate::forms::objects_in;
use crate::head_place::{HeadPlace, HeadPlaces};
use crate::kind::Kind;
use crate::members::{lacks, positive_in, text_in};
use crate::team_forms::letter_of;
use crate::text::Text;
use serde_json::Value;
use std::alloc::Global;

/// The fixed places; an absent list is empty.
pub(crate) fn places_in(alloc: Global, head: &Value) -> Result<HeadPlaces, FileFault>
    ensures { Gives result (places_in Kind.Group (view head.now)) }
{
    if lacks(head, "places") {
        return Ok(HeadPlaces::new(Vec::new(alloc)));
    }
    match objects_in(head, "places") {
        Some(list) => places_of(alloc, list),
        None => Err(FileFault::FieldWrong {
            name: Field::Places,
        }),
    }
}

fn places_of(alloc: Global, list: &[Value]) -> Result<HeadPlaces, FileFault>
    ensures { Gives result (read_behind place_fields [] (map view list.now)) }
{
    let mut places = Vec::new(alloc);
    for value in list {
        let place = place_fields(alloc, value)?;
        places.push(place)?;
    }
    Ok(HeadPlaces::new(places))
}

/// One fixed place: the text of a code, the letter of a group and a position.
fn place_fields(alloc: Global, place: &Value) -> Result<HeadPlace, FileFault>
    ensures { Gives result (place_fields [] (view place.now)) }
{
    let Some(code) = text_in(place, "code") else {
        return Err(FileFault::FieldWrong { name: Field::Code });
    };
    let group = group_in(place)?;
    let Some(position) = positive_in(place, "position") else {
        return Err(FileFault::FieldWrong {
            name: Field::Position,
        });
    };
    let code = Text::copy(alloc, code)?;
    Ok(HeadPlace {
        code,
        group,
        position,
    })
}

fn group_in(place: &Value) -> Result<u8, FileFault>
    ensures { result
        ≡ or_wrong (option_and_then letter_of (text_in (codes "group") (view place.now)))
        Field.Group }
{
    match text_in(place, "group").and_then(letter_of) {
        Some(letter) => Ok(letter),
        None => Err(FileFault::FieldWrong { name: Field::Group }),
    }
}
