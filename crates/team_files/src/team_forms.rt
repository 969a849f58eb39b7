//! The members of a team in their forms, or the first member of another form or range.

ghost use Rattle.std.specs.Prelude.{◌≡◌, ◌∷◌, [], map, true, option_map, option_and_then, codes, IfSome};
ghost use Rattle.serde_json.specs.View.{view};
ghost use Rattle.team_files.specs.Answers.{Gives};
ghost use Rattle.team_files.specs.Characters.{is_tag};
ghost use Rattle.team_files.specs.Heads.{or_wrong, name_in, pot_in, letter_in, team_fields};
ghost use Rattle.team_files.specs.Members.{text_in, letter_of, tag_of, tags_of, tags_in};

use crate::fault::{Field, FileFault};
use crate::fields::TeamFields;
use crate::kind::Kind;
use crate::members::{lacks, list_in, number_in, text_in};
use crate::tag::{Tag, Tags, is_tag};
use crate::text::Text;
use serde_json::Value;
use std::alloc::Global;

/// The members of one team, in a head of the kind with so many pots.
pub(crate) fn team_fields(
    alloc: Global,
    kind: Kind,
    pots: u64,
    team: &Value,
) -> Result<TeamFields, FileFault>
    ensures { Gives result (team_fields kind pots (view team.now)) }
{
    let code = code_in(alloc, team)?;
    let name = name_in(alloc, team)?;
    let pot = pot_in(pots, team)?;
    let tags = tags_in(alloc, team)?;
    let group_letter = letter_in(kind, team)?;
    Ok(TeamFields {
        code,
        name,
        pot,
        tags,
        group_letter,
    })
}

fn code_in(alloc: Global, team: &Value) -> Result<Text, FileFault>
    ensures { Gives result (or_wrong (text_in (codes "code") (view team.now)) Field.Code) }
{
    match text_in(team, "code") {
        Some(code) => Ok(Text::copy(alloc, code)?),
        None => Err(FileFault::FieldWrong { name: Field::Code }),
    }
}

fn name_in(alloc: Global, team: &Value) -> Result<Option<Text>, FileFault>
    ensures { Gives result (or_wrong (name_in (view team.now)) Field.Name) }
{
    if lacks(team, "name") {
        return Ok(None);
    }
    match text_in(team, "name") {
        Some(name) => Ok(Some(Text::copy(alloc, name)?)),
        None => Err(FileFault::FieldWrong { name: Field::Name }),
    }
}

/// The pot, from 1 to the number of pots.
fn pot_in(pots: u64, team: &Value) -> Result<u64, FileFault>
    ensures { result ≡ or_wrong (pot_in pots (view team.now)) Field.Pot }
{
    match number_in(team, "pot") {
        Some(pot) if 1 <= pot && pot <= pots => Ok(pot),
        _ => Err(FileFault::FieldWrong { name: Field::Pot }),
    }
}

/// The letter of the team's first-round group, where teams of the kind have one.
fn letter_in(kind: Kind, team: &Value) -> Result<Option<u8>, FileFault>
    ensures { result ≡ or_wrong (letter_in kind (view team.now)) Field.Group }
{
    match kind {
        Kind::Group => Ok(None),
        Kind::Pairing => match text_in(team, "group").and_then(letter_of) {
            Some(letter) => Ok(Some(letter)),
            None => Err(FileFault::FieldWrong { name: Field::Group }),
        },
    }
}

/// The letter of a text of one letter A to Z.
pub(crate) fn letter_of(text: &str) -> Option<u8>
    ensures { result ≡ letter_of text.now }
{
    match text.as_bytes() {
        [letter] if letter.is_ascii_uppercase() => Some(*letter),
        _ => None,
    }
}

fn tags_in(alloc: Global, team: &Value) -> Result<Tags, FileFault>
    ensures { Gives result (or_wrong (tags_in (codes "tags") (view team.now)) Field.Tags) }
{
    match list_in(team, "tags") {
        Some(tags) => tags_of(alloc, tags),
        None => Err(FileFault::FieldWrong { name: Field::Tags }),
    }
}

/// One tag, or two different ones.
fn tags_of(alloc: Global, tags: &[Value]) -> Result<Tags, FileFault>
    ensures { Gives result (or_wrong (tags_of (map view tags.now)) Field.Tags) }
{
    match tags {
        [only] => one_tag(alloc, only),
        [first, second] => two_tags(alloc, first, second),
        _ => Err(FileFault::FieldWrong { name: Field::Tags }),
    }
}

fn one_tag(alloc: Global, only: &Value) -> Result<Tags, FileFault>
    ensures { Gives result (or_wrong (tags_of (view only.now ∷ [])) Field.Tags) }
{
    let Some(tag) = tag_of(only) else {
        return Err(FileFault::FieldWrong { name: Field::Tags });
    };
    let mut tags = Vec::new(alloc);
    tags.push(Tag::copy(alloc, tag)?)?;
    Ok(Tags::new(tags))
}

fn two_tags(alloc: Global, first: &Value, second: &Value) -> Result<Tags, FileFault>
    ensures { Gives result (or_wrong (tags_of (view first.now ∷ view second.now ∷ [])) Field.Tags) }
{
    let (Some(one), Some(other)) = (tag_of(first), tag_of(second)) else {
        return Err(FileFault::FieldWrong { name: Field::Tags });
    };
    if one == other {
        return Err(FileFault::FieldWrong { name: Field::Tags });
    }
    let mut tags = Vec::new(alloc);
    tags.push(Tag::copy(alloc, one)?)?;
    tags.push(Tag::copy(alloc, other)?)?;
    Ok(Tags::new(tags))
}

/// The text of a tag.
pub(crate) fn tag_of(tag: &Value) -> Option<&str>
    ensures text { option_map (λ text. text.now) result ≡ tag_of (view tag.now) }
    ensures form { IfSome result (λ text. is_tag text.now ≡ true) }
{
    match tag.as_str() {
        Some(text) if is_tag(text.as_bytes()) => Some(text),
        _ => None,
    }
}
