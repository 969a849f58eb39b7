//! The forbidden pairs of a head.

ghost use Rattle.std.specs.Prelude.{◌≡◌, map, option_map, option_and_then};
ghost use Rattle.serde_json.specs.View.{view};
ghost use Rattle.team_files.specs.Answers.{Gives};
ghost use Rattle.team_files.specs.Heads.{or_wrong, pair_of_texts, pairs_of_texts, pairs_in};
ghost use Rattle.team_files.specs.Members.{list_of};

use crate::fault::{Field, FileFault};
use crate::head_pair::{HeadPair, HeadPairs};
use crate::members::{lacks, list_in, list_of};
use crate::text::Text;
use serde_json::Value;
use std::alloc::Global;

/// The forbidden pairs; an absent list is empty.
pub(crate) fn pairs_in(alloc: Global, head: &Value) -> Result<HeadPairs, FileFault>
    ensures { Gives result (or_wrong (pairs_in (view head.now)) Field.Pairs) }
{
    if lacks(head, "pairs") {
        return Ok(HeadPairs::new(Vec::new(alloc)));
    }
    match list_in(head, "pairs") {
        Some(list) => pairs_of_texts(alloc, list),
        None => Err(FileFault::FieldWrong { name: Field::Pairs }),
    }
}

fn pairs_of_texts(alloc: Global, list: &[Value]) -> Result<HeadPairs, FileFault>
    ensures { Gives result (or_wrong (pairs_of_texts (map view list.now)) Field.Pairs) }
{
    let mut pairs = Vec::new(alloc);
    for value in list {
        let Some((first, second)) = pair_of_texts(value) else {
            return Err(FileFault::FieldWrong { name: Field::Pairs });
        };
        let first = Text::copy(alloc, first)?;
        let second = Text::copy(alloc, second)?;
        pairs.push(HeadPair { first, second })?;
    }
    Ok(HeadPairs::new(pairs))
}

/// The two texts of a list of two texts.
fn pair_of_texts(value: &Value) -> Option<(&str, &str)>
    ensures { option_map (λ pair. record { first = pair.0.now; second = pair.1.now }) result
        ≡ option_and_then pair_of_texts (list_of (view value.now)) }
{
    let [first, second] = list_of(value)? else {
        return None;
    };
    Some((first.as_str()?, second.as_str()?))
}
