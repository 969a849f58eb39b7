//! The limits of a group draw's head.

ghost use Rattle.std.specs.Prelude.{◌≡◌, [], map, true, option_map, option_and_then, codes, IfSome};
ghost use Rattle.serde_json.specs.Find.{get};
ghost use Rattle.serde_json.specs.View.{view};
ghost use Rattle.team_files.specs.Answers.{Gives};
ghost use Rattle.team_files.specs.Heads.{or_wrong, has_limit, new_tag_in, lo_in, hi_in, limit_fields, read_behind, limits_in};
ghost use Rattle.team_files.specs.Characters.{is_tag};
ghost use Rattle.team_files.specs.Members.{tag_of};

use crate::fault::{Field, FileFault};
use crate::forms::objects_in;
use crate::head_limit::{HeadLimit, HeadLimits};
use crate::kind::Kind;
use crate::members::{lacks, number_to};
use crate::tag::Tag;
use crate::team_forms::tag_of;
use serde_json::Value;
use std::alloc::Global;

/// How many teams with its tag a limit may ask in a group.
const MOST_HOLDERS: u32 = 64;

/// The limits; an absent list is empty.
pub(crate) fn limits_in(alloc: Global, head: &Value) -> Result<HeadLimits, FileFault>
    ensures { Gives result (limits_in Kind.Group (view head.now)) }
{
    if lacks(head, "limits") {
        return Ok(HeadLimits::new(Vec::new(alloc)));
    }
    match objects_in(head, "limits") {
        Some(list) => limits_of(alloc, list),
        None => Err(FileFault::FieldWrong {
            name: Field::Limits,
        }),
    }
}

fn limits_of(alloc: Global, list: &[Value]) -> Result<HeadLimits, FileFault>
    ensures { Gives result (read_behind limit_fields [] (map view list.now)) }
{
    let mut limits = Vec::new(alloc);
    for value in list {
        let limit = limit_fields(alloc, &limits, value)?;
        limits.push(limit)?;
    }
    Ok(HeadLimits::new(limits))
}

/// One limit behind the earlier ones: its tag, which none of these has, and its bounds in order.
fn limit_fields(alloc: Global, earlier: &[HeadLimit], limit: &Value) -> Result<HeadLimit, FileFault>
    ensures { Gives result (limit_fields earlier.now (view limit.now)) }
{
    let tag = new_tag_in(alloc, earlier, limit)?;
    let lo = lo_in(limit)?;
    let hi = hi_in(lo, limit)?;
    Ok(HeadLimit { tag, lo, hi })
}

fn new_tag_in(alloc: Global, earlier: &[HeadLimit], limit: &Value) -> Result<Tag, FileFault>
    ensures { Gives result (or_wrong (new_tag_in earlier.now (view limit.now)) Field.Tag) }
{
    match tag_in(limit) {
        Some(tag) if !has_limit(earlier, tag.as_bytes()) => Ok(Tag::copy(alloc, tag)?),
        _ => Err(FileFault::FieldWrong { name: Field::Tag }),
    }
}

/// The tag in a member.
fn tag_in(limit: &Value) -> Option<&str>
    ensures text { option_map (λ text. text.now) result
        ≡ option_and_then tag_of (get (codes "tag") (view limit.now)) }
    ensures form { IfSome result (λ text. is_tag text.now ≡ true) }
{
    tag_of(limit.get("tag")?)
}

/// Whether a limit has the tag.
fn has_limit(limits: &[HeadLimit], tag: &[u8]) -> bool
    ensures { result ≡ has_limit limits.now tag.now }
{
    limits.iter().any(|limit| limit.tag.bytes() == tag)
}

fn lo_in(limit: &Value) -> Result<u32, FileFault>
    ensures { result ≡ or_wrong (lo_in (view limit.now)) Field.Lo }
{
    match number_to(MOST_HOLDERS, limit, "lo") {
        Some(lo) => Ok(lo),
        None => Err(FileFault::FieldWrong { name: Field::Lo }),
    }
}

/// The upper bound, which is not below the lower one.
fn hi_in(lo: u32, limit: &Value) -> Result<u32, FileFault>
    ensures { result ≡ or_wrong (hi_in lo (view limit.now)) Field.Hi }
{
    match number_to(MOST_HOLDERS, limit, "hi") {
        Some(hi) if lo <= hi => Ok(hi),
        _ => Err(FileFault::FieldWrong { name: Field::Hi }),
    }
}
