//! Reads a head: one pass a fault, in the order of the faults' numbers.

ghost use Rattle.std.specs.Prelude.{◌≡◌, ◌≢◌, Some, IfOk, IfErr};
ghost use Rattle.std.specs.Result.{result_err};
ghost use Rattle.serde_json.specs.View.{view};
ghost use Rattle.team_files.specs.Answers.{Gives};
ghost use Rattle.team_files.specs.Heads.{IsHead, IsHeadFault, IsJson, IsJsonFault, object_fault, kind_of, kind_of_text, head_of};

use crate::checks::{check_numbers, check_pots, teams_of};
use crate::fault::{Field, FileFault};
use crate::fields::HeadFields;
use crate::forms::head_fields;
use crate::head::Head;
use crate::kind::Kind;
use crate::members::{lacks, text_in};
use crate::missing::check_members;
use crate::text::Text;
use serde_json::Value;
use std::alloc::Global;

/// Reads the head of a draw file, which is one JSON object. Members that its kind does not have are
/// ignored, in the teams too, and of repeated members the last counts.
///
/// # Errors
/// The head's first fault. `NotJson` and `NotObject` come first, then what is wrong with `kind`:
/// `FieldMissing`, `FieldWrong`, `KindUnknown`, or `KindNotBuilt` where it is `league`.
/// Then, each over the whole head: the first needed member that is absent, `FieldMissing`; the
/// first member of another form or range, `FieldWrong`; the first of the numbers of groups, pots,
/// teams, limits, pairs and places that is past its limit, as `MOST_TEAMS`, `TooMany`; the first team
/// without a code, `BadCode`; the first team with an earlier one's code, `SameCode`; the first pot of
/// the wrong size, `PotSize`: of a group draw one that has not one team for each group, of a pairing
/// pot 1 empty or pot 2 not of its size.
pub fn read_head(alloc: Global, bytes: &[u8]) -> Result<Head, FileFault>
    ensures ok { IfOk result (λ head. IsHead bytes.now head) }
    ensures fault { IfErr result (λ f. f ≢ FileFault.NoMemory → IsHeadFault bytes.now f) }
{
    let value = value_of(alloc, bytes)?;
    head_of(alloc, &value)
}

/// The value that the bytes are.
fn value_of(alloc: Global, bytes: &[u8]) -> Result<Value, FileFault>
    ensures ok { IfOk result (λ value. IsJson bytes.now (view value)) }
    ensures fault { IfErr result (λ f. f ≢ FileFault.NoMemory → IsJsonFault bytes.now f) }
{
    match Value::from_slice(alloc, bytes) {
        Ok(value) => Ok(value),
        Err(error) if error.is_memory() => Err(FileFault::NoMemory),
        Err(_) => Err(FileFault::NotJson),
    }
}

/// The head that a value is, or its first fault.
fn head_of(alloc: Global, value: &Value) -> Result<Head, FileFault>
    ensures { Gives result (head_of (view value.now)) }
{
    check_object(value)?;
    let kind = kind_of(alloc, value)?;
    check_members(kind, value)?;
    let fields = head_fields(alloc, kind, value)?;
    check_numbers(&fields)?;
    let HeadFields {
        groups,
        pots,
        teams,
        limits,
        pairs,
        places,
    } = fields;
    let groups = groups as u32;
    let pots = pots as u32;
    let teams = teams_of(alloc, teams)?;
    check_pots(kind, groups, pots, &teams)?;
    Ok(Head::new(kind, groups, pots, teams, limits, pairs, places))
}

fn check_object(value: &Value) -> Result<(), FileFault>
    ensures { result_err result ≡ object_fault (view value.now) }
{
    if !value.is_object() {
        return Err(FileFault::NotObject);
    }
    Ok(())
}

fn kind_of(alloc: Global, head: &Value) -> Result<Kind, FileFault>
    ensures { Gives result (kind_of (view head.now)) }
{
    if lacks(head, "kind") {
        return Err(FileFault::FieldMissing { name: Field::Kind });
    }
    match text_in(head, "kind") {
        Some(name) => kind_of_name(alloc, name),
        None => Err(FileFault::FieldWrong { name: Field::Kind }),
    }
}

/// The kind with the name, where it is built.
fn kind_of_name(alloc: Global, name: &str) -> Result<Kind, FileFault>
    ensures { Gives result (kind_of_text (Some name.now)) }
{
    if let Some(kind) = Kind::with_name(name) {
        return Ok(kind);
    }
    if name == "league" {
        return Err(FileFault::KindNotBuilt);
    }
    let text = Text::copy(alloc, name)?;
    Err(FileFault::KindUnknown { text })
}
