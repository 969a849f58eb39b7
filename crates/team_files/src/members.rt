//! Members of a JSON object.

ghost use Rattle.std.specs.Prelude.{◌≡◌, map, option_map};
ghost use Rattle.serde_json.specs.View.{view};
ghost use Rattle.team_files.specs.Members.{lacks, text_in, list_of, list_in, number_in, positive_in, number_to};

use serde_json::Value;

/// Whether the value lacks the member; null is a member that is there.
pub(crate) fn lacks(value: &Value, name: &str) -> bool
    ensures { result ≡ lacks name.now (view value.now) }
{
    value.get(name).is_none()
}

/// The text in a member.
pub(crate) fn text_in<'a>(value: &'a Value, name: &str) -> Option<&'a str>
    ensures { option_map (λ text. text.now) result ≡ text_in name.now (view value.now) }
{
    value.get(name).and_then(Value::as_str)
}

/// The elements of a list.
#[tactic(auto, using(crate::proofs::Elements::elements_of))]
pub(crate) fn list_of(value: &Value) -> Option<&[Value]>
    ensures { option_map (λ list. map view list.now) result ≡ list_of (view value.now) }
{
    match value.as_array() {
        Some(list) => Some(list.as_slice()),
        None => None,
    }
}

/// The elements of the list in a member.
pub(crate) fn list_in<'a>(value: &'a Value, name: &str) -> Option<&'a [Value]>
    ensures { option_map (λ list. map view list.now) result ≡ list_in name.now (view value.now) }
{
    value.get(name).and_then(list_of)
}

/// The whole number in a member.
pub(crate) fn number_in(value: &Value, name: &str) -> Option<u64>
    ensures { result ≡ number_in name.now (view value.now) }
{
    value.get(name).and_then(Value::as_u64)
}

/// The whole number in a member that is at least 1.
pub(crate) fn positive_in(value: &Value, name: &str) -> Option<u64>
    ensures { result ≡ positive_in name.now (view value.now) }
{
    match number_in(value, name) {
        Some(number) if 1 <= number => Some(number),
        _ => None,
    }
}

/// The whole number in a member that is at most `most`.
pub(crate) fn number_to(most: u32, value: &Value, name: &str) -> Option<u32>
    ensures { result ≡ number_to most name.now (view value.now) }
{
    match number_in(value, name) {
        Some(number) if number <= most as u64 => Some(number as u32),
        _ => None,
    }
}
