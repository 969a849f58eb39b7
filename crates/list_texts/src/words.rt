ghost use Rattle.std.specs.Prelude.{◌≡◌, ◌<◌, ◌≤◌, ◌^◌, ℕ, length, slice_index, MatchBool, MatchOption, IfSome};
ghost use Rattle.std.specs.Int.{IsInRange};
ghost use Rattle.list_texts.specs.Fronts.{IsByteAt, NoByteAt, BeginAsNumber, DoNotBeginAsNumber, AreDigitsOf, AreNoDigits, IsNumberAt, NoNumberAt, IsSpacedNumberAt, NoSpacedNumberAt, IsMarkAt, NoMarkAt, IsMarkedNumberAt, NoMarkedNumberAt, IsLitAt, NoLitAt, IsHintAt, NoHintAt};

use count_core::{Atom, Hint, Lit};

/// What follows the byte, where the text begins with it.
pub(crate) fn after(byte: u8, text: &[u8]) -> Option<&[u8]>
    ensures text { MatchOption result (NoByteAt byte text.now) (λ rest. IsByteAt byte text.now rest.now) }
    ensures shorter { IfSome result (λ rest. length rest.now < length text.now) }
{
    let (first, rest) = text.split_first()?;
    if *first == byte { Some(rest) } else { None }
}

/// How many digits the text begins with.
fn count_digits(text: &[u8]) -> usize
    ensures bound { result ≤ length text.now }
    ensures digits { (k : ℕ) → k < result → IsInRange 48 57 (slice_index text.now k) }
    ensures end { result < length text.now → IsInRange 48 57 (slice_index text.now result) → ⊥ }
{
    for (place, byte) in text.iter().enumerate() {
        if !byte.is_ascii_digit() {
            return place;
        }
    }
    text.len()
}

/// Whether there are digits, and no leading zero.
fn begin_as_number(digits: &[u8]) -> bool
    ensures { MatchBool result (BeginAsNumber digits.now) (DoNotBeginAsNumber digits.now) }
{
    match digits.len() {
        0 => false,
        1 => true,
        _ => digits[0] != b'0',
    }
}

/// The number of these digits: decimal, at least one digit, without sign or leading zero, below
/// 2^64.
pub(crate) fn number_of(digits: &[u8]) -> Option<u64>
    ensures { MatchOption result (AreNoDigits (2 ^ 64) digits.now) (λ number. AreDigitsOf (2 ^ 64) digits.now number) }
{
    if !begin_as_number(digits) {
        return None;
    }
    let mut value: u64 = 0;
    for digit in digits {
        if !digit.is_ascii_digit() {
            return None;
        }
        value = value.checked_mul(10)?.checked_add((*digit - b'0') as u64)?;
    }
    Some(value)
}

/// The number of these digits, at most 4294967295.
fn small_number_of(digits: &[u8]) -> Option<u32>
    ensures { MatchOption result (AreNoDigits (2 ^ 32) digits.now) (λ number. AreDigitsOf (2 ^ 32) digits.now number) }
{
    let number = number_of(digits)?;
    match u32::try_from(number) {
        Ok(small) => Some(small),
        Err(_) => None,
    }
}

/// The number that the text begins with, and what follows its last digit.
fn number_at(text: &[u8]) -> Option<(u32, &[u8])>
    ensures text { MatchOption result (NoNumberAt text.now) (λ cut. IsNumberAt text.now cut.0 cut.1.now) }
    ensures no_longer { IfSome result (λ cut. length cut.1.now ≤ length text.now) }
{
    let (digits, rest) = text.split_at(count_digits(text));
    let number = small_number_of(digits)?;
    Some((number, rest))
}

/// The number behind one space, and what follows its last digit.
pub(crate) fn spaced_number_at(text: &[u8]) -> Option<(u32, &[u8])>
    ensures text { MatchOption result (NoSpacedNumberAt text.now) (λ cut. IsSpacedNumberAt text.now cut.0 cut.1.now) }
    ensures shorter { IfSome result (λ cut. length cut.1.now < length text.now) }
{
    let left = after(b' ', text)?;
    let (number, rest) = number_at(left)?;
    Some((number, rest))
}

/// Whether the first of two bytes stands behind one space, where one of them does, and what
/// follows it.
fn mark_at(one: u8, other: u8, text: &[u8]) -> Option<(bool, &[u8])>
    ensures text { MatchOption result (NoMarkAt one other text.now) (λ cut. IsMarkAt one other text.now cut.0 cut.1.now) }
    ensures shorter { IfSome result (λ cut. length cut.1.now < length text.now) }
{
    let left = after(b' ', text)?;
    if let Some(rest) = after(one, left) {
        return Some((true, rest));
    }
    let rest = after(other, left)?;
    Some((false, rest))
}

/// The number behind one space and one of two bytes, and whether it is the first of them.
fn marked_number_at(one: u8, other: u8, text: &[u8]) -> Option<(bool, u32, &[u8])>
    ensures text { MatchOption result (NoMarkedNumberAt one other text.now) (λ cut. IsMarkedNumberAt one other text.now (cut.0, cut.1) cut.2.now) }
    ensures shorter { IfSome result (λ cut. length cut.2.now < length text.now) }
{
    let (mark, left) = mark_at(one, other, text)?;
    let (number, rest) = number_at(left)?;
    Some((mark, number, rest))
}

/// The literal behind one space, `+` or `-` and the number of its atom, and what follows it.
pub(crate) fn lit_at(text: &[u8]) -> Option<(Lit, &[u8])>
    ensures text { MatchOption result (NoLitAt text.now) (λ cut. IsLitAt text.now cut.0 cut.1.now) }
    ensures shorter { IfSome result (λ cut. length cut.1.now < length text.now) }
{
    let (positive, number, rest) = marked_number_at(b'+', b'-', text)?;
    let atom = Atom(number);
    Some((Lit { atom, positive }, rest))
}

/// The hint behind one space, `r` and the number of a rule or `s` and that of a step, and what
/// follows it.
pub(crate) fn hint_at(text: &[u8]) -> Option<(Hint, &[u8])>
    ensures text { MatchOption result (NoHintAt text.now) (λ cut. IsHintAt text.now cut.0 cut.1.now) }
    ensures shorter { IfSome result (λ cut. length cut.1.now < length text.now) }
{
    let (is_rule, number, rest) = marked_number_at(b'r', b's', text)?;
    if is_rule {
        return Some((Hint::Rule(number), rest));
    }
    Some((Hint::Step(number), rest))
}
