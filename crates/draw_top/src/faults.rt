//! The line of a head that has no draw file.

ghost use Rattle.std.specs.Prelude.{◌≡◌, ◌≢◌, ◌++◌, IfOk, OnOk};
ghost use Rattle.std.specs.Fmt.{decimal};
ghost use Rattle.team_files.specs.declared.fault.FileFault.{FileFault as FaultValue};
ghost use Rattle.draw_top.specs.Faults.{field_text, cause_text, fault_line};

use std::alloc::{AllocError, Global};
use team_files::{Field, FileFault};

/// The line of a fault, or out of memory where that is the fault.
pub fn refusal_line(alloc: Global, fault: &FileFault) -> Result<Vec<u8>, AllocError>
    ensures line { IfOk result (λ line. line.items ≡ fault_line fault.now) }
    ensures fault { OnOk result (fault.now ≢ FileFault.NoMemory) }
{
    if let FileFault::NoMemory = fault {
        return Err(AllocError);
    }
    let line = fault_line(alloc, fault)?;
    Ok(line)
}

/// The line that tells why a head has no draw file.
fn fault_line(alloc: Global, fault: &FileFault) -> Result<Vec<u8>, AllocError>
    ensures { IfOk result (λ line. line.items ≡ fault_line fault.now) }
{
    let mut line = Vec::from_slice(alloc, b"file refused ")?;
    let cause = cause_text(alloc, fault)?;
    line.extend_from_slice(&cause)?;
    line.push(b'\n')?;
    Ok(line)
}

/// A fault's number, name and values.
fn cause_text(alloc: Global, fault: &FileFault) -> Result<Vec<u8>, AllocError>
    ensures { IfOk result (λ text. text.items ≡ cause_text fault.now) }
{
    match fault {
        FileFault::NotJson => Vec::from_slice(alloc, b"1 NotJson"),
        FileFault::NotObject => Vec::from_slice(alloc, b"2 NotObject"),
        FileFault::KindUnknown { text: _ } => Vec::from_slice(alloc, b"3 KindUnknown"),
        FileFault::FieldMissing { name } => named(alloc, b"4 FieldMissing ", *name),
        FileFault::FieldWrong { name } => named(alloc, b"5 FieldWrong ", *name),
        FileFault::TooMany { what, number } => too_many(alloc, *what, *number),
        FileFault::BadCode { place } => numbered(alloc, b"7 BadCode ", *place),
        FileFault::SameCode { code } => joined(alloc, b"8 SameCode ", code.text().as_bytes()),
        FileFault::PotSize { pot, number } => pot_size(alloc, *pot, *number),
        FileFault::UnknownTag { place } => numbered(alloc, b"10 UnknownTag ", *place),
        FileFault::BadPair { place } => numbered(alloc, b"11 BadPair ", *place),
        FileFault::BadPlace { place } => numbered(alloc, b"12 BadPlace ", *place),
        FileFault::NoMemory => Vec::from_slice(alloc, b"13 NoMemory"),
        FileFault::KindNotBuilt => Vec::from_slice(alloc, b"14 KindNotBuilt"),
    }
}

/// Two texts, one after the other.
fn joined(alloc: Global, first: &[u8], second: &[u8]) -> Result<Vec<u8>, AllocError>
    ensures { IfOk result (λ text. text.items ≡ first.now ++ second.now) }
{
    let mut text = Vec::from_slice(alloc, first)?;
    text.extend_from_slice(second)?;
    Ok(text)
}

/// A text and a member's name.
fn named(alloc: Global, text: &[u8], field: Field) -> Result<Vec<u8>, AllocError>
    ensures { IfOk result (λ whole. whole.items ≡ text.now ++ field_text field) }
{
    let whole = joined(alloc, text, field_name(field))?;
    Ok(whole)
}

/// A text and a number.
fn numbered(alloc: Global, text: &[u8], number: u32) -> Result<Vec<u8>, AllocError>
    ensures { IfOk result (λ whole. whole.items ≡ text.now ++ decimal number) }
{
    let digits = number.to_string(alloc)?;
    let whole = joined(alloc, text, digits.as_bytes())?;
    Ok(whole)
}

fn too_many(alloc: Global, what: Field, number: u64) -> Result<Vec<u8>, AllocError>
    ensures { IfOk result (λ text. text.items ≡ cause_text (FaultValue.TooMany what number)) }
{
    let mut text = named(alloc, b"6 TooMany ", what)?;
    text.push(b' ')?;
    let digits = number.to_string(alloc)?;
    text.extend_from_slice(digits.as_bytes())?;
    Ok(text)
}

fn pot_size(alloc: Global, pot: u32, number: u32) -> Result<Vec<u8>, AllocError>
    ensures { IfOk result (λ text. text.items ≡ cause_text (FaultValue.PotSize pot number)) }
{
    let mut text = numbered(alloc, b"9 PotSize ", pot)?;
    text.push(b' ')?;
    let digits = number.to_string(alloc)?;
    text.extend_from_slice(digits.as_bytes())?;
    Ok(text)
}

/// A member's name as it stands in a head.
fn field_name(field: Field) -> &'static [u8]
    ensures { result.now ≡ field_text field }
{
    match field {
        Field::Kind => b"kind",
        Field::Groups => b"groups",
        Field::Pots => b"pots",
        Field::Teams => b"teams",
        Field::Code => b"code",
        Field::Name => b"name",
        Field::Pot => b"pot",
        Field::Tags => b"tags",
        Field::Group => b"group",
        Field::Limits => b"limits",
        Field::Tag => b"tag",
        Field::Lo => b"lo",
        Field::Hi => b"hi",
        Field::Pairs => b"pairs",
        Field::Places => b"places",
        Field::Position => b"position",
    }
}
