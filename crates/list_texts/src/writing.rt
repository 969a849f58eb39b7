ghost use Rattle.std.specs.Prelude.{◌≡◌, ◌++◌, flat_map, OnOk};
ghost use Rattle.std.specs.Fmt.{decimal};
ghost use Rattle.list_texts.specs.ListTexts.{lit_text, hint_text, step_line};

use count_core::{Hint, Lit, Step};
use itoa::Buffer;
use std::alloc::AllocError;

/// Writes the line `s LITS / HINTS` of a step, with its line feed, behind the text. Where memory
/// runs out a part of it may be written.
pub fn add_step(text: &mut Vec<u8>, step: &Step) -> Result<(), AllocError>
    ensures { OnOk result (text.new.items ≡ text.old.items ++ step_line step.now) }
{
    text.push(b's')?;
    add_lits(text, step.clause.as_slice())?;
    text.extend_from_slice(b" /")?;
    add_hints(text, step.hints.as_slice())?;
    text.push(b'\n')?;
    Ok(())
}

/// Writes the literals, each behind one space.
fn add_lits(text: &mut Vec<u8>, lits: &[Lit]) -> Result<(), AllocError>
    ensures { OnOk result (text.new.items ≡ text.old.items ++ flat_map lit_text lits.now) }
{
    for lit in lits {
        add_lit(text, *lit)?;
    }
    Ok(())
}

/// Writes the literal behind one space: its sign and the number of its atom.
fn add_lit(text: &mut Vec<u8>, lit: Lit) -> Result<(), AllocError>
    ensures { OnOk result (text.new.items ≡ text.old.items ++ lit_text lit) }
{
    text.push(b' ')?;
    text.push(if lit.positive { b'+' } else { b'-' })?;
    add_number(text, lit.atom.0)
}

/// Writes the hints, each behind one space.
fn add_hints(text: &mut Vec<u8>, hints: &[Hint]) -> Result<(), AllocError>
    ensures { OnOk result (text.new.items ≡ text.old.items ++ flat_map hint_text hints.now) }
{
    for hint in hints {
        add_hint(text, *hint)?;
    }
    Ok(())
}

/// Writes the hint behind one space: its kind and the number of its rule or step.
fn add_hint(text: &mut Vec<u8>, hint: Hint) -> Result<(), AllocError>
    ensures { OnOk result (text.new.items ≡ text.old.items ++ hint_text hint) }
{
    match hint {
        Hint::Rule(number) => {
            text.extend_from_slice(b" r")?;
            add_number(text, number)
        }
        Hint::Step(number) => {
            text.extend_from_slice(b" s")?;
            add_number(text, number)
        }
    }
}

/// Writes the number in decimal digits.
fn add_number(text: &mut Vec<u8>, number: u32) -> Result<(), AllocError>
    ensures { OnOk result (text.new.items ≡ text.old.items ++ decimal number) }
{
    let mut digits = Buffer::new();
    text.extend_from_slice(digits.format(number).as_bytes())
}
