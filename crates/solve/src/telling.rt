//! The texts of answers.

ghost use Rattle.std.specs.Prelude.{◌≡◌, ◌++◌, flat_map, OnOk};
ghost use Rattle.list_texts.specs.ListTexts.{step_line};
ghost use Rattle.solve.specs.Answers.{value_text, possible_text, impossible_text};
ghost use Rattle.solve.specs.Answers.{Grows, IsAnswerTo};

use count_core::{NoMemory, Step};
use list_texts::add_step;
use serial_search::{Answer, Outcome};

/// Writes what the answer says behind the text. Where memory runs out a part of it may be written.
pub(crate) fn add_answer(text: &mut Vec<u8>, answer: &Answer) -> Result<(), NoMemory>
    ensures { OnOk result (Grows (IsAnswerTo answer.now.problem answer.now.question)
        text.old.items text.new.items) }
{
    match answer.outcome() {
        Outcome::Possible { values } => add_possible(text, values.as_slice()),
        Outcome::Impossible { closed } => {
            let _fails = closed.question();
            add_impossible(text, closed.steps())
        }
    }
}

/// Writes the line of values that satisfy problem and question.
fn add_possible(text: &mut Vec<u8>, values: &[bool]) -> Result<(), NoMemory>
    ensures { OnOk result (text.new.items ≡ text.old.items ++ possible_text values.now) }
{
    text.extend_from_slice(b"possible")?;
    add_values(text, values)?;
    text.push(b'\n')?;
    Ok(())
}

/// Writes the values, each behind one space.
fn add_values(text: &mut Vec<u8>, values: &[bool]) -> Result<(), NoMemory>
    ensures { OnOk result (text.new.items ≡ text.old.items ++ flat_map value_text values.now) }
{
    for value in values {
        text.push(b' ')?;
        text.push(if *value { b'1' } else { b'0' })?;
    }
    Ok(())
}

/// Writes the lines of a refutation: the word, and each step.
fn add_impossible(text: &mut Vec<u8>, steps: &[Step]) -> Result<(), NoMemory>
    ensures { OnOk result (text.new.items ≡ text.old.items ++ impossible_text steps.now) }
{
    text.extend_from_slice(b"impossible\n")?;
    add_steps(text, steps)
}

/// Writes the line of each step.
fn add_steps(text: &mut Vec<u8>, steps: &[Step]) -> Result<(), NoMemory>
    ensures { OnOk result (text.new.items ≡ text.old.items ++ flat_map step_line steps.now) }
{
    for step in steps {
        add_step(text, step)?;
    }
    Ok(())
}
