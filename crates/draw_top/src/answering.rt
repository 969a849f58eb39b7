//! The answer text of a file and its command lines.

ghost use Rattle.std.specs.Prelude.{◌≡◌, IfOk};
ghost use Rattle.draw_lines.specs.Inputs.{lines_of};
ghost use Rattle.draw_lines.specs.Answers.{IsAnswer};
ghost use Rattle.draw_top.specs.Replies.{IsOpeningOf, IsReplyTo};

use crate::turn::Turn;
use draw_lines::{first_line, opening_text, read_line, reply_text};
use rule_sets::DrawFile;
use std::alloc::{AllocError, Global};

/// The answer text of a file and the lines of these bytes.
pub fn answer_text(alloc: Global, file: &DrawFile, commands: &[u8]) -> Result<Vec<u8>, AllocError>
    ensures { IfOk result (λ text. IsAnswer file.now (lines_of commands.now) text.items) }
{
    let mut turn = Turn::open(alloc, file)?;
    let mut text = opening(alloc, &turn)?;
    let mut answered = 0;
    let mut left = commands;
    while let Some((line, after)) = first_line(left) {
        let reply = answer_line(alloc, &mut turn, answered, line)?;
        text.extend_from_slice(&reply)?;
        answered += 1;
        left = after;
    }
    Ok(text)
}

/// The opening of a turn.
fn opening(alloc: Global, turn: &Turn) -> Result<Vec<u8>, AllocError>
    ensures { IfOk result (λ text. IsOpeningOf turn.now text.items) }
{
    let next = turn.next(alloc)?;
    let text = opening_text(alloc, turn.file(), &next)?;
    Ok(text)
}

/// The reply to a line, where so many commands were `answered` before.
fn answer_line(
    alloc: Global,
    turn: &mut Turn,
    answered: u64,
    line: &[u8],
) -> Result<Vec<u8>, AllocError>
    ensures reply { IfOk result (λ text. IsReplyTo turn.old turn.new answered line.now text.items) }
    ensures file { turn.new.file ≡ turn.old.file }
{
    let reply = turn.answer(alloc, answered, read_line(line))?;
    let text = reply_text(alloc, turn.file(), &reply)?;
    Ok(text)
}
