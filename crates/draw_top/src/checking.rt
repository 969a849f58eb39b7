//! The top call of the program `drawcheck`: what the written rules say of a table.

ghost use Rattle.std.specs.Prelude.{◌≡◌, ◌≢◌, ◌∷◌, [], ◌↔◌, List, ℕ, IfOk, IsTrue, MatchOption};
ghost use Rattle.draw_tables.specs.declared.table.Table.{Table as TableValue};
ghost use Rattle.draw_lines.specs.Inputs.{lines_of};
ghost use Rattle.draw_top.specs.Outside.{outside};
ghost use Rattle.draw_top.specs.Follow.{words_of};
ghost use Rattle.draw_top.specs.Check.{AreTableLine, IsJudge, broken_line};
ghost use Rattle.draw_top.specs.Check.{GainsApproval, GainsObjection};
ghost use Rattle.draw_top.specs.Reports.{IsTableReport, IsReportOf};
ghost use Rattle.draw_top.specs.Modes.{AsksFor, Drawcheck, Judge};
ghost use Rattle.draw_top.specs.Endings.{EndsAs, Ends, EndsAsDecided, IsComplete};

use crate::endings::{INPUT_LIMIT, finish, read_input};
use crate::faults::refusal_line;
use crate::status::Status;
use draw_lines::{first_line, split_input};
use draw_ports::{Sink, Source};
use draw_tables::{
    Table, TableFault, Verdict, judge, law_legal_where_nothing_broken, law_one_table_of_text,
    read_table,
};
use rule_sets::{DrawFile, read_file};
use std::alloc::{AllocError, Global};

const CHECK_USAGE: &[u8] = b"usage: drawcheck judge|audit|replay\n";

/// Whether the words are the one form, `judge` alone.
fn is_judge(words: &[String]) -> bool
    ensures { IsTrue result ↔ IsJudge (words_of words.now) }
{
    match words {
        [word] => word.as_str() == "judge",
        _ => false,
    }
}

/// What is written for an input.
#[derive(Drop)]
enum Report {
    /// Its table is legal.
    Legal,
    /// Its table is not legal, or there is no table: the line that tells so.
    NotValid(Vec<u8>),
    /// Its head has no draw file: the line of the first fault.
    Refused(Vec<u8>),
}

/// What is said of an input: its table is legal, or is not, or there is none, or no draw file.
fn report_of(alloc: Global, input: &[u8]) -> Result<Report, AllocError>
    ensures { IfOk result (λ report. IsReportOf input.now report) }
{
    let (head, commands) = split_input(input);
    match read_file(alloc, head) {
        Ok(file) => {
            let report = table_report(alloc, &file, commands)?;
            Ok(report)
        }
        Err(fault) => {
            let line = refusal_line(alloc, &fault)?;
            Ok(Report::Refused(line))
        }
    }
}

/// What is said of a file and the bytes after its head.
fn table_report(alloc: Global, file: &DrawFile, commands: &[u8]) -> Result<Report, AllocError>
    ensures { IfOk result (λ report. IsTableReport file.now (lines_of commands.now) report) }
{
    let Some(table) = table_in(alloc, file, commands)? else {
        let line = Vec::from_slice(alloc, b"not a table\n")?;
        return Ok(Report::NotValid(line));
    };
    match judge(file, &table) {
        Verdict::Legal => Ok(Report::Legal),
        Verdict::Broken {
            rule,
            first,
            second,
        } => {
            let line = broken_line(alloc, rule, first, second)?;
            Ok(Report::NotValid(line))
        }
    }
}

/// The table of which the bytes are the one line, where they are exactly one line and that is the
/// text of a table of the file.
fn table_in(alloc: Global, file: &DrawFile, commands: &[u8]) -> Result<Option<Table>, AllocError>
    ensures { IfOk result (λ found. MatchOption found
        ((table : TableValue) → ¬ AreTableLine file.now (lines_of commands.now) table)
        (λ table. AreTableLine file.now (lines_of commands.now) table)) }
{
    let Some(line) = only_line(commands) else {
        return Ok(None);
    };
    match read_table(alloc, file, line) {
        Ok(table) => Ok(Some(table)),
        Err(TableFault::NotTable) => Ok(None),
        Err(TableFault::NoMemory) => Err(AllocError),
    }
}

/// The one line that the bytes are, without its end. `None` exactly where they are not one line.
fn only_line(bytes: &[u8]) -> Option<&[u8]>
    ensures { MatchOption result
        ((line : List ℕ) → lines_of bytes.now ≢ line ∷ [])
        (λ line. lines_of bytes.now ≡ line.now ∷ []) }
{
    let (line, rest) = first_line(bytes)?;
    match first_line(rest) {
        None => Some(line),
        Some(_) => None,
    }
}

/// The line that tells the first case of a broken rule.
fn broken_line(alloc: Global, rule: u32, first: u32, second: u32) -> Result<Vec<u8>, AllocError>
    ensures { IfOk result (λ line. line.items ≡ broken_line rule first second) }
{
    let line = format!(in alloc; "broken {rule} {first} {second}\n")?;
    Ok(line.into_bytes())
}

/// Reads an input to its end and writes what is said of it. The order of the causes is ReadFault,
/// TooLong, FileRefused, NotValid.
fn judge_input<S: Source, K: Sink>(alloc: Global, src: &mut S, out: &mut K) -> Status
    ensures ends { EndsAs Judge result
        (outside (S.left src.old) (K.wrote out.old) (S.faults src.old) (K.faults out.old))
        (outside (S.left src.new) (K.wrote out.new) (S.faults src.new) (K.faults out.new)) }
    ensures complete { EndsAsDecided Judge result
        (outside (S.left src.old) (K.wrote out.old) (S.faults src.old) (K.faults out.old))
        (outside (S.left src.new) (K.wrote out.new) (S.faults src.new) (K.faults out.new)) }
{
    let input = match read_input(alloc, src, INPUT_LIMIT) {
        Ok(input) => input,
        Err(status) => return status,
    };
    // For the clause `complete`: a text is of one table, and what breaks no rule is legal.
    law_one_table_of_text();
    law_legal_where_nothing_broken();
    match report_of(alloc, &input) {
        Ok(Report::Legal) => finish(out, b"legal\n", Status::Ok),
        Ok(Report::NotValid(line)) => finish(out, &line, Status::NotValid),
        Ok(Report::Refused(line)) => finish(out, &line, Status::FileRefused),
        Err(_) => Status::NoMemory,
    }
}

/// The top call of the program `drawcheck`. `words` are the words after the program's name. It
/// reads an input to its end, a draw file's head, the separator and one table line, and writes
/// `legal`, the first case of the first broken rule, or that there is no table; where the head has
/// no draw file it writes the line of the first fault. Where the words are not `judge` alone it
/// writes the usage line and reads nothing. It ends with
///
/// - `Ok` where the table is legal, and `legal` was written;
/// - `Usage` where the words are not `judge` alone, and the usage line was written;
/// - `FileRefused` where the head has no draw file, and the line of its first fault was written;
/// - `ReadFault` where the source failed, and nothing was written;
/// - `WriteFault` where the sink failed, after some first bytes of what was to be written;
/// - `NoMemory` where no memory was left, and nothing was written;
/// - `TooLong` where the source held more than 4,194,304 bytes, and nothing was written;
/// - `NotValid` where the table is not legal or there is none, and what is wrong was written.
///
/// The order of the causes is Usage, ReadFault, TooLong, FileRefused, NotValid. It waits for nobody
/// and always returns.
pub fn run_check<S: Source, K: Sink>(
    alloc: Global,
    words: &[String],
    src: &mut S,
    out: &mut K,
) -> Status
    // The promises: what the sink gained tells whether the source's bytes hold a legal table.
    ensures approval { AsksFor Drawcheck (words_of words.now) Judge → result ≡ Status.Ok
        → GainsApproval (S.left src.old) (K.wrote out.old) (K.wrote out.new) }
    ensures objection { AsksFor Drawcheck (words_of words.now) Judge → result ≡ Status.NotValid
        → GainsObjection (S.left src.old) (K.wrote out.old) (K.wrote out.new) }
    // Each status and its cause.
    ensures ends { Ends Drawcheck result (words_of words.now)
        (outside (S.left src.old) (K.wrote out.old) (S.faults src.old) (K.faults out.old))
        (outside (S.left src.new) (K.wrote out.new) (S.faults src.new) (K.faults out.new)) }
    // The right words and no fault: by the bytes alone, or no memory.
    ensures complete { IsComplete Drawcheck result (words_of words.now)
        (outside (S.left src.old) (K.wrote out.old) (S.faults src.old) (K.faults out.old))
        (outside (S.left src.new) (K.wrote out.new) (S.faults src.new) (K.faults out.new)) }
{
    if !is_judge(words) {
        return finish(out, CHECK_USAGE, Status::Usage);
    }
    judge_input(alloc, src, out)
}
