ghost use Rattle.std.specs.Prelude.{◌≡◌, ◌≢◌, ◌⊎◌, IfOk, IsErrOf};
ghost use Rattle.std.specs.Io.KnownBytes.{Appends, Keeps, IsAtEnd};
ghost use Rattle.draw_ports.specs.Causes.{Rose, AppendsSome};
ghost use Rattle.list_texts.specs.Limits.{words_of, HaveLimit};
ghost use Rattle.stepcheck.specs.Runs.{usage_line, bad_line, IsCountableList, IsUncountableText, GainsApproval, GainsObjection, GainsRefusal, GainsPart, FitsLimit, IsTooMuch, HoldsAccepted, HoldsBad, HoldsRefused, HoldsTooMuch};
ghost use Rattle.stepcheck.specs.Verdicts.{IsListReport, IsReportOf};

use crate::status::Status;
use crate::verdict::{Unsaid, Verdict, verdict_of};
use cert_checker::Checked;
use draw_ports::{PortFault, Sink, Source, put_all, read_all};
use list_texts::{ListFault, Listing, fault_line, limit_of, no_list_line};
use std::alloc::{AllocError, Global};

const USAGE: &[u8] = b"usage: stepcheck BYTES\n";

/// What is written of the bytes that were read.
#[derive(Drop)]
enum Report {
    /// They list rules that make a problem, and steps that are accepted.
    Accepted,
    /// They list a step that is not accepted: the line that tells the first.
    Bad(Vec<u8>),
    /// They are no list, or the rules make no problem: the line that tells why.
    Refused(Vec<u8>),
}

/// What is written of the bytes.
fn report_of(alloc: Global, text: &[u8]) -> Result<Report, Unsaid>
    ensures told { IfOk result (λ report. IsReportOf text.now report) }
    ensures too_long { IsErrOf result Unsaid.TooLong → IsUncountableText text.now }
{
    match Listing::read(alloc, text) {
        Ok(listing) => list_report(alloc, listing),
        Err(ListFault::Line(line)) => match no_list_line(alloc, line) {
            Ok(line) => Ok(Report::Refused(line)),
            Err(_) => Err(Unsaid::NoMemory),
        },
        Err(ListFault::NoMemory) => Err(Unsaid::NoMemory),
    }
}

/// What is written of the list.
fn list_report(alloc: Global, listing: Listing) -> Result<Report, Unsaid>
    ensures told { IfOk result (λ report. IsListReport listing.atoms listing.rules.items listing.steps.items report) }
    ensures too_long { IsErrOf result Unsaid.TooLong → IsCountableList listing.rules.items listing.steps.items → ⊥ }
{
    let verdict = match verdict_of(alloc, listing) {
        Ok(verdict) => verdict,
        Err(unsaid) => return Err(unsaid),
    };
    match verdict {
        Verdict::Refused(fault) => match fault_line(alloc, fault) {
            Ok(line) => Ok(Report::Refused(line)),
            Err(_) => Err(Unsaid::NoMemory),
        },
        Verdict::Checked(Checked::Accepted) => Ok(Report::Accepted),
        Verdict::Checked(Checked::Bad { step, hint }) => match bad_line(alloc, step, hint) {
            Ok(line) => Ok(Report::Bad(line)),
            Err(_) => Err(Unsaid::NoMemory),
        },
    }
}

/// The line of the first step that is not accepted.
fn bad_line(alloc: Global, step: u32, hint: u32) -> Result<Vec<u8>, AllocError>
    ensures { IfOk result (λ text. text.items ≡ bad_line step hint) }
{
    let text = format!(in alloc; "bad {step} {hint}\n")?;
    Ok(text.into_bytes())
}

/// Reads a list of at most so many bytes as the one word says, and writes what is said of it; where
/// the words are not one number it writes the usage line and reads nothing. The order of the causes
/// is Usage, ReadFault, TooLong, Refused, Bad.
pub(crate) fn run<S: Source, K: Sink>(
    alloc: Global,
    words: &[String],
    src: &mut S,
    out: &mut K,
) -> Status
    // Accepted exactly for the text of an accepted list, with the source at its end.
    ensures accepted { result ≡ Status.Accepted → GainsApproval (S.left src.old) (K.wrote out.old) (K.wrote out.new) }
    ensures accepted_end { result ≡ Status.Accepted → IsAtEnd (S.left src.new) }
    ensures accepted_fits { result ≡ Status.Accepted → FitsLimit (words_of words.now) (S.left src.old) }
    // Bad exactly for the text of a list with a first bad step.
    ensures bad { result ≡ Status.Bad → GainsObjection (S.left src.old) (K.wrote out.old) (K.wrote out.new) }
    ensures bad_end { result ≡ Status.Bad → IsAtEnd (S.left src.new) }
    ensures bad_fits { result ≡ Status.Bad → FitsLimit (words_of words.now) (S.left src.old) }
    // Refused exactly for what is no list's text, or a list's whose rules make no problem.
    ensures refused { result ≡ Status.Refused → GainsRefusal (S.left src.old) (K.wrote out.old) (K.wrote out.new) }
    ensures refused_end { result ≡ Status.Refused → IsAtEnd (S.left src.new) }
    ensures refused_fits { result ≡ Status.Refused → FitsLimit (words_of words.now) (S.left src.old) }
    // Usage exactly by the words.
    ensures usage { result ≡ Status.Usage → HaveLimit (words_of words.now) → ⊥ }
    ensures usage_line { result ≡ Status.Usage → Appends (K.wrote out.old) (K.wrote out.new) usage_line }
    ensures usage_reads_nothing { (HaveLimit (words_of words.now) → ⊥) → (S.left src.new ≡ S.left src.old) × (S.faults src.new ≡ S.faults src.old) }
    ensures no_limit { (HaveLimit (words_of words.now) → ⊥) → (result ≡ Status.Usage) ⊎ (result ≡ Status.WriteFault) }
    // A fault only where that object's count rose in this call; after a failed `put` or `take` no other status.
    ensures read { result ≡ Status.ReadFault → Rose (S.faults src.old) (S.faults src.new) }
    ensures source_quiet { result ≢ Status.ReadFault → S.faults src.new ≡ S.faults src.old }
    ensures sink_quiet { result ≢ Status.WriteFault → K.faults out.new ≡ K.faults out.old }
    ensures read_none { result ≡ Status.ReadFault → Keeps (K.wrote out.old) (K.wrote out.new) }
    ensures write { result ≡ Status.WriteFault → Rose (K.faults out.old) (K.faults out.new) }
    ensures write_part { result ≡ Status.WriteFault → HaveLimit (words_of words.now) → GainsPart (S.left src.old) (K.wrote out.old) (K.wrote out.new) }
    ensures write_usage { result ≡ Status.WriteFault → (HaveLimit (words_of words.now) → ⊥) → AppendsSome (K.wrote out.old) (K.wrote out.new) usage_line }
    // Too long by the number of bytes, or by a list that a u32 does not number.
    ensures too_long { result ≡ Status.TooLong → IsTooMuch (words_of words.now) (S.left src.old) }
    ensures too_long_none { result ≡ Status.TooLong → Keeps (K.wrote out.old) (K.wrote out.new) }
    ensures no_memory_none { result ≡ Status.NoMemory → Keeps (K.wrote out.old) (K.wrote out.new) }
    // The right words and no fault: by the bytes alone, or no memory.
    ensures complete { HoldsAccepted (words_of words.now) (S.left src.old)
        → (Rose (S.faults src.old) (S.faults src.new) → ⊥) → (Rose (K.faults out.old) (K.faults out.new) → ⊥)
        → (result ≡ Status.Accepted) ⊎ ((result ≡ Status.TooLong) ⊎ (result ≡ Status.NoMemory)) }
    ensures complete_bad { HoldsBad (words_of words.now) (S.left src.old)
        → (Rose (S.faults src.old) (S.faults src.new) → ⊥) → (Rose (K.faults out.old) (K.faults out.new) → ⊥)
        → (result ≡ Status.Bad) ⊎ ((result ≡ Status.TooLong) ⊎ (result ≡ Status.NoMemory)) }
    ensures complete_refused { HoldsRefused (words_of words.now) (S.left src.old)
        → (Rose (S.faults src.old) (S.faults src.new) → ⊥) → (Rose (K.faults out.old) (K.faults out.new) → ⊥)
        → (result ≡ Status.Refused) ⊎ ((result ≡ Status.TooLong) ⊎ (result ≡ Status.NoMemory)) }
    ensures complete_too_long { HoldsTooMuch (words_of words.now) (S.left src.old)
        → (Rose (S.faults src.old) (S.faults src.new) → ⊥) → (Rose (K.faults out.old) (K.faults out.new) → ⊥)
        → (result ≡ Status.TooLong) ⊎ (result ≡ Status.NoMemory) }
{
    let Some(limit) = limit_of(words) else {
        return match put_all(out, USAGE) {
            Ok(()) => Status::Usage,
            Err(_) => Status::WriteFault,
        };
    };
    let text = match read_all(alloc, src, limit) {
        Ok(text) => text,
        Err(PortFault::Read) => return Status::ReadFault,
        Err(PortFault::TooLong { limit: _ }) => return Status::TooLong,
        Err(_) => return Status::NoMemory,
    };
    match report_of(alloc, &text) {
        Ok(Report::Accepted) => match put_all(out, b"accepted\n") {
            Ok(()) => Status::Accepted,
            Err(_) => Status::WriteFault,
        },
        Ok(Report::Bad(line)) => match put_all(out, &line) {
            Ok(()) => Status::Bad,
            Err(_) => Status::WriteFault,
        },
        Ok(Report::Refused(line)) => match put_all(out, &line) {
            Ok(()) => Status::Refused,
            Err(_) => Status::WriteFault,
        },
        Err(Unsaid::TooLong) => Status::TooLong,
        Err(Unsaid::NoMemory) => Status::NoMemory,
    }
}
