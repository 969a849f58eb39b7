//! Runs of the top calls over a source and a sink in memory.

use draw_ports::{MemorySink, MemorySource, OpenGate};
use draw_top::{Status, follow, run_check, run_draw};
use std::alloc::{AllocError, Global};
use std::sync::Wait;
use std::thread::Threads;

/// A text, piece by piece: each piece so many times.
pub(crate) type Pieces<'a> = &'a [(u32, &'a str)];

/// What stands between a head and its command lines.
pub(crate) const SEPARATOR: &str = "\n--\n";

/// A top call that takes no runtime.
#[derive(Clone, Copy)]
pub(crate) enum Call {
    Follow,
    Check,
}

/// How a run goes wrong: the most that a call of the source gives, which of its calls fails, the
/// sink's room, and which of its calls fails.
#[derive(Clone, Copy)]
pub(crate) struct Outside {
    most: usize,
    source_fails: Option<u64>,
    room: usize,
    sink_fails: Option<u64>,
}

impl Outside {
    /// A run that does not go wrong.
    pub(crate) const FINE: Outside = Outside {
        most: 4096,
        source_fails: None,
        room: 1 << 20,
        sink_fails: None,
    };
}

/// What a run stands on: its words, its source and its sink.
#[derive(Drop)]
struct Memory {
    words: Vec<String>,
    source: MemorySource,
    sink: MemorySink,
}

fn memory_of(
    alloc: Global,
    words: &[&str],
    input: Pieces,
    outside: Outside,
) -> Result<Memory, AllocError> {
    let words = words_of(alloc, words)?;
    let source = source_of(alloc, input, outside)?;
    let sink = sink_of(alloc, outside)?;
    Ok(Memory {
        words,
        source,
        sink,
    })
}

/// Whether a run of the call with these words over an input ends with the status, and the sink then
/// holds the text.
pub(crate) fn ends(
    alloc: Global,
    call: (Call, &[&str]),
    input: Pieces,
    outside: Outside,
    wanted: (Status, Pieces),
) -> Result<bool, AllocError> {
    let mut memory = memory_of(alloc, call.1, input, outside)?;
    let status = status_of(alloc, call.0, &mut memory);
    Ok(status == wanted.0 && is_made_of(memory.sink.bytes(), wanted.1))
}

fn status_of(alloc: Global, call: Call, memory: &mut Memory) -> Status {
    match call {
        Call::Follow => follow(alloc, &memory.words, &mut memory.source, &mut memory.sink),
        Call::Check => run_check(alloc, &memory.words, &mut memory.source, &mut memory.sink),
    }
}

/// Whether a run of `run_draw` ends so.
fn run_draw_ends<R: Threads + Wait + Sync>(
    rt: &R,
    alloc: Global,
    words: &[&str],
    input: Pieces,
    outside: Outside,
    wanted: (Status, Pieces),
) -> Result<bool, AllocError> {
    let mut memory = memory_of(alloc, words, input, outside)?;
    let status = run_draw_status(rt, alloc, &mut memory);
    Ok(status == wanted.0 && is_made_of(memory.sink.bytes(), wanted.1))
}

fn run_draw_status<R: Threads + Wait + Sync>(rt: &R, alloc: Global, memory: &mut Memory) -> Status {
    let Memory {
        words,
        source,
        sink,
    } = memory;
    run_draw(rt, alloc, words, source, sink, &OpenGate)
}

/// A row of a table of statuses: the words; the most that a call of the source gives, and which of
/// its calls fails; the sink's room, and which of its calls fails; the status, and the text.
pub(crate) type Row = (
    &'static [&'static str],
    (usize, Option<u64>),
    (usize, Option<u64>),
    Status,
    &'static str,
);

fn outside_of(row: &Row) -> Outside {
    Outside {
        most: row.1.0,
        source_fails: row.1.1,
        room: row.2.0,
        sink_fails: row.2.1,
    }
}

/// The place of the first row that a run of the call over the input does not end with.
pub(crate) fn first_wrong_row(
    alloc: Global,
    call: Call,
    input: Pieces,
    rows: &[Row],
) -> Result<Option<usize>, AllocError> {
    for (place, row) in rows.iter().enumerate() {
        let text = [(1, row.4)];
        let wanted = (row.3, text.as_slice());
        if !ends(alloc, (call, row.0), input, outside_of(row), wanted)? {
            return Ok(Some(place));
        }
    }
    Ok(None)
}

/// The place of the first row that a run of `run_draw` over the input does not end with.
pub(crate) fn first_wrong_draw_row<R: Threads + Wait + Sync>(
    rt: &R,
    alloc: Global,
    input: Pieces,
    rows: &[Row],
) -> Result<Option<usize>, AllocError> {
    for (place, row) in rows.iter().enumerate() {
        let text = [(1, row.4)];
        let wanted = (row.3, text.as_slice());
        if !run_draw_ends(rt, alloc, row.0, input, outside_of(row), wanted)? {
            return Ok(Some(place));
        }
    }
    Ok(None)
}

fn words_of(alloc: Global, list: &[&str]) -> Result<Vec<String>, AllocError> {
    let mut words = Vec::new(alloc);
    for word in list {
        add_word(alloc, &mut words, word)?;
    }
    Ok(words)
}

fn add_word(alloc: Global, words: &mut Vec<String>, word: &str) -> Result<(), AllocError> {
    let word = String::from_str(alloc, word)?;
    words.push(word)?;
    Ok(())
}

fn source_of(alloc: Global, input: Pieces, outside: Outside) -> Result<MemorySource, AllocError> {
    let fails = listed(alloc, outside.source_fails)?;
    let bytes = joined(alloc, input)?;
    Ok(MemorySource::new(bytes, outside.most.max(1), fails))
}

fn sink_of(alloc: Global, outside: Outside) -> Result<MemorySink, AllocError> {
    let fails = listed(alloc, outside.sink_fails)?;
    MemorySink::new(alloc, outside.room, fails)
}

fn listed(alloc: Global, call: Option<u64>) -> Result<Vec<u64>, AllocError> {
    match call {
        Some(call) => Vec::from_slice(alloc, &[call]),
        None => Ok(Vec::new(alloc)),
    }
}

fn joined(alloc: Global, pieces: Pieces) -> Result<Vec<u8>, AllocError> {
    let mut bytes = Vec::new(alloc);
    for (times, piece) in pieces {
        add_times(&mut bytes, *times, piece)?;
    }
    Ok(bytes)
}

fn add_times(bytes: &mut Vec<u8>, times: u32, piece: &str) -> Result<(), AllocError> {
    for _ in 0..times {
        bytes.extend_from_slice(piece.as_bytes())?;
    }
    Ok(())
}

/// Whether the bytes are those of the pieces.
fn is_made_of(bytes: &[u8], pieces: Pieces) -> bool {
    let Ok(mut left) = std::str::from_utf8(bytes) else {
        return false;
    };
    for (times, piece) in pieces {
        match without_times(left, *times, piece) {
            Some(rest) => left = rest,
            None => return false,
        }
    }
    left.is_empty()
}

/// What follows the piece, so many times, at the start of the text.
fn without_times<'a>(text: &'a str, times: u32, piece: &str) -> Option<&'a str> {
    let mut left = text;
    for _ in 0..times {
        left = left.strip_prefix(piece)?;
    }
    Some(left)
}
