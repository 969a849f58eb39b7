//! The program `solve`: reads a count problem and questions as a text, and prints an answer to each
//! question, with values that satisfy both or with the steps of a refutation.
#![tactic(auto)]

mod answering;
#[cfg(test)]
mod memory_tests;
mod program;
mod questions;
mod reporting;
mod running;
mod status;
mod telling;

use crate::program::run_program;
use draw_ports::{StdSink, StdSource, read_arguments};
use std::process::ExitCode;
use std::{env, io};

/// Makes the words and the streams; all else is done by `run_program`.
fn main(rt: HostRuntime) -> ExitCode {
    let words = read_arguments(rt.alloc(), env::args(&rt));
    let mut source = StdSource::new(rt.reader());
    let mut sink = StdSink::new(io::writer(&rt));
    let mut errors = StdSink::new(rt.stderr());
    run_program(rt.alloc(), words, &mut source, &mut sink, &mut errors)
}
