//! The program `stepcheck`: reads a problem and steps as a text, and prints what `check` answers.
#![tactic(auto)]

mod program;
mod running;
mod status;
mod verdict;

use crate::program::run_program;
use draw_ports::{StdSink, StdSource, read_arguments};
use std::process::ExitCode;
use std::{env, io};

/// Makes the words and the streams; all else is done by `run_program`.
fn main(rt: HostRuntime) -> ExitCode {
    let words = read_arguments(rt.alloc(), env::args(&rt));
    let mut source = StdSource::new(rt.reader());
    let mut sink = StdSink::new(io::writer(&rt));
    let mut errors = StdSink::new(rt.stderr());
    run_program(rt.alloc(), words, &mut source, &mut sink, &mut errors)
}
