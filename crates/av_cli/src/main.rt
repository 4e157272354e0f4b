//! The program: a script from standard input, the answers to standard output.
//!
//! It ends with the number of the run's status. Where the words of the command line can't be had it ends with 1 for want
//! of memory and else with 8, and no run takes place.
#![tactic(auto)]

use av_io::{StdSink, StdSource};
use av_session::{Status, run};
use std::process::ExitCode;
use std::{env, io};

/// The words of the command line after the program's name.
fn words(rt: &HostRuntime) -> io::Result<Vec<String>> {
    let mut words = Vec::new(rt.alloc());
    for word in env::args(rt)?.skip(1) {
        words.push(word)?;
    }
    Ok(words)
}

fn main(rt: HostRuntime) -> ExitCode {
    let words = match words(&rt) {
        Ok(words) => words,
        Err(error) if error.kind() == io::ErrorKind::OutOfMemory => return ExitCode::from(1),
        Err(_) => return ExitCode::from(8),
    };
    let mut source = StdSource::new(rt.stdin());
    let mut sink = StdSink::new(rt.stdout());
    let status: Status = run(rt.alloc(), &words, &mut source, &mut sink);
    ExitCode::from(status as u8)
}
