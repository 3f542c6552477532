//! Replays the script on standard input, and writes its transcript to standard output.
#![tactic(auto)]

use byte_ends::{StdSink, StdSource};
use cluster_top::{Status, code, fault_text, run};
use std::io::{ErrorKind, Write};
use std::process::ExitCode;
use std::{env, io, mem};

/// The words after the program's name.
fn words(rt: &HostRuntime) -> io::Result<Vec<String>> {
    let mut words = Vec::new(rt.alloc());
    for word in env::args(rt)?.skip(1) {
        words.push(word)?;
    }
    Ok(words)
}

/// Runs over the standard streams. Words that aren't text are no words that it takes.
fn status(rt: &HostRuntime) -> Status {
    match words(rt) {
        Ok(words) => {
            let mut source = StdSource::new(rt.reader());
            let mut sink = StdSink::new(io::writer(rt));
            let outcome = run(rt.alloc(), words.as_slice(), &mut source, &mut sink);
            let status = outcome.status();
            // The process ends soon: the memory of lines and records needn't be given back.
            mem::forget(outcome);
            status
        }
        Err(error) if error.kind() == ErrorKind::OutOfMemory => Status::NoMemory,
        Err(_) => Status::BadWords,
    }
}

/// Writes the fault's text and a line feed, as far as memory and standard error let it.
fn report(rt: &HostRuntime, status: &Status) {
    if let Ok(text) = fault_text(rt.alloc(), status) {
        let mut errors = rt.stderr();
        let _ = errors.write_all(text.as_slice());
        let _ = errors.write_all(b"\n");
    }
}

fn main(rt: HostRuntime) -> ExitCode {
    let status = status(&rt);
    if status != Status::Done {
        report(&rt, &status);
    }
    ExitCode::from(code(&status))
}
