//! Replays the script on standard input, and writes its transcript to standard output. It takes no
//! words: what it is made of is light, and so soon compiled.
#![tactic(auto)]

use byte_ends::{StdSink, StdSource};
use replay_core::{Status, code, fault_text, replay};
use std::io::{ErrorKind, Write};
use std::process::ExitCode;
use std::{env, io, mem};

/// Replays over the standard streams, unless a word stands after the program's name.
fn status(rt: &HostRuntime) -> Status {
    match env::args(rt) {
        Ok(words) if words.len() <= 1 => replay_input(rt),
        Err(error) if error.kind() == ErrorKind::OutOfMemory => Status::NoMemory,
        _ => Status::BadWords,
    }
}

fn replay_input(rt: &HostRuntime) -> Status {
    let mut source = StdSource::new(rt.reader());
    let mut sink = StdSink::new(io::writer(rt));
    let outcome = replay(rt.alloc(), &mut source, &mut sink);
    let status = outcome.status();
    // The process ends soon: the memory of lines and records needn't be given back.
    mem::forget(outcome);
    status
}

/// Writes the fault's text and a line feed, as far as memory and standard error let it.
fn report(rt: &HostRuntime, status: &Status) {
    if let Ok(text) = fault_text(rt.alloc(), status) {
        let mut errors = rt.stderr();
        let _ = errors.write_all(text.as_slice());
        let _ = errors.write_all(b"\n");
    }
}

fn main(rt: HostRuntime) -> ExitCode {
    let status = status(&rt);
    if status != Status::Done {
        report(&rt, &status);
    }
    ExitCode::from(code(&status))
}
