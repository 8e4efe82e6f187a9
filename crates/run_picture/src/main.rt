//! The program: a report of a run from standard input, a picture of it on standard output.
//!
//! - `words`: which words are accepted, and what they ask for.
//! - `outcome`: what a call comes to.
//! - `reading`: a whole report out of a source.
//! - `top`: the whole call over any source and sink.
//! - `process`: the whole process, of which `main` is one call: from the arguments that the system gives to its code.
#![tactic(auto)]

mod outcome;
mod process;
mod reading;
mod top;
mod words;

use co_base::{StdSink, StdSource};
use outcome::Hint;
use process::process;
use std::env;
use std::process::ExitCode;

fn main(rt: HostRuntime) -> ExitCode {
    let mut source = StdSource::new(rt.stdin());
    let mut sink = StdSink::new(rt.stdout());
    let left = process(rt.alloc(), env::args(&rt), &mut source, &mut sink);
    if let Some(message) = left.message {
        let _ = eprintln!(rt; "{message}");
    }
    if left.hint {
        let _ = eprintln!(rt; "{}", Hint);
    }
    left.code
}
