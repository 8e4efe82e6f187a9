//! The program: channels and a history of them and of Jobs from standard input, or a script and a log or a report of it, and whether the
//! rules allow it on standard output; or, with `--log`, a script from standard input, and the log of a run of it on standard output.
//!
//! - `words`: which words are accepted.
//! - `outcome`: what a call comes to.
//! - `reading`: the whole input.
//! - `texts`: the lines that are written.
//! - `top`: the whole call over any source and sink.
//! - `process`: the whole process, of which `main` is one call: from the arguments that the system gives to its code.
#![tactic(auto)]

mod outcome;
mod process;
mod reading;
mod texts;
mod top;
mod words;

use co_base::{StdSink, StdSource};
use process::process;
use std::env;
use std::process::ExitCode;

fn main(rt: HostRuntime) -> ExitCode {
    let mut source = StdSource::new(rt.stdin());
    let mut sink = StdSink::new(rt.stdout());
    let left = process(rt.alloc(), env::args(&rt), &mut source, &mut sink);
    if let Some(message) = left.message {
        let _ = eprintln!(rt; "{message}");
    }
    left.code
}
