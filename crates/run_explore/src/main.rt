//! The program: a script from standard input, and on standard output every end to which some order of its turns leads, each with such an
//! order.
//!
//! - `words`: which words are accepted, and what they ask for.
//! - `outcome`: what a call comes to.
//! - `top`: the whole call over any source and sink.
//! - `process`: the whole process, of which `main` is one call: from the arguments that the system gives to its code.
#![tactic(auto)]

mod outcome;
mod process;
mod top;
mod words;

use co_base::{StdSink, StdSource};
use process::process;
use std::env;
use std::process::ExitCode;

fn main(rt: HostRuntime) -> ExitCode {
    let mut source = StdSource::new(rt.stdin());
    let mut sink = StdSink::new(rt.stdout());
    let mut errors = StdSink::new(rt.stderr());
    let left = process(
        &rt,
        rt.alloc(),
        env::args(&rt),
        &mut source,
        &mut sink,
        &mut errors,
    );
    if let Some(message) = left.message {
        let _ = eprintln!(rt; "{message}");
    }
    left.code
}
