//! The program: a script of coroutines from standard input, its report on standard output. All that it does is one call of `process`.
#![tactic(auto)]

use co_base::{OpenGate, StdSink, StdSource};
use command_line::process;
use std::env;
use std::process::ExitCode;

fn main(rt: HostRuntime) -> ExitCode {
    let mut source = StdSource::new(rt.stdin());
    let mut sink = StdSink::new(rt.stdout());
    let left = process(
        &rt,
        rt.alloc(),
        env::args(&rt),
        &mut source,
        &mut sink,
        &OpenGate,
    );
    if let Some(message) = left.message {
        let _ = eprintln!(rt; "{message}");
    }
    left.code
}
