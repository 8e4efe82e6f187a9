//! The run of a script, by one worker or several.

ghost use Rattle.std.specs.Prelude.{◌≤◌, IfOk};
ghost use Rattle.script_reader.specs.Scripts.{program_of};
ghost use Rattle.engine_many.specs.WordRuns.{CameToRest as CameToRestOverWords};
ghost use Rattle.engine_one.specs.Runs.{CameToRest};
ghost use Rattle.command_line.specs.Commands.{IsInLimits};
ghost use Rattle.command_line.specs.Runs.{LeftInOneOrder};
ghost use Rattle.command_line.specs.Preparing.{IsAnswerOf};

use crate::answer::{Answer, answer_of, sum_of};
use crate::words::Command;
use co_base::{Gate, Memory};
use engine_many::{WordRun, run_many};
use engine_one::{ListRun, run_one};
use note_book::Notes;
use poll_states::{Book, Done};
use script_reader::Script;
use std::alloc::Global;
use std::sync::Wait;
use std::thread::Threads;
use tally_book::Tally;

/// Runs the script of a command by its workers, and answers. The coroutines of `sum` keep tallies, and no notes.
pub(crate) fn answer_together<R: Threads + Wait + Sync, G: Gate + Sync>(
    rt: &R,
    alloc: Global,
    command: Command,
    script: &Script,
    gate: &G,
) -> Result<Answer, Memory>
    requires { IsInLimits command }
    ensures { IfOk result (IsAnswerOf command (program_of script.now)) }
{
    let workers = command.workers();
    match command {
        Command::Sum(size, asked) => {
            let done = run_together::<Tally, R, G>(rt, alloc, script, workers, gate)?;
            sum_of(alloc, size, asked, script, &done)
        }
        Command::Run(_) | Command::Check => {
            let done = run_together::<Notes, R, G>(rt, alloc, script, workers, gate)?;
            answer_of(alloc, command, script, &done)
        }
    }
}

/// The same in the calling thread.
pub(crate) fn answer_alone<G: Gate>(
    alloc: Global,
    command: Command,
    script: &Script,
    gate: &G,
) -> Result<Answer, Memory>
    ensures { IfOk result (IsAnswerOf command (program_of script.now)) }
{
    match command {
        Command::Sum(size, asked) => {
            let done = run_alone::<Tally, G>(alloc, script, gate)?;
            sum_of(alloc, size, asked, script, &done)
        }
        Command::Run(_) | Command::Check => {
            let done = run_alone::<Notes, G>(alloc, script, gate)?;
            answer_of(alloc, command, script, &done)
        }
    }
}

/// Runs the script by so many workers until no coroutine can go on: by one in the calling thread, by several over words.
fn run_together<B: Book + Send, R: Threads + Wait + Sync, G: Gate + Sync>(
    rt: &R,
    alloc: Global,
    script: &Script,
    workers: u8,
    gate: &G,
) -> Result<Done<B>, Memory>
    requires { (1 ≤ workers) × (workers ≤ 16) }
    ensures { IfOk result (LeftInOneOrder B.items (program_of script.now)) }
{
    if workers == 1 {
        return run_alone(alloc, script, gate);
    }
    let run = run_many(rt, alloc, script, workers, gate)?;
    Ok(left_of_words(script, run))
}

/// Runs the script in the calling thread until no coroutine can go on.
fn run_alone<B: Book, G: Gate>(alloc: Global, script: &Script, gate: &G) -> Result<Done<B>, Memory>
    ensures { IfOk result (LeftInOneOrder B.items (program_of script.now)) }
{
    let run = run_one(alloc, script, gate)?;
    Ok(left_of(script, run))
}

/// What a run over lists leaves, without its channels and Jobs.
fn left_of<B: Book>(script: &Script, run: ListRun<B>) -> Done<B>
    requires { CameToRest B.items (program_of script.now) run }
    ensures { LeftInOneOrder B.items (program_of script.now) result }
{
    let ListRun {
        done,
        channels: _,
        jobs: _,
    } = run;
    done
}

/// What a run over words leaves, without its channels and Jobs.
fn left_of_words<B: Book>(script: &Script, run: WordRun<B>) -> Done<B>
    requires { CameToRestOverWords B.items (program_of script.now) run }
    ensures { LeftInOneOrder B.items (program_of script.now) result }
{
    let WordRun {
        done,
        hub: _,
        pass: _,
        forest: _,
        jobs: _,
    } = run;
    done
}
