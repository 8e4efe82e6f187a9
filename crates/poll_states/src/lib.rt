//! A coroutine between two moves: how far its code is, what it waits for, and the book of its calls.
//!
//! A poll runs at most one line of one coroutine, over any floor of channels and any floor of Jobs. What a coroutine may tell, move by
//! move, stands in `script_meaning` (`specs/Moves.antt`, and that it was so in `specs/Books.antt`); a poll keeps to it whatever other
//! coroutines do in between.
//!
//! A frame is always in one of these stages. A poll does what stands there, once:
//!
//! | stage | what a poll does | next stage | function |
//! |---|---|---|---|
//! | `Fresh` | looks at the coroutine's own Job | may run: as `Running`, in this poll; Cancelling: `Unwinding` | `first_turn` |
//! | `Running` | runs the line | `Running`, `Waiting`, `SeesJob`, `Leaving`, `SeesScope`, `Unwinding` | `run`, `run_line` |
//! | `Running`, no line left | ends the body | `Ended` | `run`, `end_body` |
//! | `Waiting`, resolved | settles the wait, if the innermost Job may run | as its line says | `wait_turn`, `end_wait` |
//! | `Waiting` | gives the wait up, if the innermost Job is Cancelling | `Unwinding` | `wait_turn`, `give_up` |
//! | `SeesJob` | looks whether the awaited Job has ended | `Running`, `Unwinding` | `see_turn`, `see_job` |
//! | `Unwinding`, in a scope | breaks the innermost scope off | `Leaving`, `SeesScope`, `Unwinding` | `unwind`, `break_scope` |
//! | `Unwinding`, in none | breaks the body off | `Ended` | `unwind`, `break_off` |
//! | `Leaving`, resolved | settles the wait | `SeesScope` | `leave_turn`, `end_scope_wait` |
//! | `SeesScope` | looks whether the innermost scope has ended | `Running`, `Unwinding` | `see_turn`, `see_scope` |
//! | `Ended` | nothing | `Ended` | `turn_of` |
//!
//! A stage whose condition does not hold stays. What has to see an end is made to look for it in the poll that comes there (`go_on`).
//!
//! - `entered`: what a coroutine has entered and not left.
//! - `book`: what engines ask of the books of coroutines.
//! - `coroutine`: a coroutine between two moves.
//! - `frame`: a coroutine as engines keep it, and what is left of a run.
//! - `frame_key`: where a coroutine is, as numbers.
//! - `inside`: how a coroutine enters and leaves repeats, eaches and scopes.
//! - `floors`: what polls work on, and how a call has it lent.
//! - `code`: the code that a coroutine runs.
//! - `answers`: where a coroutine goes on by an answer.
//! - `calls`: the lines that call a channel.
//! - `named`: the lines that name a Job.
//! - `jobs`: `yield` and the launch of a Job, and the end of the body.
//! - `scopes`: the lines of scopes, and how the end of one is waited for and seen.
//! - `seen_ends`: how a coroutine sees an end.
//! - `loops`: the lines of repeats, and the ends of what a coroutine entered.
//! - `selects`: a select.
//! - `waits`: the end of a wait.
//! - `lines`: the lines of a coroutine.
//! - `beginning`: the root attaches what the script spawns.
//! - `polls`: one line.
#![tactic(auto)]

mod answers;
mod beginning;
mod book;
mod calls;
mod code;
mod coroutine;
mod entered;
mod floors;
mod frame;
mod frame_key;
mod inside;
mod jobs;
mod lines;
mod loops;
mod named;
mod polls;
mod scopes;
mod seen_ends;
mod selects;
mod waits;

pub use beginning::begin;
pub use book::Book;
pub use coroutine::Coroutine;
pub use floors::Floors;
pub use frame::{Done, Frame};
pub use polls::poll;
pub use script_meaning::{Stage, Turn};
