//! Semaphores and mutexes that never wear out: an acquire that finds a permit free is one load and one exchange of one word.
//!
//! A gate has 1 to 65,535 permits, and its whole state is one word: how many permits are free, and a bit for each pass that waits, of
//! the passes 0 to 47.
//! No call takes a lock, or memory but `new`, none uses anything up, and none waits but `blocking_acquire`, which takes a handle for it.
//!
//! | the word | by | the step decides |
//! |---|---|---|
//! | a free permit less | who acquires | that it holds a permit |
//! | a bit set, while no permit is free | who acquires | that it waits for one |
//! | a free permit more, while no bit is set | who releases | that the permit is free |
//! | a bit cleared | who releases | that the pass of this bit holds the permit: it is granted |
//! | the own bit cleared | who waits | that it gave up |
//!
//! So a permit is never free while one waits. A call loads the word, chooses its act, and exchanges the word, and does so again where
//! others were first. Who waits longest is not served first; a release names the number from which it looks for one who waits.
//!
//! **The history.** An entry for each of these steps (`GateAct`); the word is a function of it. A `GatePass` has seen a beginning of the
//! history, and all entries of its own. It counts the permits that it holds; what no other pass can change is how many it holds, with
//! one more while it waits.
//!
//! - `act`, `answers`: what happens, and what the calls answer.
//! - `gate`: the table, and what a thread steps with.
//! - `meeting`: how a gate is made, and passes are split and ended.
//! - `choice`: which act a call makes, and the word.
//! - `steps`: the word is loaded and exchanged.
//! - `calls`: to acquire and to release, to look and to give up.
//! - `sleeps`: to sleep until a permit is granted, and to wake who sleeps.
//! - `laws`: what holds of a gate at all times.
#![tactic(auto)]

mod act;
mod answers;
mod calls;
mod choice;
mod gate;
mod laws;
mod meeting;
mod sleeps;
mod steps;

pub use act::{GateAct, GateEntry};
pub use answers::{Acquired, GaveUp, Released, TryAcquired, WaitState};
pub use gate::{Gate, GatePass, GateTable, Permits};
pub use laws::permits_add_up;
