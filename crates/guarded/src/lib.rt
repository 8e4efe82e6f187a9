//! A value that one at a time has: a mutex that gives its value out.
//!
//! `try_lock` moves the value out, if it is at home, and `unlock` moves it back. Nobody waits, and nothing is used up. The value is the one
//! task of `task_berths`, whose laws say that it is at home or out at one seat, at all times: so two cannot have it, whoever does what
//! with the seats. It is the thing that is guarded, and not a permit for it.
//!
//! - `guard`: the value, a seat, and the calls.
#![tactic(auto)]

mod guard;

pub use guard::{GuardSeat, Guarded, Kept};
