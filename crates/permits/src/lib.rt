//! The permits of a semaphore, and of a mutex, which has one: elements of an unlimited channel, over any floor of channels. They are
//! `Semaphore` and `Mutex` of `kotlinx.coroutines.sync`, without an owner and without `withPermit`.
//!
//! Whoever fills the channel puts n elements into it. To acquire a permit is to receive one, and to wait if none is free; to release it is
//! to send one, which goes to whoever waits first. A coroutine that is cancelled while it waits gives back a permit that came meanwhile.
//! What a call tells is noted, and was so at moments of that call (`specs/Answers.antt`).
//!
//! **What is counted.** A caller keeps a number, which is that of the permits that it holds: those that it got less those that it gave
//! back (`specs/Parts.antt`). Each call needs that the number is right, and that the caller has used the channel by these calls alone; both
//! hold again after the call, also if no memory was found. If all coroutines do so, and one of them filled the channel with n, then the
//! permits that are free, those on their way to a wait and those that are held are n at every moment (`specs/Laws.antt`).
//!
//! | call | the act on the channel | the number |
//! |---|---|---|
//! | `fill` | n times Put or Hand | |
//! | `acquire`, `try_acquire` | Take | one more |
//! | `acquire` | Await, if none is free | |
//! | `take_up` | Settle, of a wait that was resolved | one more, if an element was handed |
//! | `release` | Put or Hand | one less |
//! | `cancel_acquire` | Withdraw and Settle, or Settle alone; then Put or Hand, if an element had been handed | |
//!
//! - `permits`: the semaphore, and what its calls come to
//! - `steps`: one receive, one offer and the end of one wait, each with room of its own: so a call that finds no memory has done nothing,
//!   or says what it has done
//! - `filling`, `acquiring`, `releasing`, `cancelling`: the calls
//! - `laws`: that all permits add up
//!
//! In `proofs/`, in the order to read: `Sums`, over the first numbers and over the acts of all coroutines; `Flows`, what each act does to
//! the permits that are free or on their way; `Adding`, the law; `PartsGo`, the part of a coroutine with one act more; `Bounds`, that the
//! number fits; `PlainWaits`, that an own wait is that of a plain receiver; `StepsTold`, each answer of a floor; `UsesGo` and `FillsGo`,
//! the condition after each call.
#![tactic(auto)]

mod acquiring;
mod cancelling;
mod filling;
mod laws;
mod permits;
mod releasing;
mod steps;

pub use acquiring::{acquire, take_up, try_acquire};
pub use cancelling::cancel_acquire;
pub use filling::fill;
pub use laws::permits_add_up;
pub use permits::{Acquired, Filled, GivenBack, Permits, Released, TryAcquired};
pub use releasing::release;
