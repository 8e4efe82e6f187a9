//! What one call of a coroutine tells, and that it was so: its notes, in their order, and between them facts of the moments at which they
//! were made. It knows channels and Jobs, and nothing of scripts. The definitions stand in `specs/`, in this order:
//!
//! - `Telling`: what may be told
//! - `Facts`: what each note and each fact says of a moment
//! - `Stories`: that all that is told was so, at moments that do not go back
//! - `ChannelCalls`: what one call on a channel tells, and how it is answered
//! - `JobCalls`: what one call on a Job tells
//! - `Endings`: that the done channel of a Job that ended is closed at once
//! - `Prefixes`: what a call told that broke off
//! - `Seen`: what a caller sees, in one record for each layer
//! - `Calls`: what a call leaves on the floors and in the book
//! - `Orders`: that what was told was so along one order of the entries of both histories
//!
//! `JobsBeside` is what a caller of two floors asks of them: that each can hear what was seen on the other.
//!
//! The laws are the contracts of the functions of `laws`, whose bodies are empty; `proofs/Tellings.antt` shows them.
#![tactic(auto)]

mod beside;
mod laws;

pub use beside::JobsBeside;
pub use laws::{
    what_was_told_can_be_told_of_later, what_was_told_can_be_told_since_earlier,
    what_was_told_goes_on,
};
