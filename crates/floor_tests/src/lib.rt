//! What tests and benches of floors have in common.
//!
//! - `other_calls`: the coroutine that calls in between, and its calls.
//! - `beside`: notes of the user, after each of which it makes one by a floor of its own on the same channels.
//! - `no_wakes`: wakes of which nothing comes.
//! - `permit_calls`: calls of several coroutines on the permits of a semaphore.
//! - `forest_shares`: calls on a forest of Jobs, and its tags shared out among passes.
#![tactic(auto)]

mod beside;
pub mod forest_shares;
mod no_wakes;
mod other_calls;
pub mod permit_calls;

pub use beside::Beside;
pub use no_wakes::NoWakes;
pub use other_calls::{OTHER, OtherCall};
