//! Calls of several coroutines on the permits of a semaphore, for tests and for a bench.
//!
//! - `known_calls`: calls of a coroutine, if what they ask is known
//! - `three_callers`: the calls of three coroutines, on one floor of lists, or over words with a pass for each
//! - `holds`: to acquire and to release, while a shared number counts who holds a permit
//! - `at_once`: four coroutines that do so, by one, two or four threads at once

mod at_once;
mod holds;
mod known_calls;
mod three_callers;

pub use at_once::tally_of_four;
pub use holds::Tally;
pub use known_calls::Call;
pub use three_callers::{right_on_list, right_on_passes};
