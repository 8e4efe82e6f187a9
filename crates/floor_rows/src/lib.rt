//! Tests of what coroutines and workers share: floors of channels, permits over them, floors of Jobs, seats and berths, lanes and crews,
//! counted cells and gates.
//!
//! - `compare`: what every test ends with.
//! - `known`, `known_calls`: calls on one channel, each made where what it asks is known, so that a list of calls can be a table.
//! - `rows`: such tables, on a floor of lists and over words.
//! - `select_tests`: a select of two receives over words, while another coroutine calls in between.
//! - `at_once`: such a select, and the other's calls by a thread of its own.
//! - `on_passes`: offers and receives by four threads, each with a pass.
//! - `selects_on_passes`: waits of several clauses, each call made by a pass.
//! - `forest_rows`: calls on a floor of Jobs and on a forest, and what four threads come to on one forest.
//! - `history_rows`: told histories of Jobs, and where each stops.
//! - `seat_tests`: two callers with a seat each at a hub, and at a forest.
//! - `berth_tests`: tasks that two seats take and leave.
//! - `permit_rows`: calls of three coroutines on one permit, and who holds a permit while four threads ask for them.
//! - `words`: what threads share over words, without a lock.
//! - `crews`: lanes of tickets, and crews of workers over them.
#![tactic(auto)]

#[cfg(test)]
mod at_once;
#[cfg(test)]
mod berth_tests;
#[cfg(test)]
mod compare;
mod crews;
#[cfg(test)]
mod forest_rows;
#[cfg(test)]
mod history_rows;
mod known;
#[cfg(test)]
mod known_calls;
#[cfg(test)]
mod on_passes;
#[cfg(test)]
mod permit_rows;
#[cfg(test)]
mod rows;
#[cfg(test)]
mod seat_tests;
#[cfg(test)]
mod select_tests;
#[cfg(test)]
mod selects_on_passes;
mod words;
