//! Tests of what threads share over words, without a lock.
//!
//! - `counted_rows`, `counted_at_once`: counted cells, call by call, and by four threads.
//! - `gate_rows`: a gate, call by call.
//! - `guarded_rows`: a value that one at a time has, call by call, and by two threads.
//! - `latest_at_once`: a channel that does not keep its latest, by two threads.
//! - `two_counters`: two counters on one table, each with a history of its own.

#[cfg(test)]
mod counted_at_once;
#[cfg(test)]
mod counted_rows;
#[cfg(test)]
mod gate_rows;
#[cfg(test)]
mod guarded_rows;
#[cfg(test)]
mod latest_at_once;
#[cfg(test)]
mod two_counters;
