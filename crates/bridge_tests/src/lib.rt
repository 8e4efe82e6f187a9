//! What streams, sinks and futures of Jobs give, worked out by hand, and what two of them come to on one thread and on two; and tests of
//! channels of owned values and of rings.
//!
//! - `pass_calls`: offers, receives and closes of one pass
//! - `one_channel`: the checks of `streams`, `lists`, `together` and `at_once`
//! - `streams`: what streams give
//! - `lists`: what comes of a list that is sent
//! - `together`: a sender and a receiver under one drive
//! - `at_once`: a sender and a receiver by a thread each
//! - `job_calls`: whether a pass of a forest has seen a Job attached
//! - `jobs`: what futures of Jobs give
//! - `asleep`: a thread that sleeps until a Job has ended
//! - `permits_wake`: whom a release of a permit wakes
//! - `parcels`: channels of owned values
//! - `rings`: rings
//! - `tasks`: a sink and a stream as two tasks of one thread
//! - `all_checks`: the tests, which compare what the checks found
#![tactic(auto)]

#[cfg(test)]
mod all_checks;
#[cfg(test)]
mod asleep;
#[cfg(test)]
mod at_once;
#[cfg(test)]
mod job_calls;
#[cfg(test)]
mod jobs;
#[cfg(test)]
mod lists;
#[cfg(test)]
mod one_channel;
mod parcels;
#[cfg(test)]
mod pass_calls;
#[cfg(test)]
mod permits_wake;
mod rings;
#[cfg(test)]
mod streams;
#[cfg(test)]
mod tasks;
#[cfg(test)]
mod together;
