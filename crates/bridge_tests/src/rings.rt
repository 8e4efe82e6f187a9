//! Tests of rings: call by call, and by threads.
//!
//! - `ring_calls`: a ring with three passes, and what is left of it
//! - `ring_rows`: call by call
//! - `ring_lines`: by up to four threads that send, receive, wait, try again, give up, hand over and close
//! - `who_sleeps`: by a stream and a sink
//! - `selects`, `handings`: a select over two rings, and a rendezvous
//! - `on_bells`: the checks by threads, by a stream and a sink, and by a select

#[cfg(test)]
mod handings;
#[cfg(test)]
pub(crate) mod on_bells;
#[cfg(test)]
mod ring_calls;
#[cfg(test)]
mod ring_lines;
#[cfg(test)]
pub(crate) mod ring_rows;
#[cfg(test)]
mod selects;
#[cfg(test)]
mod who_sleeps;
