//! Tests of lanes of tickets, and of crews of workers over them.
//!
//! - `lane_tests`: what a few lanes give, also to two workers at once.
//! - `crew_runs`: by one to four workers, who is woken is polled again, a poll without memory ends all, and what a worker does not come to
//!   others do.

#[cfg(test)]
mod crew_runs;
#[cfg(test)]
mod lane_tests;
