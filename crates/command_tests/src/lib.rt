//! Scripts with their reports, and what else the command line, the engines and the reader do with a script.
//!
//! - `calls`: calls of the command line over sources and sinks in memory, and the lines of a report that a row tells of.
//! - `tests`: what such calls come to. Its worked scripts stand in `channel_rows`, `buffer_rows`, `job_rows`,
//!   `cancel_rows`, `select_rows`, `scope_rows`, `await_rows`, `fault_rows` and `word_rows`.
//! - `stream_tests`: a source and a sink of which a call fails. `cut_tests`: scripts that are cut off.
//! - `print_tests`: a script that is read and printed again.
//! - `worker_tests`: runs by several workers.
//! - `explained_tests`: what is said of stuck and failing runs, whose scripts and reports stand in `explained_rows`.
//! - `gate_tests`: the points of the gate that polls pass.
//! - `text_tests`: whole texts read and written through the sources and sinks of `co_base`.
//! - `reports`: reports of books that no script leaves.
//! - `hold_gate`, `hold_tests`: a gate that holds coroutines, and runs by several workers under schedules that it brings about.
#![tactic(auto)]

#[cfg(test)]
mod await_rows;
#[cfg(test)]
mod buffer_rows;
#[cfg(test)]
mod calls;
#[cfg(test)]
mod cancel_rows;
#[cfg(test)]
mod channel_rows;
#[cfg(test)]
mod cut_tests;
#[cfg(test)]
mod explained_rows;
#[cfg(test)]
mod explained_tests;
#[cfg(test)]
mod fault_rows;
#[cfg(test)]
mod gate_tests;
#[cfg(test)]
mod hold_gate;
#[cfg(test)]
mod hold_tests;
#[cfg(test)]
mod job_rows;
#[cfg(test)]
mod print_tests;
mod reports;
#[cfg(test)]
mod scope_rows;
#[cfg(test)]
mod select_rows;
#[cfg(test)]
mod stream_tests;
#[cfg(test)]
mod tests;
#[cfg(test)]
mod text_tests;
#[cfg(test)]
mod word_rows;
#[cfg(test)]
mod worker_tests;
