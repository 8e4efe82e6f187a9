//! Counted cells: each send and each receive draws a number by one fetch-and-add, and a send meets the receive of the same number in the
//! cell of that number. Who comes first waits there, and may give up. No call waits, takes a lock or takes memory but `new`.
//!
//! This is how Koval, Alistarh and Elizarov's channels claim their cells ("Fast and Scalable Channels in Kotlin Coroutines", 2023), for a
//! rendezvous channel of a fixed number of cells.
//!
//! **The words.** Two counters, and a word for each cell.
//!
//! | word | from | to | by | the step decides |
//! |---|---|---|---|---|
//! | send counter | n | n + 1 | a sender | that cell n is its own, or that no cell is left |
//! | receive counter | n | n + 1 | a receiver | the same |
//! | cell | Free | Waits | the sender or receiver who drew it, if it came first | that it waits |
//! | cell | Waits | Paired | who drew it for the other side | that the two meet, and the value is received |
//! | cell | Waits | Broken | who waits there | that it gave up |
//!
//! A counter is loaded before it is raised, so that each pass raises it beyond the last cell at most once: it never wraps. A failed
//! exchange of a cell says who came before: the partner stands, or gave up. A partner that stood may have given up when it is to be met;
//! then its cell is broken, which costs both sides their number.
//!
//! **The history.** An entry for each of these steps (`CellAct`); all words are a function of it. A `CountedPass` has seen a beginning of
//! the history, and all entries of its own.
//!
//! - `act`, `cell_state`: what happens, and what stands in a cell; the word of a cell.
//! - `answers`: what the calls answer.
//! - `counted`, `pass`: the table, and what a thread steps with.
//! - `meeting`: how cells are made, and passes are split and ended.
//! - `steps`: a number is drawn, a cell is exchanged.
//! - `calls`: to send and to receive, to look and to give up.
//! - `laws`: what holds of the cells at all times.
#![tactic(auto)]

mod act;
mod answers;
mod calls;
mod cell_state;
mod counted;
mod laws;
mod meeting;
mod pass;
mod steps;

pub use act::{CellAct, CellEntry, Side, Waiter};
pub use answers::{CountedGot, CountedSend, CountedState, GaveUp};
pub use cell_state::CellState;
pub use counted::{CellCounts, Counted, CountedTable};
pub use laws::{counted_cells_have_one_history, each_cell_has_one_story, two_cells_have_two_words};
pub use pass::CountedPass;
