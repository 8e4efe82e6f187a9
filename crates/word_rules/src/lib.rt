//! What the words of one table mean that has the channels and the Jobs of a run: the rule of each history, the fields of each word, and
//! the table of both.
//!
//! A hub (`cell_words`) steps on the table's first part, a forest (`job_words`) on its second. So both histories stand on one table, and
//! their entries in one order, if a hub and a forest share it; a hub alone has a table without rows, a forest alone one without channels.
//!
//! - `cell_word`, `wait_word`: the two words of a place of a channel, field by field.
//! - `layout`: the kinds and places of the channels, and the rule of their history.
//! - `job_word`, `link_word`: the two words of a row, field by field.
//! - `deed`, `size`: what an exchange on a row's words does, how many rows there are, and the rule of their history.
//! - `table`: the table of both.
#![tactic(auto)]

mod cell_word;
mod deed;
mod job_word;
mod layout;
mod link_word;
mod size;
mod table;
mod wait_word;

pub use cell_word::{CellState, CellWord};
pub use deed::Deed;
pub use job_word::JobWord;
pub use layout::{CellHistory, Layout};
pub use link_word::LinkWord;
pub use size::{ForestSize, JobHistory};
pub use table::{RunEntry, RunHistory, RunKey, RunSeat, RunTable, SharedTable};
pub use wait_word::{ResolvedBy, WaitWord};
