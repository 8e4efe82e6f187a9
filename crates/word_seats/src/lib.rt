//! Seats at a hub and at a forest: the floors over words for callers that keep their pass, as coroutines do that go from thread to thread.
//!
//! A `Desk` of `cell_calls` and a `Ranger` of `job_words` borrow a pass for as long as they are used. A seat owns its pass, and borrows the
//! table alone, so that many seats of one table can be kept, sent to other threads, met and ended. Each of its calls is the call of a desk,
//! or of a ranger, that is made for it.
//!
//! **Which table.** That a pass is one of a hub is a fact about the two, and two seats may meet only where they are of one table. So that a
//! meeting need not ask this, the type of a seat names its table: `HubSeat<'a, N>` is a seat of a hub on the table that `N` names, and two
//! seats of one name are of one table. A table is made while the program runs, so its name is no constant. Who makes a hub hands it, with
//! its pass, to a function over every `N: TableName` which asks that `N` names that hub's table, and calls that function at `Brand`; the
//! proof of the call picks the table that `Brand` names there. Seats are made in that function and do not leave it; their passes may.
//!
//! **Two seats of one coroutine.** A `ForestSeat<'a, N>` and a `HubSeat<'a, N>` are of one table, so that their entries have one order
//! (`JobsBeside`): each can hear what the other has seen, by three loads of a word that nobody writes. The first pass of a hub that was
//! made with rows gives out the tags of both, and knows of tags under which nobody calls Jobs (`SharedBeside`).
//!
//! - `names`: which table.
//! - `hub_seat`, `forest_seat`: a seat, and its calls.
//! - `hub_meetings`, `forest_meetings`: how seats are split, met and ended.
//! - `beside`: how the two seats of a coroutine hear each other.
//! - `run_table`: a hub and a forest on one table.
//! - `laws`: what holds of a hub between any two steps: that each element has at most one fate, proved in `proofs/OneFate.antt`.
#![tactic(auto)]

mod beside;
mod forest_meetings;
mod forest_seat;
mod hub_meetings;
mod hub_seat;
mod laws;
mod names;
mod run_table;

pub use beside::SharedBeside;
pub use forest_seat::{ForestSeat, ForestSeatAnchor};
pub use hub_seat::{HubSeat, HubSeatAnchor};
pub use laws::an_element_of_a_hub_has_at_most_one_fate;
pub use names::TableName;
pub use run_table::hub_and_forest;
