//! Channels of owned values: a value is moved into a slot, its number goes over a channel of numbers, and whoever receives the number moves
//! the value out. No call waits, takes a lock or takes memory but `new`.
//!
//! **The words.** One counter, and a word for each parcel number.
//!
//! | word | from | to | by | the slot |
//! |---|---|---|---|---|
//! | counter | n | n + 1 | who sends: parcel n is its own, or no number is left | taken, empty |
//! | parcel | 0 | 1 | who drew it | put back with the value |
//! | parcel | 1 | 2 | who has its number, and comes first | taken, with the value |
//! | parcel | 2 | 3 | who took the value | put back, empty |
//!
//! **A send** draws a number, moves its value into the slot of that number, and offers the number on the channel, in this order: so
//! whoever gets the number finds the value there, unless another has moved it out. Where the channel refuses the number the value is
//! moved out again. **A receive** gets a number, admits offers for which there is room now, and moves the value out. Who was cancelled
//! gets its own value back by `settle`, and a receiver the value that it was handed. `into_rest` gives what is left, number by number.
//!
//! The words and slots are one table, the channel of numbers another: that a slot is never found empty by who got its number follows from
//! neither alone, and is no clause. Then the answer is Lost.
//!
//! - `answers`: what the calls answer.
//! - `parcel`: what happens to parcels.
//! - `rule`: the table, and what holds between any two steps.
//! - `steps`, `seats`: one function for each kind of step; seats are split and joined.
//! - `store`: a value is moved in, and moved out.
//! - `numbers`: calls on the channel of numbers. `waits`: what follows them.
//! - `hub`: a channel of owned values and a pass. `meeting`, `calls`, `closing`: its calls.
//! - `laws`: what holds of parcels at all times.
#![tactic(auto)]

mod answers;
mod calls;
mod closing;
mod hub;
mod laws;
mod meeting;
mod numbers;
mod parcel;
mod rule;
mod seats;
mod steps;
mod store;
mod waits;

pub use answers::{ParcelGot, ParcelOffered, ParcelSent, ParcelSettled, ParcelTried};
pub use hub::{ParcelHub, ParcelPass, ParcelTable};
pub use laws::{each_number_is_moved_once, there_is_one_list_of_moves};
pub use parcel::{ParcelAct, ParcelEntry};
pub use rule::{ParcelRule, ParcelSeat, ParcelWords};
