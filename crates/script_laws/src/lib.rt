//! Laws of the books of a run, whatever the floors and the engine are: the contracts of the functions of `laws`, whose bodies are
//! empty. They speak of the definitions of `script_meaning`. The files of `proofs` that show each, in the order to read, those of
//! `script_meaning` first:
//!
//! - `a_run_is_at_rest`: there `Debts`, `Payments`, `JobPieces`, `JobStories`, `JobDebts`; here `DoneJobsEnded`, `EndedJobsTold`,
//!   `BelowCancelled`, `FailuresBorne`; `TreesAtRest`.
//! - `nothing_is_owed_at_the_end`: there `Debts`, `Payments`, `ActsFollowed`, `ChannelStories`; here `ChannelDebts` (what is told of
//!   channels), `ClosedChannels`, `QueuesFit`, `OffersAdmitted`, `RoomRaised`, `OversSpurned`; `NothingOwed`.
//! - `a_wait_is_given_up_behind_a_cancellation`: there `WaitsTold`; here `TakenBack`; `GivenUpWaits`.
//! - `nobody_goes_on`: `MovesFrom` (where each move begins), `NobodyGoesOn`.
//!
//! Others show what those who run a script need of all its books: that a coroutine claims what it attached (`RowsEntered`,
//! `ClaimsAttached`), that a done channel is received from at most once by each coroutine (`DoneAsked`, `DonePlacesAsked`,
//! `DoneReceivedOnce`, `EndsToSee`), and so has a place for each (`PlacesGiven`, `NotSpent`). `specs` has the words of it: `Counts`,
//! `Owners`; and of what it is that a coroutine goes on: `GoingOn`.
#![tactic(auto)]

mod laws;

pub use laws::{
    a_run_is_at_rest, a_wait_is_given_up_behind_a_cancellation, nobody_goes_on,
    nothing_is_owed_at_the_end,
};
