//! What holds of all coroutines of a run, whatever the engine, if each calls floors of its own that others change too: definitions, and
//! laws. They speak of frames as `script_meaning` sees them, and of no code.
//!
//! `specs`, in this order:
//!
//! - `Parts`: books as the parts of two histories.
//! - `Refusals`: what a refusal in a book says of claims.
//! - `Orders`: one order of the entries of both histories, along which each coroutine told its story.
//! - `Sights`: a coroutine with its floors, and what it keeps between two polls. `Starts`: one that did nothing yet.
//! - `Looks`: how a Job that was looked at has ended.
//! - `LastRounds`: all have heard of all, and then the poll of each comes to nothing.
//! - `Ends`: the floors of all are brought together, and the run is at rest; if they know one order of both histories, it went along one.
//!
//! The laws are the contracts of the functions of `laws`, whose bodies are empty. The files of `proofs` that show each, in the order to
//! read:
//!
//! - `a_done_channel_is_closed_at_once`: `ClosesTold`, `ClosedAtOnce`.
//! - `no_refusal_stands_in_a_book`: `ClaimsAttached` of `script_laws`; `RefusalsTold`.
//! - `a_story_along_an_order_is_true`: `AlongLater`.
//! - `a_poll_goes_on_along_the_order`, `a_story_up_to_a_point_is_along_the_whole_order`: `PointsGoOn`.
//! - `coroutines_brought_together_have_one_order`: `OneOrder`.
//!
//! Others show what engines need:
//!
//! - what a coroutine keeps before its first poll, while others go on, as it is polled, looks and hears: `FreshTasks`, `LaterStands`,
//!   `Hearing`.
//! - all hear of all: `Lists`, `Meeting`.
//! - from the last round to a run at rest, in one order: `Prefixes`, `Places`, `Exact`, `CannotGoOn`, `OneOrder`, `RunsEnd`,
//!   `BroughtTogether`.
//! - where each poll alone adds entries, all is told along one order, that of the polls: `OwnMoments`, `ToldAlong`,
//!   `AlongLater`, `PolledAlong`.
#![tactic(auto)]

mod laws;

pub use laws::{
    a_done_channel_is_closed_at_once, a_poll_goes_on_along_the_order,
    a_story_along_an_order_is_true, a_story_up_to_a_point_is_along_the_whole_order,
    coroutines_brought_together_have_one_order, no_refusal_stands_in_a_book,
};
