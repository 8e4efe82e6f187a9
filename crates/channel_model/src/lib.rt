//! The model of channels: what a call may add to their history, and what the history then means.
//!
//! A history is a list of entries, each an act of one caller. Every act is one step on one state, and the state
//! after a history follows from the entries alone (`specs/`). What a floor of channels promises to all above it is
//! the trait `ChannelFloor`.
//!
//! - `acts`: the kinds of channels, the acts, and what a coroutine notes of its calls.
//! - `standing`: offers and receivers that stand in a channel, and how a wait is resolved.
//! - `floor`: the answers of calls, and the trait.
//! - `laws`: what holds in every legal history.
//!
//! A wait is that of one waiting call, plain or a select:
//!
//! | state | act | next state | who makes it |
//! |---|---|---|---|
//! | none | Offer, Await with its own place as name | open | its coroutine |
//! | open | Offer, Await at another channel, as one more clause of a select | open | its coroutine |
//! | open | Hand, Take, Admit, WakeClosed, Drain, at the place of one clause | resolved | anybody |
//! | open | Withdraw | resolved | its coroutine |
//! | resolved | Settle | settled | its coroutine |
//!
//! An element at a place of a channel:
//!
//! | state | act | next state |
//! |---|---|---|
//! | none | Hand | handed: its fate follows from how the receiver's wait is settled |
//! | none | Put | kept |
//! | none | Offer | held, while its wait is open |
//! | held | Admit | kept |
//! | held | Withdraw of its wait, or an act that resolves it at another clause | gone: nobody receives it |
//! | held, kept | Take, Drain | gone: received, given up |
//! | kept | Drop | gone: dropped |
//! | kept | Spurn, if it was one too many when it was put | gone: spurned |
//!
//! The laws are the contracts of the functions of `laws`, whose bodies are empty. The files of `proofs` that show each, in the order to
//! read:
//!
//! - `appended_histories`: `Histories`. `a_step_is_taken_exactly_where_its_entry_may_come`: `Stepped`.
//! - `a_wait_is_resolved_and_settled_at_most_once`, `a_wait_is_resolved_exactly_where_one_entry_resolves_it`,
//!   `a_channel_is_closed_exactly_where_one_entry_closes_it`: `OpenWaits`, `Others`, `Resolutions`, `Causes`; `OneEntry`.
//! - `whoever_stands_has_an_open_wait`: `Waits`; `OpenWaits`. `a_wait_stands_at_most_once_at_a_channel`: `Placed`; `Apart`.
//! - `those_who_stand_stand_in_order`: `EveryAct`, `Sound`; `InOrder`. `a_wait_has_at_most_seven_clauses`: `EveryAct`, `Sound`; `Clauses`.
//! - `an_offer_has_no_more_before_it_than_stood_as_it_was_placed`: `EveryAct`, `Sound`; `InOrder`; `Stood`.
//! - `who_is_gone_never_stands_again`: `EveryAct`, `Sound`; `GoneForGood`.
//! - `a_send_that_waits_was_placed_in_a_full_channel`: `EveryAct`, `Sound`; `Resolutions`, `Placed`; `PlacedFull`.
//! - `what_was_done_stays_done`: `Resolutions`, `ResolvedAs`; `Later`. `plain_histories_owe_nothing`: `Plain`.
//!
//! Others show what floors and callers need of histories:
//!
//! - what a call finds: `Firsts`, `Marks`, `Leads`, `UpTo`, `Alone`, `Lasts`, `Spans`.
//! - a caller's own waits and entries: `OwnWaits`, `Entries`, `Joining`, `Puts`, `PlainOffers`, `ResolvedAtClauses`, `OneClause`,
//!   `ClosedWaits`.
//! - how much is left to do: `Left`, `LeftOnFloors`. `Once`: legality has one proof. `Elements`: lists.
#![tactic(auto)]

mod acts;
mod floor;
mod laws;
mod standing;

pub use acts::{Act, ChannelNote, Entry, Fate, Kind, Settled, Why};
pub use floor::{
    AlreadyClosed, ChannelFloor, Got, Offered, Registered, TriedGot, TriedOffer, WaitState,
    Withdrawn,
};
pub use laws::{
    a_channel_is_closed_exactly_where_one_entry_closes_it,
    a_send_that_waits_was_placed_in_a_full_channel,
    a_step_is_taken_exactly_where_its_entry_may_come, a_wait_has_at_most_seven_clauses,
    a_wait_is_resolved_and_settled_at_most_once,
    a_wait_is_resolved_exactly_where_one_entry_resolves_it,
    a_wait_stands_at_most_once_at_a_channel, appended_histories, plain_histories_owe_nothing,
    those_who_stand_stand_in_order, what_was_done_stays_done, who_is_gone_never_stands_again,
    whoever_stands_has_an_open_wait,
};
pub use standing::{Party, Receiver, Resolution, Standing, outcome};
