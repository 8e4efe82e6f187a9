//! What the words tell a caller.
ghost use Rattle.std.specs.Prelude.{◌≡◌, true, false};
ghost use Rattle.word_rules.specs.Codes.{packed_cell, packed_wait, IsNarrowCell, IsNarrowWait};
ghost use Rattle.word_rules.specs.Words.{how_word, is_cancelled_end};
ghost use Rattle.cell_words.specs.Looks.{holder_of, waiter_of, is_used_state, found_by_sender, found_by_receiver, end_found, lets_stand, tried_found, state_found, resolution_found, admission_found};
ghost use Rattle.channel_model.specs.declared.standing.Resolution.TheVariants as resolved;

use crate::found::{Admission, At, End, Holder, Tried, Waiter};
use channel_model::{Resolution, Settled, WaitState, Why};
use co_base::{Tag, Value};
use word_rules::{CellState, CellWord, ResolvedBy, WaitWord};

/// The word of a cell that was not given out.
pub(crate) fn free_cell() -> CellWord
    ensures zero { packed_cell result ≡ 0 }
    ensures narrow { IsNarrowCell result }
{
    plain_cell(CellState::Free, 0)
}

/// The word of a cell that names no wait.
pub(crate) fn plain_cell(state: CellState, value: Value) -> CellWord
    ensures word { result ≡ record { state = state; clause = 0; own_wait = false; holder = 0; value = value } }
    ensures narrow { IsNarrowCell result }
{
    CellWord {
        state,
        clause: 0,
        own_wait: false,
        holder: 0,
        value,
    }
}

/// The word of a cell at which a plain call begins to wait.
pub(crate) fn own_cell(state: CellState, who: Tag, value: Value) -> CellWord
    ensures word { result ≡ record { state = state; clause = 0; own_wait = true; holder = who; value = value } }
    ensures narrow { IsNarrowCell result }
{
    CellWord {
        state,
        clause: 0,
        own_wait: true,
        holder: who as u32,
        value,
    }
}

/// The word of a wait that nobody resolved.
pub(crate) fn standing_wait() -> WaitWord
    ensures zero { packed_wait result ≡ 0 }
    ensures narrow { IsNarrowWait result }
{
    WaitWord {
        by: ResolvedBy::Nobody,
        clause: 0,
        settled: false,
        cancelled: false,
        value: 0,
    }
}

/// Whose the wait is.
pub(crate) fn holder_of(word: CellWord) -> Holder
    ensures { result ≡ holder_of word }
{
    if word.own_wait {
        Holder::Own((word.holder % 65536) as Tag)
    } else {
        Holder::At(word.holder)
    }
}

fn waiter_of(word: CellWord) -> Waiter
    ensures { result ≡ waiter_of word }
{
    Waiter {
        holder: holder_of(word),
        clause: word.clause,
        value: word.value,
    }
}

/// Whether the cell has another word than a free one.
pub(crate) fn is_used(word: CellWord) -> bool
    ensures { result ≡ is_used_state word.state }
{
    match word.state {
        CellState::Free => false,
        CellState::Receiver
        | CellState::Offer
        | CellState::Buffered
        | CellState::Emptied
        | CellState::Closed
        | CellState::Voided => true,
    }
}

/// What the word of a used cell says to one who offers.
pub(crate) fn found_by_sender(word: CellWord) -> At
    ensures { result ≡ found_by_sender word word.state }
{
    match word.state {
        CellState::Receiver => At::Waiting(waiter_of(word)),
        CellState::Closed | CellState::Voided => At::Closed(word.value),
        CellState::Free | CellState::Offer | CellState::Buffered | CellState::Emptied => At::Gone,
    }
}

/// What the word of a used cell says to one who receives.
pub(crate) fn found_by_receiver(word: CellWord) -> At
    ensures { result ≡ found_by_receiver word word.state }
{
    match word.state {
        CellState::Offer => At::Waiting(waiter_of(word)),
        CellState::Buffered => At::Kept(word.value),
        CellState::Closed | CellState::Voided => At::Closed(word.value),
        CellState::Free | CellState::Receiver | CellState::Emptied => At::Gone,
    }
}

/// What the word of a cell says of the channel's end.
pub(crate) fn end_found(word: CellWord) -> End
    ensures { result ≡ end_found word word.state }
{
    match word.state {
        CellState::Free => End::Open,
        CellState::Closed | CellState::Voided => End::Closed(word.value),
        CellState::Receiver | CellState::Offer | CellState::Buffered | CellState::Emptied => {
            End::Used
        }
    }
}

/// Whether a wait with this word lets the offer of its clause stand.
pub(crate) fn lets_stand(word: WaitWord, clause: u8) -> bool
    ensures { result ≡ lets_stand word clause }
{
    match word.by {
        ResolvedBy::Nobody => true,
        ResolvedBy::Admit => word.clause == clause,
        ResolvedBy::Hand
        | ResolvedBy::Take
        | ResolvedBy::Close
        | ResolvedBy::Cancel
        | ResolvedBy::Revoke
        | ResolvedBy::Void => false,
    }
}

/// What a resolved wait with this word says of the offer of its clause.
pub(crate) fn tried_found(word: WaitWord, clause: u8) -> Tried
    ensures { result ≡ tried_found word clause }
{
    if lets_stand(word, clause) {
        Tried::Admitted
    } else {
        Tried::Gone
    }
}

/// What a resolved wait with this word says to one who would admit the offer of its clause.
pub(crate) fn admission_found(word: WaitWord, clause: u8) -> Admission
    ensures { result ≡ admission_found word clause }
{
    if lets_stand(word, clause) {
        Admission::Kept
    } else {
        Admission::Gone
    }
}

/// How far a wait with this word is.
pub(crate) fn state_found(word: WaitWord) -> WaitState
    ensures { result ≡ state_found word }
{
    if word.settled {
        return WaitState::Settled;
    }
    match word.by {
        ResolvedBy::Nobody => WaitState::Standing,
        ResolvedBy::Hand
        | ResolvedBy::Take
        | ResolvedBy::Admit
        | ResolvedBy::Close
        | ResolvedBy::Cancel
        | ResolvedBy::Revoke
        | ResolvedBy::Void => WaitState::Resolved,
    }
}

/// How a wait with this word was resolved.
pub(crate) fn resolution_found(word: WaitWord) -> Resolution
    ensures { result ≡ resolution_found word }
{
    match word.by {
        ResolvedBy::Hand => Resolution::Handed(word.clause, word.value),
        ResolvedBy::Take => Resolution::Taken(word.clause),
        ResolvedBy::Admit => Resolution::Admitted(word.clause),
        ResolvedBy::Close => Resolution::Closed(word.clause, word.value),
        ResolvedBy::Cancel => Resolution::Withdrawn(Why::Cancelled),
        ResolvedBy::Revoke => Resolution::Withdrawn(Why::Revoked),
        ResolvedBy::Nobody | ResolvedBy::Void => Resolution::Voided,
    }
}

/// The word of a wait that its coroutine withdrew.
pub(crate) fn withdrawn_wait(why: Why) -> WaitWord
    ensures word { result ≡ how_word (resolved.Withdrawn why) }
    ensures narrow { IsNarrowWait result }
{
    WaitWord {
        by: match why {
            Why::Cancelled => ResolvedBy::Cancel,
            Why::Revoked => ResolvedBy::Revoke,
        },
        clause: 0,
        settled: false,
        cancelled: false,
        value: 0,
    }
}

/// Whether a wait that ended so was cancelled.
pub(crate) fn is_cancelled_end(outcome: Settled) -> bool
    ensures { result ≡ is_cancelled_end outcome }
{
    match outcome {
        Settled::Value(_, _) | Settled::Sent(_) | Settled::Closed(_, _) => false,
        Settled::Cancelled | Settled::Undelivered(_) => true,
    }
}
