//! A select's clause is placed where a channel ends, by an exchange of the free cell there; or it sees what is at the place.
//!
//! The select's first clause begins the wait, and its cell names the coroutine. Each further one names the cell of the first. It may be
//! placed after the wait was resolved at another clause: then it takes a place, and does not stand there.
ghost use Rattle.std.specs.Prelude.{◌≡◌, ◌<◌, ◌≤◌, true, length};
ghost use Rattle.channel_model.specs.Channels.{kind_at, places_at, suspends};
ghost use Rattle.channel_model.specs.Laws.{NoneBelow};
ghost use Rattle.channel_model.specs.Registers.{main_at};
ghost use Rattle.word_rules.specs.Codes.{IsNarrowCell};
ghost use Rattle.word_rules.specs.Words.{IsCell};
ghost use Rattle.cell_words.specs.Looks.{is_nobody};
ghost use Rattle.cell_words.specs.Hubs.{shape_of, seen_by, IsOwn};
ghost use Rattle.cell_words.specs.Seen.{at_channel};
ghost use Rattle.cell_words.specs.Answers.{Receives};
ghost use Rattle.cell_words.specs.Clauses.{IsMainCell, BeganElsewhere, MayPlace, clause_word};
ghost use Rattle.cell_words.specs.Clauses.{ClauseOfferAt, ClauseReceiveAt, ReceiverStandsAt, OfferStandsAt};

use crate::cells::{exchange_cell, load_cell, load_wait, number_of, places_of};
use crate::counting::stands_at;
use crate::found::{At, Waiter};
use crate::hub::Hub;
use crate::looks::{found_by_receiver, found_by_sender, free_cell, is_used};
use crate::pass::Pass;
use crate::resolving::wait_cell;
use channel_model::{Act, Entry};
use co_base::{ChannelId, Place, Tag, Value, WaitId};
use word_rules::{CellState, CellWord, ResolvedBy, WaitWord};

/// The wait of a clause at this place: that of its select, or the one that begins here.
fn main_at(c: ChannelId, place: Place, main: Option<WaitId>) -> WaitId
    ensures { result ≡ main_at c place main }
{
    match main {
        None => WaitId { channel: c, place },
        Some(w) => w,
    }
}

/// The word of a cell at which a clause waits.
fn clause_cell(
    hub: &Hub,
    state: CellState,
    who: Tag,
    main: Option<WaitId>,
    clause: u8,
    value: Value,
) -> CellWord
    requires clause { clause ≤ 7 }
    requires main { IsMainCell (shape_of hub.now) main }
    ensures word { result ≡ clause_word (shape_of hub.now) state value who main clause }
    ensures narrow { IsNarrowCell result }
{
    match main {
        None => CellWord {
            state,
            clause,
            own_wait: true,
            holder: who as u32,
            value,
        },
        Some(w) => CellWord {
            state,
            clause,
            own_wait: false,
            holder: number_of(hub, w.channel, w.place) as u32,
            value,
        },
    }
}

// Places an offer for the clause.
fn hold_clause_at(
    hub: &Hub,
    pass: &mut Pass,
    who: Tag,
    main: Option<WaitId>,
    clause: u8,
    c: ChannelId,
    place: Place,
    value: Value,
) -> At
    requires own { IsOwn hub.now pass.old who }
    requires at { (c < length (shape_of hub.now)) × (place < places_at (shape_of hub.now) c) }
    requires kind { suspends (kind_at (shape_of hub.now) c) ≡ true }
    requires low { NoneBelow place 0 (at_channel (seen_by pass.old).seen c) }
    requires may { MayPlace (shape_of hub.now) who clause c main (seen_by pass.old).seen }
    requires apart { BeganElsewhere c place main }
    ensures own { IsOwn hub.now pass.new who }
    ensures at { ClauseOfferAt (shape_of hub.now) who c place main clause value (seen_by pass.old) (seen_by pass.new) result }
{
    let wait = main_at(c, place, main);
    let entry = Entry {
        who,
        act: Act::Offer {
            c,
            place,
            value,
            main: wait,
            clause,
        },
    };
    let new = clause_cell(hub, CellState::Offer, who, main, clause, value);
    match exchange_cell(hub, pass, who, c, place, free_cell(), new, &entry) {
        None => At::Placed,
        Some(found) => found_by_sender(found),
    }
}

/// Places a clause that sends where the channel ends. It waits even if the channel would keep the element.
pub fn offer_clause_at(
    hub: &Hub,
    pass: &mut Pass,
    who: Tag,
    main: Option<WaitId>,
    clause: u8,
    c: ChannelId,
    place: Place,
    value: Value,
) -> At
    requires own { IsOwn hub.now pass.old who }
    requires at { IsCell (shape_of hub.now) c place }
    requires kind { suspends (kind_at (shape_of hub.now) c) ≡ true }
    requires low { NoneBelow place 0 (at_channel (seen_by pass.old).seen c) }
    requires may { MayPlace (shape_of hub.now) who clause c main (seen_by pass.old).seen }
    ensures own { IsOwn hub.now pass.new who }
    ensures at { ClauseOfferAt (shape_of hub.now) who c place main clause value (seen_by pass.old) (seen_by pass.new) result }
{
    let word = load_cell(hub, pass, who, c, place);
    if is_used(word) {
        return found_by_sender(word);
    }
    if place == places_of(hub, c) {
        return At::Spent;
    }
    hold_clause_at(hub, pass, who, main, clause, c, place, value)
}

// Places a receiver for the clause.
fn wait_clause_at(
    hub: &Hub,
    pass: &mut Pass,
    who: Tag,
    main: Option<WaitId>,
    clause: u8,
    c: ChannelId,
    place: Place,
) -> At
    requires own { IsOwn hub.now pass.old who }
    requires at { (c < length (shape_of hub.now)) × (place < places_at (shape_of hub.now) c) }
    requires low { NoneBelow 0 place (at_channel (seen_by pass.old).seen c) }
    requires may { MayPlace (shape_of hub.now) who clause c main (seen_by pass.old).seen }
    requires apart { BeganElsewhere c place main }
    ensures own { IsOwn hub.now pass.new who }
    ensures at { ClauseReceiveAt (shape_of hub.now) who c place main clause (seen_by pass.old) (seen_by pass.new) result }
{
    let wait = main_at(c, place, main);
    let entry = Entry {
        who,
        act: Act::Await {
            c,
            place,
            main: wait,
            clause,
        },
    };
    let new = clause_cell(hub, CellState::Receiver, who, main, clause, 0);
    match exchange_cell(hub, pass, who, c, place, free_cell(), new, &entry) {
        None => At::Placed,
        Some(found) => found_by_receiver(found),
    }
}

/// Places a clause that receives where the channel ends.
pub fn await_clause_at(
    hub: &Hub,
    pass: &mut Pass,
    who: Tag,
    main: Option<WaitId>,
    clause: u8,
    c: ChannelId,
    place: Place,
) -> At
    requires own { IsOwn hub.now pass.old who }
    requires at { IsCell (shape_of hub.now) c place }
    requires low { NoneBelow 0 place (at_channel (seen_by pass.old).seen c) }
    requires may { MayPlace (shape_of hub.now) who clause c main (seen_by pass.old).seen }
    ensures own { IsOwn hub.now pass.new who }
    ensures at { ClauseReceiveAt (shape_of hub.now) who c place main clause (seen_by pass.old) (seen_by pass.new) result }
{
    let word = load_cell(hub, pass, who, c, place);
    if is_used(word) {
        return found_by_receiver(word);
    }
    if place == places_of(hub, c) {
        return At::Spent;
    }
    wait_clause_at(hub, pass, who, main, clause, c, place)
}

/// Whether nobody resolved a wait.
pub(crate) fn is_nobody(word: WaitWord) -> bool
    ensures { result ≡ is_nobody word.by }
{
    match word.by {
        ResolvedBy::Nobody => true,
        ResolvedBy::Hand
        | ResolvedBy::Take
        | ResolvedBy::Admit
        | ResolvedBy::Close
        | ResolvedBy::Cancel
        | ResolvedBy::Revoke
        | ResolvedBy::Void => false,
    }
}

/// Whether the receiver that was placed here stands: its wait says so. Nothing is handed to it.
#[inline(always)]
pub fn receiver_stands(
    hub: &Hub,
    pass: &mut Pass,
    who: Tag,
    c: ChannelId,
    place: Place,
    waiter: Waiter,
) -> bool
    requires own { IsOwn hub.now pass.old who }
    requires at { IsCell (shape_of hub.now) c place }
    requires low { NoneBelow place 0 (at_channel (seen_by pass.old).seen c) }
    requires first { Receives (shape_of hub.now) c place waiter (seen_by pass.old).seen }
    ensures own { IsOwn hub.now pass.new who }
    ensures stands { ReceiverStandsAt c place (seen_by pass.old) (seen_by pass.new) result }
{
    let cell = wait_cell(hub, c, place, waiter.holder);
    let word = load_wait(hub, pass, who, cell);
    is_nobody(word)
}

/// Whether an offer stands at a place that was given out: true if it stood at the beginning. Nothing is taken.
pub fn offer_stands(hub: &Hub, pass: &mut Pass, who: Tag, c: ChannelId, place: Place) -> bool
    requires own { IsOwn hub.now pass.old who }
    requires at { IsCell (shape_of hub.now) c place }
    requires given { place < (at_channel (seen_by pass.old).seen c).next }
    requires low { NoneBelow 0 place (at_channel (seen_by pass.old).seen c) }
    ensures own { IsOwn hub.now pass.new who }
    ensures stands { OfferStandsAt c place (seen_by pass.old) (seen_by pass.new) result }
{
    stands_at(hub, pass, who, c, place)
}
