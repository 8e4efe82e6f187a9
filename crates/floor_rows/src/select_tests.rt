//! A select of two receives over words, while another coroutine calls in between.

ghost use Rattle.std.specs.Prelude.{◌≡◌, ◌≤◌, true, length, [], ◌∷◌, IfOk};
ghost use Rattle.channel_model.specs.Answers.{IsOwn};
ghost use Rattle.cell_words.specs.Hubs.{shape_of, IsOf, IsOwn as IsOwnPass, GivesTags};
ghost use Rattle.floor_tests.specs.Meetings.{two_channels};

use crate::compare::compare;
use cell_calls::Desk;
use cell_words::{Hub, Pass};
use channel_calls::Caller;
use channel_model::{Act, ChannelFloor, ChannelNote, Kind, Settled, WaitState, Why};
use co_base::{Memory, Tag, Value, WaitId, Wakes};
use floor_tests::{Beside, NoWakes, OTHER, OtherCall};
use note_book::{Item, NoteBook, Notes};
use select_calls::{Clause, Outcome, SelectAnswer, select_poll};
use std::alloc::Global;
use std::test::Fail;

/// The coroutine that selects.
pub(crate) const USER: Tag = 1;

/// What a select came to.
#[derive(Clone, Copy, PartialEq, Eq)]
pub(crate) struct Found {
    pub(crate) answer: SelectAnswer,
    held: Option<WaitId>,
    /// How its wait ended, where it was resolved.
    ended: Option<Settled>,
}

/// Ends the caller's wait, if it was resolved.
fn end_if_resolved<F: ChannelFloor, B: NoteBook, W: Wakes>(
    x: &mut Caller<'_, '_, '_, F, B, W>,
    w: WaitId,
) -> Result<Option<Settled>, Memory>
    requires caller { (F.view x.old.floor.now).callers x.old.who ≡ true }
    requires channels { 2 ≤ length (F.view x.old.floor.now).shape }
    requires own { IsOwn x.old.who w (F.view x.old.floor.now) }
{
    if w.channel >= 2 {
        return Ok(None);
    }
    match x.floor.look(x.who, w) {
        WaitState::Resolved => Ok(Some(x.dispatch(w, false)?)),
        _ => Ok(None),
    }
}

/// Receives from the first channel or the second, and ends the wait, if it was resolved meanwhile.
fn select_over<F: ChannelFloor, B: NoteBook, W: Wakes>(
    x: &mut Caller<'_, '_, '_, F, B, W>,
) -> Result<Found, Memory>
    requires caller { (F.view x.old.floor.now).callers x.old.who ≡ true }
    requires channels { 2 ≤ length (F.view x.old.floor.now).shape }
{
    let clauses = [Clause::OnReceive { c: 0 }, Clause::OnReceive { c: 1 }];
    let mut held = None;
    match select_poll(x, &clauses, &mut held) {
        Ok(SelectAnswer::Waiting) => {
            let ended = match held {
                Some(w) => end_if_resolved(x, w)?,
                None => None,
            };
            Ok(Found {
                answer: SelectAnswer::Waiting,
                held,
                ended,
            })
        }
        Ok(answer) => Ok(Found {
            answer,
            held,
            ended: None,
        }),
        Err(memory) => Err(memory),
    }
}

/// The same on a floor, noted in this book.
pub(crate) fn select_on<F: ChannelFloor, B: NoteBook>(
    floor: &mut F,
    book: &mut B,
) -> Result<Found, Memory>
    requires caller { (F.view floor.old).callers 1 ≡ true }
    requires channels { 2 ≤ length (F.view floor.old).shape }
{
    let mut wakes = NoWakes;
    let mut caller = Caller {
        floor: &mut *floor,
        book: &mut *book,
        wakes: &mut wakes,
        who: USER,
    };
    select_over(&mut caller)
}

/// Two rendezvous channels of four places.
const KINDS: [(Kind, u32); 2] = [(Kind::Rendezvous, 4), (Kind::Rendezvous, 4)];

/// A hub of two channels.
pub(crate) fn new_hub(alloc: Global) -> Result<(Hub, Pass), Memory>
    ensures shape { IfOk result (λ r. shape_of r.0 ≡ two_channels) }
    ensures of { IfOk result (λ r. IsOf r.0 r.1) }
    ensures gives { IfOk result (λ r. GivesTags (0 ∷ []) r.1) }
{
    Hub::new(alloc, &KINDS)
}

/// The wait of the first clause.
const FIRST: WaitId = WaitId {
    channel: 0,
    place: 0,
};

/// Whether a book has these notes of channels, and no others.
fn has_noted(book: &Notes, wanted: &[ChannelNote]) -> bool {
    let items = book.items();
    if items.len() != wanted.len() {
        return false;
    }
    for (item, note) in items.iter().zip(wanted.iter()) {
        let Item::Channel(found) = item else {
            return false;
        };
        if found != note {
            return false;
        }
    }
    true
}

const FIRST_IS_EMPTY: ChannelNote = ChannelNote::Empty { c: 0 };

const SECOND_IS_EMPTY: ChannelNote = ChannelNote::Empty { c: 1 };

/// The first clause was placed.
const PLACED: ChannelNote = ChannelNote::Made(Act::Await {
    c: 0,
    place: 0,
    main: FIRST,
    clause: 1,
});

/// An offer stands at the first place of the second channel.
const HAS_PARTNER: ChannelNote = ChannelNote::Partner { c: 1, place: 0 };

/// The first clause was taken back.
const WITHDRAWN: ChannelNote = ChannelNote::Made(Act::Withdraw {
    w: FIRST,
    why: Why::Revoked,
});

macro_rules! settled {
    ($outcome:expr) => {
        ChannelNote::Made(Act::Settle {
            w: FIRST,
            outcome: $outcome,
        })
    };
}

/// Nothing of the select stands any more.
const AGAIN: Found = Found {
    answer: SelectAnswer::Again,
    held: None,
    ended: None,
};

/// The select waited, and its first clause received this.
macro_rules! received_first {
    ($value:expr) => {
        Found {
            answer: SelectAnswer::Waiting,
            held: Some(FIRST),
            ended: Some(Settled::Value(1, $value)),
        }
    };
}

/// A call before the second clause is placed, and one before the call that follows.
macro_rules! at_second_clause {
    ($call:expr, $next:expr) => {
        [
            OtherCall::Nothing,
            OtherCall::Nothing,
            OtherCall::Nothing,
            $call,
            $next,
        ]
    };
}

/// What a select notes that took its first clause back for this.
macro_rules! taken_back {
    ($change:expr) => {
        [
            FIRST_IS_EMPTY,
            SECOND_IS_EMPTY,
            PLACED,
            $change,
            WITHDRAWN,
            settled!(Settled::Cancelled),
        ]
    };
}

const OFFERED: [OtherCall; 5] = at_second_clause!(
    OtherCall::Offer { c: 1, value: 6 },
    OtherCall::Nothing
);

const TAKEN_BACK_FOR_AN_OFFER: [ChannelNote; 6] = taken_back!(HAS_PARTNER);

const CLOSED: [OtherCall; 5] = at_second_clause!(
    OtherCall::Close { c: 1, v: 4 },
    OtherCall::Nothing
);

const TAKEN_BACK_FOR_A_CLOSE: [ChannelNote; 6] = taken_back!(ChannelNote::ReceiveClosed {
    c: 1,
    v: 4
});

const OFFERED_EARLY: [OtherCall; 5] = [
    OtherCall::Nothing,
    OtherCall::Offer { c: 1, value: 6 },
    OtherCall::Nothing,
    OtherCall::Nothing,
    OtherCall::Nothing,
];

const SECOND_CHOSEN: Found = Found {
    answer: SelectAnswer::Chosen(2, Outcome::Value(6)),
    held: None,
    ended: None,
};

const TAKEN: [ChannelNote; 2] = [
    FIRST_IS_EMPTY,
    ChannelNote::Made(Act::Take {
        c: 1,
        place: 0,
        value: 6,
    }),
];

const RESOLVED: [OtherCall; 5] = at_second_clause!(
    OtherCall::Offer { c: 0, value: 6 },
    OtherCall::Nothing
);

const PLACES_NO_MORE: [ChannelNote; 5] = [
    FIRST_IS_EMPTY,
    SECOND_IS_EMPTY,
    PLACED,
    ChannelNote::MainResolved { w: FIRST },
    settled!(Settled::Value(1, 6)),
];

const BOTH_OFFERED: [OtherCall; 5] = at_second_clause!(
    OtherCall::Offer { c: 1, value: 6 },
    OtherCall::Offer { c: 0, value: 7 }
);

const TOO_LATE: [ChannelNote; 6] = [
    FIRST_IS_EMPTY,
    SECOND_IS_EMPTY,
    PLACED,
    HAS_PARTNER,
    ChannelNote::Late { w: FIRST },
    settled!(Settled::Value(1, 7)),
];

/// A select between whose calls the other makes these, what it comes to, and what it notes.
#[derive(Clone, Copy)]
struct Row {
    calls: [OtherCall; 5],
    found: Found,
    noted: &'static [ChannelNote],
}

macro_rules! row {
    ($calls:expr, $found:expr, $noted:expr) => {
        Row {
            calls: $calls,
            found: $found,
            noted: $noted,
        }
    };
}

const ROWS: [Row; 5] = [
    // A select looks again where an offer came before its second clause.
    row!(OFFERED, AGAIN, &TAKEN_BACK_FOR_AN_OFFER),
    // A select looks again where its second channel was closed.
    row!(CLOSED, AGAIN, &TAKEN_BACK_FOR_A_CLOSE),
    // A select takes what was offered after its first try.
    row!(OFFERED_EARLY, SECOND_CHOSEN, &TAKEN),
    // A select that was resolved places no more.
    row!(RESOLVED, received_first!(6), &PLACES_NO_MORE),
    // A select waits where it came too late to take its wait back.
    row!(BOTH_OFFERED, received_first!(7), &TOO_LATE),
];

/// Whether a select comes to what its row says, and whether it notes these notes, on a hub where the two have a pass each: the other makes
/// each of its calls after a note of the select.
fn is_right_on_hub(
    hub: &Hub,
    user: &mut Pass,
    others: &mut Pass,
    alloc: Global,
    row: &Row,
) -> Result<[bool; 2], Memory>
    requires shape { shape_of hub.now ≡ two_channels }
    requires user { IsOwnPass hub.now user.old 1 }
    requires others { IsOwnPass hub.now others.old 2 }
{
    let mut floor = Desk { hub, pass: user };
    let mut book = Beside::new(alloc, Desk { hub, pass: others }, row.calls);
    let found = select_on(&mut floor, &mut book)?;
    Ok([found == row.found, has_noted(book.notes(), row.noted)])
}

/// The same on a hub of its own.
fn is_right(alloc: Global, row: &Row) -> Result<[bool; 2], Memory> {
    let (hub, mut main) = new_hub(alloc)?;
    let mut user = hub.split(&mut main, USER);
    let mut others = hub.split(&mut main, OTHER);
    is_right_on_hub(&hub, &mut user, &mut others, alloc, row)
}

/// The number of the first row that does not hold, and what of it holds.
fn first_other(alloc: Global, rows: &[Row]) -> Result<Option<(usize, [bool; 2])>, Memory> {
    for (number, row) in rows.iter().enumerate() {
        let right = is_right(alloc, row)?;
        if right != [true; 2] {
            return Ok(Some((number, right)));
        }
    }
    Ok(None)
}

#[test]
fn selects_between_calls_of_another_come_to_what_their_rows_say(
    rt: HostRuntime,
) -> Result<(), Fail> {
    let other = first_other(rt.alloc(), &ROWS)?;
    compare(&rt, &other, &None);
    Ok(())
}
