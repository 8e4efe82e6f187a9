//! The clauses are placed, in their order, all with one wait; and what was placed is withdrawn.

ghost use Rattle.std.specs.Prelude.{◌≡◌, ◌<◌, ◌≤◌, true, None, length, take};
ghost use Rattle.channel_model.specs.Channels.{kind_at, suspends};
ghost use Rattle.channel_model.specs.Registers.{main_at, MayRegister};
ghost use Rattle.call_meaning.specs.Seen.{MayCallChannel};
ghost use Rattle.call_meaning.specs.ChannelCalls.{sends, receives};
ghost use Rattle.channel_calls.specs.Calls.{SameCaller, seen, HoldsWait};
ghost use Rattle.select_calls.specs.Clauses.{calls_of, MaySelect};
ghost use Rattle.select_calls.specs.Parts.{AllMayWait, MayPlaceAt, NotesResolved, PlacedAnswer, PlacesAt, PlacesAll, RevokedAnswer, AdmitsAt, AdmittedInAnswer};

use crate::clause::Clause;
use channel_calls::{Caller, make_room};
use channel_model::{Act, ChannelFloor, ChannelNote, Registered, Why, Withdrawn};
use co_base::{ChannelId, Memory, Value, WaitId, Wakes};
use note_book::{Item, NoteBook};

/// What a clause came to that was to be placed.
#[derive(Clone, Copy)]
pub(crate) enum Placed {
    /// It was placed; the select has this wait.
    Stands(WaitId),
    /// The select's wait was resolved.
    Resolved,
    /// It has a partner, or its channel was closed.
    Changed,
    Spent,
}

/// What all clauses came to that were to be placed. The number is that of the clauses that were placed.
#[derive(Clone, Copy)]
pub(crate) enum Placings {
    All,
    Resolved(usize),
    Changed(usize),
    Spent(usize),
}

/// The select's wait, after the first clause that was placed: that of its first clause.
fn main_at(main: Option<WaitId>, channel: ChannelId, place: u32) -> WaitId
    ensures { result ≡ main_at channel place main }
{
    match main {
        Some(w) => w,
        None => WaitId { channel, place },
    }
}

/// Places a clause that sends.
fn place_send<F: ChannelFloor, B: NoteBook, W: Wakes>(
    x: &mut Caller<'_, '_, '_, F, B, W>,
    main: Option<WaitId>,
    clause: u8,
    c: ChannelId,
    value: Value,
) -> Result<Placed, Memory>
    requires can { MayCallChannel c (seen F.view B.items x.old) }
    requires kind { suspends (kind_at (F.view x.old.floor.now).shape c) ≡ true }
    requires joins { MayRegister x.old.who clause c main (F.view x.old.floor.now) }
    ensures same { SameCaller F.anchor x.old x.new }
    ensures answer { PlacedAnswer (sends c value) main clause (seen F.view B.items x.old) (seen F.view B.items x.new) result }
{
    if let Err(memory) = make_room(x.floor, x.book, 1) {
        return Err(memory);
    }
    match x.floor.register_offer(x.who, main, clause, c, value) {
        Registered::Stands(place) => {
            let w = main_at(main, c, place);
            let act = Act::Offer {
                c,
                place,
                value,
                main: w,
                clause,
            };
            x.book.note(Item::Channel(ChannelNote::Made(act)));
            Ok(Placed::Stands(w))
        }
        Registered::Partner(place) => {
            x.book
                .note(Item::Channel(ChannelNote::Partner { c, place }));
            Ok(Placed::Changed)
        }
        Registered::Closed(v) => {
            let note = ChannelNote::SendClosed { c, value, v };
            x.book.note(Item::Channel(note));
            Ok(Placed::Changed)
        }
        Registered::Spent => {
            x.book.note(Item::Channel(ChannelNote::Spent { c }));
            Ok(Placed::Spent)
        }
        Registered::Resolved => {
            note_resolved(x.book, main);
            Ok(Placed::Resolved)
        }
    }
}

/// Notes that the select's wait was seen resolved.
fn note_resolved<B: NoteBook>(book: &mut B, main: Option<WaitId>)
    requires room { 0 < B.spare book.old }
    ensures { NotesResolved main (B.items book.old) (B.items book.new) }
{
    if let Some(w) = main {
        book.note(Item::Channel(ChannelNote::MainResolved { w }));
    }
}

/// Places a clause that receives.
fn place_receive<F: ChannelFloor, B: NoteBook, W: Wakes>(
    x: &mut Caller<'_, '_, '_, F, B, W>,
    main: Option<WaitId>,
    clause: u8,
    c: ChannelId,
) -> Result<Placed, Memory>
    requires can { MayCallChannel c (seen F.view B.items x.old) }
    requires joins { MayRegister x.old.who clause c main (F.view x.old.floor.now) }
    ensures same { SameCaller F.anchor x.old x.new }
    ensures answer { PlacedAnswer (receives c) main clause (seen F.view B.items x.old) (seen F.view B.items x.new) result }
{
    if let Err(memory) = make_room(x.floor, x.book, 1) {
        return Err(memory);
    }
    match x.floor.register_receive(x.who, main, clause, c) {
        Registered::Stands(place) => {
            let w = main_at(main, c, place);
            let act = Act::Await {
                c,
                place,
                main: w,
                clause,
            };
            x.book.note(Item::Channel(ChannelNote::Made(act)));
            Ok(Placed::Stands(w))
        }
        Registered::Partner(place) => {
            x.book
                .note(Item::Channel(ChannelNote::Partner { c, place }));
            Ok(Placed::Changed)
        }
        Registered::Closed(v) => {
            let note = ChannelNote::ReceiveClosed { c, v };
            x.book.note(Item::Channel(note));
            Ok(Placed::Changed)
        }
        Registered::Spent => {
            x.book.note(Item::Channel(ChannelNote::Spent { c }));
            Ok(Placed::Spent)
        }
        Registered::Resolved => {
            note_resolved(x.book, main);
            Ok(Placed::Resolved)
        }
    }
}

/// Places a clause after those before it.
fn place_at<F: ChannelFloor, B: NoteBook, W: Wakes>(
    x: &mut Caller<'_, '_, '_, F, B, W>,
    clauses: &[Clause],
    i: usize,
    main: Option<WaitId>,
) -> Result<Placed, Memory>
    requires may { MayPlaceAt (calls_of clauses.now) i main (seen F.view B.items x.old) }
    ensures same { SameCaller F.anchor x.old x.new }
    ensures answer { PlacesAt (calls_of clauses.now) i main (seen F.view B.items x.old) (seen F.view B.items x.new) result }
{
    let number = i as u8 + 1;
    match clauses[i] {
        Clause::OnSend { c, value } => place_send(x, main, number, c, value),
        Clause::OnReceive { c } => place_receive(x, main, number, c),
    }
}

/// Places the clauses with one wait, which `held` names, up to one that cannot be placed.
pub(crate) fn place_all<F: ChannelFloor, B: NoteBook, W: Wakes>(
    x: &mut Caller<'_, '_, '_, F, B, W>,
    clauses: &[Clause],
    held: &mut Option<WaitId>,
) -> Result<Placings, Memory>
    requires may { MaySelect (calls_of clauses.now) (seen F.view B.items x.old) }
    requires waits { AllMayWait (F.view x.old.floor.now).shape (calls_of clauses.now) }
    requires none { held.old ≡ None }
    ensures same { SameCaller F.anchor x.old x.new }
    ensures all { PlacesAll (calls_of clauses.now) (seen F.view B.items x.old) (seen F.view B.items x.new) held.new result }
{
    let mut i = 0usize;
    while i < clauses.len() {
        match place_at(x, clauses, i, *held) {
            Ok(Placed::Stands(w)) => {
                *held = Some(w);
                i += 1;
            }
            Ok(Placed::Resolved) => return Ok(Placings::Resolved(i)),
            Ok(Placed::Changed) => return Ok(Placings::Changed(i)),
            Ok(Placed::Spent) => return Ok(Placings::Spent(i)),
            Err(memory) => return Err(memory),
        }
    }
    Ok(Placings::All)
}

/// Withdraws the select's wait, unless it was resolved before, and settles it. The answer says whether it was withdrawn.
pub(crate) fn revoke<F: ChannelFloor, B: NoteBook, W: Wakes>(
    x: &mut Caller<'_, '_, '_, F, B, W>,
    w: WaitId,
) -> Result<bool, Memory>
    requires can { MayCallChannel w.channel (seen F.view B.items x.old) }
    requires holds { HoldsWait w (seen F.view B.items x.old) }
    ensures same { SameCaller F.anchor x.old x.new }
    ensures answer { RevokedAnswer w (seen F.view B.items x.old) (seen F.view B.items x.new) result }
{
    if let Err(memory) = make_room(x.floor, x.book, 2) {
        return Err(memory);
    }
    let why = Why::Revoked;
    match x.floor.withdraw(x.who, w, why) {
        Withdrawn::Done(tag) => {
            let act = Act::Withdraw { w, why };
            x.book.note(Item::Channel(ChannelNote::Made(act)));
            x.wakes.wake(tag);
            let outcome = x.floor.settle(x.who, w, false);
            let end = Act::Settle { w, outcome };
            x.book.note(Item::Channel(ChannelNote::Made(end)));
            Ok(true)
        }
        Withdrawn::Late => {
            x.book.note(Item::Channel(ChannelNote::Late { w }));
            Ok(false)
        }
    }
}

/// Admits in the channels in which the first clauses, of which there are so many, offered.
pub(crate) fn admit_in<F: ChannelFloor, B: NoteBook, W: Wakes>(
    x: &mut Caller<'_, '_, '_, F, B, W>,
    clauses: &[Clause],
    count: usize,
) -> Result<(), Memory>
    requires may { MaySelect (calls_of clauses.now) (seen F.view B.items x.old) }
    requires within { count ≤ length clauses.now }
    ensures same { SameCaller F.anchor x.old x.new }
    ensures answer { AdmittedInAnswer (take count (calls_of clauses.now)) (seen F.view B.items x.old) (seen F.view B.items x.new) result }
{
    let mut i = 0usize;
    while i < count {
        match admit_at(x, clauses, i) {
            Ok(()) => i += 1,
            Err(memory) => return Err(memory),
        }
    }
    Ok(())
}

/// Admits in the channel of a clause that offered.
fn admit_at<F: ChannelFloor, B: NoteBook, W: Wakes>(
    x: &mut Caller<'_, '_, '_, F, B, W>,
    clauses: &[Clause],
    i: usize,
) -> Result<(), Memory>
    requires may { MaySelect (calls_of clauses.now) (seen F.view B.items x.old) }
    requires there { i < length clauses.now }
    ensures same { SameCaller F.anchor x.old x.new }
    ensures answer { AdmitsAt (calls_of clauses.now) i (seen F.view B.items x.old) (seen F.view B.items x.new) result }
{
    match clauses[i] {
        Clause::OnSend { c, value: _ } => x.admit_all(c),
        Clause::OnReceive { c: _ } => Ok(()),
    }
}
