//! The done channels of Jobs: they are closed where a Job ends, and received from by whoever waits for that.

ghost use Rattle.std.specs.Prelude.{◌≡◌, ◌+◌, ◌<◌, ◌≤◌, nat_lt, []};
ghost use Rattle.std.proofs.Props.{props};
ghost use Rattle.channel_model.specs.declared.acts.Kind.TheVariants.{Signal};
ghost use Rattle.channel_model.specs.Channels.{kind_at, places_at};
ghost use Rattle.channel_model.specs.Floors.{Added, MayCall};
ghost use Rattle.channel_model.specs.Answers.{IsSeenClosed};
ghost use Rattle.call_meaning.specs.Orders.{IsToldOfJobs};
ghost use Rattle.call_meaning.specs.Seen.{seen_channels};
ghost use Rattle.call_meaning.specs.JobCalls.{value_of};
ghost use Rattle.scope_builders.specs.Dones.{MayClose, ClosedFirst, WokenLast, EndsDone, SignalAnswer, ClosedIsSeen};

use crate::builder::Joined;
use call_meaning::JobsBeside;
use channel_model::{Act, ChannelFloor, ChannelNote, Got};
use co_base::{ChannelId, Memory, Row, Tag, Value, WaitId, Wakes};
use job_model::{End, done_channel};
use job_tree::Ends;
use note_book::{Item, NoteBook};

/// Closes the done channel of each Job that ends, and tells who waits there. That of the row r is `done_channel(base, r)`, of one
/// place, so that at most one receiver ever stands there, and what one end takes is known before it.
#[derive(Drop)]
pub struct DoneChannels<'a, C: ChannelFloor> {
    pub channels: &'a mut C,
    pub who: Tag,
    pub base: ChannelId,
    /// How many rows have a done channel.
    pub rows: u16,
    ghost may: { MayClose who base rows (C.view channels.now) } by { Prim.hlevel props },
}

/// The value with which the done channel of a Job that ended so is closed.
fn value_of(end: End) -> Value
    ensures { result ≡ value_of end }
{
    match end {
        End::Completed(value) => value,
        End::Cancelled(_) => 0,
    }
}

/// Closes the channel, or notes that it was closed before.
fn close_first<C: ChannelFloor, B: NoteBook>(
    channels: &mut C,
    book: &mut B,
    who: Tag,
    c: ChannelId,
    value: Value,
)
    requires can { MayCall who c (C.view channels.old) }
    requires room { 0 < (C.view channels.old).spare }
    requires book { 0 < B.spare book.old }
    ensures channels_anchor { C.anchor channels.new ≡ C.anchor channels.old }
    ensures closed { ClosedFirst c value (seen_channels C.view B.items who channels.old book.old)
        (seen_channels C.view B.items who channels.new book.new) }
    ensures spare { B.spare book.old ≡ B.spare book.new + 1 }
    ensures left { (C.view channels.old).spare ≤ (C.view channels.new).spare + 1 }
{
    match channels.close(who, c, value) {
        Ok(()) => {
            let act = Act::Close { c, value };
            book.note(Item::Channel(ChannelNote::Made(act)));
        }
        Err(first) => {
            let note = ChannelNote::AlreadyClosed { c, v: first.v };
            book.note(Item::Channel(note));
        }
    }
}

/// Tells the receiver that stands at a closed channel of one place, if one does.
fn wake_last<C: ChannelFloor, B: NoteBook, W: Wakes>(
    channels: &mut C,
    book: &mut B,
    wakes: &mut W,
    who: Tag,
    c: ChannelId,
)
    requires can { MayCall who c (C.view channels.old) }
    requires one_place { places_at (C.view channels.old).shape c ≡ 1 }
    requires closed { IsSeenClosed c (C.view channels.old) }
    requires room { 0 < (C.view channels.old).spare }
    requires book { 0 < B.spare book.old }
    ensures channels_anchor { C.anchor channels.new ≡ C.anchor channels.old }
    ensures woken { WokenLast c (seen_channels C.view B.items who channels.old book.old)
        (seen_channels C.view B.items who channels.new book.new)
        (B.spare book.old) (B.spare book.new) }
{
    if let Some((place, tag)) = channels.wake_closed(who, c) {
        let act = Act::WakeClosed { c, place };
        book.note(Item::Channel(ChannelNote::Made(act)));
        wakes.wake(tag);
    }
}

/// Receives on a done channel. It carries no element, so the floor is called once, and nothing follows.
pub(crate) fn receive_signal<C: ChannelFloor, B: NoteBook>(
    channels: &mut C,
    book: &mut B,
    who: Tag,
    c: ChannelId,
) -> Result<Joined, Memory>
    requires can { MayCall who c (C.view channels.old) }
    requires signal { kind_at (C.view channels.old).shape c ≡ Signal }
    ensures channels_anchor { C.anchor channels.new ≡ C.anchor channels.old }
    ensures answer { SignalAnswer c (seen_channels C.view B.items who channels.old book.old)
        (seen_channels C.view B.items who channels.new book.new) result }
    ensures closed { ClosedIsSeen c (C.view channels.new) result }
{
    if let Err(memory) = book.room(1) {
        return Err(memory);
    }
    if let Err(memory) = channels.room(1) {
        return Err(memory);
    }
    match channels.receive(who, c) {
        Got::Taken(_, _, _) => unreachable!(),
        Got::Waiting(place) => {
            let main = WaitId { channel: c, place };
            let act = Act::Await {
                c,
                place,
                main,
                clause: 0,
            };
            book.note(Item::Channel(ChannelNote::Made(act)));
            Ok(Joined::Waits(main))
        }
        Got::Closed(v) => {
            let note = ChannelNote::ReceiveClosed { c, v };
            book.note(Item::Channel(note));
            Ok(Joined::Closed(v))
        }
        Got::Spent => {
            book.note(Item::Channel(ChannelNote::Spent { c }));
            Ok(Joined::Spent)
        }
    }
}

impl<C: ChannelFloor, J: JobsBeside<C>, B: NoteBook, W: Wakes> Ends<J, B, W>
    for DoneChannels<'_, C> {
    ghost most = { λ d. 2 };

    ghost is_ready = { λ d. nat_lt 1 (C.view d.channels.now).spare };

    ghost prepares = { λ d e.
        (e.channels.ghost_name ≡ d.channels.ghost_name) × (e.who ≡ d.who) × (e.base ≡ d.base) × (e.rows ≡ d.rows)
        × (C.anchor e.channels.now ≡ C.anchor d.channels.now)
        × Added d.who [] (C.view d.channels.now) (C.view e.channels.now) };

    ghost does = { λ d jobs row end items e after.
        (e.channels.ghost_name ≡ d.channels.ghost_name) × (e.who ≡ d.who) × (e.base ≡ d.base) × (e.rows ≡ d.rows)
        × (C.anchor e.channels.now ≡ C.anchor d.channels.now)
        × EndsDone d.who d.base d.rows row end (C.view d.channels.now) jobs (C.view e.channels.now) after items };

    ghost leaves = { λ d e jobs.
        (e.channels.ghost_name ≡ d.channels.ghost_name) × (e.who ≡ d.who) × (e.base ≡ d.base) × (e.rows ≡ d.rows)
        × (C.anchor e.channels.now ≡ C.anchor d.channels.now)
        × IsToldOfJobs d.who (C.view d.channels.now) (C.view e.channels.now) jobs };

    fn ready(&mut self, book: &mut B, more: u32) -> Result<(), Memory> {
        let Some(notes) = more.checked_add(2) else {
            return Err(Memory);
        };
        if let Err(memory) = book.room(notes) {
            return Err(memory);
        }
        if let Err(memory) = self.channels.room(2) {
            return Err(memory);
        }
        Ok(())
    }

    fn ended(&mut self, jobs: &mut J, book: &mut B, wakes: &mut W, row: Row, end: End) {
        if row >= self.rows {
            return;
        }
        jobs.tell(self.channels);
        let c = done_channel(self.base, row);
        close_first(self.channels, book, self.who, c, value_of(end));
        wake_last(self.channels, book, wakes, self.who, c);
        jobs.hear(self.channels);
    }

    fn left(&mut self, jobs: &mut J) {
        jobs.tell(self.channels);
    }
}
