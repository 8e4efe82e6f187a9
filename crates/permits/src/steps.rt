//! One receive, one offer, and the end of one wait, each noted.

ghost use Rattle.std.specs.Prelude.{◌≡◌, ◌<◌, ◌++◌, true};
ghost use Rattle.channel_model.specs.declared.acts.Kind.TheVariants as kinds;
ghost use Rattle.channel_model.specs.Channels.{kind_at};
ghost use Rattle.channel_model.specs.Answers.{IsReady, SettleAnswer};
ghost use Rattle.call_meaning.specs.Seen.{MayCallChannel};
ghost use Rattle.channel_calls.specs.Groups.{settle_group};
ghost use Rattle.channel_calls.specs.Calls.{SameCaller, seen, HoldsWait};
ghost use Rattle.permits.specs.Answers.{ReceivedOnce, TriedOnce, GivenOnce, EndedOnce};

use channel_calls::{Caller, ReceiveAnswer, TryReceiveAnswer, make_room, wake_some};
use channel_model::{
    Act, ChannelFloor, ChannelNote, Got, Offered, Settled, TriedGot, Why, Withdrawn,
};
use co_base::{ChannelId, Memory, Value, WaitId, Wakes};
use note_book::{Item, NoteBook};

/// What an offer to a channel that keeps all came to.
#[derive(Clone, Copy)]
pub(crate) enum Given {
    /// The element was handed or put.
    Done,
    /// The channel was closed with this value.
    Closed(Value),
    /// The channel has no place left.
    Spent,
}

/// Takes the first element, or waits for one.
pub(crate) fn receive_once<F: ChannelFloor, B: NoteBook, W: Wakes>(
    x: &mut Caller<'_, '_, '_, F, B, W>,
    c: ChannelId,
) -> Result<ReceiveAnswer, Memory>
    requires can { MayCallChannel c (seen F.view B.items x.old) }
    ensures same { SameCaller F.anchor x.old x.new }
    ensures answer { ReceivedOnce c (seen F.view B.items x.old) (seen F.view B.items x.new) result }
{
    if let Err(memory) = make_room(x.floor, x.book, 1) {
        return Err(memory);
    }
    match x.floor.receive(x.who, c) {
        Got::Taken(place, value, sender) => {
            let act = Act::Take { c, place, value };
            x.book.note(Item::Channel(ChannelNote::Made(act)));
            wake_some(x.wakes, sender);
            Ok(ReceiveAnswer::Value(value))
        }
        Got::Waiting(place) => {
            let main = WaitId { channel: c, place };
            let act = Act::Await {
                c,
                place,
                main,
                clause: 0,
            };
            x.book.note(Item::Channel(ChannelNote::Made(act)));
            Ok(ReceiveAnswer::Waits(main))
        }
        Got::Closed(v) => {
            let note = ChannelNote::ReceiveClosed { c, v };
            x.book.note(Item::Channel(note));
            Ok(ReceiveAnswer::Closed(v))
        }
        Got::Spent => {
            x.book.note(Item::Channel(ChannelNote::Spent { c }));
            Ok(ReceiveAnswer::Spent)
        }
    }
}

/// Takes the first element, if one stands.
pub(crate) fn try_receive_once<F: ChannelFloor, B: NoteBook, W: Wakes>(
    x: &mut Caller<'_, '_, '_, F, B, W>,
    c: ChannelId,
) -> Result<TryReceiveAnswer, Memory>
    requires can { MayCallChannel c (seen F.view B.items x.old) }
    ensures same { SameCaller F.anchor x.old x.new }
    ensures answer { TriedOnce c (seen F.view B.items x.old) (seen F.view B.items x.new) result }
{
    if let Err(memory) = make_room(x.floor, x.book, 1) {
        return Err(memory);
    }
    match x.floor.try_receive(x.who, c) {
        TriedGot::Taken(place, value, sender) => {
            let act = Act::Take { c, place, value };
            x.book.note(Item::Channel(ChannelNote::Made(act)));
            wake_some(x.wakes, sender);
            Ok(TryReceiveAnswer::Value(value))
        }
        TriedGot::Empty => {
            x.book.note(Item::Channel(ChannelNote::Empty { c }));
            Ok(TryReceiveAnswer::Empty)
        }
        TriedGot::Closed(v) => {
            let note = ChannelNote::TryReceiveClosed { c, v };
            x.book.note(Item::Channel(note));
            Ok(TryReceiveAnswer::Closed(v))
        }
    }
}

/// Hands an element to the receiver that stands first, or puts it into a channel that keeps all.
pub(crate) fn give_once<F: ChannelFloor, B: NoteBook, W: Wakes>(
    x: &mut Caller<'_, '_, '_, F, B, W>,
    c: ChannelId,
    value: Value,
) -> Result<Given, Memory>
    requires can { MayCallChannel c (seen F.view B.items x.old) }
    requires kind { kind_at (F.view x.old.floor.now).shape c ≡ kinds.Unlimited }
    ensures same { SameCaller F.anchor x.old x.new }
    ensures answer { GivenOnce c value (seen F.view B.items x.old) (seen F.view B.items x.new) result }
{
    if let Err(memory) = make_room(x.floor, x.book, 1) {
        return Err(memory);
    }
    match x.floor.offer(x.who, c, value) {
        Offered::Handed(place, receiver) => {
            let act = Act::Hand { c, place, value };
            x.book.note(Item::Channel(ChannelNote::Made(act)));
            x.wakes.wake(receiver);
            Ok(Given::Done)
        }
        Offered::Put(place) => {
            let act = Act::Put { c, place, value };
            x.book.note(Item::Channel(ChannelNote::Made(act)));
            Ok(Given::Done)
        }
        Offered::Held(_) => unreachable!(),
        Offered::Closed(v) => {
            let note = ChannelNote::SendClosed { c, value, v };
            x.book.note(Item::Channel(note));
            Ok(Given::Closed(v))
        }
        Offered::Spent => {
            x.book.note(Item::Channel(ChannelNote::Spent { c }));
            Ok(Given::Spent)
        }
    }
}

/// Takes the caller's wait back, unless it was resolved before, and settles it as cancelled.
pub(crate) fn end_once<F: ChannelFloor, B: NoteBook, W: Wakes>(
    x: &mut Caller<'_, '_, '_, F, B, W>,
    w: WaitId,
) -> Result<Settled, Memory>
    requires can { MayCallChannel w.channel (seen F.view B.items x.old) }
    requires holds { HoldsWait w (seen F.view B.items x.old) }
    ensures same { SameCaller F.anchor x.old x.new }
    ensures answer { EndedOnce w (seen F.view B.items x.old) (seen F.view B.items x.new) result }
{
    if let Err(memory) = make_room(x.floor, x.book, 2) {
        return Err(memory);
    }
    let why = Why::Cancelled;
    match x.floor.withdraw(x.who, w, why) {
        Withdrawn::Done(tag) => {
            let act = Act::Withdraw { w, why };
            x.book.note(Item::Channel(ChannelNote::Made(act)));
            x.wakes.wake(tag);
            Ok(settle_cancelled(x, w))
        }
        Withdrawn::Late => {
            x.book.note(Item::Channel(ChannelNote::Late { w }));
            Ok(settle_cancelled(x, w))
        }
    }
}

/// Settles the caller's wait, which was seen resolved, as cancelled. Takes no memory.
fn settle_cancelled<F: ChannelFloor, B: NoteBook, W: Wakes>(
    x: &mut Caller<'_, '_, '_, F, B, W>,
    w: WaitId,
) -> Settled
    requires can { MayCallChannel w.channel (seen F.view B.items x.old) }
    requires ready { IsReady x.old.who w (F.view x.old.floor.now) }
    requires room { 0 < (F.view x.old.floor.now).spare }
    requires book { 0 < B.spare x.old.book.now }
    ensures same { SameCaller F.anchor x.old x.new }
    ensures settled { SettleAnswer x.old.who w true (F.view x.old.floor.now) (F.view x.new.floor.now) result }
    ensures items { B.items x.new.book.now ≡ B.items x.old.book.now ++ settle_group w result }
{
    let outcome = x.floor.settle(x.who, w, true);
    let act = Act::Settle { w, outcome };
    x.book.note(Item::Channel(ChannelNote::Made(act)));
    outcome
}
