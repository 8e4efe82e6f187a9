//! Calls on channels: a `Caller` makes those of one coroutine, over any floor, and notes them in its book.

ghost use Rattle.std.specs.Prelude.{◌≡◌, true, false, IfOk, OnOk};
ghost use Rattle.channel_model.specs.Channels.{kind_at, is_signal};
ghost use Rattle.channel_model.specs.Floors.{MayCall};
ghost use Rattle.channel_model.specs.Answers.{IsSeenClosed};
ghost use Rattle.call_meaning.specs.Seen.{seen_channels, MayCallChannel};
ghost use Rattle.channel_calls.specs.Calls.{SameCaller, seen, CarriesElements, SentAnswer, ReceivedAnswer};
ghost use Rattle.library_examples.specs.Examples.{ReceivedOr, IsGivenUp};

use channel_calls::{Caller, ReceiveAnswer, SendAnswer, TryReceiveAnswer};
use channel_model::{ChannelFloor, Settled};
use co_base::{ChannelId, Memory, Tag, Value, Wakes};
use note_book::NoteBook;

/// Sends an element, and closes the channel after it. Whatever the send came to, the channel is closed in the end.
pub(crate) fn send_last<F: ChannelFloor, B: NoteBook, W: Wakes>(
    caller: &mut Caller<'_, '_, '_, F, B, W>,
    c: ChannelId,
    value: Value,
) -> Result<SendAnswer, Memory>
    requires can { MayCallChannel c (seen F.view B.items caller.old) }
    requires kind { CarriesElements c (seen F.view B.items caller.old) }
    ensures same { SameCaller F.anchor caller.old caller.new }
    ensures closed { OnOk result (IsSeenClosed c (F.view caller.new.floor.now)) }
{
    match caller.send(c, value) {
        Ok(sent) => match caller.close(c, 0) {
            Ok(_first) => Ok(sent),
            Err(memory) => Err(memory),
        },
        Err(memory) => Err(memory),
    }
}

/// Receives an element if one is there, and else answers the other value: then the channel was empty, or closed and empty.
pub(crate) fn receive_or<F: ChannelFloor, B: NoteBook, W: Wakes>(
    caller: &mut Caller<'_, '_, '_, F, B, W>,
    c: ChannelId,
    other: Value,
) -> Result<Value, Memory>
    requires can { MayCallChannel c (seen F.view B.items caller.old) }
    ensures same { SameCaller F.anchor caller.old caller.new }
    ensures received { IfOk result (λ value. ReceivedOr c other (seen F.view B.items caller.old) (seen F.view B.items caller.new) value) }
{
    match caller.try_receive(c) {
        Ok(TryReceiveAnswer::Value(value)) => Ok(value),
        Ok(TryReceiveAnswer::Empty) => Ok(other),
        Ok(TryReceiveAnswer::Closed(_value)) => Ok(other),
        Err(memory) => Err(memory),
    }
}

/// Sends an element as this coroutine: lends the floor and its book to a `Caller`, which ends with the call.
fn send_as<F: ChannelFloor, B: NoteBook, W: Wakes>(
    floor: &mut F,
    book: &mut B,
    wakes: &mut W,
    who: Tag,
    c: ChannelId,
    value: Value,
) -> Result<SendAnswer, Memory>
    requires can { MayCall who c (F.view floor.old) }
    requires kind { is_signal (kind_at (F.view floor.old).shape c) ≡ false }
    ensures anchor { F.anchor floor.new ≡ F.anchor floor.old }
    ensures answer { SentAnswer c value (seen_channels F.view B.items who floor.old book.old)
        (seen_channels F.view B.items who floor.new book.new) result }
{
    let mut caller = Caller {
        floor: &mut *floor,
        book: &mut *book,
        wakes: &mut *wakes,
        who,
    };
    caller.send(c, value)
}

/// Receives as this coroutine, in the same way.
fn receive_as<F: ChannelFloor, B: NoteBook, W: Wakes>(
    floor: &mut F,
    book: &mut B,
    wakes: &mut W,
    who: Tag,
    c: ChannelId,
) -> Result<ReceiveAnswer, Memory>
    requires can { MayCall who c (F.view floor.old) }
    ensures anchor { F.anchor floor.new ≡ F.anchor floor.old }
    ensures answer { ReceivedAnswer c (seen_channels F.view B.items who floor.old book.old)
        (seen_channels F.view B.items who floor.new book.new) result }
{
    let mut caller = Caller {
        floor: &mut *floor,
        book: &mut *book,
        wakes: &mut *wakes,
        who,
    };
    caller.receive(c)
}

/// Coroutine 1 waits for an element, coroutine 2 sends one, and then the wait of coroutine 1 is cancelled. Whichever came first, the
/// wait does not end with a value: it ends as cancelled, or with the element given up. None: coroutine 1 did not wait.
pub(crate) fn cancelled_receive<F: ChannelFloor, B: NoteBook, W: Wakes>(
    floor: &mut F,
    receiver: &mut B,
    sender: &mut B,
    wakes: &mut W,
    c: ChannelId,
    value: Value,
) -> Result<Option<Settled>, Memory>
    requires one { MayCall 1 c (F.view floor.old) }
    requires two { MayCall 2 c (F.view floor.old) }
    requires kind { is_signal (kind_at (F.view floor.old).shape c) ≡ false }
    requires alone { (F.view floor.old).alone ≡ true }
    ensures anchor { F.anchor floor.new ≡ F.anchor floor.old }
    ensures given_up { IfOk result (λ outcome. IsGivenUp outcome) }
{
    match receive_as(floor, receiver, wakes, 1, c) {
        Ok(ReceiveAnswer::Waits(w)) => {
            match send_as(floor, sender, wakes, 2, c, value) {
                Ok(_sent) => {
                    let mut caller = Caller {
                        floor: &mut *floor,
                        book: &mut *receiver,
                        wakes: &mut *wakes,
                        who: 1,
                    };
                    match caller.cancel_wait(w) {
                        Ok(outcome) => Ok(Some(outcome)),
                        Err(memory) => Err(memory),
                    }
                }
                Err(memory) => Err(memory),
            }
        }
        Ok(_answer) => Ok(None),
        Err(memory) => Err(memory),
    }
}
