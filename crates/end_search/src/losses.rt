//! What was lost: elements that nobody will receive, and sends that a closed channel refused.

use channel_model::{Act, ChannelNote, Kind, Settled};
use co_base::{ChannelId, Memory, Value, WaitId};
use engine_one::Trial;
use gathered::Gathered;
use note_book::{Item, Notes};
use script_grammar::Instruction;
use script_reader::Script;

/// How an element was lost: each with room for a channel and a value below it.
const UNDELIVERED: u64 = 0;

const DROPPED: u64 = 281474976710656;

const SPURNED: u64 = 562949953421312;

const REFUSED: u64 = 844424930131968;

const WITHDRAWN: u64 = 1125899906842624;

/// Whether a run of the script can lose anything, if no Job of it can be cancelled: a channel drops elements, or one is closed, or a
/// select sends.
pub(crate) fn can_lose(script: &Script) -> bool {
    for channel in script.channels() {
        if matches!(
            channel.kind,
            Kind::Conflated | Kind::DropOldest(_) | Kind::DropLatest(_)
        ) {
            return true;
        }
    }
    for block in script.blocks() {
        for line in block.code.as_slice() {
            if matches!(
                *line,
                Instruction::Close { .. } | Instruction::OnSend { .. }
            ) {
                return true;
            }
        }
    }
    false
}

/// The losses that the books of so many coroutines tell of, in an order that does not depend on that of the books.
pub(crate) fn read_losses(
    losses: &mut Gathered<u64>,
    trial: &Trial<Notes>,
    coroutines: usize,
) -> Result<(), Memory> {
    losses.clear();
    for tag in 0..coroutines {
        if let Some(book) = trial.book(tag) {
            add_losses(losses, trial, book.items());
        }
    }
    losses.as_mut().sort()?;
    Ok(())
}

/// Adds the losses that the items of a book tell of.
fn add_losses(losses: &mut Gathered<u64>, trial: &Trial<Notes>, items: &[Item]) {
    for item in items {
        if let Some(loss) = loss_of(trial, items, *item) {
            losses.add(loss);
        }
    }
}

/// The loss that an item of these tells of.
fn loss_of(trial: &Trial<Notes>, items: &[Item], item: Item) -> Option<u64> {
    match item {
        Item::Channel(ChannelNote::Made(act)) => loss_by(trial, items, act),
        Item::Channel(
            ChannelNote::SendClosed { c, value, .. } | ChannelNote::TrySendClosed { c, value, .. },
        ) => some_loss(REFUSED, c, value),
        _ => None,
    }
}

fn some_loss(how: u64, channel: ChannelId, value: Value) -> Option<u64> {
    let channel = u64::from(channel).saturating_mul(4294967296);
    Some(how.saturating_add(channel).saturating_add(u64::from(value)))
}

fn loss_by(trial: &Trial<Notes>, items: &[Item], act: Act) -> Option<u64> {
    match act {
        Act::Drain { c, value, .. } => some_loss(UNDELIVERED, c, value),
        Act::Drop { c, value, .. } => some_loss(DROPPED, c, value),
        Act::Spurn { c, value, .. } => some_loss(SPURNED, c, value),
        Act::Settle {
            w,
            outcome: Settled::Undelivered(value),
        } => some_loss(UNDELIVERED, channel_of(trial, items, w), value),
        Act::Withdraw { w, .. } => some_loss(UNDELIVERED, w.channel, offered_by(items, w)?),
        Act::Offer {
            c,
            value,
            main,
            clause,
            ..
        } if clause > 0 && is_over(items, main) && trial.clause_of(main) != Some(clause) => {
            some_loss(WITHDRAWN, c, value)
        }
        _ => None,
    }
}

/// The element of the plain send that began this wait.
fn offered_by(items: &[Item], w: WaitId) -> Option<Value> {
    for item in items {
        if let Item::Channel(
            ChannelNote::Made(
                Act::Offer {
                    value,
                    main,
                    clause: 0,
                    ..
                },
            ),
        ) = *item
        {
            if main == w {
                return Some(value);
            }
        }
    }
    None
}

/// The channel at which this wait was resolved.
fn channel_of(trial: &Trial<Notes>, items: &[Item], w: WaitId) -> ChannelId {
    let chosen = trial.clause_of(w);
    for item in items {
        if let Item::Channel(
            ChannelNote::Made(
                Act::Await {
                    c,
                    main,
                    clause,
                    ..
                },
            ),
        ) = *item
        {
            if main == w && Some(clause) == chosen {
                return c;
            }
        }
    }
    w.channel
}

/// Whether its coroutine has ended this wait.
fn is_over(items: &[Item], wait: WaitId) -> bool {
    for item in items {
        if let Item::Channel(
            ChannelNote::Made(Act::Settle { w, .. } | Act::Withdraw { w, .. }),
        ) = *item
        {
            if w == wait {
                return true;
            }
        }
    }
    false
}
