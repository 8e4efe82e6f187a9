//! The items of a book, as they are printed.

ghost use Rattle.std.specs.Fmt.{decimal};
ghost use Rattle.std.specs.Prelude.{◌++◌, map};
ghost use lib.Chars.{codes};
ghost use Rattle.script_reader.specs.Programs.{declared_of};
ghost use Rattle.run_report.specs.Gatherings.{Adds};
ghost use Rattle.run_report.specs.Texts.{act_text, channel_note_text, channel_text, item_text, place_text, settled_text, wait_text, why_text};

use crate::gathered::Gathered;
use crate::job_items::add_job_note;
use crate::shown::{add_channel, add_place, add_settled, add_wait, why_word};
use channel_model::{Act, ChannelNote, Settled, Why};
use co_base::{ChannelId, Place, Value, WaitId};
use note_book::Item;
use script_reader::Channel;

// ---- lines of one shape

/// Adds a word and a channel.
fn add_of_channel(text: &mut Gathered, channels: &[Channel], word: &str, c: ChannelId)
    ensures { Adds text.old text.new (word.now ++ channel_text (map declared_of channels.now) c) }
{
    text.add(word);
    add_channel(text, channels, c);
}

/// Adds a word, a channel and a value.
fn add_of_value(text: &mut Gathered, channels: &[Channel], word: &str, c: ChannelId, value: Value)
    ensures { Adds text.old text.new (word.now ++ channel_text (map declared_of channels.now) c ++ codes " " ++ decimal value) }
{
    text.add(word);
    add_channel(text, channels, c);
    text.add(" ");
    text.add_number(value as u64);
}

/// Adds a word, a channel, a value and that of its close.
fn add_of_closed(
    text: &mut Gathered,
    channels: &[Channel],
    word: &str,
    c: ChannelId,
    value: Value,
    v: Value,
)
    ensures { Adds text.old text.new
        (word.now ++ channel_text (map declared_of channels.now) c ++ codes " " ++ decimal value ++ codes " " ++ decimal v) }
{
    text.add(word);
    add_channel(text, channels, c);
    text.add(" ");
    text.add_number(value as u64);
    text.add(" ");
    text.add_number(v as u64);
}

/// Adds a word, a channel and a place of it.
fn add_at_place(text: &mut Gathered, channels: &[Channel], word: &str, c: ChannelId, place: Place)
    ensures { Adds text.old text.new (word.now ++ place_text (map declared_of channels.now) c place) }
{
    text.add(word);
    add_place(text, channels, c, place);
}

/// Adds a word, a channel, a place of it and a value.
fn add_element(
    text: &mut Gathered,
    channels: &[Channel],
    word: &str,
    c: ChannelId,
    place: Place,
    value: Value,
)
    ensures { Adds text.old text.new
        (word.now ++ place_text (map declared_of channels.now) c place ++ codes " " ++ decimal value) }
{
    text.add(word);
    add_place(text, channels, c, place);
    text.add(" ");
    text.add_number(value as u64);
}

/// Adds a word and a wait.
fn add_of_wait(text: &mut Gathered, channels: &[Channel], word: &str, w: WaitId)
    ensures { Adds text.old text.new (word.now ++ wait_text (map declared_of channels.now) w) }
{
    text.add(word);
    add_wait(text, channels, w);
}

// ---- acts that name a wait

/// Adds an offer.
fn add_offer(
    text: &mut Gathered,
    channels: &[Channel],
    at: WaitId,
    value: Value,
    w: WaitId,
    clause: u8,
)
    ensures { Adds text.old text.new
        (codes "offer " ++ place_text (map declared_of channels.now) at.channel at.place ++ codes " " ++ decimal value
        ++ codes " " ++ wait_text (map declared_of channels.now) w ++ codes " " ++ decimal clause) }
{
    text.add("offer ");
    add_place(text, channels, at.channel, at.place);
    text.add(" ");
    text.add_number(value as u64);
    text.add(" ");
    add_wait(text, channels, w);
    text.add(" ");
    text.add_number(clause as u64);
}

/// Adds a receiver that waits.
fn add_await(text: &mut Gathered, channels: &[Channel], at: WaitId, w: WaitId, clause: u8)
    ensures { Adds text.old text.new
        (codes "await " ++ place_text (map declared_of channels.now) at.channel at.place
        ++ codes " " ++ wait_text (map declared_of channels.now) w ++ codes " " ++ decimal clause) }
{
    text.add("await ");
    add_place(text, channels, at.channel, at.place);
    text.add(" ");
    add_wait(text, channels, w);
    text.add(" ");
    text.add_number(clause as u64);
}

/// Adds a wait that is withdrawn, and why.
fn add_withdraw(text: &mut Gathered, channels: &[Channel], w: WaitId, why: Why)
    ensures { Adds text.old text.new (codes "withdraw " ++ wait_text (map declared_of channels.now) w ++ codes " " ++ why_text why) }
{
    text.add("withdraw ");
    add_wait(text, channels, w);
    text.add(" ");
    text.add(why_word(why));
}

/// Adds a wait that is settled, and how it ended.
fn add_settle(text: &mut Gathered, channels: &[Channel], w: WaitId, outcome: Settled)
    ensures { Adds text.old text.new (codes "settle " ++ wait_text (map declared_of channels.now) w ++ codes " " ++ settled_text outcome) }
{
    text.add("settle ");
    add_wait(text, channels, w);
    text.add(" ");
    add_settled(text, outcome);
}

// ---- acts and notes

/// Adds an act on a channel.
fn add_act(text: &mut Gathered, channels: &[Channel], act: Act)
    ensures { Adds text.old text.new (act_text (map declared_of channels.now) act) }
{
    match act {
        Act::Hand { c, place, value } => add_element(text, channels, "hand ", c, place, value),
        Act::Put { c, place, value } => add_element(text, channels, "put ", c, place, value),
        Act::Offer {
            c,
            place,
            value,
            main,
            clause,
        } => add_offer(
            text,
            channels,
            WaitId { channel: c, place },
            value,
            main,
            clause,
        ),
        Act::Await {
            c,
            place,
            main,
            clause,
        } => add_await(text, channels, WaitId { channel: c, place }, main, clause),
        Act::Take { c, place, value } => add_element(text, channels, "take ", c, place, value),
        Act::Admit { c, place } => add_at_place(text, channels, "admit ", c, place),
        Act::Drop { c, place, value } => add_element(text, channels, "drop ", c, place, value),
        Act::Spurn { c, place, value } => add_element(text, channels, "spurn ", c, place, value),
        Act::Close { c, value } => add_of_value(text, channels, "close ", c, value),
        Act::Void { c } => add_of_channel(text, channels, "void ", c),
        Act::Drain { c, place, value } => add_element(text, channels, "drain ", c, place, value),
        Act::WakeClosed { c, place } => add_at_place(text, channels, "wakeclosed ", c, place),
        Act::Withdraw { w, why } => add_withdraw(text, channels, w, why),
        Act::Settle { w, outcome } => add_settle(text, channels, w, outcome),
    }
}

/// Adds a note on a channel.
fn add_note(text: &mut Gathered, channels: &[Channel], note: ChannelNote)
    ensures { Adds text.old text.new (channel_note_text (map declared_of channels.now) note) }
{
    match note {
        ChannelNote::Made(act) => add_act(text, channels, act),
        ChannelNote::SendClosed { c, value, v } => {
            add_of_closed(text, channels, "sendclosed ", c, value, v)
        }
        ChannelNote::TrySendClosed { c, value, v } => {
            add_of_closed(text, channels, "trysendclosed ", c, value, v)
        }
        ChannelNote::ReceiveClosed { c, v } => {
            add_of_value(text, channels, "receiveclosed ", c, v)
        }
        ChannelNote::TryReceiveClosed { c, v } => {
            add_of_value(text, channels, "tryreceiveclosed ", c, v)
        }
        ChannelNote::AlreadyClosed { c, v } => {
            add_of_value(text, channels, "alreadyclosed ", c, v)
        }
        ChannelNote::Full { c, value } => add_of_value(text, channels, "full ", c, value),
        ChannelNote::Empty { c } => add_of_channel(text, channels, "empty ", c),
        ChannelNote::Spent { c } => add_of_channel(text, channels, "spent ", c),
        ChannelNote::Partner { c, place } => add_at_place(text, channels, "partner ", c, place),
        ChannelNote::MainResolved { w } => add_of_wait(text, channels, "resolved ", w),
        ChannelNote::Late { w } => add_of_wait(text, channels, "late ", w),
    }
}

/// Adds an item.
pub(crate) fn add_item(text: &mut Gathered, channels: &[Channel], item: Item)
    ensures { Adds text.old text.new (item_text (map declared_of channels.now) item) }
{
    match item {
        Item::Channel(note) => add_note(text, channels, note),
        Item::Job(note) => add_job_note(text, note),
    }
}
