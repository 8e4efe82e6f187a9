//! The parts of a line.

ghost use Rattle.std.specs.Prelude.{◌≡◌, ◌++◌, map};
ghost use Rattle.std.specs.Fmt.{decimal};
ghost use lib.Chars.{codes};
ghost use Rattle.script_reader.specs.Programs.{declared_of};
ghost use Rattle.run_report.specs.Gatherings.{Adds};
ghost use Rattle.run_report.specs.Texts.{channel_text, place_text, settled_text, wait_text, why_text};

use crate::gathered::Gathered;
use channel_model::{Settled, Why};
use co_base::{ChannelId, Place, WaitId};
use script_reader::Channel;

/// Adds a channel by its name, or a done channel by its row.
pub(crate) fn add_channel(text: &mut Gathered, channels: &[Channel], c: ChannelId)
    ensures { Adds text.old text.new (channel_text (map declared_of channels.now) c) }
{
    let c = c as usize;
    if c < channels.len() {
        text.add(channels[c].name.as_str());
    } else {
        add_row(text, c - channels.len());
    }
}

/// Adds the row of a done channel.
fn add_row(text: &mut Gathered, row: usize)
    ensures { Adds text.old text.new (codes "@" ++ decimal row) }
{
    text.add("@");
    text.add_index(row);
}

/// Adds a channel and a place of it.
pub(crate) fn add_place(text: &mut Gathered, channels: &[Channel], c: ChannelId, place: Place)
    ensures { Adds text.old text.new (place_text (map declared_of channels.now) c place) }
{
    add_channel(text, channels, c);
    text.add(" ");
    text.add_number(place as u64);
}

/// Adds a wait.
pub(crate) fn add_wait(text: &mut Gathered, channels: &[Channel], w: WaitId)
    ensures { Adds text.old text.new (wait_text (map declared_of channels.now) w) }
{
    add_channel(text, channels, w.channel);
    text.add(".");
    text.add_number(w.place as u64);
}

/// The word for why a wait was withdrawn.
pub(crate) fn why_word(why: Why) -> &'static str
    ensures { result.now ≡ why_text why }
{
    match why {
        Why::Cancelled => "cancelled",
        Why::Revoked => "revoked",
    }
}

/// Adds a word and a number.
pub(crate) fn add_counted(text: &mut Gathered, word: &str, number: u64)
    ensures { Adds text.old text.new (word.now ++ decimal number) }
{
    text.add(word);
    text.add_number(number);
}

/// Adds a word and two numbers.
pub(crate) fn add_pair(text: &mut Gathered, word: &str, first: u64, second: u64)
    ensures { Adds text.old text.new (word.now ++ decimal first ++ codes " " ++ decimal second) }
{
    text.add(word);
    text.add_number(first);
    text.add(" ");
    text.add_number(second);
}

/// Adds how a wait ended.
pub(crate) fn add_settled(text: &mut Gathered, outcome: Settled)
    ensures { Adds text.old text.new (settled_text outcome) }
{
    match outcome {
        Settled::Value(clause, value) => add_pair(text, "value ", clause as u64, value as u64),
        Settled::Sent(clause) => add_counted(text, "sent ", clause as u64),
        Settled::Closed(clause, v) => add_pair(text, "closed ", clause as u64, v as u64),
        Settled::Cancelled => text.add("cancelled"),
        Settled::Undelivered(value) => add_counted(text, "undelivered ", value as u64),
    }
}
