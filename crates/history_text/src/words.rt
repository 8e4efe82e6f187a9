//! Channels, waits, rows and numbers in a line.

ghost use Rattle.std.specs.Prelude.{◌≡◌, ◌∷◌, ◌==◌};
ghost use Rattle.std.specs.List.{slice_split};
ghost use Rattle.report_reader.specs.Words.{parts};
ghost use Rattle.history_text.specs.Names.{AreNames, listed};
ghost use Rattle.history_text.specs.Words.{clause_at, row_at, tag_at, wait_at, wait_by};

use crate::names::{Names, channel_at};
use co_base::{Row, Tag, WaitId};
use report_reader::{cut_at, value_of};

/// The tag that a word says.
pub(crate) fn tag_at(word: &[u8]) -> Option<Tag>
    ensures { result ≡ tag_at word.now }
{
    match value_of(word) {
        Some(number) if number < 65536 => Some(number as u16),
        _ => None,
    }
}

/// The row of a Job that a word says.
pub(crate) fn row_at(word: &[u8]) -> Option<Row>
    ensures { result ≡ row_at word.now }
{
    tag_at(word)
}

/// The number of a clause that a word says.
pub(crate) fn clause_at(word: &[u8]) -> Option<u8>
    ensures { result ≡ clause_at word.now }
{
    match value_of(word) {
        Some(number) if number < 256 => Some(number as u8),
        _ => None,
    }
}

/// The wait of this channel and place, with nothing behind them.
fn wait_by(names: &Names, channel: &[u8], place: &[u8], more: Option<&[u8]>) -> Option<WaitId>
    requires { AreNames names.now }
    ensures { result ≡ wait_by (listed names.now) (channel.now ∷ parts 46 place.now more.entry) }
{
    if more.is_some() {
        return None;
    }
    let Some(channel) = channel_at(names, channel) else {
        return None;
    };
    match value_of(place) {
        Some(place) => Some(WaitId { channel, place }),
        None => None,
    }
}

/// The wait of this channel, and what stands behind its point.
fn wait_of(names: &Names, channel: &[u8], rest: &[u8]) -> Option<WaitId>
    requires { AreNames names.now }
    ensures { result ≡ wait_by (listed names.now) (channel.now ∷ slice_split (λ b. b == 46) rest.now) }
{
    let (place, more) = cut_at(b'.', rest);
    wait_by(names, channel, place, more)
}

/// The wait that a word names.
pub(crate) fn wait_at(names: &Names, word: &[u8]) -> Option<WaitId>
    requires { AreNames names.now }
    ensures { result ≡ wait_at (listed names.now) word.now }
{
    let (channel, more) = cut_at(b'.', word);
    match more {
        Some(rest) => wait_of(names, channel, rest),
        None => None,
    }
}
