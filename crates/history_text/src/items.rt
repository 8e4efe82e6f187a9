//! Which words are which item.

ghost use Rattle.std.specs.Prelude.{◌≡◌};
ghost use Rattle.report_reader.specs.Words.{texts};
ghost use Rattle.history_text.specs.Names.{AreNames, listed};
ghost use Rattle.history_text.specs.Items.{await_by, ended_alone, ended_by, ended_with, ended_with_both, item_by, late_by, of_channel, of_number, of_numbers, offer_by, plain_by, resolved_by, settle_by, withdraw_by};

use crate::names::{Names, channel_at};
use crate::words::{clause_at, wait_at};
use channel_model::{Act, ChannelNote, Settled, Why};
use co_base::{ChannelId, Value};
use report_reader::value_of;

// ---- items of a channel and numbers

#[tactic(auto, unfolding(crate::specs::Items::of_channel))]
fn of_channel(verb: &[u8], c: ChannelId) -> Option<ChannelNote>
    ensures { result ≡ of_channel verb.now c }
{
    if verb == b"void".as_slice() {
        Some(ChannelNote::Made(Act::Void { c }))
    } else if verb == b"empty".as_slice() {
        Some(ChannelNote::Empty { c })
    } else if verb == b"spent".as_slice() {
        Some(ChannelNote::Spent { c })
    } else {
        None
    }
}

#[tactic(auto, unfolding(crate::specs::Items::of_number))]
fn of_number(verb: &[u8], c: ChannelId, n: u32) -> Option<ChannelNote>
    ensures { result ≡ of_number verb.now c n }
{
    if verb == b"admit".as_slice() {
        Some(ChannelNote::Made(Act::Admit { c, place: n }))
    } else if verb == b"close".as_slice() {
        Some(ChannelNote::Made(Act::Close { c, value: n }))
    } else if verb == b"wakeclosed".as_slice() {
        Some(ChannelNote::Made(Act::WakeClosed { c, place: n }))
    } else if verb == b"receiveclosed".as_slice() {
        Some(ChannelNote::ReceiveClosed { c, v: n })
    } else if verb == b"tryreceiveclosed".as_slice() {
        Some(ChannelNote::TryReceiveClosed { c, v: n })
    } else if verb == b"alreadyclosed".as_slice() {
        Some(ChannelNote::AlreadyClosed { c, v: n })
    } else if verb == b"full".as_slice() {
        Some(ChannelNote::Full { c, value: n })
    } else if verb == b"partner".as_slice() {
        Some(ChannelNote::Partner { c, place: n })
    } else {
        None
    }
}

#[tactic(auto, unfolding(crate::specs::Items::of_numbers))]
fn of_numbers(verb: &[u8], c: ChannelId, n: u32, value: Value) -> Option<ChannelNote>
    ensures { result ≡ of_numbers verb.now c n value }
{
    let place = n;
    if verb == b"hand".as_slice() {
        Some(ChannelNote::Made(Act::Hand { c, place, value }))
    } else if verb == b"put".as_slice() {
        Some(ChannelNote::Made(Act::Put { c, place, value }))
    } else if verb == b"take".as_slice() {
        Some(ChannelNote::Made(Act::Take { c, place, value }))
    } else if verb == b"drop".as_slice() {
        Some(ChannelNote::Made(Act::Drop { c, place, value }))
    } else if verb == b"spurn".as_slice() {
        Some(ChannelNote::Made(Act::Spurn { c, place, value }))
    } else if verb == b"drain".as_slice() {
        Some(ChannelNote::Made(Act::Drain { c, place, value }))
    } else if verb == b"sendclosed".as_slice() {
        Some(ChannelNote::SendClosed {
            c,
            value: n,
            v: value,
        })
    } else if verb == b"trysendclosed".as_slice() {
        Some(ChannelNote::TrySendClosed {
            c,
            value: n,
            v: value,
        })
    } else {
        None
    }
}

/// The item of a verb with a channel and at most two numbers.
fn plain_by(names: &Names, verb: &[u8], words: &[&[u8]]) -> Option<ChannelNote>
    requires { AreNames names.now }
    ensures { result ≡ plain_by (listed names.now) verb.now (texts words.now) }
{
    match words {
        [c] => of_channel(verb, channel_at(names, *c)?),
        [c, n] => of_number(verb, channel_at(names, *c)?, value_of(*n)?),
        [c, n, m] => of_numbers(verb, channel_at(names, *c)?, value_of(*n)?, value_of(*m)?),
        _ => None,
    }
}

// ---- items of a wait

fn offer_by(names: &Names, words: &[&[u8]]) -> Option<ChannelNote>
    requires { AreNames names.now }
    ensures { result ≡ offer_by (listed names.now) (texts words.now) }
{
    let [c, place, value, main, clause] = words else {
        return None;
    };
    let (Some(c), Some(place), Some(value), Some(main), Some(clause)) = (
        channel_at(names, *c),
        value_of(*place),
        value_of(*value),
        wait_at(names, *main),
        clause_at(*clause),
    ) else {
        return None;
    };
    Some(ChannelNote::Made(Act::Offer {
        c,
        place,
        value,
        main,
        clause,
    }))
}

fn await_by(names: &Names, words: &[&[u8]]) -> Option<ChannelNote>
    requires { AreNames names.now }
    ensures { result ≡ await_by (listed names.now) (texts words.now) }
{
    let [c, place, main, clause] = words else {
        return None;
    };
    let (Some(c), Some(place), Some(main), Some(clause)) = (
        channel_at(names, *c),
        value_of(*place),
        wait_at(names, *main),
        clause_at(*clause),
    ) else {
        return None;
    };
    Some(ChannelNote::Made(Act::Await {
        c,
        place,
        main,
        clause,
    }))
}

fn withdraw_by(names: &Names, words: &[&[u8]]) -> Option<ChannelNote>
    requires { AreNames names.now }
    ensures { result ≡ withdraw_by (listed names.now) (texts words.now) }
{
    let [w, reason] = words else {
        return None;
    };
    let w = wait_at(names, *w)?;
    let why = if *reason == b"cancelled".as_slice() {
        Why::Cancelled
    } else if *reason == b"revoked".as_slice() {
        Why::Revoked
    } else {
        return None;
    };
    Some(ChannelNote::Made(Act::Withdraw { w, why }))
}

#[tactic(auto, unfolding(crate::specs::Items::ended_alone))]
fn ended_alone(how: &[u8]) -> Option<Settled>
    ensures { result ≡ ended_alone how.now }
{
    if how == b"cancelled".as_slice() {
        Some(Settled::Cancelled)
    } else {
        None
    }
}

#[tactic(auto, unfolding(crate::specs::Items::ended_with))]
fn ended_with(how: &[u8], clause: Option<u8>, value: Option<Value>) -> Option<Settled>
    ensures { result ≡ ended_with how.now clause value }
{
    if how == b"sent".as_slice() {
        Some(Settled::Sent(clause?))
    } else if how == b"undelivered".as_slice() {
        Some(Settled::Undelivered(value?))
    } else {
        None
    }
}

#[tactic(auto, unfolding(crate::specs::Items::ended_with_both))]
fn ended_with_both(how: &[u8], clause: u8, value: Value) -> Option<Settled>
    ensures { result ≡ ended_with_both how.now clause value }
{
    if how == b"value".as_slice() {
        Some(Settled::Value(clause, value))
    } else if how == b"closed".as_slice() {
        Some(Settled::Closed(clause, value))
    } else {
        None
    }
}

/// How a wait ended.
fn ended_by(words: &[&[u8]]) -> Option<Settled>
    ensures { result ≡ ended_by (texts words.now) }
{
    match words {
        [how] => ended_alone(*how),
        [how, n] => ended_with(*how, clause_at(*n), value_of(*n)),
        [how, clause, value] => ended_with_both(*how, clause_at(*clause)?, value_of(*value)?),
        _ => None,
    }
}

fn settle_by(names: &Names, words: &[&[u8]]) -> Option<ChannelNote>
    requires { AreNames names.now }
    ensures { result ≡ settle_by (listed names.now) (texts words.now) }
{
    let [w, how @ ..] = words else {
        return None;
    };
    let (Some(w), Some(outcome)) = (wait_at(names, *w), ended_by(how)) else {
        return None;
    };
    Some(ChannelNote::Made(Act::Settle { w, outcome }))
}

fn resolved_by(names: &Names, words: &[&[u8]]) -> Option<ChannelNote>
    requires { AreNames names.now }
    ensures { result ≡ resolved_by (listed names.now) (texts words.now) }
{
    let [w] = words else {
        return None;
    };
    let w = wait_at(names, *w)?;
    Some(ChannelNote::MainResolved { w })
}

fn late_by(names: &Names, words: &[&[u8]]) -> Option<ChannelNote>
    requires { AreNames names.now }
    ensures { result ≡ late_by (listed names.now) (texts words.now) }
{
    let [w] = words else {
        return None;
    };
    let w = wait_at(names, *w)?;
    Some(ChannelNote::Late { w })
}

// ---- all items

/// The item that a verb and the words behind it are.
#[tactic(auto, unfolding(crate::specs::Items::item_by))]
pub(crate) fn item_by(names: &Names, verb: &[u8], words: &[&[u8]]) -> Option<ChannelNote>
    requires { AreNames names.now }
    ensures { result ≡ item_by (listed names.now) verb.now (texts words.now) }
{
    if verb == b"offer".as_slice() {
        offer_by(names, words)
    } else if verb == b"await".as_slice() {
        await_by(names, words)
    } else if verb == b"withdraw".as_slice() {
        withdraw_by(names, words)
    } else if verb == b"settle".as_slice() {
        settle_by(names, words)
    } else if verb == b"resolved".as_slice() {
        resolved_by(names, words)
    } else if verb == b"late".as_slice() {
        late_by(names, words)
    } else {
        plain_by(names, verb, words)
    }
}
