//! A value is put, and received.
ghost use Rattle.std.specs.Prelude.{◌≡◌, ◌≤◌, ◌^◌, []};
ghost use Rattle.ring_channel.specs.Seen.{IsTable, IsSeated, own_tag};
ghost use Rattle.ring_channel.specs.Answers.{SentAnswer, GotAnswer};

use crate::answers::{RingGot, RingSent};
use crate::rule::{RingSeat, RingWords};
use crate::steps::{HEAD, SLOTS, TAIL, claim, fill, free_slot, load_word, take};

/// Puts the value at the next place, if its slot is free and no other comes first.
pub(crate) fn put_once<T>(
    words: &RingWords<T>,
    seat: &mut RingSeat<T>,
    slots: u32,
    places: u64,
    value: T,
) -> RingSent<T>
    requires table { IsTable words.now.table_id words.now.key × (seat.old.table_id ≡ words.now.table_id) × (slots ≡ words.now.key) }
    requires seat { IsSeated words.now.key seat.old.me }
    requires hand { seat.old.me.1 ≡ [] }
    requires places { places ≤ 2 ^ 62 }
    ensures same { (seat.new.table_id ≡ seat.old.table_id) × (seat.new.id ≡ seat.old.id) × (seat.new.me.1 ≡ []) }
    ensures seat { IsSeated words.now.key seat.new.me }
    ensures answer { SentAnswer slots places (own_tag seat.old.me.0) value seat.old.me.0 seat.new.me.0 result }
{
    let tail = load_word(words, seat, TAIL);
    let place = tail / 2;
    if tail % 2 == 1 {
        return RingSent::Closed(value);
    }
    if place >= places {
        return RingSent::Spent(value);
    }
    let slot = (place % slots as u64) as usize;
    let stamp = load_word(words, seat, SLOTS + slot);
    if stamp < 2 * place {
        return RingSent::Full(value);
    }
    let said = Some(value);
    if claim(words, seat, place, &said) != 2 * place {
        let Some(value) = said else { unreachable!() };
        return RingSent::Passed(value);
    }
    let before = words.exchange(seat, slot, said);
    fill(words, seat, place, slot);
    let None = before else { unreachable!() };
    RingSent::Sent(place)
}

/// Receives the value of the first place, if it is there and no other comes first.
pub(crate) fn take_once<T>(words: &RingWords<T>, seat: &mut RingSeat<T>, slots: u32) -> RingGot<T>
    requires table { IsTable words.now.table_id words.now.key × (seat.old.table_id ≡ words.now.table_id) × (slots ≡ words.now.key) }
    requires seat { IsSeated words.now.key seat.old.me }
    requires hand { seat.old.me.1 ≡ [] }
    ensures same { (seat.new.table_id ≡ seat.old.table_id) × (seat.new.id ≡ seat.old.id) × (seat.new.me.1 ≡ []) }
    ensures seat { IsSeated words.now.key seat.new.me }
    ensures answer { GotAnswer slots (own_tag seat.old.me.0) seat.old.me.0 seat.new.me.0 result }
{
    let place = load_word(words, seat, HEAD);
    let slot = (place % slots as u64) as usize;
    let stamp = load_word(words, seat, SLOTS + slot);
    if stamp <= 2 * place {
        let tail = load_word(words, seat, TAIL);
        if tail % 2 == 1 && tail / 2 == place {
            return RingGot::Closed;
        }
        return RingGot::Nothing;
    }
    if take(words, seat, place) != place {
        return RingGot::Passed;
    }
    let value = words.exchange(seat, slot, None);
    free_slot(words, seat, slots, place, slot);
    match value {
        Some(value) => RingGot::Value(place, value),
        None => unreachable!(),
    }
}
