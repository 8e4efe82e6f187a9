//! Who waits next, and who is called.
ghost use Rattle.std.specs.Prelude.{◌≡◌, ◌<◌, IfSome};
ghost use Rattle.std.specs.Int.{bit_at};
ghost use Rattle.ring_channel.specs.declared.act.RingSide.TheVariants.{Receive, Send};
ghost use Rattle.ring_channel.specs.Seen.{IsTable, IsSeated, own_tag};
ghost use Rattle.ring_channel.specs.Looks.{Looked, LooksOn, Named, Waited, MayName};

use crate::act::RingSide;
use crate::answers::Called;
use crate::rule::{RingSeat, RingWords};
use crate::steps::{HEAD, load_word};
use crate::waits::{
    call, call_all, leave, look_first, look_next, look_open_to_receive, look_open_to_send,
    look_who, stand,
};
use co_base::Tag;

/// A tag whose bit is set: the first from `from` on, and else the first.
fn next_of(mask: u64, from: u32) -> Option<u32>
    requires from { from < 64 }
    ensures waits { IfSome result (λ t. (t < 64) × (bit_at mask t ≡ 1)) }
{
    let late = mask >> from;
    let tag = if late == 0 {
        mask.trailing_zeros()
    } else {
        from + late.trailing_zeros()
    };
    if tag < 64 && (mask >> tag) & 1 == 1 {
        return Some(tag);
    }
    None
}

/// Whether the ring was seen to be open and then bare.
pub(crate) fn sees_bare<T>(words: &RingWords<T>, seat: &mut RingSeat<T>, slots: u32) -> bool
    requires table { IsTable words.now.table_id words.now.key × (seat.old.table_id ≡ words.now.table_id) × (slots ≡ words.now.key) }
    requires seat { IsSeated words.now.key seat.old.me }
    ensures same { (seat.new.table_id ≡ seat.old.table_id) × (seat.new.id ≡ seat.old.id) }
    ensures seat { IsSeated words.now.key seat.new.me }
    ensures looked { Looked words.now.key Receive seat.old.me seat.new.me result }
{
    let tail = look_open_to_receive(words, seat);
    if tail % 2 == 1 {
        return false;
    }
    let place = load_word(words, seat, HEAD);
    let stamp = look_first(words, seat, slots, place);
    stamp <= 2 * place
}

/// Whether the ring was seen to be open and then full.
pub(crate) fn sees_full<T>(words: &RingWords<T>, seat: &mut RingSeat<T>, slots: u32) -> bool
    requires table { IsTable words.now.table_id words.now.key × (seat.old.table_id ≡ words.now.table_id) × (slots ≡ words.now.key) }
    requires seat { IsSeated words.now.key seat.old.me }
    ensures same { (seat.new.table_id ≡ seat.old.table_id) × (seat.new.id ≡ seat.old.id) }
    ensures seat { IsSeated words.now.key seat.new.me }
    ensures looked { Looked words.now.key Send seat.old.me seat.new.me result }
{
    let tail = look_open_to_send(words, seat);
    if tail % 2 == 1 {
        return false;
    }
    let place = tail / 2;
    let stamp = look_next(words, seat, slots, place);
    stamp < 2 * place
}

/// Whether there was seen to be nothing for one who waits on a side.
fn sees_nothing<T>(words: &RingWords<T>, seat: &mut RingSeat<T>, slots: u32, side: RingSide) -> bool
    requires table { IsTable words.now.table_id words.now.key × (seat.old.table_id ≡ words.now.table_id) × (slots ≡ words.now.key) }
    requires seat { IsSeated words.now.key seat.old.me }
    ensures same { (seat.new.table_id ≡ seat.old.table_id) × (seat.new.id ≡ seat.old.id) }
    ensures seat { IsSeated words.now.key seat.new.me }
    ensures looked { Looked words.now.key side seat.old.me seat.new.me result }
{
    match side {
        RingSide::Receive => sees_bare(words, seat, slots),
        RingSide::Send => sees_full(words, seat, slots),
    }
}

/// Calls the pass of this tag, which waits; or loses the exchange.
fn call_this<T>(
    words: &RingWords<T>,
    seat: &mut RingSeat<T>,
    side: RingSide,
    mask: u64,
    tag: u32,
) -> Option<Called>
    requires table { IsTable words.now.table_id words.now.key × (seat.old.table_id ≡ words.now.table_id) }
    requires seat { IsSeated words.now.key seat.old.me }
    requires waits { (tag < 64) × (bit_at mask tag ≡ 1) }
    ensures same { (seat.new.table_id ≡ seat.old.table_id) × (seat.new.id ≡ seat.old.id) }
    ensures seat { IsSeated words.now.key seat.new.me }
    ensures named { MayName words.now.key side seat.old.me seat.new.me result }
{
    let found = call(words, seat, side, mask, tag);
    if found == mask {
        return Some(Called::One(tag as Tag));
    }
    None
}

/// Calls one who waits, or sees that nobody waits; or loses the exchange.
fn try_call<T>(
    words: &RingWords<T>,
    seat: &mut RingSeat<T>,
    side: RingSide,
    from: u32,
) -> Option<Called>
    requires table { IsTable words.now.table_id words.now.key × (seat.old.table_id ≡ words.now.table_id) }
    requires seat { IsSeated words.now.key seat.old.me }
    requires from { from < 64 }
    ensures same { (seat.new.table_id ≡ seat.old.table_id) × (seat.new.id ≡ seat.old.id) }
    ensures seat { IsSeated words.now.key seat.new.me }
    ensures named { MayName words.now.key side seat.old.me seat.new.me result }
{
    let mask = look_who(words, seat, side);
    if mask == 0 {
        return Some(Called::Nobody);
    }
    match next_of(mask, from) {
        None => None,
        Some(tag) => call_this(words, seat, side, mask, tag),
    }
}

/// Calls one who waits; all, where the exchange was lost.
fn call_or_all<T>(words: &RingWords<T>, seat: &mut RingSeat<T>, side: RingSide, from: u32) -> Called
    requires table { IsTable words.now.table_id words.now.key × (seat.old.table_id ≡ words.now.table_id) }
    requires seat { IsSeated words.now.key seat.old.me }
    requires from { from < 64 }
    ensures same { (seat.new.table_id ≡ seat.old.table_id) × (seat.new.id ≡ seat.old.id) }
    ensures seat { IsSeated words.now.key seat.new.me }
    ensures named { Named words.now.key side seat.old.me seat.new.me result }
{
    match try_call(words, seat, side, from) {
        Some(called) => called,
        None => {
            let mask = call_all(words, seat, side);
            Called::All(mask)
        }
    }
}

/// Calls one who waits; all, where the exchange was lost twice.
fn call_one<T>(words: &RingWords<T>, seat: &mut RingSeat<T>, side: RingSide, from: u32) -> Called
    requires table { IsTable words.now.table_id words.now.key × (seat.old.table_id ≡ words.now.table_id) }
    requires seat { IsSeated words.now.key seat.old.me }
    requires from { from < 64 }
    ensures same { (seat.new.table_id ≡ seat.old.table_id) × (seat.new.id ≡ seat.old.id) }
    ensures seat { IsSeated words.now.key seat.new.me }
    ensures named { Named words.now.key side seat.old.me seat.new.me result }
{
    match try_call(words, seat, side, from) {
        Some(called) => called,
        None => call_or_all(words, seat, side, from),
    }
}

/// Waits no more, and calls one who waits, if there may be something for it.
pub(crate) fn call_on<T>(
    words: &RingWords<T>,
    seat: &mut RingSeat<T>,
    slots: u32,
    side: RingSide,
    tag: u32,
    from: u32,
) -> Called
    requires table { IsTable words.now.table_id words.now.key × (seat.old.table_id ≡ words.now.table_id) × (slots ≡ words.now.key) }
    requires seat { IsSeated words.now.key seat.old.me }
    requires tag { (tag ≡ own_tag seat.old.me.0) × (tag < 64) }
    requires from { from < 64 }
    ensures same { (seat.new.table_id ≡ seat.old.table_id) × (seat.new.id ≡ seat.old.id) }
    ensures seat { IsSeated words.now.key seat.new.me }
    ensures looked { LooksOn words.now.key side seat.old.me seat.new.me result }
{
    let mask = look_who(words, seat, side);
    if mask == 0 {
        return Called::Nobody;
    }
    leave(words, seat, side, tag);
    let nothing = sees_nothing(words, seat, slots, side);
    if nothing {
        return Called::Nobody;
    }
    call_one(words, seat, side, from)
}

/// Waits, if there is nothing for who waits.
pub(crate) fn stand_by<T>(
    words: &RingWords<T>,
    seat: &mut RingSeat<T>,
    slots: u32,
    side: RingSide,
    tag: u32,
) -> bool
    requires table { IsTable words.now.table_id words.now.key × (seat.old.table_id ≡ words.now.table_id) × (slots ≡ words.now.key) }
    requires seat { IsSeated words.now.key seat.old.me }
    requires tag { (tag ≡ own_tag seat.old.me.0) × (tag < 64) }
    ensures same { (seat.new.table_id ≡ seat.old.table_id) × (seat.new.id ≡ seat.old.id) }
    ensures seat { IsSeated words.now.key seat.new.me }
    ensures waited { Waited words.now.key side seat.old.me seat.new.me result }
{
    stand(words, seat, side, tag);
    let nothing = sees_nothing(words, seat, slots, side);
    if nothing {
        return true;
    }
    leave(words, seat, side, tag);
    false
}
