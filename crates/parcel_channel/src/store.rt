//! A value is moved in, and moved out.
ghost use Rattle.std.specs.Prelude.{◌≡◌, ◌<◌, [], IfSome};
ghost use Rattle.parcel_channel.specs.Seen.{own_tag};
ghost use Rattle.parcel_channel.specs.Answers.{IsTable, IsSeated, IsOnly, PutAnswer, TakeAnswer};

use crate::rule::{ParcelSeat, ParcelWords};
use crate::steps::{draw_number, load_count, move_in, move_out, put_back};

/// Draws a number and moves the value in with it; or gives it back, where no number is left.
pub(crate) fn put<T>(
    words: &ParcelWords<T>,
    seat: &mut ParcelSeat<T>,
    parcels: u32,
    value: T,
) -> Result<u32, T>
    requires table { IsTable words.now.table_id words.now.key × (seat.old.table_id ≡ words.now.table_id) × (parcels ≡ words.now.key) }
    requires seat { IsSeated words.now.key seat.old.me }
    requires hand { seat.old.me.1 ≡ [] }
    ensures same { (seat.new.table_id ≡ seat.old.table_id) × (seat.new.id ≡ seat.old.id) × (seat.new.me.1 ≡ []) }
    ensures seat { IsSeated words.now.key seat.new.me }
    ensures answer { PutAnswer parcels (own_tag seat.old.me.0) value seat.old.me.0 seat.new.me.0 result }
{
    if load_count(words, seat) >= parcels as u64 {
        return Err(value);
    }
    let drawn = draw_number(words, seat);
    if drawn >= parcels as u64 {
        return Err(value);
    }
    let number = drawn as u32;
    let before = words.exchange(seat, number as usize, Some(value));
    move_in(words, seat, number);
    let None = before else { unreachable!() };
    Ok(number)
}

/// Moves the value of this number out, where it lies in its slot.
pub(crate) fn take<T>(words: &ParcelWords<T>, seat: &mut ParcelSeat<T>, number: u32) -> Option<T>
    requires table { IsTable words.now.table_id words.now.key × (seat.old.table_id ≡ words.now.table_id) }
    requires seat { IsSeated words.now.key seat.old.me }
    requires number { number < words.now.key }
    requires hand { seat.old.me.1 ≡ [] }
    ensures same { (seat.new.table_id ≡ seat.old.table_id) × (seat.new.id ≡ seat.old.id) × (seat.new.me.1 ≡ []) }
    ensures seat { IsSeated words.now.key seat.new.me }
    ensures answer { TakeAnswer (own_tag seat.old.me.0) number seat.old.me.0 seat.new.me.0 result }
    ensures only { IfSome result (λ value. IsOnly number value seat.old.me.0.seen) }
{
    if move_out(words, seat, number) != 1 {
        return None;
    }
    let value = words.exchange(seat, number as usize, None);
    put_back(words, seat, number);
    value
}
