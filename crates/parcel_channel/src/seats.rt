//! Seats at the table of parcels are split, met and joined.
ghost use Rattle.std.specs.Prelude.{◌≡◌, ℕ, true, false, []};
ghost use Rattle.worded.specs.Views.{has_tag, with_next, next_given, new_view, told_by, untagged};
ghost use Rattle.worded.specs.Histories.{entries_of};
ghost use Rattle.worded.specs.Exchanges.{Loaded};
ghost use Rattle.parcel_channel.specs.Parcels.{Legal, maker};
ghost use Rattle.parcel_channel.specs.Tables.{Fits};
ghost use Rattle.parcel_channel.specs.Answers.{IsTable};

use crate::parcel::ParcelEntry;
use crate::rule::{ParcelSeat, ParcelWords};
use crate::steps::load_count;
use atomic_table::{Join, Play, Split};
use std::marker::PhantomData;
use worded::View;

// The tag to give out next is noted.
struct Naming<T> {
    marker: PhantomData<T>,
}

impl<T> Play<Option<T>, View<ParcelEntry<T>, u32>> for Naming<T> {
    ghost then = { λ s m n r. (r.0 ≡ with_next m.0 s.first) × (r.1 ≡ m.1)
        × (m.0.chief ≡ true → has_tag s.first m.0.given ≡ false → entries_of maker s.first m.0.seen ≡ []) };
}

// That tag is given to a new seat.
struct Giving<T> {
    marker: PhantomData<T>,
}

impl<T> Split<View<ParcelEntry<T>, u32>> for Giving<T> {
    ghost left = { λ v. next_given v };

    ghost right = { λ v. new_view v };
}

/// A new seat, with a tag that was not given out before. It has seen what the first seat has seen, and has made no entry.
pub(crate) fn split_off<T>(
    words: &ParcelWords<T>,
    seat: &mut ParcelSeat<T>,
    tag: u64,
) -> ParcelSeat<T>
    requires table { IsTable words.now.table_id words.now.key × (seat.old.table_id ≡ words.now.table_id) }
    requires new { (seat.old.me.0.chief ≡ true) × (has_tag tag seat.old.me.0.given ≡ false) }
    ensures same { (seat.new.table_id ≡ seat.old.table_id) × (seat.new.id ≡ seat.old.id) × (seat.new.me.1 ≡ seat.old.me.1) }
    ensures first { seat.new.me.0 ≡ next_given (with_next seat.old.me.0 tag) }
    ensures new { (result.table_id ≡ seat.old.table_id) × (result.me ≡ (new_view (with_next seat.old.me.0 tag), [])) }
    ensures none { entries_of maker tag seat.old.me.0.seen ≡ [] }
{
    words.compare_exchange::<Naming<T>>(seat, 0, tag, tag);
    words.split_seat::<Giving<T>>(seat)
}

// What the other has seen, and its tags, are heard.
struct Hearing<T> {
    marker: PhantomData<T>,
}

impl<T> Join<View<ParcelEntry<T>, u32>> for Hearing<T> {
    ghost use Rattle.std.specs.Prelude.{[]};
    ghost use Rattle.worded.specs.Views.{told_by, untagged};

    ghost both = { λ v w. told_by v w };

    ghost spent = { untagged 0 [] };
}

/// `main` has afterwards seen all that `seat` had seen, and has its tags.
pub(crate) fn join_to<T>(words: &ParcelWords<T>, main: &mut ParcelSeat<T>, seat: ParcelSeat<T>)
    requires table { IsTable words.now.table_id words.now.key × (main.old.table_id ≡ words.now.table_id)
        × (seat.table_id ≡ words.now.table_id) }
    requires main { (main.old.me.0.key ≡ words.now.key) × (main.old.me.0.heard_tags ≡ []) }
    requires idle { seat.me.0.heard_tags ≡ [] }
    requires hand { seat.me.1 ≡ [] }
    ensures same { (main.new.table_id ≡ main.old.table_id) × (main.new.id ≡ main.old.id) × (main.new.me.1 ≡ main.old.me.1) }
    ensures joined { (n : ℕ) × Loaded (Legal words.now.key) Fits maker 0 n (told_by main.old.me.0 seat.me.0) main.new.me.0 }
{
    words.join_seat::<Hearing<T>>(main, seat);
    load_count(words, main);
}

// A seat of no tag that has seen the same.
struct Telling<T> {
    marker: PhantomData<T>,
}

impl<T> Split<View<ParcelEntry<T>, u32>> for Telling<T> {
    ghost left = { λ v. v };

    ghost right = { λ v. untagged v.key v.seen };
}

/// Afterwards `seat` has seen all that `other` had seen.
pub(crate) fn meet_with<T>(
    words: &ParcelWords<T>,
    seat: &mut ParcelSeat<T>,
    other: &mut ParcelSeat<T>,
)
    requires table { IsTable words.now.table_id words.now.key × (seat.old.table_id ≡ words.now.table_id)
        × (other.old.table_id ≡ words.now.table_id) }
    requires seat { (seat.old.me.0.key ≡ words.now.key) × (seat.old.me.0.heard_tags ≡ []) }
    ensures same { (seat.new.table_id ≡ seat.old.table_id) × (seat.new.id ≡ seat.old.id) × (seat.new.me.1 ≡ seat.old.me.1) }
    ensures other { (other.new.table_id ≡ other.old.table_id) × (other.new.id ≡ other.old.id) × (other.new.me ≡ other.old.me) }
    ensures met { (n : ℕ) × Loaded (Legal words.now.key) Fits maker 0 n
        (told_by seat.old.me.0 (untagged other.old.me.0.key other.old.me.0.seen)) seat.new.me.0 }
{
    let told = words.split_seat::<Telling<T>>(other);
    join_to(words, seat, told);
}
