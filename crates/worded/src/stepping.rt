//! The four steps on a word.
ghost use Rattle.std.specs.Prelude.{◌≡◌, ◌<◌};
ghost use mathlib.Core.Option.{some};
ghost use Rattle.worded.specs.Views.{IsSeatOf, SameSeat};
ghost use Rattle.worded.specs.Exchanges.{Loaded, Entered, Exchanged, MayEnter, MayDraw, MayLift};

use crate::rule::{DrawRule, HistoryRule, HistorySeat, SharedHistory};
use crate::view::View;
use atomic_table::Play;
use std::marker::PhantomData;

// The caller sees the whole history.
struct Loads<M> {
    marker: PhantomData<M>,
}

impl<E, K, M: HistoryRule<E, K>> Play<E, View<E, K>> for Loads<M> {
    ghost then = { λ s m n r. Loaded (M.legal m.0.key) (M.fits m.0.key) M.who s.word n m.0 r.0 × (r.1 ≡ m.1) };
}

/// Loads a word, and sees the whole history.
pub fn load<E, K, M: HistoryRule<E, K>>(
    table: &SharedHistory<E, K, M>,
    seat: &mut HistorySeat<E, K>,
    word: usize,
) -> u64
    requires seat { IsSeatOf table.now.table_id table.now.key seat.old }
    requires word { (table.now.table_id.words ≡ M.size table.now.key) × (word < M.size table.now.key) }
    ensures same { SameSeat seat.old seat.new }
    ensures loaded { Loaded (M.legal table.now.key) (M.fits table.now.key) M.who word result seat.old.me.0 seat.new.me.0 }
{
    table.load::<Loads<M>>(seat, word)
}

// The caller made its entry, or sees the whole history.
struct Exchanges<M> {
    marker: PhantomData<M>,
}

impl<E, K, M: HistoryRule<E, K>> Play<E, View<E, K>> for Exchanges<M> {
    ghost then = { λ s m n r. Exchanged (M.legal m.0.key) (M.fits m.0.key) M.who s.word s.first n s.said m.0 r.0 × (r.1 ≡ m.1) };
}

/// Makes the entry by turning the word from `old` into `new`; or finds another word, and sees the whole history.
pub fn exchange<E, K, M: HistoryRule<E, K>>(
    table: &SharedHistory<E, K, M>,
    seat: &mut HistorySeat<E, K>,
    word: usize,
    old: u64,
    new: u64,
    entry: &E,
) -> u64
    requires seat { IsSeatOf table.now.table_id table.now.key seat.old }
    requires word { (table.now.table_id.words ≡ M.size table.now.key) × (word < M.size table.now.key) }
    requires may { MayEnter (M.legal table.now.key) (M.fits table.now.key) M.who seat.old.me.0 word old new entry.now }
    ensures same { SameSeat seat.old seat.new }
    ensures told { Exchanged (M.legal table.now.key) (M.fits table.now.key) M.who word old result (some entry.now)
        seat.old.me.0 seat.new.me.0 }
{
    table.compare_exchange_with::<Exchanges<M>>(seat, word, old, new, entry)
}

// The caller made the entry that the number found gives.
struct Draws<M, D> {
    marker: PhantomData<(M, D)>,
}

impl<E, K, M: HistoryRule<E, K>, D: DrawRule<E, K>> Play<E, View<E, K>> for Draws<M, D> {
    ghost then = { λ s m n r.
        Entered (M.legal m.0.key) (M.fits m.0.key) M.who s.word n (D.entry m.0.key m.0.tags n) m.0 r.0 × (r.1 ≡ m.1) };
}

/// Draws a number: makes the entry that it gives by adding one to the word, whatever the word is.
pub fn draw<E, K, M: HistoryRule<E, K>, D: DrawRule<E, K>>(
    table: &SharedHistory<E, K, M>,
    seat: &mut HistorySeat<E, K>,
    word: usize,
) -> u64
    requires seat { IsSeatOf table.now.table_id table.now.key seat.old }
    requires word { (table.now.table_id.words ≡ M.size table.now.key) × (word < M.size table.now.key) }
    requires may { MayDraw (M.legal table.now.key) (M.fits table.now.key) M.who seat.old.me.0 word
        (D.entry table.now.key seat.old.me.0.tags) }
    ensures same { SameSeat seat.old seat.new }
    ensures entered { Entered (M.legal table.now.key) (M.fits table.now.key) M.who word result
        (D.entry table.now.key seat.old.me.0.tags result) seat.old.me.0 seat.new.me.0 }
{
    table.fetch_add::<Draws<M, D>>(seat, word, 1)
}

// The caller sees nothing.
struct Lifts;

impl<E, K> Play<E, View<E, K>> for Lifts {
    ghost then = { λ s m n r. (r.0 ≡ m.0) × (r.1 ≡ m.1) };
}

/// Raises a hint to at least `least`, and sees nothing.
pub fn lift<E, K, M: HistoryRule<E, K>>(
    table: &SharedHistory<E, K, M>,
    seat: &mut HistorySeat<E, K>,
    word: usize,
    least: u64,
)
    requires seat { IsSeatOf table.now.table_id table.now.key seat.old }
    requires word { (table.now.table_id.words ≡ M.size table.now.key) × (word < M.size table.now.key) }
    requires may { MayLift (M.legal table.now.key) (M.fits table.now.key) M.who seat.old.me.0 word least }
    ensures same { SameSeat seat.old seat.new }
    ensures view { seat.new.me.0 ≡ seat.old.me.0 }
{
    table.fetch_max::<Lifts>(seat, word, least);
}
