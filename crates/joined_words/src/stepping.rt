//! The four steps on a word of a part.
ghost use Rattle.std.specs.Prelude.{◌≡◌, ℕ, ◌+◌, ◌^◌, ◌<◌};
ghost use mathlib.Core.Option.{some};
ghost use Rattle.worded.specs.Views.{IsSeatOf, SameSeat};
ghost use Rattle.worded.specs.Exchanges.{Loaded, Entered, Exchanged, MayEnter, MayDraw, MayLift};
ghost use Rattle.joined_words.specs.Parts.{view_in, IsEntryAnd};

use crate::part::HistoryPart;
use worded::{DrawRule, HistoryRule, HistorySeat, SharedHistory, draw, exchange, lift, load};

/// Loads a word of the part, and sees the whole history of both parts. `first` is the part's first word in the table.
pub fn load_in<
    E,
    K,
    M: HistoryRule<E, K>,
    F,
    L,
    N: HistoryRule<F, L>,
    P: HistoryPart<E, K, M, F, L, N>,
>(table: &SharedHistory<E, K, M>, seat: &mut HistorySeat<E, K>, first: usize, word: usize) -> u64
    requires seat { IsSeatOf table.now.table_id table.now.key seat.old }
    requires table { (table.now.table_id.words ≡ M.size table.now.key) × (M.size table.now.key < 2 ^ 64) }
    requires word { (first ≡ P.part.first table.now.key) × (word < N.size (P.part.key_of table.now.key)) }
    ensures same { SameSeat seat.old seat.new }
    ensures whole { Loaded (M.legal table.now.key) (M.fits table.now.key) M.who (first + word) result seat.old.me.0 seat.new.me.0 }
    ensures loaded { Loaded (N.legal (P.part.key_of table.now.key)) (N.fits (P.part.key_of table.now.key)) N.who word result
        (view_in P.part seat.old.me.0) (view_in P.part seat.new.me.0) }
{
    let at = first + word;
    load::<E, K, M>(table, seat, at)
}

/// Makes the entry, which is one of the part, by turning the word from `old` into `new`; or finds another word, and sees the whole history
/// of both parts.
pub fn exchange_in<
    E,
    K,
    M: HistoryRule<E, K>,
    F,
    L,
    N: HistoryRule<F, L>,
    P: HistoryPart<E, K, M, F, L, N>,
>(
    table: &SharedHistory<E, K, M>,
    seat: &mut HistorySeat<E, K>,
    first: usize,
    word: usize,
    old: u64,
    new: u64,
    entry: &E,
) -> u64
    requires seat { IsSeatOf table.now.table_id table.now.key seat.old }
    requires table { (table.now.table_id.words ≡ M.size table.now.key) × (M.size table.now.key < 2 ^ 64) }
    requires word { (first ≡ P.part.first table.now.key) × (word < N.size (P.part.key_of table.now.key)) }
    requires may { IsEntryAnd (P.part.read entry.now)
        (MayEnter (N.legal (P.part.key_of table.now.key)) (N.fits (P.part.key_of table.now.key)) N.who
        (view_in P.part seat.old.me.0) word old new) }
    ensures same { SameSeat seat.old seat.new }
    ensures whole { Exchanged (M.legal table.now.key) (M.fits table.now.key) M.who (first + word) old result (some entry.now)
        seat.old.me.0 seat.new.me.0 }
    ensures told { Exchanged (N.legal (P.part.key_of table.now.key)) (N.fits (P.part.key_of table.now.key)) N.who word old result
        (P.part.read entry.now) (view_in P.part seat.old.me.0) (view_in P.part seat.new.me.0) }
{
    let at = first + word;
    exchange::<E, K, M>(table, seat, at, old, new, entry)
}

/// Draws a number: makes the entry of the part that it gives by adding one to the word, whatever the word is. `D` says it of the table, and
/// `G` of the part.
pub fn draw_in<
    E,
    K,
    M: HistoryRule<E, K>,
    F,
    L,
    N: HistoryRule<F, L>,
    P: HistoryPart<E, K, M, F, L, N>,
    D: DrawRule<E, K>,
    G: DrawRule<F, L>,
>(table: &SharedHistory<E, K, M>, seat: &mut HistorySeat<E, K>, first: usize, word: usize) -> u64
    requires seat { IsSeatOf table.now.table_id table.now.key seat.old }
    requires table { (table.now.table_id.words ≡ M.size table.now.key) × (M.size table.now.key < 2 ^ 64) }
    requires word { (first ≡ P.part.first table.now.key) × (word < N.size (P.part.key_of table.now.key)) }
    requires one { (n : ℕ) → P.part.read (D.entry table.now.key seat.old.me.0.tags n)
        ≡ some (G.entry (P.part.key_of table.now.key) (view_in P.part seat.old.me.0).tags n) }
    requires may { MayDraw (N.legal (P.part.key_of table.now.key)) (N.fits (P.part.key_of table.now.key)) N.who
        (view_in P.part seat.old.me.0) word (G.entry (P.part.key_of table.now.key) (view_in P.part seat.old.me.0).tags) }
    ensures same { SameSeat seat.old seat.new }
    ensures whole { Entered (M.legal table.now.key) (M.fits table.now.key) M.who (first + word) result
        (D.entry table.now.key seat.old.me.0.tags result) seat.old.me.0 seat.new.me.0 }
    ensures entered { Entered (N.legal (P.part.key_of table.now.key)) (N.fits (P.part.key_of table.now.key)) N.who word result
        (G.entry (P.part.key_of table.now.key) (view_in P.part seat.old.me.0).tags result)
        (view_in P.part seat.old.me.0) (view_in P.part seat.new.me.0) }
{
    let at = first + word;
    draw::<E, K, M, D>(table, seat, at)
}

/// Raises a hint of the part to at least `least`, and sees nothing.
pub fn lift_in<
    E,
    K,
    M: HistoryRule<E, K>,
    F,
    L,
    N: HistoryRule<F, L>,
    P: HistoryPart<E, K, M, F, L, N>,
>(
    table: &SharedHistory<E, K, M>,
    seat: &mut HistorySeat<E, K>,
    first: usize,
    word: usize,
    least: u64,
)
    requires seat { IsSeatOf table.now.table_id table.now.key seat.old }
    requires table { (table.now.table_id.words ≡ M.size table.now.key) × (M.size table.now.key < 2 ^ 64) }
    requires word { (first ≡ P.part.first table.now.key) × (word < N.size (P.part.key_of table.now.key)) }
    requires may { MayLift (N.legal (P.part.key_of table.now.key)) (N.fits (P.part.key_of table.now.key)) N.who
        (view_in P.part seat.old.me.0) word least }
    ensures same { SameSeat seat.old seat.new }
    ensures view { seat.new.me.0 ≡ seat.old.me.0 }
{
    let at = first + word;
    lift::<E, K, M>(table, seat, at, least)
}
