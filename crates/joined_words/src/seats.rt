//! How seats of the parts are split, met and ended.
ghost use Rattle.std.specs.Prelude.{◌≡◌, ℕ, ◌^◌, ◌<◌, true, false, []};
ghost use mathlib.Core.List.{IsPrefix};
ghost use Rattle.worded.specs.Views.{IsSeatOf, SameSeat, has_tag, with_next, next_given, new_view};
ghost use Rattle.worded.specs.Histories.{entries_of};
ghost use Rattle.worded.specs.Exchanges.{Met, TookIn};
ghost use Rattle.joined_words.specs.Parts.{tag_in, entries_in, view_in};

use crate::part::HistoryPart;
use worded::{HistoryRule, HistorySeat, SharedHistory, end, meet, split};

/// A new seat of the part, with a tag that was not given out there before. It has seen what the first seat has seen, and has made no entry.
pub fn split_in<
    E,
    K,
    M: HistoryRule<E, K>,
    F,
    L,
    N: HistoryRule<F, L>,
    P: HistoryPart<E, K, M, F, L, N>,
>(table: &SharedHistory<E, K, M>, seat: &mut HistorySeat<E, K>, tag: u64) -> HistorySeat<E, K>
    requires seat { IsSeatOf table.now.table_id table.now.key seat.old }
    requires words { (table.now.table_id.words ≡ M.size table.now.key) × (0 < M.size table.now.key) }
    requires tag { tag < 2 ^ 63 }
    requires new { (seat.old.me.0.chief ≡ true) × (has_tag tag (view_in P.part seat.old.me.0).given ≡ false) }
    ensures same { SameSeat seat.old seat.new }
    ensures whole { (seat.new.me.0 ≡ next_given (with_next seat.old.me.0 (tag_in P.part.place tag)))
        × (result.me.0 ≡ new_view (with_next seat.old.me.0 (tag_in P.part.place tag))) }
    ensures first { view_in P.part seat.new.me.0 ≡ next_given (with_next (view_in P.part seat.old.me.0) tag) }
    ensures new { (result.table_id ≡ seat.old.table_id) × (result.me.1 ≡ [])
        × (view_in P.part result.me.0 ≡ new_view (with_next (view_in P.part seat.old.me.0) tag)) }
    ensures none { entries_of N.who tag (view_in P.part seat.old.me.0).seen ≡ [] }
{
    let place = P::place();
    let whole = 2 * tag + place;
    split::<E, K, M>(table, seat, whole)
}

/// Afterwards `seat`, of the part, has seen all that `other` had seen, of whichever part that is.
pub fn meet_in<
    E,
    K,
    M: HistoryRule<E, K>,
    F,
    L,
    N: HistoryRule<F, L>,
    P: HistoryPart<E, K, M, F, L, N>,
>(table: &SharedHistory<E, K, M>, seat: &mut HistorySeat<E, K>, other: &mut HistorySeat<E, K>)
    requires seats { IsSeatOf table.now.table_id table.now.key seat.old × (other.old.table_id ≡ table.now.table_id) }
    requires words { (table.now.table_id.words ≡ M.size table.now.key) × (0 < M.size table.now.key) }
    requires idle { seat.old.me.0.heard_tags ≡ [] }
    ensures same { SameSeat seat.old seat.new × SameSeat other.old other.new }
    ensures other { other.new.me.0 ≡ other.old.me.0 }
    ensures whole { Met (M.legal table.now.key) (M.fits table.now.key) M.who seat.old.me.0 other.old.me.0.seen seat.new.me.0 }
    ensures met { Met (N.legal (P.part.key_of table.now.key)) (N.fits (P.part.key_of table.now.key)) N.who
        (view_in P.part seat.old.me.0) (entries_in P.part.read other.old.me.0.seen) (view_in P.part seat.new.me.0) }
{
    meet::<E, K, M>(table, seat, other)
}

/// A seat of the part P hears one of the part Q: afterwards it has seen all that the other had seen, of either part.
pub fn hear<
    E,
    K,
    M: HistoryRule<E, K>,
    F,
    L,
    N: HistoryRule<F, L>,
    P: HistoryPart<E, K, M, F, L, N>,
    G,
    H,
    O: HistoryRule<G, H>,
    Q: HistoryPart<E, K, M, G, H, O>,
>(table: &SharedHistory<E, K, M>, seat: &mut HistorySeat<E, K>, other: &mut HistorySeat<E, K>)
    requires seats { IsSeatOf table.now.table_id table.now.key seat.old × (other.old.table_id ≡ table.now.table_id) }
    requires words { (table.now.table_id.words ≡ M.size table.now.key) × (0 < M.size table.now.key) }
    requires idle { seat.old.me.0.heard_tags ≡ [] }
    ensures same { SameSeat seat.old seat.new × SameSeat other.old other.new }
    ensures other { other.new.me.0 ≡ other.old.me.0 }
    ensures whole { Met (M.legal table.now.key) (M.fits table.now.key) M.who seat.old.me.0 other.old.me.0.seen seat.new.me.0 }
    ensures met { Met (N.legal (P.part.key_of table.now.key)) (N.fits (P.part.key_of table.now.key)) N.who
        (view_in P.part seat.old.me.0) (entries_in P.part.read other.old.me.0.seen) (view_in P.part seat.new.me.0) }
    ensures heard { IsPrefix (view_in Q.part other.old.me.0).seen (entries_in Q.part.read seat.new.me.0.seen) }
    ensures all { IsPrefix seat.old.me.0.seen seat.new.me.0.seen × IsPrefix other.old.me.0.seen seat.new.me.0.seen }
{
    meet_in::<E, K, M, F, L, N, P>(table, seat, other)
}

/// `main` has afterwards seen all that `seat` had seen, and has its tags.
pub fn end_in<
    E,
    K,
    M: HistoryRule<E, K>,
    F,
    L,
    N: HistoryRule<F, L>,
    P: HistoryPart<E, K, M, F, L, N>,
>(table: &SharedHistory<E, K, M>, main: &mut HistorySeat<E, K>, seat: HistorySeat<E, K>)
    requires seats { IsSeatOf table.now.table_id table.now.key main.old × (seat.table_id ≡ table.now.table_id) × (seat.me.1 ≡ []) }
    requires words { (table.now.table_id.words ≡ M.size table.now.key) × (0 < M.size table.now.key) }
    requires idle { (main.old.me.0.heard_tags ≡ []) × (seat.me.0.heard_tags ≡ []) }
    ensures same { SameSeat main.old main.new }
    ensures whole { TookIn (M.legal table.now.key) (M.fits table.now.key) M.who main.old.me.0 seat.me.0 main.new.me.0 }
    ensures took { TookIn (N.legal (P.part.key_of table.now.key)) (N.fits (P.part.key_of table.now.key)) N.who
        (view_in P.part main.old.me.0) (view_in P.part seat.me.0) (view_in P.part main.new.me.0) }
{
    end::<E, K, M>(table, main, seat)
}
