//! What holds of a part between any two steps, and of the order of what was seen.
ghost use Rattle.std.specs.Prelude.{List};
ghost use mathlib.Core.List.{IsPrefix};
ghost use Rattle.atomic_table.specs.Table.{State};
ghost use Rattle.worded.specs.Histories.{HasOneHistory};
ghost use Rattle.worded.specs.declared.view.View.{View as AView};
ghost use Rattle.either.specs.declared.Either.{Either as AnEither};
ghost use Rattle.joined_words.specs.Tables.{state_in};
ghost use Rattle.joined_words.specs.Orders.{HasOrder, IsPointOf};

use crate::part::HistoryPart;
use worded::HistoryRule;

/// A part has one legal history, which its words fit, and of which each seat has seen a beginning, as if it were a table of its own.
pub fn a_part_has_one_history<
    E,
    K,
    M: HistoryRule<E, K>,
    F,
    L,
    N: HistoryRule<F, L>,
    P: HistoryPart<E, K, M, F, L, N>,
>()
    ensures { (key : K) (s : State E (AView E K)) → HasOneHistory (M.legal key) (M.fits key) M.who (M.size key) s
        → HasOneHistory (N.legal (P.part.key_of key)) (N.fits (P.part.key_of key)) N.who (N.size (P.part.key_of key))
        (state_in P.part key (N.size (P.part.key_of key)) s) }
{}

/// The entries of both histories have one order, and whatever a seat has seen of the two is a point of it.
pub fn what_was_seen_is_a_point_of_one_order<E, F>()
    ensures order { (log : List (AnEither E F)) → HasOrder log }
    ensures point { (seen log : List (AnEither E F)) → IsPrefix seen log → IsPointOf seen log }
{}
