//! What a part of a table is.

ghost use Rattle.std.specs.Prelude.{◌≡◌};

use worded::HistoryRule;

/// A part of the tables with rule M, for those who step there alone: words of the table, and the entries that change them, with a rule N of
/// their own.
pub trait HistoryPart<E, K, M: HistoryRule<E, K>, F, L, N: HistoryRule<F, L>> {
    ghost use Rattle.joined_words.specs.Parts.{Part, IsPartOf};

    // What is of the part.
    ghost part: { Part E K F L };

    /// Which of every two tags it has: 0 or 1.
    fn place() -> u64
        ensures { result ≡ part.place };

    // Its entries leave all other words as they are.
    ghost is_part: { IsPartOf part M.legal M.fits M.who M.size N.legal N.fits N.who N.size };
}
