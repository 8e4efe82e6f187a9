//! The rule of two histories over one table, and its two parts.

ghost use Rattle.std.specs.Prelude.{◌≡◌, ℕ, ◌+◌, ◌<◌, [], length, slice_index, IfOk};
ghost use Rattle.worded.specs.Views.{first_view};
ghost use Rattle.joined_words.specs.Joints.{joint_size, quiet_words};

use crate::part::HistoryPart;
use either::Either;
use std::alloc::{AllocError, Allocator};
use std::marker::PhantomData;
use worded::{DrawRule, HistoryRule, HistorySeat, HistoryTable, SharedHistory, new_history};

/// How many words at the beginning of a table stay 0.
pub const QUIET_WORDS: usize = 8;

/// The history is a list of entries of either rule, M or N, and legal exactly if what is of each is legal. The words of M come behind the
/// `QUIET_WORDS`, then those of N. A tag t of M is the table's tag 2 t, one of N is 2 t + 1.
pub struct JointHistory<M, N> {
    marker: PhantomData<(M, N)>,
}

impl<E, K, M: HistoryRule<E, K>, F, L, N: HistoryRule<F, L>> HistoryRule<Either<E, F>, (K, L)>
    for JointHistory<M, N> {
    ghost use Rattle.joined_words.specs.Joints.{IsJointLegal, JointFits, joint_who, joint_size};

    ghost legal = { IsJointLegal M.legal N.legal };

    ghost fits = { JointFits M.fits M.size N.fits N.size };

    ghost who = { joint_who M.who N.who };

    ghost size = { joint_size M.size N.size };

    ghost blank = { (M.blank, N.blank) };
}

/// A table with two histories, with its memory.
pub type JointTable<E, K, M, F, L, N, A> = HistoryTable<
    Either<E, F>,
    (K, L),
    JointHistory<M, N>,
    A,
>;

/// The same table, as threads share it.
pub type SharedJoint<E, K, M, F, L, N> = SharedHistory<Either<E, F>, (K, L), JointHistory<M, N>>;

/// What a thread steps with, on either part.
pub type JointSeat<E, K, F, L> = HistorySeat<Either<E, F>, (K, L)>;

/// The words and the entries of M.
pub struct FirstPart;

impl<E, K, M: HistoryRule<E, K>, F, L, N: HistoryRule<F, L>> HistoryPart<
    Either<E, F>,
    (K, L),
    JointHistory<M, N>,
    E,
    K,
    M,
> for FirstPart {
    ghost use Rattle.joined_words.specs.Joints.{first_part};
    ghost use Rattle.joined_words.specs.JointParts.{is_first};

    ghost part = { first_part };

    fn place() -> u64 {
        0
    }

    ghost is_part = { is_first M.legal M.fits M.who M.size N.legal N.fits N.who N.size };
}

/// The words and the entries of N.
pub struct SecondPart;

impl<E, K, M: HistoryRule<E, K>, F, L, N: HistoryRule<F, L>> HistoryPart<
    Either<E, F>,
    (K, L),
    JointHistory<M, N>,
    F,
    L,
    N,
> for SecondPart {
    ghost use Rattle.joined_words.specs.Joints.{second_part};
    ghost use Rattle.joined_words.specs.JointParts.{is_second};

    ghost part = { second_part M.size };

    fn place() -> u64 {
        1
    }

    ghost is_part = { is_second M.legal M.fits M.who M.size N.legal N.fits N.who N.size };
}

/// What is drawn from a word of M, where D says it of M alone.
pub struct FirstDraws<D> {
    marker: PhantomData<D>,
}

impl<E, K, F, L, D: DrawRule<E, K>> DrawRule<Either<E, F>, (K, L)> for FirstDraws<D> {
    ghost use Rattle.either.specs.declared.Either.TheVariants.{Left};
    ghost use Rattle.joined_words.specs.Parts.{tags_in};

    ghost entry = { λ key tags n. Left (D.entry key.0 (tags_in 0 tags) n) };
}

/// The same of N.
pub struct SecondDraws<D> {
    marker: PhantomData<D>,
}

impl<E, K, F, L, D: DrawRule<F, L>> DrawRule<Either<E, F>, (K, L)> for SecondDraws<D> {
    ghost use Rattle.either.specs.declared.Either.TheVariants.{Right};
    ghost use Rattle.joined_words.specs.Parts.{tags_in};

    ghost entry = { λ key tags n. Right (D.entry key.1 (tags_in 1 tags) n) };
}

/// A table with two histories, both empty, and the first seat, which has tag 0 of M, and gives out the tags of both.
pub fn new_joint<E, K, M: HistoryRule<E, K>, F, L, N: HistoryRule<F, L>, A: Allocator>(
    alloc: A,
    words: &[u64],
    key: &(K, L),
) -> Result<(JointTable<E, K, M, F, L, N, A>, JointSeat<E, K, F, L>), AllocError>
    requires legal { M.legal key.now.0 [] × N.legal key.now.1 [] }
    requires size { length words.now ≡ joint_size M.size N.size key.now }
    requires quiet { (i : ℕ) → i < quiet_words → slice_index words.now i ≡ 0 }
    requires first { (i : ℕ) → i < M.size key.now.0 → M.fits key.now.0 [] i (slice_index words.now (quiet_words + i)) }
    requires second { (i : ℕ) → i < N.size key.now.1
        → N.fits key.now.1 [] i (slice_index words.now ((quiet_words + M.size key.now.0) + i)) }
    ensures table { IfOk result (λ t. (t.0.shared.table_id.words ≡ joint_size M.size N.size key.now) × (t.0.shared.key ≡ key.now)) }
    ensures seat { IfOk result (λ t. (t.1.table_id ≡ t.0.shared.table_id) × (t.1.me ≡ (first_view key.now, []))) }
{
    new_history::<Either<E, F>, (K, L), JointHistory<M, N>, A>(alloc, words, key)
}
