//! Two counters on one table: each counts the entries of its own history.
ghost use Rattle.std.specs.Prelude.{◌≡◌, ◌≤◌, true, [], length};
ghost use Rattle.worded.specs.Views.{IsSeatOf, has_tag};
ghost use Rattle.joined_words.specs.Parts.{IsEntryAnd, entries_in, tags_in};
ghost use Rattle.joined_words.specs.Joints.{first_of};

use either::Either;
use joined_words::{
    FirstPart, HistoryPart, JointHistory, JointSeat, QUIET_WORDS, SecondPart, SharedJoint,
    exchange_in, hear, load_in, new_joint, split_in,
};
use std::alloc::Global;
use std::test::Fail;
use worded::HistoryRule;

// The word is the number of entries, and each entry is the tag of who made it.
struct Counts;

impl HistoryRule<u64, u8> for Counts {
    ghost use Rattle.std.specs.Prelude.{◌≡◌, length};

    ghost legal = { λ key log. Unit {0} };

    ghost fits = { λ key log i n. i ≡ 0 → n ≡ length log };

    ghost who = { λ e. e };

    ghost size = { λ key. 1 };

    ghost blank = { 0 };
}

type Two = JointHistory<Counts, Counts>;

type TwoCounters = SharedJoint<u64, u8, Counts, u64, u8, Counts>;

type TwoSeat = JointSeat<u64, u8, u64, u8>;

// Makes an entry of the part, if its counter is `n`.
fn count<P: HistoryPart<Either<u64, u64>, (u8, u8), Two, u64, u8, Counts>>(
    table: &TwoCounters,
    seat: &mut TwoSeat,
    first: usize,
    n: u8,
    entry: &Either<u64, u64>,
)
    requires seat { IsSeatOf table.now.table_id table.now.key seat.old }
    requires words { table.now.table_id.words ≡ 10 }
    requires first { first ≡ P.part.first table.now.key }
    requires own { IsEntryAnd (P.part.read entry.now) (λ e. has_tag e (tags_in P.part.place seat.old.me.0.tags) ≡ true) }
    ensures seat { IsSeatOf table.now.table_id table.now.key seat.new }
    ensures idle { seat.new.me.0.heard_tags ≡ [] }
{
    exchange_in::<Either<u64, u64>, (u8, u8), Two, u64, u8, Counts, P>(
        table,
        seat,
        first,
        0,
        n as u64,
        n as u64 + 1,
        entry,
    );
}

// What the second's seat finds in the counter of the first, after it heard a seat of the first.
fn hear_and_find(table: &TwoCounters, seat: &mut TwoSeat, other: &mut TwoSeat) -> u64
    requires seat { IsSeatOf table.now.table_id table.now.key seat.old }
    requires idle { seat.old.me.0.heard_tags ≡ [] }
    requires other { other.old.table_id ≡ table.now.table_id }
    requires words { table.now.table_id.words ≡ 10 }
    ensures { length (entries_in first_of other.old.me.0.seen) ≤ result }
{
    hear::<
        Either<u64, u64>,
        (u8, u8),
        Two,
        u64,
        u8,
        Counts,
        SecondPart,
        u64,
        u8,
        Counts,
        FirstPart,
    >(table, seat, other);
    load_in::<Either<u64, u64>, (u8, u8), Two, u64, u8, Counts, FirstPart>(
        table,
        seat,
        QUIET_WORDS,
        0,
    )
}

#[test]
fn each_part_has_its_own_words(rt: HostRuntime) -> Result<(), Fail> {
    let (table, mut left) = new_joint::<u64, u8, Counts, u64, u8, Counts, Global>(
        rt.alloc(),
        &[0, 0, 0, 0, 0, 0, 0, 0, 0, 0],
        &(0, 0),
    )?;
    let shared = &table.shared;
    let mut right = split_in::<Either<u64, u64>, (u8, u8), Two, u64, u8, Counts, SecondPart>(
        shared, &mut left, 0,
    );
    count::<SecondPart>(shared, &mut right, 9, 0, &Either::Right(0));
    count::<FirstPart>(shared, &mut left, QUIET_WORDS, 0, &Either::Left(0));
    let found = hear_and_find(shared, &mut right, &mut left);
    assert!(rt; found == 1 && shared.peek(9) == 1 && shared.peek(0) == 0);
    Ok(())
}
