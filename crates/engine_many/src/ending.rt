//! The floors of all coroutines are ended into those of the root.

ghost use Rattle.std.specs.Prelude.{◌≡◌, ◌+◌, ◌≤◌, [], ◌∷◌, ◌++◌, All, length, map, vec_len, vec_capacity};
ghost use Rattle.script_grammar.specs.Tags.{coroutine_count};
ghost use Rattle.engine_many.specs.Parts.{sight_of};
ghost use Rattle.engine_many.specs.Endings.{AreBrought, IsBroughtInto, MayBothCall, StaysBrought};
ghost use Rattle.run_laws.specs.Ends.{NoOthers, IsSpare};
ghost use Rattle.run_laws.specs.Sights.{KnowsTags};
ghost use Rattle.run_laws.specs.LastRounds.{books_seen};

use crate::task::Task;
use channel_model::ChannelFloor;
use engine_base::ScriptName;
use job_model::JobFloor;
use poll_states::Book;
use shared_floors::SharedChannels;
use word_seats::SharedBeside;

/// What is left of all: the books in order of tags, and the floors of the root, which have seen all.
#[derive(Drop)]
pub struct Left<C, J, B> {
    pub books: Vec<B>,
    pub channels: C,
    pub jobs: J,
}

/// Ends the floors of the others into these, and puts their books behind those that are there.
fn end_others<N: ScriptName, C: SharedChannels + Drop, J: SharedBeside<C> + Drop, B: Book>(
    channels: &mut C,
    jobs: &mut J,
    books: &mut Vec<B>,
    others: Vec<Task<N, C, J, B>>,
)
    requires room { vec_len books.old + length others.items ≤ vec_capacity books.old }
    ensures anchor { C.anchor channels.new ≡ C.anchor channels.old }
    ensures books { map B.items books.new.items ≡ map B.items books.old.items ++ books_seen (sight_of C.view J.view) others.items }
    ensures still { StaysBrought N.program (C.view channels.old) (J.view jobs.old) (C.view channels.new) (J.view jobs.new) }
    ensures others { AreBrought N.program (C.view channels.old) (J.view jobs.old) (C.view channels.new) (J.view jobs.new)
        (sight_of C.view J.view) others.items }
{
    for other in others {
        let (frame, other_channels, other_jobs) = other.into_parts();
        channels.end(other_channels);
        jobs.end(other_jobs);
        books.push_reserved(frame.into_book());
    }
}

/// Ends the floors of the others into those of the root, and those that were kept aside, whose tag did nothing. The books go into the room.
pub(crate) fn end_floors<
    N: ScriptName,
    C: SharedChannels + Drop,
    J: SharedBeside<C> + Drop,
    B: Book,
>(
    room: Vec<B>,
    root: Task<N, C, J, B>,
    others: Vec<Task<N, C, J, B>>,
    aside: (C, J),
) -> Left<C, J, B>
    requires empty { room.items ≡ [] }
    requires room { 1 + length others.items ≤ vec_capacity room }
    requires root { root.0.tag ≡ 0 }
    requires aside { IsSpare N.program (C.view aside.0) (J.view aside.1) }
    ensures books { map B.items result.books.items ≡ books_seen (sight_of C.view J.view) (root ∷ others.items) }
    ensures root { IsBroughtInto C.view J.view N.program result root }
    ensures others { All (λ x. IsBroughtInto C.view J.view N.program result x) others.items }
    ensures aside { MayBothCall (C.view result.channels) (J.view result.jobs) (coroutine_count N.program) }
    ensures tags { KnowsTags N.program 0 (C.may_act (C.anchor result.channels)) (J.may_act_beside (C.anchor result.channels)) }
    ensures none { NoOthers N.program (C.view result.channels) (J.view result.jobs) }
{
    let mut books = room;
    let (frame, mut channels, mut jobs) = root.into_parts();
    books.push_reserved(frame.into_book());
    end_others::<N, C, J, B>(&mut channels, &mut jobs, &mut books, others);
    jobs.end(aside.1);
    jobs.learn(&mut channels);
    channels.end(aside.0);
    Left {
        books,
        channels,
        jobs,
    }
}
