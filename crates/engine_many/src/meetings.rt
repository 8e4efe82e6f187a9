//! All coroutines hear of all that each of them has seen.

ghost use Rattle.std.specs.Prelude.{◌≡◌, ◌<◌, length};
ghost use Rattle.engine_many.specs.Parts.{sight_of, tags_of};
ghost use Rattle.engine_many.specs.Meetings.{AllWithin, AllKnown, StayKnown, StayRested, StayAtRest};
ghost use Rattle.run_laws.specs.Sights.{SawMore, IsSeenSame};
ghost use Rattle.run_laws.specs.LastRounds.{AllMet};

use crate::task::Task;
use engine_base::ScriptName;
use poll_states::Book;
use shared_floors::SharedChannels;
use word_seats::SharedBeside;

/// The root hears of all that each of the others has seen.
fn hear_all<N: ScriptName, C: SharedChannels + Drop, J: SharedBeside<C> + Drop, B: Book>(
    root: &mut Task<N, C, J, B>,
    others: &mut [Task<N, C, J, B>],
)
    ensures root { SawMore (sight_of C.view J.view root.old) (sight_of C.view J.view root.new) }
    ensures tags { tags_of others.new ≡ tags_of others.old }
    ensures heard { AllKnown (sight_of C.view J.view) (sight_of C.view J.view root.new) others.new }
    ensures known { StayKnown (sight_of C.view J.view) others.old others.new }
    ensures rested { StayRested (sight_of C.view J.view) others.old others.new }
{
    for other in others.iter_mut() {
        root.hear(other);
    }
}

/// Each of the others hears of all that the root has seen.
fn tell_all<N: ScriptName, C: SharedChannels + Drop, J: SharedBeside<C> + Drop, B: Book>(
    root: &mut Task<N, C, J, B>,
    others: &mut [Task<N, C, J, B>],
)
    ensures root { IsSeenSame (sight_of C.view J.view root.old) (sight_of C.view J.view root.new) }
    ensures tags { tags_of others.new ≡ tags_of others.old }
    ensures told { AllWithin (sight_of C.view J.view) (sight_of C.view J.view root.old) others.new }
    ensures known { StayKnown (sight_of C.view J.view) others.old others.new }
    ensures rested { StayRested (sight_of C.view J.view) others.old others.new }
{
    for other in others.iter_mut() {
        other.hear(root);
    }
}

/// All hear of all. The first of them is the root.
pub(crate) fn meet_all<N: ScriptName, C: SharedChannels + Drop, J: SharedBeside<C> + Drop, B: Book>(
    tasks: &mut [Task<N, C, J, B>],
)
    requires some { 0 < length tasks.old }
    ensures tags { tags_of tasks.new ≡ tags_of tasks.old }
    ensures met { AllMet (sight_of C.view J.view) tasks.new }
    ensures rested { StayAtRest (sight_of C.view J.view) tasks.old tasks.new }
{
    let Some((root, others)) = tasks.split_first_mut() else {
        unreachable!()
    };
    hear_all(root, others);
    tell_all(root, others);
}
