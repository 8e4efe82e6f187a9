//! What callers with a seat each come to, by the traits of shared floors alone.

ghost use Rattle.std.specs.Prelude.{◌≡◌, ◌<◌, true, false, length, [], ◌∷◌};
ghost use Rattle.channel_model.specs.Channels.{kind_at, is_signal};
ghost use Rattle.channel_model.specs.Floors.{MayCall};
ghost use Rattle.job_model.specs.Floors.{MayCall as MayCallJobs, IsFreshFloor};
ghost use Rattle.cell_words.specs.Hubs.{shape_of, IsOwn, GivesTags};
ghost use Rattle.job_words.specs.Forests.{seen_by as jobs_seen_by, IsOwn as IsOwnJobs, GivesTags as GivesJobTags};
ghost use Rattle.job_words.specs.Passes.{floor_seen};
ghost use Rattle.word_seats.specs.Names.{IsNamedHub, IsNamedForest};

use crate::compare::compare;
use cell_words::{Hub, Pass};
use channel_model::{Got, Kind, Offered};
use co_base::Memory;
use job_model::{JobKind, JobState, JobView};
use job_words::{Forest, JobPass};
use shared_floors::{SharedChannels, SharedJobs};
use std::marker::{Brand, PhantomData};
use std::sync::Wait;
use std::test::Fail;
use std::thread::{Threads, join};
use word_seats::{ForestSeat, HubSeat, TableName};

/// Tag 1 offers, if there is memory.
fn offer<C: SharedChannels>(seat: &mut C) -> Option<Offered>
    requires can { MayCall 1 0 (C.view seat.old) }
    requires kind { is_signal (kind_at (C.view seat.old).shape 0) ≡ false }
{
    match seat.room(1) {
        Ok(()) => Some(seat.offer(1, 0, 5)),
        Err(_) => None,
    }
}

/// Tag 2 receives, if there is memory.
fn receive<C: SharedChannels>(seat: &mut C) -> Option<Got>
    requires can { MayCall 2 0 (C.view seat.old) }
{
    match seat.room(1) {
        Ok(()) => Some(seat.receive(2, 0)),
        Err(_) => None,
    }
}

/// Both, by a thread each. The receiver hears of the sender, and both end into the first seat.
fn transfer<C: SharedChannels + Drop + Send, R: Threads + Wait + Sync>(
    rt: &R,
    main: &mut C,
    mut sender: C,
    mut receiver: C,
) -> (Option<Offered>, Option<Got>)
    requires sender { MayCall 1 0 (C.view sender) }
    requires receiver { MayCall 2 0 (C.view receiver) }
    requires kind { is_signal (kind_at (C.view sender).shape 0) ≡ false }
{
    let (offered, got) = join(rt, || offer(&mut sender), || receive(&mut receiver));
    receiver.meet(&mut sender);
    main.end(sender);
    main.end(receiver);
    (offered, got)
}

/// A transfer over two seats of the hub that `N` names.
fn on_a_hub<N: TableName + Send + Sync, R: Threads + Wait + Sync>(
    rt: &R,
    hub: &Hub,
    pass: Pass,
) -> (Option<Offered>, Option<Got>)
    requires named { IsNamedHub N.table N.table_key hub.now }
    requires own { IsOwn hub.now pass 0 }
    requires gives { GivesTags (0 ∷ []) pass }
    requires channel { 0 < length (shape_of hub.now) }
    requires kind { is_signal (kind_at (shape_of hub.now) 0) ≡ false }
{
    let mut main: HubSeat<'_, N> = HubSeat {
        hub,
        pass,
        name: PhantomData,
    };
    let sender = main.split(1);
    let receiver = main.split(2);
    transfer(rt, &mut main, sender, receiver)
}

/// Whether the element went from tag 1 to tag 2, whoever came first.
fn is_one_transfer(offered: Option<Offered>, got: Option<Got>) -> bool {
    match got {
        Some(Got::Waiting(0)) => offered == Some(Offered::Handed(0, 2)),
        Some(Got::Taken(0, 5, Some(1))) => offered == Some(Offered::Held(0)),
        _ => false,
    }
}

#[test]
fn what_one_sends_the_other_receives(rt: HostRuntime) -> Result<(), Fail> {
    let kinds = [(Kind::Rendezvous, 1u32)];
    let (hub, pass) = Hub::new(rt.alloc(), &kinds)?;
    let (offered, got) = on_a_hub::<Brand, _>(&rt, &hub, pass);
    compare(&rt, &is_one_transfer(offered, got), &true);
    Ok(())
}

/// Tag 0 attaches a child with tag 1, which hears of it, and looks at its row.
fn child_seen<J: SharedJobs + Drop>(main: &mut J, child: J) -> Result<Option<JobView>, Memory>
    requires main { MayCallJobs 0 0 (J.view main.old) }
    requires child { (J.view child).callers 1 ≡ true }
    requires tag { 1 < (J.view main.old).shape.coroutines }
    requires row { 1 < (J.view child).shape.rows }
{
    let kind = JobKind {
        supervisor: false,
        scoped: false,
        lazy: false,
    };
    let mut child = child;
    main.room(1)?;
    if main.attach(0, 0, kind, 1).is_err() {
        return Ok(None);
    }
    child.meet(main);
    let seen = child.look(1, 1);
    main.end(child);
    Ok(seen)
}

/// The same over seats of the forest that `N` names.
fn on_a_forest<N: TableName>(forest: &Forest, pass: JobPass) -> Result<Option<JobView>, Memory>
    requires named { IsNamedForest N.table N.table_key forest.now }
    requires own { IsOwnJobs forest.now pass 0 }
    requires gives { GivesJobTags (0 ∷ []) pass }
    requires fresh { IsFreshFloor (record { coroutines = 2; rows = 2 }) (floor_seen (jobs_seen_by pass)) }
{
    let mut main: ForestSeat<'_, N> = ForestSeat {
        forest,
        pass,
        name: PhantomData,
    };
    let child = main.split(1);
    child_seen(&mut main, child)
}

#[test]
fn what_one_attaches_the_other_sees(rt: HostRuntime) -> Result<(), Fail> {
    let (forest, pass) = Forest::new(rt.alloc(), 2, 0)?;
    let child = on_a_forest::<Brand>(&forest, pass)?;
    let active = matches!(
        child,
        Some(JobView {
            state: JobState::Active,
            ..
        })
    );
    compare(&rt, &active, &true);
    Ok(())
}
