//! Streams, sinks and futures of Jobs, over words. Each owns its pass, and a drive polls it.
ghost use Rattle.std.specs.Prelude.{◌≡◌, ◌<◌, ◌≤◌, false, true, length, is_some, IfOk};
ghost use Rattle.channel_model.specs.Channels.{kind_at, is_signal};
ghost use Rattle.job_model.specs.Histories.{replay};
ghost use Rattle.cell_words.specs.Hubs.{shape_of, IsOwn};
ghost use Rattle.cell_calls.specs.HubFloors.{hub_floor};
ghost use Rattle.job_words.specs.Forests.{IsOwn as IsOwnOfJobs};
ghost use Rattle.job_words.specs.Rangers.{ranger_floor, ranger_anchor};
ghost use Rattle.future_bridge.specs.Gains.{Gained};
ghost use Rattle.future_bridge.specs.Streams.{elements_of};
ghost use Rattle.future_bridge.specs.Jobs.{jobs_seen};

use cell_calls::close;
use cell_words::{Hub, Pass};
use channel_model::Kind;
use co_base::{ChannelId, Tag, Value};
use future_bridge::{
    Drive, DriveError, HostDrive, ReceiveStream, SendList, SendSink, Spent, await_job, collect_all,
    send_list,
};
use futures::StreamExt;
use futures::future::join;
use job_model::{JobFloor, JobKind};
use job_words::{Forest, JobPass, Ranger};
use std::alloc::{AllocGlobal, Global};
use std::random::RandomSource;
use std::sync::Wait;

/// Sends a list, and closes the channel after it. False: an element was not sent, or the channel had been closed.
pub(crate) fn send_and_close<D: Drive>(
    drive: &mut D,
    hub: &Hub,
    pass: Pass,
    who: Tag,
    c: ChannelId,
    values: &[Value],
) -> bool
    requires own { IsOwn hub.now pass who }
    requires channel { c < length (shape_of hub.now) }
    requires kind { is_signal (kind_at (shape_of hub.now) c) ≡ false }
{
    match send_list(drive, hub, pass, who, c, values) {
        Ok(mut pass) => close(hub, &mut pass, who, c, 0).is_ok(),
        Err(_fault) => false,
    }
}

/// All elements of a channel up to its close, and the pass. Its coroutine received just these in this call, in this order.
pub(crate) fn all_elements<D: Drive>(
    alloc: Global,
    drive: &mut D,
    hub: &Hub,
    pass: Pass,
    who: Tag,
    c: ChannelId,
) -> Result<(Pass, Vec<Result<Value, Spent>>), DriveError>
    requires own { IsOwn hub.now pass who }
    requires channel { c < length (shape_of hub.now) }
    ensures own { IfOk result (λ r. IsOwn hub.now r.0 who) }
    ensures received { IfOk result (λ r. Gained who c (elements_of r.1.items) (hub_floor hub.now pass) (hub_floor hub.now r.0)) }
{
    collect_all(alloc, drive, hub, pass, who, c)
}

/// Coroutine 1 sends a list, and coroutine 2 receives it.
pub(crate) fn through_a_channel<R: Wait + RandomSource + AllocGlobal>(
    rt: &R,
) -> Result<Vec<Result<Value, Spent>>, DriveError> {
    let alloc = rt.alloc();
    let Ok((hub, mut main)) = Hub::new(alloc, &[(Kind::Unlimited, 4)]) else {
        return Err(DriveError::Memory);
    };
    let sender = hub.split(&mut main, 1);
    let receiver = hub.split(&mut main, 2);
    let mut host = HostDrive::new(rt);
    if !send_and_close(&mut host, &hub, sender, 1, 0, &[1, 2, 3]) {
        return Err(DriveError::Failed);
    }
    match all_elements(alloc, &mut host, &hub, receiver, 2, 0) {
        Ok((_pass, items)) => Ok(items),
        Err(error) => Err(error),
    }
}

/// Twice the first elements of a channel, `most` of them at most.
pub(crate) fn first_doubled<D: Drive>(
    alloc: Global,
    drive: &mut D,
    hub: &Hub,
    pass: Pass,
    who: Tag,
    c: ChannelId,
    most: usize,
) -> Result<Vec<u64>, DriveError>
    requires own { IsOwn hub.now pass who }
    requires channel { c < length (shape_of hub.now) }
    ensures few { IfOk result (λ items. length items.items ≤ most) }
{
    let elements = ReceiveStream::new(hub, pass, who, c);
    let doubled = elements.map(|item| match item {
        Ok(value) => 2 * u64::from(value),
        Err(Spent) => 0,
    });
    match drive.drive(doubled.take(most).collect(alloc)) {
        Ok(Ok(items)) => Ok(items),
        Ok(Err(_)) => Err(DriveError::Memory),
        Err(_) => Err(DriveError::Failed),
    }
}

/// Coroutine 1 sends a list through a channel that keeps nothing, while coroutine 2 receives two of its elements.
pub(crate) fn at_a_rendezvous<R: Wait + RandomSource + AllocGlobal>(
    rt: &R,
) -> Result<Vec<Result<Value, Spent>>, DriveError> {
    let alloc = rt.alloc();
    let Ok((hub, mut main)) = Hub::new(alloc, &[(Kind::Rendezvous, 4)]) else {
        return Err(DriveError::Memory);
    };
    let sender = hub.split(&mut main, 1);
    let receiver = hub.split(&mut main, 2);
    let sends = SendList::new(SendSink::new(&hub, sender, 1, 0), &[5, 6]);
    let receives = ReceiveStream::new(&hub, receiver, 2, 0)
        .take(2)
        .collect(alloc);
    let mut host = HostDrive::new(rt);
    let Ok((_sent, received)) = host.drive(join(sends, receives)) else {
        return Err(DriveError::Failed);
    };
    match received {
        Ok(items) => Ok(items),
        Err(_) => Err(DriveError::Memory),
    }
}

/// Twice the first two of three elements.
pub(crate) fn two_doubled<R: Wait + RandomSource + AllocGlobal>(
    rt: &R,
) -> Result<Vec<u64>, DriveError> {
    let alloc = rt.alloc();
    let Ok((hub, mut main)) = Hub::new(alloc, &[(Kind::Unlimited, 4)]) else {
        return Err(DriveError::Memory);
    };
    let sender = hub.split(&mut main, 1);
    let receiver = hub.split(&mut main, 2);
    let mut host = HostDrive::new(rt);
    if !send_and_close(&mut host, &hub, sender, 1, 0, &[1, 2, 3]) {
        return Err(DriveError::Failed);
    }
    first_doubled(alloc, &mut host, &hub, receiver, 2, 0, 2)
}

/// Attaches coroutine 1 to the root, on the floor of one pass.
fn attach_on(ranger: &mut Ranger<'_>) -> bool
    requires caller { (ranger_floor ranger.old).callers 0 ≡ true }
    requires size { ranger.old.forest.now.size.coroutines ≡ 2 }
    ensures anchor { ranger_anchor ranger.new ≡ ranger_anchor ranger.old }
    ensures own { IsOwnOfJobs ranger.old.forest.now ranger.new.pass.now 0 }
    ensures attached { result ≡ true → is_some (replay (ranger_floor ranger.new).seen 1) ≡ true }
{
    let plain = JobKind {
        supervisor: false,
        scoped: false,
        lazy: false,
    };
    if ranger.attach(0, 0, plain, 1).is_err() || ranger.rows() <= 1 {
        return false;
    }
    match ranger.look(0, 1) {
        Some(_job) => true,
        None => false,
    }
}

/// The same by a pass. True: the pass has seen it attached.
fn attach_child(forest: &Forest, pass: &mut JobPass) -> bool
    requires own { IsOwnOfJobs forest.now pass.old 0 }
    requires size { forest.now.size.coroutines ≡ 2 }
    ensures own { IsOwnOfJobs forest.now pass.new 0 }
    ensures attached { result ≡ true → is_some (replay (jobs_seen pass.new).seen 1) ≡ true }
{
    let mut ranger = Ranger { forest, pass };
    attach_on(&mut ranger)
}

/// A coroutine that ended with 9 closed the done channel of its Job with that. The root waits for the Job, and has its result.
pub(crate) fn result_awaited<R: Wait + RandomSource + AllocGlobal>(
    rt: &R,
) -> Option<Result<Value, Spent>> {
    let alloc = rt.alloc();
    let Ok((hub, mut root)) = Hub::new(alloc, &[(Kind::Signal, 1), (Kind::Signal, 1)]) else {
        return None;
    };
    let mut child = hub.split(&mut root, 1);
    let Ok((forest, mut jobs)) = Forest::new(alloc, 2, 0) else {
        return None;
    };
    if !attach_child(&forest, &mut jobs) || close(&hub, &mut child, 1, 1, 9).is_err() {
        return None;
    }
    let mut host = HostDrive::new(rt);
    match await_job(&mut host, &hub, root, &forest, jobs, 0, 0, 1) {
        Ok((_pass, _jobs, result)) => Some(result),
        Err(_failed) => None,
    }
}
