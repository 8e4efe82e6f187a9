//! Calls on channels of owned values whose conditions follow from the calls before.
ghost use Rattle.std.specs.Prelude.{◌≡◌, ◌<◌, ◌≤◌, IfOk};
ghost use Rattle.channel_model.specs.declared.floor.WaitState.TheVariants as state;
ghost use Rattle.channel_model.specs.Answers.{IsReady, IsSeenVoided};
ghost use Rattle.parcel_channel.specs.Hubs.{IsOf, floor_by};
ghost use Rattle.parcel_channel.specs.Numbers.{KeepsAll, HoldsWait};
ghost use Rattle.bridge_tests.specs.ParcelPasses.{IsMain, IsOther, Keeps};

use channel_model::{Kind, WaitState, Withdrawn};
use co_base::{Memory, Tag, Value, WaitId};
use parcel_channel::{ParcelHub, ParcelPass};
use std::alloc::Global;

/// The passes of the tags 0, 1 and 2.
pub(crate) struct Three<T> {
    pub main: ParcelPass<T>,
    pub one: ParcelPass<T>,
    pub two: ParcelPass<T>,
}

/// A channel with so many places and parcel numbers, and three passes of it.
pub(crate) fn new_channel<T>(
    alloc: Global,
    kind: Kind,
    places: u32,
    parcels: u32,
) -> Result<(ParcelHub<T>, Three<T>), Memory>
    requires kind { KeepsAll kind }
    requires places { (1 ≤ places) × (places ≤ 1048576) }
    requires parcels { (1 ≤ parcels) × (parcels ≤ 1048576) }
    ensures main { IfOk result (λ r. IsMain r.0 r.1.main) }
    ensures one { IfOk result (λ r. IsOther 1 r.0 r.1.one) }
    ensures two { IfOk result (λ r. IsOther 2 r.0 r.1.two) }
    ensures low { IfOk result (λ r. (r.1.one.tag < 63) × (r.1.two.tag < 63)) }
{
    let (hub, mut main) = ParcelHub::new(alloc, kind, places, parcels)?;
    let one = hub.split(&mut main, 1);
    let two = hub.split(&mut main, 2);
    Ok((hub, Three { main, one, two }))
}

/// What lies in the slots, once the passes of the tags 1 and 2 have ended.
pub(crate) fn rest_of<T>(
    hub: ParcelHub<T>,
    mut main: ParcelPass<T>,
    one: ParcelPass<T>,
    two: ParcelPass<T>,
) -> Vec<Option<T>>
    requires main { IsMain hub main }
    requires one { IsOther 1 hub one }
    requires two { IsOther 2 hub two }
{
    hub.end(&mut main, one);
    hub.end(&mut main, two);
    hub.into_rest(main)
}

/// Takes the own wait back, unless it was resolved before.
pub(crate) fn take_back<T>(hub: &ParcelHub<T>, pass: &mut ParcelPass<T>, wait: WaitId) -> Withdrawn
    requires of { IsOf hub.now pass.old }
    requires wait { wait.channel ≡ 0 }
    requires holds { HoldsWait pass.old.tag wait (floor_by hub.now pass.old) }
    ensures kept { Keeps hub.now pass.old pass.new }
    ensures ready { IsReady pass.new.tag wait (floor_by hub.now pass.new) }
{
    hub.withdraw(pass, wait)
}

/// How far the own wait is.
pub(crate) fn look_at<T>(hub: &ParcelHub<T>, pass: &mut ParcelPass<T>, wait: WaitId) -> WaitState
    requires of { IsOf hub.now pass.old }
    requires wait { wait.channel ≡ 0 }
    requires holds { HoldsWait pass.old.tag wait (floor_by hub.now pass.old) }
    ensures kept { Keeps hub.now pass.old pass.new }
    ensures holds { HoldsWait pass.new.tag wait (floor_by hub.now pass.new) }
    ensures ready { result ≡ state.Resolved → IsReady pass.new.tag wait (floor_by hub.now pass.new) }
{
    hub.look(pass, wait)
}

/// Closes the channel with 0 and cancels it. Answers whether each of them was the first.
pub(crate) fn cancel<T>(hub: &ParcelHub<T>, pass: &mut ParcelPass<T>) -> (bool, bool)
    requires of { IsOf hub.now pass.old }
    ensures kept { Keeps hub.now pass.old pass.new }
    ensures voided { IsSeenVoided 0 (floor_by hub.now pass.new) }
{
    let closed = hub.close(pass, 0).is_ok();
    let voided = hub.void(pass);
    (closed, voided)
}

/// Closes the channel with a value, and tells its first receiver. Answers whether it was the first to close, and who was told.
pub(crate) fn close_and_wake(
    hub: &ParcelHub<Value>,
    pass: &mut ParcelPass<Value>,
    value: Value,
) -> (bool, Option<Tag>)
    requires of { IsOf hub.now pass.old }
    ensures kept { Keeps hub.now pass.old pass.new }
{
    let closed = hub.close(pass, value).is_ok();
    let told = hub.wake_closed(pass);
    (closed, told)
}

/// Removes the first value of a cancelled channel.
pub(crate) fn drain_one<T>(
    hub: &ParcelHub<T>,
    pass: &mut ParcelPass<T>,
) -> Option<(Option<T>, Option<Tag>)>
    requires of { IsOf hub.now pass.old }
    requires voided { IsSeenVoided 0 (floor_by hub.now pass.old) }
    ensures kept { Keeps hub.now pass.old pass.new }
    ensures voided { IsSeenVoided 0 (floor_by hub.now pass.new) }
{
    hub.drain(pass)
}
