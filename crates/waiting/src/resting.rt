//! A thread sleeps until its wait is resolved, and who was named is woken.
ghost use Rattle.std.specs.Prelude.{◌≡◌, ◌<◌, true};
ghost use Rattle.channel_model.specs.declared.floor.WaitState.TheVariants as state;
ghost use Rattle.channel_model.specs.Answers.{IsReady};
ghost use Rattle.parcel_channel.specs.Hubs.{IsOf, SamePass, seen_by, floor_by};
ghost use Rattle.parcel_channel.specs.Numbers.{HoldsWait};
ghost use Rattle.waiting.specs.Waits.{Stays, EndsAsleep};

use channel_model::WaitState;
use co_base::{Tag, WaitId};
use parcel_channel::{ParcelHub, ParcelPass, ParcelSettled};
use ring_bridge::Bells;
use std::hint::spin_loop;
use std::sync::Wait;

/// How often a wait is looked at before its thread sleeps: longer than an answer takes that is on its way from another processor, so
/// that two threads which answer each other at once seldom sleep; and short beside what it costs to sleep where processors are few.
pub(crate) const LOOKS: u32 = 1500;

/// The bell of a tag: each tag below 63 has one of its own, and all others have the last.
pub(crate) fn bell_of(tag: Tag) -> u32
    ensures few { result < 64 }
{
    if tag < 63 { tag as u32 } else { 63 }
}

/// Wakes those of a set.
pub(crate) fn wake_set(bells: &Bells, set: u64) {
    if set != 0 {
        bells.wake_mask(set);
    }
}

/// Wakes whom an answer named: one, and a set.
pub(crate) fn wake(bells: &Bells, one: Option<Tag>, set: u64) {
    if let Some(tag) = one {
        bells.ring(bell_of(tag));
    }
    wake_set(bells, set);
}

/// How far the own wait is.
pub(crate) fn look_at<T>(hub: &ParcelHub<T>, pass: &mut ParcelPass<T>, wait: WaitId) -> WaitState
    requires of { IsOf hub.now pass.old }
    requires wait { wait.channel ≡ 0 }
    requires holds { HoldsWait pass.old.tag wait (floor_by hub.now pass.old) }
    ensures of { IsOf hub.now pass.new }
    ensures stays { Stays hub.now wait pass.old pass.new }
    ensures ready { result ≡ state.Resolved → IsReady pass.new.tag wait (floor_by hub.now pass.new) }
{
    hub.look(pass, wait)
}

/// Looks at the own wait some times. Answers whether it was resolved.
fn look_often<T>(hub: &ParcelHub<T>, pass: &mut ParcelPass<T>, wait: WaitId) -> bool
    requires of { IsOf hub.now pass.old }
    requires wait { wait.channel ≡ 0 }
    requires holds { HoldsWait pass.old.tag wait (floor_by hub.now pass.old) }
    ensures of { IsOf hub.now pass.new }
    ensures stays { Stays hub.now wait pass.old pass.new }
    ensures ready { result ≡ true → IsReady pass.new.tag wait (floor_by hub.now pass.new) }
{
    for _ in 0..LOOKS {
        if let WaitState::Resolved = look_at(hub, pass, wait) {
            return true;
        }
        spin_loop();
    }
    false
}

/// Sleeps until the own wait is resolved.
fn sleep<T, R: Wait>(
    rt: &R,
    hub: &ParcelHub<T>,
    bells: &Bells,
    pass: &mut ParcelPass<T>,
    wait: WaitId,
)
    requires of { IsOf hub.now pass.old }
    requires wait { wait.channel ≡ 0 }
    requires holds { HoldsWait pass.old.tag wait (floor_by hub.now pass.old) }
    ensures of { IsOf hub.now pass.new }
    ensures stays { Stays hub.now wait pass.old pass.new }
    ensures ready { IsReady pass.new.tag wait (floor_by hub.now pass.new) }
{
    let bell = bell_of(pass.tag());
    for _ in rt.forever() {
        let rung = bells.rung(bell);
        if let WaitState::Resolved = look_at(hub, pass, wait) {
            return;
        }
        bells.sleep(rt, bell, rung);
    }
}

/// Waits until the own wait is resolved.
fn rest<T, R: Wait>(
    rt: &R,
    hub: &ParcelHub<T>,
    bells: &Bells,
    pass: &mut ParcelPass<T>,
    wait: WaitId,
)
    requires of { IsOf hub.now pass.old }
    requires wait { wait.channel ≡ 0 }
    requires holds { HoldsWait pass.old.tag wait (floor_by hub.now pass.old) }
    ensures of { IsOf hub.now pass.new }
    ensures stays { Stays hub.now wait pass.old pass.new }
    ensures ready { IsReady pass.new.tag wait (floor_by hub.now pass.new) }
{
    if look_often(hub, pass, wait) {
        return;
    }
    sleep(rt, hub, bells, pass, wait)
}

/// Waits until the own wait is resolved, and ends it.
pub(crate) fn end_asleep<T, R: Wait>(
    rt: &R,
    hub: &ParcelHub<T>,
    bells: &Bells,
    pass: &mut ParcelPass<T>,
    wait: WaitId,
) -> ParcelSettled<T>
    requires of { IsOf hub.now pass.old }
    requires wait { wait.channel ≡ 0 }
    requires holds { HoldsWait pass.old.tag wait (floor_by hub.now pass.old) }
    ensures of { IsOf hub.now pass.new }
    ensures same { SamePass pass.old pass.new }
    ensures ended { EndsAsleep hub.now.parcels pass.old.tag wait (seen_by pass.old) (seen_by pass.new)
        (floor_by hub.now pass.old) (floor_by hub.now pass.new) result }
{
    rest(rt, hub, bells, pass, wait);
    hub.settle(pass, wait, false)
}
