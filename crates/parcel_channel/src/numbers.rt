//! Calls on the channel that carries the numbers.
ghost use Rattle.std.specs.Prelude.{◌≡◌, ◌^◌, ◌<◌, true};
ghost use Rattle.std.specs.Int.Bits.{bit_or};
ghost use Rattle.channel_model.specs.Answers.{OfferAnswer, TriedOfferAnswer, GotAnswer, TriedGotAnswer, SettleAnswer, LookAnswer, WithdrawAnswer};
ghost use Rattle.channel_model.specs.Answers.{CloseAnswer, WakeAnswer, VoidAnswer, DrainAnswer, IsOwn as IsOwnWaitOf, IsReady, IsSeenClosed};
ghost use Rattle.channel_model.specs.Answers.{IsSeenVoided};
ghost use Rattle.channel_model.specs.declared.acts.Why.TheVariants as why;
ghost use Rattle.cell_words.specs.Hubs.{IsOwn, SameGiving};
ghost use Rattle.cell_calls.specs.Desks.{desk_floor, desk_anchor};
ghost use Rattle.cell_calls.specs.HubFloors.{hub_floor};
ghost use Rattle.parcel_channel.specs.Numbers.{CarriesNumbers, AdmitsBelow, AdmitsAll, bit_for};

use cell_calls::Desk;
use cell_words::{Hub, Pass};
use channel_model::{
    AlreadyClosed, ChannelFloor, Got, Offered, Settled, TriedGot, TriedOffer, WaitState, Why,
    Withdrawn,
};
use co_base::{Place, Tag, Value, WaitId};

fn offer_on(desk: &mut Desk<'_>, who: Tag, value: Value) -> Offered
    requires channel { CarriesNumbers desk.old.hub.now }
    requires caller { (desk_floor desk.old).callers who ≡ true }
    ensures anchor { desk_anchor desk.new ≡ desk_anchor desk.old }
    ensures own { IsOwn desk.old.hub.now desk.new.pass.now who }
    ensures giving { SameGiving desk.old.pass.now desk.new.pass.now }
    ensures answer { OfferAnswer who 0 value (desk_floor desk.old) (hub_floor desk.old.hub.now desk.new.pass.now) result }
{
    desk.offer(who, 0, value)
}

/// Offers the number.
pub(crate) fn offer(hub: &Hub, pass: &mut Pass, who: Tag, value: Value) -> Offered
    requires channel { CarriesNumbers hub.now }
    requires own { IsOwn hub.now pass.old who }
    ensures own { IsOwn hub.now pass.new who }
    ensures giving { SameGiving pass.old pass.new }
    ensures answer { OfferAnswer who 0 value (hub_floor hub.now pass.old) (hub_floor hub.now pass.new) result }
{
    let mut desk = Desk { hub, pass };
    offer_on(&mut desk, who, value)
}

fn try_offer_on(desk: &mut Desk<'_>, who: Tag, value: Value) -> TriedOffer
    requires channel { CarriesNumbers desk.old.hub.now }
    requires caller { (desk_floor desk.old).callers who ≡ true }
    ensures anchor { desk_anchor desk.new ≡ desk_anchor desk.old }
    ensures own { IsOwn desk.old.hub.now desk.new.pass.now who }
    ensures giving { SameGiving desk.old.pass.now desk.new.pass.now }
    ensures answer { TriedOfferAnswer who 0 value (desk_floor desk.old) (hub_floor desk.old.hub.now desk.new.pass.now) result }
{
    desk.try_offer(who, 0, value)
}

/// Offers the number, unless it would have to wait.
pub(crate) fn try_offer(hub: &Hub, pass: &mut Pass, who: Tag, value: Value) -> TriedOffer
    requires channel { CarriesNumbers hub.now }
    requires own { IsOwn hub.now pass.old who }
    ensures own { IsOwn hub.now pass.new who }
    ensures giving { SameGiving pass.old pass.new }
    ensures answer { TriedOfferAnswer who 0 value (hub_floor hub.now pass.old) (hub_floor hub.now pass.new) result }
{
    let mut desk = Desk { hub, pass };
    try_offer_on(&mut desk, who, value)
}

fn receive_on(desk: &mut Desk<'_>, who: Tag) -> Got
    requires channel { CarriesNumbers desk.old.hub.now }
    requires caller { (desk_floor desk.old).callers who ≡ true }
    ensures anchor { desk_anchor desk.new ≡ desk_anchor desk.old }
    ensures own { IsOwn desk.old.hub.now desk.new.pass.now who }
    ensures giving { SameGiving desk.old.pass.now desk.new.pass.now }
    ensures answer { GotAnswer who 0 (desk_floor desk.old) (hub_floor desk.old.hub.now desk.new.pass.now) result }
{
    desk.receive(who, 0)
}

/// Receives a number, or waits for one.
pub(crate) fn receive(hub: &Hub, pass: &mut Pass, who: Tag) -> Got
    requires channel { CarriesNumbers hub.now }
    requires own { IsOwn hub.now pass.old who }
    ensures own { IsOwn hub.now pass.new who }
    ensures giving { SameGiving pass.old pass.new }
    ensures answer { GotAnswer who 0 (hub_floor hub.now pass.old) (hub_floor hub.now pass.new) result }
{
    let mut desk = Desk { hub, pass };
    receive_on(&mut desk, who)
}

fn try_receive_on(desk: &mut Desk<'_>, who: Tag) -> TriedGot
    requires channel { CarriesNumbers desk.old.hub.now }
    requires caller { (desk_floor desk.old).callers who ≡ true }
    ensures anchor { desk_anchor desk.new ≡ desk_anchor desk.old }
    ensures own { IsOwn desk.old.hub.now desk.new.pass.now who }
    ensures giving { SameGiving desk.old.pass.now desk.new.pass.now }
    ensures answer { TriedGotAnswer who 0 (desk_floor desk.old) (hub_floor desk.old.hub.now desk.new.pass.now) result }
{
    desk.try_receive(who, 0)
}

/// Receives a number, if one is there.
pub(crate) fn try_receive(hub: &Hub, pass: &mut Pass, who: Tag) -> TriedGot
    requires channel { CarriesNumbers hub.now }
    requires own { IsOwn hub.now pass.old who }
    ensures own { IsOwn hub.now pass.new who }
    ensures giving { SameGiving pass.old pass.new }
    ensures answer { TriedGotAnswer who 0 (hub_floor hub.now pass.old) (hub_floor hub.now pass.new) result }
{
    let mut desk = Desk { hub, pass };
    try_receive_on(&mut desk, who)
}

fn settle_on(desk: &mut Desk<'_>, who: Tag, w: WaitId, cancelled: bool) -> Settled
    requires channel { CarriesNumbers desk.old.hub.now }
    requires caller { (desk_floor desk.old).callers who ≡ true }
    requires wait { w.channel ≡ 0 }
    requires ready { IsReady who w (desk_floor desk.old) }
    ensures anchor { desk_anchor desk.new ≡ desk_anchor desk.old }
    ensures own { IsOwn desk.old.hub.now desk.new.pass.now who }
    ensures giving { SameGiving desk.old.pass.now desk.new.pass.now }
    ensures answer { SettleAnswer who w cancelled (desk_floor desk.old) (hub_floor desk.old.hub.now desk.new.pass.now) result }
{
    desk.settle(who, w, cancelled)
}

/// Settles the own wait at this place, which was seen resolved.
pub(crate) fn settle(hub: &Hub, pass: &mut Pass, who: Tag, w: WaitId, cancelled: bool) -> Settled
    requires channel { CarriesNumbers hub.now }
    requires own { IsOwn hub.now pass.old who }
    requires wait { w.channel ≡ 0 }
    requires ready { IsReady who w (hub_floor hub.now pass.old) }
    ensures own { IsOwn hub.now pass.new who }
    ensures giving { SameGiving pass.old pass.new }
    ensures answer { SettleAnswer who w cancelled (hub_floor hub.now pass.old) (hub_floor hub.now pass.new) result }
{
    let mut desk = Desk { hub, pass };
    settle_on(&mut desk, who, w, cancelled)
}

fn look_on(desk: &mut Desk<'_>, who: Tag, w: WaitId) -> WaitState
    requires channel { CarriesNumbers desk.old.hub.now }
    requires caller { (desk_floor desk.old).callers who ≡ true }
    requires wait { w.channel ≡ 0 }
    requires own_wait { IsOwnWaitOf who w (desk_floor desk.old) }
    ensures anchor { desk_anchor desk.new ≡ desk_anchor desk.old }
    ensures own { IsOwn desk.old.hub.now desk.new.pass.now who }
    ensures giving { SameGiving desk.old.pass.now desk.new.pass.now }
    ensures answer { LookAnswer who w (desk_floor desk.old) (hub_floor desk.old.hub.now desk.new.pass.now) result }
{
    desk.look(who, w)
}

/// How far the own wait is.
pub(crate) fn look(hub: &Hub, pass: &mut Pass, who: Tag, w: WaitId) -> WaitState
    requires channel { CarriesNumbers hub.now }
    requires own { IsOwn hub.now pass.old who }
    requires wait { w.channel ≡ 0 }
    requires own_wait { IsOwnWaitOf who w (hub_floor hub.now pass.old) }
    ensures own { IsOwn hub.now pass.new who }
    ensures giving { SameGiving pass.old pass.new }
    ensures answer { LookAnswer who w (hub_floor hub.now pass.old) (hub_floor hub.now pass.new) result }
{
    let mut desk = Desk { hub, pass };
    look_on(&mut desk, who, w)
}

fn withdraw_on(desk: &mut Desk<'_>, who: Tag, w: WaitId) -> Withdrawn
    requires channel { CarriesNumbers desk.old.hub.now }
    requires caller { (desk_floor desk.old).callers who ≡ true }
    requires wait { w.channel ≡ 0 }
    requires own_wait { IsOwnWaitOf who w (desk_floor desk.old) }
    ensures anchor { desk_anchor desk.new ≡ desk_anchor desk.old }
    ensures own { IsOwn desk.old.hub.now desk.new.pass.now who }
    ensures giving { SameGiving desk.old.pass.now desk.new.pass.now }
    ensures answer { WithdrawAnswer who w why.Cancelled (desk_floor desk.old) (hub_floor desk.old.hub.now desk.new.pass.now) result }
{
    desk.withdraw(who, w, Why::Cancelled)
}

/// Takes the own wait back, unless it was resolved before.
pub(crate) fn withdraw(hub: &Hub, pass: &mut Pass, who: Tag, w: WaitId) -> Withdrawn
    requires channel { CarriesNumbers hub.now }
    requires own { IsOwn hub.now pass.old who }
    requires wait { w.channel ≡ 0 }
    requires own_wait { IsOwnWaitOf who w (hub_floor hub.now pass.old) }
    ensures own { IsOwn hub.now pass.new who }
    ensures giving { SameGiving pass.old pass.new }
    ensures answer { WithdrawAnswer who w why.Cancelled (hub_floor hub.now pass.old) (hub_floor hub.now pass.new) result }
{
    let mut desk = Desk { hub, pass };
    withdraw_on(&mut desk, who, w)
}

fn close_on(desk: &mut Desk<'_>, who: Tag, v: Value) -> Result<(), AlreadyClosed>
    requires channel { CarriesNumbers desk.old.hub.now }
    requires caller { (desk_floor desk.old).callers who ≡ true }
    ensures anchor { desk_anchor desk.new ≡ desk_anchor desk.old }
    ensures own { IsOwn desk.old.hub.now desk.new.pass.now who }
    ensures giving { SameGiving desk.old.pass.now desk.new.pass.now }
    ensures answer { CloseAnswer who 0 v (desk_floor desk.old) (hub_floor desk.old.hub.now desk.new.pass.now) result }
{
    desk.close(who, 0, v)
}

/// Closes the channel with a value.
pub(crate) fn close(hub: &Hub, pass: &mut Pass, who: Tag, v: Value) -> Result<(), AlreadyClosed>
    requires channel { CarriesNumbers hub.now }
    requires own { IsOwn hub.now pass.old who }
    ensures own { IsOwn hub.now pass.new who }
    ensures giving { SameGiving pass.old pass.new }
    ensures answer { CloseAnswer who 0 v (hub_floor hub.now pass.old) (hub_floor hub.now pass.new) result }
{
    let mut desk = Desk { hub, pass };
    close_on(&mut desk, who, v)
}

fn wake_closed_on(desk: &mut Desk<'_>, who: Tag) -> Option<(Place, Tag)>
    requires channel { CarriesNumbers desk.old.hub.now }
    requires caller { (desk_floor desk.old).callers who ≡ true }
    requires closed { IsSeenClosed 0 (desk_floor desk.old) }
    ensures anchor { desk_anchor desk.new ≡ desk_anchor desk.old }
    ensures own { IsOwn desk.old.hub.now desk.new.pass.now who }
    ensures giving { SameGiving desk.old.pass.now desk.new.pass.now }
    ensures answer { WakeAnswer who 0 (desk_floor desk.old) (hub_floor desk.old.hub.now desk.new.pass.now) result }
{
    desk.wake_closed(who, 0)
}

/// Tells the first receiver of a channel that was seen closed.
pub(crate) fn wake_closed(hub: &Hub, pass: &mut Pass, who: Tag) -> Option<(Place, Tag)>
    requires channel { CarriesNumbers hub.now }
    requires own { IsOwn hub.now pass.old who }
    requires closed { IsSeenClosed 0 (hub_floor hub.now pass.old) }
    ensures own { IsOwn hub.now pass.new who }
    ensures giving { SameGiving pass.old pass.new }
    ensures answer { WakeAnswer who 0 (hub_floor hub.now pass.old) (hub_floor hub.now pass.new) result }
{
    let mut desk = Desk { hub, pass };
    wake_closed_on(&mut desk, who)
}

fn void_on(desk: &mut Desk<'_>, who: Tag) -> bool
    requires channel { CarriesNumbers desk.old.hub.now }
    requires caller { (desk_floor desk.old).callers who ≡ true }
    requires closed { IsSeenClosed 0 (desk_floor desk.old) }
    ensures anchor { desk_anchor desk.new ≡ desk_anchor desk.old }
    ensures own { IsOwn desk.old.hub.now desk.new.pass.now who }
    ensures giving { SameGiving desk.old.pass.now desk.new.pass.now }
    ensures answer { VoidAnswer who 0 (desk_floor desk.old) (hub_floor desk.old.hub.now desk.new.pass.now) result }
{
    desk.void(who, 0)
}

/// Cancels a channel that was seen closed.
pub(crate) fn void(hub: &Hub, pass: &mut Pass, who: Tag) -> bool
    requires channel { CarriesNumbers hub.now }
    requires own { IsOwn hub.now pass.old who }
    requires closed { IsSeenClosed 0 (hub_floor hub.now pass.old) }
    ensures own { IsOwn hub.now pass.new who }
    ensures giving { SameGiving pass.old pass.new }
    ensures answer { VoidAnswer who 0 (hub_floor hub.now pass.old) (hub_floor hub.now pass.new) result }
{
    let mut desk = Desk { hub, pass };
    void_on(&mut desk, who)
}

fn drain_on(desk: &mut Desk<'_>, who: Tag) -> Option<(Place, Value, Option<Tag>)>
    requires channel { CarriesNumbers desk.old.hub.now }
    requires caller { (desk_floor desk.old).callers who ≡ true }
    requires voided { IsSeenVoided 0 (desk_floor desk.old) }
    ensures anchor { desk_anchor desk.new ≡ desk_anchor desk.old }
    ensures own { IsOwn desk.old.hub.now desk.new.pass.now who }
    ensures giving { SameGiving desk.old.pass.now desk.new.pass.now }
    ensures answer { DrainAnswer who 0 (desk_floor desk.old) (hub_floor desk.old.hub.now desk.new.pass.now) result }
{
    desk.drain(who, 0)
}

/// Removes the first number of a channel that was seen cancelled.
pub(crate) fn drain(hub: &Hub, pass: &mut Pass, who: Tag) -> Option<(Place, Value, Option<Tag>)>
    requires channel { CarriesNumbers hub.now }
    requires own { IsOwn hub.now pass.old who }
    requires voided { IsSeenVoided 0 (hub_floor hub.now pass.old) }
    ensures own { IsOwn hub.now pass.new who }
    ensures giving { SameGiving pass.old pass.new }
    ensures answer { DrainAnswer who 0 (hub_floor hub.now pass.old) (hub_floor hub.now pass.new) result }
{
    let mut desk = Desk { hub, pass };
    drain_on(&mut desk, who)
}

/// The bit of a tag.
fn bit_of(tag: Tag) -> u32
    ensures bit { result ≡ bit_for tag }
    ensures few { result < 64 }
{
    if tag < 63 {
        return tag as u32;
    }
    63
}

/// The set, with this tag.
fn with_tag(set: u64, tag: Tag) -> u64
    ensures { result ≡ bit_or set (2 ^ bit_for tag) }
{
    let bit = bit_of(tag);
    set | (1u64 << bit)
}

/// Admits each offer below the mark for which the channel has room: the set of those whose offers they were.
fn admit_below(desk: &mut Desk<'_>, who: Tag, mark: Place) -> u64
    requires channel { CarriesNumbers desk.old.hub.now }
    requires caller { (desk_floor desk.old).callers who ≡ true }
    ensures anchor { desk_anchor desk.new ≡ desk_anchor desk.old }
    ensures admits { AdmitsBelow who mark result (desk_floor desk.old) (desk_floor desk.new) }
{
    let mut set = 0;
    loop {
        match desk.admit(who, 0, mark) {
            None => return set,
            Some(found) => {
                let more = with_tag(set, found.1);
                set = more;
            }
        }
    }
}

fn admit_on(desk: &mut Desk<'_>, who: Tag) -> u64
    requires channel { CarriesNumbers desk.old.hub.now }
    requires caller { (desk_floor desk.old).callers who ≡ true }
    ensures anchor { desk_anchor desk.new ≡ desk_anchor desk.old }
    ensures own { IsOwn desk.old.hub.now desk.new.pass.now who }
    ensures giving { SameGiving desk.old.pass.now desk.new.pass.now }
    ensures admits { AdmitsAll who result (desk_floor desk.old) (hub_floor desk.old.hub.now desk.new.pass.now) }
{
    let mark = desk.mark(who, 0);
    admit_below(desk, who, mark)
}

/// Admits each offer that came before this call and for which the channel has room: the set of those whose offers they were.
pub(crate) fn admit(hub: &Hub, pass: &mut Pass, who: Tag) -> u64
    requires channel { CarriesNumbers hub.now }
    requires own { IsOwn hub.now pass.old who }
    ensures own { IsOwn hub.now pass.new who }
    ensures giving { SameGiving pass.old pass.new }
    ensures admits { AdmitsAll who result (hub_floor hub.now pass.old) (hub_floor hub.now pass.new) }
{
    let mut desk = Desk { hub, pass };
    admit_on(&mut desk, who)
}
