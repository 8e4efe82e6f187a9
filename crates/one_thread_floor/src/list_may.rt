//! Which acts may come now, by the lists.

ghost use Rattle.std.specs.Prelude.{◌≡◌, ℕ, ◌<◌, ◌&&◌, ◌==◌, not, length, map, is_some, is_none, nat_le, Some, IfSome, slice_get};
ghost use Rattle.std.specs.List.{list_any};
ghost use Rattle.channel_model.specs.declared.acts.Act.TheVariants.{Hand, Put, Offer, Await, Take, Admit, Drop, Close, Void, Drain, WakeClosed};
ghost use Rattle.channel_model.specs.declared.standing.Standing.{Standing as AStanding};
ghost use Rattle.channel_model.specs.Answers.{outcome_at, outcome_of_some};
ghost use Rattle.channel_model.specs.Channels.{is_full, is_signal, drops, same_wait};
ghost use Rattle.channel_model.specs.Needs.{began_by_select};
ghost use Rattle.channel_model.specs.Outcomes.{outcome_of};
ghost use Rattle.channel_model.specs.Steps.{is_first_receiver, is_first_offer, is_offer_at, gives_place, may_join, may_name, is_open_of, same_settled, is_outcome, may_settle};
ghost use Rattle.one_thread_floor.specs.ListStands.{channel_in, wait_in, wait_in_channel, wait_of_slot, places_in, clause_of, resolution_of, settled_of, AllInOrder, IsBehind, named};
ghost use Rattle.one_thread_floor.specs.ListSteps.{AreOf, may_in, state_in};

use crate::list_channel::{ListChannel, ListClause, ListSlot, Progress};
use crate::list_queries::{
    clauses_at, closed_with, first_receiver, is_open_wait, is_spent, is_voided, kind_at,
    next_place, offer_at, owner_at, progress_at, queue_len,
};
use crate::list_spurns::index_behind;
use channel_model::{Kind, Party, Receiver, Resolution, Settled, Standing, outcome};
use co_base::{ChannelId, Place, Tag, Value, WaitId};

// ---- who stands first

fn is_signal(kind: Kind) -> bool
    ensures { result ≡ is_signal kind }
{
    matches!(kind, Kind::Signal)
}

/// The receiver that stands first, if it stands at this place.
fn receiver_at(channels: &Vec<ListChannel>, c: ChannelId, place: Place) -> Option<Receiver>
    requires { c < length channels.now.items }
    ensures answer { is_some result ≡ is_first_receiver place (channel_in channels.now.items c).receivers }
    ensures first { IfSome result (λ r. slice_get (channel_in channels.now.items c).receivers 0 ≡ Some r) }
    ensures place { IfSome result (λ r. r.place ≡ place) }
{
    let Some(receiver) = first_receiver(channels, c) else {
        return None;
    };
    if receiver.place == place {
        Some(receiver)
    } else {
        None
    }
}

/// Whether the offer that stands first stands at this place, with this element.
fn is_first_offer(channels: &Vec<ListChannel>, c: ChannelId, place: Place, value: Value) -> bool
    requires { c < length channels.now.items }
    ensures { result ≡ is_first_offer place value (channel_in channels.now.items c).queue }
{
    match offer_at(channels, c, 0) {
        Some(offer) => offer.place == place && offer.value == value,
        None => false,
    }
}

/// Whether the channel is open, has a place left, and gives out this one next.
fn gives_place(channels: &Vec<ListChannel>, c: ChannelId, place: Place) -> bool
    requires { c < length channels.now.items }
    ensures { result ≡ gives_place (places_in channels.now.items c) place (channel_in channels.now.items c) }
{
    closed_with(channels, c).is_none() && !is_spent(channels, c) && place == next_place(channels, c)
}

// ---- elements

/// The receiver to which an element may be handed at this place.
pub(crate) fn to_hand(
    kinds: &Vec<(Kind, u32)>,
    channels: &Vec<ListChannel>,
    c: ChannelId,
    place: Place,
) -> Option<Receiver>
    requires { AreOf kinds.now.items channels.now.items }
    ensures answer { (who value : ℕ) → is_some result ≡ may_in kinds.now.items channels.now.items who (Hand c place value) }
    ensures first { IfSome result (λ r. slice_get (channel_in channels.now.items c).receivers 0 ≡ Some r) }
    ensures place { IfSome result (λ r. r.place ≡ place) }
{
    if kinds.len() <= c as usize {
        return None;
    }
    if is_signal(kind_at(kinds, c)) {
        return None;
    }
    receiver_at(channels, c, place)
}

/// Whether an element may be put at this place.
pub(crate) fn may_put(
    kinds: &Vec<(Kind, u32)>,
    channels: &Vec<ListChannel>,
    c: ChannelId,
    place: Place,
) -> bool
    requires { AreOf kinds.now.items channels.now.items }
    ensures { (who value : ℕ) → result ≡ may_in kinds.now.items channels.now.items who (Put c place value) }
{
    if kinds.len() <= c as usize {
        return false;
    }
    if !gives_place(channels, c, place) {
        return false;
    }
    if first_receiver(channels, c).is_some() {
        return false;
    }
    !kind_at(kinds, c).is_full(queue_len(channels, c))
}

/// Whether the first offer may be taken, at this place and with this element.
pub(crate) fn may_take(
    kinds: &Vec<(Kind, u32)>,
    channels: &Vec<ListChannel>,
    c: ChannelId,
    place: Place,
    value: Value,
) -> bool
    requires { AreOf kinds.now.items channels.now.items }
    ensures { (who : ℕ) → result ≡ may_in kinds.now.items channels.now.items who (Take c place value) }
{
    if kinds.len() <= c as usize {
        return false;
    }
    is_first_offer(channels, c, place, value)
}

/// Whether so many offers are more than the kind keeps, which drops its oldest.
fn drops(kind: Kind, count: usize) -> bool
    ensures { result ≡ drops kind count }
{
    match kind.drops_beyond() {
        Some(capacity) => (capacity as usize) < count,
        None => false,
    }
}

/// Whether the first offer may be dropped, at this place and with this element.
pub(crate) fn may_drop(
    kinds: &Vec<(Kind, u32)>,
    channels: &Vec<ListChannel>,
    c: ChannelId,
    place: Place,
    value: Value,
) -> bool
    requires { AreOf kinds.now.items channels.now.items }
    ensures { (who : ℕ) → result ≡ may_in kinds.now.items channels.now.items who (Drop c place value) }
{
    if kinds.len() <= c as usize {
        return false;
    }
    if !drops(kind_at(kinds, c), queue_len(channels, c)) {
        return false;
    }
    is_first_offer(channels, c, place, value)
}

/// Whether the first offer of a cancelled channel may be removed, at this place and with this element.
pub(crate) fn may_drain(
    kinds: &Vec<(Kind, u32)>,
    channels: &Vec<ListChannel>,
    c: ChannelId,
    place: Place,
    value: Value,
) -> bool
    requires { AreOf kinds.now.items channels.now.items }
    ensures { (who : ℕ) → result ≡ may_in kinds.now.items channels.now.items who (Drain c place value) }
{
    if kinds.len() <= c as usize {
        return false;
    }
    if !is_voided(channels, c) {
        return false;
    }
    is_first_offer(channels, c, place, value)
}

// ---- places

/// A held offer that may be kept: where it stands in its queue, and who waits with it.
#[derive(Clone, Copy)]
pub(crate) struct Admission {
    pub(crate) index: usize,
    pub(crate) offer: Standing,
    pub(crate) party: Party,
}

/// The offer at this place, if it may be kept.
pub(crate) fn to_admit(
    kinds: &Vec<(Kind, u32)>,
    channels: &Vec<ListChannel>,
    c: ChannelId,
    place: Place,
) -> Option<Admission>
    requires of { AreOf kinds.now.items channels.now.items }
    requires order { AllInOrder channels.now.items }
    ensures answer { (who : ℕ) → is_some result ≡ may_in kinds.now.items channels.now.items who (Admit c place) }
    ensures at { IfSome result (λ a. slice_get (channel_in channels.now.items c).queue a.index ≡ Some a.offer) }
    ensures held { IfSome result (λ a. a.offer.holder ≡ Some a.party) }
    ensures place { IfSome result (λ a. a.offer.place ≡ place) }
{
    if kinds.len() <= c as usize {
        return None;
    }
    let Some(index) = index_behind(channels, c, place, 0) else {
        return None;
    };
    admission_at(kind_at(kinds, c), channels, c, index)
}

/// The offer at this index, if it is held and the kind keeps it there.
fn admission_at(
    kind: Kind,
    channels: &Vec<ListChannel>,
    c: ChannelId,
    index: usize,
) -> Option<Admission>
    requires channel { c < length channels.now.items }
    requires within { index < length (channel_in channels.now.items c).queue }
    ensures answer { (o : AStanding) → slice_get (channel_in channels.now.items c).queue index ≡ Some o
        → is_some result ≡ (is_some o.holder && not (is_full kind index)) }
    ensures at { IfSome result (λ a. slice_get (channel_in channels.now.items c).queue a.index ≡ Some a.offer) }
    ensures held { IfSome result (λ a. a.offer.holder ≡ Some a.party) }
    ensures index { IfSome result (λ a. a.index ≡ index) }
{
    let Some(offer) = offer_at(channels, c, index) else {
        return None;
    };
    let Some(party) = offer.holder else {
        return None;
    };
    if kind.is_full(index) {
        return None;
    }
    Some(Admission {
        index,
        offer,
        party,
    })
}

/// Where the offer at this place stands in the queue, if it stands there with this element.
pub(crate) fn index_of(
    channels: &Vec<ListChannel>,
    c: ChannelId,
    place: Place,
    value: Value,
) -> Option<usize>
    requires channel { c < length channels.now.items }
    requires order { AllInOrder channels.now.items }
    ensures answer { is_some result ≡ is_offer_at place value (channel_in channels.now.items c).queue }
    ensures at { IfSome result (λ i. IsBehind 0 place i (channel_in channels.now.items c).queue) }
{
    let Some(index) = index_behind(channels, c, place, 0) else {
        return None;
    };
    let Some(offer) = offer_at(channels, c, index) else {
        return None;
    };
    if offer.value == value {
        Some(index)
    } else {
        None
    }
}

// ---- closing

/// Whether the channel may be closed.
pub(crate) fn may_close(kinds: &Vec<(Kind, u32)>, channels: &Vec<ListChannel>, c: ChannelId) -> bool
    requires { AreOf kinds.now.items channels.now.items }
    ensures { (who value : ℕ) → result ≡ may_in kinds.now.items channels.now.items who (Close c value) }
{
    if kinds.len() <= c as usize {
        return false;
    }
    closed_with(channels, c).is_none()
}

/// Whether the channel may be cancelled.
pub(crate) fn may_void(kinds: &Vec<(Kind, u32)>, channels: &Vec<ListChannel>, c: ChannelId) -> bool
    requires { AreOf kinds.now.items channels.now.items }
    ensures { (who : ℕ) → result ≡ may_in kinds.now.items channels.now.items who (Void c) }
{
    if kinds.len() <= c as usize {
        return false;
    }
    closed_with(channels, c).is_some() && !is_voided(channels, c)
}

/// The receiver that may be told of the close at this place.
pub(crate) fn to_wake(
    kinds: &Vec<(Kind, u32)>,
    channels: &Vec<ListChannel>,
    c: ChannelId,
    place: Place,
) -> Option<Receiver>
    requires { AreOf kinds.now.items channels.now.items }
    ensures answer { (who : ℕ) → is_some result ≡ may_in kinds.now.items channels.now.items who (WakeClosed c place) }
    ensures first { IfSome result (λ r. slice_get (channel_in channels.now.items c).receivers 0 ≡ Some r) }
{
    if kinds.len() <= c as usize {
        return None;
    }
    if closed_with(channels, c).is_none() {
        return None;
    }
    receiver_at(channels, c, place)
}

// ---- waits

fn is_wait(slot: &ListSlot) -> bool
    ensures { result ≡ is_some (wait_of_slot slot.now) }
{
    !matches!(slot, ListSlot::Nobody)
}

/// Whether a wait began at this place of the channel.
fn began_in(channel: &ListChannel, place: Place) -> bool
    ensures { result ≡ is_some (wait_in_channel (Some channel.now) place) }
{
    (place as usize) < channel.slots.len() && is_wait(&channel.slots[place as usize])
}

/// Whether the wait began.
pub(crate) fn began(channels: &Vec<ListChannel>, w: WaitId) -> bool
    ensures { result ≡ is_some (wait_in channels.now.items w) }
{
    (w.channel as usize) < channels.len() && began_in(&channels[w.channel as usize], w.place)
}

/// Whether this coroutine may withdraw the wait.
pub(crate) fn may_withdraw(channels: &Vec<ListChannel>, who: Tag, w: WaitId) -> bool
    ensures { result ≡ is_open_of who (wait_in channels.now.items w) }
{
    if !began(channels, w) {
        return false;
    }
    owner_at(channels, w) == who && is_open_wait(channels, w)
}

fn same_settled(one: Settled, other: Settled) -> bool
    ensures { result ≡ same_settled one other }
{
    match (one, other) {
        (Settled::Value(k, v), Settled::Value(j, u)) => k == j && v == u,
        (Settled::Sent(k), Settled::Sent(j)) => k == j,
        (Settled::Closed(k, v), Settled::Closed(j, u)) => k == j && v == u,
        (Settled::Cancelled, Settled::Cancelled) => true,
        (Settled::Undelivered(v), Settled::Undelivered(u)) => v == u,
        _ => false,
    }
}

/// Whether the Job was cancelled before a wait that was so resolved ended so, if it may end so.
fn cancelled_before(outcome_told: Settled, how: Resolution) -> Option<bool>
    ensures answer { is_some result ≡ is_outcome outcome_told (Some how) }
    ensures by { IfSome result (λ b. outcome_of how b ≡ outcome_told) }
{
    if same_settled(outcome_told, outcome(how, false)) {
        return Some(false);
    }
    if same_settled(outcome_told, outcome(how, true)) {
        Some(true)
    } else {
        None
    }
}

/// The same of a wait that is so far.
fn cancelled_at(outcome_told: Settled, progress: Progress) -> Option<bool>
    ensures answer { is_some result ≡ (is_none (settled_of progress) && is_outcome outcome_told (resolution_of progress)) }
    ensures by { IfSome result (λ b. outcome_of_some b (resolution_of progress) ≡ Some outcome_told) }
{
    match progress {
        Progress::Resolved(how) => cancelled_before(outcome_told, how),
        Progress::Standing | Progress::Settled(_, _) => None,
    }
}

/// Whether the Job of this coroutine was cancelled before its wait ended so, if the wait may end so.
pub(crate) fn to_settle(
    channels: &Vec<ListChannel>,
    who: Tag,
    w: WaitId,
    outcome_told: Settled,
) -> Option<bool>
    ensures answer { is_some result ≡ may_settle who outcome_told (wait_in channels.now.items w) }
    ensures by { IfSome result (λ b. outcome_at b (wait_in channels.now.items w) ≡ Some outcome_told) }
{
    if !began(channels, w) {
        return None;
    }
    if owner_at(channels, w) != who {
        return None;
    }
    cancelled_at(outcome_told, progress_at(channels, w))
}

// ---- clauses

/// Whether the first of these clauses is that of a select.
fn is_of_select(clauses: &[ListClause]) -> bool
    ensures { result ≡ began_by_select (map clause_of clauses.now) }
{
    match clauses {
        [] => false,
        [first, ..] => 0 < first.number,
    }
}

/// Whether a wait with these clauses may have one more, of this number at this channel.
fn has_room_for(clauses: &[ListClause], clause: u8, c: ChannelId) -> bool
    ensures { result ≡ (not (list_any (λ y. y.1 == c) (map clause_of clauses.now))
        && (not (list_any (λ y. y.0 == clause) (map clause_of clauses.now))
        && (nat_le 1 clause && nat_le clause 7))) }
{
    for one in clauses {
        if one.channel == c {
            return false;
        }
        if one.number == clause {
            return false;
        }
    }
    1 <= clause && clause <= 7
}

fn is_settled(progress: Progress) -> bool
    ensures { result ≡ not (is_none (settled_of progress)) }
{
    matches!(progress, Progress::Settled(_, _))
}

/// Whether the wait may have this coroutine's clause as one more.
fn may_join(channels: &Vec<ListChannel>, who: Tag, clause: u8, c: ChannelId, w: WaitId) -> bool
    ensures { result ≡ may_join who clause c (wait_in channels.now.items w) }
{
    if !began(channels, w) {
        return false;
    }
    let clauses = clauses_at(channels, w);
    owner_at(channels, w) == who
        && is_of_select(clauses)
        && !is_settled(progress_at(channels, w))
        && has_room_for(clauses, clause, c)
}

/// Whether the wait has the name of this place.
pub(crate) fn is_named(w: WaitId, c: ChannelId, place: Place) -> bool
    ensures { result ≡ same_wait w (named c place) }
{
    w == (WaitId { channel: c, place })
}

/// Whether a clause at this place may name the wait.
fn may_name(
    channels: &Vec<ListChannel>,
    who: Tag,
    clause: u8,
    c: ChannelId,
    place: Place,
    w: WaitId,
) -> bool
    ensures { (stood : ℕ → ℕ → ℕ) → result ≡ may_name who clause c place w (state_in stood channels.now.items) }
{
    if w.channel == c && w.place == place {
        clause <= 7
    } else {
        may_join(channels, who, clause, c, w)
    }
}

/// Whether a clause of this coroutine may offer an element at this place.
pub(crate) fn may_offer(
    kinds: &Vec<(Kind, u32)>,
    channels: &Vec<ListChannel>,
    who: Tag,
    clause: u8,
    c: ChannelId,
    place: Place,
    main: WaitId,
) -> bool
    requires { AreOf kinds.now.items channels.now.items }
    ensures { (value : ℕ) → result ≡ may_in kinds.now.items channels.now.items who (Offer c place value main clause) }
{
    if kinds.len() <= c as usize {
        return false;
    }
    if !gives_place(channels, c, place) {
        return false;
    }
    if first_receiver(channels, c).is_some() {
        return false;
    }
    kind_at(kinds, c).suspends() && may_name(channels, who, clause, c, place, main)
}

/// Whether a clause of this coroutine may wait for an element at this place.
pub(crate) fn may_await(
    kinds: &Vec<(Kind, u32)>,
    channels: &Vec<ListChannel>,
    who: Tag,
    clause: u8,
    c: ChannelId,
    place: Place,
    main: WaitId,
) -> bool
    requires { AreOf kinds.now.items channels.now.items }
    ensures { result ≡ may_in kinds.now.items channels.now.items who (Await c place main clause) }
{
    if kinds.len() <= c as usize {
        return false;
    }
    if !gives_place(channels, c, place) {
        return false;
    }
    if queue_len(channels, c) != 0 {
        return false;
    }
    may_name(channels, who, clause, c, place, main)
}
