//! Whether a note holds.

ghost use Rattle.std.specs.Prelude.{◌≡◌, slice_index_or};
ghost use Rattle.std.specs.Bool.{Decides};
ghost use Rattle.channel_model.specs.declared.acts.Kind.TheVariants.{Signal};
ghost use Rattle.channel_model.specs.declared.acts.ChannelNote.TheVariants.{Made};
ghost use Rattle.channel_model.specs.Histories.{replay};
ghost use Rattle.note_book.specs.Items.{channel_act};
ghost use Rattle.call_meaning.specs.Facts.{ChannelNoteHolds};
ghost use Rattle.one_thread_floor.specs.ListFloors.{floor_of};
ghost use Rattle.history_check.specs.Steps.{handed_at, is_value, listed, shows_closed, shows_drained, shows_empty, shows_full, shows_spent};

use channel_model::{Act, ChannelNote, Kind};
use co_base::{ChannelId, Value};
use one_thread_floor::{ListFloor, Snapshot};

/// The kind and the places of a channel.
pub(crate) fn kind_of(kinds: &[(Kind, u32)], c: ChannelId) -> (Kind, u32)
    ensures { result ≡ slice_index_or kinds.now c (Signal, 0) }
{
    if (c as usize) < kinds.len() {
        kinds[c as usize]
    } else {
        (Kind::Signal, 0)
    }
}

fn is_value(v: Value, value: Option<Value>) -> bool
    ensures { result ≡ is_value v value }
{
    match value {
        Some(x) => x == v,
        None => false,
    }
}

fn shows_closed(v: Value, shown: &Snapshot) -> bool
    ensures { result ≡ shows_closed v shown.now }
{
    is_value(v, shown.closed)
}

fn shows_drained(v: Value, shown: &Snapshot) -> bool
    ensures { result ≡ shows_drained v shown.now }
{
    is_value(v, shown.closed) && shown.queued == 0
}

fn shows_empty(shown: &Snapshot) -> bool
    ensures { result ≡ shows_empty shown.now }
{
    shown.closed.is_none() && shown.queued == 0
}

fn shows_full(kind: Kind, shown: &Snapshot) -> bool
    ensures { result ≡ shows_full kind shown.now }
{
    kind.suspends()
        && shown.closed.is_none()
        && shown.first_receiver.is_none()
        && kind.is_full(shown.queued)
}

fn shows_spent(places: u32, shown: &Snapshot) -> bool
    ensures { result ≡ shows_spent places shown.now }
{
    shown.closed.is_none() && shown.next == places
}

/// The channel at which an act hands an element.
fn handed_at(act: &Act) -> Option<ChannelId>
    ensures { result ≡ handed_at act.now }
{
    match *act {
        Act::Hand { c, .. } => Some(c),
        _ => None,
    }
}

/// Whether what a note of an act says holds: an element is handed while the channel is open.
fn act_holds(floor: &ListFloor, kinds: &[(Kind, u32)], act: &Act) -> bool
    ensures { Decides result (ChannelNoteHolds kinds.now (Made act.now) (replay (floor_of floor.now).seen)) }
{
    match handed_at(act) {
        Some(c) => floor.snapshot(c).closed.is_none(),
        None => true,
    }
}

/// Whether a note holds.
pub(crate) fn note_holds(floor: &ListFloor, kinds: &[(Kind, u32)], note: &ChannelNote) -> bool
    ensures { Decides result (ChannelNoteHolds kinds.now note.now (replay (floor_of floor.now).seen)) }
{
    match *note {
        ChannelNote::Made(act) => act_holds(floor, kinds, &act),
        ChannelNote::SendClosed { c, v, .. } => shows_closed(v, &floor.snapshot(c)),
        ChannelNote::TrySendClosed { c, v, .. } => shows_closed(v, &floor.snapshot(c)),
        ChannelNote::AlreadyClosed { c, v } => shows_closed(v, &floor.snapshot(c)),
        ChannelNote::ReceiveClosed { c, v } => shows_drained(v, &floor.snapshot(c)),
        ChannelNote::TryReceiveClosed { c, v } => shows_drained(v, &floor.snapshot(c)),
        ChannelNote::Full { c, .. } => {
            let kind = kind_of(kinds, c);
            shows_full(kind.0, &floor.snapshot(c))
        }
        ChannelNote::Empty { c } => shows_empty(&floor.snapshot(c)),
        ChannelNote::Spent { c } => {
            let kind = kind_of(kinds, c);
            shows_spent(kind.1, &floor.snapshot(c))
        }
        ChannelNote::Partner { c, place } => floor.stands_at(c, place),
        ChannelNote::MainResolved { w } => floor.is_resolved(w),
        ChannelNote::Late { w } => floor.is_resolved(w),
    }
}

/// The act of a note, if it is of one.
pub(crate) fn act_of(note: &ChannelNote) -> Option<Act>
    ensures { listed result ≡ channel_act note.now }
{
    match *note {
        ChannelNote::Made(act) => Some(act),
        _ => None,
    }
}

/// The channel of an act.
fn channel_of_act(act: &Act) -> ChannelId {
    match *act {
        Act::Hand { c, .. }
        | Act::Put { c, .. }
        | Act::Offer { c, .. }
        | Act::Await { c, .. }
        | Act::Take { c, .. }
        | Act::Admit { c, .. }
        | Act::Drop { c, .. }
        | Act::Spurn { c, .. }
        | Act::Close { c, .. }
        | Act::Void { c }
        | Act::Drain { c, .. }
        | Act::WakeClosed { c, .. } => c,
        Act::Withdraw { w, .. } | Act::Settle { w, .. } => w.channel,
    }
}

/// The channel that a note speaks of.
pub(crate) fn channel_of(note: &ChannelNote) -> ChannelId {
    match *note {
        ChannelNote::Made(act) => channel_of_act(&act),
        ChannelNote::SendClosed { c, .. }
        | ChannelNote::TrySendClosed { c, .. }
        | ChannelNote::ReceiveClosed { c, .. }
        | ChannelNote::TryReceiveClosed { c, .. }
        | ChannelNote::AlreadyClosed { c, .. }
        | ChannelNote::Full { c, .. }
        | ChannelNote::Empty { c }
        | ChannelNote::Spent { c }
        | ChannelNote::Partner { c, .. } => c,
        ChannelNote::MainResolved { w } | ChannelNote::Late { w } => w.channel,
    }
}
