//! What calls can tell of a list floor, as numbers: floors with equal numbers answer equal calls alike.
//!
//! A wait is named by its coroutine, and a place by the offers and receivers before it. Waits that are settled are left out.

use crate::list_channel::{ListChannel, ListSlot, Progress};
use crate::list_floor::ListFloor;
use channel_model::{Party, Resolution, Standing, Why};
use co_base::{Memory, Value, WaitId};

/// A channel with fewer places tells how many were given out. One with more is taken to have places left.
const MANY_PLACES: u32 = 16384;

impl ListFloor {
    /// Adds the numbers of all channels.
    pub fn push_key(&self, out: &mut Vec<u64>) -> Result<(), Memory> {
        let channels = self.channels.as_slice();
        let mut held = true;
        for channel in channels {
            held = held & add_channel(out, channels, channel);
        }
        if_held(held)
    }

    /// Whether a wait was neither resolved nor settled.
    pub fn is_standing(&self, w: WaitId) -> bool {
        matches!(
            progress_in(self.channels.as_slice(), w),
            Some(Progress::Standing)
        )
    }

    /// The clause at which a wait was resolved, if it was at one; also behind its end.
    pub fn clause_of(&self, w: WaitId) -> Option<u8> {
        match progress_in(self.channels.as_slice(), w) {
            Some(Progress::Resolved(how) | Progress::Settled(_, how)) => clause_by(how),
            Some(Progress::Standing) | None => None,
        }
    }

    /// Adds the numbers of a wait: whether it was resolved, and how.
    pub fn push_wait_key(&self, out: &mut Vec<u64>, w: WaitId) -> Result<(), Memory> {
        let held = match progress_in(self.channels.as_slice(), w) {
            Some(Progress::Resolved(how)) => add_resolution(out, how),
            Some(Progress::Standing) => add_all(out, &[0]),
            Some(Progress::Settled(_, _)) | None => add_all(out, &[1]),
        };
        if_held(held)
    }
}

/// Adds these numbers, and says whether memory held them all.
pub(crate) fn add_all(out: &mut Vec<u64>, numbers: &[u64]) -> bool {
    let mut held = true;
    for number in numbers {
        held = held & out.push(*number).is_ok();
    }
    held
}

/// The answer where memory held all numbers, or did not.
pub(crate) fn if_held(held: bool) -> Result<(), Memory> {
    if held { Ok(()) } else { Err(Memory) }
}

fn clause_by(how: Resolution) -> Option<u8> {
    match how {
        Resolution::Handed(clause, _)
        | Resolution::Taken(clause)
        | Resolution::Admitted(clause)
        | Resolution::Closed(clause, _) => Some(clause),
        Resolution::Withdrawn(_) | Resolution::Voided => None,
    }
}

fn add_resolution(out: &mut Vec<u64>, how: Resolution) -> bool {
    match how {
        Resolution::Handed(clause, value) => add_all(
            out,
            &[2, u64::from(clause), u64::from(value)],
        ),
        Resolution::Taken(clause) => add_all(out, &[3, u64::from(clause)]),
        Resolution::Admitted(clause) => add_all(out, &[4, u64::from(clause)]),
        Resolution::Closed(clause, value) => add_all(
            out,
            &[5, u64::from(clause), u64::from(value)],
        ),
        Resolution::Withdrawn(Why::Cancelled) => add_all(out, &[6]),
        Resolution::Withdrawn(Why::Revoked) => add_all(out, &[7]),
        Resolution::Voided => add_all(out, &[8]),
    }
}

/// Adds the numbers of a channel. No part asks whether memory held the part before.
fn add_channel(out: &mut Vec<u64>, channels: &[ListChannel], channel: &ListChannel) -> bool {
    let mut held = add_closed(out, channel.closed) & add_all(out, &[u64::from(channel.voided)]);
    if channel.places < MANY_PLACES {
        held = held & add_all(out, &[channel.slots.len() as u64]);
    }
    held = held & add_all(out, &[channel.queue.len() as u64]);
    for standing in channel.queue.iter() {
        held = held & add_offer(out, channels, *standing);
    }
    held = held & add_all(out, &[channel.receivers.len() as u64]);
    for receiver in channel.receivers.iter() {
        held = held & add_party(out, channels, receiver.party);
    }
    held
}

/// Adds the numbers of the value with which a channel was closed, if it was.
fn add_closed(out: &mut Vec<u64>, closed: Option<Value>) -> bool {
    match closed {
        Some(value) => add_all(out, &[1, u64::from(value)]),
        None => add_all(out, &[0]),
    }
}

/// Adds the numbers of an offer: its value, and who waits with it.
fn add_offer(out: &mut Vec<u64>, channels: &[ListChannel], standing: Standing) -> bool {
    let held = add_all(out, &[u64::from(standing.value)]);
    match standing.holder {
        Some(party) => held & add_party(out, channels, party),
        None => held & add_all(out, &[0]),
    }
}

/// Adds the numbers of one side of a wait: whose it is, and the clause.
fn add_party(out: &mut Vec<u64>, channels: &[ListChannel], party: Party) -> bool {
    let owner = owner_in(channels, party.wait).saturating_add(1);
    add_all(out, &[owner, u64::from(party.clause)])
}

/// The slot of a wait, if it is there.
fn slot_in(channels: &[ListChannel], w: WaitId) -> Option<&ListSlot> {
    let channel = channels.get(w.channel as usize)?;
    channel.slots.get(w.place as usize)
}

/// The coroutine of a wait.
fn owner_in(channels: &[ListChannel], w: WaitId) -> u64 {
    match slot_in(channels, w) {
        Some(ListSlot::One { owner, .. }) => u64::from(*owner),
        Some(ListSlot::Several(select)) => u64::from(select.owner),
        Some(ListSlot::Nobody) | None => 0,
    }
}

/// How far a wait is.
fn progress_in(channels: &[ListChannel], w: WaitId) -> Option<Progress> {
    match slot_in(channels, w) {
        Some(ListSlot::One { progress, .. }) => Some(*progress),
        Some(ListSlot::Several(select)) => Some(select.progress),
        Some(ListSlot::Nobody) | None => None,
    }
}
