//! What stands at a channel and at its places, and whether a wait was resolved, without a call of any coroutine.

ghost use Rattle.std.specs.Prelude.{◌≡◌};
ghost use Rattle.channel_model.specs.Histories.{replay};
ghost use Rattle.one_thread_floor.specs.ListFloors.{floor_of};
ghost use Rattle.one_thread_floor.specs.ListSnapshots.{Shows, is_resolved, stands_at};
ghost use Rattle.one_thread_floor.specs.ListStands.{channel_in, wait_in};

use crate::list_channel::ListChannel;
use crate::list_floor::ListFloor;
use crate::list_may::began;
use crate::list_queries::{
    closed_with, first_receiver, is_open_wait, next_place, offer_at, queue_len,
};
use crate::list_removal::stands_at;
use channel_model::{Receiver, Standing};
use co_base::{ChannelId, Place, Value, WaitId};

/// What stands at a channel.
#[derive(Clone, Copy)]
pub struct Snapshot {
    /// The place that is given out next.
    pub next: Place,
    /// How many offers are queued.
    pub queued: usize,
    pub first_offer: Option<Standing>,
    pub first_receiver: Option<Receiver>,
    /// The value with which the channel was closed.
    pub closed: Option<Value>,
}

/// What stands at a channel; nothing stands at one that there is not.
fn snapshot_in(channels: &Vec<ListChannel>, c: ChannelId) -> Snapshot
    ensures { Shows result (channel_in channels.now.items c) }
{
    if channels.len() <= c as usize {
        return Snapshot {
            next: 0,
            queued: 0,
            first_offer: None,
            first_receiver: None,
            closed: None,
        };
    }
    Snapshot {
        next: next_place(channels, c),
        queued: queue_len(channels, c),
        first_offer: offer_at(channels, c, 0),
        first_receiver: first_receiver(channels, c),
        closed: closed_with(channels, c),
    }
}

/// Whether a wait began and was resolved.
fn is_resolved_in(channels: &Vec<ListChannel>, w: WaitId) -> bool
    ensures { result ≡ is_resolved (wait_in channels.now.items w) }
{
    began(channels, w) && !is_open_wait(channels, w)
}

impl ListFloor {
    /// What stands at the channel, of which nothing stands at one that the floor does not have.
    pub fn snapshot(&self, c: ChannelId) -> Snapshot
        ensures { Shows result ((replay (floor_of self.now).seen).channels c) }
    {
        snapshot_in(&self.channels, c)
    }

    /// Whether a receiver or an offer stands at this place of the channel, of which nothing stands at one that the floor does not have.
    /// The place is found by halves.
    pub fn stands_at(&self, c: ChannelId, place: Place) -> bool
        ensures { result ≡ stands_at place ((replay (floor_of self.now).seen).channels c) }
    {
        if self.channels.len() <= c as usize {
            return false;
        }
        stands_at(&self.channels[c as usize], place)
    }

    /// Whether the wait began and was resolved.
    pub fn is_resolved(&self, w: WaitId) -> bool
        ensures { result ≡ is_resolved ((replay (floor_of self.now).seen).waits w) }
    {
        is_resolved_in(&self.channels, w)
    }
}
