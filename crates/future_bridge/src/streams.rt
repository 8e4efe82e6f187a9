//! A channel as a stream: what it has.
ghost use Rattle.std.specs.Prelude.{◌≡◌, ◌<◌, length};
ghost use Rattle.std.proofs.Props.{props};
ghost use Rattle.cell_words.specs.Hubs.{shape_of, IsOwn};
ghost use Rattle.cell_calls.specs.HubFloors.{hub_floor};
ghost use Rattle.future_bridge.specs.Gains.{HoldsAt};
ghost use Rattle.future_bridge.specs.Once.{HoldsAt-prop};
ghost use Rattle.future_bridge.specs.Stops.{StoppedAt};

use crate::receiving::Stopped;
use crate::stops::end_wait;
use cell_words::{Hub, Pass};
use co_base::{ChannelId, Place, Tag};

/// The elements of a channel, received one by one. It ends once the channel is closed and empty, and after the item `Err(Spent)`. One that
/// is dropped or stopped takes its wait back; an element that came to it meanwhile is given up.
pub struct ReceiveStream<'a> {
    pub(crate) hub: &'a Hub,
    pub(crate) pass: Pass,
    pub(crate) who: Tag,
    pub(crate) c: ChannelId,
    /// The place of its receiver, while that did not end.
    pub(crate) wait: Option<Place>,
    pub(crate) ended: bool,
    pub ghost own: { IsOwn hub.now pass who } by { Prim.hlevel props },
    pub ghost channel: { c < length (shape_of hub.now) } by { Prim.hlevel props },
    pub ghost held: { HoldsAt who c (hub_floor hub.now pass) wait } by { HoldsAt-prop who c (hub_floor hub.now pass) wait },
}

impl ReceiveStream<'_> {
    /// Gives the pass back. A receiver that waits is taken back, and an element that came to it meanwhile is given up.
    pub fn stop(self) -> (Pass, Stopped)
        ensures stopped { StoppedAt self.entry.hub.now self.entry.pass self.entry.who self.entry.c self.entry.wait result.0 result.1 }
    {
        let ReceiveStream {
            hub,
            mut pass,
            who,
            c,
            wait,
            ended: _,
        } = self;
        match wait {
            None => (pass, Stopped::Idle),
            Some(place) => {
                let stopped = end_wait(hub, &mut pass, who, c, place);
                (pass, stopped)
            }
        }
    }

    /// Gives the pass back of a stream that does not wait.
    pub(crate) fn into_pass(self) -> Pass
        ensures { result ≡ self.entry.pass }
    {
        let ReceiveStream {
            hub: _,
            pass,
            who: _,
            c: _,
            wait: _,
            ended: _,
        } = self;
        pass
    }
}

impl Drop for ReceiveStream<'_> {
    fn drop(self) {
        self.stop();
    }
}
