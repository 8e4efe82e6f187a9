//! A channel of owned values as a sink: what it has.
ghost use Rattle.std.specs.Prelude.{◌≡◌, ◌<◌};
ghost use Rattle.std.proofs.Props.{props};
ghost use Rattle.parcel_channel.specs.Hubs.{IsOf, SamePass};
ghost use Rattle.waiting.specs.Once.{HoldsAt-prop};
ghost use Rattle.waiting.specs.Stands.{HoldsAt};
ghost use Rattle.waiting.specs.Stops.{StopsAt};

use crate::calls::SendFault;
use crate::stops::stop_at;
use co_base::WaitId;
use parcel_channel::{ParcelHub, ParcelPass};
use ring_bridge::Bells;

/// What became of the value that waited.
pub(crate) enum Flushed<T> {
    /// It was sent, or there was none.
    Done,
    Waits,
    Failed(SendFault<T>),
}

/// Sends to a channel, one value after another. To close the sink does not close the channel. One that is dropped or stopped takes its
/// wait back.
pub struct ParcelSink<'a, T> {
    pub(crate) hub: &'a ParcelHub<T>,
    pub(crate) bells: &'a Bells,
    pub(crate) pass: ParcelPass<T>,
    /// Its wait, while that did not end.
    pub(crate) wait: Option<WaitId>,
    pub ghost of: { IsOf hub.now pass } by { Prim.hlevel props },
    pub ghost low: { pass.tag < 63 },
    pub ghost held: { HoldsAt hub.now pass wait } by { HoldsAt-prop hub.now pass wait },
}

impl<T: Drop> ParcelSink<'_, T> {
    /// Gives the pass back, which waits no more, and the value that was not sent, if one waited.
    pub fn stop(self) -> (ParcelPass<T>, Option<T>)
        ensures of { IsOf self.entry.hub.now result.0 }
        ensures same { SamePass self.entry.pass result.0 }
        ensures stopped { StopsAt self.entry.wait self.entry.hub.now self.entry.pass result.0 result.1 }
    {
        let ParcelSink {
            hub,
            bells: _,
            mut pass,
            wait,
        } = self;
        let value = stop_at(hub, &mut pass, wait);
        (pass, value)
    }
}

impl<T: Drop> Drop for ParcelSink<'_, T> {
    fn drop(self) {
        self.stop();
    }
}
