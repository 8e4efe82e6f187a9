//! A channel of owned values as a stream: what it has.
ghost use Rattle.std.specs.Prelude.{◌≡◌, ◌<◌};
ghost use Rattle.std.proofs.Props.{props};
ghost use Rattle.parcel_channel.specs.Hubs.{IsOf, SamePass};
ghost use Rattle.waiting.specs.Once.{AwaitsAt-prop};
ghost use Rattle.waiting.specs.Stands.{AwaitsAt};
ghost use Rattle.waiting.specs.Stops.{StopsAt};

use crate::stops::stop_at;
use co_base::WaitId;
use parcel_channel::{ParcelHub, ParcelPass};
use ring_bridge::Bells;

/// The values of a channel, received one by one. It ends once the channel is closed and each value was received, and after a fault. One
/// that is dropped or stopped takes its wait back.
pub struct ParcelStream<'a, T> {
    pub(crate) hub: &'a ParcelHub<T>,
    pub(crate) bells: &'a Bells,
    pub(crate) pass: ParcelPass<T>,
    /// Its wait, while that did not end.
    pub(crate) wait: Option<WaitId>,
    pub(crate) ended: bool,
    pub ghost of: { IsOf hub.now pass } by { Prim.hlevel props },
    pub ghost low: { pass.tag < 63 },
    pub ghost held: { AwaitsAt hub.now pass wait } by { AwaitsAt-prop hub.now pass wait },
}

impl<T: Drop> ParcelStream<'_, T> {
    /// Gives the pass back, which waits no more, and the value that came to it meanwhile, if one did.
    pub fn stop(self) -> (ParcelPass<T>, Option<T>)
        ensures of { IsOf self.entry.hub.now result.0 }
        ensures same { SamePass self.entry.pass result.0 }
        ensures stopped { StopsAt self.entry.wait self.entry.hub.now self.entry.pass result.0 result.1 }
    {
        let ParcelStream {
            hub,
            bells: _,
            mut pass,
            wait,
            ended: _,
        } = self;
        let value = stop_at(hub, &mut pass, wait);
        (pass, value)
    }
}

impl<T: Drop> Drop for ParcelStream<'_, T> {
    fn drop(self) {
        self.stop();
    }
}
