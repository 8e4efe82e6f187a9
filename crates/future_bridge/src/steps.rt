//! One receive with what follows it, and one look at a wait.
ghost use Rattle.std.specs.Prelude.{◌<◌, length};
ghost use Rattle.cell_words.specs.Hubs.{shape_of, IsOwn, SameGiving};
ghost use Rattle.cell_calls.specs.HubFloors.{hub_floor};
ghost use Rattle.future_bridge.specs.Gains.{Stepped, AdmitsAll, AdmitsBelow, AwaitsLast};
ghost use Rattle.future_bridge.specs.Streams.{WaitStands};

use cell_calls::{admit, look, mark, receive, settle};
use cell_words::{Hub, Pass};
use channel_model::{Got, Settled, WaitState};
use co_base::{ChannelId, Place, Tag, Value, WaitId};

/// What one step of a receive came to.
pub(crate) enum Step {
    /// An element was received.
    Item(Value),
    /// The channel is closed with this value, and nothing is left of it.
    Ended(Value),
    /// The channel has no place left.
    Spent,
    /// The receive waits, at this place.
    Waits(Place),
}

/// Admits each offer that came before this call and for which the channel has room.
pub(crate) fn admit_all(hub: &Hub, pass: &mut Pass, who: Tag, c: ChannelId)
    requires own { IsOwn hub.now pass.old who }
    requires channel { c < length (shape_of hub.now) }
    ensures own { IsOwn hub.now pass.new who }
    ensures giving { SameGiving pass.old pass.new }
    ensures admits { AdmitsAll who c (hub_floor hub.now pass.old) (hub_floor hub.now pass.new) }
{
    let upto = mark(hub, pass, who, c);
    admit_below(hub, pass, who, c, upto);
}

/// Admits each offer below a mark for which the channel has room.
fn admit_below(hub: &Hub, pass: &mut Pass, who: Tag, c: ChannelId, upto: Place)
    requires own { IsOwn hub.now pass.old who }
    requires channel { c < length (shape_of hub.now) }
    ensures own { IsOwn hub.now pass.new who }
    ensures giving { SameGiving pass.old pass.new }
    ensures admits { AdmitsBelow who c upto (hub_floor hub.now pass.old) (hub_floor hub.now pass.new) }
{
    loop {
        let Some(_admitted) = admit(hub, pass, who, c, upto) else {
            return;
        };
    }
}

/// Receives the first element, and admits whoever may be admitted then; or waits for one.
fn receive_next(hub: &Hub, pass: &mut Pass, who: Tag, c: ChannelId) -> Step
    requires own { IsOwn hub.now pass.old who }
    requires channel { c < length (shape_of hub.now) }
    ensures own { IsOwn hub.now pass.new who }
    ensures giving { SameGiving pass.old pass.new }
    ensures stepped { Stepped None who c (hub_floor hub.now pass.old) (hub_floor hub.now pass.new) result }
{
    match receive(hub, pass, who, c) {
        Got::Taken(_place, value, _sender) => {
            admit_all(hub, pass, who, c);
            Step::Item(value)
        }
        Got::Waiting(place) => Step::Waits(place),
        Got::Closed(v) => Step::Ended(v),
        Got::Spent => Step::Spent,
    }
}

/// Looks at the own wait, and ends it if it was resolved.
fn look_again(hub: &Hub, pass: &mut Pass, who: Tag, c: ChannelId, place: Place) -> Step
    requires own { IsOwn hub.now pass.old who }
    requires channel { c < length (shape_of hub.now) }
    requires last { AwaitsLast who c place (hub_floor hub.now pass.old) }
    ensures own { IsOwn hub.now pass.new who }
    ensures giving { SameGiving pass.old pass.new }
    ensures stepped { Stepped (Some place) who c (hub_floor hub.now pass.old) (hub_floor hub.now pass.new) result }
{
    let w = WaitId { channel: c, place };
    match look(hub, pass, who, w) {
        WaitState::Standing => Step::Waits(place),
        WaitState::Settled => unreachable!(),
        WaitState::Resolved => match settle(hub, pass, who, w, false) {
            Settled::Value(_clause, value) => Step::Item(value),
            Settled::Closed(_clause, v) => Step::Ended(v),
            Settled::Sent(_clause) => unreachable!(),
            Settled::Cancelled => unreachable!(),
            Settled::Undelivered(_value) => unreachable!(),
        },
    }
}

/// One step: a receive if none waits, else a look at its wait.
pub(crate) fn step_on(
    hub: &Hub,
    pass: &mut Pass,
    who: Tag,
    c: ChannelId,
    wait: Option<Place>,
) -> Step
    requires own { IsOwn hub.now pass.old who }
    requires channel { c < length (shape_of hub.now) }
    requires wait { WaitStands who c (hub_floor hub.now pass.old) wait }
    ensures own { IsOwn hub.now pass.new who }
    ensures giving { SameGiving pass.old pass.new }
    ensures stepped { Stepped wait who c (hub_floor hub.now pass.old) (hub_floor hub.now pass.new) result }
{
    match wait {
        None => receive_next(hub, pass, who, c),
        Some(place) => look_again(hub, pass, who, c, place),
    }
}
