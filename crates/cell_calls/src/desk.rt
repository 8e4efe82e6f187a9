//! The floor of channels over words, for one pass.
ghost use Rattle.std.proofs.Props.{props};
ghost use Rattle.cell_words.specs.Hubs.{IsOf};

use crate::{cancelling, ending, keeping, receiving, registering, sending, waiting};
use cell_words::{Hub, Pass};
use channel_model::{
    AlreadyClosed, ChannelFloor, Got, Offered, Registered, Settled, TriedGot, TriedOffer,
    WaitState, Why, Withdrawn,
};
use co_base::{ChannelId, Memory, Place, Tag, Value, WaitId};
use std::collections::LinkedList;

/// What never changes of a desk. No value of it is made.
pub struct DeskAnchor {
    pub hub: Hub,
    /// Which pass it is.
    pub name: u64,
    /// Whether the pass gives out tags, and those that it has given out.
    pub chief: bool,
    pub given: LinkedList<u64>,
    /// The same of both parts of the table.
    pub given_all: LinkedList<u64>,
}

/// Where the callers of one pass call. None of its calls waits, takes a lock or takes memory: who would have to wait is told the place of
/// its wait, and looks, settles or withdraws there.
#[derive(Drop)]
pub struct Desk<'a> {
    pub hub: &'a Hub,
    pub pass: &'a mut Pass,
    pub ghost of: { IsOf hub.now pass.now } by { Prim.hlevel props },
}

impl ChannelFloor for Desk<'_> {
    ghost use Rattle.std.specs.Prelude.{◌≡◌, OnOk, OnErr, IsOk};
    ghost use Rattle.channel_model.specs.Floors.{HasRoom};
    ghost use Rattle.cell_words.proofs.LooksAtCells.{hub_legal};
    ghost use Rattle.cell_calls.specs.Desks.{desk_floor, desk_anchor};

    ghost view = { desk_floor };

    type Anchor = DeskAnchor;

    ghost anchor = { desk_anchor };

    // Entries take no memory, so there always is room.
    fn room(&mut self, n: u32) -> Result<(), Memory>
        ensures anchor { desk_anchor self.new ≡ desk_anchor self.old }
        ensures ok { OnOk result (HasRoom n (desk_floor self.old) (desk_floor self.new)) }
        ensures err { OnErr result (desk_floor self.new ≡ desk_floor self.old) }
        ensures always { IsOk result }
    {
        Ok(())
    }

    fn offer(&mut self, who: Tag, c: ChannelId, value: Value) -> Offered {
        sending::offer(self.hub, self.pass, who, c, value)
    }

    fn try_offer(&mut self, who: Tag, c: ChannelId, value: Value) -> TriedOffer {
        sending::try_offer(self.hub, self.pass, who, c, value)
    }

    fn receive(&mut self, who: Tag, c: ChannelId) -> Got {
        receiving::receive(self.hub, self.pass, who, c)
    }

    fn try_receive(&mut self, who: Tag, c: ChannelId) -> TriedGot {
        receiving::try_receive(self.hub, self.pass, who, c)
    }

    fn register_offer(
        &mut self,
        who: Tag,
        main: Option<WaitId>,
        clause: u8,
        c: ChannelId,
        value: Value,
    ) -> Registered {
        registering::register_offer(self.hub, self.pass, who, main, clause, c, value)
    }

    fn register_receive(
        &mut self,
        who: Tag,
        main: Option<WaitId>,
        clause: u8,
        c: ChannelId,
    ) -> Registered {
        registering::register_receive(self.hub, self.pass, who, main, clause, c)
    }

    fn close(&mut self, who: Tag, c: ChannelId, v: Value) -> Result<(), AlreadyClosed> {
        ending::close(self.hub, self.pass, who, c, v)
    }

    fn wake_closed(&mut self, who: Tag, c: ChannelId) -> Option<(Place, Tag)> {
        ending::wake_closed(self.hub, self.pass, who, c)
    }

    fn void(&mut self, who: Tag, c: ChannelId) -> bool {
        cancelling::void(self.hub, self.pass, who, c)
    }

    fn drain(&mut self, who: Tag, c: ChannelId) -> Option<(Place, Value, Option<Tag>)> {
        cancelling::drain(self.hub, self.pass, who, c)
    }

    fn look(&mut self, who: Tag, w: WaitId) -> WaitState {
        waiting::look(self.hub, self.pass, who, w)
    }

    fn settle(&mut self, who: Tag, w: WaitId, cancelled: bool) -> Settled {
        waiting::settle(self.hub, self.pass, who, w, cancelled)
    }

    fn withdraw(&mut self, who: Tag, w: WaitId, why: Why) -> Withdrawn {
        waiting::withdraw(self.hub, self.pass, who, w, why)
    }

    fn mark(&mut self, who: Tag, c: ChannelId) -> Place {
        ending::mark(self.hub, self.pass, who, c)
    }

    fn admit(&mut self, who: Tag, c: ChannelId, mark: Place) -> Option<(Place, Tag)> {
        keeping::admit(self.hub, self.pass, who, c, mark)
    }

    fn trim(&mut self, who: Tag, c: ChannelId, mine: Place) -> Option<(Place, Value)> {
        keeping::trim(self.hub, self.pass, who, c, mine)
    }

    fn spurn(&mut self, who: Tag, c: ChannelId, mine: Place) -> Option<Value> {
        keeping::spurn(self.hub, self.pass, who, c, mine)
    }

    ghost legal = { λ s. hub_legal s.hub.now s.pass.now s.of };

    ghost shaped = { λ s. s.hub.now.sized.places };
}
