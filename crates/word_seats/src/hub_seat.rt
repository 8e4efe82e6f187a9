//! The floor of channels over words, for a pass of its own.
ghost use Rattle.std.proofs.Props.{props};
ghost use Rattle.cell_words.specs.Hubs.{IsOf};
ghost use Rattle.word_seats.specs.Names.{IsNamedHub};

use crate::names::TableName;
use cell_calls::Desk;
use cell_words::{Hub, Pass};
use channel_model::{
    AlreadyClosed, ChannelFloor, Got, Offered, Registered, Settled, TriedGot, TriedOffer,
    WaitState, Why, Withdrawn,
};
use co_base::{ChannelId, Memory, Place, Tag, Value, WaitId};
use std::collections::LinkedList;
use std::marker::PhantomData;

/// What never changes of a seat at a hub. No value of it is made.
pub struct HubSeatAnchor {
    pub hub: Hub,
    /// Whether the pass gives out tags, and those that it has given out.
    pub chief: bool,
    pub given: LinkedList<u64>,
    /// Those of both parts of the table that it has given out.
    pub given_all: LinkedList<u64>,
}

/// A pass with a hub on the table that `N` names: the floor of whoever keeps it.
#[derive(Drop)]
pub struct HubSeat<'a, N: TableName> {
    pub hub: &'a Hub,
    pub pass: Pass,
    pub name: PhantomData<N>,
    pub ghost of: { IsOf hub.now pass } by { Prim.hlevel props },
    pub ghost named: { IsNamedHub N.table N.table_key hub.now } by { Prim.hlevel props },
}

/// Lends the hub and the pass of a seat to a `Desk` for one call.
macro_rules! desk {
    ($seat:ident) => {
        Desk {
            hub: $seat.hub,
            pass: &mut $seat.pass,
        }
    };
}

impl<N: TableName> ChannelFloor for HubSeat<'_, N> {
    ghost use Rattle.std.specs.Prelude.{◌≡◌, OnOk, OnErr, IsOk};
    ghost use Rattle.channel_model.specs.Floors.{HasRoom};
    ghost use Rattle.cell_words.proofs.LooksAtCells.{hub_legal};
    ghost use Rattle.cell_calls.specs.HubFloors.{hub_floor};
    ghost use Rattle.word_seats.specs.Seats.{hub_anchor};

    ghost view = { λ s. hub_floor s.hub.now s.pass };

    type Anchor = HubSeatAnchor;

    ghost anchor = { λ s. hub_anchor s.hub.now s.pass };

    // Entries take no memory, so there always is room.
    fn room(&mut self, n: u32) -> Result<(), Memory>
        ensures anchor { hub_anchor self.new.hub.now self.new.pass ≡ hub_anchor self.old.hub.now self.old.pass }
        ensures ok { OnOk result (HasRoom n (hub_floor self.old.hub.now self.old.pass) (hub_floor self.new.hub.now self.new.pass)) }
        ensures err { OnErr result (hub_floor self.new.hub.now self.new.pass ≡ hub_floor self.old.hub.now self.old.pass) }
        ensures always { IsOk result }
    {
        Ok(())
    }

    fn offer(&mut self, who: Tag, c: ChannelId, value: Value) -> Offered {
        desk!(self).offer(who, c, value)
    }

    fn try_offer(&mut self, who: Tag, c: ChannelId, value: Value) -> TriedOffer {
        desk!(self).try_offer(who, c, value)
    }

    fn receive(&mut self, who: Tag, c: ChannelId) -> Got {
        desk!(self).receive(who, c)
    }

    fn try_receive(&mut self, who: Tag, c: ChannelId) -> TriedGot {
        desk!(self).try_receive(who, c)
    }

    fn register_offer(
        &mut self,
        who: Tag,
        main: Option<WaitId>,
        clause: u8,
        c: ChannelId,
        value: Value,
    ) -> Registered {
        desk!(self).register_offer(who, main, clause, c, value)
    }

    fn register_receive(
        &mut self,
        who: Tag,
        main: Option<WaitId>,
        clause: u8,
        c: ChannelId,
    ) -> Registered {
        desk!(self).register_receive(who, main, clause, c)
    }

    fn close(&mut self, who: Tag, c: ChannelId, v: Value) -> Result<(), AlreadyClosed> {
        desk!(self).close(who, c, v)
    }

    fn wake_closed(&mut self, who: Tag, c: ChannelId) -> Option<(Place, Tag)> {
        desk!(self).wake_closed(who, c)
    }

    fn void(&mut self, who: Tag, c: ChannelId) -> bool {
        desk!(self).void(who, c)
    }

    fn drain(&mut self, who: Tag, c: ChannelId) -> Option<(Place, Value, Option<Tag>)> {
        desk!(self).drain(who, c)
    }

    fn look(&mut self, who: Tag, w: WaitId) -> WaitState {
        desk!(self).look(who, w)
    }

    fn settle(&mut self, who: Tag, w: WaitId, cancelled: bool) -> Settled {
        desk!(self).settle(who, w, cancelled)
    }

    fn withdraw(&mut self, who: Tag, w: WaitId, why: Why) -> Withdrawn {
        desk!(self).withdraw(who, w, why)
    }

    fn mark(&mut self, who: Tag, c: ChannelId) -> Place {
        desk!(self).mark(who, c)
    }

    fn admit(&mut self, who: Tag, c: ChannelId, mark: Place) -> Option<(Place, Tag)> {
        desk!(self).admit(who, c, mark)
    }

    fn trim(&mut self, who: Tag, c: ChannelId, mine: Place) -> Option<(Place, Value)> {
        desk!(self).trim(who, c, mine)
    }

    fn spurn(&mut self, who: Tag, c: ChannelId, mine: Place) -> Option<Value> {
        desk!(self).spurn(who, c, mine)
    }

    ghost legal = { λ s. hub_legal s.hub.now s.pass s.of };

    ghost shaped = { λ s. s.hub.now.sized.places };
}
