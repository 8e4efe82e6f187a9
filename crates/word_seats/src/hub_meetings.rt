//! How seats at a hub are split, met and ended.

ghost use Rattle.std.specs.Prelude.{◌≡◌, false, ◌∷◌};
ghost use Rattle.cell_calls.specs.HubFloors.{hub_floor};
ghost use Rattle.joined_words.specs.Parts.{tag_in};
ghost use Rattle.word_rules.specs.Deeds.{shape_of};
ghost use Rattle.job_words.specs.Forests.{seen_by};
ghost use Rattle.job_words.specs.Passes.{floor_seen};
ghost use Rattle.word_seats.specs.Names.{IsNamedForest};
ghost use Rattle.word_seats.specs.Seats.{hub_anchor, hub_may_act, may_act_beside, IsNewFloor, IsNewBeside};

use crate::forest_seat::ForestSeat;
use crate::hub_seat::HubSeat;
use crate::names::TableName;
use co_base::Tag;
use job_words::Forest;
use shared_floors::SharedChannels;
use std::marker::PhantomData;

impl<'a, N: TableName> HubSeat<'a, N> {
    /// A seat of a tag under which nobody could act before. It has seen what this one has seen.
    pub fn split(&mut self, tag: Tag) -> HubSeat<'a, N>
        requires { hub_may_act (hub_anchor self.old.hub.now self.old.pass) tag ≡ false }
        ensures same { hub_floor self.new.hub.now self.new.pass ≡ hub_floor self.old.hub.now self.old.pass }
        ensures gives { hub_anchor self.new.hub.now self.new.pass ≡ record (hub_anchor self.old.hub.now self.old.pass) {
          given = tag ∷ (hub_anchor self.old.hub.now self.old.pass).given;
          given_all = tag_in 0 tag ∷ (hub_anchor self.old.hub.now self.old.pass).given_all;
        } }
        ensures seat { IsNewFloor tag (hub_floor self.old.hub.now self.old.pass) (hub_floor result.hub.now result.pass) }
    {
        HubSeat {
            hub: self.hub,
            pass: self.hub.split(&mut self.pass, tag),
            name: PhantomData,
        }
    }

    /// A seat at a forest of the same table, of a tag under which nobody could call Jobs before.
    pub fn split_beside(&mut self, forest: &'a Forest, tag: Tag) -> ForestSeat<'a, N>
        requires forest { IsNamedForest N.table N.table_key forest.now }
        requires new { may_act_beside (hub_anchor self.old.hub.now self.old.pass) tag ≡ false }
        ensures same { hub_floor self.new.hub.now self.new.pass ≡ hub_floor self.old.hub.now self.old.pass }
        ensures gives { hub_anchor self.new.hub.now self.new.pass ≡ record (hub_anchor self.old.hub.now self.old.pass) {
          given_all = tag_in 1 tag ∷ (hub_anchor self.old.hub.now self.old.pass).given_all;
        } }
        ensures shape { (floor_seen (seen_by result.pass)).shape ≡ shape_of forest.now.size }
        ensures seat { IsNewBeside tag (floor_seen (seen_by result.pass)) }
    {
        let seat = self.hub.split_beside(&mut self.pass, tag);
        ForestSeat {
            forest,
            pass: forest.pass(seat),
            name: PhantomData,
        }
    }
}

impl<N: TableName> SharedChannels for HubSeat<'_, N> {
    ghost use Rattle.word_seats.specs.Seats.{hub_may_act};

    ghost may_act = { hub_may_act };

    fn meet(&mut self, other: &mut Self) {
        self.hub.meet(&mut self.pass, &mut other.pass);
    }

    fn end(&mut self, other: Self) {
        let HubSeat {
            hub: _,
            pass,
            name: _,
        } = other;
        self.hub.end(&mut self.pass, pass);
    }
}
