//! Acts that are told: each is made if it may come now.
//!
//! So a history can be followed that was made elsewhere. What an act costs is what the call costs that makes it.

ghost use Rattle.std.specs.Prelude.{◌≡◌, ◌<◌};
ghost use Rattle.channel_model.specs.declared.acts.Act.TheVariants.{Hand, Put, Offer, Await, Take, Admit, Drop, Spurn, Close, Void, Drain, WakeClosed, Withdraw, Settle};
ghost use Rattle.one_thread_floor.specs.ListFloors.{floor_of};
ghost use Rattle.one_thread_floor.specs.ListSteps.{Stepped, ToldOver, may_now, was_over};

use crate::list_admission::buffer_offer;
use crate::list_firsts::{pop_offer, resolve_first, resolve_holder, resolve_party};
use crate::list_floor::ListFloor;
use crate::list_may::{
    index_of, is_named, may_await, may_close, may_drain, may_drop, may_offer, may_put, may_take,
    may_void, may_withdraw, to_admit, to_hand, to_settle, to_wake,
};
use crate::list_queries::{closed_with, is_open_wait};
use crate::list_spurns::remove_offer;
use channel_model::{Act, ChannelFloor, Entry, Resolution, Settled, Why};
use co_base::{ChannelId, Place, Tag, Value, WaitId};

impl ListFloor {
    fn step_hand(&mut self, who: Tag, c: ChannelId, place: Place, value: Value) -> bool
        ensures kinds { self.new.kinds ≡ self.old.kinds }
        ensures answer { result ≡ may_now self.old who (Hand c place value) }
        ensures made { Stepped result who (Hand c place value) self.old self.new }
    {
        let Some(first) = to_hand(&self.kinds, &self.channels, c, place) else {
            return false;
        };
        let how = Resolution::Handed(first.party.clause, value);
        resolve_first(&mut self.channels, c, first, how);
        self.entries.push(&Entry {
            who,
            act: Act::Hand { c, place, value },
        });
        true
    }

    fn step_put(&mut self, who: Tag, c: ChannelId, place: Place, value: Value) -> bool
        requires room { 0 < (floor_of self.old).spare }
        ensures kinds { self.new.kinds ≡ self.old.kinds }
        ensures answer { result ≡ may_now self.old who (Put c place value) }
        ensures made { Stepped result who (Put c place value) self.old self.new }
    {
        if !may_put(&self.kinds, &self.channels, c, place) {
            return false;
        }
        self.put(who, c, value);
        true
    }

    fn step_take(&mut self, who: Tag, c: ChannelId, place: Place, value: Value) -> bool
        requires room { 0 < (floor_of self.old).spare }
        ensures kinds { self.new.kinds ≡ self.old.kinds }
        ensures answer { result ≡ may_now self.old who (Take c place value) }
        ensures made { Stepped result who (Take c place value) self.old self.new }
    {
        if !may_take(&self.kinds, &self.channels, c, place, value) {
            return false;
        }
        self.take(who, c);
        true
    }

    fn step_admit(&mut self, who: Tag, c: ChannelId, place: Place) -> bool
        ensures kinds { self.new.kinds ≡ self.old.kinds }
        ensures answer { result ≡ may_now self.old who (Admit c place) }
        ensures made { Stepped result who (Admit c place) self.old self.new }
    {
        let Some(found) = to_admit(&self.kinds, &self.channels, c, place) else {
            return false;
        };
        buffer_offer(&mut self.channels, c, found.index, found.offer);
        let how = Resolution::Admitted(found.party.clause);
        resolve_party(&mut self.channels, c, found.party, how);
        self.entries.push(&Entry {
            who,
            act: Act::Admit { c, place },
        });
        true
    }

    fn step_drop(&mut self, who: Tag, c: ChannelId, place: Place, value: Value) -> bool
        ensures kinds { self.new.kinds ≡ self.old.kinds }
        ensures answer { result ≡ may_now self.old who (Drop c place value) }
        ensures made { Stepped result who (Drop c place value) self.old self.new }
    {
        if !may_drop(&self.kinds, &self.channels, c, place, value) {
            return false;
        }
        pop_offer(&mut self.channels, c);
        self.entries.push(&Entry {
            who,
            act: Act::Drop { c, place, value },
        });
        true
    }

    fn step_spurn(&mut self, who: Tag, c: ChannelId, place: Place, value: Value, over: bool) -> bool
        requires over { over ≡ was_over self.old c place }
        ensures kinds { self.new.kinds ≡ self.old.kinds }
        ensures answer { result ≡ may_now self.old who (Spurn c place value) }
        ensures made { Stepped result who (Spurn c place value) self.old self.new }
    {
        if self.kinds.len() <= c as usize {
            return false;
        }
        if !over {
            return false;
        }
        let Some(index) = index_of(&self.channels, c, place, value) else {
            return false;
        };
        remove_offer(&mut self.channels, c, index);
        self.entries.push(&Entry {
            who,
            act: Act::Spurn { c, place, value },
        });
        true
    }

    fn step_close(&mut self, who: Tag, c: ChannelId, value: Value) -> bool
        requires room { 0 < (floor_of self.old).spare }
        ensures kinds { self.new.kinds ≡ self.old.kinds }
        ensures answer { result ≡ may_now self.old who (Close c value) }
        ensures made { Stepped result who (Close c value) self.old self.new }
    {
        if !may_close(&self.kinds, &self.channels, c) {
            return false;
        }
        self.channels[c as usize].closed = Some(value);
        self.entries.push(&Entry {
            who,
            act: Act::Close { c, value },
        });
        true
    }

    fn step_void(&mut self, who: Tag, c: ChannelId) -> bool
        requires room { 0 < (floor_of self.old).spare }
        ensures kinds { self.new.kinds ≡ self.old.kinds }
        ensures answer { result ≡ may_now self.old who (Void c) }
        ensures made { Stepped result who (Void c) self.old self.new }
    {
        if !may_void(&self.kinds, &self.channels, c) {
            return false;
        }
        self.channels[c as usize].voided = true;
        self.entries.push(&Entry {
            who,
            act: Act::Void { c },
        });
        true
    }

    fn step_drain(&mut self, who: Tag, c: ChannelId, place: Place, value: Value) -> bool
        requires room { 0 < (floor_of self.old).spare }
        ensures kinds { self.new.kinds ≡ self.old.kinds }
        ensures answer { result ≡ may_now self.old who (Drain c place value) }
        ensures made { Stepped result who (Drain c place value) self.old self.new }
    {
        if !may_drain(&self.kinds, &self.channels, c, place, value) {
            return false;
        }
        let offer = pop_offer(&mut self.channels, c);
        resolve_holder(&mut self.channels, c, offer.holder, true);
        self.entries.push(&Entry {
            who,
            act: Act::Drain { c, place, value },
        });
        true
    }

    fn step_wake(&mut self, who: Tag, c: ChannelId, place: Place) -> bool
        requires room { 0 < (floor_of self.old).spare }
        ensures kinds { self.new.kinds ≡ self.old.kinds }
        ensures answer { result ≡ may_now self.old who (WakeClosed c place) }
        ensures made { Stepped result who (WakeClosed c place) self.old self.new }
    {
        let Some(first) = to_wake(&self.kinds, &self.channels, c, place) else {
            return false;
        };
        let Some(value) = closed_with(&self.channels, c) else {
            return false;
        };
        let how = Resolution::Closed(first.party.clause, value);
        resolve_first(&mut self.channels, c, first, how);
        self.entries.push(&Entry {
            who,
            act: Act::WakeClosed { c, place },
        });
        true
    }

    fn step_withdraw(&mut self, who: Tag, w: WaitId, why: Why) -> bool
        requires room { 0 < (floor_of self.old).spare }
        ensures kinds { self.new.kinds ≡ self.old.kinds }
        ensures answer { result ≡ may_now self.old who (Withdraw w why) }
        ensures made { Stepped result who (Withdraw w why) self.old self.new }
    {
        if !may_withdraw(&self.channels, who, w) {
            return false;
        }
        self.withdraw(who, w, why);
        true
    }

    fn step_settle(&mut self, who: Tag, w: WaitId, outcome: Settled) -> bool
        requires room { 0 < (floor_of self.old).spare }
        ensures kinds { self.new.kinds ≡ self.old.kinds }
        ensures answer { result ≡ may_now self.old who (Settle w outcome) }
        ensures made { Stepped result who (Settle w outcome) self.old self.new }
    {
        let Some(cancelled) = to_settle(&self.channels, who, w, outcome) else {
            return false;
        };
        self.settle(who, w, cancelled);
        true
    }

    fn step_offer(
        &mut self,
        who: Tag,
        c: ChannelId,
        place: Place,
        value: Value,
        main: WaitId,
        clause: u8,
    ) -> bool
        requires room { 0 < (floor_of self.old).spare }
        ensures kinds { self.new.kinds ≡ self.old.kinds }
        ensures answer { result ≡ may_now self.old who (Offer c place value main clause) }
        ensures made { Stepped result who (Offer c place value main clause) self.old self.new }
    {
        if !may_offer(&self.kinds, &self.channels, who, clause, c, place, main) {
            return false;
        }
        let begins = is_named(main, c, place);
        if begins {
            self.begin_offer(who, c, clause, value);
        } else if is_open_wait(&self.channels, main) {
            self.join_offer(who, main, c, clause, value);
        } else {
            self.join_late_offer(who, main, c, clause, value);
        }
        true
    }

    fn step_await(&mut self, who: Tag, c: ChannelId, place: Place, main: WaitId, clause: u8) -> bool
        requires room { 0 < (floor_of self.old).spare }
        ensures kinds { self.new.kinds ≡ self.old.kinds }
        ensures answer { result ≡ may_now self.old who (Await c place main clause) }
        ensures made { Stepped result who (Await c place main clause) self.old self.new }
    {
        if !may_await(&self.kinds, &self.channels, who, clause, c, place, main) {
            return false;
        }
        let begins = is_named(main, c, place);
        if begins {
            self.begin_receiver(who, c, clause);
        } else if is_open_wait(&self.channels, main) {
            self.join_receiver(who, main, c, clause);
        } else {
            self.join_late_receiver(who, main, c, clause);
        }
        true
    }

    /// Makes this act of `who` if it may come now, and says whether it did. Of a Spurn `over` says whether its offer was one too many
    /// when it was placed, of which the lists know nothing.
    pub fn step(&mut self, who: Tag, act: &Act, over: bool) -> bool
        requires room { 0 < (floor_of self.old).spare }
        requires over { ToldOver self.old act.now over }
        ensures kinds { self.new.kinds ≡ self.old.kinds }
        ensures answer { result ≡ may_now self.old who act.now }
        ensures made { Stepped result who act.now self.old self.new }
    {
        match *act {
            Act::Hand { c, place, value } => self.step_hand(who, c, place, value),
            Act::Put { c, place, value } => self.step_put(who, c, place, value),
            Act::Offer {
                c,
                place,
                value,
                main,
                clause,
            } => self.step_offer(who, c, place, value, main, clause),
            Act::Await {
                c,
                place,
                main,
                clause,
            } => self.step_await(who, c, place, main, clause),
            Act::Take { c, place, value } => self.step_take(who, c, place, value),
            Act::Admit { c, place } => self.step_admit(who, c, place),
            Act::Drop { c, place, value } => self.step_drop(who, c, place, value),
            Act::Spurn { c, place, value } => self.step_spurn(who, c, place, value, over),
            Act::Close { c, value } => self.step_close(who, c, value),
            Act::Void { c } => self.step_void(who, c),
            Act::Drain { c, place, value } => self.step_drain(who, c, place, value),
            Act::WakeClosed { c, place } => self.step_wake(who, c, place),
            Act::Withdraw { w, why } => self.step_withdraw(who, w, why),
            Act::Settle { w, outcome } => self.step_settle(who, w, outcome),
        }
    }
}
