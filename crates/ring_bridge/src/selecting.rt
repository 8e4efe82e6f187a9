//! A select over rings, on a thread that sleeps while no clause may go on.
ghost use Rattle.std.specs.Prelude.{◌≡◌, ◌<◌, refl};
ghost use Rattle.std.proofs.Common.{◌∙◌};
ghost use Rattle.ring_channel.specs.Passes.{tag_of};
ghost use Rattle.ring_bridge.specs.Selects.{
  InOrderLeaves,
  InOrderTurns,
  ReceiveLeaves,
  ReceiveTurns,
  SameReceive,
  SameSend,
  SelectAnswer,
  SendLeaves,
  SendTurns,
};

use crate::bells::Bells;
use crate::clauses::{Chosen, ClauseTurn, InOrder, ReceiveClause, RingClause, SendClause};
use crate::sinks::RingSinkFault;
use ring_channel::{ReceiveOutcome, RingSide, SendOutcome};
use std::sync::Wait;

impl<T> RingClause for ReceiveClause<'_, T> {
    type Answer = Option<(u64, T)>;

    ghost tagged = { λ c t. t ≡ tag_of c.pass };

    ghost turns = { ReceiveTurns };

    ghost leaves = { ReceiveLeaves };

    ghost stays = { SameReceive };

    fn attempt(&mut self, bells: &Bells, tag: u32) -> ClauseTurn<Option<(u64, T)>> {
        match self.ring.receive(&mut self.pass, tag) {
            ReceiveOutcome::Received {
                place,
                value,
                wakes,
            } => {
                bells.wake_both(wakes);
                ClauseTurn::Done(Some((place, value)))
            }
            ReceiveOutcome::Closed(called) => {
                bells.wake(called);
                ClauseTurn::Done(None)
            }
            ReceiveOutcome::Waits => ClauseTurn::Waits,
            ReceiveOutcome::Passed => ClauseTurn::Again,
        }
    }

    fn leave(&mut self, bells: &Bells, tag: u32) {
        let called = self.ring.leave(&mut self.pass, RingSide::Receive, tag);
        bells.wake(called);
    }

    ghost stays_self = { λ a. (refl, (refl, (refl, refl))) };

    ghost stays_on = { λ a b c h k. (k.0 ∙ h.0, (k.1.0 ∙ h.1.0, (k.1.1.0 ∙ h.1.1.0, k.1.1.1 ∙ h.1.1.1))) };
}

impl<T: Drop> RingClause for SendClause<'_, T> {
    type Answer = Result<u64, RingSinkFault<T>>;

    ghost tagged = { λ c t. t ≡ tag_of c.pass };

    ghost turns = { SendTurns };

    ghost leaves = { SendLeaves };

    ghost stays = { SameSend };

    fn attempt(&mut self, bells: &Bells, tag: u32) -> ClauseTurn<Result<u64, RingSinkFault<T>>> {
        let Some(value) = self.value.take() else {
            return ClauseTurn::Waits;
        };
        match self.ring.send(&mut self.pass, tag, value) {
            SendOutcome::Sent { place, wakes } => {
                bells.wake_both(wakes);
                ClauseTurn::Done(Ok(place))
            }
            SendOutcome::Closed(back, called) => {
                bells.wake(called);
                ClauseTurn::Done(Err(RingSinkFault::Closed(back)))
            }
            SendOutcome::Spent(back, called) => {
                bells.wake(called);
                ClauseTurn::Done(Err(RingSinkFault::Spent(back)))
            }
            SendOutcome::Waits(back) => {
                self.value = Some(back);
                ClauseTurn::Waits
            }
            SendOutcome::Passed(back) => {
                self.value = Some(back);
                ClauseTurn::Again
            }
        }
    }

    fn leave(&mut self, bells: &Bells, tag: u32) {
        let called = self.ring.leave(&mut self.pass, RingSide::Send, tag);
        bells.wake(called);
    }

    ghost stays_self = { λ a. (refl, (refl, (refl, refl))) };

    ghost stays_on = { λ a b c h k. (k.0 ∙ h.0, (k.1.0 ∙ h.1.0, (k.1.1.0 ∙ h.1.1.0, k.1.1.1 ∙ h.1.1.1))) };
}

impl<A: RingClause, B: RingClause> RingClause for InOrder<A, B> {
    type Answer = Chosen<A::Answer, B::Answer>;

    ghost tagged = { λ c t. A.tagged c.first t × B.tagged c.second t };

    ghost turns = { InOrderTurns A.turns A.leaves B.turns B.leaves };

    ghost leaves = { InOrderLeaves A.leaves B.leaves };

    ghost stays = { λ a b. A.stays a.first b.first × B.stays a.second b.second };

    fn attempt(&mut self, bells: &Bells, tag: u32) -> ClauseTurn<Chosen<A::Answer, B::Answer>> {
        match self.first.attempt(bells, tag) {
            ClauseTurn::Done(answer) => {
                self.second.leave(bells, tag);
                ClauseTurn::Done(Chosen::First(answer))
            }
            ClauseTurn::Waits => match self.second.attempt(bells, tag) {
                ClauseTurn::Done(answer) => {
                    self.first.leave(bells, tag);
                    ClauseTurn::Done(Chosen::Second(answer))
                }
                ClauseTurn::Waits => ClauseTurn::Waits,
                ClauseTurn::Again => ClauseTurn::Again,
            },
            ClauseTurn::Again => match self.second.attempt(bells, tag) {
                ClauseTurn::Done(answer) => {
                    self.first.leave(bells, tag);
                    ClauseTurn::Done(Chosen::Second(answer))
                }
                ClauseTurn::Waits => ClauseTurn::Again,
                ClauseTurn::Again => ClauseTurn::Again,
            },
        }
    }

    fn leave(&mut self, bells: &Bells, tag: u32) {
        self.first.leave(bells, tag);
        self.second.leave(bells, tag);
    }

    ghost stays_self = { λ a. (A.stays_self a.first, B.stays_self a.second) };

    ghost stays_on = { λ a b c h k. (A.stays_on a.first b.first c.first h.0 k.0, B.stays_on a.second b.second c.second h.1 k.1) };
}

/// Tries the clauses in order, and answers with the first that may go on; while none may, the thread sleeps. A receive from a ring that is
/// over, and a send to one that is closed, may go on: they say so. The others are left, and who is named in their place is woken. The rings
/// share these bells, and the pass of each clause has the same tag, which on all of them is this thread's.
pub fn select<C: RingClause, R: Wait>(rt: &R, bells: &Bells, clause: &mut C, tag: u32) -> C::Answer
    requires tag { C.tagged clause.old tag × (tag < 64) }
    ensures tag { C.tagged clause.new tag }
    ensures still { C.stays clause.old clause.new }
    ensures selected { SelectAnswer C.turns clause.old clause.new result }
{
    for _ in rt.forever() {
        let rung = bells.rung(tag);
        match clause.attempt(bells, tag) {
            ClauseTurn::Done(answer) => return answer,
            ClauseTurn::Waits => bells.sleep(rt, tag, rung),
            ClauseTurn::Again => {}
        }
    }
    unreachable!()
}
