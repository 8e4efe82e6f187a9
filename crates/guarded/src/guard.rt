//! The value, a seat, and the calls.

use co_base::{Memory, Tag};
use std::alloc::Global;
use task_berths::{BerthSeat, Berths, Tagged, Taken};

/// The value, as a task.
#[derive(Drop)]
pub struct Kept<T> {
    value: T,
}

impl<T> Tagged for Kept<T> {
    ghost tag_of = { λ kept. 0 };

    fn tag(&self) -> Tag {
        0
    }
}

/// A value that many threads use, one at a time, each with a seat of its own.
#[derive(Drop)]
pub struct Guarded<T: Drop> {
    berths: Berths<Kept<T>>,
}

/// What a thread takes the value with. One that is dropped while it has the value leaves it out for ever.
#[derive(Drop)]
pub struct GuardSeat<T> {
    seat: BerthSeat<Kept<T>>,
}

impl<T: Drop> Guarded<T> {
    ghost use Rattle.std.specs.Prelude.{◌≡◌, ◌+◌, ◌<◌, [], IfOk};
    ghost use Rattle.guarded.specs.Guards.{knows, Has, HasIt, HasNothing, IsFirst, IsOf, LockAnswer, UnlockAnswer};

    /// The value at home, and the first seat. Where there is no memory the value is dropped.
    pub fn new(alloc: Global, value: T) -> Result<(Guarded<T>, GuardSeat<T>), Memory>
        ensures first { IfOk result (λ r. IsFirst r.0 r.1) }
        ensures nothing { IfOk result (λ r. HasNothing r.1 × ((knows r.1).splits ≡ 0)) }
    {
        let mut tasks = Vec::new(alloc);
        tasks.push(Kept { value })?;
        let (berths, seat) = Berths::new(tasks)?;
        Ok((Guarded { berths }, GuardSeat { seat }))
    }

    /// A further seat, which has nothing.
    pub fn split(&self, first: &mut GuardSeat<T>) -> GuardSeat<T>
        requires first { IsFirst self.now first.old }
        requires few { (knows first.old).splits < 65535 }
        ensures first { IsFirst self.now first.new }
        ensures same { ((knows first.new).held ≡ (knows first.old).held) × ((knows first.new).splits ≡ (knows first.old).splits + 1) }
        ensures of { IsOf self.now result }
        ensures nothing { HasNothing result }
    {
        let seat = self.berths.split(&mut first.seat);
        GuardSeat { seat }
    }

    /// The value, if it is at home; None: another seat has it, or had it meanwhile.
    pub fn try_lock(&self, seat: &mut GuardSeat<T>) -> Option<T>
        requires of { IsOf self.now seat.old }
        requires nothing { HasNothing seat.old }
        ensures of { IsOf self.now seat.new }
        ensures first { IsFirst self.now seat.old → IsFirst self.now seat.new }
        ensures locked { LockAnswer (knows seat.old) (knows seat.new) result }
        ensures has { Has result seat.new }
    {
        match self.berths.take(&mut seat.seat, 0) {
            Taken::Task(kept) => {
                let Kept { value } = kept;
                Some(value)
            }
            Taken::Busy => None,
        }
    }

    /// Brings the value home.
    pub fn unlock(&self, seat: &mut GuardSeat<T>, value: T)
        requires of { IsOf self.now seat.old }
        requires has { HasIt seat.old }
        ensures of { IsOf self.now seat.new }
        ensures first { IsFirst self.now seat.old → IsFirst self.now seat.new }
        ensures unlocked { UnlockAnswer (knows seat.old) (knows seat.new) }
        ensures nothing { HasNothing seat.new }
    {
        self.berths.leave(&mut seat.seat, 0, Kept { value });
    }
}
