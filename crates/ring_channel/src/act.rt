//! What happens to a ring.

use co_base::Tag;

/// The two sides of a ring, on each of which passes may wait.
#[derive(Clone, Copy, Debug, PartialEq)]
pub enum RingSide {
    Receive,
    Send,
}

/// What a pass does about those who wait on a side. No value of it is made.
pub enum WaitStep {
    /// It waits.
    Stand,
    /// It waits no more.
    Leave,
    /// The pass of this tag, which waited, is called: it waits no more.
    Call { tag: u64 },
    /// All who waited are called.
    CallAll,
    /// It was seen that nobody waits.
    NoneWaits,
    /// It was seen that there is nothing for who waits: no first value, or no room.
    NothingThere,
    /// It was seen that the ring is open.
    GoesOn,
}

/// What one step does. No value of it is made.
pub enum RingAct<T> {
    /// The next place is claimed, for this value.
    Put { place: u64, value: T },
    /// Who claimed the place moves the value into its slot.
    Fill { place: u64, value: T },
    /// The value of the first place is claimed by who receives it.
    Take { place: u64 },
    /// Who claimed it has moved it out, and the slot is free for the place one lap later.
    Free { place: u64 },
    /// No place is claimed any more.
    Close,
    /// A step about those who wait on a side.
    Waiting { side: RingSide, step: WaitStep },
}

/// A step, and who made it. No value of it is made.
pub struct RingEntry<T> {
    pub who: Tag,
    pub act: RingAct<T>,
}
