//! What happens at a gate.

use co_base::Tag;

/// What one step does.
#[derive(Clone, Copy)]
pub enum GateAct {
    /// A free permit is taken.
    Take,
    /// It waits for a permit, since none is free.
    Wait,
    /// A permit is given back, and is free, since nobody waits.
    Give,
    /// A permit is given to one who waits for one.
    Grant { tag: Tag },
    /// It waits no more.
    GiveUp,
}

/// A step, and who made it.
#[derive(Clone, Copy)]
pub struct GateEntry {
    pub who: Tag,
    pub act: GateAct,
}
