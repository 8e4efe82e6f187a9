//! A ring and a pass of it.
ghost use Rattle.std.specs.Prelude.{◌≡◌, ℕ, ◌<◌, ◌≤◌, false};
ghost use Rattle.std.specs.Arc.{arc_value};
ghost use Rattle.std.proofs.Props.{props};
ghost use Rattle.worded.specs.Views.{has_tag};
ghost use Rattle.ring_channel.specs.Passes.{IsOf, IsFirst, seen_by, tag_of};

use ring_channel::{Ring, RingPass};
use std::alloc::Global;
use std::sync::Arc;

/// An end of a channel: it alone calls under its tag. The first one, of tag 0, gives out 63 others.
#[derive(Drop)]
pub struct End {
    pub(crate) ring: Arc<Ring<u64>, Global>,
    pub(crate) pass: RingPass<u64>,
    pub(crate) tag: u32,
    /// The next tag that is given out; 64 where there is none.
    pub(crate) next: u32,
    pub ghost of: { IsOf (arc_value ring) pass } by { Prim.hlevel props },
    pub ghost own: { (tag ≡ tag_of pass) × (tag < 64) },
    pub ghost few: { next ≤ 64 },
    pub ghost first: { next < 64 → IsFirst pass } by { Prim.hlevel props },
    pub ghost ungiven: { next < 64 → (t : ℕ) → next ≤ t → has_tag t (seen_by pass).given ≡ false } by { Prim.hlevel props },
}
