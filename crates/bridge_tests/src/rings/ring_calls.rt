//! A ring with three passes, and what is left of it.
ghost use Rattle.std.specs.Prelude.{◌≡◌, ◌≤◌, ◌^◌, IfOk};
ghost use Rattle.bridge_tests.specs.RingPasses.{IsMain, IsOther};

use ring_channel::{Ring, RingFault, RingPass};
use std::alloc::Global;

/// The passes of the tags 0, 1 and 2.
#[derive(Drop)]
pub(crate) struct Three<T> {
    pub main: RingPass<T>,
    pub one: RingPass<T>,
    pub two: RingPass<T>,
}

/// A ring of so many slots and places, and three passes of it.
pub(crate) fn new_ring<T>(
    alloc: Global,
    slots: u32,
    places: u64,
) -> Result<(Ring<T>, Three<T>), RingFault>
    requires places { places ≤ 2 ^ 62 }
    ensures main { IfOk result (λ r. IsMain r.0 r.1.main) }
    ensures one { IfOk result (λ r. IsOther 1 r.0 r.1.one) }
    ensures two { IfOk result (λ r. IsOther 2 r.0 r.1.two) }
{
    let (ring, mut main) = Ring::with_places(alloc, slots, places)?;
    let one = ring.split(&mut main, 1);
    let two = ring.split(&mut main, 2);
    Ok((ring, Three { main, one, two }))
}

/// The values that are left, once the passes of the tags 1 and 2 have ended.
pub(crate) fn rest_of<T>(
    ring: Ring<T>,
    mut main: RingPass<T>,
    one: RingPass<T>,
    two: RingPass<T>,
) -> Vec<T>
    requires main { IsMain ring main }
    requires one { IsOther 1 ring one }
    requires two { IsOther 2 ring two }
{
    ring.end(&mut main, one);
    ring.end(&mut main, two);
    ring.into_rest(main)
}
