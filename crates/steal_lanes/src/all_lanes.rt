//! The lanes of so many workers.
ghost use Rattle.std.specs.Prelude.{◌≡◌, ◌<◌, ◌≤◌, length, IfOk, OnOk};
ghost use Rattle.steal_lanes.specs.Lanes.{AllNewLanes, AddsWays, AreWays, AreLanes};

use crate::lane::Lane;
use crate::other_lane::OtherLane;
use co_base::Memory;
use std::alloc::Global;

/// As many lanes, each without a way into another.
fn new_lanes(alloc: Global, workers: u8, room: u32) -> Result<Vec<Lane>, Memory>
    ensures count { IfOk result (λ v. length v.items ≡ workers) }
    ensures new { IfOk result (λ v. AllNewLanes room v.items) }
{
    let mut lanes = Vec::new(alloc);
    for _ in 0..workers {
        let lane = Lane::new(alloc, room)?;
        lanes.push(lane)?;
    }
    Ok(lanes)
}

/// Adds a way into each of these lanes.
fn add_ways(others: &mut Vec<OtherLane>, lanes: &[Lane]) -> Result<(), Memory>
    ensures { OnOk result (AddsWays others.old.items others.new.items lanes.now) }
{
    for lane in lanes {
        let other = OtherLane::into(&lane.own)?;
        others.push(other)?;
    }
    Ok(())
}

/// The ways into all lanes but the i-th, from the next on.
fn ways(alloc: Global, lanes: &[Lane], i: usize) -> Result<Vec<OtherLane>, Memory>
    requires { i < length lanes.now }
    ensures { IfOk result (λ v. AreWays i v.items lanes.now) }
{
    let mut others = Vec::new(alloc);
    add_ways(&mut others, &lanes[i + 1..])?;
    add_ways(&mut others, &lanes[..i])?;
    Ok(others)
}

/// A lane for each worker, with the ways into all others. The first `room` puts into each succeed.
pub fn lanes(alloc: Global, workers: u8, room: u32) -> Result<Vec<Lane>, Memory>
    requires some { 0 < workers }
    requires few { workers ≤ 16 }
    ensures { IfOk result (λ v. AreLanes workers room v.items) }
{
    let mut lanes = new_lanes(alloc, workers, room)?;
    let count = lanes.len();
    for i in 0..count {
        let others = ways(alloc, lanes.as_slice(), i)?;
        lanes[i].connect(others);
    }
    Ok(lanes)
}
