//! Of each element, whether it was one too many when it was placed: the lists of a floor know nothing of it.

ghost use Rattle.std.specs.Prelude.{◌≡◌, ℕ, ◌<◌, ◌==◌, ◌&&◌, IfOk, length, if◌then◌else◌};
ghost use Rattle.channel_model.specs.Channels.{spurns};
ghost use Rattle.channel_model.specs.Histories.{replay};
ghost use Rattle.one_thread_floor.specs.ListFloors.{floor_of};
ghost use Rattle.history_check.specs.Overs.{AreNone, IsOver, IsSet, KeepsOvers, TellsOver, bit_in, over_in};

use crate::notes::kind_of;
use channel_model::{Act, Kind};
use co_base::{ChannelId, Memory, Place};
use one_thread_floor::ListFloor;
use std::alloc::Global;

// ---- bits

fn bit_at(bits: &Vec<bool>, place: Place) -> bool
    ensures { result ≡ bit_in bits.now.items place }
{
    let place = place as usize;
    place < bits.len() && bits[place]
}

/// Whether the element at this place was one too many.
fn over_at(overs: &Vec<Vec<bool>>, c: ChannelId, place: Place) -> bool
    ensures { result ≡ over_in overs.now.items c place }
{
    let c = c as usize;
    c < overs.len() && bit_at(&overs[c], place)
}

/// Sets or clears a bit. No memory is taken for one that is clear.
fn set_bit(bits: &mut Vec<bool>, place: Place, over: bool) -> Result<(), Memory>
    ensures { IfOk result (λ done. (q : ℕ) → bit_in bits.new.items q ≡ (if place == q then over else bit_in bits.old.items q)) }
{
    let place = place as usize;
    if bits.len() <= place {
        if !over {
            return Ok(());
        }
        bits.resize(place + 1, false)?;
    }
    bits[place] = over;
    Ok(())
}

fn set_over(
    overs: &mut Vec<Vec<bool>>,
    c: ChannelId,
    place: Place,
    over: bool,
) -> Result<(), Memory>
    requires { c < length overs.old.items }
    ensures { IfOk result (λ done. IsSet c place over overs.old.items overs.new.items) }
{
    set_bit(&mut overs[c as usize], place, over)
}

/// No element of so many channels was one too many.
pub(crate) fn no_overs(alloc: Global, count: usize) -> Result<Vec<Vec<bool>>, Memory>
    ensures { IfOk result (λ overs. AreNone count overs.items) }
{
    let mut overs = Vec::new(alloc);
    let mut made = 0usize;
    while made < count {
        overs.push(Vec::new(alloc))?;
        made += 1;
    }
    Ok(overs)
}

// ---- acts

/// Whether an element before which so many stand is one too many.
fn spurns(kind: Kind, standing: usize) -> bool
    ensures { result ≡ spurns kind standing }
{
    match kind {
        Kind::DropLatest(capacity) => capacity as usize <= standing,
        Kind::Rendezvous
        | Kind::Buffered(_)
        | Kind::Unlimited
        | Kind::Conflated
        | Kind::DropOldest(_)
        | Kind::Signal => false,
    }
}

/// Whether the element that an act puts is one too many.
pub(crate) fn is_over(floor: &ListFloor, kinds: &[(Kind, u32)], act: &Act) -> bool
    ensures { IsOver kinds.now act.now (replay (floor_of floor.now).seen) result }
{
    match *act {
        Act::Put { c, .. } => spurns(kind_of(kinds, c).0, floor.snapshot(c).queued),
        _ => false,
    }
}

/// Whether the element that an act removes was one too many.
pub(crate) fn told_over(overs: &Vec<Vec<bool>>, act: &Act) -> bool
    ensures { TellsOver overs.now.items act.now result }
{
    match *act {
        Act::Spurn { c, place, .. } => over_at(overs, c, place),
        _ => false,
    }
}

/// Keeps of the element that an act put whether it was one too many.
pub(crate) fn keep(overs: &mut Vec<Vec<bool>>, act: &Act, over: bool) -> Result<(), Memory>
    ensures { IfOk result (λ done. KeepsOvers act.now over overs.old.items overs.new.items) }
{
    match *act {
        Act::Put { c, place, .. } => {
            if overs.len() <= c as usize {
                return Ok(());
            }
            set_over(overs, c, place, over)
        }
        _ => Ok(()),
    }
}
