//! Two passes of counted cells, one call after the other.

ghost use Rattle.counted_cells.specs.Passes.{IsOf};

use crate::compare::compare;
use co_base::Place;
use counted_cells::{Counted, CountedGot, CountedPass, CountedSend, CountedState, GaveUp};
use std::test::Fail;

/// The first pass receives and is met, the second sends and gives up: where they waited, and which calls answer so.
fn met_and_given_up(
    counted: &Counted,
    first: &mut CountedPass,
    second: &mut CountedPass,
) -> Option<([Place; 2], [bool; 7])>
    requires first { IsOf counted.now first.old }
    requires second { IsOf counted.now second.old }
    ensures first { IsOf counted.now first.new }
    ensures second { IsOf counted.now second.new }
{
    let CountedGot::Waits(met) = counted.receive(first) else {
        return None;
    };
    let paired = counted.send(second, 9) == CountedSend::Paired(0);
    let seen = counted.look(first, met) == CountedState::Paired(9);
    let CountedSend::Waits(left) = counted.send(second, 8) else {
        return None;
    };
    let found = [
        paired,
        seen,
        counted.give_up(second, left) == GaveUp::Done,
        counted.look(second, left) == CountedState::Broken,
        counted.receive(first) == CountedGot::Broken(1),
        counted.receive(first) == CountedGot::Spent,
        counted.send(second, 7) == CountedSend::Spent,
    ];
    Some(([met, left], found))
}

#[test]
fn a_receiver_is_met_and_a_sender_gives_up(rt: HostRuntime) -> Result<(), Fail> {
    let (counted, mut first) = Counted::new(rt.alloc(), 2)?;
    let mut second = counted.split(&mut first);
    let found = met_and_given_up(&counted, &mut first, &mut second);
    counted.end(&mut first, second);
    compare(&rt, &found, &Some(([0, 1], [true; 7])));
    Ok(())
}

/// The first pass receives and is met, and gives up then: where it waited, and which calls answer so.
fn met_before(
    counted: &Counted,
    first: &mut CountedPass,
    second: &mut CountedPass,
) -> Option<(Place, [bool; 3])>
    requires first { IsOf counted.now first.old }
    requires second { IsOf counted.now second.old }
    ensures first { IsOf counted.now first.new }
    ensures second { IsOf counted.now second.new }
{
    let CountedGot::Waits(place) = counted.receive(first) else {
        return None;
    };
    let found = [
        counted.send(second, 9) == CountedSend::Paired(0),
        counted.give_up(first, place) == GaveUp::Late,
        counted.look(first, place) == CountedState::Paired(9),
    ];
    Some((place, found))
}

#[test]
fn a_receiver_that_was_met_gives_up_too_late(rt: HostRuntime) -> Result<(), Fail> {
    let (counted, mut first) = Counted::new(rt.alloc(), 2)?;
    let mut second = counted.split(&mut first);
    let found = met_before(&counted, &mut first, &mut second);
    counted.end(&mut first, second);
    compare(&rt, &found, &Some((0, [true; 3])));
    Ok(())
}
