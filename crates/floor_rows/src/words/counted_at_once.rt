//! Four threads on the same counted cells.
ghost use Rattle.std.specs.Prelude.{◌≡◌, [], ◌∷◌, ◌++◌, ◌⊎◌};
ghost use Rattle.counted_cells.specs.Passes.{IsOf};
ghost use Rattle.floor_rows.specs.CellsDrawn.{AllCame, Waited};

use crate::compare::compare;
use co_base::{Place, Value};
use counted_cells::{Counted, CountedGot, CountedPass, CountedSend, CountedState};
use std::alloc::Global;
use std::sync::Wait;
use std::test::Fail;
use std::thread::{Threads, join};

/// How many sends, and how many receives, each thread makes.
const EACH: u32 = 25000;

/// What one thread does, and has come to. Where memory runs out a call is not counted, and the count of all is wrong.
#[derive(Drop)]
struct Share {
    pass: CountedPass,
    /// The cells in which its sends wait.
    sends: Vec<Place>,
    /// The cells in which its receives wait.
    receives: Vec<Place>,
    /// How many of its sends found their receiver there.
    paired: usize,
    /// The values of its receives that found their sender there.
    values: Vec<Value>,
}

fn share_of(counted: &Counted, pass: CountedPass, alloc: Global) -> Share
    requires of { IsOf counted.now pass }
    ensures { Waited counted.now result.pass result.sends.items result.receives.items }
{
    Share {
        pass,
        sends: Vec::new(alloc),
        receives: Vec::new(alloc),
        paired: 0,
        values: Vec::new(alloc),
    }
}

/// Adds a number, if there is memory for it.
fn add(numbers: &mut Vec<u32>, number: u32)
    ensures { (numbers.new.items ≡ numbers.old.items ++ number ∷ []) ⊎ (numbers.new.items ≡ numbers.old.items) }
{
    let _ = numbers.push(number);
}

/// Sends a value, and answers whether its receiver was there.
fn send_one(
    counted: &Counted,
    pass: &mut CountedPass,
    waits: &mut Vec<Place>,
    others: &[Place],
    value: Value,
) -> bool
    requires of { IsOf counted.now pass.old }
    requires came { AllCame counted.now pass.old waits.old.items }
    requires others { AllCame counted.now pass.old others.now }
    ensures of { IsOf counted.now pass.new }
    ensures came { AllCame counted.now pass.new waits.new.items }
    ensures others { AllCame counted.now pass.new others.now }
{
    match counted.send(pass, value) {
        CountedSend::Waits(place) => {
            add(waits, place);
            false
        }
        CountedSend::Paired(_) => true,
        CountedSend::Broken(_) | CountedSend::Spent => false,
    }
}

/// Receives, and answers the value if its sender was there.
fn receive_one(
    counted: &Counted,
    pass: &mut CountedPass,
    waits: &mut Vec<Place>,
    others: &[Place],
) -> Option<Value>
    requires of { IsOf counted.now pass.old }
    requires came { AllCame counted.now pass.old waits.old.items }
    requires others { AllCame counted.now pass.old others.now }
    ensures of { IsOf counted.now pass.new }
    ensures came { AllCame counted.now pass.new waits.new.items }
    ensures others { AllCame counted.now pass.new others.now }
{
    match counted.receive(pass) {
        CountedGot::Waits(place) => {
            add(waits, place);
            None
        }
        CountedGot::Value(_, value) => Some(value),
        CountedGot::Broken(_) | CountedGot::Spent => None,
    }
}

/// A send of a value, and a receive.
fn turn(counted: &Counted, share: &mut Share, value: Value)
    requires { Waited counted.now share.old.pass share.old.sends.items share.old.receives.items }
    ensures { Waited counted.now share.new.pass share.new.sends.items share.new.receives.items }
{
    if send_one(
        counted,
        &mut share.pass,
        &mut share.sends,
        &share.receives,
        value,
    ) {
        share.paired = share.paired.wrapping_add(1);
    }
    let received = receive_one(counted, &mut share.pass, &mut share.receives, &share.sends);
    if let Some(value) = received {
        add(&mut share.values, value);
    }
}

/// So many sends, of the values from this one on, and as many receives, by turns.
fn work(counted: &Counted, share: Share, first: Value) -> Share
    requires { Waited counted.now share.pass share.sends.items share.receives.items }
    ensures { Waited counted.now result.pass result.sends.items result.receives.items }
{
    let mut share = share;
    for i in 0..EACH {
        turn(counted, &mut share, first.wrapping_add(i));
    }
    share
}

/// How many of the calls that waited in these cells met their partner. Their values are counted.
fn look_at_all(
    counted: &Counted,
    pass: &mut CountedPass,
    waits: &[Place],
    others: &[Place],
    counts: &mut [u32],
) -> usize
    requires of { IsOf counted.now pass.old }
    requires came { AllCame counted.now pass.old waits.now }
    requires others { AllCame counted.now pass.old others.now }
    ensures of { IsOf counted.now pass.new }
    ensures others { AllCame counted.now pass.new others.now }
{
    let mut met = 0usize;
    for place in waits {
        if let CountedState::Paired(value) = counted.look(pass, *place) {
            count(counts, value);
            met = met.wrapping_add(1);
        }
    }
    met
}

/// Counts a value.
fn count(counts: &mut [u32], value: Value) {
    if let Some(count) = counts.get_mut(value as usize) {
        *count = count.wrapping_add(1);
    }
}

/// How many sends of a thread met a receiver. The values that its receives have are counted.
fn count_share(counted: &Counted, share: Share, counts: &mut [u32]) -> usize
    requires { Waited counted.now share.pass share.sends.items share.receives.items }
{
    let Share {
        mut pass,
        sends,
        receives,
        paired,
        values,
    } = share;
    for value in &values {
        count(counts, *value);
    }
    look_at_all(counted, &mut pass, &receives, &sends, counts);
    let met = look_at_all(counted, &mut pass, &sends, &[], &mut []);
    paired.wrapping_add(met)
}

/// The work of two, by a thread each. The second sends the values behind those of the first.
fn by_two<R: Threads + Wait + Sync>(
    rt: &R,
    counted: &Counted,
    a: Share,
    b: Share,
    first: Value,
) -> (Share, Share)
    requires a { Waited counted.now a.pass a.sends.items a.receives.items }
    requires b { Waited counted.now b.pass b.sends.items b.receives.items }
    ensures a { Waited counted.now result.0.pass result.0.sends.items result.0.receives.items }
    ensures b { Waited counted.now result.1.pass result.1.sends.items result.1.receives.items }
{
    join(
        rt,
        || -> Share
            requires { Waited counted.now a.pass a.sends.items a.receives.items }
            ensures { Waited counted.entry.now result.pass result.sends.items result.receives.items }
        { work(counted, a, first) },
        || -> Share
            requires { Waited counted.now b.pass b.sends.items b.receives.items }
            ensures { Waited counted.entry.now result.pass result.sends.items result.receives.items }
        { work(counted, b, first.wrapping_add(EACH)) },
    )
}

/// The work of four, by a thread each: how many sends met a receiver. The values that receives have are counted.
fn by_four<R: Threads + Wait + Sync>(
    rt: &R,
    counted: &Counted,
    first_two: (Share, Share),
    last_two: (Share, Share),
    counts: &mut [u32],
) -> usize
    requires a { Waited counted.now first_two.0.pass first_two.0.sends.items first_two.0.receives.items }
    requires b { Waited counted.now first_two.1.pass first_two.1.sends.items first_two.1.receives.items }
    requires c { Waited counted.now last_two.0.pass last_two.0.sends.items last_two.0.receives.items }
    requires d { Waited counted.now last_two.1.pass last_two.1.sends.items last_two.1.receives.items }
{
    let (a, b) = first_two;
    let (c, d) = last_two;
    let ((a, b), (c, d)) = join(
        rt,
        || -> (Share, Share)
            requires a { Waited counted.now a.pass a.sends.items a.receives.items }
            requires b { Waited counted.now b.pass b.sends.items b.receives.items }
            ensures a { Waited counted.entry.now result.0.pass result.0.sends.items result.0.receives.items }
            ensures b { Waited counted.entry.now result.1.pass result.1.sends.items result.1.receives.items }
        { by_two(rt, counted, a, b, 0) },
        || -> (Share, Share)
            requires c { Waited counted.now c.pass c.sends.items c.receives.items }
            requires d { Waited counted.now d.pass d.sends.items d.receives.items }
            ensures c { Waited counted.entry.now result.0.pass result.0.sends.items result.0.receives.items }
            ensures d { Waited counted.entry.now result.1.pass result.1.sends.items result.1.receives.items }
        { by_two(rt, counted, c, d, 2 * EACH) },
    );
    count_share(counted, a, counts)
        .wrapping_add(count_share(counted, b, counts))
        .wrapping_add(count_share(counted, c, counts))
        .wrapping_add(count_share(counted, d, counts))
}

#[test]
fn each_send_of_four_threads_meets_one_receive(rt: HostRuntime) -> Result<(), Fail> {
    let alloc = rt.alloc();
    let mut counts = Vec::from_elem(alloc, 0u32, 4 * EACH as usize)?;
    let (counted, mut first) = Counted::new(alloc, 4 * EACH)?;
    let second = share_of(&counted, counted.split(&mut first), alloc);
    let third = share_of(&counted, counted.split(&mut first), alloc);
    let fourth = share_of(&counted, counted.split(&mut first), alloc);
    let first = share_of(&counted, first, alloc);
    let met = by_four(
        &rt,
        &counted,
        (first, second),
        (third, fourth),
        counts.as_mut_slice(),
    );
    let each_once = counts.iter().all(|count| *count == 1);
    compare(&rt, &(met, each_once), &(4 * EACH as usize, true));
    Ok(())
}
