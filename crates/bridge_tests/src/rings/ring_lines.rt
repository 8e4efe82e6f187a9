//! Up to four threads that send, receive, give up, hand over and close, by boxes. Each line is what they do at once on a ring of its own.
//! One whose threads sleep while they have to wait ends only if nobody is forgotten who waits.
ghost use Rattle.std.specs.Prelude.{◌≡◌, ◌≤◌, ◌^◌, ◌∷◌, [], All};
ghost use Rattle.ring_channel.specs.Passes.{IsOf, IsFirst, seen_by};
ghost use Rattle.bridge_tests.specs.RingPasses.{IsPass};

use ring_bridge::{Bells, HandedOver, hand_over, receive, send};
use ring_channel::{ReceiveOutcome, Ring, RingGot, RingPass, RingSent, RingSide, SendOutcome};
use std::alloc::Global;
use std::sync::Wait;
use std::thread;
use std::thread::{Threads, yield_now};

/// How often each of `LINES` is run.
const TURNS: u32 = 10;

/// How often a call is tried before its box is given up as lost.
const TRIES: u32 = 10_000_000;

/// What a thread does where it would have to wait.
#[derive(Clone, Copy)]
enum How {
    Sleeps,
    /// It gives up.
    Leaves,
    /// It tries again, and gives way meanwhile.
    Tries,
    /// It sleeps, also until its value was claimed.
    HandsOver,
}

/// What one thread does.
#[derive(Clone, Copy)]
pub(crate) struct Part {
    /// How often it sends or receives.
    times: u32,
    how: How,
    /// Whether it closes the ring then.
    closes: bool,
}

/// It does nothing.
const NOTHING: Part = Part {
    times: 0,
    how: How::Sleeps,
    closes: false,
};

/// So often, and sleeps.
const ONCE: Part = Part {
    times: 1,
    how: How::Sleeps,
    closes: false,
};

const TWICE: Part = Part {
    times: 2,
    how: How::Sleeps,
    closes: false,
};

const THRICE: Part = Part {
    times: 3,
    how: How::Sleeps,
    closes: false,
};

const FOUR_TIMES: Part = Part {
    times: 4,
    how: How::Sleeps,
    closes: false,
};

/// So often, or gives up.
const ONCE_OR_LEAVES: Part = Part {
    times: 1,
    how: How::Leaves,
    closes: false,
};

const TWICE_OR_LEAVES: Part = Part {
    times: 2,
    how: How::Leaves,
    closes: false,
};

/// So often, and closes.
const CLOSES: Part = Part {
    times: 0,
    how: How::Sleeps,
    closes: true,
};

const ONCE_AND_CLOSES: Part = Part {
    times: 1,
    how: How::Sleeps,
    closes: true,
};

const TWICE_AND_CLOSES: Part = Part {
    times: 2,
    how: How::Sleeps,
    closes: true,
};

/// Two that send and two that receive.
type Line = ((Part, Part), (Part, Part));

const LINES: &[Line] = &[
    ((FOUR_TIMES, NOTHING), (TWICE, TWICE)),
    ((THRICE, NOTHING), (THRICE, NOTHING)),
    ((ONCE_AND_CLOSES, NOTHING), (ONCE, ONCE_OR_LEAVES)),
    ((ONCE, ONCE_OR_LEAVES), (ONCE, NOTHING)),
    ((ONCE_AND_CLOSES, NOTHING), (ONCE, ONCE)),
    ((ONCE_AND_CLOSES, ONCE), (ONCE, NOTHING)),
    ((TWICE_AND_CLOSES, CLOSES), (TWICE, NOTHING)),
    ((ONCE, ONCE), (ONCE, ONCE)),
    ((TWICE, TWICE), (FOUR_TIMES, NOTHING)),
    ((ONCE, ONCE), (ONCE, ONCE_OR_LEAVES)),
    ((THRICE, NOTHING), (TWICE, ONCE_OR_LEAVES)),
    (
        (TWICE_OR_LEAVES, TWICE_OR_LEAVES),
        (TWICE_OR_LEAVES, TWICE_OR_LEAVES),
    ),
];

/// Numbers that were sent or received: how many, their sum, whether their places rose, and whether they are 1, 11, 21 and so on.
#[derive(Clone, Copy)]
struct Came {
    count: u32,
    sum: u32,
    rises: bool,
    next: u64,
    in_turn: bool,
}

const NONE: Came = Came {
    count: 0,
    sum: 0,
    rises: true,
    next: 0,
    in_turn: true,
};

/// One number more, of this place.
fn with(came: Came, place: u64, number: u32) -> Came {
    Came {
        count: came.count.wrapping_add(1),
        sum: came.sum.wrapping_add(number),
        rises: came.rises & (place >= came.next),
        next: place.wrapping_add(1),
        in_turn: came.in_turn & (number == came.count.wrapping_mul(10).wrapping_add(1)),
    }
}

/// Those of two; places rise if those of each do.
fn both(a: Came, b: Came) -> Came {
    Came {
        count: a.count.wrapping_add(b.count),
        sum: a.sum.wrapping_add(b.sum),
        rises: a.rises & b.rises,
        next: 0,
        in_turn: a.in_turn & b.in_turn,
    }
}

/// Sends, or gives up. Answers the place.
fn send_or_leave(
    ring: &Ring<Box<u32>>,
    bells: &Bells,
    pass: &mut RingPass<Box<u32>>,
    tag: u32,
    value: Box<u32>,
) -> Option<u64>
    requires pass { IsPass ring.now tag pass.old }
    ensures pass { IsPass ring.now tag pass.new }
{
    match ring.send(pass, tag, value) {
        SendOutcome::Sent { place, wakes } => {
            bells.wake_both(wakes);
            Some(place)
        }
        SendOutcome::Waits(_) => {
            bells.wake(ring.leave(pass, RingSide::Send, tag));
            None
        }
        SendOutcome::Closed(_, called) => {
            bells.wake(called);
            None
        }
        SendOutcome::Spent(_, called) => {
            bells.wake(called);
            None
        }
        SendOutcome::Passed(_) => None,
    }
}

/// Receives, or gives up.
fn receive_or_leave(
    ring: &Ring<Box<u32>>,
    bells: &Bells,
    pass: &mut RingPass<Box<u32>>,
    tag: u32,
) -> Option<(u64, Box<u32>)>
    requires pass { IsPass ring.now tag pass.old }
    ensures pass { IsPass ring.now tag pass.new }
{
    match ring.receive(pass, tag) {
        ReceiveOutcome::Received {
            place,
            value,
            wakes,
        } => {
            bells.wake_both(wakes);
            Some((place, value))
        }
        ReceiveOutcome::Waits => {
            bells.wake(ring.leave(pass, RingSide::Receive, tag));
            None
        }
        ReceiveOutcome::Closed(called) => {
            bells.wake(called);
            None
        }
        ReceiveOutcome::Passed => None,
    }
}

/// Tries to send until the box is put. Answers the place.
fn send_by_tries(
    ring: &Ring<Box<u32>>,
    pass: &mut RingPass<Box<u32>>,
    tag: u32,
    value: Box<u32>,
) -> Option<u64>
    requires pass { IsPass ring.now tag pass.old }
    ensures pass { IsPass ring.now tag pass.new }
{
    let mut value = value;
    for _ in 0..TRIES {
        match ring.try_send(pass, value) {
            RingSent::Sent(place) => return Some(place),
            RingSent::Closed(_) => return None,
            RingSent::Spent(_) => return None,
            RingSent::Full(back) => value = back,
            RingSent::Passed(back) => value = back,
        }
        yield_now();
    }
    None
}

/// Tries to receive until a box is there, or the ring is over.
fn receive_by_tries(
    ring: &Ring<Box<u32>>,
    pass: &mut RingPass<Box<u32>>,
    tag: u32,
) -> Option<(u64, Box<u32>)>
    requires pass { IsPass ring.now tag pass.old }
    ensures pass { IsPass ring.now tag pass.new }
{
    for _ in 0..TRIES {
        match ring.try_receive(pass) {
            RingGot::Value(place, value) => return Some((place, value)),
            RingGot::Closed => return None,
            _ => yield_now(),
        }
    }
    None
}

/// Sends a box with this number. Answers the place.
fn send_number<R: Wait>(
    rt: &R,
    ring: &Ring<Box<u32>>,
    bells: &Bells,
    pass: &mut RingPass<Box<u32>>,
    tag: u32,
    alloc: Global,
    how: How,
    number: u32,
) -> Option<u64>
    requires pass { IsPass ring.now tag pass.old }
    ensures pass { IsPass ring.now tag pass.new }
{
    let Ok(value) = Box::new(alloc, number) else {
        return None;
    };
    match how {
        How::Sleeps => send(rt, ring, bells, pass, tag, value).ok(),
        How::Leaves => send_or_leave(ring, bells, pass, tag, value),
        How::Tries => send_by_tries(ring, pass, tag, value),
        How::HandsOver => match hand_over(rt, ring, bells, pass, tag, value) {
            HandedOver::Taken(place) => Some(place),
            _ => None,
        },
    }
}

/// Receives a box, unless the ring is over.
fn receive_one<R: Wait>(
    rt: &R,
    ring: &Ring<Box<u32>>,
    bells: &Bells,
    pass: &mut RingPass<Box<u32>>,
    tag: u32,
    how: How,
) -> Option<(u64, Box<u32>)>
    requires pass { IsPass ring.now tag pass.old }
    ensures pass { IsPass ring.now tag pass.new }
{
    match how {
        How::Leaves => receive_or_leave(ring, bells, pass, tag),
        How::Tries => receive_by_tries(ring, pass, tag),
        _ => receive(rt, ring, bells, pass, tag),
    }
}

/// The part of a sender. Tells what was sent.
fn send_part<R: Wait>(
    rt: &R,
    ring: &Ring<Box<u32>>,
    bells: &Bells,
    pass: &mut RingPass<Box<u32>>,
    tag: u32,
    alloc: Global,
    part: Part,
) -> Came
    requires pass { IsPass ring.now tag pass.old }
{
    let mut sent = NONE;
    for turn in 0..part.times {
        let number = turn.wrapping_mul(10).wrapping_add(tag);
        if let Some(place) = send_number(rt, ring, bells, pass, tag, alloc, part.how, number) {
            sent = with(sent, place, number);
        }
    }
    if part.closes {
        bells.wake_all(ring.close_and_call(pass));
    }
    sent
}

/// The part of a receiver. Tells what came.
fn receive_part<R: Wait>(
    rt: &R,
    ring: &Ring<Box<u32>>,
    bells: &Bells,
    pass: &mut RingPass<Box<u32>>,
    tag: u32,
    part: Part,
) -> Came
    requires pass { IsPass ring.now tag pass.old }
{
    let mut came = NONE;
    for _ in 0..part.times {
        if let Some((place, value)) = receive_one(rt, ring, bells, pass, tag, part.how) {
            came = with(came, place, *value);
        }
    }
    came
}

/// What is left in the ring, and whether it is over then.
fn left_of(ring: &Ring<Box<u32>>, pass: &mut RingPass<Box<u32>>) -> (Came, bool)
    requires pass { IsPass ring.now 0 pass.old }
{
    let mut left = NONE;
    let mut over = false;
    for _ in 0..4 {
        match ring.try_receive(pass) {
            RingGot::Value(place, value) => left = with(left, place, *value),
            RingGot::Closed => over = true,
            _ => {}
        }
    }
    (left, over)
}

/// A thread: its pass and part, and what it moved.
#[derive(Drop)]
struct Worker {
    pass: RingPass<Box<u32>>,
    tag: u32,
    sends: bool,
    part: Part,
    came: Came,
}

/// What a thread does.
fn work<R: Wait>(rt: &R, ring: &Ring<Box<u32>>, bells: &Bells, alloc: Global, worker: &mut Worker)
    requires pass { IsPass ring.now worker.old.tag worker.old.pass }
{
    let (tag, part) = (worker.tag, worker.part);
    worker.came = if worker.sends {
        send_part(rt, ring, bells, &mut worker.pass, tag, alloc, part)
    } else {
        receive_part(rt, ring, bells, &mut worker.pass, tag, part)
    };
}

/// All threads at once.
fn at_once<R: Threads + Wait + Sync>(
    rt: &R,
    ring: &Ring<Box<u32>>,
    bells: &Bells,
    alloc: Global,
    workers: &mut [Worker],
)
    requires passes { All (λ w. IsPass ring.now w.tag w.pass) workers.old }
{
    thread::for_each_mut(
        rt,
        workers,
        4,
        &|_, worker| work(rt, ring, bells, alloc, worker),
    );
}

/// What was sent, came and was left, and whether the ring is over then.
#[derive(Clone, Copy)]
struct Moved {
    sent: Came,
    came: Came,
    left: Came,
    over: bool,
}

/// A thread with this pass that has not begun.
fn new_worker(pass: RingPass<Box<u32>>, tag: u32, sends: bool, part: Part) -> Worker
    ensures worker { (result.pass ≡ pass) × (result.tag ≡ tag) }
{
    Worker {
        pass,
        tag,
        sends,
        part,
        came: NONE,
    }
}

/// What a line comes to on this ring.
fn run_on<R: Threads + Wait + Sync>(
    rt: &R,
    ring: &Ring<Box<u32>>,
    main: &mut RingPass<Box<u32>>,
    bells: &Bells,
    alloc: Global,
    line: &Line,
) -> Moved
    requires main { IsOf ring.now main.old × IsFirst main.old }
    requires new { ((seen_by main.old).given ≡ 0 ∷ []) × ((seen_by main.old).tags ≡ 0 ∷ []) }
{
    let ((first, second), (third, fourth)) = *line;
    let mut workers = [
        new_worker(ring.split(main, 1), 1, true, first),
        new_worker(ring.split(main, 2), 2, true, second),
        new_worker(ring.split(main, 3), 3, false, third),
        new_worker(ring.split(main, 4), 4, false, fourth),
    ];
    at_once(rt, ring, bells, alloc, &mut workers);
    let (left, over) = left_of(ring, main);
    let [first, second, third, fourth] = &workers;
    Moved {
        sent: both(first.came, second.came),
        came: both(third.came, fourth.came),
        left,
        over,
    }
}

/// What is wanted of a line.
#[derive(Clone, Copy)]
pub(crate) enum Wanted {
    /// Each number that was sent comes once or is left, and the places of each receiver rise.
    EachOnce,
    /// So many are sent besides, and all of them come.
    All(u32),
    /// They come in order, and then the ring is over.
    InOrder(u32),
}

/// Whether that came which is wanted.
fn agree(moved: Moved, wanted: Wanted) -> bool {
    let Moved {
        sent,
        came,
        left,
        over,
    } = moved;
    let (to_send, to_come, in_order) = match wanted {
        Wanted::EachOnce => (sent.count, came.count, false),
        Wanted::All(count) => (count, count, false),
        Wanted::InOrder(count) => (count, count, true),
    };
    let received = both(came, left);
    let once = (sent.count == received.count) & (sent.sum == received.sum);
    let rise = sent.rises & received.rises;
    let all = (sent.count == to_send) & (came.count == to_come);
    once & rise & all & (!in_order | (came.in_turn & over))
}

/// Whether a line goes so on a ring of its own, of so many slots and places.
pub(crate) fn goes<R: Threads + Wait + Sync>(
    rt: &R,
    alloc: Global,
    bells: &Bells,
    slots: u32,
    places: u64,
    wanted: Wanted,
    line: &Line,
) -> bool
    requires places { places ≤ 2 ^ 62 }
{
    match Ring::<Box<u32>>::with_places(alloc, slots, places) {
        Ok((ring, mut main)) => agree(run_on(rt, &ring, &mut main, bells, alloc, line), wanted),
        Err(_) => false,
    }
}

/// Nobody is forgotten, whatever the threads do: each line is run so often on so many slots.
pub(crate) fn nobody_is_forgotten<R: Threads + Wait + Sync>(
    rt: &R,
    alloc: Global,
    bells: &Bells,
    slots: u32,
) -> bool {
    let mut all = true;
    for line in LINES {
        for _ in 0..TURNS {
            let went = goes(rt, alloc, bells, slots, 1 << 62, Wanted::EachOnce, line);
            all = all & went;
        }
    }
    all
}

/// Hands 500 numbers over.
const HANDS_OVER: Part = Part {
    times: 500,
    how: How::HandsOver,
    closes: false,
};

/// Receives what two senders have.
const RECEIVES: Part = Part {
    times: 1_000,
    how: How::Sleeps,
    closes: false,
};

pub(crate) const TWO_SENDERS_HAND_OVER_ALL_THEY_HAVE: Line = (
    (HANDS_OVER, HANDS_OVER),
    (RECEIVES, NOTHING),
);

/// Sends 3,000 numbers, and closes.
const SENDS_ASLEEP: Part = Part {
    times: 3_000,
    how: How::Sleeps,
    closes: true,
};

/// Receives as many, and once more when the ring is over.
const RECEIVES_ASLEEP: Part = Part {
    times: 3_001,
    how: How::Sleeps,
    closes: false,
};

pub(crate) const THREADS_THAT_SLEEP_MOVE_EACH_NUMBER_ONCE: Line = (
    (SENDS_ASLEEP, NOTHING),
    (RECEIVES_ASLEEP, NOTHING),
);

/// Sends 2,000 boxes, and closes.
const SENDS_BY_TRIES: Part = Part {
    times: 2_000,
    how: How::Tries,
    closes: true,
};

const RECEIVES_BY_TRIES: Part = Part {
    times: 2_001,
    how: How::Tries,
    closes: false,
};

pub(crate) const BOXES_ARRIVE_ONCE_AND_IN_ORDER: Line = (
    (SENDS_BY_TRIES, NOTHING),
    (RECEIVES_BY_TRIES, NOTHING),
);
