//! A soak of a ring: numbers go through 64 slots, by four threads, and each is to be received once. Standard output has how many were sent
//! and received, standard error how long that took.
//!
//!     word_bench soak [NUMBERS]     by default 10000000, at most 1000000000000
//!
//! One thread sends the even numbers below NUMBERS and one the odd ones, each in their order, and two receive until the ring is over. No
//! memory is taken meanwhile. What was received is told by how many there were, by their sum, and by the sum of a mark of each, all as 64
//! bits; and each receiver looks that what it has of one sender comes in order.
ghost use Rattle.std.specs.Prelude.{◌≡◌};
ghost use Rattle.ring_channel.specs.Passes.{IsOf};

use crate::shares::{Worker, by_two};
use crate::told::{Line, Words, no_memory, now};
use ring_channel::{Ring, RingGot, RingPass, RingSent};
use std::alloc::Global;
use std::hint::spin_loop;
use std::io;
use std::sync::Wait;
use std::thread::{Threads, join, yield_now};
use std::time::Clock;

/// How many slots the ring has.
const SLOTS: u32 = 64;

/// How often a call is tried before others may run.
const TRIES: u64 = 64;

/// Numbers that were sent, or received.
#[derive(Clone, Copy, PartialEq)]
struct Numbers {
    count: u64,
    sum: u64,
    marks: u64,
}

const NONE: Numbers = Numbers {
    count: 0,
    sum: 0,
    marks: 0,
};

/// The mark of a number: its bits, mixed.
fn mark(number: u64) -> u64 {
    let mixed = number.wrapping_add(0x9E37_79B9_7F4A_7C15);
    let mixed = (mixed ^ (mixed >> 30)).wrapping_mul(0xBF58_476D_1CE4_E5B9);
    let mixed = (mixed ^ (mixed >> 27)).wrapping_mul(0x94D0_49BB_1331_11EB);
    mixed ^ (mixed >> 31)
}

/// One number more.
fn with(numbers: Numbers, number: u64) -> Numbers {
    Numbers {
        count: numbers.count.wrapping_add(1),
        sum: numbers.sum.wrapping_add(number),
        marks: numbers.marks.wrapping_add(mark(number)),
    }
}

/// Those of both.
fn both(a: Numbers, b: Numbers) -> Numbers {
    Numbers {
        count: a.count.wrapping_add(b.count),
        sum: a.sum.wrapping_add(b.sum),
        marks: a.marks.wrapping_add(b.marks),
    }
}

/// Between two tries of a call.
fn pause(tries: u64) {
    if tries % TRIES == 0 {
        yield_now();
    } else {
        spin_loop();
    }
}

/// Sends a number. Answers whether it was sent.
fn send_one(ring: &Ring<u64>, pass: &mut RingPass<u64>, number: u64) -> bool
    requires of { IsOf ring.now pass.old }
    ensures of { IsOf ring.now pass.new }
{
    for tries in 1..u64::MAX {
        match ring.try_send(pass, number) {
            RingSent::Sent(_) => return true,
            RingSent::Closed(_) => return false,
            RingSent::Spent(_) => return false,
            RingSent::Full(_) => pause(tries),
            RingSent::Passed(_) => pause(tries),
        }
    }
    false
}

/// Receives a number. None: the ring is over.
fn receive_one(ring: &Ring<u64>, pass: &mut RingPass<u64>) -> Option<u64>
    requires of { IsOf ring.now pass.old }
    ensures of { IsOf ring.now pass.new }
{
    for tries in 1..u64::MAX {
        match ring.try_receive(pass) {
            RingGot::Value(_, number) => return Some(number),
            RingGot::Closed => return None,
            RingGot::Nothing => pause(tries),
            RingGot::Passed => pause(tries),
        }
    }
    None
}

/// One that sends each second number, from the first on.
#[derive(Drop)]
struct Sender {
    pass: RingPass<u64>,
    first: u64,
    sent: Numbers,
}

impl Worker for Sender {
    type Floor = Ring<u64>;

    ghost can_work = { λ ring one. IsOf ring one.pass };

    fn turn(&mut self, ring: &Ring<u64>, half: u64) -> Option<u64> {
        let number = half.wrapping_mul(2).wrapping_add(self.first);
        if send_one(ring, &mut self.pass, number) {
            self.sent = with(self.sent, number);
        }
        Some(1)
    }
}

/// One that receives until the ring is over: what came, and whether the even and the odd numbers each came in order.
#[derive(Drop)]
struct Receiver {
    pass: RingPass<u64>,
    received: Numbers,
    /// The least even number that may come now, and the least odd one.
    next: [u64; 2],
    rises: bool,
}

impl Worker for Receiver {
    type Floor = Ring<u64>;

    ghost can_work = { λ ring one. IsOf ring one.pass };

    fn turn(&mut self, ring: &Ring<u64>, _number: u64) -> Option<u64> {
        let number = receive_one(ring, &mut self.pass)?;
        let [even, odd] = self.next;
        let then = number.wrapping_add(1);
        let (due, next) = if number % 2 == 0 {
            (even, [then, odd])
        } else {
            (odd, [even, then])
        };
        self.rises = self.rises && number >= due;
        self.next = next;
        self.received = with(self.received, number);
        Some(1)
    }
}

/// Two threads send, and then the ring is closed.
fn send_by_two<R: Threads + Wait + Sync>(
    rt: &R,
    ring: &Ring<u64>,
    a: RingPass<u64>,
    b: RingPass<u64>,
    below: u64,
) -> Numbers
    requires a { IsOf ring.now a }
    requires b { IsOf ring.now b }
{
    let even = Sender {
        pass: a,
        first: 0,
        sent: NONE,
    };
    let odd = Sender {
        pass: b,
        first: 1,
        sent: NONE,
    };
    let (even, odd) = by_two(rt, ring, (even, odd), (below / 2, below / 2), true);
    let (even, odd) = (even.0, odd.0);
    let mut last = even.pass;
    ring.close(&mut last);
    both(even.sent, odd.sent)
}

fn new_receiver(pass: RingPass<u64>) -> Receiver
    ensures { result.pass ≡ pass }
{
    Receiver {
        pass,
        received: NONE,
        next: [0, 0],
        rises: true,
    }
}

/// Two threads receive.
fn receive_by_two<R: Threads + Wait + Sync>(
    rt: &R,
    ring: &Ring<u64>,
    c: RingPass<u64>,
    d: RingPass<u64>,
) -> (Numbers, bool)
    requires c { IsOf ring.now c }
    requires d { IsOf ring.now d }
{
    let two = (new_receiver(c), new_receiver(d));
    let (first, other) = by_two(rt, ring, two, (u64::MAX, u64::MAX), true);
    let (first, other) = (first.0, other.0);
    let received = both(first.received, other.received);
    (received, first.rises && other.rises)
}

/// How many of the numbers below this one were sent, and how many received; and whether each was received once, and in order.
fn soak<R: Threads + Wait + Sync>(rt: &R, alloc: Global, below: u64) -> Option<(u64, u64, bool)> {
    let Ok((ring, mut a)) = Ring::<u64>::new(alloc, SLOTS) else {
        return None;
    };
    let b = ring.split(&mut a, 1);
    let c = ring.split(&mut a, 2);
    let d = ring.split(&mut a, 3);
    let ring = &ring;
    let (sent, (received, rises)) = join(
        rt,
        || -> Numbers
            requires a { IsOf ring.now a }
            requires b { IsOf ring.now b }
        { send_by_two(rt, ring, a, b, below) },
        || -> (Numbers, bool)
            requires c { IsOf ring.now c }
            requires d { IsOf ring.now d }
        { receive_by_two(rt, ring, c, d) },
    );
    let once = rises && sent == received;
    Some((sent.count, received.count, once))
}

pub(crate) fn bench<R: Threads + Wait + Sync + Clock + Print + Eprint + AllocGlobal>(
    rt: &R,
    words: &Words,
) -> io::Result<()> {
    let numbers = words.second.unwrap_or(10_000_000);
    let below = numbers.clamp(2, 1_000_000_000_000);
    let begun = now(rt);
    let Some((sent, received, once)) = soak(rt, rt.alloc(), below) else {
        return Err(no_memory());
    };
    let mut line = Line::since(rt, begun);
    line.add("soak: ");
    line.add(sent);
    line.add(" sent, ");
    line.add(received);
    line.add(" received, each once and in order: ");
    line.add(once);
    line.tell(rt, ",")
}
