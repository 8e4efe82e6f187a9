//! What it costs to wait: one thread waits for a second, and two threads send numbers to and fro. Standard output has what came, standard
//! error how long it took.
//!
//!     word_bench sleeps [ROUNDS]     by default 10000, at most 500000; 0: the waits of a second alone
//!
//! The waits are a receive of a channel of owned values, a receive of a ring, and an acquire of a gate, one after the other: three seconds
//! in all. How much time of a processor they took is that of the whole program, which `bench/sleeps` asks the shell for. To and fro numbers
//! go over two channels of owned values that keep one each: by calls that sleep, and by calls that look until their wait is resolved.
ghost use Rattle.std.specs.Prelude.{◌≡◌, ◌≤◌, ◌<◌, IfOk, false};
ghost use Rattle.parcel_channel.specs.Hubs.{IsOf, floor_by};
ghost use Rattle.parcel_channel.specs.Numbers.{HoldsWait};
ghost use Rattle.gates.specs.Passes.{IsOf as IsOfGate};
ghost use Rattle.channel_model.specs.Answers.{IsReady};
ghost use Rattle.word_bench.specs.Rings.{IsPass};

use crate::shares::{Worker, by_two, value_of};
use crate::told::{Line, Words, no_memory, now, small};
use channel_model::{Kind, WaitState};
use co_base::{Memory, WaitId};
use gates::{Gate, GatePass, TryAcquired};
use parcel_channel::{ParcelGot, ParcelHub, ParcelPass, ParcelSent, ParcelSettled};
use ring_bridge::Bells;
use ring_channel::{Ring, RingPass};
use std::alloc::Global;
use std::hint::spin_loop;
use std::io;
use std::sync::Wait;
use std::thread::{Threads, join, sleep, yield_now};
use std::time::{Clock, Duration};

/// How long a wait is, in milliseconds.
const PAUSE: u64 = 1_000;

/// How often a wait is looked at before others may run.
const LOOKS: u64 = 200;

// ---- waits of a second

/// Receives. Answers whether this number came.
fn is_received<R: Wait>(
    rt: &R,
    hub: &ParcelHub<u32>,
    bells: &Bells,
    pass: &mut ParcelPass<u32>,
    number: u32,
) -> bool
    requires of { IsOf hub.now pass.old }
    ensures of { IsOf hub.now pass.new }
{
    matches!(waiting::receive(rt, hub, bells, pass), Ok(came) if came == number)
}

/// Sends. Answers whether the number was sent.
fn is_sent<R: Wait>(
    rt: &R,
    hub: &ParcelHub<u32>,
    bells: &Bells,
    pass: &mut ParcelPass<u32>,
    number: u32,
) -> bool
    requires of { IsOf hub.now pass.old }
    ensures of { IsOf hub.now pass.new }
{
    waiting::send(rt, hub, bells, pass, number).is_ok()
}

/// A receive of a channel of owned values. Answers whether the number came.
fn parcel_wait<R: Threads + Wait + Sync + Clock>(
    rt: &R,
    alloc: Global,
    bells: &Bells,
) -> Result<bool, Memory> {
    let (hub, mut one) = ParcelHub::<u32>::new(alloc, Kind::Rendezvous, 1, 1)?;
    let mut two = hub.split(&mut one, 1);
    let hub = &hub;
    let (received, sent) = join(
        rt,
        || -> bool
            requires one { IsOf hub.now one }
        { is_received(rt, hub, bells, &mut one, 7) },
        || -> bool
            requires two { IsOf hub.now two }
        {
            sleep(rt, Duration::from_millis(PAUSE));
            is_sent(rt, hub, bells, &mut two, 7)
        },
    );
    Ok(received && sent)
}

/// A receive of a ring. Answers whether the number came.
fn ring_wait<R: Threads + Wait + Sync + Clock>(rt: &R, alloc: Global, bells: &Bells) -> bool {
    let Ok((ring, mut one)) = Ring::<u32>::new(alloc, 1) else {
        return false;
    };
    let mut two = ring.split(&mut one, 1);
    let ring = &ring;
    let (received, sent) = join(
        rt,
        || -> bool
            requires one { IsPass ring.now 0 one }
        {
            matches!(
                ring_bridge::receive(rt, ring, bells, &mut one, 0),
                Some((0, 7))
            )
        },
        || -> bool
            requires two { IsPass ring.now 1 two }
        {
            sleep(rt, Duration::from_millis(PAUSE));
            ring_bridge::send(rt, ring, bells, &mut two, 1, 7).is_ok()
        },
    );
    received && sent
}

/// An acquire of a gate whose permit another holds. Answers whether it was held first, and acquired then.
fn gate_wait<R: Threads + Wait + Sync + Clock>(rt: &R, alloc: Global) -> Result<bool, Memory> {
    let (gate, mut one) = Gate::new(alloc, 1)?;
    let mut two = gate.split(&mut one);
    let TryAcquired::Held = gate.try_acquire(&mut two) else {
        return Ok(false);
    };
    let gate = &gate;
    let (acquired, released) = join(
        rt,
        || -> bool
            requires one { IsOfGate gate.now one × (one.waits ≡ false) × (one.number < 48) }
        {
            gate.blocking_acquire(rt, &mut one);
            true
        },
        || -> bool
            requires two { IsOfGate gate.now two × (0 < two.held) }
        {
            sleep(rt, Duration::from_millis(PAUSE));
            gate.release_and_wake(&mut two, 0);
            true
        },
    );
    Ok(acquired && released)
}

// ---- to and fro

/// Looks until the own wait is resolved.
fn look_on<R: Wait>(rt: &R, hub: &ParcelHub<u32>, pass: &mut ParcelPass<u32>, wait: WaitId)
    requires of { IsOf hub.now pass.old }
    requires wait { wait.channel ≡ 0 }
    requires holds { HoldsWait pass.old.tag wait (floor_by hub.now pass.old) }
    ensures of { IsOf hub.now pass.new }
    ensures ready { IsReady pass.new.tag wait (floor_by hub.now pass.new) }
{
    let mut looks = 1u64;
    for _ in rt.forever() {
        if let WaitState::Resolved = hub.look(pass, wait) {
            return;
        }
        if looks % LOOKS == 0 {
            yield_now();
        } else {
            spin_loop();
        }
        looks = looks.wrapping_add(1);
    }
}

/// Sends. Answers whether the number was sent.
fn is_sent_at_once<R: Wait>(
    rt: &R,
    hub: &ParcelHub<u32>,
    pass: &mut ParcelPass<u32>,
    number: u32,
) -> bool
    requires of { IsOf hub.now pass.old }
    ensures of { IsOf hub.now pass.new }
{
    match hub.send(pass, number) {
        ParcelSent::Sent(_, _) => true,
        ParcelSent::Waits(wait, _) => {
            look_on(rt, hub, pass, wait);
            matches!(hub.settle(pass, wait, false), ParcelSettled::Sent)
        }
        _ => false,
    }
}

/// Receives. Answers whether this number came.
fn is_received_at_once<R: Wait>(
    rt: &R,
    hub: &ParcelHub<u32>,
    pass: &mut ParcelPass<u32>,
    number: u32,
) -> bool
    requires of { IsOf hub.now pass.old }
    ensures of { IsOf hub.now pass.new }
{
    match hub.receive(pass) {
        ParcelGot::Value(came, _, _) => came == number,
        ParcelGot::Waits(wait) => {
            look_on(rt, hub, pass, wait);
            matches!(hub.settle(pass, wait, false), ParcelSettled::Value(came) if came == number)
        }
        _ => false,
    }
}

/// Sends or receives. Answers whether the number was sent, or came; asleep, or not.
fn is_moved<R: Wait>(
    rt: &R,
    hub: &ParcelHub<u32>,
    bells: &Bells,
    pass: &mut ParcelPass<u32>,
    number: u32,
    how: (bool, bool),
) -> bool
    requires of { IsOf hub.now pass.old }
    ensures of { IsOf hub.now pass.new }
{
    match how {
        (true, true) => is_sent(rt, hub, bells, pass, number),
        (true, false) => is_sent_at_once(rt, hub, pass, number),
        (false, true) => is_received(rt, hub, bells, pass, number),
        (false, false) => is_received_at_once(rt, hub, pass, number),
    }
}

/// Two channels, and what bells those have who sleep at each.
#[derive(Clone, Copy)]
struct Channels<'a> {
    bells: (&'a Bells, &'a Bells),
    to: &'a ParcelHub<u32>,
    fro: &'a ParcelHub<u32>,
}

/// One that in each turn sends a number on the first channel and awaits it back on the second, or awaits it first and sends it back.
#[derive(Drop)]
struct Server<'a, R> {
    rt: &'a R,
    to: ParcelPass<u32>,
    fro: ParcelPass<u32>,
    sends: bool,
    asleep: bool,
}

impl<'a, R: Wait + Sync> Worker for Server<'a, R> {
    type Floor = Channels<'a>;

    ghost can_work = { λ channels one. IsOf channels.to.now one.to × IsOf channels.fro.now one.fro };

    /// One where the number went so.
    fn turn(&mut self, channels: &Channels<'a>, number: u64) -> Option<u64> {
        let (rt, number) = (self.rt, value_of(number));
        let (there, back) = ((self.sends, self.asleep), (!self.sends, self.asleep));
        let done = is_moved(
            rt,
            channels.to,
            channels.bells.0,
            &mut self.to,
            number,
            there,
        ) && is_moved(
            rt,
            channels.fro,
            channels.bells.1,
            &mut self.fro,
            number,
            back,
        );
        Some(u64::from(done))
    }
}

/// A channel that keeps one number, with its two passes.
fn new_channel(
    alloc: Global,
    rounds: u32,
) -> Result<(ParcelHub<u32>, ParcelPass<u32>, ParcelPass<u32>), Memory>
    requires rounds { (1 ≤ rounds) × (rounds ≤ 500000) }
    ensures one { IfOk result (λ r. IsOf r.0 r.1) }
    ensures two { IfOk result (λ r. IsOf r.0 r.2) }
{
    let (hub, mut one) = ParcelHub::<u32>::new(alloc, Kind::Buffered(1), 1_048_576, rounds)?;
    let two = hub.split(&mut one, 1);
    Ok((hub, one, two))
}

/// So many rounds of two threads, of which one has the first passes. Answers how many numbers came back and had come.
fn to_and_fro<R: Threads + Wait + Sync>(
    rt: &R,
    channels: Channels<'_>,
    to: (ParcelPass<u32>, ParcelPass<u32>),
    fro: (ParcelPass<u32>, ParcelPass<u32>),
    rounds: u32,
    asleep: bool,
) -> (u64, u64)
    requires a { IsOf channels.to.now to.0 }
    requires b { IsOf channels.to.now to.1 }
    requires c { IsOf channels.fro.now fro.0 }
    requires d { IsOf channels.fro.now fro.1 }
{
    let first = Server {
        rt,
        to: to.0,
        fro: fro.0,
        sends: true,
        asleep,
    };
    let other = Server {
        rt,
        to: to.1,
        fro: fro.1,
        sends: false,
        asleep,
    };
    let times = (u64::from(rounds), u64::from(rounds));
    let (back, there) = by_two(rt, &channels, (first, other), times, true);
    (back.1, there.1)
}

/// The same over two channels of their own.
fn rounds_over<R: Threads + Wait + Sync>(
    rt: &R,
    alloc: Global,
    bells: (&Bells, &Bells),
    rounds: u32,
    asleep: bool,
) -> Result<(u64, u64), Memory>
    requires rounds { (1 ≤ rounds) × (rounds ≤ 500000) }
{
    let (to, a, b) = new_channel(alloc, rounds)?;
    let (fro, c, d) = new_channel(alloc, rounds)?;
    let channels = Channels {
        bells,
        to: &to,
        fro: &fro,
    };
    Ok(to_and_fro(rt, channels, (a, b), (c, d), rounds, asleep))
}

// ---- what is written

fn bench_waits<R: Threads + Wait + Sync + Clock + Print + Eprint + AllocGlobal>(
    rt: &R,
    bells: &Bells,
) -> io::Result<()> {
    let begun = now(rt);
    let Ok(parcel) = parcel_wait(rt, rt.alloc(), bells) else {
        return Err(no_memory());
    };
    let ring = ring_wait(rt, rt.alloc(), bells);
    let Ok(gate) = gate_wait(rt, rt.alloc()) else {
        return Err(no_memory());
    };
    let mut line = Line::since(rt, begun);
    line.add("waits of a second: parcel ");
    line.add(parcel);
    line.add(", ring ");
    line.add(ring);
    line.add(", gate ");
    line.add(gate);
    line.tell(rt, ",")
}

fn bench_rounds<R: Threads + Wait + Sync + Clock + Print + Eprint + AllocGlobal>(
    rt: &R,
    bells: (&Bells, &Bells),
    name: &str,
    rounds: u32,
    asleep: bool,
) -> io::Result<()>
    requires rounds { (1 ≤ rounds) × (rounds ≤ 500000) }
{
    let begun = now(rt);
    let Ok((back, there)) = rounds_over(rt, rt.alloc(), bells, rounds, asleep) else {
        return Err(no_memory());
    };
    let mut line = Line::since(rt, begun);
    line.add("to and fro, ");
    line.add(name);
    line.add(": ");
    line.add(there);
    line.add(" there, ");
    line.add(back);
    line.add(" back");
    line.tell(rt, ",")
}

/// All that is measured, with these bells.
fn bench_with<R: Threads + Wait + Sync + Clock + Print + Eprint + AllocGlobal>(
    rt: &R,
    bells: (&Bells, &Bells),
    rounds: u32,
) -> io::Result<()>
    requires few { rounds ≤ 500000 }
{
    bench_waits(rt, bells.0)?;
    if rounds == 0 {
        return Ok(());
    }
    bench_rounds(rt, bells, "asleep", rounds, true)?;
    bench_rounds(rt, bells, "spinning", rounds, false)
}

pub(crate) fn bench<R: Threads + Wait + Sync + Clock + Print + Eprint + AllocGlobal>(
    rt: &R,
    words: &Words,
) -> io::Result<()> {
    let rounds = small(words.second).unwrap_or(10_000).min(500_000);
    let Ok(one) = Bells::new(rt.alloc()) else {
        return Err(no_memory());
    };
    let Ok(two) = Bells::new(rt.alloc()) else {
        return Err(no_memory());
    };
    bench_with(rt, (&one, &two), rounds)
}
