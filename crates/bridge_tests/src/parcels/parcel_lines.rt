//! Threads that send boxes, one that receives them, and one that ends the channel: each line is what they do at once on a channel of its
//! own, and what then became of the boxes.
ghost use Rattle.std.specs.Prelude.{◌≡◌, ◌≤◌, ◌∷◌, [], All};
ghost use Rattle.parcel_channel.specs.Hubs.{IsOf, IsFirst, seen_by, floor_by};
ghost use Rattle.parcel_channel.specs.Numbers.{HoldsWait, KeepsAll};
ghost use Rattle.channel_model.specs.Answers.{IsReady};
ghost use Rattle.bridge_tests.specs.ParcelPasses.{Keeps};

use crate::parcels::parcel_calls::{cancel, drain_one, look_at, take_back};
use crate::parcels::parcel_streams;
use channel_model::{Kind, WaitState, Withdrawn};
use co_base::WaitId;
use parcel_channel::{ParcelGot, ParcelHub, ParcelPass, ParcelSent, ParcelSettled};
use ring_bridge::Bells;
use std::alloc::{AllocGlobal, Global};
use std::random::RandomSource;
use std::sync::Wait;
use std::thread;
use std::thread::{Threads, sleep, yield_now};
use std::time::{Clock, Duration};
use waiting::{receive, send};

/// How often a wait is looked at before it is given up as lost.
const LOOKS: u32 = 10_000_000;

/// How often the one that ends the channel gives way before it does.
const TURNS: u32 = 2_000;

/// How a thread waits.
#[derive(Clone, Copy)]
enum How {
    /// It gives its wait up at once.
    GivesUp,
    /// Who receives looks until its wait is resolved, and gives way meanwhile. Who sends gives up.
    Looks,
    Sleeps,
}

/// What a thread does: how often it sends or receives.
#[derive(Clone, Copy)]
struct Part {
    how: How,
    times: u32,
    /// Milliseconds before it sends, or after it has received once: so long that the other sleeps.
    pause: u64,
}

/// What all do at once.
#[derive(Clone, Copy)]
struct Line {
    senders: (Part, Part),
    receiver: Part,
    /// Whether the channel is closed, cancelled and drained meanwhile.
    ends: bool,
    /// Whether boxes may come back to who sends.
    comes_back: bool,
}

/// How many boxes had each fate.
#[derive(Clone, Copy)]
struct Fates {
    /// Sent, or received: where the thread does not give up, with the number that was due.
    over: u32,
    /// Back from a wait that was given up.
    back: u32,
    /// Back from a send that was refused, or handed to a wait that was given up.
    ended: u32,
    lost: u32,
}

const NONE: Fates = Fates {
    over: 0,
    back: 0,
    ended: 0,
    lost: 0,
};

const OVER: Fates = Fates {
    over: 1,
    back: 0,
    ended: 0,
    lost: 0,
};

const BACK: Fates = Fates {
    over: 0,
    back: 1,
    ended: 0,
    lost: 0,
};

const ENDED: Fates = Fates {
    over: 0,
    back: 0,
    ended: 1,
    lost: 0,
};

const LOST: Fates = Fates {
    over: 0,
    back: 0,
    ended: 0,
    lost: 1,
};

impl Fates {
    /// Those of both.
    fn and(self, other: Fates) -> Fates {
        Fates {
            over: self.over.saturating_add(other.over),
            back: self.back.saturating_add(other.back),
            ended: self.ended.saturating_add(other.ended),
            lost: self.lost.saturating_add(other.lost),
        }
    }
}

/// Gives the own wait up, unless it was resolved before.
fn give_up(hub: &ParcelHub<Box<u32>>, pass: &mut ParcelPass<Box<u32>>, wait: WaitId) -> Fates
    requires of { IsOf hub.now pass.old }
    requires wait { wait.channel ≡ 0 }
    requires holds { HoldsWait pass.old.tag wait (floor_by hub.now pass.old) }
    ensures kept { Keeps hub.now pass.old pass.new }
{
    let in_time = take_back(hub, pass, wait) != Withdrawn::Late;
    match hub.settle(pass, wait, in_time) {
        ParcelSettled::Sent => OVER,
        ParcelSettled::Value(_) => OVER,
        ParcelSettled::Undelivered(_) => ENDED,
        ParcelSettled::Cancelled(Some(_)) => BACK,
        ParcelSettled::Lost => LOST,
        _ => NONE,
    }
}

/// Sends a box; where it would wait, takes it back.
fn send_or_give_up(
    hub: &ParcelHub<Box<u32>>,
    pass: &mut ParcelPass<Box<u32>>,
    value: Box<u32>,
) -> Fates
    requires of { IsOf hub.now pass.old }
    ensures kept { Keeps hub.now pass.old pass.new }
{
    match hub.send(pass, value) {
        ParcelSent::Sent(_, _) => OVER,
        ParcelSent::Waits(wait, _) => give_up(hub, pass, wait),
        ParcelSent::Lost => LOST,
        _ => ENDED,
    }
}

/// Sends a box with this number.
fn send_one<R: Wait>(
    rt: &R,
    hub: &ParcelHub<Box<u32>>,
    bells: &Bells,
    pass: &mut ParcelPass<Box<u32>>,
    alloc: Global,
    how: How,
    number: u32,
) -> Fates
    requires of { IsOf hub.now pass.old }
    ensures kept { Keeps hub.now pass.old pass.new }
{
    let Ok(value) = Box::new(alloc, number) else {
        return LOST;
    };
    match how {
        How::Sleeps => match send(rt, hub, bells, pass, value) {
            Ok(_) => OVER,
            Err(_) => NONE,
        },
        _ => send_or_give_up(hub, pass, value),
    }
}

/// The number of the box that the own wait, which was resolved, was handed.
fn settle_number(
    hub: &ParcelHub<Box<u32>>,
    pass: &mut ParcelPass<Box<u32>>,
    wait: WaitId,
) -> Option<u32>
    requires of { IsOf hub.now pass.old }
    requires wait { wait.channel ≡ 0 }
    requires ready { IsReady pass.old.tag wait (floor_by hub.now pass.old) }
    ensures kept { Keeps hub.now pass.old pass.new }
{
    match hub.settle(pass, wait, false) {
        ParcelSettled::Value(value) => Some(*value),
        _ => None,
    }
}

/// The number of the box that the own wait is handed, if it is resolved soon enough.
fn await_number(
    hub: &ParcelHub<Box<u32>>,
    pass: &mut ParcelPass<Box<u32>>,
    wait: WaitId,
) -> Option<u32>
    requires of { IsOf hub.now pass.old }
    requires wait { wait.channel ≡ 0 }
    requires holds { HoldsWait pass.old.tag wait (floor_by hub.now pass.old) }
    ensures kept { Keeps hub.now pass.old pass.new }
{
    for _ in 0..LOOKS {
        if let WaitState::Resolved = look_at(hub, pass, wait) {
            return settle_number(hub, pass, wait);
        }
        yield_now();
    }
    None
}

/// Receives a box; looks until it is there. Answers its number.
fn receive_by_looks(hub: &ParcelHub<Box<u32>>, pass: &mut ParcelPass<Box<u32>>) -> Option<u32>
    requires of { IsOf hub.now pass.old }
    ensures kept { Keeps hub.now pass.old pass.new }
{
    match hub.receive(pass) {
        ParcelGot::Value(value, _, _) => Some(*value),
        ParcelGot::Waits(wait) => await_number(hub, pass, wait),
        _ => None,
    }
}

/// Receives a box; where none is there yet, goes away.
fn receive_or_give_up(hub: &ParcelHub<Box<u32>>, pass: &mut ParcelPass<Box<u32>>) -> Fates
    requires of { IsOf hub.now pass.old }
    ensures kept { Keeps hub.now pass.old pass.new }
{
    match hub.receive(pass) {
        ParcelGot::Value(_, _, _) => OVER,
        ParcelGot::Waits(wait) => give_up(hub, pass, wait),
        ParcelGot::Lost(_, _) => LOST,
        _ => NONE,
    }
}

/// Receives a box, which is due with this number.
fn receive_one<R: Wait>(
    rt: &R,
    hub: &ParcelHub<Box<u32>>,
    bells: &Bells,
    pass: &mut ParcelPass<Box<u32>>,
    how: How,
    due: u32,
) -> Fates
    requires of { IsOf hub.now pass.old }
    ensures kept { Keeps hub.now pass.old pass.new }
{
    let number = match how {
        How::GivesUp => return receive_or_give_up(hub, pass),
        How::Looks => receive_by_looks(hub, pass),
        How::Sleeps => match receive(rt, hub, bells, pass) {
            Ok(value) => Some(*value),
            Err(_) => None,
        },
    };
    if number == Some(due) { OVER } else { NONE }
}

/// The part of one that sends boxes with the numbers from 0 on.
fn send_part<R: Wait + Clock>(
    rt: &R,
    hub: &ParcelHub<Box<u32>>,
    bells: &Bells,
    pass: &mut ParcelPass<Box<u32>>,
    alloc: Global,
    part: Part,
) -> Fates
    requires of { IsOf hub.now pass.old }
{
    let mut fates = NONE;
    sleep(rt, Duration::from_millis(part.pause));
    for number in 0..part.times {
        fates = fates.and(send_one(rt, hub, bells, pass, alloc, part.how, number));
    }
    fates
}

/// The part of the one that receives.
fn receive_part<R: Wait + Clock>(
    rt: &R,
    hub: &ParcelHub<Box<u32>>,
    bells: &Bells,
    pass: &mut ParcelPass<Box<u32>>,
    part: Part,
) -> Fates
    requires of { IsOf hub.now pass.old }
{
    let mut fates = NONE;
    for due in 0..part.times {
        fates = fates.and(receive_one(rt, hub, bells, pass, part.how, due));
        if due == 0 {
            sleep(rt, Duration::from_millis(part.pause));
        }
    }
    fates
}

/// Gives way so often.
fn give_way() {
    for _ in 0..TURNS {
        yield_now();
    }
}

/// Closes the channel, cancels it, and removes what stands there.
fn end_all(hub: &ParcelHub<Box<u32>>, pass: &mut ParcelPass<Box<u32>>) -> Fates
    requires of { IsOf hub.now pass.old }
{
    let (_closed, _voided) = cancel(hub, pass);
    let mut fates = NONE;
    for _ in 0..4 * TRIES {
        match drain_one(hub, pass) {
            None => return fates,
            Some((Some(_), _)) => fates = fates.and(OVER),
            Some((None, _)) => fates = fates.and(LOST),
        }
    }
    fates
}

/// What a thread does.
#[derive(Clone, Copy)]
enum Task {
    Sends,
    Receives,
    /// It ends the channel after a while.
    Ends,
    Nothing,
}

/// A thread: its pass, task and part, and what became of the boxes there.
#[derive(Drop)]
struct Worker {
    pass: ParcelPass<Box<u32>>,
    task: Task,
    part: Part,
    fates: Fates,
}

/// A thread with this pass that has not begun.
fn new_worker(pass: ParcelPass<Box<u32>>, task: Task, part: Part) -> Worker
    ensures pass { result.pass ≡ pass }
{
    Worker {
        pass,
        task,
        part,
        fates: NONE,
    }
}

/// The task of a thread.
fn work<R: Wait + Clock>(
    rt: &R,
    hub: &ParcelHub<Box<u32>>,
    bells: &Bells,
    alloc: Global,
    worker: &mut Worker,
)
    requires of { IsOf hub.now worker.old.pass }
{
    let part = worker.part;
    worker.fates = match worker.task {
        Task::Sends => send_part(rt, hub, bells, &mut worker.pass, alloc, part),
        Task::Receives => receive_part(rt, hub, bells, &mut worker.pass, part),
        Task::Ends => {
            give_way();
            end_all(hub, &mut worker.pass)
        }
        Task::Nothing => NONE,
    };
}

/// All threads at once.
fn at_once<R: Threads + Wait + Sync + Clock>(
    rt: &R,
    hub: &ParcelHub<Box<u32>>,
    bells: &Bells,
    alloc: Global,
    workers: &mut [Worker],
)
    requires passes { All (λ w. IsOf hub.now w.pass) workers.old }
{
    thread::for_each_mut(
        rt,
        workers,
        4,
        &|_, worker| work(rt, hub, bells, alloc, worker),
    );
}

/// Whether no box was lost, each came out once, and none came back, was refused or is left where the line has no cause for it: what became
/// of those at who sends, at who receives and at who ends the channel, and of those that were left.
fn agree(line: &Line, fates: [Fates; 4]) -> bool {
    let [sent, came, drained, left] = fates;
    let (first, second) = line.senders;
    let all = sent.and(came).and(drained).and(left);
    let back = sent
        .back
        .saturating_add(all.ended)
        .saturating_add(left.over);
    let out = came.over.saturating_add(drained.over).saturating_add(back);
    let each_once = (all.lost == 0) & (out == first.times.saturating_add(second.times));
    let none_back = line.comes_back | (sent.back == 0);
    let none_ended = (all.ended == 0) & (left.over == 0) & (sent.over == came.over);
    each_once & none_back & (line.ends | none_ended)
}

/// Whether the line goes so on this channel, whose first pass takes out what is left.
fn goes_on<R: Threads + Wait + Sync + Clock>(
    rt: &R,
    alloc: Global,
    bells: &Bells,
    hub: &ParcelHub<Box<u32>>,
    main: &mut ParcelPass<Box<u32>>,
    line: &Line,
) -> bool
    requires main { IsOf hub.now main.old × IsFirst main.old }
    requires new { (seen_by main.old).given ≡ 0 ∷ [] }
{
    let (first, second) = line.senders;
    let last = if line.ends { Task::Ends } else { Task::Nothing };
    let mut workers = [
        new_worker(hub.split(main, 1), Task::Sends, first),
        new_worker(hub.split(main, 2), Task::Sends, second),
        new_worker(hub.split(main, 3), Task::Receives, line.receiver),
        new_worker(hub.split(main, 4), last, NOTHING),
    ];
    at_once(rt, hub, bells, alloc, &mut workers);
    let left = end_all(hub, main);
    let [one, other, came, drained] = &workers;
    let sent = one.fates.and(other.fates);
    agree(line, [sent, came.fates, drained.fates, left])
}

/// The same on a channel of this kind with so many places and numbers.
fn goes<R: Threads + Wait + Sync + Clock>(
    rt: &R,
    alloc: Global,
    bells: &Bells,
    kind: Kind,
    places: u32,
    parcels: u32,
    line: &Line,
) -> bool
    requires kind { KeepsAll kind }
    requires places { (1 ≤ places) × (places ≤ 1048576) }
    requires parcels { (1 ≤ parcels) × (parcels ≤ 1048576) }
{
    match ParcelHub::<Box<u32>>::new(alloc, kind, places, parcels) {
        Ok((hub, mut main)) => goes_on(rt, alloc, bells, &hub, &mut main, line),
        Err(_) => false,
    }
}

const NOTHING: Part = Part {
    how: How::GivesUp,
    times: 0,
    pause: 0,
};

/// How often each of those who give up tries.
const TRIES: u32 = 50_000;

const TRIES_AND_GIVES_UP: Part = Part {
    how: How::GivesUp,
    times: TRIES,
    pause: 0,
};

const BOXES_GO_OVER_OR_COME_BACK: Line = Line {
    senders: (TRIES_AND_GIVES_UP, NOTHING),
    receiver: TRIES_AND_GIVES_UP,
    ends: false,
    comes_back: true,
};

/// How many boxes arrive in order.
const BOXES: u32 = 100_000;

const BOXES_ARRIVE_IN_ORDER: Line = Line {
    senders: (
        Part {
            how: How::GivesUp,
            times: BOXES,
            pause: 0,
        },
        NOTHING,
    ),
    receiver: Part {
        how: How::Looks,
        times: BOXES,
        pause: 0,
    },
    ends: false,
    comes_back: false,
};

/// A thousand, with a pause.
const SLEEPS: Part = Part {
    how: How::Sleeps,
    times: 1_000,
    pause: 50,
};

const THREADS_THAT_SLEEP_MOVE_EACH_BOX: Line = Line {
    senders: (SLEEPS, NOTHING),
    receiver: SLEEPS,
    ends: false,
    comes_back: false,
};

const OFTEN_UNTIL_THE_END: Part = Part {
    how: How::GivesUp,
    times: 20_000,
    pause: 0,
};

const FOUR_THREADS_LOSE_NO_BOX: Line = Line {
    senders: (OFTEN_UNTIL_THE_END, OFTEN_UNTIL_THE_END),
    receiver: OFTEN_UNTIL_THE_END,
    ends: true,
    comes_back: true,
};

/// Whether each line goes so, and a sink and a stream go so too.
pub(crate) fn found<R: Threads + Wait + Sync + Clock + RandomSource + AllocGlobal>(
    rt: &R,
    bells: &Bells,
) -> [bool; 7] {
    let alloc = rt.alloc();
    let met = Kind::Rendezvous;
    let (back, order) = (&BOXES_GO_OVER_OR_COME_BACK, &BOXES_ARRIVE_IN_ORDER);
    let (sleep, four) = (&THREADS_THAT_SLEEP_MOVE_EACH_BOX, &FOUR_THREADS_LOSE_NO_BOX);
    [
        goes(rt, alloc, bells, met, 100_000, 50_000, back),
        goes(rt, alloc, bells, Kind::Unlimited, 100_000, 100_000, order),
        goes(rt, alloc, bells, met, 1_000, 1_000, sleep),
        goes(rt, alloc, bells, Kind::Buffered(1), 1_000, 1_000, sleep),
        goes(rt, alloc, bells, Kind::Buffered(2), 80_000, 40_000, four),
        parcel_streams::went(rt, bells, true),
        parcel_streams::went(rt, bells, false),
    ]
}
