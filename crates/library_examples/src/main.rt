//! The library by example: small functions over channels and Jobs, each with a contract, and a program that prints what they answer.
//!
//! - `channels`: to send, to receive and to close, by a `Caller`; a receive that is cancelled while an element comes
//! - `jobs`: to cancel a Job with all below it, by a `JobCaller`
//! - `bridges`: streams, sinks and futures of Jobs, by a drive
//! - `semaphores`: a number behind a mutex, a semaphore of two, and a wait for a permit that is given up
//! - `three_passes`: three coroutines over words, with a pass for each
//! - `counted`: to send in counted cells, waiting for nobody
//! - `parcels`: to send texts that the sender owns, and to have those back that nobody received
//! - `rings`: to put and to take on a ring, to send and to receive or else to wait, and what is left of it
//! - `ring_waits`: to send and to receive on a ring on which who has to wait sleeps; a select, a rendezvous, a sink and a stream
//! - `scopes`: to launch and to cancel, to enter a scope and to see its end, by a `Builder` over both, with the done channels of Jobs
#![tactic(auto)]

mod bridges;
mod channels;
mod counted;
mod jobs;
mod parcels;
mod ring_waits;
mod rings;
mod scopes;
mod semaphores;
mod three_passes;

use bridges::{at_a_rendezvous, result_awaited, through_a_channel, two_doubled};
use channel_calls::{Caller, SendAnswer};
use channel_model::{Kind, Settled};
use channels::{cancelled_receive, receive_or, send_last};
use co_base::{Memory, Tag, Value, Wakes};
use counted::send_or_leave;
use counted_cells::{Counted, CountedGot, CountedState};
use job_model::{JobFloor, JobKind};
use job_tree::JobCaller;
use jobs::cancel_family;
use note_book::Notes;
use one_thread_floor::{ListFloor, TreeFloor};
use parcel_channel::{ParcelGot, ParcelHub};
use parcels::{left_over, send_text};
use ring_bridge::Bells;
use ring_waits::{by_sink_and_stream, by_two_threads, of_two_rings};
use rings::{named_by_a_send, three_put};
use scope_builders::{Builder, LaunchError};
use scopes::launch_and_enter;
use std::alloc::{AllocGlobal, Global};
use std::fmt::Debug;
use std::random::RandomSource;
use std::sync::Wait;
use std::thread::Threads;
use three_passes::{Books, free_permits, given_up, number_behind_a_mutex};

/// Whoever was woken last.
#[derive(Drop)]
struct Woken {
    last: Option<Tag>,
}

impl Wakes for Woken {
    fn wake(&mut self, tag: Tag) {
        self.last = Some(tag);
    }
}

const NOBODY: Woken = Woken { last: None };

/// A channel that keeps two elements gets one and is closed; then two elements are asked for.
fn one_element(alloc: Global) -> Result<(SendAnswer, Value, Value), Memory> {
    let mut floor = ListFloor::new(alloc, &[(Kind::Buffered(2), 4)])?;
    let mut book = Notes::new(alloc);
    let mut wakes = NOBODY;
    let mut caller = Caller {
        floor: &mut floor,
        book: &mut book,
        wakes: &mut wakes,
        who: 0,
    };
    let sent = send_last(&mut caller, 0, 7)?;
    let first = receive_or(&mut caller, 0, 100)?;
    let second = receive_or(&mut caller, 0, 100)?;
    Ok((sent, first, second))
}

/// A receiver is handed an element, and cancelled before it goes on; who was woken last.
fn met_by_a_cancellation(alloc: Global) -> Result<(Option<Settled>, Option<Tag>), Memory> {
    let mut floor = ListFloor::new(alloc, &[(Kind::Rendezvous, 4)])?;
    let mut receiver = Notes::new(alloc);
    let mut sender = Notes::new(alloc);
    let mut wakes = NOBODY;
    let settled = cancelled_receive(&mut floor, &mut receiver, &mut sender, &mut wakes, 0, 5)?;
    Ok((settled, wakes.last))
}

/// The root has one child, and is cancelled with it.
fn two_jobs(alloc: Global) -> Result<u32, Memory> {
    let mut jobs = TreeFloor::new(alloc, 2, 0)?;
    let plain = JobKind {
        supervisor: false,
        scoped: false,
        lazy: false,
    };
    jobs.room(1)?;
    match jobs.attach(0, 0, plain, 1) {
        Ok(_child) => {
            let mut book = Notes::new(alloc);
            let mut wakes = NOBODY;
            let mut caller = JobCaller {
                floor: &mut jobs,
                book: &mut book,
                wakes: &mut wakes,
                who: 0,
            };
            cancel_family(&mut caller, 0)
        }
        Err(_error) => Ok(0),
    }
}

/// The done channels of two coroutines and of one scope.
const DONE: [(Kind, u32); 3] = [(Kind::Signal, 1), (Kind::Signal, 1), (Kind::Signal, 1)];

/// A coroutine is launched, and cancelled at once; then a scope is entered, and its result seen.
fn launched_and_entered(
    alloc: Global,
) -> (Result<u32, LaunchError>, Result<Option<Value>, LaunchError>) {
    let Ok(mut channels) = ListFloor::new(alloc, &DONE) else {
        return (Err(LaunchError::Memory), Err(LaunchError::Memory));
    };
    let Ok(mut jobs) = TreeFloor::new(alloc, 2, 1) else {
        return (Err(LaunchError::Memory), Err(LaunchError::Memory));
    };
    let mut book = Notes::new(alloc);
    let mut wakes = NOBODY;
    let mut builder = Builder {
        channels: &mut channels,
        jobs: &mut jobs,
        book: &mut book,
        wakes: &mut wakes,
        who: 0,
        base: 0,
    };
    launch_and_enter(&mut builder, 1, 9)
}

/// A receiver waits in the first cell and is met there; the second value finds nobody, and its cell is of no use any more.
fn two_sends(alloc: Global) -> Result<Option<(bool, CountedState, bool, CountedGot)>, Memory> {
    let (cells, mut first) = Counted::new(alloc, 2)?;
    let mut second = cells.split(&mut first);
    let CountedGot::Waits(place) = cells.receive(&mut first) else {
        return Ok(None);
    };
    let met = send_or_leave(&cells, &mut second, 9);
    let state = cells.look(&mut first, place);
    let late = send_or_leave(&cells, &mut second, 8);
    let broken = cells.receive(&mut first);
    Ok(Some((met, state, late, broken)))
}

/// What became of three texts.
#[derive(Debug, Drop)]
struct Texts {
    received: Option<String>,
    back: Option<String>,
    left: Vec<Option<String>>,
}

/// One text is received, one nobody receives, and one comes back, since the channel is closed.
fn three_texts(alloc: Global) -> Result<Texts, Memory> {
    let first = String::from_str(alloc, "first")?;
    let second = String::from_str(alloc, "second")?;
    let third = String::from_str(alloc, "third")?;
    let (hub, mut receiver) = ParcelHub::<String>::new(alloc, Kind::Buffered(2), 4, 3)?;
    let mut sender = hub.split(&mut receiver, 1);
    send_text(&hub, &mut sender, first);
    send_text(&hub, &mut sender, second);
    let received = match hub.receive(&mut receiver) {
        ParcelGot::Value(text, _, _) => Some(text),
        _ => None,
    };
    let _ = hub.close(&mut sender, 0);
    let back = send_text(&hub, &mut sender, third);
    let left = left_over(hub, receiver, sender);
    Ok(Texts {
        received,
        back,
        left,
    })
}

fn tell_of_rings<R: Print + Threads + Wait + Sync + RandomSource + AllocGlobal>(rt: &R) {
    tell(rt, "three put", three_put(rt.alloc()));
    tell(rt, "named by a send", named_by_a_send(rt.alloc()));
    if let Ok(bells) = Bells::new(rt.alloc()) {
        tell(rt, "by two threads", by_two_threads(rt, &bells));
        tell(rt, "of two rings", of_two_rings(rt, &bells));
        tell(rt, "by a sink and a stream", by_sink_and_stream(rt, &bells));
    }
}

/// Says what an example answers.
fn tell<R: Print, T: Debug + Drop>(rt: &R, example: &str, answer: T) {
    let _ = println!(rt; "{example}: {answer:?}");
}

fn tell_of_channels<R: Print>(rt: &R, alloc: Global) {
    tell(rt, "one element", one_element(alloc));
    tell(rt, "met by a cancellation", met_by_a_cancellation(alloc));
}

fn tell_of_permits<R: Print>(rt: &R, alloc: Global) {
    let mut books = Books {
        a: Notes::new(alloc),
        b: Notes::new(alloc),
        c: Notes::new(alloc),
    };
    tell(
        rt,
        "a number behind a mutex",
        number_behind_a_mutex(alloc, &mut books),
    );
    tell(rt, "free permits", free_permits(alloc, &mut books));
    tell(
        rt,
        "a wait for a permit that is given up",
        given_up(alloc, &mut books),
    );
}

fn tell_of_jobs<R: Print>(rt: &R, alloc: Global) {
    tell(rt, "two Jobs", two_jobs(alloc));
    let (launched, entered) = launched_and_entered(alloc);
    tell(rt, "launched", launched);
    tell(rt, "entered", entered);
}

fn tell_of_bridges<R: Print + Wait + RandomSource + AllocGlobal>(rt: &R) {
    tell(rt, "through a channel", through_a_channel(rt));
    tell(rt, "two doubled", two_doubled(rt));
    tell(rt, "at a rendezvous", at_a_rendezvous(rt));
    tell(rt, "a result awaited", result_awaited(rt));
}

fn main(rt: HostRuntime) {
    let alloc = rt.alloc();
    tell_of_channels(&rt, alloc);
    tell_of_permits(&rt, alloc);
    tell_of_jobs(&rt, alloc);
    tell_of_bridges(&rt);
    tell(&rt, "two sends", two_sends(alloc));
    tell(&rt, "three texts", three_texts(alloc));
    tell_of_rings(&rt);
}
