//! A select over two rings: call by call, and by a thread that sleeps.
ghost use Rattle.std.specs.Prelude.{◌≡◌};
ghost use Rattle.ring_channel.specs.Passes.{tag_of};
ghost use Rattle.bridge_tests.specs.RingPasses.{IsNew, IsPass};

use ring_bridge::{Bells, Chosen, InOrder, ReceiveClause, SendClause, receive, select, send};
use ring_channel::{Called, Ring, RingPass, SendOutcome};
use std::alloc::AllocGlobal;
use std::sync::Wait;
use std::thread::{Threads, join};

/// How many numbers are sent on each ring.
const NUMBERS: u32 = 1_000;

/// What is checked: the functions of these names.
#[derive(Clone, Copy)]
pub(crate) enum Check {
    TheFirstClauseThatMayGoOnIsChosen,
    ASendThatHasNoRoomIsNotChosen,
    AThreadThatSelectsReceivesAllOfBoth,
}

/// A select over receives of two rings.
type Both<'a> = InOrder<ReceiveClause<'a, u32>, ReceiveClause<'a, u32>>;

/// Selects. Answers which clause was chosen, and what it received.
fn choose<R: Wait>(rt: &R, bells: &Bells, clause: &mut Both<'_>) -> (u32, Option<(u64, u32)>)
    requires tag { (1 ≡ tag_of clause.old.first.pass) × (1 ≡ tag_of clause.old.second.pass) }
    ensures tag { (1 ≡ tag_of clause.new.first.pass) × (1 ≡ tag_of clause.new.second.pass) }
{
    match select(rt, bells, clause, 1) {
        Chosen::First(found) => (1, found),
        Chosen::Second(found) => (2, found),
    }
}

/// Whether 7 comes of the second, then 5 of the first, 8 of the second, and the end of the first.
fn goes_by_turns<R: Wait>(
    rt: &R,
    bells: &Bells,
    ring: &Ring<u32>,
    main: &mut RingPass<u32>,
    other: &Ring<u32>,
    sender: &mut RingPass<u32>,
    clause: &mut Both<'_>,
) -> bool
    requires main { IsPass ring.now 0 main.old }
    requires sender { IsPass other.now 0 sender.old }
    requires tag { (1 ≡ tag_of clause.old.first.pass) × (1 ≡ tag_of clause.old.second.pass) }
{
    other.try_send(sender, 7);
    let seven = choose(rt, bells, clause) == (2, Some((0, 7)));
    let named_nobody = matches!(
        ring.send(main, 0, 5),
        SendOutcome::Sent { wakes, .. } if wakes.receivers == Called::Nobody
    );
    other.try_send(sender, 8);
    let five = choose(rt, bells, clause) == (1, Some((0, 5)));
    let eight = choose(rt, bells, clause) == (2, Some((1, 8)));
    ring.close(main);
    let over = choose(rt, bells, clause) == (1, None);
    seven & named_nobody & five & eight & over
}

/// The first clause that may go on is chosen.
fn first_is_chosen<R: Wait>(
    rt: &R,
    bells: &Bells,
    ring: &Ring<u32>,
    main: &mut RingPass<u32>,
    other: &Ring<u32>,
    sender: &mut RingPass<u32>,
) -> bool
    requires main { IsNew ring.now main.old }
    requires sender { IsNew other.now sender.old }
{
    let mut clause = InOrder {
        first: ReceiveClause::new(ring, ring.split(main, 1)),
        second: ReceiveClause::new(other, other.split(sender, 1)),
    };
    goes_by_turns(rt, bells, ring, main, other, sender, &mut clause)
}

/// Whether 7 comes of the second clause as long as 3 fills the ring of the first, which sends 4 then.
fn sends_once_there_is_room<R: Wait>(
    rt: &R,
    bells: &Bells,
    ring: &Ring<u32>,
    main: &mut RingPass<u32>,
    clause: &mut InOrder<SendClause<'_, u32>, ReceiveClause<'_, u32>>,
) -> bool
    requires main { IsPass ring.now 0 main.old }
    requires tag { (1 ≡ tag_of clause.old.first.pass) × (1 ≡ tag_of clause.old.second.pass) }
{
    let received = matches!(select(rt, bells, clause, 1), Chosen::Second(Some((0, 7))));
    let taken = receive(rt, ring, bells, main, 0) == Some((0, 3));
    let sent = matches!(select(rt, bells, clause, 1), Chosen::First(Ok(1)));
    let then = receive(rt, ring, bells, main, 0) == Some((1, 4));
    received & taken & sent & then
}

/// A send that has no room is not chosen.
fn no_room_is_not_chosen<R: Wait>(
    rt: &R,
    bells: &Bells,
    ring: &Ring<u32>,
    main: &mut RingPass<u32>,
    other: &Ring<u32>,
    sender: &mut RingPass<u32>,
) -> bool
    requires main { IsNew ring.now main.old }
    requires sender { IsNew other.now sender.old }
{
    let mut clause = InOrder {
        first: SendClause::new(ring, ring.split(main, 1), 4),
        second: ReceiveClause::new(other, other.split(sender, 1)),
    };
    ring.try_send(main, 3);
    other.try_send(sender, 7);
    sends_once_there_is_room(rt, bells, ring, main, &mut clause)
}

/// Sends the numbers from 0 on, each on one ring and then on the other.
fn send_on_both<R: Wait>(
    rt: &R,
    bells: &Bells,
    ring: &Ring<u32>,
    pass: &mut RingPass<u32>,
    other: &Ring<u32>,
    another: &mut RingPass<u32>,
)
    requires pass { IsPass ring.now 2 pass.old }
    requires another { IsPass other.now 2 another.old }
{
    for number in 0..NUMBERS {
        let _ = send(rt, other, bells, another, 2, number);
        let _ = send(rt, ring, bells, pass, 2, number);
    }
}

/// Receives all of them. Answers how many came from each ring with the number that was due.
fn receive_of_both<R: Wait>(rt: &R, bells: &Bells, clause: &mut Both<'_>) -> [u32; 2]
    requires tag { (1 ≡ tag_of clause.old.first.pass) × (1 ≡ tag_of clause.old.second.pass) }
{
    let mut due = [0u32; 2];
    for _ in 0..2 * NUMBERS {
        match choose(rt, bells, clause) {
            (1, Some((_, number))) if number == due[0] => due[0] = due[0].wrapping_add(1),
            (2, Some((_, number))) if number == due[1] => due[1] = due[1].wrapping_add(1),
            _ => {}
        }
    }
    due
}

/// A thread that selects receives all of both.
fn receives_all<R: Threads + Wait + Sync>(
    rt: &R,
    bells: &Bells,
    ring: &Ring<u32>,
    main: &mut RingPass<u32>,
    other: &Ring<u32>,
    sender: &mut RingPass<u32>,
) -> bool
    requires main { IsNew ring.now main.old }
    requires sender { IsNew other.now sender.old }
{
    let mut clause = InOrder {
        first: ReceiveClause::new(ring, ring.split(main, 1)),
        second: ReceiveClause::new(other, other.split(sender, 1)),
    };
    let (mut two, mut another) = (ring.split(main, 2), other.split(sender, 2));
    let (_, due) = join(
        rt,
        || send_on_both(rt, bells, ring, &mut two, other, &mut another),
        || -> [u32; 2]
            requires tag { (1 ≡ tag_of clause.first.pass) × (1 ≡ tag_of clause.second.pass) }
        { receive_of_both(rt, bells, &mut clause) },
    );
    due == [NUMBERS; 2]
}

/// Whether this check went as its name says on these rings.
fn went_on<R: Threads + Wait + Sync>(
    rt: &R,
    bells: &Bells,
    ring: &Ring<u32>,
    main: &mut RingPass<u32>,
    other: &Ring<u32>,
    sender: &mut RingPass<u32>,
    check: Check,
) -> bool
    requires main { IsNew ring.now main.old }
    requires sender { IsNew other.now sender.old }
{
    match check {
        Check::TheFirstClauseThatMayGoOnIsChosen => {
            first_is_chosen(rt, bells, ring, main, other, sender)
        }
        Check::ASendThatHasNoRoomIsNotChosen => {
            no_room_is_not_chosen(rt, bells, ring, main, other, sender)
        }
        Check::AThreadThatSelectsReceivesAllOfBoth => {
            receives_all(rt, bells, ring, main, other, sender)
        }
    }
}

/// The same with two rings of so many slots.
pub(crate) fn went<R: Threads + Wait + Sync + AllocGlobal>(
    rt: &R,
    bells: &Bells,
    slots: u32,
    check: Check,
) -> bool {
    let Ok((ring, mut main)) = Ring::<u32>::with_places(rt.alloc(), slots, 1_000) else {
        return false;
    };
    let Ok((other, mut sender)) = Ring::<u32>::with_places(rt.alloc(), slots, 1_000) else {
        return false;
    };
    went_on(rt, bells, &ring, &mut main, &other, &mut sender, check)
}
