//! Calls on a ring, one after the other: what each answers, who waits, and who is named.
ghost use Rattle.std.specs.Prelude.{◌≡◌, ◌<◌};
ghost use Rattle.ring_channel.specs.Passes.{IsOf, SamePass, tag_of};
ghost use Rattle.bridge_tests.specs.RingPasses.{AreThree};

use crate::rings::ring_calls::{Three, new_ring, rest_of};
use ring_channel::{
    Called, ReceiveOutcome, Ring, RingFault, RingGot, RingPass, RingSent, RingSide, SendOutcome,
    Wakes,
};
use std::alloc::Global;

/// A call.
#[derive(Clone, Copy)]
pub(crate) enum Call {
    TrySend(u32),
    TryReceive,
    Send(u32),
    Receive,
    Close,
    CloseAndCall,
    Wait(RingSide),
    CallOn(RingSide),
    Leave(RingSide),
    IsClosed,
    /// Whether the value of this place was taken.
    WasTaken(u64),
}

/// By whom: the passes of the tags 0, 1 and 2.
#[derive(Clone, Copy)]
pub(crate) enum By {
    Main,
    One,
    Two,
}

/// What was answered.
#[derive(Clone, Copy, PartialEq)]
pub(crate) enum Word {
    Sent,
    Full,
    Refused,
    Spent,
    Passed,
    Value,
    Nothing,
    Over,
    Waits,
    Yes,
    No,
    /// A side's names stand as those of receivers.
    Names,
}

/// A word, the place and the value that it speaks of, and whom to wake.
type Answer = (Word, u64, u32, Wakes);

/// A call by a pass, and what it must answer.
pub(crate) type Row = (By, Call, Answer);

/// A word with nothing behind it.
fn plain(word: Word) -> Answer {
    (word, 0, 0, NOBODY)
}

fn yes_if(yes: bool) -> Answer {
    plain(if yes { Word::Yes } else { Word::No })
}

/// Whom a call on one side names.
fn names(called: Called) -> Answer {
    let wakes = Wakes {
        receivers: called,
        senders: Called::Nobody,
    };
    (Word::Names, 0, 0, wakes)
}

/// What a send without a wait answered.
fn tried_to_send(found: RingSent<u32>) -> Answer {
    match found {
        RingSent::Sent(place) => (Word::Sent, place, 0, NOBODY),
        RingSent::Full(back) => (Word::Full, 0, back, NOBODY),
        RingSent::Closed(back) => (Word::Refused, 0, back, NOBODY),
        RingSent::Spent(back) => (Word::Spent, 0, back, NOBODY),
        RingSent::Passed(back) => (Word::Passed, 0, back, NOBODY),
    }
}

/// What a receive without a wait answered.
fn tried_to_receive(found: RingGot<u32>) -> Answer {
    match found {
        RingGot::Value(place, value) => (Word::Value, place, value, NOBODY),
        RingGot::Nothing => plain(Word::Nothing),
        RingGot::Closed => plain(Word::Over),
        RingGot::Passed => plain(Word::Passed),
    }
}

/// What a send answered that may wait.
fn sent(found: SendOutcome<u32>) -> Answer {
    match found {
        SendOutcome::Sent { place, wakes } => (Word::Sent, place, 0, wakes),
        SendOutcome::Waits(_) => plain(Word::Waits),
        SendOutcome::Closed(back, _) => (Word::Refused, 0, back, NOBODY),
        SendOutcome::Spent(back, _) => (Word::Spent, 0, back, NOBODY),
        SendOutcome::Passed(back) => (Word::Passed, 0, back, NOBODY),
    }
}

/// What a receive answered that may wait.
fn received(found: ReceiveOutcome<u32>) -> Answer {
    match found {
        ReceiveOutcome::Received {
            place,
            value,
            wakes,
        } => (Word::Value, place, value, wakes),
        ReceiveOutcome::Waits => plain(Word::Waits),
        ReceiveOutcome::Closed(_) => plain(Word::Over),
        ReceiveOutcome::Passed => plain(Word::Passed),
    }
}

/// Closes the ring. Answers whether it was open, and all who waited.
fn close_and_call(ring: &Ring<u32>, pass: &mut RingPass<u32>) -> Answer
    requires of { IsOf ring.now pass.old }
    ensures of { IsOf ring.now pass.new }
    ensures same { SamePass pass.old pass.new }
{
    let closing = ring.close_and_call(pass);
    let wakes = Wakes {
        receivers: Called::All(closing.receivers),
        senders: Called::All(closing.senders),
    };
    let word = if closing.closed { Word::Yes } else { Word::No };
    (word, 0, 0, wakes)
}

/// Makes the call by this pass.
fn make(ring: &Ring<u32>, pass: &mut RingPass<u32>, tag: u32, call: Call) -> Answer
    requires of { IsOf ring.now pass.old }
    requires tag { (tag ≡ tag_of pass.old) × (tag < 64) }
    ensures of { IsOf ring.now pass.new }
    ensures same { SamePass pass.old pass.new }
{
    match call {
        Call::TrySend(value) => tried_to_send(ring.try_send(pass, value)),
        Call::TryReceive => tried_to_receive(ring.try_receive(pass)),
        Call::Send(value) => sent(ring.send(pass, tag, value)),
        Call::Receive => received(ring.receive(pass, tag)),
        Call::Close => yes_if(ring.close(pass)),
        Call::CloseAndCall => close_and_call(ring, pass),
        Call::Wait(side) => yes_if(ring.stand_by(pass, side, tag)),
        Call::CallOn(side) => names(ring.call_on(pass, side, tag, 0)),
        Call::Leave(side) => names(ring.leave(pass, side, tag)),
        Call::IsClosed => yes_if(ring.is_closed(pass)),
        Call::WasTaken(place) => yes_if(ring.was_taken(pass, place)),
    }
}

/// Makes the call by one of the passes.
fn make_by(ring: &Ring<u32>, three: &mut Three<u32>, by: By, call: Call) -> Answer
    requires three { AreThree ring.now three.old.main three.old.one three.old.two }
    ensures three { AreThree ring.now three.new.main three.new.one three.new.two }
{
    match by {
        By::Main => make(ring, &mut three.main, 0, call),
        By::One => make(ring, &mut three.one, 1, call),
        By::Two => make(ring, &mut three.two, 2, call),
    }
}

/// Makes the calls. Whether each answered as its row says.
pub(crate) fn are_right(ring: &Ring<u32>, three: &mut Three<u32>, rows: &[Row]) -> bool
    requires three { AreThree ring.now three.old.main three.old.one three.old.two }
    ensures three { AreThree ring.now three.new.main three.new.one three.new.two }
{
    let mut right = true;
    for &(by, call, answer) in rows {
        let found = make_by(ring, three, by, call);
        right = right & (found == answer);
    }
    right
}

/// Makes these calls on a ring of so many slots and of six places. Whether each answered as its row says, and this is left.
fn went(alloc: Global, slots: u32, rows: &[Row], left: &[u32]) -> bool {
    match new_ring::<u32>(alloc, slots, 6) {
        Ok((ring, mut three)) => {
            let right = are_right(&ring, &mut three, rows);
            let Three { main, one, two } = three;
            right & (rest_of(ring, main, one, two).as_slice() == left)
        }
        Err(_) => false,
    }
}

/// Whether no ring of so many slots is made, for this cause.
fn is_refused(alloc: Global, slots: u32, fault: RingFault) -> bool {
    match Ring::<u32>::with_places(alloc, slots, 6) {
        Ok(_) => false,
        Err(found) => found == fault,
    }
}

/// Whether each call answers as its row says, and a ring has one slot at least and a million at most.
pub(crate) fn found(alloc: Global) -> [bool; 9] {
    [
        went(alloc, 1, &ONE_SLOT, &[12]),
        went(alloc, 2, &TWO_SLOTS, &[]),
        went(alloc, 3, &THREE_SLOTS, &[33, 34, 35]),
        is_refused(alloc, 0, RingFault::NoSlots),
        is_refused(alloc, 1_048_577, RingFault::TooManySlots),
        went(alloc, 1, &WAITS_ON_ONE_SLOT, &[11]),
        went(alloc, 2, &WAITS_ON_TWO_SLOTS, &[]),
        went(alloc, 3, &WAITS_ON_THREE_SLOTS, &[]),
        went(alloc, 1, &WHOLE_CALLS, &[]),
    ]
}

const RECEIVE: RingSide = RingSide::Receive;

const SEND: RingSide = RingSide::Send;

const NOBODY: Wakes = Wakes {
    receivers: Called::Nobody,
    senders: Called::Nobody,
};

const RECEIVER_0: Wakes = Wakes {
    receivers: Called::One(0),
    senders: Called::Nobody,
};

const RECEIVER_1: Wakes = Wakes {
    receivers: Called::One(1),
    senders: Called::Nobody,
};

const SENDER_2: Wakes = Wakes {
    receivers: Called::Nobody,
    senders: Called::One(2),
};

const YES: Answer = (Word::Yes, 0, 0, NOBODY);

const NO: Answer = (Word::No, 0, 0, NOBODY);

const NOTHING: Answer = (Word::Nothing, 0, 0, NOBODY);

const WAITS: Answer = (Word::Waits, 0, 0, NOBODY);

const OVER: Answer = (Word::Over, 0, 0, NOBODY);

const NAMES_NOBODY: Answer = (Word::Names, 0, 0, NOBODY);

const NAMES_1: Answer = (Word::Names, 0, 0, RECEIVER_1);

const NAMES_2: Answer = (
    Word::Names,
    0,
    0,
    Wakes {
        receivers: Called::One(2),
        senders: Called::Nobody,
    },
);

/// Closes, where nobody waits.
const CLOSES_FOR_NOBODY: Answer = (
    Word::Yes,
    0,
    0,
    Wakes {
        receivers: Called::All(0),
        senders: Called::All(0),
    },
);

/// Closes, where the receivers 1 and 2 wait: 2 + 4.
const CLOSES_FOR_BOTH: Answer = (
    Word::Yes,
    0,
    0,
    Wakes {
        receivers: Called::All(6),
        senders: Called::All(0),
    },
);

const ONE_SLOT: [Row; 8] = [
    (By::One, Call::TryReceive, NOTHING),
    (By::One, Call::TrySend(10), (Word::Sent, 0, 0, NOBODY)),
    (By::One, Call::TrySend(11), (Word::Full, 0, 11, NOBODY)),
    (By::One, Call::TryReceive, (Word::Value, 0, 10, NOBODY)),
    (By::One, Call::TrySend(12), (Word::Sent, 1, 0, NOBODY)),
    (By::One, Call::Close, YES),
    (By::One, Call::TrySend(13), (Word::Refused, 0, 13, NOBODY)),
    (By::One, Call::Close, NO),
];

const TWO_SLOTS: [Row; 9] = [
    (By::One, Call::TrySend(20), (Word::Sent, 0, 0, NOBODY)),
    (By::One, Call::TrySend(21), (Word::Sent, 1, 0, NOBODY)),
    (By::One, Call::TrySend(22), (Word::Full, 0, 22, NOBODY)),
    (By::One, Call::TryReceive, (Word::Value, 0, 20, NOBODY)),
    (By::One, Call::TrySend(23), (Word::Sent, 2, 0, NOBODY)),
    (By::One, Call::Close, YES),
    (By::One, Call::TryReceive, (Word::Value, 1, 21, NOBODY)),
    (By::One, Call::TryReceive, (Word::Value, 2, 23, NOBODY)),
    (By::One, Call::TryReceive, OVER),
];

const THREE_SLOTS: [Row; 10] = [
    (By::One, Call::TrySend(30), (Word::Sent, 0, 0, NOBODY)),
    (By::One, Call::TrySend(31), (Word::Sent, 1, 0, NOBODY)),
    (By::One, Call::TryReceive, (Word::Value, 0, 30, NOBODY)),
    (By::One, Call::TryReceive, (Word::Value, 1, 31, NOBODY)),
    (By::One, Call::TrySend(32), (Word::Sent, 2, 0, NOBODY)),
    (By::One, Call::TrySend(33), (Word::Sent, 3, 0, NOBODY)),
    (By::One, Call::TrySend(34), (Word::Sent, 4, 0, NOBODY)),
    (By::One, Call::TryReceive, (Word::Value, 2, 32, NOBODY)),
    (By::One, Call::TrySend(35), (Word::Sent, 5, 0, NOBODY)),
    (By::One, Call::TrySend(36), (Word::Spent, 0, 36, NOBODY)),
];

/// The receiver 1 waits, and the send of 2 names it; then 2 waits, and the receive of 1 names it.
const WAITS_ON_ONE_SLOT: [Row; 12] = [
    (By::One, Call::TryReceive, NOTHING),
    (By::One, Call::Wait(RECEIVE), YES),
    (By::Two, Call::TrySend(10), (Word::Sent, 0, 0, NOBODY)),
    (By::Two, Call::CallOn(RECEIVE), NAMES_1),
    (By::Two, Call::CallOn(SEND), NAMES_NOBODY),
    (By::Two, Call::Wait(SEND), YES),
    (By::One, Call::TryReceive, (Word::Value, 0, 10, NOBODY)),
    (By::One, Call::CallOn(SEND), NAMES_2),
    (By::One, Call::CallOn(RECEIVE), NAMES_NOBODY),
    (By::Two, Call::Wait(SEND), NO),
    (By::Two, Call::TrySend(11), (Word::Sent, 1, 0, NOBODY)),
    (By::One, Call::Wait(RECEIVE), NO),
];

/// The receivers 1 and 2 wait, 1 is named and gives its wait up, and so 2 is named; where nothing is left nobody is.
const WAITS_ON_TWO_SLOTS: [Row; 10] = [
    (By::One, Call::Wait(RECEIVE), YES),
    (By::Two, Call::Wait(RECEIVE), YES),
    (By::Main, Call::CallOn(RECEIVE), NAMES_NOBODY),
    (By::Main, Call::TrySend(20), (Word::Sent, 0, 0, NOBODY)),
    (By::Main, Call::CallOn(RECEIVE), NAMES_1),
    (By::One, Call::CallOn(RECEIVE), NAMES_2),
    (By::Two, Call::TryReceive, (Word::Value, 0, 20, NOBODY)),
    (By::One, Call::Wait(RECEIVE), YES),
    (By::Two, Call::CallOn(RECEIVE), NAMES_NOBODY),
    (By::Two, Call::CallOn(SEND), NAMES_NOBODY),
];

/// The receivers 1 and 2 wait, and the close names both; afterwards nobody waits.
const WAITS_ON_THREE_SLOTS: [Row; 5] = [
    (By::One, Call::Wait(RECEIVE), YES),
    (By::Two, Call::Wait(RECEIVE), YES),
    (By::Main, Call::CloseAndCall, CLOSES_FOR_BOTH),
    (By::One, Call::Wait(RECEIVE), NO),
    (By::Two, Call::CallOn(RECEIVE), NAMES_NOBODY),
];

/// One slot, by whole calls: the receiver 1 waits and is named by the send of 2; the sender 2 waits and is named by the receive of 1; then
/// 1 and the first pass wait, 1 leaves as it is named, and the first pass is named in its place; the close ends it all.
const WHOLE_CALLS: [Row; 13] = [
    (By::One, Call::Receive, WAITS),
    (By::Two, Call::Send(10), (Word::Sent, 0, 0, RECEIVER_1)),
    (By::Two, Call::Send(11), WAITS),
    (By::One, Call::Receive, (Word::Value, 0, 10, SENDER_2)),
    (By::Two, Call::Send(11), (Word::Sent, 1, 0, NOBODY)),
    (By::One, Call::Receive, (Word::Value, 1, 11, NOBODY)),
    (By::One, Call::Receive, WAITS),
    (By::Main, Call::Receive, WAITS),
    (By::Two, Call::Send(12), (Word::Sent, 2, 0, RECEIVER_0)),
    (By::Main, Call::Leave(RECEIVE), NAMES_1),
    (By::One, Call::Receive, (Word::Value, 2, 12, NOBODY)),
    (By::Main, Call::CloseAndCall, CLOSES_FOR_NOBODY),
    (By::One, Call::Receive, OVER),
];

/// The first value, 6, is claimed and told so.
pub(crate) const A_VALUE_THAT_IS_CLAIMED_IS_TAKEN: [Row; 5] = [
    (By::One, Call::IsClosed, NO),
    (By::One, Call::TrySend(6), (Word::Sent, 0, 0, NOBODY)),
    (By::Two, Call::WasTaken(0), NO),
    (By::Two, Call::TryReceive, (Word::Value, 0, 6, NOBODY)),
    (By::One, Call::WasTaken(0), YES),
];
