//! Values through a ring: by calls that never wait, by calls that may have to, and what is left in the end.
ghost use Rattle.std.specs.Prelude.{◌≡◌, ◌<◌, [], ◌∷◌, IfOk, IfErr, IfSome};
ghost use Rattle.ring_channel.specs.Answers.{IsSent};
ghost use Rattle.ring_channel.specs.Passes.{IsOf, IsFirst, SamePass, seen_by, tag_of};
ghost use Rattle.library_examples.specs.Rings.{IsLeft};

use ring_channel::{
    Called, ReceiveOutcome, Ring, RingFault, RingGot, RingPass, RingSent, RingSide, SendOutcome,
    Wakes,
};
use std::alloc::Global;

/// Puts a value at the next place, or gives it back: the ring is full, closed or spent, or another came first.
pub(crate) fn put_or_keep<T>(ring: &Ring<T>, pass: &mut RingPass<T>, value: T) -> Result<u64, T>
    requires of { IsOf ring.now pass.old }
    ensures of { IsOf ring.now pass.new }
    ensures same { SamePass pass.old pass.new }
    ensures put { IfOk result (λ place. IsSent ring.now.slots place value (seen_by pass.new)) }
    ensures back { IfErr result (λ back. back ≡ value) }
{
    match ring.try_send(pass, value) {
        RingSent::Sent(place) => Ok(place),
        RingSent::Full(back) => Err(back),
        RingSent::Closed(back) => Err(back),
        RingSent::Spent(back) => Err(back),
        RingSent::Passed(back) => Err(back),
    }
}

/// Takes the first value, with its place: the one that was put there. None: it is not there yet, the ring is over, or another had it.
pub(crate) fn take_first<T>(ring: &Ring<T>, pass: &mut RingPass<T>) -> Option<(u64, T)>
    requires of { IsOf ring.now pass.old }
    ensures of { IsOf ring.now pass.new }
    ensures same { SamePass pass.old pass.new }
    ensures put { IfSome result (λ r. IsSent ring.now.slots r.0 r.1 (seen_by pass.new)) }
{
    match ring.try_receive(pass) {
        RingGot::Value(place, value) => Some((place, value)),
        RingGot::Nothing => None,
        RingGot::Closed => None,
        RingGot::Passed => None,
    }
}

/// The values that nobody received, in the order in which they were put, once the sender has ended.
pub(crate) fn left_in<T>(
    ring: Ring<T>,
    mut receiver: RingPass<T>,
    mut sender: RingPass<T>,
) -> Vec<T>
    requires receiver { IsOf ring receiver × IsFirst receiver }
    requires sender { IsOf ring sender }
    requires given { (seen_by receiver).given ≡ 1 ∷ 0 ∷ [] }
    requires tags { ((seen_by receiver).tags ≡ 0 ∷ []) × ((seen_by sender).tags ≡ 1 ∷ []) }
    ensures left { IsLeft ring.slots (seen_by receiver) (seen_by sender) result.items }
{
    ring.meet(&mut receiver, &mut sender);
    ring.end(&mut receiver, sender);
    ring.into_rest(receiver)
}

/// Where numbers were put, what was taken, what was looked at, and what is left.
pub(crate) type ThreePut = (
    [Result<u64, u32>; 3],
    Option<(u64, u32)>,
    [bool; 3],
    Vec<u32>,
);

/// Three numbers are put where there is room for two, the first is taken, and the ring is closed. Where they were put; what was taken;
/// whether the first and the second were claimed, and whether the ring is closed; and what is left.
pub(crate) fn three_put(alloc: Global) -> Result<ThreePut, RingFault> {
    let (ring, mut receiver) = Ring::new(alloc, 2)?;
    let mut sender = ring.split(&mut receiver, 1);
    let put = [
        put_or_keep(&ring, &mut sender, 11),
        put_or_keep(&ring, &mut sender, 12),
        put_or_keep(&ring, &mut sender, 13),
    ];
    let taken = take_first(&ring, &mut receiver);
    ring.close(&mut receiver);
    let seen = [
        ring.was_taken(&mut sender, 0),
        ring.was_taken(&mut sender, 1),
        ring.is_closed(&mut sender),
    ];
    Ok((put, taken, seen, left_in(ring, receiver, sender)))
}

/// Sends a value, and says who is to be woken. The value comes back where there is no room, or will be none.
pub(crate) fn send_or_keep<T>(
    ring: &Ring<T>,
    pass: &mut RingPass<T>,
    tag: u32,
    value: T,
) -> Result<Wakes, (T, Called)>
    requires of { IsOf ring.now pass.old }
    requires tag { (tag ≡ tag_of pass.old) × (tag < 64) }
    ensures of { IsOf ring.now pass.new }
    ensures same { SamePass pass.old pass.new }
    ensures back { IfErr result (λ r. r.0 ≡ value) }
{
    match ring.send(pass, tag, value) {
        SendOutcome::Sent { place: _, wakes } => Ok(wakes),
        SendOutcome::Waits(back) => Err((back, Called::Nobody)),
        SendOutcome::Closed(back, called) => Err((back, called)),
        SendOutcome::Spent(back, called) => Err((back, called)),
        SendOutcome::Passed(back) => Err((back, Called::Nobody)),
    }
}

/// Receives a value, and says who is to be woken. Err: the pass waits, or the ring is over.
pub(crate) fn receive_or_wait<T>(
    ring: &Ring<T>,
    pass: &mut RingPass<T>,
    tag: u32,
) -> Result<(T, Wakes), Called>
    requires of { IsOf ring.now pass.old }
    requires tag { (tag ≡ tag_of pass.old) × (tag < 64) }
    ensures of { IsOf ring.now pass.new }
    ensures same { SamePass pass.old pass.new }
{
    match ring.receive(pass, tag) {
        ReceiveOutcome::Received {
            place: _,
            value,
            wakes,
        } => Ok((value, wakes)),
        ReceiveOutcome::Closed(called) => Err(called),
        ReceiveOutcome::Waits => Err(Called::Nobody),
        ReceiveOutcome::Passed => Err(Called::Nobody),
    }
}

/// Whether two wait, whom a send and who leaves name, and what was received.
pub(crate) type Named = (
    [bool; 2],
    Result<Wakes, (u32, Called)>,
    Called,
    Result<(u32, Wakes), Called>,
);

/// Two receivers wait. The send of a number names the first, which has no use for it and leaves; so the second is named, and has it.
pub(crate) fn named_by_a_send(alloc: Global) -> Result<Named, RingFault> {
    let (ring, mut first) = Ring::new(alloc, 2)?;
    let mut second = ring.split(&mut first, 1);
    let mut sender = ring.split(&mut first, 2);
    let wait = [
        receive_or_wait(&ring, &mut first, 0).is_err(),
        receive_or_wait(&ring, &mut second, 1).is_err(),
    ];
    let sent = send_or_keep(&ring, &mut sender, 2, 7);
    let left = ring.leave(&mut first, RingSide::Receive, 0);
    let received = receive_or_wait(&ring, &mut second, 1);
    Ok((wait, sent, left, received))
}
