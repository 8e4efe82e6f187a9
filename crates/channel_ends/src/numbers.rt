//! Answers as numbers, and whom to wake as masks.
ghost use Rattle.std.specs.Prelude.{◌≡◌, ◌<◌, ◌^◌};
ghost use Rattle.channel_ends.specs.Numbers.{IsMask, NumberedSend, NumberedReceive, NumberedLeave, NumberedClose, number_of_new, number_of_split};

use crate::faults::SplitFault;
use co_base::Tag;
use ring_channel::{Called, Closing, ReceiveOutcome, RingFault, SendOutcome, Wakes};

/// Whom to wake: the bit 2^t is that of the end of tag t.
#[repr(C)]
#[derive(Drop)]
pub struct ChannelWakes {
    /// Of those who wait to receive.
    pub receivers: u64,
    /// Of those who wait to send.
    pub senders: u64,
}

impl ChannelWakes {
    /// Nobody.
    pub(crate) fn none() -> ChannelWakes
        ensures { (result.receivers ≡ 0) × (result.senders ≡ 0) }
    {
        ChannelWakes {
            receivers: 0,
            senders: 0,
        }
    }

    /// Those who are called on both sides.
    pub(crate) fn of(wakes: Wakes) -> ChannelWakes
        ensures { IsMask wakes.receivers result.receivers × IsMask wakes.senders result.senders }
    {
        ChannelWakes {
            receivers: mask(wakes.receivers),
            senders: mask(wakes.senders),
        }
    }

    /// Those who wait to send.
    pub(crate) fn of_senders(called: Called) -> ChannelWakes
        ensures { (result.receivers ≡ 0) × IsMask called result.senders }
    {
        ChannelWakes {
            receivers: 0,
            senders: mask(called),
        }
    }

    /// Those who wait to receive.
    pub(crate) fn of_receivers(called: Called) -> ChannelWakes
        ensures { IsMask called result.receivers × (result.senders ≡ 0) }
    {
        ChannelWakes {
            receivers: mask(called),
            senders: 0,
        }
    }
}

/// The bit of a tag.
#[tactic(auto, using(crate::proofs::Masks::one_bit))]
fn bit_of(tag: Tag) -> u64
    requires few { tag < 64 }
    ensures bit { result ≡ 2 ^ tag }
{
    1u64 << tag
}

/// The mask of those who are called.
fn mask(called: Called) -> u64
    ensures { IsMask called result }
{
    match called {
        Called::Nobody => 0,
        Called::One(tag) => {
            if tag < 64 {
                return bit_of(tag);
            }
            0
        }
        Called::All(all) => all,
    }
}

/// 0 sent, 1 waits, 2 closed, 3 spent, 4 others came first each time, 5 there is no end.
pub fn send_number(answer: Option<SendOutcome<u64>>, wakes: &mut ChannelWakes) -> u32
    ensures { NumberedSend answer wakes.new result }
{
    *wakes = ChannelWakes::none();
    match answer {
        Some(
            SendOutcome::Sent {
                place: _,
                wakes: both,
            },
        ) => {
            *wakes = ChannelWakes::of(both);
            0
        }
        Some(SendOutcome::Waits(_)) => 1,
        Some(SendOutcome::Closed(_, called)) => {
            *wakes = ChannelWakes::of_senders(called);
            2
        }
        Some(SendOutcome::Spent(_, called)) => {
            *wakes = ChannelWakes::of_senders(called);
            3
        }
        Some(SendOutcome::Passed(_)) => 4,
        None => 5,
    }
}

/// 0 received, 1 waits, 2 closed, 4 others came first each time, 5 there is no end.
pub fn receive_number(
    answer: Option<ReceiveOutcome<u64>>,
    item: &mut u64,
    wakes: &mut ChannelWakes,
) -> u32
    ensures { NumberedReceive answer item.old item.new wakes.new result }
{
    *wakes = ChannelWakes::none();
    match answer {
        Some(
            ReceiveOutcome::Received {
                place: _,
                value,
                wakes: both,
            },
        ) => {
            *item = value;
            *wakes = ChannelWakes::of(both);
            0
        }
        Some(ReceiveOutcome::Waits) => 1,
        Some(ReceiveOutcome::Closed(called)) => {
            *wakes = ChannelWakes::of_receivers(called);
            2
        }
        Some(ReceiveOutcome::Passed) => 4,
        None => 5,
    }
}

/// 0 done, 5 there is no end.
pub fn leave_number(answer: Option<Wakes>, wakes: &mut ChannelWakes) -> u32
    ensures { NumberedLeave answer wakes.new result }
{
    match answer {
        Some(both) => {
            *wakes = ChannelWakes::of(both);
            0
        }
        None => {
            *wakes = ChannelWakes::none();
            5
        }
    }
}

/// 0 closed by this call, 2 closed before, 5 there is no end.
pub fn close_number(answer: Option<Closing>, wakes: &mut ChannelWakes) -> u32
    ensures { NumberedClose answer wakes.new result }
{
    match answer {
        Some(closing) => {
            *wakes = ChannelWakes {
                receivers: closing.receivers,
                senders: closing.senders,
            };
            if closing.closed { 0 } else { 2 }
        }
        None => {
            *wakes = ChannelWakes::none();
            5
        }
    }
}

/// 0 made, 6 the handle has an end, 7 out of memory, 8 a wrong number of slots.
pub fn new_number(answer: Option<Result<(), RingFault>>) -> u32
    ensures { result ≡ number_of_new answer }
{
    match answer {
        Some(Ok(())) => 0,
        Some(Err(RingFault::NoSlots)) => 8,
        Some(Err(RingFault::TooManySlots)) => 8,
        Some(Err(RingFault::Memory)) => 7,
        None => 6,
    }
}

/// 0 split, 5 there is no end, 6 the other handle has an end, 7 out of memory, 9 no tag is left.
pub fn split_number(answer: Result<(), SplitFault>) -> u32
    ensures { result ≡ number_of_split answer }
{
    match answer {
        Ok(()) => 0,
        Err(SplitFault::NoEnd) => 5,
        Err(SplitFault::InUse) => 6,
        Err(SplitFault::NoTag) => 9,
        Err(SplitFault::Memory) => 7,
    }
}
