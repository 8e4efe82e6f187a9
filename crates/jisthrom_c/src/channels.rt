//! Channels, by ends that C holds.
ghost use Rattle.std.specs.Prelude.{◌≡◌};
ghost use Rattle.channel_ends.specs.Handles.{end_in};
ghost use Rattle.jisthrom_c.specs.Channels.{MakesInC, SplitsInC, SendsInC, ReceivesInC, LeavesInC, ClosesInC, FreesInC};

use channel_ends::{
    ChannelEnd, ChannelWakes, close_number, leave_number, new_number, receive_number, send_number,
    split_number,
};
use std::alloc::Global;

/// Makes a channel of so many slots, 1 to 1,048,576, and puts its first end into `first`, where there was none.
///
/// 0 done, 6 there is an end already, 7 no memory, 8 a wrong number of slots.
#[unsafe(no_mangle)]
pub extern "C" fn jisthrom_channel_new(alloc: Global, slots: u32, first: &mut ChannelEnd) -> u32
    ensures { MakesInC slots (end_in first.old) (end_in first.new) result }
{
    new_number(first.make(alloc, slots))
}

/// Puts another end of the same channel into `other`, where there was none.
///
/// 0 done, 5 there is no end to split, 6 there is an end already in `other`, 7 no memory, 9 no tag is left.
#[unsafe(no_mangle)]
pub extern "C" fn jisthrom_channel_split(
    alloc: Global,
    first: &mut ChannelEnd,
    other: &mut ChannelEnd,
) -> u32
    ensures { SplitsInC (end_in first.old) (end_in first.new) (end_in other.old) (end_in other.new) result }
{
    split_number(first.split(alloc, other))
}

/// Sends an item, or waits; and names whom to wake.
///
/// 0 done, 1 waits, 2 closed, 3 spent, 4 others came first each time, 5 there is no end. Where it is not done the item is the caller's.
#[unsafe(no_mangle)]
pub extern "C" fn jisthrom_channel_send(
    alloc: Global,
    end: &mut ChannelEnd,
    item: u64,
    wakes: &mut ChannelWakes,
) -> u32
    ensures { SendsInC item (end_in end.old) (end_in end.new) wakes.new result }
{
    send_number(end.send(alloc, item), wakes)
}

/// Receives the first item, or waits; and names whom to wake.
///
/// 0 done, 1 waits, 2 closed, 4 others came first each time, 5 there is no end. `item` is written where it is done.
#[unsafe(no_mangle)]
pub extern "C" fn jisthrom_channel_receive(
    alloc: Global,
    end: &mut ChannelEnd,
    item: &mut u64,
    wakes: &mut ChannelWakes,
) -> u32
    ensures { ReceivesInC (end_in end.old) (end_in end.new) item.old item.new wakes.new result }
{
    receive_number(end.receive(alloc), item, wakes)
}

/// Waits no more; and names whom to wake in its place: 0 done, 5 there is no end.
#[unsafe(no_mangle)]
pub extern "C" fn jisthrom_channel_leave(
    alloc: Global,
    end: &mut ChannelEnd,
    wakes: &mut ChannelWakes,
) -> u32
    ensures { LeavesInC (end_in end.old) (end_in end.new) wakes.new result }
{
    leave_number(end.leave(alloc), wakes)
}

/// Closes the channel, and names all who wait: 0 done, 2 it was closed before, 5 there is no end.
#[unsafe(no_mangle)]
pub extern "C" fn jisthrom_channel_close(
    alloc: Global,
    end: &mut ChannelEnd,
    wakes: &mut ChannelWakes,
) -> u32
    ensures { ClosesInC (end_in end.old) (end_in end.new) wakes.new result }
{
    close_number(end.close(alloc), wakes)
}

/// Waits no more, and ends; and names whom to wake in its place: 0 done, 5 there is no end.
#[unsafe(no_mangle)]
pub extern "C" fn jisthrom_channel_free(
    alloc: Global,
    end: &mut ChannelEnd,
    wakes: &mut ChannelWakes,
) -> u32
    ensures { FreesInC (end_in end.old) (end_in end.new) wakes.new result }
{
    leave_number(end.free(alloc), wakes)
}
