//! The two counters of a channel, which say from where to look, and its run of kept places. They are raised by a step that shows
//! nothing.
ghost use Rattle.std.specs.Prelude.{◌≡◌, ◌⊎◌, ◌+◌, ◌<◌, ◌≤◌, MatchBool, ⊤, true, length};
ghost use Rattle.channel_model.specs.Laws.{NoneBelow};
ghost use Rattle.word_rules.specs.Words.{send_number, receive_number, run_number, IsCell, WereKept};
ghost use Rattle.cell_words.specs.Hubs.{shape_of, seen_by, IsOwn};
ghost use Rattle.cell_words.specs.Seen.{Sees, at_channel};

use crate::hub::Hub;
use crate::pass::Pass;
use crate::steps::{lift_word, load_word};
use co_base::{ChannelId, Place, Tag};

/// The first of the 16 words of a channel. Its run is the next one, its receive counter 8 words on.
pub(crate) fn send_counter(hub: &Hub, c: ChannelId) -> usize
    requires { c < length (shape_of hub.now) }
    ensures { result ≡ send_number (shape_of hub.now) c }
{
    2 * (hub.cells as usize) + 16 * (c as usize)
}

fn receive_counter(hub: &Hub, c: ChannelId) -> usize
    requires { c < length (shape_of hub.now) }
    ensures { result ≡ receive_number (shape_of hub.now) c }
{
    send_counter(hub, c) + 8
}

/// A place below which no receiver stands.
pub fn sends_from(hub: &Hub, pass: &mut Pass, who: Tag, c: ChannelId) -> Place
    requires own { IsOwn hub.now pass.old who }
    requires channel { c < length (shape_of hub.now) }
    ensures own { IsOwn hub.now pass.new who }
    ensures sees { Sees (seen_by pass.old) (seen_by pass.new) }
    ensures low { NoneBelow result 0 (at_channel (seen_by pass.new).seen c) }
{
    load_word(hub, pass, who, send_counter(hub, c)) as Place
}

/// Says that no receiver stands below a place, if that is two places or more past where the caller began to look.
pub fn raise_sends(hub: &Hub, pass: &mut Pass, who: Tag, c: ChannelId, from: Place, place: Place)
    requires own { IsOwn hub.now pass.old who }
    requires channel { c < length (shape_of hub.now) }
    requires low { NoneBelow place 0 (at_channel (seen_by pass.old).seen c) }
    ensures own { IsOwn hub.now pass.new who }
    ensures same { seen_by pass.new ≡ seen_by pass.old }
{
    if place >= 2 && place - 2 >= from {
        lift_word(hub, pass, who, send_counter(hub, c), place as u64);
    }
}

/// A place below which no offer stands.
pub fn receives_from(hub: &Hub, pass: &mut Pass, who: Tag, c: ChannelId) -> Place
    requires own { IsOwn hub.now pass.old who }
    requires channel { c < length (shape_of hub.now) }
    ensures own { IsOwn hub.now pass.new who }
    ensures sees { Sees (seen_by pass.old) (seen_by pass.new) }
    ensures low { NoneBelow 0 result (at_channel (seen_by pass.new).seen c) }
{
    load_word(hub, pass, who, receive_counter(hub, c)) as Place
}

/// Says that no offer stands below a place, if that is two places or more past where the caller began to look.
pub fn raise_receives(hub: &Hub, pass: &mut Pass, who: Tag, c: ChannelId, from: Place, place: Place)
    requires own { IsOwn hub.now pass.old who }
    requires channel { c < length (shape_of hub.now) }
    requires low { NoneBelow 0 place (at_channel (seen_by pass.old).seen c) }
    ensures own { IsOwn hub.now pass.new who }
    ensures same { seen_by pass.new ≡ seen_by pass.old }
{
    if place >= 2 && place - 2 >= from {
        lift_word(hub, pass, who, receive_counter(hub, c), place as u64);
    }
}

/// Places that follow one another, at each of which an element was put, or an offer was admitted: from the first on, and before the last.
#[derive(Clone, Copy, Debug, PartialEq, Eq)]
pub(crate) struct KeptRun {
    pub(crate) from: Place,
    pub(crate) to: Place,
}

fn run_word(hub: &Hub, c: ChannelId) -> usize
    requires { c < length (shape_of hub.now) }
    ensures { result ≡ run_number (shape_of hub.now) c }
{
    send_counter(hub, c) + 1
}

/// The run as its word has it: `to * 2^32 + from`.
pub(crate) fn kept_run(hub: &Hub, pass: &mut Pass, who: Tag, c: ChannelId) -> KeptRun
    requires own { IsOwn hub.now pass.old who }
    requires channel { c < length (shape_of hub.now) }
    ensures own { IsOwn hub.now pass.new who }
    ensures sees { Sees (seen_by pass.old) (seen_by pass.new) }
    ensures kept { WereKept (seen_by pass.new).seen c result.from result.to }
{
    let word = load_word(hub, pass, who, run_word(hub, c));
    KeptRun {
        from: (word % 4294967296) as Place,
        to: (word / 4294967296) as Place,
    }
}

/// Whether the run has so many places from this one on.
pub(crate) fn has_from(run: KeptRun, low: Place, most: u32) -> bool
    ensures { MatchBool result ((run.from ≤ low) × (low + most ≤ run.to)) ⊤ }
{
    run.from <= low && low <= run.to && most <= run.to - low
}

/// Where a walk from `low` on may begin that looks for a place which was not kept, and no more than so many places further.
pub(crate) fn first_not_kept(run: KeptRun, low: Place, most: u32) -> Place
    ensures least { low ≤ result }
    ensures few { result ≤ low + most }
    ensures run { (result ≡ low) ⊎ ((run.from ≤ low) × (result ≤ run.to)) }
{
    if low < run.from || run.to <= low {
        return low;
    }
    if run.to - low < most {
        return run.to;
    }
    low + most
}

/// Says that these places were kept.
pub(crate) fn lift_run(
    hub: &Hub,
    pass: &mut Pass,
    who: Tag,
    c: ChannelId,
    from: Place,
    to: Place,
) -> KeptRun
    requires own { IsOwn hub.now pass.old who }
    requires channel { c < length (shape_of hub.now) }
    requires kept { WereKept (seen_by pass.old).seen c from to }
    ensures own { IsOwn hub.now pass.new who }
    ensures same { seen_by pass.new ≡ seen_by pass.old }
    ensures kept { WereKept (seen_by pass.old).seen c result.from result.to }
{
    let word = to as u64 * 4294967296 + from as u64;
    lift_word(hub, pass, who, run_word(hub, c), word);
    KeptRun { from, to }
}

/// Says that a place was kept, if it is the next one of the run; or begins a run there, if no offer of the old one stands, since
/// none does below `low`. The run that is known then.
pub(crate) fn raise_run(
    hub: &Hub,
    pass: &mut Pass,
    who: Tag,
    c: ChannelId,
    run: KeptRun,
    low: Place,
    place: Place,
) -> KeptRun
    requires own { IsOwn hub.now pass.old who }
    requires at { IsCell (shape_of hub.now) c place }
    requires run { WereKept (seen_by pass.old).seen c run.from run.to }
    requires kept { WereKept (seen_by pass.old).seen c place (place + 1) }
    ensures own { IsOwn hub.now pass.new who }
    ensures same { seen_by pass.new ≡ seen_by pass.old }
    ensures kept { WereKept (seen_by pass.old).seen c result.from result.to }
{
    if run.to == place {
        return lift_run(hub, pass, who, c, run.from, place + 1);
    }
    if run.to < place && run.to <= low {
        return lift_run(hub, pass, who, c, place, place + 1);
    }
    run
}
