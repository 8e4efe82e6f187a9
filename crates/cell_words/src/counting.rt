//! How many offers stand, by one walk: each that is found later stood at the beginning, since who is gone does not come back.
ghost use Rattle.std.specs.Prelude.{◌≡◌, ◌+◌, ◌<◌, ◌≤◌, ℕ, MatchBool, true, false, length, None, is_some};
ghost use Rattle.channel_model.specs.Channels.{kind_at, places_at, is_full, suspends};
ghost use Rattle.channel_model.specs.Histories.{replay, Legal};
ghost use Rattle.channel_model.specs.Laws.{NoneBelow};
ghost use Rattle.channel_model.specs.Answers.{IsTrimmed, StandsWithRoom};
ghost use Rattle.word_rules.specs.Cells.{gather};
ghost use Rattle.word_rules.specs.Words.{IsCell, WereDecided, one_if};
ghost use Rattle.cell_words.specs.Hubs.{shape_of, seen_by, IsOwn};
ghost use Rattle.cell_words.specs.Seen.{Seen, Sees, at_channel};
ghost use Rattle.cell_words.specs.Answers.{stands, CountedPast, IsOver, WasTooMany};

use crate::cells::{kind_of, load_cell, load_wait};
use crate::counters::{has_from, kept_run, raise_receives, receives_from};
use crate::decided::{Decided, begun_at, decided_up_to, tells_enough, tells_fewer, up_to};
use crate::hub::Hub;
use crate::looks::{holder_of, lets_stand};
use crate::marks::{behind_at, say_behind};
use crate::pass::Pass;
use crate::resolving::wait_cell;
use channel_model::Kind;
use co_base::{ChannelId, Place, Tag};
use word_rules::CellState;

// How often who counts looks again for a place of which is not decided yet, before it counts what stands: whoever put an element there
// is about to say so.
const LOOKS: u32 = 32;

// How many places may have been given out behind that one, for its sender to be about to say so.
const NEAR: u32 = 4;

/// Whether an offer stands at a place: true if it stood at the beginning, false if none stands any more.
pub(crate) fn stands_at(hub: &Hub, pass: &mut Pass, who: Tag, c: ChannelId, place: Place) -> bool
    requires own { IsOwn hub.now pass.old who }
    requires at { IsCell (shape_of hub.now) c place }
    requires given { place < (at_channel (seen_by pass.old).seen c).next }
    ensures own { IsOwn hub.now pass.new who }
    ensures sees { Sees (seen_by pass.old) (seen_by pass.new) }
    ensures stands { MatchBool result
        (is_some (stands (seen_by pass.old).seen c place) ≡ true)
        (stands (seen_by pass.new).seen c place ≡ None) }
{
    let word = load_cell(hub, pass, who, c, place);
    match word.state {
        CellState::Buffered => true,
        CellState::Offer => {
            let cell = wait_cell(hub, c, place, holder_of(word));
            let wait = load_wait(hub, pass, who, cell);
            lets_stand(wait, word.clause)
        }
        CellState::Free
        | CellState::Receiver
        | CellState::Emptied
        | CellState::Closed
        | CellState::Voided => false,
    }
}

/// A place up to `end`, below which no offer stands.
fn offers_from(hub: &Hub, pass: &mut Pass, who: Tag, c: ChannelId, end: Place) -> Place
    requires own { IsOwn hub.now pass.old who }
    requires channel { c < length (shape_of hub.now) }
    ensures own { IsOwn hub.now pass.new who }
    ensures sees { Sees (seen_by pass.old) (seen_by pass.new) }
    ensures from { result ≤ end }
    ensures low { NoneBelow 0 result (at_channel (seen_by pass.new).seen c) }
{
    let from = receives_from(hub, pass, who, c);
    if from < end { from } else { end }
}

/// Whether so many offers stand below `end`, if none stands below `from`: true if they did at the beginning, false if fewer do at
/// the end.
fn enough_from(
    hub: &Hub,
    pass: &mut Pass,
    who: Tag,
    c: ChannelId,
    from: Place,
    end: Place,
    most: u32,
) -> bool
    requires own { IsOwn hub.now pass.old who }
    requires at { IsCell (shape_of hub.now) c end }
    requires given { end ≤ (at_channel (seen_by pass.old).seen c).next }
    requires from { from ≤ end }
    requires low { NoneBelow 0 from (at_channel (seen_by pass.old).seen c) }
    ensures own { IsOwn hub.now pass.new who }
    ensures sees { Sees (seen_by pass.old) (seen_by pass.new) }
    ensures count { MatchBool result
        (most ≤ length (gather (stands (seen_by pass.old).seen c) end))
        (length (gather (stands (seen_by pass.new).seen c) end) < most) }
{
    let mut count = 0;
    for place in from..end {
        if count == most {
            return true;
        }
        // The places that are left are too few.
        if end - place < most - count {
            return false;
        }
        if stands_at(hub, pass, who, c, place) {
            count += 1;
        }
    }
    count >= most
}

// One more, if one stood.
fn with_one(count: u32, stood: bool) -> u32
    requires { count < 4294967295 }
    ensures { result ≡ count + one_if stood }
{
    if stood { count + 1 } else { count }
}

// What a count has come to, and up to which place.
#[derive(Clone, Copy)]
struct CountedTo {
    to: Place,
    count: u32,
}

/// Goes on with a count at a place of which is not decided, by a look at its cell, and behind it as far as it is decided. It says so by
/// the mark of that place, so that the next one who counts begins where this one ended.
fn count_one(
    hub: &Hub,
    pass: &mut Pass,
    who: Tag,
    c: ChannelId,
    past: CountedTo,
    end: Place,
) -> CountedTo
    requires own { IsOwn hub.now pass.old who }
    requires at { IsCell (shape_of hub.now) c end }
    requires given { end ≤ (at_channel (seen_by pass.old).seen c).next }
    requires before { (past.count ≤ past.to) × (past.to < end) }
    ensures own { IsOwn hub.now pass.new who }
    ensures sees { Sees (seen_by pass.old) (seen_by pass.new) }
    ensures past { (result.count ≤ result.to) × (past.to < result.to) × (result.to ≤ end) }
    ensures counted { (low : ℕ) (first : Seen) → low ≤ past.to → Sees first (seen_by pass.old) → Legal (shape_of hub.now) first.seen
        → end ≤ (at_channel first.seen c).next
        → CountedPast (shape_of hub.now) c low past.to past.count first (seen_by pass.old)
        → CountedPast (shape_of hub.now) c low result.to result.count first (seen_by pass.new) }
{
    let stood = stands_at(hub, pass, who, c, past.to);
    let behind = behind_at(hub, pass, who, c, past.to);
    let more = up_to(hub, pass, who, c, behind, end);
    say_behind(hub, pass, who, c, past.to, behind, more);
    CountedTo {
        to: more.to,
        count: with_one(past.count, stood) + more.count,
    }
}

/// What such a count comes to, at the end or where it is enough, if it begins with the places that are known, and none stands below them.
fn count_ranges(
    hub: &Hub,
    pass: &mut Pass,
    who: Tag,
    c: ChannelId,
    known: Decided,
    end: Place,
    most: u32,
) -> CountedTo
    requires own { IsOwn hub.now pass.old who }
    requires at { IsCell (shape_of hub.now) c end }
    requires given { end ≤ (at_channel (seen_by pass.old).seen c).next }
    requires within { (known.from ≤ end) × (known.from ≤ known.to) }
    requires low { NoneBelow 0 known.from (at_channel (seen_by pass.old).seen c) }
    requires decided { WereDecided (shape_of hub.now) (seen_by pass.old).seen c known.from known.to known.count }
    ensures own { IsOwn hub.now pass.new who }
    ensures sees { Sees (seen_by pass.old) (seen_by pass.new) }
    ensures whole { (result.to ≤ end) × (result.count < most → result.to ≡ end) }
    ensures counted { CountedPast (shape_of hub.now) c known.from result.to result.count (seen_by pass.old) (seen_by pass.new) }
{
    let begun = up_to(hub, pass, who, c, known, end);
    let mut past = CountedTo {
        to: begun.to,
        count: begun.count,
    };
    while past.to < end {
        if past.count >= most {
            return past;
        }
        past = count_one(hub, pass, who, c, past, end);
    }
    past
}

/// Whether so many offers stand below `end`, if none stands below `low`: by ranges of places of which is decided, and a look at each cell
/// between them.
fn count_past(
    hub: &Hub,
    pass: &mut Pass,
    who: Tag,
    c: ChannelId,
    known: Decided,
    low: Place,
    end: Place,
    most: u32,
) -> bool
    requires own { IsOwn hub.now pass.old who }
    requires at { IsCell (shape_of hub.now) c end }
    requires given { end ≤ (at_channel (seen_by pass.old).seen c).next }
    requires from { low < end }
    requires low { NoneBelow 0 low (at_channel (seen_by pass.old).seen c) }
    requires decided { WereDecided (shape_of hub.now) (seen_by pass.old).seen c known.from known.to known.count }
    ensures own { IsOwn hub.now pass.new who }
    ensures sees { Sees (seen_by pass.old) (seen_by pass.new) }
    ensures count { MatchBool result
        (most ≤ length (gather (stands (seen_by pass.old).seen c) end))
        (length (gather (stands (seen_by pass.new).seen c) end) < most) }
{
    let begun = begun_at(known, low, u32::MAX);
    let past = count_ranges(hub, pass, who, c, begun, end, most);
    if past.count < most {
        return false;
    }
    // While the first stands, so do all that were kept.
    if stands_at(hub, pass, who, c, low) {
        return true;
    }
    enough_from(hub, pass, who, c, low, end, most)
}

// Whether many places are behind those of which is decided: then whoever put an element at the first of the others is not about to say so.
fn is_far(known: Decided, end: Place) -> bool {
    known.to > end || end - known.to > NEAR
}

/// Whether so many offers stand below `end`, if none stands below `low`, by the places of which is decided whether their element was
/// kept: so neither a gap that an offer left nor an element that was one too many ends a count.
fn count_decided(
    hub: &Hub,
    pass: &mut Pass,
    who: Tag,
    c: ChannelId,
    low: Place,
    end: Place,
    most: u32,
) -> bool
    requires own { IsOwn hub.now pass.old who }
    requires at { IsCell (shape_of hub.now) c end }
    requires given { end ≤ (at_channel (seen_by pass.old).seen c).next }
    requires from { low < end }
    requires low { NoneBelow 0 low (at_channel (seen_by pass.old).seen c) }
    ensures own { IsOwn hub.now pass.new who }
    ensures sees { Sees (seen_by pass.old) (seen_by pass.new) }
    ensures count { MatchBool result
        (most ≤ length (gather (stands (seen_by pass.old).seen c) end))
        (length (gather (stands (seen_by pass.new).seen c) end) < most) }
{
    for look in 0..LOOKS {
        let known = decided_up_to(hub, pass, who, c, low, end);
        if tells_fewer(known, low, end, most) {
            return false;
        }
        let stood = stands_at(hub, pass, who, c, low);
        // Kept elements leave from the front alone: while the first stands, so do all that were kept behind it.
        if tells_enough(known, low, end, most, stood) {
            return true;
        }
        if is_far(known, end) {
            return count_past(hub, pass, who, c, known, low, end, most);
        }
    }
    let known = decided_up_to(hub, pass, who, c, low, end);
    count_past(hub, pass, who, c, known, low, end, most)
}

/// Whether so many offers stand below a place of a channel on which a send may wait: true if they did at the beginning, false if fewer do
/// at the end.
fn count_below(hub: &Hub, pass: &mut Pass, who: Tag, c: ChannelId, end: Place, most: u32) -> bool
    requires own { IsOwn hub.now pass.old who }
    requires at { IsCell (shape_of hub.now) c end }
    requires kind { suspends (kind_at (shape_of hub.now) c) ≡ true }
    requires given { end ≤ (at_channel (seen_by pass.old).seen c).next }
    ensures own { IsOwn hub.now pass.new who }
    ensures sees { Sees (seen_by pass.old) (seen_by pass.new) }
    ensures count { MatchBool result
        (most ≤ length (gather (stands (seen_by pass.old).seen c) end))
        (length (gather (stands (seen_by pass.new).seen c) end) < most) }
{
    // Fewer places: nothing is loaded.
    if end < most {
        return false;
    }
    let from = offers_from(hub, pass, who, c, end);
    let run = kept_run(hub, pass, who, c);
    for low in from..end {
        if end - low < most {
            return false;
        }
        if stands_at(hub, pass, who, c, low) {
            raise_receives(hub, pass, who, c, from, low);
            // Kept elements leave from the front alone: while the first stands, so do those of the run behind it.
            if has_from(run, low, most) {
                return true;
            }
            return count_decided(hub, pass, who, c, low, end, most);
        }
    }
    most == 0
}

/// Whether so many offers stand below a place of a channel that does not keep its latest: true if they did at the beginning, false if
/// fewer do at the end.
pub(crate) fn count_latest(
    hub: &Hub,
    pass: &mut Pass,
    who: Tag,
    c: ChannelId,
    end: Place,
    most: u32,
) -> bool
    requires own { IsOwn hub.now pass.old who }
    requires at { IsCell (shape_of hub.now) c end }
    requires given { end ≤ (at_channel (seen_by pass.old).seen c).next }
    ensures own { IsOwn hub.now pass.new who }
    ensures sees { Sees (seen_by pass.old) (seen_by pass.new) }
    ensures count { MatchBool result
        (most ≤ length (gather (stands (seen_by pass.old).seen c) end))
        (length (gather (stands (seen_by pass.new).seen c) end) < most) }
{
    // Fewer places: nothing is loaded.
    if end < most {
        return false;
    }
    let from = offers_from(hub, pass, who, c, end);
    for low in from..end {
        if end - low < most {
            return false;
        }
        if stands_at(hub, pass, who, c, low) {
            raise_receives(hub, pass, who, c, from, low);
            return count_decided(hub, pass, who, c, low, end, most);
        }
    }
    most == 0
}

/// Whether the channel keeps one element more: false if it was full at the beginning.
#[inline(always)]
pub(crate) fn has_room(hub: &Hub, pass: &mut Pass, who: Tag, c: ChannelId, end: Place) -> bool
    requires own { IsOwn hub.now pass.old who }
    requires at { IsCell (shape_of hub.now) c end }
    requires given { end ≤ (at_channel (seen_by pass.old).seen c).next }
    ensures own { IsOwn hub.now pass.new who }
    ensures sees { Sees (seen_by pass.old) (seen_by pass.new) }
    ensures room { MatchBool result
        (is_full (kind_at (shape_of hub.now) c) (length (gather (stands (seen_by pass.new).seen c) end)) ≡ false)
        (is_full (kind_at (shape_of hub.now) c) (length (gather (stands (seen_by pass.old).seen c) end)) ≡ true) }
{
    match kind_of(hub, c) {
        Kind::Rendezvous | Kind::Signal => false,
        Kind::Buffered(most) => !count_below(hub, pass, who, c, end, most),
        Kind::Unlimited | Kind::Conflated | Kind::DropOldest(_) | Kind::DropLatest(_) => true,
    }
}

/// Whether more elements stand at places up to `mine` than the channel keeps, if it drops its oldest: true while one stands at
/// `first`, before which none does.
pub fn is_over(
    hub: &Hub,
    pass: &mut Pass,
    who: Tag,
    c: ChannelId,
    first: Place,
    mine: Place,
) -> bool
    requires own { IsOwn hub.now pass.old who }
    requires at { (c < length (shape_of hub.now)) × (mine < places_at (shape_of hub.now) c) }
    requires given { (first ≤ mine) × (mine < (at_channel (seen_by pass.old).seen c).next) }
    requires low { NoneBelow 0 first (at_channel (seen_by pass.old).seen c) }
    ensures own { IsOwn hub.now pass.new who }
    ensures sees { Sees (seen_by pass.old) (seen_by pass.new) }
    ensures over { MatchBool result
        (IsOver (shape_of hub.now) c first (seen_by pass.new).seen)
        (IsTrimmed (shape_of hub.now) c mine (replay (seen_by pass.new).seen)) }
{
    let most = match kind_of(hub, c).drops_beyond() {
        Some(most) => most,
        None => return false,
    };
    if mine < most {
        return false;
    }
    let run = kept_run(hub, pass, who, c);
    // Kept elements leave from the front alone: while the first stands, so do those of the run behind it.
    if has_from(run, first, most + 1) {
        return true;
    }
    enough_from(hub, pass, who, c, first, mine + 1, most + 1)
}

/// Whether the offer at `mine` was one too many when it was placed, if the channel does not keep its latest: true if at the beginning so
/// many stood before it as the channel keeps, false if fewer do at the end.
pub fn was_too_many(hub: &Hub, pass: &mut Pass, who: Tag, c: ChannelId, mine: Place) -> bool
    requires own { IsOwn hub.now pass.old who }
    requires at { (c < length (shape_of hub.now)) × (mine < places_at (shape_of hub.now) c) }
    requires given { mine < (at_channel (seen_by pass.old).seen c).next }
    ensures own { IsOwn hub.now pass.new who }
    ensures sees { Sees (seen_by pass.old) (seen_by pass.new) }
    ensures too_many { MatchBool result
        (WasTooMany (shape_of hub.now) c mine (seen_by pass.new).seen)
        (StandsWithRoom (shape_of hub.now) c mine (replay (seen_by pass.new).seen)) }
{
    let most = match kind_of(hub, c).spurns_beyond() {
        Some(most) => most,
        None => return false,
    };
    count_latest(hub, pass, who, c, mine, most)
}
