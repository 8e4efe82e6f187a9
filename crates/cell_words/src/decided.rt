//! Places of which is decided whether their element was kept, with the number of those where it was: so an offer that was withdrawn ends
//! no count. A word of the channel has such places, and each who counts moves it on.
ghost use Rattle.std.specs.Prelude.{◌≡◌, ◌⊎◌, ◌+◌, ◌-◌, ◌<◌, ◌≤◌, ℕ, Bool, List, MatchBool, ⊤, true, false, length, Some};
ghost use Rattle.channel_model.specs.declared.acts.Entry.{Entry as AnEntry};
ghost use Rattle.channel_model.specs.Channels.{Shape, kind_at, places_at, spurns};
ghost use Rattle.word_rules.specs.Words.{decided_number, one_if, fate, IsCell, WereDecided};
ghost use Rattle.cell_words.specs.Hubs.{shape_of, seen_by, IsOwn};
ghost use Rattle.cell_words.specs.Looks.{kept_told};
ghost use Rattle.cell_words.specs.Seen.{Sees};

use crate::cells::{kind_of, load_cell, load_wait};
use crate::counters::send_counter;
use crate::hub::Hub;
use crate::looks::holder_of;
use crate::marks::mark_at;
use crate::pass::Pass;
use crate::resolving::wait_cell;
use crate::steps::{lift_word, load_word};
use co_base::{ChannelId, Place, Tag};
use word_rules::{CellState, ResolvedBy, WaitWord};

/// Places from the first on, and before the last, at so many of which an element was kept. At the others an offer was, and is gone.
#[derive(Clone, Copy, Debug, PartialEq, Eq)]
pub(crate) struct Decided {
    pub(crate) from: Place,
    pub(crate) to: Place,
    pub(crate) count: u32,
}

fn decided_word(hub: &Hub, c: ChannelId) -> usize
    requires { c < length (shape_of hub.now) }
    ensures { result ≡ decided_number (shape_of hub.now) c }
{
    send_counter(hub, c) + 2
}

// These places as their word has them: `to * 2^42 + from * 2^21 + count`.
fn decided_places(hub: &Hub, pass: &mut Pass, who: Tag, c: ChannelId) -> Decided
    requires own { IsOwn hub.now pass.old who }
    requires channel { c < length (shape_of hub.now) }
    ensures own { IsOwn hub.now pass.new who }
    ensures sees { Sees (seen_by pass.old) (seen_by pass.new) }
    ensures decided { WereDecided (shape_of hub.now) (seen_by pass.new).seen c result.from result.to result.count }
{
    let word = load_word(hub, pass, who, decided_word(hub, c));
    Decided {
        from: (word / 2097152 % 2097152) as Place,
        to: (word / 4398046511104) as Place,
        count: (word % 2097152) as u32,
    }
}

// Says so of these places, unless the word does; or a number is too large for it, but no channel has so many places.
fn say_decided(hub: &Hub, pass: &mut Pass, who: Tag, c: ChannelId, word: Decided, known: Decided)
    requires own { IsOwn hub.now pass.old who }
    requires channel { c < length (shape_of hub.now) }
    requires decided { WereDecided (shape_of hub.now) (seen_by pass.old).seen c known.from known.to known.count }
    ensures own { IsOwn hub.now pass.new who }
    ensures same { seen_by pass.new ≡ seen_by pass.old }
{
    if known.from == word.from && known.to == word.to {
        return;
    }
    if known.from >= 2097152 {
        return;
    }
    if known.to >= 2097152 {
        return;
    }
    if known.count >= 2097152 {
        return;
    }
    let low = known.from as u64 * 2097152 + known.count as u64;
    let number = known.to as u64 * 4398046511104 + low;
    lift_word(hub, pass, who, decided_word(hub, c), number);
}

// Whether the offer of this clause was kept, by the word of its wait; nothing while it stands.
fn kept_told(wait: WaitWord, clause: u8) -> Option<bool>
    ensures { result ≡ kept_told wait clause }
{
    match wait.by {
        ResolvedBy::Nobody => None,
        ResolvedBy::Admit => Some(wait.clause == clause),
        ResolvedBy::Hand
        | ResolvedBy::Take
        | ResolvedBy::Close
        | ResolvedBy::Cancel
        | ResolvedBy::Revoke
        | ResolvedBy::Void => Some(false),
    }
}

// Whether the element at a place was kept, if that is decided, in a channel that keeps each element that was put.
fn fate_by_cell(hub: &Hub, pass: &mut Pass, who: Tag, c: ChannelId, place: Place) -> Option<bool>
    requires own { IsOwn hub.now pass.old who }
    requires at { IsCell (shape_of hub.now) c place }
    requires never { (n : ℕ) → spurns (kind_at (shape_of hub.now) c) n ≡ false }
    ensures own { IsOwn hub.now pass.new who }
    ensures sees { Sees (seen_by pass.old) (seen_by pass.new) }
    ensures fate { (b : Bool) → result ≡ Some b → fate (shape_of hub.now) (seen_by pass.new).seen c place ≡ Some b }
{
    let word = load_cell(hub, pass, who, c, place);
    match word.state {
        CellState::Buffered => Some(true),
        CellState::Emptied => Some(true),
        CellState::Offer => {
            let cell = wait_cell(hub, c, place, holder_of(word));
            let wait = load_wait(hub, pass, who, cell);
            kept_told(wait, word.clause)
        }
        CellState::Free | CellState::Receiver | CellState::Closed | CellState::Voided => None,
    }
}

// Whether the element at a place was kept, if that is decided: where an element may be one too many, its mark tells.
fn fate_at(hub: &Hub, pass: &mut Pass, who: Tag, c: ChannelId, place: Place) -> Option<bool>
    requires own { IsOwn hub.now pass.old who }
    requires at { IsCell (shape_of hub.now) c place }
    ensures own { IsOwn hub.now pass.new who }
    ensures sees { Sees (seen_by pass.old) (seen_by pass.new) }
    ensures fate { (b : Bool) → result ≡ Some b → fate (shape_of hub.now) (seen_by pass.new).seen c place ≡ Some b }
{
    match kind_of(hub, c).spurns_beyond() {
        Some(_) => mark_at(hub, pass, who, c, place),
        None => fate_by_cell(hub, pass, who, c, place),
    }
}

// One place less.
fn less_one(count: u32, kept: bool) -> u32
    ensures { result ≡ count - one_if kept }
{
    if !kept {
        return count;
    }
    if count == 0 {
        return 0;
    }
    count - 1
}

// One place more.
fn more_one(count: u32, kept: bool) -> u32
    requires { count < 2097152 }
    ensures { result ≡ count + one_if kept }
{
    if !kept {
        return count;
    }
    count + 1
}

// The same without the places before this one; or without fewer of them, if of one it is not told.
fn drop_front(
    hub: &Hub,
    pass: &mut Pass,
    who: Tag,
    c: ChannelId,
    known: Decided,
    low: Place,
) -> Decided
    requires own { IsOwn hub.now pass.old who }
    requires at { IsCell (shape_of hub.now) c low }
    requires within { (known.from ≤ low) × (low ≤ known.to) }
    requires decided { WereDecided (shape_of hub.now) (seen_by pass.old).seen c known.from known.to known.count }
    ensures own { IsOwn hub.now pass.new who }
    ensures sees { Sees (seen_by pass.old) (seen_by pass.new) }
    ensures decided { WereDecided (shape_of hub.now) (seen_by pass.new).seen c result.from result.to result.count }
{
    let mut count = known.count;
    for place in known.from..low {
        let fate = fate_at(hub, pass, who, c, place);
        match fate {
            None => {
                return Decided {
                    from: place,
                    to: known.to,
                    count,
                };
            }
            Some(kept) => count = less_one(count, kept),
        }
    }
    Decided {
        from: low,
        to: known.to,
        count,
    }
}

// The places of a word from this one on. Where it has none there, they are none yet.
fn rest_from(
    hub: &Hub,
    pass: &mut Pass,
    who: Tag,
    c: ChannelId,
    word: Decided,
    low: Place,
) -> Decided
    requires own { IsOwn hub.now pass.old who }
    requires at { IsCell (shape_of hub.now) c low }
    requires decided { WereDecided (shape_of hub.now) (seen_by pass.old).seen c word.from word.to word.count }
    ensures own { IsOwn hub.now pass.new who }
    ensures sees { Sees (seen_by pass.old) (seen_by pass.new) }
    ensures decided { WereDecided (shape_of hub.now) (seen_by pass.new).seen c result.from result.to result.count }
{
    if low < word.from || word.to <= low {
        return Decided {
            from: low,
            to: low,
            count: 0,
        };
    }
    drop_front(hub, pass, who, c, word, low)
}

// The same with all further places below the end, or up to the first that is not decided.
fn go_on(hub: &Hub, pass: &mut Pass, who: Tag, c: ChannelId, known: Decided, end: Place) -> Decided
    requires own { IsOwn hub.now pass.old who }
    requires at { IsCell (shape_of hub.now) c end }
    requires decided { WereDecided (shape_of hub.now) (seen_by pass.old).seen c known.from known.to known.count }
    ensures own { IsOwn hub.now pass.new who }
    ensures sees { Sees (seen_by pass.old) (seen_by pass.new) }
    ensures within { (result.from ≡ known.from) × (known.to ≤ result.to) × (known.to ≤ end → result.to ≤ end) }
    ensures decided { WereDecided (shape_of hub.now) (seen_by pass.new).seen c result.from result.to result.count }
{
    if known.to < known.from || end <= known.to {
        return known;
    }
    let mut count = known.count;
    for place in known.to..end {
        if count >= 2097151 {
            return Decided {
                from: known.from,
                to: place,
                count,
            };
        }
        let fate = fate_at(hub, pass, who, c, place);
        match fate {
            None => {
                return Decided {
                    from: known.from,
                    to: place,
                    count,
                };
            }
            Some(kept) => count = more_one(count, kept),
        }
    }
    Decided {
        from: known.from,
        to: end,
        count,
    }
}

// These places without those from the end on, of which others who count have told; none if of one of them it is not told.
fn drop_back(
    hub: &Hub,
    pass: &mut Pass,
    who: Tag,
    c: ChannelId,
    known: Decided,
    end: Place,
) -> Decided
    requires own { IsOwn hub.now pass.old who }
    requires at { (c < length (shape_of hub.now)) × (known.to ≤ places_at (shape_of hub.now) c) }
    requires within { (known.from ≤ end) × (end ≤ known.to) }
    requires decided { WereDecided (shape_of hub.now) (seen_by pass.old).seen c known.from known.to known.count }
    ensures own { IsOwn hub.now pass.new who }
    ensures sees { Sees (seen_by pass.old) (seen_by pass.new) }
    ensures within { (result.from ≡ known.from) × (result.from ≤ result.to) × (result.to ≤ end) }
    ensures decided { WereDecided (shape_of hub.now) (seen_by pass.new).seen c result.from result.to result.count }
{
    let mut count = known.count;
    for passed in 0..known.to - end {
        let fate = fate_at(hub, pass, who, c, known.to - 1 - passed);
        match fate {
            None => {
                return Decided {
                    from: known.from,
                    to: known.from,
                    count: 0,
                };
            }
            Some(kept) => count = less_one(count, kept),
        }
    }
    Decided {
        from: known.from,
        to: end,
        count,
    }
}

/// The places of these that are before the end, and all further ones there of which it is decided.
pub(crate) fn up_to(
    hub: &Hub,
    pass: &mut Pass,
    who: Tag,
    c: ChannelId,
    known: Decided,
    end: Place,
) -> Decided
    requires own { IsOwn hub.now pass.old who }
    requires at { IsCell (shape_of hub.now) c end }
    requires within { (known.from ≤ end) × (known.from ≤ known.to) }
    requires decided { WereDecided (shape_of hub.now) (seen_by pass.old).seen c known.from known.to known.count }
    ensures own { IsOwn hub.now pass.new who }
    ensures sees { Sees (seen_by pass.old) (seen_by pass.new) }
    ensures within { (result.from ≡ known.from) × (result.from ≤ result.to) × (result.to ≤ end) }
    ensures decided { WereDecided (shape_of hub.now) (seen_by pass.new).seen c result.from result.to result.count }
{
    if known.to > end {
        return drop_back(hub, pass, who, c, known, end);
    }
    go_on(hub, pass, who, c, known, end)
}

/// Of which places from `low` on, and before `end`, it is decided; they begin there, unless that cannot be told.
pub(crate) fn decided_up_to(
    hub: &Hub,
    pass: &mut Pass,
    who: Tag,
    c: ChannelId,
    low: Place,
    end: Place,
) -> Decided
    requires own { IsOwn hub.now pass.old who }
    requires at { IsCell (shape_of hub.now) c end }
    requires from { low ≤ end }
    ensures own { IsOwn hub.now pass.new who }
    ensures sees { Sees (seen_by pass.old) (seen_by pass.new) }
    ensures decided { WereDecided (shape_of hub.now) (seen_by pass.new).seen c result.from result.to result.count }
{
    let word = decided_places(hub, pass, who, c);
    let rest = rest_from(hub, pass, who, c, word, low);
    let known = go_on(hub, pass, who, c, rest, end);
    say_decided(hub, pass, who, c, word, known);
    known
}

/// Whether these are all places up to the end, and fewer than so many elements were kept there.
pub(crate) fn tells_fewer(known: Decided, low: Place, end: Place, most: u32) -> bool
    ensures { MatchBool result ((known.from ≡ low) × (known.to ≡ end) × (known.count < most)) ⊤ }
{
    known.from == low && known.to == end && known.count < most
}

/// Whether so many elements stand before the end, if the first place is that of an element that stood.
pub(crate) fn tells_enough(known: Decided, low: Place, end: Place, most: u32, stood: bool) -> bool
    ensures { MatchBool result
        ((stood ≡ true) × (known.from ≡ low) × (low ≤ known.to) × (known.to ≤ end) × (most ≤ known.count)) ⊤ }
{
    stood && known.from == low && low <= known.to && known.to <= end && most <= known.count
}

/// The lower of two places.
pub(crate) fn lower_of(place: Place, end: Place) -> Place
    ensures { (result ≤ place) × (result ≤ end) × ((result ≡ place) ⊎ (result ≡ end)) }
{
    if place < end { place } else { end }
}

/// These places, if they begin at `low`, and no more than so many elements were kept there; else none from there on.
pub(crate) fn begun_at(known: Decided, low: Place, most: u32) -> Decided
    ensures low { (result.from ≡ low) × (low ≤ result.to) × (result.count ≤ most) }
    ensures decided { (shape : Shape) (log : List AnEntry) (c : ℕ)
        → WereDecided shape log c known.from known.to known.count → WereDecided shape log c result.from result.to result.count }
{
    if known.from == low && low <= known.to && known.count <= most {
        return known;
    }
    Decided {
        from: low,
        to: low,
        count: 0,
    }
}
