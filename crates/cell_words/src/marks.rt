//! The marks of places. Each tells whether the element of its place was kept, once its sender says so: in a channel that does not keep its
//! latest an element's cell does not. Until then it has the decided places behind its own: `to * 2^21 + count`, from the next place on.
ghost use Rattle.std.specs.Prelude.{◌≡◌, ◌+◌, ◌<◌, ◌≤◌, ℕ, Bool, List, Some};
ghost use Rattle.channel_model.specs.declared.acts.Entry.{Entry as AnEntry};
ghost use Rattle.channel_model.specs.Channels.{Shape};
ghost use Rattle.word_rules.specs.Words.{IsCell, mark_number, mark_told, fate, WereDecided, IsMark};
ghost use Rattle.cell_words.specs.Hubs.{shape_of, seen_by, IsOwn};
ghost use Rattle.cell_words.specs.Seen.{Sees};

use crate::cells::number_of;
use crate::decided::Decided;
use crate::hub::Hub;
use crate::pass::Pass;
use crate::steps::{lift_word, load_word};
use co_base::{ChannelId, Place, Tag};

fn mark_word(hub: &Hub, c: ChannelId, place: Place) -> usize
    requires { IsCell (shape_of hub.now) c place }
    ensures { result ≡ mark_number (shape_of hub.now) c place }
{
    2 * (hub.cells as usize) + 16 * hub.kinds.len() + number_of(hub, c, place)
}

// The number of a mark that tells that the element was kept; the next one tells that it was not, each below has places behind its own.
const TOLD: u64 = 4611686018427387904;

// What the number of a mark tells.
fn mark_found(word: u64) -> Option<bool>
    ensures { result ≡ mark_told word }
{
    if word < TOLD {
        return None;
    }
    Some(word == TOLD)
}

fn mark_of(kept: bool) -> u64
    ensures { mark_told result ≡ Some kept }
{
    if kept { TOLD } else { TOLD + 1 }
}

// The places behind one of which is decided, as the mark of that one has them; none where it has others, or tells.
fn behind_found(word: u64, place: Place) -> Decided
    requires { place < 4294967295 }
    ensures low { (result.from ≡ place + 1) × (result.from ≤ result.to) }
    ensures decided { (shape : Shape) (log : List AnEntry) (c : ℕ)
        → IsMark shape log c place word → WereDecided shape log c result.from result.to result.count }
{
    let from = place + 1;
    let to = word / 2097152;
    if word >= TOLD || to < from as u64 || to >= 2097152 {
        return Decided {
            from,
            to: from,
            count: 0,
        };
    }
    Decided {
        from,
        to: to as Place,
        count: (word % 2097152) as u32,
    }
}

/// Of which places behind this one the mark there says that it is decided, from the next one on.
pub(crate) fn behind_at(hub: &Hub, pass: &mut Pass, who: Tag, c: ChannelId, place: Place) -> Decided
    requires own { IsOwn hub.now pass.old who }
    requires at { (IsCell (shape_of hub.now) c place) × (place < 4294967295) }
    ensures own { IsOwn hub.now pass.new who }
    ensures sees { Sees (seen_by pass.old) (seen_by pass.new) }
    ensures low { (result.from ≡ place + 1) × (result.from ≤ result.to) }
    ensures decided { WereDecided (shape_of hub.now) (seen_by pass.new).seen c result.from result.to result.count }
{
    let word = load_word(hub, pass, who, mark_word(hub, c, place));
    behind_found(word, place)
}

/// Says so of places behind this one, unless the mark has said as much before, or a number is too large. A mark that tells stays as it is.
pub(crate) fn say_behind(
    hub: &Hub,
    pass: &mut Pass,
    who: Tag,
    c: ChannelId,
    place: Place,
    before: Decided,
    known: Decided,
)
    requires own { IsOwn hub.now pass.old who }
    requires at { IsCell (shape_of hub.now) c place }
    requires decided { WereDecided (shape_of hub.now) (seen_by pass.old).seen c (place + 1) known.to known.count }
    ensures own { IsOwn hub.now pass.new who }
    ensures same { seen_by pass.new ≡ seen_by pass.old }
{
    if known.to <= before.to {
        return;
    }
    if known.to >= 2097152 {
        return;
    }
    if known.count >= 2097152 {
        return;
    }
    lift_word(
        hub,
        pass,
        who,
        mark_word(hub, c, place),
        known.to as u64 * 2097152 + known.count as u64,
    );
}

/// What the mark of a place tells, if anything.
pub(crate) fn mark_at(
    hub: &Hub,
    pass: &mut Pass,
    who: Tag,
    c: ChannelId,
    place: Place,
) -> Option<bool>
    requires own { IsOwn hub.now pass.old who }
    requires at { IsCell (shape_of hub.now) c place }
    ensures own { IsOwn hub.now pass.new who }
    ensures sees { Sees (seen_by pass.old) (seen_by pass.new) }
    ensures fate { (b : Bool) → result ≡ Some b → fate (shape_of hub.now) (seen_by pass.new).seen c place ≡ Some b }
{
    let word = load_word(hub, pass, who, mark_word(hub, c, place));
    mark_found(word)
}

/// Marks a place. It shows nothing.
pub(crate) fn mark(hub: &Hub, pass: &mut Pass, who: Tag, c: ChannelId, place: Place, kept: bool)
    requires own { IsOwn hub.now pass.old who }
    requires at { IsCell (shape_of hub.now) c place }
    requires fate { fate (shape_of hub.now) (seen_by pass.old).seen c place ≡ Some kept }
    ensures own { IsOwn hub.now pass.new who }
    ensures same { seen_by pass.new ≡ seen_by pass.old }
{
    lift_word(hub, pass, who, mark_word(hub, c, place), mark_of(kept));
}
