//! The element of an offer is removed: it is taken, or drained from a cancelled channel.
ghost use Rattle.channel_model.specs.Laws.{NoneBelow};
ghost use Rattle.word_rules.specs.Words.{IsCell};
ghost use Rattle.cell_words.specs.Hubs.{shape_of, seen_by, IsOwn};
ghost use Rattle.cell_words.specs.Seen.{at_channel};
ghost use Rattle.cell_words.specs.Answers.{Offers, MayRemoveHeld};
ghost use Rattle.cell_calls.specs.Takings.{RemovedAt};

use cell_words::{Hub, Pass, Removal, Tried, Waiter, remove, remove_admitted};
use co_base::{ChannelId, Place, Tag};

/// Removes the offer that was placed here, if it stands: `Some(None)` where nobody waited with it any more.
#[inline(always)]
pub(crate) fn remove_offer(
    hub: &Hub,
    pass: &mut Pass,
    who: Tag,
    c: ChannelId,
    place: Place,
    waiter: Waiter,
    removal: Removal,
) -> Option<Option<Tag>>
    requires own { IsOwn hub.now pass.old who }
    requires at { IsCell (shape_of hub.now) c place }
    requires may { MayRemoveHeld removal c (seen_by pass.old).seen }
    requires low { NoneBelow 0 place (at_channel (seen_by pass.old).seen c) }
    requires first { Offers (shape_of hub.now) c place waiter (seen_by pass.old).seen }
    ensures own { IsOwn hub.now pass.new who }
    ensures removed { RemovedAt removal who c place waiter.value (seen_by pass.old) (seen_by pass.new) result }
{
    match remove(hub, pass, who, c, place, waiter, removal) {
        Tried::Taken(owner) => Some(Some(owner)),
        Tried::Gone => None,
        Tried::Admitted => {
            if remove_admitted(hub, pass, who, c, place, waiter, removal) {
                Some(None)
            } else {
                None
            }
        }
    }
}
