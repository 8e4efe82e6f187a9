//! Calls of one pass of a hub.
ghost use Rattle.std.specs.Prelude.{◌≡◌, ◌≤◌, ◌<◌, false, [], ◌∷◌, IfOk, length};
ghost use Rattle.channel_model.specs.Channels.{kind_at, is_signal};
ghost use Rattle.cell_words.specs.Hubs.{shape_of, IsOf, IsOwn, GivesTags};
ghost use Rattle.word_bench.specs.Channels.{CarryElements};
ghost use Rattle.word_bench.specs.Waits.{BeginsOffer, BeginsWait, KeepsOffers};

use cell_words::{Hub, Pass};
use channel_model::{Got, Kind, Offered, TriedGot, TriedOffer};
use co_base::{ChannelId, Memory, Place, Tag, Value};
use std::alloc::Global;

/// A hub of two channels of this kind, with so many places each, and the pass of tag 0.
pub(crate) fn new_hub(
    alloc: Global,
    kind: Kind,
    first: u32,
    second: u32,
) -> Result<(Hub, Pass), Memory>
    requires elements { is_signal kind ≡ false }
    requires some { (1 ≤ first) × (1 ≤ second) }
    requires few { (first ≤ 1048576) × (second ≤ 1048576) }
    ensures channels { IfOk result (λ r. CarryElements r.0) }
    ensures of { IfOk result (λ r. IsOf r.0 r.1) }
    ensures own { IfOk result (λ r. IsOwn r.0 r.1 0) }
    ensures gives { IfOk result (λ r. GivesTags (0 ∷ []) r.1) }
{
    let kinds = [(kind, first), (kind, second)];
    Hub::new(alloc, &kinds)
}

pub(crate) fn offer(hub: &Hub, pass: &mut Pass, who: Tag, c: ChannelId, value: Value) -> Offered
    requires own { IsOwn hub.now pass.old who }
    requires channel { c < length (shape_of hub.now) }
    requires kind { is_signal (kind_at (shape_of hub.now) c) ≡ false }
    ensures own { IsOwn hub.now pass.new who }
    ensures begins { BeginsOffer who c pass.new result }
{
    cell_calls::offer(hub, pass, who, c, value)
}

pub(crate) fn try_offer(hub: &Hub, pass: &mut Pass, who: Tag, value: Value) -> TriedOffer
    requires own { IsOwn hub.now pass.old who }
    requires channels { CarryElements hub.now }
    ensures own { IsOwn hub.now pass.new who }
{
    cell_calls::try_offer(hub, pass, who, 0, value)
}

pub(crate) fn receive(hub: &Hub, pass: &mut Pass, who: Tag) -> Got
    requires own { IsOwn hub.now pass.old who }
    requires channels { CarryElements hub.now }
    ensures own { IsOwn hub.now pass.new who }
    ensures begins { BeginsWait who 0 pass.new result }
{
    cell_calls::receive(hub, pass, who, 0)
}

pub(crate) fn try_receive(hub: &Hub, pass: &mut Pass, who: Tag, c: ChannelId) -> TriedGot
    requires own { IsOwn hub.now pass.old who }
    requires channel { c < length (shape_of hub.now) }
    ensures own { IsOwn hub.now pass.new who }
{
    cell_calls::try_receive(hub, pass, who, c)
}

pub(crate) fn mark(hub: &Hub, pass: &mut Pass, who: Tag) -> Place
    requires own { IsOwn hub.now pass.old who }
    requires channels { CarryElements hub.now }
    ensures own { IsOwn hub.now pass.new who }
    ensures keeps { KeepsOffers who pass.old pass.new }
{
    cell_calls::mark(hub, pass, who, 0)
}

pub(crate) fn admit(hub: &Hub, pass: &mut Pass, who: Tag, mark: Place) -> Option<(Place, Tag)>
    requires own { IsOwn hub.now pass.old who }
    requires channels { CarryElements hub.now }
    ensures own { IsOwn hub.now pass.new who }
    ensures keeps { KeepsOffers who pass.old pass.new }
{
    cell_calls::admit(hub, pass, who, 0, mark)
}
