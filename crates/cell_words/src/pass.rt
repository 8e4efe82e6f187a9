//! A pass: what its callers have seen of a hub, and may do there.
ghost use Rattle.std.proofs.Props.{props};
ghost use Rattle.channel_model.specs.Histories.{Legal};
ghost use Rattle.cell_words.specs.Seen.{NothingUngiven, NobodyUngiven, on_channels};
ghost use Rattle.channel_model.proofs.Once.{Legal-prop};

use word_rules::RunSeat;

/// What a thread steps with on a hub: it alone acts under the tags of its callers. It has no bytes.
#[derive(Drop)]
pub struct Pass {
    pub seat: RunSeat,
    pub ghost legal: { Legal (on_channels seat.me.0).key.kinds (on_channels seat.me.0).seen } by { Legal-prop (on_channels seat.me.0).key.kinds (on_channels seat.me.0).seen },
    pub ghost ungiven: { NothingUngiven (on_channels seat.me.0) } by { Prim.hlevel props },
    pub ghost nobody: { NobodyUngiven seat.me.0 } by { Prim.hlevel props },
}
