//! A pass: what its callers have seen of a forest, and may do there.
ghost use Rattle.std.proofs.Props.{props};
ghost use Rattle.job_model.specs.Trees.{IsShape};
ghost use Rattle.job_model.specs.Floors.{HasClaims};
ghost use Rattle.word_rules.specs.Deeds.{shape_of};
ghost use Rattle.job_words.specs.Once.{DoneSeen-prop, IsDoneSeen, IsLegalSeen, LegalSeen-prop};
ghost use Rattle.job_words.specs.Passes.{floor_seen};
ghost use Rattle.job_words.specs.Meetings.{NothingUngiven};
ghost use Rattle.job_words.specs.JobParts.{jobs_in};

use word_rules::RunSeat;

/// What a thread steps with on a forest: it alone acts under the tags of its callers. It has no bytes.
#[derive(Drop)]
pub struct JobPass {
    pub seat: RunSeat,
    pub ghost shaped: { IsShape (shape_of (jobs_in seat.me.0).key) } by { Prim.hlevel props },
    pub ghost done: { IsDoneSeen (jobs_in seat.me.0) } by { DoneSeen-prop (jobs_in seat.me.0) },
    pub ghost legal: { IsLegalSeen (jobs_in seat.me.0) } by { LegalSeen-prop (jobs_in seat.me.0) },
    pub ghost claimed: { HasClaims (floor_seen (jobs_in seat.me.0)) } by { Prim.hlevel props },
    pub ghost ungiven: { NothingUngiven (jobs_in seat.me.0) } by { Prim.hlevel props },
}
