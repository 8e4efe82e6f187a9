//! How the two seats of a coroutine hear each other.

ghost use Rattle.std.specs.Prelude.{◌≡◌, ℕ, true, []};
ghost use mathlib.Core.List.{IsPrefix};
ghost use Rattle.channel_model.specs.Floors.{Looked};
ghost use Rattle.job_model.specs.Floors.{Looked as LookedOnJobs};
ghost use Rattle.worded.specs.Views.{SameSeat, has_tag};
ghost use Rattle.cell_words.specs.Hubs.{IsOf, seen_by};
ghost use Rattle.cell_words.specs.Seen.{Sees};
ghost use Rattle.job_words.specs.Forests.{IsOf as IsOfForest, SameGiving as SameGivingOfJobs, seen_by as jobs_seen_by};
ghost use Rattle.job_words.specs.Passes.{floor_seen};
ghost use Rattle.shared_floors.specs.Meetings.{NoJobsOfOthers, NoRowsOfOthers};

use crate::forest_seat::ForestSeat;
use crate::hub_seat::HubSeat;
use crate::names::TableName;
use call_meaning::JobsBeside;
use cell_words::{Hub, Pass};
use job_words::{Forest, JobPass};
use shared_floors::{SharedChannels, SharedJobs};

/// A pass of the Jobs hears one of the channels of the same table.
#[inline(always)]
fn hear_channels(forest: &Forest, jobs: &mut JobPass, pass: &mut Pass)
    requires of { IsOfForest forest.now jobs.old }
    requires table { pass.old.seat.table_id ≡ forest.now.table.value.shared.table_id }
    ensures of { IsOfForest forest.now jobs.new }
    ensures same { SameSeat pass.old.seat pass.new.seat × (pass.new.seat.me.0 ≡ pass.old.seat.me.0) }
    ensures looked { (who : ℕ) → has_tag who (jobs_seen_by jobs.old).tags ≡ true
        → LookedOnJobs who [] (floor_seen (jobs_seen_by jobs.old)) (floor_seen (jobs_seen_by jobs.new)) }
    ensures giving { SameGivingOfJobs jobs.old jobs.new }
    ensures heard { IsPrefix pass.old.seat.me.0.seen jobs.new.seat.me.0.seen }
{
    forest.hear(jobs, &mut pass.seat);
}

/// A pass of the channels hears one of the Jobs of the same table.
#[inline(always)]
fn hear_jobs(hub: &Hub, pass: &mut Pass, jobs: &mut JobPass)
    requires of { IsOf hub.now pass.old }
    requires table { jobs.old.seat.table_id ≡ hub.now.table.value.shared.table_id }
    ensures of { IsOf hub.now pass.new }
    ensures same { SameSeat jobs.old.seat jobs.new.seat × (jobs.new.seat.me.0 ≡ jobs.old.seat.me.0) }
    ensures sees { Sees (seen_by pass.old) (seen_by pass.new) }
    ensures heard { IsPrefix jobs.old.seat.me.0.seen pass.new.seat.me.0.seen }
{
    hub.hear(pass, &mut jobs.seat);
}

impl<N: TableName> JobsBeside<HubSeat<'_, N>> for ForestSeat<'_, N> {
    fn hear(&mut self, channels: &mut HubSeat<'_, N>) {
        hear_channels(self.forest, &mut self.pass, &mut channels.pass);
    }

    fn tell(&mut self, channels: &mut HubSeat<'_, N>) {
        hear_jobs(channels.hub, &mut channels.pass, &mut self.pass);
    }
}

/// A floor of Jobs beside a floor of channels that gives out the tags of both.
pub trait SharedBeside<C: SharedChannels>: SharedJobs + JobsBeside<C> {
    ghost use Rattle.std.specs.Prelude.{ℕ, Bool};

    /// Under which tags Jobs may have been called, or rows claimed, as far as the floor of channels knows. No call changes it.
    ghost may_act_beside: { C.Anchor → ℕ → Bool };

    /// The floor of channels hears what was seen on that of Jobs. What it knows of tags under which nobody may act holds of what was seen.
    fn learn(&mut self, channels: &mut C)
        ensures anchor { Self.anchor self.new ≡ Self.anchor self.old }
        ensures channels_anchor { C.anchor channels.new ≡ C.anchor channels.old }
        ensures jobs { Self.view self.new ≡ Self.view self.old }
        ensures looked { (who : ℕ) → (C.view channels.old).callers who ≡ true → Looked who (C.view channels.old) (C.view channels.new) }
        ensures none { NoJobsOfOthers (Self.may_act_beside (C.anchor channels.new)) (Self.view self.new) }
        ensures unclaimed { NoRowsOfOthers (Self.may_act_beside (C.anchor channels.new)) (Self.view self.new) };
}

impl<N: TableName> SharedBeside<HubSeat<'_, N>> for ForestSeat<'_, N> {
    ghost use Rattle.word_seats.specs.Seats.{may_act_beside};

    ghost may_act_beside = { may_act_beside };

    fn learn(&mut self, channels: &mut HubSeat<'_, N>) {
        let hub = channels.hub;
        hear_jobs(hub, &mut channels.pass, &mut self.pass);
    }
}
