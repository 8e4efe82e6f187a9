//! A New Job is started, by a pass of its forest.
ghost use Rattle.std.specs.Prelude.{◌≡◌, None};
ghost use Rattle.job_model.specs.Histories.{replay};
ghost use Rattle.job_model.specs.Floors.{MayCall};
ghost use Rattle.job_model.specs.Answers.{IsNotNew};
ghost use Rattle.job_words.specs.Forests.{IsOwn, SameGiving};
ghost use Rattle.job_words.specs.Rangers.{ranger_floor, ranger_anchor};
ghost use Rattle.future_bridge.specs.Jobs.{Started, StartsFirst, RowStands, jobs_seen};

use co_base::{Place, Row, Tag};
use job_model::JobFloor;
use job_words::{Forest, JobPass, Ranger};

/// Starts the Job, if it is New, on the floor of one pass.
fn start_on(ranger: &mut Ranger<'_>, who: Tag, row: Row)
    requires can { MayCall who row (ranger_floor ranger.old) }
    ensures anchor { ranger_anchor ranger.new ≡ ranger_anchor ranger.old }
    ensures own { IsOwn ranger.old.forest.now ranger.new.pass.now who }
    ensures giving { SameGiving ranger.old.pass.now ranger.new.pass.now }
    ensures started { Started who row (ranger_floor ranger.old) (ranger_floor ranger.new) }
{
    let _started = ranger.start(who, row);
}

/// Starts the Job, if it is New.
fn start_by(forest: &Forest, pass: &mut JobPass, who: Tag, row: Row)
    requires own { IsOwn forest.now pass.old who }
    requires row { RowStands row pass.old None }
    ensures own { IsOwn forest.now pass.new who }
    ensures giving { SameGiving pass.old pass.new }
    ensures started { Started who row (jobs_seen pass.old) (jobs_seen pass.new) }
{
    let mut ranger = Ranger { forest, pass };
    start_on(&mut ranger, who, row);
}

/// The same at the first poll, which has no wait yet.
pub(crate) fn start_first(
    forest: &Forest,
    pass: &mut JobPass,
    who: Tag,
    row: Row,
    wait: Option<Place>,
)
    requires own { IsOwn forest.now pass.old who }
    requires row { RowStands row pass.old wait }
    ensures own { IsOwn forest.now pass.new who }
    ensures giving { SameGiving pass.old pass.new }
    ensures starts { StartsFirst wait who row pass.old pass.new }
    ensures not_new { IsNotNew (replay (jobs_seen pass.new).seen row) }
{
    match wait {
        None => start_by(forest, pass, who, row),
        Some(_place) => {}
    }
}
