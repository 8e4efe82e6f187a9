//! Whether a pass of a forest has seen a Job attached.
ghost use Rattle.std.specs.Prelude.{◌≡◌, true, is_some};
ghost use Rattle.job_model.specs.Histories.{replay};
ghost use Rattle.job_words.specs.Forests.{IsOwn};
ghost use Rattle.job_words.specs.Rangers.{ranger_floor, ranger_anchor};
ghost use Rattle.future_bridge.specs.Jobs.{jobs_seen};

use co_base::{Row, Tag};
use floor_tests::forest_shares::is_attached;
use job_words::{Forest, JobPass, Ranger};

fn sees_job_on(ranger: &mut Ranger<'_>, who: Tag, row: Row) -> bool
    requires caller { (ranger_floor ranger.old).callers who ≡ true }
    ensures anchor { ranger_anchor ranger.new ≡ ranger_anchor ranger.old }
    ensures own { IsOwn ranger.old.forest.now ranger.new.pass.now who }
    ensures attached { result ≡ true → is_some (replay (ranger_floor ranger.new).seen row) ≡ true }
{
    is_attached(ranger, who, row)
}

/// Whether the pass has seen the row attached.
pub(crate) fn sees_job(forest: &Forest, pass: &mut JobPass, who: Tag, row: Row) -> bool
    requires own { IsOwn forest.now pass.old who }
    ensures own { IsOwn forest.now pass.new who }
    ensures attached { result ≡ true → is_some (replay (jobs_seen pass.new).seen row) ≡ true }
{
    let mut ranger = Ranger { forest, pass };
    sees_job_on(&mut ranger, who, row)
}
