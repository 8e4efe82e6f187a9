//! The parent of an ended Job is told that it is gone.
ghost use Rattle.std.specs.Prelude.{◌≡◌, ◌≤◌};
ghost use Rattle.job_model.specs.Needs.{MayTell};
ghost use Rattle.job_model.specs.Answers.{GoneAnswer};
ghost use Rattle.word_rules.specs.Deeds.{store_of};
ghost use Rattle.job_words.specs.Passes.{floor_seen};
ghost use Rattle.job_words.specs.Decisions.{gone_decision};
ghost use Rattle.job_words.specs.Forests.{seen_by, IsOwn, SameGiving};

use crate::decision::Decision;
use crate::ending::owed_if;
use crate::forest::Forest;
use crate::linking::load_link;
use crate::pass::JobPass;
use crate::updating::update;
use co_base::{Row, Tag};
use job_model::{Ended, JobAct};
use word_rules::JobWord;

/// What a child that is gone decides on its parent's word.
fn decide_gone(row: Row, word: JobWord) -> Decision<Ended>
    requires { 1 ≤ word.living }
    ensures { result ≡ gone_decision row word }
{
    Decision::Change {
        new: JobWord {
            living: word.living - 1,
            ..word
        },
        act: JobAct::Gone { row },
        answer: owed_if(word.body_ended & (word.living == 1)),
    }
}

/// Tells the parent of a Job that the caller finished that it is gone.
pub(crate) fn gone(forest: &Forest, pass: &mut JobPass, who: Tag, row: Row) -> Ended
    requires own { IsOwn forest.now pass.old who }
    requires untold { MayTell who row (store_of (seen_by pass.old).seen).tree }
    ensures own { IsOwn forest.now pass.new who }
    ensures answer { GoneAnswer who row (floor_seen (seen_by pass.old)) (floor_seen (seen_by pass.new)) result }
    ensures giving { SameGiving pass.old pass.new }
{
    let parent = load_link(forest, pass, who, row).parent;
    update(
        forest,
        pass,
        who,
        parent,
        move |word| decide_gone(row, word),
    )
}
