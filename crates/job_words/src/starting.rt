//! A New Job is started.
ghost use Rattle.std.specs.Prelude.{◌≡◌, true};
ghost use Rattle.job_model.specs.Answers.{StartAnswer};
ghost use Rattle.job_words.specs.Passes.{floor_seen};
ghost use Rattle.job_words.specs.Attaches.{IsAttached};
ghost use Rattle.job_words.specs.Decisions.{start_decision};
ghost use Rattle.job_words.specs.Forests.{seen_by, IsOwn, SameGiving};

use crate::decision::Decision;
use crate::forest::Forest;
use crate::pass::JobPass;
use crate::updating::update;
use co_base::{Row, Tag};
use job_model::{JobAct, JobState};
use word_rules::JobWord;

/// What a start decides on the Job's word.
fn decide_start(row: Row, word: JobWord) -> Decision<bool>
    ensures { result ≡ start_decision row word }
{
    if word.state.is_new() {
        Decision::Change {
            new: JobWord {
                state: JobState::Active,
                ..word
            },
            act: JobAct::Start { row },
            answer: true,
        }
    } else {
        Decision::Keep(false)
    }
}

/// Starts the Job, if it is New.
pub(crate) fn start(forest: &Forest, pass: &mut JobPass, who: Tag, row: Row) -> bool
    requires own { IsOwn forest.now pass.old who }
    requires attached { IsAttached (seen_by pass.old) row }
    ensures own { IsOwn forest.now pass.new who }
    ensures answer { StartAnswer who row (floor_seen (seen_by pass.old)) (floor_seen (seen_by pass.new)) result }
    ensures giving { SameGiving pass.old pass.new }
{
    update(forest, pass, who, row, move |word| decide_start(row, word))
}
