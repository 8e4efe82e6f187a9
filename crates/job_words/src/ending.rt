//! The body of the caller's own Job ends.
ghost use Rattle.std.specs.Prelude.{◌≡◌};
ghost use Rattle.job_model.specs.Needs.{MayEndBody};
ghost use Rattle.job_model.specs.Answers.{EndBodyAnswer};
ghost use Rattle.word_rules.specs.Rows.{word_without_body};
ghost use Rattle.word_rules.specs.Deeds.{store_of};
ghost use Rattle.job_words.specs.Passes.{floor_seen};
ghost use Rattle.job_words.specs.Decisions.{owed_if, end_decision};
ghost use Rattle.job_words.specs.Forests.{seen_by, IsOwn, SameGiving};

use crate::decision::Decision;
use crate::forest::Forest;
use crate::pass::JobPass;
use crate::updating::update;
use co_base::{Row, Tag, Value};
use job_model::{Ended, JobAct, JobState};
use word_rules::JobWord;

/// The word after the body ended.
fn without_body(word: JobWord, value: Value) -> JobWord
    ensures { result ≡ word_without_body value word }
{
    match word.state {
        JobState::Active => JobWord {
            state: JobState::Completing,
            body_ended: true,
            rest: value,
            ..word
        },
        JobState::New
        | JobState::Completing
        | JobState::Cancelling
        | JobState::Cancelled
        | JobState::Completed => JobWord {
            body_ended: true,
            ..word
        },
    }
}

/// A Finish is owed, or not yet.
pub(crate) fn owed_if(owed: bool) -> Ended
    ensures { result ≡ owed_if owed }
{
    if owed { Ended::Owes } else { Ended::Waits }
}

/// What the end of a body decides on the Job's word.
fn decide_end(row: Row, value: Value, word: JobWord) -> Decision<Ended>
    ensures { result ≡ end_decision row value word }
{
    Decision::Change {
        new: without_body(word, value),
        act: JobAct::EndBody { row, value },
        answer: owed_if(word.living == 0),
    }
}

/// Ends the body of the caller's own Job.
pub(crate) fn end_body(
    forest: &Forest,
    pass: &mut JobPass,
    who: Tag,
    row: Row,
    value: Value,
) -> Ended
    requires own { IsOwn forest.now pass.old who }
    requires may { MayEndBody who ((store_of (seen_by pass.old).seen).tree row) }
    ensures own { IsOwn forest.now pass.new who }
    ensures answer { EndBodyAnswer who row value (floor_seen (seen_by pass.old)) (floor_seen (seen_by pass.new)) result }
    ensures giving { SameGiving pass.old pass.new }
{
    update(
        forest,
        pass,
        who,
        row,
        move |word| decide_end(row, value, word),
    )
}
