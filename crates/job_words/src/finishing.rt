//! A Job ends.
ghost use Rattle.std.specs.Prelude.{◌≡◌};
ghost use Rattle.job_model.specs.Effects.{state_of_end};
ghost use Rattle.job_model.specs.Answers.{FinishAnswer};
ghost use Rattle.word_rules.specs.Rows.{cause_from, end_from};
ghost use Rattle.job_words.specs.Passes.{floor_seen};
ghost use Rattle.job_words.specs.Attaches.{IsAttached};
ghost use Rattle.job_words.specs.Decisions.{finish_decision};
ghost use Rattle.job_words.specs.Forests.{seen_by, IsOwn, SameGiving};

use crate::decision::Decision;
use crate::forest::Forest;
use crate::pass::JobPass;
use crate::updating::update;
use co_base::{Row, Tag};
use job_model::{Cause, End, Finished, JobAct, JobState};
use word_rules::JobWord;

/// The cause that the word of a cancelled Job has.
pub(crate) fn cause_of_rest(rest: u32) -> Cause
    ensures { result ≡ cause_from rest }
{
    if rest % 2 == 1 {
        Cause::Failure((rest / 2 % 65536) as u16)
    } else {
        Cause::Request
    }
}

/// How the Job ends that has this word, if its body has ended.
fn end_of(word: JobWord) -> Option<End>
    ensures { result ≡ end_from word word.state }
{
    match word.state {
        JobState::Completing => Some(End::Completed(word.rest)),
        JobState::Cancelling => Some(End::Cancelled(cause_of_rest(word.rest))),
        JobState::New | JobState::Active | JobState::Cancelled | JobState::Completed => None,
    }
}

fn state_of_end(end: End) -> JobState
    ensures { result ≡ state_of_end end }
{
    match end {
        End::Completed(_) => JobState::Completed,
        End::Cancelled(_) => JobState::Cancelled,
    }
}

/// What the end of a Job decides on its word.
fn decide_finish(row: Row, word: JobWord) -> Decision<Finished>
    ensures { result ≡ finish_decision row word }
{
    if word.state.is_completed() {
        return Decision::Keep(Finished::Already);
    }
    if !word.body_ended || word.living > 0 {
        return Decision::Keep(Finished::NotYet);
    }
    match end_of(word) {
        Some(end) => Decision::Change {
            new: JobWord {
                state: state_of_end(end),
                ..word
            },
            act: JobAct::Finish { row, end },
            answer: Finished::Now(end),
        },
        // New and Active: their bodies have not ended.
        None => Decision::Keep(Finished::NotYet),
    }
}

/// Ends the Job, if its body has ended and none of its children lives.
pub(crate) fn finish(forest: &Forest, pass: &mut JobPass, who: Tag, row: Row) -> Finished
    requires own { IsOwn forest.now pass.old who }
    requires attached { IsAttached (seen_by pass.old) row }
    ensures own { IsOwn forest.now pass.new who }
    ensures answer { FinishAnswer who row (floor_seen (seen_by pass.old)) (floor_seen (seen_by pass.new)) result }
    ensures giving { SameGiving pass.old pass.new }
{
    update(forest, pass, who, row, move |word| decide_finish(row, word))
}
