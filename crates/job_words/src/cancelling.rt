//! A Job alone is cancelled.
ghost use Rattle.std.specs.Prelude.{◌≡◌, []};
ghost use Rattle.job_model.specs.Needs.{Holds};
ghost use Rattle.job_model.specs.Answers.{CancelAnswer};
ghost use Rattle.word_rules.specs.Rows.{cause_code};
ghost use Rattle.word_rules.specs.Deeds.{shape_of, store_of};
ghost use Rattle.job_words.specs.Passes.{Goes, floor_seen};
ghost use Rattle.job_words.specs.Attaches.{IsAttached};
ghost use Rattle.job_words.specs.Acts.{IsCauseOf};
ghost use Rattle.job_words.specs.Decisions.{cancel_decision};
ghost use Rattle.job_words.specs.Forests.{seen_by, IsOwn, SameGiving};

use crate::decision::Decision;
use crate::finishing::cause_of_rest;
use crate::forest::Forest;
use crate::pass::JobPass;
use crate::updating::update;
use crate::words::load_job;
use co_base::{Row, Tag};
use job_model::{CancelledNow, Cause, JobAct, JobState, Reason};
use word_rules::JobWord;

fn code_of_cause(cause: Cause) -> u32
    ensures { result ≡ cause_code cause }
{
    match cause {
        Cause::None | Cause::Request => 0,
        Cause::Failure(row) => 1 + 2 * (row as u32),
    }
}

/// The cause of a Job that is cancelled for this reason, which was seen to hold.
fn cause_for(forest: &Forest, pass: &mut JobPass, who: Tag, row: Row, reason: Reason) -> Cause
    requires own { IsOwn forest.now pass.old who }
    requires attached { IsAttached (seen_by pass.old) row }
    requires reason { Holds (shape_of forest.now.size) (store_of (seen_by pass.old).seen).tree who row reason }
    ensures own { IsOwn forest.now pass.new who }
    ensures goes { Goes who [] (seen_by pass.old) (seen_by pass.new) }
    ensures cause { IsCauseOf forest.now.size who row reason (seen_by pass.new) result }
{
    match reason {
        Reason::Request | Reason::Parent => Cause::Request,
        Reason::Child(child) => cause_of_rest(load_job(forest, pass, who, child).rest),
        Reason::Own(row) => Cause::Failure(row),
    }
}

/// What a cancellation decides on the Job's word. `code` is the cause in that word.
fn decide_cancel(row: Row, reason: Reason, code: u32, word: JobWord) -> Decision<CancelledNow>
    ensures { result ≡ cancel_decision row reason code word }
{
    if word.state.is_cancellable() {
        Decision::Change {
            new: JobWord {
                state: JobState::Cancelling,
                rest: code,
                ..word
            },
            act: JobAct::Cancel { row, reason },
            answer: CancelledNow::Now,
        }
    } else {
        Decision::Keep(CancelledNow::Already)
    }
}

/// Cancels the Job alone, where it is not Cancelling or ended.
pub(crate) fn cancel_one(
    forest: &Forest,
    pass: &mut JobPass,
    who: Tag,
    row: Row,
    reason: Reason,
) -> CancelledNow
    requires own { IsOwn forest.now pass.old who }
    requires attached { IsAttached (seen_by pass.old) row }
    requires reason { Holds (shape_of forest.now.size) (store_of (seen_by pass.old).seen).tree who row reason }
    ensures own { IsOwn forest.now pass.new who }
    ensures answer { CancelAnswer who row reason (floor_seen (seen_by pass.old)) (floor_seen (seen_by pass.new)) result }
    ensures giving { SameGiving pass.old pass.new }
{
    let cause = cause_for(forest, pass, who, row, reason);
    let code = code_of_cause(cause);
    update(forest, pass, who, row, move |word| {
        decide_cancel(row, reason, code, word)
    })
}
