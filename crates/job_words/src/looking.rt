//! A Job at one moment.
ghost use Rattle.std.specs.Prelude.{◌≡◌, ◌≢◌, ◌<◌};
ghost use Rattle.job_model.specs.Answers.{LookAnswer};
ghost use Rattle.job_words.specs.Passes.{floor_seen};
ghost use Rattle.job_words.specs.Attaches.{IsAttached};
ghost use Rattle.job_words.specs.Looks.{WalkAnswer, KindAnswer, view_from};
ghost use Rattle.job_words.specs.Forests.{seen_by, IsOwn, SameGiving};

use crate::finishing::cause_of_rest;
use crate::forest::Forest;
use crate::linking::load_link;
use crate::pass::JobPass;
use crate::steps::load_word;
use crate::words::{load_any_link, load_job};
use co_base::{Row, Tag};
use job_model::{Cause, JobKind, JobState, JobView};
use word_rules::JobWord;

const ROOT_KIND: JobKind = JobKind {
    supervisor: false,
    scoped: false,
    lazy: false,
};

/// Whether the row was a child of the parent when the parent's word was seen.
fn is_child(forest: &Forest, pass: &mut JobPass, who: Tag, parent: Row, row: Row) -> bool
    requires own { IsOwn forest.now pass.old who }
    requires parent { IsAttached (seen_by pass.old) parent }
    requires child { row ≢ 0 }
    ensures own { IsOwn forest.now pass.new who }
    ensures found { WalkAnswer who parent row (seen_by pass.old) (seen_by pass.new) result }
{
    let mut next = load_job(forest, pass, who, parent).first_child;
    'walk: while next != 0 {
        if next == row {
            return true;
        }
        next = load_link(forest, pass, who, next).next;
    }
    false
}

/// The kind of the row's Job, if the row was attached at a step of this call. Where the row is known to be attached, its link word
/// says so; else the row is attached exactly if it stands among the children of the parent that its link word names.
fn kind_if_attached(forest: &Forest, pass: &mut JobPass, who: Tag, row: Row) -> Option<JobKind>
    requires own { IsOwn forest.now pass.old who }
    requires row { row < forest.now.size.rows }
    ensures own { IsOwn forest.now pass.new who }
    ensures answer { KindAnswer who row (seen_by pass.old) (seen_by pass.new) result }
{
    if row == 0 {
        return Some(ROOT_KIND);
    }
    let link = load_any_link(forest, pass, who, row);
    if link.disclosed {
        return Some(link.kind);
    }
    let number = load_word(forest, pass, who, 2 * row as usize);
    match JobWord::unpack(number) {
        None => return None,
        Some(_) => {}
    }
    if !is_child(forest, pass, who, link.parent, row) {
        return None;
    }
    Some(load_link(forest, pass, who, row).kind)
}

/// A Job as a look shows it.
fn view_of(word: JobWord, kind: JobKind) -> JobView
    ensures { result ≡ view_from word kind }
{
    JobView {
        state: word.state,
        kind,
        cause: if word.state.is_cancelled() {
            cause_of_rest(word.rest)
        } else {
            Cause::None
        },
        body_ended: word.body_ended,
        living: word.living,
        first_child: if word.first_child == 0 {
            None
        } else {
            Some(word.first_child)
        },
        value: match word.state {
            JobState::Completing | JobState::Completed => word.rest,
            JobState::New | JobState::Active | JobState::Cancelling | JobState::Cancelled => 0,
        },
    }
}

/// The Job of a row, if it is attached.
pub(crate) fn look(forest: &Forest, pass: &mut JobPass, who: Tag, row: Row) -> Option<JobView>
    requires own { IsOwn forest.now pass.old who }
    requires row { row < forest.now.size.rows }
    ensures own { IsOwn forest.now pass.new who }
    ensures answer { LookAnswer who row (floor_seen (seen_by pass.old)) (floor_seen (seen_by pass.new)) result }
    ensures giving { SameGiving pass.old pass.new }
{
    match kind_if_attached(forest, pass, who, row) {
        Some(kind) => {
            let word = load_job(forest, pass, who, row);
            Some(view_of(word, kind))
        }
        None => None,
    }
}
