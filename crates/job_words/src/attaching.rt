//! A child is attached: its row is claimed, its words are stored, and one exchange on the parent's word discloses it.
ghost use Rattle.std.specs.Prelude.{◌≡◌, ◌≢◌, ◌<◌, true};
ghost use Rattle.job_model.specs.Needs.{IsRowFor};
ghost use Rattle.job_model.specs.Answers.{AttachAnswer};
ghost use Rattle.word_rules.specs.Rows.{new_word};
ghost use Rattle.word_rules.specs.Deeds.{shape_of, store_of};
ghost use Rattle.job_words.specs.Passes.{IsMine, floor_seen};
ghost use Rattle.job_words.specs.Attaches.{IsAttached, TriedAnswer, DisclosedAnswer};
ghost use Rattle.job_words.specs.Forests.{seen_by, IsOwn, SameGiving};

use crate::claiming::{claim_row, store_job, store_link};
use crate::forest::Forest;
use crate::pass::JobPass;
use crate::steps::lift_word;
use crate::tried::Tried;
use crate::words::{act_on, load_job};
use co_base::{Row, Tag};
use job_model::{AttachError, Attached, JobAct, JobKind, JobState};
use word_rules::{JobWord, LinkWord};

// Bit 47 of a link word.
const DISCLOSED: u64 = 140737488355328;

/// Raises the hint that the row was attached, in its link word.
fn raise_hint(forest: &Forest, pass: &mut JobPass, who: Tag, row: Row, link: u64)
    requires own { IsOwn forest.now pass.old who }
    requires row { (row < forest.now.size.rows) × (row ≢ 0) }
    requires attached { IsAttached (seen_by pass.old) row }
    requires link { (store_of (seen_by pass.old).seen).links row ≡ link }
    requires short { link < 140737488355328 }
    ensures own { IsOwn forest.now pass.new who }
    ensures same { seen_by pass.new ≡ seen_by pass.old }
{
    lift_word(forest, pass, who, 2 * row as usize + 1, link + DISCLOSED)
}

/// A child as it is attached.
fn new_child(kind: JobKind, cancelled: bool) -> JobWord
    ensures { result ≡ new_word kind cancelled }
{
    let state = if cancelled {
        JobState::Cancelling
    } else if kind.lazy {
        JobState::New
    } else {
        JobState::Active
    };
    JobWord {
        state,
        body_ended: false,
        first_child: 0,
        living: 0,
        rest: 0,
    }
}

/// One try to attach the caller's own row, in which `link` and `job` are stored.
fn attach_once(
    forest: &Forest,
    pass: &mut JobPass,
    who: Tag,
    parent: Row,
    kind: JobKind,
    tag: Tag,
    row: Row,
    link: u64,
    job: u64,
) -> Tried
    requires own { IsOwn forest.now pass.old who }
    requires parent { IsAttached (seen_by pass.old) parent }
    requires mine { IsMine who row link job (store_of (seen_by pass.old).seen) }
    requires row { (row < forest.now.size.rows) × IsRowFor (shape_of forest.now.size) who kind tag row }
    requires tag { tag < forest.now.size.coroutines }
    ensures own { IsOwn forest.now pass.new who }
    ensures parent { IsAttached (seen_by pass.new) parent }
    ensures tried { TriedAnswer who parent kind tag row (seen_by pass.old) (seen_by pass.new) result }
{
    let above = load_job(forest, pass, who, parent);
    if above.state.is_completed() {
        return Tried::Ended;
    }
    let cancelled = above.state.is_cancelled();
    let new_link = LinkWord {
        parent,
        next: above.first_child,
        tag,
        kind,
        disclosed: false,
    }
    .pack();
    store_link(forest, pass, who, row, link, new_link);
    let new_job = new_child(kind, cancelled).pack();
    store_job(forest, pass, who, row, job, new_job);
    let with_child = JobWord {
        first_child: row,
        living: above.living + 1,
        ..above
    };
    let act = JobAct::Attach {
        parent,
        row,
        kind,
        tag,
        cancelled,
    };
    if act_on(forest, pass, who, parent, above, with_child, act) {
        raise_hint(forest, pass, who, row, new_link);
        Tried::Attached(cancelled)
    } else {
        Tried::Lost {
            link: new_link,
            job: new_job,
        }
    }
}

/// Attaches the caller's own row, unless the parent has ended.
fn disclose(
    forest: &Forest,
    pass: &mut JobPass,
    who: Tag,
    parent: Row,
    kind: JobKind,
    tag: Tag,
    row: Row,
) -> Option<bool>
    requires own { IsOwn forest.now pass.old who }
    requires parent { IsAttached (seen_by pass.old) parent }
    requires mine { IsMine who row 0 7 (store_of (seen_by pass.old).seen) }
    requires row { (row < forest.now.size.rows) × IsRowFor (shape_of forest.now.size) who kind tag row }
    requires tag { tag < forest.now.size.coroutines }
    ensures own { IsOwn forest.now pass.new who }
    ensures answer { DisclosedAnswer who parent kind tag row (seen_by pass.old) (seen_by pass.new) result }
{
    let mut stored_link = 0;
    let mut stored_job = 7;
    'tries: loop {
        match attach_once(
            forest,
            pass,
            who,
            parent,
            kind,
            tag,
            row,
            stored_link,
            stored_job,
        ) {
            Tried::Attached(cancelled) => return Some(cancelled),
            Tried::Ended => return None,
            Tried::Lost { link, job } => {
                stored_link = link;
                stored_job = job;
            }
        }
    }
}

/// Claims a row, and attaches it as the newest child of the parent.
pub(crate) fn attach(
    forest: &Forest,
    pass: &mut JobPass,
    who: Tag,
    parent: Row,
    kind: JobKind,
    tag: Tag,
) -> Result<Attached, AttachError>
    requires own { IsOwn forest.now pass.old who }
    requires parent { IsAttached (seen_by pass.old) parent }
    requires tag { tag < forest.now.size.coroutines }
    requires scope { kind.scoped ≡ true → tag ≡ who }
    ensures own { IsOwn forest.now pass.new who }
    ensures answer { AttachAnswer who parent kind tag (floor_seen (seen_by pass.old)) (floor_seen (seen_by pass.new)) result }
    ensures giving { SameGiving pass.old pass.new }
{
    let row = match claim_row(forest, pass, who, kind, tag) {
        Ok(row) => row,
        Err(error) => return Err(error),
    };
    match disclose(forest, pass, who, parent, kind, tag, row) {
        Some(cancelled) => Ok(Attached { row, cancelled }),
        None => Err(AttachError::ParentEnded),
    }
}
