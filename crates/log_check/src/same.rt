//! Whether two notes are the same.

ghost use Rattle.std.specs.Prelude.{◌≡◌, true};

use channel_model::ChannelNote;
use job_model::{JobAct, JobNote, Reason};
use note_book::Item;

fn same_reason(left: Reason, right: Reason) -> bool
    ensures { result ≡ true → left ≡ right }
{
    match (left, right) {
        (Reason::Request, Reason::Request) | (Reason::Parent, Reason::Parent) => true,
        (Reason::Child(r), Reason::Child(s)) | (Reason::Own(r), Reason::Own(s)) => r == s,
        _ => false,
    }
}

fn same_act(left: JobAct, right: JobAct) -> bool
    ensures { result ≡ true → left ≡ right }
{
    match (left, right) {
        (
            JobAct::Attach {
                parent,
                row,
                kind,
                tag,
                cancelled,
            },
            JobAct::Attach {
                parent: parent_too,
                row: row_too,
                kind: kind_too,
                tag: tag_too,
                cancelled: cancelled_too,
            },
        ) => {
            parent == parent_too
                && row == row_too
                && kind == kind_too
                && tag == tag_too
                && cancelled == cancelled_too
        }
        (JobAct::Start { row: r }, JobAct::Start { row: s }) => r == s,
        (JobAct::EndBody { row: r, value: v }, JobAct::EndBody { row: s, value: w }) => {
            r == s && v == w
        }
        (JobAct::Cancel { row: r, reason: v }, JobAct::Cancel { row: s, reason: w }) => {
            r == s && same_reason(v, w)
        }
        (JobAct::Finish { row: r, end: v }, JobAct::Finish { row: s, end: w }) => r == s && v == w,
        (JobAct::Gone { row: r }, JobAct::Gone { row: s }) => r == s,
        _ => false,
    }
}

fn same_job_note(left: JobNote, right: JobNote) -> bool
    ensures { result ≡ true → left ≡ right }
{
    match (left, right) {
        (JobNote::Made(x), JobNote::Made(y)) => same_act(x, y),
        (JobNote::Saw { row: r }, JobNote::Saw { row: s }) => r == s,
        (JobNote::SawEnd { row: r, end: v }, JobNote::SawEnd { row: s, end: w }) => {
            r == s && v == w
        }
        (JobNote::Fail { code: v }, JobNote::Fail { code: w }) => v == w,
        (JobNote::NoRow, JobNote::NoRow)
        | (JobNote::Used, JobNote::Used)
        | (JobNote::ParentEnded, JobNote::ParentEnded) => true,
        _ => false,
    }
}

fn same_channel_note(left: ChannelNote, right: ChannelNote) -> bool
    ensures { result ≡ true → left ≡ right }
{
    left == right
}

pub(crate) fn same_item(left: Item, right: Item) -> bool
    ensures { result ≡ true → left ≡ right }
{
    match (left, right) {
        (Item::Channel(x), Item::Channel(y)) => same_channel_note(x, y),
        (Item::Job(x), Item::Job(y)) => same_job_note(x, y),
        _ => false,
    }
}

/// Whether these are the same notes in the same order.
pub(crate) fn same_items(left: &[Item], right: &[Item]) -> bool
    ensures { result ≡ true → left.now ≡ right.now }
{
    let mut rest = left;
    let mut others = right;
    while let [item, more @ ..] = rest {
        let [other, further @ ..] = others else {
            return false;
        };
        if !same_item(*item, *other) {
            return false;
        }
        rest = more;
        others = further;
    }
    others.is_empty()
}
