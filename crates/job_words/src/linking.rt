//! Where a Job stands in the tree.
ghost use Rattle.std.specs.Prelude.{◌≡◌, ◌≢◌, Some};
ghost use Rattle.job_model.specs.Answers.{LinkAnswer};
ghost use Rattle.word_rules.specs.Rows.{link_at, without_hint};
ghost use Rattle.word_rules.specs.Deeds.{store_of};
ghost use Rattle.job_words.specs.Passes.{Sees, floor_seen};
ghost use Rattle.job_words.specs.Attaches.{IsAttached};
ghost use Rattle.job_words.specs.Forests.{seen_by, IsOwn, SameGiving};

use crate::forest::Forest;
use crate::pass::JobPass;
use crate::words::load_any_link;
use co_base::{Row, Tag};
use job_model::Link;
use word_rules::LinkWord;

/// The link word of an attached row, which never changes except for its hint.
pub(crate) fn load_link(forest: &Forest, pass: &mut JobPass, who: Tag, row: Row) -> LinkWord
    requires own { IsOwn forest.now pass.old who }
    requires attached { IsAttached (seen_by pass.old) row }
    requires child { row ≢ 0 }
    ensures own { IsOwn forest.now pass.new who }
    ensures sees { Sees who (seen_by pass.old) (seen_by pass.new) }
    ensures link { link_at (store_of (seen_by pass.new).seen).tree row ≡ Some (without_hint result) }
{
    load_any_link(forest, pass, who, row)
}

/// Where a Job stands in the tree.
pub(crate) fn link(forest: &Forest, pass: &mut JobPass, who: Tag, row: Row) -> Link
    requires own { IsOwn forest.now pass.old who }
    requires attached { IsAttached (seen_by pass.old) row }
    requires child { row ≢ 0 }
    ensures own { IsOwn forest.now pass.new who }
    ensures answer { LinkAnswer who row (floor_seen (seen_by pass.old)) (floor_seen (seen_by pass.new)) result }
    ensures giving { SameGiving pass.old pass.new }
{
    let word = load_link(forest, pass, who, row);
    Link {
        parent: word.parent,
        next: if word.next == 0 {
            None
        } else {
            Some(word.next)
        },
        tag: word.tag,
    }
}
