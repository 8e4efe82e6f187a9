//! The two words of a row, as steps on them.
ghost use Rattle.std.specs.Prelude.{◌≢◌, ◌<◌};
ghost use Rattle.word_rules.specs.Rows.{link_code, IsNarrow, IsNarrowLink};
ghost use Rattle.word_rules.specs.Deeds.{store_of, MayBeLink};
ghost use Rattle.job_words.specs.Passes.{Sees};
ghost use Rattle.job_words.specs.Attaches.{IsAttached, IsWord};
ghost use Rattle.job_words.specs.Acts.{MayAct, ActAnswer};
ghost use Rattle.job_words.specs.Forests.{seen_by, IsOwn};

use crate::forest::Forest;
use crate::pass::JobPass;
use crate::steps::{exchange_word, load_word};
use co_base::{Row, Tag};
use job_model::{JobAct, JobEntry};
use word_rules::{Deed, JobWord, LinkWord};

/// The Job word of an attached row.
pub(crate) fn load_job(forest: &Forest, pass: &mut JobPass, who: Tag, row: Row) -> JobWord
    requires own { IsOwn forest.now pass.old who }
    requires attached { IsAttached (seen_by pass.old) row }
    ensures own { IsOwn forest.now pass.new who }
    ensures sees { Sees who (seen_by pass.old) (seen_by pass.new) }
    ensures attached { IsAttached (seen_by pass.new) row }
    ensures word { IsWord (seen_by pass.new) row result }
{
    let number = load_word(forest, pass, who, 2 * row as usize);
    match JobWord::unpack(number) {
        Some(word) => word,
        None => unreachable!(),
    }
}

/// The link word of any row but the root.
pub(crate) fn load_any_link(forest: &Forest, pass: &mut JobPass, who: Tag, row: Row) -> LinkWord
    requires own { IsOwn forest.now pass.old who }
    requires row { row < forest.now.size.rows }
    requires child { row ≢ 0 }
    ensures own { IsOwn forest.now pass.new who }
    ensures sees { Sees who (seen_by pass.old) (seen_by pass.new) }
    ensures narrow { IsNarrowLink result }
    ensures word { MayBeLink (store_of (seen_by pass.new).seen) row (link_code result) }
{
    let number = load_word(forest, pass, who, 2 * row as usize + 1);
    match LinkWord::unpack(number) {
        Some(word) => word,
        None => unreachable!(),
    }
}

/// Makes the act by turning the Job word of a row, unless that has changed.
pub(crate) fn act_on(
    forest: &Forest,
    pass: &mut JobPass,
    who: Tag,
    row: Row,
    old: JobWord,
    new: JobWord,
    act: JobAct,
) -> bool
    requires own { IsOwn forest.now pass.old who }
    requires attached { IsAttached (seen_by pass.old) row }
    requires narrow { IsNarrow old × IsNarrow new }
    requires may { MayAct forest.now.size (seen_by pass.old) who row old new act }
    ensures own { IsOwn forest.now pass.new who }
    ensures attached { IsAttached (seen_by pass.new) row }
    ensures told { ActAnswer who row old act (seen_by pass.old) (seen_by pass.new) result }
{
    let number = old.pack();
    let entry = Deed::Act(JobEntry { who, act });
    exchange_word(
        forest,
        pass,
        who,
        2 * row as usize,
        number,
        new.pack(),
        &entry,
    ) == number
}
