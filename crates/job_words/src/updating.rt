//! One act on a Job word: load it, decide, exchange it, and again if another changed it in between.
ghost use Rattle.std.specs.Prelude.{[]};
ghost use Rattle.job_words.specs.Passes.{Seen, Goes};
ghost use Rattle.job_words.specs.Attaches.{IsAttached, IsWord};
ghost use Rattle.job_words.specs.Decisions.{MayDecide, UpdateAnswer};
ghost use Rattle.job_words.specs.Forests.{seen_by, IsOwn, SameGiving};
ghost use Rattle.word_rules.specs.declared.job_word.JobWord.{JobWord};
ghost use Rattle.job_words.specs.declared.decision.Decision.{Decision};

use crate::decision::Decision;
use crate::forest::Forest;
use crate::pass::JobPass;
use crate::words::{act_on, load_job};
use co_base::{Row, Tag};
use word_rules::JobWord;

/// Does what is decided on the Job word of a row. If the word has changed before the exchange, it decides anew.
pub(crate) fn update<T: Copy, F: Fn(JobWord) -> Decision<T>>(
    forest: &Forest,
    pass: &mut JobPass,
    who: Tag,
    row: Row,
    decide: F,
) -> T
    requires own { IsOwn forest.now pass.old who }
    requires attached { IsAttached (seen_by pass.old) row }
    requires can { (v : Seen) (word : JobWord) → Goes who [] (seen_by pass.old) v → IsWord v row word → F.pre decide word }
    requires may { (v : Seen) (word : JobWord) (d : Decision T) → Goes who [] (seen_by pass.old) v → IsWord v row word
        → F.post decide word d → MayDecide forest.now.size v who row word d }
    ensures own { IsOwn forest.now pass.new who }
    ensures answer { (word : JobWord) × (d : Decision T) × F.post decide word d
        × UpdateAnswer who row word d (seen_by pass.old) (seen_by pass.new) result }
    ensures giving { SameGiving pass.old pass.new }
{
    'tries: loop {
        let word = load_job(forest, pass, who, row);
        match decide(word) {
            Decision::Keep(answer) => return answer,
            Decision::Change { new, act, answer } => {
                if act_on(forest, pass, who, row, word, new, act) {
                    return answer;
                }
            }
        }
    }
}
