//! The three steps on a word of a forest.
ghost use Rattle.std.specs.Prelude.{◌≡◌, ◌<◌};
ghost use Rattle.worded.specs.Exchanges.{MayEnter, MayLift};
ghost use Rattle.joined_words.specs.Seen.{view_of};
ghost use Rattle.word_rules.specs.Deeds.{shape_of, doer, word_count, IsDone, Fits};
ghost use Rattle.job_words.specs.Passes.{Sees, ExchangeAnswer};
ghost use Rattle.job_words.specs.Forests.{seen_by, IsOwn};

use crate::forest::Forest;
use crate::pass::JobPass;
use co_base::Tag;
use either::Either;
use joined_words::{SecondPart, exchange_in, lift_in, load_in};
use word_rules::{Deed, ForestSize, JobHistory, RunEntry, RunHistory, RunKey};

/// The word as it is now.
pub(crate) fn load_word(forest: &Forest, pass: &mut JobPass, who: Tag, word: usize) -> u64
    requires own { IsOwn forest.now pass.old who }
    requires word { word < word_count forest.now.size }
    ensures own { IsOwn forest.now pass.new who }
    ensures sees { Sees who (seen_by pass.old) (seen_by pass.new) }
    ensures found { Fits forest.now.size (seen_by pass.new).seen word result }
{
    load_in::<RunEntry, RunKey, RunHistory, Deed, ForestSize, JobHistory, SecondPart>(
        &forest.table.shared,
        &mut pass.seat,
        forest.first,
        word,
    )
}

/// Does the deed by turning the word from `old` into `new`, or finds another word.
pub(crate) fn exchange_word(
    forest: &Forest,
    pass: &mut JobPass,
    who: Tag,
    word: usize,
    old: u64,
    new: u64,
    deed: &Deed,
) -> u64
    requires own { IsOwn forest.now pass.old who }
    requires word { word < word_count forest.now.size }
    requires doer { doer deed.now ≡ who }
    requires may { MayEnter (IsDone (shape_of forest.now.size)) (Fits forest.now.size) doer (view_of (seen_by pass.old)) word old new
        deed.now }
    ensures own { IsOwn forest.now pass.new who }
    ensures told { ExchangeAnswer who deed.now word old (seen_by pass.old) (seen_by pass.new) result }
{
    let entry = Either::Right(*deed);
    exchange_in::<RunEntry, RunKey, RunHistory, Deed, ForestSize, JobHistory, SecondPart>(
        &forest.table.shared,
        &mut pass.seat,
        forest.first,
        word,
        old,
        new,
        &entry,
    )
}

/// Raises the word to at least `least`. It shows nothing, so what was seen last stays the last that was seen.
pub(crate) fn lift_word(forest: &Forest, pass: &mut JobPass, who: Tag, word: usize, least: u64)
    requires own { IsOwn forest.now pass.old who }
    requires word { word < word_count forest.now.size }
    requires may { MayLift (IsDone (shape_of forest.now.size)) (Fits forest.now.size) doer (view_of (seen_by pass.old)) word least }
    ensures own { IsOwn forest.now pass.new who }
    ensures same { seen_by pass.new ≡ seen_by pass.old }
{
    lift_in::<RunEntry, RunKey, RunHistory, Deed, ForestSize, JobHistory, SecondPart>(
        &forest.table.shared,
        &mut pass.seat,
        forest.first,
        word,
        least,
    )
}
