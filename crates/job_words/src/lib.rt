//! A tree of Jobs over a table of words, which many threads change at once. No call waits, takes a lock or takes memory.
//!
//! **The words.** A row has two: the Job word (state, body ended, newest child, number of living children, result or cause) and the
//! link word (parent, next older child, tag, kind; `word_rules` has the bits). A Job word 0 is a row that nobody has
//! claimed, 7 one that was claimed and has no words yet. A row is attached when its parent's Job word says so, or that of a
//! younger child: what stands in its own words before that is no Job yet.
//!
//! | word | from | to | by | the exchange decides |
//! |---|---|---|---|---|
//! | Job word of a row | 0 | 7 | anybody | who claims the row; who loses takes another row, or answers that it is used |
//! | both words of a claimed row | any | any | its claimer, until it is attached | nothing: nobody else writes there |
//! | Job word of the parent | not ended | newest child, one living more | the claimer of a child | that it is attached, and as what |
//! | Job word | New | Active | anybody | who starts the Job |
//! | Job word | body not ended | body ended, Active to Completing | the coroutine of its tag | whether a child lived then |
//! | Job word | New, Active, Completing | Cancelling, with the cause | anybody with a reason | who cancels the Job |
//! | Job word | body ended, no child lives | Completed, Cancelled | anybody | who ends the Job, and may tell its parent |
//! | Job word of the parent | as loaded | one living fewer | who ended the child | whether that was the last that the parent waited for |
//! | link word of an attached row | as stored | bit 47 set | who attached it | nothing: it is a hint |
//! | link word of the root | n | at least m | who claimed the row m - 1 for a scope | nothing: it is a hint |
//!
//! **What the loser sees.** Each exchange is made from the word as it was loaded. Where it fails, the history has grown by an entry that
//! changed this very word. The call looks at the new word and tries again, or answers what it sees there. A legal history has at
//! most six entries for each row, so every call ends. An attach that lost stores the words of its row anew, so that a child under a
//! parent that became Cancelling in between is attached as Cancelling, and as the younger sibling of whoever came first.
//!
//! **What a look sees.** The link word first: if bit 47 is set, the row is attached. If it is not, the row is attached exactly if
//! it stands among the children of the parent that its link word names, and the look walks them from the newest on. The attacher
//! raises the bit after its exchange, by a step that shows nothing, so the walk is made in that short time alone.
//!
//! **A row for a scope.** The root is nobody's child, so its link word has other work: each row for scopes below it was claimed. Who claims
//! one looks from there on, and raises it after the row that it got, by a step that shows nothing. A row that was claimed stays so;
//! so who finds none has seen all of them claimed, though it did not look at those below.
//!
//! **The table** has the words of channels too (`word_rules`): a forest stands on its second part, behind those words, so that its deeds
//! and the entries of the channels have one order, where both are on one table. `Forest::new` makes a table without channels; `Forest::on`
//! stands on one that a hub was made with, and its passes are made of seats that the hub's first pass gave out.
//!
//! **The history.** The entries of the model are among the *deeds*: one deed for each exchange, an entry (`Act`), or a claim
//! or a store, which the model does not know. All words are a function of the deeds, up to the hints. A `JobPass` has seen a beginning
//! of the deeds, and all of its own.
//!
//! - in `word_rules`, `job_word` and `link_word`: the two words, field by field; `deed` and `size`: what an exchange does, how large a
//!   forest is.
//! - `forest`, `pass`: the table, and what a thread steps with.
//! - `meeting`: how a forest is made, and its passes are split, met and ended.
//! - `steps`, `words`: the three steps on a word, and those on the two words of a row.
//! - `claiming`, `attaching`, `tried`: a row is claimed, stored and attached.
//! - `updating`, `decision`: one act on a Job word: load, decide, exchange, and again if the word changed in between.
//! - `starting`, `ending`, `cancelling`, `finishing`, `telling`: one act each.
//! - `linking`, `looking`: where a Job stands, and how it is.
//! - `ranger`: the floor of Jobs of one pass.
//! - `laws`: what the words say.
#![tactic(auto)]

mod attaching;
mod cancelling;
mod claiming;
mod decision;
mod ending;
mod finishing;
mod forest;
mod laws;
mod linking;
mod looking;
mod meeting;
mod pass;
mod ranger;
mod starting;
mod steps;
mod telling;
mod tried;
mod updating;
mod words;

pub use forest::{Forest, ForestTable};
pub use laws::{
    a_forest_has_one_history, two_words_have_two_numbers, words_follow_from_entries_and_claims,
};
pub use pass::JobPass;
pub use ranger::{Ranger, RangerAnchor};
pub use word_rules::{Deed, ForestSize, JobHistory, JobWord, LinkWord};
