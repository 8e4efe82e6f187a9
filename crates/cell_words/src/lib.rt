//! Channels over a table of words, which many threads change at once: the words, and one function for each kind of step. No step
//! waits, takes a lock or takes memory.
//!
//! The cells are those of Koval, Alistarh and Elizarov's channels ("Fast and Scalable Channels in Kotlin Coroutines", PPoPP 2023), with two
//! changes. A cell is claimed by one exchange on it, and the counters, moved afterwards, only say from where to look. And one exchange on
//! one word, which the cells of all its clauses name, decides about a wait.
//!
//! **The words.** Each place of a channel has a cell and a wait, and the channel's end has one cell and wait more. A cell word says what
//! became of its place, a wait word how the wait was resolved that began there (`CellWord`, `WaitWord` have the bits). A wait that
//! stands has the word 0. A select's clauses all name the cell where its wait began. Two counters of each channel say from where to look,
//! and its run says of which places that follow one another each was kept: an element was put there, or an offer was admitted. One more
//! counts where the run ends too soon: its *decided* places are those of which is decided whether their element was kept. A channel has 16
//! words for these four, so that who works on one channel takes no line of the cache from who works on another: one line for the receive
//! counter, and one for the others. Each place has a third word besides, its mark: in a channel that does not keep its latest it tells
//! whether the element was kept, which the cell there does not.
//!
//! | word | from | to | the step, and who makes it | the exchange decides |
//! |---|---|---|---|---|
//! | cell | Free | Receiver, Offer | `await_at`, `offer_at`: who waits | who has the place; the cell is where the channel ends |
//! | cell | Free | Receiver, Offer | `await_clause_at`, `offer_clause_at`: whose select has the clause | the same |
//! | cell | Free | Buffered | `offer_at`: who sends, if the channel keeps one more | the same |
//! | cell | Free | Closed | `close_at`: who closes | that the channel ends here |
//! | cell | Closed | Voided | `void_at`: who cancels | that the channel is cancelled |
//! | cell | Buffered | Emptied | `remove_kept`: who receives, drops or drains | who has the element |
//! | cell | Buffered | Emptied | `spurn_kept`: who put it there | that it is not kept |
//! | cell | Offer of an admitted wait | Emptied | `remove_admitted`: who receives or drains | who has the element |
//! | wait | 0 | handed | `hand`: who sends | who resolves the wait of the first receiver |
//! | wait | 0 | closed | `wake`: anybody, once the channel is closed | the same |
//! | wait | 0 | taken | `remove`, by `Take`: who receives | who resolves the wait of the first offer |
//! | wait | 0 | voided | `remove`, by `Drain`: anybody, once the channel is cancelled | the same |
//! | wait | 0 | admitted | `admit_at`: anybody, if fewer offers stand before than are kept | who resolves the wait of the offer |
//! | wait | 0 | cancelled, revoked | `withdraw_at`: its coroutine | that it was not resolved before |
//! | wait | resolved | settled | `settle_at`: its coroutine | nothing: nobody else settles it |
//! | counter | n | at least m | `raise_sends`, `raise_receives`: anybody | nothing: it is a hint |
//! | run | to * 2^32 + from | at least that | `offer_at`, `admit_below`: who put or admitted | nothing: it is a hint |
//! | decided | to * 2^42 + from * 2^21 + count | at least that | `offer_at`, `was_too_many`, `admit_below`: who counts | nothing: a hint |
//! | mark | 0 | 1 | `offer_at`: who put with room | nothing: it is a hint |
//! | mark | 0 | 2 | `spurn_kept`: who spurned the own element | nothing: it is a hint |
//!
//! **What stands.** A receiver stands while its wait has the word 0. An offer stands while its wait has the word 0, and also after its wait
//! was admitted at its clause, until its cell is emptied. So a held offer's cell stays as it is when its wait is taken, withdrawn or
//! resolved elsewhere, and whoever comes by reads the wait.
//!
//! **A select's clauses.** The first is placed as a plain offer or receiver, but for its number, and begins the wait. Each further one has
//! the number of the first one's cell in its own, so whoever meets it resolves that one wait. No word but the free cell changes, so a
//! clause may be placed although the wait was resolved meanwhile: then it has a place and does not stand. A clause hands and takes
//! nothing. It asks whether the other side stands: of a receiver its wait, by `receiver_stands`; of an offer its cell and its wait, by
//! `offer_stands`.
//!
//! **What the loser sees.** A failed exchange of a free cell returns the word found: who was placed there, or that the channel ends there.
//! A failed exchange of a wait says that it was resolved; who is gone never stands again, so the walk goes on to the next place. Of an
//! offer it says too whether it was admitted at this clause: then its cell decides who has the element. A failed exchange of a kept
//! element's cell says that it was emptied, one of a closed cell that the channel was cancelled.
//!
//! **What a step rests on** was seen before, and others cannot undo it while the word is as it was: nobody of the same side stands below
//! the place; no more offers stand before an offer than did, so that one that has too many before it had too many when it was placed; a
//! channel that was closed or cancelled stays so and ends where it ended; while an offer stands, the elements that are kept behind it
//! stand, but in a channel that does not keep its latest, so that a queue that was too long still is.
//!
//! **Walks.** A caller comes from below, from a counter on, below which nobody of the other side stands. `offer_at` and `await_at` say
//! what is at one place; the answer is a fact of the moment of their last load. An offer waits only if the channel was full: it counts
//! the offers from the receive counter to the free end by one walk. Each that is found later stood at the beginning, so that either all
//! stood then, or fewer do at the end. Where fewer places are left than would have to be offers, there is room, and none of them is
//! looked at. A walk for an offer to admit counts too: once it has found as many kept elements as the channel keeps, it looks at the
//! first of them again. While that stands the others do, so none may be admitted; else the walk begins anew above it. No word is loaded
//! after an exchange that made an entry, and a counter is raised by a step that shows nothing, so that the own entry is the last that was
//! seen. It is raised where the walk passed two places or more: each raise takes the counter's line from the other side, and a few places
//! more to look at cost less than that.
//!
//! **The run** spares both walks the places that it has, and the walk that looks whether a channel that drops its oldest keeps too many. It
//! is that of a channel that is buffered, conflated or drops its oldest. Kept elements leave it from the front alone: so while an offer
//! stands in the run, all behind it stand, and nobody waits with one of them. Where the first that stands is in the run, and the run has as
//! many places from there on as the channel keeps, the channel is full; with one place more the oldest is dropped; a walk for an offer to
//! admit begins where the run ends. A place that somebody gave up ends a run. Who puts an element first goes on with the run over the
//! elements that others put behind it, since who put one may say so late, or not at all where another has said more.
//!
//! **The decided places** spare the walks of a buffered channel the places behind one that somebody gave up, and those of a channel that
//! does not keep its latest the places of spurned elements. Of a place is decided whether its element was kept once an element was put
//! there, or the wait of its offer was resolved; then it stays so. The word has places that follow one another, of each of which it is
//! decided, and at how many an element was kept. Who counts moves its beginning on to the first place where an offer stands, and its end on
//! as far as it is decided; so each place is looked at about twice, however often is counted. While the first stands, exactly those stand
//! that were kept.
//!
//! **The marks.** In a channel that does not keep its latest an element is kept for good if it was put while fewer stood than are kept:
//! nobody spurns it. Who put it says so by the mark of its place, if it had counted that few before; and who spurned its own element says
//! that. Nobody says so of an element that was put when the channel looked full, and was left because others had received meanwhile; and
//! of one whose sender has not said so yet, who counts looks a few times more. The mark of such a place has the decided places behind it,
//! as the channel's word has those from the first that stands on. So a count looks at the cells of these places alone, and goes from each
//! to the next by its mark, which it moves on as far as it is decided. What a sender says of its own place is the larger number, and stays.
//!
//! **The table.** A hub stands on the first part of a table with two histories (`joined_words`), whose second part is for Jobs
//! (`word_rules`). Eight words that stay 0 come first; so a step adds 8 to the number of its word, and passes meet by loads of the first
//! word. A hub alone has a table without rows. One that was made with rows shares its table with a forest on the second part; then its
//! first pass gives out the tags of both, and knows that nobody acted under one that it has not given out.
//!
//! **The history.** It is that of the channels, a list of entries; all words are a function of it, except for the counters, the run, the
//! decided places and the marks (`Words` of `word_rules` has it).
//! A `Pass` has seen a beginning of the history, and all entries of its own tags; the one that gives out tags has seen none of a tag
//! that it has not given out.
//!
//! - `hub`, `pass`: the table, and what a thread steps with.
//! - `meeting`: how a hub is made, and its passes are split, met and ended.
//! - `steps`, `cells`: the three steps on a word, and those on cells and waits.
//! - `found`, `looks`: what a caller finds at a place, and what the words tell.
//! - `marks`, `decided`: of which places is decided whether their element was kept, and at how many it was.
//! - `counting`, `placing`: whether a channel is full, or keeps too many, or an offer was one too many; a caller is placed where the
//!   channel ends.
//! - `registering`: a select's clause is placed where the channel ends; whether the other side stands.
//! - `resolving`: the first receiver is handed an element.
//! - `removing`: the first offer's element is taken, dropped or drained; one that was too many is removed from where it stands.
//! - `admitting`: a held offer is kept from now on; a walk for one that may be.
//! - `own_waits`: a coroutine looks at its own wait, withdraws it or settles it.
//! - `ending`, `counters`: where a channel ends, is closed and cancelled, its receivers are told so; from where to look, and which
//!   places were kept.
//! - `laws`: what the words say.
#![tactic(auto)]

mod admitting;
mod cells;
mod counters;
mod counting;
mod decided;
mod ending;
mod found;
mod hub;
mod laws;
mod looks;
mod marks;
mod meeting;
mod own_waits;
mod pass;
mod placing;
mod registering;
mod removing;
mod resolving;
mod steps;

pub use admitting::{admit_at, admit_below, sender_at};
pub use cells::{kind_of, load_cell, places_of};
pub use counters::{raise_receives, raise_sends, receives_from, sends_from};
pub use counting::{is_over, was_too_many};
pub use ending::{close_at, end_at, receiver_at, void_at, wake};
pub use found::{Admission, At, End, Holder, Removal, Tried, Waiter};
pub use hub::{Hub, HubTable};
pub use laws::{
    a_hub_has_one_history, cells_and_waits_tell_who_stands, removals_are_the_acts_that_remove,
    two_words_have_two_numbers,
};
pub use own_waits::{look_at, settle_at, wait_word_at, withdraw_at};
pub use pass::Pass;
pub use placing::{await_at, offer_at, try_await_at};
pub use registering::{await_clause_at, offer_clause_at, offer_stands, receiver_stands};
pub use removing::{remove, remove_admitted, remove_kept, spurn_kept};
pub use resolving::hand;
pub use word_rules::{CellHistory, CellState, CellWord, Layout, ResolvedBy, WaitWord};
