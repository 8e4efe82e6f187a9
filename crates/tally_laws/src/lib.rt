//! Tallies: how many acts there are of each kind, and what became of how many elements by them; that the books of a run may be tallied; and
//! that the summary of a run at rest follows from the tallies of its books. The laws are the contracts of the functions of `laws`, `runs`
//! and `summaries`, whose bodies are empty.
//!
//! The files of `specs`: `Kinds` (kinds of acts), `Counts` (their numbers, and what follows from them), `Tallies` (what one caller keeps,
//! act by act), `JobTallies` (the same of Jobs), `Elements` (the elements of all places), `Settlings` (what the laws ask of a history and
//! of its books), `Sums`; `Examples`, proved by computing; `TallyTexts`, `JobsTold` and `LinesTold` (what the summary says).
//!
//! The files of `proofs` that show each law, in the order to read:
//!
//! - `fates_are_counted_by_kinds_of_acts`: `Summed`, `Counting` (sums over places, and acts that belong to one place each); `Given` and
//!   `Kept` (what a legal history keeps of places and waits); `Shares` (one place); `ByKind` (all places, kind by kind); `FatesOf`;
//!   `Declared` (behind the declared channels nothing is counted).
//! - `tallies_of_books_give_the_counts_of_fates`: `Summing` (sums over callers and over lists); `Parted` (all callers); `OneWaits` and
//!   `Tracked` (one caller, act by act); `Books`; `Declared`.
//! - `a_coroutine_has_one_wait_at_a_time`: `OneAtATime`, from what `script_meaning` shows of all that a coroutine tells.
//! - `a_run_is_tallied_book_by_book`: `Tallied`.
//! - `tallies_give_the_elements_of_the_summary`: `SummaryFolds` (the folds of the summary are sums over places).
//! - `the_summary_of_a_run_is_told_by_its_tallies`: `SameMembers` (lists of the same members; books that are the parts of a history),
//!   `SameFates` (fates do not depend on the order of the acts), `JobsTold` (what acts say of Jobs is what the tree says), `Printed` (both,
//!   of the books of a run), `WaitsSettled` (each wait that was resolved is settled); `Parted` and `RowSums` (acts counted book by book,
//!   and row by row), `JobsCounted` (how many Jobs ended how), `Summarised`.
#![tactic(auto)]

mod laws;
mod runs;
mod summaries;

pub use laws::{
    fates_are_counted_by_kinds_of_acts, tallies_of_books_give_the_counts_of_fates,
    tallies_of_examples,
};
pub use runs::{a_coroutine_has_one_wait_at_a_time, a_run_is_tallied_book_by_book};
pub use summaries::{
    tallies_give_the_elements_of_the_summary, the_summary_of_a_run_is_told_by_its_tallies,
};
