//! In which ways a script can end: coroutines are polled in every order of whole polls, and each end is run again by the engine.
//!
//! The search is not trusted, and nothing is claimed of it but that it is safe and returns: it decides which orders are worth a run. What
//! is printed of an end is read from a run of the script.
//!
//! - `whole`: whether memory held what was gathered.
//! - `reads`: which coroutines read what they received.
//! - `losses`: what was lost.
//! - `keys`: a state of a run as numbers.
//! - `sections`: the sections of a state.
//! - `aheads`: what was found of states before their turn.
//! - `states`: the states that were seen, and how each was reached.
//! - `effects`: what polls did, by the sections that they could look at.
//! - `refusals`: the lines of sends that closed channels refused.
//! - `names`: how the Jobs ended, by the names of their coroutines.
//! - `wanted`: which ends are looked for, and by what two ends are told apart.
//! - `local`: polls that no other coroutine can hinder.
//! - `samples`: runs in random orders.
//! - `parts`: what one worker finds of some of the states.
//! - `known`: the polls of a state, as far as it is known what they do.
//! - `ways`: the search.
//! - `blocks`: what is printed of an end.
//! - `answers`: what is printed of a search; the report of one run.
#![tactic(auto)]

mod aheads;
mod answers;
mod blocks;
mod effects;
mod keys;
mod known;
mod local;
mod losses;
mod names;
mod parts;
mod reads;
mod refusals;
mod samples;
mod sections;
mod states;
mod wanted;
mod ways;
mod whole;

pub use answers::{Explored, Limit, Report, explore, report_in_order, report_of_end};
pub use wanted::{Tell, Wanted};
pub use ways::Verdict;
