//! Biased select, over any floor of channels: the clauses are tried in their order, and the first one that is ready, or whose channel is
//! closed, is chosen. If none is, all are placed with one wait, so at most one of them is ever served.
//!
//! | in a poll | next |
//! |---|---|
//! | a clause is blocked | the next clause is tried; after the last one, the first one is placed |
//! | a clause is ready, or its channel is closed | it is chosen |
//! | a clause is placed | the next clause is placed; after the last one, the select waits |
//! | the select's wait was resolved | no clause more is placed; the select waits, to be ended |
//! | a clause to be placed has a partner, or its channel is closed or spent | what was placed is withdrawn; it looks again, or breaks off |
//! | that comes too late, as the wait was resolved | the select waits, to be ended |
//!
//! - `clause`: the clauses, and what a select comes to.
//! - `tries`: the clauses are tried.
//! - `placing`: the clauses are placed, and what was placed is withdrawn.
//! - `select`: the whole.
#![tactic(auto)]

mod clause;
mod placing;
mod select;
mod tries;

pub use clause::{Clause, Outcome, SelectAnswer};
pub use select::select_poll;
