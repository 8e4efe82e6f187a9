//! That one order of both histories says more than the two histories: reports that no run gives, and whose books are parts of two legal
//! histories, are refused.
//!
//! `specs/StaleAnswers`, `specs/WrongResults`, `specs/BrokenScopes` and `specs/LateReceives` each have a script, its books and its
//! histories. The laws are the contracts of the functions of `laws`, whose bodies are empty. The files of `proofs` that show each, in the
//! order to read:
//!
//! - `two_histories_accept_a_stale_answer`: `PairsAccept`.
//! - `a_stale_answer_is_refused_in_one_order`: `PointsNoted`, `LaunchedBehind`, `StaleAnswers`.
//! - `a_wrong_result_is_refused_in_one_order`: `WrongResults`.
//! - `a_broken_scope_is_refused_in_one_order`: `ScopesEndFirst`.
//! - `a_late_receive_is_refused_in_one_order`: `ReceiverMoves`, `LateReceives`.
#![tactic(auto)]

mod laws;

pub use laws::{
    a_broken_scope_is_refused_in_one_order, a_late_receive_is_refused_in_one_order,
    a_stale_answer_is_refused_in_one_order, a_wrong_result_is_refused_in_one_order,
    two_histories_accept_a_stale_answer,
};
