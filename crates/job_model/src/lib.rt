//! The model of Jobs: what a call may add to their history, and what tree of Jobs the history then leaves.
//!
//! A history is a list of entries, each an act of one caller. Every act is one step on one tree, and the tree
//! after a history follows from the entries alone (`specs/`). What a floor of Jobs promises to all above it is the
//! trait `JobFloor`.
//!
//! | state | begins by | ends by |
//! |---|---|---|
//! | New | Attach of a lazy Job | Start, Cancel |
//! | Active | Attach, Start | EndBody, Cancel |
//! | Completing | EndBody | Finish, Cancel |
//! | Cancelling | Cancel, Attach under a Cancelling parent | Finish |
//! | Completed, Cancelled | Finish | nothing |
//!
//! - `acts`: the states and kinds of Jobs, the acts, and what a coroutine notes of its calls.
//! - `floor`: the answers of calls, and the trait.
//! - `done`: the channel that is closed as a Job ends.
//! - `laws`: what holds in every legal history.
//!
//! The laws are the contracts of the functions of `laws`, whose bodies are empty. The files of `proofs` that show each, in the order to
//! read:
//!
//! - `appended_histories`: `Histories`. `a_step_is_made_exactly_where_its_need_holds`: `Needed`.
//! - `families_are_in_order`: `Steps` (one row), `Rows`, `Lasting`, `Sound`; `Families`. What follows rests on these.
//! - `states_go_forward`: `States`. `states_go_as_each_act_says`: `ActStates`. `only_results_are_kept`: `Values`.
//! - `a_job_keeps_its_first_cause`: `Causes`. `a_reason_goes_on_to_hold`: `Reasons`.
//! - `each_act_is_done_with_a_row_at_most_once`: `Marks`; `RowMarks`. `a_legal_history_is_short`: `Claims`; `Short`.
//! - `a_row_is_what_its_entries_say`, `descendants_of_an_ended_job_have_ended`, `children_finish_before_their_parent`: `RowMarks`,
//!   `Claims`; `Ends`.
//!
//! Others show what floors and passes over the tree need: `Below`, `Covered` (all below a Job is Cancelling or ended), `Siblings`,
//! `Falling`, `Ranks` (that a walk ends), `FailingUp`, `Own`, `Spans`. `Once`: legality has one proof.
#![tactic(auto)]

mod acts;
mod done;
mod floor;
mod laws;

pub use acts::{Cause, End, JobAct, JobEntry, JobKind, JobNote, JobState, Reason};
pub use done::done_channel;
pub use floor::{AttachError, Attached, CancelledNow, Ended, Finished, JobFloor, JobView, Link};
pub use laws::{
    a_job_keeps_its_first_cause, a_legal_history_is_short, a_reason_goes_on_to_hold,
    a_row_is_what_its_entries_say, a_step_is_made_exactly_where_its_need_holds, appended_histories,
    children_finish_before_their_parent, descendants_of_an_ended_job_have_ended,
    each_act_is_done_with_a_row_at_most_once, families_are_in_order, only_results_are_kept,
    states_go_as_each_act_says, states_go_forward,
};
