//! Two histories over one table of words, so that there is one order of the entries of both.
//!
//! Each of two rules of `worded` has a history of its own. Over two tables nothing tells which entry of the one came before which of the
//! other: a step opens one table. A `JointHistory` of two rules is one rule, over one table: its history is a list of entries of either. It
//! is legal exactly if what it has of each rule is legal there.
//!
//! | words of the table | what may be written there |
//! |---|---|
//! | the first eight | nothing: they stay 0, and seats meet by loads of the first |
//! | those of the first rule | by entries of the first rule alone |
//! | those of the second rule | by entries of the second rule alone |
//!
//! **A part** of a table is what is of one of the rules: its words, its entries, its tags. `view_in` is what a seat knows of a part,
//! and is a view as `worded` has it. An entry of one part leaves the words of the other as they are, so who steps on a part need not know
//! what else the table has: each function here asks and tells of the part what that of `worded` asks and tells of a table. It tells it of
//! the whole table too, so that what is seen on both parts stands in one order.
//!
//! | step | as in `worded` | on the table |
//! |---|---|---|
//! | `load_in`, `exchange_in`, `draw_in`, `lift_in` | `load`, `exchange`, `draw`, `lift` | the same step on the word that is the part's |
//! | `split_in` | `split` | the tag t of the first part is the table's tag 2 t, that of the second 2 t + 1 |
//! | `meet_in`, `end_in` | `meet`, `end` | the same |
//! | `hear` | `meet` of a seat of one part with a seat of the other | the same; three loads and no exchange |
//!
//! **Who hears whom.** A coroutine has a seat for each part. What its one seat has seen, the other has not, until it hears it: only then
//! is what it does next known to come later. A table has one first seat, which gives out the tags of both parts.
//!
//! - `part`: what a part of a table is.
//! - `joint`: the rule of two histories, its two parts, and how such a table is made.
//! - `stepping`: the four steps on a word of a part.
//! - `seats`: how seats of the parts are split, met and ended, and hear one another.
//! - `laws`: what holds of a part between any two steps, and that what was seen of both is a point of one order.
#![tactic(auto)]

mod joint;
mod laws;
mod part;
mod seats;
mod stepping;

pub use joint::{
    FirstDraws, FirstPart, JointHistory, JointSeat, JointTable, QUIET_WORDS, SecondDraws,
    SecondPart, SharedJoint, new_joint,
};
pub use laws::{a_part_has_one_history, what_was_seen_is_a_point_of_one_order};
pub use part::HistoryPart;
pub use seats::{end_in, hear, meet_in, split_in};
pub use stepping::{draw_in, exchange_in, lift_in, load_in};
