//! Parts of pictures and of traces: words of lines, columns and rows, names, and texts in markup and in JSON.
//!
//! - `line_words`: the words of a line, and which lines are bookkeeping of Jobs.
//! - `places`: the columns of lines, and their rows.
//! - `names`: what coroutines are called, and what a reader is shown that points at a mark.
//! - `markup`: texts in markup: attributes, titles, and the ends of elements.
//! - `members`: texts in JSON, and members of events of the trace event format.
#![tactic(auto)]

mod line_words;
mod markup;
mod members;
mod names;
mod places;

pub use line_words::{is_bookkeeping, tells, word};
pub use markup::{
    add_attribute, add_escaped, add_fate_label, add_number, add_rest, add_step, add_title,
};
pub use members::{
    add_arriving, add_end, add_instant, add_json_escaped, add_leaving, add_place, add_slice,
};
pub use names::{Names, heading, name_of};
pub use places::{column_of, is_among, row_behind};
