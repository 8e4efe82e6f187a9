//! Whether a log or a report is that of a run of a script.
//!
//! The run is made again: an order of whole polls is looked for in which the engine writes these lines, which is not trusted; then the
//! engine runs the script in this order, and what it left is compared with what is judged.
//!
//! - `parts`: the parts of an input.
//! - `names`: the names of channels, and the lines of a log.
//! - `same`: whether two notes are the same.
//! - `books`: the books that the lines of a log are.
//! - `verdict`: what is said of an input; `hints`: what is known of the line where that stops.
//! - `polled`: a run made by polls, and whose notes it made.
//! - `plan`: what the lines of a report say of the whole run.
//! - `sleepers`: who is not worth a poll before something happens.
//! - `queues`: what stands in the channels of a run; `rows`: how far its Jobs are.
//! - `scene`: which line may come next.
//! - `walk`: the search for an order of polls.
//! - `way`: the order in which a run writes given lines.
//! - `log`: a log, judged; `report`: a report, judged.
//! - `input`: an input, judged.
//! - `made`: the log of a run, made and judged.
#![tactic(auto)]

mod books;
mod hints;
mod input;
mod log;
mod made;
mod names;
mod parts;
mod plan;
mod polled;
mod queues;
mod report;
mod rows;
mod same;
mod scene;
mod sleepers;
mod verdict;
mod walk;
mod way;

pub use hints::stood_text;
pub use input::judge_script;
pub use log::judge_log;
pub use made::make_log;
pub use report::judge_report;
pub use verdict::{Judged, LogVerdict, Logged, ReportVerdict, ScriptVerdict};
