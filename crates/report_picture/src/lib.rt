//! Pictures of reports, and traces of them.
//!
//! What is drawn:
//!
//! - `picture`: a picture, its columns, its lines and its marks.
//! - `looks`: how marks look.
//! - `columns`: what is asked for, and which coroutines have a column.
//! - `placed`: the lines, each in its row.
//! - `drawing`: the picture of a report.
//!
//! In which order:
//!
//! - `notes`: what the lines of the books say.
//! - `told`: where they say what of a place, a wait, a channel and a row.
//! - `causes`: which line stands below which other.
//! - `order`: an order of the lines.
//! - `sources`: whether each line stands below what it presupposes.
//! - `presumed`: where that stands.
//! - `arranged`: the lines in an order that their causes allow, and else in that of the report.
//! - `targets`: whom a line concerns.
//!
//! What is round the lines:
//!
//! - `layout`: where rows, columns and texts are.
//! - `sheet`: where the lines of the books are drawn.
//! - `marks`: marks, added one by one.
//! - `jobs`: what the Jobs go through, and the waits.
//! - `lives`: the lives of the coroutines, and their waits.
//! - `arrows`: the arrows of elements and of cancellations, and from what brought a line about.
//! - `lanes`: where arrows go down.
//! - `fates`: the ends of the elements that were not received.
//! - `frame`: the legend, and the feet of the columns.
//!
//! How it is written:
//!
//! - `document`: as an SVG document.
//! - `diagram`: as a sequence diagram.
//!
//! Without a picture:
//!
//! - `trace`: the trace of a report.
//! - `events`: its text, in the trace event format.
//!
//! Below all of them:
//!
//! - `keyed`: numbers for keys.
#![tactic(auto)]

mod arranged;
mod arrows;
mod causes;
mod columns;
mod diagram;
mod document;
mod drawing;
mod events;
mod fates;
mod frame;
mod jobs;
mod keyed;
mod lanes;
mod layout;
mod lives;
mod looks;
mod marks;
mod notes;
mod order;
mod picture;
mod placed;
mod presumed;
mod sheet;
mod sources;
mod targets;
mod told;
mod trace;

pub use columns::Wanted;
pub use diagram::mermaid;
pub use document::svg;
pub use drawing::{Drawing, draw};
pub use events::trace_text;
pub use looks::{Look, Shade, State};
pub use picture::{Column, Drawn, Lost, Mark, Picture, Route, Spot, Title};
pub use sources::{Sources, Standing};
pub use trace::{Event, Happening, Moment, Trace, Tracing, Track, trace_of};
