//! Lists and texts for code that owns many: read and written at places without an option at each, and gathered without a result at each.
//!
//! - `places`: what stands at a place, and between two.
//! - `list`: a list that remembers that memory ran out.
//! - `text`: a text that remembers it too.
#![tactic(auto)]

mod list;
mod places;
mod text;

pub use list::Gathered;
pub use places::{NOWHERE, at, between, filled, put};
pub use text::Text;
