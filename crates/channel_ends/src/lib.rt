//! Channels of numbers for programs in C: a ring and one of its passes behind an opaque pointer, with each `requires` of a call as a test.
//!
//! A ring's calls require that the pass is one of the ring and that its tag is its own. An end keeps this of its own ring and pass, so no
//! call of an end requires anything; what C holds of an end says only whether there is one.
//!
//! - `end`: a ring and a pass of it. `calls`: what they do. `faults`: why an end is not split.
//! - `parts`, `hidden`: an end on the heap, behind a pointer that says nothing of what it points to.
//! - `handle`: what C holds: an end, or none. `holding`: what C does with it.
//! - `numbers`: answers as numbers, and whom to wake as masks.
#![tactic(auto)]

mod calls;
mod end;
mod faults;
mod handle;
mod hidden;
mod holding;
mod numbers;
mod parts;

pub use end::End;
pub use faults::SplitFault;
pub use handle::ChannelEnd;
pub use hidden::Hidden;
pub use numbers::{
    ChannelWakes, close_number, leave_number, new_number, receive_number, send_number, split_number,
};
