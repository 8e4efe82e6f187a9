//! Floors of which each caller has one of its own, on channels and on Jobs that all of them call.
//!
//! All floors of one type are on the same channels, or on the same Jobs, so that any two of them may meet. There is one history, which
//! nobody stores. Each floor has seen a beginning of it, with all acts of its own callers; what others have done since it finds out as its
//! callers call. So the beginning that one floor has seen may be shorter than that of another, and lack what those callers did.
//!
//! **A meeting** makes good for that in one direction: the first floor has then seen all that the second has. The second is as it was.
//! Nobody acts in a meeting, so what the callers of the first had done is what they have done. It may see still more, which others have
//! done meanwhile. Two floors that are to know the same meet twice, once in each direction.
//!
//! **An end** is a meeting after which the second floor is gone, and the first may call for the callers of both.
//!
//! **Who may act.** Some floors know of tags under which nobody has a floor, as they would have given it out themselves. By its anchor
//! a floor says of which tags this is so, and after an end nobody has acted under them. A floor that knows of none says that any tag
//! may act.
//!
//! - `channels`: what a floor of channels tells another.
//! - `jobs`: what a floor of Jobs tells another.
#![tactic(auto)]

mod channels;
mod jobs;

pub use channels::SharedChannels;
pub use jobs::SharedJobs;
