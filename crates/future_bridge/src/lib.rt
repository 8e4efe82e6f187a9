//! Channels and Jobs over words for those who use the kit's futures: a stream that receives, a sink that sends, and a
//! future of a Job.
//!
//! Each of them owns its pass and gives it back at its end, since nothing is known afterwards of what a future borrowed.
//! A poll makes calls on the hub, and never waits. It is pending only if its wait was standing at a moment of the
//! poll, and asks then to be polled again. A poll that has a wait looks at that very wait, settles it if it was resolved,
//! and places no other receiver. A future of a whole list takes one element a poll, and yields.
//!
//! - `drives`: what drives a future to its end
//! - `steps`: one receive with what follows it, and one look at a wait
//! - `stops`: the end of a wait that is given up
//! - `streams`, `receiving`: a channel as a stream
//! - `collecting`: all elements of a channel
//! - `send_steps`: one offer with what follows it, and one look at an own offer
//! - `sending`: a channel as a sink
//! - `lists`: a list of elements is sent
//! - `starts`: a New Job is started
//! - `jobs`: a Job as a future
#![tactic(auto)]

mod collecting;
mod drives;
mod jobs;
mod lists;
mod receiving;
mod send_steps;
mod sending;
mod starts;
mod steps;
mod stops;
mod streams;

pub use collecting::{CollectAll, collect_all};
pub use drives::{Drive, DriveError, HostDrive};
pub use jobs::{JobFuture, await_job};
pub use lists::{ListFault, SendList, send_list};
pub use receiving::{Spent, Stopped};
pub use sending::{SendSink, SinkFault};
pub use streams::ReceiveStream;
