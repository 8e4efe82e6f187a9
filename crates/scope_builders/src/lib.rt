//! The calls of one coroutine on its own Job and on those of others, over any floor of channels and any floor of Jobs beside it: to
//! launch, start and cancel coroutines, to enter a scope, to wait for the end of a Job, and to end a body or break it off. Each entry is
//! noted at once, and each Job that ends has its done channel closed and whoever waits there told. What a call tells, and that it was so,
//! is its contract (`call_meaning`).
//!
//! A call that tells of both floors has each of them hear of the other wherever it goes from one to the other, so that what it told was
//! so along one order, if both have one. A call that tells of Jobs alone leaves the channels as they were: its caller has them told
//! (`JobsBeside::tell`) before it goes on there.
//!
//! - `builder`: who calls, and on what
//! - `done_channels`: the done channels of Jobs
//! - `parts`: the parts of the calls
//! - `calls`: to launch, to enter, to start, to cancel, and to end a body
//! - `joins`: to wait for the end of a Job, and to see it
#![tactic(auto)]

mod builder;
mod calls;
mod done_channels;
mod joins;
mod parts;

pub use builder::{Builder, Joined, LaunchError};
pub use calls::attach_coroutine;
pub use job_model::done_channel;
