//! Threads and tasks that wait on a channel of owned values: a send and a receive that sleep, and the channel as a stream and as a sink of
//! the kit's futures; and threads that wait for the end of a Job.
//!
//! A channel of owned values blocks nobody: who has to wait is told so, and each call names whom it set free. Here each tag has a bell
//! (`Bells` of `ring_bridge`), which those who are named hear. Who waits reads how often its bell was rung, looks at its wait, and sleeps
//! only if the bell was not rung since: so a wake that comes in between is not lost. Before it sleeps it looks some times more, since an
//! answer that comes at once is cheaper so. The tags from 63 on share the last bell: a thread that hears it for another sleeps again.
//!
//! All who share a channel have to call by these functions, or ring the bells of those whom their calls name: else one that sleeps may
//! sleep for ever. That a thread or a task goes on after its bell was rung is not claimed.
//!
//! A permit that sleeps is `Gate::blocking_acquire` of `gates`.
//!
//! - `resting`: a thread sleeps until its wait is resolved, and who was named is woken
//! - `calls`: to send and to receive
//! - `closing`: to close, so that each receiver that sleeps hears it
//! - `stops`: a wait is given up
//! - `streams`, `receiving`: a channel as a stream
//! - `sinks`, `sending`: a channel as a sink
//! - `jobs`: to wait for the end of a Job, and to wake who waits
#![tactic(auto)]

mod calls;
mod closing;
mod jobs;
mod receiving;
mod resting;
mod sending;
mod sinks;
mod stops;
mod streams;

pub use calls::{ReceiveFault, SendFault, receive, send};
pub use closing::close;
pub use jobs::{BellWakes, await_job};
pub use sinks::ParcelSink;
pub use streams::ParcelStream;
