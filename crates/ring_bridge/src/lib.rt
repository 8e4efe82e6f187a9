//! Threads and tasks that wait on a ring: a send and a receive that sleep, and a ring as a stream and as a sink of the kit's futures.
//!
//! A ring blocks nobody: it notes who waits, and each call names whom to wake. Here each pass that may wait has a bell. Who names it rings
//! it: a thread that sleeps on the bell goes on, and so does a task that left its waker there. Who is to wait reads how often its bell was
//! rung, makes its call, and sleeps only if the bell was not rung since: so a wake that comes in between is not lost. That a thread or a
//! task goes on after its bell was rung is not claimed.
//!
//! A pending poll costs nothing until the bell is rung. A stream or a sink that is dropped or stopped waits no more, and another that waits
//! is named in its place; what it did not receive is still in the ring.
//!
//! - `bells`: who waits sleeps on its bell, and is woken by it
//! - `sleeping`: to send and to receive on a thread that sleeps while it has to wait
//! - `streams`, `receiving`: a ring as a stream
//! - `sinks`, `sending`: a ring as a sink
//! - `clauses`, `selecting`: a select over rings, on a thread that sleeps while no clause may go on
//! - `handing`: a rendezvous over a ring of one slot
#![tactic(auto)]

mod bells;
mod clauses;
mod handing;
mod receiving;
mod selecting;
mod sending;
mod sinks;
mod sleeping;
mod streams;

pub use bells::Bells;
pub use clauses::{Chosen, ClauseTurn, InOrder, ReceiveClause, RingClause, SendClause};
pub use handing::{HandedOver, hand_over};
pub use selecting::select;
pub use sinks::{RingSink, RingSinkFault};
pub use sleeping::{receive, send};
pub use streams::RingStream;
