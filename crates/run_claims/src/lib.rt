//! What is claimed of a run of a script, and of a text that reports it: definitions for the contracts of programs, and the law that
//! each of them has its claims from.
//!
//! - `specs/Runs`: what a run that came to rest amounts to.
//! - `specs/Reports`: a text that reports such a run.
//!
//! The law is the contract of the function of `laws`, whose body is empty. The files of `proofs` that show it, in the order to read:
//! `ElementsHeld` (an element is held exactly where it stands in the queue of its channel), `RunsAtRest`.
#![tactic(auto)]

mod laws;

pub use laws::a_run_at_rest_is_served_and_told;
