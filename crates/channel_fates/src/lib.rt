//! What becomes of elements: each has at most one fate, in every legal history of the channels. The laws are the contracts of the functions
//! of `laws`, whose bodies are empty.
//!
//! The files of `proofs` that show each, in the order to read:
//!
//! - What the acts of a legal history say of the state that they leave: `Turning`, `Appended` (lists of acts); `OncePlaced`,
//!   `StandsByActs`, `Chosen`, `ChosenOnce`, `Endings`, `KeptUntilRemoved`, `HeldWhileOpen`, `OwnPlaces`; `Traced`. All four laws rest
//!   on it.
//! - `an_element_has_at_most_one_fate`: `AtMostOne`. `an_element_is_delivered_at_most_once`: `Delivered`.
//! - `a_place_has_at_most_four_entries`: `FourEntries`. `an_element_without_a_fate_is_held`: `HeldFates`.
#![tactic(auto)]

mod laws;

pub use laws::{
    a_place_has_at_most_four_entries, an_element_has_at_most_one_fate,
    an_element_is_delivered_at_most_once, an_element_without_a_fate_is_held,
};
