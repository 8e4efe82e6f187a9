//! What the book of a coroutine may be, for every line of a script, whatever its calls are answered; and what one book tells. What follows
//! from all books of a run is in `script_laws`.
//!
//! A coroutine tells a list: its notes, and between them what was so (`call_meaning`). `specs` says which lists it may tell, in this order:
//!
//! - `Shapes`: the channels and the Jobs of a script.
//! - `Configs`: where a coroutine is, and where a move goes.
//! - `Lines`: which call a line makes, and where it goes on by the answer.
//! - `Moves`: the table of moves.
//! - `Books`: what a book may be, and the books of a run.
//! - `Rest`, `Idle`: how a run is left.
//! - `Polls`: what a poll does, and what its answer says.
//! - `Inside`: where a coroutine can be in its code. `MovesLeft`: how many moves are left, if it receives no more elements. `WaitEnds`:
//!   how the waits of a line end.
//! - `Origins`, `Laws`: the words of what holds of each book.
//!
//! Two types: `stage`, how a coroutine goes on; `turn`, what a poll came to. The laws are the contracts of the functions of `laws`, whose
//! bodies are empty. The files of `proofs` that show each, in the order to read:
//!
//! - `a_book_goes_on`: `BooksGoOn`.
//! - `an_open_wait_is_the_one_unsettled`: `OwnUnsettled` (what a caller's acts leave), `WaitsTold` (what is told of waits), `WaitsInFloor`;
//!   `OneWait`.
//! - `a_coroutine_begins_as_it_was_attached`: `Origins`; `FirstNotes`.
//!
//! Others show what those who poll need of a book:
//!
//! - where a coroutine is: `LinesPlaced`, `OpenLines`, `InsideCode`, `LinesPassed`, `LinesLeft`, `NamesGiven`, `NamesKnown`.
//! - that moves come to an end: `MovesFall`.
//! - which waits a line begins and how they end: `WaitsPlaced`, `WaitsEnd`, `ClausesOfSelects`; which stages an answer leads to:
//!   `StagesAfter`.
//! - what a group of notes may hold: `GroupNotes`, `GentleNotes`, `ClausesSpent`.
//! - what is owed after a history, and who pays: `Debts`, `Payments`; what is told of Jobs and of channels: `JobPieces`, `JobStories`,
//!   `JobDebts`, `ActsFollowed`, `ChannelStories`.
//! - scopes, ends and tags: `OwnActs`, `ScopesEntered`, `NamedRows`, `StagesReached`, `OwnRows`, `BodiesTold`, `BodiesOpen`,
//!   `CompletedJobs`, `WaitsGivenUp`, `DonesUnclosed`, `TagsGiven`, `TagsReached`, `AttachesTold`.
#![tactic(auto)]

mod laws;
mod stage;
mod turn;

pub use laws::{
    a_book_goes_on, a_coroutine_begins_as_it_was_attached, an_open_wait_is_the_one_unsettled,
};
pub use stage::Stage;
pub use turn::Turn;
