//! The clauses are tried, in their order.

ghost use Rattle.std.specs.Prelude.{◌<◌, length};
ghost use Rattle.call_meaning.specs.Seen.{MayCallChannel};
ghost use Rattle.call_meaning.specs.ChannelCalls.{sends, receives};
ghost use Rattle.channel_calls.specs.Calls.{SameCaller, seen, CarriesElements};
ghost use Rattle.select_calls.specs.Clauses.{calls_of, MaySelect};
ghost use Rattle.select_calls.specs.Parts.{TriedAnswer, TriedAt, TriesAll};

use crate::clause::{Clause, Outcome};
use channel_calls::{Caller, TriedAs, TryReceiveAnswer, TrySendAnswer};
use channel_model::ChannelFloor;
use co_base::{ChannelId, Memory, Value, Wakes};
use note_book::NoteBook;

/// What a clause came to that was tried.
#[derive(Clone, Copy)]
pub(crate) enum Tried {
    Ready(Outcome),
    Blocked,
    Spent,
}

/// What all clauses came to that were tried.
#[derive(Clone, Copy)]
pub(crate) enum Tries {
    /// The clause of this number, counted from 1, and what it came to.
    Chosen(u8, Outcome),
    NoneReady,
    Spent,
}

/// Tries to send an element, and never waits.
fn try_to_send<F: ChannelFloor, B: NoteBook, W: Wakes>(
    x: &mut Caller<'_, '_, '_, F, B, W>,
    c: ChannelId,
    value: Value,
) -> Result<Tried, Memory>
    requires can { MayCallChannel c (seen F.view B.items x.old) }
    requires kind { CarriesElements c (seen F.view B.items x.old) }
    ensures same { SameCaller F.anchor x.old x.new }
    ensures answer { TriedAnswer (sends c value) (seen F.view B.items x.old) (seen F.view B.items x.new) result }
{
    match x.try_send_as(TriedAs::Clause, c, value) {
        Ok(TrySendAnswer::Sent) => Ok(Tried::Ready(Outcome::Sent)),
        Ok(TrySendAnswer::Full) => Ok(Tried::Blocked),
        Ok(TrySendAnswer::Closed(v)) => Ok(Tried::Ready(Outcome::Closed(v))),
        Ok(TrySendAnswer::Spent) => Ok(Tried::Spent),
        Err(memory) => Err(memory),
    }
}

/// Tries to receive an element, and never waits.
fn try_to_receive<F: ChannelFloor, B: NoteBook, W: Wakes>(
    x: &mut Caller<'_, '_, '_, F, B, W>,
    c: ChannelId,
) -> Result<Tried, Memory>
    requires can { MayCallChannel c (seen F.view B.items x.old) }
    ensures same { SameCaller F.anchor x.old x.new }
    ensures answer { TriedAnswer (receives c) (seen F.view B.items x.old) (seen F.view B.items x.new) result }
{
    match x.try_receive_as(TriedAs::Clause, c) {
        Ok(TryReceiveAnswer::Value(value)) => Ok(Tried::Ready(Outcome::Value(value))),
        Ok(TryReceiveAnswer::Empty) => Ok(Tried::Blocked),
        Ok(TryReceiveAnswer::Closed(v)) => Ok(Tried::Ready(Outcome::Closed(v))),
        Err(memory) => Err(memory),
    }
}

/// Tries a clause.
fn try_clause<F: ChannelFloor, B: NoteBook, W: Wakes>(
    x: &mut Caller<'_, '_, '_, F, B, W>,
    clauses: &[Clause],
    i: usize,
) -> Result<Tried, Memory>
    requires may { MaySelect (calls_of clauses.now) (seen F.view B.items x.old) }
    requires there { i < length clauses.now }
    ensures same { SameCaller F.anchor x.old x.new }
    ensures answer { TriedAt (calls_of clauses.now) i (seen F.view B.items x.old) (seen F.view B.items x.new) result }
{
    match clauses[i] {
        Clause::OnSend { c, value } => try_to_send(x, c, value),
        Clause::OnReceive { c } => try_to_receive(x, c),
    }
}

/// Tries the clauses, up to one that is ready or finds no place.
pub(crate) fn try_all<F: ChannelFloor, B: NoteBook, W: Wakes>(
    x: &mut Caller<'_, '_, '_, F, B, W>,
    clauses: &[Clause],
) -> Result<Tries, Memory>
    requires may { MaySelect (calls_of clauses.now) (seen F.view B.items x.old) }
    ensures same { SameCaller F.anchor x.old x.new }
    ensures tried { TriesAll (calls_of clauses.now) (seen F.view B.items x.old) (seen F.view B.items x.new) result }
{
    let mut i = 0usize;
    while i < clauses.len() {
        match try_clause(x, clauses, i) {
            Ok(Tried::Ready(outcome)) => return Ok(Tries::Chosen(i as u8 + 1, outcome)),
            Ok(Tried::Blocked) => i += 1,
            Ok(Tried::Spent) => return Ok(Tries::Spent),
            Err(memory) => return Err(memory),
        }
    }
    Ok(Tries::NoneReady)
}
