//! The whole select.

ghost use Rattle.std.specs.Prelude.{◌≡◌, None};
ghost use Rattle.channel_calls.specs.Calls.{SameCaller, seen};
ghost use Rattle.select_calls.specs.Clauses.{calls_of, MaySelect};
ghost use Rattle.select_calls.specs.Parts.{AllMayWait, Waited, MayStop, WasStopped};
ghost use Rattle.select_calls.specs.Selects.{SelectedAnswer};

use crate::clause::{Clause, SelectAnswer};
use crate::placing::{Placings, admit_in, place_all, revoke};
use crate::tries::{Tries, try_all};
use channel_calls::Caller;
use channel_model::ChannelFloor;
use co_base::{Memory, WaitId, Wakes};
use note_book::NoteBook;

/// Chooses the first clause that is ready, or whose channel is closed; if none is, waits on all of them.
///
/// `held` names the wait that it leaves: that of a select that waits, and of one that found no memory after a clause that it placed and
/// did not withdraw.
pub fn select_poll<F: ChannelFloor, B: NoteBook, W: Wakes>(
    x: &mut Caller<'_, '_, '_, F, B, W>,
    clauses: &[Clause],
    held: &mut Option<WaitId>,
) -> Result<SelectAnswer, Memory>
    requires may { MaySelect (calls_of clauses.now) (seen F.view B.items x.old) }
    requires none { held.old ≡ None }
    ensures same { SameCaller F.anchor x.old x.new }
    ensures answer { SelectedAnswer (calls_of clauses.now) (seen F.view B.items x.old) (seen F.view B.items x.new) held.new result }
{
    match try_all(x, clauses) {
        Ok(Tries::Chosen(k, outcome)) => Ok(SelectAnswer::Chosen(k, outcome)),
        Ok(Tries::Spent) => Ok(SelectAnswer::Spent),
        Ok(Tries::NoneReady) => wait_on_all(x, clauses, held),
        Err(memory) => Err(memory),
    }
}

/// Waits on all clauses, each of which was blocked.
fn wait_on_all<F: ChannelFloor, B: NoteBook, W: Wakes>(
    x: &mut Caller<'_, '_, '_, F, B, W>,
    clauses: &[Clause],
    held: &mut Option<WaitId>,
) -> Result<SelectAnswer, Memory>
    requires may { MaySelect (calls_of clauses.now) (seen F.view B.items x.old) }
    requires waits { AllMayWait (F.view x.old.floor.now).shape (calls_of clauses.now) }
    requires none { held.old ≡ None }
    ensures same { SameCaller F.anchor x.old x.new }
    ensures waited { Waited (calls_of clauses.now) (seen F.view B.items x.old) (seen F.view B.items x.new) held.new result }
{
    match place_all(x, clauses, held) {
        Ok(Placings::All) => match admit_in(x, clauses, clauses.len()) {
            Ok(()) => Ok(SelectAnswer::Waiting),
            Err(memory) => Err(memory),
        },
        Ok(Placings::Resolved(n)) => match admit_in(x, clauses, n) {
            Ok(()) => Ok(SelectAnswer::Waiting),
            Err(memory) => Err(memory),
        },
        Ok(Placings::Changed(n)) => stop(x, clauses, held, n, SelectAnswer::Again),
        Ok(Placings::Spent(n)) => stop(x, clauses, held, n, SelectAnswer::Spent),
        Err(unplaced) => Err(unplaced),
    }
}

/// Withdraws what was placed, and answers so; if that comes too late, the select waits.
fn stop<F: ChannelFloor, B: NoteBook, W: Wakes>(
    x: &mut Caller<'_, '_, '_, F, B, W>,
    clauses: &[Clause],
    held: &mut Option<WaitId>,
    count: usize,
    answer: SelectAnswer,
) -> Result<SelectAnswer, Memory>
    requires may { MayStop (calls_of clauses.now) count held.old (seen F.view B.items x.old) }
    ensures same { SameCaller F.anchor x.old x.new }
    ensures stopped { WasStopped (calls_of clauses.now) count answer (seen F.view B.items x.old) (seen F.view B.items x.new)
        held.old held.new result }
{
    let Some(w) = *held else {
        return Ok(answer);
    };
    match revoke(x, w) {
        Ok(true) => {
            *held = None;
            match admit_in(x, clauses, count) {
                Ok(()) => Ok(answer),
                Err(memory) => Err(memory),
            }
        }
        Ok(false) => match admit_in(x, clauses, count) {
            Ok(()) => Ok(SelectAnswer::Waiting),
            Err(memory) => Err(memory),
        },
        Err(memory) => Err(memory),
    }
}
