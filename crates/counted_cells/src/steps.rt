//! A number is drawn, and a cell is exchanged.
ghost use Rattle.std.specs.Prelude.{◌≡◌, ◌≢◌, ◌<◌, false};
ghost use Rattle.counted_cells.specs.declared.cell_state.CellState.TheVariants as cell;
ghost use Rattle.counted_cells.specs.Cells.{same_side, side_of, partner};
ghost use Rattle.counted_cells.specs.Words.{IsNarrow, counter_word};
ghost use Rattle.counted_cells.specs.Seen.{now_in, cell_in, Sees};
ghost use Rattle.counted_cells.specs.Passes.{seen_by, IsOf, SamePass};
ghost use Rattle.counted_cells.specs.Answers.{IsDrawer, IsMine, WaitsThere, MayTurn, MeetsWith};
ghost use Rattle.counted_cells.specs.Answers.{TurnAnswer, DrawnAnswer, DrawAnswer, PairAnswer, StoodAnswer, GiveUpAnswer};

use crate::act::{CellAct, CellEntry, Side, Waiter};
use crate::answers::GaveUp;
use crate::cell_state::CellState;
use crate::counted::{CellCounts, Counted};
use crate::pass::CountedPass;
use co_base::{Place, Value};
use worded::{DrawRule, draw, exchange, load};

// A sender draws a number.
struct SendNumbers;

impl DrawRule<CellEntry, u32> for SendNumbers {
    ghost use Rattle.counted_cells.specs.declared.act.Side.TheVariants.{Send};
    ghost use Rattle.counted_cells.specs.Answers.{entry_drawn};
    ghost use Rattle.counted_cells.specs.Seen.{first_tag};

    ghost entry = { λ cells tags n. entry_drawn cells Send (first_tag tags) n };
}

// A receiver draws a number.
struct ReceiveNumbers;

impl DrawRule<CellEntry, u32> for ReceiveNumbers {
    ghost use Rattle.counted_cells.specs.declared.act.Side.TheVariants.{Receive};
    ghost use Rattle.counted_cells.specs.Answers.{entry_drawn};
    ghost use Rattle.counted_cells.specs.Seen.{first_tag};

    ghost entry = { λ cells tags n. entry_drawn cells Receive (first_tag tags) n };
}

/// Which word is this side's counter.
fn counter_of(side: Side) -> usize
    ensures { result ≡ counter_word side }
{
    match side {
        Side::Send => 0,
        Side::Receive => 1,
    }
}

/// How many numbers were drawn for this side.
fn load_counter(counted: &Counted, pass: &mut CountedPass, side: Side) -> u64
    requires of { IsOf counted.now pass.old }
    ensures of { IsOf counted.now pass.new }
    ensures same { SamePass pass.old pass.new }
    ensures sees { Sees (seen_by pass.old) (seen_by pass.new) }
    ensures found { result ≡ (now_in (seen_by pass.new)).drawn side }
{
    load::<CellEntry, u32, CellCounts>(&counted.table.shared, &mut pass.seat, counter_of(side))
}

/// Draws a number for this side.
fn draw_number(counted: &Counted, pass: &mut CountedPass, side: Side) -> u64
    requires of { IsOf counted.now pass.old }
    requires early { (now_in (seen_by pass.old)).late side pass.old.number ≡ false }
    ensures of { IsOf counted.now pass.new }
    ensures same { SamePass pass.old pass.new }
    ensures drawn { DrawnAnswer counted.now.cells side pass.old.number (seen_by pass.old) (seen_by pass.new) result }
{
    match side {
        Side::Send => draw::<CellEntry, u32, CellCounts, SendNumbers>(
            &counted.table.shared,
            &mut pass.seat,
            0,
        ),
        Side::Receive => draw::<CellEntry, u32, CellCounts, ReceiveNumbers>(
            &counted.table.shared,
            &mut pass.seat,
            1,
        ),
    }
}

/// Draws a cell for this side, if one is left. The counter is loaded first, so that a pass draws past the last cell at most once.
pub(crate) fn draw_cell(counted: &Counted, pass: &mut CountedPass, side: Side) -> Option<Place>
    requires of { IsOf counted.now pass.old }
    ensures of { IsOf counted.now pass.new }
    ensures same { SamePass pass.old pass.new }
    ensures drawn { DrawAnswer counted.now.cells side pass.old.number (seen_by pass.old) (seen_by pass.new) result }
{
    let cells = counted.cells as u64;
    if load_counter(counted, pass, side) >= cells {
        return None;
    }
    let number = draw_number(counted, pass, side);
    if number >= cells {
        return None;
    }
    Some(number as u32)
}

/// The cell as it is now.
pub(crate) fn load_cell(counted: &Counted, pass: &mut CountedPass, place: Place) -> CellState
    requires of { IsOf counted.now pass.old }
    requires place { place < counted.now.cells }
    ensures of { IsOf counted.now pass.new }
    ensures same { SamePass pass.old pass.new }
    ensures sees { Sees (seen_by pass.old) (seen_by pass.new) }
    ensures found { cell_in (seen_by pass.new) place ≡ result }
{
    let word = load::<CellEntry, u32, CellCounts>(
        &counted.table.shared,
        &mut pass.seat,
        2 + place as usize,
    );
    match CellState::unpack(word) {
        Some(found) => found,
        None => unreachable!(),
    }
}

/// Turns the cell by this act of the pass from `old` into `new`, or answers what else stands there.
pub(crate) fn turn_cell(
    counted: &Counted,
    pass: &mut CountedPass,
    place: Place,
    old: CellState,
    new: CellState,
    act: CellAct,
) -> Option<CellState>
    requires of { IsOf counted.now pass.old }
    requires place { place < counted.now.cells }
    requires narrow { IsNarrow new }
    requires may { MayTurn pass.old.number place old new act (now_in (seen_by pass.old)) }
    ensures of { IsOf counted.now pass.new }
    ensures same { SamePass pass.old pass.new }
    ensures told { TurnAnswer pass.old.number place old act (seen_by pass.old) (seen_by pass.new) result }
{
    let entry = CellEntry {
        who: pass.number,
        act,
    };
    let word = old.pack();
    let found = exchange::<CellEntry, u32, CellCounts>(
        &counted.table.shared,
        &mut pass.seat,
        2 + place as usize,
        word,
        new.pack(),
        &entry,
    );
    if found == word {
        return None;
    }
    match CellState::unpack(found) {
        Some(other) => Some(other),
        None => unreachable!(),
    }
}

/// What became of who came to the cell that it drew.
pub(crate) enum Stood {
    Waits,
    Paired(Value),
    Broken,
}

/// The value that goes from the one to the other.
fn value_between(comer: Waiter, waiter: Waiter) -> Value
    requires apart { same_side (side_of waiter) (side_of comer) ≡ false }
    ensures meets { (waiter ≡ partner (side_of comer) result) × MeetsWith comer result }
{
    match comer {
        Waiter::Sender(value) => value,
        Waiter::Receiver => match waiter {
            Waiter::Sender(value) => value,
            Waiter::Receiver => unreachable!(),
        },
    }
}

/// Meets who waits in the cell; None: it gave up.
fn pair(
    counted: &Counted,
    pass: &mut CountedPass,
    place: Place,
    comer: Waiter,
    waiter: Waiter,
) -> Option<Value>
    requires of { IsOf counted.now pass.old }
    requires place { place < counted.now.cells }
    requires drawer { IsDrawer (side_of comer) pass.old.number place (now_in (seen_by pass.old)) }
    requires stands { WaitsThere waiter (cell_in (seen_by pass.old) place) }
    requires apart { same_side (side_of waiter) (side_of comer) ≡ false }
    ensures of { IsOf counted.now pass.new }
    ensures same { SamePass pass.old pass.new }
    ensures stood { PairAnswer pass.old.number place comer (seen_by pass.old) (seen_by pass.new) result }
{
    let value = value_between(comer, waiter);
    let act = CellAct::Pair {
        side: comer.side(),
        place,
        value,
    };
    match turn_cell(
        counted,
        pass,
        place,
        CellState::Waits(waiter),
        CellState::Paired(value),
        act,
    ) {
        None => Some(value),
        Some(_) => None,
    }
}

/// Comes to a cell in which something stands: meets who waits there, or finds that it gave up.
fn meet(
    counted: &Counted,
    pass: &mut CountedPass,
    place: Place,
    comer: Waiter,
    found: CellState,
) -> Stood
    requires of { IsOf counted.now pass.old }
    requires place { place < counted.now.cells }
    requires mine { IsMine (side_of comer) pass.old.number place (now_in (seen_by pass.old)) }
    requires found { (cell_in (seen_by pass.old) place ≡ found) × (found ≢ cell.Free) }
    ensures of { IsOf counted.now pass.new }
    ensures same { SamePass pass.old pass.new }
    ensures stood { StoodAnswer pass.old.number place comer (seen_by pass.old) (seen_by pass.new) result }
{
    match found {
        CellState::Free => unreachable!(),
        CellState::Waits(waiter) => match pair(counted, pass, place, comer, waiter) {
            Some(value) => Stood::Paired(value),
            None => Stood::Broken,
        },
        CellState::Paired(_) => unreachable!(),
        CellState::Broken(_) => Stood::Broken,
    }
}

/// Comes to a cell that was drawn: waits there, or meets who waits.
pub(crate) fn stand(counted: &Counted, pass: &mut CountedPass, place: Place, comer: Waiter) -> Stood
    requires of { IsOf counted.now pass.old }
    requires place { place < counted.now.cells }
    requires mine { IsMine (side_of comer) pass.old.number place (now_in (seen_by pass.old)) }
    ensures of { IsOf counted.now pass.new }
    ensures same { SamePass pass.old pass.new }
    ensures stood { StoodAnswer pass.old.number place comer (seen_by pass.old) (seen_by pass.new) result }
{
    let act = CellAct::Place {
        place,
        waiter: comer,
    };
    match turn_cell(
        counted,
        pass,
        place,
        CellState::Free,
        CellState::Waits(comer),
        act,
    ) {
        None => Stood::Waits,
        Some(found) => meet(counted, pass, place, comer, found),
    }
}

/// Gives up in the cell where the pass waits, unless its partner came.
pub(crate) fn leave(
    counted: &Counted,
    pass: &mut CountedPass,
    place: Place,
    waiter: Waiter,
) -> GaveUp
    requires of { IsOf counted.now pass.old }
    requires place { place < counted.now.cells }
    requires drawer { IsDrawer (side_of waiter) pass.old.number place (now_in (seen_by pass.old)) }
    requires stands { WaitsThere waiter (cell_in (seen_by pass.old) place) }
    ensures of { IsOf counted.now pass.new }
    ensures same { SamePass pass.old pass.new }
    ensures answer { GiveUpAnswer pass.old.number place (seen_by pass.old) (seen_by pass.new) result }
{
    let side = waiter.side();
    let act = CellAct::GiveUp { side, place };
    let broken = CellState::Broken(side);
    match turn_cell(counted, pass, place, CellState::Waits(waiter), broken, act) {
        None => GaveUp::Done,
        Some(_) => GaveUp::Late,
    }
}
