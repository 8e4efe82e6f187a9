//! A worker, and what it does with its tickets.

ghost use Rattle.std.specs.Prelude.{◌≡◌, ◌<◌, true, false, [], IfSome, IfOk, Some, None};
ghost use Rattle.task_berths.specs.Seats.{count_of, view_of, IsSeatOf};
ghost use Rattle.task_crew.specs.AtHand.{IsAt, AreHeld, tag_at};

use crate::polls::Polls;
use crate::tickets::Tickets;
use co_base::{Memory, Tag};
use std::sync::Wait;
use task_berths::{BerthSeat, Berths, Tagged, Taken};

/// What a worker has: its tickets, and a seat at the berths that has no task.
#[derive(Drop)]
pub(crate) struct Hand<T> {
    pub(crate) tickets: Tickets,
    pub(crate) seat: BerthSeat<T>,
    pub ghost empty: { (view_of seat).held ≡ [] },
}

/// Leaves a task that is at hand, beside another that stays there. It gets a ticket if another worker came for it meanwhile.
fn leave<T: Tagged + Drop>(
    berths: &Berths<T>,
    seat: &mut BerthSeat<T>,
    task: Option<T>,
    stays: &Option<T>,
    tickets: &mut Tickets,
)
    requires seat { IsSeatOf berths.now seat.old }
    requires held { AreHeld (count_of berths.now) (view_of seat.old).held (tag_at T.tag_of task) (tag_at T.tag_of stays.now) }
    ensures seat { IsSeatOf berths.now seat.new }
    ensures held { AreHeld (count_of berths.now) (view_of seat.new).held None (tag_at T.tag_of stays.now) }
{
    let Some(task) = task else {
        return;
    };
    let tag = task.tag();
    if berths.leave(seat, tag, task) {
        tickets.put(tag);
    }
}

/// Leaves both tasks that are at hand.
fn leave_both<T: Tagged + Drop>(
    berths: &Berths<T>,
    seat: &mut BerthSeat<T>,
    last: Option<T>,
    before: Option<T>,
    tickets: &mut Tickets,
)
    requires seat { IsSeatOf berths.now seat.old }
    requires held { AreHeld (count_of berths.now) (view_of seat.old).held (tag_at T.tag_of last) (tag_at T.tag_of before) }
    ensures seat { IsSeatOf berths.now seat.new }
    ensures held { (view_of seat.new).held ≡ [] }
{
    leave(berths, seat, last, &before, tickets);
    leave(berths, seat, before, &None, tickets);
}

/// Whether this is the task of the tag.
fn is_of<T: Tagged>(task: &Option<T>, tag: Tag) -> bool
    ensures yes { result ≡ true → tag_at T.tag_of task.now ≡ Some tag }
    ensures no { result ≡ false → IsAt tag (tag_at T.tag_of task.now) → ⊥ }
{
    match task {
        Some(task) => task.tag() == tag,
        None => false,
    }
}

/// The task of the tag from its berth, beside another that stays at hand. None: another worker has it.
fn take<T: Tagged + Drop>(
    berths: &Berths<T>,
    seat: &mut BerthSeat<T>,
    tag: Tag,
    stays: &Option<T>,
) -> Option<T>
    requires seat { IsSeatOf berths.now seat.old }
    requires tag { tag < count_of berths.now }
    requires held { AreHeld (count_of berths.now) (view_of seat.old).held None (tag_at T.tag_of stays.now) }
    requires lacks { IsAt tag (tag_at T.tag_of stays.now) → ⊥ }
    ensures seat { IsSeatOf berths.now seat.new }
    ensures held { AreHeld (count_of berths.now) (view_of seat.new).held (tag_at T.tag_of result) (tag_at T.tag_of stays.now) }
{
    match berths.take(seat, tag) {
        Taken::Task(task) => Some(task),
        Taken::Busy => None,
    }
}

/// The task of the tag, and the other one that stays at hand. None: another worker has it. What was polled last stays at hand; the one
/// before does only if it is the task of the tag.
fn fetch<T: Tagged + Drop>(
    berths: &Berths<T>,
    seat: &mut BerthSeat<T>,
    tag: Tag,
    last: Option<T>,
    before: Option<T>,
    tickets: &mut Tickets,
) -> (Option<T>, Option<T>)
    requires seat { IsSeatOf berths.now seat.old }
    requires tag { tag < count_of berths.now }
    requires held { AreHeld (count_of berths.now) (view_of seat.old).held (tag_at T.tag_of last) (tag_at T.tag_of before) }
    ensures seat { IsSeatOf berths.now seat.new }
    ensures held { AreHeld (count_of berths.now) (view_of seat.new).held (tag_at T.tag_of result.0) (tag_at T.tag_of result.1) }
{
    if is_of(&before, tag) {
        return (before, last);
    }
    leave(berths, seat, before, &last, tickets);
    if is_of(&last, tag) {
        return (last, None);
    }
    let task = take(berths, seat, tag, &last);
    (task, last)
}

/// The other task, which stays at hand where the worker woke the one that it polls next: the two may wait for one another. Else it is left,
/// so that another worker may poll it meanwhile.
fn keep<T: Tagged + Drop>(
    berths: &Berths<T>,
    seat: &mut BerthSeat<T>,
    other: Option<T>,
    beside: &Option<T>,
    woken: bool,
    tickets: &mut Tickets,
) -> Option<T>
    requires seat { IsSeatOf berths.now seat.old }
    requires held { AreHeld (count_of berths.now) (view_of seat.old).held (tag_at T.tag_of beside.now) (tag_at T.tag_of other) }
    ensures seat { IsSeatOf berths.now seat.new }
    ensures held { AreHeld (count_of berths.now) (view_of seat.new).held (tag_at T.tag_of beside.now) (tag_at T.tag_of result) }
{
    if woken {
        return other;
    }
    leave(berths, seat, other, beside, tickets);
    None
}

/// Polls the task, if there is one. It gets a ticket if it asks for one.
fn poll<T: Tagged + Drop, P: Polls<T>>(
    polls: &P,
    task: Option<T>,
    tickets: &mut Tickets,
) -> Result<Option<T>, Memory>
    requires { P.may_poll polls.now }
    ensures { IfOk result (λ r. tag_at T.tag_of r ≡ tag_at T.tag_of task) }
{
    let Some(task) = task else {
        return Ok(None);
    };
    let (task, again) = polls.poll(task, tickets)?;
    if again {
        tickets.put(task.tag());
    }
    Ok(Some(task))
}

/// Runs a ticket: polls its task, unless another worker has it. The task, and another one if the worker woke the task, are at hand then.
fn run_ticket<T: Tagged + Drop, P: Polls<T>>(
    polls: &P,
    berths: &Berths<T>,
    seat: &mut BerthSeat<T>,
    count: Tag,
    tag: Tag,
    woken: bool,
    last: Option<T>,
    before: Option<T>,
    tickets: &mut Tickets,
) -> Result<(Option<T>, Option<T>), Memory>
    requires polls { P.may_poll polls.now }
    requires count { count ≡ count_of berths.now }
    requires seat { IsSeatOf berths.now seat.old }
    requires held { AreHeld (count_of berths.now) (view_of seat.old).held (tag_at T.tag_of last) (tag_at T.tag_of before) }
    ensures seat { IsSeatOf berths.now seat.new }
    ensures held { IfOk result (λ r. AreHeld (count_of berths.now) (view_of seat.new).held (tag_at T.tag_of r.0) (tag_at T.tag_of r.1)) }
{
    if tag >= count {
        return Ok((last, before));
    }
    let (task, other) = fetch(berths, seat, tag, last, before, tickets);
    let other = keep(berths, seat, other, &task, woken, tickets);
    let task = poll(polls, task, tickets)?;
    Ok((task, other))
}

/// The next ticket, whether it is that of a task which the worker woke, and the tasks at hand. Before the worker looks for tickets of
/// others it leaves both. None: nobody has a ticket.
fn next_ticket<T: Tagged + Drop, R: Wait>(
    rt: &R,
    berths: &Berths<T>,
    seat: &mut BerthSeat<T>,
    last: Option<T>,
    before: Option<T>,
    tickets: &mut Tickets,
) -> (Option<(Tag, bool)>, Option<T>, Option<T>)
    requires seat { IsSeatOf berths.now seat.old }
    requires held { AreHeld (count_of berths.now) (view_of seat.old).held (tag_at T.tag_of last) (tag_at T.tag_of before) }
    ensures seat { IsSeatOf berths.now seat.new }
    ensures held { AreHeld (count_of berths.now) (view_of seat.new).held (tag_at T.tag_of result.1) (tag_at T.tag_of result.2) }
    ensures none { result.0 ≡ None → (view_of seat.new).held ≡ [] }
{
    if let Some(ticket) = tickets.own() {
        return (Some(ticket), last, before);
    }
    leave_both(berths, seat, last, before, tickets);
    (tickets.next(rt), None, None)
}

/// Runs tickets until nobody has one, or a poll found no memory. None: it was one of its own.
pub(crate) fn work<T: Tagged + Drop, R: Wait, P: Polls<T>>(
    rt: &R,
    polls: &P,
    berths: &Berths<T>,
    count: Tag,
    hand: Hand<T>,
) -> Option<Hand<T>>
    requires polls { P.may_poll polls.now }
    requires count { count ≡ count_of berths.now }
    requires seat { IsSeatOf berths.now hand.seat }
    ensures { IfSome result (λ hand. IsSeatOf berths.now hand.seat) }
{
    let Hand {
        mut tickets,
        mut seat,
    } = hand;
    let mut last: Option<T> = None;
    let mut before: Option<T> = None;
    tickets.begin();
    'turns: for _ in rt.forever() {
        let (next, one, other) = next_ticket(rt, berths, &mut seat, last, before, &mut tickets);
        let Some((tag, woken)) = next else {
            break;
        };
        let ran = run_ticket(
            polls,
            berths,
            &mut seat,
            count,
            tag,
            woken,
            one,
            other,
            &mut tickets,
        );
        let Ok((polled, stays)) = ran else {
            tickets.stop();
            return None;
        };
        last = polled;
        before = stays;
    }
    Some(Hand { tickets, seat })
}
