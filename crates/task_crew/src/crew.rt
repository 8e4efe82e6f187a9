//! All workers, until no ticket is left.

ghost use Rattle.std.specs.Prelude.{◌≡◌, ◌≤◌, ◌+◌, [], All, IfOk, IfSome, length, vec_len};
ghost use Rattle.task_berths.specs.Answers.{HaveTags};
ghost use Rattle.task_berths.specs.Seats.{count_of, view_of, IsSeatOf, IsMain};

use crate::polls::Polls;
use crate::tickets::Tickets;
use crate::worker::{Hand, work};
use co_base::{Memory, Tag};
use std::alloc::Global;
use std::sync::Wait;
use std::thread;
use std::thread::Threads;
use task_berths::{BerthSeat, Berths, Tagged};

/// A seat at the berths for each worker, beside its tickets.
fn seat_all<T: Tagged + Drop>(
    alloc: Global,
    berths: &Berths<T>,
    main: &mut BerthSeat<T>,
    tickets: Vec<Tickets>,
) -> Result<Vec<Hand<T>>, Memory>
    requires main { IsMain berths.now main.old × ((view_of main.old).held ≡ []) }
    requires few { (view_of main.old).splits + vec_len tickets ≤ 65535 }
    ensures main { IsMain berths.now main.new × ((view_of main.new).held ≡ []) }
    ensures count { IfOk result (λ hands. vec_len hands ≡ vec_len tickets) }
    ensures splits { IfOk result (λ hands. (view_of main.new).splits ≡ (view_of main.old).splits + vec_len hands) }
    ensures ends { (view_of main.new).ends ≡ (view_of main.old).ends }
    ensures seats { IfOk result (λ hands. All (λ hand. IsSeatOf berths.now hand.seat) hands.items) }
{
    let mut tickets = tickets;
    let mut hands = Vec::with_capacity(alloc, tickets.len())?;
    while let Some(own) = tickets.pop() {
        hands.push(Hand {
            tickets: own,
            seat: berths.split(main),
        })?;
    }
    Ok(hands)
}

/// Ends the seats of all workers, and gives their tickets back. One that found no memory has none.
fn end_all<T: Tagged + Drop>(
    alloc: Global,
    berths: &Berths<T>,
    main: &mut BerthSeat<T>,
    hands: Vec<Option<Hand<T>>>,
) -> Result<Vec<Tickets>, Memory>
    requires main { IsMain berths.now main.old × ((view_of main.old).held ≡ []) }
    requires seats { All (λ hand. IfSome hand (λ h. IsSeatOf berths.now h.seat)) hands.items }
    ensures main { IsMain berths.now main.new × ((view_of main.new).held ≡ []) }
    ensures count { IfOk result (λ tickets. vec_len tickets ≡ vec_len hands) }
    ensures ends { IfOk result (λ tickets. (view_of main.new).ends ≡ (view_of main.old).ends + vec_len hands) }
    ensures splits { (view_of main.new).splits ≡ (view_of main.old).splits }
{
    let mut hands = hands;
    let mut back = Vec::with_capacity(alloc, hands.len())?;
    while let Some(hand) = hands.pop() {
        let Some(Hand { tickets, seat }) = hand else {
            return Err(Memory);
        };
        berths.end(main, seat);
        back.push(tickets)?;
    }
    Ok(back)
}

/// Each worker runs tickets, until nobody has one or a poll found no memory.
fn work_all<T: Tagged + Drop + Send, R: Threads + Wait + Sync, P: Polls<T>>(
    rt: &R,
    polls: &P,
    berths: &Berths<T>,
    count: Tag,
    hands: Vec<Hand<T>>,
) -> Result<Vec<Option<Hand<T>>>, Memory>
    requires polls { P.may_poll polls.now }
    requires count { count ≡ count_of berths.now }
    requires seats { All (λ hand. IsSeatOf berths.now hand.seat) hands.items }
    ensures count { IfOk result (λ back. vec_len back ≡ vec_len hands) }
    ensures seats { IfOk result (λ back. All (λ hand. IfSome hand (λ h. IsSeatOf berths.now h.seat)) back.items) }
{
    let hands = thread::map_vec(
        rt,
        hands,
        &|hand: Hand<T>| -> Option<Hand<T>>
            requires { P.may_poll polls.now × (count ≡ count_of berths.now) × IsSeatOf berths.now hand.seat }
            ensures { IfSome result (λ h. IsSeatOf berths.entry.now h.seat) }
        { work(rt, polls, berths, count, hand) },
    )?;
    Ok(hands)
}

/// The workers poll the tasks of all tickets, until none is left. Gives the tasks back in order of their tags, and the lanes, which are
/// empty. There is a worker for each lane.
pub fn run_crew<T: Tagged + Drop + Send, R: Threads + Wait + Sync, P: Polls<T>>(
    rt: &R,
    alloc: Global,
    polls: &P,
    tasks: Vec<T>,
    tickets: Vec<Tickets>,
) -> Result<(Vec<T>, Vec<Tickets>), Memory>
    requires polls { P.may_poll polls.now }
    requires few { length tasks.items ≤ 65535 }
    requires tags { HaveTags T.tag_of tasks.items }
    requires workers { vec_len tickets ≤ 65535 }
    ensures count { IfOk result (λ r. length r.0.items ≡ length tasks.items) }
    ensures tags { IfOk result (λ r. HaveTags T.tag_of r.0.items) }
    ensures workers { IfOk result (λ r. vec_len r.1 ≡ vec_len tickets) }
{
    let count = tasks.len() as Tag;
    let (berths, mut main) = Berths::new(tasks)?;
    let hands = seat_all(alloc, &berths, &mut main, tickets)?;
    let hands = work_all(rt, polls, &berths, count, hands)?;
    let tickets = end_all(alloc, &berths, &mut main, hands)?;
    Ok((berths.close(main), tickets))
}
