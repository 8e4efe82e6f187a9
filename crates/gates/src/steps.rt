//! A load of the word, and an act by one exchange of it.
ghost use Rattle.std.specs.Prelude.{◌≡◌, ◌+◌, ◌-◌, ◌^◌, ◌<◌, ◌≤◌, true, false, []};
ghost use Rattle.gates.specs.Gates.{Needs};
ghost use Rattle.gates.specs.Words.{word_of};
ghost use Rattle.gates.specs.Seen.{now_in, Adds};
ghost use Rattle.gates.specs.Passes.{seen_by, IsOf, IsAt, SamePass};
ghost use Rattle.gates.specs.Answers.{ActAnswer, IsReady, ReadyFor, TurnAnswer, TurnCounts};

use crate::act::{GateAct, GateEntry};
use crate::choice::{Want, held_after, next_act, waits_after, word_after};
use crate::gate::{Gate, GatePass, Permits};
use worded::{exchange, load};

/// What became of a call.
pub(crate) enum Turned {
    /// It made this act.
    Did(GateAct),
    /// There was no act to make.
    Not,
    /// Others changed the word before it.
    Lost,
}

/// Loads the word.
pub(crate) fn look_at(gate: &Gate, pass: &mut GatePass) -> u64
    requires of { IsOf gate.now pass.old }
    ensures of { IsOf gate.now pass.new }
    ensures same { SamePass pass.old pass.new × IsAt pass.old.held pass.old.waits pass.new }
    ensures adds { Adds pass.old.number [] (seen_by pass.old) (seen_by pass.new) }
    ensures found { result ≡ word_of (now_in (seen_by pass.new)) }
{
    load::<GateEntry, u32, Permits>(&gate.table.shared, &mut pass.seat, 0)
}

/// Makes the act by one exchange of the word that was found, and counts it. False: the word was another.
fn act_at(gate: &Gate, pass: &mut GatePass, word: u64, act: GateAct) -> bool
    requires of { IsOf gate.now pass.old }
    requires word { word ≡ word_of (now_in (seen_by pass.old)) }
    requires needs { Needs (now_in (seen_by pass.old)) pass.old.number act }
    requires ready { ReadyFor act pass.old.held pass.old.waits }
    ensures of { IsOf gate.now pass.new }
    ensures same { SamePass pass.old pass.new }
    ensures told { ActAnswer act pass.old pass.new result }
{
    let entry = GateEntry {
        who: pass.number,
        act,
    };
    let held = held_after(act, pass.held, pass.waits);
    let new = word_after(word, pass.number, act);
    let found = exchange::<GateEntry, u32, Permits>(
        &gate.table.shared,
        &mut pass.seat,
        0,
        word,
        new,
        &entry,
    );
    if found != word {
        return false;
    }
    pass.held = held;
    pass.waits = waits_after(act, pass.waits);
    true
}

/// Looks once, and makes the act that the call is for.
fn turn_once(gate: &Gate, pass: &mut GatePass, want: Want, from: u32) -> Turned
    requires of { IsOf gate.now pass.old }
    requires ready { IsReady want pass.old }
    requires from { from < 48 }
    ensures of { IsOf gate.now pass.new }
    ensures same { SamePass pass.old pass.new }
    ensures told { TurnAnswer 1 want pass.old.number (seen_by pass.old) (seen_by pass.new) result }
    ensures counts { TurnCounts result pass.old pass.new }
{
    let word = look_at(gate, pass);
    match next_act(want, word, pass.number, from) {
        None => Turned::Not,
        Some(act) => {
            if act_at(gate, pass, word, act) {
                return Turned::Did(act);
            }
            Turned::Lost
        }
    }
}

/// The same, again as long as others are first.
pub(crate) fn turn(gate: &Gate, pass: &mut GatePass, want: Want, from: u32) -> Turned
    requires of { IsOf gate.now pass.old }
    requires ready { IsReady want pass.old }
    requires from { from < 48 }
    ensures of { IsOf gate.now pass.new }
    ensures same { SamePass pass.old pass.new }
    ensures told { TurnAnswer (2 ^ 64 - 1) want pass.old.number (seen_by pass.old) (seen_by pass.new) result }
    ensures counts { TurnCounts result pass.old pass.new }
{
    for _tries in 0..u64::MAX {
        match turn_once(gate, pass, want, from) {
            Turned::Did(act) => return Turned::Did(act),
            Turned::Not => return Turned::Not,
            Turned::Lost => {}
        }
    }
    Turned::Lost
}

/// A pass that waited was granted a permit, and is told so.
pub(crate) fn settle(pass: &mut GatePass)
    requires waits { pass.old.waits ≡ true }
    requires granted { (now_in (seen_by pass.old)).waits pass.old.number ≡ false }
    requires few { pass.old.held ≤ 65536 }
    ensures seat { pass.new.seat ≡ pass.old.seat }
    ensures same { SamePass pass.old pass.new × IsAt (pass.old.held + 1) false pass.new }
{
    pass.held += 1;
    pass.waits = false;
}
