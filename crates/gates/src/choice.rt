//! Which act a call makes, by the word that it finds, and the word of a gate.
//!
//! | bits | field |
//! |---|---|
//! | 0 to 15 | how many permits are free |
//! | 16 to 63 | bit 16 + t: the pass t waits |

ghost use Rattle.std.specs.Prelude.{◌≡◌, ◌+◌, ◌*◌, ◌^◌, ◌<◌, ◌≤◌, true};
ghost use Rattle.gates.specs.Words.{waits_in};
ghost use Rattle.gates.specs.Answers.{HasBit, IsLow, IsChosen, MayTurnWord, ReadyFor, TurnsWord, held_then, waits_then};

use crate::act::GateAct;
use co_base::Tag;

/// What a call is for.
#[derive(Clone, Copy)]
pub(crate) enum Want {
    Take,
    TakeOrWait,
    Give,
    GiveUp,
}

/// Whether the pass of this tag waits, by the word.
pub(crate) fn is_waiting(word: u64, tag: u32) -> bool
    ensures { result ≡ waits_in word tag }
{
    tag < 48 && (word >> (16 + tag)) & 1 == 1
}

/// One who waits, the first from the tag `from` on.
fn next_of(word: u64, from: u32) -> u32
    requires some { 65536 ≤ word }
    requires from { from < 48 }
    ensures waits { waits_in word result ≡ true }
{
    let late = (word >> 16) >> from;
    let tag = late.trailing_zeros();
    if tag < 48 && is_waiting(word, from + tag) {
        return from + tag;
    }
    (word >> 16).trailing_zeros()
}

/// The act of a call at this word; None if there is none.
pub(crate) fn next_act(want: Want, word: u64, who: Tag, from: u32) -> Option<GateAct>
    requires who { IsLow want who }
    requires from { from < 48 }
    ensures chosen { IsChosen want who word result }
{
    match want {
        Want::Take => {
            if word % 65536 == 0 {
                return None;
            }
            Some(GateAct::Take)
        }
        Want::TakeOrWait => {
            if word % 65536 == 0 {
                return Some(GateAct::Wait);
            }
            Some(GateAct::Take)
        }
        Want::Give => {
            if word < 65536 {
                return Some(GateAct::Give);
            }
            let tag = next_of(word, from) as Tag;
            Some(GateAct::Grant { tag })
        }
        Want::GiveUp => {
            if is_waiting(word, who as u32) {
                return Some(GateAct::GiveUp);
            }
            None
        }
    }
}

/// The bit of a tag.
fn bit_of(tag: Tag) -> u64
    requires few { tag < 48 }
    ensures bit { result ≡ 65536 * 2 ^ tag }
{
    65536u64 << tag
}

/// The word after an act.
pub(crate) fn word_after(word: u64, who: Tag, act: GateAct) -> u64
    requires bit { HasBit who act }
    requires may { MayTurnWord who act word }
    ensures turned { TurnsWord who act word result }
{
    match act {
        GateAct::Take => word - 1,
        GateAct::Wait => word + bit_of(who),
        GateAct::Give => word + 1,
        GateAct::Grant { tag } => word - bit_of(tag),
        GateAct::GiveUp => word - bit_of(who),
    }
}

/// How many permits a pass holds after its act.
pub(crate) fn held_after(act: GateAct, held: u32, waits: bool) -> u32
    requires room { held ≤ 65536 }
    requires ready { ReadyFor act held waits }
    ensures held { result ≡ held_then act held }
{
    match act {
        GateAct::Take => held + 1,
        GateAct::Give => held - 1,
        GateAct::Grant { .. } => held - 1,
        _ => held,
    }
}

/// Whether a pass waits after its act.
pub(crate) fn waits_after(act: GateAct, waits: bool) -> bool
    ensures waits { result ≡ waits_then act waits }
{
    match act {
        GateAct::Wait => true,
        GateAct::GiveUp => false,
        _ => waits,
    }
}
