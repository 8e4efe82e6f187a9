//! Polls that no other coroutine can hinder or change, and that change nothing for others: where one can be made, no other need be tried
//! before it. Every end is reached in as many turns as without this.

use co_base::Tag;
use engine_one::Polled;
use script_grammar::Instruction;
use script_reader::Script;

/// A channel with so many places is taken to have places left.
const MANY_PLACES: u32 = 16384;

/// Whether no Job of the script can be cancelled: no line cancels or fails, and no channel can run out of places.
pub(crate) fn is_calm(script: &Script) -> bool {
    for channel in script.channels() {
        if channel.places < MANY_PLACES {
            return false;
        }
    }
    for block in script.blocks() {
        for line in block.code.as_slice() {
            if matches!(
                *line,
                Instruction::Cancel { .. }
                    | Instruction::CancelChannel { .. }
                    | Instruction::Fail { .. }
            ) {
                return false;
            }
        }
    }
    true
}

/// Whether this is such a poll: it noted nothing, and it looked at no Job that can be cancelled, as the first poll and a `yield` do.
pub(crate) fn is_local(script: &Script, calm: bool, polled: Polled) -> bool {
    !polled.noted && (calm || (!polled.first && !has_yield(script, polled.tag)))
}

/// Whether the block of this coroutine has a `yield`.
fn has_yield(script: &Script, tag: Tag) -> bool {
    if tag >= script.coroutines() {
        return true;
    }
    let Some(block) = script.blocks().get(script.coroutine_of(tag) as usize) else {
        return true;
    };
    for line in block.code.as_slice() {
        if matches!(*line, Instruction::Yield) {
            return true;
        }
    }
    false
}
