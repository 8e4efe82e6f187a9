//! Which coroutines read what they received.

use co_base::Tag;
use gathered::Gathered;
use script_grammar::{Instruction, Operand};
use script_reader::Script;
use std::alloc::Global;

/// For each coroutine, in order of tags, whether a line of its block reads what was received.
pub(crate) fn reads_of(alloc: Global, script: &Script) -> Gathered<bool> {
    let mut reads = Gathered::new(alloc);
    for tag in 0..script.coroutines() {
        reads.add(does_read(script, tag));
    }
    reads
}

fn does_read(script: &Script, tag: Tag) -> bool {
    if tag >= script.coroutines() {
        return true;
    }
    let Some(block) = script.blocks().get(script.coroutine_of(tag) as usize) else {
        return true;
    };
    for instruction in block.code.as_slice() {
        if let Some(Operand::It | Operand::Sum) = operand_of(*instruction) {
            return true;
        }
    }
    false
}

fn operand_of(instruction: Instruction) -> Option<Operand> {
    match instruction {
        Instruction::Send { value, .. }
        | Instruction::TrySend { value, .. }
        | Instruction::SetResult { value }
        | Instruction::OnSend { value, .. } => Some(value),
        _ => None,
    }
}
