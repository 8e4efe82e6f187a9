//! What the lines of a block launch.

ghost use Rattle.std.specs.Prelude.{◌≡◌, ◌-◌, ◌≤◌, ◌++◌, ◌∷◌, List, OnOk, IfOk, length, drop, take};
ghost use Rattle.script_grammar.specs.declared.instructions.Instruction.{Instruction};
ghost use Rattle.script_grammar.specs.declared.instructions.Instruction.TheVariants.{End};
ghost use Rattle.script_grammar.specs.Tags.{times_over, launched};
ghost use Rattle.script_reader.specs.Launching.{turns_opened, launched_with, AreNested};

use crate::closings::is_end;
use crate::limits::TOO_MANY_TURNS;
use crate::sizes::launch_of;
use script_grammar::Instruction as Line;
use std::alloc::{AllocError, Global};

/// A line that opened others: how often they run, and how many blocks were launched before them.
#[derive(Clone, Copy)]
pub(crate) struct Opened {
    pub(crate) turns: u32,
    pub(crate) from: usize,
}

/// How often the lines run that a line opens.
fn turns_opened(line: Line) -> Option<u32>
    ensures { result ≡ turns_opened line }
{
    match line {
        Line::Repeat { turns } => Some(turns),
        Line::Each { .. } => Some(TOO_MANY_TURNS),
        Line::Scope { .. } => Some(1),
        Line::Select => Some(1),
        _ => None,
    }
}

/// Puts in the place of what stands from a place on so many copies of it.
fn repeat_from(blocks: &mut Vec<u16>, from: usize, turns: u32) -> Result<(), AllocError>
    requires { from ≤ length blocks.old.items }
    ensures { OnOk result (blocks.new.items ≡ take from blocks.old.items ++ times_over turns (drop from blocks.old.items)) }
{
    if from == blocks.len() {
        return Ok(());
    }
    let part = blocks.split_off(from)?;
    for _turn in 0..turns {
        blocks.extend_from_slice(&part)?;
    }
    Ok(())
}

/// Closes the innermost line that is open.
fn close(outer: &mut Vec<Opened>, blocks: &mut Vec<u16>) -> Result<(), AllocError>
    requires { AreNested outer.old.items (length blocks.old.items) }
    ensures nested { OnOk result (AreNested outer.new.items (length blocks.new.items)) }
    ensures less { OnOk result (length outer.new.items ≡ length outer.old.items - 1) }
    ensures launched { OnOk result ((code : List Instruction)
        → launched_with outer.new.items blocks.new.items code ≡ launched_with outer.old.items blocks.old.items (End ∷ code)) }
{
    if outer.is_empty() {
        return Ok(());
    }
    let Opened { turns, from } = outer.remove(0);
    repeat_from(blocks, from, turns)
}

/// Goes through one line.
fn pass_line(outer: &mut Vec<Opened>, blocks: &mut Vec<u16>, line: Line) -> Result<(), AllocError>
    requires { AreNested outer.old.items (length blocks.old.items) }
    ensures nested { OnOk result (AreNested outer.new.items (length blocks.new.items)) }
    ensures launched { OnOk result ((code : List Instruction)
        → launched_with outer.new.items blocks.new.items code ≡ launched_with outer.old.items blocks.old.items (line ∷ code)) }
{
    if let Some(block) = launch_of(line) {
        blocks.push(block)?;
        return Ok(());
    }
    if let Some(turns) = turns_opened(line) {
        let from = blocks.len();
        outer.insert(0, Opened { turns, from })?;
        return Ok(());
    }
    if is_end(line) {
        return close(outer, blocks);
    }
    Ok(())
}

/// The blocks that lines launch, in their order, repeats counted.
pub(crate) fn launched(alloc: Global, code: &[Line]) -> Result<Vec<u16>, AllocError>
    ensures { IfOk result (λ blocks. blocks.items ≡ launched code.now) }
{
    let mut blocks = Vec::new(alloc);
    let mut outer = Vec::new(alloc);
    let mut rest = code;
    'lines: while let [line, more @ ..] = rest {
        pass_line(&mut outer, &mut blocks, *line)?;
        rest = more;
    }
    'ends: while !outer.is_empty() {
        close(&mut outer, &mut blocks)?;
    }
    Ok(blocks)
}
