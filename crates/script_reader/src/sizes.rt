//! How many tags an instance of each block takes.

ghost use Rattle.std.specs.Prelude.{◌≡◌, ◌+◌, ◌*◌, ◌<◌, ◌≤◌, [], ℕ, OnOk, IfOk, length, map, slice_index_or};
ghost use Rattle.script_grammar.specs.Blocks.{product, launch_of};
ghost use Rattle.script_grammar.specs.Tags.{nest_with, counted, launches_from, sizes_in, size_in};
ghost use Rattle.script_reader.specs.Programs.{block_of};

use crate::limits::{TOO_MANY_TURNS, number_at, turns_within};
use crate::nesting::{close_turns, open_turns};
use crate::script::Coroutine;
use script_grammar::Instruction;
use std::alloc::{AllocError, Global};

/// The block that a line launches.
pub(crate) fn launch_of(line: Instruction) -> Option<u16>
    ensures { result ≡ launch_of line }
{
    match line {
        Instruction::Launch { block, .. } => Some(block),
        _ => None,
    }
}

/// How many tags an instance takes that this line launches, where those of each block take so many.
fn size_launched(sizes: &[u16], line: Instruction) -> u16
    ensures { result ≡ counted (λ j. slice_index_or sizes.now j 0) (launch_of line) }
{
    match launch_of(line) {
        Some(block) => number_at(sizes, block),
        None => 0,
    }
}

/// How often the lines run that are open after this one, the innermost first.
fn enter_runs(nest: &mut Vec<u32>, line: Instruction) -> Result<(), AllocError>
    ensures { OnOk result (nest.new.items ≡ nest_with nest.old.items line) }
{
    match line {
        Instruction::End => {
            close_turns(nest);
            Ok(())
        }
        Instruction::Repeat { turns } => open_turns(nest, turns),
        Instruction::Each { .. } => open_turns(nest, TOO_MANY_TURNS),
        Instruction::Scope { .. } => open_turns(nest, 1),
        Instruction::Select => open_turns(nest, 1),
        _ => Ok(()),
    }
}

/// How many tags these take together, each as often as the lines run.
fn size_within(nest: &[u32], size: u16) -> u32
    requires { product nest.now * size ≤ 16000 }
    ensures { result ≡ product nest.now * size }
{
    if size == 0 {
        return 0;
    }
    turns_within(nest) * u32::from(size)
}

/// How many tags an instance takes of a block that has these lines, where those of the blocks before take so many.
fn block_size(alloc: Global, sizes: &[u16], code: &[Instruction]) -> Result<u16, AllocError>
    requires { 1 + launches_from (λ j. slice_index_or sizes.now j 0) [] code.now ≤ 16000 }
    ensures { IfOk result (λ n. n ≡ 1 + launches_from (λ j. slice_index_or sizes.now j 0) [] code.now) }
{
    let mut size = 1u32;
    let mut nest = Vec::new(alloc);
    let mut rest = code;
    while let [line, more @ ..] = rest {
        size += size_within(&nest, size_launched(sizes, *line));
        enter_runs(&mut nest, *line)?;
        rest = more;
    }
    Ok(size as u16)
}

/// The same of each block.
pub(crate) fn all_sizes(alloc: Global, coroutines: &[Coroutine]) -> Result<Vec<u16>, AllocError>
    requires { (k : ℕ) → k < length coroutines.now → size_in (map block_of coroutines.now) k ≤ 16000 }
    ensures { IfOk result (λ sizes. sizes.items ≡ sizes_in (map block_of coroutines.now)) }
{
    let mut sizes = Vec::new(alloc);
    let mut rest = coroutines;
    while let [coroutine, more @ ..] = rest {
        let size = block_size(alloc, &sizes, &coroutine.code)?;
        sizes.push(size)?;
        rest = more;
    }
    Ok(sizes)
}
