//! The block of each tag.

ghost use Rattle.std.specs.Prelude.{◌≡◌, ◌++◌, ◌<◌, ◌≤◌, OnOk, IfOk, IsSome, Some, None, true, length, map, replicate, reverse, slice_index_or};
ghost use Rattle.script_grammar.specs.Tags.{spawned_by, tags_for};
ghost use Rattle.script_grammar.specs.Declarations.{launch_back, all_below};
ghost use Rattle.script_reader.specs.Programs.{block_of, spawn_of};
ghost use Rattle.script_reader.specs.TagTables.{launched_in, AreLists};

use crate::launches::launched;
use crate::script::{Coroutine, Spawn};
use std::alloc::{AllocError, Global};

/// A place for what each block launches.
fn no_lists(alloc: Global, coroutines: &[Coroutine]) -> Result<Vec<Option<Vec<u16>>>, AllocError>
    ensures { IfOk result (λ lists. AreLists lists.items (map block_of coroutines.now)) }
{
    let mut lists = Vec::new(alloc);
    for _block in 0..coroutines.len() {
        lists.push(None)?;
    }
    Ok(lists)
}

/// Finds what a block launches, if it was not found before.
fn find_list(
    alloc: Global,
    coroutines: &[Coroutine],
    lists: &mut Vec<Option<Vec<u16>>>,
    block: u16,
) -> Result<(), AllocError>
    requires lists { AreLists lists.old.items (map block_of coroutines.now) }
    requires declared { block < length coroutines.now }
    ensures lists { OnOk result (AreLists lists.new.items (map block_of coroutines.now)) }
    ensures found { OnOk result (IsSome (slice_index_or lists.new.items block None)) }
{
    if lists[block as usize].is_none() {
        let list = launched(alloc, &coroutines[block as usize].code)?;
        lists[block as usize] = Some(list);
    }
    Ok(())
}

/// Puts blocks on the stack, the first of them on top.
fn push_blocks(stack: &mut Vec<u16>, blocks: &[u16]) -> Result<(), AllocError>
    ensures { OnOk result (reverse stack.new.items ≡ blocks.now ++ reverse stack.old.items) }
{
    let mut left = blocks.len();
    while left > 0 {
        left -= 1;
        stack.push(blocks[left])?;
    }
    Ok(())
}

/// Puts what a block launches on the stack, the first of it on top.
fn push_launched(
    alloc: Global,
    coroutines: &[Coroutine],
    lists: &mut Vec<Option<Vec<u16>>>,
    stack: &mut Vec<u16>,
    block: u16,
) -> Result<(), AllocError>
    requires lists { AreLists lists.old.items (map block_of coroutines.now) }
    requires declared { block < length coroutines.now }
    ensures lists { OnOk result (AreLists lists.new.items (map block_of coroutines.now)) }
    ensures pushed { OnOk result (reverse stack.new.items ≡ launched_in (map block_of coroutines.now) block ++ reverse stack.old.items) }
{
    find_list(alloc, coroutines, lists, block)?;
    match &lists[block as usize] {
        Some(list) => push_blocks(stack, list),
        None => unreachable!(),
    }
}

/// Puts a block on the stack so many times.
fn push_copies(stack: &mut Vec<u16>, block: u16, count: u16) -> Result<(), AllocError>
    ensures { OnOk result (reverse stack.new.items ≡ replicate count block ++ reverse stack.old.items) }
{
    let mut pushed = 0u16;
    while pushed < count {
        stack.push(block)?;
        pushed += 1;
    }
    Ok(())
}

/// Puts the blocks of the spawns on the stack, the first of them on top.
fn push_spawned(stack: &mut Vec<u16>, spawns: &[Spawn]) -> Result<(), AllocError>
    ensures { OnOk result (reverse stack.new.items ≡ spawned_by (map spawn_of spawns.now) ++ reverse stack.old.items) }
{
    let mut left = spawns.len();
    while left > 0 {
        left -= 1;
        let Spawn { coroutine, count } = spawns[left];
        push_copies(stack, coroutine, count)?;
    }
    Ok(())
}

/// The block of each tag: main's instance, then each instance with all that it launches.
///
/// The stack holds the blocks that are still to be laid out. What a block launches is found when its first instance is laid
/// out, so that the time grows with the length of the lines and of the table.
pub(crate) fn tags_in(
    alloc: Global,
    coroutines: &[Coroutine],
    spawns: &[Spawn],
    main: u16,
) -> Result<Vec<u16>, AllocError>
    requires back { launch_back 0 (map block_of coroutines.now) ≡ true }
    requires main { main < length coroutines.now }
    requires spawns { all_below (length (map block_of coroutines.now)) (spawned_by (map spawn_of spawns.now)) ≡ true }
    requires few { length (tags_for (map block_of coroutines.now) (spawned_by (map spawn_of spawns.now)) (Some main)) ≤ 16000 }
    ensures { IfOk result (λ tags. tags.items ≡ tags_for (map block_of coroutines.now) (spawned_by (map spawn_of spawns.now)) (Some main)) }
{
    let mut lists = no_lists(alloc, coroutines)?;
    let mut tags = Vec::new(alloc);
    tags.push(main)?;
    let mut stack = Vec::new(alloc);
    push_launched(alloc, coroutines, &mut lists, &mut stack, main)?;
    push_spawned(&mut stack, spawns)?;
    while let Some(block) = stack.pop() {
        tags.push(block)?;
        push_launched(alloc, coroutines, &mut lists, &mut stack, block)?;
    }
    Ok(tags)
}
