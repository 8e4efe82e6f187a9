//! Who could still end a wait, for hints.

use crate::notes::{NO_CHANNEL, NO_ROW, Note};
use crate::story::Story;
use crate::verbs::OFFER;
use crate::walk::code_of;
use gathered::{Gathered, at};
use script_reader::Instruction;
use std::alloc::Global;

/// What a wait waits for.
#[derive(Clone, Copy)]
pub(crate) enum Awaited {
    /// An element of the channel of this number, or its end.
    Element(u16),
    /// A receiver at it.
    Receiver(u16),
    /// The end of the Job of this row.
    End(u32),
    Unknown,
}

/// What the line that begins a wait waits for.
pub(crate) fn awaited_by(note: &Note<'_>) -> Awaited {
    let row = note.done_row();
    if row != NO_ROW {
        Awaited::End(row)
    } else if note.channel == NO_CHANNEL {
        Awaited::Unknown
    } else if note.is_one_of(OFFER) {
        Awaited::Receiver(note.channel)
    } else {
        Awaited::Element(note.channel)
    }
}

/// Whether a line can end such a wait; of the blocks that it may launch, those that can are known.
fn can_end(line: Instruction, awaited: Awaited, blocks: &[bool]) -> bool {
    if let Instruction::Launch { block, .. } = line {
        return at(blocks, block as usize, false);
    }
    match awaited {
        Awaited::Element(c) => brings(line, c),
        Awaited::Receiver(c) => receives(line, c),
        Awaited::End(_) | Awaited::Unknown => false,
    }
}

/// Whether a line sends on a channel, or closes it.
fn brings(line: Instruction, c: u16) -> bool {
    match line {
        Instruction::Send { c: other, .. }
        | Instruction::TrySend { c: other, .. }
        | Instruction::OnSend { c: other, .. }
        | Instruction::Close { c: other }
        | Instruction::CancelChannel { c: other } => other == c,
        _ => false,
    }
}

/// Whether a line receives on a channel, or cancels it.
fn receives(line: Instruction, c: u16) -> bool {
    match line {
        Instruction::Receive { c: other }
        | Instruction::TryReceive { c: other }
        | Instruction::OnReceive { c: other }
        | Instruction::Each { c: other }
        | Instruction::CancelChannel { c: other } => other == c,
        _ => false,
    }
}

fn one_can_end(code: &[Instruction], from: usize, awaited: Awaited, blocks: &[bool]) -> bool {
    for (i, line) in code.iter().enumerate() {
        if i >= from && can_end(*line, awaited, blocks) {
            return true;
        }
    }
    false
}

/// Adds of each block whether an instance of it can end such a wait: a block launches only those before it.
fn add_blocks(blocks: &mut Gathered<bool>, story: &Story<'_>, awaited: Awaited) {
    for block in story.script.blocks() {
        let can = one_can_end(block.code.as_slice(), 0, awaited, blocks.as_slice());
        blocks.add(can);
    }
}

/// Adds the coroutines that can end the Job of a row: its own, or those below a scope.
fn add_below(found: &mut Gathered<u32>, story: &Story<'_>, row: u32) {
    let coroutines = u32::from(story.script.coroutines());
    if row < coroutines {
        if !story.row(row).ended {
            found.add(row);
        }
        return;
    }
    for tag in 0..coroutines {
        if story.row(tag).is_open_below(row) {
            found.add(tag);
        }
    }
}

/// Whether a coroutine has a line left which can end such a wait.
fn is_able(story: &Story<'_>, tag: u32, awaited: Awaited, blocks: &[bool]) -> bool {
    let row = story.row(tag);
    row.open && one_can_end(code_of(story.script, tag), row.left_from, awaited, blocks)
}

/// Adds the coroutines beside this one that have a line left which can end such a wait.
fn add_able(
    found: &mut Gathered<u32>,
    story: &Story<'_>,
    tag: u32,
    awaited: Awaited,
    blocks: &[bool],
) {
    for other in 0..u32::from(story.script.coroutines()) {
        if other != tag
            && is_able(story, other, awaited, blocks)
            && !found.as_slice().contains(&other)
        {
            found.add(other);
        }
    }
}

/// Adds the coroutines beside this one that can end such a wait.
fn add_partners(
    alloc: Global,
    found: &mut Gathered<u32>,
    story: &Story<'_>,
    tag: u32,
    awaited: Awaited,
) {
    match awaited {
        Awaited::Unknown => {}
        Awaited::End(row) => add_below(found, story, row),
        _ => {
            let mut blocks = Gathered::new(alloc);
            add_blocks(&mut blocks, story, awaited);
            add_able(found, story, tag, awaited, blocks.as_slice());
            found.full = found.full | blocks.full;
        }
    }
}

/// What a note waits for, if it begins this wait.
fn awaited_in(note: &Note<'_>, wait: &[u8]) -> Awaited {
    if note.begins() && note.wait() == wait {
        awaited_by(note)
    } else {
        Awaited::Unknown
    }
}

/// Adds the coroutines that could end this wait of a coroutine.
fn add_all_partners(
    alloc: Global,
    found: &mut Gathered<u32>,
    story: &Story<'_>,
    tag: u32,
    wait: &[u8],
) {
    for note in story.notes_of(tag) {
        add_partners(alloc, found, story, tag, awaited_in(note, wait));
    }
}

/// Adds the coroutines that could end the wait of a coroutine.
pub(crate) fn find_partners(alloc: Global, found: &mut Gathered<u32>, story: &Story<'_>, tag: u32) {
    if let Some(last) = story.note(story.row(tag).wait) {
        add_all_partners(alloc, found, story, tag, last.wait());
    }
}

/// The most coroutines of a circle that is looked for.
const LONGEST: usize = 16;

/// Adds the circle of waits in which a coroutine is the first, and says whether there is one: each waits for the next, and the last for
/// the first. Of those who could end a wait the first that waits is looked at alone.
pub(crate) fn find_circle(
    alloc: Global,
    circle: &mut Gathered<u32>,
    story: &Story<'_>,
    tag: u32,
) -> bool {
    let mut here = tag;
    for _step in 0..LONGEST {
        circle.add(here);
        let mut partners = Gathered::new(alloc);
        find_partners(alloc, &mut partners, story, here);
        circle.full = circle.full | partners.full;
        let Some(next) = first_waiting(story, partners.as_slice()) else {
            return false;
        };
        if next <= tag {
            return next == tag;
        }
        here = next;
    }
    false
}

/// The first of these that waits.
fn first_waiting(story: &Story<'_>, tags: &[u32]) -> Option<u32> {
    for tag in tags {
        if story.row(*tag).waits {
            return Some(*tag);
        }
    }
    None
}
