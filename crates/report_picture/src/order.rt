//! An order of the lines of the books.

use crate::causes::{Precedence, causes_of};
use crate::told::BookLines;
use gathered::{Gathered, NOWHERE, at, filled, put};
use std::alloc::{AllocError, Global};

/// That of no lines.
const NO_PRECEDENCE: Precedence = Precedence {
    above: NOWHERE,
    below: NOWHERE,
};

/// A line: how many of its causes are left, and the first of those in which it stands above.
#[derive(Clone, Copy)]
struct Links {
    left: u32,
    first: usize,
}

const NO_LINKS: Links = Links {
    left: 0,
    first: NOWHERE,
};

/// Links the causes, the last first: counts each of the line below, and makes it the first in which the other stands above.
fn link_all(lines: &mut Vec<Links>, causes: &[Precedence]) {
    let mut i = causes.len();
    for _ in 0..causes.len() {
        i = i.saturating_sub(1);
        let cause = at(causes, i, NO_PRECEDENCE);
        let above = at(lines.as_slice(), cause.above, NO_LINKS);
        put(lines, cause.above, Links { first: i, ..above });
        let below = at(lines.as_slice(), cause.below, NO_LINKS);
        let left = below.left.saturating_add(1);
        put(lines, cause.below, Links { left, ..below });
    }
}

/// Adds the lines that a line frees, which is taken.
fn free(order: &mut Gathered<usize>, lines: &mut Vec<Links>, causes: &[Precedence], line: usize) {
    let first = at(lines.as_slice(), line, NO_LINKS).first;
    for i in first..causes.len() {
        let cause = at(causes, i, NO_PRECEDENCE);
        if cause.above != line {
            break;
        }
        let below = at(lines.as_slice(), cause.below, NO_LINKS);
        let left = below.left.saturating_sub(1);
        put(lines, cause.below, Links { left, ..below });
        if left == 0 {
            order.add(cause.below);
        }
    }
}

/// Adds the lines that are free, and takes each when it is the first of those that wait for their turn; lets all go, if some are never
/// free.
fn take_all(order: &mut Gathered<usize>, lines: &mut Vec<Links>, causes: &[Precedence]) {
    for (line, links) in lines.as_slice().iter().enumerate() {
        if links.left == 0 {
            order.add(line);
        }
    }
    for taken in 0..lines.len() {
        let line = at(order.as_slice(), taken, NOWHERE);
        if line == NOWHERE {
            break;
        }
        free(order, lines, causes, line);
    }
    if order.len() != lines.len() {
        order.clear();
    }
}

/// The lines of the books from the top down, in an order that their causes allow; none, if there is no such order of all of them. A line
/// that is free is taken when it is the first of those that wait for their turn, and what it frees comes behind them.
pub(crate) fn caused_order<'a>(
    alloc: Global,
    told: &BookLines<'a>,
) -> Result<Vec<usize>, AllocError> {
    let mut causes = causes_of(alloc, told);
    order_of(alloc, told.notes.len(), &mut causes)
}

/// So many lines in the order of these causes, which are sorted by the lines above.
fn order_of(
    alloc: Global,
    lines: usize,
    causes: &mut Gathered<Precedence>,
) -> Result<Vec<usize>, AllocError> {
    let sorted = causes.as_mut().sort_by_key(|cause| cause.above);
    let mut links = filled(alloc, NO_LINKS, lines)?;
    link_all(&mut links, causes.as_slice());
    let mut order = Gathered::new(alloc);
    take_all(&mut order, &mut links, causes.as_slice());
    order.full = order.full | causes.full | sorted.is_err();
    order.whole()
}
