//! The arrows: of elements, of cancellations, and from what brought a line about.

use crate::keyed::Numbers;
use crate::looks::{Look, Shade};
use crate::notes::{ARROWS, LINKS, NO_LINKS, Note};
use crate::told::{BookLines, first_of};
use gathered::{Gathered, NOWHERE, at};
use std::alloc::Global;

/// An arrow from one line to another, by their numbers among the lines of the books.
#[derive(Clone, Copy)]
pub(crate) struct Arrow {
    pub(crate) from: usize,
    pub(crate) to: usize,
    pub(crate) look: Look,
}

/// The channels whose elements have arrows, in the order in which the report first tells of one, and the arrows of the lines. Whether
/// memory held all is asked of the arrows.
#[derive(Drop)]
pub(crate) struct Channels<'a> {
    pub(crate) names: Gathered<&'a [u8]>,
    pub(crate) arrows: Gathered<Arrow>,
    numbers: Numbers<'a>,
}

/// The looks of channels; the ninth looks like the first.
const SHADES: [Shade; 8] = [
    Shade::Blue,
    Shade::Green,
    Shade::Purple,
    Shade::Black,
    Shade::DashedBlue,
    Shade::DashedGreen,
    Shade::DashedPurple,
    Shade::DashedBlack,
];

/// How the arrows of the channel with this number look.
pub(crate) fn shade_of(number: usize) -> Shade {
    at(&SHADES, number % 8, Shade::Blue)
}

/// The arrow of no lines.
const NO_ARROW: Arrow = Arrow {
    from: NOWHERE,
    to: NOWHERE,
    look: Look::Joins,
};

/// The arrow that a line tells of, besides that of the element that it brought.
fn own_arrow<'a>(told: &BookLines<'a>, here: usize, note: &Note<'a>) -> Arrow {
    for (verb, from, to, look) in ARROWS.iter() {
        if *verb as usize == note.verb {
            return Arrow {
                from: told.find(*from, here),
                to: told.find(*to, here),
                look: *look,
            };
        }
    }
    NO_ARROW
}

impl<'a> Channels<'a> {
    /// The number of a channel, which it gets if it has none.
    fn number_of(&mut self, channel: &'a [u8]) -> usize {
        let key = (0, 0, channel, b"".as_slice());
        let known = self.numbers.at(key);
        let next = self.names.len();
        if known == NOWHERE {
            self.numbers.put(key, next);
            self.names.add(channel);
        }
        first_of(known, next)
    }

    /// Adds an arrow, if both its lines are there.
    fn add(&mut self, arrow: Arrow) {
        let Arrow { from, to, .. } = arrow;
        if (from != NOWHERE) & (to != NOWHERE) & (from != to) {
            self.arrows.add(arrow);
        }
    }

    /// Adds the arrows that the lines tell of: those of their verbs, and those of the elements that they brought.
    fn add_all(&mut self, told: &BookLines<'a>) {
        for (from, note) in told.notes.as_slice().iter().enumerate() {
            self.add(own_arrow(told, from, note));
            let (got, _, _, _) = at(&LINKS, note.verb, NO_LINKS);
            let to = told.find(got, from);
            if to != NOWHERE {
                let look = Look::Brings(shade_of(self.number_of(note.channel)));
                self.add(Arrow { from, to, look });
            }
        }
    }
}

/// The channels whose elements have arrows, and the arrows: of the elements, of the cancellations that lines saw, of what resolved the
/// waits that they placed or woke, and of the coroutines that they began.
pub(crate) fn channels_of<'a>(alloc: Global, told: &BookLines<'a>) -> Channels<'a> {
    let mut channels = Channels {
        names: Gathered::new(alloc),
        arrows: Gathered::new(alloc),
        numbers: Numbers::new(alloc),
    };
    channels.add_all(told);
    let is_missing = channels.names.full | channels.numbers.full;
    channels.arrows.full = channels.arrows.full | is_missing;
    channels
}
