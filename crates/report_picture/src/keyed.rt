//! Numbers for keys.

use gathered::NOWHERE;
use std::alloc::Global;
use std::collections::HashMap;

/// What is said, and of what: a row, or a channel and a place, or a wait in that of a place.
pub(crate) type Key<'a> = (usize, u32, &'a [u8], &'a [u8]);

/// A number for each of some keys, and whether memory ran out as they were told.
#[derive(Drop)]
pub(crate) struct Numbers<'a> {
    numbers: HashMap<Key<'a>, usize>,
    pub(crate) full: bool,
}

impl<'a> Numbers<'a> {
    pub(crate) fn new(alloc: Global) -> Numbers<'a> {
        Numbers {
            numbers: HashMap::new(alloc),
            full: false,
        }
    }

    /// The number of a key; that of nowhere, if it has none.
    pub(crate) fn at(&self, key: Key<'a>) -> usize {
        match self.numbers.get(&key) {
            Some(number) => *number,
            None => NOWHERE,
        }
    }

    pub(crate) fn put(&mut self, key: Key<'a>, number: usize) {
        if self.numbers.insert(key, number).is_err() {
            self.full = true;
        }
    }
}
