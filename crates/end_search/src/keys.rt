//! A state of a run as numbers.

use crate::losses::read_losses;
use crate::reads::reads_of;
use co_base::Memory;
use engine_one::Trial;
use gathered::{Gathered, at, between, put};
use note_book::Notes;
use script_reader::Script;
use std::alloc::Global;

/// What keys are made with.
#[derive(Drop)]
pub(crate) struct Keys {
    /// For each coroutine whether it reads what it received.
    reads: Gathered<bool>,
    /// Whether losses are told apart.
    losses: bool,
    /// What the last key was made of, from its start on, and the key.
    numbers: Gathered<u64>,
    start: usize,
    middle: Gathered<u64>,
    large: Gathered<u64>,
    words: Gathered<u64>,
}

impl Keys {
    pub(crate) fn new(alloc: Global, script: &Script, losses: bool) -> Keys {
        Keys {
            reads: reads_of(alloc, script),
            losses,
            numbers: Gathered::new(alloc),
            start: 0,
            middle: Gathered::new(alloc),
            large: Gathered::new(alloc),
            words: Gathered::new(alloc),
        }
    }

    /// Makes a key: words that tell how a run can go on, and what its ends tell of what happened before. Two runs with equal words have the
    /// same ends.
    ///
    /// They tell of the floors, where each coroutine is, and the losses, which nothing that comes later depends on: those are told apart
    /// where ends are told with them.
    pub(crate) fn make(&mut self, trial: &Trial<Notes>) -> Result<(), Memory> {
        self.begin();
        trial.push_key(self.reads.as_slice(), self.numbers.as_mut())?;
        if self.losses {
            read_losses(&mut self.large, trial, self.reads.len())?;
            self.numbers.add_all(self.large.as_slice());
        }
        self.pack();
        Ok(())
    }

    /// The key that was made last.
    pub(crate) fn last(&self) -> &[u64] {
        self.words.as_slice()
    }

    /// The numbers of the key that was made or read last.
    pub(crate) fn numbers(&self) -> &[u64] {
        between(self.numbers.as_slice(), self.start, self.numbers.len())
    }

    /// Begins another key.
    pub(crate) fn begin(&mut self) {
        self.numbers.clear();
        self.start = 0;
    }

    /// Adds numbers to the key that was begun.
    pub(crate) fn add(&mut self, numbers: &[u64]) {
        self.numbers.add_all(numbers);
    }

    /// Whether memory held all that was made and read.
    pub(crate) fn is_whole(&self) -> bool {
        let numbers = self.reads.is_whole() && self.numbers.is_whole();
        numbers && self.words.is_whole() && self.middle.is_whole() && self.large.is_whole()
    }

    /// Reads the numbers of a key.
    pub(crate) fn read(&mut self, key: &[u64]) {
        let count = (at(key, 0, 0) >> 32) as usize;
        let small = small_words(count);
        self.begin();
        self.start = 8;
        for word in between(key, 0, small) {
            add_halves(&mut self.numbers, *word);
        }
        self.numbers.truncate(count.saturating_add(8));
        put_middle(self.numbers.as_mut(), key, small);
    }

    /// Makes words of the numbers. The first half of a word tells how many there are. Eight small ones are in each half that follows;
    /// behind them are those that are not small, eight in each word, and behind these those that are large: of each that follows, what
    /// stands for it has a mark.
    pub(crate) fn pack(&mut self) {
        self.words.clear();
        self.middle.clear();
        self.large.clear();
        pack_small(self.numbers.as_slice(), &mut self.words, &mut self.middle);
        pack_middle(self.middle.as_slice(), &mut self.words, &mut self.large);
        self.words.add_all(self.large.as_slice());
    }
}

/// Adds words for these numbers, of which the first tells how many there are; those that are not small are added to these, too.
fn pack_small(numbers: &[u64], words: &mut Gathered<u64>, middle: &mut Gathered<u64>) {
    let mut word = numbers.len() as u64;
    let mut is_half = true;
    let mut rest = numbers;
    while let [a, b, c, d, e, f, g, h, more @ ..] = rest {
        word = word.wrapping_mul(4294967296) | eight_of(middle, [*a, *b, *c, *d, *e, *f, *g, *h]);
        if is_half {
            words.add(word);
            word = 0;
        }
        is_half = !is_half;
        rest = more;
    }
    let half = few_of(middle, rest);
    words.add(if is_half {
        word.wrapping_mul(4294967296) | half
    } else {
        half.wrapping_mul(4294967296)
    });
}

/// What stands for these numbers one by one: the first eight, or fewer.
fn few_of(middle: &mut Gathered<u64>, numbers: &[u64]) -> u64 {
    let mut half = 0u64;
    for place in 0..8usize {
        half = half.wrapping_mul(16) | small_of(middle, at(numbers, place, 0));
    }
    half
}

/// Adds words for numbers that are not small, of which these are; those that are large are added to these, too.
fn pack_middle(numbers: &[u64], words: &mut Gathered<u64>, large: &mut Gathered<u64>) {
    let mut start = 0usize;
    for _ in 0..numbers.len().div_ceil(8) {
        let mut word = 0u64;
        for place in 0..8usize {
            let number = at(numbers, start.saturating_add(place), 0);
            word = word.wrapping_mul(256) | byte_of(large, number);
        }
        words.add(word);
        start = start.saturating_add(8);
    }
}

/// What stands for a number that is not small: itself; if it is large, a mark, and it is added to those that are.
fn byte_of(large: &mut Gathered<u64>, number: u64) -> u64 {
    if number > 254 {
        large.add(number);
        255
    } else {
        number
    }
}

/// How many words there are for so many numbers, without those that are not small.
fn small_words(count: usize) -> usize {
    (count / 8).saturating_add(3) / 2
}

/// Adds what stands for numbers in a word, sixteen of them.
fn add_halves(numbers: &mut Gathered<u64>, word: u64) {
    let a = word >> 32;
    numbers.add_all(&[
        a >> 28,
        (a >> 24) & 15,
        (a >> 20) & 15,
        (a >> 16) & 15,
        (a >> 12) & 15,
        (a >> 8) & 15,
        (a >> 4) & 15,
        a & 15,
        (word >> 28) & 15,
        (word >> 24) & 15,
        (word >> 20) & 15,
        (word >> 16) & 15,
        (word >> 12) & 15,
        (word >> 8) & 15,
        (word >> 4) & 15,
        word & 15,
    ]);
}

/// Puts the numbers that are not small in place of their marks: their words begin there in a key.
fn put_middle(numbers: &mut Vec<u64>, key: &[u64], small: usize) {
    let mut large = small.saturating_add(marks_in(numbers.as_slice()).div_ceil(8));
    let mut place = 0usize;
    let mut word = 0u64;
    for i in 8..numbers.len() {
        if at(numbers.as_slice(), i, 0) != 15 {
            continue;
        }
        if place % 8 == 0 {
            word = at(key, small.saturating_add(place / 8), 0);
        }
        let mut number = word >> 56;
        word = word.wrapping_mul(256);
        place = place.saturating_add(1);
        if number == 255 {
            number = at(key, large, 0);
            large = large.saturating_add(1);
        }
        put(numbers, i, number);
    }
}

/// How many of the numbers behind the first eight are marks.
fn marks_in(numbers: &[u64]) -> usize {
    let mut count = 0usize;
    for number in between(numbers, 8, numbers.len()) {
        if *number == 15 {
            count = count.saturating_add(1);
        }
    }
    count
}

/// What stands for eight numbers: each that is small; of each other a mark, and it is added to those that are not small.
fn eight_of(middle: &mut Gathered<u64>, eight: [u64; 8]) -> u64 {
    let [a, b, c, d, e, f, g, h] = eight;
    if (a | b | c | d | e | f | g | h) < 15 {
        let front = (a << 12) | (b << 8) | (c << 4) | d;
        let back = (e << 12) | (f << 8) | (g << 4) | h;
        (front << 16) | back
    } else {
        few_of(middle, &eight)
    }
}

/// The same of one.
fn small_of(middle: &mut Gathered<u64>, number: u64) -> u64 {
    if number > 14 {
        middle.add(number);
        15
    } else {
        number
    }
}
