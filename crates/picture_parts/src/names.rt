//! What coroutines are called, and what a reader is shown that points at a mark.

ghost use Rattle.std.specs.Prelude.{◌≡◌, [], IfOk, map};
ghost use Rattle.picture_parts.specs.Names.{heading, name_of};

use gathered::Text;
use std::alloc::{AllocError, Global};

/// What a script says of its coroutines and of the lines of a report; without a script, nothing.
#[derive(Clone, Copy)]
pub struct Names<'a> {
    /// Of each coroutine, in the order of the tags, the name of its block.
    pub blocks: &'a [Vec<u8>],
    /// Of each line of the books, in the order of the report, the line of the script that it comes from; empty where that is not known.
    pub sources: &'a [Vec<u8>],
}

impl<'a> Names<'a> {
    /// Those without a script.
    pub fn none() -> Names<'a>
        ensures { map (λ n. n.items) result.blocks.now ≡ [] }
    {
        Names {
            blocks: &[],
            sources: &[],
        }
    }

    /// The line of the script that a line of the books comes from, by the number of that among the lines of the books.
    pub fn source_at(self, number: usize) -> &'a [u8] {
        match self.sources.get(number) {
            Some(source) => source.as_slice(),
            None => b"",
        }
    }
}

/// The name of a coroutine among these, in the order of the tags; `coroutine`, if it has none.
pub fn name_of(names: &[Vec<u8>], tag: u32) -> &[u8]
    ensures { result.now ≡ name_of (map (λ n. n.items) names.now) tag }
{
    match names.get(tag as usize) {
        Some(name) => name.as_slice(),
        None => b"coroutine",
    }
}

/// A coroutine, as `worker 3`: its name and its tag. One that has no name is `coroutine 3`.
pub fn heading(alloc: Global, names: &[Vec<u8>], tag: u32) -> Result<Vec<u8>, AllocError>
    ensures { IfOk result (λ text. text.items ≡ heading (map (λ n. n.items) names.now) tag) }
{
    let mut text = Text::new(alloc);
    text.add(name_of(names, tag));
    text.add(b" ");
    text.add_number(tag as u64);
    text.whole()
}
