//! A text that is put together from pieces.

ghost use Rattle.std.specs.Prelude.{◌≡◌, ◌++◌, [], false, IfOk, string_bytes};
ghost use Rattle.std.specs.Fmt.{decimal};
ghost use Rattle.run_report.specs.Gatherings.{Adds};

use std::alloc::{AllocError, Global};

/// A text that grows, and whether memory ran out as it did: what is added is heard of at its end alone.
#[derive(Drop)]
pub(crate) struct Gathered {
    text: String,
    full: bool,
}

impl Gathered {
    /// An empty text, with memory for so many bytes.
    pub(crate) fn with_capacity(alloc: Global, bytes: usize) -> Result<Gathered, AllocError>
        ensures { IfOk result (λ new. string_bytes new.text ≡ []) }
    {
        let text = String::with_capacity(alloc, bytes)?;
        Ok(Gathered { text, full: false })
    }

    /// Adds a piece.
    pub(crate) fn add(&mut self, piece: &str)
        ensures { Adds self.old self.new piece.now }
    {
        match self.text.push_str(piece) {
            Ok(()) => (),
            Err(_) => self.full = true,
        }
    }

    /// Adds a piece, and then another.
    pub(crate) fn add_two(&mut self, first: &str, second: &str)
        ensures { Adds self.old self.new (first.now ++ second.now) }
    {
        self.add(first);
        self.add(second);
    }

    /// Adds a number.
    pub(crate) fn add_number(&mut self, number: u64)
        ensures { Adds self.old self.new (decimal number) }
    {
        match write!(self.text, "{number}") {
            Ok(()) => (),
            Err(_) => self.full = true,
        }
    }

    /// Adds a number that counts lines, rows or books.
    pub(crate) fn add_index(&mut self, number: usize)
        ensures { Adds self.old self.new (decimal number) }
    {
        match write!(self.text, "{number}") {
            Ok(()) => (),
            Err(_) => self.full = true,
        }
    }

    /// The text, if memory held all that was added.
    pub(crate) fn whole(self) -> Result<String, AllocError>
        ensures { IfOk result (λ text. (self.full ≡ false) × (string_bytes text ≡ string_bytes self.text)) }
    {
        let Gathered { text, full } = self;
        if full { Err(AllocError) } else { Ok(text) }
    }
}
