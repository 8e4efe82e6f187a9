//! A text that remembers that memory ran out.

ghost use Rattle.std.specs.Prelude.{◌≡◌, ◌⊎◌, ◌++◌, [], true, false, IfOk, OnErr};
ghost use Rattle.std.specs.Fmt.{decimal};
ghost use Rattle.gathered.specs.Texts.{Adds, IsMissing};

use std::alloc::{AllocError, Global};

/// A text, and whether memory ran out as it grew. A call that adds answers nothing; who has added asks at the end.
#[derive(Drop)]
pub struct Text {
    alloc: Global,
    bytes: Vec<u8>,
    /// Whether a piece is missing.
    full: bool,
}

impl Text {
    /// An empty text.
    pub fn new(alloc: Global) -> Text
        ensures bytes { result.bytes.items ≡ [] }
        ensures whole { result.full ≡ false }
    {
        Text {
            alloc,
            bytes: Vec::new(alloc),
            full: false,
        }
    }

    /// Adds a piece. If there is no memory it is missing.
    pub fn add(&mut self, piece: &[u8])
        ensures added { Adds self.old self.new piece.now }
        ensures or_missing { (self.new.bytes.items ≡ self.old.bytes.items ++ piece.now) ⊎ IsMissing self.old self.new }
    {
        if self.bytes.extend_from_slice(piece).is_err() {
            self.full = true;
        }
    }

    /// Adds a number in decimal. If there is no memory it is missing.
    pub fn add_number(&mut self, number: u64)
        ensures added { Adds self.old self.new (decimal number) }
        ensures or_missing { (self.new.bytes.items ≡ self.old.bytes.items ++ decimal number) ⊎ IsMissing self.old self.new }
    {
        match format!(in self.alloc; "{number}") {
            Ok(digits) => self.add(digits.as_bytes()),
            Err(_) => self.full = true,
        }
    }

    /// Adds a piece, and then a number in decimal.
    pub fn add_numbered(&mut self, piece: &[u8], number: u64)
        ensures { Adds self.old self.new (piece.now ++ decimal number) }
    {
        self.add(piece);
        self.add_number(number);
    }

    /// The text, if memory held all that was added.
    pub fn whole(self) -> Result<Vec<u8>, AllocError>
        ensures bytes { IfOk result (λ bytes. bytes.items ≡ self.bytes.items) }
        ensures whole { IfOk result (λ _. self.full ≡ false) }
        ensures missing { OnErr result (self.full ≡ true) }
    {
        let Text { bytes, full, .. } = self;
        if full { Err(AllocError) } else { Ok(bytes) }
    }
}
