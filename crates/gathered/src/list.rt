//! A list that remembers that memory ran out.
ghost use Rattle.std.specs.Prelude.{◌≡◌, ◌<◌, ◌↔◌, ◌⊎◌, ◌∷◌, ◌++◌, [], true, false, not, take, length, option_to_list, IsSome, IfOk, OnErr};

use std::alloc::{AllocError, Global};

/// A list, and whether memory ran out as it grew. A call that adds answers nothing; who has added asks at the end.
#[derive(Drop)]
pub struct Gathered<T: Drop> {
    list: Vec<T>,
    /// Whether an item is missing.
    pub full: bool,
}

impl<T: Drop> Gathered<T> {
    /// No items.
    pub fn new(alloc: Global) -> Gathered<T>
        ensures list { result.list.items ≡ [] }
        ensures whole { result.full ≡ false }
    {
        Gathered {
            list: Vec::new(alloc),
            full: false,
        }
    }

    /// Adds an item. If there is no memory it is let go, and is missing.
    pub fn add(&mut self, value: T)
        ensures added { self.new.full ≡ false → (self.old.full ≡ false) × (self.new.list.items ≡ self.old.list.items ++ value ∷ []) }
        ensures or_missing { (self.new.list.items ≡ self.old.list.items ++ value ∷ [])
            ⊎ ((self.new.full ≡ true) × (self.new.list.items ≡ self.old.list.items)) }
    {
        if self.list.push(value).is_err() {
            self.full = true;
        }
    }

    /// The items, as far as memory held them.
    pub fn as_slice(&self) -> &[T]
        ensures { result.now ≡ self.now.list.items }
    {
        self.list.as_slice()
    }

    /// The same, to be changed.
    pub fn as_mut(&mut self) -> &mut Vec<T>
        ensures { result.now.items ≡ self.old.list.items }
    {
        &mut self.list
    }

    /// How many items there are.
    pub fn len(&self) -> usize
        ensures { result ≡ length self.now.list.items }
    {
        self.list.len()
    }

    /// Takes the last item out.
    pub fn pop(&mut self) -> Option<T>
        ensures list { self.old.list.items ≡ self.new.list.items ++ option_to_list result }
        ensures variant { IsSome result ↔ (0 < length self.old.list.items) }
        ensures full { self.new.full ≡ self.old.full }
    {
        self.list.pop()
    }

    /// Lets all items go. One that was missing is missing still.
    pub fn clear(&mut self)
        ensures list { self.new.list.items ≡ [] }
        ensures full { self.new.full ≡ self.old.full }
    {
        self.list.clear();
    }

    /// Lets the items behind the first `count` go.
    pub fn truncate(&mut self, count: usize)
        ensures list { self.new.list.items ≡ take count self.old.list.items }
        ensures full { self.new.full ≡ self.old.full }
    {
        self.list.truncate(count);
    }

    /// Whether memory held all that was added.
    pub fn is_whole(&self) -> bool
        ensures { result ≡ not self.now.full }
    {
        !self.full
    }

    /// The list, if memory held all that was added.
    pub fn whole(self) -> Result<Vec<T>, AllocError>
        ensures list { IfOk result (λ list. list.items ≡ self.list.items) }
        ensures whole { IfOk result (λ _. self.full ≡ false) }
        ensures missing { OnErr result (self.full ≡ true) }
    {
        let Gathered { list, full } = self;
        if full { Err(AllocError) } else { Ok(list) }
    }
}

impl<T: Copy + Drop> Gathered<T> {
    /// Adds items.
    pub fn add_all(&mut self, values: &[T])
        ensures added { self.new.full ≡ false → (self.old.full ≡ false) × (self.new.list.items ≡ self.old.list.items ++ values.now) }
        ensures or_missing { (self.new.list.items ≡ self.old.list.items ++ values.now)
            ⊎ ((self.new.full ≡ true) × (self.new.list.items ≡ self.old.list.items)) }
    {
        if self.list.extend_from_slice(values).is_err() {
            self.full = true;
        }
    }
}
