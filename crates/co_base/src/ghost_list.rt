//! Lists that contracts see.

ghost use Rattle.std.specs.Prelude.{◌≡◌, List, [], ◌∷◌, ◌++◌};
ghost use Rattle.std.specs.Borrow.{ftrue};

use std::marker::{Model, PhantomData};

/// A list that contracts see. It has no bytes, and nothing of it is kept when the program runs.
#[derive(Drop)]
pub struct GhostList<T> {
    kind: PhantomData<T>,
    pub ghost items: { List T },
}

impl<T> Model for GhostList<T> {
    ghost also_owns = { λ _. ftrue };
}

impl<T> GhostList<T> {
    /// No item.
    pub fn new() -> GhostList<T>
        ensures { result.items ≡ [] }
    {
        GhostList { kind: PhantomData }
    }

    /// The items, and then this one.
    pub fn with(_before: &GhostList<T>, _item: &T) -> GhostList<T>
        ensures { result.items ≡ _before.now.items ++ _item.now ∷ [] }
    {
        GhostList { kind: PhantomData }
    }

    /// Appends the item. Takes no memory.
    pub fn push(&mut self, item: &T)
        ensures { self.new.items ≡ self.old.items ++ item.now ∷ [] }
    {
        *self = GhostList::with(self, item);
    }
}

unsafe impl<T: Send> Send for GhostList<T> {}
