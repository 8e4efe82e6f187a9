//! Items that are found by their names.

ghost use Rattle.std.proofs.Props.{props};
ghost use Rattle.std.specs.Prelude.{◌≡◌, ◌<◌, ◌++◌, ◌∷◌, [], ℕ, List, length, map, OnOk, None};
ghost use Rattle.script_grammar.specs.Places.{place_from};
ghost use Rattle.script_reader.specs.Names.{IsIndexOf};

use std::alloc::{AllocError, Global};
use std::collections::BTreeMap;

/// What has a name.
pub(crate) trait Named {
    ghost name_of: { Self → List ℕ };

    fn name(&self) -> &str
        ensures { result.now ≡ name_of self.now };
}

/// Items in their order, each of which is found by its name in a time that grows with the logarithm of their number.
#[derive(Drop)]
pub(crate) struct Indexed<T: Named> {
    pub(crate) items: Vec<T>,
    pub(crate) index: BTreeMap<String, u16>,
    pub(crate) ghost indexed: { IsIndexOf index (map T.name_of items.items) } by { Prim.hlevel props },
}

impl<T: Named + Drop> Indexed<T> {
    pub(crate) fn new(alloc: Global) -> Indexed<T>
        ensures { result.items.items ≡ [] }
    {
        Indexed {
            items: Vec::new(alloc),
            index: BTreeMap::new(alloc),
        }
    }

    /// The place of the item of this name.
    pub(crate) fn place(&self, name: &str) -> Option<u16>
        ensures { result ≡ place_from 0 name.now (map T.name_of self.now.items.items) }
    {
        self.index.get(name).copied()
    }

    /// Adds an item of a new name.
    pub(crate) fn push(&mut self, alloc: Global, item: T) -> Result<(), AllocError>
        requires fresh { place_from 0 (T.name_of item) (map T.name_of self.old.items.items) ≡ None }
        requires few { length self.old.items.items < 65536 }
        ensures { OnOk result (self.new.items.items ≡ self.old.items.items ++ item ∷ []) }
    {
        let place = self.items.len() as u16;
        let name = String::from_str(alloc, item.name())?;
        self.items.reserve(1)?;
        self.index.insert(name, place)?;
        self.items.push(item)?;
        Ok(())
    }
}
