ghost use Rattle.std.specs.Prelude.{◌≡◌, ◌<◌, ◌^◌, ◌++◌, ◌∷◌, [], not, length, IfOk, OnOk, position, bytes_eq, if◌then◌else◌};
ghost use Rattle.std.specs.List.{list_any};

use ib_base::Text;
use indexmap::IndexSet;
use sqlite_items::Items;
use std::alloc::{AllocError, Global};
use std::marker::Model;

/// The names of the variables that were declared, in order.
#[derive(Drop)]
pub struct Names<'a> {
    names: IndexSet<&'a [u8]>,
}

impl<'a> Model for Names<'a> {
    ghost use Rattle.std.specs.Prelude.{List, ℕ, map, ◌<◌, ◌^◌};
    ghost use Rattle.std.specs.HashSet.{hash_set_len};

    ghost Value = { List (List ℕ) };

    ghost view = { λ n. map (λ name. name.now) n.names.keys };

    ghost invariant = { λ n. hash_set_len n.names < 2 ^ 32 };
}

impl<'a> Names<'a> {
    pub fn new(alloc: Global) -> Names<'a>
        ensures { result ≡ [] }
    {
        Names {
            names: IndexSet::new(alloc),
        }
    }

    /// The number of a name.
    pub fn find(&self, name: &[u8]) -> Option<u32>
        ensures { result ≡ position (bytes_eq name.now) self.now }
    {
        match self.names.get_index_of(&name) {
            Some(index) => Some(index as u32),
            None => None,
        }
    }

    /// Adds a name, unless it is there, and says whether it was added.
    pub fn add(&mut self, name: &'a [u8]) -> Result<bool, AllocError>
        ensures added { IfOk result (λ added. added ≡ not (list_any (bytes_eq name.now) self.old)) }
        ensures names { OnOk result (self.new ≡ (if list_any (bytes_eq name.now) self.old then self.old else self.old ++ name.now ∷ [])) }
    {
        if u32::MAX as usize <= self.names.len() {
            return Err(AllocError);
        }
        let (_, added) = self.names.insert_full(name)?;
        Ok(added)
    }

    pub fn to_items(&self, alloc: Global) -> Result<Items<Text>, AllocError>
        ensures { IfOk result (λ items. items ≡ self.now) }
    {
        let names = self.names.as_slice();
        let mut items = Items::new(alloc);
        for name in names {
            items.push(Text::from_bytes(alloc, *name)?)?;
        }
        Ok(items)
    }
}
