//! The symbol table.

ghost use Rattle.std.specs.Prelude.{◌≡◌, ◌∷◌, ◌++◌, [], None, OnOk, OnErr, length, slice_get};
ghost use Rattle.model.specs.Names.{number_in};
ghost use Rattle.symbols.specs.Entries.{entry_view};

use crate::Names;
use indexmap::IndexMap;
use std::alloc::{AllocError, Global};
use std::marker::Model;

/// Names with their numbers, in order of definition.
#[derive(Drop)]
pub struct Symbols {
    map: IndexMap<Vec<u8>, i32>,
}

impl Model for Symbols {
    ghost use Rattle.model.specs.Names.{Definitions};
    ghost use Rattle.symbols.specs.Entries.{definitions_of};

    ghost Value = { Definitions };

    ghost view = { λ s. definitions_of s.map.entries };
}

impl Names for Symbols {
    ghost use Rattle.model.specs.Names.{number_in};

    ghost number_of = { number_in };

    fn value(&self, name: &[u8]) -> Option<i32> {
        self.value_of(name)
    }
}

impl Symbols {
    /// Makes an empty table.
    pub fn new(alloc: Global) -> Symbols
        ensures { result ≡ [] }
    {
        Symbols {
            map: IndexMap::new(alloc),
        }
    }

    /// Returns how many names there are.
    pub fn count(&self) -> usize
        ensures { result ≡ length self.now }
    {
        self.map.len()
    }

    /// Returns a name and its number, by its index in the order of definition, counted from 0.
    pub fn symbol(&self, index: usize) -> Option<(&[u8], i32)>
        ensures { entry_view result ≡ slice_get self.now index }
    {
        let (name, number) = self.map.get_index(index)?;
        Some((name.as_slice(), *number))
    }

    /// Returns the number of a name.
    pub fn value_of(&self, name: &[u8]) -> Option<i32>
        ensures { result ≡ number_in self.now name.now }
    {
        self.map.get(name).copied()
    }

    /// Appends a name with its number.
    ///
    /// Errors: `AllocError` if an allocation fails; the table is then unchanged.
    pub fn define(&mut self, alloc: Global, name: &[u8], number: i32) -> Result<(), AllocError>
        requires { number_in self.old name.now ≡ None }
        ensures ok { OnOk result (self.new ≡ self.old ++ (name.now, number) ∷ []) }
        ensures err { OnErr result (self.new ≡ self.old) }
    {
        let key = Vec::from_slice(alloc, name)?;
        self.map.insert(key, number)?;
        Ok(())
    }
}
