//! Addresses in the order in which they were set.

ghost use Rattle.std.specs.Prelude.{◌≡◌, ◌≢◌, ◌<◌, ◌≤◌, [], ◌∷◌, ◌++◌, length, nat_eq, slice_get};
ghost use Rattle.std.specs.Prelude.{slice_index, ℕ, false, true, OnOk, OnErr, IfErr, IfOk, IsErrOf};
ghost use Rattle.std.specs.Prelude.{IsOk, Ok, Err};
ghost use Rattle.std.specs.List.{list_any};
ghost use Rattle.model.specs.Breakpoints.{table_with, table_without};

use indexmap::IndexSet;
use model::SessionFault;
use std::alloc::{AllocError, Global};
use std::marker::Model;

/// The most addresses in a table.
const TABLE_SIZE: usize = 256;

/// A table of addresses.
#[derive(Drop)]
pub struct AddressTable {
    set: IndexSet<u16>,
    /// A byte for each address, which is 0 where the address is not in the table.
    map: Vec<u8>,
}

impl Model for AddressTable {
    ghost use Rattle.std.specs.Prelude.{List, ℕ, length, ◌≡◌, ◌≤◌, nat_eq, slice_index, false};
    ghost use Rattle.std.specs.List.{list_any};

    ghost Value = { List ℕ };

    ghost view = { λ m. m.set.keys };

    ghost invariant = { λ m. (length m.set.keys ≤ 256) × (length m.map.items ≡ 65536)
        × ((k : ℕ) → slice_index m.map.items k ≡ 0 → list_any (nat_eq k) m.set.keys ≡ false) };
}

impl AddressTable {
    /// Makes a table with no addresses.
    ///
    /// Errors: `OutOfMemory` if an allocation fails.
    pub fn new(alloc: Global) -> Result<AddressTable, SessionFault>
        ensures ok { IfOk result (λ marks. marks ≡ []) }
        ensures only { IfErr result (λ fault. fault ≡ SessionFault.OutOfMemory) }
    {
        match zeros(alloc) {
            Ok(map) => Ok(AddressTable {
                set: IndexSet::new(alloc),
                map,
            }),
            Err(_) => Err(SessionFault::OutOfMemory),
        }
    }

    /// Returns how many addresses there are.
    #[inline(always)]
    pub fn len(&self) -> u32
        ensures { result ≡ length self.now }
    {
        self.set.len() as u32
    }

    /// Returns the address at an index, counted from 0.
    pub fn at(&self, index: u32) -> Option<u16>
        ensures { result ≡ slice_get self.now index }
    {
        self.set.get_index(index as usize).copied()
    }

    /// Returns whether an address is in the table.
    #[inline(always)]
    pub fn contains(&self, address: u16) -> bool
        ensures { result ≡ list_any (nat_eq address) self.now }
    {
        if self.map[address as usize] == 0 {
            return false;
        }
        self.set.contains(&address)
    }

    /// Returns a byte for each address, which is 0 only if the address is not in the table.
    #[inline(always)]
    pub fn map(&self) -> &[u8]
        ensures size { length result.now ≡ 65536 }
        ensures none { (k : ℕ) → slice_index result.now k ≡ 0
            → list_any (nat_eq k) self.now ≡ false }
    {
        self.map.as_slice()
    }

    /// Appends an address.
    ///
    /// Errors, in this order: `AlreadySet` if it is set; `TableFull` if 256 are; `OutOfMemory` if
    /// an allocation fails. Nothing changes.
    #[tactic(auto, unfolding(model::specs::Breakpoints::table_with))]
    pub fn set(&mut self, address: u16) -> Result<(), SessionFault>
        ensures ok { OnOk result (table_with self.old address ≡ Ok self.new) }
        ensures err { IfErr result (λ fault. (self.new ≡ self.old)
            × (fault ≢ SessionFault.OutOfMemory → table_with self.old address ≡ Err fault)) }
        ensures memory { IsErrOf result SessionFault.OutOfMemory
            → IsOk (table_with self.old address) }
    {
        if self.contains(address) {
            return Err(SessionFault::AlreadySet);
        }
        if self.set.len() >= TABLE_SIZE {
            return Err(SessionFault::TableFull);
        }
        if self.set.insert(address).is_err() {
            return Err(SessionFault::OutOfMemory);
        }
        self.map[address as usize] = 1;
        Ok(())
    }

    /// Takes an address out; the others keep their order.
    ///
    /// Errors: `NotSet` if it is not set; nothing changes.
    #[tactic(auto, unfolding(model::specs::Breakpoints::table_without))]
    pub fn clear(&mut self, address: u16) -> Result<(), SessionFault>
        ensures ok { OnOk result (table_without self.old address ≡ Ok self.new) }
        ensures err { IfErr result
            (λ fault. (table_without self.old address ≡ Err fault) × (self.new ≡ self.old)) }
    {
        if self.set.shift_remove(&address) {
            if !self.set.contains(&address) {
                self.map[address as usize] = 0;
            }
            Ok(())
        } else {
            Err(SessionFault::NotSet)
        }
    }
}

/// Makes a byte of 0 for each address.
fn zeros(alloc: Global) -> Result<Vec<u8>, AllocError>
    ensures len { IfOk result (λ map. length map.items ≡ 65536) }
{
    vec![in alloc; 0u8; 65536]
}
