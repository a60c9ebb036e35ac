//! The names of addresses.

ghost use Rattle.std.specs.Prelude.{◌≡◌, ◌<◌, ℕ, IfOk, length, slice_index};
ghost use Rattle.std.specs.Option.{option_copied};
ghost use Rattle.named_source.specs.Names.{IsTable, flagged_by, is_made, name_of, noted};

use assembler::Assembly;
use std::alloc::{AllocError, Global};

/// Which name each address has: the index of the name, counted from 1, or 0 where it has none.
fn no_names(alloc: Global) -> Result<Vec<u16>, AllocError>
    ensures size { IfOk result (λ table. length table.items ≡ 65536) }
    ensures none { IfOk result (λ table. (a : ℕ) → slice_index table.items a ≡ 0) }
{
    let mut table = Vec::with_capacity(alloc, 65536)?;
    for _ in 0..65536u32 {
        table.push(0)?;
    }
    Ok(table)
}

/// Whether a name has the form of a label that is made of an address.
fn is_made(name: &[u8]) -> bool
    ensures { result ≡ is_made name.now }
{
    match name {
        [b'L', b'_', _, _, _, _] => true,
        _ => false,
    }
}

/// Gives an address its name, if its number is an address that has no name yet.
fn note(table: &mut Vec<u16>, index: usize, name: &[u8], number: i32)
    requires { length table.old.items ≡ 65536 }
    ensures size { length table.new.items ≡ 65536 }
    ensures each { (a : ℕ) → a < 65536 → slice_index table.new.items a
        ≡ noted index (name.now, number) a (slice_index table.old.items a) }
{
    if number < 0 || number > 65535 || index > 65534 || is_made(name) {
        return;
    }
    if table[number as usize] == 0 {
        table[number as usize] = index as u16 + 1;
    }
}

/// Returns which name each address has: the first that is defined with that number, but none of the
/// form `L_HHHH`. The only error is that a request for memory was refused.
pub fn table_of(alloc: Global, names: &Assembly) -> Result<Vec<u16>, AllocError>
    ensures { IfOk result (λ table. IsTable names.now.names table.items) }
{
    let mut table = no_names(alloc)?;
    for index in 0..names.symbol_count() {
        if let Some((name, number)) = names.symbol(index) {
            note(&mut table, index, name, number);
        }
    }
    Ok(table)
}

/// Returns the name of an address, if it has one, by the table of the names.
#[tactic(auto, using(crate::proofs::Lookups::no_name))]
pub fn name_of<'a>(names: &'a Assembly, table: &[u16], address: u16) -> Option<&'a [u8]>
    requires { IsTable names.now.names table.now }
    ensures { option_copied result ≡ name_of names.now.names address }
{
    let index = *table.get(address as usize)?;
    if index == 0 {
        return None;
    }
    let (name, _) = names.symbol(index as usize - 1)?;
    Some(name)
}

/// Flags the addresses that have names.
pub fn flag_named(flags: &mut Vec<bool>, table: &[u16])
    requires { length flags.old.items ≡ 65536 }
    ensures { flags.new.items ≡ flagged_by table.now flags.old.items }
{
    for (address, index) in table.iter().enumerate() {
        if *index > 0 && address < flags.len() {
            flags[address] = true;
        }
    }
}
