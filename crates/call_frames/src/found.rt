//! What names and functions of a program say to `c_frames`.

ghost use Rattle.std.specs.Prelude.{◌≡◌, ◌++◌, IfOk, OnOk, map};
ghost use Rattle.std.specs.List.{flat_map};
ghost use Rattle.std.specs.Option.{option_copied, option_map};
ghost use Rattle.source_map.specs.Functions.{function_view, local_view};
ghost use Rattle.source_map.specs.Names.{named};
ghost use Rattle.call_frames.specs.Found.{address_if, addresses_named, are_all, auto_of, autos_of};
ghost use Rattle.call_frames.specs.Found.{begins_function, common, function_at, functions_in};
ghost use Rattle.call_frames.specs.Found.{has_byte, pointer_in, routine_by, routine_of};
ghost use Rattle.call_frames.specs.Found.{routines_in};

use c_frames::{Auto, Effect, Function, Routine, effect_named};
use source_map::{CFunction, CLocal, Name, Places};
use std::alloc::{AllocError, Global};

/// The address behind the last one at which a pointer can begin in the zero page.
const LAST: u16 = 255;

/// Appends a routine at an address, if it is known what it does.
fn push_routine(
    routines: &mut Vec<Routine>,
    address: u16,
    effect: Option<Effect>,
) -> Result<(), AllocError>
    ensures { OnOk result
        (routines.new.items ≡ routines.old.items ++ routine_by address effect) }
{
    if let Some(effect) = effect {
        routines.push(Routine { address, effect })?;
    }
    Ok(())
}

/// Returns whether one of some functions begins at an address.
fn begins_function(functions: &[CFunction], address: u16) -> bool
    ensures { result ≡ begins_function (map function_view functions.now) address }
{
    for function in functions {
        if function.start == address {
            return true;
        }
    }
    false
}

/// Appends the routine that has a name, if it is known what it does, and no function begins there.
fn push_named(
    routines: &mut Vec<Routine>,
    functions: &[CFunction],
    name: &Name,
) -> Result<(), AllocError>
    ensures { OnOk result (routines.new.items ≡ routines.old.items
        ++ routine_of (map function_view functions.now) (named name.now)) }
{
    if begins_function(functions, name.address) {
        return Ok(());
    }
    push_routine(routines, name.address, effect_named(name.text.as_slice()))
}

/// Returns the routines of cc65's runtime and library that some names have, but for those at which
/// one of some functions begins.
pub fn routines_in(
    alloc: Global,
    functions: &[CFunction],
    names: &[Name],
) -> Result<Vec<Routine>, AllocError>
    ensures { IfOk result (λ routines. routines.items
        ≡ routines_in (map function_view functions.now) (map named names.now)) }
{
    let mut routines = Vec::new(alloc);
    for name in names {
        push_named(&mut routines, functions, name)?;
    }
    Ok(routines)
}

/// Returns where some functions begin, and how many bytes they have.
pub fn functions_in(alloc: Global, functions: &[CFunction]) -> Result<Vec<Function>, AllocError>
    ensures { IfOk result
        (λ found. found.items ≡ functions_in (map function_view functions.now)) }
{
    let mut found = Vec::new(alloc);
    for function in functions {
        found.push(Function {
            start: function.start,
            size: function.size,
        })?;
    }
    Ok(found)
}

/// Returns a local as the rules for frames take it.
pub fn auto_of(local: &CLocal) -> Auto
    ensures { result ≡ auto_of (local_view local.now) }
{
    Auto {
        offset: local.offset,
        follows_register: local.follows_register,
    }
}

/// Returns some locals as the rules for frames take them.
///
/// Errors: `AllocError` if an allocation fails.
pub fn autos_of(alloc: Global, locals: &[CLocal]) -> Result<Vec<Auto>, AllocError>
    ensures { IfOk result (λ autos. autos.items ≡ autos_of (map local_view locals.now)) }
{
    let mut autos = Vec::new(alloc);
    for local in locals {
        autos.push(auto_of(local))?;
    }
    Ok(autos)
}

/// Appends the address of a name that has a text.
fn push_address(addresses: &mut Vec<u16>, name: &Name, text: &[u8]) -> Result<(), AllocError>
    ensures { OnOk result
        (addresses.new.items ≡ addresses.old.items ++ address_if text.now (named name.now)) }
{
    if name.text.as_slice() == text {
        addresses.push(name.address)?;
    }
    Ok(())
}

/// Returns the addresses of the names that have a text.
fn addresses_named(alloc: Global, names: &[Name], text: &[u8]) -> Result<Vec<u16>, AllocError>
    ensures { IfOk result
        (λ found. found.items ≡ addresses_named text.now (map named names.now)) }
{
    let mut found = Vec::new(alloc);
    for name in names {
        push_address(&mut found, name, text)?;
    }
    Ok(found)
}

/// Returns whether all of some addresses are one.
fn are_all(addresses: &[u16], address: u16) -> bool
    ensures { result ≡ are_all address addresses.now }
{
    for other in addresses {
        if *other != address {
            return false;
        }
    }
    true
}

/// Returns the address that some have in common, if two bytes of the zero page stand there.
fn common(addresses: &[u16]) -> Option<u8>
    ensures { result ≡ common addresses.now }
{
    match addresses {
        [] => None,
        [first, others @ ..] => {
            if *first < LAST && are_all(others, *first) {
                Some(*first as u8)
            } else {
                None
            }
        }
    }
}

/// Returns the address of the software stack pointer, if the names say it.
pub fn pointer_in(alloc: Global, names: &[Name]) -> Result<Option<u8>, AllocError>
    ensures { IfOk result (λ pointer. pointer ≡ pointer_in (map named names.now)) }
{
    let addresses = addresses_named(alloc, names, b"sp")?;
    if let Some(pointer) = common(addresses.as_slice()) {
        return Ok(Some(pointer));
    }
    let newer = addresses_named(alloc, names, b"c_sp")?;
    Ok(common(newer.as_slice()))
}

/// Returns whether a function has the byte at an address.
fn has_byte(address: u16, function: &CFunction) -> bool
    ensures { result ≡ has_byte address (function_view function.now) }
{
    function.start <= address && (address as u32) < function.start as u32 + function.size as u32
}

/// Returns the first function of C that has the byte at an address: that of a frame there.
pub fn function_at(places: &Places, address: u16) -> Option<&CFunction>
    ensures { option_map function_view (option_copied result)
        ≡ function_at places.now.functions address }
{
    for function in places.functions() {
        if has_byte(address, function) {
            return Some(function);
        }
    }
    None
}
