//! The names that debug information gives addresses.

ghost use Rattle.std.specs.Prelude.{◌≡◌, IfOk, None, OnOk, map, option_map};
ghost use Rattle.std.specs.List.{list_all};
ghost use Rattle.debug_records.specs.Views.{symbol_view};
ghost use Rattle.model.specs.Names.{number_in};
ghost use Rattle.names_files.specs.ImageNames.{is_name_byte};
ghost use Rattle.names_files.specs.NamesFile.{addressed_name};
ghost use Rattle.source_map.specs.DebugNames.{debug_names, is_typed, naming_view, no_name};
ghost use Rattle.source_map.specs.DebugNames.{with_name, with_other, with_symbol, with_text};
ghost use Rattle.source_map.specs.DebugNames.{with_value};

use crate::names::Names;
use debug_records::Symbol;
use formatting::push_address;
use memory_map::Image;
use std::alloc::{AllocError, Global};
use symbols::Symbols;

/// Names so far, and the address of each text that was given.
#[derive(Drop)]
pub struct Naming {
    pub names: Names,
    pub given: Symbols,
}

/// Returns what names there are before the first symbol.
fn no_name(alloc: Global) -> Naming
    ensures { naming_view result ≡ no_name }
{
    Naming {
        names: Names::new(alloc),
        given: Symbols::new(alloc),
    }
}

/// Returns whether a byte is a letter, a digit, or one of `_ @ . :`.
fn is_name_byte(byte: u8) -> bool
    ensures { result ≡ is_name_byte byte }
{
    matches!(byte, b'A'..=b'Z' | b'a'..=b'z' | b'0'..=b'9' | b'_' | b'@' | b'.' | b':')
}

/// Returns whether a name has such bytes alone.
fn are_name_bytes(name: &[u8]) -> bool
    ensures { result ≡ list_all is_name_byte name.now }
{
    name.iter().all(|byte| is_name_byte(*byte))
}

/// Returns whether a name can be typed.
fn is_typed(name: &[u8]) -> bool
    ensures { result ≡ is_typed name.now }
{
    0 < name.len() && name.len() < 64 && are_name_bytes(name)
}

/// Makes a text the name of an address.
fn push_name(
    alloc: Global,
    naming: &mut Naming,
    image: &Image,
    is_label: bool,
    address: u16,
    text: &[u8],
) -> Result<(), AllocError>
    requires { number_in naming.old.given text.now ≡ None }
    ensures { OnOk result (naming_view naming.new
        ≡ with_name image.now is_label address text.now (naming_view naming.old)) }
{
    let has_byte = image.get(address).is_some();
    naming.names.push(alloc, text, address, is_label, has_byte)?;
    naming.given.define(alloc, text, address as i32)?;
    Ok(())
}

/// Makes a text the name of an address, unless it was given before.
fn push_other(
    alloc: Global,
    naming: &mut Naming,
    image: &Image,
    is_label: bool,
    address: u16,
    text: &[u8],
) -> Result<(), AllocError>
    ensures { OnOk result (naming_view naming.new
        ≡ with_other image.now is_label address text.now (naming_view naming.old)) }
{
    match naming.given.value_of(text) {
        None => push_name(alloc, naming, image, is_label, address, text),
        Some(_) => Ok(()),
    }
}

/// Returns a name with an address behind it, as `loop:E150`.
fn addressed_name(alloc: Global, name: &[u8], address: u16) -> Result<Vec<u8>, AllocError>
    ensures { IfOk result (λ text. text.items ≡ addressed_name name.now address) }
{
    let mut text = Vec::new(alloc);
    text.extend_from_slice(name)?;
    text.push(b':')?;
    push_address(&mut text, address)?;
    Ok(text)
}

/// Makes a text the name of an address: with the address behind it, if the text was given for
/// another one before.
fn push_text(
    alloc: Global,
    naming: &mut Naming,
    image: &Image,
    is_label: bool,
    address: u16,
    text: &[u8],
) -> Result<(), AllocError>
    ensures { OnOk result (naming_view naming.new
        ≡ with_text image.now is_label address text.now (naming_view naming.old)) }
{
    match naming.given.value_of(text) {
        None => push_name(alloc, naming, image, is_label, address, text),
        Some(old) => {
            if old == address as i32 {
                return Ok(());
            }
            let other = addressed_name(alloc, text, address)?;
            push_other(alloc, naming, image, is_label, address, other.as_slice())
        }
    }
}

/// Appends the name of a symbol of some value, if the value is an address.
fn push_value(
    alloc: Global,
    naming: &mut Naming,
    image: &Image,
    symbol: Symbol<'_>,
    value: Option<u32>,
) -> Result<(), AllocError>
    ensures { OnOk result (naming_view naming.new
        ≡ with_value image.now (symbol_view symbol.entry) value (naming_view naming.old)) }
{
    match value {
        None => Ok(()),
        Some(value) => {
            if value <= 65535 && is_typed(symbol.name) {
                push_text(
                    alloc,
                    naming,
                    image,
                    symbol.is_label,
                    value as u16,
                    symbol.name,
                )
            } else {
                Ok(())
            }
        }
    }
}

/// Appends the name of a symbol, if there is one whose value is an address.
fn push_symbol(
    alloc: Global,
    naming: &mut Naming,
    image: &Image,
    symbol: Option<Symbol<'_>>,
) -> Result<(), AllocError>
    ensures { OnOk result (naming_view naming.new
        ≡ with_symbol image.now (option_map symbol_view symbol.entry) (naming_view naming.old)) }
{
    match symbol {
        None => Ok(()),
        Some(symbol) => push_value(alloc, naming, image, symbol, symbol.value),
    }
}

/// Returns the names that symbols give addresses, in the order of their numbers. The image has the
/// bytes of the program where it runs.
///
/// Errors: `AllocError` if an allocation fails.
pub fn debug_names(
    alloc: Global,
    image: &Image,
    symbols: &[Option<Symbol<'_>>],
) -> Result<Names, AllocError>
    ensures { IfOk result (λ names. names
        ≡ debug_names image.now (map (option_map symbol_view) symbols.now)) }
{
    let mut naming = no_name(alloc);
    for symbol in symbols {
        push_symbol(alloc, &mut naming, image, *symbol)?;
    }
    let Naming { names, given: _ } = naming;
    Ok(names)
}
