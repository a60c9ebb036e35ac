//! The names of a source as a text.

ghost use Rattle.std.specs.Prelude.{◌≡◌, ◌++◌, IfOk, OnOk};
ghost use Rattle.word_asm.specs.Texts.{row_in, symbols_text, vice_row};

use crate::format::SymbolsFormat;
use formatting::digits_of_address;
use listing::push_name;
use std::alloc::{AllocError, Global};
use symbols::Symbols;

/// Appends a name's row for VICE, if its number is an address.
fn push_vice(out: &mut Vec<u8>, name: &[u8], number: i32) -> Result<(), AllocError>
    ensures { OnOk result (out.new.items ≡ out.old.items ++ vice_row (name.now, number)) }
{
    if number >= 0 && number < 65536 {
        out.extend_from_slice(b"al C:")?;
        out.extend_from_slice(&digits_of_address(number as u16))?;
        out.extend_from_slice(b" .")?;
        out.extend_from_slice(name)?;
        out.push(b'\n')?;
    }
    Ok(())
}

/// Appends a name's row in a format.
fn push_row(
    out: &mut Vec<u8>,
    format: SymbolsFormat,
    symbol: (&[u8], i32),
) -> Result<(), AllocError>
    ensures { OnOk result
        (out.new.items ≡ out.old.items ++ row_in format (symbol.entry.0.now, symbol.entry.1)) }
{
    let (name, number) = symbol;
    match format {
        SymbolsFormat::Plain => push_name(out, name, number),
        SymbolsFormat::Vice => push_vice(out, name, number),
    }
}

/// Returns the names of a source in a format, a row for each, in order of definition.
///
/// Errors: `AllocError` if an allocation fails. Source: mos65.
pub fn symbols_text(
    alloc: Global,
    format: SymbolsFormat,
    names: &Symbols,
) -> Result<Vec<u8>, AllocError>
    ensures { IfOk result (λ text. text.items ≡ symbols_text format names.now) }
{
    let mut out = Vec::new(alloc);
    for index in 0..names.count() {
        match names.symbol(index) {
            Some(symbol) => push_row(&mut out, format, symbol)?,
            None => {}
        }
    }
    Ok(out)
}
