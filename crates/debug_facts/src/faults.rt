//! The first fault of debug information as text.

ghost use Rattle.std.specs.Prelude.{◌≡◌, ◌++◌, IfOk, OnOk, string_bytes};
ghost use Rattle.arguments.specs.FaultLines.{number_part};
ghost use Rattle.debug_facts.specs.Rows.{fault_text};
ghost use Rattle.debug_files.specs.Told.{place_of};

use arguments::{LoadFault, shown_name};
use debug_files::load_fault;
use debug_records::{DebugError, DebugFault};
use std::alloc::{AllocError, Global};

/// Appends where a fault is.
#[tactic(auto, unfolding(debug_files::specs::Told::place_of))]
fn push_place(words: &mut String, fault: DebugFault) -> Result<(), AllocError>
    ensures { OnOk result (string_bytes words.new ≡ string_bytes words.old ++ place_of fault) }
{
    let (line, column) = (fault.line, fault.column);
    write!(words, "DEBUG line {line} column {column} ")
}

/// Appends the number of a fault, if it has one.
#[tactic(auto, unfolding(arguments::specs::FaultLines::number_part))]
fn push_number(words: &mut String, number: Option<u8>) -> Result<(), AllocError>
    ensures { OnOk result
        (string_bytes words.new ≡ string_bytes words.old ++ number_part number) }
{
    match number {
        None => Ok(()),
        Some(number) => write!(words, " {number}"),
    }
}

/// Returns the first fault of debug information: where it is, its name and number, and what it
/// means.
///
/// Errors: `AllocError` if an allocation fails.
#[tactic(auto, unfolding(crate::specs::Rows::fault_text))]
pub fn fault_text(alloc: Global, file: &str, fault: DebugFault) -> Result<String, AllocError>
    ensures { IfOk result (λ words. string_bytes words ≡ fault_text file.now fault) }
{
    let LoadFault::NoImage {
        place: _,
        what,
        number,
        note,
    } = load_fault(DebugError::Fault(fault))
    else {
        return Err(AllocError);
    };
    let mut words = shown_name(alloc, file)?;
    words.push_str(": ")?;
    push_place(&mut words, fault)?;
    words.push_str(what)?;
    push_number(&mut words, number)?;
    words.push_str(note)?;
    words.push_str("\n")?;
    Ok(words)
}
