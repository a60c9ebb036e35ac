//! The opcodes, as a page has them: four letters each.

ghost use Rattle.std.specs.Prelude.{◌≡◌, ◌++◌, OnOk};
ghost use Rattle.page_writer.specs.Facts.{cell_of, mode_letter, opcode_cell, opcode_cells};
ghost use Rattle.page_writer.specs.Facts.{opcodes_fact};

use formatting::push_text;
use model::{Mode, Profile, Row};
use optable::{decode_in, letters_of};
use std::alloc::AllocError;

/// Returns the letter of a mode.
fn mode_letter(mode: Mode) -> u8
    ensures { result ≡ mode_letter mode }
{
    match mode {
        Mode::Imp => b'a',
        Mode::Acc => b'b',
        Mode::Imm => b'c',
        Mode::Zp => b'd',
        Mode::ZpX => b'e',
        Mode::ZpY => b'f',
        Mode::IndX => b'g',
        Mode::IndY => b'h',
        Mode::Rel => b'i',
        Mode::Abs => b'j',
        Mode::AbsX => b'k',
        Mode::AbsY => b'l',
        Mode::Ind => b'm',
        Mode::IndZ => b'n',
    }
}

/// Returns the letters of a row: its mnemonic and its mode, or dots where there is no row.
fn cell_of(row: Option<Row>) -> [u8; 4]
    ensures { result ≡ cell_of row }
{
    match row {
        None => *b"....",
        Some(row) => {
            let [first, second, third] = letters_of(row.mnemonic);
            [first, second, third, mode_letter(row.mode)]
        }
    }
}

/// Appends the letters of all opcodes.
fn push_cells(text: &mut Vec<u8>, profile: Profile) -> Result<(), AllocError>
    ensures { OnOk result (text.new.items ≡ text.old.items ++ opcode_cells profile 256) }
{
    for opcode in 0..256u32 {
        text.extend_from_slice(&cell_of(decode_in(profile, opcode as u8)))?;
    }
    Ok(())
}

/// Appends the fact that says what the opcodes are.
#[tactic(auto, unfolding(crate::specs::Facts::opcodes_fact))]
pub fn push_opcodes(text: &mut Vec<u8>, profile: Profile) -> Result<(), AllocError>
    ensures { OnOk result (text.new.items ≡ text.old.items ++ opcodes_fact profile) }
{
    push_text(text, "ops ")?;
    push_cells(text, profile)?;
    push_text(text, "\n")
}
