//! Help on an instruction: its forms, and the flags that it changes.

ghost use Rattle.std.specs.Prelude.{◌≡◌, ◌++◌, OnOk};
ghost use Rattle.std.specs.List.{flat_map};
ghost use Rattle.mon_dispatch.specs.Forms.{all_forms, changes_text, extra_text, form_by, form_row};
ghost use Rattle.mon_dispatch.specs.Forms.{forms_text, known_forms, len_text, no_forms};
ghost use Rattle.mon_dispatch.specs.Forms.{opcode_form, row_form};

use crate::wording::{BRANCH_CYCLES, BYTE, BYTES, CHANGES, CHANGES_NO_FLAG, CYCLES, PAGE_CYCLE};
use formatting::{push_blanks, push_byte, push_count, push_text};
use model::Flags;
use mon_session::wording::NO_INSTRUCTION;
use opcode_facts::{all_modes, changed_by, is_any, operand_form, push_flags};
use optable::{
    Mnemonic, Mode, Profile, Row, decode_in, encode_in, letters_of, mnemonic_in, operation,
};
use std::alloc::AllocError;

/// Appends how many bytes an instruction has.
fn push_len(text: &mut Vec<u8>, len: u8) -> Result<(), AllocError>
    ensures { OnOk result (text.new.items ≡ text.old.items ++ len_text len) }
{
    push_count(text, len as u64)?;
    push_text(text, if len == 1 { BYTE } else { BYTES })
}

/// Returns which cycles come on top.
fn extra(row: Row) -> &'static str
    ensures { result.now ≡ extra_text row }
{
    if row.mode == Mode::Rel {
        BRANCH_CYCLES
    } else if row.penalty {
        PAGE_CYCLE
    } else {
        ""
    }
}

/// Appends the row of a form: its opcode, how it is written, its bytes and its cycles.
#[tactic(auto, using(formatting::proofs::Padding::grown), unfolding(crate::specs::Forms::form_row))]
fn push_form(text: &mut Vec<u8>, opcode: u8, row: Row) -> Result<(), AllocError>
    ensures { OnOk result (text.new.items ≡ text.old.items ++ form_row opcode row) }
{
    let from = text.len();
    push_byte(text, opcode)?;
    push_text(text, "  ")?;
    text.extend_from_slice(&letters_of(row.mnemonic))?;
    push_text(text, operand_form(row.mode))?;
    push_blanks(text, from, 18)?;
    push_len(text, row.len)?;
    push_count(text, row.cycles as u64)?;
    push_text(text, CYCLES)?;
    push_text(text, extra(row))?;
    push_text(text, "\n")
}

/// Appends the row of an opcode, if it has one.
fn push_row(text: &mut Vec<u8>, opcode: u8, row: Option<Row>) -> Result<(), AllocError>
    ensures { OnOk result (text.new.items ≡ text.old.items ++ row_form opcode row) }
{
    match row {
        Some(row) => push_form(text, opcode, row),
        None => Ok(()),
    }
}

/// Appends the row of an opcode, if there is one.
fn push_opcode(text: &mut Vec<u8>, profile: Profile, opcode: Option<u8>) -> Result<(), AllocError>
    ensures { OnOk result (text.new.items ≡ text.old.items ++ opcode_form profile opcode) }
{
    match opcode {
        Some(opcode) => push_row(text, opcode, decode_in(profile, opcode)),
        None => Ok(()),
    }
}

/// Appends the form of a mnemonic in a mode, if there is one.
fn push_form_in(
    text: &mut Vec<u8>,
    profile: Profile,
    mnemonic: Mnemonic,
    mode: Mode,
) -> Result<(), AllocError>
    ensures { OnOk result (text.new.items ≡ text.old.items ++ form_by profile mnemonic mode) }
{
    push_opcode(text, profile, encode_in(profile, mnemonic, mode))
}

/// Appends the forms of a mnemonic in some modes.
fn push_forms_in(
    text: &mut Vec<u8>,
    profile: Profile,
    mnemonic: Mnemonic,
    modes: &[Mode],
) -> Result<(), AllocError>
    ensures { OnOk result (text.new.items ≡ text.old.items
        ++ flat_map (form_by profile mnemonic) modes.now) }
{
    for mode in modes {
        push_form_in(text, profile, mnemonic, *mode)?;
    }
    Ok(())
}

/// Appends which flags are changed.
fn push_changes(text: &mut Vec<u8>, changed: Flags) -> Result<(), AllocError>
    ensures { OnOk result (text.new.items ≡ text.old.items ++ changes_text changed) }
{
    if is_any(changed) {
        push_text(text, CHANGES)?;
        push_flags(text, changed)
    } else {
        push_text(text, CHANGES_NO_FLAG)
    }
}

/// Appends what an instruction changes, and a row for each of its forms in a profile.
#[tactic(auto, unfolding(crate::specs::Forms::all_forms))]
fn push_all_forms(
    text: &mut Vec<u8>,
    profile: Profile,
    mnemonic: Mnemonic,
) -> Result<(), AllocError>
    ensures { OnOk result (text.new.items ≡ text.old.items ++ all_forms profile mnemonic) }
{
    push_changes(text, changed_by(profile, operation(mnemonic)))?;
    push_text(text, "\n")?;
    push_forms_in(text, profile, mnemonic, all_modes())
}

/// Appends that a processor has no such instruction.
fn push_no_forms(text: &mut Vec<u8>) -> Result<(), AllocError>
    ensures { OnOk result (text.new.items ≡ text.old.items ++ no_forms) }
{
    push_text(text, NO_INSTRUCTION)?;
    push_text(text, "\n")
}

/// Appends the forms of an instruction, if there is one of the name.
fn push_known_forms(
    text: &mut Vec<u8>,
    profile: Profile,
    mnemonic: Option<Mnemonic>,
) -> Result<(), AllocError>
    ensures { OnOk result (text.new.items ≡ text.old.items ++ known_forms profile mnemonic) }
{
    match mnemonic {
        Some(mnemonic) => push_all_forms(text, profile, mnemonic),
        None => push_no_forms(text),
    }
}

/// Appends the name of an instruction, which flags it changes, and a row for each of its forms; or
/// that the profile has no such instruction.
///
/// Errors: `AllocError` if an allocation fails.
#[tactic(auto, unfolding(crate::specs::Forms::forms_text))]
pub fn push_forms(
    text: &mut Vec<u8>,
    profile: Profile,
    mnemonic: Mnemonic,
) -> Result<(), AllocError>
    ensures { OnOk result (text.new.items ≡ text.old.items ++ forms_text profile mnemonic) }
{
    let letters = letters_of(mnemonic);
    text.extend_from_slice(&letters)?;
    push_known_forms(text, profile, mnemonic_in(profile, &letters))
}
