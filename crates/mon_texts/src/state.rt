//! Registers and flags.

ghost use Rattle.std.specs.Prelude.{◌≡◌, ◌≤◌, ◌++◌, OnOk};
ghost use Rattle.mon_texts.specs.Registers.{course_text, flag_letter, flag_letters, flag_line};
ghost use Rattle.mon_texts.specs.Registers.{flag_value, flags_text, named_byte, regs_text};
ghost use Rattle.mon_texts.specs.Registers.{since_text, state_line};

use crate::wording::{CARRY, DECIMAL, INTERRUPT_DISABLE, NEGATIVE, OVERFLOW, ZERO};
use debugger::{Flags, Session};
use formatting::{push_byte, push_count, push_text};
use model::Regs;
use mon_instructions::push_place;
use source_map::Places;
use std::alloc::AllocError;

/// A flag's letter: a capital if it is 1.
fn letter(is_set: bool, letter: u8) -> u8
    requires { 97 ≤ letter }
    ensures { result ≡ flag_letter is_set letter }
{
    if is_set { letter - 32 } else { letter }
}

/// Returns the flags as letters: capitals are 1. The bits that are no flags are `-` and `b`.
pub fn letters(flags: Flags) -> [u8; 8]
    ensures { result ≡ flag_letters flags }
{
    [
        letter(flags.n, b'n'),
        letter(flags.v, b'v'),
        b'-',
        b'b',
        letter(flags.d, b'd'),
        letter(flags.i, b'i'),
        letter(flags.z, b'z'),
        letter(flags.c, b'c'),
    ]
}

/// Appends a name and a byte.
fn push_named(text: &mut Vec<u8>, name: &str, byte: u8) -> Result<(), AllocError>
    ensures { OnOk result (text.new.items ≡ text.old.items ++ named_byte name.now byte) }
{
    push_text(text, name)?;
    push_byte(text, byte)
}

/// Appends the registers but for PC, and the flags: `A=01 X=00 Y=00 S=FD  nv-bdIzc`.
#[tactic(auto, unfolding(crate::specs::Registers::regs_text))]
fn push_regs(text: &mut Vec<u8>, regs: Regs) -> Result<(), AllocError>
    ensures { OnOk result (text.new.items ≡ text.old.items ++ regs_text regs) }
{
    push_named(text, "A=", regs.a)?;
    push_named(text, " X=", regs.x)?;
    push_named(text, " Y=", regs.y)?;
    push_named(text, " S=", regs.s)?;
    push_text(text, "  ")?;
    text.extend_from_slice(&letters(regs.flags))
}

/// Appends how many cycles there are since `before`, if that is given.
fn push_since(text: &mut Vec<u8>, cycles: u64, before: Option<u64>) -> Result<(), AllocError>
    ensures { OnOk result (text.new.items ≡ text.old.items ++ since_text cycles before) }
{
    if let Some(before) = before {
        push_text(text, " (+")?;
        push_count(text, cycles.saturating_sub(before))?;
        push_text(text, ")")?;
    }
    Ok(())
}

/// Appends PC and its place, and the cycles: `  PC=0206 start+6  cycle 15 (+4)`.
#[tactic(auto, unfolding(crate::specs::Registers::course_text))]
fn push_course(
    text: &mut Vec<u8>,
    session: &Session,
    places: &Places,
    cycles_before: Option<u64>,
) -> Result<(), AllocError>
    ensures { OnOk result (text.new.items ≡ text.old.items
        ++ course_text session.now.current places.now.names cycles_before) }
{
    push_text(text, "  PC=")?;
    push_place(text, places, session.regs().pc)?;
    push_text(text, "  cycle ")?;
    push_count(text, session.cycles())?;
    push_since(text, session.cycles(), cycles_before)
}

/// Appends the line of the registers: `A=01 X=00 Y=00 S=FD  nv-bdIzc  PC=0206 start+6  cycle 15`,
/// and the cycles since `cycles_before`, if that is given.
///
/// Errors: `AllocError` if an allocation fails.
pub fn push_state(
    text: &mut Vec<u8>,
    session: &Session,
    places: &Places,
    cycles_before: Option<u64>,
) -> Result<(), AllocError>
    ensures ok { OnOk result (text.new.items ≡ text.old.items
        ++ state_line session.now.current places.now.names cycles_before) }
{
    push_regs(text, session.regs())?;
    push_course(text, session, places, cycles_before)?;
    push_text(text, "\n")
}

/// Appends a flag's value.
fn push_value(text: &mut Vec<u8>, value: bool) -> Result<(), AllocError>
    ensures { OnOk result (text.new.items ≡ text.old.items ++ flag_value value) }
{
    if value {
        push_text(text, "1  ")
    } else {
        push_text(text, "0  ")
    }
}

/// Appends a flag's value, and words.
fn push_flag(text: &mut Vec<u8>, value: bool, words: &str) -> Result<(), AllocError>
    ensures { OnOk result (text.new.items ≡ text.old.items ++ flag_line value words.now) }
{
    push_value(text, value)?;
    push_text(text, words)
}

/// Appends flags by name, a line for each.
fn push_lines(text: &mut Vec<u8>, flags: Flags) -> Result<(), AllocError>
    ensures { OnOk result (text.new.items ≡ text.old.items ++ flags_text flags) }
{
    push_flag(text, flags.n, NEGATIVE)?;
    push_flag(text, flags.v, OVERFLOW)?;
    push_flag(text, flags.d, DECIMAL)?;
    push_flag(text, flags.i, INTERRUPT_DISABLE)?;
    push_flag(text, flags.z, ZERO)?;
    push_flag(text, flags.c, CARRY)?;
    Ok(())
}

/// Appends the flags by name, a line for each.
///
/// Errors: `AllocError` if an allocation fails.
pub fn push_flags(text: &mut Vec<u8>, session: &Session) -> Result<(), AllocError>
    ensures ok { OnOk result (text.new.items ≡ text.old.items
        ++ flags_text session.now.current.regs.flags) }
{
    push_lines(text, session.regs().flags)
}
