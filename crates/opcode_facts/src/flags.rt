//! Flags as letters.

ghost use Rattle.std.specs.Prelude.{◌≡◌, ◌++◌, OnOk};
ghost use Rattle.opcode_facts.specs.Letters.{flag_text, flags_text, is_any};

use crate::flag::Flag;
use model::Flags;
use std::alloc::AllocError;

/// Returns whether any of the flags is set.
pub fn is_any(flags: Flags) -> bool
    ensures { result ≡ is_any flags }
{
    flags.n || flags.v || flags.d || flags.i || flags.z || flags.c
}

/// Appends the letter of a flag behind a blank, if it is set.
fn push_flag(text: &mut Vec<u8>, flags: Flags, flag: Flag) -> Result<(), AllocError>
    ensures { OnOk result (text.new.items ≡ text.old.items ++ flag_text flags flag) }
{
    if flag.of(flags) {
        text.push(b' ')?;
        text.extend_from_slice(flag.letter().as_bytes())?;
    }
    Ok(())
}

/// Appends the letters of the flags that are set, each behind a blank, in the order N V D I Z C.
///
/// Errors: `AllocError` if an allocation fails.
pub fn push_flags(text: &mut Vec<u8>, flags: Flags) -> Result<(), AllocError>
    ensures { OnOk result (text.new.items ≡ text.old.items ++ flags_text flags) }
{
    push_flag(text, flags, Flag::N)?;
    push_flag(text, flags, Flag::V)?;
    push_flag(text, flags, Flag::D)?;
    push_flag(text, flags, Flag::I)?;
    push_flag(text, flags, Flag::Z)?;
    push_flag(text, flags, Flag::C)
}
