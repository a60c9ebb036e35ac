//! Marks below the registers and flags that have changed.

ghost use Rattle.std.specs.Prelude.{◌≡◌, ◌++◌, OnOk};
ghost use Rattle.mon_screen.specs.Marks.{flag_mark, flag_marks, marks_line, register_mark};

use crate::wording::{CHANGED, SAME};
use formatting::push_text;
use model::{Flags, Regs};
use std::alloc::AllocError;

/// Appends the mark of a register.
fn push_mark(text: &mut Vec<u8>, before: u8, now: u8) -> Result<(), AllocError>
    ensures { OnOk result (text.new.items ≡ text.old.items ++ register_mark before now) }
{
    push_text(text, if before == now { SAME } else { CHANGED })
}

/// Returns the mark of a flag.
fn flag_mark(before: bool, now: bool) -> u8
    ensures { result ≡ flag_mark before now }
{
    match (before, now) {
        (true, true) | (false, false) => b' ',
        _ => b'^',
    }
}

/// Returns the marks of the flags.
fn flag_marks(before: Flags, now: Flags) -> [u8; 8]
    ensures { result ≡ flag_marks before now }
{
    [
        flag_mark(before.n, now.n),
        flag_mark(before.v, now.v),
        b' ',
        b' ',
        flag_mark(before.d, now.d),
        flag_mark(before.i, now.i),
        flag_mark(before.z, now.z),
        flag_mark(before.c, now.c),
    ]
}

/// Appends the line of marks that stands below the line of the registers.
#[tactic(auto, unfolding(crate::specs::Marks::marks_line))]
pub fn push_marks(text: &mut Vec<u8>, before: Regs, now: Regs) -> Result<(), AllocError>
    ensures { OnOk result (text.new.items ≡ text.old.items ++ marks_line before now) }
{
    push_mark(text, before.a, now.a)?;
    push_mark(text, before.x, now.x)?;
    push_mark(text, before.y, now.y)?;
    push_mark(text, before.s, now.s)?;
    push_text(text, " ")?;
    text.extend_from_slice(&flag_marks(before.flags, now.flags))?;
    push_text(text, "\n")
}
