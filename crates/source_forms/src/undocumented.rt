//! The opcodes of the NMOS 6502 that its manual does not have.

ghost use Rattle.std.specs.Prelude.{◌≡◌, ◌≤◌, IfSome};
ghost use Rattle.source_forms.specs.Undocumented.{find_undocumented, undocumented_at};
ghost use Rattle.source_forms.specs.Undocumented.{undocumented_opcodes};

use model::{Mode, Profile};

/// An instruction that the manual does not have.
#[derive(Clone, Copy, Debug, PartialEq, Eq)]
pub struct Undocumented {
    /// Its common name.
    pub name: [u8; 3],
    /// How its operand is written.
    pub mode: Mode,
    /// How many bytes it has.
    pub len: u8,
    /// Whether the processor stops at it.
    pub stops: bool,
}

/// An instruction after which the next one comes.
macro_rules! row {
    ($a:literal, $b:literal, $c:literal, $mode:ident, $len:literal) => {
        Some(Undocumented {
            name: [$a, $b, $c],
            mode: Mode::$mode,
            len: $len,
            stops: false,
        })
    };
}

/// An instruction at which the processor stops.
macro_rules! jam {
    () => {
        Some(Undocumented {
            name: [b'J', b'A', b'M'],
            mode: Mode::Imp,
            len: 1,
            stops: true,
        })
    };
}

/// What an opcode of the NMOS processor is.
#[tactic(auto, using(crate::proofs::UndocumentedTable::found))]
fn nmos_row(opcode: u8) -> Option<Undocumented>
    ensures { result ≡ find_undocumented opcode undocumented_opcodes }
{
    let rows = &UNDOCUMENTED;
    rows[opcode as usize]
}

/// The same, with how long it is.
#[tactic(auto, using(crate::proofs::UndocumentedTable::len_at))]
fn nmos_undocumented(opcode: u8) -> Option<Undocumented>
    ensures exact { result ≡ find_undocumented opcode undocumented_opcodes }
    ensures len { IfSome result (λ u. u.len ≤ 3) }
{
    nmos_row(opcode)
}

/// Returns what an opcode is that the manual of the NMOS processor does not have, but the processor
/// executes: one of 105 in profile N. Of profile C it says nothing. Source: Groepaz and others,
/// NMOS 6510 Unintended Opcodes.
#[tactic(auto, unfolding(crate::specs::Undocumented::undocumented_at))]
pub fn undocumented_in(profile: Profile, opcode: u8) -> Option<Undocumented>
    ensures exact { result ≡ undocumented_at profile opcode }
    ensures len { IfSome result (λ u. u.len ≤ 3) }
{
    match profile {
        Profile::N => nmos_undocumented(opcode),
        Profile::C => None,
    }
}

/// What each opcode is in profile N, from $00 on.
pub const UNDOCUMENTED: [Option<Undocumented>; 256] = [
    // $00
    None,
    None,
    jam!(),
    row!(b'S', b'L', b'O', IndX, 2),
    row!(b'N', b'O', b'P', Zp, 2),
    None,
    None,
    row!(b'S', b'L', b'O', Zp, 2),
    None,
    None,
    None,
    row!(b'A', b'N', b'C', Imm, 2),
    row!(b'N', b'O', b'P', Abs, 3),
    None,
    None,
    row!(b'S', b'L', b'O', Abs, 3),
    // $10
    None,
    None,
    jam!(),
    row!(b'S', b'L', b'O', IndY, 2),
    row!(b'N', b'O', b'P', ZpX, 2),
    None,
    None,
    row!(b'S', b'L', b'O', ZpX, 2),
    None,
    None,
    row!(b'N', b'O', b'P', Imp, 1),
    row!(b'S', b'L', b'O', AbsY, 3),
    row!(b'N', b'O', b'P', AbsX, 3),
    None,
    None,
    row!(b'S', b'L', b'O', AbsX, 3),
    // $20
    None,
    None,
    jam!(),
    row!(b'R', b'L', b'A', IndX, 2),
    None,
    None,
    None,
    row!(b'R', b'L', b'A', Zp, 2),
    None,
    None,
    None,
    row!(b'A', b'N', b'C', Imm, 2),
    None,
    None,
    None,
    row!(b'R', b'L', b'A', Abs, 3),
    // $30
    None,
    None,
    jam!(),
    row!(b'R', b'L', b'A', IndY, 2),
    row!(b'N', b'O', b'P', ZpX, 2),
    None,
    None,
    row!(b'R', b'L', b'A', ZpX, 2),
    None,
    None,
    row!(b'N', b'O', b'P', Imp, 1),
    row!(b'R', b'L', b'A', AbsY, 3),
    row!(b'N', b'O', b'P', AbsX, 3),
    None,
    None,
    row!(b'R', b'L', b'A', AbsX, 3),
    // $40
    None,
    None,
    jam!(),
    row!(b'S', b'R', b'E', IndX, 2),
    row!(b'N', b'O', b'P', Zp, 2),
    None,
    None,
    row!(b'S', b'R', b'E', Zp, 2),
    None,
    None,
    None,
    row!(b'A', b'L', b'R', Imm, 2),
    None,
    None,
    None,
    row!(b'S', b'R', b'E', Abs, 3),
    // $50
    None,
    None,
    jam!(),
    row!(b'S', b'R', b'E', IndY, 2),
    row!(b'N', b'O', b'P', ZpX, 2),
    None,
    None,
    row!(b'S', b'R', b'E', ZpX, 2),
    None,
    None,
    row!(b'N', b'O', b'P', Imp, 1),
    row!(b'S', b'R', b'E', AbsY, 3),
    row!(b'N', b'O', b'P', AbsX, 3),
    None,
    None,
    row!(b'S', b'R', b'E', AbsX, 3),
    // $60
    None,
    None,
    jam!(),
    row!(b'R', b'R', b'A', IndX, 2),
    row!(b'N', b'O', b'P', Zp, 2),
    None,
    None,
    row!(b'R', b'R', b'A', Zp, 2),
    None,
    None,
    None,
    row!(b'A', b'R', b'R', Imm, 2),
    None,
    None,
    None,
    row!(b'R', b'R', b'A', Abs, 3),
    // $70
    None,
    None,
    jam!(),
    row!(b'R', b'R', b'A', IndY, 2),
    row!(b'N', b'O', b'P', ZpX, 2),
    None,
    None,
    row!(b'R', b'R', b'A', ZpX, 2),
    None,
    None,
    row!(b'N', b'O', b'P', Imp, 1),
    row!(b'R', b'R', b'A', AbsY, 3),
    row!(b'N', b'O', b'P', AbsX, 3),
    None,
    None,
    row!(b'R', b'R', b'A', AbsX, 3),
    // $80
    row!(b'N', b'O', b'P', Imm, 2),
    None,
    row!(b'N', b'O', b'P', Imm, 2),
    row!(b'S', b'A', b'X', IndX, 2),
    None,
    None,
    None,
    row!(b'S', b'A', b'X', Zp, 2),
    None,
    row!(b'N', b'O', b'P', Imm, 2),
    None,
    row!(b'A', b'N', b'E', Imm, 2),
    None,
    None,
    None,
    row!(b'S', b'A', b'X', Abs, 3),
    // $90
    None,
    None,
    jam!(),
    row!(b'S', b'H', b'A', IndY, 2),
    None,
    None,
    None,
    row!(b'S', b'A', b'X', ZpY, 2),
    None,
    None,
    None,
    row!(b'T', b'A', b'S', AbsY, 3),
    row!(b'S', b'H', b'Y', AbsX, 3),
    None,
    row!(b'S', b'H', b'X', AbsY, 3),
    row!(b'S', b'H', b'A', AbsY, 3),
    // $A0
    None,
    None,
    None,
    row!(b'L', b'A', b'X', IndX, 2),
    None,
    None,
    None,
    row!(b'L', b'A', b'X', Zp, 2),
    None,
    None,
    None,
    row!(b'L', b'X', b'A', Imm, 2),
    None,
    None,
    None,
    row!(b'L', b'A', b'X', Abs, 3),
    // $B0
    None,
    None,
    jam!(),
    row!(b'L', b'A', b'X', IndY, 2),
    None,
    None,
    None,
    row!(b'L', b'A', b'X', ZpY, 2),
    None,
    None,
    None,
    row!(b'L', b'A', b'S', AbsY, 3),
    None,
    None,
    None,
    row!(b'L', b'A', b'X', AbsY, 3),
    // $C0
    None,
    None,
    row!(b'N', b'O', b'P', Imm, 2),
    row!(b'D', b'C', b'P', IndX, 2),
    None,
    None,
    None,
    row!(b'D', b'C', b'P', Zp, 2),
    None,
    None,
    None,
    row!(b'S', b'B', b'X', Imm, 2),
    None,
    None,
    None,
    row!(b'D', b'C', b'P', Abs, 3),
    // $D0
    None,
    None,
    jam!(),
    row!(b'D', b'C', b'P', IndY, 2),
    row!(b'N', b'O', b'P', ZpX, 2),
    None,
    None,
    row!(b'D', b'C', b'P', ZpX, 2),
    None,
    None,
    row!(b'N', b'O', b'P', Imp, 1),
    row!(b'D', b'C', b'P', AbsY, 3),
    row!(b'N', b'O', b'P', AbsX, 3),
    None,
    None,
    row!(b'D', b'C', b'P', AbsX, 3),
    // $E0
    None,
    None,
    row!(b'N', b'O', b'P', Imm, 2),
    row!(b'I', b'S', b'C', IndX, 2),
    None,
    None,
    None,
    row!(b'I', b'S', b'C', Zp, 2),
    None,
    None,
    None,
    row!(b'S', b'B', b'C', Imm, 2),
    None,
    None,
    None,
    row!(b'I', b'S', b'C', Abs, 3),
    // $F0
    None,
    None,
    jam!(),
    row!(b'I', b'S', b'C', IndY, 2),
    row!(b'N', b'O', b'P', ZpX, 2),
    None,
    None,
    row!(b'I', b'S', b'C', ZpX, 2),
    None,
    None,
    row!(b'N', b'O', b'P', Imp, 1),
    row!(b'I', b'S', b'C', AbsY, 3),
    row!(b'N', b'O', b'P', AbsX, 3),
    None,
    None,
    row!(b'I', b'S', b'C', AbsX, 3),
];
