//! The row of an opcode.

ghost use Rattle.std.specs.Prelude.{◌≡◌, ◌<◌, ◌≤◌, IfSome, Some};
ghost use Rattle.model.specs.OpcodeTable.{added_opcodes, find_row, row_at};

use model::{Mnemonic, Mode, Profile, Row};

/// A row whose cycles are always the same.
macro_rules! row {
    ($mnemonic:ident, $mode:ident, $len:literal, $cycles:literal) => {
        Some(Row {
            mnemonic: Mnemonic::$mnemonic,
            mode: Mode::$mode,
            len: $len,
            cycles: $cycles,
            penalty: false,
        })
    };
}

/// A row that a page crossing costs one more cycle.
macro_rules! plus {
    ($mnemonic:ident, $mode:ident, $len:literal, $cycles:literal) => {
        Some(Row {
            mnemonic: Mnemonic::$mnemonic,
            mode: Mode::$mode,
            len: $len,
            cycles: $cycles,
            penalty: true,
        })
    };
}

/// Returns the row of an opcode in profile N, as `decode_in` does.
///
/// Returns `None` for the 105 opcodes that are not documented.
pub fn decode(opcode: u8) -> Option<Row>
    ensures row { result ≡ row_at Profile.N opcode }
    ensures small { IfSome result (λ row. row.cycles < 8) }
    ensures len { IfSome result (λ row. (1 ≤ row.len) × (row.len ≤ 3)) }
{
    decode_in(Profile::N, opcode)
}

/// Returns the row of an opcode in a profile.
///
/// The row has the mnemonic, the mode, the length in bytes, the cycles, and whether a page crossing
/// costs one more cycle. Returns `None` for opcodes that the profile does not have: 105 in profile
/// N, 86 in profile C. Source: MCS6500 manual, appendix B; mos65 for what profile C adds.
pub fn decode_in(profile: Profile, opcode: u8) -> Option<Row>
    ensures row { result ≡ row_at profile opcode }
    ensures small { IfSome result (λ row. row.cycles < 8) }
    ensures len { IfSome result (λ row. (1 ≤ row.len) × (row.len ≤ 3)) }
{
    OpTable::new(profile).row(opcode)
}

/// The rows of all 256 opcodes in a profile, each found in one step.
#[derive(Clone, Copy)]
pub struct OpTable {
    /// The profile that the rows are of.
    pub profile: Profile,
}

impl OpTable {
    /// Returns the table of a profile. Does not allocate: the rows are a constant of the program.
    #[inline(always)]
    pub fn new(profile: Profile) -> OpTable
        ensures { result.profile ≡ profile }
    {
        OpTable { profile }
    }

    /// Returns the row of an opcode, as `decode_in` does.
    #[inline(always)]
    pub fn row(self, opcode: u8) -> Option<Row>
        ensures row { result ≡ row_at self.profile opcode }
        ensures small { IfSome result (λ row. row.cycles < 8) }
        ensures len { IfSome result (λ row. (1 ≤ row.len) × (row.len ≤ 3)) }
    {
        row_in(self.profile, opcode)
    }

    /// Returns the row of a documented opcode, which is the same in each profile.
    ///
    /// For an opcode that is known when the program is compiled, the row is a constant.
    #[inline(always)]
    pub fn documented(self, opcode: u8) -> Option<Row>
        ensures exact { result ≡ row_at Profile.N opcode }
        ensures row { IfSome result (λ row. row_at self.profile opcode ≡ Some row) }
        ensures small { IfSome result (λ row. row.cycles < 8) }
    {
        documented_row(opcode)
    }
}

/// Returns the row of an opcode: that of profile N, otherwise the one that profile C adds.
#[inline(always)]
#[tactic(auto, using(law_opcodes::proofs::Encoding::row_kept, law_opcodes::proofs::Encoding::row_added))]
fn row_in(profile: Profile, opcode: u8) -> Option<Row>
    ensures { result ≡ row_at profile opcode }
{
    match documented_row(opcode) {
        Some(row) => Some(row),
        None => match profile {
            Profile::N => None,
            Profile::C => added_row(opcode),
        },
    }
}

/// Returns the row of an opcode in profile N.
#[inline(always)]
#[tactic(auto, using(crate::proofs::Table::decoded))]
fn documented_row(opcode: u8) -> Option<Row>
    ensures { result ≡ row_at Profile.N opcode }
{
    let rows = &ROWS;
    rows[opcode as usize]
}

/// Returns the row of an opcode that profile C adds.
#[tactic(auto, unfolding(model::specs::OpcodeTable::find_row, model::specs::OpcodeTable::added_opcodes))]
fn added_row(opcode: u8) -> Option<Row>
    ensures { result ≡ find_row opcode added_opcodes }
{
    match opcode {
        0x12 => row!(Ora, IndZ, 2, 5),
        0x1a => row!(Inc, Acc, 1, 2),
        0x32 => row!(And, IndZ, 2, 5),
        0x3a => row!(Dec, Acc, 1, 2),
        0x52 => row!(Eor, IndZ, 2, 5),
        0x5a => row!(Phy, Imp, 1, 3),
        0x64 => row!(Stz, Zp, 2, 3),
        0x72 => row!(Adc, IndZ, 2, 5),
        0x74 => row!(Stz, ZpX, 2, 4),
        0x7a => row!(Ply, Imp, 1, 4),
        0x80 => row!(Bra, Rel, 2, 2),
        0x92 => row!(Sta, IndZ, 2, 5),
        0x9c => row!(Stz, Abs, 3, 4),
        0x9e => row!(Stz, AbsX, 3, 5),
        0xb2 => row!(Lda, IndZ, 2, 5),
        0xd2 => row!(Cmp, IndZ, 2, 5),
        0xda => row!(Phx, Imp, 1, 3),
        0xf2 => row!(Sbc, IndZ, 2, 5),
        0xfa => row!(Plx, Imp, 1, 4),
        _ => None,
    }
}

/// The row of each opcode in profile N, from $00 on.
pub const ROWS: [Option<Row>; 256] = [
    // $00
    row!(Brk, Imp, 1, 7),
    row!(Ora, IndX, 2, 6),
    None,
    None,
    None,
    row!(Ora, Zp, 2, 3),
    row!(Asl, Zp, 2, 5),
    None,
    row!(Php, Imp, 1, 3),
    row!(Ora, Imm, 2, 2),
    row!(Asl, Acc, 1, 2),
    None,
    None,
    row!(Ora, Abs, 3, 4),
    row!(Asl, Abs, 3, 6),
    None,
    // $10
    row!(Bpl, Rel, 2, 2),
    plus!(Ora, IndY, 2, 5),
    None,
    None,
    None,
    row!(Ora, ZpX, 2, 4),
    row!(Asl, ZpX, 2, 6),
    None,
    row!(Clc, Imp, 1, 2),
    plus!(Ora, AbsY, 3, 4),
    None,
    None,
    None,
    plus!(Ora, AbsX, 3, 4),
    row!(Asl, AbsX, 3, 7),
    None,
    // $20
    row!(Jsr, Abs, 3, 6),
    row!(And, IndX, 2, 6),
    None,
    None,
    row!(Bit, Zp, 2, 3),
    row!(And, Zp, 2, 3),
    row!(Rol, Zp, 2, 5),
    None,
    row!(Plp, Imp, 1, 4),
    row!(And, Imm, 2, 2),
    row!(Rol, Acc, 1, 2),
    None,
    row!(Bit, Abs, 3, 4),
    row!(And, Abs, 3, 4),
    row!(Rol, Abs, 3, 6),
    None,
    // $30
    row!(Bmi, Rel, 2, 2),
    plus!(And, IndY, 2, 5),
    None,
    None,
    None,
    row!(And, ZpX, 2, 4),
    row!(Rol, ZpX, 2, 6),
    None,
    row!(Sec, Imp, 1, 2),
    plus!(And, AbsY, 3, 4),
    None,
    None,
    None,
    plus!(And, AbsX, 3, 4),
    row!(Rol, AbsX, 3, 7),
    None,
    // $40
    row!(Rti, Imp, 1, 6),
    row!(Eor, IndX, 2, 6),
    None,
    None,
    None,
    row!(Eor, Zp, 2, 3),
    row!(Lsr, Zp, 2, 5),
    None,
    row!(Pha, Imp, 1, 3),
    row!(Eor, Imm, 2, 2),
    row!(Lsr, Acc, 1, 2),
    None,
    row!(Jmp, Abs, 3, 3),
    row!(Eor, Abs, 3, 4),
    row!(Lsr, Abs, 3, 6),
    None,
    // $50
    row!(Bvc, Rel, 2, 2),
    plus!(Eor, IndY, 2, 5),
    None,
    None,
    None,
    row!(Eor, ZpX, 2, 4),
    row!(Lsr, ZpX, 2, 6),
    None,
    row!(Cli, Imp, 1, 2),
    plus!(Eor, AbsY, 3, 4),
    None,
    None,
    None,
    plus!(Eor, AbsX, 3, 4),
    row!(Lsr, AbsX, 3, 7),
    None,
    // $60
    row!(Rts, Imp, 1, 6),
    row!(Adc, IndX, 2, 6),
    None,
    None,
    None,
    row!(Adc, Zp, 2, 3),
    row!(Ror, Zp, 2, 5),
    None,
    row!(Pla, Imp, 1, 4),
    row!(Adc, Imm, 2, 2),
    row!(Ror, Acc, 1, 2),
    None,
    row!(Jmp, Ind, 3, 5),
    row!(Adc, Abs, 3, 4),
    row!(Ror, Abs, 3, 6),
    None,
    // $70
    row!(Bvs, Rel, 2, 2),
    plus!(Adc, IndY, 2, 5),
    None,
    None,
    None,
    row!(Adc, ZpX, 2, 4),
    row!(Ror, ZpX, 2, 6),
    None,
    row!(Sei, Imp, 1, 2),
    plus!(Adc, AbsY, 3, 4),
    None,
    None,
    None,
    plus!(Adc, AbsX, 3, 4),
    row!(Ror, AbsX, 3, 7),
    None,
    // $80
    None,
    row!(Sta, IndX, 2, 6),
    None,
    None,
    row!(Sty, Zp, 2, 3),
    row!(Sta, Zp, 2, 3),
    row!(Stx, Zp, 2, 3),
    None,
    row!(Dey, Imp, 1, 2),
    None,
    row!(Txa, Imp, 1, 2),
    None,
    row!(Sty, Abs, 3, 4),
    row!(Sta, Abs, 3, 4),
    row!(Stx, Abs, 3, 4),
    None,
    // $90
    row!(Bcc, Rel, 2, 2),
    row!(Sta, IndY, 2, 6),
    None,
    None,
    row!(Sty, ZpX, 2, 4),
    row!(Sta, ZpX, 2, 4),
    row!(Stx, ZpY, 2, 4),
    None,
    row!(Tya, Imp, 1, 2),
    row!(Sta, AbsY, 3, 5),
    row!(Txs, Imp, 1, 2),
    None,
    None,
    row!(Sta, AbsX, 3, 5),
    None,
    None,
    // $A0
    row!(Ldy, Imm, 2, 2),
    row!(Lda, IndX, 2, 6),
    row!(Ldx, Imm, 2, 2),
    None,
    row!(Ldy, Zp, 2, 3),
    row!(Lda, Zp, 2, 3),
    row!(Ldx, Zp, 2, 3),
    None,
    row!(Tay, Imp, 1, 2),
    row!(Lda, Imm, 2, 2),
    row!(Tax, Imp, 1, 2),
    None,
    row!(Ldy, Abs, 3, 4),
    row!(Lda, Abs, 3, 4),
    row!(Ldx, Abs, 3, 4),
    None,
    // $B0
    row!(Bcs, Rel, 2, 2),
    plus!(Lda, IndY, 2, 5),
    None,
    None,
    row!(Ldy, ZpX, 2, 4),
    row!(Lda, ZpX, 2, 4),
    row!(Ldx, ZpY, 2, 4),
    None,
    row!(Clv, Imp, 1, 2),
    plus!(Lda, AbsY, 3, 4),
    row!(Tsx, Imp, 1, 2),
    None,
    plus!(Ldy, AbsX, 3, 4),
    plus!(Lda, AbsX, 3, 4),
    plus!(Ldx, AbsY, 3, 4),
    None,
    // $C0
    row!(Cpy, Imm, 2, 2),
    row!(Cmp, IndX, 2, 6),
    None,
    None,
    row!(Cpy, Zp, 2, 3),
    row!(Cmp, Zp, 2, 3),
    row!(Dec, Zp, 2, 5),
    None,
    row!(Iny, Imp, 1, 2),
    row!(Cmp, Imm, 2, 2),
    row!(Dex, Imp, 1, 2),
    None,
    row!(Cpy, Abs, 3, 4),
    row!(Cmp, Abs, 3, 4),
    row!(Dec, Abs, 3, 6),
    None,
    // $D0
    row!(Bne, Rel, 2, 2),
    plus!(Cmp, IndY, 2, 5),
    None,
    None,
    None,
    row!(Cmp, ZpX, 2, 4),
    row!(Dec, ZpX, 2, 6),
    None,
    row!(Cld, Imp, 1, 2),
    plus!(Cmp, AbsY, 3, 4),
    None,
    None,
    None,
    plus!(Cmp, AbsX, 3, 4),
    row!(Dec, AbsX, 3, 7),
    None,
    // $E0
    row!(Cpx, Imm, 2, 2),
    row!(Sbc, IndX, 2, 6),
    None,
    None,
    row!(Cpx, Zp, 2, 3),
    row!(Sbc, Zp, 2, 3),
    row!(Inc, Zp, 2, 5),
    None,
    row!(Inx, Imp, 1, 2),
    row!(Sbc, Imm, 2, 2),
    row!(Nop, Imp, 1, 2),
    None,
    row!(Cpx, Abs, 3, 4),
    row!(Sbc, Abs, 3, 4),
    row!(Inc, Abs, 3, 6),
    None,
    // $F0
    row!(Beq, Rel, 2, 2),
    plus!(Sbc, IndY, 2, 5),
    None,
    None,
    None,
    row!(Sbc, ZpX, 2, 4),
    row!(Inc, ZpX, 2, 6),
    None,
    row!(Sed, Imp, 1, 2),
    plus!(Sbc, AbsY, 3, 4),
    None,
    None,
    None,
    plus!(Sbc, AbsX, 3, 4),
    row!(Inc, AbsX, 3, 7),
    None,
];
