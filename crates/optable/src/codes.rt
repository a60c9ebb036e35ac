//! The opcode of a mnemonic in a mode.

ghost use Rattle.std.specs.Prelude.{◌≡◌, ◌<◌, ℕ, IfSome, IfNone, Some};
ghost use Rattle.model.specs.OpcodeTable.{opcode_of, row_at, IsRowOf};
ghost use Rattle.optable.specs.Codes.{within};

use crate::rows::decode_in;
use model::{Mnemonic, Mode, Profile};

/// An opcode, or `_` where there is none.
macro_rules! code {
    (_) => {
        None
    };
    ($opcode:literal) => {
        Some($opcode)
    };
}

/// The opcodes of a mnemonic, one for each mode.
macro_rules! codes {
    ($mnemonic:ident: $($opcode:tt)*) => {
        [$(code!($opcode)),*]
    };
}

/// The opcode of each mnemonic in each mode in profile C, which has all of them. Rows and columns
/// are in the order of `Mnemonic` and of `Mode`.
const CODES: [[Option<u8>; 14]; 62] = [
    //           Imp  Acc  Imm  Zp   ZpX  ZpY  Abs  AbsX AbsY IndX IndY Ind  Rel  IndZ
    codes!(Adc: _    _    0x69 0x65 0x75 _    0x6d 0x7d 0x79 0x61 0x71 _    _    0x72),
    codes!(And: _    _    0x29 0x25 0x35 _    0x2d 0x3d 0x39 0x21 0x31 _    _    0x32),
    codes!(Asl: _    0x0a _    0x06 0x16 _    0x0e 0x1e _    _    _    _    _    _),
    codes!(Bcc: _    _    _    _    _    _    _    _    _    _    _    _    0x90 _),
    codes!(Bcs: _    _    _    _    _    _    _    _    _    _    _    _    0xb0 _),
    codes!(Beq: _    _    _    _    _    _    _    _    _    _    _    _    0xf0 _),
    codes!(Bit: _    _    _    0x24 _    _    0x2c _    _    _    _    _    _    _),
    codes!(Bmi: _    _    _    _    _    _    _    _    _    _    _    _    0x30 _),
    codes!(Bne: _    _    _    _    _    _    _    _    _    _    _    _    0xd0 _),
    codes!(Bpl: _    _    _    _    _    _    _    _    _    _    _    _    0x10 _),
    codes!(Brk: 0x00 _    _    _    _    _    _    _    _    _    _    _    _    _),
    codes!(Bvc: _    _    _    _    _    _    _    _    _    _    _    _    0x50 _),
    codes!(Bvs: _    _    _    _    _    _    _    _    _    _    _    _    0x70 _),
    codes!(Clc: 0x18 _    _    _    _    _    _    _    _    _    _    _    _    _),
    codes!(Cld: 0xd8 _    _    _    _    _    _    _    _    _    _    _    _    _),
    codes!(Cli: 0x58 _    _    _    _    _    _    _    _    _    _    _    _    _),
    codes!(Clv: 0xb8 _    _    _    _    _    _    _    _    _    _    _    _    _),
    codes!(Cmp: _    _    0xc9 0xc5 0xd5 _    0xcd 0xdd 0xd9 0xc1 0xd1 _    _    0xd2),
    codes!(Cpx: _    _    0xe0 0xe4 _    _    0xec _    _    _    _    _    _    _),
    codes!(Cpy: _    _    0xc0 0xc4 _    _    0xcc _    _    _    _    _    _    _),
    codes!(Dec: _    0x3a _    0xc6 0xd6 _    0xce 0xde _    _    _    _    _    _),
    codes!(Dex: 0xca _    _    _    _    _    _    _    _    _    _    _    _    _),
    codes!(Dey: 0x88 _    _    _    _    _    _    _    _    _    _    _    _    _),
    codes!(Eor: _    _    0x49 0x45 0x55 _    0x4d 0x5d 0x59 0x41 0x51 _    _    0x52),
    codes!(Inc: _    0x1a _    0xe6 0xf6 _    0xee 0xfe _    _    _    _    _    _),
    codes!(Inx: 0xe8 _    _    _    _    _    _    _    _    _    _    _    _    _),
    codes!(Iny: 0xc8 _    _    _    _    _    _    _    _    _    _    _    _    _),
    codes!(Jmp: _    _    _    _    _    _    0x4c _    _    _    _    0x6c _    _),
    codes!(Jsr: _    _    _    _    _    _    0x20 _    _    _    _    _    _    _),
    codes!(Lda: _    _    0xa9 0xa5 0xb5 _    0xad 0xbd 0xb9 0xa1 0xb1 _    _    0xb2),
    codes!(Ldx: _    _    0xa2 0xa6 _    0xb6 0xae _    0xbe _    _    _    _    _),
    codes!(Ldy: _    _    0xa0 0xa4 0xb4 _    0xac 0xbc _    _    _    _    _    _),
    codes!(Lsr: _    0x4a _    0x46 0x56 _    0x4e 0x5e _    _    _    _    _    _),
    codes!(Nop: 0xea _    _    _    _    _    _    _    _    _    _    _    _    _),
    codes!(Ora: _    _    0x09 0x05 0x15 _    0x0d 0x1d 0x19 0x01 0x11 _    _    0x12),
    codes!(Pha: 0x48 _    _    _    _    _    _    _    _    _    _    _    _    _),
    codes!(Php: 0x08 _    _    _    _    _    _    _    _    _    _    _    _    _),
    codes!(Pla: 0x68 _    _    _    _    _    _    _    _    _    _    _    _    _),
    codes!(Plp: 0x28 _    _    _    _    _    _    _    _    _    _    _    _    _),
    codes!(Rol: _    0x2a _    0x26 0x36 _    0x2e 0x3e _    _    _    _    _    _),
    codes!(Ror: _    0x6a _    0x66 0x76 _    0x6e 0x7e _    _    _    _    _    _),
    codes!(Rti: 0x40 _    _    _    _    _    _    _    _    _    _    _    _    _),
    codes!(Rts: 0x60 _    _    _    _    _    _    _    _    _    _    _    _    _),
    codes!(Sbc: _    _    0xe9 0xe5 0xf5 _    0xed 0xfd 0xf9 0xe1 0xf1 _    _    0xf2),
    codes!(Sec: 0x38 _    _    _    _    _    _    _    _    _    _    _    _    _),
    codes!(Sed: 0xf8 _    _    _    _    _    _    _    _    _    _    _    _    _),
    codes!(Sei: 0x78 _    _    _    _    _    _    _    _    _    _    _    _    _),
    codes!(Sta: _    _    _    0x85 0x95 _    0x8d 0x9d 0x99 0x81 0x91 _    _    0x92),
    codes!(Stx: _    _    _    0x86 _    0x96 0x8e _    _    _    _    _    _    _),
    codes!(Sty: _    _    _    0x84 0x94 _    0x8c _    _    _    _    _    _    _),
    codes!(Tax: 0xaa _    _    _    _    _    _    _    _    _    _    _    _    _),
    codes!(Tay: 0xa8 _    _    _    _    _    _    _    _    _    _    _    _    _),
    codes!(Tsx: 0xba _    _    _    _    _    _    _    _    _    _    _    _    _),
    codes!(Txa: 0x8a _    _    _    _    _    _    _    _    _    _    _    _    _),
    codes!(Txs: 0x9a _    _    _    _    _    _    _    _    _    _    _    _    _),
    codes!(Tya: 0x98 _    _    _    _    _    _    _    _    _    _    _    _    _),
    codes!(Bra: _    _    _    _    _    _    _    _    _    _    _    _    0x80 _),
    codes!(Phx: 0xda _    _    _    _    _    _    _    _    _    _    _    _    _),
    codes!(Phy: 0x5a _    _    _    _    _    _    _    _    _    _    _    _    _),
    codes!(Plx: 0xfa _    _    _    _    _    _    _    _    _    _    _    _    _),
    codes!(Ply: 0x7a _    _    _    _    _    _    _    _    _    _    _    _    _),
    codes!(Stz: _    _    _    0x64 0x74 _    0x9c 0x9e _    _    _    _    _    _),
];

/// Returns the opcode of a mnemonic in a mode in profile N, as `encode_in` does.
pub fn encode(mnemonic: Mnemonic, mode: Mode) -> Option<u8>
    ensures code { result ≡ opcode_of Profile.N mnemonic mode }
    ensures found { IfSome result (λ opcode. IsRowOf mnemonic mode (row_at Profile.N opcode)) }
    ensures none { IfNone result
        ((opcode : ℕ) → opcode < 256 → ¬ IsRowOf mnemonic mode (row_at Profile.N opcode)) }
    ensures only { (opcode : ℕ) → opcode < 256 → IsRowOf mnemonic mode (row_at Profile.N opcode)
        → result ≡ Some opcode }
{
    encode_in(Profile::N, mnemonic, mode)
}

/// Returns the opcode of a mnemonic in a mode in a profile, or `None` if the profile has none.
///
/// It is the inverse of `decode_in`: the one opcode whose row has this mnemonic and this mode.
/// Source: MCS6500 manual, appendix B; mos65 for what profile C adds.
pub fn encode_in(profile: Profile, mnemonic: Mnemonic, mode: Mode) -> Option<u8>
    ensures code { result ≡ opcode_of profile mnemonic mode }
    ensures found { IfSome result (λ opcode. IsRowOf mnemonic mode (row_at profile opcode)) }
    ensures none { IfNone result
        ((opcode : ℕ) → opcode < 256 → ¬ IsRowOf mnemonic mode (row_at profile opcode)) }
    ensures only { (opcode : ℕ) → opcode < 256 → IsRowOf mnemonic mode (row_at profile opcode)
        → result ≡ Some opcode }
{
    let codes = &CODES;
    within(profile, codes[mnemonic as usize][mode as usize])
}

/// Returns an opcode if the profile has it.
fn within(profile: Profile, code: Option<u8>) -> Option<u8>
    ensures { result ≡ within profile code }
{
    let opcode = code?;
    let _row = decode_in(profile, opcode)?;
    Some(opcode)
}
