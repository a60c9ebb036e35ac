//! The names of mnemonics.

ghost use Rattle.std.specs.Prelude.{◌≡◌, length};
ghost use Rattle.std.specs.Str.{str_to_ascii_uppercase};
ghost use Rattle.model.specs.Mnemonics.{mnemonic_named, mnemonic_text};
ghost use Rattle.optable.specs.Names.{find_name};

use model::{Mnemonic, Profile};

/// The letters of each mnemonic, in the order of `Mnemonic`: first those of the documented
/// instructions, then those that profile C adds.
const NAMES: [([u8; 3], Mnemonic); 62] = [
    (*b"ADC", Mnemonic::Adc),
    (*b"AND", Mnemonic::And),
    (*b"ASL", Mnemonic::Asl),
    (*b"BCC", Mnemonic::Bcc),
    (*b"BCS", Mnemonic::Bcs),
    (*b"BEQ", Mnemonic::Beq),
    (*b"BIT", Mnemonic::Bit),
    (*b"BMI", Mnemonic::Bmi),
    (*b"BNE", Mnemonic::Bne),
    (*b"BPL", Mnemonic::Bpl),
    (*b"BRK", Mnemonic::Brk),
    (*b"BVC", Mnemonic::Bvc),
    (*b"BVS", Mnemonic::Bvs),
    (*b"CLC", Mnemonic::Clc),
    (*b"CLD", Mnemonic::Cld),
    (*b"CLI", Mnemonic::Cli),
    (*b"CLV", Mnemonic::Clv),
    (*b"CMP", Mnemonic::Cmp),
    (*b"CPX", Mnemonic::Cpx),
    (*b"CPY", Mnemonic::Cpy),
    (*b"DEC", Mnemonic::Dec),
    (*b"DEX", Mnemonic::Dex),
    (*b"DEY", Mnemonic::Dey),
    (*b"EOR", Mnemonic::Eor),
    (*b"INC", Mnemonic::Inc),
    (*b"INX", Mnemonic::Inx),
    (*b"INY", Mnemonic::Iny),
    (*b"JMP", Mnemonic::Jmp),
    (*b"JSR", Mnemonic::Jsr),
    (*b"LDA", Mnemonic::Lda),
    (*b"LDX", Mnemonic::Ldx),
    (*b"LDY", Mnemonic::Ldy),
    (*b"LSR", Mnemonic::Lsr),
    (*b"NOP", Mnemonic::Nop),
    (*b"ORA", Mnemonic::Ora),
    (*b"PHA", Mnemonic::Pha),
    (*b"PHP", Mnemonic::Php),
    (*b"PLA", Mnemonic::Pla),
    (*b"PLP", Mnemonic::Plp),
    (*b"ROL", Mnemonic::Rol),
    (*b"ROR", Mnemonic::Ror),
    (*b"RTI", Mnemonic::Rti),
    (*b"RTS", Mnemonic::Rts),
    (*b"SBC", Mnemonic::Sbc),
    (*b"SEC", Mnemonic::Sec),
    (*b"SED", Mnemonic::Sed),
    (*b"SEI", Mnemonic::Sei),
    (*b"STA", Mnemonic::Sta),
    (*b"STX", Mnemonic::Stx),
    (*b"STY", Mnemonic::Sty),
    (*b"TAX", Mnemonic::Tax),
    (*b"TAY", Mnemonic::Tay),
    (*b"TSX", Mnemonic::Tsx),
    (*b"TXA", Mnemonic::Txa),
    (*b"TXS", Mnemonic::Txs),
    (*b"TYA", Mnemonic::Tya),
    (*b"BRA", Mnemonic::Bra),
    (*b"PHX", Mnemonic::Phx),
    (*b"PHY", Mnemonic::Phy),
    (*b"PLX", Mnemonic::Plx),
    (*b"PLY", Mnemonic::Ply),
    (*b"STZ", Mnemonic::Stz),
];

/// How many mnemonics are documented.
const DOCUMENTED: usize = 56;

/// Returns the mnemonic of profile N that a text names, as `mnemonic_in` does.
pub fn mnemonic_of(text: &[u8]) -> Option<Mnemonic>
    ensures { result ≡ mnemonic_named Profile.N text.now }
{
    mnemonic_in(Profile::N, text)
}

/// Returns the mnemonic of a profile that a text names, in any letter case; otherwise `None`.
///
/// Source: MCS6500 manual, appendix B; mos65 for the letter case and for what profile C adds.
pub fn mnemonic_in(profile: Profile, text: &[u8]) -> Option<Mnemonic>
    ensures { result ≡ mnemonic_named profile text.now }
{
    if text.len() != 3 {
        return None;
    }
    let names = match profile {
        Profile::N => &NAMES[..DOCUMENTED],
        Profile::C => &NAMES,
    };
    look_up(names, capitals(text))
}

/// Returns the three letters of a mnemonic, in capitals. (MCS6500 manual, appendix B; the last six
/// are profile C's.)
#[tactic(auto, using(crate::proofs::Naming::letters_at))]
pub fn letters_of(mnemonic: Mnemonic) -> [u8; 3]
    ensures { result ≡ mnemonic_text mnemonic }
{
    let names = &NAMES;
    names[mnemonic as usize].0
}

/// Three bytes, each small letter a capital.
#[tactic(auto, using(crate::proofs::Naming::capitals_is))]
fn capitals(text: &[u8]) -> [u8; 3]
    requires { length text.now ≡ 3 }
    ensures { result ≡ str_to_ascii_uppercase text.now }
{
    [
        text[0].to_ascii_uppercase(),
        text[1].to_ascii_uppercase(),
        text[2].to_ascii_uppercase(),
    ]
}

/// Returns the first mnemonic that has these letters.
fn look_up(names: &[([u8; 3], Mnemonic)], letters: [u8; 3]) -> Option<Mnemonic>
    ensures { result ≡ find_name letters names.now }
{
    for (name, mnemonic) in names {
        if *name == letters {
            return Some(*mnemonic);
        }
    }
    None
}
