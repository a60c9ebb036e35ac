//! The mnemonics of each profile.

ghost use Rattle.std.specs.Prelude.{◌≡◌};
ghost use Rattle.model.specs.Mnemonics.{mnemonics};

use model::{Mnemonic, Profile};

/// All mnemonics, first those of profile N.
const MNEMONICS: [Mnemonic; 62] = [
    Mnemonic::Adc,
    Mnemonic::And,
    Mnemonic::Asl,
    Mnemonic::Bcc,
    Mnemonic::Bcs,
    Mnemonic::Beq,
    Mnemonic::Bit,
    Mnemonic::Bmi,
    Mnemonic::Bne,
    Mnemonic::Bpl,
    Mnemonic::Brk,
    Mnemonic::Bvc,
    Mnemonic::Bvs,
    Mnemonic::Clc,
    Mnemonic::Cld,
    Mnemonic::Cli,
    Mnemonic::Clv,
    Mnemonic::Cmp,
    Mnemonic::Cpx,
    Mnemonic::Cpy,
    Mnemonic::Dec,
    Mnemonic::Dex,
    Mnemonic::Dey,
    Mnemonic::Eor,
    Mnemonic::Inc,
    Mnemonic::Inx,
    Mnemonic::Iny,
    Mnemonic::Jmp,
    Mnemonic::Jsr,
    Mnemonic::Lda,
    Mnemonic::Ldx,
    Mnemonic::Ldy,
    Mnemonic::Lsr,
    Mnemonic::Nop,
    Mnemonic::Ora,
    Mnemonic::Pha,
    Mnemonic::Php,
    Mnemonic::Pla,
    Mnemonic::Plp,
    Mnemonic::Rol,
    Mnemonic::Ror,
    Mnemonic::Rti,
    Mnemonic::Rts,
    Mnemonic::Sbc,
    Mnemonic::Sec,
    Mnemonic::Sed,
    Mnemonic::Sei,
    Mnemonic::Sta,
    Mnemonic::Stx,
    Mnemonic::Sty,
    Mnemonic::Tax,
    Mnemonic::Tay,
    Mnemonic::Tsx,
    Mnemonic::Txa,
    Mnemonic::Txs,
    Mnemonic::Tya,
    Mnemonic::Bra,
    Mnemonic::Phx,
    Mnemonic::Phy,
    Mnemonic::Plx,
    Mnemonic::Ply,
    Mnemonic::Stz,
];

/// How many mnemonics profile N has.
const DOCUMENTED: usize = 56;

/// Returns the mnemonics of a profile.
#[tactic(auto, unfolding(model::specs::Mnemonics::mnemonics))]
pub fn mnemonics_in(profile: Profile) -> &'static [Mnemonic]
    ensures { result.now ≡ mnemonics profile }
{
    match profile {
        Profile::N => &MNEMONICS[..DOCUMENTED],
        Profile::C => &MNEMONICS,
    }
}
