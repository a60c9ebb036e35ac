//! What the opcode table says of an instruction.

ghost use Rattle.std.specs.Prelude.{◌≡◌, ◌+◌, ◌%◌};
ghost use Rattle.model.specs.Operand.{indexed, moved_from, straight, target};

/// Which processor a machine has; its assembler, its listings and its session follow it.
#[derive(Clone, Copy, Debug, PartialEq, Eq)]
pub enum Profile {
    /// The NMOS 6502: its 151 documented opcodes.
    N,
    /// Those of N and 19 more, with six more mnemonics and one more mode. It is mos65's own and
    /// describes no chip.
    C,
}

/// The 56 mnemonics of the documented instructions, and the six that profile C adds.
#[derive(Clone, Copy, Debug, PartialEq, Eq)]
pub enum Mnemonic {
    Adc,
    And,
    Asl,
    Bcc,
    Bcs,
    Beq,
    Bit,
    Bmi,
    Bne,
    Bpl,
    Brk,
    Bvc,
    Bvs,
    Clc,
    Cld,
    Cli,
    Clv,
    Cmp,
    Cpx,
    Cpy,
    Dec,
    Dex,
    Dey,
    Eor,
    Inc,
    Inx,
    Iny,
    Jmp,
    Jsr,
    Lda,
    Ldx,
    Ldy,
    Lsr,
    Nop,
    Ora,
    Pha,
    Php,
    Pla,
    Plp,
    Rol,
    Ror,
    Rti,
    Rts,
    Sbc,
    Sec,
    Sed,
    Sei,
    Sta,
    Stx,
    Sty,
    Tax,
    Tay,
    Tsx,
    Txa,
    Txs,
    Tya,
    /// Profile C alone: branch always.
    Bra,
    /// Profile C alone: push X.
    Phx,
    /// Profile C alone: push Y.
    Phy,
    /// Profile C alone: pull X.
    Plx,
    /// Profile C alone: pull Y.
    Ply,
    /// Profile C alone: store 0.
    Stz,
}

/// The 13 addressing modes, and the one that profile C adds.
#[derive(Clone, Copy, Debug, PartialEq, Eq)]
pub enum Mode {
    /// Implied: no operand.
    Imp,
    /// The accumulator.
    Acc,
    /// Immediate: the byte after the opcode is the operand.
    Imm,
    /// Zero page.
    Zp,
    /// Zero page, indexed by X.
    ZpX,
    /// Zero page, indexed by Y.
    ZpY,
    /// Absolute.
    Abs,
    /// Absolute, indexed by X.
    AbsX,
    /// Absolute, indexed by Y.
    AbsY,
    /// Indexed indirect: X is added to the pointer's address.
    IndX,
    /// Indirect indexed: Y is added to the address at the pointer.
    IndY,
    /// Absolute indirect, for JMP alone.
    Ind,
    /// Relative, for branches alone.
    Rel,
    /// Zero page indirect, for profile C alone: the address is in a pointer in the zero page.
    IndZ,
}

/// What the opcode table says of one opcode.
#[derive(Clone, Copy, Debug, PartialEq, Eq)]
pub struct Row {
    pub mnemonic: Mnemonic,
    pub mode: Mode,
    /// The length in bytes, 1 to 3, with the opcode.
    pub len: u8,
    /// The cycles, without those for a page crossing or a taken branch.
    pub cycles: u8,
    /// Whether a page crossing costs one more cycle.
    pub penalty: bool,
}

/// The address of an operand, and whether finding it crossed a page.
#[derive(Clone, Copy, Debug, PartialEq, Eq)]
pub struct EffectiveAddress {
    /// The effective address, 0..65535.
    pub address: u16,
    /// Whether the effective address and its base have different high bytes.
    pub crossed: bool,
}

impl EffectiveAddress {
    /// Returns an address for which no page was crossed.
    #[inline(always)]
    pub fn straight(address: u16) -> EffectiveAddress
        ensures { result ≡ straight address }
    {
        EffectiveAddress {
            address,
            crossed: false,
        }
    }

    /// Returns a base with an index added.
    #[inline(always)]
    pub fn indexed(base: u16, index: u8) -> EffectiveAddress
        ensures { result ≡ indexed base index }
    {
        EffectiveAddress::moved(base, base.wrapping_add(index as u16))
    }

    /// Returns a branch's target: the next instruction's address plus a signed byte.
    #[inline(always)]
    pub fn branch_target(next: u16, byte: u8) -> EffectiveAddress
        ensures { result ≡ target next byte }
    {
        let distance = if byte < 128 {
            byte as u16
        } else {
            byte as u16 + 0xff00
        };
        EffectiveAddress::moved(next, next.wrapping_add(distance))
    }

    /// Returns an address that was reached from a base.
    #[inline(always)]
    fn moved(base: u16, address: u16) -> EffectiveAddress
        ensures { result ≡ moved_from base address }
    {
        EffectiveAddress {
            address,
            crossed: base >> 8 != address >> 8,
        }
    }
}
