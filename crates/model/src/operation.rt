//! What a mnemonic does, by the way in which it uses its operand.

/// What a mnemonic does, by the way in which it uses its operand.
#[derive(Clone, Copy)]
pub enum Operation {
    Read(ReadOp),
    Store(StoreOp),
    Modify(ModifyOp),
    Register(RegisterOp),
    Branch(BranchOp),
    /// PHA.
    PushA,
    /// PHX.
    PushX,
    /// PHY.
    PushY,
    /// PHP.
    PushStatus,
    /// PLA.
    PullA,
    /// PLX.
    PullX,
    /// PLY.
    PullY,
    /// PLP.
    PullStatus,
    /// JMP.
    Jump,
    /// JSR.
    Call,
    /// RTS.
    Return,
    /// RTI.
    ReturnInterrupt,
    /// BRK.
    Break,
}

/// Reads a byte and changes registers.
#[derive(Clone, Copy)]
pub enum ReadOp {
    Ora,
    And,
    Eor,
    Adc,
    Lda,
    Cmp,
    Sbc,
    Ldx,
    Ldy,
    Cpx,
    Cpy,
    Bit,
}

/// Stores a register, or 0.
#[derive(Clone, Copy)]
pub enum StoreOp {
    Sta,
    Stx,
    Sty,
    Stz,
}

/// Reads a byte, and writes another to the same place.
#[derive(Clone, Copy)]
pub enum ModifyOp {
    Asl,
    Rol,
    Lsr,
    Ror,
    Dec,
    Inc,
}

/// Changes registers alone, or nothing.
#[derive(Clone, Copy)]
pub enum RegisterOp {
    Clc,
    Sec,
    Cli,
    Sei,
    Clv,
    Cld,
    Sed,
    Txa,
    Tya,
    Txs,
    Tay,
    Tax,
    Tsx,
    Dey,
    Dex,
    Iny,
    Inx,
    Nop,
}

/// Branches if a flag is clear, or if it is set, or always.
#[derive(Clone, Copy)]
pub enum BranchOp {
    Bpl,
    Bmi,
    Bvc,
    Bvs,
    Bcc,
    Bcs,
    Bne,
    Beq,
    Bra,
}
