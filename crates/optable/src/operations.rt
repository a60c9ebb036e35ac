//! What each mnemonic does.

ghost use Rattle.std.specs.Prelude.{◌≡◌};
ghost use Rattle.model.specs.Effect.{operation_of};

use model::{BranchOp, Mnemonic, ModifyOp, Operation, ReadOp, RegisterOp, StoreOp};

/// Returns the operation of a mnemonic, by the way in which it uses its operand.
///
/// Source: MCS6500 manual, appendix A.
#[inline(always)]
#[tactic(auto, unfolding(model::specs::Effect::operation_of))]
pub fn operation(mnemonic: Mnemonic) -> Operation
    ensures { result ≡ operation_of mnemonic }
{
    match mnemonic {
        Mnemonic::Ora => Operation::Read(ReadOp::Ora),
        Mnemonic::And => Operation::Read(ReadOp::And),
        Mnemonic::Eor => Operation::Read(ReadOp::Eor),
        Mnemonic::Adc => Operation::Read(ReadOp::Adc),
        Mnemonic::Lda => Operation::Read(ReadOp::Lda),
        Mnemonic::Cmp => Operation::Read(ReadOp::Cmp),
        Mnemonic::Sbc => Operation::Read(ReadOp::Sbc),
        Mnemonic::Ldx => Operation::Read(ReadOp::Ldx),
        Mnemonic::Ldy => Operation::Read(ReadOp::Ldy),
        Mnemonic::Cpx => Operation::Read(ReadOp::Cpx),
        Mnemonic::Cpy => Operation::Read(ReadOp::Cpy),
        Mnemonic::Bit => Operation::Read(ReadOp::Bit),
        Mnemonic::Sta => Operation::Store(StoreOp::Sta),
        Mnemonic::Stx => Operation::Store(StoreOp::Stx),
        Mnemonic::Sty => Operation::Store(StoreOp::Sty),
        Mnemonic::Stz => Operation::Store(StoreOp::Stz),
        Mnemonic::Asl => Operation::Modify(ModifyOp::Asl),
        Mnemonic::Rol => Operation::Modify(ModifyOp::Rol),
        Mnemonic::Lsr => Operation::Modify(ModifyOp::Lsr),
        Mnemonic::Ror => Operation::Modify(ModifyOp::Ror),
        Mnemonic::Dec => Operation::Modify(ModifyOp::Dec),
        Mnemonic::Inc => Operation::Modify(ModifyOp::Inc),
        Mnemonic::Clc => Operation::Register(RegisterOp::Clc),
        Mnemonic::Sec => Operation::Register(RegisterOp::Sec),
        Mnemonic::Cli => Operation::Register(RegisterOp::Cli),
        Mnemonic::Sei => Operation::Register(RegisterOp::Sei),
        Mnemonic::Clv => Operation::Register(RegisterOp::Clv),
        Mnemonic::Cld => Operation::Register(RegisterOp::Cld),
        Mnemonic::Sed => Operation::Register(RegisterOp::Sed),
        Mnemonic::Txa => Operation::Register(RegisterOp::Txa),
        Mnemonic::Tya => Operation::Register(RegisterOp::Tya),
        Mnemonic::Txs => Operation::Register(RegisterOp::Txs),
        Mnemonic::Tay => Operation::Register(RegisterOp::Tay),
        Mnemonic::Tax => Operation::Register(RegisterOp::Tax),
        Mnemonic::Tsx => Operation::Register(RegisterOp::Tsx),
        Mnemonic::Dey => Operation::Register(RegisterOp::Dey),
        Mnemonic::Dex => Operation::Register(RegisterOp::Dex),
        Mnemonic::Iny => Operation::Register(RegisterOp::Iny),
        Mnemonic::Inx => Operation::Register(RegisterOp::Inx),
        Mnemonic::Nop => Operation::Register(RegisterOp::Nop),
        Mnemonic::Bpl => Operation::Branch(BranchOp::Bpl),
        Mnemonic::Bmi => Operation::Branch(BranchOp::Bmi),
        Mnemonic::Bvc => Operation::Branch(BranchOp::Bvc),
        Mnemonic::Bvs => Operation::Branch(BranchOp::Bvs),
        Mnemonic::Bcc => Operation::Branch(BranchOp::Bcc),
        Mnemonic::Bcs => Operation::Branch(BranchOp::Bcs),
        Mnemonic::Bne => Operation::Branch(BranchOp::Bne),
        Mnemonic::Beq => Operation::Branch(BranchOp::Beq),
        Mnemonic::Bra => Operation::Branch(BranchOp::Bra),
        Mnemonic::Pha => Operation::PushA,
        Mnemonic::Phx => Operation::PushX,
        Mnemonic::Phy => Operation::PushY,
        Mnemonic::Php => Operation::PushStatus,
        Mnemonic::Pla => Operation::PullA,
        Mnemonic::Plx => Operation::PullX,
        Mnemonic::Ply => Operation::PullY,
        Mnemonic::Plp => Operation::PullStatus,
        Mnemonic::Jmp => Operation::Jump,
        Mnemonic::Jsr => Operation::Call,
        Mnemonic::Rts => Operation::Return,
        Mnemonic::Rti => Operation::ReturnInterrupt,
        Mnemonic::Brk => Operation::Break,
    }
}
