//! The flags that an instruction may change.

ghost use Rattle.std.specs.Prelude.{◌≡◌};
ghost use Rattle.model.specs.State.{State};
ghost use Rattle.model.specs.declared.instruction.EffectiveAddress.{EffectiveAddress};
ghost use Rattle.model.specs.declared.instruction.Mode.{Mode};
ghost use Rattle.opcode_facts.specs.Changed.{KeepsOthers, changed_by, changed_by_modify};
ghost use Rattle.opcode_facts.specs.Changed.{changed_by_move, changed_by_read, of_result};
ghost use Rattle.opcode_facts.specs.Changed.{of_setting};

use model::{Flags, ModifyOp, ReadOp, RegisterOp};
use optable::{Operation, Profile};

/// Returns N and Z, and V and C if they are changed.
fn of_result(v: bool, c: bool) -> Flags
    ensures { result ≡ of_result v c }
{
    Flags {
        n: true,
        v,
        d: false,
        i: false,
        z: true,
        c,
    }
}

/// Returns those of V, D, I and C that are changed.
fn of_setting(v: bool, d: bool, i: bool, c: bool) -> Flags
    ensures { result ≡ of_setting v d i c }
{
    Flags {
        n: false,
        v,
        d,
        i,
        z: false,
        c,
    }
}

/// Returns the flags that an operation on a byte that is read changes.
fn changed_by_read(op: ReadOp) -> Flags
    ensures { result ≡ changed_by_read op }
{
    match op {
        ReadOp::Adc | ReadOp::Sbc => of_result(true, true),
        ReadOp::Bit => of_result(true, false),
        ReadOp::Cmp | ReadOp::Cpx | ReadOp::Cpy => of_result(false, true),
        ReadOp::Ora | ReadOp::And | ReadOp::Eor => of_result(false, false),
        ReadOp::Lda | ReadOp::Ldx | ReadOp::Ldy => of_result(false, false),
    }
}

/// Returns the flags that an operation on a byte that is written back changes.
fn changed_by_modify(op: ModifyOp) -> Flags
    ensures { result ≡ changed_by_modify op }
{
    match op {
        ModifyOp::Asl | ModifyOp::Rol | ModifyOp::Lsr | ModifyOp::Ror => of_result(false, true),
        ModifyOp::Dec | ModifyOp::Inc => of_result(false, false),
    }
}

/// Returns the flags that an operation on registers changes.
fn changed_by_move(op: RegisterOp) -> Flags
    ensures { result ≡ changed_by_move op }
{
    match op {
        RegisterOp::Clc | RegisterOp::Sec => of_setting(false, false, false, true),
        RegisterOp::Cli | RegisterOp::Sei => of_setting(false, false, true, false),
        RegisterOp::Clv => of_setting(true, false, false, false),
        RegisterOp::Cld | RegisterOp::Sed => of_setting(false, true, false, false),
        RegisterOp::Txs | RegisterOp::Nop => of_setting(false, false, false, false),
        RegisterOp::Txa | RegisterOp::Tya | RegisterOp::Tay => of_result(false, false),
        RegisterOp::Tax | RegisterOp::Tsx | RegisterOp::Dey => of_result(false, false),
        RegisterOp::Dex | RegisterOp::Iny | RegisterOp::Inx => of_result(false, false),
    }
}

/// Returns the flags that an operation changes in a profile.
fn flags_of(profile: Profile, operation: Operation) -> Flags
    ensures { result ≡ changed_by profile operation }
{
    match operation {
        Operation::Read(op) => changed_by_read(op),
        Operation::Modify(op) => changed_by_modify(op),
        Operation::Register(op) => changed_by_move(op),
        Operation::PullA | Operation::PullX | Operation::PullY => of_result(false, false),
        Operation::PullStatus | Operation::ReturnInterrupt => Flags {
            n: true,
            v: true,
            d: true,
            i: true,
            z: true,
            c: true,
        },
        Operation::Break => of_setting(false, profile == Profile::C, true, false),
        Operation::Store(_) | Operation::Branch(_) => of_setting(false, false, false, false),
        Operation::PushA | Operation::PushX => of_setting(false, false, false, false),
        Operation::PushY | Operation::PushStatus => of_setting(false, false, false, false),
        Operation::Jump | Operation::Call => of_setting(false, false, false, false),
        Operation::Return => of_setting(false, false, false, false),
    }
}

/// Returns the flags that an operation may change in a profile.
pub fn changed_by(profile: Profile, operation: Operation) -> Flags
    ensures flags { result ≡ changed_by profile operation }
    // It changes no other flag.
    ensures kept { (mode : Mode) (place : EffectiveAddress) (state : State)
        → state.bus.map.profile ≡ profile → KeepsOthers result operation mode place state }
{
    flags_of(profile, operation)
}
