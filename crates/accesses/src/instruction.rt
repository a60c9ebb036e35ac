//! The instruction at PC.

ghost use Rattle.std.specs.Prelude.{◌≡◌};
ghost use Rattle.model.specs.Effect.{operation_of};
ghost use Rattle.cpu_step.specs.Access.{access_here, access_of, row_here};

use cpu_step::Access;
use debugger::Session;
use model::{Mode, Operation, Row};
use modes::resolve;
use optable::{decode_in, operation};

/// Returns the row of the instruction at PC, or `None` if its opcode is not documented.
#[inline(always)]
pub fn row_here(session: &Session) -> Option<Row>
    ensures { result ≡ row_here session.now.current }
{
    decode_in(session.profile(), session.peek(session.regs().pc))
}

/// Returns what an operation reads and stores.
#[inline(always)]
#[tactic(auto, unfolding(cpu_step::specs::Access::access_of))]
fn access_of(operation: Operation, mode: Mode, address: u16) -> Access
    ensures { result ≡ access_of operation mode address }
{
    let mut access = Access {
        read: None,
        store: None,
        pushes: 0,
    };
    match operation {
        Operation::Read(_) => {
            if !matches!(mode, Mode::Imm) {
                access.read = Some(address);
            }
        }
        Operation::Store(_) => access.store = Some(address),
        Operation::Modify(_) => {
            if !matches!(mode, Mode::Acc) {
                access.read = Some(address);
                access.store = Some(address);
            }
        }
        Operation::PushA | Operation::PushX | Operation::PushY | Operation::PushStatus => {
            access.pushes = 1;
        }
        Operation::Call => access.pushes = 2,
        Operation::Break => access.pushes = 3,
        _ => {}
    }
    access
}

/// Returns what the instruction at PC reads and stores, before its step is made.
///
/// An interrupt entry may come in its place. Nothing is read or stored by an opcode that is not
/// documented. Source: MCS6500 manual, appendix B; mos65 for the port.
#[inline(always)]
#[tactic(auto, unfolding(cpu_step::specs::Access::access_here))]
pub fn access_here(session: &Session) -> Access
    ensures { result ≡ access_here session.now.current }
{
    match row_here(session) {
        None => Access {
            read: None,
            store: None,
            pushes: 0,
        },
        Some(row) => access_of(
            operation(row.mnemonic),
            row.mode,
            resolve(session.bus(), &session.regs(), row.mode).address,
        ),
    }
}
