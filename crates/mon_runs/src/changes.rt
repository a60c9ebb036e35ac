//! Changes of watched registers.

ghost use Rattle.std.specs.Prelude.{◌≡◌};
ghost use Rattle.mon_runs.specs.Stops.{change_at, changed_in, in_regs, register_change};

use crate::watches::Watch;
use debugger::Regs;
use mon_lines::Register;

/// A register that a step has changed, with its value before the step and after it.
#[derive(Clone, Copy)]
pub struct RegisterChange {
    pub register: Register,
    pub before: u16,
    pub after: u16,
}

/// Returns the value of a register.
pub fn in_regs(register: Register, regs: Regs) -> u16
    ensures { result ≡ in_regs register regs }
{
    match register {
        Register::A => regs.a as u16,
        Register::X => regs.x as u16,
        Register::Y => regs.y as u16,
        Register::S => regs.s as u16,
        Register::P => regs.flags.to_byte(false) as u16,
        Register::Pc => regs.pc,
    }
}

/// Returns how a step has changed a register, if it has.
fn changed_in(register: Register, before: Regs, after: Regs) -> Option<RegisterChange>
    ensures { result ≡ changed_in register before after }
{
    let before = in_regs(register, before);
    let after = in_regs(register, after);
    if before == after {
        return None;
    }
    Some(RegisterChange {
        register,
        before,
        after,
    })
}

/// Returns how a step has changed the register of a watch, if it is one of a register that has
/// changed.
fn change_at(before: Regs, after: Regs, watch: Watch) -> Option<RegisterChange>
    ensures { result ≡ change_at before after watch }
{
    match watch {
        Watch::Bytes { .. } => None,
        Watch::Register(register) => changed_in(register, before, after),
    }
}

/// Returns the change of the first watched register that a step has changed, if it has changed one.
#[tactic(auto, unfolding(crate::specs::Stops::register_change))]
pub fn first_change(watches: &[Watch], before: Regs, after: Regs) -> Option<RegisterChange>
    ensures { result ≡ register_change watches.now before after }
{
    for watch in watches {
        if let Some(change) = change_at(before, after, *watch) {
            return Some(change);
        }
    }
    None
}
