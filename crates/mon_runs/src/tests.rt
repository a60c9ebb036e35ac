//! The tests of a break.

ghost use Rattle.std.specs.Prelude.{◌≡◌};
ghost use Rattle.std.specs.List.{list_all};
ghost use Rattle.model.specs.Arithmetic.{bit};
ghost use Rattle.mon_runs.specs.Stops.{all_hold, compares, holds, register_of, value_of};
ghost use Rattle.opcode_facts.specs.Flag.{has_flag};

use crate::changes::in_regs;
use debugger::Session;
use mon_lines::{Compare, Left, Register, Test};
use opcode_facts::Flag;

/// Returns the value of a register.
fn register_of(session: &Session, register: Register) -> u16
    ensures { result ≡ register_of register session.now.current }
{
    in_regs(register, session.regs())
}

/// Returns a flag, which is 0 or 1.
fn flag_of(session: &Session, flag: Flag) -> u16
    ensures { result ≡ bit (has_flag flag session.now.current.regs.flags) }
{
    flag.of(session.regs().flags) as u16
}

/// Returns the value of the left side of a test.
fn value_of(session: &Session, left: Left) -> u16
    ensures { result ≡ value_of left session.now.current }
{
    match left {
        Left::Register(register) => register_of(session, register),
        Left::Flag(flag) => flag_of(session, flag),
        Left::Byte(address) => session.peek(address) as u16,
    }
}

/// Returns whether a comparison holds between a value and the right side of a test.
fn compares(compare: Compare, value: u16, right: u16) -> bool
    ensures { result ≡ compares compare value right }
{
    match compare {
        Compare::Equal => value == right,
        Compare::Other => value != right,
        Compare::Less => value < right,
        Compare::LessOrEqual => value <= right,
        Compare::More => value > right,
        Compare::MoreOrEqual => value >= right,
    }
}

/// Returns whether a test holds at the current state. P counts with its bit 5 set and its bit 4
/// clear.
pub fn holds(session: &Session, test: Test) -> bool
    ensures { result ≡ holds session.now.current test }
{
    compares(test.compare, value_of(session, test.left), test.right)
}

/// Returns whether all tests hold at the current state.
pub fn all_hold(session: &Session, tests: &[Test]) -> bool
    ensures { result ≡ all_hold session.now.current tests.now }
{
    tests.iter().all(|test| holds(session, *test))
}
