//! What is about to happen, and what has come of it.

ghost use Rattle.std.specs.Prelude.{◌≡◌};
ghost use Rattle.model.specs.State.{State};
ghost use Rattle.model.specs.Step.{entry_due};
ghost use Rattle.accesses.specs.Moments.{entered, enters_with, entry_stores, is_break, moment_of};
ghost use Rattle.accesses.specs.Moments.{stored_by, with_input_of};

use crate::row_here;
use crate::touches::{Addresses, addresses, below};
use debugger::Session;
use model::{Mnemonic, Regs, Row};

/// What is about to happen: the registers and the cycles before a step, what asks for an interrupt,
/// the instruction at PC if its opcode is documented, and its three bytes of memory.
#[derive(Clone, Copy, Debug, PartialEq, Eq)]
pub struct Moment {
    pub regs: Regs,
    pub cycles: u64,
    /// The level of the IRQ line.
    pub irq: bool,
    /// Whether an NMI is pending.
    pub nmi: bool,
    /// The port's control byte.
    pub control: bool,
    /// How many bytes of input were taken.
    pub taken: u32,
    pub row: Option<Row>,
    pub first: u8,
    pub second: u8,
    pub third: u8,
}

/// Returns what is about to happen in a session's current state. Source: mos65.
pub fn moment_of(session: &Session) -> Moment
    ensures { result ≡ moment_of session.now.current }
{
    let regs = session.regs();
    Moment {
        regs,
        cycles: session.cycles(),
        irq: session.irq(),
        nmi: session.nmi_is_pending(),
        control: session.bus().control(),
        taken: session.bus().taken(),
        row: row_here(session),
        first: session.peek(regs.pc),
        second: session.peek(regs.pc.wrapping_add(1)),
        third: session.peek(regs.pc.wrapping_add(2)),
    }
}

/// Returns whether a row is that of BRK.
pub fn is_break(row: Option<Row>) -> bool
    ensures { result ≡ is_break row }
{
    match row {
        None => false,
        Some(row) => matches!(row.mnemonic, Mnemonic::Brk),
    }
}

/// Returns the addresses where an interrupt entry pushes, by the stack pointer before it. Source:
/// MCS6500 manual, chapter 9.
pub fn entry_stores(s: u8) -> Addresses
    ensures { result.items ≡ entry_stores s }
{
    addresses(&[below(s, 0), below(s, 1), below(s, 2)])
}

impl Moment {
    /// Returns whether the step that is made from here is an interrupt entry, where so many bytes
    /// of input were handed in: an NMI is pending, or an IRQ is asked for and I is 0.
    fn enters_with(&self, given: u32) -> bool
        ensures { result ≡ enters_with given self.now }
    {
        let is_asked = self.irq || (self.control && self.taken < given);
        self.nmi || (is_asked && !self.regs.flags.i)
    }

    /// Returns whether the step that was made from here was an interrupt entry in place of the
    /// instruction. The session is in the state after it.
    ///
    /// Input may have been handed in between the moment and the step, and may have asked for the
    /// IRQ. A step hands nothing in, so the state after it has the input that it was made with.
    pub fn was_entered(&self, session: &Session) -> bool
        ensures value { result ≡ entered self.now session.now.current }
        // An entry was due where the step was made: in the state of the moment, with this input.
        ensures due { (before : State) → self.now ≡ moment_of before
            → result ≡ entry_due (with_input_of session.now.current before) }
    {
        self.enters_with(session.input_len())
    }

    /// Returns where the step that was made from here has stored: `stores`, which are those of its
    /// instruction, or what an interrupt entry pushes. The session is in the state after it.
    pub fn stored(&self, session: &Session, stores: Addresses) -> Addresses
        ensures { result.items ≡ stored_by (entered self.now session.now.current) self.now.regs.s
            stores.items }
    {
        if self.was_entered(session) {
            entry_stores(self.regs.s)
        } else {
            stores
        }
    }
}
