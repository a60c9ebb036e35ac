//! What a command line asks for.

use crate::event::Setting;

/// A command of the debugger, with what it carries. Numbers are within the bounds named here.
#[derive(Clone, Copy, Debug, PartialEq, Eq)]
pub enum Command {
    /// `regs`: prints the registers.
    Regs,
    /// `step`: makes one step.
    Step,
    /// `mem LO HI`: prints memory from LO to HI, where LO is at most HI.
    Mem {
        first: u16,
        last: u16,
    },
    /// `out`: prints the output's bytes.
    Out,
    /// `set A HH`, also X, Y, S and P, and `set PC HHHH`: sets a register.
    Set(Setting),
    /// `patch A HH ..`: puts the first `count` bytes, 1 to 3, into memory from an address on.
    Patch {
        address: u16,
        bytes: [u8; 3],
        count: u8,
    },
    /// `reset`: resets the machine.
    Reset,
    /// `irq 0` and `irq 1`: sets the IRQ line.
    Irq(bool),
    /// `nmi`: requests an NMI.
    Nmi,
    /// `in HH ..`: hands in the first `count` bytes, 1 to 16, as input; all of them or none.
    Input {
        bytes: [u8; 16],
        count: u8,
    },
    /// `run N`: makes at most N steps, 1 to 1,000,000.
    Run(u32),
    /// `back N`: undoes the last N events, 1 to 1,000,000.
    Back(u32),
    /// `break A`: sets a breakpoint.
    Break(u16),
    /// `unbreak A`: clears a breakpoint.
    Unbreak(u16),
    /// `watch A`: sets a watchpoint.
    Watch(u16),
    /// `unwatch A`: clears a watchpoint.
    Unwatch(u16),
    /// `breaks`: prints the breakpoints in the order of setting.
    Breaks,
    /// `dis A N`: prints at most `count` instructions, 1 to 256, as text from an address on.
    Dis {
        address: u16,
        count: u32,
    },
    /// `asm A text`: assembles the first `count` bytes of the text, at least 1, at an address.
    Asm {
        address: u16,
        text: [u8; 255],
        count: u8,
    },
    /// `quit`: ends the session.
    Quit,
    /// A line without a word.
    Nothing,
    /// Any other line.
    Bad,
}
