//! The ways through the code.

ghost use Rattle.std.specs.Prelude.{◌≡◌, ◌+◌, ◌%◌};
ghost use Rattle.c_frames.specs.Programs.{program_view};
ghost use Rattle.c_frames.specs.Ways.{begins_function, begins_with_enter, called, called_by};
ghost use Rattle.c_frames.specs.Ways.{goes_to, gone, is_branch, is_enter, is_pointer, jumped};
ghost use Rattle.c_frames.specs.Ways.{jumped_by, kind_of, loaded, no_ways, one_way, rise_with_y};
ghost use Rattle.c_frames.specs.Ways.{way_by, ways_at, ways_by_kind, y_called, y_way};

use crate::bytes::{byte_at, further, word_at};
use crate::programs::{Function, Program};
use crate::rises::{Rise, no_rise};
use crate::routines::{Effect, effect_at, fixed_rise, rise_by_y};
use optable::{Mnemonic, Mode, Row, branch_target, decode};

/// The opcode of JSR.
const JSR: u8 = 0x20;

/// The opcode of JMP to an address.
const JMP: u8 = 0x4C;

/// What an instruction does to control and to the stack pointers.
#[derive(Clone, Copy)]
pub enum Kind {
    Returns,
    Stops,
    Jumps,
    Calls,
    Pushes,
    Pulls,
    LoadsY,
    Stores,
    Goes,
}

/// What changes on a way.
#[derive(Clone, Copy)]
pub enum Change {
    /// The stack pointers rise.
    Rises(Rise),
    /// A routine is called, and returns.
    Calls(u16),
}

/// A way from an instruction: to an address, or to the end of its routine.
#[derive(Clone, Copy)]
pub struct Way {
    pub to: Option<u16>,
    pub change: Change,
}

/// The ways from an instruction, of which there are two at most.
#[derive(Clone, Copy)]
pub struct Ways {
    pub first: Option<Way>,
    pub second: Option<Way>,
}

/// Returns what an instruction does to control and to the stack pointers.
fn kind_of(mnemonic: Mnemonic) -> Kind
    ensures { result ≡ kind_of mnemonic }
{
    match mnemonic {
        Mnemonic::Rts => Kind::Returns,
        Mnemonic::Rti | Mnemonic::Brk | Mnemonic::Txs => Kind::Stops,
        Mnemonic::Jmp => Kind::Jumps,
        Mnemonic::Jsr => Kind::Calls,
        Mnemonic::Pha | Mnemonic::Php => Kind::Pushes,
        Mnemonic::Pla | Mnemonic::Plp => Kind::Pulls,
        Mnemonic::Ldy => Kind::LoadsY,
        Mnemonic::Sta | Mnemonic::Stx | Mnemonic::Sty | Mnemonic::Inc | Mnemonic::Dec => {
            Kind::Stores
        }
        Mnemonic::Asl | Mnemonic::Lsr | Mnemonic::Rol | Mnemonic::Ror => Kind::Stores,
        _ => Kind::Goes,
    }
}

/// Returns no ways.
fn no_ways() -> Ways
    ensures { result ≡ no_ways }
{
    Ways {
        first: None,
        second: None,
    }
}

/// Returns one way alone.
fn one_way(to: Option<u16>, change: Change) -> Ways
    ensures { result ≡ one_way to change }
{
    Ways {
        first: Some(Way { to, change }),
        second: None,
    }
}

/// Returns a way by which the stack pointers rise, if that is known.
fn way_by(to: Option<u16>, rise: Option<Rise>) -> Option<Way>
    ensures { result ≡ way_by to rise }
{
    Some(Way {
        to,
        change: Change::Rises(rise?),
    })
}

/// Returns the way to an address on which nothing changes.
fn goes_to(address: u16) -> Ways
    ensures { result ≡ goes_to address }
{
    one_way(Some(address), Change::Rises(no_rise()))
}

/// Returns whether what a call does is what begins a function with `...`.
fn is_enter(effect: Option<Effect>) -> bool
    ensures { result ≡ is_enter effect }
{
    match effect {
        Some(Effect::Enter) => true,
        _ => false,
    }
}

/// Returns whether a function with `...` begins at an address: with a call of `enter`.
fn begins_with_enter(program: &Program<'_>, address: u16) -> bool
    ensures { result ≡ begins_with_enter (program_view program.now) address }
{
    byte_at(program.memory, address) == JSR
        && is_enter(effect_at(
            program.routines,
            word_at(program.memory, further(address, 1)),
        ))
}

/// Returns whether one of some functions begins at an address.
fn begins_function(functions: &[Function], address: u16) -> bool
    ensures { result ≡ begins_function functions.now address }
{
    for function in functions {
        if function.start == address {
            return true;
        }
    }
    false
}

/// Returns the ways through a call of an address, by the effect of the routine there.
fn called_by(program: &Program<'_>, address: u16, to: Option<u16>, effect: Option<Effect>) -> Ways
    ensures { result ≡ called_by (program_view program.now) address to effect }
{
    match effect {
        None => {
            if begins_with_enter(program, address) {
                no_ways()
            } else {
                one_way(to, Change::Calls(address))
            }
        }
        Some(effect) => Ways {
            first: way_by(to, fixed_rise(effect)),
            second: None,
        },
    }
}

/// Returns the ways through a call of an address.
fn called(program: &Program<'_>, address: u16, to: Option<u16>) -> Ways
    ensures { result ≡ called (program_view program.now) address to }
{
    called_by(program, address, to, effect_at(program.routines, address))
}

/// Returns the ways through a jump to an address, by the effect of the routine there.
fn jumped_by(program: &Program<'_>, address: u16, effect: Option<Effect>) -> Ways
    ensures { result ≡ jumped_by (program_view program.now) address effect }
{
    if effect.is_some() || begins_function(program.functions, address) {
        called_by(program, address, None, effect)
    } else {
        goes_to(address)
    }
}

/// Returns the ways through a jump to an address.
fn jumped(program: &Program<'_>, mode: Mode, address: u16) -> Ways
    ensures { result ≡ jumped (program_view program.now) mode address }
{
    match mode {
        Mode::Abs => jumped_by(program, address, effect_at(program.routines, address)),
        _ => no_ways(),
    }
}

/// Returns what a call adds that goes by Y.
fn rise_with_y(program: &Program<'_>, address: u16, y: u8, effect: Option<Effect>) -> Option<Rise>
    ensures { result ≡ rise_with_y (program_view program.now) address y effect }
{
    match effect {
        None => {
            if begins_with_enter(program, address) {
                Some(Rise { sp: y as u16, s: 0 })
            } else {
                None
            }
        }
        Some(effect) => rise_by_y(effect, y),
    }
}

/// Returns the way through a call of an address that goes by Y.
fn y_called(program: &Program<'_>, address: u16, y: u8, to: Option<u16>) -> Option<Way>
    ensures { result ≡ y_called (program_view program.now) address y to }
{
    way_by(
        to,
        rise_with_y(program, address, y, effect_at(program.routines, address)),
    )
}

/// Returns the way from an `LDY #` through the call or the jump behind it.
fn y_way(program: &Program<'_>, address: u16, y: u8) -> Option<Way>
    ensures { result ≡ y_way (program_view program.now) address y }
{
    let behind = byte_at(program.memory, further(address, 2));
    let to = word_at(program.memory, further(address, 3));
    if behind == JSR {
        y_called(program, to, y, Some(further(address, 5)))
    } else if behind == JMP {
        y_called(program, to, y, None)
    } else {
        None
    }
}

/// Returns the way to the instruction behind one of so many bytes.
fn way_on(address: u16, len: u8) -> Option<Way>
    ensures { result ≡ (goes_to ((address + len) % 65536)).first }
{
    goes_to(further(address, len as u16)).first
}

/// Returns the ways from an LDY.
fn loaded(program: &Program<'_>, mode: Mode, address: u16, len: u8, y: u8) -> Ways
    ensures { result ≡ loaded (program_view program.now) mode address len y }
{
    match mode {
        Mode::Imm => Ways {
            first: way_on(address, len),
            second: y_way(program, address, y),
        },
        _ => goes_to(further(address, len as u16)),
    }
}

/// Returns whether an operand is a byte of the software stack pointer.
fn is_pointer(program: &Program<'_>, mode: Mode, second: u8) -> bool
    ensures { result ≡ is_pointer (program_view program.now) mode second }
{
    match mode {
        Mode::Zp => {
            second == program.pointer || second as u16 == (program.pointer as u16 + 1) % 256
        }
        _ => false,
    }
}

/// Returns whether a mode is that of branches.
fn is_branch(mode: Mode) -> bool
    ensures { result ≡ is_branch mode }
{
    match mode {
        Mode::Rel => true,
        _ => false,
    }
}

/// Returns the ways from an instruction that goes on, or branches.
fn gone(mode: Mode, address: u16, len: u8, second: u8) -> Ways
    ensures { result ≡ gone mode address len second }
{
    Ways {
        first: way_on(address, len),
        second: if is_branch(mode) {
            goes_to(branch_target(address, second)).first
        } else {
            None
        },
    }
}

/// Returns the ways from an instruction of a kind.
fn ways_by_kind(program: &Program<'_>, address: u16, row: Row, kind: Kind) -> Ways
    ensures { result ≡ ways_by_kind (program_view program.now) address row kind }
{
    let behind = further(address, row.len as u16);
    let operand = further(address, 1);
    match kind {
        Kind::Returns => one_way(None, Change::Rises(no_rise())),
        Kind::Stops => no_ways(),
        Kind::Jumps => jumped(program, row.mode, word_at(program.memory, operand)),
        Kind::Calls => called(program, word_at(program.memory, operand), Some(behind)),
        Kind::Pushes => one_way(Some(behind), Change::Rises(Rise { sp: 0, s: 255 })),
        Kind::Pulls => one_way(Some(behind), Change::Rises(Rise { sp: 0, s: 1 })),
        Kind::LoadsY => {
            let y = byte_at(program.memory, operand);
            loaded(program, row.mode, address, row.len, y)
        }
        Kind::Stores => {
            if is_pointer(program, row.mode, byte_at(program.memory, operand)) {
                no_ways()
            } else {
                goes_to(behind)
            }
        }
        Kind::Goes => gone(row.mode, address, row.len, byte_at(program.memory, operand)),
    }
}

/// Returns the ways from the instruction at an address.
#[tactic(auto, unfolding(crate::specs::Ways::ways_at))]
pub fn ways_at(program: &Program<'_>, address: u16) -> Ways
    ensures { result ≡ ways_at (program_view program.now) address }
{
    match decode(byte_at(program.memory, address)) {
        None => no_ways(),
        Some(row) => ways_by_kind(program, address, row, kind_of(row.mnemonic)),
    }
}
