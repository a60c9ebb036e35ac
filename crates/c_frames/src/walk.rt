//! From one state to its callers.

ghost use Rattle.std.specs.Prelude.{◌≡◌, ◌+◌, ◌≤◌, ◌<◌, IfOk, Some};
ghost use Rattle.c_frames.specs.Frames.{base_in, base_of, call_before, call_of, caller_of, differs};
ghost use Rattle.c_frames.specs.Frames.{entry_of, frame_at, frames_from, function_at, has_byte};
ghost use Rattle.c_frames.specs.Frames.{is_differing, known, pushed_by, pushed_first, rise_at};
ghost use Rattle.c_frames.specs.Frames.{rise_in};
ghost use Rattle.c_frames.specs.Closures.{depth_at};
ghost use Rattle.c_frames.specs.Programs.{program_view};

use crate::bytes::{byte_at, further, word_at};
use crate::closing::depth_at;
use crate::programs::{Function, Program};
use crate::rises::{Depth, Rise};
use crate::routines::{Effect, effect_at};
use std::alloc::{AllocError, Global};

/// The opcode of JSR.
const JSR: u8 = 0x20;

/// How many frames are told at most.
const FRAMES: u32 = 128;

/// Where a machine or a caller stands: the instruction, and both stack pointers before it.
#[derive(Clone, Copy)]
pub struct Standing {
    pub pc: u16,
    pub s: u8,
    pub sp: u16,
}

/// A frame: the instruction at which it stands, both stack pointers before it, and its function.
#[derive(Clone, Copy)]
pub struct Frame {
    pub address: u16,
    pub s: u8,
    pub sp: u16,
    pub function: Option<Function>,
    /// What the software stack pointer was once the function's last parameter was pushed.
    pub base: Option<u16>,
}

/// Returns whether a function has the byte at an address.
fn has_byte(address: u16, function: Function) -> bool
    ensures { result ≡ has_byte address function }
{
    function.start <= address && (address as u32) < function.start as u32 + function.size as u32
}

/// Returns the first of some functions that has the byte at an address.
fn function_at(functions: &[Function], address: u16) -> Option<Function>
    ensures { result ≡ function_at functions.now address }
{
    for function in functions {
        if has_byte(address, *function) {
            return Some(*function);
        }
    }
    None
}

/// Returns whether two ways differ.
fn is_differing(depth: Depth) -> bool
    ensures { result ≡ is_differing depth }
{
    match depth {
        Depth::Unknown | Depth::Known(_) => false,
        Depth::Differing => true,
    }
}

/// Returns whether two ways differ at an address, which may be past the last one.
fn differs_at(depths: &[Depth], address: usize) -> bool
    ensures { result ≡ is_differing (depth_at depths.now address) }
{
    address < depths.len() && is_differing(depths[address])
}

/// Returns whether two ways differ at an address of a function.
fn differs(depths: &[Depth], function: Function) -> bool
    ensures { result ≡ differs depths.now function.start function.size }
{
    let mut found = false;
    for count in 0..function.size {
        if differs_at(depths, function.start as usize + count as usize) {
            found = true;
        }
    }
    found
}

/// Returns the one rise that is known.
pub fn known(depth: Depth) -> Option<Rise>
    ensures { result ≡ known depth }
{
    match depth {
        Depth::Known(rise) => Some(rise),
        Depth::Unknown | Depth::Differing => None,
    }
}

/// Returns how far the stack pointers have gone up in a function, if that is known.
fn rise_in(depths: &[Depth], function: Function, address: u16) -> Option<Rise>
    ensures { result ≡ rise_in depths.now function address }
{
    if differs(depths, function) {
        None
    } else {
        known(depth_at(depths, address))
    }
}

/// Returns the same of the function at an address.
fn rise_at(program: &Program<'_>, depths: &[Depth], address: u16) -> Option<Rise>
    ensures { result ≡ rise_at (program_view program.now) depths.now address }
{
    rise_in(depths, function_at(program.functions, address)?, address)
}

/// Returns how many bytes of a last parameter a routine pushes.
fn pushed_by(effect: Option<Effect>) -> u8
    ensures { result ≡ pushed_by effect }
{
    match effect {
        Some(Effect::Pushes(number)) => number,
        Some(Effect::Enter) => 1,
        _ => 0,
    }
}

/// Returns how many bytes of its last parameter a function pushes first of all.
pub fn pushed_first(program: &Program<'_>, start: u16) -> u8
    ensures { result ≡ pushed_first (program_view program.now) start }
{
    if byte_at(program.memory, start) == JSR {
        let routine = word_at(program.memory, further(start, 1));
        pushed_by(effect_at(program.routines, routine))
    } else {
        0
    }
}

/// Returns where the machine stood before the stack pointers rose.
fn entry_of(at: Standing, rise: Rise) -> Standing
    ensures { result ≡ entry_of at rise }
{
    Standing {
        pc: at.pc,
        s: ((at.s as u16 + 256 - rise.s as u16) % 256) as u8,
        sp: ((at.sp as u32 + 65536 - rise.sp as u32) % 65536) as u16,
    }
}

/// Returns what the software stack pointer is once a function's last parameter is pushed.
fn base_of(program: &Program<'_>, function: Function, entry: Standing) -> u16
    ensures { result ≡ base_of (program_view program.now) function entry }
{
    let pushed = pushed_first(program, function.start);
    ((entry.sp as u32 + 65536 - pushed as u32) % 65536) as u16
}

/// Returns the base of the frame in a function, if it is known.
fn base_in(program: &Program<'_>, depths: &[Depth], at: Standing, function: Function) -> Option<u16>
    ensures { result ≡ base_in (program_view program.now) depths.now at function }
{
    let rise = rise_in(depths, function, at.pc)?;
    Some(base_of(program, function, entry_of(at, rise)))
}

/// Returns the frame at which a machine stands.
fn frame_at(program: &Program<'_>, depths: &[Depth], at: Standing) -> Frame
    ensures { result ≡ frame_at (program_view program.now) depths.now at }
{
    let function = function_at(program.functions, at.pc);
    let base = match function {
        None => None,
        Some(function) => base_in(program, depths, at, function),
    };
    Frame {
        address: at.pc,
        s: at.s,
        sp: at.sp,
        function,
        base,
    }
}

/// Returns the address of the call that led to the first byte of a function.
fn call_before(memory: &[u8], entry: Standing) -> u16
    requires { entry.s ≤ 253 }
    ensures { result ≡ call_before memory.now entry }
{
    let low = byte_at(memory, 256 + (entry.s as u16 + 1));
    let high = byte_at(memory, 256 + (entry.s as u16 + 2));
    ((low as u32 + 256 * high as u32 + 65534) % 65536) as u16
}

/// Returns where the caller stands at its call, if a JSR stands there.
fn call_of(memory: &[u8], entry: Standing) -> Option<Standing>
    ensures { result ≡ call_of memory.now entry }
{
    if 253 < entry.s {
        return None;
    }
    let call = call_before(memory, entry);
    if byte_at(memory, call) == JSR {
        Some(Standing {
            pc: call,
            s: entry.s + 2,
            sp: entry.sp,
        })
    } else {
        None
    }
}

/// Returns where the caller of a function stands, if that is known.
fn caller_of(
    program: &Program<'_>,
    depths: &[Depth],
    memory: &[u8],
    at: Standing,
) -> Option<Standing>
    ensures { result ≡ caller_of (program_view program.now) depths.now memory.now at }
{
    call_of(memory, entry_of(at, rise_at(program, depths, at.pc)?))
}

/// Returns the frames at a state of a program, the innermost first, as far as they are known and at
/// most 128. `memory` has the bytes as they are then. The only error is that an allocation failed.
pub fn frames(
    alloc: Global,
    program: &Program<'_>,
    depths: &[Depth],
    memory: &[u8],
    at: Standing,
) -> Result<Vec<Frame>, AllocError>
    ensures { IfOk result (λ frames. frames.items
        ≡ frames_from (program_view program.now) depths.now memory.now 128 (Some at)) }
{
    let mut frames = Vec::new(alloc);
    let mut next = Some(at);
    for _ in 0..FRAMES {
        let Some(at) = next else { return Ok(frames) };
        frames.push(frame_at(program, depths, at))?;
        next = caller_of(program, depths, memory, at);
    }
    Ok(frames)
}
