//! Where parameters and locals are.

ghost use Rattle.std.specs.Prelude.{◌≡◌};
ghost use Rattle.c_frames.specs.Locals.{end_of, local_address, local_at, local_in, nearer};
ghost use Rattle.c_frames.specs.Locals.{nearer_end, nearest, parameters_end, size_of};
ghost use Rattle.c_frames.specs.Programs.{program_view};

use crate::closing::depth_at;
use crate::programs::{Function, Program};
use crate::rises::Depth;
use crate::walk::{Frame, known, pushed_first};

/// A parameter or a local on the software stack, as a debug file tells of it.
#[derive(Clone, Copy)]
pub struct Auto {
    /// Where it stands from the base of its frame, modulo 65,536.
    pub offset: u16,
    /// Whether the parameter or local that was declared before it is a register variable. What the
    /// register held is then saved above it, and no record says how many bytes that has.
    pub follows_register: bool,
}

/// Where a local is, and how many bytes it has, if that is known.
#[derive(Clone, Copy)]
pub struct Local {
    pub address: u16,
    pub size: Option<u16>,
}

/// Returns the address at an offset from a base.
fn local_address(base: u16, offset: u16) -> u16
    ensures { result ≡ local_address base offset }
{
    ((base as u32 + offset as u32) % 65536) as u16
}

/// Returns the lower one of an address that was found and of one more, if that is above a local.
fn nearer(local: u16, best: Option<u16>, other: u16) -> Option<u16>
    ensures { result ≡ nearer local best other }
{
    match best {
        None => { if local < other { Some(other) } else { None } }
        Some(best) => {
            if local < other && other < best {
                Some(other)
            } else {
                Some(best)
            }
        }
    }
}

/// Returns the lowest address above a local, of one that was found and of those of some locals.
fn nearest(local: u16, base: u16, found: Option<u16>, autos: &[Auto]) -> Option<u16>
    ensures { result ≡ nearest local base found autos.now }
{
    let mut best = found;
    for auto in autos {
        best = nearer(local, best, local_address(base, auto.offset));
    }
    best
}

/// Returns the address behind a function's parameters, if it is known.
fn parameters_end(
    program: &Program<'_>,
    rests: &[Depth],
    function: Function,
    base: u16,
) -> Option<u16>
    ensures { result ≡ parameters_end (program_view program.now) rests.now function base }
{
    let rise = known(depth_at(rests, function.start))?;
    let pushed = pushed_first(program, function.start);
    Some(((base as u32 + pushed as u32 + rise.sp as u32) % 65536) as u16)
}

/// Returns the lower one of an address that was found and of an end, if that is known and above a
/// local.
fn nearer_end(local: u16, best: Option<u16>, end: Option<u16>) -> Option<u16>
    ensures { result ≡ nearer_end local best end }
{
    match end {
        None => best,
        Some(end) => nearer(local, best, end),
    }
}

/// Returns the address behind a local, if it is known.
fn end_of(
    program: &Program<'_>,
    rests: &[Depth],
    function: Function,
    base: u16,
    autos: &[Auto],
    local: u16,
) -> Option<u16>
    ensures { result ≡ end_of (program_view program.now) rests.now function base autos.now local }
{
    let end = parameters_end(program, rests, function, base);
    let found = nearer_end(local, nearer(local, None, base), end);
    nearest(local, base, found, autos)
}

/// Returns how many bytes a local has that ends at an address, if that is known.
fn size_of(follows_register: bool, local: u16, end: Option<u16>) -> Option<u16>
    ensures { result ≡ size_of follows_register local end }
{
    if follows_register {
        return None;
    }
    Some(end?.saturating_sub(local))
}

/// Returns where a local is in a frame whose base is known.
fn local_in(
    program: &Program<'_>,
    rests: &[Depth],
    sp: u16,
    autos: &[Auto],
    auto: Auto,
    function: Function,
    base: u16,
) -> Option<Local>
    ensures { result
        ≡ local_in (program_view program.now) rests.now sp autos.now auto function base }
{
    let local = local_address(base, auto.offset);
    if local < sp {
        return None;
    }
    let end = end_of(program, rests, function, base, autos, local);
    Some(Local {
        address: local,
        size: size_of(auto.follows_register, local, end),
    })
}

/// Returns where a local is in a frame, by all locals of its function: nowhere if its address is
/// below the software stack pointer.
pub fn local_at(
    program: &Program<'_>,
    rests: &[Depth],
    frame: Frame,
    autos: &[Auto],
    auto: Auto,
) -> Option<Local>
    ensures { result ≡ local_at (program_view program.now) rests.now frame autos.now auto }
{
    local_in(
        program,
        rests,
        frame.sp,
        autos,
        auto,
        frame.function?,
        frame.base?,
    )
}
