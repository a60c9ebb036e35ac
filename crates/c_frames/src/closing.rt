//! The least tables closed under the rules.

ghost use Rattle.std.specs.Prelude.{◌≡◌, IfOk, length, replicate};
ghost use Rattle.c_frames.specs.Closures.{AreBegun, AreDepths, AreDepthsClosed, AreRests};
ghost use Rattle.c_frames.specs.Closures.{AreRestsClosed, GoesAlong, GoesOn, change_by};
ghost use Rattle.c_frames.specs.Closures.{depth_along, depth_at, rest_along, rest_by, rest_from};
ghost use Rattle.c_frames.specs.Closures.{returned};
ghost use Rattle.c_frames.specs.Programs.{program_view};
ghost use Rattle.c_frames.specs.Raising.{Raises, room_of};
ghost use Rattle.c_frames.specs.Rises.{IsBelow, no_rise};

use crate::programs::{Function, Program};
use crate::rises::{Depth, joined, no_rise, summed};
use crate::ways::{Change, Way, Ways, ways_at};
use std::alloc::{AllocError, Global};

/// Returns what a table knows at an address.
pub fn depth_at(table: &[Depth], address: u16) -> Depth
    ensures { result ≡ depth_at table.now address }
{
    let at = address as usize;
    if at < table.len() {
        table[at]
    } else {
        Depth::Unknown
    }
}

/// Returns what a routine adds that returns to its call.
fn returned(rest: Depth) -> Depth
    ensures { result ≡ returned rest }
{
    match rest {
        Depth::Unknown => Depth::Unknown,
        Depth::Known(rise) => { if rise.s == 0 { rest } else { Depth::Unknown } }
        Depth::Differing => Depth::Differing,
    }
}

/// Returns what is known of a change.
fn change_by(rests: &[Depth], change: Change) -> Depth
    ensures { result ≡ change_by (depth_at rests.now) change }
{
    match change {
        Change::Rises(rise) => Depth::Known(rise),
        Change::Calls(address) => returned(depth_at(rests, address)),
    }
}

/// Returns what is added from where a way leads.
fn rest_from(rests: &[Depth], to: Option<u16>) -> Depth
    ensures { result ≡ rest_from (depth_at rests.now) to }
{
    match to {
        None => Depth::Known(no_rise()),
        Some(address) => depth_at(rests, address),
    }
}

/// Returns what is added on a way and from where it leads.
fn rest_along(rests: &[Depth], way: Option<Way>) -> Depth
    ensures { result ≡ rest_along (depth_at rests.now) way }
{
    match way {
        None => Depth::Unknown,
        Some(way) => summed(change_by(rests, way.change), rest_from(rests, way.to)),
    }
}

/// Returns what is added from an instruction on, by the ways from it.
fn rest_by(rests: &[Depth], ways: Ways) -> Depth
    ensures { result ≡ rest_by (depth_at rests.now) ways }
{
    joined(
        rest_along(rests, ways.first),
        rest_along(rests, ways.second),
    )
}

/// Returns how often what is known can still change.
fn room_of(depth: Depth) -> u8
    ensures { result ≡ room_of depth }
{
    match depth {
        Depth::Unknown => 2,
        Depth::Known(_) => 1,
        Depth::Differing => 0,
    }
}

/// Puts what is known of one more way to an address into a table. Returns whether that changed it.
fn raise(table: &mut Vec<Depth>, address: u16, depth: Depth) -> bool
    requires { length table.old.items ≡ 65536 }
    ensures { Raises (λ depths. IsBelow depth (depths address))
        (λ depths. IsBelow depth (depths address)) table.old.items table.new.items result }
{
    let at = address as usize;
    let was = table[at];
    let is = joined(was, depth);
    table[at] = is;
    room_of(is) < room_of(was)
}

/// Raises a table once at each address, from the last to the first. Returns whether that changed
/// it.
fn raise_rests(program: &Program<'_>, rests: &mut Vec<Depth>) -> bool
    requires { length rests.old.items ≡ 65536 }
    ensures { Raises (AreRestsClosed (program_view program.now))
        (AreRestsClosed (program_view program.now)) rests.old.items rests.new.items result }
{
    let mut has_changed = false;
    for count in 0..65536u32 {
        let address = (65535 - count) as u16;
        let rest = rest_by(rests, ways_at(program, address));
        has_changed = raise(rests, address, rest) | has_changed;
    }
    has_changed
}

/// Makes a table in which nothing is known.
fn unknown_table(alloc: Global) -> Result<Vec<Depth>, AllocError>
    ensures { IfOk result (λ table. table.items ≡ replicate 65536 Depth.Unknown) }
{
    let mut table = Vec::new(alloc);
    table.resize(65536, Depth::Unknown)?;
    Ok(table)
}

/// Returns what is added from each instruction to the end of its routine. The only error is that an
/// allocation failed.
pub fn rests(alloc: Global, program: &Program<'_>) -> Result<Vec<Depth>, AllocError>
    ensures { IfOk result (λ table. AreRests (program_view program.now) table.items) }
{
    let mut table = unknown_table(alloc)?;
    while raise_rests(program, &mut table) {}
    Ok(table)
}

/// Puts what is known at an instruction along a way into a table. Returns whether that changed it.
fn raise_along(depths: &mut Vec<Depth>, rests: &[Depth], depth: Depth, way: Option<Way>) -> bool
    requires { length depths.old.items ≡ 65536 }
    ensures { Raises (GoesAlong (depth_at rests.now) depth way)
        (GoesAlong (depth_at rests.now) depth way) depths.old.items depths.new.items result }
{
    let Some(way) = way else { return false };
    let Some(to) = way.to else { return false };
    raise(depths, to, summed(depth, change_by(rests, way.change)))
}

/// Puts what is known at an instruction along its ways. Returns whether that changed the table.
fn raise_on(depths: &mut Vec<Depth>, rests: &[Depth], depth: Depth, ways: Ways) -> bool
    requires { length depths.old.items ≡ 65536 }
    ensures { Raises (GoesOn (depth_at rests.now) depth ways)
        (GoesOn (depth_at rests.now) depth ways) depths.old.items depths.new.items result }
{
    let by_first = raise_along(depths, rests, depth, ways.first);
    raise_along(depths, rests, depth, ways.second) | by_first
}

/// Puts what is known at the first bytes of functions into a table. Returns whether that changed
/// it.
fn raise_starts(depths: &mut Vec<Depth>, functions: &[Function]) -> bool
    requires { length depths.old.items ≡ 65536 }
    ensures { Raises (AreBegun functions.now) (AreBegun functions.now)
        depths.old.items depths.new.items result }
{
    let mut has_changed = false;
    for function in functions {
        has_changed = raise(depths, function.start, Depth::Known(no_rise())) | has_changed;
    }
    has_changed
}

/// Raises a table once at the first bytes of functions, and along the ways from each address.
/// Returns whether that changed it.
fn raise_depths(program: &Program<'_>, rests: &[Depth], depths: &mut Vec<Depth>) -> bool
    requires { length depths.old.items ≡ 65536 }
    ensures { Raises (AreDepthsClosed (program_view program.now) (depth_at rests.now))
        (AreDepthsClosed (program_view program.now) (depth_at rests.now))
        depths.old.items depths.new.items result }
{
    let mut has_changed = raise_starts(depths, program.functions);
    for address in 0..65536usize {
        let depth = depths[address];
        let ways = ways_at(program, address as u16);
        has_changed = raise_on(depths, rests, depth, ways) | has_changed;
    }
    has_changed
}

/// Returns what was added at each instruction since the first byte of its function. The only error
/// is that an allocation failed.
pub fn depths(
    alloc: Global,
    program: &Program<'_>,
    rests: &[Depth],
) -> Result<Vec<Depth>, AllocError>
    ensures { IfOk result (λ table. AreDepths (program_view program.now) rests.now table.items) }
{
    let mut table = unknown_table(alloc)?;
    while raise_depths(program, rests, &mut table) {}
    Ok(table)
}
