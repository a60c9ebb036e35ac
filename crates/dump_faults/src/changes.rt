//! The bytes of two images that differ, and those that differ in one line alone.

ghost use Rattle.std.specs.Prelude.{◌≡◌, ◌++◌, IfOk, OnOk};
ghost use Rattle.dump_faults.specs.Changes.{change_of, changes_of, flip_of, flips_of, lone_line};

use memory_map::Image;
use std::alloc::{AllocError, Global};

/// Two bytes for one address that differ.
#[derive(Clone, Copy)]
pub struct Change {
    pub one: u8,
    pub other: u8,
}

/// A line in which alone two bytes differ.
#[derive(Clone, Copy)]
pub struct Flip {
    pub line: u8,
    /// Whether the line is 1 in the first byte.
    pub was: bool,
}

/// Appends both bytes at an address, where both are there and differ.
fn push_change(
    changes: &mut Vec<Change>,
    one: Option<u8>,
    other: Option<u8>,
) -> Result<(), AllocError>
    ensures { OnOk result (changes.new.items ≡ changes.old.items ++ change_of one other) }
{
    match (one, other) {
        (Some(one), Some(other)) if one != other => {
            changes.push(Change { one, other })?;
            Ok(())
        }
        _ => Ok(()),
    }
}

/// Returns the bytes at the addresses at which both images have one and these differ, in rising
/// order.
///
/// Errors: `AllocError` if an allocation fails.
#[tactic(auto, using(crate::proofs::ChangesBelow::more, crate::proofs::ChangesBelow::none))]
pub fn changes_of(alloc: Global, one: &Image, other: &Image) -> Result<Vec<Change>, AllocError>
    ensures { IfOk result (λ changes. changes.items ≡ changes_of one.now other.now) }
{
    let mut changes = Vec::new(alloc);
    for address in 0..65536u32 {
        let address = address as u16;
        push_change(&mut changes, one.get(address), other.get(address))?;
    }
    Ok(changes)
}

/// Returns the line that is alone at 1 in a byte, if one is.
#[tactic(auto, unfolding(crate::specs::Changes::lone_line))]
fn lone_line(byte: u8) -> Option<u8>
    ensures { result ≡ lone_line byte }
{
    match byte {
        1 => Some(0),
        2 => Some(1),
        4 => Some(2),
        8 => Some(3),
        16 => Some(4),
        32 => Some(5),
        64 => Some(6),
        128 => Some(7),
        _ => None,
    }
}

/// Returns the line in which alone two bytes differ, if one does.
fn flip_of(change: Change) -> Option<Flip>
    ensures { result ≡ flip_of change }
{
    match lone_line(change.one ^ change.other) {
        None => None,
        Some(line) => Some(Flip {
            line,
            was: change.other < change.one,
        }),
    }
}

/// Returns the changes of one line alone.
///
/// Errors: `AllocError` if an allocation fails.
#[tactic(auto, unfolding(crate::specs::Changes::flips_of))]
pub fn flips_of(alloc: Global, changes: &[Change]) -> Result<Vec<Flip>, AllocError>
    ensures { IfOk result (λ flips. flips.items ≡ flips_of changes.now) }
{
    changes
        .iter()
        .filter_map(|change| flip_of(*change))
        .collect(alloc)
}
