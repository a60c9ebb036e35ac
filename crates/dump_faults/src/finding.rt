//! The faults that explain a dump.

ghost use Rattle.std.specs.Prelude.{◌≡◌, ◌↔◌, ◌<◌, ◌++◌, IfOk, OnOk, is_some, nat_le, true};
ghost use Rattle.std.specs.List.{count_by};
ghost use Rattle.dump_faults.specs.Faults.{IsFault, IsReadWith, exchanged_of, exchanged_with};
ghost use Rattle.dump_faults.specs.Faults.{explained, explained_line, faults_between, is_dump};
ghost use Rattle.dump_faults.specs.Faults.{is_read_with, is_right_at, lines_of, same_cell};
ghost use Rattle.dump_faults.specs.Faults.{stuck_at_both, stuck_between, stuck_lines, stuck_of};
ghost use Rattle.dump_faults.specs.Faults.{is_varied, without_effect};

use crate::faults::{Bus, Fault, Stuck, address_by, cell_by};
use memory_map::Image;
use std::alloc::{AllocError, Global};

/// The fewest bytes of an image that is judged: those of a page.
const FEWEST: usize = 256;

/// Returns whether two cells are the same.
fn is_same(one: Option<u8>, other: Option<u8>) -> bool
    ensures { result ≡ same_cell one other }
{
    match (one, other) {
        (None, None) => true,
        (Some(one), Some(other)) => one == other,
        _ => false,
    }
}

/// Returns whether a dump has at an address what is read there of a good image with a fault.
#[tactic(auto, unfolding(crate::specs::Faults::is_right_at))]
fn is_right_at(fault: Fault, dump: &Image, good: &Image, address: u16) -> bool
    requires { IsFault fault }
    ensures { result ≡ is_right_at fault dump.now good.now address }
{
    is_same(
        dump.get(address),
        cell_by(fault, good.get(address_by(fault, address))),
    )
}

/// Returns whether a dump is, at all addresses, what is read of a good image with a fault.
///
/// `first` is looked at first: any address serves, and one at which the images differ saves time.
pub fn is_read_with(fault: Fault, dump: &Image, good: &Image, first: u16) -> bool
    requires { IsFault fault }
    ensures value { result ≡ is_read_with fault dump.now good.now }
    ensures means { (result ≡ true) ↔ IsReadWith fault dump.now good.now }
{
    if !is_right_at(fault, dump, good, first) {
        return false;
    }
    for address in 0..65536u32 {
        if !is_right_at(fault, dump, good, address as u16) {
            return false;
        }
    }
    true
}

/// Two images, and an address to look at first.
#[derive(Clone, Copy)]
struct Pair<'a> {
    dump: &'a Image,
    good: &'a Image,
    first: u16,
}

/// Returns the first address at which two images differ, or the last of all.
fn first_difference(one: &Image, other: &Image) -> u16 {
    for address in 0..65535u16 {
        if !is_same(one.get(address), other.get(address)) {
            return address;
        }
    }
    65535
}

/// Returns the first address with a byte, or the last of all.
fn first_byte(image: &Image) -> u16 {
    for address in 0..65535u16 {
        if image.get(address).is_some() {
            return address;
        }
    }
    65535
}

/// Appends a fault, if it explains a dump.
#[tactic(auto, unfolding(crate::specs::Faults::explained))]
fn push_explained(found: &mut Vec<Fault>, pair: Pair<'_>, fault: Fault) -> Result<(), AllocError>
    requires { IsFault fault }
    ensures { OnOk result (found.new.items ≡ found.old.items
        ++ explained pair.entry.dump.now pair.entry.good.now fault) }
{
    if is_read_with(fault, pair.dump, pair.good, pair.first) {
        found.push(fault)?;
    }
    Ok(())
}

/// Appends a line that always has one value, if it explains a dump.
#[tactic(auto, unfolding(crate::specs::Faults::explained_line))]
fn push_line(found: &mut Vec<Stuck>, pair: Pair<'_>, stuck: Stuck) -> Result<(), AllocError>
    requires { stuck.line < lines_of stuck.bus }
    ensures { OnOk result (found.new.items ≡ found.old.items
        ++ explained_line pair.entry.dump.now pair.entry.good.now stuck) }
{
    if is_read_with(Fault::Stuck(stuck), pair.dump, pair.good, pair.first) {
        found.push(stuck)?;
    }
    Ok(())
}

/// Appends a line at 0 and at 1, as far as these explain a dump.
fn push_both(found: &mut Vec<Stuck>, pair: Pair<'_>, bus: Bus, line: u8) -> Result<(), AllocError>
    requires { line < lines_of bus }
    ensures { OnOk result (found.new.items ≡ found.old.items
        ++ stuck_at_both pair.entry.dump.now pair.entry.good.now bus line) }
{
    let (low, high) = (false, true);
    push_line(
        found,
        pair,
        Stuck {
            bus,
            line,
            value: low,
        },
    )?;
    push_line(
        found,
        pair,
        Stuck {
            bus,
            line,
            value: high,
        },
    )
}

/// Appends the lines of a bus that explain a dump if they always have one value.
#[tactic(auto, using(crate::proofs::Joined::more, crate::proofs::Joined::none), unfolding(crate::specs::Faults::stuck_of))]
fn push_stuck(found: &mut Vec<Stuck>, pair: Pair<'_>, bus: Bus) -> Result<(), AllocError>
    ensures { OnOk result (found.new.items ≡ found.old.items
        ++ stuck_of pair.entry.dump.now pair.entry.good.now bus) }
{
    for line in 0..bus.lines() {
        push_both(found, pair, bus, line)?;
    }
    Ok(())
}

/// Appends the pairs of a line with each below it that explain a dump if they are exchanged.
#[tactic(auto, using(crate::proofs::Joined::more, crate::proofs::Joined::none), unfolding(crate::specs::Faults::exchanged_with))]
fn push_exchanged_with(
    found: &mut Vec<Fault>,
    pair: Pair<'_>,
    bus: Bus,
    other: u8,
) -> Result<(), AllocError>
    requires { other < lines_of bus }
    ensures { OnOk result (found.new.items ≡ found.old.items
        ++ exchanged_with pair.entry.dump.now pair.entry.good.now bus other) }
{
    for one in 0..other {
        push_explained(found, pair, Fault::Exchanged(bus, one, other))?;
    }
    Ok(())
}

/// Appends the pairs of lines of a bus that explain a dump if they are exchanged.
#[tactic(auto, using(crate::proofs::Joined::more, crate::proofs::Joined::none), unfolding(crate::specs::Faults::exchanged_of))]
fn push_exchanged(found: &mut Vec<Fault>, pair: Pair<'_>, bus: Bus) -> Result<(), AllocError>
    ensures { OnOk result (found.new.items ≡ found.old.items
        ++ exchanged_of pair.entry.dump.now pair.entry.good.now bus) }
{
    for other in 0..bus.lines() {
        push_exchanged_with(found, pair, bus, other)?;
    }
    Ok(())
}

/// Returns whether an image has at least the bytes of a page.
fn has_page(image: &Image) -> bool
    ensures { result ≡ nat_le 256 (count_by is_some image.now) }
{
    image.cells().iter().filter(|cell| cell.is_some()).count() >= FEWEST
}

/// Returns whether the bytes of an image are not all the same: not all data lines have one value.
fn is_varied(alloc: Global, image: &Image) -> Result<bool, AllocError>
    ensures { IfOk result (λ is. is ≡ is_varied image.now) }
{
    let mut found = Vec::new(alloc);
    let first = first_byte(image);
    let pair = Pair {
        dump: image,
        good: image,
        first,
    };
    push_stuck(&mut found, pair, Bus::Data)?;
    Ok(found.len() < 8)
}

/// Returns whether an image is judged: it has enough bytes, and they are not all the same.
#[tactic(auto, unfolding(crate::specs::Faults::is_dump))]
fn is_dump(alloc: Global, image: &Image) -> Result<bool, AllocError>
    ensures { IfOk result (λ is. is ≡ is_dump image.now) }
{
    if !has_page(image) {
        return Ok(false);
    }
    is_varied(alloc, image)
}

/// Returns the lines that explain all bytes of a dump by a good image if they always have one
/// value.
///
/// Errors: `AllocError` if an allocation fails.
#[tactic(auto, unfolding(crate::specs::Faults::stuck_between))]
pub fn stuck_between(alloc: Global, dump: &Image, good: &Image) -> Result<Vec<Stuck>, AllocError>
    ensures { IfOk result (λ found. found.items ≡ stuck_between dump.now good.now) }
{
    let mut found = Vec::new(alloc);
    let (one, other) = (is_dump(alloc, dump)?, is_dump(alloc, good)?);
    if one && other {
        let first = first_difference(dump, good);
        let pair = Pair { dump, good, first };
        push_stuck(&mut found, pair, Bus::Data)?;
        push_stuck(&mut found, pair, Bus::Address)?;
    }
    Ok(found)
}

/// Returns the faults that explain all bytes of one image by another: two lines exchanged, or all
/// data lines inverted. They explain the other by the one as well.
///
/// Errors: `AllocError` if an allocation fails.
#[tactic(auto, unfolding(crate::specs::Faults::faults_between))]
pub fn faults_between(alloc: Global, dump: &Image, good: &Image) -> Result<Vec<Fault>, AllocError>
    ensures { IfOk result (λ found. found.items ≡ faults_between dump.now good.now) }
{
    let mut found = Vec::new(alloc);
    let (one, other) = (is_dump(alloc, dump)?, is_dump(alloc, good)?);
    if one && other {
        let first = first_difference(dump, good);
        let pair = Pair { dump, good, first };
        push_exchanged(&mut found, pair, Bus::Data)?;
        push_explained(&mut found, pair, Fault::Inverted)?;
        push_exchanged(&mut found, pair, Bus::Address)?;
    }
    Ok(found)
}

/// Appends the address lines without effect on an image.
#[tactic(auto, using(crate::proofs::Joined::more, crate::proofs::Joined::none), unfolding(crate::specs::Faults::without_effect))]
fn push_without_effect(found: &mut Vec<Stuck>, image: &Image, first: u16) -> Result<(), AllocError>
    ensures { OnOk result (found.new.items ≡ found.old.items ++ without_effect image.now) }
{
    let pair = Pair {
        dump: image,
        good: image,
        first,
    };
    let (bus, value) = (Bus::Address, false);
    for line in 0..16u8 {
        push_line(found, pair, Stuck { bus, line, value })?;
    }
    Ok(())
}

/// Returns the data lines that have one value in all bytes of an image, and the address lines
/// without effect on it; none if its bytes are few, or all the same.
///
/// Errors: `AllocError` if an allocation fails.
#[tactic(auto, unfolding(crate::specs::Faults::stuck_lines))]
pub fn stuck_lines(alloc: Global, image: &Image) -> Result<Vec<Stuck>, AllocError>
    ensures { IfOk result (λ found. found.items ≡ stuck_lines image.now) }
{
    let mut found = Vec::new(alloc);
    if is_dump(alloc, image)? {
        let first = first_byte(image);
        let pair = Pair {
            dump: image,
            good: image,
            first,
        };
        push_stuck(&mut found, pair, Bus::Data)?;
        push_without_effect(&mut found, image, first)?;
    }
    Ok(found)
}
