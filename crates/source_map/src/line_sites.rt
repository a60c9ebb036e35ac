//! All addresses at which bytes of a line begin.

ghost use Rattle.std.specs.Prelude.{◌≡◌, ◌≤◌, IfOk, OnOk, [], filter, length};
ghost use Rattle.source_map.specs.Lines.{addresses_from, in_order, is_inner, is_of_line};
ghost use Rattle.source_map.specs.Lines.{is_within, lower_in, outermost, with_address};

use crate::rows::Site;
use std::alloc::{AllocError, Global};

/// Returns whether two sites are of one line.
fn is_of_line(one: Site, other: Site) -> bool
    ensures { result ≡ is_of_line one other }
{
    other.file == one.file && other.line == one.line
}

/// Returns the sites that are of the line of another one.
fn sites_beside(alloc: Global, one: Site, sites: &[Site]) -> Result<Vec<Site>, AllocError>
    ensures { IfOk result (λ found. found.items ≡ filter (is_of_line one) sites.now) }
{
    let mut found = Vec::new(alloc);
    for site in sites {
        if is_of_line(one, *site) {
            found.push(*site)?;
        }
    }
    Ok(found)
}

/// Returns whether the bytes of a site are among those of another one, which begins before it.
fn is_within(site: Site, other: Site) -> bool
    ensures { result ≡ is_within site other }
{
    other.address < site.address && site.end <= other.end
}

/// Returns whether the bytes of a site are among those of another one.
fn is_inner(sites: &[Site], site: Site) -> bool
    ensures { result ≡ is_inner sites.now site }
{
    sites.iter().any(|other| is_within(site, *other))
}

/// Returns the sites whose bytes are among those of no other one.
fn outermost(alloc: Global, sites: &[Site]) -> Result<Vec<Site>, AllocError>
    ensures { IfOk result (λ found. found.items ≡ outermost sites.now) }
{
    let mut found = Vec::new(alloc);
    for site in sites {
        if !is_inner(sites, *site) {
            found.push(*site)?;
        }
    }
    Ok(found)
}

/// Returns how many addresses at the front are lower than another one.
fn lower_in(address: u16, found: &[u16]) -> usize
    ensures counted { result ≡ lower_in address found.now }
    ensures within { result ≤ length found.now }
{
    found.iter().take_while(|other| **other < address).count()
}

/// Takes an address among others, which ascend, unless it is there.
fn add_address(found: &mut Vec<u16>, address: u16) -> Result<(), AllocError>
    ensures { OnOk result (found.new.items ≡ with_address address found.old.items) }
{
    let at = lower_in(address, found.as_slice());
    if at < found.len() && found[at] == address {
        return Ok(());
    }
    found.insert(at, address)?;
    Ok(())
}

/// Returns the addresses of sites: they ascend, and none comes twice.
fn in_order(alloc: Global, sites: &[Site]) -> Result<Vec<u16>, AllocError>
    ensures { IfOk result (λ found. found.items ≡ in_order [] sites.now) }
{
    let mut found = Vec::new(alloc);
    for site in sites {
        add_address(&mut found, site.address)?;
    }
    Ok(found)
}

/// Returns all addresses of the line of a site, if there is one.
///
/// Errors: `AllocError` if an allocation fails.
pub fn addresses_from(
    alloc: Global,
    sites: &[Site],
    first: Option<Site>,
) -> Result<Vec<u16>, AllocError>
    ensures { IfOk result (λ found. found.items ≡ addresses_from sites.now first) }
{
    let Some(first) = first else {
        return Ok(Vec::new(alloc));
    };
    let beside = sites_beside(alloc, first, sites)?;
    let outer = outermost(alloc, beside.as_slice())?;
    in_order(alloc, outer.as_slice())
}
