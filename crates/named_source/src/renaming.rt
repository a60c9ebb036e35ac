//! A source with labels, written with names.

ghost use Rattle.std.specs.Prelude.{◌≡◌, ◌++◌, IfOk, OnOk, is_some};
ghost use Rattle.std.specs.Option.{option_copied};
ghost use Rattle.named_source.specs.Names.{IsTable, name_of};
ghost use Rattle.named_source.specs.Renaming.{byte_at, definitions, ended_named, found_view, is_kept};
ghost use Rattle.named_source.specs.Renaming.{label_at, name_outside, place_at, renamed, rest_named};
ghost use Rattle.named_source.specs.Renaming.{word_at, word_of};

use crate::names::name_of;
use assembler::Assembly;
use bus::Image;
use commands::address_of;
use line_parts::next_line;
use listing::push_name;
use std::alloc::{AllocError, Global};

/// What names a source is written with: the names, which of them each address has, and the image.
#[derive(Clone, Copy)]
pub struct Naming<'a> {
    pub names: &'a Assembly,
    pub table: &'a [u16],
    pub image: &'a Image,
}

impl<'a> Naming<'a> {
    /// The name of an address.
    fn name(&self, address: u16) -> Option<&'a [u8]>
        requires { IsTable self.now.names.now.names self.now.table.now }
        ensures { option_copied result ≡ name_of self.now.names.now.names address }
    {
        name_of(self.names, self.table, address)
    }

    /// The name of an address at which the image has nothing.
    #[tactic(auto, unfolding(crate::specs::Renaming::name_outside))]
    fn outside(&self, address: u16) -> Option<&'a [u8]>
        requires { IsTable self.now.names.now.names self.now.table.now }
        ensures { option_copied result
            ≡ name_outside self.now.names.now.names self.now.image.now address }
    {
        if self.image.get(address).is_some() {
            return None;
        }
        self.name(address)
    }
}

/// What stands at a place of a line: how many bytes it has after the first, and the name to write
/// in their place.
type Found<'a> = Option<(usize, &'a [u8])>;

/// A label, `L_HHHH`.
#[tactic(auto, unfolding(crate::specs::Renaming::label_at))]
fn label_at<'a>(naming: Naming<'a>, line: &[u8]) -> Found<'a>
    requires { IsTable naming.names.now.names naming.table.now }
    ensures { found_view result ≡ label_at naming.entry.names.now.names line.now }
{
    let [b'L', b'_', digits @ ..] = line else {
        return None;
    };
    let address = address_of(digits.get(..4)?)?;
    Some((5, naming.name(address)?))
}

/// An address as a number, `$HHHH`.
#[tactic(auto, unfolding(crate::specs::Renaming::word_at))]
fn word_at<'a>(naming: Naming<'a>, line: &[u8]) -> Found<'a>
    requires { IsTable naming.names.now.names naming.table.now }
    ensures { found_view result
        ≡ word_at naming.entry.names.now.names naming.entry.image.now line.now }
{
    let [b'$', digits @ ..] = line else {
        return None;
    };
    let address = address_of(digits.get(..4)?)?;
    Some((4, naming.outside(address)?))
}

/// Whether four hex digits are at the front.
fn is_word(digits: &[u8]) -> bool
    ensures { result ≡ is_some (word_of digits.now) }
{
    match digits.get(..4) {
        Some(word) => address_of(word).is_some(),
        None => false,
    }
}

/// An address in page 0 as a number, `$HH`, after a space or a parenthesis.
#[tactic(auto, unfolding(crate::specs::Renaming::byte_at))]
fn byte_at<'a>(naming: Naming<'a>, before: u8, line: &[u8]) -> Found<'a>
    requires { IsTable naming.names.now.names naming.table.now }
    ensures { found_view result
        ≡ byte_at naming.entry.names.now.names naming.entry.image.now before line.now }
{
    let [b'$', digits @ ..] = line else {
        return None;
    };
    if is_word(digits) || (before != b' ' && before != b'(') {
        return None;
    }
    let [high, low, ..] = digits else {
        return None;
    };
    let address = address_of(&[b'0', b'0', *high, *low])?;
    Some((2, naming.outside(address)?))
}

/// What stands at the front of the rest of a line, after a byte.
#[tactic(auto, unfolding(crate::specs::Renaming::place_at))]
fn place_at<'a>(naming: Naming<'a>, before: u8, rest: &[u8]) -> Found<'a>
    requires { IsTable naming.names.now.names naming.table.now }
    ensures { found_view result
        ≡ place_at naming.entry.names.now.names naming.entry.image.now before rest.now }
{
    match label_at(naming, rest) {
        Some(found) => Some(found),
        None => match word_at(naming, rest) {
            Some(found) => Some(found),
            None => byte_at(naming, before, rest),
        },
    }
}

/// A line with names. The only error is that a request for memory was refused.
#[tactic(auto, using(crate::proofs::Lines::line_end))]
fn push_renamed(out: &mut Vec<u8>, naming: Naming<'_>, line: &[u8]) -> Result<(), AllocError>
    requires { IsTable naming.names.now.names naming.table.now }
    ensures { OnOk result (out.new.items ≡ out.old.items
        ++ rest_named naming.entry.names.now.names naming.entry.image.now 32 0 line.now) }
{
    let mut before = b' ';
    let mut left = 0usize;
    for (at, byte) in line.iter().enumerate() {
        if left > 0 {
            left -= 1;
        } else {
            match place_at(naming, before, &line[at..]) {
                Some((more, name)) => {
                    out.extend_from_slice(name)?;
                    left = more;
                }
                None => out.push(*byte)?,
            }
        }
        before = *byte;
    }
    Ok(())
}

/// Whether a line is data or `*=`, which no name changes.
fn is_kept(line: &[u8]) -> bool
    ensures { result ≡ is_kept line.now }
{
    match line {
        [b'.', b'B', ..] | [b'*', ..] => true,
        _ => false,
    }
}

/// A line with its end.
#[tactic(auto, unfolding(crate::specs::Renaming::line_named))]
fn push_line(out: &mut Vec<u8>, naming: Naming<'_>, line: &[u8]) -> Result<(), AllocError>
    requires { IsTable naming.names.now.names naming.table.now }
    ensures { OnOk result (out.new.items ≡ out.old.items
        ++ ended_named naming.entry.names.now.names naming.entry.image.now line.now) }
{
    if is_kept(line) {
        out.extend_from_slice(line)?;
    } else {
        push_renamed(out, naming, line)?;
    }
    out.push(b'\n')?;
    Ok(())
}

/// `NAME = $HHHH` for each name of an address at which the image has nothing.
#[tactic(auto, using(crate::proofs::Lines::definitions_end), unfolding(crate::specs::Renaming::definitions))]
fn push_definitions(out: &mut Vec<u8>, naming: Naming<'_>) -> Result<(), AllocError>
    requires { IsTable naming.names.now.names naming.table.now }
    ensures { OnOk result (out.new.items
        ≡ out.old.items ++ definitions naming.entry.names.now.names naming.entry.image.now) }
{
    for address in 0..65536u32 {
        if let Some(name) = naming.outside(address as u16) {
            push_name(out, name, address as i32)?;
        }
    }
    Ok(())
}

/// Returns a source with labels written with names: in place of a label the name of its address,
/// and the name of an address at which the image has nothing in place of the number of an operand,
/// with its definition before all lines. The only error is that a request for memory was refused.
#[tactic(auto, using(crate::proofs::Lines::lines_end), unfolding(crate::specs::Renaming::renamed))]
pub fn renamed(alloc: Global, naming: Naming<'_>, source: &[u8]) -> Result<Vec<u8>, AllocError>
    requires { IsTable naming.names.now.names naming.table.now }
    ensures { IfOk result (λ text. text.items
        ≡ renamed naming.entry.names.now.names naming.entry.image.now source.now) }
{
    let mut out = Vec::new(alloc);
    push_definitions(&mut out, naming)?;
    let mut rest = source;
    while rest.len() > 0 {
        let (line, more) = next_line(rest);
        push_line(&mut out, naming, line)?;
        rest = more;
    }
    Ok(out)
}
