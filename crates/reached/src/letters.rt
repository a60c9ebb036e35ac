//! Strings behind calls.

ghost use Rattle.std.specs.Prelude.{◌≡◌, ◌+◌, ◌≤◌, length, IfOk};
ghost use Rattle.reached.specs.Reached.{letters_to, reached_string, string_at};
ghost use Rattle.reached.specs.Reached.{string_behind, string_by, string_of, with_run, with_string};

use crate::inline::{Inline, Tail};
use crate::ways::{after, called_tail, code_bytes, fits, goes_on};
use model::{Profile, Row};
use optable::decode_in;
use source_forms::Mark;
use source_writer::{byte_or_0, is_flagged, no_flags};
use std::alloc::{AllocError, Global};

/// Where a string begins that stands behind a call, and where control goes on behind it.
type Span = (u16, u16);

/// The string that begins at an address, by where control goes on: some bytes are none.
fn string_of(begin: u16, tail: Option<Tail>, next: Option<u16>) -> Option<Span>
    ensures { result ≡ string_of begin tail next }
{
    match tail {
        None => None,
        Some(Tail::Bytes(_)) => None,
        Some(Tail::String) | Some(Tail::Counted) | Some(Tail::HighBit) => match next {
            Some(end) => Some((begin, end)),
            None => None,
        },
    }
}

/// The string at an address behind a call.
fn string_behind(cells: &[Option<u8>], begin: u16, tail: Option<Tail>) -> Option<Span>
    requires { length cells.now ≡ 65536 }
    ensures { result ≡ string_behind cells.now begin tail }
{
    string_of(begin, tail, goes_on(cells, tail, begin))
}

/// The string behind an instruction, by its bytes.
fn string_by(
    cells: &[Option<u8>],
    routines: &[Inline],
    address: u16,
    bytes: &[u8],
    row: Option<Row>,
) -> Option<Span>
    requires { length cells.now ≡ 65536 }
    ensures { result ≡ string_by cells.now routines.now address bytes.now row }
{
    let row = row?;
    if !fits(address, row.len, bytes.len()) {
        return None;
    }
    let called = byte_or_0(bytes, 1) as u16 + 256 * byte_or_0(bytes, 2) as u16;
    let tail = called_tail(row.mnemonic, routines, called);
    string_behind(cells, after(address, row.len), tail)
}

/// The string behind the instruction at an address, if that is a call with one.
#[tactic(auto, unfolding(crate::specs::Reached::string_at))]
fn string_at(
    profile: Profile,
    cells: &[Option<u8>],
    marks: &[Mark],
    routines: &[Inline],
    address: u16,
) -> Option<Span>
    requires { length cells.now ≡ 65536 }
    ensures { result ≡ string_at profile cells.now marks.now routines.now address }
{
    let bytes = code_bytes(cells, marks, address);
    let row = decode_in(profile, byte_or_0(&bytes, 0));
    string_by(cells, routines, address, &bytes, row)
}

/// Flags so many addresses from one on.
#[tactic(auto, using(crate::proofs::LettersFound::run_end))]
fn flag_run(letters: &mut Vec<bool>, count: u16, address: u16)
    requires size { length letters.old.items ≡ 65536 }
    requires within { address + count ≤ 65536 }
    ensures set { letters.new.items ≡ with_run letters.old.items count address }
    ensures size { length letters.new.items ≡ 65536 }
{
    let mut at = address as usize;
    let mut left = count;
    while left > 0 {
        letters[at] = true;
        at += 1;
        left -= 1;
    }
}

/// Flags the addresses of a string, if there is one.
fn flag_string(letters: &mut Vec<bool>, string: Option<Span>)
    requires { length letters.old.items ≡ 65536 }
    ensures set { letters.new.items ≡ with_string letters.old.items string }
    ensures size { length letters.new.items ≡ 65536 }
{
    if let Some((begin, end)) = string {
        flag_run(letters, end.saturating_sub(begin), begin);
    }
}

/// The string behind an address, if that is reached.
fn reached_string(
    profile: Profile,
    cells: &[Option<u8>],
    marks: &[Mark],
    routines: &[Inline],
    flags: &[bool],
    address: u16,
) -> Option<Span>
    requires { length cells.now ≡ 65536 }
    ensures { result
        ≡ reached_string profile cells.now marks.now routines.now flags.now address }
{
    if is_flagged(flags, address as usize) {
        string_at(profile, cells, marks, routines, address)
    } else {
        None
    }
}

/// Returns a flag for each address: whether it is in a string behind a call that is reached. The
/// only error is that a request for memory was refused.
pub fn letters_of(
    alloc: Global,
    profile: Profile,
    cells: &[Option<u8>],
    marks: &[Mark],
    routines: &[Inline],
    flags: &[bool],
) -> Result<Vec<bool>, AllocError>
    requires { length cells.now ≡ 65536 }
    ensures { IfOk result (λ letters. letters.items
        ≡ letters_to profile cells.now marks.now routines.now flags.now 65536) }
{
    let mut letters = no_flags(alloc)?;
    for address in 0..65536u32 {
        let string = reached_string(profile, cells, marks, routines, flags, address as u16);
        flag_string(&mut letters, string);
    }
    Ok(letters)
}
