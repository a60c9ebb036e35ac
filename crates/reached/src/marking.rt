//! What is reached is code, and the rest is data.

ghost use Rattle.std.specs.Prelude.{◌≡◌, length, IfOk};
ghost use Rattle.reached.specs.Reached.{AreFollowed, covers, followed_mark, is_followed};

use crate::inline::Inline;
use crate::letters::letters_of;
use crate::search::reached;
use crate::ways::instruction_len;
use bus::Image;
use model::Profile;
use source_forms::Mark;
use source_writer::is_flagged;
use source_writer::stretch::mark_at;
use std::alloc::{AllocError, Global};

/// Whether an address belongs to an instruction that is reached so many bytes before it.
fn covers(
    profile: Profile,
    cells: &[Option<u8>],
    marks: &[Mark],
    flags: &[bool],
    back: u16,
    address: u16,
) -> bool
    requires { length cells.now ≡ 65536 }
    ensures { result ≡ covers profile cells.now marks.now flags.now back address }
{
    if address < back {
        return false;
    }
    let first = address - back;
    is_flagged(flags, first as usize) && back < instruction_len(profile, cells, marks, first) as u16
}

/// Whether an address belongs to an instruction that is reached.
fn is_followed(
    profile: Profile,
    cells: &[Option<u8>],
    marks: &[Mark],
    flags: &[bool],
    address: u16,
) -> bool
    requires { length cells.now ≡ 65536 }
    ensures { result ≡ is_followed profile cells.now marks.now flags.now address }
{
    covers(profile, cells, marks, flags, 0, address)
        || covers(profile, cells, marks, flags, 1, address)
        || covers(profile, cells, marks, flags, 2, address)
}

/// What an address is marked as after control was followed.
fn followed_mark(mark: Mark, followed: bool, letter: bool) -> Mark
    ensures { result ≡ followed_mark mark followed letter }
{
    match mark {
        Mark::Code => {
            if followed {
                Mark::Code
            } else if letter {
                Mark::Text
            } else {
                Mark::Data
            }
        }
        Mark::Data => Mark::Data,
        Mark::Text => Mark::Text,
        Mark::Address => Mark::Address,
        Mark::Return => Mark::Return,
    }
}

/// Returns marks by which what was marked as code is so only where control comes from the starts:
/// the bytes of each instruction that is reached. The rest of it is data, and so is what follows
/// the calls of routines that have data behind them, but strings there are text. The only error is
/// that a request for memory was refused. Source: mos65.
pub fn followed_marks(
    alloc: Global,
    profile: Profile,
    image: &Image,
    marks: &[Mark],
    routines: &[Inline],
    starts: &[u16],
) -> Result<Vec<Mark>, AllocError>
    ensures { IfOk result (λ followed. AreFollowed profile image.now marks.now routines.now
        starts.now followed.items) }
{
    let flags = reached(alloc, profile, image, marks, routines, starts)?;
    let cells = image.cells();
    let letters = letters_of(alloc, profile, cells, marks, routines, flags.as_slice())?;
    let mut followed = Vec::with_capacity(alloc, 65536)?;
    for address in 0..65536u32 {
        let is_code = is_followed(profile, cells, marks, flags.as_slice(), address as u16);
        let is_letter = is_flagged(letters.as_slice(), address as usize);
        followed.push(followed_mark(mark_at(marks, address as usize), is_code, is_letter))?;
    }
    Ok(followed)
}
