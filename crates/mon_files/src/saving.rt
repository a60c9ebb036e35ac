//! The image that `save` writes.

ghost use Rattle.std.specs.Prelude.{◌≡◌, ℕ, IfErr, IfOk, List, None, OnOk, Option, Some, is_some};
ghost use Rattle.std.specs.List.{count_by};
ghost use Rattle.model.specs.Image.{empty_image};
ghost use Rattle.image_files.specs.Ends.{AreEnds};
ghost use Rattle.mon_dispatch.specs.Lines.{Says};
ghost use Rattle.mon_files.specs.Saved.{IsSaved, IsSavedAs, is_asked, is_saved};
ghost use Rattle.mon_files.specs.Saved.{AreGaps, gaps_between, has_addresses};
ghost use Rattle.mon_files.specs.Saved.{save_form, with_saved};
ghost use Rattle.mon_session.specs.Course.{ShowsOnly};

use crate::known::Known;
use crate::wording::{BYTE_FILLS_GAP, BYTE_IS_SAVED, BYTES_ARE_SAVED, BYTES_FILL_GAPS};
use crate::writing::{Outcome, of_memory, say_failure, say_of, say_own, write_new};
use accesses::Written;
use arguments::{FormName, Refusal, form_of_ending};
use arguments_play::MonWords;
use image_files::{ends_of, write_form};
use memory_map::Image;
use mon_lines::Stretch;
use mon_session::{MonState, Session};
use std::alloc::{AllocError, Global};
use std::rt::Files;

/// Returns whether the byte at an address is asked for.
fn is_asked(session: &Session, loaded: &Written, stretch: Option<Stretch>, address: u16) -> bool
    ensures { result ≡ is_asked loaded.now session.now.current.bus.memory stretch address }
{
    match stretch {
        Some(stretch) => stretch.first <= address && address <= stretch.last,
        None => loaded.contains(address) || session.peek(address) != 0,
    }
}

/// Returns whether the byte at an address is saved.
fn is_saved(session: &Session, loaded: &Written, stretch: Option<Stretch>, address: u16) -> bool
    ensures { result ≡ is_saved session.now.current.bus loaded.now stretch address }
{
    is_asked(session, loaded, stretch, address) && !session.is_port(address)
}

/// Puts the byte at an address into an image, if it is saved.
fn put_saved(
    image: &mut Image,
    session: &Session,
    loaded: &Written,
    stretch: Option<Stretch>,
    address: u16,
)
    ensures { image.new ≡ with_saved session.now.current.bus loaded.now stretch address image.old }
{
    if is_saved(session, loaded, stretch, address) {
        image.put(address, session.peek(address));
    }
}

/// Returns an image without a byte.
///
/// Errors: `AllocError` if an allocation fails.
fn new_image(alloc: Global) -> Result<Image, AllocError>
    ensures { IfOk result (λ image. image ≡ empty_image) }
{
    Image::new(alloc).map_err(|_| AllocError)
}

/// Returns the image that is saved: each byte of memory that is asked for, but for those of the
/// port.
///
/// Errors: `AllocError` if an allocation fails.
fn saved_image(
    alloc: Global,
    session: &Session,
    loaded: &Written,
    stretch: Option<Stretch>,
) -> Result<Image, AllocError>
    ensures saved { IfOk result
        (λ image. IsSaved session.now.current.bus loaded.now stretch image) }
{
    let mut image = new_image(alloc)?;
    for address in 0..65536u32 {
        put_saved(&mut image, session, loaded, stretch, address as u16);
    }
    Ok(image)
}

/// Returns the form in which a file is saved: that of its ending, or a tape where it tells none.
fn save_form(file: &[u8]) -> FormName
    ensures { result ≡ save_form file.now }
{
    match form_of_ending(file) {
        None => FormName::Tape,
        Some(form) => form,
    }
}

/// Returns the text of an image without a byte in a form.
///
/// Errors: `AllocError` if an allocation fails.
fn text_of_none(alloc: Global, form: FormName, image: &Image) -> Result<Vec<u8>, AllocError>
    requires { AreEnds image.now None }
    ensures { IfOk result (λ text. IsSavedAs form image.now text.items) }
{
    write_form(alloc, form, 0, 0, image)
}

/// Returns the text of an image in a form, from its first byte to its last.
///
/// Errors: `AllocError` if an allocation fails.
fn text_between(
    alloc: Global,
    form: FormName,
    image: &Image,
    low: u16,
    high: u16,
) -> Result<Vec<u8>, AllocError>
    requires { AreEnds image.now (Some (low, high)) }
    ensures { IfOk result (λ text. IsSavedAs form image.now text.items) }
{
    write_form(alloc, form, low, high, image)
}

/// Returns the text of an image in a form.
///
/// Errors: `AllocError` if an allocation fails.
fn text_of(alloc: Global, form: FormName, image: &Image) -> Result<Vec<u8>, AllocError>
    ensures { IfOk result (λ text. IsSavedAs form image.now text.items) }
{
    match ends_of(image) {
        None => text_of_none(alloc, form, image),
        Some((low, high)) => text_between(alloc, form, image, low, high),
    }
}

/// What is saved.
#[derive(Drop)]
struct Saved {
    text: Vec<u8>,
    /// How many bytes of memory the text has.
    count: usize,
    /// How many others it has between these.
    gaps: usize,
}

/// Returns whether a file in a form has an address for each of its bytes.
fn has_addresses(form: FormName) -> bool
    ensures { result ≡ has_addresses form }
{
    match form {
        FormName::Bin | FormName::Prg => false,
        FormName::Tape | FormName::Hex | FormName::SRecord => true,
    }
}

/// Returns how many addresses from a first one to a last one are more than so many bytes.
fn gaps_between(ends: Option<(u16, u16)>, count: usize) -> usize
    ensures { result ≡ gaps_between ends count }
{
    match ends {
        None => 0,
        Some((low, high)) => {
            (high as usize + 1)
                .saturating_sub(low as usize)
                .saturating_sub(count)
        }
    }
}

/// Returns how many bytes a form without addresses has between those of an image, which has so many
/// bytes.
fn gaps_in(form: FormName, image: &Image, count: usize) -> usize
    ensures { AreGaps form image.now count result }
{
    let ends = ends_of(image);
    if has_addresses(form) {
        0
    } else {
        gaps_between(ends, count)
    }
}

/// Returns how many bytes there are among some cells.
fn count_of(cells: &[Option<u8>]) -> usize
    ensures { result ≡ count_by is_some cells.now }
{
    let mut count = 0usize;
    for cell in cells {
        if cell.is_some() {
            count += 1;
        }
    }
    count
}

/// Returns what is saved in a form.
///
/// Errors: `AllocError` if an allocation fails.
fn saved_in(
    alloc: Global,
    session: &Session,
    loaded: &Written,
    form: FormName,
    stretch: Option<Stretch>,
) -> Result<Saved, AllocError>
    // It is read again as the image that is saved; its bytes are counted, and those between them.
    ensures saved { IfOk result (λ saved. (image : List (Option ℕ))
        × IsSaved session.now.current.bus loaded.now stretch image
        × IsSavedAs form image saved.text.items × (saved.count ≡ count_by is_some image)
        × AreGaps form image saved.count saved.gaps) }
{
    let image = saved_image(alloc, session, loaded, stretch)?;
    let text = text_of(alloc, form, &image)?;
    let count = count_of(image.cells());
    let gaps = gaps_in(form, &image, count);
    Ok(Saved { text, count, gaps })
}

/// Says how many bytes of memory a file has, and how many fill the gaps between them, if some do.
fn say_counts(mon: &mut MonState, count: usize, gaps: usize) -> Result<(), AllocError>
    ensures shows { ShowsOnly mon.old mon.new }
    ensures said { OnOk result ((said : List ℕ) × Says said mon.old mon.new) }
{
    if gaps == 0 {
        return mon.count(count as u64, BYTE_IS_SAVED, BYTES_ARE_SAVED);
    }
    mon.count(count as u64, BYTE_IS_SAVED, BYTES_ARE_SAVED)?;
    mon.count(gaps as u64, BYTE_FILLS_GAP, BYTES_FILL_GAPS)
}

/// Says what has become of a file, and how many bytes it has if it was written.
fn say_saved(
    mon: &mut MonState,
    file: &[u8],
    outcome: Outcome,
    count: usize,
    gaps: usize,
) -> Result<(), AllocError>
    ensures shows { ShowsOnly mon.old mon.new }
    ensures said { OnOk result ((said : List ℕ) × Says said mon.old mon.new) }
{
    match outcome {
        Outcome::Whole => {
            say_of(mon, file, ": ")?;
            say_counts(mon, count, gaps)
        }
        Outcome::Own => say_own(mon, file),
        Outcome::Not(fault) => say_failure(mon, file, fault),
    }
}

/// Writes a stretch of memory to a file, without a stretch each byte that the session's file has or
/// that is not 0: in the form that the file's ending tells, or as a tape. Says how many bytes it
/// has, and how many fill gaps in a form without addresses; or that it is not written: a file that
/// the session has read is not, nor a source that debug information names.
///
/// # Errors
///
/// - `OutOfMemory`: an allocation failed.
pub fn save_image<H: Files + AllocGlobal>(
    rt: &H,
    mon: &mut MonState,
    words: &MonWords<'_>,
    known: &Known,
    file: &[u8],
    stretch: Option<Stretch>,
) -> Result<(), Refusal>
    ensures shows { ShowsOnly mon.old mon.new }
    ensures said { OnOk result ((said : List ℕ) × Says said mon.old mon.new) }
    ensures refused { IfErr result (λ fault. fault ≡ Refusal.OutOfMemory) }
{
    let form = save_form(file);
    let saved = saved_in(rt.alloc(), &mon.session, known.written(), form, stretch);
    let saved = of_memory(saved)?;
    let outcome = write_new(rt, words, &mon.places, file, None, saved.text.as_slice())?;
    of_memory(say_saved(mon, file, outcome, saved.count, saved.gaps))
}
