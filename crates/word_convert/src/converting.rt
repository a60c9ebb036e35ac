//! The bytes of one form from those of another.

ghost use Rattle.std.specs.Prelude.{◌≡◌, ◌≤◌, IfErr, IfOk, None, Some};
ghost use Rattle.word_convert.specs.Asked.{convert_view};
ghost use Rattle.image_files.specs.Bytes.{IsImage};
ghost use Rattle.image_files.specs.Union.{IsFirstClash};
ghost use Rattle.image_writer.specs.Window.{IsPart};
ghost use Rattle.word_convert.specs.Converted.{IsConverted, IsConvertedWith, IsNotWritten};
ghost use Rattle.word_convert.specs.Converted.{IsPartNotWritten, IsPartWritten, IsRange};
ghost use Rattle.word_convert.specs.Converted.{IsRangeOf, IsRefused, IsRefusedWith, IsWritten};
ghost use Rattle.word_convert.specs.Converted.{fill_for};

use crate::fault::ConvertFault;
use crate::sums::with_sum;
use crate::words::ConvertWords;
use arguments::{FormName, Refusal};
use image_files::{ImageRefusal, ends_of, first_clash, image_of_bytes, union_of, write_form};
use image_writer::part_of;
use memory_map::Image;
use std::alloc::Global;

/// Returns the first and the last address to write: those that are said, or those of the first and
/// of the last byte, if there is one.
fn range_of(range: Option<(u16, u16)>, image: &Image) -> Option<(u16, u16)>
    ensures { IsRangeOf range image.now result }
{
    match range {
        Some((low, high)) => { if low <= high { Some((low, high)) } else { None } }
        None => ends_of(image),
    }
}

/// Returns the byte that gaps are filled with.
fn fill_for(to: FormName, fill: Option<u8>) -> Option<u8>
    ensures { result ≡ fill_for to fill }
{
    match fill {
        Some(fill) => Some(fill),
        None => match to {
            FormName::Bin => Some(0xff),
            FormName::Prg => Some(0xff),
            FormName::Hex => None,
            FormName::SRecord => None,
            FormName::Tape => None,
        },
    }
}

/// Writes a part of an image, with the byte that makes its sum 0 if that is asked for.
fn summed_written(
    alloc: Global,
    words: &ConvertWords<'_>,
    image: &Image,
    low: u16,
    high: u16,
    part: Image,
) -> Result<Vec<u8>, ConvertFault>
    requires order { low ≤ high }
    requires part { IsPart low high (fill_for words.now.to words.now.fill) image.now part }
    ensures found { IfOk result
        (λ out. IsPartWritten (convert_view words.now) image.now low high out.items) }
    ensures fault { IfErr result
        (IsPartNotWritten (convert_view words.now) image.now low high) }
{
    match with_sum(part, words.sum) {
        None => Err(ConvertFault::NoSumByte),
        Some(summed) => match write_form(alloc, words.to, low, high, &summed) {
            Ok(out) => Ok(out),
            Err(_) => Err(ConvertFault::Refused(ImageRefusal::Refused(Refusal::OutOfMemory))),
        },
    }
}

/// Writes the part of an image between two addresses.
fn part_written(
    alloc: Global,
    words: &ConvertWords<'_>,
    image: &Image,
    low: u16,
    high: u16,
) -> Result<Vec<u8>, ConvertFault>
    requires { low ≤ high }
    ensures found { IfOk result
        (λ out. IsPartWritten (convert_view words.now) image.now low high out.items) }
    ensures fault { IfErr result
        (IsPartNotWritten (convert_view words.now) image.now low high) }
{
    let fill = fill_for(words.to, words.fill);
    match part_of(alloc, image, low, high, fill) {
        Ok(part) => summed_written(alloc, words, image, low, high, part),
        Err(_) => Err(ConvertFault::Refused(ImageRefusal::Refused(Refusal::OutOfMemory))),
    }
}

/// Writes the part of an image between the addresses that are asked for.
fn range_written(
    alloc: Global,
    words: &ConvertWords<'_>,
    image: &Image,
    low: u16,
    high: u16,
) -> Result<Vec<u8>, ConvertFault>
    requires order { low ≤ high }
    requires range { IsRange (convert_view words.now).range image.now low high }
    ensures found { IfOk result (λ out. IsWritten (convert_view words.now) image.now out.items) }
    ensures fault { IfErr result (IsNotWritten (convert_view words.now) image.now) }
{
    match part_written(alloc, words, image, low, high) {
        Ok(out) => Ok(out),
        Err(why) => Err(why),
    }
}

/// Writes the part of an image that is asked for.
fn image_written(
    alloc: Global,
    words: &ConvertWords<'_>,
    image: &Image,
) -> Result<Vec<u8>, ConvertFault>
    ensures found { IfOk result (λ out. IsWritten (convert_view words.now) image.now out.items) }
    ensures fault { IfErr result (IsNotWritten (convert_view words.now) image.now) }
{
    match range_of(words.range, image) {
        None => Err(ConvertFault::NoByte),
        Some((low, high)) => range_written(alloc, words, image, low, high),
    }
}

/// Returns the bytes of OUT for those of IN.
///
/// Errors: `Refused` with why the bytes are no image in the form that is said or told, or with
/// `OutOfMemory` if an allocation fails; `NoByte` if the image has no byte and no addresses are
/// said; `NoSumByte` if no byte is written at the address where one has to make the sum 0.
pub fn converted(
    alloc: Global,
    words: &ConvertWords<'_>,
    bytes: &[u8],
) -> Result<Vec<u8>, ConvertFault>
    // What is written, read again, is the part of the image that is asked for, with the byte that
    // makes its sum 0 if that is asked for too.
    ensures found { IfOk result
        (λ out. IsConverted (convert_view words.now) bytes.now out.items) }
    // Each error says why the bytes denote no image, or that memory ran out.
    ensures fault { IfErr result (IsRefused (convert_view words.now) bytes.now) }
{
    match image_of_bytes(alloc, words.from, bytes) {
        Ok(image) => image_written(alloc, words, &image),
        Err(why) => Err(ConvertFault::Refused(why)),
    }
}

/// Writes what either of two images has.
fn union_written(
    alloc: Global,
    words: &ConvertWords<'_>,
    bytes: &[u8],
    one: &Image,
    other: &Image,
) -> Result<Vec<u8>, ConvertFault>
    requires denotes { IsImage words.now.from bytes.now one.now }
    requires agrees { IsFirstClash one.now other.now None }
    ensures found { IfOk result
        (λ out. IsConvertedWith (convert_view words.now) bytes.now other.now out.items) }
    ensures fault { IfErr result (IsRefusedWith (convert_view words.now) bytes.now other.now) }
{
    match union_of(alloc, one, other) {
        Ok(both) => image_written(alloc, words, &both),
        Err(_) => Err(ConvertFault::Refused(ImageRefusal::Refused(Refusal::OutOfMemory))),
    }
}

/// Writes what either of two images has, unless they have two bytes for an address.
fn joined_written(
    alloc: Global,
    words: &ConvertWords<'_>,
    bytes: &[u8],
    one: &Image,
    other: &Image,
) -> Result<Vec<u8>, ConvertFault>
    requires { IsImage words.now.from bytes.now one.now }
    ensures found { IfOk result
        (λ out. IsConvertedWith (convert_view words.now) bytes.now other.now out.items) }
    ensures fault { IfErr result (IsRefusedWith (convert_view words.now) bytes.now other.now) }
{
    match first_clash(one, other) {
        None => union_written(alloc, words, bytes, one, other),
        Some(address) => Err(ConvertFault::Clash(address)),
    }
}

/// Returns the bytes of OUT for those of IN and the image of another file.
///
/// Errors: those of `converted`, and `Clash` with the lowest address for which both have a byte,
/// and these differ.
pub fn converted_with(
    alloc: Global,
    words: &ConvertWords<'_>,
    bytes: &[u8],
    other: &Image,
) -> Result<Vec<u8>, ConvertFault>
    // What is written, read again, is the part that is asked for of what both images have.
    ensures found { IfOk result
        (λ out. IsConvertedWith (convert_view words.now) bytes.now other.now out.items) }
    // Each error says why the images are not joined, or that memory ran out.
    ensures fault { IfErr result (IsRefusedWith (convert_view words.now) bytes.now other.now) }
{
    match image_of_bytes(alloc, words.from, bytes) {
        Ok(one) => joined_written(alloc, words, bytes, &one, other),
        Err(why) => Err(ConvertFault::Refused(why)),
    }
}
