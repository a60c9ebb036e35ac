//! The sides of a comparison.

ghost use Rattle.std.specs.Prelude.{◌≡◌, ◌++◌, IfOk, OnOk, string_bytes};
ghost use Rattle.word_cmp.specs.DifferenceRows.{byte_text, has, instruction_text, start_at};
ghost use Rattle.word_cmp.specs.DifferenceRows.{starts_of};
ghost use Rattle.word_cmp.specs.Sides.{side_view};

use crate::wording;
use memory_map::Image;
use model::Profile;
use std::alloc::{AllocError, Global};
use tape_words::{instruction_len, push_instruction};

/// An image with its file's name, and for each address the one at which its instruction begins.
#[derive(Drop)]
pub struct Side<'a> {
    name: &'a str,
    image: Image,
    starts: Vec<u16>,
    profile: Profile,
}

/// Returns for each address that at which the instruction begins that has its byte; each range is
/// read as instructions from its first address on.
fn starts_of(alloc: Global, profile: Profile, image: &Image) -> Result<Vec<u16>, AllocError>
    ensures { IfOk result (λ starts. starts.items ≡ starts_of profile image.now) }
{
    let mut starts = Vec::new(alloc);
    let mut start = 0u16;
    let mut left = 0u8;
    for address in 0..65536u32 {
        let address = address as u16;
        if left == 0 {
            start = address;
            left = instruction_len(profile, image, address);
        }
        left = left.saturating_sub(1);
        starts.push(start)?;
    }
    Ok(starts)
}

impl<'a> Side<'a> {
    /// Makes a side of a comparison.
    pub fn new(
        alloc: Global,
        name: &'a str,
        image: Image,
        profile: Profile,
    ) -> Result<Side<'a>, AllocError>
        ensures name { IfOk result (λ side. side.name.now ≡ name.now) }
        ensures image { IfOk result (λ side. side.image ≡ image) }
        ensures starts { IfOk result (λ side. side.starts.items ≡ starts_of profile image) }
        ensures profile { IfOk result (λ side. side.profile ≡ profile) }
    {
        let starts = starts_of(alloc, profile, &image)?;
        Ok(Side {
            name,
            image,
            starts,
            profile,
        })
    }

    /// Returns the image.
    pub fn image(&self) -> &Image
        ensures { result.now ≡ self.now.image }
    {
        &self.image
    }

    /// Returns the name of the image's file.
    pub fn name(&self) -> &'a str
        ensures { result.now ≡ self.now.name.now }
    {
        self.name
    }

    /// Returns whether there is a byte at an address.
    pub fn has(&self, address: u16) -> bool
        ensures { result ≡ has (side_view self.now) address }
    {
        self.image.get(address).is_some()
    }

    /// Returns where the instruction begins that has the byte at an address.
    pub fn start_at(&self, address: u16) -> u16
        ensures { result ≡ start_at (side_view self.now) address }
    {
        self.starts
            .get(address as usize)
            .copied()
            .unwrap_or(address)
    }

    /// Appends the byte at an address.
    pub fn push_byte(&self, words: &mut String, address: u16) -> Result<(), AllocError>
        ensures { OnOk result (string_bytes words.new
            ≡ string_bytes words.old ++ byte_text (side_view self.now) address) }
    {
        match self.image.get(address) {
            Some(byte) => write!(words, "{byte:02X}"),
            None => words.push_str(wording::NO_BYTE),
        }
    }

    /// Appends the instruction that has the byte at an address.
    pub fn push_instruction(&self, words: &mut String, address: u16) -> Result<(), AllocError>
        ensures { OnOk result (string_bytes words.new
            ≡ string_bytes words.old ++ instruction_text (side_view self.now) address) }
    {
        push_instruction(words, self.profile, &self.image, self.start_at(address))
    }
}
