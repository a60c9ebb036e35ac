//! What `asm` has to be told of a source.

ghost use Rattle.std.specs.Prelude.{◌≡◌, ◌++◌, codes};
ghost use Rattle.model.specs.Image.{has_byte};
ghost use Rattle.model.specs.Writers.{AppendsFront};
ghost use Rattle.word_dis.specs.Advice.{advice, bytes_text, is_at_port, remark};

use arguments::{put_all, put_two};
use bus::Image;
use formatting::{Text, push_bytes, push_decimal};
use memory_map::DEFAULT_PORT;
use model::Profile;
use std::io::Write;

/// Whether an image has a byte at an address.
#[tactic(auto, unfolding(model::specs::Image::has_byte))]
fn has_byte(part: &Image, address: u16) -> bool
    ensures { result ≡ has_byte part.now address }
{
    part.get(address).is_some()
}

/// Returns whether an image has a byte where the port is if nothing is said.
pub fn is_at_port(part: &Image) -> bool
    ensures { result ≡ is_at_port part.now }
{
    has_byte(part, DEFAULT_PORT)
        || has_byte(part, DEFAULT_PORT + 1)
        || has_byte(part, DEFAULT_PORT + 2)
        || has_byte(part, DEFAULT_PORT + 3)
}

/// The line that says what `asm` has to be told, or nothing.
fn advice(at_port: bool, profile: Profile) -> &'static [u8]
    ensures { result.now ≡ advice at_port profile }
{
    match (at_port, profile) {
        (false, Profile::N) => b"",
        (true, Profile::N) => b"mos65: this is a source for asm --port none\n",
        (false, Profile::C) => b"mos65: this is a source for asm --profile C\n",
        (true, Profile::C) => b"mos65: this is a source for asm --port none --profile C\n",
    }
}

/// The line that says how many bytes were left out as fill, or nothing.
#[tactic(auto, unfolding(crate::specs::Advice::bytes_text))]
fn bytes_text(count: usize) -> Text
    ensures { result.items ≡ bytes_text count }
{
    let mut text = Text::new();
    if count != 0 {
        push_bytes(&mut text, b"mos65: bytes left out: ");
        push_decimal(&mut text, count as u64);
        push_bytes(&mut text, b"\n");
    }
    text
}

/// What is left out of a source.
#[derive(Clone, Copy)]
pub struct LeftOut<'a> {
    /// What is said of lines of a file of names, or nothing.
    pub names: &'a [u8],
    /// How many bytes, as fill.
    pub bytes: usize,
}

/// Writes which lines of a file of names were left out, and two lines behind that, or a beginning
/// of it if a write fails.
fn put_named_lines<E: Write>(names: &[u8], bytes: &[u8], line: &[u8], errors: &mut E)
    ensures { AppendsFront (E.contents errors.old) (E.contents errors.new)
        (codes "mos65: names left out: "
        ++ (names.now ++ (codes "\n" ++ (bytes.now ++ line.now)))) }
{
    put_all(
        &[b"mos65: names left out: ", names, b"\n", bytes, line],
        errors,
    );
}

/// Writes which lines of a file of names and how many bytes were left out, if some were, and what
/// `asm` has to be told of a source, if it has to be told something; or a beginning of that if a
/// write fails.
pub fn put_remarks<E: Write>(left_out: LeftOut<'_>, at_port: bool, profile: Profile, errors: &mut E)
    ensures { AppendsFront (E.contents errors.old) (E.contents errors.new)
        (remark left_out.entry.names.now left_out.entry.bytes (advice at_port profile)) }
{
    let bytes = bytes_text(left_out.bytes);
    let line = advice(at_port, profile);
    if left_out.names.is_empty() {
        put_two(bytes.as_slice(), line, errors);
    } else {
        put_named_lines(left_out.names, bytes.as_slice(), line, errors);
    }
}
