//! How a text tells its form.

ghost use Rattle.std.specs.Prelude.{◌≡◌, ◌≤◌, ◌+◌, drop, length};
ghost use Rattle.std.specs.List.{list_all, prefix_len};
ghost use Rattle.model.specs.Digits.{is_hex_byte};
ghost use Rattle.model.specs.Token.{is_digit};
ghost use Rattle.image_files.specs.Forms.{alone, before_record, begins_record, first_form, form_of};
ghost use Rattle.image_files.specs.Forms.{from_record, front_bytes, has_digits, is_no_record};
ghost use Rattle.image_files.specs.Forms.{is_plain, other_of};
ghost use Rattle.image_files.specs.Forms.{record_of, s_form};
ghost use Rattle.model.specs.Tape.{is_skipped};

use formatting::hex_value;
use image_reader::{Form, TextForm, is_skipped};

/// What bytes look like that begin with no record, or with one where none is looked for.
#[derive(Clone, Copy, Debug, PartialEq, Eq)]
pub enum OtherText {
    /// Nothing, or only what a tape skips.
    Nothing,
    /// Bytes that no text has: a raw image, or a PRG file.
    Bytes,
    /// Text, as the source of an assembler.
    Plain,
    /// What the terminal of a KIM-1 showed while a tape was written.
    Capture,
    /// A tape, where a form without records is said.
    Tape,
    /// Intel HEX, where a form without records is said.
    Hex,
    /// S-records, where a form without records is said.
    SRecords,
}

/// Counts the bytes that are skipped.
fn skipped_len(bytes: &[u8]) -> usize
    ensures counted { result ≡ prefix_len is_skipped bytes.now }
    ensures inside { result ≤ length bytes.now }
{
    bytes.iter().take_while(|byte| is_skipped(**byte)).count()
}

/// Returns whether a byte is one of a text: $20..$7E, a tab or a line end.
fn is_plain(byte: u8) -> bool
    ensures { result ≡ is_plain byte }
{
    (32 <= byte && byte <= 126) || byte == 9 || byte == 10 || byte == 13
}

/// Returns whether a byte is a decimal digit.
fn is_digit(byte: u8) -> bool
    ensures { result ≡ is_digit byte }
{
    48 <= byte && byte <= 57
}

/// Returns whether all of some bytes are of a text.
fn all_are_plain(bytes: &[u8]) -> bool
    ensures { result ≡ list_all is_plain bytes.now }
{
    let mut all = true;
    for byte in bytes {
        all &= is_plain(*byte);
    }
    all
}

/// Returns the first 64 bytes, or all if there are fewer.
pub fn front_bytes(bytes: &[u8]) -> &[u8]
    ensures { result.now ≡ front_bytes bytes.now }
{
    if bytes.len() <= 64 {
        return bytes;
    }
    &bytes[..64]
}

/// Returns whether a byte is a hex digit.
fn is_hex(byte: u8) -> bool
    ensures { result ≡ is_hex_byte byte }
{
    hex_value(byte).is_some()
}

/// Returns whether all of some bytes are hex digits.
fn all_are_hex(bytes: &[u8]) -> bool
    ensures { result ≡ list_all is_hex_byte bytes.now }
{
    let mut all = true;
    for byte in bytes {
        all &= is_hex(*byte);
    }
    all
}

/// Returns whether eight hex digits stand behind the first byte.
fn has_digits(rest: &[u8]) -> bool
    ensures { result ≡ has_digits rest.now }
{
    if rest.len() < 9 {
        return false;
    }
    all_are_hex(&rest[1..9])
}

/// Returns whether no record of a tape begins with a byte.
fn is_no_record(byte: u8) -> bool
    ensures { result ≡ is_no_record byte }
{
    !(byte == b';')
}

/// Counts the bytes before the first `;`.
fn before_len(text: &[u8]) -> usize
    ensures counted { result ≡ prefix_len is_no_record text.now }
    ensures inside { result ≤ length text.now }
{
    text.iter().take_while(|byte| is_no_record(**byte)).count()
}

/// Returns what a text has before its first `;`, or all of it, and what it has from there on.
#[tactic(auto, unfolding(crate::specs::Forms::before_record, crate::specs::Forms::from_record))]
pub fn at_record(text: &[u8]) -> (&[u8], &[u8])
    ensures before { result.0.now ≡ before_record text.now }
    ensures behind { result.1.now ≡ from_record text.now }
    ensures whole { length result.0.now + length result.1.now ≡ length text.now }
{
    text.split_at(before_len(text))
}

/// Returns what bytes look like that begin with no record.
fn other_of(bytes: &[u8]) -> OtherText
    ensures { result ≡ other_of bytes.now }
{
    if has_digits(at_record(bytes).1) {
        OtherText::Capture
    } else if all_are_plain(front_bytes(bytes)) {
        OtherText::Plain
    } else {
        OtherText::Bytes
    }
}

/// Returns the form of bytes, by what follows an `S`.
fn s_form(bytes: &[u8], rest: &[u8]) -> Result<Form, OtherText>
    ensures { result ≡ s_form bytes.now rest.now }
{
    match rest {
        [] => Err(other_of(bytes)),
        [digit, ..] => {
            if is_digit(*digit) {
                Ok(Form::Text(TextForm::SRecord))
            } else {
                Err(other_of(bytes))
            }
        }
    }
}

/// Returns the form of bytes, by what follows the bytes that are skipped.
fn first_form(bytes: &[u8], rest: &[u8]) -> Result<Form, OtherText>
    ensures { result ≡ first_form bytes.now rest.now }
{
    match rest {
        [] => Err(OtherText::Nothing),
        [first, rest @ ..] => {
            if *first == b';' {
                Ok(Form::Tape)
            } else if *first == b':' {
                Ok(Form::Text(TextForm::Hex))
            } else if *first == b'S' {
                s_form(bytes, rest)
            } else {
                Err(other_of(bytes))
            }
        }
    }
}

/// Returns the form that the first record of some bytes tells: `;` begins a tape, `:` Intel HEX,
/// `S` with a digit S-records. Before it may stand NUL, CR, LF and X-OFF.
///
/// Errors: what the bytes look like that begin with no record. A raw image and a PRG file are told
/// by their user alone.
#[tactic(auto, unfolding(crate::specs::Forms::form_of))]
pub fn form_of(bytes: &[u8]) -> Result<Form, OtherText>
    ensures { result ≡ form_of bytes.now }
{
    first_form(bytes, &bytes[skipped_len(bytes)..])
}

/// Returns whether eight hex digits stand behind the first byte that a tape does not skip.
#[tactic(auto, unfolding(crate::specs::Forms::begins_record))]
fn begins_record(bytes: &[u8]) -> bool
    ensures { result ≡ begins_record bytes.now }
{
    has_digits(&bytes[skipped_len(bytes)..])
}

/// Returns what bytes look like that begin as a record of a form.
fn record_of(form: Form) -> OtherText
    ensures { result ≡ record_of form }
{
    match form {
        Form::Tape => OtherText::Tape,
        Form::Text(TextForm::Hex) => OtherText::Hex,
        Form::Text(TextForm::SRecord) => OtherText::SRecords,
        Form::Raw(_) => OtherText::Bytes,
        Form::Prg => OtherText::Bytes,
    }
}

/// Returns a form without records, by whether some bytes begin a record and which form that has.
fn alone(form: Form, begins: bool, told: Result<Form, OtherText>) -> Result<Form, OtherText>
    ensures { result ≡ alone form begins told }
{
    if !begins {
        return Ok(form);
    }
    match told {
        Ok(told) => Err(record_of(told)),
        Err(_) => Ok(form),
    }
}

/// Returns a form without records that is said of bytes.
///
/// Errors: what the bytes look like, where they begin with a record.
pub fn form_alone(form: Form, bytes: &[u8]) -> Result<Form, OtherText>
    ensures { result ≡ alone form (begins_record bytes.now) (form_of bytes.now) }
{
    alone(form, begins_record(bytes), form_of(bytes))
}
