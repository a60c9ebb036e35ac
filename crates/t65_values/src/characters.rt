//! What stands between two `"`.

ghost use Rattle.std.specs.Prelude.{◌≡◌};
ghost use Rattle.std.specs.Option.{option_map};
ghost use Rattle.model.specs.Token.{is_string_byte};
ghost use Rattle.t65_values.specs.StringText.{character_of, escape_of, escaped, hex_byte};
ghost use Rattle.t65_values.specs.StringText.{or_backslash, read_view, two_digits};

use formatting::hex_value;

/// Returns what a byte behind a `\` stands for, if it stands for another.
fn escaped(byte: u8) -> Option<u8>
    ensures { result ≡ escaped byte }
{
    match byte {
        b'n' => Some(b'\n'),
        b'r' => Some(b'\r'),
        b't' => Some(b'\t'),
        b'\\' => Some(b'\\'),
        b'"' => Some(b'"'),
        _ => None,
    }
}

/// Returns the byte that two hex digits write.
fn two_digits(high: u8, low: u8) -> Option<u8>
    ensures { result ≡ two_digits high low }
{
    let high = hex_value(high)?;
    let low = hex_value(low)?;
    Some(high * 16 + low)
}

/// Returns the byte that the two hex digits at the front of a text write, and the text after them.
fn hex_byte(text: &[u8]) -> Option<(u8, &[u8])>
    ensures { option_map read_view result ≡ hex_byte text.now }
{
    match text {
        [] => None,
        [_] => None,
        [high, low, rest @ ..] => match two_digits(*high, *low) {
            Some(byte) => Some((byte, rest)),
            None => None,
        },
    }
}

/// Returns what stands behind a `\`, and the text after it: a byte, if it stands for one.
fn escape_of(text: &[u8]) -> Option<(u8, &[u8])>
    ensures { option_map read_view result ≡ escape_of text.now }
{
    match text {
        [] => None,
        [first, rest @ ..] => {
            if *first == b'x' {
                return hex_byte(rest);
            }
            match escaped(*first) {
                Some(byte) => Some((byte, rest)),
                None => None,
            }
        }
    }
}

/// Returns the byte that was read, or the `\` behind which a text stands.
fn or_backslash<'a>(text: &'a [u8], read: Option<(u8, &'a [u8])>) -> (u8, &'a [u8])
    ensures { read_view result ≡ or_backslash text.now (option_map read_view read.entry) }
{
    match read {
        Some(read) => read,
        None => (b'\\', text),
    }
}

/// Returns whether a byte is a visible character of ASCII or a blank, and no `"`.
fn is_string_byte(byte: u8) -> bool
    ensures { result ≡ is_string_byte byte }
{
    matches!(byte, b' ' | b'!' | b'#'..=b'~')
}

/// Returns the next byte of a string and the text after it, or `None` at a `"`, at the line's end
/// and at what is no visible character. `\n`, `\r`, `\t`, `\\`, `\"` and `\xHH` are one byte each.
pub fn character_of(text: &[u8]) -> Option<(u8, &[u8])>
    ensures { option_map read_view result ≡ character_of text.now }
{
    match text {
        [] => None,
        [first, rest @ ..] => {
            if *first == b'\\' {
                Some(or_backslash(rest, escape_of(rest)))
            } else if is_string_byte(*first) {
                Some((*first, rest))
            } else {
                None
            }
        }
    }
}
