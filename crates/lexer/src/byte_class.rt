//! The classes of bytes that tokens are made of.

ghost use Rattle.std.specs.Prelude.{◌≡◌, ◌≤◌, length};
ghost use Rattle.std.specs.List.{prefix_len};
ghost use Rattle.model.specs.Digits.{is_hex_byte};
ghost use Rattle.model.specs.Token.{is_blank, is_source_byte, is_printable, is_letter, is_digit};
ghost use Rattle.model.specs.Token.{is_word_byte, is_binary_byte, is_string_byte, is_symbol_byte};

/// Returns whether a byte is a space or a tab.
pub fn is_blank_byte(byte: u8) -> bool
    ensures { result ≡ is_blank byte }
{
    matches!(byte, b' ' | b'\t')
}

/// Returns whether a byte may be in a line: $20..$7E or a tab.
pub fn may_stand(byte: u8) -> bool
    ensures { result ≡ is_source_byte byte }
{
    matches!(byte, b' '..=b'~' | b'\t')
}

/// Returns whether a byte is $20..$7E.
pub fn may_be_char(byte: u8) -> bool
    ensures { result ≡ is_printable byte }
{
    matches!(byte, b' '..=b'~')
}

/// Returns whether a byte is a letter.
pub fn may_begin_word(byte: u8) -> bool
    ensures { result ≡ is_letter byte }
{
    matches!(byte, b'A'..=b'Z' | b'a'..=b'z')
}

/// Returns whether a byte is a decimal digit.
pub fn may_begin_decimal(byte: u8) -> bool
    ensures { result ≡ is_digit byte }
{
    matches!(byte, b'0'..=b'9')
}

/// Returns whether a byte is a letter, a digit or `_`.
pub fn may_be_in_word(byte: u8) -> bool
    ensures { result ≡ is_word_byte byte }
{
    matches!(byte, b'A'..=b'Z' | b'a'..=b'z' | b'0'..=b'9' | b'_')
}

/// Returns whether a byte is a symbol.
pub fn may_be_symbol(byte: u8) -> bool
    ensures { result ≡ is_symbol_byte byte }
{
    matches!(
        byte,
        b':' | b'*'
            | b'='
            | b','
            | b'#'
            | b'!'
            | b'('
            | b')'
            | b'['
            | b']'
            | b'<'
            | b'>'
            | b'+'
            | b'-'
            | b'/'
            | b'&'
            | b'|'
            | b'^'
    )
}

/// Counts the letters, digits and `_` at the front of some bytes.
pub fn word_run(bytes: &[u8]) -> usize
    ensures counted { result ≡ prefix_len is_word_byte bytes.now }
    ensures inside { result ≤ length bytes.now }
{
    bytes
        .iter()
        .take_while(|byte| may_be_in_word(**byte))
        .count()
}

/// Counts the letters at the front of some bytes.
pub fn letter_run(bytes: &[u8]) -> usize
    ensures counted { result ≡ prefix_len is_letter bytes.now }
    ensures inside { result ≤ length bytes.now }
{
    bytes
        .iter()
        .take_while(|byte| matches!(**byte, b'A'..=b'Z' | b'a'..=b'z'))
        .count()
}

/// Counts the decimal digits at the front of some bytes.
pub fn digit_run(bytes: &[u8]) -> usize
    ensures counted { result ≡ prefix_len is_digit bytes.now }
    ensures inside { result ≤ length bytes.now }
{
    bytes
        .iter()
        .take_while(|byte| matches!(**byte, b'0'..=b'9'))
        .count()
}

/// Counts the hex digits at the front of some bytes.
pub fn hex_run(bytes: &[u8]) -> usize
    ensures counted { result ≡ prefix_len is_hex_byte bytes.now }
    ensures inside { result ≤ length bytes.now }
{
    bytes
        .iter()
        .take_while(|byte| matches!(**byte, b'0'..=b'9' | b'A'..=b'F' | b'a'..=b'f'))
        .count()
}

/// Counts the binary digits at the front of some bytes.
pub fn binary_run(bytes: &[u8]) -> usize
    ensures counted { result ≡ prefix_len is_binary_byte bytes.now }
    ensures inside { result ≤ length bytes.now }
{
    bytes
        .iter()
        .take_while(|byte| matches!(**byte, b'0' | b'1'))
        .count()
}

/// Counts the bytes $20..$7E other than `"` at the front of some bytes.
pub fn string_run(bytes: &[u8]) -> usize
    ensures counted { result ≡ prefix_len is_string_byte bytes.now }
    ensures inside { result ≤ length bytes.now }
{
    bytes
        .iter()
        .take_while(|byte| matches!(**byte, b' ' | b'!' | b'#'..=b'~'))
        .count()
}
