//! How many bytes of one class some bytes begin with.

ghost use Rattle.std.specs.Prelude.{◌≡◌, drop};
ghost use Rattle.std.specs.List.{prefix_len};
ghost use Rattle.model.specs.Token.{is_blank, is_word_byte};
ghost use Rattle.source_notes.specs.Classes.{is_in};

/// A class of bytes.
#[derive(Clone, Copy)]
pub enum Class {
    /// Spaces and tabs.
    Blank,
    /// Letters, digits and `_`.
    Word,
    /// Decimal digits.
    Decimal,
    /// Hex digits.
    Hex,
    /// What may stand in a line: printable ASCII and tabs.
    Line,
    /// All but a double quote.
    Unquoted,
}

impl Class {
    /// Returns whether a byte is of the class.
    pub fn has(self, byte: u8) -> bool
        ensures { result ≡ is_in self byte }
    {
        match self {
            Class::Blank => matches!(byte, b' ' | b'\t'),
            Class::Word => matches!(byte, b'A'..=b'Z' | b'a'..=b'z' | b'0'..=b'9' | b'_'),
            Class::Decimal => matches!(byte, b'0'..=b'9'),
            Class::Hex => matches!(byte, b'0'..=b'9' | b'A'..=b'F' | b'a'..=b'f'),
            Class::Line => matches!(byte, b' '..=b'~' | b'\t'),
            Class::Unquoted => byte != b'"',
        }
    }
}

/// Returns how many bytes of a class some bytes begin with.
pub fn run_of(class: Class, bytes: &[u8]) -> usize
    ensures { result ≡ prefix_len (is_in class) bytes.now }
{
    bytes.iter().take_while(|byte| class.has(**byte)).count()
}

/// Returns the bytes after so many, if there are so many.
pub fn after(bytes: &[u8], count: usize) -> &[u8]
    ensures { result.now ≡ drop count bytes.now }
{
    if count <= bytes.len() {
        &bytes[count..]
    } else {
        &bytes[bytes.len()..]
    }
}

/// Returns how many spaces and tabs some bytes begin with.
pub fn blank_run(bytes: &[u8]) -> usize
    ensures { result ≡ prefix_len is_blank bytes.now }
{
    run_of(Class::Blank, bytes)
}

/// Returns how many letters, digits and `_` some bytes begin with.
pub fn word_run(bytes: &[u8]) -> usize
    ensures { result ≡ prefix_len is_word_byte bytes.now }
{
    run_of(Class::Word, bytes)
}
