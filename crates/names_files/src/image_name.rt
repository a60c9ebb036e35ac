//! Names that an image has and that cannot stand in a source.

ghost use Rattle.std.specs.Prelude.{◌≡◌};
ghost use Rattle.std.specs.List.{list_all};
ghost use Rattle.model.specs.Token.{is_hex_byte};
ghost use Rattle.names_files.specs.ImageNames.{is_image_name, is_name_byte};

/// Returns whether a byte is a letter, a digit, or one of `_ @ . :`.
fn is_name_byte(byte: u8) -> bool
    ensures { result ≡ is_name_byte byte }
{
    matches!(byte, b'A'..=b'Z' | b'a'..=b'z' | b'0'..=b'9' | b'_' | b'@' | b'.' | b':')
}

/// Returns whether a name has such bytes alone.
fn are_name_bytes(name: &[u8]) -> bool
    ensures { result ≡ list_all is_name_byte name.now }
{
    name.iter().all(|byte| is_name_byte(*byte))
}

/// Returns whether a byte is a hex digit.
fn is_hex_byte(byte: u8) -> bool
    ensures { result ≡ is_hex_byte byte }
{
    byte.is_ascii_hexdigit()
}

/// Returns whether a name has hex digits alone.
fn are_hex_bytes(name: &[u8]) -> bool
    ensures { result ≡ list_all is_hex_byte name.now }
{
    name.iter().all(|byte| is_hex_byte(*byte))
}

/// Returns whether an image may have a name: it has 2 to 63 letters, digits, and `_ @ . :`, and is
/// no hex number.
pub fn is_image_name(name: &[u8]) -> bool
    ensures { result ≡ is_image_name name.now }
{
    1 < name.len() && name.len() < 64 && are_name_bytes(name) && !are_hex_bytes(name)
}
