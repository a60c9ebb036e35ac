//! The forms of images.

ghost use Rattle.std.specs.Prelude.{◌≡◌};
ghost use Rattle.model.specs.Tape.{is_skipped};

/// A text of records.
#[derive(Clone, Copy, Debug, PartialEq, Eq)]
pub enum TextForm {
    /// Intel HEX.
    Hex,
    /// Motorola S-records.
    SRecord,
}

/// In which form an image is.
#[derive(Clone, Copy, Debug, PartialEq, Eq)]
pub enum Form {
    /// A paper tape of MOS Technology.
    Tape,
    /// Intel HEX or S-records.
    Text(TextForm),
    /// Bytes alone, from this address on.
    Raw(u16),
    /// The address in two bytes, the low one first, and then bytes from it on.
    Prg,
}

/// Returns whether a byte is skipped before the first record: NUL, CR, LF or X-OFF.
pub fn is_skipped(byte: u8) -> bool
    ensures { result ≡ is_skipped byte }
{
    byte == 0 || byte == 13 || byte == 10 || byte == 19
}
