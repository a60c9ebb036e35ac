//! Why a file is not converted.

use image_files::ImageRefusal;

/// Why a file is not converted.
#[derive(Clone, Copy, Debug, PartialEq, Eq)]
pub enum ConvertFault {
    /// IN is no image, or a file cannot be read or written, or memory ran out.
    Refused(ImageRefusal),
    /// The image has no byte, and no addresses are said.
    NoByte,
    /// At the address of the byte that would make the sum 0 no byte is written.
    NoSumByte,
    /// The images of two files have two bytes for this address.
    Clash(u16),
}
