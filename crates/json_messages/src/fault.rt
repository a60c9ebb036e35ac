//! Why no message comes.

/// Why no message is taken from a stream, or none is written.
#[derive(Clone, Copy)]
pub enum StreamFault {
    /// The header in front gives no length of a body, or one of more than 16,777,216 bytes.
    NoLength,
    /// The header in front has more than 4,096 bytes.
    LongHeader,
    /// The stream ends within a message.
    Cut,
    /// A read failed.
    Read,
    /// A write or a flush failed.
    Write,
    /// An allocation failed.
    OutOfMemory,
}
