//! Why a reply is not written to its end.

use thiserror::Error;

/// Why a reply is not written to its end. Source: mos65.
#[derive(Clone, Copy, Debug, PartialEq, Eq, Error)]
pub enum ReplyFault {
    /// A write failed, or took no byte.
    #[error("Write")]
    Write,
    /// An allocation failed.
    #[error("OutOfMemory")]
    OutOfMemory,
}
