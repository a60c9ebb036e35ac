//! Why a line is rejected.

use model::{AsmFaultKind, LineFault};
use std::alloc::{AllocError, AllocFailed};

/// Why a line has no result.
#[derive(Clone, Copy, Debug, PartialEq, Eq)]
pub enum LineError {
    /// An allocation failed.
    Memory,
    /// The line has a fault of this kind.
    Kind(AsmFaultKind),
}

impl From<AllocError> for LineError {
    ghost use Rattle.std.specs.Prelude.{◌≡◌};
    ghost use Rattle.line_parts.specs.declared.fault.LineError.TheVariants.{Memory};

    ghost from_gives = { λ _ e. e ≡ Memory };

    fn from(_error: AllocError) -> LineError {
        LineError::Memory
    }
}

impl<T: Drop> From<AllocFailed<T>> for LineError {
    ghost use Rattle.std.specs.Prelude.{◌≡◌};
    ghost use Rattle.line_parts.specs.declared.fault.LineError.TheVariants.{Memory};

    ghost from_gives = { λ _ e. e ≡ Memory };

    fn from(_refused: AllocFailed<T>) -> LineError {
        LineError::Memory
    }
}

impl From<LineFault> for LineError {
    ghost use Rattle.std.specs.Prelude.{◌≡◌};
    ghost use Rattle.line_parts.specs.LineViews.{error_of};

    ghost from_gives = { λ fault e. e ≡ error_of fault };

    fn from(fault: LineFault) -> LineError {
        match fault {
            LineFault::Syntax => LineError::Kind(AsmFaultKind::Syntax),
            LineFault::OutOfMemory => LineError::Memory,
        }
    }
}
