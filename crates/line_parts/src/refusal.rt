//! The fault of a rejected line.

ghost use Rattle.std.specs.Prelude.{◌≡◌};
ghost use Rattle.line_parts.specs.LineFaults.{fault_on_line};

use crate::fault::LineError;
use model::{AsmFault, AsmFaultKind};

/// The fault that is returned if an allocation fails.
pub const OUT_OF_MEMORY: AsmFault = AsmFault {
    line: 0,
    kind: AsmFaultKind::OutOfMemory,
};

/// Returns the fault of a line with a number, or `OUT_OF_MEMORY` if an allocation failed.
pub fn fault_on_line(number: u32, error: LineError) -> AsmFault
    ensures { result ≡ fault_on_line number error }
{
    match error {
        LineError::Memory => OUT_OF_MEMORY,
        LineError::Kind(kind) => AsmFault { line: number, kind },
    }
}
