//! Why no more tests are run, or why a file is not written.

ghost use Rattle.std.specs.Prelude.{◌≡◌};
ghost use Rattle.word_test.specs.declared.stop.Stop.TheVariants as stop;

use arguments::{NotWritten, Refusal, WriteFault};
use std::alloc::AllocError;

/// Why no more tests are run, or why a file is not written.
#[derive(Clone, Copy, Debug)]
pub enum Stop {
    /// An allocation failed.
    OutOfMemory,
    /// The output cannot be written.
    Output,
    /// The report cannot be written, for this reason.
    Report(WriteFault),
    /// The report's file is a pipe.
    Pipe,
    /// The file for lcov cannot be written, for this reason.
    Coverage(WriteFault),
}

/// Returns why a file cannot be written, or `None` where memory ran out.
fn write_fault(refusal: Refusal) -> Option<WriteFault> {
    match refusal {
        Refusal::OutOfMemory => None,
        Refusal::WriteFile(fault) => Some(fault),
        _ => Some(WriteFault::Other),
    }
}

impl Stop {
    /// Returns why no more tests are run where the report is refused.
    pub fn of_report(refusal: Refusal) -> Stop {
        match write_fault(refusal) {
            None => Stop::OutOfMemory,
            Some(fault) => Stop::Report(fault),
        }
    }

    /// Returns why no more tests are run where the file for lcov is refused.
    pub fn of_coverage(refusal: Refusal) -> Stop {
        match write_fault(refusal) {
            None => Stop::OutOfMemory,
            Some(fault) => Stop::Coverage(fault),
        }
    }
}

impl From<AllocError> for Stop {
    ghost from_gives = { λ error made. made ≡ stop.OutOfMemory };

    fn from(_error: AllocError) -> Stop {
        Stop::OutOfMemory
    }
}

impl From<NotWritten> for Stop {
    ghost from_gives = { λ error made. made ≡ stop.Output };

    fn from(_error: NotWritten) -> Stop {
        Stop::Output
    }
}
