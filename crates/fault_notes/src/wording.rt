//! The words after the blocks of faults.

/// What follows the count of one fault.
pub const ONE_FAULT: &str = " fault\n";

/// What follows any other count of faults.
pub const FAULTS: &str = " faults\n";
