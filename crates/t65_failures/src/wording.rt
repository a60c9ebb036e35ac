//! The words of why a row fails. Definitions in `specs` name them.

// ---- why a row fails

/// What stands before the values of the ranges.
pub const FOR: &str = "for ";

/// What stands before the random bytes that were given.
pub const WITH: &str = "with";

/// What stands before the line of a row that is run before each test.
pub const IN_SETUP: &str = "in the setup of line ";

/// What stands before the line of a row that is run after each test.
pub const IN_TEARDOWN: &str = "in the teardown of line ";

/// Stands between a place and what was to be given there.
pub const CANNOT_BE_GIVEN: &str = " cannot be given ";

/// What stands behind a number that is too large to be given.
pub const HEX_HINT: &str = " is hex here: ";

/// What stands behind the same number in decimal.
pub const DECIMAL_HINT: &str = " in decimal)";

/// What stands before the stack pointer after a call.
pub const RETURNED_WITH: &str = "returned with S=";

/// What stands before the stack pointer that a call was made with.
pub const CALLED_WITH: &str = ", called with S=";

/// What stands before the number of steps of a call that has not returned.
pub const NO_RETURN: &str = "no return in ";

/// What stands before the address at which such a call stands.
pub const THEN_AT: &str = " steps; then at ";

/// What stands before the address at which a step was rejected.
pub const STOPPED: &str = "stopped at ";

/// What stands before an item that a row wants.
pub const EXPECTED: &str = "expected ";

/// What stands before the number that came.
pub const CAME: &str = ", came ";

/// What is said if no number came.
pub const NOTHING_CAME: &str = ", nothing came";

/// The line above the last steps.
pub const LAST_STEPS: &str = "the last steps, and the registers after each:\n";

/// The name of an interrupt by the IRQ line.
pub const IRQ: &str = "IRQ";

/// The name of an NMI.
pub const NMI: &str = "NMI";

/// Stands between the name of an interrupt and the number of the step before which it came.
pub const CAME_BEFORE: &str = " came before step ";

/// Stands before the name of an interrupt that has not come.
pub const NO_SIGNAL: &str = "no ";

/// Stands behind it.
pub const HAS_COME: &str = " came\n";

/// What stands before the registers of a step.
pub const A_IS: &str = "A=";

pub const X_IS: &str = " X=";

pub const Y_IS: &str = " Y=";

pub const S_IS: &str = " S=";

pub const P_IS: &str = " P=";

// ---- places

/// The input, as a row names it.
pub const INPUT: &str = "in";

/// What stands before the number of a byte of the output.
pub const OUTPUT_BYTE: &str = "out byte ";

/// How many bytes the output has.
pub const OUTPUT_COUNT: &str = "bytes of out";

/// The cycles, as a row names them.
pub const CYCLES: &str = "cycles";
