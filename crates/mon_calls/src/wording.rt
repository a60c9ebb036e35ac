//! The words of calls and locals, each once. Definitions in `specs` name them.

pub const NO_FUNCTIONS: &str =
    "no functions of C are known here: the debug file of ld65 has those of cc65 -g\n";

pub const NO_POINTER: &str = "it is not known where C's stack pointer sp is: --symbols takes the \
labels of ld65 -Ln\n";

pub const NOT_IN_C: &str = "the program is in no function of C here; where shows the calls\n";

pub const NO_SUCH_CALL: &str = "no call of C has this number\n";

pub const NO_BASE: &str = "  it is not known where its locals are\n";

pub const NO_LOCALS: &str = "  no locals here\n";
