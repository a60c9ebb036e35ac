//! What a run remembers from one step to the next.

use model::Regs;

/// What a run remembers from one step to the next.
#[derive(Clone, Copy, Debug, PartialEq, Eq)]
pub struct Memo {
    /// Whether the last step was a jump or a branch to itself.
    pub rests: bool,
    /// The registers when the program last looked for input and none came, if no byte was stored
    /// since.
    pub idle: Option<Regs>,
    /// The program counter before the last step, if one was made.
    pub from: Option<u16>,
}
