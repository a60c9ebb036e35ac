//! What an editor shows beside a source and in it: the address and the cycles of each line, the
//! forms of the operation that is being written, the right word for a wrong one, the colours of
//! tokens, and the folds of labels and comments.
//!
//! `hints` has what stands behind lines, in the words of `cycles`. `signatures` has the forms of
//! the operation at a place, which `operation` finds in a line, and which of them is meant by what
//! is written of its operand (`operands`). `operation` also says at which spot of a line a place
//! is. `fixes` has the change for a fault whose note has the right word, for a number that lacks
//! its `#`, for a branch that is too far (`branches`), and for a name that nothing uses. The
//! definitions are `Hints.antt`, `Operations.antt`, `Operands.antt`, `Signatures.antt`,
//! `Fixes.antt` and `Branches.antt`.
//!
//! `painted` has the colours of all lines or of some, as the protocol counts them: `colour` gives
//! each token one, `paint` finds where they stand, `numbers` counts from one to the next. `folded`
//! has the folds; `labels` knows a line with a label. The definitions are `Colours.antt`,
//! `Painted.antt` and `Folds.antt`.
#![tactic(auto)]

mod branches;
mod colour;
mod cycles;
mod fixes;
mod folds;
mod hints;
mod labels;
mod numbers;
mod operands;
mod operation;
mod paint;
mod signatures;
mod values;
mod wording;

pub use fixes::fixes_in;
pub use folds::folded;
pub use hints::hints_in;
pub use numbers::painted;
pub use operation::spot_at;
pub use signatures::signatures_at;
