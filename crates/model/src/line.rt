//! The parts of a line.

/// The index register that an operand names, if it names one.
#[derive(Clone, Copy, Debug, PartialEq, Eq)]
pub enum Index {
    Unindexed,
    X,
    Y,
}
