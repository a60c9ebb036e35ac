//! A law of tokens.

ghost use Rattle.model.specs.Token.{TokensAreSlices};

/// States that the tokens of a line are slices of it, in order, and that no two of them overlap.
///
/// A law for proofs: the call does nothing.
pub fn tokens_are_slices()
    ensures { TokensAreSlices }
{}
