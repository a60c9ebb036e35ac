//! The law.

ghost use Rattle.law_texts.specs.Law.{TextIsReadAgain};

/// States that a row's text, read at its address in the same profile, is the row's bytes again.
///
/// A law for proofs: the call does nothing.
pub fn text_is_read_again()
    ensures { TextIsReadAgain }
{}
