//! How a line with a fault is mended.

ghost use Rattle.std.specs.Prelude.{◌≡◌, ◌≤◌, OnOk};
ghost use Rattle.model.specs.AllFaults.{first_word, with_word};
ghost use Rattle.source_faults.specs.Views.{mending_of};

use crate::first_word::first_word;
use std::alloc::{AllocError, Global};
use symbols::Symbols;

/// How lines with a fault are mended.
#[derive(Clone, Copy)]
pub enum Mending {
    /// Without bytes; the name that the line begins with is 0.
    Smallest,
    /// Of 3 bytes; the name that the line begins with has no number.
    Largest,
}

impl Mending {
    /// Returns how many bytes a mended line has.
    pub fn bytes(self) -> u32
        ensures exact { result ≡ (mending_of self).bytes }
        ensures few { result ≤ 3 }
    {
        match self {
            Mending::Smallest => 0,
            Mending::Largest => 3,
        }
    }

    /// Whether the name that a mended line begins with is 0.
    fn is_numbered(self) -> bool
        ensures { result ≡ (mending_of self).numbered }
    {
        match self {
            Mending::Smallest => true,
            Mending::Largest => false,
        }
    }
}

/// Returns the name that a mended line begins with defined as 0, if it is numbered so and has no
/// number yet. The only error is that a request for memory was refused.
#[tactic(auto, unfolding(model::specs::AllFaults::with_word))]
pub fn number_word(
    alloc: Global,
    mending: Mending,
    symbols: &mut Symbols,
    text: &[u8],
) -> Result<(), AllocError>
    ensures { OnOk result
        (symbols.new ≡ with_word (mending_of mending).numbered (first_word text.now) symbols.old) }
{
    if mending.is_numbered() {
        let word = first_word(text);
        if symbols.value_of(word).is_none() {
            symbols.define(alloc, word, 0)?;
        }
    }
    Ok(())
}
