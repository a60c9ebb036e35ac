//! Words as texts.

ghost use Rattle.std.specs.Prelude.{◌≡◌, ℕ, IfOk, List, string_bytes};
ghost use Rattle.std.specs.Str.Lossy.{utf8_lossy};

use std::alloc::{AllocError, Global};

/// Returns words as a text, if memory did not run out for them.
pub fn text_of(alloc: Global, words: Result<Vec<u8>, AllocError>) -> Result<String, AllocError>
    ensures { (bytes : List ℕ) → IfOk words (λ w. w.items ≡ bytes)
        → IfOk result (λ text. string_bytes text ≡ utf8_lossy bytes) }
{
    match words {
        Ok(words) => String::from_utf8_lossy(alloc, &words),
        Err(error) => Err(error),
    }
}
