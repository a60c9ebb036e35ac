//! What is said, in Markdown.

ghost use Rattle.std.specs.Prelude.{◌≡◌, ◌++◌, ℕ, IfOk, List, OnOk};
ghost use Rattle.std.specs.List.{flat_map};
ghost use Rattle.lsp_answers.specs.Markdown.{markdown, marked};

use formatting::push_text;
use std::alloc::{AllocError, Global};

/// Begins the lines of a source.
pub const FENCE: &str = "```mos65\n";

/// Ends them.
pub const FENCE_END: &str = "\n```\n";

/// Ends a line of words, and begins another one.
pub const LINE_BREAK: &str = "  \n";

/// A backslash that is one.
pub const BACKSLASH: &str = "\\\\";

/// Appends a byte of words.
fn push_marked(text: &mut Vec<u8>, byte: u8) -> Result<(), AllocError>
    ensures { OnOk result (text.new.items ≡ text.old.items ++ marked byte) }
{
    if byte == b'\n' {
        push_text(text, LINE_BREAK)
    } else if byte == b'\\' {
        push_text(text, BACKSLASH)
    } else {
        text.extend_from_slice(&[byte])
    }
}

/// Appends words.
fn push_words(text: &mut Vec<u8>, words: &[u8]) -> Result<(), AllocError>
    ensures { OnOk result (text.new.items ≡ text.old.items ++ flat_map marked words.now) }
{
    for byte in words {
        push_marked(text, *byte)?;
    }
    Ok(())
}

/// Returns lines of a source, and words behind them. The only error is that a request for memory
/// was refused.
fn markdown(alloc: Global, lines: &[u8], words: &[u8]) -> Result<Vec<u8>, AllocError>
    ensures { IfOk result (λ text. text.items ≡ markdown lines.now words.now) }
{
    let mut text = Vec::from_slice(alloc, FENCE.as_bytes())?;
    text.extend_from_slice(lines)?;
    push_text(&mut text, FENCE_END)?;
    push_words(&mut text, words)?;
    Ok(text)
}

/// Returns lines of a source, and words behind them, if memory did not run out for these.
pub fn words_marked(
    alloc: Global,
    lines: &[u8],
    words: Result<Vec<u8>, AllocError>,
) -> Result<Vec<u8>, AllocError>
    ensures { (text : List ℕ) → IfOk words (λ w. w.items ≡ text)
        → IfOk result (λ m. m.items ≡ markdown lines.now text) }
{
    match words {
        Ok(words) => markdown(alloc, lines, &words),
        Err(error) => Err(error),
    }
}
