//! The lines that are shown of a name.

ghost use Rattle.std.specs.Prelude.{◌≡◌};
ghost use Rattle.lsp_answers.specs.Above.{above, is_comment, line_defining, name_lines};
ghost use Rattle.lsp_answers.specs.Texts.{text_view};
ghost use Rattle.name_uses.specs.Views.{use_view, use_views};
ghost use Rattle.source_notes.specs.Lines.{texts_of};

use crate::source_text::Text;
use lsp_messages::lines_between;
use name_uses::NameUse;
use source_notes::{after, blank_run, line_of, line_or_none};

/// Returns whether a line has a comment alone.
fn is_comment(line: &[u8]) -> bool
    ensures { result ≡ is_comment line.now }
{
    match after(line, blank_run(line)) {
        [first, ..] => *first == b';',
        [] => false,
    }
}

/// Returns how many lines stand before the comments that stand above a line, one below another: as
/// many as before the line itself where no comment stands above it.
fn above(lines: &[&[u8]], before: u32) -> u32
    ensures { result ≡ above (texts_of lines.now) before }
{
    let mut first = before;
    while first > 0 {
        if !is_comment(line_or_none(line_of(lines, first))) {
            return first;
        }
        first -= 1;
    }
    first
}

/// Returns the number of the first line that defines a name, or another number if none does.
fn line_defining(uses: &[NameUse<'_>], name: &[u8], other: u32) -> u32
    ensures { result ≡ line_defining (use_views uses.now) name.now other }
{
    for one in uses {
        if one.text == name && one.defines {
            return one.line;
        }
    }
    other
}

/// Returns the lines that are shown of a name, from a text as its client has it: that which defines
/// the name, with the comments above it.
pub fn name_lines<'a>(written: &'a [u8], text: &Text<'_>, one: &NameUse<'_>) -> &'a [u8]
    ensures { result.now ≡ name_lines written.now (text_view text.now) (use_view one.now) }
{
    let last = line_defining(&text.uses, one.text, one.line).saturating_sub(1);
    let first = above(&text.lines, last);
    lines_between(written, first as u64, last as u64)
}
