//! The kinds of names.

ghost use Rattle.std.specs.Prelude.{◌≡◌};
ghost use Rattle.lsp_answers.specs.Named.{is_equals, is_given, item_kind, symbol_kind};
ghost use Rattle.lsp_answers.specs.Texts.{text_view};
ghost use Rattle.name_uses.specs.Views.{use_view};

use crate::source_text::Text;
use name_uses::NameUse;
use source_notes::{after, blank_run};

/// Returns whether bytes begin with `=`.
fn is_equals(bytes: &[u8]) -> bool
    ensures { result ≡ is_equals bytes.now }
{
    match bytes {
        [first, ..] => *first == b'=',
        [] => false,
    }
}

/// Returns whether `=` stands behind a name.
fn is_given(text: &Text<'_>, one: &NameUse<'_>) -> bool
    ensures { result ≡ is_given (text_view text.now) (use_view one.now) }
{
    let behind = after(after(text.line(one.line), one.start), one.text.len());
    is_equals(after(behind, blank_run(behind)))
}

/// Returns the kind of a name that may be written. Source: Language Server Protocol 3.17,
/// "CompletionItemKind".
pub fn item_kind(text: &Text<'_>, one: &NameUse<'_>) -> u64
    ensures { result ≡ item_kind (text_view text.now) (use_view one.now) }
{
    if is_given(text, one) { 21 } else { 3 }
}

/// Returns the kind of a name of a document. Source: Language Server Protocol 3.17, "SymbolKind".
pub fn symbol_kind(text: &Text<'_>, one: &NameUse<'_>) -> u64
    ensures { result ≡ symbol_kind (text_view text.now) (use_view one.now) }
{
    if is_given(text, one) { 14 } else { 12 }
}
