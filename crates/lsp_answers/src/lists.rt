//! The names of a source.

ghost use Rattle.std.specs.Prelude.{◌≡◌, IfOk};
ghost use Rattle.lsp_answers.specs.Lists.{symbol_of, symbols_of};
ghost use Rattle.lsp_answers.specs.Texts.{text_view};
ghost use Rattle.name_uses.specs.Views.{use_view};
ghost use Rattle.serde_json.specs.View.{view};

use crate::named::symbol_kind;
use crate::source_text::Text;
use json_messages::ValueList;
use lsp_messages::symbol;
use name_uses::NameUse;
use serde_json::Value;
use std::alloc::{AllocError, Global};

/// Returns a name where it is defined.
fn symbol_of(alloc: Global, text: &Text<'_>, one: &NameUse<'_>) -> Result<Value, AllocError>
    ensures { IfOk result (λ v. view v ≡ symbol_of (text_view text.now) (use_view one.now)) }
{
    let name = String::from_utf8_lossy(alloc, one.text);
    let range = text.range_of(alloc, one);
    let selected = text.range_of(alloc, one);
    symbol(alloc, symbol_kind(text, one), name, range, selected)
}

/// Returns the names that a source defines, in their order, each with where that is. The only error
/// is that a request for memory was refused.
pub fn symbols(alloc: Global, text: &Text<'_>) -> Result<Value, AllocError>
    ensures { IfOk result (λ v. view v ≡ symbols_of (text_view text.now)) }
{
    let mut found = ValueList::new(alloc);
    for one in &text.uses {
        if one.defines {
            found = found.with(symbol_of(alloc, text, one));
        }
    }
    found.build()
}
