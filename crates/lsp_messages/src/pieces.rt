//! What stands in an answer. Each part is a value or that memory ran out for it, and then there is
//! no whole either.

ghost use Rattle.std.specs.Prelude.{◌≡◌, ℕ, IfOk, List, string_bytes};
ghost use Rattle.lsp_messages.specs.Values.{changes_data, edit_data, highlight_data, hover_data};
ghost use Rattle.lsp_messages.specs.Values.{item_data, mark_data, marks_data, ready_data};
ghost use Rattle.lsp_messages.specs.Values.{found_symbol_data, shown_data, symbol_data};
ghost use Rattle.serde_json.specs.Data.{Data};
ghost use Rattle.serde_json.specs.View.{view};

use json_messages::Object;
use serde_json::Value;
use std::alloc::{AllocError, Global};

/// Returns the change that puts a word in place of a range.
pub fn edit(
    alloc: Global,
    word: &str,
    range: Result<Value, AllocError>,
) -> Result<Value, AllocError>
    ensures { (r : Data) → IfOk range (λ v. view v ≡ r)
        → IfOk result (λ v. view v ≡ edit_data word.now r) }
{
    Object::new(alloc)
        .word("newText", word)
        .member("range", range)
        .build()
}

/// Returns the changes of one document.
pub fn changes(
    alloc: Global,
    uri: &str,
    edits: Result<Value, AllocError>,
) -> Result<Value, AllocError>
    ensures { (es : Data) → IfOk edits (λ v. view v ≡ es)
        → IfOk result (λ v. view v ≡ changes_data uri.now es) }
{
    let changes = Object::new(alloc).member(uri, edits).build();
    Object::new(alloc).member("changes", changes).build()
}

/// Returns a place of the name under the cursor, of a kind of the protocol.
pub fn highlight(
    alloc: Global,
    kind: u64,
    range: Result<Value, AllocError>,
) -> Result<Value, AllocError>
    ensures { (r : Data) → IfOk range (λ v. view v ≡ r)
        → IfOk result (λ v. view v ≡ highlight_data kind r) }
{
    Object::new(alloc)
        .count("kind", kind)
        .member("range", range)
        .build()
}

/// Returns a name that may get another one, with its range.
pub fn ready(
    alloc: Global,
    name: Result<String, AllocError>,
    range: Result<Value, AllocError>,
) -> Result<Value, AllocError>
    ensures { (text : List ℕ) (r : Data) → IfOk name (λ s. string_bytes s ≡ text)
        → IfOk range (λ v. view v ≡ r) → IfOk result (λ v. view v ≡ ready_data text r) }
{
    Object::new(alloc)
        .text("placeholder", name)
        .member("range", range)
        .build()
}

/// Returns what is said at a place in a form of the protocol, with the range that it is said of.
pub fn hover(
    alloc: Global,
    form: &str,
    words: Result<String, AllocError>,
    range: Result<Value, AllocError>,
) -> Result<Value, AllocError>
    ensures { (text : List ℕ) (r : Data) → IfOk words (λ s. string_bytes s ≡ text)
        → IfOk range (λ v. view v ≡ r) → IfOk result (λ v. view v ≡ hover_data form.now text r) }
{
    let contents = Object::new(alloc)
        .word("kind", form)
        .text("value", words)
        .build();
    Object::new(alloc)
        .member("contents", contents)
        .member("range", range)
        .build()
}

/// Returns something that may be written, of a kind of the protocol, with what it is, and with the
/// text by which it has its place among others.
pub fn item(
    alloc: Global,
    label: Result<String, AllocError>,
    kind: u64,
    detail: Result<String, AllocError>,
    place: Result<String, AllocError>,
) -> Result<Value, AllocError>
    ensures { (text : List ℕ) (told : List ℕ) (key : List ℕ)
        → IfOk label (λ s. string_bytes s ≡ text) → IfOk detail (λ s. string_bytes s ≡ told)
        → IfOk place (λ s. string_bytes s ≡ key)
        → IfOk result (λ v. view v ≡ item_data text kind told key) }
{
    Object::new(alloc)
        .text("detail", detail)
        .count("kind", kind)
        .text("label", label)
        .text("sortText", place)
        .build()
}

/// Returns a name of a document, of a kind of the protocol, with its range as both ranges that are
/// asked for.
pub fn symbol(
    alloc: Global,
    kind: u64,
    name: Result<String, AllocError>,
    range: Result<Value, AllocError>,
    selected: Result<Value, AllocError>,
) -> Result<Value, AllocError>
    ensures { (text : List ℕ) (r : Data) (s : Data) → IfOk name (λ s. string_bytes s ≡ text)
        → IfOk range (λ v. view v ≡ r) → IfOk selected (λ v. view v ≡ s)
        → IfOk result (λ v. view v ≡ symbol_data kind text r s) }
{
    Object::new(alloc)
        .count("kind", kind)
        .text("name", name)
        .member("range", range)
        .member("selectionRange", selected)
        .build()
}

/// Returns a name of some document, of a kind of the protocol, with where it is.
pub fn found_symbol(
    alloc: Global,
    kind: u64,
    name: Result<String, AllocError>,
    place: Result<Value, AllocError>,
) -> Result<Value, AllocError>
    ensures { (text : List ℕ) (p : Data) → IfOk name (λ s. string_bytes s ≡ text)
        → IfOk place (λ v. view v ≡ p)
        → IfOk result (λ v. view v ≡ found_symbol_data kind text p) }
{
    Object::new(alloc)
        .count("kind", kind)
        .member("location", place)
        .text("name", name)
        .build()
}

/// Returns a mark: how grave it is, the name of its kind, what is said, and the range.
pub fn mark(
    alloc: Global,
    severity: u64,
    code: &str,
    words: Result<String, AllocError>,
    range: Result<Value, AllocError>,
) -> Result<Value, AllocError>
    ensures { (text : List ℕ) (r : Data) → IfOk words (λ s. string_bytes s ≡ text)
        → IfOk range (λ v. view v ≡ r)
        → IfOk result (λ v. view v ≡ mark_data severity code.now text r) }
{
    Object::new(alloc)
        .word("code", code)
        .text("message", words)
        .member("range", range)
        .count("severity", severity)
        .word("source", "mos65")
        .build()
}

/// Returns a text that an editor is to show as an error.
pub fn shown(alloc: Global, words: &str) -> Result<Value, AllocError>
    ensures { IfOk result (λ v. view v ≡ shown_data words.now) }
{
    Object::new(alloc)
        .word("message", words)
        .count("type", 1)
        .build()
}

/// Returns the marks of a document.
pub fn marks(
    alloc: Global,
    uri: &str,
    marks: Result<Value, AllocError>,
) -> Result<Value, AllocError>
    ensures { (ms : Data) → IfOk marks (λ v. view v ≡ ms)
        → IfOk result (λ v. view v ≡ marks_data uri.now ms) }
{
    Object::new(alloc)
        .member("diagnostics", marks)
        .word("uri", uri)
        .build()
}
