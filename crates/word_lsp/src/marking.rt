//! The notices of marks, and texts that an editor shows.

ghost use Rattle.std.specs.Prelude.{◌≡◌, IfOk};
ghost use Rattle.std.specs.Prelude.{map as each};
ghost use Rattle.word_lsp.specs.Messages.{AreToldOfAll, IsMarked, IsShown};
ghost use Rattle.word_lsp.specs.State.{documents_view};
ghost use Rattle.serde_json.specs.View.{view};

use crate::documents::Documents;
use bus::MapSpec;
use clean_source::clean_source;
use lsp_answers::{Text, published};
use lsp_messages::{notice, shown};
use serde_json::Value;
use std::alloc::{AllocError, Global};

/// Returns the notice of the marks of a document with this text. The only error is that a request
/// for memory was refused.
pub fn marked(alloc: Global, map: &MapSpec, uri: &str, text: &[u8]) -> Result<Value, AllocError>
    ensures { IfOk result (λ v. IsMarked map.now uri.now text.now (view v)) }
{
    let Ok(source) = clean_source(alloc, text) else {
        return Err(AllocError);
    };
    let Ok(text) = Text::read(alloc, map.profile(), &source) else {
        return Err(AllocError);
    };
    match published(alloc, map, uri, &text) {
        Ok(marks) => notice(alloc, "textDocument/publishDiagnostics", marks),
        Err(error) => Err(error),
    }
}

/// Returns the notices of the marks of all documents. The only error is that a request for memory
/// was refused.
pub fn told_of_all(
    alloc: Global,
    map: &MapSpec,
    documents: &Documents,
) -> Result<Vec<Value>, AllocError>
    ensures { IfOk result (λ vs. AreToldOfAll map.now (documents_view documents.now)
        (each view vs.items)) }
{
    let mut told = Vec::new(alloc);
    for document in &documents.all {
        let one = marked(alloc, map, document.uri.as_str(), &document.text)?;
        told.push(one)?;
    }
    Ok(told)
}

/// Returns the notice of a text that an editor shows. The only error is that a request for memory
/// was refused.
pub fn showing(alloc: Global, words: &str) -> Result<Value, AllocError>
    ensures { IfOk result (λ v. IsShown (view v)) }
{
    match shown(alloc, words) {
        Ok(params) => notice(alloc, "window/showMessage", params),
        Err(error) => Err(error),
    }
}
