//! What is answered to a search of the documents that are open.

ghost use Rattle.std.specs.Prelude.{◌≡◌, ◌++◌, IfOk, List};
ghost use Rattle.json_messages.specs.ValueLists.{HasValues};
ghost use Rattle.serde_json.specs.Data.{Data};
ghost use Rattle.serde_json.specs.View.{view};
ghost use Rattle.word_lsp.specs.Searches.{found_in, found_in_all};
ghost use Rattle.word_lsp.specs.State.{document_view, documents_view};

use crate::documents::{Document, Documents};
use clean_source::clean_source;
use json_messages::ValueList;
use lsp_answers::{Text, with_names};
use model::Profile;
use serde_json::Value;
use std::alloc::{AllocError, Global};

/// Puts the names of a document that have the letters of a query behind others. The only error is
/// that a request for memory was refused.
fn with_document(
    alloc: Global,
    profile: Profile,
    found: ValueList,
    document: &Document,
    query: &str,
) -> Result<ValueList, AllocError>
    ensures { (ds : List Data) → HasValues ds found → IfOk result
        (λ all. HasValues (ds ++ found_in profile query.now (document_view document.now)) all) }
{
    let Ok(source) = clean_source(alloc, &document.text) else {
        return Err(AllocError);
    };
    let Ok(text) = Text::read(alloc, profile, &source) else {
        return Err(AllocError);
    };
    Ok(with_names(alloc, found, document.uri.as_str(), &text, query.as_bytes()))
}

/// Returns the names of all documents that have the letters of a query in their order, in either
/// letter case, each with where it is defined. The only error is that a request for memory was
/// refused.
pub fn found_in_all(
    alloc: Global,
    profile: Profile,
    documents: &Documents,
    query: &str,
) -> Result<Value, AllocError>
    ensures { IfOk result
        (λ v. view v ≡ found_in_all profile query.now (documents_view documents.now)) }
{
    let mut found = ValueList::new(alloc);
    for document in &documents.all {
        found = with_document(alloc, profile, found, document, query)?;
    }
    found.build()
}
