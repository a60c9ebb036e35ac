//! What the server can do.

ghost use Rattle.std.specs.Prelude.{◌≡◌, IfOk, map as each};
ghost use Rattle.word_lsp.specs.Capabilities.{capabilities, colours, renames, served};
ghost use Rattle.json_messages.specs.Values.{list_of, word};
ghost use Rattle.serde_json.specs.View.{view};

use json_messages::{Object, ValueList};
use lsp_messages::Client;
use serde_json::Value;
use std::alloc::{AllocError, Global};

/// The types of colours, by their numbers from 0.
const TYPES: [&str; 6] = [
    "keyword", "macro", "variable", "number", "string", "comment",
];

/// Returns a list of words.
fn words(alloc: Global, texts: &[&str]) -> Result<Value, AllocError>
    ensures { IfOk result (λ v. view v ≡ list_of (each word (each (λ s. s.now) texts.now))) }
{
    let mut list = ValueList::new(alloc);
    for text in texts {
        list = list.with(Value::try_from_str(alloc, *text));
    }
    list.build()
}

/// Returns what the server can do about colours: those of a whole text and of some of its lines, by
/// the legend.
fn colours(alloc: Global) -> Result<Value, AllocError>
    ensures { IfOk result (λ v. view v ≡ colours) }
{
    let legend = Object::new(alloc)
        .member("tokenModifiers", words(alloc, &["definition"]))
        .member("tokenTypes", words(alloc, &TYPES))
        .build();
    Object::new(alloc)
        .flag("full", true)
        .member("legend", legend)
        .flag("range", true)
        .build()
}

/// Returns what the server can do about renames: a client that prepares them may ask whether a name
/// can get another one.
fn renames(alloc: Global, client: Client) -> Result<Value, AllocError>
    ensures { IfOk result (λ v. view v ≡ renames client) }
{
    if client.prepares {
        Object::new(alloc).flag("prepareProvider", true).build()
    } else {
        Ok(Value::Bool(true))
    }
}

/// Returns what the server provides: changes that mend faults; the forms of operations, for which a
/// blank or a comma asks; the colours; and documents that are opened, changed in parts, and closed.
fn served(alloc: Global, client: Client) -> Result<Value, AllocError>
    ensures { IfOk result (λ v. view v ≡ served client) }
{
    let fixes = Object::new(alloc)
        .member("codeActionKinds", words(alloc, &["quickfix"]))
        .build();
    let signatures = Object::new(alloc)
        .member("triggerCharacters", words(alloc, &[" ", ","]))
        .build();
    let sync = Object::new(alloc)
        .count("change", 2)
        .flag("openClose", true)
        .build();
    Object::new(alloc)
        .member("codeActionProvider", fixes)
        .member("completionProvider", Object::new(alloc).build())
        .flag("definitionProvider", true)
        .flag("documentHighlightProvider", true)
        .flag("documentSymbolProvider", true)
        .flag("foldingRangeProvider", true)
        .flag("hoverProvider", true)
        .flag("inlayHintProvider", true)
        .word("positionEncoding", "utf-16")
        .flag("referencesProvider", true)
        .member("renameProvider", renames(alloc, client))
        .member("semanticTokensProvider", colours(alloc))
        .member("signatureHelpProvider", signatures)
        .member("textDocumentSync", sync)
        .flag("workspaceSymbolProvider", true)
        .build()
}

/// Returns what the server can do for a client.
pub fn capabilities(alloc: Global, client: Client) -> Result<Value, AllocError>
    ensures { IfOk result (λ v. view v ≡ capabilities client) }
{
    Object::new(alloc)
        .member("capabilities", served(alloc, client))
        .member(
            "serverInfo",
            Object::new(alloc).word("name", "mos65").build(),
        )
        .build()
}
