//! A message read.

ghost use Rattle.std.specs.Prelude.{◌≡◌};
ghost use Rattle.std.specs.Option.{option_map};
ghost use Rattle.serde_json.specs.View.{items_view, view};
ghost use Rattle.lsp_messages.specs.Fields.{changes_in, uri_of};
ghost use Rattle.lsp_messages.specs.Requests.{asked_at, asked_of, asked_within, change_of};
ghost use Rattle.lsp_messages.specs.Requests.{client_of, configures, initialize_of, open_by};
ghost use Rattle.lsp_messages.specs.Requests.{colours_by_method, position_by_method, prepare_of};
ghost use Rattle.lsp_messages.specs.Requests.{question_by_method, rename_of, request_of};
ghost use Rattle.lsp_messages.specs.Requests.{search_by, takes_markdown};
ghost use Rattle.lsp_messages.specs.Settings.{told_settings};
ghost use Rattle.lsp_messages.specs.Views.{request_view};

use crate::asked::{At, Client, Question, Request, Whole, Within};
use crate::settings::{begun_with, told_settings};
use json_messages::{flag_or, number_at, text_at};
use serde_json::Value;

/// The path of the name of the document that a message is about.
const URI: &str = "/params/textDocument/uri";

/// The path of what a client says of renames.
const PREPARES: &str = "/params/capabilities/textDocument/rename/prepareSupport";

/// The path of the form that a client likes best for what is said at a place.
const BEST_FORM: &str = "/params/capabilities/textDocument/hover/contentFormat/0";

/// Returns whether a client would rather have Markdown than plain text.
fn takes_markdown(message: &Value) -> bool
    ensures { result ≡ takes_markdown (view message.now) }
{
    match text_at(message, BEST_FORM) {
        Some(form) => form == "markdown",
        None => false,
    }
}

/// Reads what a client says that it can do.
fn client_of(message: &Value) -> Client
    ensures { result ≡ client_of (view message.now) }
{
    Client {
        prepares: flag_or(message, PREPARES, false),
        markdown: takes_markdown(message),
    }
}

/// Reads `initialize`: what the client can do, and what it sets.
fn initialize_of(message: &Value) -> Request<'_>
    ensures { request_view result ≡ initialize_of (view message.now) }
{
    let client = client_of(message);
    let settings = begun_with(message);
    Request::Initialize { client, settings }
}

/// Reads `workspace/didChangeConfiguration`: what is set from now on.
fn configure_of(message: &Value) -> Request<'_>
    ensures { request_view result ≡ configures (told_settings (view message.now)) }
{
    let settings = told_settings(message);
    Request::Configure { settings }
}

/// Returns the changes of a text, if there is a list of them.
fn changes_in(message: &Value) -> Option<&[Value]>
    ensures { option_map (λ vs. items_view vs.now) result ≡ changes_in (view message.now) }
{
    match message
        .pointer("/params/contentChanges")
        .and_then(Value::as_array)
    {
        Some(changes) => Some(changes.as_slice()),
        None => None,
    }
}

/// Reads `textDocument/didChange`: the changes of the text of a document.
fn change_of(message: &Value) -> Request<'_>
    ensures { request_view result ≡ change_of (view message.now) }
{
    match text_at(message, URI) {
        Some(uri) => Request::Change {
            uri,
            changes: changes_in(message),
        },
        None => Request::Invalid,
    }
}

/// Reads the notice of the whole text of a document, if the text is given.
fn open_by<'a>(message: &'a Value, text: Option<&'a str>) -> Request<'a>
    ensures { request_view result
        ≡ open_by (uri_of (view message.now)) (option_map (λ s. s.now) text.entry) }
{
    match (text_at(message, URI), text) {
        (Some(uri), Some(text)) => Request::Open { uri, text },
        _ => Request::Invalid,
    }
}

/// Reads a question about a whole document.
fn asked_of(what: Whole, message: &Value) -> Request<'_>
    ensures { request_view result ≡ asked_of what (view message.now) }
{
    match text_at(message, URI) {
        Some(uri) => Request::Question {
            uri,
            question: Question::Whole(what),
        },
        None => Request::Invalid,
    }
}

/// Reads a question about a position.
fn asked_at(what: At, message: &Value) -> Request<'_>
    ensures { request_view result ≡ asked_at what (view message.now) }
{
    let Some(uri) = text_at(message, URI) else {
        return Request::Invalid;
    };
    let Some(line) = number_at(message, "/params/position/line") else {
        return Request::Invalid;
    };
    let Some(character) = number_at(message, "/params/position/character") else {
        return Request::Invalid;
    };
    Request::Question {
        uri,
        question: Question::At {
            what,
            line,
            character,
        },
    }
}

/// Reads a question about some lines: those in which the range of the message begins and ends.
fn asked_within(what: Within, message: &Value) -> Request<'_>
    ensures { request_view result ≡ asked_within what (view message.now) }
{
    let Some(uri) = text_at(message, URI) else {
        return Request::Invalid;
    };
    let Some(from) = number_at(message, "/params/range/start/line") else {
        return Request::Invalid;
    };
    let Some(to) = number_at(message, "/params/range/end/line") else {
        return Request::Invalid;
    };
    Request::Question {
        uri,
        question: Question::Within { what, from, to },
    }
}

/// Reads `textDocument/prepareRename`: whether the name at a position may get another one.
fn prepare_of(message: &Value) -> Request<'_>
    ensures { request_view result ≡ prepare_of (view message.now) }
{
    let Some(uri) = text_at(message, URI) else {
        return Request::Invalid;
    };
    let Some(line) = number_at(message, "/params/position/line") else {
        return Request::Invalid;
    };
    let Some(character) = number_at(message, "/params/position/character") else {
        return Request::Invalid;
    };
    Request::Prepare {
        uri,
        line,
        character,
    }
}

/// Reads `textDocument/rename`: another name for the name at a position.
fn rename_of(message: &Value) -> Request<'_>
    ensures { request_view result ≡ rename_of (view message.now) }
{
    let Some(uri) = text_at(message, URI) else {
        return Request::Invalid;
    };
    let Some(line) = number_at(message, "/params/position/line") else {
        return Request::Invalid;
    };
    let Some(character) = number_at(message, "/params/position/character") else {
        return Request::Invalid;
    };
    let Some(name) = text_at(message, "/params/newName") else {
        return Request::Invalid;
    };
    Request::Rename {
        uri,
        line,
        character,
        name,
    }
}

/// Reads `workspace/symbol`: names by the letters of a query.
fn search_by<'a>(query: Option<&'a str>) -> Request<'a>
    ensures { request_view result ≡ search_by (option_map (λ s. s.now) query.entry) }
{
    match query {
        Some(query) => Request::Search { query },
        None => Request::Invalid,
    }
}

/// Reads a message that asks something of a position.
#[tactic(auto, unfolding(crate::specs::Requests::position_by_method))]
fn position_by_method<'a>(method: &str, message: &'a Value) -> Request<'a>
    ensures { request_view result ≡ position_by_method method.now (view message.now) }
{
    match method {
        "textDocument/hover" => asked_at(At::Hover, message),
        "textDocument/definition" => asked_at(At::Definition, message),
        "textDocument/references" => {
            let declares = flag_or(message, "/params/context/includeDeclaration", false);
            asked_at(At::References { declares }, message)
        }
        "textDocument/documentHighlight" => asked_at(At::Highlights, message),
        "textDocument/signatureHelp" => asked_at(At::Signatures, message),
        "textDocument/completion" => asked_at(At::Completion, message),
        _ => Request::Unknown,
    }
}

/// Reads a message that asks for the colours of some lines, or something of a position.
#[tactic(auto, unfolding(crate::specs::Requests::colours_by_method))]
fn colours_by_method<'a>(method: &str, message: &'a Value) -> Request<'a>
    ensures { request_view result ≡ colours_by_method method.now (view message.now) }
{
    if method == "textDocument/semanticTokens/range" {
        asked_within(Within::Colours, message)
    } else {
        position_by_method(method, message)
    }
}

/// Reads a message that asks something of a document.
#[tactic(auto, unfolding(crate::specs::Requests::question_by_method))]
fn question_by_method<'a>(method: &str, message: &'a Value) -> Request<'a>
    ensures { request_view result ≡ question_by_method method.now (view message.now) }
{
    match method {
        "textDocument/documentSymbol" => asked_of(Whole::Symbols, message),
        "textDocument/semanticTokens/full" => asked_of(Whole::Colours, message),
        "textDocument/foldingRange" => asked_of(Whole::Folds, message),
        "textDocument/inlayHint" => asked_within(Within::Hints, message),
        "textDocument/codeAction" => asked_within(Within::Fixes, message),
        "textDocument/prepareRename" => prepare_of(message),
        "textDocument/rename" => rename_of(message),
        method => colours_by_method(method, message),
    }
}

/// Returns what a message asks for, by its method, and by what stands in it. Source: Language
/// Server Protocol 3.17.
pub fn read_request(message: &Value) -> Request<'_>
    ensures { request_view result ≡ request_of (view message.now) }
{
    let Some(method) = text_at(message, "/method") else {
        return Request::NoMethod;
    };
    match method {
        "initialize" => initialize_of(message),
        "shutdown" => Request::Shutdown,
        "exit" => Request::Exit,
        "textDocument/didOpen" => {
            open_by(message, text_at(message, "/params/textDocument/text"))
        }
        "textDocument/didChange" => change_of(message),
        "textDocument/didClose" => match text_at(message, URI) {
            Some(uri) => Request::Close { uri },
            None => Request::Invalid,
        },
        "workspace/didChangeConfiguration" => configure_of(message),
        "workspace/symbol" => search_by(text_at(message, "/params/query")),
        method => question_by_method(method, message),
    }
}
