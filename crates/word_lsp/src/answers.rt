//! What is answered to requests.

ghost use Rattle.std.specs.Prelude.{◌≡◌, IfOk};
ghost use Rattle.word_lsp.specs.Answers.{IsFailure, IsPrepared, IsRenamed, IsReplyIn};
ghost use Rattle.word_lsp.specs.Answers.{IsResult, IsRunning, text_on};
ghost use Rattle.word_lsp.specs.Searches.{found_in_all};
ghost use Rattle.word_lsp.specs.State.{documents_view};
ghost use Rattle.lsp_messages.specs.Requests.{asks};
ghost use Rattle.lsp_messages.specs.Views.{request_view};
ghost use Rattle.serde_json.specs.View.{view};

use crate::capabilities::capabilities;
use crate::documents::Documents;
use crate::phase::Phase;
use crate::questions::{Asked, answer_to};
use crate::searching::found_in_all;
use bus::MapSpec;
use lsp_answers::{Text, prepare_rename, rename};
use lsp_messages::{Client, Failure, Question, Request, failure_reply, result_reply};
use serde_json::Value;
use std::alloc::{AllocError, Global};

/// Answers a question about a document.
fn question_reply(
    alloc: Global,
    map: &MapSpec,
    client: Client,
    documents: &Documents,
    id: &Value,
    uri: &str,
    question: Question,
) -> Result<Value, AllocError>
    ensures { IfOk result (λ v. IsRunning map.now client (documents_view documents.now)
        (view id.now) (asks uri.now question) (view v)) }
{
    let Ok(source) = documents.source_of(alloc, uri) else {
        return Err(AllocError);
    };
    let Ok(text) = Text::read(alloc, map.profile(), &source) else {
        return Err(AllocError);
    };
    let asked = Asked {
        client,
        uri,
        written: documents.written(uri),
    };
    match answer_to(alloc, map, &asked, &text, question) {
        Ok(given) => result_reply(alloc, id, given),
        Err(error) => Err(error),
    }
}

/// Answers a search of all documents.
fn search_reply(
    alloc: Global,
    map: &MapSpec,
    documents: &Documents,
    id: &Value,
    query: &str,
) -> Result<Value, AllocError>
    ensures { IfOk result (λ v. IsResult (view id.now) (λ given. given
        ≡ found_in_all map.now.profile query.now (documents_view documents.now)) (view v)) }
{
    match found_in_all(alloc, map.profile(), documents, query) {
        Ok(given) => result_reply(alloc, id, given),
        Err(error) => Err(error),
    }
}

/// Answers whether the name at a position may get another one: with the name, or with the words of
/// why not.
fn prepare_reply(
    alloc: Global,
    map: &MapSpec,
    documents: &Documents,
    id: &Value,
    uri: &str,
    line: u64,
    character: u64,
) -> Result<Value, AllocError>
    ensures { IfOk result (λ v. IsPrepared map.now
        (text_on map.now (documents_view documents.now) uri.now) line character (view id.now)
        (view v)) }
{
    let Ok(source) = documents.source_of(alloc, uri) else {
        return Err(AllocError);
    };
    let Ok(text) = Text::read(alloc, map.profile(), &source) else {
        return Err(AllocError);
    };
    match prepare_rename(alloc, map, &text, line, character) {
        Ok(Ok(found)) => result_reply(alloc, id, found),
        Ok(Err(words)) => failure_reply(alloc, id, Failure::Refused, words.as_str()),
        Err(error) => Err(error),
    }
}

/// Answers a request for another name for the name at a position: with the changes, or with the
/// words of why there are none.
fn rename_reply(
    alloc: Global,
    map: &MapSpec,
    documents: &Documents,
    id: &Value,
    uri: &str,
    line: u64,
    character: u64,
    name: &str,
) -> Result<Value, AllocError>
    ensures { IfOk result (λ v. IsRenamed map.now uri.now
        (text_on map.now (documents_view documents.now) uri.now) line character name.now
        (view id.now) (view v)) }
{
    let Ok(source) = documents.source_of(alloc, uri) else {
        return Err(AllocError);
    };
    let Ok(text) = Text::read(alloc, map.profile(), &source) else {
        return Err(AllocError);
    };
    match rename(alloc, map, uri, &text, line, character, name) {
        Ok(Ok(changes)) => result_reply(alloc, id, changes),
        Ok(Err(words)) => failure_reply(alloc, id, Failure::Refused, words.as_str()),
        Err(error) => Err(error),
    }
}

/// Returns the words of a failure.
fn words_of(failure: Failure) -> &'static str {
    match failure {
        Failure::NotJson => "this is no JSON",
        Failure::NoRequest => "this is no request here",
        Failure::UnknownMethod => "this method is not served",
        Failure::WrongParameters => "a parameter is missing",
        Failure::NotInitialized => "initialize comes first",
        Failure::Refused => "this cannot be done",
    }
}

/// Answers a request that fails, in the words of its failure.
pub fn failed(alloc: Global, id: &Value, failure: Failure) -> Result<Value, AllocError>
    ensures { IfOk result (λ v. IsFailure (view id.now) failure (view v)) }
{
    failure_reply(alloc, id, failure, words_of(failure))
}

/// Answers a request of a running client.
fn running_reply(
    alloc: Global,
    map: &MapSpec,
    client: Client,
    documents: &Documents,
    id: &Value,
    request: Request<'_>,
) -> Result<Value, AllocError>
    ensures { IfOk result (λ v. IsRunning map.now client (documents_view documents.now)
        (view id.now) (request_view request.entry) (view v)) }
{
    match request {
        Request::Question { uri, question } => {
            question_reply(alloc, map, client, documents, id, uri, question)
        }
        Request::Search { query } => search_reply(alloc, map, documents, id, query),
        Request::Prepare {
            uri,
            line,
            character,
        } => prepare_reply(alloc, map, documents, id, uri, line, character),
        Request::Rename {
            uri,
            line,
            character,
            name,
        } => rename_reply(alloc, map, documents, id, uri, line, character, name),
        Request::Shutdown => result_reply(alloc, id, Value::Null),
        Request::Invalid => failed(alloc, id, Failure::WrongParameters),
        Request::Unknown => failed(alloc, id, Failure::UnknownMethod),
        Request::Initialize { .. }
        | Request::Configure { .. }
        | Request::Exit
        | Request::Open { .. }
        | Request::Change { .. }
        | Request::Close { .. }
        | Request::NoMethod => failed(alloc, id, Failure::NoRequest),
    }
}

/// Returns the answer to a request. The only error is that a request for memory was refused.
pub fn reply(
    alloc: Global,
    map: &MapSpec,
    phase: Phase,
    documents: &Documents,
    id: &Value,
    request: Request<'_>,
) -> Result<Value, AllocError>
    ensures { IfOk result (λ v. IsReplyIn map.now phase (documents_view documents.now)
        (view id.now) (request_view request.entry) (view v)) }
{
    match phase {
        Phase::Fresh => match request {
            Request::Initialize { client, .. } => match capabilities(alloc, client) {
                Ok(given) => result_reply(alloc, id, given),
                Err(error) => Err(error),
            },
            _ => failed(alloc, id, Failure::NotInitialized),
        },
        Phase::Running(client) => running_reply(alloc, map, client, documents, id, request),
        Phase::ShutDown => failed(alloc, id, Failure::NoRequest),
    }
}
