//! What the server does with a message.

ghost use Rattle.std.specs.Prelude.{◌≡◌, ◌∷◌, [], IfOk, IsErr, MatchResult, OnOk, is_some};
ghost use Rattle.std.specs.Prelude.{map as each};
ghost use Rattle.std.specs.Option.{option_map};
ghost use Rattle.word_lsp.specs.Answers.{IsReply};
ghost use Rattle.word_lsp.specs.Messages.{AreAnswers, AreNotices, AreRefused, AreReplies, AreSet};
ghost use Rattle.word_lsp.specs.Messages.{AreToldIn, AreToldOf, AreToldOn, IsUnknown, asked_state};
ghost use Rattle.word_lsp.specs.Messages.{changed_by, documents_in, end_of, has_method, is_answer};
ghost use Rattle.word_lsp.specs.Messages.{noted_state, published, state_after};
ghost use Rattle.word_lsp.specs.State.{documents_view, server_view, start};
ghost use Rattle.lsp_messages.specs.Settings.{settings_view};
ghost use Rattle.lsp_messages.specs.TextChanges.{text_view};
ghost use Rattle.lsp_messages.specs.Views.{request_view};
ghost use Rattle.serde_json.specs.Find.{get};
ghost use Rattle.serde_json.specs.View.{items_view, view};

use crate::answers::{failed, reply};
use crate::documents::Documents;
use crate::marking::{marked, showing, told_of_all};
use crate::phase::Phase;
use crate::settings::{chosen_after, chosen_map, is_wrong, map_in, settings_asked, settings_noted};
use bus::MapSpec;
use json_messages::ValueList;
use lsp_messages::{
    Failure, Request, Settings, changed_text, mark, marks, notice, range, read_request,
};
use serde_json::Value;
use std::alloc::{AllocError, Global};

/// A server: how far its client has come, the map that it has chosen, if it has, and the documents
/// that are open.
#[derive(Drop)]
pub struct Server {
    pub phase: Phase,
    pub chosen: Option<MapSpec>,
    pub documents: Documents,
}

impl Server {
    /// Makes a server of which nothing was asked yet.
    pub fn new(alloc: Global) -> Server
        ensures { server_view result ≡ start }
    {
        Server {
            phase: Phase::Fresh,
            chosen: None,
            documents: Documents {
                all: Vec::new(alloc),
            },
        }
    }
}

/// Returns one answer, if memory did not run out for it.
fn one(alloc: Global, reply: Result<Value, AllocError>) -> Result<Vec<Value>, AllocError>
    ensures { MatchResult reply (λ v. IfOk result (λ vs. each view vs.items ≡ view v ∷ []))
        (λ e. IsErr result) }
{
    let Ok(reply) = reply else {
        return Err(AllocError);
    };
    let mut replies = Vec::new(alloc);
    replies.push(reply)?;
    Ok(replies)
}

/// Returns two values, if memory did not run out for the second.
fn two(
    alloc: Global,
    first: Value,
    second: Result<Value, AllocError>,
) -> Result<Vec<Value>, AllocError>
    ensures { MatchResult second
        (λ v. IfOk result (λ vs. each view vs.items ≡ view first ∷ view v ∷ []))
        (λ e. IsErr result) }
{
    let Ok(second) = second else {
        return Err(AllocError);
    };
    let mut values = Vec::new(alloc);
    values.push(first)?;
    values.push(second)?;
    Ok(values)
}

/// Returns the notice of some marks, if memory did not run out for them.
fn told_marks(alloc: Global, marks: Result<Value, AllocError>) -> Result<Vec<Value>, AllocError>
    ensures { MatchResult marks
        (λ v. IfOk result (λ vs. each view vs.items ≡ published (view v) ∷ []))
        (λ e. IsErr result) }
{
    match marks {
        Ok(marks) => one(
            alloc,
            notice(alloc, "textDocument/publishDiagnostics", marks),
        ),
        Err(error) => Err(error),
    }
}

/// What is said of a document whose text is not known.
const NOT_KNOWN: &str =
    "the text is not known here, since a change of it could not be made; close the \
    file and open it again";

/// Returns the marks of a document whose text is not known.
fn unknown_marks(alloc: Global, uri: &str) -> Result<Value, AllocError>
    ensures { IfOk result (λ v. IsUnknown uri.now (view v)) }
{
    let words = String::from_str(alloc, NOT_KNOWN);
    let one = mark(alloc, 1, "UnknownText", words, range(alloc, 0, 0, 0));
    marks(alloc, uri, ValueList::new(alloc).with(one).build())
}

/// Returns the marks of a document, by its text if that is known, as what is told. The only error
/// is that a request for memory was refused.
fn told_text(
    alloc: Global,
    map: &MapSpec,
    uri: &str,
    text: &Option<Vec<u8>>,
) -> Result<Vec<Value>, AllocError>
    ensures { IfOk result (λ vs. AreToldOf map.now uri.now (text_view text.now)
        (each view vs.items)) }
{
    match text {
        Some(text) => one(alloc, marked(alloc, map, uri, text)),
        None => told_marks(alloc, unknown_marks(alloc, uri)),
    }
}

/// Returns the text of a document after changes, if it is known then.
fn changed_by(
    alloc: Global,
    documents: &Documents,
    uri: &str,
    changes: Option<&[Value]>,
) -> Result<Option<Vec<u8>>, AllocError>
    ensures { IfOk result (λ text. text_view text ≡ changed_by (documents_view documents.now) uri.now
        (option_map (λ vs. items_view vs.now) changes.entry)) }
{
    match changes {
        Some(changes) => changed_text(alloc, documents.text_of(uri), changes),
        None => Ok(None),
    }
}

/// What is said where a setting is wrong.
const NOT_TAKEN: &str =
    "mos65.port is four hex digits, a multiple of 4 from 0200 to FFF4, or none, and mos65.profile \
    is N or C: the settings are not taken";

/// Returns what is told on a map that an editor has chosen: the marks of all documents, or that a
/// setting is wrong where there is no map. The only error is that a request for memory was refused.
fn told_on(
    alloc: Global,
    chosen: Option<MapSpec>,
    documents: &Documents,
) -> Result<Vec<Value>, AllocError>
    ensures { IfOk result (λ vs. AreToldOn chosen (documents_view documents.now)
        (each view vs.items)) }
{
    match chosen {
        None => one(alloc, showing(alloc, NOT_TAKEN)),
        Some(map) => told_of_all(alloc, &map, documents),
    }
}

/// Returns what is told after an editor has set something. The only error is that a request for
/// memory was refused.
fn told_set(
    alloc: Global,
    words: &MapSpec,
    documents: &Documents,
    settings: Option<Settings<'_>>,
) -> Result<Vec<Value>, AllocError>
    ensures { IfOk result (λ vs. AreSet words.now (documents_view documents.now)
        (option_map settings_view settings.entry) (each view vs.items)) }
{
    match settings {
        Some(settings) => told_on(alloc, chosen_map(words, &settings), documents),
        None => Ok(Vec::new(alloc)),
    }
}

/// Does what a notice asks for in a phase, and returns what is told then. The only error is that a
/// request for memory was refused.
fn note(
    alloc: Global,
    words: &MapSpec,
    map: &MapSpec,
    phase: Phase,
    documents: &mut Documents,
    request: Request<'_>,
) -> Result<Vec<Value>, AllocError>
    ensures documents { OnOk result (documents_view documents.new
        ≡ documents_in phase (documents_view documents.old) (request_view request.entry)) }
    ensures told { IfOk result
        (λ vs. AreToldIn words.now map.now phase (documents_view documents.old)
        (request_view request.entry) (each view vs.items)) }
{
    match phase {
        Phase::Running(_) => {}
        Phase::Fresh | Phase::ShutDown => return Ok(Vec::new(alloc)),
    }
    match request {
        Request::Open { uri, text } => {
            let text = Some(Vec::from_slice(alloc, text.as_bytes())?);
            let told = told_text(alloc, map, uri, &text)?;
            documents.put(alloc, uri, text)?;
            Ok(told)
        }
        Request::Change { uri, changes } => {
            let text = changed_by(alloc, documents, uri, changes)?;
            let told = told_text(alloc, map, uri, &text)?;
            documents.put(alloc, uri, text)?;
            Ok(told)
        }
        Request::Close { uri } => {
            documents.close(uri);
            told_marks(alloc, marks(alloc, uri, ValueList::new(alloc).build()))
        }
        Request::Configure { settings } => told_set(alloc, words, documents, settings),
        _ => Ok(Vec::new(alloc)),
    }
}

/// Returns the answer to what is no request, no notice and no answer.
pub fn refused(alloc: Global, failure: Failure) -> Result<Vec<Value>, AllocError>
    ensures { IfOk result (λ vs. AreRefused failure (each view vs.items)) }
{
    one(alloc, failed(alloc, &Value::Null, failure))
}

/// Returns whether a message has something of a name.
fn has(message: &Value, name: &str) -> bool
    ensures { result ≡ is_some (get name.now (view message.now)) }
{
    match message.get(name) {
        Some(_) => true,
        None => false,
    }
}

/// Returns whether a message is an answer, which is not answered.
fn is_answer(message: &Value) -> bool
    ensures { result ≡ is_answer (view message.now) }
{
    !has(message, "method") && (has(message, "result") || has(message, "error"))
}

/// Returns the answer to a request, on the map in use. The only error is that a request for memory
/// was refused.
fn answer_on(
    alloc: Global,
    words: &MapSpec,
    server: &Server,
    id: &Value,
    request: Request<'_>,
) -> Result<Value, AllocError>
    ensures { IfOk result (λ v. IsReply words.now (server_view server.now) (view id.now)
        (request_view request.entry) (view v)) }
{
    let map = map_in(words, server.chosen);
    reply(alloc, &map, server.phase, &server.documents, id, request)
}

/// Returns one answer to a request, and behind it that a setting of a client's start is wrong;
/// nothing for an answer. The only error is that a request for memory was refused.
fn replies(
    alloc: Global,
    words: &MapSpec,
    server: &Server,
    message: &Value,
    id: &Value,
    request: Request<'_>,
) -> Result<Vec<Value>, AllocError>
    ensures { IfOk result (λ vs. AreReplies (is_answer (view message.now)) words.now
        (server_view server.now) (view id.now) (request_view request.entry)
        (each view vs.items)) }
{
    if is_answer(message) {
        return Ok(Vec::new(alloc));
    }
    let given = answer_on(alloc, words, server, id, request);
    let settings = settings_asked(server.phase, request);
    if is_wrong(words, settings) {
        let given = given?;
        two(alloc, given, showing(alloc, NOT_TAKEN))
    } else {
        one(alloc, given)
    }
}

/// Does what a request asks for, and returns what is to be told then. The only error is that a
/// request for memory was refused.
fn answers_to(
    alloc: Global,
    words: &MapSpec,
    server: &mut Server,
    message: &Value,
    id: &Value,
    request: Request<'_>,
) -> Result<Vec<Value>, AllocError>
    ensures state { OnOk result (server_view server.new
        ≡ asked_state words.now (server_view server.old) (request_view request.entry)) }
    ensures told { IfOk result (λ vs. AreReplies (is_answer (view message.now)) words.now
        (server_view server.old) (view id.now) (request_view request.entry)
        (each view vs.items)) }
{
    let told = replies(alloc, words, server, message, id, request)?;
    let settings = settings_asked(server.phase, request);
    server.chosen = chosen_after(words, server.chosen, settings);
    server.phase = server.phase.after(request);
    Ok(told)
}

/// Does what a notice asks for, and returns what is to be told then. What is no notice is refused.
/// The only error is that a request for memory was refused.
fn noted(
    alloc: Global,
    words: &MapSpec,
    server: &mut Server,
    message: &Value,
    request: Request<'_>,
) -> Result<Vec<Value>, AllocError>
    ensures state { OnOk result (server_view server.new
        ≡ noted_state words.now (server_view server.old) (request_view request.entry)) }
    ensures told { IfOk result (λ vs. AreNotices (has_method (view message.now)) words.now
        (server_view server.old) (request_view request.entry) (each view vs.items)) }
{
    let map = map_in(words, server.chosen);
    let settings = settings_noted(server.phase, request);
    server.chosen = chosen_after(words, server.chosen, settings);
    let told = note(
        alloc,
        words,
        &map,
        server.phase,
        &mut server.documents,
        request,
    )?;
    if has(message, "method") {
        Ok(told)
    } else {
        refused(alloc, Failure::NoRequest)
    }
}

/// Does what a message asks for, and returns what is to be told then: one answer to a request, the
/// marks of a document after its text was told, and those of all after settings. `words` is the map
/// that the words of the command line ask for. The only error is that a request for memory was
/// refused.
pub fn serve(
    alloc: Global,
    words: &MapSpec,
    server: &mut Server,
    message: &Value,
) -> Result<Vec<Value>, AllocError>
    ensures state { OnOk result (server_view server.new
        ≡ state_after words.now (server_view server.old) (view message.now)) }
    ensures answers { IfOk result (λ vs. AreAnswers words.now (server_view server.old)
        (view message.now) (each view vs.items)) }
{
    let request = read_request(message);
    match message.get("id") {
        Some(id) => answers_to(alloc, words, server, message, id, request),
        None => noted(alloc, words, server, message, request),
    }
}

/// Returns the exit status that a message asks for, if it asks for the end: 0 after `shutdown`, and
/// 1 without.
pub fn asks_for_end(server: &Server, message: &Value) -> Option<u8>
    ensures { result ≡ end_of (server_view server.now) (view message.now) }
{
    match read_request(message) {
        Request::Exit => match server.phase {
            Phase::ShutDown => Some(0),
            Phase::Fresh | Phase::Running(_) => Some(1),
        },
        _ => None,
    }
}
