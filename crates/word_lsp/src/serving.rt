//! Messages taken from the input, one after another, and answered.

ghost use Rattle.std.specs.Prelude.{◌≡◌, ◌≢◌, ◌≤◌, ◌⊎◌, [], ℕ, Err, IfOk, List, MatchResult};
ghost use Rattle.std.specs.Prelude.{None, Some};
ghost use Rattle.std.specs.Prelude.{map as each};
ghost use Rattle.std.specs.Io.KnownBytes.{Appends};
ghost use Rattle.arguments.specs.Words.{AsksForHelp, Fits, Misfits, Refuses, texts};
ghost use Rattle.word_lsp.specs.CommandLine.{Asks, HasNoMap, LspAsked, lsp_app, lsp_asked, lsp_view};
ghost use Rattle.word_lsp.specs.Sessions.{Answers, IsCut, IsServed, IsSession, map_for, status_of};
ghost use Rattle.word_lsp.specs.State.{server_view, start};
ghost use Rattle.word_lsp.specs.Writing.{AreWritten};
ghost use Rattle.json_messages.specs.Sessions.{BeginsTurn};
ghost use Rattle.json_messages.specs.Taken.{IsUnwritten};
ghost use Rattle.json_messages.specs.declared.fault.StreamFault.TheVariants.{OutOfMemory};
ghost use Rattle.model.specs.Writers.{AppendsFront};
ghost use Rattle.serde_json.specs.View.{view};

use crate::phase::Phase;
use crate::server::{Server, asks_for_end, refused, serve};
use crate::words::{LspWords, read_words};
use arguments::{Refusal, map_of, put_all, refuse, refused_words};
use bus::MapSpec;
use json_messages::{Incoming, StreamFault, value_of, write_value};
use lsp_messages::Failure;
use serde_json::Value;
use std::alloc::{AllocError, Global};
use std::io::{Read, Write};

/// Writes what is told after a message as messages, if memory did not run out for it, and flushes
/// the output behind each. Returns no exit status: the session goes on.
///
/// Errors: `Write` if the output fails; `OutOfMemory` if an allocation fails, before or here. A
/// beginning of the messages was written then.
fn write_values<O: Write>(
    alloc: Global,
    values: Result<Vec<Value>, AllocError>,
    output: &mut O,
) -> Result<Option<u8>, StreamFault>
    ensures { MatchResult values
        (λ vs. MatchResult result (λ end. (end ≡ None) × (written : List ℕ)
        × AreWritten (each view vs.items) written
        × Appends (O.contents output.old) (O.contents output.new) written)
        (λ fault. IsUnwritten fault × (written : List ℕ)
        × AreWritten (each view vs.items) written
        × AppendsFront (O.contents output.old) (O.contents output.new) written))
        (λ e. (result ≡ Err OutOfMemory) × (output.new ≡ output.old)) }
{
    let Ok(values) = values else {
        return Err(StreamFault::OutOfMemory);
    };
    for value in &values {
        match write_value(alloc, output, value) {
            Ok(()) => {}
            Err(fault) => return Err(fault),
        }
    }
    Ok(None)
}

/// Does what the body of a message asks for, and writes what is told then. Returns the exit status
/// if the message asks for the end.
///
/// Errors: `Write` if the output fails; `OutOfMemory` if an allocation fails. A beginning of what
/// is told was written then.
fn answer<O: Write>(
    alloc: Global,
    map: &MapSpec,
    server: &mut Server,
    body: Vec<u8>,
    output: &mut O,
) -> Result<Option<u8>, StreamFault>
    ensures { MatchResult result (λ end. (written : List ℕ)
        × Answers map.now body.items (server_view server.old) (server_view server.new) end written
        × Appends (O.contents output.old) (O.contents output.new) written)
        (λ fault. IsUnwritten fault × (written : List ℕ)
        × BeginsTurn (Answers map.now) body.items (server_view server.old) written
        × Appends (O.contents output.old) (O.contents output.new) written) }
{
    let message = value_of(alloc, &body);
    drop(body);
    match message {
        Ok(Some(message)) => match asks_for_end(server, &message) {
            Some(status) => Ok(Some(status)),
            None => write_values(alloc, serve(alloc, map, server, &message), output),
        },
        Ok(None) => write_values(alloc, refused(alloc, Failure::NotJson), output),
        Err(_) => Err(StreamFault::OutOfMemory),
    }
}

/// Serves messages up to one that asks for the end, and returns the exit status: each is answered,
/// and the answer flushed, before the next is read. Without such a message the end of the input is
/// an end with 0 after `shutdown`, and cut off otherwise.
///
/// Errors: those of `Incoming::next`; `Cut` if the input ends before `shutdown`; `Write` if the
/// output fails; `OutOfMemory` if an allocation fails.
fn attend<R: Read, O: Write>(
    alloc: Global,
    map: &MapSpec,
    incoming: &mut Incoming,
    server: &mut Server,
    input: &mut R,
    output: &mut O,
) -> Result<u8, StreamFault>
    requires empty { incoming.old.bytes ≡ [] }
    requires fresh { server_view server.old ≡ start }
    ensures session { MatchResult result
        (λ status. IsSession map.now (R.remaining input.old) (R.remaining input.new) status
        (O.contents output.old) (O.contents output.new))
        (λ fault. IsCut map.now (R.remaining input.old) (R.remaining input.new) fault
        (O.contents output.old) (O.contents output.new)) }
    ensures small { IfOk result (λ status. status ≤ 1) }
{
    for _ in 0..u64::MAX {
        match incoming.next(alloc, input) {
            Ok(Some(body)) => match answer(alloc, map, server, body, output) {
                Ok(None) => {}
                Ok(Some(status)) => return Ok(status),
                Err(fault) => return Err(fault),
            },
            Ok(None) => match server.phase {
                Phase::ShutDown => return Ok(0),
                Phase::Fresh | Phase::Running(_) => return Err(StreamFault::Cut),
            },
            Err(fault) => return Err(fault),
        }
    }
    Err(StreamFault::Read)
}

/// Tells what of the streams cuts a session short, and returns the exit status.
fn cut_by<E: Write>(reason: &str, errors: &mut E) -> u8
    ensures { result ≡ 4 }
{
    put_all(&[b"mos65: ", reason.as_bytes(), b"\n"], errors);
    4
}

/// Tells why a session ends before its end is asked for, and returns the exit status.
fn cut_off<E: Write>(fault: StreamFault, errors: &mut E) -> u8
    ensures { result ≡ status_of fault }
{
    match fault {
        StreamFault::NoLength => cut_by(
            "a header of the input gives no length of a message",
            errors,
        ),
        StreamFault::LongHeader => cut_by("a header of the input has more than 4096 bytes", errors),
        StreamFault::Cut => cut_by("the input ends before exit", errors),
        StreamFault::Read => cut_by("the input cannot be read", errors),
        StreamFault::Write => cut_by("the output cannot be written", errors),
        StreamFault::OutOfMemory => refuse(Refusal::OutOfMemory, errors),
    }
}

/// Serves a session on the map of the words, and returns the exit status.
fn serve_words<R: Read, O: Write, E: Write>(
    alloc: Global,
    words: &LspWords,
    input: &mut R,
    output: &mut O,
    errors: &mut E,
) -> u8
    ensures session { result ≢ 2 → IsServed (map_for (lsp_view words.now))
        (R.remaining input.old) (R.remaining input.new) result (O.contents output.old)
        (O.contents output.new) }
    ensures wrong { result ≡ 2 → HasNoMap (lsp_view words.now) }
    ensures status { result ≤ 4 }
    ensures quiet { result ≤ 1 → errors.new ≡ errors.old }
    ensures unread { result ≡ 2 → input.new ≡ input.old }
    ensures untouched { result ≡ 2 → output.new ≡ output.old }
{
    let map = match map_of(words.profile, None, words.port) {
        Ok(map) => map,
        Err(fault) => return refuse(Refusal::from(fault), errors),
    };
    let mut incoming = Incoming::new(alloc);
    let mut server = Server::new(alloc);
    match attend(alloc, &map, &mut incoming, &mut server, input, output) {
        Ok(status) => status,
        Err(fault) => cut_off(fault, errors),
    }
}

/// Does what the words of `lsp` ask for, its own name left out, and returns the exit status: serves
/// the messages of `input`, and writes what is answered on `output`.
///
/// The status is 0 after `shutdown` and `exit`, 1 after `exit` alone, 2 if the words or the map are
/// wrong, 3 if memory ran out, and 4 if the input ends or has a header that gives no length, or a
/// stream fails; a line on `errors` says why.
pub fn lsp<H: AllocGlobal, R: Read, O: Write, E: Write>(
    rt: &H,
    words: &[&str],
    input: &mut R,
    output: &mut O,
    errors: &mut E,
) -> u8
    // Words that fit the command line, with right values, and a map: all messages that were read
    // are answered in their order, and nothing else is written; up to the end, or up to a fault,
    // before which a beginning of the next answer was written. The status says which.
    ensures session { (a : LspAsked) → lsp_asked (texts words.entry.now) ≡ Some a
        → Fits lsp_app (texts words.entry.now) → result ≢ 2 → IsServed (map_for a)
        (R.remaining input.old) (R.remaining input.new) result (O.contents output.old)
        (O.contents output.new) }
    // 0 means that a session came to its end so, or that help was asked for; 1, that a session
    // came to its end so.
    ensures right { result ≡ 0 → AsksForHelp lsp_app (texts words.entry.now)
        ⊎ Asks (texts words.entry.now) (λ a. IsSession (map_for a) (R.remaining input.old)
        (R.remaining input.new) 0 (O.contents output.old) (O.contents output.new)) }
    ensures early { result ≡ 1 → Asks (texts words.entry.now) (λ a. IsSession (map_for a)
        (R.remaining input.old) (R.remaining input.new) 1 (O.contents output.old)
        (O.contents output.new)) }
    // 2 means that the words do not fit, that a value is wrong, or that the port makes no map.
    ensures wrong { result ≡ 2 → Misfits lsp_app (texts words.entry.now)
        ⊎ ((Fits lsp_app (texts words.entry.now)
        × (lsp_asked (texts words.entry.now) ≡ None))
        ⊎ Asks (texts words.entry.now) HasNoMap) }
    // 4 means that the streams or what they hold cut a session short, or that help was asked for.
    ensures cut { result ≡ 4 → AsksForHelp lsp_app (texts words.entry.now)
        ⊎ Asks (texts words.entry.now) (λ a. IsServed (map_for a) (R.remaining input.old)
        (R.remaining input.new) 4 (O.contents output.old) (O.contents output.new)) }
    // Other words read nothing, and write nothing on the output but help.
    ensures refused { Refuses lsp_app (texts words.entry.now)
        (lsp_asked (texts words.entry.now) ≡ None) result (input.new ≡ input.old)
        (output.new ≡ output.old) }
    ensures status { result ≤ 4 }
    // If a session came to its end, nothing is written on the error stream.
    ensures quiet { result ≤ 1 → errors.new ≡ errors.old }
    // If the words or the map are wrong, nothing is read and nothing is answered.
    ensures unread { result ≡ 2 → input.new ≡ input.old }
    ensures untouched { result ≡ 2 → output.new ≡ output.old }
{
    match read_words(rt.alloc(), words) {
        Ok(words) => serve_words(rt.alloc(), &words, input, output, errors),
        Err(fault) => refused_words(fault, output, errors),
    }
}
