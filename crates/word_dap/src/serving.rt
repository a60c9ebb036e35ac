//! Messages taken from the input, one after another, and answered.

ghost use Rattle.std.specs.Prelude.{◌≡◌, ◌≢◌, ◌≤◌, ◌⊎◌, ℕ, IfErr, IfOk, List, OnErr, OnOk};
ghost use Rattle.std.specs.Prelude.{map as each, option_map};
ghost use Rattle.std.specs.Io.KnownBytes.{Appends};
ghost use Rattle.arguments.specs.Words.{AsksForHelp, Fits, Refuses, texts};
ghost use Rattle.word_dap.specs.Attended.{Attends, CutsOff, Turns, cut_status};
ghost use Rattle.word_dap.specs.CommandLine.{dap_app, seen_in};
ghost use Rattle.word_dap.specs.Served.{Answers, IsNotJson, ServesBody, ServesMessage};
ghost use Rattle.word_dap.specs.Served.{asks_end, asks_run};
ghost use Rattle.word_dap.specs.Slices.{IsRun, IsRunCut};
ghost use Rattle.dap_messages.specs.Messages.{said_of};
ghost use Rattle.json_messages.specs.Sessions.{BeginsTurn, IsCutShort, IsEndedBy};
ghost use Rattle.json_messages.specs.Taken.{IsUnwritten};
ghost use Rattle.serde_json.specs.View.{view};

use crate::adapter::{Adapter, serve};
use crate::sending::send;
use crate::slices::run_on;
use crate::words::read_words;
use arguments::{Refusal, put_all, refuse, refused_words};
use dap_messages::{Message, Request, request_of};
use dap_session::lets_run;
use json_messages::{Incoming, StreamFault, value_of};
use serde_json::Value;
use std::alloc::{AllocError, Global};
use std::io::{Read, Write};
use std::rt::Files;

/// What is said of a body that is no JSON.
pub const NOT_JSON: &str = "this is no JSON";

/// A message that was served: its value, what is answered, whether it lets the machine run, and
/// whether it asks for the end.
#[derive(Drop)]
struct Served {
    request: Value,
    messages: Vec<Message>,
    is_run: bool,
    is_end: bool,
}

/// Returns the refusal of a body that is no JSON.
fn refusal(alloc: Global) -> Result<Served, AllocError>
    ensures { IfOk result
        (λ s. IsNotJson (view s.request) (each said_of s.messages.items) s.is_run s.is_end) }
{
    let words = String::from_str(alloc, NOT_JSON)?;
    let mut messages = Vec::new(alloc);
    messages.push(Message::Refused(words))?;
    Ok(Served {
        request: Value::Null,
        messages,
        is_run: false,
        is_end: false,
    })
}

/// Returns whether a request lets the machine run.
fn asks_run(asked: &Request<'_>) -> bool
    ensures { result ≡ asks_run asked.now }
{
    match asked {
        Request::InSession(asked) => lets_run(asked),
        _ => false,
    }
}

/// Returns whether a request asks for the end.
fn asks_end(asked: &Request<'_>) -> bool
    ensures { result ≡ asks_end asked.now }
{
    matches!(asked, Request::Disconnect)
}

/// Returns what is answered to a message. The only error is that a request for memory was refused.
fn obeyed<H: Files + AllocGlobal>(
    rt: &H,
    adapter: &mut Adapter,
    request: Value,
) -> Result<Served, AllocError>
    ensures { IfOk result (λ s. ServesMessage (view request) adapter.old adapter.new
        (view s.request) (each said_of s.messages.items) s.is_run s.is_end) }
{
    let asked = request_of(rt.alloc(), &request)?;
    let is_run = asks_run(&asked);
    let is_end = asks_end(&asked);
    let messages = serve(rt, adapter, asked)?;
    Ok(Served {
        request,
        messages,
        is_run,
        is_end,
    })
}

/// Returns what is answered to the body of a message. The only error is that a request for memory
/// was refused.
fn serve_body<H: Files + AllocGlobal>(
    rt: &H,
    adapter: &mut Adapter,
    body: &[u8],
) -> Result<Served, AllocError>
    ensures { IfOk result (λ s. ServesBody body.now adapter.old adapter.new (view s.request)
        (each said_of s.messages.items) s.is_run s.is_end) }
{
    match value_of(rt.alloc(), body)? {
        Some(request) => obeyed(rt, adapter, request),
        None => refusal(rt.alloc()),
    }
}

/// Writes what is answered to a message, after so many messages that were sent. A run that nothing
/// has stopped goes on as long as nothing of the client waits. Returns how many are sent then, and
/// whether the message asks for the end.
///
/// Errors: those of `run_on` and `send`.
fn send_served<H: Files + AllocGlobal, O: Write>(
    rt: &H,
    seen: Option<&str>,
    incoming: &Incoming,
    adapter: &mut Adapter,
    served: Served,
    sent: u64,
    output: &mut O,
) -> Result<(u64, bool), StreamFault>
    ensures sent { IfOk result (λ p. (p.1 ≡ served.is_end) × (written : List ℕ)
        × IsRun (option_map (λ s. s.now) seen.entry) served.is_run (view served.request)
        (each said_of served.messages.items) adapter.old sent adapter.new p.0 written
        × Appends (O.contents output.old) (O.contents output.new) written) }
    ensures cut { OnErr result ((written : List ℕ)
        × IsRunCut (option_map (λ s. s.now) seen.entry) served.is_run (view served.request)
        (each said_of served.messages.items) adapter.old sent written
        × Appends (O.contents output.old) (O.contents output.new) written) }
    ensures fault { IfErr result IsUnwritten }
{
    let Served {
        request,
        messages,
        is_run,
        is_end,
    } = served;
    let mut waiting = messages;
    let ran = run_on(
        rt,
        seen,
        incoming,
        adapter,
        is_run,
        &request,
        &mut waiting,
        sent,
        output,
    );
    match ran {
        Ok(so_far) => match send(rt.alloc(), so_far, &request, &waiting, output) {
            Ok(total) => Ok((total, is_end)),
            Err(fault) => Err(fault),
        },
        Err(fault) => Err(fault),
    }
}

/// Serves the body of a message and writes what is answered, after so many messages that were sent.
/// A run that nothing has stopped goes on as long as nothing of the client waits. Returns how many
/// are sent then, and whether the message asks for the end.
///
/// Errors: `Write` if the output fails; `OutOfMemory` if an allocation fails.
fn answer<H: Files + AllocGlobal, O: Write>(
    rt: &H,
    seen: Option<&str>,
    incoming: &Incoming,
    adapter: &mut Adapter,
    body: &[u8],
    sent: u64,
    output: &mut O,
) -> Result<(u64, bool), StreamFault>
    ensures answered { IfOk result (λ p. (written : List ℕ)
        × Answers (option_map (λ s. s.now) seen.entry) body.now adapter.old sent adapter.new p.0
        p.1 written
        × Appends (O.contents output.old) (O.contents output.new) written) }
    ensures begun { OnErr result ((written : List ℕ)
        × BeginsTurn (Turns (option_map (λ s. s.now) seen.entry)) body.now (adapter.old, sent)
        written
        × Appends (O.contents output.old) (O.contents output.new) written) }
    ensures fault { IfErr result IsUnwritten }
{
    match serve_body(rt, adapter, body) {
        Ok(served) => send_served(rt, seen, incoming, adapter, served, sent, output),
        Err(_) => Err(StreamFault::OutOfMemory),
    }
}

/// Serves messages up to `disconnect`: each is answered, and the answer flushed, before the next is
/// read.
///
/// Errors: those of `Incoming::next` and `answer`; `Cut` if the input has ended.
fn take_turns<H: Files + AllocGlobal, R: Read, O: Write>(
    rt: &H,
    seen: Option<&str>,
    adapter: &mut Adapter,
    input: &mut R,
    output: &mut O,
) -> Result<(), StreamFault>
    ensures ended { OnOk result ((written : List ℕ)
        × IsEndedBy (Turns (option_map (λ s. s.now) seen.entry)) (R.remaining input.old)
        (R.remaining input.new) (adapter.old, 0) 0 written
        × Appends (O.contents output.old) (O.contents output.new) written) }
    ensures cut { IfErr result (λ fault. (written : List ℕ)
        × IsCutShort (Turns (option_map (λ s. s.now) seen.entry)) (R.remaining input.old)
        (R.remaining input.new) (adapter.old, 0) fault written
        × Appends (O.contents output.old) (O.contents output.new) written) }
{
    let mut incoming = Incoming::new(rt.alloc());
    let mut sent = 0;
    for _ in 0..u64::MAX {
        match incoming.next(rt.alloc(), input) {
            Ok(Some(body)) => match answer(rt, seen, &incoming, adapter, &body, sent, output) {
                Ok((total, is_end)) => {
                    if is_end {
                        return Ok(());
                    }
                    sent = total;
                }
                Err(fault) => return Err(fault),
            },
            Ok(None) => return Err(StreamFault::Cut),
            Err(fault) => return Err(fault),
        }
    }
    Err(StreamFault::Read)
}

/// Tells what of the streams cuts a session short, and returns the exit status.
fn cut_by<E: Write>(reason: &str, errors: &mut E) -> u8
    ensures { result ≡ 4 }
{
    put_all(&[b"mos65: ", reason.as_bytes(), b"\n"], errors);
    4
}

/// Tells why a session ends before its end is asked for, and returns the exit status.
fn cut_off<E: Write>(fault: StreamFault, errors: &mut E) -> u8
    ensures status { result ≡ cut_status fault }
    ensures least { 3 ≤ result }
    ensures most { result ≤ 4 }
{
    match fault {
        StreamFault::NoLength => cut_by(
            "a header of the input gives no length of a message",
            errors,
        ),
        StreamFault::LongHeader => cut_by("a header of the input has more than 4096 bytes", errors),
        StreamFault::Cut => cut_by("the input ends before disconnect", errors),
        StreamFault::Read => cut_by("the input cannot be read", errors),
        StreamFault::Write => cut_by("the output cannot be written", errors),
        StreamFault::OutOfMemory => refuse(Refusal::OutOfMemory, errors),
    }
}

/// Serves a session: messages up to `disconnect`. Returns the exit status.
fn done<H: Files + AllocGlobal, R: Read, O: Write, E: Write>(
    rt: &H,
    seen: Option<&str>,
    input: &mut R,
    output: &mut O,
    errors: &mut E,
) -> u8
    ensures status { result ≤ 4 }
    ensures read { result ≢ 2 }
    ensures quiet { result ≡ 0 → errors.new ≡ errors.old }
    ensures attended { result ≡ 0 → Attends (option_map (λ s. s.now) seen.entry)
        (R.remaining input.old) (R.remaining input.new) (O.contents output.old)
        (O.contents output.new) }
    ensures cut { 1 ≤ result → CutsOff (option_map (λ s. s.now) seen.entry) result
        (R.remaining input.old) (R.remaining input.new) (O.contents output.old)
        (O.contents output.new) }
{
    let mut adapter = Adapter {
        counting: None,
        client: None,
    };
    let attended = take_turns(rt, seen, &mut adapter, input, output);
    drop(adapter);
    match attended {
        Ok(()) => 0,
        Err(fault) => cut_off(fault, errors),
    }
}

/// Does what the words of `dap` ask for, its own name left out, and returns the exit status: serves
/// the messages of `input`, and writes what is answered on `output`.
///
/// The status is 0 after `disconnect` or after the help that was asked for, 2 if the words are
/// wrong, 3 if memory ran out, and 4 if the input ends or has a header that gives no length, or a
/// stream fails; a line on `errors` says why.
pub fn dap<H: Files + AllocGlobal, R: Read, O: Write, E: Write>(
    rt: &H,
    words: &[&str],
    input: &mut R,
    output: &mut O,
    errors: &mut E,
) -> u8
    ensures status { result ≤ 4 }
    // After `disconnect` nothing is written on the error stream.
    ensures quiet { result ≡ 0 → errors.new ≡ errors.old }
    // 0 means that help was asked for, or that the words fit, each message was served in its order,
    // up to the first `disconnect`, and the answers were written.
    ensures attended { result ≡ 0 → AsksForHelp dap_app (texts words.entry.now)
        ⊎ (Fits dap_app (texts words.entry.now) × Attends (seen_in (texts words.entry.now))
        (R.remaining input.old) (R.remaining input.new) (O.contents output.old)
        (O.contents output.new)) }
    // Where the words fit, another status means that a fault came before `disconnect`: all messages
    // before it were served in their order and answered, and of the answer to the last that was
    // taken a beginning was written.
    ensures cut { Fits dap_app (texts words.entry.now) → 1 ≤ result
        → CutsOff (seen_in (texts words.entry.now)) result (R.remaining input.old)
        (R.remaining input.new) (O.contents output.old) (O.contents output.new) }
    // Other words read nothing, and write nothing on the output but help.
    ensures refused { Refuses dap_app (texts words.entry.now) ⊥ result (input.new ≡ input.old)
        (output.new ≡ output.old) }
    // If the words are wrong, nothing is read and nothing is answered.
    ensures unread { result ≡ 2 → input.new ≡ input.old }
    ensures untouched { result ≡ 2 → output.new ≡ output.old }
{
    match read_words(rt.alloc(), words) {
        Ok(seen) => done(rt, seen, input, output, errors),
        Err(fault) => refused_words(fault, output, errors),
    }
}
