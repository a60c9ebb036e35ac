//! Runs that go on while no message of the client waits.

ghost use Rattle.std.specs.Prelude.{◌≡◌, [], ℕ, false, IfErr, IfOk, List, OnErr, drop};
ghost use Rattle.std.specs.Prelude.{map as each, option_map, true};
ghost use Rattle.std.specs.Io.KnownBytes.{Appends};
ghost use Rattle.word_dap.specs.Sent.{AreBegun};
ghost use Rattle.word_dap.specs.Slices.{GoesOn, IsRunCut, MayRunOn, RunsOn, but_last};
ghost use Rattle.word_dap.specs.Slices.{continuing, is_open};
ghost use Rattle.dap_messages.specs.Messages.{Said, said_of};
ghost use Rattle.word_dap.specs.Adapter.{Serves};
ghost use Rattle.json_messages.specs.Taken.{IsUnwritten};
ghost use Rattle.serde_json.specs.View.{view};

use crate::adapter::{Adapter, serve};
use crate::sending::send;
use dap_messages::{Message, Move, Request, SessionRequest};
use dap_session::{Client, goes_on};
use json_messages::{Incoming, StreamFault};
use serde_json::Value;
use std::alloc::AllocError;
use std::fs;
use std::io::Write;
use std::rt::Files;

/// Returns whether a run goes on: a request has let the machine run, and nothing has stopped it so
/// far.
fn is_open(is_run: bool, client: &Option<Client>) -> bool
    ensures { result ≡ is_open is_run client.now }
{
    match client {
        Some(client) => goes_on(is_run, client),
        None => false,
    }
}

/// Returns whether bytes of the client wait, or may wait: some are held, the file that they are
/// copied to has more than were read, or it cannot be looked at.
fn waits<H: Files>(rt: &H, seen: Option<&str>, incoming: &Incoming) -> bool
    ensures held { result ≡ false → incoming.now.bytes ≡ [] }
    ensures named { (again : ℕ) → result ≡ false
        → MayRunOn (option_map (λ s. s.now) seen.entry) again }
{
    match seen {
        Some(file) => match fs::metadata(rt, file) {
            Ok(metadata) => incoming.waits(metadata.len()),
            Err(_) => true,
        },
        None => true,
    }
}

/// Lets the machine run as `continue` does, and returns what is said but for the answer.
fn run_again<H: Files + AllocGlobal>(
    rt: &H,
    adapter: &mut Adapter,
) -> Result<Vec<Message>, AllocError>
    ensures { IfOk result (λ ms. (all : List Said) × Serves continuing adapter.old adapter.new all
        × (each said_of ms.items ≡ drop 1 all)) }
{
    let asked = Request::InSession(SessionRequest::Moves(Move::Go));
    let mut messages = serve(rt, adapter, asked)?;
    if !messages.is_empty() {
        drop(messages.remove(0));
    }
    Ok(messages)
}

/// Lets a run go on that nothing has stopped: sends what is said of it so far, after so many
/// messages that were sent, and makes the next slice. Returns how many are sent then.
///
/// Errors: `Write` if the output fails; `OutOfMemory` if an allocation fails.
#[tactic(auto, unfolding(crate::specs::Slices::GoesOn))]
fn go_on<H: Files + AllocGlobal, O: Write>(
    rt: &H,
    adapter: &mut Adapter,
    is_run: bool,
    request: &Value,
    messages: &mut Vec<Message>,
    sent: u64,
    output: &mut O,
) -> Result<u64, StreamFault>
    requires { is_open is_run adapter.old.client ≡ true }
    ensures went { IfOk result (λ total. (written : List ℕ)
        × GoesOn is_run (view request.now) (each said_of messages.old.items) adapter.old sent
        (each said_of messages.new.items) adapter.new total written
        × Appends (O.contents output.old) (O.contents output.new) written) }
    ensures begun { OnErr result ((written : List ℕ)
        × AreBegun sent (view request.now) (but_last (each said_of messages.old.items)) written
        × Appends (O.contents output.old) (O.contents output.new) written) }
    ensures fault { IfErr result IsUnwritten }
{
    drop(messages.pop());
    match send(rt.alloc(), sent, request, messages, output) {
        Ok(total) => match run_again(rt, adapter) {
            Ok(more) => {
                *messages = more;
                Ok(total)
            }
            Err(_) => Err(StreamFault::OutOfMemory),
        },
        Err(fault) => Err(fault),
    }
}

/// Lets a run go on as long as nothing stops it and nothing waits. `is_run` is whether the request
/// has let the machine run. `messages` are what is to be said of it, before and after. Returns how
/// many messages are sent then.
///
/// Errors: those of `go_on`.
pub fn run_on<H: Files + AllocGlobal, O: Write>(
    rt: &H,
    seen: Option<&str>,
    incoming: &Incoming,
    adapter: &mut Adapter,
    is_run: bool,
    request: &Value,
    messages: &mut Vec<Message>,
    sent: u64,
    output: &mut O,
) -> Result<u64, StreamFault>
    ensures ran { IfOk result (λ total. (again : ℕ)
        × MayRunOn (option_map (λ s. s.now) seen.entry) again × (written : List ℕ)
        × RunsOn again is_run (view request.now) (each said_of messages.old.items) adapter.old sent
        (each said_of messages.new.items) adapter.new total written
        × Appends (O.contents output.old) (O.contents output.new) written) }
    ensures cut { OnErr result ((written : List ℕ)
        × IsRunCut (option_map (λ s. s.now) seen.entry) is_run (view request.now)
        (each said_of messages.old.items) adapter.old sent written
        × Appends (O.contents output.old) (O.contents output.new) written) }
    ensures fault { IfErr result IsUnwritten }
{
    let mut total = sent;
    for _ in 0..u64::MAX {
        if !is_open(is_run, &adapter.client) {
            return Ok(total);
        }
        if waits(rt, seen, incoming) {
            return Ok(total);
        }
        match go_on(rt, adapter, is_run, request, messages, total, output) {
            Ok(more) => total = more,
            Err(fault) => return Err(fault),
        }
    }
    Ok(total)
}
