//! What a client is told besides the answer to a request.

ghost use Rattle.std.specs.Prelude.{◌≡◌, ◌++◌, ◌∷◌, ◌≤◌, [], ℕ, IfOk, OnOk};
ghost use Rattle.std.specs.Prelude.{List, drop, length, map as each, string_bytes};
ghost use Rattle.dap_messages.specs.SeenAnswers.{SeenAnswer, answer_view};
ghost use Rattle.dap_messages.specs.Events.{event_view};
ghost use Rattle.dap_messages.specs.Messages.{Said, done, event, said_of};
ghost use Rattle.dap_session.specs.Told.{characters, console_said, halt_shown, output_said};
ghost use Rattle.dap_session.specs.Told.{remark_said, stopped_said, told_of, unmoved_said};

use crate::wording::{LESS_BEFORE, LESS_BEHIND};
use dap_messages::{Answer, Category, ClientEvent, Counting, Halt, Message, Reason, Told};
use dap_views::as_text;
use mon_runs::Session;
use mon_session::{MonState, push_fault};
use source_map::Places;
use std::alloc::{AllocError, Global};

/// Returns what the program put out since it had put out so many bytes. A byte is the character of
/// its number.
fn output_since(alloc: Global, session: &Session, from: u32) -> Result<String, AllocError>
    requires { from ≤ length session.now.current.bus.out }
    ensures { IfOk result (λ text. string_bytes text
        ≡ characters (drop from session.now.current.bus.out)) }
{
    let mut text = String::new(alloc);
    for index in from..session.output_len() {
        text.push(session.output_at(index).unwrap_or(0) as char)?;
    }
    Ok(text)
}

/// Returns messages with an event behind them, if memory did not run out for them.
pub fn with_event(
    messages: Result<Vec<Message>, AllocError>,
    told: ClientEvent,
) -> Result<Vec<Message>, AllocError>
    ensures { (before : List Said) → IfOk messages (λ ms. each said_of ms.items ≡ before)
        → IfOk result
        (λ ms. each said_of ms.items ≡ before ++ event (event_view told) ∷ []) }
{
    let mut messages = messages?;
    messages.push(Message::Event(told))?;
    Ok(messages)
}

/// Returns messages with an event that has a text behind them, if memory did not run out for
/// either.
pub fn with_output(
    messages: Result<Vec<Message>, AllocError>,
    category: Category,
    text: Result<String, AllocError>,
) -> Result<Vec<Message>, AllocError>
    ensures { (before : List Said) (bytes : List ℕ)
        → IfOk messages (λ ms. each said_of ms.items ≡ before)
        → IfOk text (λ s. string_bytes s ≡ bytes)
        → IfOk result
        (λ ms. each said_of ms.items ≡ before ++ output_said category bytes ∷ []) }
{
    let text = text?;
    with_event(messages, ClientEvent::Output { category, text })
}

/// Returns messages and, behind them, what the program put out since the client was told so many
/// bytes, or that bytes were taken back.
fn with_console(
    alloc: Global,
    messages: Result<Vec<Message>, AllocError>,
    session: &Session,
    told: u32,
) -> Result<Vec<Message>, AllocError>
    ensures { (before : List Said) → IfOk messages (λ ms. each said_of ms.items ≡ before)
        → IfOk result (λ ms. each said_of ms.items
        ≡ before ++ console_said told session.now.current.bus.out) }
{
    let count = session.output_len();
    if told < count {
        let text = output_since(alloc, session, told);
        with_output(messages, Category::Stdout, text)
    } else if count < told {
        let less = told - count;
        let text = format!(in alloc; "{LESS_BEFORE}{less}{LESS_BEHIND}");
        with_output(messages, Category::Console, text)
    } else {
        messages
    }
}

/// Returns why the machine stands, in words: if a step is refused, why it is.
fn halt_shown(alloc: Global, places: &Places, halt: Halt) -> Result<String, AllocError>
    ensures { IfOk result (λ words. string_bytes words
        ≡ halt_shown places.now.names halt.words.now halt.fault) }
{
    match halt.fault {
        Some(fault) => {
            let mut text = Vec::new(alloc);
            let grown = push_fault(&mut text, places, fault);
            as_text(alloc, text, grown)
        }
        None => String::from_str(alloc, halt.words),
    }
}

/// Returns messages and, behind them, that the machine stands, in words of why, and which
/// breakpoints have stopped it. If it is before the first instruction or at its oldest state, a
/// remark says so first.
fn with_stop(
    alloc: Global,
    messages: Result<Vec<Message>, AllocError>,
    halt: Halt,
    words: &str,
    hits: Vec<u64>,
) -> Result<Vec<Message>, AllocError>
    ensures { (before : List Said) → IfOk messages (λ ms. each said_of ms.items ≡ before)
        → IfOk result (λ ms. each said_of ms.items
        ≡ (before ++ remark_said halt.reason halt.words.now)
        ++ stopped_said halt.reason words.now hits.items ∷ []) }
{
    let remarked = match halt.reason {
        Reason::Entry => {
            let remark = halt.words;
            with_output(messages, Category::Console, format!(in alloc; "{remark}\n"))
        }
        Reason::Step | Reason::Breakpoint | Reason::InstructionBreakpoint => messages,
        Reason::FunctionBreakpoint | Reason::DataBreakpoint | Reason::Exception => messages,
        Reason::Goto | Reason::Pause | Reason::NoStop => messages,
    };
    let words = String::from_str(alloc, words)?;
    let reason = halt.reason;
    with_event(
        remarked,
        ClientEvent::Stopped {
            reason,
            words,
            hits,
        },
    )
}

/// Returns messages and, behind them, what the program put out, a remark if the machine is before
/// the first instruction or at its oldest state, and that the machine stands. Notes what is told.
pub fn with_halt(
    alloc: Global,
    messages: Result<Vec<Message>, AllocError>,
    mon: &MonState,
    told: &mut Told,
    halt: Halt,
    hits: Vec<u64>,
) -> Result<Vec<Message>, AllocError>
    ensures messages { (before : List Said)
        → IfOk messages (λ ms. each said_of ms.items ≡ before)
        → IfOk result (λ ms. each said_of ms.items
        ≡ before ++ told_of mon.now told.old.count halt hits.items) }
    ensures count { OnOk result
        (told.new.count ≡ length mon.now.session.current.bus.out) }
    ensures reason { OnOk result (told.new.reason ≡ halt.reason) }
    ensures words { OnOk result (string_bytes told.new.words
        ≡ halt_shown mon.now.places.names halt.words.now halt.fault) }
{
    let words = halt_shown(alloc, &mon.places, halt)?;
    let console = with_console(alloc, messages, &mon.session, told.count);
    let all = with_stop(alloc, console, halt, words.as_str(), hits);
    told.count = mon.session.output_len();
    told.reason = halt.reason;
    told.words = words;
    all
}

/// Returns messages and, behind them, that what the client shows may have changed, if it can be
/// told so.
pub fn with_unmoved(
    messages: Result<Vec<Message>, AllocError>,
    counting: Counting,
) -> Result<Vec<Message>, AllocError>
    ensures { (before : List Said) → IfOk messages (λ ms. each said_of ms.items ≡ before)
        → IfOk result (λ ms. each said_of ms.items ≡ before ++ unmoved_said counting) }
{
    if !counting.can_invalidate {
        return messages;
    }
    with_event(messages, ClientEvent::Invalidated)
}

/// Returns an answer with a body, if memory did not run out for it.
pub fn answered(alloc: Global, body: Result<Answer, AllocError>) -> Result<Vec<Message>, AllocError>
    ensures { (d : SeenAnswer) → IfOk body (λ v. answer_view v ≡ d)
        → IfOk result (λ ms. each said_of ms.items ≡ done d ∷ []) }
{
    let mut messages = Vec::new(alloc);
    messages.push(Message::Done(body?))?;
    Ok(messages)
}
