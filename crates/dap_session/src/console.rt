//! Lines of `mon`, and variables that are set.

ghost use Rattle.std.specs.Prelude.{◌≡◌, ◌∷◌, ◌++◌, [], ℕ, Bool, IfErr, IfOk, List, None, OnOk};
ghost use Rattle.std.specs.Prelude.{Some, map as each, string_bytes, true};
ghost use Rattle.dap_messages.specs.SeenAnswers.{SeenAnswer, evaluated_body};
ghost use Rattle.dap_messages.specs.Messages.{Said, done, said_of};
ghost use Rattle.dap_session.specs.Changes.{HasChanged, TellsValue, byte_put, change_asked};
ghost use Rattle.dap_session.specs.Changes.{change_of, change_to, value_said};
ghost use Rattle.dap_session.specs.Console.{Evaluates, EvaluatesAs, Looks, LooksIn, ServesRead};
ghost use Rattle.dap_session.specs.Console.{ShowsIfRefused, is_line, over};
ghost use Rattle.dap_views.specs.Looks.{look_at};
ghost use Rattle.mon_lines.specs.Lines.{line_view};
ghost use Rattle.dap_session.specs.Refusals.{IfRefused, IsNoChange, IsNoLook, Rejects};
ghost use Rattle.dap_session.specs.Stands.{KeepsProgram, KeepsSession};
ghost use Rattle.dap_session.specs.Told.{IsDone};
ghost use Rattle.mon_session.specs.Course.{KeepsStops, course_of, happened};

use crate::client::Client;
use crate::fault::{Fault, or_memory, refused, refused_by};
use crate::stands::with_halt_at;
use crate::telling::{answered, with_event, with_unmoved};
use dap_messages::{Answer, ClientEvent, Counting, Message, Reason, Scope, stand_by};
use dap_views::{Variable, look_at, look_in_frame, meant, value_shown, variable_named};
use model::Setting;
use mon_dispatch::serve;
use mon_line_parts::{Flaw, Topic};
use mon_lines::{Command, ReadLine, Slip, read_bit, read_bytes, read_setting};
use mon_runs::Event;
use mon_session::MonState;
use mon_texts::push_slip;
use std::alloc::{AllocError, Global};

/// Returns whether a line may make or undo an event.
fn may_change(asked: &Result<Command<'_>, Slip<'_>>) -> bool {
    match asked {
        Ok(Command::Nothing | Command::Step(_) | Command::Over | Command::Out) => true,
        Ok(Command::Line | Command::LineBack) => true,
        Ok(Command::Until(_) | Command::Go(_) | Command::Back(_) | Command::Rback) => true,
        Ok(Command::Redo(_) | Command::Reset | Command::Set(_) | Command::SetFlag { .. }) => true,
        Ok(Command::Put { .. } | Command::Asm { .. } | Command::Type(_)) => true,
        Ok(Command::Irq(_) | Command::Nmi) => true,
        _ => false,
    }
}

/// What a line of `mon` has said and done.
#[derive(Drop)]
struct Served {
    said: String,
    /// Whether it ends the session.
    is_over: bool,
    /// Whether it may have changed something.
    is_change: bool,
}

/// Does what a line of `mon` asks for, and returns what it says, and whether it ends the session or
/// may have changed something.
fn serve_line(alloc: Global, mon: &mut MonState, read: &ReadLine<'_>) -> Result<Served, AllocError>
    ensures { IfOk result (λ s. ServesRead (line_view read.now) s.is_over mon.old mon.new
        (string_bytes s.said)) }
{
    mon.text.clear();
    let is_over = serve(mon, alloc, read)?;
    let said = String::from_utf8_lossy(alloc, mon.text.as_slice())?;
    mon.text.clear();
    Ok(Served {
        said,
        is_over,
        is_change: may_change(&read.asked),
    })
}

/// Returns messages and, behind them, that the machine stands, if a line has moved it, or that
/// values may have changed, if they may.
fn with_moved(
    alloc: Global,
    messages: Result<Vec<Message>, AllocError>,
    client: &mut Client,
    counting: Counting,
    is_moved: bool,
    is_change: bool,
) -> Result<Vec<Message>, AllocError>
    ensures answer { (body : SeenAnswer) (rest : List Said)
        → IfOk messages (λ ms. each said_of ms.items ≡ done body ∷ rest)
        → IfOk result (λ ms. IsDone body (each said_of ms.items)) }
    ensures kept { KeepsSession client.old client.new }
{
    if is_moved {
        let halt = stand_by(Reason::Step, "a line of the console");
        with_halt_at(alloc, messages, client, halt)
    } else if is_change {
        with_unmoved(messages, counting)
    } else {
        messages
    }
}

/// Returns messages and, behind them, that the session has ended.
pub fn with_terminated(
    messages: Result<Vec<Message>, AllocError>,
) -> Result<Vec<Message>, AllocError>
    ensures { (before : List Said) → IfOk messages (λ ms. each said_of ms.items ≡ before)
        → IfOk result (λ ms. each said_of ms.items ≡ before ++ over ∷ []) }
{
    with_event(messages, ClientEvent::Terminated)
}

/// Returns messages and, behind them, that the session has ended, if it has.
fn with_over(
    messages: Result<Vec<Message>, AllocError>,
    is_over: bool,
) -> Result<Vec<Message>, AllocError>
    ensures { (body : SeenAnswer) → IfOk messages (λ ms. IsDone body (each said_of ms.items))
        → IfOk result (λ ms. IsDone body (each said_of ms.items)) }
{
    if is_over {
        with_terminated(messages)
    } else {
        messages
    }
}

/// Serves a line of the console.
fn console(
    alloc: Global,
    client: &mut Client,
    counting: Counting,
    read: &ReadLine<'_>,
) -> Result<Vec<Message>, AllocError>
    ensures served { IfOk result (λ ms. (over : Bool) × (said : List ℕ)
        × ServesRead (line_view read.now) over client.old.mon client.new.mon said
        × IsDone (evaluated_body said) (each said_of ms.items)
        × (client.new.told.is_over ≡ over)) }
    ensures kept { KeepsProgram client.old client.new }
{
    let regs = client.mon.session.regs();
    let cycles = client.mon.session.cycles();
    let served = serve_line(alloc, &mut client.mon, read)?;
    let is_moved = client.mon.session.regs() != regs || client.mon.session.cycles() != cycles;
    let Served {
        said,
        is_over,
        is_change,
    } = served;
    let answer = answered(
        alloc,
        Ok(Answer::Look {
            address: None,
            words: said,
        }),
    );
    let told = with_moved(alloc, answer, client, counting, is_moved, is_change);
    client.told.is_over = is_over;
    with_over(told, is_over)
}

/// Returns why a text shows nothing: what is wrong in it as a line, or that it names nothing.
fn no_look(alloc: Global, slip: Option<Slip<'_>>) -> Fault {
    match slip {
        Some(slip) => refused_for(alloc, slip),
        None => refused(alloc, "this is no register, flag or place"),
    }
}

/// Shows what a text names: a register, a flag, the cycles or the byte at a place. A text of the
/// console has a slip, as a line.
///
/// Errors: `Refused` if something else is to be shown.
#[tactic(auto, using(crate::proofs::Stays::refused_so))]
fn look(
    alloc: Global,
    client: &Client,
    text: &str,
    slip: Option<Slip<'_>>,
) -> Result<Vec<Message>, Fault>
    ensures done { IfOk result (λ ms. Looks client.now.mon text.now (each said_of ms.items)) }
    ensures why { IfErr result (λ f. IfRefused f (look_at client.now.mon.session.current
        client.now.mon.places text.now ≡ None)) }
{
    let looked = look_at(alloc, &client.mon, text)?;
    match looked {
        Some(body) => or_memory(answered(alloc, Ok(body))),
        None => Err(no_look(alloc, slip)),
    }
}

/// Shows what a text names in a frame: a local, if it has one of this name, or else a register, a
/// flag, the cycles or the byte at a place.
///
/// Errors: `Refused` if something else is to be shown.
#[tactic(auto, using(crate::proofs::Stays::refused_so))]
fn look_in(
    alloc: Global,
    client: &Client,
    text: &str,
    frame: Option<u64>,
) -> Result<Vec<Message>, Fault>
    ensures done { IfOk result
        (λ ms. LooksIn frame client.now.mon text.now (each said_of ms.items)) }
    ensures why { IfErr result (λ f. IfRefused f (look_at client.now.mon.session.current
        client.now.mon.places text.now ≡ None)) }
{
    let local = look_in_frame(alloc, &client.mon, frame, text)?;
    match local {
        Some(body) => or_memory(answered(alloc, Ok(body))),
        None => look(alloc, client, text, None),
    }
}

/// Serves a text of the console as a line, or, if it can be read as none, shows what it names: a
/// register, a flag, the cycles or the byte at a place.
///
/// Errors: `Refused` if it is no line and names nothing.
#[tactic(auto, using(crate::proofs::Stays::shows_same, crate::proofs::Stays::refused_so))]
fn evaluate_line(
    alloc: Global,
    client: &mut Client,
    counting: Counting,
    text: &str,
) -> Result<Vec<Message>, Fault>
    ensures done { IfOk result (λ ms. EvaluatesAs (is_line client.old.mon text.now) text.now
        client.old client.new (each said_of ms.items)) }
    ensures refused { IfErr result (λ f. ShowsIfRefused f client.old.mon client.new.mon) }
    ensures why { IfErr result (λ f. IfRefused f (IsNoLook text.now true client.old.mon)) }
{
    let pc = client.mon.session.regs().pc;
    let read = ReadLine::new(text.as_bytes(), &client.mon.places, pc);
    match &read.asked {
        Ok(_) => or_memory(console(alloc, client, counting, &read)),
        Err(slip) => look(alloc, client, text, Some(*slip)),
    }
}

/// Serves a text of the console as a line, or shows a register, a flag, the cycles or the byte at a
/// place.
///
/// Errors: `Refused` if something else is to be shown.
#[tactic(auto, using(crate::proofs::Stays::shows_same, crate::proofs::Stays::refused_so))]
pub fn evaluate(
    alloc: Global,
    client: &mut Client,
    counting: Counting,
    text: &str,
    is_console: bool,
    frame: Option<u64>,
) -> Result<Vec<Message>, Fault>
    ensures done { IfOk result (λ ms. Evaluates is_console frame text.now client.old client.new
        (each said_of ms.items)) }
    ensures refused { IfErr result (λ f. ShowsIfRefused f client.old.mon client.new.mon) }
    ensures why { IfErr result (λ f. IfRefused f (IsNoLook text.now is_console client.old.mon)) }
{
    if is_console {
        return evaluate_line(alloc, client, counting, text);
    }
    look_in(alloc, client, text, frame)
}

/// Makes an event.
///
/// Errors: `Refused` if the machine does not accept it.
#[tactic(auto, using(crate::proofs::Stays::shows_same, crate::proofs::Stays::refused_so))]
pub fn happen(alloc: Global, mon: &mut MonState, event: Event) -> Result<(), Fault>
    ensures course { course_of mon.new ≡ happened event (course_of mon.old) }
    ensures stops { KeepsStops mon.old mon.new }
    ensures refused { IfErr result (λ f. ShowsIfRefused f mon.old mon.new) }
    ensures why { IfErr result (λ f. IfRefused f (Rejects event mon.old)) }
{
    mon.text.clear();
    if mon.happen(event)? {
        return Ok(());
    }
    let fault = refused_by(alloc, mon.text.as_slice());
    mon.text.clear();
    Err(fault)
}

/// Returns that a request is refused for a slip in a text.
fn refused_for(alloc: Global, slip: Slip<'_>) -> Fault {
    let mut text = Vec::new(alloc);
    match push_slip(&mut text, slip) {
        Ok(()) => refused_by(alloc, text.as_slice()),
        Err(_) => Fault::OutOfMemory,
    }
}

/// Returns that a request is refused since the value of a variable cannot be read.
fn unread(alloc: Global, variable: Variable, why: Flaw<'_>) -> Fault {
    let topic = match variable {
        Variable::Register(_) | Variable::Flag(_) => Some(Topic::Set),
        Variable::Byte(_) => Some(Topic::Put),
    };
    refused_for(alloc, Slip { topic, flaw: why })
}

/// Returns the event that puts one byte at an address.
///
/// Errors: `Refused` if there are more bytes, or none.
#[tactic(auto, using(crate::proofs::Stays::refused_so))]
fn byte_put(alloc: Global, address: u16, bytes: &[u8]) -> Result<Event, Fault>
    ensures event { IfOk result (λ event. byte_put address bytes.now ≡ Some event) }
    ensures why { IfErr result (λ f. IfRefused f (byte_put address bytes.now ≡ None)) }
{
    match bytes {
        [byte] => Ok(Event::Patch {
            address,
            bytes: [*byte, 0, 0],
            count: 1,
        }),
        _ => Err(refused(alloc, "a variable takes one value")),
    }
}

/// Returns the event that gives a variable the value that a text has.
///
/// Errors: `Refused` if it has none that the variable can have.
#[tactic(auto, using(crate::proofs::Stays::refused_so))]
fn change_of(alloc: Global, mon: &MonState, variable: Variable, text: &[u8]) -> Result<Event, Fault>
    ensures event { IfOk result (λ event. change_of mon.now text.now variable ≡ Some event) }
    ensures why { IfErr result (λ f. IfRefused f (change_of mon.now text.now variable ≡ None)) }
{
    let places = &mon.places;
    let regs = mon.session.regs();
    match variable {
        Variable::Register(register) => match read_setting(register, text, places, regs.pc) {
            Ok(setting) => Ok(Event::Set(setting)),
            Err(why) => Err(unread(alloc, variable, why)),
        },
        Variable::Flag(flag) => match read_bit(text, places) {
            Ok(value) => {
                let flags = flag.with(value, regs.flags);
                Ok(Event::Set(Setting::P(flags.to_byte(false))))
            }
            Err(why) => Err(unread(alloc, variable, why)),
        },
        Variable::Byte(address) => match read_bytes(text, places) {
            Ok(bytes) => byte_put(alloc, address, bytes.as_slice()),
            Err(why) => Err(unread(alloc, variable, why)),
        },
    }
}

/// Returns the event that gives a variable the value that a text has, in which what is shown behind
/// the value that the variable has may stand too.
///
/// Errors: those of `change_of`.
#[tactic(auto, using(crate::proofs::Stays::refused_so))]
fn change_to(alloc: Global, mon: &MonState, variable: Variable, text: &str) -> Result<Event, Fault>
    ensures event { IfOk result (λ event. change_to mon.now text.now variable ≡ Some event) }
    ensures why { IfErr result (λ f. IfRefused f (change_to mon.now text.now variable ≡ None)) }
{
    let text = meant(alloc, mon, variable, text.as_bytes())?;
    change_of(alloc, mon, variable, text)
}

/// Says which value a variable has, and that what the client shows may have changed.
fn tell_value(
    alloc: Global,
    mon: &MonState,
    counting: Counting,
    variable: Variable,
) -> Result<Vec<Message>, AllocError>
    ensures { IfOk result (λ ms. each said_of ms.items ≡ value_said counting mon.now variable) }
{
    let value = value_shown(alloc, mon, variable)?;
    let answer = answered(alloc, Ok(Answer::ValueSet(value)));
    with_unmoved(answer, counting)
}

/// Sets a variable of a scope, and says which value it has then.
///
/// Errors: `Refused` if there is no such variable, or the value is none that it can have.
#[tactic(auto, using(crate::proofs::Stays::shows_same, crate::proofs::Stays::refused_so))]
pub fn set_variable(
    alloc: Global,
    mon: &mut MonState,
    counting: Counting,
    scope: Option<Scope>,
    name: &str,
    value: &str,
) -> Result<Vec<Message>, Fault>
    ensures done { OnOk result
        (HasChanged (change_asked scope name.now value.now mon.old) mon.old mon.new) }
    ensures answer { IfOk result
        (λ ms. TellsValue counting scope name.now mon.old mon.new (each said_of ms.items)) }
    ensures refused { IfErr result (λ f. ShowsIfRefused f mon.old mon.new) }
    ensures why { IfErr result
        (λ f. IfRefused f (IsNoChange scope name.now value.now mon.old)) }
{
    let variable = match variable_named(mon, scope, name) {
        Ok(variable) => variable,
        Err(slip) => return Err(refused_for(alloc, slip)),
    };
    let event = match change_to(alloc, mon, variable, value) {
        Ok(event) => event,
        Err(fault) => return Err(fault),
    };
    match happen(alloc, mon, event) {
        Ok(()) => or_memory(tell_value(alloc, mon, counting, variable)),
        Err(fault) => Err(fault),
    }
}
