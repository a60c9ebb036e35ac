//! What a line does.

ghost use Rattle.std.specs.Prelude.{◌≡◌, ◌++◌, IfOk, OnOk, Some};
ghost use Rattle.std.specs.Option.{option_copied};
ghost use Rattle.mon_dispatch.specs.Lines.{Breaks, Deletes, Does, Follows, Says, Serves, Tells};
ghost use Rattle.mon_dispatch.specs.Lines.{is_over, outcome_of};
ghost use Rattle.mon_dispatch.specs.LineTexts.{behind_text, broken_text, if_decimal, line_text};
ghost use Rattle.mon_dispatch.specs.LineTexts.{moved_text};
ghost use Rattle.mon_settings.specs.StopLines.{addresses_at, standing_of};
ghost use Rattle.mon_settings.specs.StopTexts.{all_deleted_text};
ghost use Rattle.mon_lines.specs.Lines.{asked_view, line_view};
ghost use Rattle.mon_session.specs.Course.{ShowsOnly};

use crate::looks::look;
use crate::wording::{IS_DECIMAL, IS_HEX};
use arrayvec::ArrayVec;
use formatting::push_text;
use mon_by_line::{run_to_line, undo_to_line};
use mon_calls::{push_locals, push_where};
use mon_lines::{Command, ReadLine, Slip, Test};
use mon_runs::Watch;
use mon_session::MonState;
use mon_settings::{
    addresses_at, ask_nmi, assemble, delete, delete_register, display, hand_in, list,
    list_displays, put, reset, set, set_breaks, set_flag, set_irq, set_watch, show_displays,
    undisplay,
};
use mon_steps::{
    redo, run, run_until, show_history, step_out, step_over, steps, undo, undo_to_stop,
};
use mon_texts::push_slip;
use std::alloc::{AllocError, Global};

/// What a line has made of the session.
#[derive(Clone, Copy)]
pub enum Outcome {
    /// The session is to end.
    Over,
    /// The line made or undid events, after which the bytes that are displayed are shown.
    Moved,
    /// The session stands where it stood.
    Stays,
}

/// Returns what a line makes of the session.
fn outcome_of(command: &Command<'_>) -> Outcome
    ensures { result ≡ outcome_of command.now }
{
    match command {
        Command::Quit => Outcome::Over,
        Command::Nothing | Command::Step(_) | Command::Over | Command::Out => Outcome::Moved,
        Command::Line | Command::LineBack => Outcome::Moved,
        Command::Until(_) | Command::Go(_) | Command::Back(_) => Outcome::Moved,
        Command::Rback | Command::Redo(_) | Command::Reset => Outcome::Moved,
        _ => Outcome::Stays,
    }
}

/// Has a byte shown at each stop, or lists those that are.
fn display_or_list(mon: &mut MonState, place: Option<u16>) -> Result<(), AllocError>
    ensures does { OnOk result (Does (Command.Display place) mon.old mon.new) }
    ensures text { OnOk result
        (Says (line_text (Command.Display place) mon.old) mon.old mon.new) }
{
    match place {
        Some(address) => display(mon, address),
        None => list_displays(mon),
    }
}

/// Sets breaks at an address or at a line, and shows them.
fn break_at(
    mon: &mut MonState,
    alloc: Global,
    place: (u16, Option<(u32, u32)>),
    tests: &ArrayVec<Test, 4>,
    times: u32,
) -> Result<(), AllocError>
    ensures does { OnOk result
        (Breaks (addresses_at mon.old.places place.0 place.1) tests.now.items times
        mon.old mon.new) }
    ensures text { OnOk result (Says
        (broken_text (addresses_at mon.old.places place.0 place.1) tests.now.items times mon.old)
        mon.old mon.new) }
{
    let addresses = addresses_at(alloc, &mon.places, place.0, place.1)?;
    set_breaks(mon, alloc, addresses.as_slice(), tests, times)
}

/// Deletes what stands at an address or at a line, and says so.
fn delete_at(
    mon: &mut MonState,
    alloc: Global,
    address: u16,
    line: Option<(u32, u32)>,
) -> Result<(), AllocError>
    ensures does { OnOk result
        (Deletes (addresses_at mon.old.places address line) mon.old mon.new) }
    ensures text { OnOk result (Says (all_deleted_text mon.old.places.names
        (addresses_at mon.old.places address line) (standing_of mon.old)) mon.old mon.new) }
{
    let addresses = addresses_at(alloc, &mon.places, address, line)?;
    delete(mon, addresses.as_slice())
}

/// Does what a line asks for, and says so.
fn obey(mon: &mut MonState, alloc: Global, command: &Command<'_>) -> Result<(), AllocError>
    ensures does { OnOk result (Does command.now mon.old mon.new) }
    ensures text { OnOk result (Tells command.now mon.old mon.new) }
{
    match command {
        Command::Nothing => steps(mon, 1),
        Command::Step(count) => steps(mon, *count),
        Command::Over => step_over(mon),
        Command::Out => step_out(mon),
        Command::Line => run_to_line(mon, alloc),
        Command::LineBack => undo_to_line(mon, alloc),
        Command::Until(address) => run_until(mon, *address),
        Command::Go(count) => run(mon, *count),
        Command::Back(undoing) => undo(mon, *undoing),
        Command::Rback => undo_to_stop(mon),
        Command::Redo(count) => redo(mon, *count),
        Command::Where => push_where(&mut mon.text, alloc, &mon.session, &mon.places),
        Command::Locals(number) => {
            push_locals(&mut mon.text, alloc, &mon.session, &mon.places, *number)
        }
        Command::History(count) => show_history(mon, *count),
        Command::Break {
            address,
            line,
            tests,
            times,
        } => break_at(mon, alloc, (*address, *line), tests, *times),
        Command::Watch { stretch, kind } => {
            let bytes = Watch::Bytes {
                stretch: *stretch,
                kind: *kind,
            };
            set_watch(mon, bytes)
        }
        Command::WatchRegister(register) => set_watch(mon, Watch::Register(*register)),
        Command::List => list(mon),
        Command::Delete { address, line } => delete_at(mon, alloc, *address, *line),
        Command::DeleteRegister(register) => delete_register(mon, *register),
        Command::Display(place) => display_or_list(mon, *place),
        Command::Undisplay(address) => undisplay(mon, *address),
        Command::Set(setting) => set(mon, *setting),
        Command::SetFlag { flag, value } => set_flag(mon, *flag, *value),
        Command::Put { address, bytes } => put(mon, *address, bytes.as_slice()),
        Command::Asm { address, text } => assemble(mon, alloc, *address, *text),
        Command::Type(bytes) => hand_in(mon, bytes.as_slice()),
        Command::Irq(level) => set_irq(mon, *level),
        Command::Nmi => ask_nmi(mon),
        Command::Reset => reset(mon),
        command => look(mon, command),
    }
}

/// Does what a line asks for, says so, and returns what it has made of the session.
fn execute(mon: &mut MonState, alloc: Global, command: &Command<'_>) -> Result<Outcome, AllocError>
    ensures does { OnOk result (Does command.now mon.old mon.new) }
    ensures text { OnOk result (Tells command.now mon.old mon.new) }
    ensures outcome { IfOk result (λ outcome. outcome ≡ outcome_of command.now) }
{
    obey(mon, alloc, command)?;
    Ok(outcome_of(command))
}

/// Does what a line asks for, or says what is missing or wrong in it. Returns what the line has
/// made of the session.
///
/// Errors: `AllocError` if an allocation fails.
pub fn follow(
    mon: &mut MonState,
    alloc: Global,
    asked: &Result<Command<'_>, Slip<'_>>,
) -> Result<Outcome, AllocError>
    ensures { IfOk result (λ outcome. Follows (asked_view asked.now) outcome mon.old mon.new) }
{
    match asked {
        Ok(command) => execute(mon, alloc, command),
        Err(slip) => {
            push_slip(&mut mon.text, *slip)?;
            Ok(Outcome::Stays)
        }
    }
}

/// Appends that a word is hex.
fn push_is_hex(text: &mut Vec<u8>, word: &[u8]) -> Result<(), AllocError>
    ensures { OnOk result (text.new.items ≡ text.old.items ++ (word.now ++ IS_HEX.now)) }
{
    text.extend_from_slice(word)?;
    push_text(text, IS_HEX)
}

/// Appends words, and that a word is hex.
fn push_words_hex(text: &mut Vec<u8>, words: &str, word: &[u8]) -> Result<(), AllocError>
    ensures { OnOk result (text.new.items ≡ text.old.items
        ++ (words.now ++ (word.now ++ IS_HEX.now))) }
{
    push_text(text, words)?;
    push_is_hex(text, word)
}

/// Appends that a word is a decimal number.
fn push_decimal(text: &mut Vec<u8>, word: &[u8]) -> Result<(), AllocError>
    ensures { OnOk result (text.new.items ≡ text.old.items ++ if_decimal (Some word.now)) }
{
    text.extend_from_slice(word)?;
    push_words_hex(text, IS_DECIMAL, word)
}

/// Says so if a line has a decimal number where an address is wanted.
fn tell_decimal(mon: &mut MonState, decimal: Option<&[u8]>) -> Result<(), AllocError>
    ensures shows { ShowsOnly mon.old mon.new }
    ensures text { OnOk result
        (Says (if_decimal (option_copied decimal.entry)) mon.old mon.new) }
{
    match decimal {
        Some(word) => push_decimal(&mut mon.text, word),
        None => Ok(()),
    }
}

/// Shows the bytes that are displayed, if the session has moved.
fn tell_moved(mon: &mut MonState, outcome: Outcome) -> Result<(), AllocError>
    ensures shows { ShowsOnly mon.old mon.new }
    ensures text { OnOk result (Says (moved_text outcome mon.old) mon.old mon.new) }
{
    match outcome {
        Outcome::Moved => show_displays(mon),
        Outcome::Over | Outcome::Stays => Ok(()),
    }
}

/// Shows the bytes that are displayed, if the session has moved, and says so if the line has a
/// decimal number where an address is wanted.
fn tell_behind(
    mon: &mut MonState,
    outcome: Outcome,
    decimal: Option<&[u8]>,
) -> Result<(), AllocError>
    ensures shows { ShowsOnly mon.old mon.new }
    ensures text { OnOk result
        (Says (behind_text outcome (option_copied decimal.entry) mon.old) mon.old mon.new) }
{
    tell_moved(mon, outcome)?;
    tell_decimal(mon, decimal)
}

/// Returns whether a session is to end.
fn is_over(outcome: Outcome) -> bool
    ensures { result ≡ is_over outcome }
{
    matches!(outcome, Outcome::Over)
}

/// Does what a line asks for, or says what is missing or wrong in it. Returns whether the session
/// is to end. What is said is appended to the text of the state.
///
/// Errors: `AllocError` if an allocation fails.
pub fn serve(mon: &mut MonState, alloc: Global, line: &ReadLine<'_>) -> Result<bool, AllocError>
    ensures { IfOk result (λ over. Serves (line_view line.now) over mon.old mon.new) }
{
    let outcome = follow(mon, alloc, &line.asked)?;
    tell_behind(mon, outcome, line.decimal)?;
    Ok(is_over(outcome))
}
