//! Moves that go on past log points.

ghost use Rattle.std.specs.Prelude.{◌≡◌, ◌++◌, ℕ, IfOk, List, None, map as each, option_map, true};
ghost use Rattle.dap_messages.specs.Messages.{Said, said_of};
ghost use Rattle.dap_session.specs.Logs.{SaysIf, id_or, is_log, is_other, last_at, log_at, log_here};
ghost use Rattle.dap_session.specs.Logs.{text_in, text_numbered, text_of, text_of_list, text_or};
ghost use Rattle.dap_session.specs.Passes.{GoesPast, IsOver, Makes, Passes, PassesLogs, Rests};
ghost use Rattle.dap_session.specs.Passes.{SettlesAt, but_last, further_of, has_ended, is_back};
ghost use Rattle.dap_session.specs.Passes.{is_within};
ghost use Rattle.dap_session.specs.Passes.{over_further, rest_reason, rest_words, says, way_of};

use crate::client::Client;
use crate::launching::steps_of;
use crate::stands::{is_at, with_halt_at};
use crate::telling::with_output;
use crate::wording::{MANY_LOGS, STEPPED};
use dap_desk::{goes_by_lines, make_move};
use dap_messages::{
    Category, FileLines, Halt, Listed, Message, Move, Placed, Reason, SourceBreakpoint,
    next_number, stand_by,
};
use dap_views::looked_text;
use mon_session::MonState;
use std::alloc::{AllocError, Global};

/// The opcode of JSR.
const JSR: u8 = 0x20;

/// The most log points that a move goes past.
const MOST_LOGS: u32 = 256;

/// How a move goes on past a log point.
#[derive(Clone, Copy)]
pub enum Further {
    /// It is done.
    Ends,
    /// This move is made again.
    Again(Move),
    /// Subroutines are left until the stack pointer is at least this.
    Leaves(u16),
}

/// Returns how a step over an instruction goes on: over a JSR until its subroutine is left.
fn over_further(mon: &MonState) -> Further
    ensures { result ≡ over_further mon.now }
{
    let regs = mon.session.regs();
    if mon.session.peek(regs.pc) == JSR {
        Further::Leaves(u16::from(regs.s))
    } else {
        Further::Ends
    }
}

/// Returns how a move goes on past a log point.
pub fn further_of(mon: &MonState, way: Move) -> Further
    ensures { result ≡ further_of way mon.now }
{
    match way {
        Move::Over if goes_by_lines(mon) => Further::Ends,
        Move::Over => over_further(mon),
        Move::Out => Further::Leaves(u16::from(mon.session.regs().s) + 1),
        Move::Go => Further::Again(Move::Go),
        Move::BackToStop => Further::Again(Move::BackToStop),
        Move::In | Move::Step | Move::BackOver | Move::Back => Further::Ends,
    }
}

/// Returns the move by which a move goes on.
fn way_of(further: Further) -> Move
    ensures { result ≡ way_of further }
{
    match further {
        Further::Ends => Move::Step,
        Further::Again(way) => way,
        Further::Leaves(_) => Move::Out,
    }
}

/// Returns the number of a breakpoint if it stands at an address, or else what was found before.
fn id_or(placed: &Placed, address: u16, found: Option<u64>) -> Option<u64>
    ensures { result ≡ id_or placed.now address found }
{
    if placed.address == address {
        Some(placed.id)
    } else {
        found
    }
}

/// Returns the number of the last of some breakpoints that stands at an address, if one does.
fn last_at(placed: &[Placed], address: u16) -> Option<u64>
    ensures { result ≡ last_at address placed.now }
{
    let mut found = None;
    for one in placed {
        found = id_or(one, address, found);
    }
    found
}

/// Returns what a breakpoint says, if it is a log point.
fn text_of(listed: &SourceBreakpoint) -> Option<&str>
    ensures { option_map (λ t. t.now) result ≡ text_of listed.now }
{
    let text = listed.log.as_str();
    if text.is_empty() { None } else { Some(text) }
}

/// Returns what a breakpoint says if its number is the one that is looked for, or else what was
/// found before.
fn text_or<'a>(
    listed: &'a SourceBreakpoint,
    number: u64,
    id: u64,
    found: Option<&'a str>,
) -> Option<&'a str>
    ensures { option_map (λ t. t.now) result
        ≡ text_or listed.now number id (option_map (λ t. t.now) found.entry) }
{
    if number == id { text_of(listed) } else { found }
}

/// Returns what the breakpoint of a number says, of some of which the first has this number.
fn text_numbered(list: &[SourceBreakpoint], first: u64, id: u64) -> Option<&str>
    ensures { option_map (λ t. t.now) result ≡ text_numbered id first list.now }
{
    let mut found = None;
    let mut number = first;
    for listed in list {
        found = text_or(listed, number, id, found);
        number = next_number(number);
    }
    found
}

/// Returns what the breakpoint of a number says, if it is a log point of a list, or else what was
/// found before.
fn text_of_list<'a>(listed: &'a FileLines, id: u64, found: Option<&'a str>) -> Option<&'a str>
    ensures { option_map (λ t. t.now) result
        ≡ text_of_list listed.now id (option_map (λ t. t.now) found.entry) }
{
    match text_numbered(listed.lines.list.as_slice(), listed.lines.first, id) {
        Some(text) => Some(text),
        None => found,
    }
}

/// Returns what the breakpoint of a number says, if it is a log point of one of some lists.
fn text_in(lists: &[FileLines], id: u64) -> Option<&str>
    ensures { option_map (λ t. t.now) result ≡ text_in lists.now id }
{
    let mut found = None;
    for listed in lists {
        found = text_of_list(listed, id, found);
    }
    found
}

/// Returns whether a breakpoint stands at an address that is listed by it, or by a name.
fn is_other(listed: &Listed, pc: u16) -> bool
    ensures { result ≡ is_other listed.now pc }
{
    is_at(listed.addresses.as_slice(), pc) || is_at(listed.functions.as_slice(), pc)
}

/// Returns what the log point at an address says, if one stands there.
fn log_at(listed: &Listed, pc: u16) -> Option<&str>
    ensures { option_map (λ t. t.now) result ≡ log_at listed.now pc }
{
    if is_other(listed, pc) {
        return None;
    }
    match last_at(listed.lines.as_slice(), pc) {
        Some(id) => text_in(listed.last_lines.as_slice(), id),
        None => None,
    }
}

/// Returns what the log point says that has stopped the machine, if one has.
fn log_here(client: &Client) -> Option<&str>
    ensures { option_map (λ t. t.now) result ≡ log_here client.now }
{
    match client.told.reason {
        Reason::Breakpoint => log_at(&client.listed, client.mon.session.regs().pc),
        _ => None,
    }
}

/// Returns whether a log point has stopped the machine.
fn is_log(client: &Client) -> bool
    ensures { result ≡ is_log client.now }
{
    match log_here(client) {
        Some(_) => true,
        None => false,
    }
}

/// Returns whether a subroutine was left, and not yet the one that is to be left.
fn is_within(client: &Client, stack: u16) -> bool
    ensures { result ≡ is_within stack client.now }
{
    matches!(client.told.reason, Reason::Step) && u16::from(client.mon.session.regs().s) < stack
}

/// Returns whether a move has ended, so that it does not go on.
fn has_ended(client: &Client, further: Further) -> bool
    ensures { result ≡ has_ended further client.now }
{
    match further {
        Further::Ends => true,
        Further::Again(_) => !is_log(client),
        Further::Leaves(stack) => !is_log(client) && !is_within(client, stack),
    }
}

/// Returns whether a move goes back, where log points say nothing.
fn is_back(further: Further) -> bool
    ensures { result ≡ is_back further }
{
    matches!(further, Further::Again(Move::BackToStop))
}

/// Appends the value of the expression that a text begins with, up to a brace, and returns the text
/// behind. An expression that names nothing stays as it is written, and so does a text in which no
/// brace ends it.
fn push_value<'a>(
    alloc: Global,
    mon: &MonState,
    line: &mut String,
    text: &'a str,
) -> Result<&'a str, AllocError> {
    let Some((expression, behind)) = text.split_once('}') else {
        line.push('{')?;
        return Ok(text);
    };
    match looked_text(alloc, mon, expression)? {
        Some(shown) => line.push_str(shown.as_str())?,
        None => {
            line.push('{')?;
            line.push_str(expression)?;
            line.push('}')?;
        }
    }
    Ok(behind)
}

/// Returns the line that a log point says: its text, with the value of each expression in braces.
fn log_line(alloc: Global, mon: &MonState, text: &str) -> Result<String, AllocError> {
    let mut line = String::new(alloc);
    let mut left = text;
    for _ in 0..text.len() {
        match left.split_once('{') {
            Some((before, behind)) => {
                line.push_str(before)?;
                left = push_value(alloc, mon, &mut line, behind)?;
            }
            None => {
                line.push_str(left)?;
                line.push('\n')?;
                return Ok(line);
            }
        }
    }
    line.push_str(left)?;
    line.push('\n')?;
    Ok(line)
}

/// Returns messages and, behind them, what a log point says.
fn with_line(
    alloc: Global,
    mon: &MonState,
    messages: Vec<Message>,
    text: &str,
) -> Result<Vec<Message>, AllocError>
    ensures { IfOk result (λ ms. (log : List Said) × SaysIf true log
        × (each said_of ms.items ≡ each said_of messages.items ++ log)) }
{
    let line = log_line(alloc, mon, text)?;
    with_output(Ok(messages), Category::Console, Ok(line))
}

/// Returns messages but for the last.
fn but_last(messages: Vec<Message>) -> Vec<Message>
    ensures { each said_of result.items ≡ but_last (each said_of messages.items) }
{
    let mut rest = messages;
    drop(rest.pop());
    rest
}

/// Returns messages but for the last and, behind them, what the log point says that has stopped the
/// machine, if one has and the move is no move back.
fn with_log(
    alloc: Global,
    client: &Client,
    further: Further,
    messages: Vec<Message>,
) -> Result<Vec<Message>, AllocError>
    ensures { IfOk result (λ ms. (log : List Said) × SaysIf (says further client.now) log
        × (each said_of ms.items ≡ but_last (each said_of messages.items) ++ log)) }
{
    let before = but_last(messages);
    if is_back(further) {
        return Ok(before);
    }
    match log_here(client) {
        Some(text) => with_line(alloc, &client.mon, before, text),
        None => Ok(before),
    }
}

/// Makes a move, and tells why the machine stands then, behind what was said before.
pub fn go(
    alloc: Global,
    client: &mut Client,
    way: Move,
    messages: Result<Vec<Message>, AllocError>,
) -> Result<Vec<Message>, AllocError>
    ensures { (before : List Said) → IfOk messages (λ ms. each said_of ms.items ≡ before)
        → IfOk result (λ ms. Makes way before client.old client.new (each said_of ms.items)) }
{
    let halt = make_move(alloc, &mut client.mon, steps_of(&client.launch), way)?;
    with_halt_at(alloc, messages, client, halt)
}

/// Lets a move go on: tells of the log point that has stopped the machine, and makes the next move.
fn go_past(
    alloc: Global,
    client: &mut Client,
    further: Further,
    messages: Vec<Message>,
) -> Result<Vec<Message>, AllocError>
    ensures { IfOk result (λ ms. GoesPast further client.old (each said_of messages.items)
        client.new (each said_of ms.items)) }
{
    let before = with_log(alloc, client, further, messages)?;
    go(alloc, client, way_of(further), Ok(before))
}

/// Lets a move go on until it has ended, past 256 log points at most.
fn pass(
    alloc: Global,
    client: &mut Client,
    further: Further,
    messages: Vec<Message>,
) -> Result<Vec<Message>, AllocError>
    ensures { IfOk result (λ ms. (n : ℕ) × Passes n further client.old
        (each said_of messages.items) client.new (each said_of ms.items)
        × IsOver n further client.new) }
{
    let mut said = messages;
    for _ in 0..MOST_LOGS {
        if has_ended(client, further) {
            return Ok(said);
        }
        let more = go_past(alloc, client, further, said)?;
        said = more;
    }
    Ok(said)
}

/// Returns why the machine stands where a move ends at a log point.
fn rest_halt(further: Further) -> Halt
    ensures reason { result.reason ≡ rest_reason further }
    ensures words { result.words.now ≡ rest_words further }
    ensures fault { result.fault ≡ None }
{
    match further {
        Further::Ends => stand_by(Reason::Step, STEPPED),
        Further::Again(_) | Further::Leaves(_) => stand_by(Reason::NoStop, MANY_LOGS),
    }
}

/// Tells of the log point that has stopped the machine, and that the machine stands.
fn rest(
    alloc: Global,
    client: &mut Client,
    further: Further,
    messages: Vec<Message>,
) -> Result<Vec<Message>, AllocError>
    ensures { IfOk result (λ ms. Rests further client.old (each said_of messages.items)
        client.new (each said_of ms.items)) }
{
    let before = with_log(alloc, client, further, messages)?;
    let halt = rest_halt(further);
    with_halt_at(alloc, Ok(before), client, halt)
}

/// Tells why the machine stands if a log point has stopped it.
fn settle(
    alloc: Global,
    client: &mut Client,
    further: Further,
    messages: Vec<Message>,
) -> Result<Vec<Message>, AllocError>
    ensures { IfOk result (λ ms. SettlesAt (is_log client.old) further client.old
        (each said_of messages.items) client.new (each said_of ms.items)) }
{
    if is_log(client) {
        return rest(alloc, client, further, messages);
    }
    Ok(messages)
}

/// Lets a move go on past log points, and returns what is said.
pub fn go_on(
    alloc: Global,
    client: &mut Client,
    further: Further,
    messages: Vec<Message>,
) -> Result<Vec<Message>, AllocError>
    ensures { IfOk result (λ ms. PassesLogs further client.old (each said_of messages.items)
        client.new (each said_of ms.items)) }
{
    let said = pass(alloc, client, further, messages)?;
    settle(alloc, client, further, said)
}
