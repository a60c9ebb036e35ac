//! The breakpoints that a client wants, read from its list.

ghost use Rattle.std.specs.Prelude.{◌≡◌, ◌∷◌, ◌++◌, [], IfOk, MatchResult, None, OnOk, Some};
ghost use Rattle.std.specs.Prelude.{map as each};
ghost use Rattle.std.specs.Option.{option_to_list};
ghost use Rattle.dap_views.specs.Found.{HasFound, found_on, stop_at, stop_view, stops_at};
ghost use Rattle.dap_views.specs.Found.{told_view};

use dap_messages::Condition;
use mon_line_parts::{Flaw, Topic};
use mon_lines::{Slip, read_tests, read_times};
use mon_runs::Break;
use mon_session::MonState;
use mon_texts::push_slip;
use std::alloc::{AllocError, Global};

/// What a client is told of a breakpoint that it wants.
#[derive(Drop)]
pub struct Wanted {
    /// The addresses at which it stands: none if it cannot stand anywhere.
    pub addresses: Vec<u16>,
    /// The line that it stands at, or is wanted at, if it has one.
    pub line: Option<u32>,
    /// Why it cannot stand anywhere.
    pub words: String,
}

/// A list of breakpoints that a client wants: what is told of each, and those that are set.
#[derive(Drop)]
pub struct List {
    pub told: Vec<Wanted>,
    pub stops: Vec<Break>,
}

/// Returns what is told of a breakpoint that cannot be set.
fn unset(alloc: Global, line: Option<u32>, words: String) -> Wanted
    ensures { told_view result ≡ (line, []) }
{
    Wanted {
        addresses: Vec::new(alloc),
        line,
        words,
    }
}

/// Appends what is told of a breakpoint that cannot be set, if memory did not run out for words of
/// why.
pub fn push_unset(
    alloc: Global,
    list: &mut List,
    line: Option<u32>,
    words: Result<String, AllocError>,
) -> Result<(), AllocError>
    ensures { OnOk result (HasFound (line, []) list.old list.new) }
{
    let words = words?;
    list.told.push(unset(alloc, line, words))?;
    Ok(())
}

/// Returns why a condition or a hit count cannot be read.
fn why_text(alloc: Global, flaw: Flaw<'_>) -> Result<String, AllocError> {
    let mut text = Vec::new(alloc);
    let topic = Some(Topic::Break);
    push_slip(&mut text, Slip { topic, flaw })?;
    String::from_utf8_lossy(alloc, text.as_slice().trim_ascii())
}

/// Returns the breakpoint at an address with a condition, or why the condition or its hit count
/// cannot be read.
fn stop_at<'a>(mon: &MonState, condition: &'a Condition, address: u16) -> Result<Break, Flaw<'a>>
    ensures { MatchResult result
        (λ stop. stop_at mon.now.places mon.now.session.current.regs.pc condition.now
        address ≡ Some (stop_view stop))
        (λ why. stop_at mon.now.places mon.now.session.current.regs.pc condition.now
        address ≡ None) }
{
    let pc = mon.session.regs().pc;
    let tests = read_tests(condition.tests.as_bytes(), &mon.places, pc)?;
    let times = read_times(condition.hits.as_bytes(), &mon.places)?;
    Ok(Break::new(address, tests, times))
}

/// Returns why a condition or a hit count cannot be read: no words if both can.
fn words_of(alloc: Global, mon: &MonState, condition: &Condition) -> Result<String, AllocError> {
    match stop_at(mon, condition, 0) {
        Ok(stop) => {
            drop(stop);
            Ok(String::new(alloc))
        }
        Err(why) => why_text(alloc, why),
    }
}

/// Appends a breakpoint, and its address.
fn push_stop(stops: &mut Vec<Break>, set: &mut Vec<u16>, stop: Break) -> Result<(), AllocError>
    ensures stops { OnOk result (each stop_view stops.new.items
        ≡ each stop_view stops.old.items ++ stop_view stop ∷ []) }
    ensures set { OnOk result (set.new.items ≡ set.old.items ++ stop.address ∷ []) }
{
    set.push(stop.address)?;
    stops.push(stop)?;
    Ok(())
}

/// Appends the breakpoint at an address with a condition, and the address, if the condition and its
/// hit count can be read.
fn push_if_read(
    stops: &mut Vec<Break>,
    set: &mut Vec<u16>,
    mon: &MonState,
    condition: &Condition,
    address: u16,
) -> Result<(), AllocError>
    ensures stops { OnOk result (each stop_view stops.new.items
        ≡ each stop_view stops.old.items ++ option_to_list (stop_at mon.now.places
        mon.now.session.current.regs.pc condition.now address)) }
    ensures set { OnOk result (set.new.items ≡ set.old.items
        ++ each (λ s. s.0) (option_to_list (stop_at mon.now.places
        mon.now.session.current.regs.pc condition.now address))) }
{
    match stop_at(mon, condition, address) {
        Ok(stop) => push_stop(stops, set, stop),
        Err(_) => Ok(()),
    }
}

/// Appends the breakpoints with a condition at some addresses, if the condition and its hit count
/// can be read, and returns the addresses of those.
fn push_stops(
    alloc: Global,
    stops: &mut Vec<Break>,
    mon: &MonState,
    condition: &Condition,
    addresses: &[u16],
) -> Result<Vec<u16>, AllocError>
    ensures stops { OnOk result (each stop_view stops.new.items
        ≡ each stop_view stops.old.items ++ stops_at mon.now.places
        mon.now.session.current.regs.pc condition.now addresses.now) }
    ensures addresses { IfOk result (λ set. set.items ≡ each (λ s. s.0)
        (stops_at mon.now.places mon.now.session.current.regs.pc condition.now addresses.now)) }
{
    let mut set = Vec::new(alloc);
    for address in addresses {
        push_if_read(stops, &mut set, mon, condition, *address)?;
    }
    Ok(set)
}

/// Appends a breakpoint that a client wants at some addresses, which a line has, or none. If its
/// condition or its hit count cannot be read, it is told why.
pub fn push_at(
    alloc: Global,
    list: &mut List,
    mon: &MonState,
    condition: &Condition,
    line: Option<u32>,
    addresses: &[u16],
) -> Result<(), AllocError>
    ensures { OnOk result (HasFound (found_on mon.now.places
        mon.now.session.current.regs.pc condition.now line addresses.now) list.old list.new) }
{
    let words = words_of(alloc, mon, condition)?;
    let set = push_stops(alloc, &mut list.stops, mon, condition, addresses)?;
    list.told.push(Wanted {
        addresses: set,
        line,
        words,
    })?;
    Ok(())
}
