//! Lists of breakpoints: each replaces the one before.

ghost use Rattle.std.specs.Prelude.{◌≡◌, ◌∷◌, ◌++◌, [], IfOk, OnOk, if◌then◌else◌, map as each};
ghost use Rattle.std.specs.Prelude.{option_map, slice_get};
ghost use Rattle.dap_messages.specs.Counting.{shown_line};
ghost use Rattle.dap_views.specs.Answered.{answer_by, answer_elsewhere, answer_of, answers_of};
ghost use Rattle.dap_views.specs.Answered.{are_breaks, is_in, is_of};
ghost use Rattle.dap_views.specs.Answered.{placed_at, placed_in, placed_of};
ghost use Rattle.dap_views.specs.Breaks.{Finds, HoldsAddresses, HoldsFunctions, HoldsLines};
ghost use Rattle.dap_views.specs.Breaks.{SetsAddresses, SetsFunctions, SetsLines, SetsSource};
ghost use Rattle.dap_views.specs.Found.{HasFound, found_address, found_line, found_name};
ghost use Rattle.dap_desk.specs.Breaks.{KeepsEvents, all_cleared, all_set, place_of};
ghost use Rattle.dap_messages.specs.SeenAnswers.{breakpoints_body};
ghost use Rattle.dap_messages.specs.SeenAnswers.{answer_view, item_view};

use crate::lines::file_number;
use crate::looks::place_named;
use crate::source::{Source, file_named};
use crate::wanted::{List, Wanted, push_at, push_unset};
use dap_desk::{is_break, replace};
use dap_messages::{
    AddressList, Answer, Counting, FileLines, FunctionBreakpoint, FunctionList,
    InstructionBreakpoint, Item, ItemList, LineList, Listed, Placed, SourceBreakpoint,
    breakpoint_unset, breakpoints_body, data_unwatched, next_number,
};
use mon_runs::Session;
use mon_session::MonState;
use std::alloc::{AllocError, Global};
use std::rt::Files;

/// What is said where no line has bytes.
const NO_BYTES: &str = "no line from here on has bytes";

/// What is said of a breakpoint at a name that there is not.
const NO_NAME: &str = "this names no place of the program";

/// What is said of a breakpoint that the session has no room for.
pub const NO_ROOM: &str = "256 breakpoints are set";

/// What is said of a breakpoint of another source.
pub const OTHER_SOURCE: &str = "this is not the source of the session";

/// Appends a breakpoint that a client wants at a line of a file.
fn push_line(
    alloc: Global,
    list: &mut List,
    mon: &MonState,
    counting: Counting,
    file: usize,
    wanted: &SourceBreakpoint,
) -> Result<(), AllocError>
    ensures { OnOk result (HasFound (found_line mon.now.places
        mon.now.session.current.regs.pc counting file wanted.now) list.old list.new) }
{
    let line = counting.own_line(wanted.line);
    let number = file_number(file);
    let addresses = mon.places.sites_of_line(alloc, number, line)?;
    match mon.places.line_from(number, line) {
        Some(moved) => {
            let all = addresses.as_slice();
            push_at(alloc, list, mon, &wanted.condition, Some(moved), all)
        }
        None => push_unset(alloc, list, Some(line), String::from_str(alloc, NO_BYTES)),
    }
}

/// Appends a breakpoint that a client wants at an address.
fn push_address(
    alloc: Global,
    list: &mut List,
    mon: &MonState,
    wanted: &InstructionBreakpoint,
) -> Result<(), AllocError>
    ensures { OnOk result (HasFound (found_address mon.now.places
        mon.now.session.current.regs.pc wanted.now) list.old list.new) }
{
    match wanted.address {
        Some(address) => {
            let line = mon.places.line_at(address);
            push_at(alloc, list, mon, &wanted.condition, line, &[address])
        }
        None => push_unset(
            alloc,
            list,
            None,
            String::from_str(alloc, "this is no address"),
        ),
    }
}

/// Appends a breakpoint that a client wants at a name, which is any place that `mon` reads.
fn push_name(
    alloc: Global,
    list: &mut List,
    mon: &MonState,
    wanted: &FunctionBreakpoint,
) -> Result<(), AllocError>
    ensures { OnOk result (HasFound (found_name mon.now.places
        mon.now.session.current.regs.pc wanted.now) list.old list.new) }
{
    match place_named(mon, wanted.name.as_str()) {
        Some(address) => {
            let line = mon.places.line_at(address);
            push_at(alloc, list, mon, &wanted.condition, line, &[address])
        }
        None => push_unset(alloc, list, None, String::from_str(alloc, NO_NAME)),
    }
}

/// Makes an empty list.
fn new_list(alloc: Global) -> List
    ensures told { result.told.items ≡ [] }
    ensures stops { result.stops.items ≡ [] }
{
    List {
        told: Vec::new(alloc),
        stops: Vec::new(alloc),
    }
}

/// Looks for the breakpoints of lines of a file that a client wants.
fn lines_wanted(
    alloc: Global,
    mon: &MonState,
    counting: Counting,
    file: usize,
    all: &[SourceBreakpoint],
) -> Result<List, AllocError>
    ensures { IfOk result (Finds (found_line mon.now.places
        mon.now.session.current.regs.pc counting file) all.now) }
{
    let mut list = new_list(alloc);
    for wanted in all {
        push_line(alloc, &mut list, mon, counting, file, wanted)?;
    }
    Ok(list)
}

/// Looks for the breakpoints at addresses that a client wants.
fn addresses_wanted(
    alloc: Global,
    mon: &MonState,
    all: &[InstructionBreakpoint],
) -> Result<List, AllocError>
    ensures { IfOk result
        (Finds (found_address mon.now.places mon.now.session.current.regs.pc) all.now) }
{
    let mut list = new_list(alloc);
    for wanted in all {
        push_address(alloc, &mut list, mon, wanted)?;
    }
    Ok(list)
}

/// Looks for the breakpoints at names that a client wants.
fn names_wanted(
    alloc: Global,
    mon: &MonState,
    all: &[FunctionBreakpoint],
) -> Result<List, AllocError>
    ensures { IfOk result
        (Finds (found_name mon.now.places mon.now.session.current.regs.pc) all.now) }
{
    let mut list = new_list(alloc);
    for wanted in all {
        push_name(alloc, &mut list, mon, wanted)?;
    }
    Ok(list)
}

/// Returns the number of a line as the client counts lines, if there is a line.
fn shown(counting: Counting, line: Option<u32>) -> Option<u64>
    ensures { result ≡ option_map (shown_line counting) line }
{
    match line {
        Some(line) => Some(counting.shown_line(line)),
        None => None,
    }
}

/// Returns whether a session has a breakpoint at each of some addresses.
fn are_breaks(session: &Session, addresses: &[u16]) -> bool
    ensures { result ≡ are_breaks session.now addresses.now }
{
    for address in addresses {
        if !is_break(session, *address) {
            return false;
        }
    }
    true
}

/// Returns the first of some addresses, if there is one.
fn first_of(addresses: &[u16]) -> Option<u16>
    ensures { result ≡ slice_get addresses.now 0 }
{
    match addresses.get(0) {
        Some(address) => Some(*address),
        None => None,
    }
}

/// Returns what is answered of a breakpoint of a number that stands at some addresses: whether it
/// is set, if there is one.
fn answer_at(
    alloc: Global,
    session: &Session,
    id: u64,
    line: Option<u64>,
    words: &str,
    addresses: &[u16],
) -> Result<Item, AllocError>
    ensures { IfOk result (λ v. item_view v ≡ answer_by session.now id line words.now
        addresses.now (slice_get addresses.now 0)) }
{
    match first_of(addresses) {
        Some(address) => {
            if are_breaks(session, addresses) {
                Ok(Item::BreakpointSet { id, address, line })
            } else {
                breakpoint_unset(alloc, id, line, NO_ROOM)
            }
        }
        None => breakpoint_unset(alloc, id, line, words),
    }
}

/// Returns what is answered of a breakpoint of a number.
fn answer(
    alloc: Global,
    session: &Session,
    counting: Counting,
    id: u64,
    wanted: &Wanted,
) -> Result<Item, AllocError>
    ensures { IfOk result (λ v. item_view v ≡ answer_of session.now counting id wanted.now) }
{
    let line = shown(counting, wanted.line);
    let addresses = wanted.addresses.as_slice();
    answer_at(alloc, session, id, line, wanted.words.as_str(), addresses)
}

/// Returns what is answered of breakpoints, of which the first has this number.
fn answers(
    alloc: Global,
    session: &Session,
    counting: Counting,
    first: u64,
    told: &[Wanted],
) -> Result<Answer, AllocError>
    ensures { IfOk result (λ v. answer_view v
        ≡ breakpoints_body (answers_of session.now counting first told.now)) }
{
    let mut list = ItemList::new(alloc);
    let mut id = first;
    for wanted in told {
        list = list.with(answer(alloc, session, counting, id, wanted));
        id = next_number(id);
    }
    breakpoints_body(list)
}

/// Appends where a breakpoint stands: each of its addresses.
fn push_placed(
    placed: &mut Vec<Placed>,
    file: Option<usize>,
    id: u64,
    addresses: &[u16],
) -> Result<(), AllocError>
    ensures { OnOk result
        (placed.new.items ≡ placed.old.items ++ placed_at file id addresses.now) }
{
    for address in addresses {
        placed.push(Placed {
            id,
            address: *address,
            file,
        })?;
    }
    Ok(())
}

/// Returns where those of some breakpoints stand that stand somewhere, and of which file they are
/// lines, if they are lines. The first has this number.
fn placed_of(
    alloc: Global,
    file: Option<usize>,
    first: u64,
    told: &[Wanted],
) -> Result<Vec<Placed>, AllocError>
    ensures { IfOk result (λ placed. placed.items ≡ placed_of file first told.now) }
{
    let mut placed = Vec::new(alloc);
    let mut id = first;
    for wanted in told {
        push_placed(&mut placed, file, id, wanted.addresses.as_slice())?;
        id = next_number(id);
    }
    Ok(placed)
}

/// Sets the breakpoints of a list, of which the first has this number, in place of those that are
/// held, and returns what is answered.
fn set_list(
    alloc: Global,
    mon: &mut MonState,
    held: &mut Vec<Placed>,
    counting: Counting,
    file: Option<usize>,
    first: u64,
    list: List,
) -> Result<Answer, AllocError>
    ensures place { OnOk result (place_of mon.new
        ≡ all_set list.stops.items (all_cleared held.old.items (place_of mon.old))) }
    ensures held { OnOk result (held.new.items ≡ placed_of file first list.told.items) }
    ensures kept { KeepsEvents mon.old mon.new }
    ensures answer { IfOk result (λ v. answer_view v
        ≡ breakpoints_body (answers_of mon.new.session counting first list.told.items)) }
{
    let List { told, stops } = list;
    let placed = placed_of(alloc, file, first, told.as_slice())?;
    replace(mon, held.as_slice(), stops)?;
    *held = placed;
    answers(alloc, &mon.session, counting, first, told.as_slice())
}

/// Returns whether a breakpoint that is listed so is at a line of a file.
fn is_of(file: usize, other: Option<usize>) -> bool
    ensures { result ≡ is_of file other }
{
    match other {
        Some(other) => other == file,
        None => false,
    }
}

/// Returns whether a breakpoint is at a line of a file, or is not, as is asked.
fn is_in(placed: Placed, file: usize, inside: bool) -> bool
    ensures { result ≡ is_in inside file placed }
{
    if inside {
        is_of(file, placed.file)
    } else {
        !is_of(file, placed.file)
    }
}

/// Appends a breakpoint, if it is to be.
fn push_if(list: &mut Vec<Placed>, placed: Placed, is_one: bool) -> Result<(), AllocError>
    ensures { OnOk result (list.new.items
        ≡ list.old.items ++ (if is_one then placed ∷ [] else [])) }
{
    if is_one {
        list.push(placed)?;
    }
    Ok(())
}

/// Returns those of some breakpoints that are at lines of a file, or those that are not, as is
/// asked.
fn placed_in(
    alloc: Global,
    placed: &[Placed],
    file: usize,
    inside: bool,
) -> Result<Vec<Placed>, AllocError>
    ensures { IfOk result (λ list. list.items ≡ placed_in inside file placed.now) }
{
    let mut list = Vec::new(alloc);
    for one in placed {
        push_if(&mut list, *one, is_in(*one, file, inside))?;
    }
    Ok(list)
}

/// Sets the breakpoints of a file that a client wants, in place of those before at its lines, and
/// returns what is answered.
///
/// Errors: `AllocError` if an allocation fails; the old ones are cleared then, and some of the new
/// ones may be set.
pub fn set_lines(
    alloc: Global,
    mon: &mut MonState,
    listed: &mut Listed,
    counting: Counting,
    wanted: FileLines,
) -> Result<Answer, AllocError>
    ensures sets { IfOk result (λ v. SetsLines counting wanted listed.old.lines.items
        listed.new.lines.items mon.old mon.new (answer_view v)) }
    ensures kept { KeepsEvents mon.old mon.new }
    ensures addresses { listed.new.addresses ≡ listed.old.addresses }
    ensures functions { listed.new.functions ≡ listed.old.functions }
    ensures held { OnOk result (HoldsLines wanted listed.old listed.new) }
{
    let file = wanted.file;
    let first = wanted.lines.first;
    let list = lines_wanted(alloc, mon, counting, file, wanted.lines.list.as_slice())?;
    let mut held = placed_in(alloc, listed.lines.as_slice(), file, true)?;
    let mut lines = placed_in(alloc, listed.lines.as_slice(), file, false)?;
    listed.last_lines.push(wanted)?;
    let answer = set_list(alloc, mon, &mut held, counting, Some(file), first, list)?;
    lines.extend_from_slice(held.as_slice())?;
    listed.lines = lines;
    Ok(answer)
}

/// Sets the breakpoints at addresses that a client wants, in place of those before, and returns
/// what is answered.
///
/// Errors: `AllocError` if an allocation fails; the old ones are cleared then, and some of the new
/// ones may be set.
pub fn set_addresses(
    alloc: Global,
    mon: &mut MonState,
    listed: &mut Listed,
    counting: Counting,
    wanted: AddressList,
) -> Result<Answer, AllocError>
    ensures sets { IfOk result (λ v. SetsAddresses counting wanted
        listed.old.addresses.items listed.new.addresses.items mon.old mon.new (answer_view v)) }
    ensures kept { KeepsEvents mon.old mon.new }
    ensures lines { listed.new.lines ≡ listed.old.lines }
    ensures functions { listed.new.functions ≡ listed.old.functions }
    ensures held { OnOk result (HoldsAddresses wanted listed.old listed.new) }
{
    let first = wanted.first;
    let list = addresses_wanted(alloc, mon, wanted.list.as_slice())?;
    listed.last_addresses = Some(wanted);
    set_list(
        alloc,
        mon,
        &mut listed.addresses,
        counting,
        None,
        first,
        list,
    )
}

/// Sets the breakpoints at names that a client wants, in place of those before, and returns what is
/// answered.
///
/// Errors: `AllocError` if an allocation fails; the old ones are cleared then, and some of the new
/// ones may be set.
pub fn set_functions(
    alloc: Global,
    mon: &mut MonState,
    listed: &mut Listed,
    counting: Counting,
    wanted: FunctionList,
) -> Result<Answer, AllocError>
    ensures sets { IfOk result (λ v. SetsFunctions counting wanted
        listed.old.functions.items listed.new.functions.items mon.old mon.new (answer_view v)) }
    ensures kept { KeepsEvents mon.old mon.new }
    ensures lines { listed.new.lines ≡ listed.old.lines }
    ensures addresses { listed.new.addresses ≡ listed.old.addresses }
    ensures held { OnOk result (HoldsFunctions wanted listed.old listed.new) }
{
    let first = wanted.first;
    let list = names_wanted(alloc, mon, wanted.list.as_slice())?;
    listed.last_functions = Some(wanted);
    set_list(
        alloc,
        mon,
        &mut listed.functions,
        counting,
        None,
        first,
        list,
    )
}

/// Returns what is answered of breakpoints of another source than that of the session.
fn none_set(alloc: Global, listed: &[SourceBreakpoint]) -> Result<Answer, AllocError>
    ensures { IfOk result
        (λ v. answer_view v ≡ breakpoints_body (each answer_elsewhere listed.now)) }
{
    let mut list = ItemList::new(alloc);
    for _ in listed {
        list = list.with(data_unwatched(alloc, OTHER_SOURCE));
    }
    breakpoints_body(list)
}

/// Sets the breakpoints that a client wants in the file with a path, in place of those before, if
/// the file is one of the source. Returns what is answered: of another file none is set.
///
/// Errors: as those of `set_lines`.
pub fn set_source<H: Files + AllocGlobal>(
    rt: &H,
    mon: &mut MonState,
    listed: &mut Listed,
    source: &Source<'_>,
    path: &str,
    wanted: LineList,
) -> Result<Answer, AllocError>
    ensures sets { IfOk result (λ v. SetsSource source.now.counting source.now.files.now path.now
        wanted listed.old listed.new mon.old mon.new (answer_view v)) }
    ensures kept { KeepsEvents mon.old mon.new }
    ensures addresses { listed.new.addresses ≡ listed.old.addresses }
    ensures functions { listed.new.functions ≡ listed.old.functions }
{
    let alloc = rt.alloc();
    match file_named(rt, source.files, path) {
        Some(file) => {
            let lines = FileLines {
                file,
                lines: wanted,
            };
            set_lines(alloc, mon, listed, source.counting, lines)
        }
        None => none_set(alloc, wanted.list.as_slice()),
    }
}
