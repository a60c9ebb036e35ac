//! Why a row has failed.

ghost use Rattle.std.specs.Prelude.{◌≡◌, ◌≤◌, ◌++◌, ◌&&◌, [], IfOk, None, OnOk, Some, codes};
ghost use Rattle.std.specs.Prelude.{false, length, map, string_bytes, true};
ghost use Rattle.std.specs.List.{flat_map, list_all};
ghost use Rattle.model.specs.State.{State};
ghost use Rattle.t65_reader.specs.RowText.{call_view};
ghost use Rattle.t65_runner.specs.Passes.{called, given_all, item_holds, passed, passed_given};
ghost use Rattle.t65_runner.specs.Passes.{rows_seen};
ghost use Rattle.t65_failures.specs.Failures.{arrival_by, called_text, came_text};
ghost use Rattle.t65_failures.specs.Failures.{detail_text, drawn_item, drawn_line};
ghost use Rattle.t65_failures.specs.Failures.{drawn_text, request_text, step_count};
ghost use Rattle.t65_failures.specs.Failures.{end_text, ending_by, expected_text, fault_text};
ghost use Rattle.t65_failures.specs.Failures.{further_text, hint_of, hint_text, is_back, miss_text};
ghost use Rattle.t65_failures.specs.Failures.{no_return_text, other_stack_text, part_text};
ghost use Rattle.t65_failures.specs.Failures.{refusal_text, refused_text, told_in, told_text};
ghost use Rattle.t65_failures.specs.Failures.{unlike_text, untaken_text, values_text};
ghost use Rattle.t65_failures.specs.Texts.{named_count, number_text, place_text};

use crate::steps::{push_call_steps, signal_name};
use crate::texts::{
    push_named_address, push_named_byte, push_named_count, push_number, push_place, push_relation,
    push_value,
};
use crate::wording::{
    CALLED_WITH, CAME, CAME_BEFORE, CANNOT_BE_GIVEN, DECIMAL_HINT, EXPECTED, FOR, HAS_COME,
    HEX_HINT, IN_SETUP, IN_TEARDOWN, NO_RETURN, NO_SIGNAL, NOTHING_CAME, RETURNED_WITH, STOPPED,
    THEN_AT, WITH,
};
use bus::{Image, MapSpec};
use debugger::{EventFault, Regs, Session, Why};
use source_map::Places;
use std::alloc::{AllocError, Global};
use t65_reader::{Call, Item, Part, Range, Ranges, Request, Row, Signal, Target};
use t65_runner::{
    CallEnd, CallStart, HISTORY, Values, all_hold, call_start, came, compares, given_one,
    number_of, random_byte, run_called,
};
use t65_values::Atom;

/// The machine that rows run on, and the places of its source.
#[derive(Clone, Copy)]
pub struct Bench<'a> {
    pub map: MapSpec,
    pub image: &'a Image,
    pub places: &'a Places,
}

/// Where a called routine returns to.
const RETURN_ADDRESS: u16 = 0xffff;

/// Appends the value of a further range, if there is one.
fn push_further(text: &mut String, range: Option<Range>, value: u32) -> Result<(), AllocError>
    ensures { OnOk result (string_bytes text.new
        ≡ string_bytes text.old ++ further_text range value) }
{
    match range {
        Some(range) => {
            text.push(' ')?;
            push_value(text, range, value)
        }
        None => Ok(()),
    }
}

/// Appends the values of the ranges for which a test has failed.
fn push_values(text: &mut String, ranges: Ranges, values: Values) -> Result<(), AllocError>
    ensures { OnOk result (string_bytes text.new
        ≡ string_bytes text.old ++ values_text ranges values) }
{
    let Some(first) = ranges.first else {
        return Ok(());
    };
    text.push_str(FOR)?;
    push_value(text, first, values.first)?;
    push_further(text, ranges.second, values.second)?;
    push_further(text, ranges.third, values.third)?;
    push_further(text, ranges.fourth, values.fourth)?;
    text.push('\n')
}

/// Appends a line's number behind words, and a line's end.
fn push_numbered(text: &mut String, words: &str, line: u32) -> Result<(), AllocError>
    ensures { OnOk result (string_bytes text.new
        ≡ string_bytes text.old ++ (named_count words.now line ++ codes "\n")) }
{
    push_named_count(text, words, line as u64)?;
    text.push('\n')
}

/// Appends the line of a row that is run before or after a test.
fn push_part(text: &mut String, part: Part, line: u32) -> Result<(), AllocError>
    ensures { OnOk result (string_bytes text.new
        ≡ string_bytes text.old ++ part_text part line) }
{
    match part {
        Part::Test => Ok(()),
        Part::Setup => push_numbered(text, IN_SETUP, line),
        Part::Teardown => push_numbered(text, IN_TEARDOWN, line),
    }
}

/// Appends a number that was given to a place.
fn push_gift(text: &mut String, place: Target, number: u32) -> Result<(), AllocError>
    ensures { OnOk result (string_bytes text.new ≡ string_bytes text.old
        ++ (codes " " ++ place_text place ++ codes "=" ++ number_text place number)) }
{
    text.push(' ')?;
    push_place(text, place)?;
    text.push('=')?;
    push_number(text, place, number as u64)
}

/// Appends the random byte of an item that was given, if it is one.
fn push_drawn_item(text: &mut String, values: Values, item: Item) -> Result<(), AllocError>
    ensures { OnOk result (string_bytes text.new
        ≡ string_bytes text.old ++ drawn_item values item) }
{
    match item.value.first {
        Atom::Random(at) => push_gift(text, item.place, random_byte(values.number, at)),
        _ => Ok(()),
    }
}

/// Appends the random bytes of items that were given.
fn push_drawn_items(text: &mut String, values: Values, items: &[Item]) -> Result<(), AllocError>
    ensures { OnOk result (string_bytes text.new
        ≡ string_bytes text.old ++ flat_map (drawn_item values) items.now) }
{
    for item in items {
        push_drawn_item(text, values, *item)?;
    }
    Ok(())
}

/// Appends a line with random bytes, if there are any.
fn push_drawn_line(text: &mut String, drawn: &str) -> Result<(), AllocError>
    ensures { OnOk result (string_bytes text.new
        ≡ string_bytes text.old ++ drawn_line drawn.now) }
{
    if drawn.len() == 0 {
        return Ok(());
    }
    text.push_str(WITH)?;
    text.push_str(drawn)?;
    text.push('\n')
}

/// Appends the random bytes that were given, if there are any.
fn push_drawn(
    alloc: Global,
    text: &mut String,
    values: Values,
    items: &[Item],
) -> Result<(), AllocError>
    ensures { OnOk result (string_bytes text.new
        ≡ string_bytes text.old ++ drawn_text values items.now) }
{
    let mut drawn = String::new(alloc);
    push_drawn_items(&mut drawn, values, items)?;
    push_drawn_line(text, &drawn)
}

/// Returns what is said of a row that fails for values of the test's ranges.
fn about_of(
    alloc: Global,
    ranges: Ranges,
    values: Values,
    line: u32,
    row: &Row,
) -> Result<String, AllocError>
    ensures { IfOk result (λ text. string_bytes text ≡ part_text row.now.part line
        ++ values_text ranges values ++ drawn_text values row.now.call.given.items) }
{
    let mut text = String::new(alloc);
    push_part(&mut text, row.part, line)?;
    push_values(&mut text, ranges, values)?;
    push_drawn(alloc, &mut text, values, &row.call.given)?;
    Ok(text)
}

/// Appends a number as hex and as decimal.
#[tactic(auto, unfolding(crate::specs::Failures::hint_of))]
fn push_both(text: &mut String, number: u32) -> Result<(), AllocError>
    ensures { OnOk result (string_bytes text.new ≡ string_bytes text.old ++ hint_of number) }
{
    write!(text, " ({number:02X}{}{number}{}", HEX_HINT, DECIMAL_HINT)
}

/// Appends a hint, where a number is larger than a byte.
fn push_hint(text: &mut String, number: u32) -> Result<(), AllocError>
    ensures { OnOk result (string_bytes text.new ≡ string_bytes text.old ++ hint_text number) }
{
    if number > 255 {
        push_both(text, number)
    } else {
        Ok(())
    }
}

/// Appends what was to be given and cannot be.
fn push_untaken(text: &mut String, item: Item, number: u32) -> Result<(), AllocError>
    ensures { OnOk result (string_bytes text.new
        ≡ string_bytes text.old ++ untaken_text item number) }
{
    push_place(text, item.place)?;
    text.push_str(CANNOT_BE_GIVEN)?;
    push_number(text, item.place, number as u64)?;
    push_hint(text, number)?;
    text.push('\n')
}

/// Appends what was to be given and cannot be, and what is said of its row.
fn push_refusal(text: &mut String, about: &str, item: Item, number: u32) -> Result<(), AllocError>
    ensures { OnOk result (string_bytes text.new ≡ string_bytes text.old
        ++ (untaken_text item number ++ about.now)) }
{
    push_untaken(text, item, number)?;
    text.push_str(about)
}

/// Returns whether a call has returned with the stack pointer that it was called with.
fn is_back(stack: u8, why: Why, regs: Regs) -> bool
    ensures { result ≡ is_back stack why regs }
{
    match why {
        Why::Break(address) => address == RETURN_ADDRESS && regs.s == stack,
        Why::Limit => false,
        Why::Watch(_) => false,
        Why::Refused(_) => false,
    }
}

/// Appends that a call has returned with another stack pointer than it was called with.
fn push_other_stack(text: &mut String, stack: u8, regs: Regs) -> Result<(), AllocError>
    ensures { OnOk result (string_bytes text.new
        ≡ string_bytes text.old ++ other_stack_text stack regs) }
{
    push_named_byte(text, RETURNED_WITH, regs.s)?;
    push_named_byte(text, CALLED_WITH, stack)?;
    text.push_str("\n")?;
    Ok(())
}

/// Appends that a call has not returned in so many steps.
fn push_no_return(text: &mut String, did: u64, regs: Regs) -> Result<(), AllocError>
    ensures { OnOk result (string_bytes text.new
        ≡ string_bytes text.old ++ no_return_text did regs) }
{
    push_named_count(text, NO_RETURN, did)?;
    push_named_address(text, THEN_AT, regs.pc)?;
    text.push_str("\n")?;
    Ok(())
}

/// Appends the name and the number of a fault.
fn push_fault(text: &mut String, fault: EventFault) -> Result<(), AllocError>
    ensures { OnOk result (string_bytes text.new ≡ string_bytes text.old ++ fault_text fault) }
{
    let (name, number) = (fault.name(), fault.number());
    writeln!(text, ": {name} {number}")
}

/// Appends where a step was rejected, and why.
fn push_refused(text: &mut String, fault: EventFault, regs: Regs) -> Result<(), AllocError>
    ensures { OnOk result (string_bytes text.new
        ≡ string_bytes text.old ++ refused_text fault regs) }
{
    push_named_address(text, STOPPED, regs.pc)?;
    push_fault(text, fault)
}

/// Appends how a call of so many steps has ended, if it is not back with the stack pointer that it
/// was called with.
fn push_ending(
    text: &mut String,
    stack: u8,
    did: u64,
    why: Why,
    regs: Regs,
) -> Result<(), AllocError>
    ensures { OnOk result (string_bytes text.new
        ≡ string_bytes text.old ++ ending_by stack did regs why) }
{
    match why {
        Why::Break(address) => {
            if address != RETURN_ADDRESS {
                push_no_return(text, did, regs)
            } else if regs.s == stack {
                Ok(())
            } else {
                push_other_stack(text, stack, regs)
            }
        }
        Why::Refused(fault) => push_refused(text, fault, regs),
        Why::Limit => push_no_return(text, did, regs),
        Why::Watch(_) => push_no_return(text, did, regs),
    }
}

/// Returns how many steps a call has made: those before an interrupt, its entry, and those after.
fn step_count(end: CallEnd) -> u64
    ensures { result ≡ step_count end }
{
    let did = end.end.did as u64;
    match end.before {
        None => did,
        Some(before) => before as u64 + 1 + did,
    }
}

/// Appends before which step of a call an interrupt came.
fn push_arrival(text: &mut String, signal: Signal, before: u32) -> Result<(), AllocError>
    ensures { OnOk result (string_bytes text.new
        ≡ string_bytes text.old ++ arrival_by signal (Some before)) }
{
    let (name, number) = (signal_name(signal), before as u64 + 1);
    writeln!(text, "{name}{}{number}", CAME_BEFORE)
}

/// Appends that an interrupt has not come into a call.
fn push_no_arrival(text: &mut String, signal: Signal) -> Result<(), AllocError>
    ensures { OnOk result (string_bytes text.new
        ≡ string_bytes text.old ++ arrival_by signal None) }
{
    let name = signal_name(signal);
    write!(text, "{}{name}{}", NO_SIGNAL, HAS_COME)
}

/// Appends before which step of a call the interrupt came that was asked for, or that none came.
fn push_request(
    text: &mut String,
    request: Option<Request>,
    before: Option<u32>,
) -> Result<(), AllocError>
    ensures { OnOk result (string_bytes text.new
        ≡ string_bytes text.old ++ request_text request before) }
{
    let Some(request) = request else {
        return Ok(());
    };
    match before {
        Some(before) => push_arrival(text, request.signal, before),
        None => push_no_arrival(text, request.signal),
    }
}

/// Appends what came in a place.
fn push_came(text: &mut String, place: Target, found: Option<u64>) -> Result<(), AllocError>
    ensures { OnOk result (string_bytes text.new
        ≡ string_bytes text.old ++ came_text place found) }
{
    match found {
        Some(number) => {
            text.push_str(CAME)?;
            push_number(text, place, number)
        }
        None => text.push_str(NOTHING_CAME),
    }
}

/// Appends what was expected of an item, and what came.
fn push_expected(
    text: &mut String,
    item: Item,
    wanted: u32,
    found: Option<u64>,
) -> Result<(), AllocError>
    ensures { OnOk result (string_bytes text.new
        ≡ string_bytes text.old ++ expected_text item wanted found) }
{
    text.push_str(EXPECTED)?;
    push_place(text, item.place)?;
    push_relation(text, item.relation)?;
    push_number(text, item.place, wanted as u64)?;
    push_came(text, item.place, found)?;
    text.push_str("\n")?;
    Ok(())
}

/// Appends what was expected of an item and what came, if it is not what was expected.
#[tactic(auto, unfolding(crate::specs::Failures::unlike_text))]
fn push_unlike(
    text: &mut String,
    item: Item,
    wanted: u32,
    found: Option<u64>,
) -> Result<(), AllocError>
    ensures { OnOk result (string_bytes text.new
        ≡ string_bytes text.old ++ unlike_text item wanted found) }
{
    match found {
        Some(number) => {
            if compares(item.relation, number, wanted) {
                Ok(())
            } else {
                push_expected(text, item, wanted, found)
            }
        }
        None => push_expected(text, item, wanted, found),
    }
}

/// Appends what was expected in a place and what came, if it is not what was expected.
fn push_miss(
    text: &mut String,
    session: &Session,
    before: CallStart,
    values: Values,
    item: Item,
) -> Result<(), AllocError>
    requires { before.output_count ≤ 65536 }
    ensures { (state : State) → before.output_count ≡ length state.bus.out
        → before.cycles ≡ state.cycles
        → OnOk result (string_bytes text.new ≡ string_bytes text.old
        ++ miss_text values state session.now.current item) }
{
    let wanted = number_of(session, values, item.value);
    let found = came(session, before, item.place);
    push_unlike(text, item, wanted, found)
}

/// Appends what a call has left otherwise than it was expected.
fn push_misses(
    text: &mut String,
    session: &Session,
    before: CallStart,
    values: Values,
    items: &[Item],
) -> Result<(), AllocError>
    requires { before.output_count ≤ 65536 }
    ensures { (state : State) → before.output_count ≡ length state.bus.out
        → before.cycles ≡ state.cycles
        → OnOk result (string_bytes text.new ≡ string_bytes text.old
        ++ flat_map (miss_text values state session.now.current) items.now) }
{
    for item in items {
        push_miss(text, session, before, values, *item)?;
    }
    Ok(())
}

/// Appends how a call has ended, and what it has left otherwise than it was expected.
#[tactic(auto, unfolding(crate::specs::Failures::end_text))]
fn push_end(
    text: &mut String,
    session: &Session,
    before: CallStart,
    values: Values,
    wanted: &[Item],
    end: CallEnd,
) -> Result<(), AllocError>
    requires { before.output_count ≤ 65536 }
    ensures { (state : State) → before.output_count ≡ length state.bus.out
        → before.cycles ≡ state.cycles → before.stack ≡ state.regs.s
        → OnOk result (string_bytes text.new ≡ string_bytes text.old
        ++ end_text values wanted.now state end session.now.current) }
{
    let regs = session.regs();
    push_ending(text, before.stack, step_count(end), end.end.why, regs)?;
    if is_back(before.stack, end.end.why, regs) {
        push_misses(text, session, before, values, wanted)
    } else {
        Ok(())
    }
}

/// Returns whether a call is back, and all that is wanted holds.
fn passes(
    session: &Session,
    before: CallStart,
    values: Values,
    wanted: &[Item],
    end: CallEnd,
) -> bool
    requires { before.output_count ≤ 65536 }
    ensures { (state : State) → before.output_count ≡ length state.bus.out
        → before.cycles ≡ state.cycles → before.stack ≡ state.regs.s
        → result ≡ (is_back state.regs.s end.end.why session.now.current.regs
        && list_all (item_holds values state session.now.current) wanted.now) }
{
    is_back(before.stack, end.end.why, session.regs()) && all_hold(session, before, values, wanted)
}

/// Makes a call, and returns whether it passes. Where it fails, appends what it has left, what is
/// said of its row, and its last steps.
fn push_called(
    text: &mut String,
    session: &mut Session,
    places: &Places,
    about: &str,
    values: Values,
    call: &Call,
) -> Result<bool, AllocError>
    requires { session.old.breaks ≡ [] }
    ensures same { IfOk result (λ passes. passes ≡ true → text.new ≡ text.old) }
    ensures passes { IfOk result (λ passes. passes ≡ true
        → passed_given values (call_view call.now) session.old ≡ Some session.new) }
    ensures fails { IfOk result (λ passes. passes ≡ false
        → passed_given values (call_view call.now) session.old ≡ None) }
    ensures told { IfOk result (λ passes. passes ≡ false → string_bytes text.new
        ≡ string_bytes text.old ++ called_text places.now about.now values (call_view call.now)
        session.old (called values (call_view call.now) session.old)) }
    ensures stops { IfOk result (λ passes. passes ≡ true → session.new.breaks ≡ []) }
{
    let before = call_start(session);
    let end = run_called(session, call, values)?;
    if passes(session, before, values, &call.wanted, end) {
        return Ok(true);
    }
    push_end(text, session, before, values, &call.wanted, end)?;
    text.push_str(about)?;
    push_request(text, call.request, end.before)?;
    push_call_steps(text, session, places, call.request, end)?;
    Ok(false)
}

/// Gives items one after another, and returns whether all are taken. Where one is not, appends
/// which, and what is said of its row.
fn push_given(
    text: &mut String,
    session: &mut Session,
    about: &str,
    values: Values,
    items: &[Item],
) -> Result<bool, AllocError>
    ensures same { IfOk result (λ taken. taken ≡ true → text.new ≡ text.old) }
    ensures taken { IfOk result (λ taken. taken ≡ true
        → given_all values items.now session.old ≡ Some session.new) }
    ensures refused { IfOk result (λ taken. taken ≡ false
        → given_all values items.now session.old ≡ None) }
    ensures told { IfOk result (λ taken. taken ≡ false → string_bytes text.new
        ≡ string_bytes text.old ++ refusal_text about.now values items.now session.old) }
    ensures stops { session.new.breaks ≡ session.old.breaks }
{
    for item in items {
        let number = number_of(session, values, item.value);
        if !given_one(session, values, *item) {
            push_refusal(text, about, *item, number)?;
            return Ok(false);
        }
    }
    Ok(true)
}

/// Makes the call of a row, and returns whether it passes. Where it fails, appends why.
#[tactic(auto, unfolding(t65_runner::specs::Passes::passed, crate::specs::Failures::told_text))]
fn push_call(
    text: &mut String,
    session: &mut Session,
    places: &Places,
    about: &str,
    values: Values,
    call: &Call,
) -> Result<bool, AllocError>
    requires { session.old.breaks ≡ [] }
    ensures same { IfOk result (λ passes. passes ≡ true → text.new ≡ text.old) }
    ensures passes { IfOk result (λ passes. passes ≡ true
        → passed values (call_view call.now) session.old ≡ Some session.new) }
    ensures fails { IfOk result (λ passes. passes ≡ false
        → passed values (call_view call.now) session.old ≡ None) }
    ensures told { IfOk result (λ passes. passes ≡ false → string_bytes text.new
        ≡ string_bytes text.old
        ++ told_text places.now about.now values (call_view call.now) session.old) }
    ensures stops { IfOk result (λ passes. passes ≡ true → session.new.breaks ≡ []) }
{
    if !push_given(text, session, about, values, &call.given)? {
        return Ok(false);
    }
    push_called(text, session, places, about, values, call)
}

/// Makes the calls of rows up to the first that fails, and appends why that fails.
fn push_calls(
    alloc: Global,
    text: &mut String,
    session: &mut Session,
    places: &Places,
    ranges: Ranges,
    values: Values,
    rows: &[&(u32, Row)],
) -> Result<(), AllocError>
    requires { session.old.breaks ≡ [] }
    ensures { OnOk result (string_bytes text.new ≡ string_bytes text.old
        ++ told_in places.now ranges values (rows_seen rows.now)
        session.old) }
{
    for row in rows {
        let about = about_of(alloc, ranges, values, row.0, &row.1)?;
        if !push_call(text, session, places, &about, values, &row.1.call)? {
            return Ok(());
        }
    }
    Ok(())
}

/// Returns why a test fails for values of its ranges, the rows before and after it among those
/// that are run: of the first that fails, what was expected and what came, or how its call has
/// ended, and its last steps. They run again on a machine of their own.
///
/// Errors: `AllocError` if an allocation fails.
pub fn detail_of(
    alloc: Global,
    bench: Bench<'_>,
    ranges: Ranges,
    rows: &[&(u32, Row)],
    values: Values,
) -> Result<String, AllocError>
    ensures { IfOk result (λ text. string_bytes text ≡ detail_text bench.entry.map
        bench.entry.image.now bench.entry.places.now ranges
        (rows_seen rows.now) values) }
{
    let Ok(mut session) = Session::new(alloc, bench.map, bench.image, HISTORY) else {
        return Err(AllocError);
    };
    let mut text = String::new(alloc);
    push_calls(
        alloc,
        &mut text,
        &mut session,
        bench.places,
        ranges,
        values,
        rows,
    )?;
    Ok(text)
}
