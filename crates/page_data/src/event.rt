//! The records of the events of a session.

ghost use Rattle.std.specs.Prelude.{◌≡◌, ◌<◌, ◌≤◌, ◌++◌, OnOk, false, length, true};
ghost use Rattle.model.specs.State.{State};
ghost use Rattle.page_data.specs.Changes.{Tells};
ghost use Rattle.page_data.specs.Events.{IsBefore, change_told};
ghost use Rattle.page_data.specs.Events.{handed_by, is_reset, is_step, led_by, patched_by};
ghost use Rattle.page_data.specs.Events.{patched_from};
ghost use Rattle.page_data.specs.Format.{bytes_of, counted, eight, head, is_any};
ghost use Rattle.model.specs.declared.event.Event.{Event};

use crate::ahead::{Cells, cells_of, look_ahead};
use crate::step::{eight, flipped, push_cells, push_counted, push_eight, push_step, signals};
use accesses::Addresses;
use debugger::Session;
use model::{Event, Regs};
use std::alloc::{AllocError, Global};

/// What is known of a state before an event that is no step.
#[derive(Drop)]
pub struct Before {
    regs: Regs,
    cycles: u64,
    control: bool,
    /// The level of the IRQ line.
    irq: bool,
    /// Whether an NMI is pending.
    nmi: bool,
    /// Where the event may put bytes, with those that are there.
    cells: Cells,
}

/// Returns whether an event is a step.
fn is_step(event: Event) -> bool
    ensures { result ≡ is_step event }
{
    match event {
        Event::Step => true,
        Event::Reset | Event::Irq(_) | Event::Nmi => false,
        Event::Set(_) | Event::Patch { .. } | Event::Input(_) => false,
    }
}

/// Returns whether an event is a reset.
fn is_reset(event: Event) -> bool
    ensures { result ≡ is_reset event }
{
    match event {
        Event::Reset => true,
        Event::Step | Event::Irq(_) | Event::Nmi => false,
        Event::Set(_) | Event::Patch { .. } | Event::Input(_) => false,
    }
}

/// Returns where a patch of so many bytes puts them. More than three are rejected.
fn patched_from(address: u16, count: u8) -> Addresses
    ensures { result.items ≡ patched_from address count }
{
    let mut addresses = Addresses::new();
    if count > 3 {
        return addresses;
    }
    let all = [address, address.wrapping_add(1), address.wrapping_add(2)];
    let _ = addresses.try_extend_from_slice(&all[..count as usize]);
    addresses
}

/// Returns where an event puts bytes.
fn patched_by(event: Event) -> Addresses
    ensures { result.items ≡ patched_by event }
{
    match event {
        Event::Patch { address, count, .. } => patched_from(address, count),
        Event::Step | Event::Reset | Event::Irq(_) => Addresses::new(),
        Event::Nmi | Event::Set(_) | Event::Input(_) => Addresses::new(),
    }
}

/// Returns what is known of a state before an event.
fn look_before(session: &Session, event: Event) -> Before
    ensures known { IsBefore result event session.now.current }
    ensures few { length result.cells.items ≤ 3 }
{
    Before {
        regs: session.regs(),
        cycles: session.cycles(),
        control: session.bus().control(),
        irq: session.irq(),
        nmi: session.nmi_is_pending(),
        cells: cells_of(session, &patched_by(event)),
    }
}

/// Appends the byte of input that an event hands in, with its count before it.
fn push_handed(written: &mut Vec<u8>, event: Event) -> Result<(), AllocError>
    ensures { OnOk result (written.new.items ≡ written.old.items ++ counted (handed_by event)) }
{
    match event {
        Event::Input(byte) => push_counted(written, &[byte]),
        Event::Step | Event::Reset | Event::Irq(_) => Ok(()),
        Event::Nmi | Event::Set(_) | Event::Patch { .. } => Ok(()),
    }
}

/// Returns whether an event hands in a byte of input.
fn hands_in(event: Event) -> bool
    ensures { result ≡ is_any (handed_by event) }
{
    match event {
        Event::Input(_) => true,
        Event::Step | Event::Reset | Event::Irq(_) => false,
        Event::Nmi | Event::Set(_) | Event::Patch { .. } => false,
    }
}

/// Returns the first byte of the record of an event.
#[tactic(auto, unfolding(crate::specs::Events::change_told))]
fn event_head(before: &Before, session: &Session) -> u8
    requires { length before.now.cells.items ≤ 3 }
    ensures { (event : Event) → result ≡ head (change_told event before.now session.now.current) }
{
    let cycles = session.cycles().saturating_sub(before.cycles);
    (cycles % 16) as u8 + 64 * before.cells.len() as u8
}

/// Returns the eight bytes of the record of an event.
#[tactic(auto, unfolding(crate::specs::Events::change_told))]
fn event_changed(event: Event, before: &Before, session: &Session) -> [u8; 8]
    ensures { result ≡ eight (change_told event before.now session.now.current) }
{
    let signals = signals(
        false,
        false,
        flipped(before.control, session.bus().control()),
        flipped(before.irq, session.irq()),
        flipped(before.nmi, session.nmi_is_pending()),
        hands_in(event),
        is_reset(event),
    );
    eight(before.regs, session.regs(), signals)
}

/// Appends the record of an event that is no step. The session is in the state after it.
fn push_event(
    written: &mut Vec<u8>,
    event: Event,
    before: &Before,
    session: &Session,
) -> Result<(), AllocError>
    requires { length before.now.cells.items ≤ 3 }
    ensures { OnOk result (written.new.items ≡ written.old.items
        ++ bytes_of (change_told event before.now session.now.current)) }
{
    written.push(event_head(before, session))?;
    push_eight(written, event_changed(event, before, session))?;
    push_cells(written, before.cells.as_slice(), session)?;
    push_handed(written, event)
}

/// Makes an event that is no step, and appends its record if it is accepted.
fn record_other(
    written: &mut Vec<u8>,
    session: &mut Session,
    event: Event,
) -> Result<(), AllocError>
    requires { is_step event ≡ false }
    ensures led { session.new ≡ led_by event session.old }
    ensures told { OnOk result ((start : State)
        → length session.old.earlier < session.old.history
        → Tells start written.old.items session.old.earlier session.old.current
        → Tells start written.new.items session.new.earlier session.new.current) }
{
    let before = look_before(session, event);
    match session.event(event) {
        Ok(()) => push_event(written, event, &before, session),
        Err(_) => Ok(()),
    }
}

/// Makes a step, and appends its record if it is accepted.
fn record_step(
    alloc: Global,
    written: &mut Vec<u8>,
    session: &mut Session,
    event: Event,
) -> Result<(), AllocError>
    requires { is_step event ≡ true }
    ensures led { session.new ≡ led_by event session.old }
    ensures told { OnOk result ((start : State)
        → length session.old.earlier < session.old.history
        → Tells start written.old.items session.old.earlier session.old.current
        → Tells start written.new.items session.new.earlier session.new.current) }
{
    // For the proof: that the registers and the memory are in range.
    session.is_state();
    let ahead = look_ahead(session);
    match session.event(event) {
        Ok(()) => push_step(alloc, written, &ahead, &[], session),
        Err(_) => Ok(()),
    }
}

/// Makes an event, and appends its record if it is accepted.
///
/// Errors: `AllocError` if an allocation fails; the event is made all the same.
pub fn record_event(
    alloc: Global,
    written: &mut Vec<u8>,
    session: &mut Session,
    event: Event,
) -> Result<(), AllocError>
    ensures led { session.new ≡ led_by event session.old }
    // If the records told of all states that the session holds, they tell of them then, as long as
    // the session drops none: decoded, they lead from the start through these states, and back.
    ensures told { OnOk result ((start : State)
        → length session.old.earlier < session.old.history
        → Tells start written.old.items session.old.earlier session.old.current
        → Tells start written.new.items session.new.earlier session.new.current) }
{
    if is_step(event) {
        return record_step(alloc, written, session, event);
    }
    record_other(written, session, event)
}
