//! The record of a step.

ghost use Rattle.std.specs.Prelude.{◌≡◌, ◌<◌, ◌≤◌, ◌+◌, ◌*◌, ◌/◌, ◌%◌, ◌^◌, ◌++◌, ◌∷◌, []};
ghost use Rattle.std.specs.Prelude.{List, ℕ, Ok, OnErr, OnOk};
ghost use Rattle.std.specs.Prelude.{bit_xor, false, length, nat_lt, slice_get};
ghost use Rattle.std.specs.List.{flat_map};
ghost use Rattle.std.specs.Option.{option_to_list};
ghost use Rattle.model.specs.Effect.{status};
ghost use Rattle.model.specs.State.{IsState, State};
ghost use Rattle.model.specs.Step.{step};
ghost use Rattle.page_data.specs.Changes.{Tells, flipped};
ghost use Rattle.page_data.specs.Format.{bytes_of, cell, changes_in, counted, eight, head};
ghost use Rattle.page_data.specs.Format.{is_any, marks, signals_by, without_zeros, word};
ghost use Rattle.page_data.specs.Steps.{IsAhead, cells_after, change_by, change_from, change_of};
ghost use Rattle.page_data.specs.Steps.{read_by, stored_cells, with_input};

use crate::ahead::Ahead;
use crate::marks::{marks, push_marked};
use debugger::Session;
use model::Regs;
use std::alloc::{AllocError, Global};

/// Appends addresses, the low byte of each first.
fn push_words(written: &mut Vec<u8>, addresses: &[u16]) -> Result<(), AllocError>
    ensures { OnOk result (written.new.items ≡ written.old.items ++ flat_map word addresses.now) }
{
    for address in addresses {
        let low = (*address % 256) as u8;
        let high = (*address / 256) as u8;
        written.extend_from_slice(&[low, high])?;
    }
    Ok(())
}

/// Appends an address, and a byte.
fn push_cell(written: &mut Vec<u8>, address: u16, byte: u8) -> Result<(), AllocError>
    ensures { OnOk result (written.new.items ≡ written.old.items ++ cell (address, byte)) }
{
    let low = (address % 256) as u8;
    let high = (address / 256) as u8;
    written.extend_from_slice(&[low, high, byte])
}

/// Appends addresses, each with its old byte XOR the byte that is there now.
pub fn push_cells(
    written: &mut Vec<u8>,
    cells: &[(u16, u8)],
    session: &Session,
) -> Result<(), AllocError>
    ensures { OnOk result (written.new.items ≡ written.old.items
        ++ flat_map cell (cells_after session.now.current.bus.memory cells.now)) }
{
    for (address, byte) in cells {
        let change = *byte ^ session.peek(*address);
        push_cell(written, *address, change)?;
    }
    Ok(())
}

/// Appends bytes with their count before them, if there are any.
pub fn push_counted(written: &mut Vec<u8>, bytes: &[u8]) -> Result<(), AllocError>
    ensures { OnOk result (written.new.items ≡ written.old.items ++ counted bytes.now) }
{
    if bytes.is_empty() {
        return Ok(());
    }
    let count = bytes.len() as u64;
    written.extend_from_slice(&count.to_le_bytes())?;
    written.extend_from_slice(bytes)
}

/// Appends the byte that was put out, if one was.
fn push_out(written: &mut Vec<u8>, out: Option<u8>) -> Result<(), AllocError>
    ensures { OnOk result (written.new.items ≡ written.old.items ++ option_to_list out) }
{
    if let Some(byte) = out {
        written.push(byte)?;
    }
    Ok(())
}

/// Returns the second of two truth values, flipped if the first is true.
pub fn flipped(first: bool, second: bool) -> bool
    ensures { result ≡ flipped first second }
{
    if first { !second } else { second }
}

/// Returns the byte of the signals.
#[tactic(auto, unfolding(crate::specs::Format::signals_by))]
pub fn signals(
    out: bool,
    takes: bool,
    control: bool,
    irq: bool,
    nmi: bool,
    given: bool,
    entry: bool,
) -> u8
    ensures { result ≡ signals_by out takes control irq nmi given entry }
{
    let low = out as u8 + 2 * takes as u8 + 4 * control as u8 + 8 * irq as u8;
    let high = 16 * nmi as u8 + 32 * given as u8 + 64 * entry as u8;
    low + high
}

/// Returns what changed of the registers, old XOR new, and the signals.
pub fn eight(before: Regs, after: Regs, signals: u8) -> [u8; 8]
    ensures { result ≡ bit_xor before.a after.a ∷ bit_xor before.x after.x
        ∷ bit_xor before.y after.y ∷ bit_xor before.s after.s
        ∷ bit_xor (status false before.flags) (status false after.flags)
        ∷ bit_xor before.pc after.pc % 256 ∷ bit_xor before.pc after.pc / 256 ∷ signals ∷ [] }
{
    let pc = before.pc ^ after.pc;
    [
        before.a ^ after.a,
        before.x ^ after.x,
        before.y ^ after.y,
        before.s ^ after.s,
        before.flags.to_byte(false) ^ after.flags.to_byte(false),
        (pc % 256) as u8,
        (pc / 256) as u8,
        signals,
    ]
}

/// Appends the marks of eight bytes, and those that are not 0.
pub fn push_eight(written: &mut Vec<u8>, bytes: [u8; 8]) -> Result<(), AllocError>
    ensures { OnOk result (written.new.items ≡ written.old.items
        ++ marks bytes ∷ without_zeros bytes) }
{
    written.push(marks(bytes))?;
    push_marked(written, &bytes)
}

impl Ahead {
    /// Appends what the step has read.
    fn push_reads(&self, written: &mut Vec<u8>, is_entry: bool) -> Result<(), AllocError>
        ensures { OnOk result (written.new.items ≡ written.old.items
            ++ flat_map word (read_by is_entry self.now.moment.nmi self.now.reads.items)) }
    {
        if !is_entry {
            push_words(written, self.reads.as_slice())
        } else if self.moment.nmi {
            push_words(written, &[0xfffa, 0xfffb])
        } else {
            push_words(written, &[0xfffe, 0xffff])
        }
    }

    /// Returns how many addresses the step has read.
    fn read_count(&self, is_entry: bool) -> u8
        ensures value { result
            ≡ length (read_by is_entry self.now.moment.nmi self.now.reads.items) }
        ensures within { result ≤ 3 }
    {
        if is_entry { 2 } else { self.reads.len() as u8 }
    }

    /// Returns where the step has stored, with the old bytes.
    fn stored(&self, is_entry: bool) -> &[(u16, u8)]
        ensures value { result.now ≡ stored_cells is_entry self.now.pushes.items
            self.now.stores.items }
        ensures within { length result.now ≤ 3 }
    {
        if is_entry {
            self.pushes.as_slice()
        } else {
            self.stores.as_slice()
        }
    }
}

/// Returns whether a step has taken a byte of input.
fn takes(ahead: &Ahead, session: &Session) -> bool
    ensures { result ≡ nat_lt ahead.now.moment.taken session.now.current.bus.taken }
{
    ahead.moment.taken < session.bus().taken()
}

/// Returns whether a step has flipped the control byte.
fn flips_control(ahead: &Ahead, session: &Session) -> bool
    ensures { result ≡ flipped ahead.now.moment.control session.now.current.bus.control }
{
    flipped(ahead.moment.control, session.bus().control())
}

/// Returns the byte that a step has put out, if it has put out one.
fn out(ahead: &Ahead, session: &Session) -> Option<u8>
    ensures { result ≡ slice_get session.now.current.bus.out ahead.now.shown }
{
    session.output_at(ahead.shown)
}

/// Returns whether there are bytes.
#[tactic(auto, using(crate::proofs::Pushing::any_is))]
fn is_any(bytes: &[u8]) -> bool
    ensures { result ≡ is_any bytes.now }
{
    !bytes.is_empty()
}

/// Returns the first byte of the record of a step.
#[tactic(auto, unfolding(crate::specs::Steps::change_by))]
fn first_byte(ahead: &Ahead, session: &Session, is_entry: bool) -> u8
    ensures { (given : List ℕ) → result
        ≡ head (change_by is_entry given ahead.now session.now.current) }
{
    let cycles = session.cycles().saturating_sub(ahead.moment.cycles);
    let stored = ahead.stored(is_entry).len() as u8;
    (cycles % 16) as u8 + 16 * ahead.read_count(is_entry) + 64 * stored
}

/// Returns the eight bytes of the record of a step.
#[tactic(auto, unfolding(crate::specs::Steps::change_by))]
fn changed(ahead: &Ahead, given: &[u8], session: &Session, is_entry: bool) -> [u8; 8]
    ensures { result ≡ eight (change_by is_entry given.now ahead.now session.now.current) }
{
    let signals = signals(
        out(ahead, session).is_some(),
        takes(ahead, session),
        flips_control(ahead, session),
        false,
        ahead.moment.nmi,
        is_any(given),
        is_entry,
    );
    eight(ahead.moment.regs, session.regs(), signals)
}

/// Appends the record of a step that was made.
fn push_record(
    written: &mut Vec<u8>,
    ahead: &Ahead,
    given: &[u8],
    session: &Session,
) -> Result<(), AllocError>
    ensures { OnOk result (written.new.items ≡ written.old.items
        ++ bytes_of (change_from given.now ahead.now session.now.current)) }
{
    let is_entry = ahead.moment.was_entered(session);
    written.push(first_byte(ahead, session, is_entry))?;
    push_eight(written, changed(ahead, given, session, is_entry))?;
    ahead.push_reads(written, is_entry)?;
    push_cells(written, ahead.stored(is_entry), session)?;
    push_out(written, out(ahead, session))?;
    push_counted(written, given)
}

/// Returns how many bytes there are.
fn len_of(bytes: &[u8]) -> usize
    ensures value { result ≡ length bytes.now }
    ensures within { length bytes.now < 2 ^ 64 }
{
    bytes.len()
}

/// Appends the record of a step: what it changed, what it read, and where it stored.
///
/// `ahead` is what `look_ahead` told of the state before, `given` the input that was handed in
/// since, and the session is in the state after the step.
///
/// Errors: `AllocError` if an allocation fails; nothing is appended.
pub fn push_step(
    alloc: Global,
    written: &mut Vec<u8>,
    ahead: &Ahead,
    given: &[u8],
    session: &Session,
) -> Result<(), AllocError>
    // The record is that of the change between both states, with the addresses that the step has
    // read and stored at by the definitions.
    ensures ok { OnOk result ((s : State) → IsAhead ahead.now s → written.new.items
        ≡ written.old.items ++ bytes_of (change_of given.now s session.now.current)) }
    ensures err { OnErr result (written.new.items ≡ written.old.items) }
    // If the data told of the states up to that before the step, they tell of one more: decoded,
    // they give the changes of before and this one; applied from the start, they give all states;
    // applied backwards from the last, they give the same in reverse.
    ensures tells { OnOk result ((start s : State) (front : List ℕ) (earlier : List State)
        → IsAhead ahead.now s → IsState s → step (with_input given.now s) ≡ Ok session.now.current
        → Tells start (front ++ written.old.items) earlier s
        → Tells start (front ++ written.new.items) (earlier ++ s ∷ [])
        session.now.current
        × (changes_in (front ++ written.new.items) ≡ changes_in (front ++ written.old.items)
        ++ change_of given.now s session.now.current ∷ [])) }
{
    // For the proof: that the length of a slice is a number of 64 bits.
    len_of(given);
    let mut record = Vec::with_capacity(alloc, 32)?;
    push_record(&mut record, ahead, given, session)?;
    written.extend_from_slice(record.as_slice())
}
