//! What a step is about to touch, and what it has touched.

ghost use Rattle.std.specs.Prelude.{◌≡◌, ◌<◌, ◌≤◌, ◌+◌, ◌%◌, length, true};
ghost use Rattle.accesses.specs.Footprint.{reads_here, stores_here};
ghost use Rattle.accesses.specs.Moments.{moment_of};
ghost use Rattle.accesses.specs.Writing.{is_written};
ghost use Rattle.accesses.specs.declared.moment.Moment.{Moment};
ghost use Rattle.arguments.specs.Asked.{file_view};
ghost use Rattle.model.specs.State.{lies_in};
ghost use Rattle.word_trace.specs.Notes.{code_of, entry_reads, if_asked, is_kept, kept, left_at};
ghost use Rattle.word_trace.specs.Notes.{TouchesWritten, are_written, len_of};

use accesses::{
    Addresses, Moment, Written, entry_stores, moment_of, reads_here, row_here, stores_here,
};
use arguments::FileWords;
use debugger::Session;
use model::Row;

/// What is known of a step before it is made.
#[derive(Drop)]
pub struct Ahead {
    pub moment: Moment,
    pub reads: Addresses,
    pub stores: Addresses,
}

/// Returns what is known of the next step. The addresses that it touches are left out unless they
/// are asked for.
pub fn look_ahead(session: &Session, is_asked: bool) -> Ahead
    ensures moment { result.moment ≡ moment_of session.now.current }
    ensures reads { result.reads.items ≡ if_asked is_asked (reads_here session.now.current) }
    ensures stores { result.stores.items ≡ if_asked is_asked (stores_here session.now.current) }
{
    if is_asked {
        Ahead {
            moment: moment_of(session),
            reads: reads_here(session),
            stores: stores_here(session),
        }
    } else {
        Ahead {
            moment: moment_of(session),
            reads: Addresses::new(),
            stores: Addresses::new(),
        }
    }
}

/// Returns these addresses.
fn addresses(listed: &[u16]) -> Addresses
    requires { length listed.now ≤ 3 }
    ensures { result.items ≡ listed.now }
{
    let mut addresses = Addresses::new();
    let _ = addresses.try_extend_from_slice(listed);
    addresses
}

/// Returns how many bytes an instruction has.
fn len_of(row: Option<Row>) -> u8
    ensures { result ≡ len_of row }
{
    match row {
        None => 1,
        Some(row) => row.len,
    }
}

/// Returns the addresses of the bytes of the instruction of a moment.
pub fn code_of(moment: &Moment) -> Addresses
    ensures { result.items ≡ code_of moment.now }
{
    let pc = moment.regs.pc;
    let code = [pc, pc.wrapping_add(1), pc.wrapping_add(2)];
    let len = (len_of(moment.row) as usize).min(3);
    addresses(&code[..len])
}

/// Returns whether the byte of an instruction at a place of it was written, if it has one there.
fn is_part_written(pc: u16, len: u8, place: u8, written: &Written) -> bool
    ensures { result ≡ true → place < len
        → is_written written.now ((pc + place) % 65536) ≡ true }
{
    if len <= place {
        return true;
    }
    written.contains(pc.wrapping_add(place as u16))
}

/// Returns whether the bytes of an instruction were written.
fn is_code_written(pc: u16, row: Option<Row>, written: &Written) -> bool
    ensures { (moment : Moment) → moment.regs.pc ≡ pc → moment.row ≡ row → result ≡ true
        → are_written written.now (code_of moment) ≡ true }
{
    let len = len_of(row);
    let first = written.contains(pc);
    let second = is_part_written(pc, len, 1, written);
    let third = is_part_written(pc, len, 2, written);
    first & second & third
}

/// Returns whether each of these addresses was written.
fn are_written(written: &Written, addresses: &Addresses) -> bool
    ensures { result ≡ are_written written.now addresses.now.items }
{
    for address in addresses.as_slice() {
        if !written.contains(*address) {
            return false;
        }
    }
    true
}

/// Returns whether all that the next instruction touches was written: its own bytes, what it reads
/// as data, and where it stores.
pub fn is_touched_written(session: &Session, written: &Written) -> bool
    ensures { result ≡ true → TouchesWritten written.now session.now.current }
{
    let regs = session.regs();
    let row = row_here(session);
    let reads = reads_here(session);
    let stores = stores_here(session);
    let code_is = is_code_written(regs.pc, row, written);
    let reads_are = are_written(written, &reads);
    let stores_are = are_written(written, &stores);
    code_is & reads_are & stores_are
}

/// Returns the addresses that the entry of an IRQ reads: its vector.
pub fn entry_reads() -> Addresses
    ensures { result.items ≡ entry_reads }
{
    addresses(&[0xfffe, 0xffff])
}

/// Returns whether an address lies in the ROM of the words.
fn is_rom(file: &FileWords<'_>, address: u16) -> bool
    ensures { result ≡ lies_in file.now.rom address }
{
    match file.rom {
        None => false,
        Some((first, last)) => first <= address && address <= last,
    }
}

/// Returns whether a store leaves a byte that can be shown: in memory outside the ROM, or at the
/// port's first address, where it is put out.
fn is_kept(session: &Session, file: &FileWords<'_>, address: u16) -> bool
    ensures { result ≡ is_kept session.now.current.bus.map file.now.rom file.now.port address }
{
    if session.is_port(address) {
        address as u32 == file.port.base()
    } else {
        !is_rom(file, address)
    }
}

/// Returns those of the addresses where a store leaves a byte.
pub fn kept(session: &Session, file: &FileWords<'_>, stores: &Addresses) -> Addresses
    ensures { result.items ≡ kept session.now.current.bus.map file.now.rom file.now.port
        stores.now.items }
{
    let mut kept = Addresses::new();
    for address in stores.as_slice() {
        if !is_kept(session, file, *address) {
            continue;
        }
        let _ = kept.try_push(*address);
    }
    kept
}

/// Returns the addresses where a step has left a byte: those where an interrupt entry pushes, or
/// those that were known before the step. The session is in the state after it.
pub fn left_at(session: &Session, file: &FileWords<'_>, is_entry: bool, ahead: &Ahead) -> Addresses
    ensures { result.items ≡ left_at session.now.current (file_view file.now) is_entry ahead.now }
{
    if is_entry {
        kept(session, file, &entry_stores(ahead.moment.regs.s))
    } else {
        kept(session, file, &ahead.stores)
    }
}
