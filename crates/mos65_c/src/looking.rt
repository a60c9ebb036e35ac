//! What a machine shows: nothing here changes it.

ghost use Rattle.std.specs.Prelude.{◌≡◌, ◌+◌, ◌-◌, ◌<◌, ◌≤◌, drop, length, min, None, replicate};
ghost use Rattle.std.specs.Prelude.{Some, take};
ghost use Rattle.disasm.specs.Rows.{row_view};
ghost use Rattle.model.specs.Disassembly.{row_in};
ghost use Rattle.model.specs.Session.{Session as SessionView};
ghost use Rattle.mos65_c.specs.Answers.{written};
ghost use Rattle.mos65_c.specs.Status.{registers_of};

use crate::ending::{Registers, registers_of};
use crate::machine::{CLOSED, MISUSE, Mos65};
use debugger::Session;

/// The number of `PastEnd`, and 100.
const PAST_END: u32 = 104;

/// Tells the registers and the cycle count.
#[unsafe(no_mangle)]
pub extern "C" fn mos65_registers(m: &mut Mos65, out: &mut Registers) -> u32
    ensures live { (s : SessionView) → m.old.slot.session ≡ Some s
        → (result ≡ 0) × (out.new ≡ registers_of s.current) }
    ensures gone { m.old.slot.session ≡ None → (result ≡ 1) × (out.new ≡ out.old) }
    ensures same { m.new.slot.session ≡ m.old.slot.session }
{
    if !m.live {
        return CLOSED;
    }
    *out = registers_of(m.slot.inside());
    0
}

/// Copies memory from an address on, as many bytes as `out` has. A port address reads 0.
#[unsafe(no_mangle)]
pub extern "C" fn mos65_read(m: &mut Mos65, address: u16, out: &mut [u8]) -> u32
    ensures live { (s : SessionView) → m.old.slot.session ≡ Some s
        → address + length out.old ≤ 65536
        → (result ≡ 0) × (out.new ≡ take (length out.old) (drop address s.current.bus.memory)) }
    ensures long { (s : SessionView) → m.old.slot.session ≡ Some s
        → 65536 < address + length out.old
        → (result ≡ 104) × (out.new ≡ out.old) }
    ensures gone { m.old.slot.session ≡ None → (result ≡ 1) × (out.new ≡ out.old) }
    ensures same { m.new.slot.session ≡ m.old.slot.session }
{
    if !m.live {
        return CLOSED;
    }
    if out.len() > 65536 - address as usize {
        return PAST_END;
    }
    rig::read(m.slot.inside(), address, out);
    0
}

/// Tells how many bytes the console's output has.
#[unsafe(no_mangle)]
pub extern "C" fn mos65_output_length(m: &mut Mos65, count: &mut u32) -> u32
    ensures live { (s : SessionView) → m.old.slot.session ≡ Some s
        → (result ≡ 0) × (count.new ≡ length s.current.bus.out) }
    ensures gone { m.old.slot.session ≡ None → (result ≡ 1) × (count.new ≡ count.old) }
    ensures same { m.new.slot.session ≡ m.old.slot.session }
{
    if !m.live {
        return CLOSED;
    }
    *count = m.slot.inside().output_len();
    0
}

/// Copies the console's output from an index on, as many bytes as `out` has.
#[unsafe(no_mangle)]
pub extern "C" fn mos65_output(m: &mut Mos65, from: u32, out: &mut [u8]) -> u32
    ensures live { (s : SessionView) → m.old.slot.session ≡ Some s
        → from + length out.old ≤ length s.current.bus.out
        → (result ≡ 0) × (out.new ≡ take (length out.old) (drop from s.current.bus.out)) }
    ensures long { (s : SessionView) → m.old.slot.session ≡ Some s
        → length s.current.bus.out < from + length out.old → (result ≡ 2) × (out.new ≡ out.old) }
    ensures gone { m.old.slot.session ≡ None → (result ≡ 1) × (out.new ≡ out.old) }
    ensures same { m.new.slot.session ≡ m.old.slot.session }
{
    if !m.live {
        return CLOSED;
    }
    let session = m.slot.inside();
    let count = session.output_len();
    if from > count || out.len() > (count - from) as usize {
        return MISUSE;
    }
    rig::read_output(session, from, out);
    0
}

/// The row of memory at an address.
fn row_at(session: &Session, address: u16) -> disasm::TextLine
    ensures text { row_view result
        ≡ row_in session.now.current.bus.map.profile session.now.current.bus.memory address }
    ensures short { result.text_len ≤ 12 }
{
    let mut bytes = [0u8; 3];
    let count = 3usize.min(65536 - address as usize);
    shown_row(session, address, &mut bytes[..count])
}

/// The row, over room for as many bytes as it can have.
fn shown_row(session: &Session, address: u16, bytes: &mut [u8]) -> disasm::TextLine
    requires { length bytes.old ≡ min 3 (65536 - address) }
    ensures text { row_view result
        ≡ row_in session.now.current.bus.map.profile session.now.current.bus.memory address }
    ensures short { result.text_len ≤ 12 }
{
    // For the proof: memory has 65,536 bytes.
    let _first = session.peek(address);
    rig::read(session, address, bytes);
    disasm::line_in(session.profile(), bytes, address)
}

/// Writes the instruction at an address as text, with zero bytes after it, and tells how many bytes
/// of memory it has. `out` has room for 13 bytes at least.
#[unsafe(no_mangle)]
pub extern "C" fn mos65_disassemble(
    m: &mut Mos65,
    address: u16,
    out: &mut [u8],
    count: &mut u32,
) -> u32
    ensures live { (s : SessionView) → m.old.slot.session ≡ Some s → 13 ≤ length out.old
        → (result ≡ 0)
        × (count.new ≡ (row_in s.current.bus.map.profile s.current.bus.memory address).len)
        × (out.new ≡ written (row_in s.current.bus.map.profile s.current.bus.memory address).text
        (replicate (length out.old) 0)) }
    ensures short { (s : SessionView) → m.old.slot.session ≡ Some s → length out.old < 13
        → (result ≡ 2) × (out.new ≡ out.old) × (count.new ≡ count.old) }
    ensures gone { m.old.slot.session ≡ None
        → (result ≡ 1) × (out.new ≡ out.old) × (count.new ≡ count.old) }
    ensures same { m.new.slot.session ≡ m.old.slot.session }
{
    if !m.live {
        return CLOSED;
    }
    if out.len() < 13 {
        return MISUSE;
    }
    let row = row_at(m.slot.inside(), address);
    out.fill(0);
    let length = row.text_len as usize;
    out[..length].copy_from_slice(&row.text[..length]);
    *count = row.len as u32;
    0
}
