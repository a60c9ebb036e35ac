//! Events: each accepted one is an entry of the history.

ghost use Rattle.std.specs.Prelude.{◌≡◌, ◌<◌, ◌≤◌, length, None, Option, Some};
ghost use Rattle.model.specs.Session.{Session as SessionView};
ghost use Rattle.mos65_c.specs.Answers.{AnswersEvent};
ghost use Rattle.mos65_c.specs.Status.{setting_of, three_bytes};

use crate::machine::{CLOSED, MISUSE, Mos65};
use debugger::{Event, Setting};

/// The number of `BadLength`, and 100.
const BAD_LENGTH: u32 = 106;

#[inline(always)]
fn happen(m: &mut Mos65, event: Event) -> u32
    ensures live { (s : SessionView) → m.old.slot.session ≡ Some s
        → AnswersEvent s event result m.new.slot.session }
    ensures gone { m.old.slot.session ≡ None → (result ≡ 1) × (m.new.slot.session ≡ None) }
{
    if !m.live {
        return CLOSED;
    }
    match m.slot.inside().event(event) {
        Ok(()) => 0,
        Err(fault) => 100 + fault.number() as u32,
    }
}

/// Makes one step.
#[unsafe(no_mangle)]
pub extern "C" fn mos65_step(m: &mut Mos65) -> u32
    ensures live { (s : SessionView) → m.old.slot.session ≡ Some s
        → AnswersEvent s Event.Step result m.new.slot.session }
    ensures gone { m.old.slot.session ≡ None → (result ≡ 1) × (m.new.slot.session ≡ None) }
{
    happen(m, Event::Step)
}

/// Resets the machine.
#[unsafe(no_mangle)]
pub extern "C" fn mos65_reset(m: &mut Mos65) -> u32
    ensures live { (s : SessionView) → m.old.slot.session ≡ Some s
        → AnswersEvent s Event.Reset result m.new.slot.session }
    ensures gone { m.old.slot.session ≡ None → (result ≡ 1) × (m.new.slot.session ≡ None) }
{
    happen(m, Event::Reset)
}

/// Sets the IRQ line, true for the level that asks for an interrupt.
#[unsafe(no_mangle)]
pub extern "C" fn mos65_irq(m: &mut Mos65, level: bool) -> u32
    ensures live { (s : SessionView) → m.old.slot.session ≡ Some s
        → AnswersEvent s (Event.Irq level) result m.new.slot.session }
    ensures gone { m.old.slot.session ≡ None → (result ≡ 1) × (m.new.slot.session ≡ None) }
{
    happen(m, Event::Irq(level))
}

/// Signals an NMI.
#[unsafe(no_mangle)]
pub extern "C" fn mos65_nmi(m: &mut Mos65) -> u32
    ensures live { (s : SessionView) → m.old.slot.session ≡ Some s
        → AnswersEvent s Event.Nmi result m.new.slot.session }
    ensures gone { m.old.slot.session ≡ None → (result ≡ 1) × (m.new.slot.session ≡ None) }
{
    happen(m, Event::Nmi)
}

/// Hands in a byte of input.
#[unsafe(no_mangle)]
pub extern "C" fn mos65_input(m: &mut Mos65, byte: u8) -> u32
    ensures live { (s : SessionView) → m.old.slot.session ≡ Some s
        → AnswersEvent s (Event.Input byte) result m.new.slot.session }
    ensures gone { m.old.slot.session ≡ None → (result ≡ 1) × (m.new.slot.session ≡ None) }
{
    happen(m, Event::Input(byte))
}

#[tactic(auto, unfolding(crate::specs::Status::setting_of))]
fn setting_of(register: u32, value: u16) -> Option<Setting>
    ensures { result ≡ setting_of register value }
{
    if register == 5 {
        return Some(Setting::Pc(value));
    }
    if register > 5 || value > 255 {
        return None;
    }
    let byte = value as u8;
    match register {
        0 => Some(Setting::A(byte)),
        1 => Some(Setting::X(byte)),
        2 => Some(Setting::Y(byte)),
        3 => Some(Setting::S(byte)),
        _ => Some(Setting::P(byte)),
    }
}

/// Sets a register by its number: 0 to 5 for A, X, Y, S, P and PC. Of P only the six flags are
/// taken.
#[unsafe(no_mangle)]
pub extern "C" fn mos65_set(m: &mut Mos65, register: u32, value: u16) -> u32
    ensures live { (s : SessionView) (setting : Setting) → m.old.slot.session ≡ Some s
        → setting_of register value ≡ Some setting
        → AnswersEvent s (Event.Set setting) result m.new.slot.session }
    ensures misuse { (s : SessionView) → m.old.slot.session ≡ Some s
        → setting_of register value ≡ None → (result ≡ 2) × (m.new.slot.session ≡ Some s) }
    ensures gone { m.old.slot.session ≡ None → (result ≡ 1) × (m.new.slot.session ≡ None) }
{
    if !m.live {
        return CLOSED;
    }
    match setting_of(register, value) {
        Some(setting) => happen(m, Event::Set(setting)),
        None => MISUSE,
    }
}

fn three_bytes(bytes: &[u8]) -> [u8; 3]
    requires { length bytes.now ≤ 3 }
    ensures { result ≡ three_bytes bytes.now }
{
    match bytes {
        [] => [0, 0, 0],
        [a] => [*a, 0, 0],
        [a, b] => [*a, *b, 0],
        [a, b, c, ..] => [*a, *b, *c],
    }
}

/// Changes one to three bytes of memory, in ROM too: one event.
#[unsafe(no_mangle)]
pub extern "C" fn mos65_patch(m: &mut Mos65, address: u16, bytes: &[u8]) -> u32
    ensures live { (s : SessionView) → m.old.slot.session ≡ Some s → length bytes.now ≤ 3
        → AnswersEvent s (Event.Patch address (three_bytes bytes.now) (length bytes.now)) result
        m.new.slot.session }
    ensures long { (s : SessionView) → m.old.slot.session ≡ Some s → 3 < length bytes.now
        → (result ≡ 106) × (m.new.slot.session ≡ Some s) }
    ensures gone { m.old.slot.session ≡ None → (result ≡ 1) × (m.new.slot.session ≡ None) }
{
    if !m.live {
        return CLOSED;
    }
    if bytes.len() > 3 {
        return BAD_LENGTH;
    }
    let bytes_padded = three_bytes(bytes);
    happen(
        m,
        Event::Patch {
            address,
            bytes: bytes_padded,
            count: bytes.len() as u8,
        },
    )
}
