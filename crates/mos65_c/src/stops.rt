//! Breakpoints and watches.

ghost use Rattle.std.specs.Prelude.{◌≡◌, None, Some};
ghost use Rattle.model.specs.Session.{Session as SessionView};
ghost use Rattle.model.specs.Breakpoints.{break_cleared, break_set, watch_cleared, watch_set};
ghost use Rattle.mos65_c.specs.Answers.{AnswersChange, AnswersSetting};

use crate::machine::{CLOSED, Mos65};

/// Sets a breakpoint.
#[unsafe(no_mangle)]
pub extern "C" fn mos65_break(m: &mut Mos65, address: u16) -> u32
    ensures live { (s : SessionView) → m.old.slot.session ≡ Some s
        → AnswersSetting (break_set address s) s result m.new.slot.session }
    ensures gone { m.old.slot.session ≡ None → (result ≡ 1) × (m.new.slot.session ≡ None) }
{
    if !m.live {
        return CLOSED;
    }
    match m.slot.inside().set_break(address) {
        Ok(()) => 0,
        Err(fault) => 200 + fault.number() as u32,
    }
}

/// Clears a breakpoint.
#[unsafe(no_mangle)]
pub extern "C" fn mos65_unbreak(m: &mut Mos65, address: u16) -> u32
    ensures live { (s : SessionView) → m.old.slot.session ≡ Some s
        → AnswersChange (break_cleared address s) s result m.new.slot.session }
    ensures gone { m.old.slot.session ≡ None → (result ≡ 1) × (m.new.slot.session ≡ None) }
{
    if !m.live {
        return CLOSED;
    }
    match m.slot.inside().clear_break(address) {
        Ok(()) => 0,
        Err(fault) => 200 + fault.number() as u32,
    }
}

/// Sets a watch: a run stops after a step that changes this byte of memory.
#[unsafe(no_mangle)]
pub extern "C" fn mos65_watch(m: &mut Mos65, address: u16) -> u32
    ensures live { (s : SessionView) → m.old.slot.session ≡ Some s
        → AnswersSetting (watch_set address s) s result m.new.slot.session }
    ensures gone { m.old.slot.session ≡ None → (result ≡ 1) × (m.new.slot.session ≡ None) }
{
    if !m.live {
        return CLOSED;
    }
    match m.slot.inside().set_watch(address) {
        Ok(()) => 0,
        Err(fault) => 200 + fault.number() as u32,
    }
}

/// Clears a watch.
#[unsafe(no_mangle)]
pub extern "C" fn mos65_unwatch(m: &mut Mos65, address: u16) -> u32
    ensures live { (s : SessionView) → m.old.slot.session ≡ Some s
        → AnswersChange (watch_cleared address s) s result m.new.slot.session }
    ensures gone { m.old.slot.session ≡ None → (result ≡ 1) × (m.new.slot.session ≡ None) }
{
    if !m.live {
        return CLOSED;
    }
    match m.slot.inside().clear_watch(address) {
        Ok(()) => 0,
        Err(fault) => 200 + fault.number() as u32,
    }
}
