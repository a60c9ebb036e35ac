//! Lines that make one event: a register, an interrupt line, or a reset.

ghost use Rattle.std.specs.Prelude.{◌≡◌, ◌++◌, OnOk};
ghost use Rattle.model.specs.declared.event.Event.TheVariants.{Irq, Nmi, Reset, Set};
ghost use Rattle.mon_settings.specs.ChangeTexts.{if_masked, irq_text, level_text, nmi_text, shown_event};
ghost use Rattle.mon_settings.specs.FlagLines.{flag_setting};
ghost use Rattle.mon_session.specs.Course.{KeepsStops, ShowsOnly, course_of, happened};

use crate::wording::{IRQ_MASKED, IRQ_NEXT, NMI_NEXT, NO_IRQ};
use model::Setting;
use mon_runs::Event;
use mon_session::MonState;
use opcode_facts::Flag;
use std::alloc::AllocError;

/// Makes an event, and shows the state after it.
#[tactic(auto, using(crate::proofs::Made::said))]
fn show_event(mon: &mut MonState, event: Event) -> Result<(), AllocError>
    ensures course { course_of mon.new ≡ happened event (course_of mon.old) }
    ensures stops { KeepsStops mon.old mon.new }
    ensures text { OnOk result (mon.new.text.items ≡ mon.old.text.items
        ++ shown_event mon.old.places.names event (course_of mon.old)) }
{
    if mon.happen(event)? {
        return mon.show(None);
    }
    Ok(())
}

/// Sets a register, and shows the state.
///
/// Errors: `AllocError` if an allocation fails; the register is set all the same.
pub fn set(mon: &mut MonState, setting: Setting) -> Result<(), AllocError>
    ensures course { course_of mon.new ≡ happened (Set setting) (course_of mon.old) }
    ensures stops { KeepsStops mon.old mon.new }
    ensures text { OnOk result (mon.new.text.items ≡ mon.old.text.items
        ++ shown_event mon.old.places.names (Set setting) (course_of mon.old)) }
{
    show_event(mon, Event::Set(setting))
}

/// Sets a flag, and shows the state.
///
/// Errors: `AllocError` if an allocation fails; the flag is set all the same.
pub fn set_flag(mon: &mut MonState, flag: Flag, value: bool) -> Result<(), AllocError>
    ensures course { course_of mon.new
        ≡ happened (Set (flag_setting flag value mon.old.session.current)) (course_of mon.old) }
    ensures stops { KeepsStops mon.old mon.new }
    ensures text { OnOk result (mon.new.text.items ≡ mon.old.text.items
        ++ shown_event mon.old.places.names
        (Set (flag_setting flag value mon.old.session.current)) (course_of mon.old)) }
{
    let flags = flag.with(value, mon.session.regs().flags);
    set(mon, Setting::P(flags.to_byte(false)))
}

/// Returns when an interrupt is entered.
fn if_masked(is_masked: bool) -> &'static str
    ensures { result.now ≡ if_masked is_masked }
{
    if is_masked { IRQ_MASKED } else { IRQ_NEXT }
}

/// Says what the interrupt line asks for.
fn say_level(mon: &mut MonState, level: bool) -> Result<(), AllocError>
    ensures shows { ShowsOnly mon.old mon.new }
    ensures text { OnOk result (mon.new.text.items ≡ mon.old.text.items
        ++ level_text level mon.old.session.current) }
{
    if !level {
        return mon.say(NO_IRQ);
    }
    let is_masked = mon.session.regs().flags.i;
    mon.say(if_masked(is_masked))
}

/// Sets the interrupt line, and says what it asks for.
///
/// Errors: `AllocError` if an allocation fails; the line is set all the same.
#[tactic(auto, using(crate::proofs::Made::said))]
pub fn set_irq(mon: &mut MonState, level: bool) -> Result<(), AllocError>
    ensures course { course_of mon.new ≡ happened (Irq level) (course_of mon.old) }
    ensures stops { KeepsStops mon.old mon.new }
    ensures text { OnOk result (mon.new.text.items ≡ mon.old.text.items
        ++ irq_text mon.old.places.names level (course_of mon.old)) }
{
    if mon.happen(Event::Irq(level))? {
        return say_level(mon, level);
    }
    Ok(())
}

/// Asks for an NMI, and says so.
///
/// Errors: `AllocError` if an allocation fails; the NMI is asked for all the same.
#[tactic(auto, using(crate::proofs::Made::said))]
pub fn ask_nmi(mon: &mut MonState) -> Result<(), AllocError>
    ensures course { course_of mon.new ≡ happened Nmi (course_of mon.old) }
    ensures stops { KeepsStops mon.old mon.new }
    ensures text { OnOk result (mon.new.text.items ≡ mon.old.text.items
        ++ nmi_text mon.old.places.names (course_of mon.old)) }
{
    if mon.happen(Event::Nmi)? {
        return mon.say(NMI_NEXT);
    }
    Ok(())
}

/// Resets the processor, and shows the state.
///
/// Errors: `AllocError` if an allocation fails; the reset is made all the same.
pub fn reset(mon: &mut MonState) -> Result<(), AllocError>
    ensures course { course_of mon.new ≡ happened Reset (course_of mon.old) }
    ensures stops { KeepsStops mon.old mon.new }
    ensures text { OnOk result (mon.new.text.items ≡ mon.old.text.items
        ++ shown_event mon.old.places.names Reset (course_of mon.old)) }
{
    show_event(mon, Event::Reset)
}
