//! Handlers called as an interrupt enters them.

ghost use Rattle.std.specs.Prelude.{◌≡◌, ◌≢◌, IfOk, [], false};
ghost use Rattle.model.specs.State.{State};
ghost use Rattle.t65_runner.specs.Interrupts.{entered_flags, interrupt_of, interrupted};
ghost use Rattle.t65_runner.specs.Start.{IsSince};

use crate::requests::run_back;
use debugger::{Event, Flags, Profile, RunEnd, Session, Setting};
use rig::{happen, patch_byte};
use std::alloc::AllocError;

/// Returns the flags after an interrupt's entry.
fn entered_flags(profile: Profile, flags: Flags) -> Flags
    ensures { result ≡ entered_flags profile flags }
{
    let d = match profile {
        Profile::N => flags.d,
        Profile::C => false,
    };
    Flags {
        d,
        i: true,
        ..flags
    }
}

/// Enters a handler as an interrupt at $FFFF does.
#[tactic(auto, unfolding(crate::specs::Interrupts::interrupted))]
fn enter(session: &mut Session, address: u16)
    ensures { session.new ≡ interrupted address session.old }
{
    let regs = session.regs();
    let flags = entered_flags(session.profile(), regs.flags);
    patch_byte(session, 0x0100 + regs.s as u16, 0xff);
    patch_byte(session, 0x0100 + regs.s.wrapping_add(255) as u16, 0xff);
    patch_byte(
        session,
        0x0100 + regs.s.wrapping_add(254) as u16,
        regs.flags.to_byte(false),
    );
    happen(session, Event::Set(Setting::S(regs.s.wrapping_add(253))));
    happen(session, Event::Set(Setting::P(flags.to_byte(false))));
    happen(session, Event::Set(Setting::Pc(address)));
}

/// Calls a handler as an interrupt at $FFFF enters it, and runs up to `limit` steps until its RTI
/// has taken it back there: the stack pointer and the flags are then what they were. The six events
/// of the entry and then each step are held. The entry is no step, so its 7 cycles are not counted.
/// (MCS6500 manual, chapter 9, for what an interrupt pushes.)
///
/// # Errors
///
/// `AllocError` if an allocation failed. The handler is entered then, and does not run.
#[tactic(auto, unfolding(crate::specs::Interrupts::interrupt_of))]
pub fn interrupt(session: &mut Session, address: u16, limit: u32) -> Result<RunEnd, AllocError>
    requires stops { session.old.breaks ≡ [] }
    ensures ok { IfOk result
        (λ end. interrupt_of address limit session.old ≡ Ok (end, session.new)) }
    ensures since { (s : State) → IsSince s session.old → IsSince s session.new }
    ensures stops { session.new.breaks ≡ [] }
{
    enter(session, address);
    run_back(session, limit)
}
