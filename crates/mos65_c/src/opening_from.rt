//! Machines that begin where another one is.

ghost use Rattle.std.specs.Prelude.{◌≡◌, ◌≢◌, ◌+◌, ◌≤◌, IfOk, length, None, Some, false};
ghost use Rattle.model.specs.Event.{start};
ghost use Rattle.model.specs.Session.{Session as SessionView, new_session};
ghost use Rattle.model.specs.State.{has_port_byte};
ghost use Rattle.mos65_c.specs.From.{AnswersFrom, image_beside, register_events};
ghost use Rattle.rig.specs.Subroutine.{after_event, after_events};

use crate::config::{Config, map_of};
use crate::machine::{CLOSED, MISUSE, Mos65, OUT_OF_MEMORY};
use crate::opening;
use bus::{BusFault, Image, MapSpec};
use debugger::{Event, Regs, Session, Setting};
use std::alloc::{AllocError, Global};

/// Makes a byte of 0 for each address.
fn zeros(alloc: Global) -> Result<Vec<u8>, AllocError>
    ensures len { IfOk result (λ bytes. length bytes.items ≡ 65536) }
{
    vec![in alloc; 0u8; 65536]
}

/// Returns all bytes of a session's memory.
fn memory_of(alloc: Global, session: &Session) -> Result<Vec<u8>, AllocError>
    ensures all { IfOk result (λ bytes. bytes.items ≡ session.now.current.bus.memory) }
    ensures size { IfOk result (λ bytes. length bytes.items ≡ 65536) }
{
    // For the proof: memory has 65,536 bytes.
    let _first = session.peek(0);
    let mut bytes = zeros(alloc)?;
    rig::read(session, 0, bytes.as_mut_slice());
    Ok(bytes)
}

/// Returns all bytes of memory as an image, but those at a port's four addresses.
fn image_beside(alloc: Global, port: u32, memory: &[u8]) -> Result<Image, BusFault>
    requires port { port ≤ 65536 }
    requires size { length memory.now ≡ 65536 }
    ensures { IfOk result (λ image. image ≡ image_beside port memory.now) }
{
    let mut image = Image::new(alloc)?;
    let port = port as usize;
    image.store(0, &memory[..port]);
    if port < 65532 {
        image.store((port + 4) as u16, &memory[port + 4..]);
    }
    Ok(image)
}

/// Makes an event, if it is accepted.
#[tactic(auto, unfolding(rig::specs::Subroutine::after_event))]
fn happen(session: &mut Session, event: Event)
    ensures { session.new ≡ after_event session.old event }
{
    let _ = session.event(event);
}

/// Sets all registers, each by an event.
fn set_registers(session: &mut Session, regs: Regs)
    ensures { session.new ≡ after_events session.old (register_events regs) }
{
    happen(session, Event::Set(Setting::A(regs.a)));
    happen(session, Event::Set(Setting::X(regs.x)));
    happen(session, Event::Set(Setting::Y(regs.y)));
    happen(session, Event::Set(Setting::S(regs.s)));
    let flags = regs.flags.to_byte(false);
    happen(session, Event::Set(Setting::P(flags)));
    happen(session, Event::Set(Setting::Pc(regs.pc)));
}

/// Starts a closed machine with an image, and sets its registers.
fn begin(alloc: Global, m: &mut Mos65, map: MapSpec, history: u32, image: &Image, regs: Regs) -> u32
    requires closed { m.old.slot.session ≡ None }
    requires held { history ≤ 65536 }
    ensures ok { result ≡ 0 → m.new.slot.session ≡ Some (after_events
        (new_session history (start map image.now)) (register_events regs)) }
    ensures same { result ≢ 0 → m.new.slot.session ≡ None }
    ensures right { has_port_byte map image.now ≡ false → result ≢ 3 → result ≢ 206 → result ≡ 0 }
{
    let status = opening::start(alloc, m, map, history, image);
    if status != 0 {
        return status;
    }
    set_registers(m.slot.inside(), regs);
    0
}

/// Opens a machine that starts with the memory of another one, and has its registers set. Its
/// console is empty, no signal is set, and its cycles are those of a start.
#[unsafe(no_mangle)]
pub extern "C" fn mos65_open_from(
    alloc: Global,
    m: &mut Mos65,
    config: &Config,
    from: &mut Mos65,
) -> u32
    ensures opened { (s : SessionView) → m.old.slot.session ≡ None
        → from.old.slot.session ≡ Some s
        → AnswersFrom config.now s.current result m.new.slot.session }
    ensures busy { (s : SessionView) → m.old.slot.session ≡ Some s
        → (result ≡ 2) × (m.new.slot.session ≡ Some s) }
    ensures gone { m.old.slot.session ≡ None → from.old.slot.session ≡ None
        → (result ≡ 1) × (m.new.slot.session ≡ None) }
    ensures same { from.new.slot.session ≡ from.old.slot.session }
{
    if m.live {
        return MISUSE;
    }
    if !from.live {
        return CLOSED;
    }
    let map = match map_of(config) {
        Ok(map) => map,
        Err(status) => return status,
    };
    let session = from.slot.inside();
    let Ok(memory) = memory_of(alloc, session) else {
        return OUT_OF_MEMORY;
    };
    let Ok(image) = image_beside(alloc, map.port(), memory.as_slice()) else {
        return OUT_OF_MEMORY;
    };
    let regs = session.regs();
    begin(alloc, m, map, config.history, &image, regs)
}
