//! Machines opened and closed.

ghost use Rattle.std.specs.Prelude.{◌≡◌, ◌≢◌, ◌+◌, ◌<◌, ◌≤◌, length, None, Some};
ghost use Rattle.assembler.specs.Assembly.{AssemblyView};
ghost use Rattle.model.specs.Image.{empty_image, with_bytes};
ghost use Rattle.model.specs.Session.{Session as SessionView};
ghost use Rattle.mos65_c.specs.Answers.{AnswersOpening, AnswersStart, AnswersTape, no_fault};
ghost use Rattle.mos65_c.specs.Status.{config_map, config_status};

use crate::config::{Config, map_of};
use crate::machine::{CLOSED, MISUSE, Mos65, Mos65Assembly, OUT_OF_MEMORY};
use crate::names::Fault;
use bus::{Image, MapSpec};
use debugger::{Session, SessionFault};
use papertape::read_tape;
use slot::SessionSlot;
use std::alloc::Global;

/// The numbers of `PortAddress` and `OutOfMemory` among the session's faults, and 200.
const SESSION_PORT_ADDRESS: u32 = 205;

const SESSION_OUT_OF_MEMORY: u32 = 206;

/// Tells the library's version, as `MOS65_VERSION_NUMBER` of the header.
#[unsafe(no_mangle)]
pub extern "C" fn mos65_version_number() -> u32
    ensures { result ≡ 100 }
{
    100
}

/// Starts a closed machine with an image.
pub fn start(alloc: Global, m: &mut Mos65, map: MapSpec, history: u32, image: &Image) -> u32
    requires closed { m.old.slot.session ≡ None }
    requires held { history ≤ 65536 }
    ensures { AnswersStart map history image.now result m.new.slot.session }
{
    let session = match Session::new(alloc, map, image, history) {
        Ok(session) => session,
        Err(SessionFault::PortAddress) => return SESSION_PORT_ADDRESS,
        Err(_) => return SESSION_OUT_OF_MEMORY,
    };
    match Box::new(alloc, session) {
        Ok(boxed) => {
            *m = Mos65 {
                slot: SessionSlot::of(boxed),
                live: true,
            };
            0
        }
        Err(_) => OUT_OF_MEMORY,
    }
}

/// Opens a machine that starts with an assembly's image, under this configuration's map.
#[unsafe(no_mangle)]
pub extern "C" fn mos65_open(
    alloc: Global,
    m: &mut Mos65,
    config: &Config,
    assembly: &mut Mos65Assembly,
) -> u32
    ensures opened { (x : AssemblyView) → m.old.slot.session ≡ None
        → assembly.old.slot.assembly ≡ Some x
        → AnswersOpening config.now x.image result m.new.slot.session }
    ensures busy { (s : SessionView) → m.old.slot.session ≡ Some s
        → (result ≡ 2) × (m.new.slot.session ≡ Some s) }
    ensures gone { m.old.slot.session ≡ None → assembly.old.slot.assembly ≡ None
        → (result ≡ 1) × (m.new.slot.session ≡ None) }
    ensures same { assembly.new.slot.assembly ≡ assembly.old.slot.assembly }
{
    if m.live {
        return MISUSE;
    }
    if !assembly.live {
        return CLOSED;
    }
    match map_of(config) {
        Ok(map) => start(
            alloc,
            m,
            map,
            config.history,
            assembly.slot.inside().image(),
        ),
        Err(status) => status,
    }
}

/// Opens a machine that starts with a tape's image; where the tape is refused, its fault and where
/// it stands are told. The configuration is refused before the tape.
#[unsafe(no_mangle)]
pub extern "C" fn mos65_open_tape(
    alloc: Global,
    m: &mut Mos65,
    config: &Config,
    tape: &[u8],
    fault: &mut Fault,
) -> u32
    ensures opened { m.old.slot.session ≡ None → config_status config.now ≡ 0
        → AnswersTape (config_map config.now) config.now.history tape.now result fault.new
        m.new.slot.session }
    ensures config { m.old.slot.session ≡ None → config_status config.now ≢ 0
        → (result ≡ config_status config.now) × (m.new.slot.session ≡ None)
        × (fault.new ≡ no_fault) }
    ensures busy { (s : SessionView) → m.old.slot.session ≡ Some s
        → (result ≡ 2) × (m.new.slot.session ≡ Some s) × (fault.new ≡ no_fault) }
{
    *fault = Fault::none();
    if m.live {
        return MISUSE;
    }
    let map = match map_of(config) {
        Ok(map) => map,
        Err(status) => return status,
    };
    match read_tape(alloc, tape) {
        Ok(image) => start(alloc, m, map, config.history, &image),
        Err(refusal) => {
            let status = 400 + refusal.kind.number() as u32;
            *fault = Fault {
                status,
                line: 0,
                offset: refusal.offset,
            };
            status
        }
    }
}

/// Opens a machine that starts with these bytes from an address on, and no others.
#[unsafe(no_mangle)]
pub extern "C" fn mos65_open_bytes(
    alloc: Global,
    m: &mut Mos65,
    config: &Config,
    address: u16,
    bytes: &[u8],
) -> u32
    ensures opened { m.old.slot.session ≡ None → address + length bytes.now ≤ 65536
        → AnswersOpening config.now (with_bytes empty_image address bytes.now) result
        m.new.slot.session }
    ensures long { m.old.slot.session ≡ None → 65536 < address + length bytes.now
        → (result ≡ 2) × (m.new.slot.session ≡ None) }
    ensures busy { (s : SessionView) → m.old.slot.session ≡ Some s
        → (result ≡ 2) × (m.new.slot.session ≡ Some s) }
{
    if m.live || bytes.len() > 65536 - address as usize {
        return MISUSE;
    }
    let map = match map_of(config) {
        Ok(map) => map,
        Err(status) => return status,
    };
    let Ok(mut image) = Image::new(alloc) else {
        return OUT_OF_MEMORY;
    };
    image.store(address, bytes);
    start(alloc, m, map, config.history, &image)
}

/// Closes a machine and frees what it held.
#[unsafe(no_mangle)]
pub extern "C" fn mos65_close(alloc: Global, m: &mut Mos65) -> u32
    ensures closed { m.new.slot.session ≡ None }
    ensures live { (s : SessionView) → m.old.slot.session ≡ Some s → result ≡ 0 }
    ensures gone { m.old.slot.session ≡ None → result ≡ 1 }
{
    let empty = Mos65 {
        slot: SessionSlot::empty(alloc),
        live: false,
    };
    let Mos65 { slot, live } = std::mem::replace(m, empty);
    if !live {
        return CLOSED;
    }
    drop(slot.into_box());
    0
}
