//! What the next instruction touches, and runs to the first that touches some address.

ghost use Rattle.std.specs.Prelude.{◌≡◌, ◌≢◌, length, None, Some};
ghost use Rattle.model.specs.Session.{Session as SessionView};
ghost use Rattle.accesses.specs.Access.{access_here};
ghost use Rattle.mos65_c.specs.Status.{ending_of};
ghost use Rattle.mos65_c.specs.Touching.{is_marked, touch_of, touches, touching_run};

use crate::ending::{Ending, ending_of};
use crate::machine::{CLOSED, MISUSE, Mos65};
use accesses::{Access, access_here};
use debugger::{RunEnd, Session, Why};

/// What an instruction reads and stores besides registers, and besides the bytes of its own and of
/// pointers.
#[repr(C)]
#[derive(Clone, Copy, Drop)]
pub struct Touch {
    /// The address that its operand is read from, where `reads` is true; else 0.
    pub read: u16,
    /// The address that a byte is stored at, where `stores` is true; else 0.
    pub store: u16,
    pub reads: bool,
    pub stores: bool,
    /// How many bytes are pushed on the stack.
    pub pushes: u8,
}

/// Returns an access as C is told.
fn touch_of(access: Access) -> Touch
    ensures { result ≡ touch_of access }
{
    Touch {
        read: access.read.unwrap_or(0),
        store: access.store.unwrap_or(0),
        reads: access.read.is_some(),
        stores: access.store.is_some(),
        pushes: access.pushes,
    }
}

/// Tells what the instruction at PC reads and stores, before its step is made. An interrupt entry
/// may come in its place.
#[unsafe(no_mangle)]
pub extern "C" fn mos65_access(m: &mut Mos65, out: &mut Touch) -> u32
    ensures live { (s : SessionView) → m.old.slot.session ≡ Some s
        → (result ≡ 0) × (out.new ≡ touch_of (access_here s.current)) }
    ensures gone { m.old.slot.session ≡ None → (result ≡ 1) × (out.new ≡ out.old) }
    ensures same { m.new.slot.session ≡ m.old.slot.session }
{
    if !m.live {
        return CLOSED;
    }
    *out = touch_of(access_here(m.slot.inside()));
    0
}

/// Returns whether an address is there and marked.
fn is_marked(marks: &[u8], address: Option<u16>) -> bool
    requires { length marks.now ≡ 65536 }
    ensures { result ≡ is_marked marks.now address }
{
    match address {
        None => false,
        Some(address) => marks[address as usize] != 0,
    }
}

/// Returns whether the instruction at PC reads or stores at a marked address.
fn touches(session: &Session, marks: &[u8]) -> bool
    requires { length marks.now ≡ 65536 }
    ensures { result ≡ touches marks.now session.now.current }
{
    let access = access_here(session);
    is_marked(marks, access.read) || is_marked(marks, access.store)
}

/// Runs up to `limit` steps, as far as an instruction that touches a marked address.
fn run_to_touch(session: &mut Session, marks: &[u8], limit: u32) -> RunEnd
    requires { length marks.now ≡ 65536 }
    ensures { touching_run marks.now limit session.old ≡ (result, session.new) }
{
    for did in 0..limit {
        if touches(session, marks) {
            return RunEnd {
                did,
                why: Why::Limit,
            };
        }
        let why = session.run(1).why;
        match why {
            Why::Limit => {}
            Why::Refused(_) => return RunEnd { did, why },
            Why::Break(_) => return RunEnd { did: did + 1, why },
            Why::Watch(_) => return RunEnd { did: did + 1, why },
        }
    }
    RunEnd {
        did: limit,
        why: Why::Limit,
    }
}

/// Runs as `mos65_run` does, and ends too before an instruction that reads or stores at an address
/// whose byte of `marks`, which has 65,536, is not 0: the reason is then that of the limit.
#[unsafe(no_mangle)]
pub extern "C" fn mos65_run_to_access(
    m: &mut Mos65,
    marks: &[u8],
    limit: u32,
    ending: &mut Ending,
) -> u32
    ensures live { (s : SessionView) → m.old.slot.session ≡ Some s → length marks.now ≡ 65536
        → (result ≡ 0) × (ending.new ≡ ending_of (touching_run marks.now limit s).0)
        × (m.new.slot.session ≡ Some (touching_run marks.now limit s).1) }
    ensures misuse { (s : SessionView) → m.old.slot.session ≡ Some s → length marks.now ≢ 65536
        → (result ≡ 2) × (ending.new ≡ ending.old) × (m.new.slot.session ≡ Some s) }
    ensures gone { m.old.slot.session ≡ None
        → (result ≡ 1) × (m.new.slot.session ≡ None) × (ending.new ≡ ending.old) }
{
    if !m.live {
        return CLOSED;
    }
    if marks.len() != 65536 {
        return MISUSE;
    }
    let end = run_to_touch(m.slot.inside(), marks, limit);
    *ending = ending_of(end);
    0
}
