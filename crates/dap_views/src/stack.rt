//! The frames of the stack: where the program is, and the calls and interrupts that have led there.

ghost use Rattle.std.specs.Prelude.{◌≡◌, ◌++◌, ◌∷◌, [], ◌≤◌, IfOk, OnOk};
ghost use Rattle.dap_views.specs.Frames.{frame_of, frames_from, has_frame, new_frame};
ghost use Rattle.dap_views.specs.Frames.{stack_frames};

use mon_runs::Session;
use mon_session::MonState;
use mon_texts::{Pushed, pushed_at, pushed_len};
use source_map::Places;
use std::alloc::{AllocError, Global};

/// A frame of the stack.
#[derive(Clone, Copy)]
pub struct Frame {
    /// Its number: 1 for the first, and for another the address at which the stack has what was
    /// pushed.
    pub id: u16,
    /// The address of the next instruction, of the call, or of the instruction before which an
    /// interrupt came.
    pub address: u16,
    /// Whether it was left by an interrupt.
    pub is_interrupted: bool,
}

/// Appends a frame.
fn push(
    frames: &mut Vec<Frame>,
    id: u16,
    address: u16,
    is_interrupted: bool,
) -> Result<(), AllocError>
    ensures { OnOk result (frames.new.items
        ≡ frames.old.items ++ new_frame id address is_interrupted ∷ []) }
{
    frames.push(Frame {
        id,
        address,
        is_interrupted,
    })?;
    Ok(())
}

/// Appends the frame that was left by what has pushed the bytes from an address on, if that is a
/// call, a BRK or an interrupt.
fn push_frame(frames: &mut Vec<Frame>, id: u16, pushed: Pushed) -> Result<(), AllocError>
    ensures { OnOk result (frames.new.items ≡ frames.old.items ++ frame_of id pushed) }
{
    match pushed {
        Pushed::Call(address) | Pushed::Break(address) => push(frames, id, address, false),
        Pushed::Interrupt(address) => push(frames, id, address, true),
        Pushed::Byte => Ok(()),
    }
}

/// Appends the frames that were left by what has pushed the bytes from an address of the stack on.
fn push_frames(
    frames: &mut Vec<Frame>,
    session: &Session,
    places: &Places,
    first: u16,
) -> Result<(), AllocError>
    requires { first ≤ 512 }
    ensures { OnOk result (frames.new.items ≡ frames.old.items
        ++ frames_from 256 session.now.current.bus.memory places.now.lines first) }
{
    let mut address = first;
    for _ in 0..256u16 {
        if address >= 512 {
            return Ok(());
        }
        let pushed = pushed_at(session, places, address);
        push_frame(frames, address, pushed)?;
        address += pushed_len(pushed);
    }
    Ok(())
}

/// Returns the frames, the last one first: that at the program counter, and those that were left by
/// a call, a BRK or an interrupt, as `where` of `mon` finds them on the stack.
pub fn stack_frames(
    alloc: Global,
    session: &Session,
    places: &Places,
) -> Result<Vec<Frame>, AllocError>
    ensures { IfOk result
        (λ frames. frames.items ≡ stack_frames session.now.current places.now.lines) }
{
    let regs = session.regs();
    let mut frames = Vec::new(alloc);
    push(&mut frames, 1, regs.pc, false)?;
    push_frames(&mut frames, session, places, 257 + u16::from(regs.s))?;
    Ok(frames)
}

/// Returns whether one of some frames has a number.
fn is_one(frames: &[Frame], id: u64) -> bool
    ensures { result ≡ has_frame frames.now id }
{
    frames.iter().any(|frame| u64::from(frame.id) == id)
}

/// Returns whether there is a frame of a number.
///
/// Errors: `AllocError` if an allocation fails.
pub fn is_frame(alloc: Global, mon: &MonState, id: u64) -> Result<bool, AllocError>
    ensures { IfOk result (λ found. found
        ≡ has_frame (stack_frames mon.now.session.current mon.now.places.lines) id) }
{
    let frames = stack_frames(alloc, &mon.session, &mon.places)?;
    Ok(is_one(frames.as_slice(), id))
}
