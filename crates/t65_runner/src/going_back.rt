//! Back to the start of a machine.

ghost use Rattle.std.specs.Prelude.{◌≡◌, ◌⊎◌, [], IfErr, OnOk};
ghost use Rattle.model.specs.Event.{start};
ghost use Rattle.t65_runner.specs.Start.{fresh, IsSince};

use bus::{Image, MapSpec};
use debugger::Session;
use std::alloc::{AllocError, Global};

/// The most events that a bench can undo, and so hold.
pub const HISTORY: u32 = 65536;

/// Brings a session back to its machine's start: by `back` where it holds all events since then,
/// otherwise as a new session on the same image.
///
/// # Errors
///
/// `AllocError` if a new session was needed and an allocation failed. A new session is refused for
/// no other reason: a caller's image has no byte at the port, since the session stands on it.
pub fn restore(
    alloc: Global,
    session: &mut Session,
    map: MapSpec,
    image: &Image,
) -> Result<(), AllocError>
    requires since { IsSince (start map image.now) session.old }
    requires stops { session.old.breaks ≡ [] }
    ensures ok { OnOk result (session.new ≡ fresh map image.now) }
{
    let held = session.held();
    if held == HISTORY {
        match Session::new(alloc, map, image, HISTORY) {
            Ok(made) => {
                *session = made;
                Ok(())
            }
            Err(_) => Err(AllocError),
        }
    } else {
        match session.back(held) {
            Ok(()) => Ok(()),
            Err(_) => Err(AllocError),
        }
    }
}
