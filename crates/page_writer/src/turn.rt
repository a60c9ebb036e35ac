//! A turn of a run, and the record of its step.

ghost use Rattle.std.specs.Prelude.{◌≡◌, ◌<◌, ◌^◌, ◌++◌, ℕ, List, IfOk, OnOk, length};
ghost use Rattle.console.specs.Taking.{Waits};
ghost use Rattle.page_writer.specs.Turns.{RecordsTurn};

use console::{Ending, Player, take_turn};
use debugger::Session;
use page_data::{SendFault, look_ahead, push_step};
use std::alloc::Global;
use std::io;

/// Returns the bytes of an input that were read, by what is left of it.
fn read_of<'a>(input: &'a [u8], left: &[u8]) -> &'a [u8]
    ensures read { (told : List ℕ) → input.now ≡ told ++ left.now → result.now ≡ told }
    ensures few { length result.now < 2 ^ 64 }
{
    let count = input.len().saturating_sub(left.len());
    &input[..count]
}

/// Makes a turn of a run, and appends the record of its step. Returns why the run ends here, if it
/// does: then no step is made, and nothing is appended.
///
/// What the program puts out is in the record, and goes nowhere else.
pub fn record_turn(
    alloc: Global,
    session: &mut Session,
    player: &mut Player,
    input: &mut &[u8],
    pending: &mut Vec<u8>,
) -> Result<Option<Ending>, SendFault>
    requires { Waits session.old.current player.old.waiting }
    ensures ok { IfOk result (λ ending. RecordsTurn ending session.old player.old input.old.now
        input.new.now session.new player.new pending.old.items pending.new.items) }
    ensures waits { OnOk result (Waits session.new.current player.new.waiting) }
{
    // For the proof: that the registers and the memory are in range.
    session.is_state();
    let ahead = look_ahead(session);
    let before = *input;
    match take_turn(session, player, input, &mut io::sink()) {
        Ok(None) => {}
        Ok(Some(ending)) => return Ok(Some(ending)),
        // Neither a slice nor a sink fails.
        Err(_) => return Err(SendFault::Write),
    }
    let given = read_of(before, input);
    match push_step(alloc, pending, &ahead, given, session) {
        Ok(()) => Ok(None),
        Err(_) => Err(SendFault::OutOfMemory),
    }
}
