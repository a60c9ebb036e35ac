//! What the engine does with a command, and what it replies.

ghost use Rattle.std.specs.Prelude.{◌≡◌, take, MatchResult, IfErr, IfOk, Ok, Err, false};
ghost use Rattle.model.specs.Writers.{Writes};
ghost use Rattle.engine.specs.Outcome.{EndsReply};
ghost use Rattle.engine.specs.Refusals.{of_reply};
ghost use Rattle.model.specs.Transcript.{answer_to};

use crate::asm::assemble_patch;
use crate::fault::EngineFault;
use debugger::Session;
use model::{Command, Event};
use replies::{
    ReplyFault, clear_break, clear_watch, go_back, happen, put, put_breaks, put_instructions,
    put_output, put_registers, put_rows, run, set_break, set_watch, step, take_input,
};
use std::alloc::Global;
use std::io::Write;

/// Does what a command asks for and writes the reply. Returns whether the engine is to end.
///
/// # Errors
///
/// - `Write`: the reply could not be written. A beginning of it was.
/// - `OutOfMemory`: an allocation failed. A beginning of the reply was written.
#[tactic(auto, using(crate::proofs::Said::said_writes, crate::proofs::Said::said_ends, crate::proofs::Said::said_after, crate::proofs::Said::said_unless), unfolding(model::specs::Transcript::answer_to))]
pub fn execute<W: Write>(
    alloc: Global,
    session: &mut Session,
    command: Command,
    writer: &mut W,
) -> Result<bool, EngineFault>
    ensures writes { Writes (W.contents writer.old) (W.contents writer.new)
        (answer_to command session.old).written result }
    ensures ok { IfOk result (λ quit. (quit ≡ (answer_to command session.old).quit)
        × (session.new ≡ (answer_to command session.old).session)) }
    ensures fault { IfErr result EndsReply }
{
    match command {
        Command::Regs => after_reply(put_registers(session, writer)),
        Command::Step => after_reply(step(session, writer)),
        Command::Mem { first, last } => after_reply(put_rows(session, first, last, writer)),
        Command::Out => after_reply(put_output(session, writer)),
        Command::Set(setting) => after_reply(happen(session, Event::Set(setting), writer)),
        Command::Patch {
            address,
            bytes,
            count,
        } => after_reply(happen(
            session,
            Event::Patch {
                address,
                bytes,
                count,
            },
            writer,
        )),
        Command::Reset => after_reply(happen(session, Event::Reset, writer)),
        Command::Irq(level) => after_reply(happen(session, Event::Irq(level), writer)),
        Command::Nmi => after_reply(happen(session, Event::Nmi, writer)),
        Command::Input { bytes, count } => after_reply(take_input(
            session,
            first_bytes(&bytes, count),
            writer,
        )),
        Command::Run(count) => after_reply(run(session, count, writer)),
        Command::Back(count) => after_reply(go_back(session, count, writer)),
        Command::Break(address) => after_reply(set_break(session, address, writer)),
        Command::Unbreak(address) => after_reply(clear_break(session, address, writer)),
        Command::Watch(address) => after_reply(set_watch(session, address, writer)),
        Command::Unwatch(address) => after_reply(clear_watch(session, address, writer)),
        Command::Breaks => after_reply(put_breaks(session, writer)),
        Command::Dis { address, count } => after_reply(put_instructions(
            session, address, count, writer,
        )),
        Command::Asm {
            address,
            text,
            count,
        } => after_reply(assemble_patch(
            alloc,
            session,
            address,
            first_of_text(&text, count),
            writer,
        )),
        Command::Quit => Ok(true),
        Command::Nothing => Ok(false),
        Command::Bad => after_reply(put(writer, b"? BAD COMMAND\n")),
    }
}

/// Returns the first `count` of some bytes, or all if there are no more.
#[tactic(auto, using(crate::proofs::Said::first_all))]
fn first_bytes(bytes: &[u8; 16], count: u8) -> &[u8]
    ensures { result.now ≡ take count bytes.now }
{
    if count < 16 {
        &bytes[..count as usize]
    } else {
        bytes
    }
}

/// Returns the first `count` bytes of a text, or all if there are no more.
fn first_of_text(text: &[u8; 255], count: u8) -> &[u8]
    ensures { result.now ≡ take count text.now }
{
    &text[..count as usize]
}

/// Returns the result of a reply that does not end the engine.
fn after_reply(written: Result<(), ReplyFault>) -> Result<bool, EngineFault>
    ensures { MatchResult written (λ _. result ≡ Ok false) (λ e. result ≡ Err (of_reply e)) }
{
    match written {
        Ok(()) => Ok(false),
        Err(ReplyFault::Write) => Err(EngineFault::Write),
        Err(ReplyFault::OutOfMemory) => Err(EngineFault::OutOfMemory),
    }
}
