//! Why an event is refused.

ghost use Rattle.std.specs.Prelude.{◌≡◌, ◌++◌, OnOk};
ghost use Rattle.mon_session.specs.Faults.{fault_text, undocumented_text};

use crate::wording::{
    AT, CONSOLE_FULL, CYCLES_FULL, INPUT_FULL, NO_INSTRUCTION, PAST_END, PORT_ADDRESS,
    TOO_MANY_BYTES,
};
use formatting::{push_byte, push_text};
use model::EventFault;
use mon_instructions::push_place;
use source_map::Places;
use std::alloc::AllocError;

/// Appends that a byte is no instruction.
fn push_undocumented(
    text: &mut Vec<u8>,
    places: &Places,
    opcode: u8,
    pc: u16,
) -> Result<(), AllocError>
    ensures { OnOk result (text.new.items ≡ text.old.items
        ++ undocumented_text places.now.names opcode pc) }
{
    push_text(text, "$")?;
    push_byte(text, opcode)?;
    push_text(text, AT)?;
    push_place(text, places, pc)?;
    push_text(text, NO_INSTRUCTION)
}

/// Appends why an event is refused.
///
/// Errors: `AllocError` if an allocation fails.
#[tactic(auto, unfolding(crate::specs::Faults::fault_text))]
pub fn push_fault(text: &mut Vec<u8>, places: &Places, fault: EventFault) -> Result<(), AllocError>
    ensures ok { OnOk result (text.new.items ≡ text.old.items
        ++ fault_text places.now.names fault) }
{
    match fault {
        EventFault::CyclesFull => push_text(text, CYCLES_FULL),
        EventFault::Undocumented { opcode, pc } => push_undocumented(text, places, opcode, pc),
        EventFault::ConsoleFull => push_text(text, CONSOLE_FULL),
        EventFault::PastEnd => push_text(text, PAST_END),
        EventFault::PortAddress => push_text(text, PORT_ADDRESS),
        EventFault::BadLength => push_text(text, TOO_MANY_BYTES),
        EventFault::InputFull => push_text(text, INPUT_FULL),
    }
}
