//! What each line shows that only looks.

ghost use Rattle.std.specs.Prelude.{◌≡◌, ◌++◌, OnOk};
ghost use Rattle.mon_session.specs.Course.{ShowsOnly};
ghost use Rattle.mon_dispatch.specs.LookTexts.{instructions_text, look_text, rows_text};

use crate::finding::find;
use crate::forms::push_forms;
use mon_lines::Command;
use mon_session::MonState;
use mon_texts::{push_flags, push_help, push_memory, push_screen, push_stack, push_state};
use std::alloc::AllocError;

/// The most rows that are shown at once.
const MOST_ROWS: u32 = 256;

/// Shows `count` rows of instructions or data from an address on, up to the one that ends at FFFF
/// or goes past it.
fn show_rows(mon: &mut MonState, address: u16, count: u32) -> Result<(), AllocError>
    ensures shows { ShowsOnly mon.old mon.new }
    ensures text { OnOk result (mon.new.text.items ≡ mon.old.text.items
        ++ rows_text count mon.old.session.current mon.old.places address) }
{
    let mut at = address;
    for _ in 0..count {
        let length = mon.show_listed(at)?;
        match at.checked_add(length as u16) {
            Some(next) => at = next,
            None => return Ok(()),
        }
    }
    Ok(())
}

/// Shows instructions from an address on, at most 256 of them.
fn show_instructions(mon: &mut MonState, address: u16, count: u32) -> Result<(), AllocError>
    ensures shows { ShowsOnly mon.old mon.new }
    ensures text { OnOk result (mon.new.text.items ≡ mon.old.text.items
        ++ instructions_text count mon.old.session.current mon.old.places address) }
{
    show_rows(mon, address, count.min(MOST_ROWS))
}

/// Shows what a line asks for that changes nothing. Other lines show nothing here.
///
/// Errors: `AllocError` if an allocation fails.
pub fn look(mon: &mut MonState, command: &Command<'_>) -> Result<(), AllocError>
    ensures shows { ShowsOnly mon.old mon.new }
    ensures text { OnOk result (mon.new.text.items ≡ mon.old.text.items
        ++ look_text command.now mon.old.session.current mon.old.places) }
{
    match command {
        Command::Regs => push_state(&mut mon.text, &mon.session, &mon.places, None),
        Command::Flags => push_flags(&mut mon.text, &mon.session),
        Command::Mem(stretch) => push_memory(&mut mon.text, &mon.session, *stretch),
        Command::Dis { address, count } => show_instructions(mon, *address, *count),
        Command::Find(bytes) => find(mon, bytes.as_slice()),
        Command::Stack => push_stack(&mut mon.text, &mon.session, &mon.places),
        Command::Screen => push_screen(&mut mon.text, &mon.session),
        Command::Help(topic) => push_help(&mut mon.text, *topic),
        Command::Forms(mnemonic) => { push_forms(&mut mon.text, mon.session.profile(), *mnemonic) }
        _ => Ok(()),
    }
}
