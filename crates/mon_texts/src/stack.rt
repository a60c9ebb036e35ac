//! The stack, entry by entry.

ghost use Rattle.std.specs.Prelude.{◌≡◌, ◌<◌, ◌≤◌, ◌++◌, OnOk};
ghost use Rattle.mon_texts.specs.Pushed.{entries, entry_len};
ghost use Rattle.mon_texts.specs.Stack.{byte_row, entry_of, entry_row, pair_columns, return_row};
ghost use Rattle.mon_texts.specs.Stack.{return_text, stack_text, status_row, status_text};

use crate::memory::push_stack_line;
use crate::pushed::{Pushed, pushed_at, pushed_len};
use crate::state::letters;
use crate::wording::{BREAK_FROM, INTERRUPTED_AT, OF, RETURN_TO, STATUS};
use debugger::Session;
use formatting::{push_address, push_byte, push_text};
use model::Flags;
use mon_instructions::{push_byte_column, push_front, push_instruction, push_place};
use source_map::Places;
use std::alloc::AllocError;

/// Appends where a JSR returns to, and the JSR.
#[tactic(auto, unfolding(crate::specs::Stack::return_text))]
fn push_return(
    text: &mut Vec<u8>,
    session: &Session,
    places: &Places,
    jsr: u16,
) -> Result<(), AllocError>
    ensures { OnOk result (text.new.items ≡ text.old.items
        ++ return_text session.now.current places.now.names jsr) }
{
    push_text(text, RETURN_TO)?;
    push_place(text, places, jsr.wrapping_add(3))?;
    push_text(text, OF)?;
    push_instruction(text, session, places, jsr)?;
    push_text(text, "\n")
}

/// Appends an address and two bytes.
#[tactic(auto, unfolding(crate::specs::Stack::pair_columns))]
fn push_pair(text: &mut Vec<u8>, address: u16, low: u8, high: u8) -> Result<(), AllocError>
    ensures { OnOk result (text.new.items ≡ text.old.items ++ pair_columns address low high) }
{
    push_address(text, address)?;
    push_text(text, "  ")?;
    push_byte_column(text, low)?;
    push_byte_column(text, high)?;
    push_text(text, " ")
}

/// Appends the row of the return address that a JSR has pushed.
fn push_return_row(
    text: &mut Vec<u8>,
    session: &Session,
    places: &Places,
    address: u16,
    jsr: u16,
) -> Result<(), AllocError>
    requires { address < 512 }
    ensures { OnOk result (text.new.items ≡ text.old.items
        ++ return_row session.now.current places.now.names address jsr) }
{
    push_pair(
        text,
        address,
        session.peek(address),
        session.peek(address + 1),
    )?;
    push_return(text, session, places, jsr)
}

/// Appends words, a place, and the flags in a byte.
#[tactic(auto, unfolding(crate::specs::Stack::status_text))]
fn push_status(
    text: &mut Vec<u8>,
    places: &Places,
    words: &str,
    at: u16,
    status: u8,
) -> Result<(), AllocError>
    ensures { OnOk result (text.new.items ≡ text.old.items
        ++ status_text words.now places.now.names at status) }
{
    push_text(text, words)?;
    push_place(text, places, at)?;
    push_text(text, STATUS)?;
    text.extend_from_slice(&letters(Flags::from_byte(status)))?;
    push_text(text, "\n")
}

/// Appends the row of P and the address that a BRK or an interrupt has pushed.
fn push_status_row(
    text: &mut Vec<u8>,
    session: &Session,
    places: &Places,
    words: &str,
    address: u16,
    at: u16,
) -> Result<(), AllocError>
    ensures { OnOk result (text.new.items ≡ text.old.items
        ++ status_row words.now session.now.current places.now.names address at) }
{
    push_front(text, session, address, 3)?;
    push_status(text, places, words, at, session.peek(address))
}

/// Appends the row of a byte.
#[tactic(auto, unfolding(crate::specs::Stack::byte_row))]
fn push_byte_row(text: &mut Vec<u8>, address: u16, byte: u8) -> Result<(), AllocError>
    ensures { OnOk result (text.new.items ≡ text.old.items ++ byte_row address byte) }
{
    push_address(text, address)?;
    push_text(text, "  ")?;
    push_byte(text, byte)?;
    push_text(text, "\n")
}

/// Appends the row of what was pushed.
fn push_entry_of(
    text: &mut Vec<u8>,
    session: &Session,
    places: &Places,
    address: u16,
    pushed: Pushed,
) -> Result<(), AllocError>
    requires { address < 512 }
    ensures { OnOk result (text.new.items ≡ text.old.items
        ++ entry_of session.now.current places.now.names address pushed) }
{
    match pushed {
        Pushed::Call(jsr) => push_return_row(text, session, places, address, jsr),
        Pushed::Break(at) => push_status_row(text, session, places, BREAK_FROM, address, at),
        Pushed::Interrupt(at) => {
            push_status_row(text, session, places, INTERRUPTED_AT, address, at)
        }
        Pushed::Byte => push_byte_row(text, address, session.peek(address)),
    }
}

/// Appends the row of an entry of the stack.
fn push_entry(
    text: &mut Vec<u8>,
    session: &Session,
    places: &Places,
    address: u16,
) -> Result<(), AllocError>
    requires { address < 512 }
    ensures { OnOk result (text.new.items ≡ text.old.items
        ++ entry_row session.now.current places.now address) }
{
    push_entry_of(
        text,
        session,
        places,
        address,
        pushed_at(session, places, address),
    )
}

/// Appends the rows of the entries from an address of the stack on.
fn push_entries(
    text: &mut Vec<u8>,
    session: &Session,
    places: &Places,
    first: u16,
) -> Result<(), AllocError>
    requires { first ≤ 512 }
    ensures { OnOk result (text.new.items ≡ text.old.items
        ++ entries 256 (entry_row session.now.current places.now)
        (entry_len session.now.current.bus.memory places.now.lines) first) }
{
    let mut address = first;
    for _ in 0..256u16 {
        if address >= 512 {
            return Ok(());
        }
        push_entry(text, session, places, address)?;
        address += pushed_len(pushed_at(session, places, address));
    }
    Ok(())
}

/// Appends the bytes on the stack, and a row for each entry, the top one first: where a return
/// address leads and which JSR has pushed it, P and what an interrupt or a BRK came before, or the
/// byte. `pushed_at` says what is taken for what.
///
/// Errors: `AllocError` if an allocation fails.
pub fn push_stack(text: &mut Vec<u8>, session: &Session, places: &Places) -> Result<(), AllocError>
    ensures ok { OnOk result (text.new.items ≡ text.old.items
        ++ stack_text session.now.current places.now) }
{
    push_stack_line(text, session)?;
    push_entries(text, session, places, 257 + session.regs().s as u16)
}
