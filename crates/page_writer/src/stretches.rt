//! Where a file has bytes, as a page has it.

ghost use Rattle.std.specs.Prelude.{◌≡◌, ◌<◌, ◌≤◌, ◌+◌, ◌++◌, IfOk, OnOk, drop, length};
ghost use Rattle.page_writer.specs.Facts.{loaded_facts, stretch_fact};

use accesses::Written;
use formatting::{push_address, push_count, push_text};
use std::alloc::AllocError;

/// Appends the stretch of so many bytes before an address, if it has one byte at least.
#[tactic(auto, unfolding(crate::specs::Facts::stretch_fact))]
fn push_stretch(text: &mut Vec<u8>, end: u32, len: u32) -> Result<(), AllocError>
    requires inside { len ≤ end }
    requires last { end ≤ 65536 }
    ensures { OnOk result (text.new.items ≡ text.old.items ++ stretch_fact end len) }
{
    if len == 0 {
        return Ok(());
    }
    push_text(text, "loaded ")?;
    push_address(text, (end - len) as u16)?;
    push_text(text, " ")?;
    push_count(text, len as u64)?;
    push_text(text, "\n")
}

/// For the proof: there is a mark for each address.
fn has_marks(written: &Written)
    ensures { length written.now ≡ 65536 }
{
    let _ = written.marks();
}

/// Appends the stretch before an address, if the address was not written, and returns how many
/// bytes stand right before the next one.
fn push_before(
    text: &mut Vec<u8>,
    written: &Written,
    address: u32,
    len: u32,
) -> Result<u32, AllocError>
    requires inside { len ≤ address }
    requires last { address < 65536 }
    requires all { length written.now ≡ 65536 }
    ensures told { IfOk result (λ next. text.new.items
        ++ loaded_facts (address + 1) next (drop (address + 1) written.now)
        ≡ text.old.items ++ loaded_facts address len (drop address written.now)) }
    ensures within { IfOk result (λ next. next ≤ address + 1) }
{
    if written.contains(address as u16) {
        return Ok(len + 1);
    }
    push_stretch(text, address, len)?;
    Ok(0)
}

/// Appends a fact for each stretch of addresses that were written.
pub fn push_loaded(text: &mut Vec<u8>, written: &Written) -> Result<(), AllocError>
    ensures { OnOk result (text.new.items ≡ text.old.items ++ loaded_facts 0 0 written.now) }
{
    has_marks(written);
    let mut len = 0;
    for address in 0..65536u32 {
        len = push_before(text, written, address, len)?;
    }
    push_stretch(text, 65536, len)
}
