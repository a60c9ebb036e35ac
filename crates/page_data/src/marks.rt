//! Eight bytes of which those that are 0 are left out.

ghost use Rattle.std.specs.Prelude.{◌≡◌, ◌≤◌, ◌++◌, ◌==◌, OnOk, not};
ghost use Rattle.model.specs.Arithmetic.{bit};
ghost use Rattle.page_data.specs.Format.{marks, without_zeros};

use std::alloc::AllocError;

/// Returns 0 for a byte that is 0, and otherwise 1.
fn mark(byte: u8) -> u8
    ensures value { result ≡ bit (not (byte == 0)) }
    ensures within { result ≤ 1 }
{
    if byte == 0 { 0 } else { 1 }
}

/// Returns which of eight bytes are not 0, the first in bit 0.
#[tactic(auto, unfolding(crate::specs::Format::marks))]
pub fn marks(bytes: [u8; 8]) -> u8
    ensures { result ≡ marks bytes }
{
    let [a, b, c, d, e, f, g, h] = bytes;
    let low = mark(a) + 2 * (mark(b) + 2 * (mark(c) + 2 * mark(d)));
    let high = mark(e) + 2 * (mark(f) + 2 * (mark(g) + 2 * mark(h)));
    low + 16 * high
}

/// Appends the bytes that are not 0.
pub fn push_marked(written: &mut Vec<u8>, bytes: &[u8]) -> Result<(), AllocError>
    ensures { OnOk result (written.new.items ≡ written.old.items ++ without_zeros bytes.now) }
{
    for byte in bytes {
        if *byte == 0 {
            continue;
        }
        written.push(*byte)?;
    }
    Ok(())
}
