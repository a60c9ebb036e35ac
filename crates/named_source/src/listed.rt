//! The text of a row, assembled.

ghost use Rattle.std.specs.Prelude.{◌≡◌, ◌<◌, IfErr, IfOk, length, take};
ghost use Rattle.assembler.specs.Assembly.{out_of_memory};
ghost use Rattle.model.specs.InstructionText.{row_of};

use assembler::{AsmFault, Line, Profile, assemble_line_in};
use disasm::line_in;
use law_texts::text_is_read_again;
use std::alloc::Global;

/// Lists the first row of some bytes in a profile, and assembles its text at the same address.
///
/// Returns the bytes that were listed: all bytes of an instruction, the one byte of a `.BYTE` row.
///
/// Errors: `OutOfMemory` if an allocation fails.
pub fn listed_again(
    alloc: Global,
    profile: Profile,
    bytes: &[u8],
    address: u16,
) -> Result<Line, AsmFault>
    requires { 0 < length bytes.now }
    ensures same { IfOk result
        (λ l. take l.count l.bytes ≡ take (row_of profile bytes.now address).len bytes.now) }
    ensures only { IfErr result (λ f. f ≡ out_of_memory) }
{
    // For the proof: what a row's text denotes.
    text_is_read_again();
    let row = line_in(profile, bytes, address);
    assemble_line_in(alloc, profile, address, &row.text[..row.text_len as usize])
}
