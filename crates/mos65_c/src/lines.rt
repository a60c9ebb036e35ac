//! The lines of a source.

ghost use Rattle.std.specs.Prelude.{◌≡◌, length, None, slice_get, Some};
ghost use Rattle.assembler.specs.Assembly.{AssemblyView, source_lines};
ghost use Rattle.mos65_c.specs.Answers.{AnswersLine};

use crate::machine::{CLOSED, MISUSE, Mos65Assembly, NO_SUCH_LINE};

/// A line that was read, without its text.
#[repr(C)]
#[derive(Clone, Copy, Drop)]
pub struct Line {
    /// Its number, counted from 1.
    pub number: u32,
    /// Its address: 65,536 at most.
    pub address: u32,
    /// How many bytes it denotes.
    pub count: u32,
    /// Whether it is an instruction, and no directive.
    pub is_instruction: bool,
}

/// Tells how many lines of the source were read.
#[unsafe(no_mangle)]
pub extern "C" fn mos65_line_count(assembly: &mut Mos65Assembly, count: &mut usize) -> u32
    ensures live { (x : AssemblyView) → assembly.old.slot.assembly ≡ Some x
        → (result ≡ 0) × (count.new ≡ length (source_lines x)) }
    ensures gone { assembly.old.slot.assembly ≡ None → (result ≡ 1) × (count.new ≡ count.old) }
    ensures same { assembly.new.slot.assembly ≡ assembly.old.slot.assembly }
{
    if !assembly.live {
        return CLOSED;
    }
    *count = assembly.slot.inside().line_count();
    0
}

/// Tells a line that was read by its index, counted from 0. The bytes of its text go to the
/// beginning of `text`, which has room for the text.
#[unsafe(no_mangle)]
pub extern "C" fn mos65_line(
    assembly: &mut Mos65Assembly,
    index: usize,
    line: &mut Line,
    text: &mut [u8],
    count: &mut usize,
) -> u32
    ensures live { (x : AssemblyView) → assembly.old.slot.assembly ≡ Some x
        → AnswersLine (slice_get (source_lines x) index) line.old text.old count.old result
        line.new text.new count.new }
    ensures gone { assembly.old.slot.assembly ≡ None → (result ≡ 1) × (line.new ≡ line.old)
        × (text.new ≡ text.old) × (count.new ≡ count.old) }
    ensures same { assembly.new.slot.assembly ≡ assembly.old.slot.assembly }
{
    if !assembly.live {
        return CLOSED;
    }
    match assembly.slot.inside().line(index) {
        None => NO_SUCH_LINE,
        Some(found) => {
            if found.text.len() > text.len() {
                return MISUSE;
            }
            text[..found.text.len()].copy_from_slice(found.text);
            *count = found.text.len();
            *line = Line {
                number: found.number,
                address: found.address,
                count: found.count,
                is_instruction: found.is_instruction,
            };
            0
        }
    }
}
