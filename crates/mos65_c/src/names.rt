//! The names of a source, and why a source or a tape is refused.

ghost use Rattle.std.specs.Prelude.{◌≡◌, length, None, slice_get, Some};
ghost use Rattle.assembler.specs.Assembly.{AssemblyView};
ghost use Rattle.model.specs.Names.{number_in};
ghost use Rattle.mos65_c.specs.Answers.{AnswersEntry, AnswersName, no_fault};

use crate::machine::{CLOSED, MISUSE, Mos65Assembly, NO_SUCH_NAME};

/// Why a source or a tape was refused.
#[repr(C)]
#[derive(Clone, Copy, Drop)]
pub struct Fault {
    /// The status that was answered.
    pub status: u32,
    /// The line of a source, counted from 1; else 0.
    pub line: u32,
    /// The byte of a tape, counted from 0; else 0.
    pub offset: u64,
}

impl Fault {
    /// Makes the fault of a call that was done.
    pub fn none() -> Fault
        ensures { result ≡ no_fault }
    {
        Fault {
            status: 0,
            line: 0,
            offset: 0,
        }
    }
}

/// Tells the number of a name that the source defines.
#[unsafe(no_mangle)]
pub extern "C" fn mos65_symbol(assembly: &mut Mos65Assembly, name: &[u8], value: &mut i32) -> u32
    ensures live { (x : AssemblyView) → assembly.old.slot.assembly ≡ Some x
        → AnswersName (number_in x.names name.now) result value.old value.new }
    ensures gone { assembly.old.slot.assembly ≡ None → (result ≡ 1) × (value.new ≡ value.old) }
    ensures same { assembly.new.slot.assembly ≡ assembly.old.slot.assembly }
{
    if !assembly.live {
        return CLOSED;
    }
    match assembly.slot.inside().value_of(name) {
        Some(number) => {
            *value = number;
            0
        }
        None => NO_SUCH_NAME,
    }
}

/// Tells how many names the source defines.
#[unsafe(no_mangle)]
pub extern "C" fn mos65_symbol_count(assembly: &mut Mos65Assembly, count: &mut usize) -> u32
    ensures live { (x : AssemblyView) → assembly.old.slot.assembly ≡ Some x
        → (result ≡ 0) × (count.new ≡ length x.names) }
    ensures gone { assembly.old.slot.assembly ≡ None → (result ≡ 1) × (count.new ≡ count.old) }
    ensures same { assembly.new.slot.assembly ≡ assembly.old.slot.assembly }
{
    if !assembly.live {
        return CLOSED;
    }
    *count = assembly.slot.inside().symbol_count();
    0
}

/// Tells a name and its number by its place in the order of definition, counted from 0. The name's
/// bytes go to the beginning of `name`, which has room for the name.
#[unsafe(no_mangle)]
pub extern "C" fn mos65_symbol_at(
    assembly: &mut Mos65Assembly,
    index: usize,
    name: &mut [u8],
    count: &mut usize,
    value: &mut i32,
) -> u32
    ensures live { (x : AssemblyView) → assembly.old.slot.assembly ≡ Some x
        → AnswersEntry (slice_get x.names index) name.old count.old value.old result name.new
        count.new value.new }
    ensures gone { assembly.old.slot.assembly ≡ None → (result ≡ 1) × (name.new ≡ name.old)
        × (count.new ≡ count.old) × (value.new ≡ value.old) }
    ensures same { assembly.new.slot.assembly ≡ assembly.old.slot.assembly }
{
    if !assembly.live {
        return CLOSED;
    }
    match assembly.slot.inside().symbol(index) {
        None => NO_SUCH_NAME,
        Some((text, number)) => {
            if text.len() > name.len() {
                return MISUSE;
            }
            name[..text.len()].copy_from_slice(text);
            *count = text.len();
            *value = number;
            0
        }
    }
}
