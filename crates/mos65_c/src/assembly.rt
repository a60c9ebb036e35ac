//! Sources assembled.

ghost use Rattle.std.specs.Prelude.{◌≡◌, ◌≢◌, ◌<◌, Err, length, None, Some, take};
ghost use Rattle.law_sources.specs.Judging.{too_large};
ghost use Rattle.assembler.specs.Assembly.{AssemblyView, listing_of};
ghost use Rattle.clean_source.specs.Cleaned.{cleaned};
ghost use Rattle.model.specs.TapeText.{tape_text};
ghost use Rattle.mos65_c.specs.Answers.{AnswersSource, AssemblesText, no_fault, written};
ghost use Rattle.mos65_c.specs.Status.{config_map, config_status};

use crate::config::{Config, map_of};
use crate::machine::{CLOSED, MISUSE, Mos65Assembly, OUT_OF_MEMORY};
use crate::names::Fault;
use crate::texts::tell;
use assembler::{Assembly, assemble};
use bus::MapSpec;
use clean_source::clean_source;
use model::{AsmFault, AsmFaultKind};
use papertape::write_tape;
use slot::AssemblySlot;
use std::alloc::Global;

/// The most bytes that a source has (mos65).
const SOURCE_SIZE: usize = 1_048_576;

/// Assembles the text that is read in the place of a source, as `clean_source` says.
///
/// Errors: the text's fault, or `OutOfMemory` if an allocation fails. A source that is too large is
/// refused for that in any case.
fn assembled(alloc: Global, source: &[u8], map: &MapSpec) -> Result<Assembly, AsmFault>
    ensures text { AssemblesText map.now (cleaned source.now) result }
    ensures large { 1048576 < length source.now → result ≡ Err too_large }
{
    if source.len() > SOURCE_SIZE {
        return assemble(alloc, source, map);
    }
    match clean_source(alloc, source) {
        Ok(text) => assemble(alloc, &text, map),
        Err(_) => Err(AsmFault {
            line: 0,
            kind: AsmFaultKind::OutOfMemory,
        }),
    }
}

/// Assembles the text that is read in the place of a source, as `clean_source` says, for a
/// configuration's map; where that text is refused, its fault and its line are told.
#[unsafe(no_mangle)]
pub extern "C" fn mos65_assemble(
    alloc: Global,
    assembly: &mut Mos65Assembly,
    config: &Config,
    source: &[u8],
    fault: &mut Fault,
) -> u32
    ensures assembled { assembly.old.slot.assembly ≡ None → config_status config.now ≡ 0
        → AnswersSource (config_map config.now) source.now result fault.new
        assembly.new.slot.assembly }
    ensures config { assembly.old.slot.assembly ≡ None → config_status config.now ≢ 0
        → (result ≡ config_status config.now) × (assembly.new.slot.assembly ≡ None)
        × (fault.new ≡ no_fault) }
    ensures busy { (x : AssemblyView) → assembly.old.slot.assembly ≡ Some x
        → (result ≡ 2) × (assembly.new.slot.assembly ≡ Some x) × (fault.new ≡ no_fault) }
{
    *fault = Fault::none();
    if assembly.live {
        return MISUSE;
    }
    let map = match map_of(config) {
        Ok(map) => map,
        Err(status) => return status,
    };
    match assembled(alloc, source, &map) {
        Ok(made) => match Box::new(alloc, made) {
            Ok(boxed) => {
                *assembly = Mos65Assembly {
                    slot: AssemblySlot::of(boxed),
                    live: true,
                };
                0
            }
            Err(_) => OUT_OF_MEMORY,
        },
        Err(refusal) => {
            let status = 300 + refusal.kind.number() as u32;
            *fault = Fault {
                status,
                line: refusal.line,
                offset: 0,
            };
            status
        }
    }
}

/// Writes the beginning of the listing for which `out` has room, and tells how long the whole
/// listing is.
#[unsafe(no_mangle)]
pub extern "C" fn mos65_listing(
    alloc: Global,
    assembly: &mut Mos65Assembly,
    out: &mut [u8],
    count: &mut usize,
) -> u32
    ensures live { (x : AssemblyView) → assembly.old.slot.assembly ≡ Some x → result ≢ 3
        → (result ≡ 0) × (count.new ≡ length (listing_of x))
        × (out.new ≡ written (take (length out.old) (listing_of x)) out.old) }
    ensures memory { (x : AssemblyView) → assembly.old.slot.assembly ≡ Some x → result ≡ 3
        → (out.new ≡ out.old) × (count.new ≡ count.old) }
    ensures gone { assembly.old.slot.assembly ≡ None
        → (result ≡ 1) × (out.new ≡ out.old) × (count.new ≡ count.old) }
    ensures same { assembly.new.slot.assembly ≡ assembly.old.slot.assembly }
{
    if !assembly.live {
        return CLOSED;
    }
    let Ok(text) = assembly.slot.inside().listing(alloc) else {
        return OUT_OF_MEMORY;
    };
    tell(&text, out, count);
    0
}

/// Writes the beginning of the tape of an assembly's image for which `out` has room, and tells how
/// long the whole tape is.
#[unsafe(no_mangle)]
pub extern "C" fn mos65_tape(
    alloc: Global,
    assembly: &mut Mos65Assembly,
    out: &mut [u8],
    count: &mut usize,
) -> u32
    ensures live { (x : AssemblyView) → assembly.old.slot.assembly ≡ Some x → result ≢ 3
        → (result ≡ 0) × (count.new ≡ length (tape_text x.image))
        × (out.new ≡ written (take (length out.old) (tape_text x.image)) out.old) }
    ensures memory { (x : AssemblyView) → assembly.old.slot.assembly ≡ Some x → result ≡ 3
        → (out.new ≡ out.old) × (count.new ≡ count.old) }
    ensures gone { assembly.old.slot.assembly ≡ None
        → (result ≡ 1) × (out.new ≡ out.old) × (count.new ≡ count.old) }
    ensures same { assembly.new.slot.assembly ≡ assembly.old.slot.assembly }
{
    if !assembly.live {
        return CLOSED;
    }
    let Ok(text) = write_tape(alloc, assembly.slot.inside().image()) else {
        return OUT_OF_MEMORY;
    };
    tell(&text, out, count);
    0
}

/// Closes an assembly and frees what it held.
#[unsafe(no_mangle)]
pub extern "C" fn mos65_assembly_close(alloc: Global, assembly: &mut Mos65Assembly) -> u32
    ensures closed { assembly.new.slot.assembly ≡ None }
    ensures live { (x : AssemblyView) → assembly.old.slot.assembly ≡ Some x → result ≡ 0 }
    ensures gone { assembly.old.slot.assembly ≡ None → result ≡ 1 }
{
    let empty = Mos65Assembly {
        slot: AssemblySlot::empty(alloc),
        live: false,
    };
    let Mos65Assembly { slot, live } = std::mem::replace(assembly, empty);
    if !live {
        return CLOSED;
    }
    drop(slot.into_box());
    0
}
