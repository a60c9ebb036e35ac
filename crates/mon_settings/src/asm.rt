//! Lines that assemble an instruction into memory.

ghost use Rattle.std.specs.Prelude.{◌≡◌, ◌++◌, IsErr, OnErr, OnOk, Some, codes};
ghost use Rattle.model.specs.FaultNames.{source_fault_name};
ghost use Rattle.model.specs.declared.event.Event.TheVariants.{Patch};
ghost use Rattle.mon_line_parts.specs.declared.topic.Topic.TheVariants.{Asm};
ghost use Rattle.mon_texts.specs.Help.{example_text};
ghost use Rattle.mon_settings.specs.ByteLines.{assembled};
ghost use Rattle.mon_settings.specs.Names.{without_names};
ghost use Rattle.mon_settings.specs.ChangeTexts.{assembled_text, not_assembled_text, patched_text};
ghost use Rattle.mon_session.specs.Course.{IsEither, KeepsStops, ShowsOnly, course_of, happened};

use crate::names::without_names;
use crate::wording::NOT_ASSEMBLED;
use assembler::{Line, assemble_line_in};
use model::AsmFaultKind;
use mon_line_parts::Topic;
use mon_runs::Event;
use mon_session::MonState;
use mon_texts::push_example;
use std::alloc::{AllocError, Global};

/// Puts an assembled line into memory, and shows it.
#[tactic(auto, using(crate::proofs::Made::said))]
fn put_line(mon: &mut MonState, address: u16, line: Line) -> Result<(), AllocError>
    ensures course { course_of mon.new
        ≡ happened (Patch address line.bytes line.count) (course_of mon.old) }
    ensures stops { KeepsStops mon.old mon.new }
    ensures text { OnOk result (mon.new.text.items ≡ mon.old.text.items
        ++ patched_text mon.old.places address (Patch address line.bytes line.count)
        (course_of mon.old)) }
{
    let bytes = line.bytes;
    let count = line.count;
    let patch = Event::Patch {
        address,
        bytes,
        count,
    };
    if mon.happen(patch)? {
        mon.show_row(address)?;
    }
    Ok(())
}

/// Says the name of a fault, and an example of the line.
fn say_fault(mon: &mut MonState, kind: AsmFaultKind) -> Result<(), AllocError>
    ensures shows { ShowsOnly mon.old mon.new }
    ensures text { OnOk result (mon.new.text.items ≡ mon.old.text.items
        ++ (source_fault_name kind ++ (example_text (Some Asm) ++ codes "\n"))) }
{
    mon.say(kind.name())?;
    push_example(&mut mon.text, Some(Topic::Asm))?;
    mon.say("\n")
}

/// Says why a text is not assembled.
fn say_not_assembled(mon: &mut MonState, kind: AsmFaultKind) -> Result<(), AllocError>
    ensures shows { ShowsOnly mon.old mon.new }
    ensures text { OnOk result (mon.new.text.items ≡ mon.old.text.items
        ++ not_assembled_text kind) }
{
    mon.say(NOT_ASSEMBLED)?;
    say_fault(mon, kind)
}

/// Says why a text is not assembled, unless memory ran out.
fn refuse_line(mon: &mut MonState, kind: AsmFaultKind) -> Result<(), AllocError>
    ensures shows { ShowsOnly mon.old mon.new }
    ensures memory { kind ≡ AsmFaultKind.OutOfMemory → IsErr result }
    ensures text { OnOk result (mon.new.text.items ≡ mon.old.text.items
        ++ not_assembled_text kind) }
{
    match kind {
        AsmFaultKind::OutOfMemory => Err(AllocError),
        kind => say_not_assembled(mon, kind),
    }
}

/// Assembles a text without names into memory.
fn assemble_text(
    mon: &mut MonState,
    alloc: Global,
    address: u16,
    text: &[u8],
) -> Result<(), AllocError>
    ensures course { OnOk result (course_of mon.new
        ≡ assembled address text.now (course_of mon.old)) }
    ensures memory { OnErr result (IsEither (course_of mon.new) (course_of mon.old)
        (assembled address text.now (course_of mon.old))) }
    ensures stops { KeepsStops mon.old mon.new }
    ensures text { OnOk result (mon.new.text.items ≡ mon.old.text.items
        ++ assembled_text mon.old.places address text.now (course_of mon.old)) }
{
    match assemble_line_in(alloc, mon.session.profile(), address, text) {
        Ok(line) => put_line(mon, address, line),
        Err(fault) => refuse_line(mon, fault.kind),
    }
}

/// Assembles an instruction into memory, and shows it, or says why it is not assembled. Names in it
/// stand for their addresses.
///
/// Errors: `AllocError` if an allocation fails; the bytes may be in memory then.
pub fn assemble(
    mon: &mut MonState,
    alloc: Global,
    address: u16,
    line: &[u8],
) -> Result<(), AllocError>
    ensures course { OnOk result (course_of mon.new ≡ assembled address
        (without_names mon.old.places.names line.now) (course_of mon.old)) }
    ensures memory { OnErr result (IsEither (course_of mon.new) (course_of mon.old)
        (assembled address (without_names mon.old.places.names line.now)
        (course_of mon.old))) }
    ensures stops { KeepsStops mon.old mon.new }
    ensures text { OnOk result (mon.new.text.items ≡ mon.old.text.items
        ++ assembled_text mon.old.places address
        (without_names mon.old.places.names line.now) (course_of mon.old)) }
{
    let text = without_names(alloc, line, &mon.places)?;
    assemble_text(mon, alloc, address, &text)
}
