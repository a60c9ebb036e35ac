//! What was read of a debug file so far.

ghost use Rattle.std.specs.Prelude.{◌≡◌, ◌<◌, ◌^◌, ◌++◌, OnOk, length, map};
ghost use Rattle.debug_records.specs.Faults.{Gives};
ghost use Rattle.debug_records.specs.Reading.{nothing_read, use_of, with_file, with_line};
ghost use Rattle.debug_records.specs.Reading.{with_major, with_module, with_record, with_reference};
ghost use Rattle.debug_records.specs.Reading.{with_said, with_segment, with_span, with_symbol};
ghost use Rattle.debug_records.specs.Reading.{reference_of, with_text, with_uses, with_version};
ghost use Rattle.debug_records.specs.Reading.{number_of_place, with_c_symbol, with_new_c_symbol};
ghost use Rattle.debug_records.specs.Reading.{with_new_scope, with_reference_if, with_scope};
ghost use Rattle.debug_records.specs.Reading.{with_stored};
ghost use Rattle.debug_records.specs.Views.{c_symbol_view, field_view, reading_view, said_view};
ghost use Rattle.debug_records.specs.Views.{scope_view};
ghost use Rattle.debug_records.specs.declared.reference.Target.TheVariants as target;

use crate::fault::{DebugFaultKind, LineError, LineFault, Place};
use crate::fields::{Field, Said, is_same, said_by};
use crate::info::{DebugInfo, Use, no_info, put_new};
use crate::numbers::{Placed, numbers_in, placed_in, placed_or_none};
use crate::record::{CSymbol, Scope, Storage};
use crate::record_fields::{
    c_symbol_of, file_of, line_of, scope_of, segment_of, span_of, storage_in, symbol_of,
};
use crate::reference::{Reference, Target, reference_of};
use std::alloc::{AllocError, Global};

/// The most files.
const MOST_FILES: u32 = 4096;

/// The most records of any other word, and the most spans of lines.
const MOST_RECORDS: u32 = 262_144;

/// What was read so far: whether there was a version, the records, and the references among them.
#[derive(Drop)]
pub struct Reading<'a> {
    pub is_versioned: bool,
    pub info: DebugInfo<'a>,
    pub references: Vec<Reference>,
}

/// Returns what was read of no line.
pub fn nothing_read<'a>(alloc: Global) -> Reading<'a>
    ensures { reading_view result ≡ nothing_read }
{
    Reading {
        is_versioned: false,
        info: no_info(alloc),
        references: Vec::new(alloc),
    }
}

/// Appends a reference that stands in a line.
fn push_reference(
    reading: &mut Reading<'_>,
    place: Place,
    target: Target,
    id: Placed,
) -> Result<(), AllocError>
    requires { place.length < 2 ^ 32 }
    ensures { OnOk result (reading_view reading.new
        ≡ with_reference place target id (reading_view reading.old)) }
{
    reading.references.push(reference_of(place, target, id))?;
    Ok(())
}

/// Takes a record `file`.
#[tactic(auto, unfolding(crate::specs::Reading::with_file))]
fn push_file<'a>(reading: &mut Reading<'a>, fields: &[Field<'a>]) -> Result<(), LineError>
    ensures { Gives (λ _. reading_view reading.new) result
        (with_file (map field_view fields.now) (reading_view reading.old)) }
{
    let id = placed_in(fields, b"id")?;
    let file = file_of(fields)?;
    put_new(&mut reading.info.files, MOST_FILES, id, file)
}

/// Takes a record `seg`.
#[tactic(auto, unfolding(crate::specs::Reading::with_segment))]
fn push_segment<'a>(reading: &mut Reading<'a>, fields: &[Field<'a>]) -> Result<(), LineError>
    ensures { Gives (λ _. reading_view reading.new) result
        (with_segment (map field_view fields.now) (reading_view reading.old)) }
{
    let id = placed_in(fields, b"id")?;
    let segment = segment_of(fields)?;
    put_new(&mut reading.info.segments, MOST_RECORDS, id, segment)
}

/// Takes a record `sym`.
#[tactic(auto, unfolding(crate::specs::Reading::with_symbol))]
fn push_symbol<'a>(reading: &mut Reading<'a>, fields: &[Field<'a>]) -> Result<(), LineError>
    ensures { Gives (λ _. reading_view reading.new) result
        (with_symbol (map field_view fields.now) (reading_view reading.old)) }
{
    let id = placed_in(fields, b"id")?;
    let symbol = symbol_of(fields)?;
    put_new(&mut reading.info.symbols, MOST_RECORDS, id, symbol)
}

/// Takes a record `span`.
#[tactic(auto, unfolding(crate::specs::Reading::with_span))]
fn push_span(reading: &mut Reading<'_>, place: Place, fields: &[Field<'_>]) -> Result<(), LineError>
    requires { place.length < 2 ^ 32 }
    ensures { Gives (λ _. reading_view reading.new) result
        (with_span place (map field_view fields.now) (reading_view reading.old)) }
{
    let id = placed_in(fields, b"id")?;
    let segment = placed_in(fields, b"seg")?;
    let span = span_of(segment.number, fields)?;
    put_new(&mut reading.info.spans, MOST_RECORDS, id, span)?;
    push_reference(reading, place, Target::Segment, segment)?;
    Ok(())
}

/// Takes a record `mod`.
#[tactic(auto, unfolding(crate::specs::Reading::with_module))]
fn push_module(
    reading: &mut Reading<'_>,
    place: Place,
    fields: &[Field<'_>],
) -> Result<(), LineError>
    requires { place.length < 2 ^ 32 }
    ensures { Gives (λ _. reading_view reading.new) result
        (with_module place (map field_view fields.now) (reading_view reading.old)) }
{
    let id = placed_in(fields, b"id")?;
    let file = placed_in(fields, b"file")?;
    put_new(&mut reading.info.modules, MOST_RECORDS, id, file.number)?;
    push_reference(reading, place, Target::File, file)?;
    Ok(())
}

/// Appends the uses of spans by a line.
fn push_each_use(uses: &mut Vec<Use>, line: u32, spans: &[Placed]) -> Result<(), AllocError>
    ensures { OnOk result (uses.new.items
        ≡ uses.old.items ++ map (use_of line) spans.now) }
{
    for span in spans {
        uses.push(Use {
            line,
            span: span.number,
        })?;
    }
    Ok(())
}

/// Appends references to spans.
fn push_each_reference(
    references: &mut Vec<Reference>,
    place: Place,
    spans: &[Placed],
) -> Result<(), AllocError>
    requires { place.length < 2 ^ 32 }
    ensures { OnOk result (references.new.items
        ≡ references.old.items ++ map (reference_of place target.Span) spans.now) }
{
    for span in spans {
        references.push(reference_of(place, Target::Span, *span))?;
    }
    Ok(())
}

/// Takes the spans of a line.
#[tactic(auto, unfolding(crate::specs::Reading::with_uses))]
fn push_uses(
    reading: &mut Reading<'_>,
    place: Place,
    id: Placed,
    spans: &[Placed],
) -> Result<(), LineError>
    requires { place.length < 2 ^ 32 }
    ensures { Gives (λ _. reading_view reading.new) result
        (with_uses place id spans.now (reading_view reading.old)) }
{
    if (MOST_RECORDS as usize) < reading.info.uses.len().saturating_add(spans.len()) {
        return Err(LineError::Fault(LineFault {
            kind: DebugFaultKind::TooMany,
            left: id.left,
        }));
    }
    push_each_use(&mut reading.info.uses, id.number, spans)?;
    push_each_reference(&mut reading.references, place, spans)?;
    Ok(())
}

/// Takes a record `line`.
#[tactic(auto, unfolding(crate::specs::Reading::with_line))]
fn push_line(
    alloc: Global,
    reading: &mut Reading<'_>,
    place: Place,
    fields: &[Field<'_>],
) -> Result<(), LineError>
    requires { place.length < 2 ^ 32 }
    ensures { Gives (λ _. reading_view reading.new) result
        (with_line place (map field_view fields.now) (reading_view reading.old)) }
{
    let id = placed_in(fields, b"id")?;
    let file = placed_in(fields, b"file")?;
    let line = line_of(file.number, fields)?;
    let spans = numbers_in(alloc, fields, b"span")?;
    put_new(&mut reading.info.lines, MOST_RECORDS, id, line)?;
    push_reference(reading, place, Target::File, file)?;
    push_uses(reading, place, id, spans.as_slice())?;
    Ok(())
}

/// Appends a reference that stands in a line, if there is one.
fn push_reference_if(
    reading: &mut Reading<'_>,
    place: Place,
    target: Target,
    id: Option<Placed>,
) -> Result<(), AllocError>
    requires { place.length < 2 ^ 32 }
    ensures { OnOk result (reading_view reading.new
        ≡ with_reference_if place target id (reading_view reading.old)) }
{
    match id {
        None => Ok(()),
        Some(id) => push_reference(reading, place, target, id),
    }
}

/// Returns the number of a place, if there is one.
fn number_of_place(placed: Option<Placed>) -> Option<u32>
    ensures { result ≡ number_of_place placed }
{
    Some(placed?.number)
}

/// Takes a scope.
#[tactic(auto, unfolding(crate::specs::Reading::with_new_scope))]
fn push_new_scope<'a>(
    reading: &mut Reading<'a>,
    id: Placed,
    scope: Scope<'a>,
) -> Result<(), LineError>
    ensures { Gives (λ _. reading_view reading.new) result
        (with_new_scope id (scope_view scope.entry) (reading_view reading.old)) }
{
    put_new(&mut reading.info.scopes, MOST_RECORDS, id, scope)
}

/// Takes a record `scope`.
#[tactic(auto, unfolding(crate::specs::Reading::with_scope))]
fn push_scope<'a>(
    reading: &mut Reading<'a>,
    place: Place,
    fields: &[Field<'a>],
) -> Result<(), LineError>
    requires { place.length < 2 ^ 32 }
    ensures { Gives (λ _. reading_view reading.new) result
        (with_scope place (map field_view fields.now) (reading_view reading.old)) }
{
    let id = placed_in(fields, b"id")?;
    let symbol = placed_or_none(fields, b"sym")?;
    let scope = scope_of(number_of_place(symbol), fields)?;
    push_new_scope(reading, id, scope)?;
    push_reference_if(reading, place, Target::Symbol, symbol)?;
    Ok(())
}

/// Takes a name of C.
#[tactic(auto, unfolding(crate::specs::Reading::with_new_c_symbol))]
fn push_new_c_symbol<'a>(
    reading: &mut Reading<'a>,
    id: Placed,
    name: CSymbol<'a>,
) -> Result<(), LineError>
    ensures { Gives (λ _. reading_view reading.new) result
        (with_new_c_symbol id (c_symbol_view name.entry) (reading_view reading.old)) }
{
    put_new(&mut reading.info.c_symbols, MOST_RECORDS, id, name)
}

/// Takes a record `csym` whose name is kept in a way that is known.
#[tactic(auto, unfolding(crate::specs::Reading::with_stored))]
fn push_stored<'a>(
    reading: &mut Reading<'a>,
    place: Place,
    fields: &[Field<'a>],
    storage: Storage,
) -> Result<(), LineError>
    requires { place.length < 2 ^ 32 }
    ensures { Gives (λ _. reading_view reading.new) result
        (with_stored place (map field_view fields.now) storage (reading_view reading.old)) }
{
    let id = placed_in(fields, b"id")?;
    let scope = placed_in(fields, b"scope")?;
    let symbol = placed_or_none(fields, b"sym")?;
    let name = c_symbol_of(storage, scope.number, number_of_place(symbol), fields)?;
    push_new_c_symbol(reading, id, name)?;
    push_reference(reading, place, Target::Scope, scope)?;
    push_reference_if(reading, place, Target::Symbol, symbol)?;
    Ok(())
}

/// Takes a record `csym`. It says nothing if its name is kept in a way that is not known.
#[tactic(auto, unfolding(crate::specs::Reading::with_c_symbol))]
fn push_c_symbol<'a>(
    reading: &mut Reading<'a>,
    place: Place,
    fields: &[Field<'a>],
) -> Result<(), LineError>
    requires { place.length < 2 ^ 32 }
    ensures { Gives (λ _. reading_view reading.new) result
        (with_c_symbol place (map field_view fields.now) (reading_view reading.old)) }
{
    match storage_in(fields)? {
        None => Ok(()),
        Some(storage) => push_stored(reading, place, fields, storage),
    }
}

/// Takes the major version.
fn take_major(reading: &mut Reading<'_>, major: Placed) -> Result<(), LineError>
    ensures { Gives (λ _. reading_view reading.new) result
        (with_major major (reading_view reading.old)) }
{
    if major.number == 2 {
        reading.is_versioned = true;
        Ok(())
    } else {
        Err(LineError::Fault(LineFault {
            kind: DebugFaultKind::OtherVersion,
            left: major.left,
        }))
    }
}

/// Takes a record `version`.
#[tactic(auto, unfolding(crate::specs::Reading::with_version))]
fn take_version(reading: &mut Reading<'_>, fields: &[Field<'_>]) -> Result<(), LineError>
    ensures { Gives (λ _. reading_view reading.new) result
        (with_version (map field_view fields.now) (reading_view reading.old)) }
{
    let major = placed_in(fields, b"major")?;
    take_major(reading, major)
}

/// Takes a record behind the version. A word that is not known says nothing.
#[tactic(auto, unfolding(crate::specs::Reading::with_record))]
fn push_record<'a>(
    alloc: Global,
    reading: &mut Reading<'a>,
    place: Place,
    said: &Said<'a>,
) -> Result<(), LineError>
    requires { place.length < 2 ^ 32 }
    ensures { Gives (λ _. reading_view reading.new) result
        (with_record place (said_view said.now) (reading_view reading.old)) }
{
    let fields = said.fields.as_slice();
    if is_same(said.word, b"line") {
        push_line(alloc, reading, place, fields)
    } else if is_same(said.word, b"span") {
        push_span(reading, place, fields)
    } else if is_same(said.word, b"file") {
        push_file(reading, fields)
    } else if is_same(said.word, b"seg") {
        push_segment(reading, fields)
    } else if is_same(said.word, b"sym") {
        push_symbol(reading, fields)
    } else if is_same(said.word, b"mod") {
        push_module(reading, place, fields)
    } else if is_same(said.word, b"scope") {
        push_scope(reading, place, fields)
    } else if is_same(said.word, b"csym") {
        push_c_symbol(reading, place, fields)
    } else {
        Ok(())
    }
}

/// Takes a record. The first one has to be the version.
#[tactic(auto, unfolding(crate::specs::Reading::with_said))]
fn push_said<'a>(
    alloc: Global,
    reading: &mut Reading<'a>,
    place: Place,
    said: &Said<'a>,
) -> Result<(), LineError>
    requires { place.length < 2 ^ 32 }
    ensures { Gives (λ _. reading_view reading.new) result
        (with_said place (said_view said.now) (reading_view reading.old)) }
{
    if is_same(said.word, b"version") {
        take_version(reading, said.fields.as_slice())
    } else if reading.is_versioned {
        push_record(alloc, reading, place, said)
    } else {
        Err(LineError::Fault(LineFault {
            kind: DebugFaultKind::NoVersion,
            left: place.length,
        }))
    }
}

/// Takes a line that has a number. An empty one says nothing.
#[tactic(auto, unfolding(crate::specs::Reading::with_text))]
pub fn push_text<'a>(
    alloc: Global,
    reading: &mut Reading<'a>,
    number: u32,
    line: &'a [u8],
) -> Result<(), LineError>
    requires { length line.now < 2 ^ 32 }
    ensures { Gives (λ _. reading_view reading.new) result
        (with_text number line.now (reading_view reading.old)) }
{
    if line.is_empty() {
        return Ok(());
    }
    let said = said_by(alloc, line)?;
    let place = Place {
        line: number,
        length: line.len(),
    };
    push_said(alloc, reading, place, &said)?;
    Ok(())
}
