//! Records by their fields.

ghost use Rattle.std.specs.Prelude.{◌≡◌, codes, map, option_map};
ghost use Rattle.debug_records.specs.Faults.{seen};
ghost use Rattle.debug_records.specs.Fields.{field_in};
ghost use Rattle.debug_records.specs.Records.{file_of, kind_by, kind_of, kind_or_fault, line_of};
ghost use Rattle.debug_records.specs.Records.{is_word, output_by, segment_of, span_of};
ghost use Rattle.debug_records.specs.Records.{c_symbol_of, scope_of, storage_in, storage_of};
ghost use Rattle.debug_records.specs.Records.{symbol_of};
ghost use Rattle.debug_records.specs.Views.{c_symbol_view, field_view, file_view, output_view};
ghost use Rattle.debug_records.specs.Views.{scope_view, segment_view, symbol_view};

use crate::fault::{DebugFaultKind, LineFault};
use crate::fields::{Field, field_in, is_same};
use crate::numbers::{
    number_in, number_or, number_or_none, number_value, required, signed_or_zero, text_in,
    text_value,
};
use crate::record::{CSymbol, File, Line, LineKind, Output, Scope, Segment, Span, Storage, Symbol};

/// Returns the file that a record `file` tells of.
#[tactic(auto, unfolding(crate::specs::Records::file_of))]
pub fn file_of<'a>(fields: &[Field<'a>]) -> Result<File<'a>, LineFault>
    ensures { file_of (map field_view fields.now) ≡ seen file_view result }
{
    let name = text_in(fields, b"name")?;
    let size = number_in(fields, b"size")?;
    number_in(fields, b"mtime")?;
    Ok(File {
        name,
        size: Some(size),
    })
}

/// Returns where the bytes of a segment are, if its record says so.
fn output_of<'a>(fields: &[Field<'a>]) -> Result<Option<Output<'a>>, LineFault>
    ensures { output_by (map field_view fields.now)
        (field_in (map field_view fields.now) (codes "oname"))
        ≡ seen (option_map output_view) result }
{
    match field_in(fields, b"oname") {
        None => Ok(None),
        Some(field) => {
            let name = text_value(field)?;
            let offset = number_in(fields, b"ooffs")?;
            Ok(Some(Output { name, offset }))
        }
    }
}

/// Returns whether a record has this word as its type.
fn is_type(fields: &[Field<'_>], word: &[u8]) -> bool
    ensures { result ≡ is_word word.now (field_in (map field_view fields.now) (codes "type")) }
{
    match field_in(fields, b"type") {
        None => false,
        Some(field) => is_same(field.value, word),
    }
}

/// Returns the segment that a record `seg` tells of.
#[tactic(auto, unfolding(crate::specs::Records::segment_of))]
pub fn segment_of<'a>(fields: &[Field<'a>]) -> Result<Segment<'a>, LineFault>
    ensures { segment_of (map field_view fields.now) ≡ seen segment_view result }
{
    let name = text_in(fields, b"name")?;
    let start = number_in(fields, b"start")?;
    let size = number_in(fields, b"size")?;
    let is_read_only = is_type(fields, b"ro");
    let output = output_of(fields)?;
    Ok(Segment {
        name,
        start,
        size,
        is_read_only,
        output,
    })
}

/// Returns the symbol that a record `sym` tells of.
#[tactic(auto, unfolding(crate::specs::Records::symbol_of))]
pub fn symbol_of<'a>(fields: &[Field<'a>]) -> Result<Symbol<'a>, LineFault>
    ensures { symbol_of (map field_view fields.now) ≡ seen symbol_view result }
{
    let name = text_in(fields, b"name")?;
    let value = number_or_none(fields, b"val")?;
    let is_label = is_type(fields, b"lab");
    Ok(Symbol {
        name,
        value,
        is_label,
    })
}

/// Returns the span that a record `span` tells of.
#[tactic(auto, unfolding(crate::specs::Records::span_of))]
pub fn span_of(segment: u32, fields: &[Field<'_>]) -> Result<Span, LineFault>
    ensures { span_of segment (map field_view fields.now) ≡ result }
{
    let start = number_in(fields, b"start")?;
    let size = number_in(fields, b"size")?;
    let is_data = field_in(fields, b"type").is_some();
    Ok(Span {
        segment,
        start,
        size,
        is_data,
    })
}

/// Returns the kind of a number.
fn kind_of(number: u32) -> Option<LineKind>
    ensures { result ≡ kind_of number }
{
    match number {
        0 => Some(LineKind::Assembler),
        1 => Some(LineKind::C),
        2 => Some(LineKind::Macro),
        3 => Some(LineKind::Parameter),
        _ => None,
    }
}

/// Returns a kind, if there is one.
fn kind_or_fault(left: usize, kind: Option<LineKind>) -> Result<LineKind, LineFault>
    ensures { kind_or_fault left kind ≡ result }
{
    match kind {
        None => Err(LineFault {
            kind: DebugFaultKind::NoKind,
            left,
        }),
        Some(kind) => Ok(kind),
    }
}

/// Returns the kind of a line.
fn kind_in(fields: &[Field<'_>]) -> Result<LineKind, LineFault>
    ensures { kind_by (field_in (map field_view fields.now) (codes "type")) ≡ result }
{
    match field_in(fields, b"type") {
        None => Ok(LineKind::Assembler),
        Some(field) => {
            let number = number_value(field)?;
            kind_or_fault(field.left, kind_of(number))
        }
    }
}

/// Returns the line that a record `line` tells of.
#[tactic(auto, unfolding(crate::specs::Records::line_of))]
pub fn line_of(file: u32, fields: &[Field<'_>]) -> Result<Line, LineFault>
    ensures { line_of file (map field_view fields.now) ≡ result }
{
    let line = number_in(fields, b"line")?;
    let kind = kind_in(fields)?;
    let depth = number_or(fields, b"count", 0)?;
    Ok(Line {
        file,
        line,
        kind,
        depth,
    })
}

/// Returns the scope that a record `scope` tells of.
#[tactic(auto, unfolding(crate::specs::Records::scope_of))]
pub fn scope_of<'a>(symbol: Option<u32>, fields: &[Field<'a>]) -> Result<Scope<'a>, LineFault>
    ensures { scope_of symbol (map field_view fields.now) ≡ seen scope_view result }
{
    let name = text_in(fields, b"name")?;
    let size = number_or_none(fields, b"size")?;
    Ok(Scope { name, size, symbol })
}

/// Returns where a name of C is kept, by its word.
fn storage_of(word: &[u8]) -> Option<Storage>
    ensures { result ≡ storage_of word.now }
{
    if is_same(word, b"auto") {
        Some(Storage::Auto)
    } else if is_same(word, b"reg") {
        Some(Storage::Register)
    } else if is_same(word, b"static") {
        Some(Storage::Static)
    } else if is_same(word, b"ext") {
        Some(Storage::External)
    } else {
        None
    }
}

/// Returns where a name of C is kept, if the word for it is known.
pub fn storage_in(fields: &[Field<'_>]) -> Result<Option<Storage>, LineFault>
    ensures { storage_in (map field_view fields.now) ≡ result }
{
    let field = required(field_in(fields, b"sc"))?;
    Ok(storage_of(field.value))
}

/// Returns the name of C that a record `csym` tells of.
#[tactic(auto, unfolding(crate::specs::Records::c_symbol_of))]
pub fn c_symbol_of<'a>(
    storage: Storage,
    scope: u32,
    symbol: Option<u32>,
    fields: &[Field<'a>],
) -> Result<CSymbol<'a>, LineFault>
    ensures { c_symbol_of storage scope symbol (map field_view fields.now)
        ≡ seen c_symbol_view result }
{
    let name = text_in(fields, b"name")?;
    let offset = signed_or_zero(fields, b"offs")?;
    Ok(CSymbol {
        name,
        scope,
        storage,
        offset,
        symbol,
    })
}
