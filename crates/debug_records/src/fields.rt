//! A word, a tab, and fields `NAME=VALUE` with commas between them.

ghost use Rattle.std.specs.Prelude.{◌≡◌, ◌≤◌, ◌<◌, ◌==◌, drop, length, map, option_map};
ghost use Rattle.std.specs.Prelude.{position, true};
ghost use Rattle.std.specs.List.{prefix_len};
ghost use Rattle.std.specs.Str.{byte, bytes_eq};
ghost use Rattle.model.specs.Token.{is_word_byte};
ghost use Rattle.debug_records.specs.Faults.{Gives, fault_at, seen};
ghost use Rattle.debug_records.specs.Fields.{comma_in, ended, ends, field_in, field_of, field_with};
ghost use Rattle.debug_records.specs.Fields.{fields_of, is_next, next_field, plain_field, said_by};
ghost use Rattle.debug_records.specs.Fields.{text_field, with_field};
ghost use Rattle.debug_records.specs.Views.{field_view, read_view, said_view};

use crate::fault::{DebugFaultKind, LineError, LineFault};
use std::alloc::Global;

/// A field: its value, which is what stands between two `"` if it is a text, and how many bytes of
/// the line are left where the value begins.
#[derive(Clone, Copy)]
pub struct Field<'a> {
    pub name: &'a [u8],
    pub value: &'a [u8],
    pub is_text: bool,
    pub left: usize,
}

/// A word and its fields.
#[derive(Drop)]
pub struct Said<'a> {
    pub word: &'a [u8],
    pub fields: Vec<Field<'a>>,
}

/// A field, and the text behind it.
type Read<'a> = Result<(Field<'a>, &'a [u8]), LineFault>;

/// Returns a fault at the front of what is left of a line.
pub fn fault_at(kind: DebugFaultKind, text: &[u8]) -> LineFault
    ensures { result ≡ fault_at kind text.now }
{
    LineFault {
        kind,
        left: text.len(),
    }
}

/// Returns whether a byte comes next.
pub fn is_next(sign: u8, text: &[u8]) -> bool
    ensures next { result ≡ is_next sign text.now }
    ensures some { result ≡ true → 0 < length text.now }
{
    match text {
        [] => false,
        [first, ..] => *first == sign,
    }
}

/// Returns whether a byte may stand in a name: a letter, a digit or `_`.
fn is_word_byte(byte: u8) -> bool
    ensures { result ≡ is_word_byte byte }
{
    matches!(byte, b'A'..=b'Z' | b'a'..=b'z' | b'0'..=b'9' | b'_')
}

/// Counts the bytes of the name at the front.
fn name_length(text: &[u8]) -> usize
    ensures counted { result ≡ prefix_len is_word_byte text.now }
    ensures within { result ≤ length text.now }
{
    text.iter().take_while(|byte| is_word_byte(**byte)).count()
}

/// Returns whether a field ends before a text.
fn ends(text: &[u8]) -> bool
    ensures { result ≡ ends text.now }
{
    text.is_empty() || is_next(b',', text)
}

/// Returns a field, if it ends before the text behind it.
fn ended<'a>(field: Field<'a>, rest: &'a [u8]) -> Read<'a>
    ensures { seen read_view result ≡ ended (field_view field.entry) rest.now }
{
    if ends(rest) {
        Ok((field, rest))
    } else {
        Err(fault_at(DebugFaultKind::NoField, rest))
    }
}

/// Returns the index of the first `"`.
fn quote_at(text: &[u8]) -> Option<usize>
    ensures { result ≡ position (λ b. b == 34) text.now }
{
    text.iter().position(|byte| *byte == b'"')
}

/// Returns the field whose value is a text that begins here.
fn text_field<'a>(name: &'a [u8], text: &'a [u8]) -> Read<'a>
    requires { 0 < length text.now }
    ensures { seen read_view result ≡ text_field name.now text.now
        (position (λ b. b == 34) (drop 1 text.now)) }
{
    let inside = &text[1..];
    match quote_at(inside) {
        None => Err(fault_at(DebugFaultKind::OpenText, text)),
        Some(at) => ended(
            Field {
                name,
                value: &inside[..at],
                is_text: true,
                left: text.len(),
            },
            &inside[at + 1..],
        ),
    }
}

/// Returns the index of the first comma.
fn comma_at(text: &[u8]) -> Option<usize>
    ensures { result ≡ position (λ b. b == byte ",") text.now }
{
    text.iter().position(|byte| *byte == b',')
}

/// Returns how many bytes come before the first comma.
fn comma_in(text: &[u8]) -> usize
    ensures counted { result ≡ comma_in text.now }
    ensures within { result ≤ length text.now }
{
    match comma_at(text) {
        Some(at) => at,
        None => text.len(),
    }
}

/// Returns the field whose value is no text.
fn plain_field<'a>(name: &'a [u8], text: &'a [u8]) -> Read<'a>
    ensures { seen read_view result ≡ plain_field name.now text.now }
{
    let (value, rest) = text.split_at(comma_in(text));
    Ok((
        Field {
            name,
            value,
            is_text: false,
            left: text.len(),
        },
        rest,
    ))
}

/// Returns the field whose value begins here.
#[tactic(auto, unfolding(crate::specs::Fields::field_with))]
fn field_with<'a>(name: &'a [u8], text: &'a [u8]) -> Read<'a>
    ensures { seen read_view result ≡ field_with name.now text.now }
{
    if is_next(b'"', text) {
        text_field(name, text)
    } else {
        plain_field(name, text)
    }
}

/// Returns the field at the front of a text, and the text behind it.
#[tactic(auto, unfolding(crate::specs::Fields::field_of))]
fn field_of(text: &[u8]) -> Read<'_>
    ensures { seen read_view result ≡ field_of text.now }
{
    let (name, rest) = text.split_at(name_length(text));
    if name.is_empty() {
        return Err(fault_at(DebugFaultKind::NoField, text));
    }
    if is_next(b'=', rest) {
        field_with(name, &rest[1..])
    } else {
        Err(fault_at(DebugFaultKind::NoField, text))
    }
}

/// Returns whether two names are the same.
pub fn is_same(one: &[u8], other: &[u8]) -> bool
    ensures { result ≡ bytes_eq one.now other.now }
{
    one == other
}

/// Returns the field of a name.
pub fn field_in<'a>(fields: &[Field<'a>], name: &[u8]) -> Option<Field<'a>>
    ensures { option_map field_view result ≡ field_in (map field_view fields.now) name.now }
{
    for field in fields {
        if is_same(field.name, name) {
            return Some(*field);
        }
    }
    None
}

/// Appends a field that stands at the front of a text, if no field before it has its name.
fn push_field<'a>(
    fields: &mut Vec<Field<'a>>,
    field: Field<'a>,
    text: &[u8],
) -> Result<(), LineError>
    ensures { Gives (λ _. map field_view fields.new.items) result
        (with_field (map field_view fields.old.items) (field_view field.entry) text.now) }
{
    if field_in(fields, field.name).is_some() {
        return Err(LineError::Fault(fault_at(DebugFaultKind::NameTwice, text)));
    }
    fields.push(field)?;
    Ok(())
}

/// Appends the field at the front of a text, and returns what stands behind it.
#[tactic(auto, unfolding(crate::specs::Fields::next_field))]
fn next_field<'a>(fields: &mut Vec<Field<'a>>, text: &'a [u8]) -> Result<&'a [u8], LineError>
    ensures { Gives (λ rest. (map field_view fields.new.items, rest.now)) result
        (next_field (map field_view fields.old.items) text.now) }
{
    let (field, rest) = field_of(text)?;
    push_field(fields, field, text)?;
    Ok(rest)
}

/// Returns the fields of a text.
fn fields_of<'a>(alloc: Global, text: &'a [u8]) -> Result<Vec<Field<'a>>, LineError>
    ensures { Gives (λ fields. map field_view fields.items) result (fields_of text.now) }
{
    let mut fields = Vec::new(alloc);
    let mut rest = text;
    for _ in 0..text.len() {
        match next_field(&mut fields, rest) {
            Ok(behind) => rest = behind,
            Err(why) => return Err(why),
        }
        if rest.is_empty() {
            return Ok(fields);
        }
        rest = &rest[1..];
    }
    Err(LineError::Fault(fault_at(DebugFaultKind::NoField, rest)))
}

/// Returns the index of the first tab.
fn tab_at(line: &[u8]) -> Option<usize>
    ensures { result ≡ position (λ b. b == 9) line.now }
{
    line.iter().position(|byte| *byte == b'\t')
}

/// Returns what a line says.
#[tactic(auto, unfolding(crate::specs::Fields::said_by))]
pub fn said_by<'a>(alloc: Global, line: &'a [u8]) -> Result<Said<'a>, LineError>
    ensures { Gives said_view result (said_by line.now) }
{
    match tab_at(line) {
        None => Err(LineError::Fault(LineFault {
            kind: DebugFaultKind::NoTab,
            left: 0,
        })),
        Some(at) => {
            let word = &line[..at];
            let fields = fields_of(alloc, &line[at + 1..])?;
            Ok(Said { word, fields })
        }
    }
}
