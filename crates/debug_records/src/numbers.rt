//! The values of fields.

ghost use Rattle.std.specs.Prelude.{◌≡◌, ◌<◌, ◌≤◌, ◌+◌, ◌-◌, ◌*◌, ◌^◌, ◌==◌, [], IfSome, Some};
ghost use Rattle.std.specs.Prelude.{drop, length, map};
ghost use Rattle.std.specs.Prelude.{option_map, position};
ghost use Rattle.std.specs.Str.{byte};
ghost use Rattle.model.specs.Digits.{decimal_number, hex_number};
ghost use Rattle.debug_records.specs.Faults.{Gives, seen};
ghost use Rattle.debug_records.specs.Numbers.{next_number, not_large, number_in, number_of};
ghost use Rattle.debug_records.specs.Numbers.{number_or, number_value, numbers_in, numbers_value};
ghost use Rattle.debug_records.specs.Numbers.{numbers_within};
ghost use Rattle.debug_records.specs.Numbers.{placed_if, placed_in, placed_value, plus_in, text_in};
ghost use Rattle.debug_records.specs.Numbers.{required, text_value};
ghost use Rattle.debug_records.specs.Fields.{field_in};
ghost use Rattle.debug_records.specs.Numbers.{distance_of, placed_or_none, signed_if};
ghost use Rattle.debug_records.specs.Numbers.{signed_number, signed_or_zero, signed_value};
ghost use Rattle.debug_records.specs.Records.{value_by};
ghost use Rattle.debug_records.specs.Views.{field_view};

use crate::fault::{DebugFaultKind, LineError, LineFault};
use crate::fields::{Field, field_in, is_next};
use formatting::{decimal_value, hex_value};
use std::alloc::Global;

/// A number, and how many bytes of its line are left where it begins.
#[derive(Clone, Copy)]
pub struct Placed {
    pub number: u32,
    pub left: usize,
}

/// One more than the largest number.
const LIMIT: u64 = 4_294_967_296;

/// One more than the number that is furthest from 0, of those with `-` before them.
const FAR: u32 = 2_147_483_648;

/// Returns a number with one decimal digit more, if it is not too large.
fn with_decimal_digit(number: u32, digit: u8) -> Option<u32>
    ensures { result ≡ not_large (Some (number * 10 + digit)) }
{
    let wide = number as u64 * 10 + digit as u64;
    if wide < LIMIT {
        Some(wide as u32)
    } else {
        None
    }
}

/// Returns a number with one hex digit more, if it is not too large.
fn with_hex_digit(number: u32, digit: u8) -> Option<u32>
    ensures { result ≡ not_large (Some (number * 16 + digit)) }
{
    let wide = number as u64 * 16 + digit as u64;
    if wide < LIMIT {
        Some(wide as u32)
    } else {
        None
    }
}

/// Returns the number that decimal digits write, if it is not too large.
pub fn decimal_number(digits: &[u8]) -> Option<u32>
    ensures { result ≡ not_large (decimal_number digits.now) }
{
    let mut number = 0u32;
    for byte in digits {
        let digit = decimal_value(*byte)?;
        number = with_decimal_digit(number, digit)?;
    }
    Some(number)
}

/// Returns the number that hex digits write, if it is not too large.
pub fn hex_number(digits: &[u8]) -> Option<u32>
    ensures { result ≡ not_large (hex_number digits.now) }
{
    let mut number = 0u32;
    for byte in digits {
        let digit = hex_value(*byte)?;
        number = with_hex_digit(number, digit)?;
    }
    Some(number)
}

/// Returns the number that a text writes.
#[tactic(auto, unfolding(crate::specs::Numbers::number_of))]
fn number_of(text: &[u8]) -> Option<u32>
    ensures { result ≡ number_of text.now }
{
    if text.starts_with(b"0x") {
        let digits = &text[2..];
        if digits.is_empty() {
            return None;
        }
        return hex_number(digits);
    }
    if text.is_empty() {
        return None;
    }
    decimal_number(text)
}

/// Returns a number where it begins, if there is one.
fn placed_if(left: usize, number: Option<u32>) -> Result<Placed, LineFault>
    ensures { placed_if left number ≡ result }
{
    match number {
        None => Err(LineFault {
            kind: DebugFaultKind::NoNumber,
            left,
        }),
        Some(number) => Ok(Placed { number, left }),
    }
}

/// Returns the number that is the value of a field.
fn placed_value(field: Field<'_>) -> Result<Placed, LineFault>
    ensures { placed_value (field_view field.entry) ≡ result }
{
    if field.is_text {
        return placed_if(field.left, None);
    }
    placed_if(field.left, number_of(field.value))
}

/// Returns a field that a record must have.
pub fn required<'a>(field: Option<Field<'a>>) -> Result<Field<'a>, LineFault>
    ensures { required (option_map field_view field.entry) ≡ seen field_view result }
{
    match field {
        None => Err(LineFault {
            kind: DebugFaultKind::Missing,
            left: 0,
        }),
        Some(field) => Ok(field),
    }
}

/// Returns the number of a field that a record must have, and where it begins.
pub fn placed_in(fields: &[Field<'_>], name: &[u8]) -> Result<Placed, LineFault>
    ensures { placed_in (map field_view fields.now) name.now ≡ result }
{
    let field = required(field_in(fields, name))?;
    placed_value(field)
}

/// Returns the number that is the value of a field.
pub fn number_value(field: Field<'_>) -> Result<u32, LineFault>
    ensures { number_value (field_view field.entry) ≡ result }
{
    let found = placed_value(field)?;
    Ok(found.number)
}

/// Returns the number of a field that a record must have.
pub fn number_in(fields: &[Field<'_>], name: &[u8]) -> Result<u32, LineFault>
    ensures { number_in (map field_view fields.now) name.now ≡ result }
{
    let field = required(field_in(fields, name))?;
    number_value(field)
}

/// Returns the number of a field that a record may have, or another number.
pub fn number_or(fields: &[Field<'_>], name: &[u8], other: u32) -> Result<u32, LineFault>
    ensures { number_or (map field_view fields.now) name.now other ≡ result }
{
    match field_in(fields, name) {
        None => Ok(other),
        Some(field) => number_value(field),
    }
}

/// Returns the number of a field that a record may have, and where it begins.
pub fn placed_or_none(fields: &[Field<'_>], name: &[u8]) -> Result<Option<Placed>, LineFault>
    ensures { placed_or_none (map field_view fields.now) name.now ≡ result }
{
    match field_in(fields, name) {
        None => Ok(None),
        Some(field) => {
            let found = placed_value(field)?;
            Ok(Some(found))
        }
    }
}

/// Returns the number of a field that a record may have.
pub fn number_or_none(fields: &[Field<'_>], name: &[u8]) -> Result<Option<u32>, LineFault>
    ensures { value_by (field_in (map field_view fields.now) name.now) ≡ result }
{
    match field_in(fields, name) {
        None => Ok(None),
        Some(field) => {
            let number = number_value(field)?;
            Ok(Some(number))
        }
    }
}

/// Returns how far a number is from 0, if it is not too far.
fn distance_of(text: &[u8]) -> Option<u32>
    ensures known { result ≡ distance_of text.now }
    ensures near { IfSome result (λ n. n < 2 ^ 31) }
{
    let number = number_of(text)?;
    if number < FAR { Some(number) } else { None }
}

/// Returns a number that may have `-` before it.
fn signed_number(text: &[u8]) -> Option<i32>
    ensures { result ≡ signed_number text.now }
{
    if is_next(b'-', text) {
        let distance = distance_of(&text[1..])?;
        Some(-(distance as i32))
    } else {
        let distance = distance_of(text)?;
        Some(distance as i32)
    }
}

/// Returns the number that is the value of a field, which may have `-` before it.
fn signed_value(field: Field<'_>) -> Result<i32, LineFault>
    ensures { signed_value (field_view field.entry) ≡ result }
{
    if field.is_text {
        return signed_if(field.left, None);
    }
    signed_if(field.left, signed_number(field.value))
}

/// Returns a number where it begins, if there is one.
fn signed_if(left: usize, number: Option<i32>) -> Result<i32, LineFault>
    ensures { signed_if left number ≡ result }
{
    match number {
        None => Err(LineFault {
            kind: DebugFaultKind::NoNumber,
            left,
        }),
        Some(number) => Ok(number),
    }
}

/// Returns the number of a field that a record may have, which may have `-` before it; 0 if it
/// does not have the field.
pub fn signed_or_zero(fields: &[Field<'_>], name: &[u8]) -> Result<i32, LineFault>
    ensures { signed_or_zero (map field_view fields.now) name.now ≡ result }
{
    match field_in(fields, name) {
        None => Ok(0),
        Some(field) => signed_value(field),
    }
}

/// Returns the index of the first `+`.
fn plus_at(text: &[u8]) -> Option<usize>
    ensures { result ≡ position (λ b. b == byte "+") text.now }
{
    text.iter().position(|byte| *byte == b'+')
}

/// Returns how many bytes come before the first `+`.
fn plus_in(text: &[u8]) -> usize
    ensures counted { result ≡ plus_in text.now }
    ensures within { result ≤ length text.now }
{
    match plus_at(text) {
        Some(at) => at,
        None => text.len(),
    }
}

/// Appends the number that ends before the first `+`, of which so many bytes of the line are left.
#[tactic(auto, unfolding(crate::specs::Numbers::next_number))]
fn next_number(numbers: &mut Vec<Placed>, left: usize, text: &[u8]) -> Result<(), LineError>
    ensures { Gives (λ _. numbers.new.items) result
        (next_number numbers.old.items left text.now) }
{
    let count = plus_in(text);
    let number = placed_if(left, number_of(&text[..count]))?;
    numbers.push(number)?;
    Ok(())
}

/// Returns whether a text has no `+`.
fn is_last(text: &[u8]) -> bool
    ensures { result ≡ (plus_in text.now == length text.now) }
{
    plus_in(text) == text.len()
}

/// Returns what stands behind the first `+`.
fn behind_plus(text: &[u8]) -> &[u8]
    ensures { result.now ≡ drop (plus_in text.now + 1) text.now }
{
    match plus_at(text) {
        Some(at) => &text[at + 1..],
        None => &text[text.len()..],
    }
}

/// Returns how many of so many bytes are left behind the first `+`.
fn left_behind(left: usize, text: &[u8]) -> usize
    ensures { result ≡ left - (plus_in text.now + 1) }
{
    left.saturating_sub(plus_in(text) + 1)
}

/// Returns the numbers of a text with `+` between them.
fn numbers_within(alloc: Global, first: usize, text: &[u8]) -> Result<Vec<Placed>, LineError>
    ensures { Gives (λ numbers. numbers.items) result
        (numbers_within (length text.now) [] first text.now) }
{
    let mut numbers = Vec::new(alloc);
    let mut rest = text;
    let mut left = first;
    for _ in 0..text.len() {
        match next_number(&mut numbers, left, rest) {
            Ok(()) => {}
            Err(why) => return Err(why),
        }
        if is_last(rest) {
            return Ok(numbers);
        }
        left = left_behind(left, rest);
        rest = behind_plus(rest);
    }
    Err(LineError::Fault(LineFault {
        kind: DebugFaultKind::NoNumber,
        left,
    }))
}

/// Returns the numbers of a field with `+` between them.
fn numbers_value(alloc: Global, field: Field<'_>) -> Result<Vec<Placed>, LineError>
    ensures { Gives (λ numbers. numbers.items) result (numbers_value (field_view field.entry)) }
{
    if field.is_text {
        return Err(LineError::Fault(LineFault {
            kind: DebugFaultKind::NoNumber,
            left: field.left,
        }));
    }
    numbers_within(alloc, field.left, field.value)
}

/// Returns the numbers of a field that a record may have.
pub fn numbers_in(
    alloc: Global,
    fields: &[Field<'_>],
    name: &[u8],
) -> Result<Vec<Placed>, LineError>
    ensures { Gives (λ numbers. numbers.items) result
        (numbers_in (map field_view fields.now) name.now) }
{
    match field_in(fields, name) {
        None => Ok(Vec::new(alloc)),
        Some(field) => numbers_value(alloc, field),
    }
}

/// Returns the text that is the value of a field.
pub fn text_value<'a>(field: Field<'a>) -> Result<&'a [u8], LineFault>
    ensures { text_value (field_view field.entry) ≡ seen (λ text. text.now) result }
{
    if field.is_text {
        Ok(field.value)
    } else {
        Err(LineFault {
            kind: DebugFaultKind::NoText,
            left: field.left,
        })
    }
}

/// Returns the text of a field that a record must have.
pub fn text_in<'a>(fields: &[Field<'a>], name: &[u8]) -> Result<&'a [u8], LineFault>
    ensures { text_in (map field_view fields.now) name.now
        ≡ seen (λ text. text.now) result }
{
    let field = required(field_in(fields, name))?;
    text_value(field)
}
