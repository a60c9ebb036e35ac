//! Stretches of memory.

ghost use Rattle.std.specs.Prelude.{◌≡◌, ◌≤◌, IfErr, IfOk};
ghost use Rattle.mon_line_parts.specs.Reading.{and_then, flaw_view};
ghost use Rattle.mon_lines.specs.Parts.{by_count, counted_from, ends_of, from_to, kind_of, last_of};
ghost use Rattle.mon_lines.specs.Parts.{past_points, second_of, shown_of, so_many_from, stretch_of};
ghost use Rattle.mon_lines.specs.Parts.{watched_register};

use crate::command::{Register, Stretch, WatchKind};
use mon_line_parts::{
    Flaw, Lack, Places, address_of, after, after_word, count_of, is_empty, is_next, is_same_word,
    is_word, past, word_of,
};

/// The addresses from the first to so many behind it, none past $FFFF.
fn so_many_from(first: u16, count: u32) -> Stretch
    ensures { result ≡ so_many_from first count }
{
    let last = (first as u32).saturating_add(count.saturating_sub(1));
    Stretch {
        first,
        last: last.min(65535) as u16,
    }
}

/// The addresses between two, the last of which must not be below the first.
fn last_of(first: u16, last: u16, rest: &[u8]) -> Result<(Stretch, &[u8]), Flaw<'_>>
    ensures ok { IfOk result (λ p. last_of first last rest.now ≡ Ok (p.0, p.1.now)) }
    ensures err { IfErr result (λ why. last_of first last rest.now ≡ Err (flaw_view why)) }
{
    if last < first {
        return Err(Flaw::Missing(Lack::LastAddress));
    }
    Ok((Stretch { first, last }, rest))
}

/// Reads `WHERE` or `WHERE..WHERE`.
#[tactic(auto, unfolding(crate::specs::Parts::stretch_of))]
pub fn stretch_of<'a>(
    places: &Places,
    pc: u16,
    text: &'a [u8],
) -> Result<(Stretch, &'a [u8]), Flaw<'a>>
    ensures ok { IfOk result (λ p. stretch_of places.now pc text.now ≡ Ok (p.0, p.1.now)) }
    ensures err { IfErr result (λ why. stretch_of places.now pc text.now ≡ Err (flaw_view why)) }
{
    let (first, rest) = address_of(places, pc, text)?;
    if !is_next(b'.', rest) {
        return Ok((Stretch { first, last: first }, rest));
    }
    if !is_next(b'.', after(1, rest)) {
        return Err(Flaw::Missing(Lack::Points));
    }
    let (last, rest) = address_of(places, pc, after(1, after(1, rest)))?;
    last_of(first, last, rest)
}

/// Returns a text without the two points with which it may begin.
fn past_points(text: &[u8]) -> &[u8]
    ensures { result.now ≡ past_points text.now }
{
    if is_next(b'.', text) {
        past(b'.', after(1, text))
    } else {
        text
    }
}

/// Reads `WHERE WHERE` or `WHERE..WHERE`.
#[tactic(auto, unfolding(crate::specs::Parts::ends_of))]
pub fn ends_of<'a>(
    places: &Places,
    pc: u16,
    text: &'a [u8],
) -> Result<(Stretch, &'a [u8]), Flaw<'a>>
    ensures ok { IfOk result (λ p. ends_of places.now pc text.now ≡ Ok (p.0, p.1.now)) }
    ensures err { IfErr result (λ why. ends_of places.now pc text.now ≡ Err (flaw_view why)) }
{
    let (first, rest) = address_of(places, pc, text)?;
    let (last, rest) = address_of(places, pc, past_points(rest))?;
    last_of(first, last, rest)
}

/// Returns the register of a name that a watch is for: A, X, Y, S or P.
#[tactic(auto, unfolding(crate::specs::Parts::watched_register))]
pub fn watched_register(word: &[u8]) -> Option<Register>
    ensures { result ≡ watched_register word.now }
{
    if is_same_word(word, b"A") {
        Some(Register::A)
    } else if is_same_word(word, b"X") {
        Some(Register::X)
    } else if is_same_word(word, b"Y") {
        Some(Register::Y)
    } else if is_same_word(word, b"S") {
        Some(Register::S)
    } else if is_same_word(word, b"P") {
        Some(Register::P)
    } else {
        None
    }
}

/// Reads `read`, `write` or `change`.
pub fn kind_of(text: &[u8]) -> (WatchKind, &[u8])
    ensures { kind_of text.now ≡ Ok (result.0, result.1.now) }
{
    if is_word(b"read", text) {
        (WatchKind::Read, after_word(text))
    } else if is_word(b"write", text) {
        (WatchKind::Write, after_word(text))
    } else if is_word(b"change", text) {
        (WatchKind::Change, after_word(text))
    } else {
        (WatchKind::Change, text)
    }
}

/// Reads a count of addresses from one on, 64 if none is given.
fn by_count<'a>(
    places: &Places,
    first: u16,
    text: &'a [u8],
) -> Result<(Stretch, &'a [u8]), Flaw<'a>>
    ensures ok { IfOk result (λ p. by_count places.now first text.now ≡ Ok (p.0, p.1.now)) }
    ensures err { IfErr result (λ why. by_count places.now first text.now ≡ Err (flaw_view why)) }
{
    let (count, rest) = count_of(places, text)?;
    Ok((so_many_from(first, count.unwrap_or(64)), rest))
}

/// Reads a last address of four bytes, or a count.
#[tactic(auto, unfolding(crate::specs::Parts::second_of))]
fn second_of<'a>(
    places: &Places,
    pc: u16,
    first: u16,
    text: &'a [u8],
) -> Result<(Stretch, &'a [u8]), Flaw<'a>>
    ensures ok { IfOk result (λ p. second_of places.now pc first text.now ≡ Ok (p.0, p.1.now)) }
    ensures err { IfErr result
        (λ why. second_of places.now pc first text.now ≡ Err (flaw_view why)) }
{
    if word_of(text).len() == 4 {
        let (last, rest) = address_of(places, pc, text)?;
        if first <= last {
            return Ok((Stretch { first, last }, rest));
        }
    }
    by_count(places, first, text)
}

/// Reads `WHERE`, `WHERE N`, `WHERE..WHERE`, or two addresses of four hex digits.
#[tactic(auto, unfolding(crate::specs::Parts::shown_of))]
pub fn shown_of<'a>(
    places: &Places,
    pc: u16,
    text: &'a [u8],
) -> Result<(Stretch, &'a [u8]), Flaw<'a>>
    ensures ok { IfOk result (λ p. shown_of places.now pc text.now ≡ Ok (p.0, p.1.now)) }
    ensures err { IfErr result (λ why. shown_of places.now pc text.now ≡ Err (flaw_view why)) }
{
    let (range, rest) = stretch_of(places, pc, text)?;
    if range.first < range.last {
        Ok((range, rest))
    } else if is_empty(rest) {
        Ok((so_many_from(range.first, 64), rest))
    } else {
        second_of(places, pc, range.first, rest)
    }
}
