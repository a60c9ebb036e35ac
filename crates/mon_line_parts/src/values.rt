//! Values: numbers, names, lines of the source, and sums of them.

ghost use Rattle.std.specs.Prelude.{◌≡◌, ◌+◌, ◌≤◌, ◌∷◌, [], Err, IfErr, IfOk, Ok, length};
ghost use Rattle.source_map.specs.Names.{address_of};
ghost use Rattle.mon_line_parts.specs.Reading.{Reads, after_word, and_then, flaw_view, word_of};
ghost use Rattle.mon_line_parts.specs.Reading.{missing, no_name, number_in};
ghost use Rattle.mon_line_parts.specs.Values.{address_word, atom_of, bit_of, bytes_of, character_or, count_of};
ghost use Rattle.mon_line_parts.specs.Reading.{after_image_word, image_word};
ghost use Rattle.mon_line_parts.specs.Values.{counter_word, quoted_of};
ghost use Rattle.mon_line_parts.specs.Values.{image_address, image_number, is_place, line_asked};
ghost use Rattle.mon_line_parts.specs.Values.{line_or, line_or_number, name_or_number, why_none};
ghost use Rattle.mon_line_parts.specs.Values.{is_sign, lack_of, least_of, marked_number, minus, most_of};
ghost use Rattle.mon_line_parts.specs.Values.{line_alone, named_number};
ghost use Rattle.mon_line_parts.specs.Values.{number_of, number_or, piece_of, pieces_of, plus};
ghost use Rattle.mon_line_parts.specs.Values.{some_bytes, some_count, sum_of, term_of, terms_of, with_piece, within};

use crate::numbers::number_in;
use crate::scan::{
    after, after_image_word, after_word, character_of, image_word, is_empty, past, quoted_next,
    without_first, word_of,
};
use crate::slip::{Flaw, Lack};
use crate::source_lines::{after_line, file_word, line_address, line_number, no_line_of, own_line};
use arrayvec::ArrayVec;
use lexer::is_next;
use source_map::{Places, is_same_word};

/// The highest count.
const MOST_COUNTED: u32 = 1_000_000_000;

/// What a value is to be.
#[derive(Clone, Copy)]
pub enum Kind {
    /// An address; the program counter, which `PC` names.
    Address(u16),
    Byte,
    /// A value of 16 bits.
    Word,
    /// 0 or 1.
    Bit,
    Count,
}

/// What is missing where no value of a kind stands.
fn lack_of(kind: Kind) -> Lack
    ensures { result ≡ lack_of kind }
{
    match kind {
        Kind::Address(_) => Lack::Address,
        Kind::Byte => Lack::Value,
        Kind::Word => Lack::Value,
        Kind::Bit => Lack::Value,
        Kind::Count => Lack::Number,
    }
}

/// The lowest value of a kind.
fn least_of(kind: Kind) -> u32
    ensures { result ≡ least_of kind }
{
    match kind {
        Kind::Address(_) => 0,
        Kind::Byte => 0,
        Kind::Word => 0,
        Kind::Bit => 0,
        Kind::Count => 1,
    }
}

/// The highest value of a kind.
fn most_of(kind: Kind) -> u32
    ensures { result ≡ most_of kind }
{
    match kind {
        Kind::Address(_) => 65535,
        Kind::Byte => 255,
        Kind::Word => 65535,
        Kind::Bit => 1,
        Kind::Count => MOST_COUNTED,
    }
}

/// The program counter, where an address is meant and a word is `PC`.
fn counter_word(kind: Kind, word: &[u8]) -> Option<u32>
    ensures { result ≡ counter_word kind word.now }
{
    match kind {
        Kind::Address(pc) => {
            if is_same_word(word, b"PC") {
                Some(pc as u32)
            } else {
                None
            }
        }
        Kind::Byte => None,
        Kind::Word => None,
        Kind::Bit => None,
        Kind::Count => None,
    }
}

/// The number of four hex digits, where an address is meant.
fn address_word(kind: Kind, word: &[u8]) -> Option<u32>
    ensures { result ≡ address_word kind word.now }
{
    match kind {
        Kind::Address(_) => {
            if word.len() == 4 {
                number_in(16, word)
            } else {
                None
            }
        }
        Kind::Byte => None,
        Kind::Word => None,
        Kind::Bit => None,
        Kind::Count => None,
    }
}

/// The number of hex digits behind `0x`, capitals or not.
fn marked_number(word: &[u8]) -> Option<u32>
    ensures { result ≡ marked_number word.now }
{
    match word {
        [] => None,
        [_] => None,
        [first, mark, digits @ ..] => {
            if *first == b'0' && (*mark == b'x' || *mark == b'X') {
                number_in(16, digits)
            } else {
                None
            }
        }
    }
}

/// The number of a word: of the program counter, of a name, of what is an address alone, of hex
/// digits behind `0x`, of decimal digits.
fn number_of(places: &Places, kind: Kind, word: &[u8]) -> Option<u32>
    ensures { result ≡ number_of places.now kind word.now }
{
    if let Some(address) = counter_word(kind, word) {
        return Some(address);
    }
    if let Some(address) = places.names().address_of(word) {
        return Some(address as u32);
    }
    if let Some(address) = address_word(kind, word) {
        return Some(address);
    }
    if let Some(number) = marked_number(word) {
        return Some(number);
    }
    number_in(10, word)
}

/// A number that was read, or why it is none.
fn number_or<'a>(
    why: Flaw<'a>,
    number: Option<u32>,
    rest: &'a [u8],
) -> Result<(i64, &'a [u8]), Flaw<'a>>
    ensures ok { IfOk result (λ p. number_or (flaw_view why.entry) number rest.now
        ≡ Ok (p.0, p.1.now)) }
    ensures err { IfErr result (λ fault. number_or (flaw_view why.entry) number rest.now
        ≡ Err (flaw_view fault)) }
{
    match number {
        Some(number) => Ok((number as i64, rest)),
        None => Err(why),
    }
}

/// Returns whether an address is meant.
fn is_place(kind: Kind) -> bool
    ensures { result ≡ is_place kind }
{
    match kind {
        Kind::Address(_) => true,
        Kind::Byte => false,
        Kind::Word => false,
        Kind::Bit => false,
        Kind::Count => false,
    }
}

/// Returns why a text begins with no number: it names a line of another file where an address is
/// meant, nothing can be read, or the word is no name.
#[tactic(auto, unfolding(crate::specs::Values::why_none))]
fn why_none<'a>(places: &Places, kind: Kind, text: &'a [u8]) -> Flaw<'a>
    ensures { flaw_view result ≡ why_none places.now kind text.now }
{
    if is_place(kind) && line_number(text).is_some() {
        return no_line_of(places, file_word(text));
    }
    let word = word_of(text);
    if is_empty(word) {
        Flaw::Unreadable(text)
    } else {
        Flaw::NoName(word)
    }
}

/// Reads a word as a number.
fn named_number<'a>(
    places: &Places,
    kind: Kind,
    lack: Lack,
    text: &'a [u8],
) -> Result<(i64, &'a [u8]), Flaw<'a>>
    ensures ok { IfOk result
        (λ p. named_number places.now kind lack text.now ≡ Ok (p.0, p.1.now)) }
    ensures err { IfErr result
        (λ why. named_number places.now kind lack text.now ≡ Err (flaw_view why)) }
{
    if is_empty(text) {
        return Err(Flaw::Missing(lack));
    }
    let word = word_of(text);
    if is_empty(word) {
        return Err(why_none(places, kind, text));
    }
    number_or(
        why_none(places, kind, text),
        number_of(places, kind, word),
        after_word(text),
    )
}

/// Returns the file and the line of the source that stand where an address is meant, if they do.
fn line_asked(places: &Places, kind: Kind, text: &[u8]) -> Option<(u32, u32)>
    ensures { result ≡ line_asked places.now kind text.now }
{
    if is_place(kind) {
        own_line(places, text)
    } else {
        None
    }
}

/// Reads a line of the source where an address is meant, or else a word as a number.
fn line_or_number<'a>(
    places: &Places,
    kind: Kind,
    lack: Lack,
    text: &'a [u8],
) -> Result<(i64, &'a [u8]), Flaw<'a>>
    ensures ok { IfOk result
        (λ p. line_or_number places.now kind lack text.now ≡ Ok (p.0, p.1.now)) }
    ensures err { IfErr result
        (λ why. line_or_number places.now kind lack text.now ≡ Err (flaw_view why)) }
{
    match line_asked(places, kind, text) {
        Some((file, line)) => line_address(places, file, line, after_line(text)),
        None => named_number(places, kind, lack, text),
    }
}

/// Returns the address of a name of an image that stands at the front, if it has more bytes than
/// the word there.
fn image_address(places: &Places, text: &[u8]) -> Option<u16>
    ensures { result ≡ image_address places.now text.now }
{
    let word = image_word(text);
    if word_of(text).len() < word.len() {
        places.names().address_of(word)
    } else {
        None
    }
}

/// Reads a name of an image, or else a line of the source or a word as a number.
fn name_or_number<'a>(
    places: &Places,
    kind: Kind,
    lack: Lack,
    text: &'a [u8],
) -> Result<(i64, &'a [u8]), Flaw<'a>>
    ensures ok { IfOk result
        (λ p. name_or_number places.now kind lack text.now ≡ Ok (p.0, p.1.now)) }
    ensures err { IfErr result
        (λ why. name_or_number places.now kind lack text.now ≡ Err (flaw_view why)) }
{
    match image_address(places, text) {
        Some(address) => Ok((address as i64, after_image_word(text))),
        None => line_or_number(places, kind, lack, text),
    }
}

/// Reads a number, a name or a line.
#[tactic(auto, unfolding(crate::specs::Values::atom_of))]
fn atom_of<'a>(
    places: &Places,
    kind: Kind,
    lack: Lack,
    text: &'a [u8],
) -> Result<(i64, &'a [u8]), Flaw<'a>>
    ensures ok { IfOk result (λ p. atom_of places.now kind lack text.now ≡ Ok (p.0, p.1.now)) }
    ensures err { IfErr result
        (λ why. atom_of places.now kind lack text.now ≡ Err (flaw_view why)) }
{
    if is_next(b'$', text) {
        let text = after(1, text);
        let why = Flaw::Missing(Lack::HexDigits);
        return number_or(why, number_in(16, word_of(text)), after_word(text));
    }
    if is_next(b'%', text) {
        let text = after(1, text);
        let why = Flaw::Missing(Lack::BinaryDigits);
        return number_or(why, number_in(2, word_of(text)), after_word(text));
    }
    match character_of(text) {
        Some((byte, rest)) => Ok((byte as i64, rest)),
        None => name_or_number(places, kind, lack, text),
    }
}

/// Returns whether a plus or a minus comes next.
fn is_sign(text: &[u8]) -> bool
    ensures { result ≡ is_sign text.now }
{
    is_next(b'+', text) || is_next(b'-', text)
}

/// Returns the file and the line of the source that stand alone where an address is meant, if they
/// do: no name of an image stands there, and no sum of a line.
pub fn line_alone(places: &Places, text: &[u8]) -> Option<(u32, u32)>
    ensures { result ≡ line_alone places.now text.now }
{
    if image_address(places, text).is_some() || is_sign(after_line(text)) {
        None
    } else {
        own_line(places, text)
    }
}

/// Reads a sign and a number, and adds it to what comes before or takes it from that.
#[tactic(auto, unfolding(crate::specs::Values::term_of))]
fn term_of<'a>(
    places: &Places,
    kind: Kind,
    total: i64,
    text: &'a [u8],
) -> Result<(i64, &'a [u8]), Flaw<'a>>
    ensures ok { IfOk result (λ p. term_of places.now kind total text.now ≡ Ok (p.0, p.1.now)) }
    ensures err { IfErr result
        (λ why. term_of places.now kind total text.now ≡ Err (flaw_view why)) }
{
    if is_next(b'+', text) {
        let (number, rest) = atom_of(places, kind, Lack::Addend, after(1, text))?;
        Ok((total.saturating_add(number), rest))
    } else {
        let (number, rest) = atom_of(places, kind, Lack::Subtrahend, after(1, text))?;
        Ok((total.saturating_sub(number), rest))
    }
}

/// Reads the terms behind a first one.
fn terms_of<'a>(
    places: &Places,
    kind: Kind,
    first: i64,
    text: &'a [u8],
) -> Result<(i64, &'a [u8]), Flaw<'a>>
    ensures ok { IfOk result (λ p. terms_of (length text.now) places.now kind first text.now
        ≡ Ok (p.0, p.1.now)) }
    ensures err { IfErr result (λ why. terms_of (length text.now) places.now kind first text.now
        ≡ Err (flaw_view why)) }
{
    let mut total = first;
    let mut rest = text;
    for _ in 0..text.len() {
        if !is_sign(rest) {
            return Ok((total, rest));
        }
        match term_of(places, kind, total, rest) {
            Ok((sum, behind)) => {
                total = sum;
                rest = behind;
            }
            Err(why) => return Err(why),
        }
    }
    Ok((total, rest))
}

/// Returns a sum if it lies between two numbers.
fn within<'a>(
    least: u32,
    most: u32,
    total: i64,
    rest: &'a [u8],
) -> Result<(u32, &'a [u8]), Flaw<'a>>
    ensures ok { IfOk result (λ p. within least most total rest.now ≡ Ok (p.0, p.1.now)) }
    ensures err { IfErr result (λ why. within least most total rest.now ≡ Err (flaw_view why)) }
    ensures small { IfOk result (λ p. p.0 ≤ most) }
{
    if least as i64 <= total && total <= most as i64 {
        Ok((total as u32, rest))
    } else {
        Err(Flaw::Range { least, most })
    }
}

/// Reads a sum that is a value of a kind.
#[tactic(auto, unfolding(crate::specs::Values::sum_of))]
fn sum_of<'a>(places: &Places, kind: Kind, text: &'a [u8]) -> Result<(u32, &'a [u8]), Flaw<'a>>
    ensures ok { IfOk result (λ p. sum_of places.now kind text.now ≡ Ok (p.0, p.1.now)) }
    ensures err { IfErr result (λ why. sum_of places.now kind text.now ≡ Err (flaw_view why)) }
    ensures small { IfOk result (λ p. p.0 ≤ most_of kind) }
{
    let (first, rest) = atom_of(places, kind, lack_of(kind), text)?;
    let (total, rest) = terms_of(places, kind, first, rest)?;
    within(least_of(kind), most_of(kind), total, rest)
}

/// Reads an address.
pub fn address_of<'a>(places: &Places, pc: u16, text: &'a [u8]) -> Result<(u16, &'a [u8]), Flaw<'a>>
    ensures ok { IfOk result
        (λ p. sum_of places.now (Kind.Address pc) text.now ≡ Ok (p.0, p.1.now)) }
    ensures err { IfErr result
        (λ why. sum_of places.now (Kind.Address pc) text.now ≡ Err (flaw_view why)) }
{
    let (value, rest) = sum_of(places, Kind::Address(pc), text)?;
    Ok((value as u16, rest))
}

/// Reads a byte.
pub fn byte_of<'a>(places: &Places, text: &'a [u8]) -> Result<(u8, &'a [u8]), Flaw<'a>>
    ensures ok { IfOk result (λ p. sum_of places.now Kind.Byte text.now ≡ Ok (p.0, p.1.now)) }
    ensures err { IfErr result (λ why. sum_of places.now Kind.Byte text.now ≡ Err (flaw_view why)) }
{
    let (value, rest) = sum_of(places, Kind::Byte, text)?;
    Ok((value as u8, rest))
}

/// Reads a value of 16 bits.
pub fn word_value<'a>(places: &Places, text: &'a [u8]) -> Result<(u16, &'a [u8]), Flaw<'a>>
    ensures ok { IfOk result (λ p. sum_of places.now Kind.Word text.now ≡ Ok (p.0, p.1.now)) }
    ensures err { IfErr result (λ why. sum_of places.now Kind.Word text.now ≡ Err (flaw_view why)) }
{
    let (value, rest) = sum_of(places, Kind::Word, text)?;
    Ok((value as u16, rest))
}

/// Reads the value of a flag: 0 or 1.
pub fn bit_of<'a>(places: &Places, text: &'a [u8]) -> Result<(bool, &'a [u8]), Flaw<'a>>
    ensures ok { IfOk result (λ p. bit_of places.now text.now ≡ Ok (p.0, p.1.now)) }
    ensures err { IfErr result (λ why. bit_of places.now text.now ≡ Err (flaw_view why)) }
{
    let (value, rest) = sum_of(places, Kind::Bit, text)?;
    Ok((value == 1, rest))
}

/// Reads a count, if something is left: a number from 1 on.
pub fn count_of<'a>(places: &Places, text: &'a [u8]) -> Result<(Option<u32>, &'a [u8]), Flaw<'a>>
    ensures ok { IfOk result (λ p. count_of places.now text.now ≡ Ok (p.0, p.1.now)) }
    ensures err { IfErr result (λ why. count_of places.now text.now ≡ Err (flaw_view why)) }
{
    if is_empty(text) {
        return Ok((None, text));
    }
    let (number, rest) = sum_of(places, Kind::Count, text)?;
    Ok((Some(number), rest))
}

/// Appends a piece to bytes that were found, if it fits.
fn push_piece<'a>(
    found: &mut ArrayVec<u8, 256>,
    piece: &[u8],
    rest: &'a [u8],
) -> Result<&'a [u8], Flaw<'a>>
    ensures ok { IfOk result (λ behind. with_piece found.old.items piece.now rest.now
        ≡ Ok (found.new.items, behind.now)) }
    ensures err { IfErr result (λ why. with_piece found.old.items piece.now rest.now
        ≡ Err (flaw_view why)) }
{
    match found.try_extend_from_slice(piece) {
        Ok(()) => Ok(rest),
        Err(_) => Err(Flaw::Many),
    }
}

/// Reads the text behind a `"`, to the next one or to the end of the line, and appends it.
fn quoted_of<'a>(found: &mut ArrayVec<u8, 256>, text: &'a [u8]) -> Result<&'a [u8], Flaw<'a>>
    ensures ok { IfOk result (λ rest. quoted_of (length text.now) found.old.items text.now
        ≡ Ok (found.new.items, rest.now)) }
    ensures err { IfErr result (λ why. quoted_of (length text.now) found.old.items text.now
        ≡ Err (flaw_view why)) }
{
    let mut rest = text;
    for _ in 0..text.len() {
        match quoted_next(rest) {
            None => return Ok(after(1, rest)),
            Some((byte, behind)) => match push_piece(found, &[byte], behind) {
                Ok(next) => rest = next,
                Err(why) => return Err(why),
            },
        }
    }
    Ok(after(1, rest))
}

/// Reads a text between quotes or one byte, and appends it.
#[tactic(auto, unfolding(crate::specs::Values::piece_of))]
fn piece_of<'a>(
    places: &Places,
    found: &mut ArrayVec<u8, 256>,
    text: &'a [u8],
) -> Result<&'a [u8], Flaw<'a>>
    ensures ok { IfOk result (λ rest. piece_of places.now found.old.items text.now
        ≡ Ok (found.new.items, rest.now)) }
    ensures err { IfErr result (λ why. piece_of places.now found.old.items text.now
        ≡ Err (flaw_view why)) }
{
    if is_next(b'"', text) {
        return quoted_of(found, without_first(text));
    }
    let (byte, rest) = byte_of(places, text)?;
    push_piece(found, &[byte], rest)
}

/// Reads pieces to the end of the line.
fn pieces_of<'a>(
    places: &Places,
    found: &mut ArrayVec<u8, 256>,
    text: &'a [u8],
) -> Result<&'a [u8], Flaw<'a>>
    ensures ok { IfOk result (λ rest. pieces_of (length text.now + 1) places.now found.old.items
        text.now ≡ Ok (found.new.items, rest.now)) }
    ensures err { IfErr result (λ why. pieces_of (length text.now + 1) places.now found.old.items
        text.now ≡ Err (flaw_view why)) }
{
    let mut rest = text;
    for _ in 0..text.len() + 1 {
        match piece_of(places, found, rest) {
            Ok(behind) => rest = past(b',', behind),
            Err(why) => return Err(why),
        }
        if is_empty(rest) {
            return Ok(rest);
        }
    }
    Ok(rest)
}

/// Reads bytes and texts to the end of the line: one at least.
#[tactic(auto, unfolding(crate::specs::Values::bytes_of))]
pub fn bytes_of<'a>(
    places: &Places,
    text: &'a [u8],
) -> Result<(ArrayVec<u8, 256>, &'a [u8]), Flaw<'a>>
    ensures ok { IfOk result (λ p. bytes_of places.now text.now ≡ Ok (p.0.items, p.1.now)) }
    ensures err { IfErr result (λ why. bytes_of places.now text.now ≡ Err (flaw_view why)) }
{
    let mut found = ArrayVec::new();
    let rest = pieces_of(places, &mut found, text)?;
    if found.is_empty() {
        return Err(Flaw::Missing(Lack::Text));
    }
    Ok((found, rest))
}
