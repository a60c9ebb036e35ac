//! What a line of a listing says.

ghost use Rattle.std.specs.Prelude.{◌≡◌, ◌==◌, drop, position};
ghost use Rattle.debug_listings.specs.Lines.{address_in, are_bytes, begins, bytes_if, bytes_in};
ghost use Rattle.debug_listings.specs.Lines.{count_in, cut, decimal_in, head_of, hex_in};
ghost use Rattle.debug_listings.specs.Lines.{is_byte_sign, is_nothing, is_repeated, is_row, number_at};
ghost use Rattle.debug_listings.specs.Lines.{numbers_of, repeated_of, repeated_or_fault, row_of};
ghost use Rattle.debug_listings.specs.Lines.{run_address, run_column, said_by};
ghost use Rattle.debug_listings.specs.Lines.{said_view, with_digits};
ghost use Rattle.debug_records.specs.Faults.{fault_at, seen};

use debug_records::{DebugFaultKind, LineFault, decimal_number, hex_number};

/// The number of a line, and the number of its file where that is another one than before.
#[derive(Clone, Copy)]
pub struct Numbers {
    pub line: Option<u32>,
    pub file: Option<u32>,
}

/// Where bytes of a row run, and how many they are.
#[derive(Clone, Copy)]
pub struct Bytes {
    pub start: u16,
    pub count: u8,
    pub is_data: bool,
}

/// What a line says.
#[derive(Clone, Copy)]
pub enum Said<'a> {
    /// Nothing of lines.
    Nothing,
    /// The file of a number is read from here on.
    Head {
        file: u32,
        name: &'a [u8],
    },
    /// A line of a source, with its bytes, if it has some.
    Row {
        numbers: Numbers,
        bytes: Option<Bytes>,
    },
    /// So many bytes that repeat those of the row before it.
    Repeated(u32),
}

/// Returns whether a text begins with another.
pub fn begins(text: &[u8], front: &[u8]) -> bool
    ensures { result ≡ begins text.now front.now }
{
    text.starts_with(front)
}

/// Returns a fault at the front of what is left of a line.
pub fn fault_at(kind: DebugFaultKind, text: &[u8]) -> LineFault
    ensures { result ≡ fault_at kind text.now }
{
    LineFault {
        kind,
        left: text.len(),
    }
}

/// Returns the index of the first sign of a text.
pub fn sign_at(sign: u8, text: &[u8]) -> Option<usize>
    ensures { result ≡ position (λ b. b == sign) text.now }
{
    text.iter().position(|byte| *byte == sign)
}

/// Returns what stands before the first sign of a text, and what stands behind it.
pub fn cut(sign: u8, text: &[u8]) -> (&[u8], &[u8])
    ensures before { result.0.now ≡ (cut sign text.now).0 }
    ensures behind { result.1.now ≡ (cut sign text.now).1 }
{
    match sign_at(sign, text) {
        None => text.split_at(text.len()),
        Some(at) => (&text[..at], &text[at + 1..]),
    }
}

/// Returns what stands behind the first byte.
fn tail(text: &[u8]) -> &[u8]
    ensures { result.now ≡ drop 1 text.now }
{
    match text {
        [] => text,
        [_, rest @ ..] => rest,
    }
}

/// Returns the number that decimal digits write, of which there is one at least.
pub fn decimal_in(digits: &[u8]) -> Option<u32>
    ensures { result ≡ decimal_in digits.now }
{
    if digits.is_empty() {
        None
    } else {
        decimal_number(digits)
    }
}

/// Returns the number that hex digits write, of which there is one at least.
pub fn hex_in(digits: &[u8]) -> Option<u32>
    ensures { result ≡ hex_in digits.now }
{
    if digits.is_empty() {
        None
    } else {
        hex_number(digits)
    }
}

/// Returns the number that stands in a column, which may be empty.
fn number_at(column: &[u8], line: &[u8]) -> Result<Option<u32>, LineFault>
    ensures { number_at column.now line.now ≡ result }
{
    if column.is_empty() {
        return Ok(None);
    }
    match decimal_in(column) {
        None => Err(fault_at(DebugFaultKind::NoNumber, line)),
        Some(number) => Ok(Some(number)),
    }
}

/// Returns the numbers in the first column of a line.
#[tactic(auto, unfolding(crate::specs::Lines::numbers_of))]
fn numbers_of(column: &[u8], line: &[u8]) -> Result<Numbers, LineFault>
    ensures { numbers_of column.now line.now ≡ result }
{
    let (before, behind) = cut(b':', column);
    let number = number_at(before, line)?;
    let file = number_at(behind, line)?;
    Ok(Numbers { line: number, file })
}

/// Returns the address that hex digits of a column write.
pub fn address_in(digits: &[u8], text: &[u8]) -> Result<u16, LineFault>
    ensures { address_in digits.now text.now ≡ result }
{
    match hex_in(digits) {
        None => Err(fault_at(DebugFaultKind::NoNumber, text)),
        Some(address) => {
            if address <= 65535 {
                Ok(address as u16)
            } else {
                Err(fault_at(DebugFaultKind::NoNumber, text))
            }
        }
    }
}

/// Returns where bytes run: where they are loaded, if the column has no other address.
fn run_address(loaded: u16, column: &[u8], text: &[u8]) -> Result<u16, LineFault>
    ensures { run_address loaded column.now text.now ≡ result }
{
    if column.is_empty() {
        Ok(loaded)
    } else {
        address_in(column, text)
    }
}

/// Returns whether a byte may stand in a place of three: two hex digits and a blank.
fn is_byte_sign(place: u8, sign: u8) -> bool
    ensures { result ≡ is_byte_sign place sign }
{
    if place == 2 {
        sign == b' '
    } else {
        sign.is_ascii_hexdigit()
    }
}

/// Returns whether a text has pairs of hex digits with a blank between them.
fn are_bytes(column: &[u8]) -> bool
    ensures { result ≡ are_bytes 0 column.now }
{
    let mut place = 0u8;
    for sign in column {
        if !is_byte_sign(place, *sign) {
            return false;
        }
        place = (place + 1) % 3;
    }
    place == 2
}

/// Returns how many bytes a column has, which may be empty.
fn count_in(column: &[u8], text: &[u8]) -> Result<u8, LineFault>
    ensures { count_in column.now text.now ≡ result }
{
    if column.is_empty() {
        return Ok(0);
    }
    if column.len() <= 47 && are_bytes(column) {
        Ok(((column.len() + 1) / 3) as u8)
    } else {
        Err(fault_at(DebugFaultKind::NoBytes, text))
    }
}

/// Returns the column of addresses where bytes run, if there is one, and what stands behind it.
fn run_column(has_run: bool, text: &[u8]) -> (&[u8], &[u8])
    ensures column { result.0.now ≡ (run_column has_run text.now).0 }
    ensures behind { result.1.now ≡ (run_column has_run text.now).1 }
{
    if has_run {
        cut(b'\t', text)
    } else {
        text.split_at(0)
    }
}

/// Returns the bytes of a row, whose sign comes next.
#[tactic(auto, unfolding(crate::specs::Lines::bytes_in))]
fn bytes_in(has_run: bool, text: &[u8]) -> Result<Bytes, LineFault>
    ensures { bytes_in has_run text.now ≡ result }
{
    let (loads_at, behind) = cut(b'\t', tail(text));
    let (runs_at, last) = run_column(has_run, behind);
    let (column, _) = cut(b'\t', last);
    let loaded = address_in(loads_at, text)?;
    let start = run_address(loaded, runs_at, behind)?;
    let count = count_in(column, last)?;
    Ok(Bytes {
        start,
        count,
        is_data: begins(text, b">"),
    })
}

/// Returns whether a text begins as a row of bytes does.
fn is_row(text: &[u8]) -> bool
    ensures { result ≡ is_row text.now }
{
    begins(text, b".") || begins(text, b">")
}

/// Returns the bytes of a row, if it has a sign of bytes.
fn bytes_if(has_run: bool, text: &[u8]) -> Result<Option<Bytes>, LineFault>
    ensures { bytes_if has_run text.now ≡ result }
{
    if is_row(text) {
        let bytes = bytes_in(has_run, text)?;
        Ok(Some(bytes))
    } else {
        Ok(None)
    }
}

/// Returns what a line says that is no head.
#[tactic(auto, unfolding(crate::specs::Lines::row_of))]
fn row_of(has_run: bool, line: &[u8]) -> Result<Said<'_>, LineFault>
    ensures { row_of has_run line.now ≡ seen said_view result }
{
    let (column, behind) = cut(b'\t', line);
    let numbers = numbers_of(column, line)?;
    let bytes = bytes_if(has_run, behind)?;
    Ok(Said::Row { numbers, bytes })
}

/// Returns the head of a file of a number, by what stands behind the number.
fn with_digits<'a>(line: &[u8], number: Option<u32>, rest: &'a [u8]) -> Result<Said<'a>, LineFault>
    ensures { with_digits line.now number rest.now ≡ seen said_view result }
{
    let (_, name) = cut(b':', rest);
    match number {
        None => Err(fault_at(DebugFaultKind::NoHead, line)),
        Some(file) => {
            if begins(rest, b";******  ") && begins(name, b" ") {
                Ok(Said::Head {
                    file,
                    name: tail(name),
                })
            } else {
                Err(fault_at(DebugFaultKind::NoHead, line))
            }
        }
    }
}

/// Returns what a line says that begins with `:`.
#[tactic(auto, unfolding(crate::specs::Lines::head_of))]
fn head_of(line: &[u8]) -> Result<Said<'_>, LineFault>
    ensures { head_of line.now ≡ seen said_view result }
{
    let (digits, rest) = cut(b'\t', tail(line));
    with_digits(line, decimal_in(digits), rest)
}

/// Returns how many bytes a line stands for that repeat those before it.
fn repeated_or_fault<'a>(line: &[u8], count: Option<u32>) -> Result<Said<'a>, LineFault>
    ensures { repeated_or_fault line.now count ≡ seen said_view result }
{
    match count {
        None => Err(fault_at(DebugFaultKind::NoNumber, line)),
        Some(count) => Ok(Said::Repeated(count)),
    }
}

/// Returns what a line says that stands for repeated bytes: their number is behind `(`.
#[tactic(auto, unfolding(crate::specs::Lines::repeated_of))]
fn repeated_of<'a>(line: &[u8]) -> Result<Said<'a>, LineFault>
    ensures { repeated_of line.now ≡ seen said_view result }
{
    let (_, behind) = cut(b'(', line);
    let (digits, _) = cut(b' ', behind);
    repeated_or_fault(line, decimal_in(digits))
}

/// Returns whether a line stands for repeated bytes, with a column of addresses or without.
fn is_repeated(line: &[u8]) -> bool
    ensures { result ≡ is_repeated line.now }
{
    begins(line, b"\t;\t...repeated ") || begins(line, b"\t;\t\t...repeated ")
}

/// Returns whether a line says nothing.
fn is_nothing(line: &[u8]) -> bool
    ensures { result ≡ is_nothing line.now }
{
    line.is_empty() || begins(line, b";")
}

/// Returns what a line says, in a listing with a column of addresses where bytes run, or without.
#[tactic(auto, unfolding(crate::specs::Lines::said_by))]
pub fn said_by(has_run: bool, line: &[u8]) -> Result<Said<'_>, LineFault>
    ensures { said_by has_run line.now ≡ seen said_view result }
{
    if is_nothing(line) {
        Ok(Said::Nothing)
    } else if begins(line, b":") {
        head_of(line)
    } else if is_repeated(line) {
        repeated_of(line)
    } else {
        row_of(has_run, line)
    }
}
