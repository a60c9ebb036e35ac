//! Parts of what a line asks for, each of which is all of a text.

ghost use Rattle.std.specs.Prelude.{◌≡◌, IfErr, IfOk};
ghost use Rattle.mon_line_parts.specs.Reading.{flaw_view};
ghost use Rattle.mon_lines.specs.Wholes.{bit_in, bytes_in, place_in, setting_in, tests_in};
ghost use Rattle.mon_lines.specs.Wholes.{times_in};

use crate::command::{Register, Test};
use crate::read::value_of;
use crate::tests::tests_within;
use arrayvec::ArrayVec;
use model::Setting;
use mon_line_parts::{Flaw, Lack, Places, address_of, bit_of, bytes_of, count_of, is_empty, skip};

/// Reads tests with `and` between them. An empty text has none.
pub fn read_tests<'a>(
    text: &'a [u8],
    places: &Places,
    pc: u16,
) -> Result<ArrayVec<Test, 4>, Flaw<'a>>
    ensures ok { IfOk result
        (λ tests. tests_in places.now pc text.now ≡ Ok tests.items) }
    ensures err { IfErr result
        (λ why. tests_in places.now pc text.now ≡ Err (flaw_view why)) }
{
    let mut tests = ArrayVec::new();
    if is_empty(text) {
        return Ok(tests);
    }
    let rest = tests_within(places, pc, &mut tests, skip(text))?;
    if is_empty(rest) {
        Ok(tests)
    } else {
        Err(Flaw::Behind(rest))
    }
}

/// Reads how often tests have to hold: once, if the text is empty.
pub fn read_times<'a>(text: &'a [u8], places: &Places) -> Result<u32, Flaw<'a>>
    ensures ok { IfOk result (λ times. times_in places.now text.now ≡ Ok times) }
    ensures err { IfErr result
        (λ why. times_in places.now text.now ≡ Err (flaw_view why)) }
{
    if is_empty(text) {
        return Ok(1);
    }
    let (count, rest) = count_of(places, skip(text))?;
    let Some(times) = count else {
        return Err(Flaw::Missing(Lack::Times));
    };
    if is_empty(rest) {
        Ok(times)
    } else {
        Err(Flaw::Behind(rest))
    }
}

/// Reads an address.
pub fn read_place<'a>(text: &'a [u8], places: &Places, pc: u16) -> Result<u16, Flaw<'a>>
    ensures ok { IfOk result (λ address. place_in places.now pc text.now ≡ Ok address) }
    ensures err { IfErr result
        (λ why. place_in places.now pc text.now ≡ Err (flaw_view why)) }
{
    let (address, rest) = address_of(places, pc, skip(text))?;
    if is_empty(rest) {
        Ok(address)
    } else {
        Err(Flaw::Behind(rest))
    }
}

/// Reads the value of a register.
pub fn read_setting<'a>(
    register: Register,
    text: &'a [u8],
    places: &Places,
    pc: u16,
) -> Result<Setting, Flaw<'a>>
    ensures ok { IfOk result
        (λ setting. setting_in places.now pc register text.now ≡ Ok setting) }
    ensures err { IfErr result
        (λ why. setting_in places.now pc register text.now ≡ Err (flaw_view why)) }
{
    let (setting, rest) = value_of(places, pc, register, skip(text))?;
    if is_empty(rest) {
        Ok(setting)
    } else {
        Err(Flaw::Behind(rest))
    }
}

/// Reads the value of a flag: 1 or 0.
pub fn read_bit<'a>(text: &'a [u8], places: &Places) -> Result<bool, Flaw<'a>>
    ensures ok { IfOk result (λ bit. bit_in places.now text.now ≡ Ok bit) }
    ensures err { IfErr result
        (λ why. bit_in places.now text.now ≡ Err (flaw_view why)) }
{
    let (bit, rest) = bit_of(places, skip(text))?;
    if is_empty(rest) {
        Ok(bit)
    } else {
        Err(Flaw::Behind(rest))
    }
}

/// Reads bytes and texts between quotes: one byte at least.
pub fn read_bytes<'a>(text: &'a [u8], places: &Places) -> Result<ArrayVec<u8, 256>, Flaw<'a>>
    ensures ok { IfOk result
        (λ bytes. bytes_in places.now text.now ≡ Ok bytes.items) }
    ensures err { IfErr result
        (λ why. bytes_in places.now text.now ≡ Err (flaw_view why)) }
{
    let (bytes, rest) = bytes_of(places, skip(text))?;
    if is_empty(rest) {
        Ok(bytes)
    } else {
        Err(Flaw::Behind(rest))
    }
}
