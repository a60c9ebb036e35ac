//! Breaks and watches.

ghost use Rattle.std.specs.Prelude.{◌≡◌, ◌++◌, OnOk};
ghost use Rattle.std.specs.List.{flat_map};
ghost use Rattle.source_map.specs.Names.{name_at};
ghost use Rattle.mon_texts.specs.Stops.{break_line, further_place, further_test, kind_text, last_text};
ghost use Rattle.mon_texts.specs.Stops.{places_text};
ghost use Rattle.mon_texts.specs.Stops.{left_text, name_or_digits, number_text, register_name};
ghost use Rattle.mon_texts.specs.Stops.{register_watch_line, sign, test_text, tests_text};
ghost use Rattle.mon_texts.specs.Stops.{times_text, watch_line};

use crate::wording::{AND, BREAK_AT, IF, READS, TIMES, TO, WATCH_AT, WATCH_OF, WRITES};
use formatting::{push_address, push_byte, push_count, push_text};
use mon_instructions::push_place;
use mon_lines::{Compare, Left, Register, Stretch, Test, WatchKind};
use source_map::Places;
use std::alloc::AllocError;

/// The name of a register.
fn name_of(register: Register) -> &'static str
    ensures { result.now ≡ register_name register }
{
    match register {
        Register::A => "A",
        Register::X => "X",
        Register::Y => "Y",
        Register::S => "S",
        Register::P => "P",
        Register::Pc => "PC",
    }
}

/// Appends the name of a register.
///
/// Errors: `AllocError` if an allocation fails.
pub fn push_register(text: &mut Vec<u8>, register: Register) -> Result<(), AllocError>
    ensures { OnOk result (text.new.items ≡ text.old.items ++ register_name register) }
{
    push_text(text, name_of(register))
}

/// How a line writes a comparison.
fn sign_of(compare: Compare) -> &'static str
    ensures { result.now ≡ sign compare }
{
    match compare {
        Compare::Equal => "=$",
        Compare::Other => "<>$",
        Compare::Less => "<$",
        Compare::LessOrEqual => "<=$",
        Compare::More => ">$",
        Compare::MoreOrEqual => ">=$",
    }
}

/// Appends the name of an address, or its digits if it has none.
fn push_byte_at(text: &mut Vec<u8>, places: &Places, address: u16) -> Result<(), AllocError>
    ensures { OnOk result (text.new.items ≡ text.old.items
        ++ name_or_digits address (name_at places.now.names address)) }
{
    match places.names().name_at(address) {
        Some(name) => text.extend_from_slice(name),
        None => {
            text.push(b'$')?;
            push_address(text, address)
        }
    }
}

/// Appends what stands on the left side of a test.
fn push_left(text: &mut Vec<u8>, places: &Places, left: Left) -> Result<(), AllocError>
    ensures { OnOk result (text.new.items ≡ text.old.items ++ left_text places.now.names left) }
{
    match left {
        Left::Register(register) => push_register(text, register),
        Left::Flag(flag) => push_text(text, flag.letter()),
        Left::Byte(address) => push_byte_at(text, places, address),
    }
}

/// Appends a number in hex, with two digits if they are enough.
///
/// Errors: `AllocError` if an allocation fails.
pub fn push_number(text: &mut Vec<u8>, number: u16) -> Result<(), AllocError>
    ensures { OnOk result (text.new.items ≡ text.old.items ++ number_text number) }
{
    let high = number / 256;
    if high > 0 {
        push_address(text, number)
    } else {
        push_byte(text, number as u8)
    }
}

/// Appends a test as a line writes it.
fn push_test(text: &mut Vec<u8>, places: &Places, test: Test) -> Result<(), AllocError>
    ensures { OnOk result (text.new.items ≡ text.old.items ++ test_text places.now.names test) }
{
    push_left(text, places, test.left)?;
    push_text(text, sign_of(test.compare))?;
    push_number(text, test.right)
}

/// Appends a test behind another one.
fn push_further(text: &mut Vec<u8>, places: &Places, test: Test) -> Result<(), AllocError>
    ensures { OnOk result (text.new.items ≡ text.old.items
        ++ further_test places.now.names test) }
{
    push_text(text, AND)?;
    push_test(text, places, test)
}

/// Appends tests behind the first one.
fn push_others(text: &mut Vec<u8>, places: &Places, tests: &[Test]) -> Result<(), AllocError>
    ensures { OnOk result (text.new.items ≡ text.old.items
        ++ flat_map (further_test places.now.names) tests.now) }
{
    for test in tests {
        push_further(text, places, *test)?;
    }
    Ok(())
}

/// Appends the tests of a break, if it has any.
fn push_tests(text: &mut Vec<u8>, places: &Places, tests: &[Test]) -> Result<(), AllocError>
    ensures { OnOk result (text.new.items
        ≡ text.old.items ++ tests_text places.now.names tests.now) }
{
    match tests {
        [] => Ok(()),
        [first, others @ ..] => {
            push_text(text, IF)?;
            push_test(text, places, *first)?;
            push_others(text, places, others)
        }
    }
}

/// Appends how often the tests of a break have to hold, if it is more than once.
fn push_times(text: &mut Vec<u8>, times: u32) -> Result<(), AllocError>
    ensures { OnOk result (text.new.items ≡ text.old.items ++ times_text times) }
{
    if times > 1 {
        push_text(text, TIMES)?;
        push_count(text, times as u64)?;
    }
    Ok(())
}

/// Appends a place behind another one.
fn push_further_place(text: &mut Vec<u8>, places: &Places, address: u16) -> Result<(), AllocError>
    ensures { OnOk result (text.new.items ≡ text.old.items
        ++ further_place places.now.names address) }
{
    push_text(text, ", ")?;
    push_place(text, places, address)
}

/// Appends places behind the first one.
fn push_other_places(
    text: &mut Vec<u8>,
    places: &Places,
    addresses: &[u16],
) -> Result<(), AllocError>
    ensures { OnOk result (text.new.items ≡ text.old.items
        ++ flat_map (further_place places.now.names) addresses.now) }
{
    for address in addresses {
        push_further_place(text, places, *address)?;
    }
    Ok(())
}

/// Appends places with commas between them.
fn push_places(text: &mut Vec<u8>, places: &Places, addresses: &[u16]) -> Result<(), AllocError>
    ensures { OnOk result (text.new.items
        ≡ text.old.items ++ places_text places.now.names addresses.now) }
{
    match addresses {
        [] => Ok(()),
        [first, others @ ..] => {
            push_place(text, places, *first)?;
            push_other_places(text, places, others)
        }
    }
}

/// Appends the line of breaks that have the same tests: their places, the tests, and how often
/// they have to hold.
///
/// Errors: `AllocError` if an allocation fails.
#[tactic(auto, unfolding(crate::specs::Stops::break_line))]
pub fn push_break(
    text: &mut Vec<u8>,
    places: &Places,
    addresses: &[u16],
    tests: &[Test],
    times: u32,
) -> Result<(), AllocError>
    ensures ok { OnOk result (text.new.items ≡ text.old.items
        ++ break_line places.now.names addresses.now tests.now times) }
{
    push_text(text, BREAK_AT)?;
    push_places(text, places, addresses)?;
    push_tests(text, places, tests)?;
    push_times(text, times)?;
    push_text(text, "\n")
}

/// Appends the last address of a watch, if it has more than one.
fn push_last(text: &mut Vec<u8>, places: &Places, stretch: Stretch) -> Result<(), AllocError>
    ensures { OnOk result (text.new.items ≡ text.old.items
        ++ last_text places.now.names stretch) }
{
    if stretch.last > stretch.first {
        push_text(text, TO)?;
        push_place(text, places, stretch.last)?;
    }
    Ok(())
}

/// Appends what is watched, and ends the line.
fn push_kind(text: &mut Vec<u8>, kind: WatchKind) -> Result<(), AllocError>
    ensures { OnOk result (text.new.items ≡ text.old.items ++ kind_text kind) }
{
    match kind {
        WatchKind::Change => push_text(text, "\n"),
        WatchKind::Read => push_text(text, READS),
        WatchKind::Write => push_text(text, WRITES),
    }
}

/// Appends the line of a watch: the first and the last address, and what is watched.
///
/// Errors: `AllocError` if an allocation fails.
#[tactic(auto, unfolding(crate::specs::Stops::watch_line))]
pub fn push_watch(
    text: &mut Vec<u8>,
    places: &Places,
    stretch: Stretch,
    kind: WatchKind,
) -> Result<(), AllocError>
    ensures ok { OnOk result (text.new.items ≡ text.old.items
        ++ watch_line places.now.names stretch kind) }
{
    push_text(text, WATCH_AT)?;
    push_place(text, places, stretch.first)?;
    push_last(text, places, stretch)?;
    push_kind(text, kind)
}

/// Appends the line of a watch of a register.
///
/// Errors: `AllocError` if an allocation fails.
pub fn push_register_watch(text: &mut Vec<u8>, register: Register) -> Result<(), AllocError>
    ensures ok { OnOk result (text.new.items ≡ text.old.items ++ register_watch_line register) }
{
    push_text(text, WATCH_OF)?;
    push_register(text, register)?;
    push_text(text, "\n")
}
