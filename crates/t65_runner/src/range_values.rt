//! The values of a row's ranges, one call after another.

ghost use Rattle.std.specs.Prelude.{◌≡◌, ◌≤◌, ◌/◌, ◌%◌, bit_xor};
ghost use Rattle.t65_runner.specs.RangeValues.{all_at, all_count, count_of, drawn, four_later};
ghost use Rattle.t65_runner.specs.RangeValues.{mixed, next_number, place_number, random_after};
ghost use Rattle.t65_runner.specs.RangeValues.{random_byte, seed_of, size_of, spread, times};
ghost use Rattle.t65_runner.specs.RangeValues.{value_in, values_by};

use t65_reader::{Choice, Range, Ranges};

/// The values of a row's ranges; 0 for one that is not there. With them is the number of the
/// generator before the call, from which random bytes come; 0 where a row is run for all values.
#[derive(Clone, Copy)]
pub struct Values {
    pub first: u32,
    pub second: u32,
    pub third: u32,
    pub fourth: u32,
    pub number: u32,
}

/// Returns how many values a range has; 1 where there is none.
fn size_of(range: Option<Range>) -> u32
    ensures size { result ≡ size_of range }
    ensures some { 1 ≤ result }
    ensures within { result ≤ 65536 }
{
    match range {
        None => 1,
        Some(range) => range.last.saturating_sub(range.first) as u32 + 1,
    }
}

/// Returns the value of a range by its number, counted from 0.
fn value_in(range: Option<Range>, number: u32) -> u32
    requires { number ≤ 65536 }
    ensures { result ≡ value_in range number }
{
    match range {
        None => 0,
        Some(range) => range.first as u32 + number,
    }
}

fn times(a: u64, range: Option<Range>) -> u64
    ensures { result ≡ times a (size_of range) }
{
    a.saturating_mul(size_of(range) as u64)
}

fn all_count(ranges: Ranges) -> u64
    ensures { result ≡ all_count ranges }
{
    let two = times(size_of(ranges.first) as u64, ranges.second);
    times(times(two, ranges.third), ranges.fourth)
}

/// Returns the value of a range whose number is the rest by the range's size.
fn rest_in(range: Option<Range>, n: u64) -> u32
    ensures { result ≡ value_in range (n % size_of range) }
{
    value_in(range, (n % size_of(range) as u64) as u32)
}

fn quotient(n: u64, range: Option<Range>) -> u64
    ensures { result ≡ n / size_of range }
{
    n / size_of(range) as u64
}

/// Returns all values by their number, counted from 0: those of the last range change first.
#[tactic(auto, unfolding(crate::specs::RangeValues::all_at))]
fn all_at(ranges: Ranges, n: u64) -> Values
    ensures { result ≡ all_at ranges n }
{
    let third = quotient(n, ranges.fourth);
    let second = quotient(third, ranges.third);
    let first = quotient(second, ranges.second);
    Values {
        first: rest_in(ranges.first, first),
        second: rest_in(ranges.second, second),
        third: rest_in(ranges.third, third),
        fourth: rest_in(ranges.fourth, n),
        number: 0,
    }
}

/// Returns the number after a number of the generator.
fn next_number(x: u32) -> u32
    ensures { result ≡ next_number x }
{
    ((1664525 * x as u64 + 1013904223) % 4294967296) as u32
}

/// Returns the number that stands before the next call.
pub fn four_later(x: u32) -> u32
    ensures { result ≡ four_later x }
{
    next_number(next_number(next_number(next_number(x))))
}

/// Returns the value of a range for a number: the upper 16 bits, spread over the range.
fn drawn(range: Option<Range>, x: u32) -> u32
    ensures { result ≡ drawn range x }
{
    let part = (x / 65536) as u64 * size_of(range) as u64 / 65536;
    value_in(range, part as u32)
}

#[tactic(auto, unfolding(crate::specs::RangeValues::random_after))]
fn random_after(ranges: Ranges, x: u32) -> Values
    ensures { result ≡ random_after ranges x }
{
    let first = next_number(x);
    let second = next_number(first);
    let third = next_number(second);
    Values {
        first: drawn(ranges.first, first),
        second: drawn(ranges.second, second),
        third: drawn(ranges.third, third),
        fourth: drawn(ranges.fourth, next_number(third)),
        number: x,
    }
}

/// Returns a number with its higher bits spread over its lower ones.
fn spread_bits(x: u32, by: u32) -> u32
    requires { 1 ≤ by }
    ensures { result ≡ bit_xor x (x / by) }
{
    x ^ (x / by)
}

/// Returns a number with its higher bits spread over its lower ones, times a factor.
fn spread(x: u32, by: u32, factor: u32) -> u32
    requires { 1 ≤ by }
    ensures { result ≡ spread x by factor }
{
    (spread_bits(x, by) as u64 * factor as u64 % 4294967296) as u32
}

/// Returns a number whose bits all depend on those of another.
#[tactic(auto, unfolding(crate::specs::RangeValues::mixed))]
fn mixed(x: u32) -> u32
    ensures { result ≡ mixed x }
{
    let once = spread(x, 65536, 2246822507);
    let twice = spread(once, 8192, 3266489909);
    spread(twice, 65536, 1)
}

/// Returns the number from which the random byte of a place comes.
fn place_number(number: u32, place: u16) -> u32
    ensures { result ≡ place_number number place }
{
    ((number as u64 + 2654435769 * place as u64) % 4294967296) as u32
}

/// Returns the random byte of a place in a call before which the generator has a number.
pub fn random_byte(number: u32, place: u16) -> u32
    ensures { result ≡ random_byte number place }
{
    mixed(place_number(number, place)) / 16777216
}

/// Returns for how many values a row is run.
pub fn count_of(ranges: Ranges, choice: Choice) -> u64
    ensures { result ≡ count_of ranges choice }
{
    match choice {
        Choice::All => all_count(ranges),
        Choice::Random { count, .. } => count as u64,
    }
}

/// Returns the number that stands before the first call.
pub fn seed_of(choice: Choice) -> u32
    ensures { result ≡ seed_of choice }
{
    match choice {
        Choice::All => 0,
        Choice::Random { seed, .. } => seed,
    }
}

/// Returns the values for which a row is run, by their number, counted from 0, and that of the
/// generator.
pub fn values_by(ranges: Ranges, choice: Choice, n: u64, number: u32) -> Values
    ensures { result ≡ values_by ranges choice n number }
{
    match choice {
        Choice::All => all_at(ranges, n),
        Choice::Random { .. } => random_after(ranges, number),
    }
}
