//! The lines of a number: line 0 is its lowest bit.

ghost use Rattle.std.specs.Prelude.{◌≡◌, ◌^◌, ◌<◌};
ghost use Rattle.dump_faults.specs.Lines.{block_of, exchanged, with_line};

/// Returns the place value of a data line.
fn data_weight(line: u8) -> u8
    requires { line < 8 }
    ensures value { result ≡ 2 ^ line }
    ensures some { 0 < result }
{
    1u8 << line
}

/// Returns the place value of an address line.
fn address_weight(line: u8) -> u16
    requires { line < 16 }
    ensures value { result ≡ 2 ^ line }
    ensures some { 0 < result }
{
    1u16 << line
}

/// Returns a byte with a line at a value.
pub fn data_with(line: u8, value: bool, byte: u8) -> u8
    requires { line < 8 }
    ensures { result ≡ with_line line value byte }
{
    let weight = data_weight(line);
    if value {
        byte | weight
    } else {
        (byte | weight) ^ weight
    }
}

/// Returns an address with a line at a value.
pub fn address_with(line: u8, value: bool, address: u16) -> u16
    requires { line < 16 }
    ensures { result ≡ with_line line value address }
{
    let weight = address_weight(line);
    if value {
        address | weight
    } else {
        (address | weight) ^ weight
    }
}

/// Returns a byte with two lines exchanged.
pub fn data_exchanged(one: u8, other: u8, byte: u8) -> u8
    requires first { one < 8 }
    requires second { other < 8 }
    ensures { result ≡ exchanged one other byte }
{
    let (first, second) = (data_weight(one), data_weight(other));
    if byte / first % 2 == byte / second % 2 {
        byte
    } else {
        (byte ^ first) ^ second
    }
}

/// Returns an address with two lines exchanged.
pub fn address_exchanged(one: u8, other: u8, address: u16) -> u16
    requires first { one < 16 }
    requires second { other < 16 }
    ensures { result ≡ exchanged one other address }
{
    let (first, second) = (address_weight(one), address_weight(other));
    if address / first % 2 == address / second % 2 {
        address
    } else {
        (address ^ first) ^ second
    }
}

/// Returns how many bytes stand between two addresses that differ in an address line alone.
pub fn block_of(line: u8) -> u16
    ensures { result ≡ block_of line }
{
    if line < 16 { address_weight(line) } else { 0 }
}
