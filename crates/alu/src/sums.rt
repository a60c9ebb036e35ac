//! Sums and differences, in binary and decimal.

ghost use Rattle.std.specs.Prelude.{◌≡◌, true, not, nat_le, ◌+◌, ◌-◌, ◌%◌, ◌<◌, nat_lt};
ghost use Rattle.std.specs.Prelude.{if◌then◌else◌};
ghost use Rattle.model.specs.Arithmetic.{adc, adc_binary, adc_decimal, sbc, sbc_binary};
ghost use Rattle.model.specs.Arithmetic.{sbc_decimal, bit, IsDecimal, packed_decimal_value};
ghost use Rattle.model.specs.Arithmetic.{digits_of};

use model::Sum;

/// Adds two bytes and a carry, as ADC does: in decimal if `d` is set, otherwise in binary.
///
/// In binary, C is set above 255, and V if the signed sum leaves -128..127. In decimal, Z is that
/// of the binary sum, and N and V are those of the sum before its last correction. If all digits of
/// both operands are 0..9, the decimal sum is the sum of the numbers that they write, modulo 100,
/// and C tells whether it is above 99. Source: MCS6500 manual, chapter 2; Bruce Clark, "Decimal
/// Mode", 6502.org.
#[inline(always)]
#[tactic(auto, unfolding(model::specs::Arithmetic::adc))]
pub fn adc(a: u8, m: u8, c: bool, d: bool) -> Sum
    ensures sum { result ≡ adc a m c d }
    ensures decimal { d ≡ true → IsDecimal a → IsDecimal m → result.value
        ≡ digits_of ((packed_decimal_value a + packed_decimal_value m + bit c) % 100) }
    ensures decimal_carry { d ≡ true → IsDecimal a → IsDecimal m
        → result.c ≡ nat_lt 99 (packed_decimal_value a + packed_decimal_value m + bit c) }
{
    if d {
        adc_decimal(a, m, c)
    } else {
        adc_binary(a, m, c)
    }
}

#[inline(always)]
fn adc_binary(a: u8, m: u8, c: bool) -> Sum
    ensures { result ≡ adc_binary a m c }
{
    let wide = a as u16 + m as u16 + c as u16;
    let value = (wide & 0xff) as u8;
    let minus = value >= 128;
    Sum {
        value,
        n: minus,
        v: ((a >= 128) == (m >= 128)) & ((a >= 128) != minus),
        z: value == 0,
        c: wide > 0xff,
    }
}

/// Returns a digit's sum, with 6 added if it is above 9, without its carry.
fn adjusted_up(digits: u8) -> u8
    requires { digits < 32 }
    ensures value { result ≡ (if nat_lt 9 digits then (digits + 6) % 16 else digits) }
    ensures digit { result < 16 }
{
    if digits > 9 {
        (digits + 6) & 15
    } else {
        digits
    }
}

/// The decimal sum, digit by digit.
#[inline(never)]
#[tactic(auto, using(crate::proofs::Parts::bool_byte_is))]
fn adc_decimal(a: u8, m: u8, c: bool) -> Sum
    ensures value { result.value ≡ (adc_decimal a m c).value }
    ensures minus { result.n ≡ (adc_decimal a m c).n }
    ensures overflow { result.v ≡ (adc_decimal a m c).v }
    ensures zero { result.z ≡ (adc_decimal a m c).z }
    ensures carry { result.c ≡ (adc_decimal a m c).c }
{
    let low = (a & 15) + (m & 15) + c as u8;
    let high = (a >> 4) + (m >> 4) + (low > 9) as u8;
    let minus = high & 15 > 7;
    let binary = a as u16 + m as u16 + c as u16;
    let value = adjusted_up(high) * 16 + adjusted_up(low);
    Sum {
        value,
        n: minus,
        v: ((a >= 128) == (m >= 128)) & ((a >= 128) != minus),
        z: binary & 0xff == 0,
        c: high > 9,
    }
}

/// Subtracts a byte and a borrow, as SBC does: in decimal if `d` is set, otherwise in binary.
///
/// The borrow is the complement of the carry `c`. C is set if no borrow goes out, and V if the
/// signed difference leaves -128..127; all four flags are those of the binary difference. If all
/// digits of both operands are 0..9, the decimal difference is that of the numbers that they write,
/// modulo 100. Source: MCS6500 manual, chapter 2; Bruce Clark, "Decimal Mode", 6502.org.
#[inline(always)]
#[tactic(auto, unfolding(model::specs::Arithmetic::sbc))]
pub fn sbc(a: u8, m: u8, c: bool, d: bool) -> Sum
    ensures difference { result ≡ sbc a m c d }
    ensures decimal { d ≡ true → IsDecimal a → IsDecimal m → result.value
        ≡ digits_of ((100 + packed_decimal_value a - packed_decimal_value m - bit (not c)) % 100) }
    ensures decimal_carry { d ≡ true → IsDecimal a → IsDecimal m
        → result.c ≡ nat_le (packed_decimal_value m + bit (not c)) (packed_decimal_value a) }
{
    let binary = sbc_binary(a, m, c);
    if d {
        Sum {
            value: sbc_digits(a, m, c),
            ..binary
        }
    } else {
        binary
    }
}

#[inline(always)]
fn sbc_binary(a: u8, m: u8, c: bool) -> Sum
    ensures { result ≡ sbc_binary a m c }
{
    let wide = 256 + a as u16 - m as u16 - !c as u16;
    let value = (wide & 0xff) as u8;
    let minus = value >= 128;
    Sum {
        value,
        n: minus,
        v: ((a >= 128) != (m >= 128)) & ((a >= 128) != minus),
        z: value == 0,
        c: wide > 0xff,
    }
}

/// Returns a digit's difference plus 16, with 6 subtracted if it was below 0.
fn adjusted_down(digits: u8) -> u8
    requires { digits < 32 }
    ensures value { result ≡ (if nat_lt digits 16 then (digits + 10) % 16 else digits - 16) }
    ensures digit { result < 16 }
{
    if digits < 16 {
        (digits + 10) & 15
    } else {
        digits - 16
    }
}

#[inline(never)]
fn sbc_digits(a: u8, m: u8, c: bool) -> u8
    ensures { result ≡ (sbc_decimal a m c).value }
{
    let low = 16 + (a & 15) - (m & 15) - !c as u8;
    let high = 16 + (a >> 4) - (m >> 4) - (low < 16) as u8;
    adjusted_down(high) * 16 + adjusted_down(low)
}
