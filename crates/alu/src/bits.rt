//! Comparisons, shifts and the bit test.

ghost use Rattle.std.specs.Prelude.{◌≡◌};
ghost use Rattle.model.specs.Arithmetic.{asl, bit_test, compare, lsr, rol, ror, with_carry};

use model::Sum;

/// Compares a register with a byte, as CMP, CPX and CPY do.
///
/// The value is their difference modulo 256, with N and Z of it. C is set if the register is not
/// below the byte. V is false. Source: MCS6500 manual, chapter 4 and appendix A.
#[inline(always)]
#[tactic(auto, unfolding(model::specs::Arithmetic::compare))]
pub fn compare(reg: u8, m: u8) -> Sum
    ensures { result ≡ compare reg m }
{
    with_carry(reg.wrapping_sub(m), reg >= m)
}

/// Shifts a byte left by one place: 0 comes in, bit 7 goes into C, N and Z are the result's.
///
/// V is false. Source: MCS6500 manual, chapter 10 and appendix A.
#[inline(always)]
#[tactic(auto, unfolding(model::specs::Arithmetic::asl))]
pub fn asl(m: u8) -> Sum
    ensures { result ≡ asl m }
{
    with_carry((m & 127) << 1, m >= 128)
}

/// Shifts a byte right by one place: 0 comes in, bit 0 goes into C, Z is the result's.
///
/// N is always false, since 0 comes in at bit 7, and V is false. Source: MCS6500 manual, chapter 10
/// and appendix A.
#[inline(always)]
#[tactic(auto, unfolding(model::specs::Arithmetic::lsr))]
pub fn lsr(m: u8) -> Sum
    ensures { result ≡ lsr m }
{
    with_carry(m >> 1, m & 1 == 1)
}

/// Rotates a byte left by one place through the carry `c`, which comes in at bit 0.
///
/// Bit 7 goes into C; N and Z are the result's; V is false. Source: MCS6500 manual, chapter 10 and
/// appendix A.
#[inline(always)]
#[tactic(auto, unfolding(model::specs::Arithmetic::rol))]
pub fn rol(m: u8, c: bool) -> Sum
    ensures { result ≡ rol m c }
{
    with_carry(((m & 127) << 1) + c as u8, m >= 128)
}

/// Rotates a byte right by one place through the carry `c`, which comes in at bit 7.
///
/// Bit 0 goes into C; N and Z are the result's; V is false. Source: MCS6500 manual, chapter 10 and
/// appendix A.
#[inline(always)]
#[tactic(auto, unfolding(model::specs::Arithmetic::ror))]
pub fn ror(m: u8, c: bool) -> Sum
    ensures { result ≡ ror m c }
{
    with_carry((m >> 1) + 128 * c as u8, m & 1 == 1)
}

/// Tests a byte against the accumulator, as BIT does.
///
/// The value is their common bits, and Z is of it. N and V are bits 7 and 6 of the byte. C is
/// false. Source: MCS6500 manual, chapter 4 and appendix A.
#[inline(always)]
#[tactic(auto, unfolding(model::specs::Arithmetic::bit_test))]
pub fn bit_test(a: u8, m: u8) -> Sum
    ensures { result ≡ bit_test a m }
{
    let value = a & m;
    Sum {
        value,
        n: m >= 128,
        v: (m >> 6) & 1 == 1,
        z: value == 0,
        c: false,
    }
}

/// Returns a value with its N and Z, and a carry. V is false.
#[inline(always)]
pub fn with_carry(value: u8, carry: bool) -> Sum
    ensures { result ≡ with_carry value carry }
{
    Sum {
        value,
        n: value >= 128,
        v: false,
        z: value == 0,
        c: carry,
    }
}
