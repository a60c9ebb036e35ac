//! Arithmetic on bytes: sums and differences in binary and decimal, comparisons, shifts, the bit
//! test.
//!
//! Each call returns a byte and the flags that go with it. A flag that the operation does not name
//! is false.
#![tactic(auto)]

pub use bits::{asl, bit_test, compare, lsr, rol, ror, with_carry};
pub use model::{Flags, Sum};
pub use sums::{adc, sbc};

mod bits;
mod sums;
