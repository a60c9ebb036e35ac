//! The words of the rows of `cmp`. `specs/DifferenceRows.antt` and `specs/DumpRows.antt` say where
//! each stands.

pub const NO_BYTE: &str = "--";

pub const ON: &str = " on ";

pub const ONLY: &str = " only\n";

pub const BYTE_DIFFERS: &str = "byte differs";

pub const BYTES_DIFFER: &str = "bytes differ";

pub const IN_ONE_BIT: &str = " in one bit";

pub const IS_0_IN: &str = " is 0 in ";

pub const IS_1_IN: &str = " is 1 in ";

pub const AND_0_IN: &str = " and 0 in ";

pub const AND_1_IN: &str = " and 1 in ";

pub const IS: &str = " is ";

pub const WITH: &str = " with ";

pub const AT_0: &str = " at 0";

pub const AT_1: &str = " at 1";

pub const AND: &str = " and ";

pub const EXCHANGED: &str = " exchanged";

pub const INVERTED: &str = "each bit inverted";
