//! The words that every text of blocks has.

/// The line before the total where some blocks are left out.
pub const AND_MORE: &str = "and more\n";
