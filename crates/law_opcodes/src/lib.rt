//! Laws over the opcode table of each profile.
//!
//! No function here does anything: each one's contract is a law, computed in `proofs` for every
//! opcode and for every mnemonic in every mode. They stand on `model` alone.
#![tactic(auto)]

ghost use Rattle.law_opcodes.specs.Law.{RowsAreKept, TableIsReadBothWays, TextsNameMnemonics};
ghost use Rattle.law_opcodes.specs.Law.{TextsNameWhatHasOpcodes};

/// States that the table is read both ways.
///
/// A mnemonic in a mode is encoded by an opcode exactly if the table's row of that opcode has both.
/// A law for proofs: the call does nothing.
pub fn table_is_read_both_ways()
    ensures { TableIsReadBothWays }
{}

/// States that the text of a mnemonic of a profile names it there.
///
/// Each mnemonic that has an opcode in a profile is one of the profile's. A law for proofs: the
/// call does nothing.
pub fn texts_name_mnemonics()
    ensures each { TextsNameMnemonics }
    ensures used { TextsNameWhatHasOpcodes }
{}

/// States that an opcode with a row in profile N has the same row in profile C.
///
/// A law for proofs: the call does nothing.
pub fn rows_are_kept()
    ensures { RowsAreKept }
{}
