//! What mending Intel HEX and S-records leaves as it is.

ghost use Rattle.std.specs.Prelude.{ℕ, List};
ghost use Rattle.image_reader.specs.declared.form.TextForm.{TextForm};
ghost use Rattle.word_mend.specs.RecordMending.{KeepsDigits, with_checksum, wrong_sum};

/// States that a mended line of Intel HEX or of S-records has each digit of the line but the two of
/// its checksum.
///
/// A law for proofs: the call does nothing.
pub fn lines_keep_their_digits()
    ensures { (form : TextForm) (line : List ℕ)
        → KeepsDigits line (with_checksum line (wrong_sum form line)) }
{}
