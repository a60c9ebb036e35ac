//! What the reading of tapes as images leaves as it is.

ghost use Rattle.std.specs.Prelude.{◌≡◌, ℕ, List, Option};
ghost use Rattle.image_reader.specs.EndRecords.{as_read};
ghost use Rattle.model.specs.Tape.{TapeDenotes};

/// States that the text of a right tape is read as it stands.
///
/// A law for proofs: the call does nothing.
pub fn right_tapes_are_read_as_they_stand()
    ensures { (text : List ℕ) (cells : List (Option ℕ)) → TapeDenotes text cells
        → as_read text ≡ text }
{}
