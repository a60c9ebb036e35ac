//! The law.

ghost use Rattle.law_source_forms.specs.LabelsLaw.{FlaggedSourceDenotes, LabelledSourceDenotes};

/// The source of an image with labels denotes the image, whatever is marked. A law for proofs: it
/// does nothing.
pub fn labelled_source_denotes()
    ensures { LabelledSourceDenotes }
{}

/// The source of an image with labels denotes the image, whatever is marked, and whichever lines
/// are flagged to get a label. A law for proofs: it does nothing.
pub fn flagged_source_denotes()
    ensures { FlaggedSourceDenotes }
{}
