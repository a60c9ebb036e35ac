//! Laws of cleaning.

ghost use Rattle.clean_source.specs.Plain.{LineKeepsPlaces, LinesAreCleaned, PlainStays};

/// States that a source whose bytes may all be in one, in lines that end with LF or CR LF, is read
/// as it is.
///
/// A law for proofs: the call does nothing.
pub fn plain_source_stays()
    ensures { PlainStays }
{}

/// States that each line keeps its number if no CR stands alone, and that its bytes keep their
/// columns up to the first one that may not be in a source; a byte-order mark is no part of the
/// first line.
///
/// A law for proofs: the call does nothing.
pub fn lines_keep_their_places()
    ensures lines { LinesAreCleaned }
    ensures columns { LineKeepsPlaces }
{}
