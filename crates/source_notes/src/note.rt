//! A note about some bytes of a line.

ghost use Rattle.std.specs.Prelude.{◌≡◌};

/// A note about a line: where the bytes that it means start, counted from 0, how many they are, its
/// words, and the word that is right in place of these bytes, if the words name one.
#[derive(Drop)]
pub struct Note {
    pub start: usize,
    pub width: usize,
    pub words: Vec<u8>,
    pub right: Option<Vec<u8>>,
}

impl Note {
    /// Makes a note of its parts, without a right word.
    pub fn new(start: usize, width: usize, words: Vec<u8>) -> Note
        ensures { result ≡ record { start = start; width = width; words = words; right = None } }
    {
        Note {
            start,
            width,
            words,
            right: None,
        }
    }

    /// Returns the note with a word that is right in place of the bytes that it means.
    pub fn with_right(self, right: Vec<u8>) -> Note
        ensures { result ≡ record {
          start = self.start;
          width = self.width;
          words = self.words;
          right = Some right;
        } }
    {
        Note {
            start: self.start,
            width: self.width,
            words: self.words,
            right: Some(right),
        }
    }
}
