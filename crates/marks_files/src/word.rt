//! The word of a mark.

ghost use Rattle.std.specs.Prelude.{◌≡◌};
ghost use Rattle.std.specs.Str.{bytes_eq};
ghost use Rattle.marks_files.specs.MarksFile.{word_of};

use crate::marks::RangeKind;

/// What a line marks.
#[derive(Clone, Copy, Debug, PartialEq, Eq)]
pub enum MarkWord {
    /// A range of bytes of one kind.
    Range(RangeKind),
    /// A table in two halves: the low bytes of addresses, and the high ones; or of addresses less
    /// 1, where so much is more.
    Split(u16),
    /// Where control comes in.
    Follow,
    /// What stands behind the calls of a routine.
    Routine,
    /// The name of an address.
    Label,
    /// A comment, behind a line or, if that is said, before it.
    Comment(bool),
}

/// Whether a word is this one.
fn is_word(word: &[u8], name: &[u8]) -> bool
    ensures { result ≡ bytes_eq word.now name.now }
{
    word == name
}

/// Returns what a line with this word marks.
#[tactic(auto, unfolding(crate::specs::MarksFile::word_of))]
pub fn word_of(word: &[u8]) -> Option<MarkWord>
    ensures { result ≡ word_of word.now }
{
    if is_word(word, b"data") {
        Some(MarkWord::Range(RangeKind::Numbers))
    } else if is_word(word, b"text") {
        Some(MarkWord::Range(RangeKind::Letters))
    } else if is_word(word, b"words") {
        Some(MarkWord::Range(RangeKind::Addresses))
    } else if is_word(word, b"rts-words") {
        Some(MarkWord::Range(RangeKind::Returns))
    } else if is_word(word, b"code") {
        Some(MarkWord::Range(RangeKind::Instructions))
    } else if is_word(word, b"split") {
        Some(MarkWord::Split(0))
    } else if is_word(word, b"rts-split") {
        Some(MarkWord::Split(1))
    } else if is_word(word, b"follow") {
        Some(MarkWord::Follow)
    } else if is_word(word, b"inline") {
        Some(MarkWord::Routine)
    } else if is_word(word, b"label") {
        Some(MarkWord::Label)
    } else if is_word(word, b"comment") {
        Some(MarkWord::Comment(false))
    } else if is_word(word, b"block") {
        Some(MarkWord::Comment(true))
    } else {
        None
    }
}
