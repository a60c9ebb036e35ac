//! The operation that is written in a line.

ghost use Rattle.std.specs.Prelude.{◌≡◌, ◌≤◌, length, take};
ghost use Rattle.lsp_hints.specs.Operations.{begins_comment, begins_with, blanks_after};
ghost use Rattle.lsp_hints.specs.Operations.{code_size, colon_of, covered_then, directive_of};
ghost use Rattle.lsp_hints.specs.Operations.{is_character, is_no_quote, operation_at, operation_of};
ghost use Rattle.lsp_hints.specs.Operations.{quoted_rest, size_before_quote, spot_at, start_of};
ghost use Rattle.lsp_hints.specs.Operations.{string_rest, word_after, word_size};

use lsp_answers::Spot;
use lsp_messages::column_of;
use model::{Mnemonic, Profile};
use optable::mnemonic_in;
use source_notes::{after, blank_run, word_run};

/// An operation.
#[derive(Clone, Copy)]
pub enum Operation {
    /// An instruction.
    Instruction(Mnemonic),
    /// `.BYTE`
    Bytes,
    /// `.WORD`
    Words,
    /// `.DBYTE`
    WordsHighFirst,
    /// `.RES`
    Reserve,
    /// `.END`
    Finish,
    /// `*=`
    Origin,
    /// `name =`
    Definition,
}

/// Returns whether some bytes begin with this one.
pub fn begins_with(byte: u8, bytes: &[u8]) -> bool
    ensures { result ≡ begins_with byte bytes.now }
{
    match bytes {
        [first, ..] => *first == byte,
        [] => false,
    }
}

/// Returns where the blanks behind a place of a line end.
pub fn blanks_after(line: &[u8], place: usize) -> usize
    requires { place ≤ length line.now }
    ensures end { result ≡ blanks_after line.now place }
    ensures within { result ≤ length line.now }
{
    place + blank_run(after(line, place))
}

/// Returns where the word behind a place of a line ends.
fn word_after(line: &[u8], place: usize) -> usize
    requires { place ≤ length line.now }
    ensures end { result ≡ word_after line.now place }
    ensures within { result ≤ length line.now }
{
    place + word_run(after(line, place))
}

/// Returns where the `:` of a line stands, or would stand, behind the word that it begins with.
pub fn colon_of(line: &[u8]) -> usize
    ensures place { result ≡ colon_of line.now }
    ensures within { result ≤ length line.now }
{
    blanks_after(line, word_after(line, blanks_after(line, 0)))
}

/// Returns where the operation of a line starts: behind its label, if it has one.
pub fn start_of(line: &[u8]) -> usize
    ensures start { result ≡ start_of line.now }
    ensures within { result ≤ length line.now }
{
    let colon = colon_of(line);
    if begins_with(b':', after(line, colon)) {
        blanks_after(line, colon + 1)
    } else {
        blanks_after(line, 0)
    }
}

/// Returns how many bytes the word of an operation has: a `.` or a `*` belongs to it.
pub fn word_size(bytes: &[u8]) -> usize
    ensures size { result ≡ word_size bytes.now }
    ensures within { result ≤ length bytes.now }
{
    if begins_with(b'*', bytes) {
        1
    } else if begins_with(b'.', bytes) {
        word_after(bytes, 1)
    } else {
        word_after(bytes, 0)
    }
}

/// Returns the directive of a name in either letter case, if there is one.
fn directive_of(name: &[u8]) -> Option<Operation>
    ensures { result ≡ directive_of name.now }
{
    if name.eq_ignore_ascii_case(b".BYTE") {
        return Some(Operation::Bytes);
    }
    if name.eq_ignore_ascii_case(b".WORD") {
        return Some(Operation::Words);
    }
    if name.eq_ignore_ascii_case(b".DBYTE") {
        return Some(Operation::WordsHighFirst);
    }
    if name.eq_ignore_ascii_case(b".RES") {
        return Some(Operation::Reserve);
    }
    if name.eq_ignore_ascii_case(b".END") {
        return Some(Operation::Finish);
    }
    None
}

/// Returns the operation of a word and the bytes behind it, if there is one.
fn operation_of(profile: Profile, word: &[u8], behind: &[u8]) -> Option<Operation>
    ensures { result ≡ operation_of profile word.now behind.now }
{
    if begins_with(b'=', after(behind, blank_run(behind))) {
        return if begins_with(b'*', word) {
            Some(Operation::Origin)
        } else {
            Some(Operation::Definition)
        };
    }
    match mnemonic_in(profile, word) {
        Some(mnemonic) => Some(Operation::Instruction(mnemonic)),
        None => directive_of(word),
    }
}

/// Returns whether a byte is no `"`.
fn is_no_quote(byte: u8) -> bool
    ensures { result ≡ is_no_quote byte }
{
    byte != b'"'
}

/// Returns how many bytes stand before the first `"` of some bytes.
fn size_before_quote(bytes: &[u8]) -> usize
    ensures size { result ≡ size_before_quote bytes.now }
    ensures within { result ≤ length bytes.now }
{
    bytes.iter().take_while(|byte| is_no_quote(**byte)).count()
}

/// Returns how many bytes of a string stand behind its first `"`, its last one too; none if it does
/// not end.
fn string_rest(bytes: &[u8]) -> usize
    ensures { result ≡ string_rest bytes.now }
{
    let inside = size_before_quote(bytes);
    if begins_with(b'"', after(bytes, inside)) {
        inside + 1
    } else {
        0
    }
}

/// Returns whether some bytes begin with a byte between two `'`.
fn is_character(bytes: &[u8]) -> bool
    ensures { result ≡ is_character bytes.now }
{
    begins_with(b'\'', bytes) && begins_with(b'\'', after(bytes, 2))
}

/// Returns how many bytes of a character or a string at the front stand behind its first one.
fn quoted_rest(bytes: &[u8]) -> usize
    ensures { result ≡ quoted_rest bytes.now }
{
    if is_character(bytes) {
        2
    } else if begins_with(b'"', bytes) {
        string_rest(after(bytes, 1))
    } else {
        0
    }
}

/// Returns how many bytes behind the first of some bytes are still quoted, where so many of these
/// are.
fn covered_then(covered: usize, bytes: &[u8]) -> usize
    ensures { result ≡ covered_then covered bytes.now }
{
    if covered == 0 {
        quoted_rest(bytes)
    } else {
        covered - 1
    }
}

/// Returns whether a byte begins a comment, where so many bytes are quoted.
fn begins_comment(covered: usize, byte: u8) -> bool
    ensures { result ≡ begins_comment covered byte }
{
    covered == 0 && byte == b';'
}

/// Returns how many bytes stand before the comment of a line, or how many it has without one.
#[tactic(auto, using(crate::proofs::CodeSteps::at_end))]
pub fn code_size(line: &[u8]) -> usize
    ensures { result ≡ code_size line.now }
{
    let mut covered = 0usize;
    for (index, byte) in line.iter().enumerate() {
        if begins_comment(covered, *byte) {
            return index;
        }
        covered = covered_then(covered, after(line, index));
    }
    line.len()
}

/// Returns what stands before the comment of a line.
#[tactic(auto, using(std::proofs::lemmas::List::take_min))]
pub fn code_of(line: &[u8]) -> &[u8]
    ensures { result.now ≡ take (code_size line.now) line.now }
{
    &line[..code_size(line).min(line.len())]
}

/// Returns the operation of a line, if a column stands behind its word and before its comment.
pub fn operation_at(profile: Profile, line: &[u8], column: usize) -> Option<Operation>
    ensures { result ≡ operation_at profile line.now column }
{
    let start = start_of(line);
    let rest = after(line, start);
    let size = word_size(rest);
    if column >= start + size && column <= code_size(line) {
        operation_of(profile, &rest[..size], &rest[size..])
    } else {
        None
    }
}

/// Returns where in a line a place is, counted in units of UTF-16: up to the end of the word of its
/// operation, behind that, or behind the `;` of its comment.
pub fn spot_at(line: &[u8], character: u64) -> Spot
    ensures { result ≡ spot_at line.now character }
{
    let column = column_of(line, character);
    let start = start_of(line);
    let size = word_size(after(line, start));
    if column > code_size(line) {
        Spot::Comment
    } else if column <= start + size {
        Spot::Operation
    } else {
        Spot::Operand
    }
}
