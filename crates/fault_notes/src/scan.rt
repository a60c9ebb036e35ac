//! Where a line is no longer made of tokens, and why.

ghost use Rattle.std.specs.Prelude.{◌≡◌, ◌+◌, IfOk, drop};
ghost use Rattle.std.specs.List.{prefix_len};
ghost use Rattle.fault_notes.specs.Marks.{IsPlain, stray_place};
ghost use Rattle.lexer.specs.Stray.{first_stray};
ghost use Rattle.model.specs.Token.{is_word_byte};

use lexer::first_stray;
use source_notes::{Class, Note, after, blank_run, describe, phrase, run_of, word_run};
use std::alloc::{AllocError, Global};

/// Why no token begins with some bytes: a byte that is named, or none, and words behind it.
type Reason<'a> = (&'a [u8], &'static str);

/// No byte is named.
const NONE: &[u8] = b"";

/// Returns whether some bytes are hex digits and an `H`, as other assemblers write a hex number.
fn ends_in_h(bytes: &[u8]) -> bool {
    match after(bytes, run_of(Class::Hex, bytes)) {
        [b'H' | b'h', rest @ ..] => word_run(rest) == 0,
        _ => false,
    }
}

/// Returns the first of some bytes, alone.
fn first_alone(bytes: &[u8]) -> &[u8] {
    match bytes {
        [_, ..] => &bytes[..1],
        [] => bytes,
    }
}

/// Returns whether a word stands before `:` or `=`, at the front of some bytes.
fn is_named(bytes: &[u8]) -> bool {
    let rest = after(bytes, word_run(bytes));
    match after(rest, blank_run(rest)) {
        [b':' | b'=', ..] => true,
        _ => false,
    }
}

/// Returns why a decimal number is none.
fn decimal_reason(bytes: &[u8]) -> Reason<'_> {
    let rest = after(bytes, run_of(Class::Decimal, bytes));
    match bytes {
        [b'0', b'x' | b'X', ..] => (NONE, "a hex number is written $FF, not 0xFF"),
        _ => {
            if is_named(bytes) {
                (NONE, "a name begins with a letter")
            } else if ends_in_h(bytes) {
                (NONE, "a hex number is written $FF, not 0FFH")
            } else if run_of(Class::Hex, bytes) == word_run(bytes) {
                (
                    first_alone(rest),
                    " is no decimal digit; a hex number is written $1F",
                )
            } else {
                (
                    first_alone(rest),
                    " is no decimal digit; a name begins with a letter",
                )
            }
        }
    }
}

/// Returns why a hex number after its mark is none.
fn hex_reason(bytes: &[u8]) -> Reason<'_> {
    if word_run(bytes) > 0 {
        let rest = after(bytes, run_of(Class::Hex, bytes));
        return (first_alone(rest), " is no hex digit");
    }
    (
        NONE,
        "digits are missing after $; the address of this line is *",
    )
}

/// Returns why a binary number after its mark is none.
fn binary_reason(bytes: &[u8]) -> Reason<'_> {
    if word_run(bytes) > 0 {
        (NONE, "a binary number has the digits 0 and 1 alone")
    } else {
        (NONE, "digits are missing after %")
    }
}

/// Returns whether a text of several bytes ends at a `'`, before a comment.
fn is_quoted_text(bytes: &[u8]) -> bool {
    let mut count = 0usize;
    for byte in bytes {
        match *byte {
            b'\'' => return count > 1,
            b';' => return false,
            _ => count = count.saturating_add(1),
        }
    }
    false
}

/// Returns why the bytes after a `'` are no character.
fn character_reason(bytes: &[u8]) -> &'static str {
    match bytes {
        [b'\t', b'\'', ..] => "a tab is no character here: write $09",
        _ => {
            if is_quoted_text(bytes) {
                "a text of several characters is written \"..\", in .BYTE"
            } else {
                "a character stands between two quotes, as 'A'; here one is missing"
            }
        }
    }
}

/// Returns why the bytes after a `"` are no string.
fn string_reason(bytes: &[u8]) -> &'static str {
    let inside = run_of(Class::Unquoted, bytes);
    if after(bytes, inside).is_empty() {
        "the string has no quote at its end"
    } else if inside == 0 {
        "a string has at least one byte; a quote inside one is the number 34: .., 34, .."
    } else {
        "a string has no tab: end it before, and write $09"
    }
}

/// Returns why no token begins with some bytes.
fn reason_of(bytes: &[u8]) -> Reason<'_> {
    let Some(first) = bytes.first() else {
        return (NONE, "the line is none of the grammar");
    };
    let rest = after(bytes, 1);
    match *first {
        b'A'..=b'Z' | b'a'..=b'z' => (NONE, "a name has at most 31 bytes"),
        b'0'..=b'9' => decimal_reason(bytes),
        b'$' => hex_reason(rest),
        b'%' => binary_reason(rest),
        b'\'' => (NONE, character_reason(rest)),
        b'"' => (NONE, string_reason(rest)),
        b'.' => (NONE, "a directive's letters are missing after the point"),
        b'@' => (
            NONE,
            "there are no local labels: each label is a name of its own",
        ),
        b'_' => (
            NONE,
            "a name begins with a letter, and there are no local labels",
        ),
        b'{' | b'}' => (
            first_alone(bytes),
            " has no meaning here: lines stand in no blocks",
        ),
        b'\\' => (
            first_alone(bytes),
            " has no meaning here; a quote in a string is the number 34",
        ),
        _ => (first_alone(bytes), " has no meaning here"),
    }
}

/// Returns how many bytes are meant where no token begins with the first of some bytes.
#[tactic(auto, using(crate::proofs::Told::word_steps))]
fn stray_width(bytes: &[u8]) -> usize
    ensures { result ≡ prefix_len is_word_byte (drop 1 bytes.now) + 1 }
{
    word_run(after(bytes, 1)) + 1
}

/// Returns what is said of a line that is not made of tokens.
pub fn text_note(alloc: Global, line: &[u8]) -> Result<Note, AllocError>
    ensures { IfOk result (IsPlain (stray_place line.now (first_stray line.now))) }
{
    match first_stray(line) {
        Some(start) => {
            let bytes = after(line, start);
            let (named, reason) = reason_of(bytes);
            let words = describe(alloc, named, reason)?;
            Ok(Note::new(start, stray_width(bytes), words))
        }
        None => {
            let words = phrase(alloc, "the line is none of the grammar")?;
            Ok(Note::new(blank_run(line), 1, words))
        }
    }
}
