//! A fault of a tape in words.

ghost use Rattle.std.specs.Prelude.{◌≡◌, ◌≤◌, ◌++◌, IfOk, OnOk, string_bytes};
ghost use Rattle.tape_words.specs.Answers.{Begins, TellsFault, fault_front};
ghost use Rattle.tape_words.specs.Lines.{ends_first, ends_line, line_of};
ghost use Rattle.tape_words.specs.Meanings.{fault_line};

use crate::meanings::push_meaning;
use crate::records::without_first;
use arguments::shown_name;
use model::{TapeFault, TapeFaultKind};
use std::alloc::{AllocError, Global};

/// Returns whether a line ends with a byte, by what follows it.
fn ends_line(byte: u8, behind: &[u8]) -> bool
    ensures { result ≡ ends_line byte behind.now }
{
    match behind {
        [] => byte == b'\n' || byte == b'\r',
        [next, ..] => byte == b'\n' || (byte == b'\r' && *next != b'\n'),
    }
}

/// Returns 1 if the first byte of a text ends a line, and otherwise 0.
fn ends_first(text: &[u8]) -> u64
    ensures value { result ≡ ends_first text.now }
    ensures small { result ≤ 1 }
{
    match text {
        [] => 0,
        [byte, behind @ ..] => u64::from(ends_line(*byte, behind)),
    }
}

/// Returns the number of the line in which a byte stands, from 1 on: a line ends with LF, or with a
/// CR that no LF follows.
pub fn line_of(text: &[u8], offset: u64) -> u64
    ensures { result ≡ line_of text.now offset }
{
    let mut line = 1u64;
    let mut rest = text;
    for seen in 0..offset {
        if rest.is_empty() {
            return line;
        }
        line += ends_first(rest);
        rest = without_first(rest);
    }
    line
}

/// Appends how the line that says a fault begins: `FILE:LINE: NAME NUMBER: `.
fn push_front(
    words: &mut String,
    alloc: Global,
    file: &str,
    line: u64,
    kind: TapeFaultKind,
) -> Result<(), AllocError>
    ensures { OnOk result (string_bytes words.new
        ≡ string_bytes words.old ++ fault_front file.now line kind) }
{
    let (name, number) = (kind.name(), kind.number());
    let file = shown_name(alloc, file)?;
    write!(words, "{file}:{line}: {name} {number}: ")
}

/// Returns the line that says a tape's fault: `FILE:LINE: NAME NUMBER: ` and what it means there.
///
/// Errors: `AllocError` if an allocation fails.
#[tactic(auto, unfolding(crate::specs::Meanings::fault_line))]
pub fn fault_text(
    alloc: Global,
    file: &str,
    text: &[u8],
    fault: TapeFault,
) -> Result<String, AllocError>
    ensures line { IfOk result
        (λ words. string_bytes words ≡ fault_line file.now text.now fault) }
    ensures told { IfOk result (λ words. TellsFault file.now fault.kind (string_bytes words)) }
    ensures front { IfOk result (λ words. Begins
        (fault_front file.now (line_of text.now fault.offset) fault.kind) (string_bytes words)) }
{
    let mut words = String::new(alloc);
    push_front(
        &mut words,
        alloc,
        file,
        line_of(text, fault.offset),
        fault.kind,
    )?;
    let mut meaning = String::new(alloc);
    push_meaning(&mut meaning, text, fault)?;
    meaning.push_str("\n")?;
    words.push_str(meaning.as_str())?;
    Ok(words)
}
