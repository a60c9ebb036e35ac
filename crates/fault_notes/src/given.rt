//! Faults that may go away when a definition of another assembler is written as one of here.

ghost use Rattle.std.specs.Prelude.{◌≡◌, ◌∷◌, ℕ, [], IfOk, List, OnOk, Option, Some, filter, slice_get};
ghost use Rattle.std.specs.List.{list_any};
ghost use Rattle.fault_notes.specs.Given.{given_of, has_given, is_define, is_given, is_of_name};
ghost use Rattle.fault_notes.specs.Given.{is_told, told_faults_of, told_of, with_given};
ghost use Rattle.fault_notes.specs.Given.{with_given_in};
ghost use Rattle.line_parts.specs.Lexemes.{lexeme_of, lexemes};
ghost use Rattle.model.specs.Source.{Denotes, HasFault};
ghost use Rattle.model.specs.Token.{tokens_of};
ghost use Rattle.model.specs.declared.source_fault.AsmFault.{AsmFault};
ghost use Rattle.source_notes.specs.Lines.{texts_of};

use crate::form::is_word;
use bus::MapSpec;
use lexer::tokens;
use line_parts::Token;
use model::{AsmFault, AsmFaultKind, LineFault};
use source_faults::source_faults;
use source_notes::{every_line, line_of, line_or_none};
use std::alloc::{AllocError, Global};
use symbols::Symbols;

/// Returns whether a word gives the name after it a value, in another assembler.
pub fn is_define(text: &[u8]) -> bool
    ensures { result ≡ is_define text.now }
{
    text.eq_ignore_ascii_case(b"DEFINE") || text.eq_ignore_ascii_case(b".DEFINE")
}

/// Notes the name that a line of these tokens gives a value, unless it is noted.
#[tactic(auto, unfolding(model::specs::AllFaults::with_word))]
fn note_given(alloc: Global, given: &mut Symbols, tokens: &[Token<'_>]) -> Result<(), AllocError>
    ensures { OnOk result (given.new ≡ with_given (lexemes tokens.now) given.old) }
{
    match tokens {
        [word, name, ..] if is_define(word.text) && is_word(name) => {
            if given.value_of(name.text).is_none() {
                given.define(alloc, name.text, 0)?;
            }
            Ok(())
        }
        _ => Ok(()),
    }
}

/// Notes the name that a line gives a value, unless it is noted.
fn note_given_in(alloc: Global, given: &mut Symbols, line: &[u8]) -> Result<(), AllocError>
    ensures { OnOk result (given.new ≡ with_given_in (tokens_of line.now) given.old) }
{
    match tokens(alloc, line) {
        Ok(found) => note_given(alloc, given, &found),
        Err(LineFault::OutOfMemory) => Err(AllocError),
        Err(LineFault::Syntax) => Ok(()),
    }
}

/// Returns the names that the lines of some faults give a value.
fn given_of(alloc: Global, lines: &[&[u8]], faults: &[AsmFault]) -> Result<Symbols, AllocError>
    ensures { IfOk result (λ given. given ≡ given_of (texts_of lines.now) [] faults.now) }
{
    let mut given = Symbols::new(alloc);
    for fault in faults {
        note_given_in(alloc, &mut given, line_or_none(line_of(lines, fault.line)))?;
    }
    Ok(given)
}

/// Returns whether a token is a name that is given.
fn is_given(given: &Symbols, token: &Token<'_>) -> bool
    ensures { result ≡ is_given given.now (lexeme_of token.now) }
{
    is_word(token) && given.value_of(token.text).is_some()
}

/// Returns whether a name that is given stands among some tokens.
fn is_given_among(given: &Symbols, tokens: &[Token<'_>]) -> bool
    ensures { result ≡ list_any (is_given given.now) (lexemes tokens.now) }
{
    for token in tokens {
        if is_given(given, token) {
            return true;
        }
    }
    false
}

/// Returns whether a name that is given stands on a line.
fn has_given(alloc: Global, given: &Symbols, line: &[u8]) -> Result<bool, AllocError>
    ensures { IfOk result (λ has. has ≡ has_given given.now (tokens_of line.now)) }
{
    match tokens(alloc, line) {
        Ok(found) => Ok(is_given_among(given, &found)),
        Err(LineFault::OutOfMemory) => Err(AllocError),
        Err(LineFault::Syntax) => Ok(false),
    }
}

/// Returns whether a fault is of a name that is not known.
fn is_of_name(kind: AsmFaultKind) -> bool
    ensures { result ≡ is_of_name kind }
{
    matches!(
        kind,
        AsmFaultKind::UnknownHere | AsmFaultKind::UndefinedName
    )
}

/// Returns whether a fault is told where these names are given.
fn is_told(
    alloc: Global,
    lines: &[&[u8]],
    given: &Symbols,
    fault: AsmFault,
) -> Result<bool, AllocError>
    ensures { IfOk result (λ told. told ≡ is_told (texts_of lines.now) given.now fault) }
{
    if is_of_name(fault.kind) {
        let line = line_or_none(line_of(lines, fault.line));
        return Ok(!has_given(alloc, given, line)?);
    }
    Ok(true)
}

/// Returns a fault and those of some others that are told where these names are given.
fn told_after(
    alloc: Global,
    lines: &[&[u8]],
    given: &Symbols,
    first: AsmFault,
    others: &[AsmFault],
) -> Result<Vec<AsmFault>, AllocError>
    ensures { IfOk result (λ told. told.items
        ≡ first ∷ filter (is_told (texts_of lines.now) given.now) others.now) }
{
    let mut told = Vec::new(alloc);
    told.push(first)?;
    for fault in others {
        if is_told(alloc, lines, given, *fault)? {
            told.push(*fault)?;
        }
    }
    Ok(told)
}

/// Returns the faults of lines that are told, of all that they have.
fn told_of(alloc: Global, lines: &[&[u8]], faults: &[AsmFault]) -> Result<Vec<AsmFault>, AllocError>
    ensures { IfOk result (λ told. told.items ≡ told_of (texts_of lines.now) faults.now) }
{
    match faults {
        [] => Ok(Vec::new(alloc)),
        [first, others @ ..] => {
            let given = given_of(alloc, lines, faults)?;
            told_after(alloc, lines, &given, *first, others)
        }
    }
}

/// Returns the faults of a source in its map's profile that are told: all of `source_faults` but
/// those that a definition of another assembler, `define NAME VALUE`, may take away when it is
/// mended. These are the faults of names that are not known, on lines with a name that such a line
/// gives. The first fault is always told.
///
/// The only error is that a request for memory was refused. Source: mos65.
#[tactic(auto, unfolding(crate::specs::Given::told_faults_of))]
pub fn told_source_faults(
    alloc: Global,
    source: &[u8],
    map: &MapSpec,
) -> Result<Vec<AsmFault>, AllocError>
    ensures exact { IfOk result (λ faults. faults.items ≡ told_faults_of map.now source.now) }
    // The first is the source's fault.
    ensures first { IfOk result (λ faults. (fault : AsmFault) → HasFault map.now source.now fault
        → slice_get faults.items 0 ≡ Some fault) }
    // A source that denotes an image has none.
    ensures none { IfOk result (λ faults. (image : List (Option ℕ))
        → Denotes map.now source.now image → faults.items ≡ []) }
{
    let faults = source_faults(alloc, source, map)?;
    let lines = every_line(alloc, source)?;
    told_of(alloc, &lines, &faults)
}
