//! What is said of each kind of warning.

ghost use Rattle.std.specs.Prelude.{◌≡◌, ◌++◌, IfOk, OnOk, map};
ghost use Rattle.std.specs.List.{find};
ghost use Rattle.std.specs.Option.{option_map};
ghost use Rattle.std.specs.Str.{str_eq_ignore_ascii_case};
ghost use Rattle.source_notes.specs.Lines.{name_view};
ghost use Rattle.warning_notes.specs.Notes.{AreTokens, IsNote, Says, case_words, data_words};
ghost use Rattle.warning_notes.specs.Notes.{first_word, handler_words, is_like, vector_name};
ghost use Rattle.warning_notes.specs.Notes.{address_in, bracket_words, closing_of, first_text, inner_text};
ghost use Rattle.warning_notes.specs.Notes.{is_closing, joined, last_of, last_text, like_words};
ghost use Rattle.warning_notes.specs.Notes.{plain_words, pointer_text, word_place, wrap_words};

use crate::wording::{
    AND_NOT_FROM, ANOTHER_NAME, CLOSED, CLOSED_WITH_X, CLOSED_WITH_Y, DIFFERS_IN_CASE,
    HAS_NO_BYTES, HAS_NO_VECTOR, IRQ_VECTOR, IS_A_REGISTER, IS_AN_ADDRESS, IS_NEVER_USED,
    IS_NOT_READ, LEADS_TO_DATA, LEADS_TO_RTS, MOVE_IT, NMI_VECTOR, ON_LINE, ONLY_GROUPS, OPENED,
    RESET_VECTOR, RUNS_ON, TAKES_HIGH_BYTE, TAKES_TWO_BYTES,
};
use formatting::{push_count, push_text};
use lexer::tokens;
use line_parts::Token;
use model::LineFault;
use source_notes::{
    Name, Note, about_operand, after, after_label, blank_run, describe, is_symbol, operand_of,
    phrase, push_dollar_address, word_run,
};
use std::alloc::{AllocError, Global};
use warnings::{Vector, WarningKind};

/// Returns a note about the word with which a line begins.
fn about_word(line: &[u8], words: Vec<u8>) -> Note
    ensures { let place = word_place line.now in
        result ≡ record { start = place.0; width = place.1; words = words; right = None } }
{
    let start = blank_run(line);
    Note::new(start, word_run(after(line, start)).max(1), words)
}

/// Returns the word with which a line begins.
#[tactic(auto, using(crate::proofs::KindWords::word_steps))]
fn first_word(line: &[u8]) -> &[u8]
    ensures { result.now ≡ first_word line.now }
{
    let rest = after(line, blank_run(line));
    &rest[..word_run(rest)]
}

/// Returns the tokens of a line; none of a line that is not made of tokens.
fn tokens_or_none<'a>(alloc: Global, line: &'a [u8]) -> Result<Vec<Token<'a>>, AllocError>
    ensures { IfOk result (λ tokens. AreTokens line.now tokens.items) }
{
    match tokens(alloc, line) {
        Ok(found) => Ok(found),
        Err(LineFault::OutOfMemory) => Err(AllocError),
        Err(LineFault::Syntax) => Ok(Vec::new(alloc)),
    }
}

/// Returns the text of the last of some tokens.
fn last_text<'a>(tokens: &[Token<'a>]) -> &'a [u8]
    ensures { result.now ≡ last_text tokens.now }
{
    match tokens.last() {
        Some(token) => token.text,
        None => &[],
    }
}

/// Returns the text of the first of some tokens that opens no bracket.
fn inner_text<'a>(tokens: &[Token<'a>]) -> &'a [u8]
    ensures { result.now ≡ inner_text tokens.now }
{
    for token in tokens {
        if !is_symbol(token, b'[') {
            return token.text;
        }
    }
    &[]
}

/// Returns words about a number that is an address.
fn plain_words(alloc: Global, number: &[u8]) -> Result<Vec<u8>, AllocError>
    ensures { IfOk result (λ words. words.items ≡ plain_words number.now) }
{
    let mut words = describe(alloc, number, IS_AN_ADDRESS)?;
    words.extend_from_slice(number)?;
    Ok(words)
}

/// Returns a note about a number that is an address.
fn plain_note(
    alloc: Global,
    names: &[Name<'_>],
    number: u32,
    line: &[u8],
) -> Result<Note, AllocError>
    ensures { IfOk result
        (IsNote (map name_view names.now) WarningKind.PlainNumber number line.now) }
{
    let found = tokens_or_none(alloc, line)?;
    let words = plain_words(alloc, inner_text(operand_of(&found)))?;
    Ok(about_operand(line, &found, words))
}

/// Returns a note about an operand that takes two bytes.
fn long_note(
    alloc: Global,
    names: &[Name<'_>],
    number: u32,
    line: &[u8],
) -> Result<Note, AllocError>
    ensures { IfOk result
        (IsNote (map name_view names.now) WarningKind.LongForm number line.now) }
{
    let found = tokens_or_none(alloc, line)?;
    let words = phrase(alloc, TAKES_TWO_BYTES)?;
    Ok(about_operand(line, &found, words))
}

/// Returns words about a pointer at the end of a page.
fn wrap_words(alloc: Global, page: u8) -> Result<Vec<u8>, AllocError>
    ensures { IfOk result (λ words. words.items ≡ wrap_words page) }
{
    let start = page as u32 * 256;
    let mut words = phrase(alloc, TAKES_HIGH_BYTE)?;
    push_dollar_address(&mut words, start)?;
    push_text(&mut words, AND_NOT_FROM)?;
    push_dollar_address(&mut words, start + 256)?;
    push_text(&mut words, MOVE_IT)?;
    Ok(words)
}

/// Returns a note about a pointer at the end of a page.
fn wrap_note(
    alloc: Global,
    names: &[Name<'_>],
    page: u8,
    number: u32,
    line: &[u8],
) -> Result<Note, AllocError>
    ensures { IfOk result
        (IsNote (map name_view names.now) (WarningKind.PointerWrap page) number line.now) }
{
    let found = tokens_or_none(alloc, line)?;
    let words = wrap_words(alloc, page)?;
    Ok(about_operand(line, &found, words))
}

/// Returns the text of the first of some tokens.
fn first_text<'a>(tokens: &[Token<'a>]) -> &'a [u8]
    ensures { result.now ≡ first_text tokens.now }
{
    match tokens.first() {
        Some(token) => token.text,
        None => &[],
    }
}

/// Appends the texts of tokens, one after another.
fn push_texts(words: &mut Vec<u8>, tokens: &[Token<'_>]) -> Result<(), AllocError>
    ensures { OnOk result (words.new.items ≡ words.old.items ++ joined tokens.now) }
{
    for token in tokens {
        words.extend_from_slice(token.text)?;
    }
    Ok(())
}

/// Returns whether the last of some tokens closes a bracket.
fn is_closed(tokens: &[Token<'_>]) -> bool
    ensures { result ≡ is_closing (last_of tokens.now) }
{
    match tokens.last() {
        Some(token) => is_symbol(token, b']'),
        None => false,
    }
}

/// Returns the address in the brackets of an operand.
fn address_in<'t, 'a>(operand: &'t [Token<'a>]) -> &'t [Token<'a>]
    ensures { result.now ≡ address_in operand.now }
{
    let around = if is_closed(operand) { 2 } else { 4 };
    if operand.len() <= around {
        return &[];
    }
    &operand[1..operand.len() - around + 1]
}

/// Returns what closes the pointer that may be meant.
fn closing_of(mnemonic: &[u8], closed: bool, last: &[u8]) -> &'static str
    ensures { result.now ≡ closing_of mnemonic.now closed last.now }
{
    if closed {
        if mnemonic.eq_ignore_ascii_case(b"JMP") {
            CLOSED
        } else {
            CLOSED_WITH_Y
        }
    } else if last.eq_ignore_ascii_case(b"X") {
        CLOSED_WITH_X
    } else {
        CLOSED_WITH_Y
    }
}

/// Appends the pointer that may be meant by an operand in brackets.
fn push_pointer(
    words: &mut Vec<u8>,
    mnemonic: &[u8],
    operand: &[Token<'_>],
) -> Result<(), AllocError>
    ensures { OnOk result (words.new.items
        ≡ words.old.items ++ pointer_text mnemonic.now operand.now) }
{
    push_text(words, OPENED)?;
    push_texts(words, address_in(operand))?;
    push_text(
        words,
        closing_of(mnemonic, is_closed(operand), last_text(operand)),
    )
}

/// Returns words about an operand in brackets.
fn bracket_words(alloc: Global, tokens: &[Token<'_>]) -> Result<Vec<u8>, AllocError>
    ensures { IfOk result (λ words. words.items ≡ bracket_words tokens.now) }
{
    let mnemonic = first_text(after_label(tokens));
    let mut words = phrase(alloc, ONLY_GROUPS)?;
    words.extend_from_slice(mnemonic)?;
    push_pointer(&mut words, mnemonic, operand_of(tokens))?;
    Ok(words)
}

/// Returns a note about an operand in brackets.
fn bracket_note(
    alloc: Global,
    names: &[Name<'_>],
    number: u32,
    line: &[u8],
) -> Result<Note, AllocError>
    ensures { IfOk result
        (IsNote (map name_view names.now) WarningKind.SquareBrackets number line.now) }
{
    let found = tokens_or_none(alloc, line)?;
    let words = bracket_words(alloc, &found)?;
    Ok(about_operand(line, &found, words))
}

/// Returns whether two words are the same but for capitals.
fn is_same_word(one: &[u8], other: &[u8]) -> bool
    ensures { result ≡ str_eq_ignore_ascii_case one.now other.now }
{
    one.eq_ignore_ascii_case(other)
}

/// Returns the first name of a line before this one that has the letters of a word, in capitals or
/// not.
fn like_name<'a>(names: &[Name<'a>], number: u32, word: &[u8]) -> Option<Name<'a>>
    ensures { option_map name_view result ≡ find (is_like number word.now)
        (map name_view names.now) }
{
    for name in names {
        if name.line < number && is_same_word(name.text, word) {
            return Some(*name);
        }
    }
    None
}

/// Appends a name and its line.
fn push_like(words: &mut Vec<u8>, name: Option<Name<'_>>) -> Result<(), AllocError>
    ensures { OnOk result (words.new.items
        ≡ words.old.items ++ like_words (option_map name_view name.entry)) }
{
    match name {
        None => push_text(words, ANOTHER_NAME),
        Some(name) => {
            words.extend_from_slice(name.text)?;
            push_text(words, ON_LINE)?;
            push_count(words, name.line as u64)
        }
    }
}

/// Returns words about a name that differs from another one only in letter case.
fn case_words(
    alloc: Global,
    names: &[Name<'_>],
    number: u32,
    word: &[u8],
) -> Result<Vec<u8>, AllocError>
    ensures { IfOk result
        (λ words. words.items ≡ case_words (map name_view names.now) number word.now) }
{
    let mut words = describe(alloc, word, DIFFERS_IN_CASE)?;
    push_like(&mut words, like_name(names, number, word))?;
    Ok(words)
}

/// Returns a note about a line that says this.
fn line_note(alloc: Global, line: &[u8], said: &'static str) -> Result<Note, AllocError>
    ensures { IfOk result (Says (word_place line.now) said.now) }
{
    let words = phrase(alloc, said)?;
    Ok(about_word(line, words))
}

/// Returns what a vector is called.
fn vector_name(vector: Vector) -> &'static str
    ensures { result.now ≡ vector_name vector }
{
    match vector {
        Vector::Nmi => NMI_VECTOR,
        Vector::Reset => RESET_VECTOR,
        Vector::Irq => IRQ_VECTOR,
    }
}

/// Returns words about a vector that leads to data on a line.
fn data_words(alloc: Global, vector: Vector, target: u32) -> Result<Vec<u8>, AllocError>
    ensures { IfOk result (λ words. words.items ≡ data_words vector target) }
{
    let mut words = phrase(alloc, vector_name(vector))?;
    push_text(&mut words, LEADS_TO_DATA)?;
    push_count(&mut words, target as u64)?;
    Ok(words)
}

/// Returns a note about a vector that leads to data on a line.
fn data_note(alloc: Global, line: &[u8], vector: Vector, target: u32) -> Result<Note, AllocError>
    ensures { IfOk result (Says (word_place line.now) (data_words vector target)) }
{
    let words = data_words(alloc, vector, target)?;
    Ok(about_word(line, words))
}

/// Returns a note about a vector whose handler ends in RTS.
fn handler_note(alloc: Global, line: &[u8], vector: Vector) -> Result<Note, AllocError>
    ensures { IfOk result (Says (word_place line.now) (handler_words vector)) }
{
    let mut words = phrase(alloc, vector_name(vector))?;
    push_text(&mut words, LEADS_TO_RTS)?;
    Ok(about_word(line, words))
}

/// Returns what is said of a warning of a line, and which bytes of the line are meant, by the
/// line's number and the names that lines begin with. Source: mos65.
///
/// Errors: `AllocError` if an allocation fails.
pub fn note_of(
    alloc: Global,
    names: &[Name<'_>],
    kind: WarningKind,
    number: u32,
    line: &[u8],
) -> Result<Note, AllocError>
    ensures { IfOk result (IsNote (map name_view names.now) kind number line.now) }
{
    match kind {
        WarningKind::PlainNumber => plain_note(alloc, names, number, line),
        WarningKind::LongForm => long_note(alloc, names, number, line),
        WarningKind::UnusedName => {
            let words = describe(alloc, first_word(line), IS_NEVER_USED)?;
            Ok(about_word(line, words))
        }
        WarningKind::LetterCase => {
            let words = case_words(alloc, names, number, first_word(line))?;
            Ok(about_word(line, words))
        }
        WarningKind::NoBytes => line_note(alloc, line, HAS_NO_BYTES),
        WarningKind::AfterEnd => line_note(alloc, line, IS_NOT_READ),
        WarningKind::NoVector => line_note(alloc, line, HAS_NO_VECTOR),
        WarningKind::FallsOff => line_note(alloc, line, RUNS_ON),
        WarningKind::PointerWrap(page) => wrap_note(alloc, names, page, number, line),
        WarningKind::SquareBrackets => bracket_note(alloc, names, number, line),
        WarningKind::RegisterName => {
            let words = describe(alloc, first_word(line), IS_A_REGISTER)?;
            Ok(about_word(line, words))
        }
        WarningKind::VectorToData(vector, target) => data_note(alloc, line, vector, target),
        WarningKind::HandlerReturns(vector) => handler_note(alloc, line, vector),
    }
}
