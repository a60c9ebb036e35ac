//! What is meant at a place.

ghost use Rattle.std.specs.Prelude.{◌≡◌, ℕ, IfOk, List, Some};
ghost use Rattle.std.specs.Option.{option_map};
ghost use Rattle.line_parts.specs.Lexemes.{lexeme_of};
ghost use Rattle.lsp_answers.specs.Meanings.{found_in, is_told, line_alone, meaning_of};
ghost use Rattle.lsp_answers.specs.Meanings.{of_line, of_name, said, said_of, said_on};
ghost use Rattle.lsp_answers.specs.Meanings.{token_on, token_words};
ghost use Rattle.lsp_answers.specs.Said.{instruction_words};
ghost use Rattle.lsp_answers.specs.Texts.{text_view};
ghost use Rattle.name_uses.specs.Views.{use_view};
ghost use Rattle.serde_json.specs.Data.{Data};
ghost use Rattle.serde_json.specs.View.{view};
ghost use Rattle.source_faults.specs.Views.{found_all, found_view};

use crate::above::name_lines;
use crate::literals::{directive_words, literal_words};
use crate::markdown::words_marked;
use crate::said::{Placed, instruction_words, name_words};
use crate::source_text::{SOURCE_SIZE, Text};
use crate::texts::text_of;
use lexer::tokens;
use line_parts::{Statement, Token};
use lsp_messages::{column_of, hover as hover_of, lines_between};
use model::{LineFault, Profile, TokenKind};
use name_uses::NameUse;
use optable::{decode_in, mnemonic_in};
use serde_json::Value;
use source_faults::{Found, Mending, lay_out};
use source_notes::phrase;
use std::alloc::{AllocError, Global};
use symbols::Symbols;

/// Returns what is said at a place, in these words, with the range that it is said of: in Markdown
/// with lines of the source before them, or in plain text.
fn said(
    alloc: Global,
    markdown: bool,
    lines: &[u8],
    words: Result<Vec<u8>, AllocError>,
    range: Result<Value, AllocError>,
) -> Result<Value, AllocError>
    ensures { (text : List ℕ) (r : Data) → IfOk words (λ w. w.items ≡ text)
        → IfOk range (λ v. view v ≡ r)
        → IfOk result (λ v. view v ≡ said markdown lines.now text r) }
{
    if markdown {
        let words = text_of(alloc, words_marked(alloc, lines, words));
        hover_of(alloc, "markdown", words, range)
    } else {
        hover_of(alloc, "plaintext", text_of(alloc, words), range)
    }
}

/// Returns whether something is said of a token: of a mnemonic, a directive, a number and a
/// character.
fn is_told(profile: Profile, token: &Token<'_>) -> bool
    ensures { result ≡ is_told profile token.now.kind token.now.text.now }
{
    match token.kind {
        TokenKind::Word => mnemonic_in(profile, token.text).is_some(),
        TokenKind::Directive | TokenKind::Number | TokenKind::Char => true,
        TokenKind::Str | TokenKind::Symbol => false,
    }
}

/// Returns the first token of a line of which something is said, and that has a column or ends
/// there. A line that is not made of tokens has none.
fn token_on<'a>(
    alloc: Global,
    profile: Profile,
    column: usize,
    line: &'a [u8],
) -> Result<Option<Token<'a>>, AllocError>
    ensures { IfOk result
        (λ token. option_map lexeme_of token ≡ token_on profile column line.now) }
{
    let found = match tokens(alloc, line) {
        Ok(found) => found,
        Err(LineFault::OutOfMemory) => return Err(AllocError),
        Err(LineFault::Syntax) => return Ok(None),
    };
    for token in &found {
        if token.start <= column
            && column - token.start <= token.text.len()
            && is_told(profile, token)
        {
            return Ok(Some(*token));
        }
    }
    Ok(None)
}

/// Returns the instruction that a line is found to have, if it has one.
fn placed_in(profile: Profile, found: &Found<'_>) -> Option<Placed>
    ensures { option_map (λ p. instruction_words profile p.opcode p.address p.row) result
        ≡ said_of profile (found_view found.now) }
{
    let Found::Bytes(kept) = found else {
        return None;
    };
    match (&kept.statement, kept.code) {
        (Statement::Instruction(_, _), Some(code)) => match decode_in(profile, code.opcode) {
            Some(row) => Some(Placed {
                row,
                opcode: code.opcode,
                address: kept.address,
            }),
            None => None,
        },
        _ => None,
    }
}

/// Returns the line of a text by its number, counted from 1.
fn line_alone(written: &[u8], number: u32) -> &[u8]
    ensures { result.now ≡ line_alone written.now number }
{
    let row = (number as u64).saturating_sub(1);
    lines_between(written, row, row)
}

/// Returns the instruction of a line by its number, if it has one.
fn placed_on(profile: Profile, found: &[Found<'_>], number: u32) -> Option<Placed>
    ensures { option_map (λ p. instruction_words profile p.opcode p.address p.row) result
        ≡ said_on profile (found_all found.now) number }
{
    match found.get((number as usize).saturating_sub(1)) {
        Some(one) => placed_in(profile, one),
        None => None,
    }
}

/// Returns words that there are, if memory did not run out for them.
fn some_words(words: Result<Vec<u8>, AllocError>) -> Result<Option<Vec<u8>>, AllocError>
    ensures { (text : List ℕ) → IfOk words (λ w. w.items ≡ text)
        → IfOk result (λ found. option_map (λ w. w.items) found ≡ Some text) }
{
    match words {
        Ok(words) => Ok(Some(words)),
        Err(error) => Err(error),
    }
}

/// Returns what is said of a token of a line, by what is found of the lines: of a word the
/// instruction of the line, of a directive what it does, and of a number or a character its number.
fn token_words(
    alloc: Global,
    profile: Profile,
    found: &[Found<'_>],
    number: u32,
    token: Token<'_>,
) -> Result<Option<Vec<u8>>, AllocError>
    ensures { IfOk result (λ words. option_map (λ w. w.items) words
        ≡ token_words profile (found_all found.now) number (lexeme_of token.entry)) }
{
    match token.kind {
        TokenKind::Word => match placed_on(profile, found, number) {
            Some(placed) => some_words(instruction_words(alloc, profile, placed)),
            None => Ok(None),
        },
        TokenKind::Directive => match directive_words(token.text) {
            Some(words) => some_words(phrase(alloc, words)),
            None => Ok(None),
        },
        TokenKind::Number | TokenKind::Char => literal_words(alloc, token),
        TokenKind::Str | TokenKind::Symbol => Ok(None),
    }
}

/// Returns what is said of the token at a column of a line, by the number of the line; `null` where
/// there is no such line or token, and where nothing is said of it.
fn line_said(
    alloc: Global,
    markdown: bool,
    written: &[u8],
    text: &Text<'_>,
    found: &[Found<'_>],
    number: Option<u32>,
    character: u64,
) -> Result<Value, AllocError>
    requires { found_all found.now ≡ found_in (text_view text.now) }
    ensures { IfOk result (λ v. view v
        ≡ of_line markdown written.now (text_view text.now) character number) }
{
    let Some(number) = number else {
        return Ok(Value::Null);
    };
    let line = text.line(number);
    let Ok(token) = token_on(alloc, text.profile, column_of(line, character), line) else {
        return Err(AllocError);
    };
    let Some(token) = token else {
        return Ok(Value::Null);
    };
    match token_words(alloc, text.profile, found, number, token) {
        Ok(Some(words)) => {
            let range = text.range(alloc, number, token.start, token.text.len());
            said(
                alloc,
                markdown,
                line_alone(written, number),
                Ok(words),
                range,
            )
        }
        Ok(None) => Ok(Value::Null),
        Err(error) => Err(error),
    }
}

/// Returns what is said of a name, by the numbers of the names.
fn name_said(
    alloc: Global,
    markdown: bool,
    written: &[u8],
    text: &Text<'_>,
    symbols: &Symbols,
    one: &NameUse<'_>,
) -> Result<Value, AllocError>
    ensures { IfOk result (λ v. view v ≡ of_name markdown written.now symbols.now
        (text_view text.now) (use_view one.now)) }
{
    let words = name_words(alloc, &text.uses, symbols, one.text);
    let range = text.range_of(alloc, one);
    said(
        alloc,
        markdown,
        name_lines(written, text, one),
        words,
        range,
    )
}

/// Returns what is meant at a place of a text, which its client has as `written`: of a name its
/// number and where it is defined; of an instruction its form, address, opcode, bytes and cycles,
/// and the flags that it may change; of a directive what it does; of a number or a character its
/// number. It is `null` elsewhere, and of a source that is too long. In Markdown the line stands
/// before it, and before a name the line that defines it, with the comments above. The only error
/// is that a request for memory was refused.
pub fn hover(
    alloc: Global,
    markdown: bool,
    written: &[u8],
    text: &Text<'_>,
    line: u64,
    character: u64,
) -> Result<Value, AllocError>
    ensures { IfOk result (λ v. view v
        ≡ meaning_of markdown written.now (text_view text.now) line character) }
{
    if text.source.len() > SOURCE_SIZE {
        return Ok(Value::Null);
    }
    let mut symbols = Symbols::new(alloc);
    let smallest = Mending::Smallest;
    let Ok(found) = lay_out(alloc, text.profile, smallest, &mut symbols, text.source) else {
        return Err(AllocError);
    };
    match text.name_at(line, character) {
        Some(one) => name_said(alloc, markdown, written, text, &symbols, &one),
        None => {
            let number = text.number(line);
            line_said(alloc, markdown, written, text, &found, number, character)
        }
    }
}
