//! Tokens cut from a line.

ghost use Rattle.std.specs.Prelude.{◌≡◌, ◌==◌, ◌+◌, ◌<◌, ◌≤◌, ◌∷◌, true, length, drop, [], None};
ghost use Rattle.std.specs.Prelude.{Some, IfOk, IsErrOf, OnErr};
ghost use Rattle.std.specs.List.{list_all};
ghost use Rattle.model.specs.Token.{begins, is_source_byte, is_word_byte, word_token};
ghost use Rattle.model.specs.Token.{directive_token, char_token, string_token, token_at, tokens_of};
ghost use Rattle.line_parts.specs.Lexemes.{lexemes, found_of};
ghost use Rattle.lexer.specs.Lexing.{number_in};

use crate::byte_class::{
    binary_run, digit_run, hex_run, is_blank_byte, letter_run, may_be_char, may_be_in_word,
    may_be_symbol, may_begin_decimal, may_begin_word, may_stand, string_run, word_run,
};
use line_parts::Token;
use model::{LineFault, TokenKind};
use std::alloc::Global;

/// The most bytes that a word has. Source: mos65.
const WORD_SIZE: usize = 31;

/// Returns the longest word at the front of some bytes.
#[tactic(auto, using(crate::proofs::Runs::word_short, crate::proofs::Runs::word_long))]
fn word(bytes: &[u8]) -> Option<(TokenKind, &[u8])>
    ensures { found_of result ≡ word_token bytes.now }
{
    let length = word_run(bytes);
    if length > WORD_SIZE {
        return None;
    }
    Some((TokenKind::Word, &bytes[..length]))
}

/// Whether some bytes begin with a letter, a digit or `_`.
fn begins_in_word(bytes: &[u8]) -> bool
    ensures { result ≡ begins is_word_byte bytes.now }
{
    match bytes {
        [] => false,
        [first, ..] => may_be_in_word(*first),
    }
}

/// Returns a number of so many digits after a prefix of so many bytes.
fn number(bytes: &[u8], mark: usize, digits: usize) -> Option<(TokenKind, &[u8])>
    requires { mark + digits ≤ length bytes.now }
    ensures { found_of result ≡ number_in mark digits bytes.now }
{
    if digits == 0 || begins_in_word(&bytes[mark + digits..]) {
        return None;
    }
    Some((TokenKind::Number, &bytes[..mark + digits]))
}

/// A `.` and the letters after it.
fn directive(bytes: &[u8]) -> Option<(TokenKind, &[u8])>
    requires { bytes.now ≡ 46 ∷ drop 1 bytes.now }
    ensures { found_of result ≡ directive_token (drop 1 bytes.now) }
{
    let letters = letter_run(&bytes[1..]);
    if letters == 0 {
        return None;
    }
    Some((TokenKind::Directive, &bytes[..letters + 1]))
}

/// A byte between two `'`.
fn character(bytes: &[u8]) -> Option<(TokenKind, &[u8])>
    requires { bytes.now ≡ 39 ∷ drop 1 bytes.now }
    ensures { found_of result ≡ char_token (drop 1 bytes.now) }
{
    match bytes {
        [_, byte, b'\'', ..] if may_be_char(*byte) => Some((TokenKind::Char, &bytes[..3])),
        _ => None,
    }
}

/// Whether some bytes begin with a `"`.
fn begins_with_quote(bytes: &[u8]) -> bool
    ensures quote { result ≡ begins (λ b. b == 34) bytes.now }
    ensures some { result ≡ true → 0 < length bytes.now }
{
    match bytes {
        [] => false,
        [first, ..] => *first == b'"',
    }
}

/// The bytes between two `"`.
fn string(bytes: &[u8]) -> Option<(TokenKind, &[u8])>
    requires { bytes.now ≡ 34 ∷ drop 1 bytes.now }
    ensures { found_of result ≡ string_token (drop 1 bytes.now) }
{
    let inside = string_run(&bytes[1..]);
    if inside == 0 || !begins_with_quote(&bytes[inside + 1..]) {
        return None;
    }
    Some((TokenKind::Str, &bytes[..inside + 2]))
}

/// Returns the token at the front of some bytes, if there is one: what it is, and its bytes.
///
/// Blanks and comments are none. Source: mos65.
#[tactic(auto, unfolding(model::specs::Token::token_at))]
pub fn first_token(bytes: &[u8]) -> Option<(TokenKind, &[u8])>
    ensures { found_of result ≡ token_at bytes.now }
{
    let (first, rest) = bytes.split_first()?;
    if may_begin_word(*first) {
        return word(bytes);
    }
    if may_begin_decimal(*first) {
        return number(bytes, 0, digit_run(bytes));
    }
    match *first {
        b'$' => number(bytes, 1, hex_run(rest)),
        b'%' => number(bytes, 1, binary_run(rest)),
        b'.' => directive(bytes),
        b'\'' => character(bytes),
        b'"' => string(bytes),
        byte if may_be_symbol(byte) => Some((TokenKind::Symbol, &bytes[..1])),
        _ => None,
    }
}

/// Returns whether each byte of a line is $20..$7E or a tab.
pub fn all_may_stand(line: &[u8]) -> bool
    ensures { result ≡ list_all is_source_byte line.now }
{
    line.iter().all(|byte| may_stand(*byte))
}

/// Puts the tokens of a line into a list in place of its contents, as far as they are found.
fn find_tokens<'a>(found: &mut Vec<Token<'a>>, line: &'a [u8]) -> Result<(), LineFault>
    ensures found { IfOk result (λ _. tokens_of line.now ≡ Some (lexemes found.new.items)) }
    ensures syntax { IsErrOf result LineFault.Syntax → tokens_of line.now ≡ None }
{
    if !all_may_stand(line) {
        return Err(LineFault::Syntax);
    }
    found.clear();
    let mut start = 0;
    while start < line.len() {
        let byte = line[start];
        if is_blank_byte(byte) {
            start += 1;
        } else if byte == b';' {
            return Ok(());
        } else {
            let Some((kind, text)) = first_token(&line[start..]) else {
                return Err(LineFault::Syntax);
            };
            found.push(Token { kind, start, text })?;
            start += text.len();
        }
    }
    Ok(())
}

/// Puts the tokens of a line, in order, into a list in place of its contents.
///
/// The list's memory is used again. On an error the list is empty.
///
/// Errors: `Syntax` if a byte is neither $20..$7E nor a tab, or if bytes outside a comment are not
/// a token; `OutOfMemory` if an allocation fails. Source: mos65.
pub fn tokens_into<'a>(found: &mut Vec<Token<'a>>, line: &'a [u8]) -> Result<(), LineFault>
    // What is found are the line's tokens.
    ensures found { IfOk result (λ _. tokens_of line.now ≡ Some (lexemes found.new.items)) }
    // A line that is rejected for its bytes has no tokens.
    ensures syntax { IsErrOf result LineFault.Syntax → tokens_of line.now ≡ None }
    // The list is then empty.
    ensures err { OnErr result (found.new.items ≡ []) }
{
    match find_tokens(found, line) {
        Ok(()) => Ok(()),
        Err(fault) => {
            found.clear();
            Err(fault)
        }
    }
}

/// Returns the tokens of a line, in order, in a new list. Its errors are those of `tokens_into`.
pub fn tokens<'a>(alloc: Global, line: &'a [u8]) -> Result<Vec<Token<'a>>, LineFault>
    ensures found { IfOk result (λ ts. tokens_of line.now ≡ Some (lexemes ts.items)) }
    ensures syntax { IsErrOf result LineFault.Syntax → tokens_of line.now ≡ None }
{
    let mut found = Vec::new(alloc);
    tokens_into(&mut found, line)?;
    Ok(found)
}
