//! Words about tokens that are no value, or that are left over behind one.

use line_parts::Token;
use model::{Profile, TokenKind};
use optable::mnemonic_in;
use source_notes::{concat, describe, is_symbol, phrase};
use std::alloc::{AllocError, Global};

/// Where tokens stand that have to be a value, or several.
#[derive(Clone, Copy)]
pub enum Part {
    /// Behind `.BYTE`.
    Bytes,
    /// Behind `.WORD` or `.DBYTE`.
    Words,
    /// Behind `.RES`, or the `=` of a definition or of `*=`.
    Value,
    /// Behind `.END`.
    Nothing,
    /// Behind the `#` of an operand.
    Immediate,
    /// In any other operand of an instruction.
    Operand,
}

/// What is said of a comment that begins as in another language.
pub const COMMENT: &str = "a comment begins with ;";

/// What is said of a second statement on a line.
const ONE_STATEMENT: &str = "a line has one statement: the next one stands on a line of its own";

/// What is said of two strings beside each other.
const QUOTE: &str = "a quote inside a string is the number 34: .., 34, ..";

/// What is said of a label whose name has no letter in front.
pub const LOCAL: &str = "there are no local labels: each label is a name of its own";

/// What is said of a label without a name.
pub const UNNAMED: &str = "there are no labels without a name: give this one a name";

/// What is said of round brackets in an expression.
pub const BRACKETS: &str = "round brackets stand round a pointer; in an expression write [ and ]";

/// What is said of an index in brackets.
const INDEX: &str = "an index is written with a comma, as in table,X";

/// What is said of an index behind a number.
const NO_INDEX: &str = "an operand with # has no index";

/// What is said of `#` among the values of a directive.
const HASH: &str = "# stands in the operand of an instruction alone: leave it out";

/// What is said of what stands behind `.END`.
pub const END: &str = ".END stands alone";

/// What is said of tokens that begin with no value.
const NO_VALUE: &str = "a number, a name, a character, * or [ has to stand here";

/// What is said of a list that begins with a string.
const NO_LIST: &str = "one of these is no number, name, character or string";

/// What is said of a list behind a comma.
const NO_REST: &str = "what follows this comma is no number, name, character or string";

/// Returns whether a token is X or Y.
fn is_index(token: &Token<'_>) -> bool {
    token.text.eq_ignore_ascii_case(b"X") || token.text.eq_ignore_ascii_case(b"Y")
}

/// Returns whether tokens begin as a comment does in another language.
fn begins_comment(tokens: &[Token<'_>]) -> bool {
    match tokens {
        [slash, next, ..] if is_symbol(slash, b'/') => {
            is_symbol(next, b'/') || is_symbol(next, b'*')
        }
        [first, ..] => is_symbol(first, b'#'),
        [] => false,
    }
}

/// Returns whether a value may end with a token.
fn ends_value(token: &Token<'_>) -> bool {
    match token.kind {
        TokenKind::Word | TokenKind::Number | TokenKind::Char | TokenKind::Str => true,
        _ => is_symbol(token, b']'),
    }
}

/// Returns whether a value begins with a token, which is no symbol.
fn begins_value(token: &Token<'_>) -> bool {
    matches!(
        token.kind,
        TokenKind::Word | TokenKind::Number | TokenKind::Char | TokenKind::Str
    )
}

/// Returns whether a symbol stands between two values, or before one.
fn needs_value(symbol: u8) -> bool {
    matches!(
        symbol,
        b'+' | b'-' | b'*' | b'/' | b'&' | b'|' | b'^' | b'<' | b'>' | b','
    )
}

/// Returns words about a symbol behind which a value is missing, if tokens end with one.
fn open_words(alloc: Global, tokens: &[Token<'_>]) -> Result<Option<Vec<u8>>, AllocError> {
    match tokens.last() {
        Some(last) => match (last.kind, last.text) {
            (TokenKind::Symbol, [symbol]) if needs_value(*symbol) => {
                let pieces: [&[u8]; 2] = [b"a value is missing after ", last.text];
                Ok(Some(concat(alloc, &pieces)?))
            }
            _ => Ok(None),
        },
        None => Ok(None),
    }
}

/// Returns words about a value before which a comma is missing.
fn comma_words(alloc: Global, token: &Token<'_>) -> Result<Vec<u8>, AllocError> {
    if mnemonic_in(Profile::C, token.text).is_some() {
        return phrase(alloc, ONE_STATEMENT);
    }
    let is_word = matches!(token.kind, TokenKind::Word) && !is_index(token);
    let comment: &[u8] = if is_word {
        b"; a comment begins with ;"
    } else {
        b""
    };
    let pieces: [&[u8]; 3] = [b"a comma is missing before ", token.text, comment];
    concat(alloc, &pieces)
}

/// Returns words about two tokens of a list that do not stand one after the other, if these do not.
fn pair_words(
    alloc: Global,
    one: &Token<'_>,
    next: &Token<'_>,
) -> Result<Option<Vec<u8>>, AllocError> {
    let is_close = one.start.saturating_add(one.text.len()) == next.start;
    if is_close && matches!((one.kind, next.kind), (TokenKind::Str, TokenKind::Str)) {
        return Ok(Some(phrase(alloc, QUOTE)?));
    }
    if ends_value(one) && begins_value(next) {
        return Ok(Some(comma_words(alloc, next)?));
    }
    if is_symbol(one, b',') && is_symbol(next, b',') {
        return Ok(Some(phrase(alloc, "a value is missing between two commas")?));
    }
    if is_symbol(one, b',') && is_symbol(next, b'#') {
        return Ok(Some(phrase(alloc, HASH)?));
    }
    let is_slash = is_symbol(one, b'/') && is_symbol(next, b'/');
    if is_slash || (ends_value(one) && is_symbol(next, b'#')) {
        return Ok(Some(phrase(alloc, COMMENT)?));
    }
    Ok(None)
}

/// Returns why the tokens of a list are wrong, these words if nothing else is known.
fn list_words(alloc: Global, tokens: &[Token<'_>], otherwise: &str) -> Result<Vec<u8>, AllocError> {
    for pair in tokens.windows(2) {
        if let [one, next] = pair {
            if let Some(words) = pair_words(alloc, one, next)? {
                return Ok(words);
            }
        }
    }
    match open_words(alloc, tokens)? {
        Some(words) => Ok(words),
        None => phrase(alloc, otherwise),
    }
}

/// Returns words about a comma behind a value that is in no list.
fn index_words(alloc: Global, rest: &[Token<'_>], part: Part) -> Result<Vec<u8>, AllocError> {
    match part {
        Part::Operand => match rest {
            [_] => phrase(alloc, "X or Y is missing after the comma"),
            _ => phrase(alloc, "an index is X or Y"),
        },
        _ => phrase(alloc, "one value stands here: what follows it is left over"),
    }
}

/// Returns words about a symbol that is left over, the first of some tokens.
fn left_symbol_words(
    alloc: Global,
    token: &Token<'_>,
    rest: &[Token<'_>],
    part: Part,
) -> Result<Vec<u8>, AllocError> {
    if is_symbol(token, b',') {
        return index_words(alloc, rest, part);
    }
    if is_symbol(token, b'[') {
        return phrase(alloc, INDEX);
    }
    if is_symbol(token, b')') || is_symbol(token, b']') {
        return phrase(alloc, "this bracket is not opened");
    }
    match open_words(alloc, rest)? {
        Some(words) => Ok(words),
        None => describe(alloc, token.text, " is left over after the operand"),
    }
}

/// Returns words about a token that is left over, the first of some, and is none of a list.
fn left_token_words(
    alloc: Global,
    token: &Token<'_>,
    rest: &[Token<'_>],
    part: Part,
) -> Result<Vec<u8>, AllocError> {
    let is_last_index = is_index(token) && rest.len() == 1;
    match (token.kind, part, token.text) {
        (TokenKind::Word, Part::Operand, _) if is_last_index => comma_words(alloc, token),
        (TokenKind::Word, _, text) => {
            if mnemonic_in(Profile::C, text).is_some() {
                return phrase(alloc, ONE_STATEMENT);
            }
            let reason = " is left over after the operand; a comment begins with ;";
            describe(alloc, text, reason)
        }
        (TokenKind::Directive, Part::Operand, [_, b'X' | b'x' | b'Y' | b'y']) => {
            phrase(alloc, INDEX)
        }
        (TokenKind::Symbol, _, _) => left_symbol_words(alloc, token, rest, part),
        _ => describe(alloc, token.text, " is left over after the operand"),
    }
}

/// Returns words about the first of some tokens, which is left over behind a value or an index.
fn behind_words(
    alloc: Global,
    token: &Token<'_>,
    rest: &[Token<'_>],
    part: Part,
) -> Result<Vec<u8>, AllocError> {
    if begins_comment(rest) {
        return phrase(alloc, COMMENT);
    }
    if is_symbol(token, b':') {
        return phrase(alloc, ONE_STATEMENT);
    }
    match part {
        Part::Nothing => phrase(alloc, END),
        Part::Bytes | Part::Words => {
            if begins_value(token) {
                comma_words(alloc, token)
            } else if is_symbol(token, b',') {
                list_words(alloc, rest, NO_REST)
            } else {
                left_token_words(alloc, token, rest, part)
            }
        }
        Part::Immediate => {
            if is_symbol(token, b',') || is_index(token) {
                phrase(alloc, NO_INDEX)
            } else {
                left_token_words(alloc, token, rest, part)
            }
        }
        _ => left_token_words(alloc, token, rest, part),
    }
}

/// Returns words about the first of some tokens, which is left over behind a value. An index behind
/// it belongs to the operand: what follows the index is left over.
pub fn left_words(
    alloc: Global,
    token: &Token<'_>,
    rest: &[Token<'_>],
    part: Part,
) -> Result<Vec<u8>, AllocError> {
    match (part, rest) {
        (Part::Operand, [comma, index, others @ ..]) if is_symbol(comma, b',') && is_index(index) =>
            {
                match others {
                    [third, ..] => behind_words(alloc, third, others, Part::Value),
                    [] => behind_words(alloc, token, rest, part),
                }
            }
        _ => behind_words(alloc, token, rest, part),
    }
}

/// Returns what is said of round brackets among tokens: those of an index, or of an expression.
pub fn round_words(tokens: &[Token<'_>]) -> &'static str {
    for pair in tokens.windows(2) {
        if let [bracket, next] = pair {
            if is_symbol(bracket, b'(') && is_index(next) {
                return INDEX;
            }
        }
    }
    BRACKETS
}

/// Returns whether a symbol stands among some tokens.
fn has_symbol(tokens: &[Token<'_>], symbol: u8) -> bool {
    for token in tokens {
        if is_symbol(token, symbol) {
            return true;
        }
    }
    false
}

/// Returns words about a symbol that begins no value, the first of some tokens.
fn symbol_words(
    alloc: Global,
    first: &Token<'_>,
    tokens: &[Token<'_>],
) -> Result<Vec<u8>, AllocError> {
    let is_sign = is_symbol(first, b'+') || is_symbol(first, b'-');
    if is_symbol(first, b':') || (is_sign && tokens.len() == 1) {
        return phrase(alloc, UNNAMED);
    }
    if is_symbol(first, b',') {
        return phrase(alloc, "a value is missing before the comma");
    }
    if has_symbol(tokens, b'[') && !has_symbol(tokens, b']') {
        return phrase(alloc, "this bracket is not closed");
    }
    match open_words(alloc, tokens)? {
        Some(words) => Ok(words),
        None => phrase(alloc, NO_VALUE),
    }
}

/// Returns why some tokens begin with no value, of which this is the first.
pub fn no_value_words(
    alloc: Global,
    first: &Token<'_>,
    tokens: &[Token<'_>],
    part: Part,
) -> Result<Vec<u8>, AllocError> {
    if matches!(part, Part::Bytes) && matches!(first.kind, TokenKind::Str) {
        return list_words(alloc, tokens, NO_LIST);
    }
    if has_symbol(tokens, b'(') {
        return phrase(alloc, round_words(tokens));
    }
    if is_symbol(first, b'#') {
        return phrase(alloc, HASH);
    }
    if begins_comment(tokens) {
        return phrase(alloc, COMMENT);
    }
    match first.kind {
        TokenKind::Directive => phrase(alloc, LOCAL),
        TokenKind::Str => phrase(
            alloc,
            "a string stands in .BYTE alone; one character is written 'A'",
        ),
        _ => symbol_words(alloc, first, tokens),
    }
}
