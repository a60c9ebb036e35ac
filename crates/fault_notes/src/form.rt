//! Why the tokens of a line are none of the grammar.

ghost use Rattle.std.specs.Prelude.{◌≡◌, ℕ, Bool, true, IfOk, IfSome, List};
ghost use Rattle.std.specs.Option.{option_map};
ghost use Rattle.fault_notes.specs.Marks.{IsNote, IsPlain, closed_place, count_of, expression_place};
ghost use Rattle.fault_notes.specs.Marks.{first_of, first_or, form_place, inside_place, is_directive};
ghost use Rattle.fault_notes.specs.Marks.{is_operation, is_word, line_place, may_be_defined};
ghost use Rattle.fault_notes.specs.Marks.{operation_place, token_place};
ghost use Rattle.fault_notes.specs.Marks.{unclosed, whole, wrong_operand_place};
ghost use Rattle.line_parts.specs.Lexemes.{lexemes};
ghost use Rattle.source_notes.specs.Operands.{end_of};

use crate::given::is_define;
use crate::left::{
    BRACKETS, COMMENT, END, LOCAL, Part, UNNAMED, left_words, no_value_words, round_words,
};
use crate::near::is_near;
use line_parts::Token;
use model::{LineFault, Mnemonic, Profile, TokenKind};
use opcode_facts::mnemonics_in;
use optable::{letters_of, mnemonic_in};
use parser::parse_expr;
use source_notes::{
    Hint, Note, after_label, concat, defines_by_equals, describe, directive_hint, gives_value,
    is_symbol, marked_hint, operation_hint, phrase,
};
use std::alloc::{AllocError, Global};

/// Returns a note about one token.
pub fn about(token: &Token<'_>, words: Vec<u8>) -> Note
    ensures { IsPlain (token_place token.now) result }
{
    Note::new(token.start, token.text.len(), words)
}

/// Returns the index of the first byte behind a token.
fn behind(token: &Token<'_>) -> usize
    ensures { result ≡ end_of token.now }
{
    token.start.saturating_add(token.text.len())
}

/// Returns whether a token is a word.
pub fn is_word(token: &Token<'_>) -> bool
    ensures { result ≡ is_word token.now.kind }
{
    matches!(token.kind, TokenKind::Word)
}

/// Returns how often a symbol stands among some tokens.
fn count_of(symbol: u8, tokens: &[Token<'_>]) -> usize
    ensures { result ≡ count_of symbol tokens.now }
{
    let mut count = 0usize;
    for token in tokens {
        if is_symbol(token, symbol) {
            count += 1;
        }
    }
    count
}

/// Returns the first token that is a symbol.
fn first_of<'t, 'a>(symbol: u8, tokens: &'t [Token<'a>]) -> Option<&'t Token<'a>>
    ensures { option_map (λ token. token.now) result ≡ first_of symbol tokens.now }
{
    for token in tokens {
        if is_symbol(token, symbol) {
            return Some(token);
        }
    }
    None
}

/// Returns the first opening bracket, if more are opened than closed.
fn unclosed<'t, 'a>(opening: u8, closing: u8, tokens: &'t [Token<'a>]) -> Option<&'t Token<'a>>
    ensures { option_map (λ token. token.now) result ≡ unclosed opening closing tokens.now }
{
    if count_of(opening, tokens) > count_of(closing, tokens) {
        first_of(opening, tokens)
    } else {
        None
    }
}

/// Returns whether a token begins an operation that can be read.
fn begins_operation(profile: Profile, token: &Token<'_>) -> bool {
    match token.kind {
        TokenKind::Word => mnemonic_in(profile, token.text).is_some(),
        TokenKind::Directive => is_directive(token.text),
        _ => false,
    }
}

/// Returns words with a definition of a name, whose value these tokens are.
fn definition_words(
    alloc: Global,
    name: &[u8],
    value: &[Token<'_>],
) -> Result<Vec<u8>, AllocError> {
    let pieces: [&[u8]; 3] = [b"write ", name, b" = "];
    let mut words = concat(alloc, &pieces)?;
    if value.is_empty() {
        words.extend_from_slice(b"and the value")?;
    }
    for token in value {
        words.extend_from_slice(token.text)?;
    }
    Ok(words)
}

/// Returns words with the definition that a word of another assembler makes of the tokens behind
/// it, if they are a name and a value with the `=` that the word takes.
fn defined_words(
    alloc: Global,
    word: &[u8],
    rest: &[Token<'_>],
) -> Result<Option<Vec<u8>>, AllocError> {
    match rest {
        [name, equals, value @ ..]
            if defines_by_equals(word) && is_word(name) && is_symbol(equals, b'=') => {
            Ok(Some(definition_words(alloc, name.text, value)?))
        }
        [name, value @ ..] if is_define(word) && is_word(name) => {
            Ok(Some(definition_words(alloc, name.text, value)?))
        }
        _ => Ok(None),
    }
}

/// Returns how many of some tokens stand before a `:` or a `=`, if each is a part of a name as
/// other assemblers take it: a word, a number, a `-`, or a point with letters.
fn parts_of_name(tokens: &[Token<'_>]) -> Option<usize> {
    let mut count = 0usize;
    for token in tokens {
        if is_symbol(token, b':') || is_symbol(token, b'=') {
            return if count > 0 { Some(count) } else { None };
        }
        let is_part = match token.kind {
            TokenKind::Word | TokenKind::Number | TokenKind::Directive => true,
            _ => is_symbol(token, b'-'),
        };
        if !is_part {
            return None;
        }
        count = count.saturating_add(1);
    }
    None
}

/// Returns words about a name of several parts: it has letters, digits and `_` alone.
fn joined_words(alloc: Global, word: &[u8], parts: &[Token<'_>]) -> Result<Vec<u8>, AllocError> {
    let pieces: [&[u8]; 2] = [b"a name has letters, digits and _ alone, as in ", word];
    let mut words = concat(alloc, &pieces)?;
    for token in parts {
        match token.text {
            [b'-'] => {}
            [b'.' | b'$' | b'%', rest @ ..] => {
                words.extend_from_slice(b"_")?;
                words.extend_from_slice(rest)?;
            }
            text => {
                words.extend_from_slice(b"_")?;
                words.extend_from_slice(text)?;
            }
        }
    }
    Ok(words)
}

/// Returns words about a label without a colon.
fn label_words(alloc: Global, label: &[u8]) -> Result<Vec<u8>, AllocError> {
    let pieces: [&[u8]; 3] = [b"a label ends with a colon: ", label, b":"];
    concat(alloc, &pieces)
}

/// Returns words about a label without a colon before a directive of another assembler, which
/// stands behind this mark.
fn label_hint_words(
    alloc: Global,
    label: &[u8],
    mark: &[u8],
    directive: &[u8],
    hint: Hint,
) -> Result<Vec<u8>, AllocError> {
    let (before, hinted) = hint.parts();
    let mut words = label_words(alloc, label)?;
    words.extend_from_slice(b", and for ")?;
    words.extend_from_slice(mark)?;
    words.extend_from_slice(directive)?;
    words.extend_from_slice(b" ")?;
    words.extend_from_slice(before)?;
    words.extend_from_slice(hinted)?;
    Ok(words)
}

/// Returns a note about a token whose words name the right word for it, between these.
pub fn naming(
    alloc: Global,
    token: &Token<'_>,
    before: Vec<u8>,
    right: &[u8],
    behind: &[u8],
) -> Result<Note, AllocError>
    ensures { (may_be : List ℕ → Bool) → may_be right.now ≡ true
        → IfOk result (IsNote (token_place token.now) may_be) }
{
    let mut words = before;
    words.extend_from_slice(right)?;
    words.extend_from_slice(behind)?;
    let right = Vec::from_slice(alloc, right)?;
    Ok(Note::new(token.start, token.text.len(), words).with_right(right))
}

/// Returns whether a word is a mnemonic of a profile or a directive.
fn is_operation(profile: Profile, word: &[u8]) -> bool
    ensures { result ≡ is_operation profile word.now }
{
    mnemonic_in(profile, word).is_some() || is_directive(word)
}

/// Returns a note about a token of another assembler or processor, and what to write here: the
/// right word for it, where that is an operation.
#[tactic(auto, using(crate::proofs::Marked::plain_steps))]
fn hint_note(
    alloc: Global,
    profile: Profile,
    token: &Token<'_>,
    reason: &str,
    hint: Hint,
) -> Result<Note, AllocError>
    ensures { IfOk result (IsNote (token_place token.now) (is_operation profile)) }
{
    let (before, hinted) = hint.parts();
    let mut words = describe(alloc, token.text, reason)?;
    words.extend_from_slice(before)?;
    match hint {
        Hint::Word(word) if is_operation(profile, word) => naming(alloc, token, words, word, b""),
        _ => {
            words.extend_from_slice(hinted)?;
            Ok(about(token, words))
        }
    }
}

/// Returns the letters of the first mnemonic of a profile that is near a word.
fn near_mnemonic(profile: Profile, word: &[u8]) -> Option<[u8; 3]>
    ensures { IfSome result (λ letters. is_operation profile letters ≡ true) }
{
    for mnemonic in mnemonics_in(Profile::C) {
        let letters = letters_of(*mnemonic);
        if is_near(&letters, word) && mnemonic_in(profile, &letters).is_some() {
            return Some(letters);
        }
    }
    None
}

/// Returns why a word is no mnemonic, where none is near: its profile, or that it may be a label.
fn far_words(alloc: Global, word: &[u8], is_alone: bool) -> Result<Vec<u8>, AllocError> {
    if is_alone {
        let pieces: [&[u8]; 4] = [
            word,
            b" is no mnemonic; a label ends with a colon: ",
            word,
            b":",
        ];
        return concat(alloc, &pieces);
    }
    describe(alloc, word, " is no mnemonic")
}

/// Returns words about a mnemonic that only profile C has, with what profile N has for it.
fn added_words(alloc: Global, mnemonic: Mnemonic, word: &[u8]) -> Result<Vec<u8>, AllocError> {
    let instead = match mnemonic {
        Mnemonic::Phx => "write TXA, then PHA; ",
        Mnemonic::Phy => "write TYA, then PHA; ",
        Mnemonic::Plx => "write PLA, then TAX; ",
        Mnemonic::Ply => "write PLA, then TAY; ",
        Mnemonic::Stz => "write LDA #0, then STA; ",
        Mnemonic::Bra => "write JMP; ",
        _ => "",
    };
    let mut words = phrase(alloc, instead)?;
    words.extend_from_slice(word)?;
    words.extend_from_slice(b" is a mnemonic of profile C (--profile C)")?;
    Ok(words)
}

/// Returns why a word is no mnemonic: its profile, the nearest mnemonic, or that it may be a label.
#[tactic(auto, using(crate::proofs::Marked::plain_steps))]
fn mnemonic_note(
    alloc: Global,
    profile: Profile,
    word: &Token<'_>,
    is_alone: bool,
) -> Result<Note, AllocError>
    ensures { IfOk result (IsNote (token_place word.now) (is_operation profile)) }
{
    if let Some(mnemonic) = mnemonic_in(Profile::C, word.text) {
        return Ok(about(word, added_words(alloc, mnemonic, word.text)?));
    }
    match near_mnemonic(profile, word.text) {
        Some(letters) => {
            let before = describe(alloc, word.text, " is no mnemonic; ")?;
            naming(alloc, word, before, &letters, b" is")
        }
        None => Ok(about(word, far_words(alloc, word.text, is_alone)?)),
    }
}

/// Returns words about a definition or a label, if one is written as in another assembler.
fn named_words(
    alloc: Global,
    profile: Profile,
    word: &Token<'_>,
    rest: &[Token<'_>],
) -> Result<Option<Vec<u8>>, AllocError> {
    if let Some(words) = defined_words(alloc, word.text, rest)? {
        return Ok(Some(words));
    }
    let words = match rest {
        [next, value @ ..] if gives_value(next.text) => {
            definition_words(alloc, word.text, value)?
        }
        [next, ..] if begins_operation(profile, next) => label_words(alloc, word.text)?,
        _ => match parts_of_name(rest) {
            Some(count) => joined_words(alloc, word.text, &rest[..count.min(rest.len())])?,
            None => return Ok(None),
        },
    };
    Ok(Some(words))
}

/// Returns words about a label without a colon, if a directive of another assembler stands behind
/// it.
fn labelled_words(
    alloc: Global,
    label: &[u8],
    rest: &[Token<'_>],
) -> Result<Option<Vec<u8>>, AllocError> {
    let (mark, directive, hint) = match rest {
        [mark, next, ..] if is_symbol(mark, b'!') => (mark.text, next.text, marked_hint(next.text)),
        [next, _, ..] => (NO_MARK, next.text, directive_hint(next.text)),
        _ => return Ok(None),
    };
    match hint {
        Some(hint) => Ok(Some(label_hint_words(alloc, label, mark, directive, hint)?)),
        None => Ok(None),
    }
}

/// No mark stands before a directive.
const NO_MARK: &[u8] = b"";

/// Returns why a word that is no mnemonic begins no operation, by the tokens after it.
#[tactic(auto, using(crate::proofs::Marked::plain_steps))]
fn word_note(
    alloc: Global,
    profile: Profile,
    word: &Token<'_>,
    rest: &[Token<'_>],
) -> Result<Note, AllocError>
    ensures { IfOk result (IsNote (token_place word.now) (is_operation profile)) }
{
    if let Some(words) = named_words(alloc, profile, word, rest)? {
        return Ok(about(word, words));
    }
    if let Some(hint) = operation_hint(word.text) {
        return hint_note(alloc, profile, word, NO_MNEMONIC, hint);
    }
    if let Some(words) = labelled_words(alloc, word.text, rest)? {
        return Ok(about(word, words));
    }
    match directive_hint(word.text) {
        Some(hint) => hint_note(alloc, profile, word, NO_MNEMONIC, hint),
        None => mnemonic_note(alloc, profile, word, rest.is_empty()),
    }
}

/// Follows a word of another assembler or processor.
const NO_MNEMONIC: &str = " is no mnemonic here; ";

/// Returns what is said where nothing follows a value.
fn nothing_left_words(part: Part) -> &'static str {
    match part {
        Part::Nothing => END,
        _ => "something is missing here",
    }
}

/// Returns what is said of the tokens behind an expression, or of their want.
fn left_note(
    alloc: Global,
    index: usize,
    rest: &[Token<'_>],
    part: Part,
) -> Result<Note, AllocError>
    ensures { IfOk result (IsPlain (first_or index (lexemes rest.now))) }
{
    match rest {
        [token, ..] => Ok(about(token, left_words(alloc, token, rest, part)?)),
        [] => Ok(Note::new(index, 1, phrase(alloc, nothing_left_words(part))?)),
    }
}

/// Returns what is said of tokens that begin with no expression.
fn no_value_note(
    alloc: Global,
    index: usize,
    tokens: &[Token<'_>],
    part: Part,
) -> Result<Note, AllocError>
    ensures { IfOk result (IsPlain (first_or index (lexemes tokens.now))) }
{
    match tokens {
        [token, ..] => Ok(about(token, no_value_words(alloc, token, tokens, part)?)),
        [] => Ok(Note::new(index, 1, phrase(alloc, "a value is missing here")?)),
    }
}

/// Returns why an expression, or what stands after it, is wrong.
fn expression_note(
    alloc: Global,
    index: usize,
    tokens: &[Token<'_>],
    part: Part,
) -> Result<Note, AllocError>
    ensures { IfOk result (IsPlain (expression_place index tokens.now)) }
{
    match parse_expr(alloc, tokens) {
        Ok((_, taken)) => left_note(alloc, index, tokens.split_at(taken).1, part),
        Err(LineFault::OutOfMemory) => Err(AllocError),
        Err(LineFault::Syntax) => no_value_note(alloc, index, tokens, part),
    }
}

/// Returns why an operand that begins with a round bracket is wrong.
fn pointer_words(tokens: &[Token<'_>]) -> &'static str {
    match tokens {
        [.., close, comma, index]
            if is_symbol(close, b')')
                && is_symbol(comma, b',')
                && index.text.eq_ignore_ascii_case(b"X") => {
            "no instruction has the form (..),X; there are (..,X) and (..),Y"
        }
        [.., comma, index, close]
            if is_symbol(close, b')')
                && is_symbol(comma, b',')
                && index.text.eq_ignore_ascii_case(b"Y") => {
            "no instruction has the form (..,Y); there are (..,X) and (..),Y"
        }
        _ => BRACKETS,
    }
}

/// Returns a note about tokens from the first to the last.
fn whole_note(tokens: &[Token<'_>], words: Vec<u8>) -> Note
    ensures { IsPlain (whole tokens.now) result }
{
    match (tokens.first(), tokens.last()) {
        (Some(first), Some(last)) => {
            Note::new(first.start, behind(last).saturating_sub(first.start), words)
        }
        _ => Note::new(0, 1, words),
    }
}

/// Returns what is said of an expression, which may have a round bracket in it.
fn inside_note(alloc: Global, index: usize, tokens: &[Token<'_>]) -> Result<Note, AllocError>
    ensures { IfOk result (IsPlain (inside_place index tokens.now (first_of 40 tokens.now))) }
{
    match first_of(b'(', tokens) {
        Some(bracket) => Ok(about(bracket, phrase(alloc, round_words(tokens))?)),
        None => expression_note(alloc, index, tokens, Part::Operand),
    }
}

/// Returns what is said of an operand whose brackets are closed.
fn closed_note(alloc: Global, index: usize, tokens: &[Token<'_>]) -> Result<Note, AllocError>
    ensures { IfOk result (IsPlain (closed_place index tokens.now)) }
{
    let [first, rest @ ..] = tokens else {
        return expression_note(alloc, index, &[], Part::Operand);
    };
    if is_symbol(first, b'(') {
        let words = phrase(alloc, pointer_words(tokens))?;
        return Ok(whole_note(tokens, words));
    }
    if is_symbol(first, b'#') {
        return expression_note(alloc, behind(first), rest, Part::Immediate);
    }
    if is_symbol(first, b'!') {
        return expression_note(alloc, behind(first), rest, Part::Operand);
    }
    inside_note(alloc, index, tokens)
}

/// Returns why the operand of an instruction is wrong, which stands behind this index.
fn wrong_operand_note(alloc: Global, index: usize, tokens: &[Token<'_>]) -> Result<Note, AllocError>
    ensures { IfOk result (IsPlain (wrong_operand_place index tokens.now)) }
{
    if let Some(bracket) = unclosed(b'(', b')', tokens) {
        return Ok(about(bracket, phrase(alloc, "this bracket is not closed")?));
    }
    if let Some(bracket) = unclosed(b'[', b']', tokens) {
        return Ok(about(bracket, phrase(alloc, "this bracket is not closed")?));
    }
    closed_note(alloc, index, tokens)
}

/// Returns whether a text is one of the five directives.
fn is_directive(text: &[u8]) -> bool
    ensures { result ≡ is_directive text.now }
{
    text.eq_ignore_ascii_case(b".BYTE")
        || text.eq_ignore_ascii_case(b".WORD")
        || text.eq_ignore_ascii_case(b".DBYTE")
        || text.eq_ignore_ascii_case(b".RES")
        || text.eq_ignore_ascii_case(b".END")
}

/// Returns what stands behind one of the five directives.
fn part_of(directive: &[u8]) -> Part {
    if directive.eq_ignore_ascii_case(b".BYTE") {
        Part::Bytes
    } else if directive.eq_ignore_ascii_case(b".RES") {
        Part::Value
    } else if directive.eq_ignore_ascii_case(b".END") {
        Part::Nothing
    } else {
        Part::Words
    }
}

/// Returns whether tokens are the rest of a name, as other assemblers take it, and a `:`.
fn ends_label(tokens: &[Token<'_>]) -> bool {
    match parts_of_name(tokens) {
        Some(count) => match tokens.get(count) {
            Some(token) => is_symbol(token, b':'),
            None => false,
        },
        None => false,
    }
}

/// Returns whether letters with a point before them are a local label of another assembler, by the
/// tokens after them: an operation, perhaps after a number that belongs to the label, the rest of a
/// name and a `:`, or a `=`.
fn is_local_label(rest: &[Token<'_>]) -> bool {
    match rest {
        [next, ..] if is_symbol(next, b'=') || begins_operation(Profile::C, next) => true,
        [number, next, ..]
            if matches!(number.kind, TokenKind::Number) && begins_operation(Profile::C, next) => {
            true
        }
        _ => ends_label(rest),
    }
}

/// Returns words about a directive that is not known, by the tokens after it.
fn unknown_words(
    alloc: Global,
    directive: &[u8],
    rest: &[Token<'_>],
) -> Result<Vec<u8>, AllocError> {
    describe(
        alloc,
        directive,
        if rest.is_empty() { ALONE } else { NO_DIRECTIVE },
    )
}

/// Returns a note about a directive that is none of the five, by the tokens after it.
#[tactic(auto, using(crate::proofs::Marked::plain_steps))]
fn directive_note(
    alloc: Global,
    profile: Profile,
    directive: &Token<'_>,
    rest: &[Token<'_>],
) -> Result<Note, AllocError>
    ensures { IfOk result (IsNote (token_place directive.now) (is_operation profile)) }
{
    if let Some(words) = defined_words(alloc, directive.text, rest)? {
        return Ok(about(directive, words));
    }
    if is_local_label(rest) {
        return Ok(about(directive, phrase(alloc, LOCAL)?));
    }
    match directive_hint(directive.text) {
        Some(hint) => hint_note(alloc, profile, directive, " is no directive here; ", hint),
        None => Ok(about(directive, unknown_words(alloc, directive.text, rest)?)),
    }
}

/// What is said of a macro that is called.
const NO_MACROS: &str = "there are no macros: write the lines, or a subroutine";

/// What is said of a directive that is not known.
const NO_DIRECTIVE: &str = " is no directive; there are .BYTE .WORD .DBYTE .RES .END";

/// What is said of a directive that is not known and stands alone, as a local label does.
const ALONE: &str = " is no directive, and there are no local labels";

/// Returns words about a directive that begins with `!`, as in ACME, by the tokens after it.
fn marked_words(alloc: Global, word: &[u8], rest: &[Token<'_>]) -> Result<Vec<u8>, AllocError> {
    if let Some(words) = defined_words(alloc, word, rest)? {
        return Ok(words);
    }
    let pieces: [&[u8]; 2] = [b"!", word];
    let mut words = concat(alloc, &pieces)?;
    match marked_hint(word) {
        Some(hint) => {
            let (before, hinted) = hint.parts();
            words.extend_from_slice(b" is no directive here; ")?;
            words.extend_from_slice(before)?;
            words.extend_from_slice(hinted)?;
        }
        None => words.extend_from_slice(NO_DIRECTIVE.as_bytes())?,
    }
    Ok(words)
}

/// Returns words about a symbol, a number or a string that begins no operation, by the tokens
/// behind it.
fn first_words(
    alloc: Global,
    first: &Token<'_>,
    rest: &[Token<'_>],
) -> Result<Vec<u8>, AllocError> {
    match rest {
        [next, operand @ ..] if is_symbol(first, b'!') => marked_words(alloc, next.text, operand),
        [next, ..] if is_symbol(first, b'+') && is_word(next) => {
            let is_mnemonic = mnemonic_in(Profile::C, next.text).is_some();
            phrase(alloc, if is_mnemonic { UNNAMED } else { NO_MACROS })
        }
        _ => phrase(alloc, other_words(first, rest)),
    }
}

/// Returns why a symbol, a number or a string begins no operation, by the tokens from it on.
fn other_words(first: &Token<'_>, rest: &[Token<'_>]) -> &'static str {
    let is_slash = match rest {
        [next, ..] => is_symbol(next, b'/') || is_symbol(next, b'*'),
        [] => false,
    };
    if is_symbol(first, b'#') || (is_symbol(first, b'/') && is_slash) {
        return COMMENT;
    }
    if is_symbol(first, b':') || is_symbol(first, b'+') || is_symbol(first, b'-') {
        return UNNAMED;
    }
    if is_symbol(first, b'=') {
        return "write NAME = and the value, without a colon";
    }
    if is_symbol(first, b'*') {
        return "write *= and the address";
    }
    "a line begins with a label, a name and =, a mnemonic, a directive or *="
}

/// Returns why an operation that begins with this token is wrong.
#[tactic(auto, using(crate::proofs::Marked::plain_steps))]
fn operation_note(
    alloc: Global,
    profile: Profile,
    first: &Token<'_>,
    rest: &[Token<'_>],
) -> Result<Note, AllocError>
    ensures { IfOk result (IsNote
        (operation_place profile first.now.kind first.now rest.now) (is_operation profile)) }
{
    match first.kind {
        TokenKind::Word => {
            if mnemonic_in(profile, first.text).is_some() {
                return wrong_operand_note(alloc, behind(first), rest);
            }
            word_note(alloc, profile, first, rest)
        }
        TokenKind::Directive => {
            if is_directive(first.text) {
                return expression_note(alloc, behind(first), rest, part_of(first.text));
            }
            directive_note(alloc, profile, first, rest)
        }
        _ => Ok(about(first, first_words(alloc, first, rest)?)),
    }
}

/// Returns whether a token may stand before the `=` of a definition or of `*=`.
fn may_be_defined(token: &Token<'_>) -> bool
    ensures { result ≡ may_be_defined token.now }
{
    is_word(token) || is_symbol(token, b'*')
}

/// Returns why a token is no label.
fn no_label_words(label: &Token<'_>) -> &'static str {
    match label.kind {
        TokenKind::Directive => LOCAL,
        _ => "a label is a name, which begins with a letter",
    }
}

/// Returns why the tokens of a line are none of the grammar, and which operation may be meant.
#[tactic(auto, using(crate::proofs::Marked::plain_steps))]
pub fn line_note(alloc: Global, profile: Profile, tokens: &[Token<'_>]) -> Result<Note, AllocError>
    ensures { IfOk result (IsNote (line_place profile tokens.now) (is_operation profile)) }
{
    match tokens {
        [label, colon, ..] if is_symbol(colon, b':') && !is_word(label) => {
            Ok(about(label, phrase(alloc, no_label_words(label))?))
        }
        _ => form_note(alloc, profile, after_label(tokens)),
    }
}

/// Returns why the tokens of a line behind its label are none of the grammar.
#[tactic(auto, using(crate::proofs::Marked::plain_steps))]
fn form_note(alloc: Global, profile: Profile, tokens: &[Token<'_>]) -> Result<Note, AllocError>
    ensures { IfOk result (IsNote (form_place profile tokens.now) (is_operation profile)) }
{
    match tokens {
        [first, second, rest @ ..] if is_symbol(second, b'=') && may_be_defined(first) => {
            expression_note(alloc, behind(second), rest, Part::Value)
        }
        [first, rest @ ..] => operation_note(alloc, profile, first, rest),
        [] => Ok(Note::new(
            0,
            1,
            phrase(alloc, "the line says nothing that can be read")?,
        )),
    }
}
