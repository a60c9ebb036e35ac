//! What the text of a line says.

ghost use Rattle.std.specs.Prelude.{◌≡◌, ◌∷◌, [], IfOk, OnErr};
ghost use Rattle.model.specs.SourceLine.{directive_of, line_of, operation_by, origin_after, read_line};
ghost use Rattle.model.specs.SourceLine.{statement_of, unlabelled, unreserved, word_line};
ghost use Rattle.line_parts.specs.Lexemes.{lexeme_of, lexemes};
ghost use Rattle.line_parts.specs.LineViews.{Gives, Reads, statement_view, line_view};
ghost use Rattle.line_parts.specs.FewBytes.{IsSmallLine};
ghost use Rattle.asm_line.specs.Tokens.{fault_of_bytes, line_tokens, line_of_tokens};

use crate::expressions::{list, whole_expression};
use crate::operand::operand;
use crate::reserved::line_reserves;
use crate::token_tests::{is_in_capitals, is_symbol};
use lexer::{all_may_stand, tokens_are_slices, tokens_into};
use line_parts::{Line, LineError, Statement, Token};
use model::{AsmFaultKind, LineFault, Profile, TokenKind};
use optable::mnemonic_in;
use parser::expressions_are_longest;
use std::alloc::Global;

/// The most bytes that a line has without its end. Source: mos65.
const LINE_SIZE: usize = 255;

/// Reads a directive and the tokens after it.
#[tactic(auto, unfolding(model::specs::SourceLine::directive_of))]
fn directive<'a>(
    alloc: Global,
    name: &[u8],
    after: &[Token<'a>],
) -> Result<Statement<'a>, LineFault>
    ensures { Reads statement_view result (directive_of name.now (lexemes after.now)) }
{
    if is_in_capitals(name, b".BYTE") {
        return Ok(Statement::Bytes(list(alloc, after)?));
    }
    if is_in_capitals(name, b".WORD") {
        return Ok(Statement::Words(list(alloc, after)?));
    }
    if is_in_capitals(name, b".DBYTE") {
        return Ok(Statement::WordsHighFirst(list(alloc, after)?));
    }
    if is_in_capitals(name, b".RES") {
        return Ok(Statement::Reserve(whole_expression(alloc, after)?));
    }
    if is_in_capitals(name, b".END") & after.is_empty() {
        return Ok(Statement::Finish);
    }
    Err(LineFault::Syntax)
}

/// Reads the tokens after a `*`.
fn origin<'a>(alloc: Global, after: &[Token<'a>]) -> Result<Statement<'a>, LineFault>
    ensures { Reads statement_view result (origin_after (lexemes after.now)) }
{
    let Some((equals, rest)) = after.split_first() else {
        return Err(LineFault::Syntax);
    };
    if !is_symbol(equals, b'=') {
        return Err(LineFault::Syntax);
    }
    Ok(Statement::Origin(whole_expression(alloc, rest)?))
}

/// Reads a word and the tokens after it.
fn instruction<'a>(
    alloc: Global,
    profile: Profile,
    word: &Token<'a>,
    after: &[Token<'a>],
) -> Result<Statement<'a>, LineFault>
    ensures { Reads statement_view result
        (operation_by profile TokenKind.Word (lexeme_of word.now) (lexemes after.now)) }
{
    let mnemonic = mnemonic_in(profile, word.text).ok_or(LineFault::Syntax)?;
    Ok(Statement::Instruction(mnemonic, operand(alloc, after)?))
}

/// Reads the tokens of a statement.
#[tactic(auto, unfolding(model::specs::SourceLine::statement_of))]
fn statement<'a>(
    alloc: Global,
    profile: Profile,
    tokens: &[Token<'a>],
) -> Result<Statement<'a>, LineFault>
    ensures { Reads statement_view result (statement_of profile (lexemes tokens.now)) }
{
    let Some((first, after)) = tokens.split_first() else {
        return Ok(Statement::Nothing);
    };
    match first.kind {
        TokenKind::Word => instruction(alloc, profile, first, after),
        TokenKind::Directive => directive(alloc, first.text, after),
        TokenKind::Symbol if is_symbol(first, b'*') => origin(alloc, after),
        TokenKind::Symbol | TokenKind::Number | TokenKind::Char | TokenKind::Str => {
            Err(LineFault::Syntax)
        }
    }
}

/// Reads the tokens of a line without a label.
fn unlabelled<'a>(
    alloc: Global,
    profile: Profile,
    tokens: &[Token<'a>],
) -> Result<Line<'a>, LineFault>
    ensures { Reads line_view result (unlabelled profile (lexemes tokens.now)) }
{
    Ok(Line::Labelled(None, statement(alloc, profile, tokens)?))
}

/// Reads a line's first word and the tokens after it: a label, a definition, or neither.
fn word_line<'a>(
    alloc: Global,
    profile: Profile,
    tokens: &[Token<'a>],
    word: &Token<'a>,
    after: &[Token<'a>],
) -> Result<Line<'a>, LineFault>
    requires { lexemes tokens.now ≡ lexeme_of word.now ∷ lexemes after.now }
    ensures { Reads line_view result (word_line profile (lexeme_of word.now) (lexemes after.now)) }
{
    let Some((mark, rest)) = after.split_first() else {
        return unlabelled(alloc, profile, tokens);
    };
    if is_symbol(mark, b':') {
        return Ok(Line::Labelled(Some(word.text), statement(alloc, profile, rest)?));
    }
    if is_symbol(mark, b'=') {
        return Ok(Line::Definition(word.text, whole_expression(alloc, rest)?));
    }
    unlabelled(alloc, profile, tokens)
}

/// Reads the tokens of a line.
#[tactic(auto, unfolding(model::specs::SourceLine::line_of))]
fn line_of<'a>(alloc: Global, profile: Profile, tokens: &[Token<'a>]) -> Result<Line<'a>, LineFault>
    ensures { Reads line_view result (line_of profile (lexemes tokens.now)) }
{
    let Some((first, after)) = tokens.split_first() else {
        return Ok(Line::Labelled(None, Statement::Nothing));
    };
    match first.kind {
        TokenKind::Word => word_line(alloc, profile, tokens, first, after),
        TokenKind::Directive
        | TokenKind::Number
        | TokenKind::Char
        | TokenKind::Str
        | TokenKind::Symbol => unlabelled(alloc, profile, tokens),
    }
}

/// Returns the fault of a line that has no tokens, by its bytes.
fn fault_of_bytes(line: &[u8]) -> AsmFaultKind
    ensures { result ≡ fault_of_bytes line.now }
{
    if all_may_stand(line) {
        AsmFaultKind::Syntax
    } else {
        AsmFaultKind::NotAscii
    }
}

/// Puts the tokens of a line into a list, or returns the first fault of its text.
#[tactic(auto, unfolding(crate::specs::Tokens::line_tokens))]
fn line_tokens<'a>(room: &mut Vec<Token<'a>>, line: &'a [u8]) -> Result<(), LineError>
    ensures { Gives (λ _. lexemes room.new.items) result (line_tokens line.now) }
{
    if line.len() > LINE_SIZE {
        return Err(LineError::Kind(AsmFaultKind::LineTooLong));
    }
    match tokens_into(room, line) {
        Ok(()) => Ok(()),
        Err(LineFault::OutOfMemory) => Err(LineError::Memory),
        Err(LineFault::Syntax) => Err(LineError::Kind(fault_of_bytes(line))),
    }
}

/// Reads the tokens of a line, or returns the fault of a reserved word among them.
fn line_of_tokens<'a>(
    alloc: Global,
    profile: Profile,
    tokens: &[Token<'a>],
) -> Result<Line<'a>, LineError>
    ensures { Gives line_view result (unreserved profile (line_of profile (lexemes tokens.now))) }
{
    let line = line_of(alloc, profile, tokens)?;
    if line_reserves(profile, &line) {
        return Err(LineError::Kind(AsmFaultKind::ReservedName));
    }
    Ok(line)
}

/// Reads a line.
fn read<'a>(
    alloc: Global,
    profile: Profile,
    room: &mut Vec<Token<'a>>,
    line: &'a [u8],
) -> Result<Line<'a>, LineError>
    ensures { Gives line_view result (line_of_tokens profile (line_tokens line.now)) }
{
    match line_tokens(room, line) {
        Ok(()) => line_of_tokens(alloc, profile, room),
        Err(error) => Err(error),
    }
}

/// Reads a line of a source in a profile; the line comes without its end.
///
/// Its tokens are put into `room` in place of its contents, so one list's memory serves line after
/// line. On an error `room` is empty.
///
/// Errors: `Kind` with the first fault of the text, in this order: `LineTooLong` above 255 bytes;
/// `NotAscii` if a byte is neither $20..$7E nor a tab; `Syntax` if the line is not in the grammar,
/// with reserved words read as names; `ReservedName` if a mnemonic of the profile, A, X or Y is
/// used as a name. `Memory` if an allocation fails. Source: mos65.
pub fn read_line_with<'a>(
    alloc: Global,
    profile: Profile,
    room: &mut Vec<Token<'a>>,
    line: &'a [u8],
) -> Result<Line<'a>, LineError>
    ensures exact { Gives line_view result (read_line profile line.now) }
    // The line denotes few bytes, since its text has few.
    ensures small { IfOk result (λ l. IsSmallLine (line_view l)) }
    // If the line has a fault, the list is empty.
    ensures err { OnErr result (room.new.items ≡ []) }
{
    // For the proof: tokens are slices of the line, and expressions are beginnings of its tokens.
    tokens_are_slices();
    expressions_are_longest();
    match read(alloc, profile, room, line) {
        Ok(found) => Ok(found),
        Err(error) => {
            room.clear();
            Err(error)
        }
    }
}

/// Reads a line of a source in a profile, as `read_line_with` does, with a list of its own.
pub fn read_line<'a>(alloc: Global, profile: Profile, line: &'a [u8]) -> Result<Line<'a>, LineError>
    ensures exact { Gives line_view result (read_line profile line.now) }
    ensures small { IfOk result (λ l. IsSmallLine (line_view l)) }
{
    let mut room = Vec::new(alloc);
    read_line_with(alloc, profile, &mut room, line)
}
