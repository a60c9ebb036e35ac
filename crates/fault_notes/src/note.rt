//! What is said of each kind of fault.

ghost use Rattle.std.specs.Prelude.{◌≡◌, ◌++◌, ◌||◌, true, IfOk, IfSome, map, slice_get};
ghost use Rattle.std.specs.List.{find, list_any};
ghost use Rattle.std.specs.Option.{option_map};
ghost use Rattle.std.specs.Str.{bytes_eq};
ghost use Rattle.fault_notes.specs.Marks.{IsMeant, IsMeantBy, IsNote, IsPlain, begins_line};
ghost use Rattle.fault_notes.specs.Marks.{first_before, is_earlier, is_known, is_known_before};
ghost use Rattle.fault_notes.specs.Marks.{is_line_name, is_register, is_reserved, is_text};
ghost use Rattle.fault_notes.specs.Marks.{is_unknown, known_of, may_be_name, may_be_right};
ghost use Rattle.fault_notes.specs.Marks.{places_of_names, token_or, token_place, tokens_place};
ghost use Rattle.fault_notes.specs.Marks.{unknown_place};
ghost use Rattle.model.specs.Token.{begins, is_letter};
ghost use Rattle.source_notes.specs.Lines.{name_view};
ghost use Rattle.source_notes.specs.Operands.{operand_place, operand_of};

use crate::form::{about, is_word, line_note, naming};
use crate::near::is_near;
use crate::operands::{modes_words, push_bytes, push_zero_page, register_words};
use crate::scan::text_note;
use crate::values::{Outside, branch_miss, first_outside};
use formatting::push_count;
use lexer::tokens;
use line_parts::{KeptLine, Token};
use model::{AsmFault, AsmFaultKind, LineFault, Mode, Profile};
use optable::mnemonic_in;
use source_faults::Found;
use source_notes::{
    Class, Name, Note, about_operand, after, after_label, describe, further, is_symbol, operand_of,
    phrase, push_dollar_address, push_signed, run_of,
};
use std::alloc::{AllocError, Global};
use symbols::Symbols;

/// What is known of a source whose faults are explained.
#[derive(Clone, Copy)]
pub struct Context<'s, 'a> {
    pub profile: Profile,
    pub port: u32,
    /// The names that lines begin with, in their order.
    pub names: &'s [Name<'a>],
    pub symbols: &'s Symbols,
    /// What the layout found of each line.
    pub found: &'s [Found<'a>],
}

/// Returns a note about a token, or about the operand of a line where there is none.
fn about_or_operand(
    line: &[u8],
    tokens: &[Token<'_>],
    token: Option<&Token<'_>>,
    words: Vec<u8>,
) -> Note
    ensures { IsPlain (token_or (operand_place line.now tokens.now)
        (option_map (λ token. token.now) token.entry)) result }
{
    match token {
        Some(token) => about(token, words),
        None => about_operand(line, tokens, words),
    }
}

/// Returns the first token, if the second one is this symbol.
fn first_before<'t, 'a>(symbol: u8, tokens: &'t [Token<'a>]) -> &'t [Token<'a>]
    ensures { result.now ≡ first_before symbol tokens.now }
{
    match tokens {
        [_, second, ..] if is_symbol(second, symbol) => &tokens[..1],
        _ => &[],
    }
}

/// Returns whether a text is A, X or Y.
fn is_register(text: &[u8]) -> bool
    ensures { result ≡ is_register text.now }
{
    text.eq_ignore_ascii_case(b"A")
        || text.eq_ignore_ascii_case(b"X")
        || text.eq_ignore_ascii_case(b"Y")
}

/// Returns whether a name stands among tokens.
fn is_among(tokens: &[Token<'_>], name: &[u8]) -> bool
    ensures { result ≡ list_any (is_text name.now) tokens.now }
{
    for token in tokens {
        if token.text == name {
            return true;
        }
    }
    false
}

/// Returns whether a line before this one begins with a name.
fn is_earlier(names: &[Name<'_>], number: u32, name: &[u8]) -> bool
    ensures { result ≡ list_any (is_earlier number name.now) (map name_view names.now) }
{
    for known in names {
        if known.line < number && known.text == name {
            return true;
        }
    }
    false
}

/// Returns whether a name is the label of a line, or defined by a line before it.
fn is_known_before(
    context: &Context<'_, '_>,
    number: u32,
    tokens: &[Token<'_>],
    name: &[u8],
) -> bool
    ensures { result ≡ is_known_before (known_of context.now) number tokens.now name.now }
{
    is_among(first_before(b':', tokens), name) || is_earlier(context.names, number, name)
}

/// Returns whether a name is known where its value is needed at once, or at the end of the source.
fn is_known(
    context: &Context<'_, '_>,
    at_once: bool,
    number: u32,
    tokens: &[Token<'_>],
    name: &[u8],
) -> bool
    ensures { result ≡ is_known (known_of context.now) at_once number tokens.now name.now }
{
    if at_once {
        is_known_before(context, number, tokens, name)
    } else {
        context.symbols.value_of(name).is_some()
    }
}

/// Returns whether a token is a name that is not known.
fn is_unknown(
    context: &Context<'_, '_>,
    at_once: bool,
    number: u32,
    tokens: &[Token<'_>],
    token: &Token<'_>,
) -> bool
    ensures { result ≡ is_unknown (known_of context.now) at_once number tokens.now token.now }
{
    is_word(token)
        && !is_register(token.text)
        && !is_known(context, at_once, number, tokens, token.text)
}

/// Returns the first of some tokens that is a name which is not known in a line of all tokens.
fn unknown_token<'t, 'a>(
    context: &Context<'_, '_>,
    at_once: bool,
    number: u32,
    tokens: &[Token<'a>],
    operand: &'t [Token<'a>],
) -> Option<&'t Token<'a>>
    ensures { option_map (λ token. token.now) result
        ≡ find (is_unknown (known_of context.now) at_once number tokens.now) operand.now }
{
    for token in operand {
        if is_unknown(context, at_once, number, tokens, token) {
            return Some(token);
        }
    }
    None
}

/// Returns the first of some names with this text.
fn named<'a>(names: &[Name<'a>], text: &[u8]) -> Option<Name<'a>> {
    for name in names {
        if name.text == text {
            return Some(*name);
        }
    }
    None
}

/// The most bytes of a name.
const LONGEST_NAME: usize = 31;

/// Returns whether a text begins with a letter.
fn begins_with_letter(text: &[u8]) -> bool
    ensures { result ≡ begins is_letter text.now }
{
    match text {
        [byte, ..] => matches!(*byte, b'A'..=b'Z' | b'a'..=b'z'),
        [] => false,
    }
}

/// Returns whether a line may define a word: it begins with a letter and has at most 31 bytes, and
/// is neither a mnemonic nor A, X or Y.
fn may_be_name(profile: Profile, word: &[u8]) -> bool
    ensures { result ≡ may_be_name profile word.now }
{
    begins_with_letter(word)
        && word.len() <= LONGEST_NAME
        && !(is_register(word) || mnemonic_in(profile, word).is_some())
}

/// Returns the first of some names that is near a text and that a line of a profile may define.
#[tactic(auto, using(crate::proofs::Marked::line_name_at))]
fn near_name<'a>(profile: Profile, names: &[Name<'a>], text: &[u8]) -> Option<Name<'a>>
    ensures named { IfSome result (λ name. may_be_name profile name.text.now ≡ true) }
    ensures on_line { IfSome result
        (λ name. begins_line (map name_view names.now) name.text.now ≡ true) }
{
    for name in names {
        if may_be_name(profile, name.text) && is_near(name.text, text) {
            return Some(*name);
        }
    }
    None
}

/// Returns what is said of a name that is not defined, with the nearest name that is.
#[tactic(auto, using(crate::proofs::Marked::plain_steps))]
fn undefined_note(
    alloc: Global,
    context: &Context<'_, '_>,
    token: &Token<'_>,
) -> Result<Note, AllocError>
    ensures { IfOk result (IsNote (token_place token.now)
        (is_line_name (known_of context.now))) }
{
    let Some(near) = near_name(context.profile, context.names, token.text) else {
        return Ok(about(token, describe(alloc, token.text, " is not defined")?));
    };
    let before = describe(alloc, token.text, " is not defined; ")?;
    let mut behind = phrase(alloc, " is, on line ")?;
    push_count(&mut behind, near.line as u64)?;
    naming(alloc, token, before, near.text, &behind)
}

/// Returns what is said of a name that is not known, with its line or with the nearest name that
/// is.
#[tactic(auto, using(crate::proofs::Marked::plain_steps))]
fn unknown_name_note(
    alloc: Global,
    context: &Context<'_, '_>,
    at_once: bool,
    token: &Token<'_>,
) -> Result<Note, AllocError>
    ensures { IfOk result (IsNote (token_place token.now)
        (is_line_name (known_of context.now))) }
{
    match named(context.names, token.text) {
        Some(name) if at_once => {
            let when = " has to be defined before it is used here; it is on line ";
            let mut words = describe(alloc, token.text, when)?;
            push_count(&mut words, name.line as u64)?;
            Ok(about(token, words))
        }
        _ => undefined_note(alloc, context, token),
    }
}

/// Returns what is said of a name that is not defined, or not defined before its line.
#[tactic(auto, using(crate::proofs::Marked::plain_steps))]
fn unknown_note(
    alloc: Global,
    context: &Context<'_, '_>,
    at_once: bool,
    number: u32,
    line: &[u8],
    tokens: &[Token<'_>],
) -> Result<Note, AllocError>
    ensures { IfOk result (IsNote
        (unknown_place (known_of context.now) at_once number line.now tokens.now)
        (is_line_name (known_of context.now))) }
{
    match unknown_token(context, at_once, number, tokens, operand_of(tokens)) {
        Some(token) => unknown_name_note(alloc, context, at_once, token),
        None => {
            let words = phrase(alloc, "a name has to be defined on an earlier line")?;
            Ok(about_operand(line, tokens, words))
        }
    }
}

/// Returns words about a name that an earlier line defines.
fn duplicate_words(
    alloc: Global,
    context: &Context<'_, '_>,
    token: &Token<'_>,
) -> Result<Vec<u8>, AllocError> {
    let mut words = describe(alloc, token.text, " is defined already")?;
    if let Some(name) = named(context.names, token.text) {
        words.extend_from_slice(b", on line ")?;
        push_count(&mut words, name.line as u64)?;
    }
    Ok(words)
}

/// Returns what is said of a name that an earlier line defines.
fn duplicate_note(
    alloc: Global,
    context: &Context<'_, '_>,
    tokens: &[Token<'_>],
) -> Result<Note, AllocError>
    ensures { IfOk result (IsPlain (token_or (0, 1) (slice_get tokens.now 0))) }
{
    match tokens.first() {
        Some(token) => Ok(about(token, duplicate_words(alloc, context, token)?)),
        None => Ok(Note::new(0, 1, phrase(alloc, "the name is defined already")?)),
    }
}

/// Returns whether a token is a mnemonic, A, X or Y.
fn is_reserved(profile: Profile, token: &Token<'_>) -> bool
    ensures { result ≡ is_reserved profile token.now }
{
    is_word(token) && (is_register(token.text) || mnemonic_in(profile, token.text).is_some())
}

/// Returns the first of some tokens that is a reserved word.
fn reserved_among<'t, 'a>(profile: Profile, tokens: &'t [Token<'a>]) -> Option<&'t Token<'a>>
    ensures { option_map (λ token. token.now) result
        ≡ find (is_reserved profile) tokens.now }
{
    for token in tokens {
        if is_reserved(profile, token) {
            return Some(token);
        }
    }
    None
}

/// Returns the first token of a line that is a reserved word where a name stands.
fn reserved_token<'t, 'a>(profile: Profile, tokens: &'t [Token<'a>]) -> Option<&'t Token<'a>>
    ensures { option_map (λ token. token.now) result
        ≡ find (is_reserved profile) (places_of_names tokens.now) }
{
    if let Some(token) = reserved_among(profile, first_before(b':', tokens)) {
        return Some(token);
    }
    if let Some(token) = reserved_among(profile, first_before(b'=', after_label(tokens))) {
        return Some(token);
    }
    reserved_among(profile, operand_of(tokens))
}

/// Returns words about a reserved word in a line of some tokens.
fn reserved_words(
    alloc: Global,
    token: Option<&Token<'_>>,
    tokens: &[Token<'_>],
) -> Result<Vec<u8>, AllocError> {
    let Some(token) = token else {
        return phrase(alloc, "a reserved word stands where a name stands");
    };
    if is_register(token.text) {
        return register_words(alloc, token, tokens);
    }
    let reason = if mnemonic_in(Profile::N, token.text).is_none() {
        " is reserved: it is a mnemonic of profile C"
    } else {
        " is reserved: it is a mnemonic"
    };
    describe(alloc, token.text, reason)
}

/// Returns what is said of a reserved word where a name stands.
fn reserved_note(
    alloc: Global,
    profile: Profile,
    line: &[u8],
    tokens: &[Token<'_>],
) -> Result<Note, AllocError>
    ensures { IfOk result (IsPlain (token_or (operand_place line.now tokens.now)
        (find (is_reserved profile) (places_of_names tokens.now)))) }
{
    let token = reserved_token(profile, tokens);
    let words = reserved_words(alloc, token, tokens)?;
    Ok(about_or_operand(line, tokens, token, words))
}

/// Returns words about a value outside its range, with what can stand in its place.
fn outside_words(
    alloc: Global,
    found: Option<Outside>,
    line: &KeptLine<'_>,
    tokens: &[Token<'_>],
) -> Result<Vec<u8>, AllocError> {
    let Some(found) = found else {
        return phrase(alloc, "the value is outside its range");
    };
    let mut words = Vec::new(alloc);
    push_signed(&mut words, found.value)?;
    words.extend_from_slice(b" is outside ")?;
    push_signed(&mut words, found.range.least)?;
    words.extend_from_slice(b"..")?;
    push_signed(&mut words, found.range.most)?;
    match line.code {
        Some(code) if !matches!(code.mode, Mode::Imm) => {
            push_zero_page(&mut words, code.mode, tokens)?;
        }
        _ => {
            if found.value > found.range.most && found.range.most == 255 {
                push_bytes(&mut words, tokens)?;
            }
        }
    }
    Ok(words)
}

/// Returns the word for so many bytes.
fn plural(bytes: u32) -> &'static str {
    if bytes == 1 { " byte" } else { " bytes" }
}

/// Returns words about a branch that does not reach its target.
fn branch_words(alloc: Global, miss: Option<(u32, bool)>) -> Result<Vec<u8>, AllocError> {
    let Some((bytes, is_ahead)) = miss else {
        return phrase(alloc, "the target is too far");
    };
    let mut words = phrase(alloc, "the target is ")?;
    push_count(&mut words, bytes as u64)?;
    words.extend_from_slice(plural(bytes).as_bytes())?;
    if is_ahead {
        words.extend_from_slice(b" too far ahead")?;
    } else {
        words.extend_from_slice(b" too far back")?;
    }
    Ok(words)
}

/// Returns words about bytes that stand where an earlier line has some.
fn overlap_words(
    alloc: Global,
    context: &Context<'_, '_>,
    line: &KeptLine<'_>,
) -> Result<Vec<u8>, AllocError> {
    for found in context.found {
        if let Found::Bytes(other) = found {
            let is_met = other.number < line.number
                && other.address < line.address + line.count
                && line.address < other.address + other.count;
            if is_met {
                let mut words = Vec::new(alloc);
                push_dollar_address(&mut words, other.address.max(line.address))?;
                words.extend_from_slice(b" has a byte already, of line ")?;
                push_count(&mut words, other.number as u64)?;
                return Ok(words);
            }
        }
    }
    phrase(alloc, "an earlier line has a byte here")
}

/// Returns words about a fault of where bytes stand or of a value.
fn placed_words(
    alloc: Global,
    context: &Context<'_, '_>,
    kind: AsmFaultKind,
    line: &KeptLine<'_>,
    tokens: &[Token<'_>],
) -> Result<Vec<u8>, AllocError> {
    match kind {
        AsmFaultKind::ByteRange | AsmFaultKind::WordRange => {
            outside_words(alloc, first_outside(line, context.symbols), line, tokens)
        }
        AsmFaultKind::BranchRange => branch_words(alloc, branch_miss(line, context.symbols)),
        AsmFaultKind::Overlap => overlap_words(alloc, context, line),
        AsmFaultKind::PastEnd => {
            let mut words = phrase(alloc, "the line ends ")?;
            let past = (line.address + line.count).saturating_sub(65536);
            push_count(&mut words, past as u64)?;
            words.extend_from_slice(b" past the last address, $FFFF")?;
            Ok(words)
        }
        _ => {
            let mut words = phrase(alloc, "the port has the addresses ")?;
            push_dollar_address(&mut words, context.port)?;
            words.extend_from_slice(b"..")?;
            push_dollar_address(&mut words, context.port.saturating_add(3))?;
            words.extend_from_slice(b"; --port moves it, --port none leaves it out")?;
            Ok(words)
        }
    }
}

/// Returns the words of a kind that needs no more than its name.
fn plain_words(kind: AsmFaultKind) -> &'static str {
    match kind {
        AsmFaultKind::TooManyNames => "a source defines at most 8192 names",
        AsmFaultKind::OriginRange =>
            "the address after this line is outside $0000..$FFFF, or before it",
        AsmFaultKind::ExprRange | AsmFaultKind::ValueExprRange => {
            "a number is outside -2147483648..2147483647, or one at & | ^ outside 0..65535"
        }
        AsmFaultKind::DivideByZero | AsmFaultKind::ValueDivideByZero => "division by 0",
        _ => "the line cannot be assembled",
    }
}

/// Returns words about a fault of a line's value or place.
fn other_words(
    alloc: Global,
    context: &Context<'_, '_>,
    kind: AsmFaultKind,
    number: u32,
    tokens: &[Token<'_>],
) -> Result<Vec<u8>, AllocError> {
    let index = (number as usize).saturating_sub(1);
    match (kind, context.found.get(index)) {
        (AsmFaultKind::NoSuchForm, _) => modes_words(alloc, context.profile, tokens),
        (AsmFaultKind::ValueExprRange | AsmFaultKind::ValueDivideByZero, _) => {
            phrase(alloc, plain_words(kind))
        }
        (_, Some(Found::Bytes(kept))) => placed_words(alloc, context, kind, kept, tokens),
        _ => phrase(alloc, plain_words(kind)),
    }
}

/// Returns what is said of a fault of a line that is made of tokens.
#[tactic(auto, using(crate::proofs::Marked::plain_steps))]
fn tokens_note(
    alloc: Global,
    context: &Context<'_, '_>,
    kind: AsmFaultKind,
    number: u32,
    line: &[u8],
    tokens: &[Token<'_>],
) -> Result<Note, AllocError>
    ensures { IfOk result (IsNote
        (tokens_place (known_of context.now) kind number line.now tokens.now)
        (may_be_right (known_of context.now) kind)) }
{
    match kind {
        AsmFaultKind::Syntax => line_note(alloc, context.profile, tokens),
        AsmFaultKind::ReservedName => reserved_note(alloc, context.profile, line, tokens),
        AsmFaultKind::DuplicateName => duplicate_note(alloc, context, tokens),
        AsmFaultKind::UnknownHere => unknown_note(alloc, context, true, number, line, tokens),
        AsmFaultKind::UndefinedName => unknown_note(alloc, context, false, number, line, tokens),
        kind => {
            let words = other_words(alloc, context, kind, number, tokens)?;
            Ok(about_operand(line, tokens, words))
        }
    }
}

/// Returns what is said of a fault of a line's tokens, or of the byte that begins none.
fn read_note(
    alloc: Global,
    context: &Context<'_, '_>,
    kind: AsmFaultKind,
    number: u32,
    line: &[u8],
) -> Result<Note, AllocError>
    ensures { IfOk result (IsMeantBy (known_of context.now) kind number line.now) }
{
    match tokens(alloc, line) {
        Ok(found) => tokens_note(alloc, context, kind, number, line, &found),
        Err(LineFault::OutOfMemory) => Err(AllocError),
        Err(LineFault::Syntax) => text_note(alloc, line),
    }
}

/// Returns words about the first of some bytes, which stands in no line.
fn ascii_words(alloc: Global, bytes: &[u8]) -> Result<Vec<u8>, AllocError> {
    let more = further(bytes);
    if more > 0 && more < bytes.len() {
        let reason = " is not ASCII: a source has printable ASCII and tabs, and any letters in \
        comments (asm: with --utf8)";
        return describe(alloc, &bytes[..more + 1], reason);
    }
    phrase(alloc, "a byte is neither printable ASCII nor a tab")
}

/// Returns what is said of a fault of a line, which bytes of the line are meant, and which word is
/// right in their place if the words name one. Source: mos65.
///
/// Errors: `AllocError` if an allocation fails.
pub fn note_of(
    alloc: Global,
    context: &Context<'_, '_>,
    fault: AsmFault,
    line: &[u8],
) -> Result<Note, AllocError>
    ensures { IfOk result (IsMeant (known_of context.now) fault.kind fault.line line.now) }
{
    match fault.kind {
        AsmFaultKind::LineTooLong => {
            Ok(Note::new(255, 1, phrase(alloc, "a line has at most 255 bytes")?))
        }
        AsmFaultKind::NotAscii => {
            let start = run_of(Class::Line, line);
            Ok(Note::new(start, 1, ascii_words(alloc, after(line, start))?))
        }
        kind => read_note(alloc, context, kind, fault.line, line),
    }
}
