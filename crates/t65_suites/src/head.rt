//! The line of a test file that names its source.

ghost use Rattle.std.specs.Prelude.{◌≡◌, ◌<◌, ◌≤◌, ◌+◌, IfErr, IfOk, length};
ghost use Rattle.std.specs.List.{prefix_len};
ghost use Rattle.model.specs.TextLines.{lines_of};
ghost use Rattle.t65_suites.specs.HeadText.{after_file, file_of, head_from, head_of, head_view};
ghost use Rattle.t65_suites.specs.HeadText.{is_name_byte, then_ends};
ghost use Rattle.t65_suites.specs.HeadText.{option_of, options_of, plain_head, port_of, profile_of};
ghost use Rattle.t65_suites.specs.HeadText.{rom_of, stack_of, then_read};
ghost use Rattle.t65_values.specs.ValueText.{after_sign, after_word, word_of};

use line_parts::next_line;
use memory_map::DEFAULT_PORT;
use model::Profile;
use t65_reader::{fault_of, string_of};
use t65_values::{
    RowFault, RowFaultKind, TextFault, after_sign, after_word, ends, fault_at, hex_of, is_next,
    is_text, skip_blanks, word_of,
};

/// The source that a test file names, and the machine that its rows run on.
#[derive(Clone, Copy)]
pub struct Head<'a> {
    /// The name of the source's file.
    pub source: &'a [u8],
    /// The processor.
    pub profile: Profile,
    /// The first and the last address of the ROM, if there is one.
    pub rom: Option<(u16, u16)>,
    /// The first of the port's four addresses, or no port.
    pub port: Option<u16>,
    /// Where the C stack begins, which grows downwards, if that is said.
    pub stack: Option<u16>,
}

/// A test file whose head was read.
#[derive(Clone, Copy)]
pub struct Opened<'a> {
    pub head: Head<'a>,
    /// The number of the line after the head, counted from 1.
    pub next: u32,
    /// The text from that line on.
    pub rest: &'a [u8],
}

/// Counts the bytes of a file's name at the front of a text.
fn name_run(text: &[u8]) -> usize
    ensures counted { result ≡ prefix_len is_name_byte text.now }
    ensures inside { result ≤ length text.now }
{
    text.iter()
        .take_while(|byte| **byte > 32 && **byte != b';' && **byte != 34)
        .count()
}

/// Reads the name of a file.
#[tactic(auto, unfolding(crate::specs::HeadText::file_of))]
fn file_of(text: &[u8]) -> Result<(&[u8], &[u8]), RowFault>
    ensures ok { IfOk result (λ p. file_of text.now ≡ Ok (p.0.now, p.1.now)) }
    ensures err { IfErr result (λ fault. file_of text.now ≡ Err fault) }
{
    if is_next(34, text) {
        return string_of(text);
    }
    let count = name_run(text);
    if count == 0 {
        return Err(fault_at(RowFaultKind::Syntax, text));
    }
    Ok((&text[..count], skip_blanks(&text[count..])))
}

/// Reads `N` or `C`.
#[tactic(auto, unfolding(crate::specs::HeadText::profile_of))]
fn profile_of<'a>(head: Head<'a>, text: &'a [u8]) -> Result<(Head<'a>, &'a [u8]), RowFault>
    ensures ok { IfOk result (λ p. profile_of (head_view head.entry) text.now
        ≡ Ok (head_view p.0, p.1.now)) }
    ensures err { IfErr result (λ fault. profile_of (head_view head.entry) text.now ≡ Err fault) }
{
    let profile = if is_text(word_of(text), b"N") {
        Profile::N
    } else if is_text(word_of(text), b"C") {
        Profile::C
    } else {
        return Err(fault_at(RowFaultKind::Syntax, text));
    };
    Ok((Head { profile, ..head }, after_word(text)))
}

/// Reads the port's first address, or `none`.
#[tactic(auto, unfolding(crate::specs::HeadText::port_of))]
fn port_of<'a>(head: Head<'a>, text: &'a [u8]) -> Result<(Head<'a>, &'a [u8]), RowFault>
    ensures ok { IfOk result (λ p. port_of (head_view head.entry) text.now
        ≡ Ok (head_view p.0, p.1.now)) }
    ensures err { IfErr result (λ fault. port_of (head_view head.entry) text.now ≡ Err fault) }
{
    if is_text(word_of(text), b"none") {
        let port = None;
        return Ok((Head { port, ..head }, after_word(text)));
    }
    let (base, rest) = hex_of(text)?;
    let port = Some(base);
    Ok((Head { port, ..head }, rest))
}

/// Reads the ROM's two addresses.
#[tactic(auto, unfolding(crate::specs::HeadText::rom_of))]
fn rom_of<'a>(head: Head<'a>, text: &'a [u8]) -> Result<(Head<'a>, &'a [u8]), RowFault>
    ensures ok { IfOk result (λ p. rom_of (head_view head.entry) text.now
        ≡ Ok (head_view p.0, p.1.now)) }
    ensures err { IfErr result (λ fault. rom_of (head_view head.entry) text.now ≡ Err fault) }
{
    let (first, rest) = hex_of(text)?;
    let rest = after_sign(b'-', rest)?;
    let (last, rest) = hex_of(rest)?;
    let rom = Some((first, last));
    Ok((Head { rom, ..head }, rest))
}

/// Reads where the C stack begins.
#[tactic(auto, unfolding(crate::specs::HeadText::stack_of))]
fn stack_of<'a>(head: Head<'a>, text: &'a [u8]) -> Result<(Head<'a>, &'a [u8]), RowFault>
    ensures ok { IfOk result (λ p. stack_of (head_view head.entry) text.now
        ≡ Ok (head_view p.0, p.1.now)) }
    ensures err { IfErr result (λ fault. stack_of (head_view head.entry) text.now ≡ Err fault) }
{
    let (top, rest) = hex_of(text)?;
    let stack = Some(top);
    Ok((Head { stack, ..head }, rest))
}

/// Reads one option, or nothing where the line ends.
#[tactic(auto, unfolding(crate::specs::HeadText::option_of))]
fn option_of<'a>(head: Head<'a>, text: &'a [u8]) -> Result<(Head<'a>, &'a [u8]), RowFault>
    ensures ok { IfOk result (λ p. option_of (head_view head.entry) text.now
        ≡ Ok (head_view p.0, p.1.now)) }
    ensures err { IfErr result (λ fault. option_of (head_view head.entry) text.now ≡ Err fault) }
{
    if ends(text) {
        Ok((head, text))
    } else if is_text(word_of(text), b"profile") {
        profile_of(head, after_sign(b'=', after_word(text))?)
    } else if is_text(word_of(text), b"port") {
        port_of(head, after_sign(b'=', after_word(text))?)
    } else if is_text(word_of(text), b"rom") {
        rom_of(head, after_sign(b'=', after_word(text))?)
    } else if is_text(word_of(text), b"stack") {
        stack_of(head, after_sign(b'=', after_word(text))?)
    } else {
        Err(fault_at(RowFaultKind::Syntax, text))
    }
}

/// Reads up to four options and the line's end.
#[tactic(auto, unfolding(crate::specs::HeadText::options_of))]
fn options_of<'a>(head: Head<'a>, text: &'a [u8]) -> Result<Head<'a>, RowFault>
    ensures ok { IfOk result
        (λ read. options_of (head_view head.entry) text.now ≡ Ok (head_view read)) }
    ensures err { IfErr result (λ fault. options_of (head_view head.entry) text.now ≡ Err fault) }
{
    let (head, rest) = option_of(head, text)?;
    let (head, rest) = option_of(head, rest)?;
    let (head, rest) = option_of(head, rest)?;
    let (head, rest) = option_of(head, rest)?;
    if ends(rest) {
        Ok(head)
    } else {
        Err(fault_at(RowFaultKind::Syntax, rest))
    }
}

/// Reads the text of a head.
#[tactic(auto, unfolding(crate::specs::HeadText::head_of))]
fn head_of(text: &[u8]) -> Result<Head<'_>, RowFault>
    ensures ok { IfOk result (λ head. head_of text.now ≡ Ok (head_view head)) }
    ensures err { IfErr result (λ fault. head_of text.now ≡ Err fault) }
{
    if !is_text(word_of(text), b"source") {
        return Err(fault_at(RowFaultKind::NoSource, text));
    }
    let (source, rest) = file_of(after_word(text))?;
    let plain = Head {
        source,
        profile: Profile::N,
        rom: None,
        port: Some(DEFAULT_PORT),
        stack: None,
    };
    options_of(plain, rest)
}

/// Reads the head of a test file: its first line that is neither blank nor a comment. It is
/// `source NAME` and up to four options: `profile=N` or `profile=C`, `port=HHHH`, `rom=LO-HI`,
/// `stack=HHHH`. A name with a blank in it stands between two `"`.
///
/// # Errors
///
/// - `NoSource`: no line is a head, or the first is another one.
/// - `Syntax`: something else has to stand where the fault is.
///
/// Source: mos65.
pub fn read_head(text: &[u8]) -> Result<Opened<'_>, TextFault>
    requires { length text.now < 4294967295 }
    ensures ok { IfOk result (λ opened. head_from 1 (lines_of text.now)
        ≡ Ok (head_view opened.head, opened.next, lines_of opened.rest.now)) }
    ensures err { IfErr result (λ fault. head_from 1 (lines_of text.now) ≡ Err fault) }
    ensures room { IfOk result
        (λ opened. opened.next + length opened.rest.now ≤ 1 + length text.now) }
{
    let mut rest = text;
    let mut number = 1u32;
    while rest.len() > 0 {
        let (line, behind) = next_line(rest);
        let front = skip_blanks(line);
        if !ends(front) {
            return match head_of(front) {
                Ok(head) => Ok(Opened {
                    head,
                    next: number + 1,
                    rest: behind,
                }),
                Err(fault) => Err(fault_of(number, line, fault)),
            };
        }
        rest = behind;
        number += 1;
    }
    Err(TextFault {
        line: number,
        column: 1,
        kind: RowFaultKind::NoSource,
    })
}
