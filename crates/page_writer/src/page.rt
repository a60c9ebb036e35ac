//! A whole page: the parts of a template, and what stands between them.

ghost use Rattle.std.specs.Prelude.{◌≡◌, ◌++◌, [], ℕ, List, IfOk, OnOk, false, true};
ghost use Rattle.std.specs.Io.KnownBytes.{Appends};
ghost use Rattle.base64.specs.Engines.{standard};
ghost use Rattle.base64.specs.GeneralPurpose.{encode_of};
ghost use Rattle.console.specs.Playing.{begun, played};
ghost use Rattle.console.specs.Written.{RanAs};
ghost use Rattle.page_data.specs.Safe.{escaped, is_safe_text};
ghost use Rattle.page_writer.specs.Data.{IsDataOf};
ghost use Rattle.page_writer.specs.Page.{AreSafe, end_text, front_text, page_text, part_text};
ghost use Rattle.page_writer.specs.Page.{why_fact, why_words};
ghost use Rattle.page_writer.specs.Steps.{steps_of};

use crate::run::write_run;
use crate::wording::{
    AT_PLACE, CONSOLE_FULL, CUT, INPUT_OVER, NO_INSTRUCTION, NO_RESET, NO_VECTOR, REJECTED, RESTS,
    UNWRITTEN,
};
use accesses::Written;
use console::{Ending, Played};
use debugger::Session;
use formatting::push_text;
use model::EventFault;
use page_data::{SendFault, push_base64, push_escaped};
use std::alloc::{AllocError, Global};
use std::io::Write;

/// The parts of a viewer, between which a page has what it shows.
#[derive(Clone, Copy)]
pub struct Template<'a> {
    /// What stands before the facts.
    pub head: &'a str,
    /// What stands between the facts and the source.
    pub before_source: &'a str,
    /// What stands between the source and the run.
    pub before_run: &'a str,
    /// What stands between the run and how it ended.
    pub before_end: &'a str,
    /// What stands behind that.
    pub tail: &'a str,
}

/// What a page says of a program besides its run.
#[derive(Clone, Copy)]
pub struct Texts<'a> {
    /// A line for each fact.
    pub facts: &'a [u8],
    /// The source, or nothing.
    pub source: &'a [u8],
}

/// Returns why a run ended, in words.
fn why_words(ending: Ending) -> &'static str
    ensures { result.now ≡ why_words ending }
{
    match ending {
        Ending::Until => AT_PLACE,
        Ending::Rest => RESTS,
        Ending::InputOver => INPUT_OVER,
        Ending::Limit => CUT,
        Ending::Unwritten { .. } => UNWRITTEN,
        Ending::NoReset => NO_RESET,
        Ending::NoVector => NO_VECTOR,
        Ending::Refused(EventFault::ConsoleFull) => CONSOLE_FULL,
        Ending::Refused(EventFault::Undocumented { .. }) => NO_INSTRUCTION,
        Ending::Refused(_) => REJECTED,
    }
}

/// Returns the fact that says why a run ended.
#[tactic(auto, unfolding(crate::specs::Page::why_fact))]
fn why_fact(alloc: Global, why: &str) -> Result<Vec<u8>, AllocError>
    ensures { IfOk result (λ fact. fact.items ≡ why_fact why.now) }
{
    let mut fact = Vec::new(alloc);
    push_text(&mut fact, "why ")?;
    push_text(&mut fact, why)?;
    fact.push(b'\n')?;
    Ok(fact)
}

/// Appends a part of a template, and a text behind it from a line of its own on.
#[tactic(auto, unfolding(crate::specs::Page::part_text))]
fn push_part(text: &mut Vec<u8>, before: &str, part: &[u8]) -> Result<(), AllocError>
    ensures ok { OnOk result (text.new.items ≡ text.old.items ++ part_text before.now part.now) }
    ensures safe { OnOk result (is_safe_text (escaped part.now) ≡ true) }
{
    push_text(text, before)?;
    text.push(b'\n')?;
    push_escaped(text, part)
}

/// Returns what a page has before its run.
#[tactic(auto, unfolding(crate::specs::Page::front_text))]
fn front_of(
    alloc: Global,
    template: &Template<'_>,
    texts: &Texts<'_>,
) -> Result<Vec<u8>, AllocError>
    ensures text { IfOk result (λ text. text.items ≡ front_text template.now texts.now) }
    ensures facts { IfOk result (λ text. is_safe_text (escaped texts.now.facts.now) ≡ true) }
    ensures source { IfOk result (λ text. is_safe_text (escaped texts.now.source.now) ≡ true) }
{
    let mut text = Vec::new(alloc);
    push_part(&mut text, template.head, texts.facts)?;
    push_part(&mut text, template.before_source, texts.source)?;
    push_text(&mut text, template.before_run)?;
    Ok(text)
}

/// Returns what a page has behind its run.
#[tactic(auto, unfolding(crate::specs::Page::end_text))]
fn end_of(alloc: Global, template: &Template<'_>, why: &str) -> Result<Vec<u8>, AllocError>
    ensures text { IfOk result (λ text. text.items ≡ end_text template.now why.now) }
    ensures why { IfOk result (λ text. is_safe_text (escaped (why_fact why.now)) ≡ true) }
{
    let why = why_fact(alloc, why)?;
    let mut text = Vec::new(alloc);
    push_part(&mut text, template.before_end, why.as_slice())?;
    push_text(&mut text, template.tail)?;
    Ok(text)
}

/// Writes all of some text.
fn put<W: Write>(text: &[u8], writer: &mut W) -> Result<(), SendFault>
    ensures { OnOk result (Appends (W.contents writer.old) (W.contents writer.new) text.now) }
{
    writer.write_all(text).map_err(|_| SendFault::Write)
}

/// Writes what a page has before its run.
fn put_front<W: Write>(
    alloc: Global,
    template: &Template<'_>,
    texts: &Texts<'_>,
    writer: &mut W,
) -> Result<(), SendFault>
    ensures text { OnOk result (Appends (W.contents writer.old) (W.contents writer.new)
        (front_text template.now texts.now)) }
    ensures facts { OnOk result (is_safe_text (escaped texts.now.facts.now) ≡ true) }
    ensures source { OnOk result (is_safe_text (escaped texts.now.source.now) ≡ true) }
{
    match front_of(alloc, template, texts) {
        Ok(text) => put(text.as_slice(), writer),
        Err(_) => Err(SendFault::OutOfMemory),
    }
}

/// Writes what a page has behind its run.
fn put_end<W: Write>(
    alloc: Global,
    template: &Template<'_>,
    why: &str,
    writer: &mut W,
) -> Result<(), SendFault>
    ensures text { OnOk result (Appends (W.contents writer.old) (W.contents writer.new)
        (end_text template.now why.now)) }
    ensures why { OnOk result (is_safe_text (escaped (why_fact why.now)) ≡ true) }
{
    match end_of(alloc, template, why) {
        Ok(text) => put(text.as_slice(), writer),
        Err(_) => Err(SendFault::OutOfMemory),
    }
}

/// Runs a program, and writes a page that shows its run.
///
/// The run is `console::play`'s, with `input` for its input: it ends where that does, after at most
/// `limit` steps. Memory does not grow with the steps.
///
/// Errors: `OutOfMemory` if an allocation fails, `Write` if a write fails. A beginning of the page
/// may have been written.
///
/// Source: mos65.
pub fn write_page<W: Write>(
    alloc: Global,
    template: &Template<'_>,
    texts: &Texts<'_>,
    session: &mut Session,
    written: Written,
    until: Option<u16>,
    limit: u64,
    input: &[u8],
    writer: &mut W,
) -> Result<Played, SendFault>
    // What was written is the parts of the template, and between them the facts, the source, the
    // data of the run and how it ended. The run is the definition's over the input. Read again, its
    // data give the states of exactly its steps, one after another, forwards and back. Nothing
    // between the parts ends a script or begins markup.
    ensures { IfOk result (λ end. (left : List ℕ) × (bytes : List ℕ)
        × RanAs (played until limit (begun session.old written input.now)) end session.new left
        × IsDataOf session.old.current
        (steps_of until limit (begun session.old written input.now)) bytes
        × AreSafe texts.now bytes (why_words end.ending)
        × Appends (W.contents writer.old) (W.contents writer.new)
        (page_text template.now texts.now bytes (why_words end.ending))) }
{
    put_front(alloc, template, texts, writer)?;
    let played = write_run(alloc, session, written, until, limit, input, writer)?;
    put_end(alloc, template, why_words(played.ending), writer)?;
    Ok(played)
}

/// Returns a whole page whose data were recorded before, with the words for why they end.
///
/// Errors: `AllocError` if an allocation fails.
///
/// Source: mos65.
pub fn page_of(
    alloc: Global,
    template: &Template<'_>,
    texts: &Texts<'_>,
    bytes: &[u8],
    why: &str,
) -> Result<Vec<u8>, AllocError>
    // The parts of the template, and between them the facts, the source, the data and why they end.
    ensures text { IfOk result (λ text. text.items
        ≡ page_text template.now texts.now bytes.now why.now) }
    // Nothing between the parts ends a script or begins markup.
    ensures safe { IfOk result (λ text. AreSafe texts.now bytes.now why.now) }
{
    let mut text = front_of(alloc, template, texts)?;
    push_base64(alloc, &mut text, bytes)?;
    let end = end_of(alloc, template, why)?;
    text.extend_from_slice(end.as_slice())?;
    Ok(text)
}
