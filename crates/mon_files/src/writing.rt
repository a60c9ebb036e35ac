//! A file that a line writes, and what is said of it.

ghost use Rattle.std.specs.Prelude.{◌≡◌, ℕ, IfErr, IfOk, List, Ok, OnOk, false, option_map};
ghost use Rattle.arguments.specs.OtherFiles.{others_view};
ghost use Rattle.arguments_play.specs.Mon.{mon_view};
ghost use Rattle.mon_dispatch.specs.Lines.{Says};
ghost use Rattle.mon_files.specs.Own.{is_beside, is_named, is_of_word, is_other, is_own};
ghost use Rattle.mon_files.specs.declared.writing.Outcome.TheVariants.{Whole};
ghost use Rattle.mon_session.specs.Course.{ShowsOnly};

use crate::wording::{NOT_UTF8, NOT_WRITTEN, OWN_FILE};
use arguments::{
    OtherFiles, Refusal, WriteFault, check_replaced, is_one_file, name_of, put_shown, write_file,
    write_reason,
};
use arguments_play::MonWords;
use debug_files::is_source;
use mon_session::MonState;
use source_map::Places;
use std::alloc::AllocError;
use std::rt::Files;

/// What has become of a file that was to be written.
#[derive(Clone, Copy)]
pub enum Outcome {
    Whole,
    /// It is a file that the session has read, or a source that its debug information names.
    Own,
    /// It cannot be written, for this reason.
    Not(WriteFault),
}

/// Returns what was made, or that an allocation failed.
pub fn of_memory<T>(made: Result<T, AllocError>) -> Result<T, Refusal>
    ensures made { IfOk result (λ value. made ≡ Ok value) }
    ensures refused { IfErr result (λ fault. fault ≡ Refusal.OutOfMemory) }
{
    made.map_err(|_| Refusal::OutOfMemory)
}

/// Returns whether a file is the one of a word that may be there.
fn is_of_word<H: Files>(rt: &H, path: &str, word: Option<&str>) -> bool
    ensures { result ≡ false
        → is_of_word path.now (option_map (λ w. w.now) word.entry) ≡ false }
{
    match word {
        Some(word) => is_one_file(rt, path, name_of(word)),
        None => false,
    }
}

/// Returns whether a file is the one that an option names, if one is named.
fn is_beside<H: Files>(rt: &H, path: &str, named: Option<&str>) -> bool
    ensures { result ≡ false
        → is_beside path.now (option_map (λ n. n.now) named.entry) ≡ false }
{
    match named {
        Some(named) => is_one_file(rt, path, named),
        None => false,
    }
}

/// Returns whether a file is one of the machine's other files.
fn is_other<H: Files>(rt: &H, path: &str, others: OtherFiles<'_>) -> bool
    ensures { result ≡ false → is_other path.now (others_view others.entry) ≡ false }
{
    is_of_word(rt, path, others.second)
        || is_of_word(rt, path, others.third)
        || is_of_word(rt, path, others.fourth)
}

/// Returns whether a file is one that the words of a session name.
fn is_named<H: Files>(rt: &H, words: &MonWords<'_>, path: &str) -> bool
    ensures { result ≡ false → is_named (mon_view words.now) path.now ≡ false }
{
    is_one_file(rt, path, words.file.file)
        || is_other(rt, path, words.others)
        || is_beside(rt, path, words.symbols)
        || is_beside(rt, path, words.debug_info)
}

/// Returns whether a session has read a file, or its debug information names it as a source.
///
/// Errors: `OutOfMemory` if an allocation fails.
fn is_own<H: Files + AllocGlobal>(
    rt: &H,
    words: &MonWords<'_>,
    places: &Places,
    path: &str,
) -> Result<bool, Refusal>
    ensures apart { IfOk result
        (λ is. is ≡ false → is_own (mon_view words.now) places.now path.now ≡ false) }
    ensures refused { IfErr result (λ fault. fault ≡ Refusal.OutOfMemory) }
{
    if is_named(rt, words, path) {
        return Ok(true);
    }
    is_source(rt, words.debug_info, words.source_root, Some(places), path)
}

/// Writes a text to a file. Where `front` is given, a file that is there is replaced only if it
/// begins so, or is empty.
fn write_over<H: Files + AllocGlobal>(
    rt: &H,
    path: &str,
    front: Option<&str>,
    text: &[u8],
) -> Result<(), Refusal> {
    if let Some(front) = front {
        check_replaced(rt, path, front.as_bytes())?;
    }
    write_file(rt, path, text)
}

/// Writes a text to a file as `write_over` does, and returns what has become of it.
///
/// Errors: `OutOfMemory` if an allocation fails.
fn write_text<H: Files + AllocGlobal>(
    rt: &H,
    path: &str,
    front: Option<&str>,
    text: &[u8],
) -> Result<Outcome, Refusal>
    ensures { IfErr result (λ fault. fault ≡ Refusal.OutOfMemory) }
{
    match write_over(rt, path, front, text) {
        Ok(()) => Ok(Outcome::Whole),
        Err(Refusal::OutOfMemory) => Err(Refusal::OutOfMemory),
        Err(Refusal::WriteFile(fault)) => Ok(Outcome::Not(fault)),
        Err(_) => Ok(Outcome::Not(WriteFault::Other)),
    }
}

/// Writes a text to a file, unless the session has read that file, or its debug information names
/// it as a source. A file that is there is replaced only by the whole text, and where `front` is
/// given only if it begins so, or is empty.
///
/// Errors: `OutOfMemory` if an allocation fails.
pub fn write_new<H: Files + AllocGlobal>(
    rt: &H,
    words: &MonWords<'_>,
    places: &Places,
    file: &[u8],
    front: Option<&str>,
    text: &[u8],
) -> Result<Outcome, Refusal>
    ensures apart { IfOk result (λ outcome. outcome ≡ Whole
        → is_own (mon_view words.now) places.now file.now ≡ false) }
    ensures refused { IfErr result (λ fault. fault ≡ Refusal.OutOfMemory) }
{
    let Ok(path) = str::from_utf8(file) else {
        return Ok(Outcome::Not(WriteFault::Other));
    };
    if is_own(rt, words, places, path)? {
        return Ok(Outcome::Own);
    }
    write_text(rt, path, front, text)
}

/// Says the name of a file, with a `?` for each control character.
///
/// Errors: `AllocError` if an allocation fails.
pub fn say_name(mon: &mut MonState, file: &[u8]) -> Result<(), AllocError>
    ensures shows { ShowsOnly mon.old mon.new }
    ensures said { OnOk result ((said : List ℕ) × Says said mon.old mon.new) }
{
    let Ok(name) = str::from_utf8(file) else {
        return mon.say(NOT_UTF8);
    };
    match put_shown(&mut mon.text, name) {
        Ok(()) => Ok(()),
        Err(_) => Err(AllocError),
    }
}

/// Says something behind the name of a file.
pub fn say_of(mon: &mut MonState, file: &[u8], words: &str) -> Result<(), AllocError>
    ensures shows { ShowsOnly mon.old mon.new }
    ensures said { OnOk result ((said : List ℕ) × Says said mon.old mon.new) }
{
    say_name(mon, file)?;
    mon.say(words)
}

/// Says behind a colon why a file is not written, if that is known, and ends the line.
fn say_reason(mon: &mut MonState, reason: &str) -> Result<(), AllocError>
    ensures shows { ShowsOnly mon.old mon.new }
    ensures said { OnOk result ((said : List ℕ) × Says said mon.old mon.new) }
{
    if reason.is_empty() {
        return mon.say("\n");
    }
    mon.say(":")?;
    mon.say(reason)?;
    mon.say("\n")
}

/// Says that a file cannot be written, and why.
pub fn say_failure(mon: &mut MonState, file: &[u8], fault: WriteFault) -> Result<(), AllocError>
    ensures shows { ShowsOnly mon.old mon.new }
    ensures said { OnOk result ((said : List ℕ) × Says said mon.old mon.new) }
{
    say_of(mon, file, NOT_WRITTEN)?;
    say_reason(mon, write_reason(fault))
}

/// Says that a file is one that the session has read.
pub fn say_own(mon: &mut MonState, file: &[u8]) -> Result<(), AllocError>
    ensures shows { ShowsOnly mon.old mon.new }
    ensures said { OnOk result ((said : List ℕ) × Says said mon.old mon.new) }
{
    say_of(mon, file, OWN_FILE)
}
