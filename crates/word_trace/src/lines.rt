//! How often the lines of a program were run, written to a file for lcov.

ghost use Rattle.std.specs.Prelude.{◌≡◌, IfErr, IfOk, option_map};
ghost use Rattle.arguments_play.specs.Trace.{trace_view};
ghost use Rattle.word_trace.specs.Lines.{lines_text};
ghost use Rattle.word_trace.specs.Traces.{IsApart, IsOfStreams};

use accesses::Tally;
use arguments::{Refusal, check_outputs, name_of, write_file};
use arguments_play::TraceWords;
use assembler::Assembly;
use debug_files::check_sources;
use source_map::Places;
use std::alloc::{AllocError, Global};
use std::rt::Files;
use trace_rows::{push_record, push_records};

/// Returns the name of another file of the machine, if there is one.
fn name_in(word: Option<&str>) -> Option<&str> {
    match word {
        None => None,
        Some(word) => Some(name_of(word)),
    }
}

/// Checks that the file for lcov, if one is asked for, is neither a file to run nor one of names or
/// of debug information, nor a source that this names.
///
/// Errors: `WriteFile` with `SameFile` where it is one of them, `OutOfMemory` if an allocation
/// fails.
#[tactic(auto, using(crate::proofs::Refusing::ends_writing))]
pub fn check_lines<H: Files + AllocGlobal>(
    rt: &H,
    words: &TraceWords<'_>,
    debug: Option<&Places>,
) -> Result<(), Refusal>
    ensures apart { IfOk result
        (λ _. IsApart (trace_view words.now) (option_map (λ p. p.now) debug.entry)) }
    ensures fault { IfErr result IsOfStreams }
{
    check_outputs(
        rt,
        &[Some(words.file.file), words.symbols, words.debug_info],
        &[words.lcov],
    )?;
    let others = words.others;
    check_outputs(
        rt,
        &[
            name_in(others.second),
            name_in(others.third),
            name_in(others.fourth),
        ],
        &[words.lcov],
    )?;
    check_sources(rt, words.debug_info, words.source_root, debug, words.lcov)?;
    Ok(())
}

/// Returns how often the lines of a program were run: of the files of its debug information, if it
/// has some, and otherwise of its source; no byte where it has neither.
fn lines_text(
    alloc: Global,
    file: &str,
    assembly: Option<&Assembly>,
    debug: Option<&Places>,
    tally: &Tally,
) -> Result<Vec<u8>, AllocError>
    ensures { IfOk result (λ text. text.items
        ≡ lines_text file.now (option_map (λ a. a.now) assembly.entry)
        (option_map (λ p. p.now) debug.entry) tally.now) }
{
    let mut text = Vec::new(alloc);
    match debug {
        Some(places) => push_records(&mut text, alloc, places, tally)?,
        None => match assembly {
            Some(assembly) => push_record(&mut text, alloc, file.as_bytes(), assembly, tally)?,
            None => {}
        },
    }
    Ok(text)
}

/// Writes how often each line was run, if a file for that is asked for.
///
/// Errors: `OutOfMemory` if an allocation fails, `WriteFile` if the file cannot be written; what it
/// held before is then still there.
#[tactic(auto, using(crate::proofs::Refusing::ends_writing))]
pub fn write_lines<H: Files + AllocGlobal>(
    rt: &H,
    words: &TraceWords<'_>,
    assembly: Option<&Assembly>,
    debug: Option<&Places>,
    tally: Option<&Tally>,
) -> Result<(), Refusal>
    ensures { IfErr result IsOfStreams }
{
    let (Some(path), Some(tally)) = (words.lcov, tally) else {
        return Ok(());
    };
    let text = lines_text(rt.alloc(), words.file.file, assembly, debug, tally).map_err(
        |_| Refusal::OutOfMemory,
    )?;
    write_file(rt, path, &text)?;
    Ok(())
}
