//! `asm` without further files, as promised, with a second line where a file is not written.

ghost use Rattle.std.specs.Prelude.{◌≡◌, ◌≤◌, ◌++◌, None, Err, IfErr, false};
ghost use Rattle.std.specs.Result.{IsErrAnd};
ghost use Rattle.arguments.specs.FaultLines.{fault_line, named_line};
ghost use Rattle.arguments.specs.Files.{EndsWriting};
ghost use Rattle.arguments.specs.Statuses.{status_of};
ghost use Rattle.arguments.specs.declared.refusal.Refusal.TheVariants.{WriteFile};
ghost use Rattle.model.specs.State.{is_map};
ghost use Rattle.model.specs.Writers.{AppendsFront};
ghost use Rattle.model.specs.declared.bus_fault.BusFault.TheVariants.{BadMap};
ghost use Rattle.program.specs.Refusals.{EndsAsm};
ghost use Rattle.program.specs.Runs.{TellsMap};
ghost use Rattle.word_asm.specs.Plain.{IsToldPlainly, plain_lines};

use crate::run::{write_asked, write_named};
use arguments::{
    FileRefusal, Refusal, WriteFault, check_outputs, check_source, map_of, put, read_source,
    refuse, refuse_file,
};
use program::{AsmTexts, AsmWords, asm_texts};
use std::io::Write;
use std::rt::Files;

/// Returns the source of the words and its texts.
fn source_and_texts<H: Files + AllocGlobal>(
    rt: &H,
    words: &AsmWords<'_>,
) -> Result<(Vec<u8>, AsmTexts), Refusal>
    ensures bad_map { is_map None words.now.port ≡ false → result ≡ Err (Refusal.Map BadMap) }
    ensures refused { IfErr result
        (EndsAsm (record { profile = words.now.profile; rom = None; port = words.now.port })) }
{
    let map = map_of(words.profile, None, words.port)?;
    let source = read_source(rt, words.source)?;
    let is_listed = words.listing.is_some();
    let texts = asm_texts(rt.alloc(), source.as_slice(), &map, is_listed)?;
    Ok((source, texts))
}

/// Writes the tape's file, and then the listing's if there is a listing. None is written if one is
/// the source or both are one file, or if the source looks like a tape and one of them is there.
fn write_plainly<'a, H: Files + AllocGlobal>(
    rt: &H,
    words: &AsmWords<'a>,
    source: &[u8],
    texts: &AsmTexts,
) -> Result<(), FileRefusal<'a>>
    ensures only { IfErr result (λ why. EndsWriting why.refusal) }
{
    let written = [Some(words.tape), words.listing];
    check_outputs(rt, &[Some(words.source)], &written)?;
    check_source(rt, source, &written)?;
    write_named(rt, words.tape, texts.tape.as_slice())?;
    write_asked(rt, words.listing, &texts.listing)
}

/// Assembles a file and writes its tape and, if it is asked for, its listing, as `program` does.
///
/// Errors: why there is no tape or no listing, with the name of the file that is not written, or
/// else of the source.
fn assemble<'a, H: Files + AllocGlobal>(rt: &H, words: &AsmWords<'a>) -> Result<(), FileRefusal<'a>>
    ensures bad_map { is_map None words.now.port ≡ false
        → IsErrAnd result (λ why. why.refusal ≡ Refusal.Map BadMap) }
    ensures refused { IfErr result (λ why.
        EndsAsm (record { profile = words.now.profile; rom = None; port = words.now.port })
        why.refusal) }
{
    match source_and_texts(rt, words) {
        Ok((source, texts)) => write_plainly(rt, words, source.as_slice(), &texts),
        Err(refusal) => Err(FileRefusal {
            file: words.source,
            refusal,
        }),
    }
}

/// The fault line of a file that is not written.
const UNWRITTEN: &str = "mos65: WRITE\n";

/// Writes the fault line of a file that is not written, and behind it the line with its name and
/// the reason, or a beginning of both if a write fails.
fn put_unwritten<E: Write>(fault: WriteFault, file: &str, errors: &mut E)
    ensures { AppendsFront (E.contents errors.old) (E.contents errors.new)
        (fault_line (WriteFile fault) ++ named_line file.now (WriteFile fault)) }
{
    match put(errors, UNWRITTEN.as_bytes()) {
        Ok(()) => {
            refuse_file(Refusal::WriteFile(fault), file, errors);
        }
        Err(_) => {}
    }
}

/// Writes the fault line, and of a file that is not written which it is and why, and returns the
/// exit status, even if a line cannot be written.
fn refuse_plainly<E: Write>(why: FileRefusal<'_>, errors: &mut E) -> u8
    ensures status { result ≡ status_of why.entry.refusal }
    ensures told { AppendsFront (E.contents errors.old) (E.contents errors.new)
        (plain_lines why.entry.file.now why.entry.refusal) }
{
    match why.refusal {
        Refusal::WriteFile(fault) => {
            put_unwritten(fault, why.file, errors);
            why.refusal.status()
        }
        refusal => refuse(refusal, errors),
    }
}

/// Assembles the file of the words as `program` does, and returns the exit status: 0 if it is done,
/// 1 if the source is rejected, 2 if the port makes no map, 3 if memory ran out, 4 if reading or
/// writing failed. For each but 0 `errors` gets the fault line; the status is the same if that
/// cannot be written.
///
/// Behind the fault line of a file that is not written stands a line with its name and the reason.
pub fn asm_plainly<H: Files + AllocGlobal, E: Write>(
    rt: &H,
    words: &AsmWords<'_>,
    errors: &mut E,
) -> u8
    ensures status { result ≤ 4 }
    ensures quiet { result ≡ 0 → errors.new ≡ errors.old }
    ensures told { 1 ≤ result
        → IsToldPlainly result (E.contents errors.old) (E.contents errors.new) }
    ensures tells { TellsMap None words.now.port result }
{
    match assemble(rt, words) {
        Ok(()) => 0,
        Err(why) => refuse_plainly(why, errors),
    }
}
