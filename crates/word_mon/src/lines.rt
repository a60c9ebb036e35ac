//! The lines of the input, and the loop that serves them.

ghost use Rattle.std.specs.Prelude.{◌≡◌, ◌∷◌, ◌++◌, [], ℕ, List, Bool, Ok, Err, IfErr, IfOk};
ghost use Rattle.std.specs.Io.BufRead.{strip_last};
ghost use Rattle.std.specs.Io.KnownBytes.{Appends};
ghost use Rattle.word_mon.specs.Attended.{AttendsInPart, EndsLines, IsAttended, IsAttendedSoFar};
ghost use Rattle.word_mon.specs.Attended.{ServesLine, line_end_of, prompt_of};
ghost use Rattle.word_mon.specs.Done.{EndsAnswer, EndsSession};
ghost use Rattle.word_mon.specs.Pieces.{BreaksBytes, BreaksEnd, BreaksLine, GoesOn, ServesPiece};
ghost use Rattle.word_mon.specs.Screens.{answer_text};
ghost use Rattle.word_mon.specs.declared.terminal.Terminal.{Terminal};

use crate::terminal::{Terminal, answer, put_text, say_if, serve_line};
use crate::wording::PROMPT;
use arguments::{ReadFault, Refusal};
use arrayvec::ArrayVec;
use std::io::{Read, Write};
use std::rt::Files;

/// The beginning of a line that has not ended yet: no more than its first 257 bytes.
///
/// The longest line has 255, one more may be its CR, and one more makes it too long.
type Begun = ArrayVec<u8, 257>;

/// Returns a line that has ended without the CR at its end.
fn line_of(begun: &Begun) -> &[u8]
    ensures { result.now ≡ strip_last 13 begun.now.items }
{
    match begun.as_slice() {
        [line @ .., b'\r'] => line,
        line => line,
    }
}

/// Serves a line that has ended, and begins the next one. Returns whether the session is to end.
fn serve_begun<H: Files + AllocGlobal, W: Write>(
    rt: &H,
    terminal: &mut Terminal<'_>,
    prompts: bool,
    begun: &mut Begun,
    writer: &mut W,
) -> Result<bool, Refusal>
    ensures served { IfOk result (λ is_over. (said : List ℕ)
        × ServesLine (strip_last 13 begun.old.items) is_over terminal.old terminal.new said
        × Appends (W.contents writer.old) (W.contents writer.new) (answer_text is_over
        (prompt_of prompts) terminal.new (terminal.old.mon.text.items ++ said))) }
    ensures cleared { IfOk result (λ _. begun.new.items ≡ []) }
    ensures written { IfOk result (λ _. terminal.new.mon.text.items ≡ []) }
    ensures broken { IfErr result (λ _. BreaksLine (prompt_of prompts)
        (strip_last 13 begun.old.items) terminal.old (W.contents writer.old)
        (W.contents writer.new)) }
    ensures refused { IfErr result EndsAnswer }
{
    let is_over = serve_line(rt, terminal, line_of(begun))?;
    begun.clear();
    answer(rt.alloc(), terminal, prompts, is_over)?;
    put_text(terminal, writer)?;
    Ok(is_over)
}

/// Serves one byte of the input. Returns whether the session is to end.
fn serve_byte<H: Files + AllocGlobal, W: Write>(
    rt: &H,
    terminal: &mut Terminal<'_>,
    prompts: bool,
    begun: &mut Begun,
    byte: u8,
    writer: &mut W,
) -> Result<bool, Refusal>
    ensures fed { IfOk result (λ is_over. (more : List ℕ) × ServesPiece (record {
      bytes = byte ∷ [];
      prompt = prompt_of prompts;
      old = terminal.old;
      kept = begun.old.items;
      new = terminal.new;
      kept_then = begun.new.items;
      is_over = is_over;
      written = more;
    })
        × (terminal.old.mon.text.items ≡ []
        → Appends (W.contents writer.old) (W.contents writer.new) more)) }
    ensures written { IfOk result
        (λ _. terminal.old.mon.text.items ≡ [] → terminal.new.mon.text.items ≡ []) }
    ensures broken { IfErr result (λ _. BreaksBytes (prompt_of prompts) (byte ∷ [])
        begun.old.items terminal.old (W.contents writer.old) (W.contents writer.new)) }
    ensures refused { IfErr result EndsAnswer }
{
    if byte == b'\n' {
        return serve_begun(rt, terminal, prompts, begun, writer);
    }
    if begun.len() < 257 {
        begun.push(byte);
    }
    Ok(false)
}

/// Serves some bytes of the input. Returns whether the session is to end.
fn serve_bytes<H: Files + AllocGlobal, W: Write>(
    rt: &H,
    terminal: &mut Terminal<'_>,
    prompts: bool,
    begun: &mut Begun,
    bytes: &[u8],
    writer: &mut W,
) -> Result<bool, Refusal>
    ensures fed { IfOk result (λ is_over. (more : List ℕ) × ServesPiece (record {
      bytes = bytes.now;
      prompt = prompt_of prompts;
      old = terminal.old;
      kept = begun.old.items;
      new = terminal.new;
      kept_then = begun.new.items;
      is_over = is_over;
      written = more;
    })
        × (terminal.old.mon.text.items ≡ []
        → Appends (W.contents writer.old) (W.contents writer.new) more)) }
    ensures written { IfOk result
        (λ _. terminal.old.mon.text.items ≡ [] → terminal.new.mon.text.items ≡ []) }
    ensures broken { IfErr result (λ _. BreaksBytes (prompt_of prompts) bytes.now
        begun.old.items terminal.old (W.contents writer.old) (W.contents writer.new)) }
    ensures refused { IfErr result EndsAnswer }
{
    for byte in bytes {
        if serve_byte(rt, terminal, prompts, begun, *byte, writer)? {
            return Ok(true);
        }
    }
    Ok(false)
}

/// Serves what is left at the end of the input. No screen is drawn any more.
fn serve_last<H: Files + AllocGlobal, W: Write>(
    rt: &H,
    terminal: &mut Terminal<'_>,
    prompts: bool,
    begun: &mut Begun,
    writer: &mut W,
) -> Result<(), Refusal>
    ensures served { IfOk result (λ _. (rest : List ℕ)
        × Appends (W.contents writer.old) (W.contents writer.new)
        (terminal.old.mon.text.items ++ (line_end_of prompts ++ rest))
        × ((told : List ℕ) (first : Terminal) (before : List ℕ)
        → GoesOn (prompt_of prompts) told begun.old.items first terminal.old before
        → (is_over : Bool) × EndsLines (prompt_of prompts) (line_end_of prompts) told is_over
        first terminal.new (before ++ (line_end_of prompts ++ rest)))) }
    ensures written { IfOk result (λ _. terminal.new.mon.text.items ≡ []) }
    ensures broken { IfErr result (λ _. BreaksEnd (prompt_of prompts) (line_end_of prompts)
        begun.old.items terminal.old (W.contents writer.old) (W.contents writer.new)) }
    ensures refused { IfErr result EndsAnswer }
{
    say_if(terminal, prompts, "\n")?;
    terminal.view = None;
    if begun.is_empty() {
        return put_text(terminal, writer);
    }
    serve_begun(rt, terminal, false, begun, writer)?;
    Ok(())
}

/// Serves the lines that the reader reads, up to `quit` or its end. What a line is answered with is
/// written and flushed before the reader is asked again.
///
/// # Errors
///
/// - `Read`: a read failed. The complete lines read so far have been served.
/// - `Write`: a write or a flush failed.
/// - `OutOfMemory`: an allocation failed.
///
/// At the last two, a beginning of what is said of lines that were read was written.
pub fn attend<H: Files + AllocGlobal, R: Read, W: Write>(
    rt: &H,
    terminal: &mut Terminal<'_>,
    prompts: bool,
    reader: &mut R,
    writer: &mut W,
) -> Result<(), Refusal>
    ensures attended { IfOk result (λ _. (written : List ℕ)
        × IsAttended prompts (R.remaining reader.old) (R.remaining reader.new) terminal.old
        terminal.new written
        × Appends (W.contents writer.old) (W.contents writer.new)
        (terminal.old.mon.text.items ++ written)) }
    ensures unread { result ≡ Err (Refusal.Read ReadFault.Other) → (written : List ℕ)
        × IsAttendedSoFar prompts (R.remaining reader.old) (R.remaining reader.new) terminal.old
        terminal.new written
        × Appends (W.contents writer.old) (W.contents writer.new)
        (terminal.old.mon.text.items ++ written) }
    ensures broken { IfErr result (λ _. AttendsInPart prompts terminal.old.mon.text.items
        terminal.old (R.remaining reader.old) (R.remaining reader.new)
        (W.contents writer.old) (W.contents writer.new)) }
    ensures written { IfOk result (λ _. terminal.new.mon.text.items ≡ []) }
    ensures refused { IfErr result EndsSession }
{
    say_if(terminal, prompts, PROMPT)?;
    put_text(terminal, writer)?;
    let mut begun = Begun::new();
    let mut chunk = [0u8; 512];
    for _ in 0..u64::MAX {
        match reader.read(&mut chunk) {
            Ok(0) => return serve_last(rt, terminal, prompts, &mut begun, writer),
            Ok(n) => {
                if serve_bytes(rt, terminal, prompts, &mut begun, &chunk[..n], writer)? {
                    return Ok(());
                }
            }
            Err(_) => return Err(Refusal::Read(ReadFault::Other)),
        }
    }
    Err(Refusal::Read(ReadFault::Other))
}
