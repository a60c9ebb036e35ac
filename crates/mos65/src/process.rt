//! The process: its words, its standard streams and its exit status.

ghost use Rattle.std.specs.Prelude.{◌≡◌};

use crate::pipe::UNREAD;
use crate::unreadable::unreadable_line;
use arguments::put;
use program::{process_words, unreadable_words, words_of};
use standard_streams::take_closed;
use std::cell::Cell;
use std::io;
use std::process::ExitCode;

/// Does what words ask for by the call `serve`, and returns the exit status: that of the call, or
/// 141 where nobody reads its output any more. The error stream then gets nothing of it.
///
/// `asm`, `dis` and `debug` as promised, `debug` with more options, and the words of editors say
/// that the output cannot be written, with the status 4.
fn serve_words<F: FnOnce(&[&str], &Cell<bool>) -> u8>(words: &[&str], serve: F) -> u8
    requires { F.IsAlwaysCallable serve }
{
    let unread = Cell::new(false);
    let status = serve(words, &unread);
    if unread.get() { UNREAD } else { status }
}

/// Does what the process's words ask for, and returns the exit status.
fn serve_own<F: FnOnce(&[&str], &Cell<bool>) -> u8>(rt: &HostRuntime, serve: F) -> io::Result<u8>
    requires { F.IsAlwaysCallable serve }
{
    let arguments = process_words(rt)?;
    let words = words_of(rt.alloc(), &arguments)?;
    Ok(serve_words(&words, serve))
}

/// Writes why the process's words cannot be read, and returns the exit status. Behind the fault
/// line stands which word is not UTF-8.
fn refuse_process(rt: &HostRuntime, error: &io::Error) -> u8 {
    let status = unreadable_words(error, &mut rt.stderr());
    if status == 2 {
        if let Ok(Some(line)) = unreadable_line(rt) {
            let _ = put(&mut rt.stderr(), line.as_slice());
        }
    }
    status
}

/// Does what the process's words ask for by the call `serve`, and returns the exit code.
///
/// `serve` is given the words, and a cell in which its outputs note that nobody reads them. Without
/// words that can be read it is not called: the status is then 3 if memory ran out, otherwise 2.
pub fn serve_process<F: FnOnce(&[&str], &Cell<bool>) -> u8>(rt: &HostRuntime, serve: F) -> ExitCode
    requires { F.IsAlwaysCallable serve }
{
    let _closed = take_closed(rt);
    let status = match serve_own(rt, serve) {
        Ok(status) => status,
        Err(error) => refuse_process(rt, &error),
    };
    ExitCode::from(status)
}
