//! The commands `asm`, `dis` and `debug`: as promised, and with more options.

use crate::pipe::{Piped, Quiet, after_name};
use crate::routes::{Route, route_of};
use arguments::refused_words;
use program::{Words, program, read_words};
use standard_streams::Retrying;
use std::cell::Cell;
use std::io;
use word_asm::{asm_files, asm_plainly};
use word_convert::{debug_image, dis_image};
use word_debug::{strict_debug, strict_debug_image};
use word_dis::dis_source;

/// Serves `debug --strict`, and returns the exit status.
fn debug_strictly(rt: &HostRuntime, words: &[&str]) -> u8 {
    let (status, _) = strict_debug(
        rt,
        words,
        &mut Retrying::new(rt.reader()),
        io::writer(rt),
        &mut rt.stderr(),
    );
    status
}

/// Serves `debug --strict` with an image, and returns the exit status.
fn debug_strictly_on_image(rt: &HostRuntime, words: &[&str]) -> u8 {
    let (status, _) = strict_debug_image(
        rt,
        words,
        &mut Retrying::new(rt.reader()),
        io::writer(rt),
        &mut rt.stderr(),
    );
    status
}

/// Serves `debug` with an image, and returns the exit status.
fn debug_on_image(rt: &HostRuntime, words: &[&str]) -> u8 {
    debug_image(
        rt,
        words,
        &mut Retrying::new(rt.reader()),
        &mut io::writer(rt),
        &mut rt.stderr(),
    )
}

/// Serves words as `program` does, and returns the exit status.
fn serve_program(rt: &HostRuntime, words: &[&str]) -> u8 {
    program(
        rt,
        words,
        &mut Retrying::new(rt.reader()),
        &mut io::writer(rt),
        &mut rt.stderr(),
    )
}

/// Serves `asm`, `dis` and `debug` as promised, and returns the exit status. Behind the line of a
/// file that `asm` does not write stands which it is, and why.
fn serve_promised<'a>(rt: &HostRuntime, words: &'a [&'a str]) -> u8 {
    match read_words(rt.alloc(), words) {
        Ok(Words::Asm(words)) => asm_plainly(rt, &words, &mut rt.stderr()),
        Ok(Words::Dis(_)) => serve_program(rt, words),
        Ok(Words::Debug(_)) => serve_program(rt, words),
        Err(fault) => refused_words(fault, &mut io::writer(rt), &mut rt.stderr()),
    }
}

/// Serves `asm`, `dis` and `debug`, and returns the exit status. `words` begin with the command's
/// name.
pub fn serve(rt: &HostRuntime, words: &[&str], unread: &Cell<bool>) -> u8 {
    let rest = after_name(words);
    let mut output = Piped::new(io::writer(rt), unread);
    let mut errors = Quiet::new(rt.stderr(), unread);
    match route_of(words) {
        Route::DisImage => dis_image(rt, rest, &mut output, &mut errors),
        Route::DisSource => dis_source(rt, rest, &mut output, &mut errors),
        Route::AsmFiles => asm_files(rt, rest, &mut output, &mut errors),
        Route::StrictDebug => debug_strictly(rt, rest),
        Route::StrictImage => debug_strictly_on_image(rt, rest),
        Route::DebugImage => debug_on_image(rt, rest),
        _ => serve_promised(rt, words),
    }
}
