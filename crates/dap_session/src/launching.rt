//! How what a launch asks for is read.

ghost use Rattle.std.specs.Prelude.{◌≡◌, ◌≤◌, IfOk, Some, option_map};
ghost use Rattle.arguments.specs.Asked.{file_view};
ghost use Rattle.dap_session.specs.Options.{file_at, history_of, steps_of};
ghost use Rattle.dap_messages.specs.Seen.{launch_view, text_view};

use crate::fault::{Fault, refused};
use arguments::{FileWords, form_asked, form_for, name_of, port_asked, profile_asked, rom_asked};
use dap_messages::Launch;
use std::alloc::Global;

/// Returns how many events a launch lets be undone: 1,048,576 at most, and 65,536 where it gives no
/// number.
pub fn history_of(launch: &Launch) -> u32
    ensures value { result ≡ history_of (launch_view launch.now) }
    ensures most { result ≤ 1048576 }
{
    match launch.history {
        None => 65536,
        Some(count) if count < 1_048_576 => count as u32,
        Some(_) => 1_048_576,
    }
}

/// Returns the most steps of a run, if a launch gives a number of 32 bits.
pub fn steps_of(launch: &Launch) -> Option<u32>
    ensures { result ≡ steps_of (launch_view launch.now) }
{
    match launch.steps {
        Some(count) if count < 4_294_967_296 => Some(count as u32),
        _ => None,
    }
}

/// Returns a text that a launch has, if it has it.
pub fn text_of(text: &Option<String>) -> Option<&str>
    ensures { option_map (λ s. s.now) result ≡ text_view text.now }
{
    match text {
        Some(text) => Some(text.as_str()),
        None => None,
    }
}

/// Returns the words of the file that a launch names, and of its map.
///
/// Errors: `Refused` if it names no program, or gives an option a value that it cannot have.
pub fn file_words(alloc: Global, launch: &Launch) -> Result<FileWords<'_>, Fault>
    ensures { IfOk result
        (λ words. file_at (launch_view launch.now) ≡ Some (file_view words)) }
{
    let Some(word) = text_of(&launch.program) else {
        return Err(refused(alloc, "launch names no program"));
    };
    let Some(said) = form_asked(launch.tape, text_of(&launch.bin), launch.prg) else {
        return Err(refused(alloc, "one of tape, bin and prg is allowed"));
    };
    let Some(form) = form_for(word, said) else {
        return Err(refused(
            alloc,
            "the program's name tells its form: leave bin and prg out",
        ));
    };
    let Some(port) = port_asked(text_of(&launch.port)) else {
        return Err(refused(alloc, "port takes four hex digits, or none"));
    };
    let Some(rom) = rom_asked(text_of(&launch.rom)) else {
        return Err(refused(alloc, "rom takes two addresses, as C000-FFFF"));
    };
    let Some(profile) = profile_asked(text_of(&launch.profile)) else {
        return Err(refused(alloc, "profile takes N or C"));
    };
    Ok(FileWords {
        file: name_of(word),
        form,
        port,
        rom,
        profile,
        omits_fill: false,
    })
}
