//! What is written first.

ghost use Rattle.std.specs.Prelude.{◌≡◌, ◌++◌, IfErr, OnOk};
ghost use Rattle.word_mon.specs.Done.{EndsAnswer};
ghost use Rattle.word_mon.specs.Greeting.{greeting, greeting_of, has_hidden, has_image};
ghost use Rattle.word_mon.specs.Greeting.{hidden_flags, hidden_name, hidden_registers, hidden_text};
ghost use Rattle.word_mon.specs.Greeting.{hides_flag, hides_register, vector_text};
ghost use Rattle.mon_session.specs.Course.{ShowsOnly};

use crate::terminal::of_memory;
use crate::wording::{GREETING, HIDDEN, NO_VECTOR};
use arguments::{FileForm, Refusal};
use arguments_play::MonWords;
use formatting::push_text;
use mon_session::MonState;
use source_map::Names;
use std::alloc::AllocError;

/// Returns whether a name of the program is a register's. A, X and Y are reserved, so no name is
/// one of them.
#[tactic(auto, unfolding(crate::specs::Greeting::hides_register))]
fn hides_register(names: &Names) -> bool
    ensures { result ≡ hides_register names.now }
{
    names.address_of(b"S").is_some()
        || names.address_of(b"SP").is_some()
        || names.address_of(b"P").is_some()
        || names.address_of(b"PC").is_some()
}

/// Returns whether a name of the program is a flag's letter.
#[tactic(auto, unfolding(crate::specs::Greeting::hides_flag))]
fn hides_flag(names: &Names) -> bool
    ensures { result ≡ hides_flag names.now }
{
    names.address_of(b"N").is_some()
        || names.address_of(b"V").is_some()
        || names.address_of(b"D").is_some()
        || names.address_of(b"I").is_some()
        || names.address_of(b"Z").is_some()
        || names.address_of(b"C").is_some()
}

/// Returns whether a name of the program is a register's or a flag's.
fn has_hidden(names: &Names) -> bool
    ensures { result ≡ has_hidden names.now }
{
    hides_register(names) || hides_flag(names)
}

/// Appends a register or a flag behind a blank, if a name of the program is the same but for
/// capitals.
fn push_hidden_name(text: &mut Vec<u8>, names: &Names, word: &[u8]) -> Result<(), AllocError>
    ensures { OnOk result (text.new.items ≡ text.old.items ++ hidden_name names.now word.now) }
{
    if names.address_of(word).is_some() {
        text.push(b' ')?;
        text.extend_from_slice(word)?;
    }
    Ok(())
}

/// Appends the registers' names that the program has too.
#[tactic(auto, unfolding(crate::specs::Greeting::hidden_registers))]
fn push_hidden_registers(text: &mut Vec<u8>, names: &Names) -> Result<(), AllocError>
    ensures { OnOk result (text.new.items ≡ text.old.items ++ hidden_registers names.now) }
{
    push_hidden_name(text, names, b"S")?;
    push_hidden_name(text, names, b"SP")?;
    push_hidden_name(text, names, b"P")?;
    push_hidden_name(text, names, b"PC")
}

/// Appends the flags' letters that are names of the program too.
#[tactic(auto, unfolding(crate::specs::Greeting::hidden_flags))]
fn push_hidden_flags(text: &mut Vec<u8>, names: &Names) -> Result<(), AllocError>
    ensures { OnOk result (text.new.items ≡ text.old.items ++ hidden_flags names.now) }
{
    push_hidden_name(text, names, b"N")?;
    push_hidden_name(text, names, b"V")?;
    push_hidden_name(text, names, b"D")?;
    push_hidden_name(text, names, b"I")?;
    push_hidden_name(text, names, b"Z")?;
    push_hidden_name(text, names, b"C")
}

/// Appends which names of the program mean a register or a flag here, if one does.
fn push_hidden(text: &mut Vec<u8>, names: &Names) -> Result<(), AllocError>
    ensures { OnOk result (text.new.items ≡ text.old.items ++ hidden_text names.now) }
{
    if has_hidden(names) {
        push_text(text, HIDDEN)?;
        push_hidden_registers(text, names)?;
        push_hidden_flags(text, names)?;
        push_text(text, "\n")?;
    }
    Ok(())
}

/// Appends that there is no reset vector, if memory has none.
fn push_vector(text: &mut Vec<u8>, low: u8, high: u8) -> Result<(), AllocError>
    ensures { OnOk result (text.new.items ≡ text.old.items ++ vector_text low high) }
{
    if low == 0 && high == 0 {
        push_text(text, NO_VECTOR)?;
    }
    Ok(())
}

/// Appends what is written first. The line of the warnings is its last one.
#[tactic(auto, unfolding(crate::specs::Greeting::greeting))]
fn push_greeting(
    text: &mut Vec<u8>,
    names: &Names,
    low: u8,
    high: u8,
    warning_line: &[u8],
) -> Result<(), AllocError>
    ensures { OnOk result (text.new.items
        ≡ text.old.items ++ greeting names.now low high warning_line.now) }
{
    push_text(text, GREETING)?;
    push_hidden(text, names)?;
    push_vector(text, low, high)?;
    text.extend_from_slice(warning_line)
}

/// Returns whether words name an image: one file that is no source, or several.
fn has_image(words: &MonWords<'_>) -> bool
    ensures { result ≡ has_image words.now.file.form words.now.others.second }
{
    match (words.file.form, words.others.second) {
        (FileForm::Source, None) => false,
        _ => true,
    }
}

/// Says what is written first, if prompts are asked for: which lines help, which names of the
/// program mean registers or flags, that there is no reset vector, and how many warnings there are.
/// Without prompts it says of an image alone what was left out of it.
pub fn greet(
    mon: &mut MonState,
    words: &MonWords<'_>,
    prompts: bool,
    warning_line: &[u8],
) -> Result<(), Refusal>
    ensures shows { ShowsOnly mon.old mon.new }
    ensures said { OnOk result (mon.new.text.items ≡ mon.old.text.items ++ greeting_of prompts
        (has_image words.now.file.form words.now.others.second) mon.old.session.current
        mon.old.places.names warning_line.now) }
    ensures refused { IfErr result EndsAnswer }
{
    if prompts {
        let low = mon.session.peek(0xFFFC);
        let high = mon.session.peek(0xFFFD);
        let names = mon.places.names();
        return of_memory(push_greeting(&mut mon.text, names, low, high, warning_line));
    }
    if !has_image(words) {
        return Ok(());
    }
    of_memory(mon.text.extend_from_slice(warning_line))
}
