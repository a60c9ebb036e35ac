//! What a command line asks for.

ghost use Rattle.std.specs.Prelude.{◌≡◌, ◌≤◌, ◌∷◌, ◌++◌, [], MatchOption, codes, drop, false};
ghost use Rattle.std.specs.Prelude.{length, replicate, take};
ghost use Rattle.std.specs.Str.{bytes_eq};
ghost use Rattle.model.specs.Commands.{address_of, asm_command, bytes_of_words, command_of};
ghost use Rattle.model.specs.Commands.{decimal_of, dis_command, from_1_to, input_command};
ghost use Rattle.model.specs.Commands.{irq_command, mem_command, most_steps, number_command};
ghost use Rattle.model.specs.Commands.{patch_command, set_command, without_spaces, words_of};
ghost use Rattle.commands.specs.Groups.{long_command, pair_command, plain_command, triple_command};

use crate::numbers::{address_of, byte_of, number_up_to};
use crate::words::{next_word, without_spaces};
use model::{Command, Setting};

/// Reads a command line without its end. A line of more than 255 bytes is `Bad`.
///
/// Source: mos65.
#[tactic(auto, using(crate::proofs::Rows::plain_row, crate::proofs::Rows::long_row), unfolding(model::specs::Commands::command_of))]
pub fn parse(line: &[u8]) -> Command
    ensures { result ≡ command_of line.now }
{
    if line.len() > 255 {
        return Command::Bad;
    }
    let (first, behind) = next_word(line);
    let (second, rest) = next_word(behind);
    if is_text(first, b"asm") {
        return asm_command(address_of(second), without_spaces(rest));
    }
    let (third, rest) = next_word(rest);
    let (fourth, rest) = next_word(rest);
    if first.is_empty() {
        Command::Nothing
    } else if second.is_empty() {
        plain_command(first)
    } else if is_text(first, b"in") {
        input_command(behind)
    } else if third.is_empty() {
        pair_command(first, second)
    } else if fourth.is_empty() {
        triple_command(first, second, third)
    } else {
        long_command(first, second, third, fourth, rest)
    }
}

fn is_text(word: &[u8], text: &[u8]) -> bool
    ensures { result ≡ bytes_eq word.now text.now }
{
    word == text
}

/// Reads a command of one word.
#[tactic(auto, unfolding(crate::specs::Groups::plain_command))]
fn plain_command(word: &[u8]) -> Command
    ensures { result ≡ plain_command word.now }
{
    if is_text(word, b"regs") {
        Command::Regs
    } else if is_text(word, b"step") {
        Command::Step
    } else if is_text(word, b"reset") {
        Command::Reset
    } else if is_text(word, b"nmi") {
        Command::Nmi
    } else if is_text(word, b"out") {
        Command::Out
    } else if is_text(word, b"breaks") {
        Command::Breaks
    } else if is_text(word, b"quit") {
        Command::Quit
    } else {
        Command::Bad
    }
}

/// Reads a command of two words, but for `in`: the IRQ line's level, a number or an address.
#[tactic(auto, unfolding(crate::specs::Groups::pair_command))]
fn pair_command(word: &[u8], value: &[u8]) -> Command
    requires { bytes_eq word.now (codes "in") ≡ false }
    ensures { result ≡ pair_command word.now value.now }
{
    if is_text(word, b"irq") {
        irq_command(value)
    } else if is_text(word, b"run") {
        run_command(number_up_to(1_000_000, value))
    } else if is_text(word, b"back") {
        back_command(number_up_to(1_000_000, value))
    } else if is_text(word, b"break") {
        break_command(address_of(value))
    } else if is_text(word, b"unbreak") {
        unbreak_command(address_of(value))
    } else if is_text(word, b"watch") {
        watch_command(address_of(value))
    } else if is_text(word, b"unwatch") {
        unwatch_command(address_of(value))
    } else {
        Command::Bad
    }
}

/// Reads the IRQ line's level.
fn irq_command(level: &[u8]) -> Command
    ensures { result ≡ irq_command level.now }
{
    if is_text(level, b"0") {
        Command::Irq(false)
    } else if is_text(level, b"1") {
        Command::Irq(true)
    } else {
        Command::Bad
    }
}

/// Returns a run of so many steps.
fn run_command(value: Option<u32>) -> Command
    ensures { result ≡ number_command Command.Run value }
{
    match value {
        Some(value) => Command::Run(value),
        None => Command::Bad,
    }
}

/// Returns the undoing of so many events.
fn back_command(value: Option<u32>) -> Command
    ensures { result ≡ number_command Command.Back value }
{
    match value {
        Some(value) => Command::Back(value),
        None => Command::Bad,
    }
}

/// Returns the setting of a breakpoint.
fn break_command(value: Option<u16>) -> Command
    ensures { result ≡ number_command Command.Break value }
{
    match value {
        Some(value) => Command::Break(value),
        None => Command::Bad,
    }
}

/// Returns the clearing of a breakpoint.
fn unbreak_command(value: Option<u16>) -> Command
    ensures { result ≡ number_command Command.Unbreak value }
{
    match value {
        Some(value) => Command::Unbreak(value),
        None => Command::Bad,
    }
}

/// Returns the setting of a watchpoint.
fn watch_command(value: Option<u16>) -> Command
    ensures { result ≡ number_command Command.Watch value }
{
    match value {
        Some(value) => Command::Watch(value),
        None => Command::Bad,
    }
}

/// Returns the clearing of a watchpoint.
fn unwatch_command(value: Option<u16>) -> Command
    ensures { result ≡ number_command Command.Unwatch value }
{
    match value {
        Some(value) => Command::Unwatch(value),
        None => Command::Bad,
    }
}

/// Reads bytes of input, at most 16: all words of a line.
fn input_command(line: &[u8]) -> Command
    ensures { result ≡ input_command (bytes_of_words (words_of line.now)) }
{
    let mut bytes = [0u8; 16];
    let mut rest = line;
    for count in 0..16u8 {
        let (word, behind) = next_word(rest);
        if word.is_empty() {
            return Command::Input { bytes, count };
        }
        match byte_of(word) {
            Some(byte) => bytes[count as usize] = byte,
            None => return Command::Bad,
        }
        rest = behind;
    }
    let (word, _) = next_word(rest);
    if word.is_empty() {
        Command::Input { bytes, count: 16 }
    } else {
        Command::Bad
    }
}

/// Reads a command of three words, but for `in`.
#[tactic(auto, unfolding(crate::specs::Groups::triple_command))]
fn triple_command(word: &[u8], second: &[u8], third: &[u8]) -> Command
    requires { bytes_eq word.now (codes "in") ≡ false }
    ensures { result ≡ triple_command word.now second.now third.now }
{
    if is_text(word, b"mem") {
        mem_command(address_of(second), address_of(third))
    } else if is_text(word, b"set") {
        set_command(second, third)
    } else if is_text(word, b"patch") {
        patch_of_one(second, third)
    } else if is_text(word, b"dis") {
        dis_command(address_of(second), number_up_to(256, third))
    } else {
        Command::Bad
    }
}

/// Reads a command of four words or more, but for `in`: a patch of two bytes or three.
#[tactic(auto, unfolding(crate::specs::Groups::long_command))]
fn long_command(word: &[u8], second: &[u8], third: &[u8], fourth: &[u8], rest: &[u8]) -> Command
    requires { bytes_eq word.now (codes "in") ≡ false }
    ensures { result
        ≡ long_command word.now second.now (third.now ∷ fourth.now ∷ words_of rest.now) }
{
    if !is_text(word, b"patch") {
        return Command::Bad;
    }
    let (fifth, rest) = next_word(rest);
    let (sixth, _) = next_word(rest);
    if fifth.is_empty() {
        patch_of_two(second, third, fourth)
    } else if sixth.is_empty() {
        patch_of_three(second, third, fourth, fifth)
    } else {
        Command::Bad
    }
}

/// Returns the view of memory between two addresses, of which the second is at least as high.
fn mem_command(first: Option<u16>, last: Option<u16>) -> Command
    ensures { result ≡ mem_command first last }
{
    match (first, last) {
        (Some(first), Some(last)) if first <= last => Command::Mem { first, last },
        _ => Command::Bad,
    }
}

/// Returns the view of at most so many instructions from an address on.
fn dis_command(address: Option<u16>, count: Option<u32>) -> Command
    ensures { result ≡ dis_command address count }
{
    match (address, count) {
        (Some(address), Some(count)) => Command::Dis { address, count },
        _ => Command::Bad,
    }
}

/// Returns the assembling of a text at an address. The text must not be empty.
fn asm_command(address: Option<u16>, text: &[u8]) -> Command
    requires { length text.now ≤ 255 }
    ensures { result ≡ asm_command address text.now }
{
    match address {
        Some(address) if !text.is_empty() => Command::Asm {
            address,
            text: padded(text),
            count: text.len() as u8,
        },
        _ => Command::Bad,
    }
}

/// Returns a text with zeros after it.
fn padded(text: &[u8]) -> [u8; 255]
    requires { length text.now ≤ 255 }
    ensures { result ≡ take 255 (text.now ++ replicate 255 0) }
{
    let mut bytes = [0u8; 255];
    put_front(&mut bytes, text);
    bytes
}

/// Puts a text over the first of some bytes.
fn put_front(bytes: &mut [u8], text: &[u8])
    requires { length text.now ≤ length bytes.old }
    ensures { bytes.new ≡ text.now ++ drop (length text.now) bytes.old }
{
    bytes[..text.len()].copy_from_slice(text);
}

/// Reads a register and its new value.
fn set_command(name: &[u8], value: &[u8]) -> Command
    ensures { result ≡ set_command name.now value.now }
{
    match setting_of(name, value) {
        Some(setting) => Command::Set(setting),
        None => Command::Bad,
    }
}

/// Reads a register's name and its value: two hex digits, and four for PC.
#[tactic(auto, unfolding(model::specs::Commands::set_command))]
fn setting_of(name: &[u8], value: &[u8]) -> Option<Setting>
    ensures { MatchOption result (set_command name.now value.now ≡ Command.Bad)
        (λ setting. set_command name.now value.now ≡ Command.Set setting) }
{
    if is_text(name, b"A") {
        Some(Setting::A(byte_of(value)?))
    } else if is_text(name, b"X") {
        Some(Setting::X(byte_of(value)?))
    } else if is_text(name, b"Y") {
        Some(Setting::Y(byte_of(value)?))
    } else if is_text(name, b"S") {
        Some(Setting::S(byte_of(value)?))
    } else if is_text(name, b"P") {
        Some(Setting::P(byte_of(value)?))
    } else if is_text(name, b"PC") {
        Some(Setting::Pc(address_of(value)?))
    } else {
        None
    }
}

/// Reads a patch of one byte.
fn patch_of_one(address: &[u8], first: &[u8]) -> Command
    ensures { result ≡ patch_command (address_of address.now) (bytes_of_words (first.now ∷ [])) }
{
    match (address_of(address), byte_of(first)) {
        (Some(address), Some(first)) => Command::Patch {
            address,
            bytes: [first, 0, 0],
            count: 1,
        },
        _ => Command::Bad,
    }
}

/// Reads a patch of two bytes.
fn patch_of_two(address: &[u8], first: &[u8], second: &[u8]) -> Command
    ensures { result
        ≡ patch_command (address_of address.now) (bytes_of_words (first.now ∷ second.now ∷ [])) }
{
    match (address_of(address), byte_of(first), byte_of(second)) {
        (Some(address), Some(first), Some(second)) => Command::Patch {
            address,
            bytes: [first, second, 0],
            count: 2,
        },
        _ => Command::Bad,
    }
}

/// Reads a patch of three bytes.
fn patch_of_three(address: &[u8], first: &[u8], second: &[u8], third: &[u8]) -> Command
    ensures { result ≡ patch_command (address_of address.now)
        (bytes_of_words (first.now ∷ second.now ∷ third.now ∷ [])) }
{
    let bytes = (byte_of(first), byte_of(second), byte_of(third));
    match (address_of(address), bytes) {
        (Some(address), (Some(first), Some(second), Some(third))) => Command::Patch {
            address,
            bytes: [first, second, third],
            count: 3,
        },
        _ => Command::Bad,
    }
}
