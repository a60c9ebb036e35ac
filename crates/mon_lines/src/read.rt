//! From a line to what it asks for.

ghost use Rattle.std.specs.Prelude.{◌≡◌, [], IfErr, IfOk};
ghost use Rattle.std.specs.Option.{option_copied};
ghost use Rattle.mon_line_parts.specs.Reading.{flaw_view};
ghost use Rattle.mon_lines.specs.Parts.{is_register_or_flag, level_of, setting_by, setting_of};
ghost use Rattle.mon_lines.specs.Parts.{undoing_of, value_of};
ghost use Rattle.mon_lines.specs.Lines.{asks_for_registers, assembled_from, break_from};
ghost use Rattle.mon_lines.specs.Lines.{by_first_word, bytes_watched_from};
ghost use Rattle.mon_lines.specs.Lines.{command_view, decimal_address, deleted_from, displayed_from};
ghost use Rattle.mon_lines.specs.Lines.{going_from, helped_from, helped_on, instructions_from};
ghost use Rattle.mon_lines.specs.Lines.{is_back, is_long, is_setting, line_of, line_or_back, paged_from};
ghost use Rattle.mon_lines.specs.Lines.{screen_from, set_from, shown_from, sized_from, slip_about};
ghost use Rattle.mon_lines.specs.Lines.{undisplayed_from};
ghost use Rattle.mon_lines.specs.Lines.{may_have_hex, is_short_decimal, line_by, put_from, putting};
ghost use Rattle.mon_lines.specs.Lines.{moving, saved_from, saved_in, seeing, until_from};
ghost use Rattle.mon_lines.specs.Lines.{watched_from, whole_line};
ghost use Rattle.mon_line_parts.specs.Topics.{topic_of};

use crate::command::{Command, Drawing, Register, Undoing};
use crate::slip::Slip;
use crate::stretches::{ends_of, kind_of, shown_of, stretch_of, watched_register};
use crate::tests::{flag_of, register_of, tests_of, times_of};
use model::Setting;
use mon_line_parts::{
    Flaw, Lack, Places, Topic, address_of, after, after_word, bit_of, byte_of, bytes_of, count_of,
    file_of, is_empty, is_next, is_word, line_alone, nearest_of, number_in, past, skip, subject_of,
    topic_of, word_of,
};
use optable::{Mnemonic, Profile, mnemonic_in};

/// Reads `WHERE [if TESTS] [times N]`.
fn break_at<'a>(
    places: &Places,
    pc: u16,
    text: &'a [u8],
) -> Result<(Command<'a>, &'a [u8]), Flaw<'a>>
    ensures ok { IfOk result (λ p. break_from places.now pc text.now
        ≡ Ok (command_view p.0, p.1.now)) }
    ensures err { IfErr result (λ why. break_from places.now pc text.now ≡ Err (flaw_view why)) }
{
    let line = line_alone(places, text);
    let (address, rest) = address_of(places, pc, text)?;
    let (tests, rest) = tests_of(places, pc, rest)?;
    let (times, rest) = times_of(places, rest)?;
    let command = Command::Break {
        address,
        line,
        tests,
        times,
    };
    Ok((command, rest))
}

/// Reads `WHERE` or `WHERE..WHERE`, and `read`, `write` or `change` behind it.
fn watched_bytes<'a>(
    places: &Places,
    pc: u16,
    text: &'a [u8],
) -> Result<(Command<'a>, &'a [u8]), Flaw<'a>>
    ensures ok { IfOk result (λ p. bytes_watched_from places.now pc text.now
        ≡ Ok (command_view p.0, p.1.now)) }
    ensures err { IfErr result
        (λ why. bytes_watched_from places.now pc text.now ≡ Err (flaw_view why)) }
{
    let (stretch, rest) = stretch_of(places, pc, text)?;
    let (kind, rest) = kind_of(rest);
    Ok((Command::Watch { stretch, kind }, rest))
}

/// Reads what is watched: a register, or bytes.
fn watched<'a>(
    places: &Places,
    pc: u16,
    text: &'a [u8],
) -> Result<(Command<'a>, &'a [u8]), Flaw<'a>>
    ensures ok { IfOk result (λ p. watched_from places.now pc text.now
        ≡ Ok (command_view p.0, p.1.now)) }
    ensures err { IfErr result (λ why. watched_from places.now pc text.now ≡ Err (flaw_view why)) }
{
    match watched_register(word_of(text)) {
        Some(register) => Ok((Command::WatchRegister(register), after_word(text))),
        None => watched_bytes(places, pc, text),
    }
}

/// Reads what is deleted: the watch of a register, or what stands at an address or at a line.
fn deleted<'a>(
    places: &Places,
    pc: u16,
    text: &'a [u8],
) -> Result<(Command<'a>, &'a [u8]), Flaw<'a>>
    ensures ok { IfOk result (λ p. deleted_from places.now pc text.now
        ≡ Ok (command_view p.0, p.1.now)) }
    ensures err { IfErr result (λ why. deleted_from places.now pc text.now ≡ Err (flaw_view why)) }
{
    match watched_register(word_of(text)) {
        Some(register) => Ok((Command::DeleteRegister(register), after_word(text))),
        None => {
            let line = line_alone(places, text);
            let (address, rest) = address_of(places, pc, text)?;
            Ok((Command::Delete { address, line }, rest))
        }
    }
}

/// Reads the value of a register.
pub fn value_of<'a>(
    places: &Places,
    pc: u16,
    register: Register,
    text: &'a [u8],
) -> Result<(Setting, &'a [u8]), Flaw<'a>>
    ensures ok { IfOk result (λ p. value_of places.now pc register text.now ≡ Ok (p.0, p.1.now)) }
    ensures err { IfErr result
        (λ why. value_of places.now pc register text.now ≡ Err (flaw_view why)) }
{
    if let Register::Pc = register {
        let (address, rest) = address_of(places, pc, text)?;
        return Ok((Setting::Pc(address), rest));
    }
    let (byte, rest) = byte_of(places, text)?;
    let setting = match register {
        Register::A => Setting::A(byte),
        Register::X => Setting::X(byte),
        Register::Y => Setting::Y(byte),
        Register::S => Setting::S(byte),
        Register::P | Register::Pc => Setting::P(byte),
    };
    Ok((setting, rest))
}

/// Reads `REGISTER VALUE`.
fn setting_of<'a>(places: &Places, pc: u16, text: &'a [u8]) -> Result<(Setting, &'a [u8]), Flaw<'a>>
    ensures ok { IfOk result (λ p. setting_of places.now pc text.now ≡ Ok (p.0, p.1.now)) }
    ensures err { IfErr result (λ why. setting_of places.now pc text.now ≡ Err (flaw_view why)) }
{
    if is_empty(text) {
        return Err(Flaw::Missing(Lack::Register));
    }
    let word = word_of(text);
    match register_of(word) {
        Some(register) => value_of(places, pc, register, past(b'=', after_word(text))),
        None => Err(Flaw::Unreadable(word)),
    }
}

/// Reads the address whose byte is shown at each stop, if something is left.
fn displayed<'a>(
    places: &Places,
    pc: u16,
    text: &'a [u8],
) -> Result<(Command<'a>, &'a [u8]), Flaw<'a>>
    ensures ok { IfOk result (λ p. displayed_from places.now pc text.now
        ≡ Ok (command_view p.0, p.1.now)) }
    ensures err { IfErr result
        (λ why. displayed_from places.now pc text.now ≡ Err (flaw_view why)) }
{
    if is_empty(text) {
        return Ok((Command::Display(None), text));
    }
    let (address, rest) = address_of(places, pc, text)?;
    Ok((Command::Display(Some(address)), rest))
}

/// Reads the address whose byte is not shown any more.
fn undisplayed<'a>(
    places: &Places,
    pc: u16,
    text: &'a [u8],
) -> Result<(Command<'a>, &'a [u8]), Flaw<'a>>
    ensures ok { IfOk result (λ p. undisplayed_from places.now pc text.now
        ≡ Ok (command_view p.0, p.1.now)) }
    ensures err { IfErr result
        (λ why. undisplayed_from places.now pc text.now ≡ Err (flaw_view why)) }
{
    let (address, rest) = address_of(places, pc, text)?;
    Ok((Command::Undisplay(address), rest))
}

/// Reads `FLAG VALUE` or `REGISTER VALUE`.
fn set<'a>(places: &Places, pc: u16, text: &'a [u8]) -> Result<(Command<'a>, &'a [u8]), Flaw<'a>>
    ensures ok { IfOk result (λ p. set_from places.now pc text.now
        ≡ Ok (command_view p.0, p.1.now)) }
    ensures err { IfErr result (λ why. set_from places.now pc text.now ≡ Err (flaw_view why)) }
{
    match flag_of(word_of(text)) {
        Some(flag) => {
            let (value, rest) = bit_of(places, past(b'=', after_word(text)))?;
            Ok((Command::SetFlag { flag, value }, rest))
        }
        None => {
            let (setting, rest) = setting_of(places, pc, text)?;
            Ok((Command::Set(setting), rest))
        }
    }
}

/// Returns whether a word is the name of a register or a flag.
fn is_register_or_flag(word: &[u8]) -> bool
    ensures { result ≡ is_register_or_flag word.now }
{
    register_of(word).is_some() || flag_of(word).is_some()
}

/// Returns whether a text is the name of a register or a flag alone, and names no address.
fn asks_for_registers(places: &Places, text: &[u8]) -> bool
    ensures { result ≡ asks_for_registers places.now text.now }
{
    let word = word_of(text);
    is_register_or_flag(word)
        && !is_word(b"PC", text)
        && places.names().address_of(word).is_none()
        && is_empty(after_word(text))
}

/// Reads what is shown of memory. A register or a flag is shown by all registers.
fn shown<'a>(places: &Places, pc: u16, text: &'a [u8]) -> Result<(Command<'a>, &'a [u8]), Flaw<'a>>
    ensures ok { IfOk result (λ p. shown_from places.now pc text.now
        ≡ Ok (command_view p.0, p.1.now)) }
    ensures err { IfErr result (λ why. shown_from places.now pc text.now ≡ Err (flaw_view why)) }
{
    if asks_for_registers(places, text) {
        return Ok((Command::Regs, after_word(text)));
    }
    let (stretch, rest) = shown_of(places, pc, text)?;
    Ok((Command::Mem(stretch), rest))
}

/// Reads `on` or `off`, or a 1 or a 0.
fn level_of(text: &[u8]) -> Result<(bool, &[u8]), Flaw<'_>>
    ensures ok { IfOk result (λ p. level_of text.now ≡ Ok (p.0, p.1.now)) }
    ensures err { IfErr result (λ why. level_of text.now ≡ Err (flaw_view why)) }
{
    if is_word(b"on", text) || is_word(b"1", text) {
        Ok((true, after_word(text)))
    } else if is_word(b"off", text) || is_word(b"0", text) {
        Ok((false, after_word(text)))
    } else {
        Err(Flaw::Missing(Lack::Level))
    }
}

/// Reads `[WHERE] [N]`.
fn instructions<'a>(
    places: &Places,
    pc: u16,
    text: &'a [u8],
) -> Result<(Command<'a>, &'a [u8]), Flaw<'a>>
    ensures ok { IfOk result (λ p. instructions_from places.now pc text.now
        ≡ Ok (command_view p.0, p.1.now)) }
    ensures err { IfErr result
        (λ why. instructions_from places.now pc text.now ≡ Err (flaw_view why)) }
{
    let (address, rest) = if is_empty(text) {
        (pc, text)
    } else {
        address_of(places, pc, text)?
    };
    let (count, rest) = count_of(places, rest)?;
    let count = count.unwrap_or(10);
    Ok((Command::Dis { address, count }, rest))
}

/// Reads `[COLUMNS] [ROWS]`.
fn sized<'a>(places: &Places, text: &'a [u8]) -> Result<(Command<'a>, &'a [u8]), Flaw<'a>>
    ensures ok { IfOk result (λ p. sized_from places.now text.now
        ≡ Ok (command_view p.0, p.1.now)) }
    ensures err { IfErr result (λ why. sized_from places.now text.now ≡ Err (flaw_view why)) }
{
    let (columns, rest) = count_of(places, text)?;
    let (rows, rest) = count_of(places, rest)?;
    let columns = columns.unwrap_or(80);
    let rows = rows.unwrap_or(24);
    Ok((Command::Draw(Drawing::Size { columns, rows }), rest))
}

/// Reads what follows `screen`: nothing, `more`, `clear`, or columns and rows.
fn screened<'a>(places: &Places, text: &'a [u8]) -> Result<(Command<'a>, &'a [u8]), Flaw<'a>>
    ensures ok { IfOk result (λ p. screen_from places.now text.now
        ≡ Ok (command_view p.0, p.1.now)) }
    ensures err { IfErr result (λ why. screen_from places.now text.now ≡ Err (flaw_view why)) }
{
    if is_empty(text) {
        return Ok((Command::Screen, text));
    }
    if is_word(b"more", text) {
        return Ok((Command::Draw(Drawing::More), after_word(text)));
    }
    if is_word(b"clear", text) {
        return Ok((Command::Draw(Drawing::Clear), after_word(text)));
    }
    sized(places, text)
}

/// Reads what follows `back`.
fn undoing_of<'a>(places: &Places, text: &'a [u8]) -> Result<(Undoing, &'a [u8]), Flaw<'a>>
    ensures ok { IfOk result (λ p. undoing_of places.now text.now ≡ Ok (p.0, p.1.now)) }
    ensures err { IfErr result (λ why. undoing_of places.now text.now ≡ Err (flaw_view why)) }
{
    if is_word(b"over", text) {
        return Ok((Undoing::Over, after_word(text)));
    }
    let (count, rest) = count_of(places, text)?;
    Ok((Undoing::Events(count.unwrap_or(1)), rest))
}

/// Reads what follows `line`: `back`, or nothing.
fn line_or_back<'a>(text: &'a [u8]) -> (Command<'a>, &'a [u8])
    ensures { (command_view result.0, result.1.now) ≡ line_or_back text.now }
{
    if is_word(b"back", text) {
        return (Command::LineBack, after_word(text));
    }
    (Command::Line, text)
}

/// Reads what follows `go` or `run`.
fn going<'a>(places: &Places, pc: u16, text: &'a [u8]) -> Result<(Command<'a>, &'a [u8]), Flaw<'a>>
    ensures ok { IfOk result (λ p. going_from places.now pc text.now
        ≡ Ok (command_view p.0, p.1.now)) }
    ensures err { IfErr result (λ why. going_from places.now pc text.now ≡ Err (flaw_view why)) }
{
    if is_word(b"until", text) {
        return until(places, pc, after_word(text));
    }
    let (count, rest) = count_of(places, text)?;
    Ok((Command::Go(count), rest))
}

/// Reads the address to which a run goes.
fn until<'a>(places: &Places, pc: u16, text: &'a [u8]) -> Result<(Command<'a>, &'a [u8]), Flaw<'a>>
    ensures ok { IfOk result (λ p. until_from places.now pc text.now
        ≡ Ok (command_view p.0, p.1.now)) }
    ensures err { IfErr result (λ why. until_from places.now pc text.now ≡ Err (flaw_view why)) }
{
    let (address, rest) = address_of(places, pc, text)?;
    Ok((Command::Until(address), rest))
}

/// Reads `WHERE TEXT`.
fn assembled<'a>(
    places: &Places,
    pc: u16,
    text: &'a [u8],
) -> Result<(Command<'a>, &'a [u8]), Flaw<'a>>
    ensures ok { IfOk result (λ p. assembled_from places.now pc text.now
        ≡ Ok (command_view p.0, p.1.now)) }
    ensures err { IfErr result
        (λ why. assembled_from places.now pc text.now ≡ Err (flaw_view why)) }
{
    let (address, rest) = address_of(places, pc, text)?;
    if is_empty(rest) {
        return Err(Flaw::Missing(Lack::Instruction));
    }
    let (text, rest) = rest.split_at(rest.len());
    Ok((Command::Asm { address, text }, rest))
}

/// Reads `WHERE BYTES`.
fn put<'a>(places: &Places, pc: u16, text: &'a [u8]) -> Result<(Command<'a>, &'a [u8]), Flaw<'a>>
    ensures ok { IfOk result (λ p. put_from places.now pc text.now
        ≡ Ok (command_view p.0, p.1.now)) }
    ensures err { IfErr result (λ why. put_from places.now pc text.now ≡ Err (flaw_view why)) }
{
    let (address, rest) = address_of(places, pc, text)?;
    let (bytes, rest) = bytes_of(places, rest)?;
    Ok((Command::Put { address, bytes }, rest))
}

/// Reads what is saved in a file: all, or what lies between two addresses.
fn saved_in<'a>(
    places: &Places,
    pc: u16,
    file: &'a [u8],
    text: &'a [u8],
) -> Result<(Command<'a>, &'a [u8]), Flaw<'a>>
    ensures ok { IfOk result (λ p. saved_in places.now pc file.now text.now
        ≡ Ok (command_view p.0, p.1.now)) }
    ensures err { IfErr result
        (λ why. saved_in places.now pc file.now text.now ≡ Err (flaw_view why)) }
{
    if is_empty(text) {
        let stretch = None;
        return Ok((Command::Save { file, stretch }, text));
    }
    let (stretch, rest) = ends_of(places, pc, text)?;
    let stretch = Some(stretch);
    Ok((Command::Save { file, stretch }, rest))
}

/// Reads `FILE [WHERE WHERE]`.
fn saved<'a>(places: &Places, pc: u16, text: &'a [u8]) -> Result<(Command<'a>, &'a [u8]), Flaw<'a>>
    ensures ok { IfOk result (λ p. saved_from places.now pc text.now
        ≡ Ok (command_view p.0, p.1.now)) }
    ensures err { IfErr result (λ why. saved_from places.now pc text.now ≡ Err (flaw_view why)) }
{
    let (file, rest) = file_of(text);
    if is_empty(file) {
        return Err(Flaw::Missing(Lack::File));
    }
    saved_in(places, pc, file, rest)
}

/// Reads `FILE`.
fn paged(text: &[u8]) -> Result<(Command<'_>, &[u8]), Flaw<'_>>
    ensures ok { IfOk result (λ p. paged_from text.now ≡ Ok (command_view p.0, p.1.now)) }
    ensures err { IfErr result (λ why. paged_from text.now ≡ Err (flaw_view why)) }
{
    let (file, rest) = file_of(text);
    if is_empty(file) {
        return Err(Flaw::Missing(Lack::File));
    }
    Ok((Command::Page(file), rest))
}

/// Reads the word behind `help`: a mnemonic if it is one. `rest` is what is left, which is nothing.
fn helped_on<'a>(
    word: &'a [u8],
    rest: &'a [u8],
    mnemonic: Option<Mnemonic>,
) -> Result<(Command<'a>, &'a [u8]), Flaw<'a>>
    requires { rest.now ≡ [] }
    ensures ok { IfOk result (λ p. helped_on word.now mnemonic ≡ Ok (command_view p.0, p.1.now)) }
    ensures err { IfErr result (λ why. helped_on word.now mnemonic ≡ Err (flaw_view why)) }
{
    if let Some(mnemonic) = mnemonic {
        return Ok((Command::Forms(mnemonic), rest));
    }
    match topic_of(word) {
        (Some(topic), _) => Ok((Command::Help(Some(topic)), rest)),
        (None, true) => Err(Flaw::Several(word)),
        (None, false) => Err(Flaw::Unknown(word)),
    }
}

/// Reads what follows `help`.
fn helped<'a>(text: &'a [u8]) -> Result<(Command<'a>, &'a [u8]), Flaw<'a>>
    ensures ok { IfOk result (λ p. helped_from text.now ≡ Ok (command_view p.0, p.1.now)) }
    ensures err { IfErr result (λ why. helped_from text.now ≡ Err (flaw_view why)) }
{
    if is_empty(text) {
        return Ok((Command::Help(None), text));
    }
    let word = word_of(text);
    let (_, rest) = text.split_at(text.len());
    if is_word(b"all", text) {
        return Ok((Command::Help(Some(Topic::Help)), rest));
    }
    helped_on(word, rest, mnemonic_in(Profile::C, word))
}

/// Reads what follows a word that moves the session.
fn moving<'a>(
    topic: Topic,
    places: &Places,
    pc: u16,
    text: &'a [u8],
) -> Result<(Command<'a>, &'a [u8]), Flaw<'a>>
    ensures ok { IfOk result (λ p. moving places.now pc text.now topic
        ≡ Ok (command_view p.0, p.1.now)) }
    ensures err { IfErr result (λ why. moving places.now pc text.now topic ≡ Err (flaw_view why)) }
{
    match topic {
        Topic::Step => {
            let (count, rest) = count_of(places, text)?;
            Ok((Command::Step(count.unwrap_or(1)), rest))
        }
        Topic::Over => Ok((Command::Over, text)),
        Topic::Out => Ok((Command::Out, text)),
        Topic::Line => Ok(line_or_back(text)),
        Topic::Until => until(places, pc, text),
        Topic::Go => going(places, pc, text),
        Topic::Back => {
            let (undoing, rest) = undoing_of(places, text)?;
            Ok((Command::Back(undoing), rest))
        }
        Topic::Rback => Ok((Command::Rback, text)),
        Topic::Redo => {
            let (count, rest) = count_of(places, text)?;
            Ok((Command::Redo(count), rest))
        }
        Topic::Irq => {
            let (level, rest) = level_of(text)?;
            Ok((Command::Irq(level), rest))
        }
        Topic::Nmi => Ok((Command::Nmi, text)),
        Topic::Reset => Ok((Command::Reset, text)),
        _ => seeing(topic, places, pc, text),
    }
}

/// Reads what follows a word that shows something, or sets or clears a stop.
fn seeing<'a>(
    topic: Topic,
    places: &Places,
    pc: u16,
    text: &'a [u8],
) -> Result<(Command<'a>, &'a [u8]), Flaw<'a>>
    ensures ok { IfOk result (λ p. seeing places.now pc text.now topic
        ≡ Ok (command_view p.0, p.1.now)) }
    ensures err { IfErr result (λ why. seeing places.now pc text.now topic ≡ Err (flaw_view why)) }
{
    match topic {
        Topic::Where => Ok((Command::Where, text)),
        Topic::Locals => {
            let (count, rest) = count_of(places, text)?;
            Ok((Command::Locals(count), rest))
        }
        Topic::History => {
            let (count, rest) = count_of(places, text)?;
            Ok((Command::History(count.unwrap_or(10)), rest))
        }
        Topic::Break => break_at(places, pc, text),
        Topic::Watch => watched(places, pc, text),
        Topic::List => Ok((Command::List, text)),
        Topic::Delete => deleted(places, pc, text),
        Topic::Display => displayed(places, pc, text),
        Topic::Undisplay => undisplayed(places, pc, text),
        Topic::Regs => Ok((Command::Regs, text)),
        Topic::Flags => Ok((Command::Flags, text)),
        Topic::Mem => shown(places, pc, text),
        Topic::Dis => instructions(places, pc, text),
        Topic::Find => {
            let (bytes, rest) = bytes_of(places, text)?;
            Ok((Command::Find(bytes), rest))
        }
        Topic::Stack => Ok((Command::Stack, text)),
        Topic::Screen => screened(places, text),
        _ => putting(topic, places, pc, text),
    }
}

/// Reads what follows a word that puts something.
fn putting<'a>(
    topic: Topic,
    places: &Places,
    pc: u16,
    text: &'a [u8],
) -> Result<(Command<'a>, &'a [u8]), Flaw<'a>>
    ensures ok { IfOk result (λ p. putting places.now pc text.now topic
        ≡ Ok (command_view p.0, p.1.now)) }
    ensures err { IfErr result (λ why. putting places.now pc text.now topic ≡ Err (flaw_view why)) }
{
    match topic {
        Topic::Set => set(places, pc, text),
        Topic::Put => put(places, pc, text),
        Topic::Asm => assembled(places, pc, text),
        Topic::Type => {
            let (bytes, rest) = bytes_of(places, text)?;
            Ok((Command::Type(bytes), rest))
        }
        Topic::Save => saved(places, pc, text),
        Topic::Reload => Ok((Command::Reload, text)),
        Topic::Help => helped(text),
        Topic::Page => paged(text),
        Topic::Trace => Ok((Command::Help(Some(topic)), text)),
        _ => Ok((Command::Quit, text)),
    }
}

/// Whether a line is too long to ask for something.
fn is_long(line: &[u8]) -> bool
    ensures { result ≡ is_long line.now }
{
    line.len() > 255
}

/// Whether a line about a topic has behind its first word a number that may be meant as a hex one:
/// an address, or a byte that is looked for.
fn may_have_hex(topic: Option<Topic>) -> bool
    ensures { result ≡ may_have_hex topic }
{
    match topic {
        Some(Topic::Break | Topic::Watch | Topic::Mem | Topic::Dis) => true,
        Some(Topic::Until | Topic::Delete | Topic::Put | Topic::Asm) => true,
        Some(Topic::Display | Topic::Undisplay | Topic::Find) => true,
        _ => false,
    }
}

/// Whether a word has two or three decimal digits, and nothing else.
fn is_short_decimal(word: &[u8]) -> bool
    ensures { result ≡ is_short_decimal word.now }
{
    (word.len() == 2 || word.len() == 3) && number_in(10, word).is_some()
}

/// Returns the decimal digits that stand where a line has an address or a byte that is looked for,
/// if there are two or three: a reader may mean a hex number.
#[tactic(auto, unfolding(crate::specs::Lines::decimal_address))]
pub fn decimal_address<'a>(line: &'a [u8]) -> Option<&'a [u8]>
    ensures { option_copied result ≡ decimal_address line.now }
{
    if is_long(line) {
        return None;
    }
    let text = skip(line);
    let (topic, _) = topic_of(word_of(text));
    let word = word_of(after_word(text));
    if may_have_hex(topic) && is_short_decimal(word) {
        Some(word)
    } else {
        None
    }
}

/// Returns what a slip is about in a line about a topic: of `page` no example is shown.
fn slip_about(topic: Topic) -> Option<Topic>
    ensures { result ≡ slip_about topic }
{
    match topic {
        Topic::Page => None,
        _ => Some(topic),
    }
}

/// Reads the whole line about a topic.
fn line_about<'a>(
    topic: Topic,
    places: &Places,
    pc: u16,
    text: &'a [u8],
) -> Result<Command<'a>, Slip<'a>>
    ensures ok { IfOk result (λ command. whole_line topic (moving places.now pc text.now topic)
        ≡ Ok (command_view command)) }
    ensures err { IfErr result (λ slip. whole_line topic (moving places.now pc text.now topic)
        ≡ Err (slip.topic, flaw_view slip.flaw)) }
{
    match moving(topic, places, pc, text) {
        Ok((command, rest)) => {
            if is_empty(rest) {
                Ok(command)
            } else {
                Err(Slip {
                    topic: slip_about(topic),
                    flaw: Flaw::Behind(rest),
                })
            }
        }
        Err(flaw) => Err(Slip {
            topic: slip_about(topic),
            flaw,
        }),
    }
}

/// Reads a line by its first word, the topic of the word and the text behind it.
fn line_by<'a>(
    places: &Places,
    pc: u16,
    line: &'a [u8],
    word: &'a [u8],
    rest: &'a [u8],
    topics: (Option<Topic>, bool),
) -> Result<Command<'a>, Slip<'a>>
    ensures ok { IfOk result (λ command. line_by places.now pc line.now word.now rest.now
        topics ≡ Ok (command_view command)) }
    ensures err { IfErr result (λ slip. line_by places.now pc line.now word.now rest.now
        topics ≡ Err (slip.topic, flaw_view slip.flaw)) }
{
    match topics {
        (Some(topic), _) => line_about(topic, places, pc, rest),
        (None, true) => Err(Slip {
            topic: None,
            flaw: Flaw::Several(word),
        }),
        (None, false) => Err(Slip {
            topic: nearest_of(word),
            flaw: Flaw::Unknown(if is_empty(word) { line } else { word }),
        }),
    }
}

/// Returns whether a text is `b` alone.
fn is_back(text: &[u8]) -> bool
    ensures { result ≡ is_back text.now }
{
    is_word(b"b", text) && is_empty(after_word(text))
}

/// Returns whether a text begins with a register or a flag and `=`.
fn is_setting(text: &[u8]) -> bool
    ensures { result ≡ is_setting text.now }
{
    is_register_or_flag(word_of(text)) && is_next(b'=', after_word(text))
}

/// Reads a line by its first word, or `?`. Behind `info` the next word counts.
fn by_first_word<'a>(
    places: &Places,
    pc: u16,
    line: &'a [u8],
    text: &'a [u8],
) -> Result<Command<'a>, Slip<'a>>
    ensures ok { IfOk result (λ command. by_first_word places.now pc line.now text.now
        ≡ Ok (command_view command)) }
    ensures err { IfErr result (λ slip. by_first_word places.now pc line.now text.now
        ≡ Err (slip.topic, flaw_view slip.flaw)) }
{
    if is_next(b'?', text) {
        return line_by(places, pc, line, b"?", after(1, text), topic_of(b"?"));
    }
    let word = word_of(text);
    let rest = after_word(text);
    if is_word(b"info", text) {
        let subject = word_of(rest);
        let topics = (subject_of(subject), false);
        return line_by(places, pc, line, subject, after_word(rest), topics);
    }
    line_by(places, pc, line, word, rest, topic_of(word))
}

/// Returns what a line asks for, or what is missing or wrong in it. Names are those of the places,
/// `PC` is the program counter.
#[tactic(auto, unfolding(crate::specs::Lines::line_of))]
pub fn read_line<'a>(line: &'a [u8], places: &Places, pc: u16) -> Result<Command<'a>, Slip<'a>>
    ensures ok { IfOk result (λ command. line_of places.now pc line.now
        ≡ Ok (command_view command)) }
    ensures err { IfErr result (λ slip. line_of places.now pc line.now
        ≡ Err (slip.topic, flaw_view slip.flaw)) }
{
    if is_long(line) {
        return Err(Slip {
            topic: None,
            flaw: Flaw::Long,
        });
    }
    let text = skip(line);
    if is_empty(text) {
        return Ok(Command::Nothing);
    }
    if is_back(text) {
        return Ok(Command::Back(Undoing::Events(1)));
    }
    if is_setting(text) {
        return line_about(Topic::Set, places, pc, text);
    }
    by_first_word(places, pc, line, text)
}
