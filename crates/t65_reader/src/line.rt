//! One line of a test file.

ghost use Rattle.std.specs.Prelude.{◌≤◌, ◌≡◌, ◌≢◌, IfErr, IfOk, None, Option, Some, MatchOption};
ghost use Rattle.std.specs.Prelude.{length};
ghost use Rattle.std.specs.Option.{option_map};
ghost use Rattle.t65_reader.specs.CCalls.{prepared_view};
ghost use Rattle.t65_reader.specs.CPrograms.{callee_view, program_view};
ghost use Rattle.t65_reader.specs.RowText.{after_arrow, c_call_of, called_function, row_at};
ghost use Rattle.t65_reader.specs.RowText.{side_of, subroutine_of};
ghost use Rattle.t65_reader.specs.RowText.{after_dots, around_of, call_of, call_view, called_of};
ghost use Rattle.t65_reader.specs.RowText.{asked_for, asking_view, behind_word, is_around, is_call};
ghost use Rattle.t65_reader.specs.RowText.{is_hidden, is_left_out, is_picked, points_after};
ghost use Rattle.t65_reader.specs.RowText.{points_before, points_in, routine_in, routine_of, seeded};
ghost use Rattle.t65_reader.specs.RowText.{unhidden, worth_of};
ghost use Rattle.t65_reader.specs.RowText.{chosen_of, count_of, cycle_of, drawn_of, entered_of};
ghost use Rattle.t65_reader.specs.RowText.{letter_of};
ghost use Rattle.t65_reader.specs.RowText.{letters_of, line_at, requested_of, time_of};
ghost use Rattle.t65_reader.specs.RowText.{line_of, next_range, no_ranges, part_of, pointed_row_of};
ghost use Rattle.t65_reader.specs.RowText.{random_of, range_between, range_letter, range_of};
ghost use Rattle.t65_reader.specs.RowText.{ranges_of, row_of, row_view, row_with, seed_of};
ghost use Rattle.t65_reader.specs.RowText.{values_of};
ghost use Rattle.t65_values.specs.ValueText.{after_word, word_of};

use crate::c_call::{PreparedCall, append, arguments_of, items_from, number_at, prepared_of};
use crate::c_program::{CProgram, Callee, callee_of};
use crate::c_result::result_items;
use crate::item::{Side, is_arrow, items_of};
use crate::row::{
    Asking, Call, Choice, Entry, MOST_STEPS, Part, Range, Ranges, Request, Row, Signal,
};
use crate::sequence::without_first;
use assembler::Assembly;
use std::alloc::Global;
use t65_values::{
    Base, Letters, RowFault, RowFaultKind, Value, address_of, after, after_sign, after_word, ends,
    fault_at, hex_of, is_next, is_text, number_of, skip_blanks, value_of, word_of,
};

fn letter_of(range: Option<Range>) -> Option<u8>
    ensures { result ≡ letter_of range }
{
    match range {
        None => None,
        Some(range) => Some(range.letter),
    }
}

fn letters_of(ranges: Ranges) -> Letters
    ensures { result ≡ letters_of ranges }
{
    Letters {
        first: letter_of(ranges.first),
        second: letter_of(ranges.second),
        third: letter_of(ranges.third),
        fourth: letter_of(ranges.fourth),
    }
}

fn no_ranges() -> Ranges
    ensures { result ≡ no_ranges }
{
    Ranges {
        first: None,
        second: None,
        third: None,
        fourth: None,
    }
}

/// Returns what stands behind `->`; nothing where the line ends before.
fn after_arrow(text: &[u8]) -> &[u8]
    ensures { result.now ≡ after_arrow text.now }
{
    if is_arrow(text) { after(2, text) } else { text }
}

/// Reads the address of a call, what is given and what is wanted.
#[tactic(auto, unfolding(crate::specs::RowText::call_of))]
fn call_of(
    alloc: Global,
    names: &Assembly,
    letters: Letters,
    side: Side,
    entry: Entry,
    text: &[u8],
) -> Result<Call, RowFault>
    ensures ok { IfOk result
        (λ call. call_of names.now.names letters side entry text.now ≡ Ok (call_view call)) }
    ensures err { IfErr result (λ fault. fault.kind ≢ RowFaultKind.OutOfMemory
        → call_of names.now.names letters side entry text.now ≡ Err fault) }
{
    let (address, rest) = address_of(names, text)?;
    let (given, rest) = items_of(alloc, names, letters, side, rest)?;
    let (wanted, _) = items_of(alloc, names, letters, Side::Wanted, after_arrow(rest))?;
    Ok(Call {
        entry,
        address,
        request: None,
        given,
        wanted,
        steps: MOST_STEPS,
    })
}

/// Reads what else a call of a function of C has, behind its arguments: what is given besides,
/// what the function has to return, and what else is wanted.
#[tactic(auto, unfolding(crate::specs::RowText::called_function))]
fn called_function(
    alloc: Global,
    names: &Assembly,
    letters: Letters,
    callee: Callee<'_>,
    prepared: PreparedCall,
    text: &[u8],
) -> Result<Call, RowFault>
    ensures ok { IfOk result (λ call. called_function names.now.names letters
        (callee_view callee.entry) (prepared_view prepared) text.now ≡ Ok (call_view call)) }
    ensures err { IfErr result (λ fault. fault.kind ≢ RowFaultKind.OutOfMemory
        → called_function names.now.names letters (callee_view callee.entry)
        (prepared_view prepared) text.now ≡ Err fault) }
{
    let PreparedCall { mut given, start } = prepared;
    let (items, rest) = items_of(alloc, names, letters, Side::Alone, text)?;
    append(&mut given, &items)?;
    let (results, rest) = result_items(alloc, names, letters, after_arrow(rest))?;
    let (others, _) = items_of(alloc, names, letters, Side::Wanted, rest)?;
    let mut wanted = items_from(alloc, &[number_at(callee.pointer, start as u32)])?;
    append(&mut wanted, &results)?;
    append(&mut wanted, &others)?;
    Ok(Call {
        entry: Entry::Subroutine,
        address: callee.address,
        request: None,
        given,
        wanted,
        steps: MOST_STEPS,
    })
}

/// Reads the name of a function of C, its arguments, and what else its call has.
#[tactic(auto, unfolding(crate::specs::RowText::c_call_of))]
fn c_call_of(
    alloc: Global,
    names: &Assembly,
    program: &CProgram,
    letters: Letters,
    text: &[u8],
) -> Result<Call, RowFault>
    ensures ok { IfOk result (λ call. c_call_of names.now.names (program_view program.now) letters
        text.now ≡ Ok (call_view call)) }
    ensures err { IfErr result (λ fault. fault.kind ≢ RowFaultKind.OutOfMemory
        → c_call_of names.now.names (program_view program.now) letters text.now ≡ Err fault) }
{
    let callee = callee_of(names, program, text)?;
    let inside = after(1, after_word(text));
    let (list, rest) = arguments_of(alloc, names, letters, callee.sizes, inside)?;
    let prepared = prepared_of(alloc, names, callee, text, &list)?;
    called_function(alloc, names, letters, callee, prepared, rest)
}

/// Reads the call of a subroutine, or of a function of C, behind whose name `(` stands.
fn subroutine_of(
    alloc: Global,
    names: &Assembly,
    program: &CProgram,
    letters: Letters,
    side: Side,
    text: &[u8],
) -> Result<Call, RowFault>
    ensures ok { IfOk result (λ call. subroutine_of names.now.names (program_view program.now)
        letters side text.now ≡ Ok (call_view call)) }
    ensures err { IfErr result (λ fault. fault.kind ≢ RowFaultKind.OutOfMemory
        → subroutine_of names.now.names (program_view program.now) letters side text.now
        ≡ Err fault) }
{
    if is_next(b'(', after_word(text)) {
        c_call_of(alloc, names, program, letters, text)
    } else {
        call_of(alloc, names, letters, side, Entry::Subroutine, text)
    }
}

/// Reads `call` with a subroutine, or `interrupt` with a handler.
#[tactic(auto, unfolding(crate::specs::RowText::entered_of))]
fn entered_of(
    alloc: Global,
    names: &Assembly,
    program: &CProgram,
    letters: Letters,
    side: Side,
    text: &[u8],
) -> Result<Call, RowFault>
    ensures ok { IfOk result (λ call. entered_of names.now.names (program_view program.now)
        letters side text.now ≡ Ok (call_view call)) }
    ensures err { IfErr result (λ fault. fault.kind ≢ RowFaultKind.OutOfMemory
        → entered_of names.now.names (program_view program.now) letters side text.now
        ≡ Err fault) }
{
    if is_text(word_of(text), b"call") {
        subroutine_of(alloc, names, program, letters, side, after_word(text))
    } else if is_text(word_of(text), b"interrupt") {
        call_of(
            alloc,
            names,
            letters,
            side,
            Entry::Interrupt,
            after_word(text),
        )
    } else {
        Err(fault_at(RowFaultKind::NoCall, text))
    }
}

/// Reads `cycle` and how many cycles.
#[tactic(auto, unfolding(crate::specs::RowText::cycle_of))]
fn cycle_of<'a>(
    names: &Assembly,
    letters: Letters,
    text: &'a [u8],
) -> Result<(Value, &'a [u8]), RowFault>
    ensures ok { IfOk result
        (λ p. cycle_of names.now.names letters text.now ≡ Ok (p.0, p.1.now)) }
    ensures err { IfErr result (λ fault. cycle_of names.now.names letters text.now ≡ Err fault) }
{
    if is_text(word_of(text), b"cycle") {
        value_of(names, letters, Base::Decimal, after_word(text))
    } else {
        Err(fault_at(RowFaultKind::NoTime, text))
    }
}

/// Reads when an interrupt is asked for: `at cycle`, and how many cycles.
#[tactic(auto, unfolding(crate::specs::RowText::time_of))]
fn time_of<'a>(
    names: &Assembly,
    letters: Letters,
    text: &'a [u8],
) -> Result<(Value, &'a [u8]), RowFault>
    ensures ok { IfOk result
        (λ p. time_of names.now.names letters text.now ≡ Ok (p.0, p.1.now)) }
    ensures err { IfErr result (λ fault. time_of names.now.names letters text.now ≡ Err fault) }
{
    if is_text(word_of(text), b"at") {
        cycle_of(names, letters, after_word(text))
    } else {
        Err(fault_at(RowFaultKind::NoTime, text))
    }
}

/// Reads when an interrupt is asked for, `:` and the call that it comes into.
#[tactic(auto, unfolding(crate::specs::RowText::requested_of))]
fn requested_of(
    alloc: Global,
    names: &Assembly,
    program: &CProgram,
    letters: Letters,
    side: Side,
    signal: Signal,
    text: &[u8],
) -> Result<Call, RowFault>
    ensures ok { IfOk result
        (λ call. requested_of names.now.names
        (program_view program.now) letters side signal text.now
        ≡ Ok (call_view call)) }
    ensures err { IfErr result (λ fault. fault.kind ≢ RowFaultKind.OutOfMemory
        → requested_of names.now.names (program_view program.now) letters side signal text.now
        ≡ Err fault) }
{
    let (cycle, rest) = time_of(names, letters, text)?;
    let rest = after_sign(b':', rest)?;
    let mut call = entered_of(alloc, names, program, letters, side, rest)?;
    call.request = Some(Request { signal, cycle });
    Ok(call)
}

/// Reads a call, and before it the interrupt that comes into it, if one does.
#[tactic(auto, unfolding(crate::specs::RowText::called_of))]
fn called_of(
    alloc: Global,
    names: &Assembly,
    program: &CProgram,
    letters: Letters,
    side: Side,
    text: &[u8],
) -> Result<Call, RowFault>
    ensures ok { IfOk result
        (λ call. called_of names.now.names (program_view program.now) letters side text.now
        ≡ Ok (call_view call)) }
    ensures err { IfErr result (λ fault. fault.kind ≢ RowFaultKind.OutOfMemory
        → called_of names.now.names (program_view program.now) letters side text.now ≡ Err fault) }
{
    if is_text(word_of(text), b"irq") {
        requested_of(
            alloc,
            names,
            program,
            letters,
            side,
            Signal::Irq,
            after_word(text),
        )
    } else if is_text(word_of(text), b"nmi") {
        requested_of(
            alloc,
            names,
            program,
            letters,
            side,
            Signal::Nmi,
            after_word(text),
        )
    } else {
        entered_of(alloc, names, program, letters, side, text)
    }
}

/// Returns the side of a row's call that stands before `->`.
fn side_of(part: Part) -> Side
    ensures { result ≡ side_of part }
{
    match part {
        Part::Test => Side::Given,
        Part::Setup | Part::Teardown => Side::Alone,
    }
}

/// Reads the call of a row.
fn row_with(
    alloc: Global,
    names: &Assembly,
    program: &CProgram,
    part: Part,
    ranges: Ranges,
    choice: Choice,
    text: &[u8],
) -> Result<Row, RowFault>
    ensures ok { IfOk result (λ row. row_at names.now.names
        (program_view program.now) part ranges choice text.now
        ≡ Ok (row_view row)) }
    ensures err { IfErr result (λ fault. fault.kind ≢ RowFaultKind.OutOfMemory
        → row_at names.now.names (program_view program.now) part ranges choice text.now
        ≡ Err fault) }
{
    let call = called_of(
        alloc,
        names,
        program,
        letters_of(ranges),
        side_of(part),
        text,
    )?;
    Ok(Row {
        part,
        ranges,
        choice,
        call,
        points: 1,
    })
}

fn range_letter(word: &[u8]) -> Option<u8>
    ensures { result ≡ range_letter word.now }
{
    match word {
        [letter] if b'A' <= *letter && *letter <= b'Z' => Some(*letter),
        _ => None,
    }
}

fn range_between<'a>(
    text: &[u8],
    letter: u8,
    first: u16,
    last: u16,
    rest: &'a [u8],
) -> Result<(Range, &'a [u8]), RowFault>
    ensures ok { IfOk result (λ p. range_between text.now letter first last rest.now
        ≡ Ok (p.0, p.1.now)) }
    ensures err { IfErr result
        (λ fault. range_between text.now letter first last rest.now ≡ Err fault) }
{
    if first > last {
        return Err(fault_at(RowFaultKind::EmptyRange, text));
    }
    let range = Range {
        letter,
        first,
        last,
    };
    Ok((range, rest))
}

/// The text after two dots.
fn after_dots(text: &[u8]) -> Result<&[u8], RowFault>
    ensures ok { IfOk result (λ rest. after_dots text.now ≡ Ok rest.now) }
    ensures err { IfErr result (λ fault. after_dots text.now ≡ Err fault) }
{
    if is_next(b'.', text) && is_next(b'.', &text[1..]) {
        Ok(after(2, text))
    } else {
        Err(fault_at(RowFaultKind::NoRange, text))
    }
}

/// Reads what stands after a range's letter.
#[tactic(auto, unfolding(crate::specs::RowText::values_of))]
fn values_of(letter: u8, text: &[u8]) -> Result<(Range, &[u8]), RowFault>
    ensures ok { IfOk result (λ p. values_of letter text.now ≡ Ok (p.0, p.1.now)) }
    ensures err { IfErr result (λ fault. values_of letter text.now ≡ Err fault) }
{
    if !is_text(word_of(text), b"in") {
        return Err(fault_at(RowFaultKind::NoRange, text));
    }
    let values = after_word(text);
    let (first, rest) = hex_of(values)?;
    let rest = after_dots(rest)?;
    let (last, rest) = hex_of(rest)?;
    range_between(values, letter, first, last, rest)
}

/// Reads a letter, `in`, and two values.
#[tactic(auto, unfolding(crate::specs::RowText::range_of))]
fn range_of(text: &[u8]) -> Result<(Range, &[u8]), RowFault>
    ensures ok { IfOk result (λ p. range_of text.now ≡ Ok (p.0, p.1.now)) }
    ensures err { IfErr result (λ fault. range_of text.now ≡ Err fault) }
{
    match range_letter(word_of(text)) {
        Some(letter) => values_of(letter, after_word(text)),
        None => Err(fault_at(RowFaultKind::NoRange, text)),
    }
}

/// Reads a further range, if a comma comes next.
#[tactic(auto, unfolding(crate::specs::RowText::next_range))]
fn next_range(text: &[u8]) -> Result<(Option<Range>, &[u8]), RowFault>
    ensures ok { IfOk result (λ p. next_range text.now ≡ Ok (p.0, p.1.now)) }
    ensures err { IfErr result (λ fault. next_range text.now ≡ Err fault) }
{
    if is_next(b',', text) {
        let (range, rest) = range_of(after(1, text))?;
        Ok((Some(range), rest))
    } else {
        Ok((None, text))
    }
}

/// Reads one range to four, with commas between them.
#[tactic(auto, unfolding(crate::specs::RowText::ranges_of))]
fn ranges_of(text: &[u8]) -> Result<(Ranges, &[u8]), RowFault>
    ensures ok { IfOk result (λ p. ranges_of text.now ≡ Ok (p.0, p.1.now)) }
    ensures err { IfErr result (λ fault. ranges_of text.now ≡ Err fault) }
{
    let (first, rest) = range_of(text)?;
    let (second, rest) = next_range(rest)?;
    let (third, rest) = next_range(rest)?;
    let (fourth, rest) = next_range(rest)?;
    let ranges = Ranges {
        first: Some(first),
        second,
        third,
        fourth,
    };
    Ok((ranges, rest))
}

/// Reads ranges, `:` and a call for values of them.
#[tactic(auto, unfolding(crate::specs::RowText::chosen_of))]
fn chosen_of(
    alloc: Global,
    names: &Assembly,
    program: &CProgram,
    choice: Choice,
    text: &[u8],
) -> Result<Row, RowFault>
    ensures ok { IfOk result
        (λ row. chosen_of names.now.names (program_view program.now) choice text.now
        ≡ Ok (row_view row)) }
    ensures err { IfErr result (λ fault. fault.kind ≢ RowFaultKind.OutOfMemory
        → chosen_of names.now.names (program_view program.now) choice text.now ≡ Err fault) }
{
    let (ranges, rest) = ranges_of(text)?;
    let rest = after_sign(b':', rest)?;
    row_with(alloc, names, program, Part::Test, ranges, choice, rest)
}

/// Reads how often a call is made: once at least.
#[tactic(auto, unfolding(crate::specs::RowText::count_of))]
fn count_of(text: &[u8]) -> Result<(u32, &[u8]), RowFault>
    ensures ok { IfOk result (λ p. count_of text.now ≡ Ok (p.0, p.1.now)) }
    ensures err { IfErr result (λ fault. count_of text.now ≡ Err fault) }
{
    let (count, rest) = number_of(Base::Decimal, text)?;
    if count == 0 {
        return Err(fault_at(RowFaultKind::Syntax, text));
    }
    Ok((count, rest))
}

/// Reads `seed` and where the numbers begin.
#[tactic(auto, unfolding(crate::specs::RowText::seed_of))]
fn seed_of(text: &[u8]) -> Result<(u32, &[u8]), RowFault>
    ensures ok { IfOk result (λ p. seed_of text.now ≡ Ok (p.0, p.1.now)) }
    ensures err { IfErr result (λ fault. seed_of text.now ≡ Err fault) }
{
    if is_text(word_of(text), b"seed") {
        number_of(Base::Decimal, after_word(text))
    } else {
        Err(fault_at(RowFaultKind::NoSeed, text))
    }
}

/// Reads a call for values of ranges, or a call alone where no letter of a range stands there.
#[tactic(auto, unfolding(crate::specs::RowText::drawn_of))]
fn drawn_of(
    alloc: Global,
    names: &Assembly,
    program: &CProgram,
    choice: Choice,
    text: &[u8],
) -> Result<Row, RowFault>
    ensures ok { IfOk result
        (λ row. drawn_of names.now.names (program_view program.now) choice text.now
        ≡ Ok (row_view row)) }
    ensures err { IfErr result (λ fault. fault.kind ≢ RowFaultKind.OutOfMemory
        → drawn_of names.now.names (program_view program.now) choice text.now ≡ Err fault) }
{
    if range_letter(word_of(text)).is_some() {
        chosen_of(alloc, names, program, choice, text)
    } else {
        row_with(alloc, names, program, Part::Test, no_ranges(), choice, text)
    }
}

/// Reads how many times, `seed`, where the numbers begin, and a call, with ranges or alone.
#[tactic(auto, unfolding(crate::specs::RowText::random_of))]
fn random_of(
    alloc: Global,
    names: &Assembly,
    program: &CProgram,
    text: &[u8],
) -> Result<Row, RowFault>
    ensures ok { IfOk result (λ row. random_of names.now.names (program_view program.now) text.now
        ≡ Ok (row_view row)) }
    ensures err { IfErr result (λ fault. fault.kind ≢ RowFaultKind.OutOfMemory
        → random_of names.now.names (program_view program.now) text.now ≡ Err fault) }
{
    let (count, rest) = count_of(text)?;
    let (seed, rest) = seed_of(rest)?;
    let rest = after_sign(b':', rest)?;
    drawn_of(alloc, names, program, Choice::Random { count, seed }, rest)
}

/// Reads a call for all values of ranges or for some, or a call alone.
#[tactic(auto, unfolding(crate::specs::RowText::row_of))]
fn row_of(alloc: Global, names: &Assembly, program: &CProgram, text: &[u8]) -> Result<Row, RowFault>
    ensures ok { IfOk result (λ row. row_of names.now.names (program_view program.now) text.now
        ≡ Ok (row_view row)) }
    ensures err { IfErr result (λ fault. fault.kind ≢ RowFaultKind.OutOfMemory
        → row_of names.now.names (program_view program.now) text.now ≡ Err fault) }
{
    if is_text(word_of(text), b"all") {
        chosen_of(alloc, names, program, Choice::All, after_word(text))
    } else if is_text(word_of(text), b"random") {
        random_of(alloc, names, program, after_word(text))
    } else {
        row_with(
            alloc,
            names,
            program,
            Part::Test,
            no_ranges(),
            Choice::All,
            text,
        )
    }
}

/// Reads `=` and how many points a row is worth.
fn points_after(text: &[u8]) -> Result<(u32, &[u8]), RowFault>
    ensures ok { IfOk result (λ p. points_after text.now ≡ Ok (p.0, p.1.now)) }
    ensures err { IfErr result (λ fault. points_after text.now ≡ Err fault) }
{
    number_of(Base::Decimal, after_sign(b'=', text)?)
}

/// Reads a row, and how many points it is worth where `points=` stands before it.
#[tactic(auto, unfolding(crate::specs::RowText::pointed_row_of))]
fn pointed_row_of(
    alloc: Global,
    names: &Assembly,
    program: &CProgram,
    text: &[u8],
) -> Result<Row, RowFault>
    ensures ok { IfOk result (λ row. pointed_row_of names.now.names
        (program_view program.now) text.now
        ≡ Ok (row_view row)) }
    ensures err { IfErr result (λ fault. fault.kind ≢ RowFaultKind.OutOfMemory
        → pointed_row_of names.now.names (program_view program.now) text.now ≡ Err fault) }
{
    if is_text(word_of(text), b"points") {
        let (points, rest) = points_after(after_word(text))?;
        let mut row = row_of(alloc, names, program, rest)?;
        row.points = points;
        Ok(row)
    } else {
        row_of(alloc, names, program, text)
    }
}

/// Reads `:` and a call that is made before each row, or after it.
#[tactic(auto, unfolding(crate::specs::RowText::around_of))]
fn around_of(
    alloc: Global,
    names: &Assembly,
    program: &CProgram,
    part: Part,
    text: &[u8],
) -> Result<Row, RowFault>
    ensures ok { IfOk result
        (λ row. around_of names.now.names (program_view program.now) part text.now
        ≡ Ok (row_view row)) }
    ensures err { IfErr result (λ fault. fault.kind ≢ RowFaultKind.OutOfMemory
        → around_of names.now.names (program_view program.now) part text.now ≡ Err fault) }
{
    let rest = after_sign(b':', text)?;
    row_with(alloc, names, program, part, no_ranges(), Choice::All, rest)
}

/// Returns the text of a row behind `hidden`, if that stands before it.
fn unhidden(text: &[u8]) -> &[u8]
    ensures { result.now ≡ unhidden text.now }
{
    if is_text(word_of(text), b"hidden") {
        after_word(text)
    } else {
        text
    }
}

/// Reads a call before each row, one after each, or a row.
#[tactic(auto, unfolding(crate::specs::RowText::part_of))]
fn part_of(
    alloc: Global,
    names: &Assembly,
    program: &CProgram,
    text: &[u8],
) -> Result<Row, RowFault>
    ensures ok { IfOk result (λ row. part_of names.now.names (program_view program.now) text.now
        ≡ Ok (row_view row)) }
    ensures err { IfErr result (λ fault. fault.kind ≢ RowFaultKind.OutOfMemory
        → part_of names.now.names (program_view program.now) text.now ≡ Err fault) }
{
    if is_text(word_of(text), b"setup") {
        around_of(alloc, names, program, Part::Setup, after_word(text))
    } else if is_text(word_of(text), b"teardown") {
        around_of(alloc, names, program, Part::Teardown, after_word(text))
    } else {
        pointed_row_of(alloc, names, program, unhidden(text))
    }
}

/// Returns whether a line says what is run before or after each row.
pub fn is_around(line: &[u8]) -> bool
    ensures { result ≡ is_around line.now }
{
    let word = word_of(skip_blanks(line));
    is_text(word, b"setup") || is_text(word, b"teardown")
}

/// Returns whether no text is told of the row of a line.
pub fn is_hidden(line: &[u8]) -> bool
    ensures { result ≡ is_hidden line.now }
{
    is_text(word_of(skip_blanks(line)), b"hidden")
}

fn is_call(word: &[u8]) -> bool
    ensures { result ≡ is_call word.now }
{
    is_text(word, b"call") || is_text(word, b"interrupt")
}

/// Returns whether `call` or `interrupt` comes next.
fn is_call_next(text: &[u8]) -> bool
    ensures { result ≡ is_call (word_of text.now) }
{
    is_call(word_of(text))
}

/// Returns the second word of a text.
fn second_word(text: &[u8]) -> &[u8]
    ensures { result.now ≡ word_of (after_word text.now) }
{
    word_of(after_word(text))
}

/// Returns a text without the word, or the byte that is in none, at its front.
fn behind_word(text: &[u8]) -> &[u8]
    ensures { result.now ≡ behind_word text.now }
{
    if word_of(text).is_empty() {
        without_first(text)
    } else {
        after_word(text)
    }
}

/// Returns the routine that a line names: the word behind its first `call` or `interrupt`, or no
/// byte.
fn routine_of(line: &[u8]) -> &[u8]
    ensures { result.now ≡ routine_of line.now }
{
    let mut rest = line;
    for _ in 0..line.len() {
        if is_call_next(rest) {
            return second_word(rest);
        }
        rest = behind_word(rest);
    }
    b""
}

/// Returns whether a row is read where the rows of a routine alone are.
fn is_picked(only: &[u8], line: &[u8]) -> bool
    ensures { result ≡ is_picked only.now line.now }
{
    only.is_empty() || is_text(routine_of(line), only)
}

/// Returns whether a row is one of another routine than the one whose rows alone are read.
fn is_left_out(only: &[u8], line: &[u8]) -> bool
    ensures { result ≡ is_left_out only.now line.now }
{
    !is_picked(only, line) && !is_around(line)
}

/// Returns the values of its ranges that a row is run for, where random numbers begin elsewhere.
fn seeded(seed: Option<u32>, choice: Choice) -> Choice
    ensures { result ≡ seeded seed choice }
{
    match (seed, choice) {
        (None, _) => choice,
        (Some(_), Choice::All) => Choice::All,
        (Some(seed), Choice::Random { count, .. }) => Choice::Random { count, seed },
    }
}

/// Returns how many points a row is worth that begins with this text, or 1 where the number cannot
/// be read.
#[tactic(auto, unfolding(crate::specs::RowText::points_before))]
fn points_before(text: &[u8]) -> u32
    ensures { result ≡ points_before text.now }
{
    if is_text(word_of(text), b"points") {
        match points_after(after_word(text)) {
            Ok((points, _)) => points,
            Err(_) => 1,
        }
    } else {
        1
    }
}

/// Returns how many points the row of a line is worth, whether it can be read or not.
pub fn points_in(line: &[u8]) -> u32
    ensures { result ≡ points_in line.now }
{
    points_before(unhidden(skip_blanks(line)))
}

/// Returns how many points a line is worth: none where it is blank or a comment, says what is run
/// before or after each row, or is left out.
pub fn worth_of(only: &[u8], line: &[u8]) -> u32
    ensures { result ≡ worth_of only.now line.now }
{
    if ends(skip_blanks(line)) {
        0
    } else if is_around(line) {
        0
    } else if is_left_out(only, line) {
        0
    } else {
        points_in(line)
    }
}

/// Reads a line after the one that names the source: a row as it is asked for, or nothing where the
/// line is blank or a comment, or a row that is left out.
///
/// # Errors
///
/// - `Syntax`: something else has to stand where the fault is.
/// - `UndefinedName`: the source does not define the name there.
/// - `AddressRange`: the number of a name, or a sum, is outside 0..65535.
/// - `EmptyRange`: the last value of a range is below its first.
/// - `SecondSource`: the line names a source.
/// - `OutOfMemory`: a request for memory was refused.
///
/// The first that is met from left to right is told. Source: mos65.
#[tactic(auto, unfolding(crate::specs::RowText::line_of))]
pub fn read_row(
    alloc: Global,
    names: &Assembly,
    program: &CProgram,
    asking: Asking<'_>,
    line: &[u8],
) -> Result<Option<Row>, RowFault>
    ensures ok { IfOk result (λ row. line_of (asking_view asking.entry) names.now.names
        (program_view program.now) line.now
        ≡ Ok (option_map row_view row)) }
    ensures err { IfErr result (λ fault. fault.kind ≢ RowFaultKind.OutOfMemory
        → line_of (asking_view asking.entry) names.now.names (program_view program.now) line.now
        ≡ Err fault) }
{
    if is_left_out(asking.only, line) {
        return Ok(None);
    }
    let text = skip_blanks(line);
    if ends(text) {
        Ok(None)
    } else if is_text(word_of(text), b"source") {
        Err(fault_at(RowFaultKind::SecondSource, text))
    } else {
        let mut row = part_of(alloc, names, program, text)?;
        row.call.steps = asking.steps;
        row.choice = seeded(asking.seed, row.choice);
        Ok(Some(row))
    }
}
